// Runs `serial` on many streams: each line of standard input is a case, a label, how often its bytes are repeated, and the bytes in
// hexadecimal (or - for none). Prints the label and what `serial` prints.
#![tactic(auto)]

use cases::{CaseJob, run_job_on_cases};

// Prints the report of `serial`.
struct Serial;

impl CaseJob for Serial {
    fn run(rt: &HostRuntime, bytes: &[u8]) -> anyhow::Result<()> {
        let report = serial_run::run(rt.alloc(), bytes)?;
        print!(rt; "{report}")?;
        Ok(())
    }
}

fn main(rt: HostRuntime) -> anyhow::Result<()> {
    run_job_on_cases::<Serial>(&rt)
}
