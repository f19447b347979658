// Runs `rehearse` on many streams: each line of standard input is a case, a label, how often its bytes are repeated, and the bytes in
// hexadecimal (or - for none). Prints the label and what `rehearse` prints; and where that ends with `end`, whether the stamps are those
// that `serial` leaves.
#![tactic(auto)]

use cases::{CaseJob, run_job_on_cases, same_stamps};
use rehearse_run::Line;

// Prints the lines of `rehearse`, and compares the stamps that it leaves.
struct Rehearse;

impl CaseJob for Rehearse {
    fn run(rt: &HostRuntime, bytes: &[u8]) -> anyhow::Result<()> {
        let rehearsal = rehearse_run::rehearse(rt.alloc(), bytes)?;
        print!(rt; "{rehearsal}")?;
        if rehearsal.lines.last() == Some(&Line::End) {
            let report = serial_run::run(rt.alloc(), bytes)?;
            let verdict = if same_stamps(&rehearsal.host, &report.host) {
                "agrees"
            } else {
                "differs"
            };
            rt.println(verdict)?;
        }
        Ok(())
    }
}

fn main(rt: HostRuntime) -> anyhow::Result<()> {
    run_job_on_cases::<Rehearse>(&rt)
}
