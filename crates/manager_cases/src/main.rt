// Runs calls on managers: each line of standard input is a case, a label, the numbers of seats, versions and stamps, the numbers of slots
// of the work line and of the notice line, and the calls. Prints the label and what each call answers; at the end the stamps that are not
// zero, and, where a case has none but the four calls, whether `run_calls` answers the same and leaves the same stamps.
#![tactic(auto)]

mod asked;
mod bench;
mod case;
mod shown;

use anyhow::Context;
use case::run_case;

fn main(rt: HostRuntime) -> anyhow::Result<()> {
    run_cases(&rt)
}

// Kept: cases::run_cases reads each line as a StreamCase, whose contract names its three words; these lines go on with other words.
fn run_cases(rt: &HostRuntime) -> anyhow::Result<()> {
    for line in rt.lines(rt.alloc()) {
        let line = line?;
        let mut words = line.as_str().split_whitespace();
        let label = words.next().context("a case has a label")?;
        println!(rt; "== {label}")?;
        run_case(rt, &mut words)?;
    }
    Ok(())
}
