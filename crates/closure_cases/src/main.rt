// Tries `serve` and `run_cases` with closures that hold a value: the first four bytes of standard input go to the one, and each line
// behind them is a case for the other. Prints the value and the bytes.
#![tactic(auto)]

use cases::run_cases;
use stream_program::serve;

const HELP: &str = "usage: closure_cases < BYTES

Prints the first four bytes of standard input, and then the bytes of the case on each line behind them.
With an argument it prints this text in place of the four bytes, and every line is a case.";

fn main(rt: HostRuntime) -> anyhow::Result<()> {
    let word = "stream";
    serve(
        &rt,
        HELP,
        4,
        |bytes| format!(in rt.alloc(); "{word} {bytes:?}\n"),
    )?;
    let word = "case";
    run_cases(&rt, |bytes| {
        println!(rt; "{word} {bytes:?}")?;
        Ok(())
    })
}
