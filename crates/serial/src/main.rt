// Reads messages from standard input, does every submission in turn, alone, over 64 zero stamps, and prints what was done.
#![tactic(auto)]

use serial_run::{MAX_INPUT, Report};
use std::alloc::{AllocError, Global};
use stream_program::{Job, serve_job};

const HELP: &str = "usage: serial < MESSAGES

Reads messages of version 2 (submissions and finish notices) from standard input, at most 65536 bytes.
Does every submission in turn, from first to last before the next begins, over 64 stamps that are zero.
Prints a line for each task: its name, its kind, what it read and what it wrote; and one for each finish notice, which is passed over.
Then says whether there were more bytes, how the stream ended, and which stamps are not zero. A message that is refused ends the run.
docs/MESSAGES.md has the bytes of a message, docs/REFUSALS.md the numbers of what is refused.";

// Every submission in turn, alone.
struct Serial;

impl Job for Serial {
    type Report = Report;

    fn report(heap: Global, bytes: &[u8]) -> Result<Report, AllocError> {
        serial_run::run(heap, bytes)
    }
}

fn main(rt: HostRuntime) -> anyhow::Result<()> {
    // One byte more than is looked at, so that the report can say that there were more.
    serve_job::<Serial>(&rt, HELP, MAX_INPUT as u64 + 1)
}
