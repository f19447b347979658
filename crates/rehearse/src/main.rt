// Reads messages from standard input, does their submissions on a manager over 64 zero stamps, and prints a line for each event.
#![tactic(auto)]

use rehearse_run::{MAX_INPUT, Rehearsal};
use std::alloc::{AllocError, Global};
use stream_program::{Job, serve_job};

const HELP: &str = "usage: rehearse < MESSAGES

Reads messages of version 2 from standard input, at most 65536 bytes; what stands behind them is not looked at.
Feeds each to a manager of 256 seats and 512 versions over 64 stamps that are zero.
Prints, a line each: `sub SEAT` for a submission that is accepted, `ran SEAT` for a task that has run, `no NUMBER` for a message that is
refused, which ends the run, and `end` when the bytes have ended and no task is unfinished.
Where a submission stalls, by 10, 11 or 12, one task runs, and the same message is fed again.
docs/REHEARSE.md has an example, docs/MESSAGES.md the bytes of a message, docs/REFUSALS.md the numbers of what is refused.";

// The submissions on a manager.
struct Rehearse;

impl Job for Rehearse {
    type Report = Rehearsal;

    fn report(heap: Global, bytes: &[u8]) -> Result<Rehearsal, AllocError> {
        rehearse_run::rehearse(heap, bytes)
    }
}

fn main(rt: HostRuntime) -> anyhow::Result<()> {
    serve_job::<Rehearse>(&rt, HELP, MAX_INPUT as u64)
}
