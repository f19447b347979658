// The job of the program `serial`: a stream of messages, one at a time over 64 zero stamps, and a report of it as text.
#![tactic(auto)]

mod text;

ghost use Rattle.serial_run.specs.Job.{max_input, Reports};
ghost use Rattle.std.specs.Prelude.{◌≡◌, IfOk, take};

use one_at_a_time::{Journal, run_stream};
use stamp_host::StampHost;
use std::alloc::{AllocError, Global};
pub use text::StampsLeft;

// How many bytes of a stream are looked at.
pub const MAX_INPUT: usize = 65_536;

// How many stamps there are.
pub const STAMPS: usize = 64;

// What was done, the stamps that it left, and whether there were more bytes than are looked at.
#[derive(Drop)]
pub struct Report {
    pub journal: Journal<u64>,
    pub host: StampHost,
    pub cut: bool,
}

// Does every submission of the first 65,536 bytes in turn, alone, over 64 zero stamps.
pub fn run(heap: Global, bytes: &[u8]) -> Result<Report, AllocError>
    ensures { IfOk result (λ p. Reports bytes.now p) }
{
    let mut host = StampHost::zeros(heap, STAMPS)?;
    let journal = run_stream(heap, &mut host, looked_at(bytes));
    let cut = bytes.len() > MAX_INPUT;
    Ok(Report { journal, host, cut })
}

// The bytes of a stream that are looked at: the first 65,536, or all if there are no more.
pub fn looked_at(bytes: &[u8]) -> &[u8]
    ensures { result.now ≡ take max_input bytes.now }
{
    let count = bytes.len().min(MAX_INPUT);
    &bytes[..count]
}
