// The job of the program `rehearse`: the submissions of a stream on a manager over 64 zero stamps, a turn wherever one stalls, and turns
// until no task is unfinished.
#![tactic(auto)]

mod line;
mod rounds;

ghost use Rattle.rehearse_run.specs.Job.{Rehearses};
ghost use Rattle.rehearse_run.specs.Text.{text_of};
ghost use Rattle.std.specs.Prelude.{IfOk, Some};

pub use line::{Line, line_bytes};
use message::Reader;
use rounds::Session;
use runs::new_manager;
use serial_run::looked_at;
pub use serial_run::{MAX_INPUT, STAMPS};
use stamp_host::StampHost;
use std::alloc::{AllocError, Global};
use std::fmt;

// How many seats and versions the manager has.
pub const SEATS: usize = 256;

pub const VERSIONS: usize = 512;

// The lines of a stream, and the stamps that it left.
#[derive(Drop)]
pub struct Rehearsal {
    pub lines: Vec<Line>,
    pub host: StampHost,
}

// The lines, each with a newline at its end.
impl fmt::Display for Rehearsal {
    ghost output = { λ r. Some (text_of r.lines.items) };

    fn fmt<W: fmt::Write>(&self, f: &mut fmt::Formatter<W>) -> fmt::Result {
        for line in self.lines.iter() {
            writeln!(f, "{line}")?;
        }
        Ok(())
    }
}

// Feeds every message of the first 65,536 bytes, with a turn wherever a submission stalls, and turns at the end until no task is unfinished.
pub fn rehearse(heap: Global, bytes: &[u8]) -> Result<Rehearsal, AllocError>
    ensures { IfOk result (λ p. Rehearses bytes.now p) }
{
    let host = StampHost::zeros(heap, STAMPS)?;
    let manager = new_manager(heap, &host, SEATS, VERSIONS)?;
    let lines = Vec::new(heap);
    let mut session = Session {
        manager,
        host,
        lines,
    };
    let mut reader = Reader::new(looked_at(bytes));
    session.feed_all(&mut reader)?;
    let Session { host, lines, .. } = session;
    Ok(Rehearsal { lines, host })
}
