// A line that `rehearse` writes, and its bytes.
ghost use Rattle.std.specs.Prelude.{◌≡◌, IfOk, Some};
ghost use Rattle.rehearse_run.specs.Text.{line_text, bytes_of_line};

use std::alloc::{AllocError, Global};
use std::fmt;

// A submission was accepted on a seat; the task in a seat has run; a message was refused, by its number; no task is unfinished.
// Kept: a line is what is printed, and of a refusal that is the number alone.
#[derive(Clone, Copy, PartialEq, Eq, Debug)]
pub enum Line {
    Sub { seat: u16 },
    Ran { seat: u16 },
    No { number: u8 },
    End,
}

impl fmt::Display for Line {
    ghost output = { λ l. Some (line_text l) };

    fn fmt<W: fmt::Write>(&self, f: &mut fmt::Formatter<W>) -> fmt::Result {
        match *self {
            Line::Sub { seat } => write!(f, "sub {seat}"),
            Line::Ran { seat } => write!(f, "ran {seat}"),
            Line::No { number } => write!(f, "no {number}"),
            Line::End => write!(f, "end"),
        }
    }
}

// The bytes of a line, with the newline at its end.
pub fn line_bytes(heap: Global, line: &Line) -> Result<Vec<u8>, AllocError>
    ensures { IfOk result (λ v. v.items ≡ bytes_of_line line.now) }
{
    let text = format!(in heap; "{line}\n")?;
    Ok(text.into_bytes())
}
