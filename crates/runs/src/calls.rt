// The calls of a manager as values, and what they answer.
ghost use Rattle.std.specs.Prelude.{Some};
ghost use Rattle.runs.specs.Text.{answer_text};

use std::fmt;
use task::Access;

// A call of the manager, with what it is handed.
#[derive(Clone, Copy)]
pub enum Call<'a> {
    Submit {
        name: u32,
        kind: u32,
        accesses: &'a [Access],
    },
    Take,
    Step {
        seat: u16,
    },
    Finish {
        seat: u16,
    },
}

// What a call answers where it is not refused.
#[derive(Clone, Copy, PartialEq, Eq, Debug)]
pub enum Answer {
    // A submission: the seat that the task got.
    Seated { seat: u16 },
    // A take: the seat, the kind and the name of the task that begins to run.
    Taken { seat: u16, kind: u32, name: u32 },
    // A step that brought this access of the task.
    Brought { access: u8 },
    // A step that put this access of the task.
    Put { access: u8 },
    // A finish: how many tasks became ready.
    Woke { count: u16 },
}

impl fmt::Display for Answer {
    ghost output = { λ a. Some (answer_text a) };

    fn fmt<W: fmt::Write>(&self, f: &mut fmt::Formatter<W>) -> fmt::Result {
        match *self {
            Answer::Seated { seat } => write!(f, "seat {seat}"),
            Answer::Taken { seat, kind, name } => write!(
                f,
                "took seat {seat} kind {kind} name {name}"
            ),
            Answer::Brought { access } => write!(f, "brought {access}"),
            Answer::Put { access } => write!(f, "put {access}"),
            Answer::Woke { count } => write!(f, "woke {count}"),
        }
    }
}
