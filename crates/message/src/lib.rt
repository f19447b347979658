// Messages of the planner, and a reader over a run of bytes.
#![tactic(auto)]

mod fields;
mod guard;
mod kind;
mod reader;

pub use guard::PlaceGuard;
pub use reader::{Reader, read_message};
use task::Task;

// A task is submitted, or a seat is finished.
#[derive(Clone, Copy)]
pub enum Message {
    Submission(Task),
    Finish(u16),
}

// A place in a run of bytes, counted from its first byte.
#[derive(Clone, Copy, PartialEq, Eq, Debug)]
pub struct Place {
    pub at: usize,
}
