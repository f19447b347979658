// The record of a task.
mod methods;

ghost use Rattle.std.specs.Prelude.{◌≡◌, ◌≤◌, length};
ghost use Rattle.task.specs.Limits.{max_accesses};

use crate::Access;

// How many accesses a task may have.
pub const MAX_ACCESSES: usize = 15;

// A task: a name, a kind of work, and up to 15 accesses, numbered from 0 in the order given.
// The record has room for all of them, so that no call has to find memory.
// Kept: a task is copied from call to call without asking for memory, and the vector of fixed capacity in `arrayvec` is not Copy.
#[derive(Clone, Copy)]
pub struct Task {
    pub name: u32,
    pub kind: u32,
    slots: [Access; MAX_ACCESSES],
    count: usize,
    ghost room: { length slots ≡ max_accesses },
    ghost few: { count ≤ max_accesses },
}
