// The record of a seat.
mod methods;

ghost use Rattle.std.specs.Prelude.{◌≡◌, true};
ghost use Rattle.task.specs.Task.{accesses_of};
ghost use Rattle.seat.specs.Phases.{sound_standing};

use crate::Standing;
use task::Task;

// A seat: the task in it, and how it stands. A free seat keeps the task that it had last.
#[derive(Clone, Copy)]
pub struct Seat {
    task: Task,
    standing: Standing,
    ghost phased: { sound_standing (accesses_of task) standing ≡ true },
}
