// One seat of the manager: its task, its standing, and how the standing moves.
#![tactic(auto)]

mod seats;

ghost use Rattle.std.specs.Prelude.{◌≡◌, true};
ghost use Rattle.seat.specs.Laws.{AllPhasesAreTheSteps};

pub use seats::Seat;

// Which step of a running task comes next, by the number of its access, and how many values have been brought so far.
#[derive(Clone, Copy, PartialEq, Eq, Debug)]
pub enum Phase {
    Bring { access: u8, brought: u8 },
    Put { access: u8, brought: u8 },
    Done,
}

// How a seat stands: it has no task, or its task waits for an earlier one, may be taken, or runs.
#[derive(Clone, Copy, PartialEq, Eq, Debug)]
pub enum Standing {
    Free,
    Waiting,
    Ready,
    Running(Phase),
}

// What happens to a seat: a task is put into it, which an earlier one blocks or not, nothing blocks it any more,
// it is taken, one of its steps is done, and it leaves.
#[derive(Clone, Copy, PartialEq, Eq, Debug)]
pub enum Event {
    Entered { blocked: bool },
    Unblocked,
    Taken,
    Stepped,
    Finished,
}

// What the next step does: it brings the value at an address to a position, or puts the work of as many values as were brought.
#[derive(Clone, Copy, PartialEq, Eq, Debug)]
pub enum NextStep {
    Bring {
        access: u8,
        address: u64,
        position: u8,
    },
    Put {
        access: u8,
        address: u64,
        brought: u8,
    },
}

// The phases of every task go through its steps, one step at a time and in order.
pub fn phases_are_the_steps() -> bool
    ensures law { AllPhasesAreTheSteps }
    ensures value { result ≡ true }
{
    true
}
