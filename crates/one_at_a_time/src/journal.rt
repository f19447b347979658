// What was done, message by message.
ghost use Rattle.std.specs.Prelude.{◌≡◌};
ghost use Rattle.fault.specs.declared.Cause.TheVariants.{Stream, Manager};
ghost use Rattle.one_at_a_time.specs.declared.journal.End.TheVariants.{Refused, OutOfMemory};

use fault::{Cause, ManagerFault, StreamFault};
use std::alloc::AllocError;
use task::Task;

// A task that was done, with the values that it read and wrote, each in order of access number.
#[derive(Drop)]
pub struct TaskRun<V: Copy> {
    pub task: Task,
    pub read: Vec<V>,
    pub wrote: Vec<V>,
}

// What was done at a message.
#[derive(Drop)]
pub enum Entry<V: Copy> {
    // A submission's task was done.
    Ran(TaskRun<V>),
    // A finish notice of this seat was passed over.
    PassedOver(u16),
}

// Why a run came to its end.
#[derive(Clone, Copy, PartialEq, Eq, Debug)]
pub enum End {
    // The next message is refused, or there is none.
    Refused(Cause),
    // There is no memory to go on with.
    OutOfMemory,
}

// What was done at each message, and where and why the run came to its end: the place right behind the last message that was done.
#[derive(Drop)]
pub struct Journal<V: Copy> {
    pub entries: Vec<Entry<V>>,
    pub place: usize,
    pub end: End,
}

impl From<StreamFault> for End {
    ghost from_gives = { λ f e. e ≡ Refused (Stream f) };

    fn from(f: StreamFault) -> End {
        End::Refused(Cause::Stream(f))
    }
}

impl From<ManagerFault> for End {
    ghost from_gives = { λ f e. e ≡ Refused (Manager f) };

    fn from(f: ManagerFault) -> End {
        End::Refused(Cause::Manager(f))
    }
}

impl From<AllocError> for End {
    ghost from_gives = { λ _ e. e ≡ OutOfMemory };

    fn from(_error: AllocError) -> End {
        End::OutOfMemory
    }
}
