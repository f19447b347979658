// Reading a seat, and moving it in place.
ghost use Rattle.std.specs.Prelude.{◌≡◌, Bool, [], drop, is_some, if◌then◌else◌};
ghost use Rattle.task.specs.declared.Access.{Access};
ghost use Rattle.task.specs.Access.{reads, writes};
ghost use Rattle.task.specs.Task.{accesses_of};
ghost use Rattle.seat.specs.Phases.{next_from, put_phase, bring_phase, moved, or_else, is_free_in, next_of};

use crate::seats::Seat;
use crate::{Event, NextStep, Phase, Standing};
use task::{Access, Task};

impl Seat {
    // A seat with no task in it.
    pub fn free() -> Seat
        ensures standing { result.standing ≡ Standing.Free }
        ensures name { result.task.name ≡ 0 }
        ensures kind { result.task.kind ≡ 0 }
        ensures accesses { accesses_of result.task ≡ [] }
    {
        Seat {
            task: Task::new(0, 0),
            standing: Standing::Free,
        }
    }

    // How the seat stands.
    pub fn standing(&self) -> Standing
        ensures { result ≡ self.now.standing }
    {
        self.standing
    }

    // The task in the seat, or the last one where the seat is free.
    pub fn task(&self) -> &Task
        ensures { result.now ≡ self.now.task }
    {
        &self.task
    }

    // Whether the seat has no task.
    pub fn is_free(&self) -> bool
        ensures { result ≡ is_free_in self.now.standing }
    {
        matches!(self.standing, Standing::Free)
    }

    // Moves the seat at an event, or refuses the event and leaves the seat as it is.
    // Kept: the answer says only whether the event was taken, so a bool is as plain as a Result that holds no value and no error.
    pub fn on(&mut self, event: Event) -> bool
        ensures answer { result ≡ is_some (moved (accesses_of self.old.task) self.old.standing event) }
        ensures standing { self.new.standing ≡ or_else (moved (accesses_of self.old.task) self.old.standing event) self.old.standing }
        ensures task { self.new.task ≡ self.old.task }
    {
        let task = self.task();
        let next = match (self.standing, event) {
            (Standing::Free, Event::Entered { blocked: true }) => Standing::Waiting,
            (Standing::Free, Event::Entered { blocked: false }) => Standing::Ready,
            (Standing::Waiting, Event::Unblocked) => Standing::Ready,
            (Standing::Ready, Event::Taken) => Standing::Running(bring_from(task, 0, 0)),
            (Standing::Running(Phase::Bring { access, brought }), Event::Stepped) =>
                Standing::Running(bring_from(task, access + 1, brought + 1)),
            (Standing::Running(Phase::Put { access, brought }), Event::Stepped) =>
                Standing::Running(put_from(task, access + 1, brought)),
            (Standing::Running(Phase::Done), Event::Finished) => Standing::Free,
            _ => return false,
        };
        self.standing = next;
        true
    }

    // Puts a task into a free seat, where it waits if an earlier one blocks it; a seat that is not free stays as it is.
    // Kept: it answers what `on` answers, which is a bool.
    pub fn occupy(&mut self, task: Task, blocked: bool) -> bool
        ensures answer { result ≡ is_free_in self.old.standing }
        ensures standing { self.new.standing ≡ or_else (moved (accesses_of task) self.old.standing (Event.Entered blocked)) self.old.standing }
        ensures task { self.new.task ≡ (if is_free_in self.old.standing then task else self.old.task) }
    {
        if !self.is_free() {
            return false;
        }
        self.task = task;
        self.on(Event::Entered { blocked })
    }

    // What the next step of the task does, if it runs and has a step left.
    #[tactic(auto, using(crate::proofs::Laws::bring_low, crate::proofs::Laws::put_low))]
    pub fn next_step(&self) -> Option<NextStep>
        ensures { result ≡ next_of (accesses_of self.now.task) self.now.standing }
    {
        let accesses = self.task.accesses();
        match self.standing {
            Standing::Running(Phase::Bring { access, brought }) => Some(NextStep::Bring {
                access,
                address: accesses[access as usize].address,
                position: brought,
            }),
            Standing::Running(Phase::Put { access, brought }) => Some(NextStep::Put {
                access,
                address: accesses[access as usize].address,
                brought,
            }),
            _ => None,
        }
    }
}

// The phase of the first bring from this access on, or of the first put where none is left to bring.
fn bring_from(task: &Task, access: u8, brought: u8) -> Phase
    ensures { result ≡ bring_phase (accesses_of task.now) brought (next_from reads access (drop access (accesses_of task.now))) }
{
    match next_access(task, access, Access::reads) {
        Some(access) => Phase::Bring { access, brought },
        None => put_from(task, 0, brought),
    }
}

// The phase of the first put from this access on, or that of a task that is done.
fn put_from(task: &Task, access: u8, brought: u8) -> Phase
    ensures { result ≡ put_phase brought (next_from writes access (drop access (accesses_of task.now))) }
{
    match next_access(task, access, Access::writes) {
        Some(access) => Phase::Put { access, brought },
        None => Phase::Done,
    }
}

// The first access from this number on that passes the test.
fn next_access<F: Fn(&Access) -> bool>(task: &Task, from: u8, passes: F) -> Option<u8>
    requires { F.IsAlwaysCallable passes }
    ensures { (test : Access → Bool) → ((x : _) (b : Bool) → F.post passes x b → b ≡ test x.now) → result ≡ next_from test from (drop from (accesses_of task.now)) }
{
    task.accesses()
        .iter()
        .skip(from as usize)
        .position(passes)
        .map(|at| from + at as u8)
}
