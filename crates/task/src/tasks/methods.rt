// Making a task, reading its accesses, and whether two tasks conflict.
ghost use Rattle.std.specs.Prelude.{◌≡◌, ◌<◌, ◌≤◌, [], ◌∷◌, ◌++◌, length, if◌then◌else◌, Ok, Err, MatchResult, nat_lt};
ghost use Rattle.fault.specs.declared.ManagerFault.TheVariants.{TooManyAccesses};
ghost use Rattle.task.specs.Access.{conflicting, some_access, conflict};
ghost use Rattle.task.specs.Limits.{max_accesses};
ghost use Rattle.task.specs.Task.{accesses_of};

use crate::tasks::{MAX_ACCESSES, Task};
use crate::{Access, Direction};
use fault::ManagerFault;

// What a slot holds before an access is put into it.
const UNUSED: Access = Access {
    address: 0,
    direction: Direction::In,
};

impl Task {
    // A task with no access yet.
    pub fn new(name: u32, kind: u32) -> Task
        ensures name { result.name ≡ name }
        ensures kind { result.kind ≡ kind }
        ensures accesses { accesses_of result ≡ [] }
    {
        Task {
            name,
            kind,
            slots: [UNUSED; MAX_ACCESSES],
            count: 0,
        }
    }

    // One access more, or a refusal where the task has 15.
    pub fn push(&mut self, access: Access) -> Result<(), ManagerFault>
        ensures value { result ≡ (if nat_lt (length (accesses_of self.old)) max_accesses then Ok tt else Err TooManyAccesses) }
        ensures name { self.new.name ≡ self.old.name }
        ensures kind { self.new.kind ≡ self.old.kind }
        ensures accesses { accesses_of self.new ≡ (if nat_lt (length (accesses_of self.old)) max_accesses then accesses_of self.old ++ (access ∷ []) else accesses_of self.old) }
    {
        let at = self.count;
        if at >= MAX_ACCESSES {
            return Err(ManagerFault::TooManyAccesses);
        }
        self.slots[at] = access;
        self.count = at + 1;
        Ok(())
    }

    // A task with these accesses, or a refusal where there are more than 15.
    pub fn from_slice(name: u32, kind: u32, accesses: &[Access]) -> Result<Task, ManagerFault>
        ensures cases { MatchResult result (λ t. (length accesses.now ≤ max_accesses) × (t.name ≡ name) × (t.kind ≡ kind) × (accesses_of t ≡ accesses.now)) (λ e. (max_accesses < length accesses.now) × (e ≡ TooManyAccesses)) }
    {
        let mut task = Task::new(name, kind);
        for access in accesses {
            task.push(*access)?;
        }
        Ok(task)
    }

    // The accesses, in the order given.
    pub fn accesses(&self) -> &[Access]
        ensures { result.now ≡ accesses_of self.now }
    {
        &self.slots[0..self.count]
    }

    // Whether the two tasks conflict: an access of one conflicts with an access of the other.
    pub fn conflicts(&self, other: &Task) -> bool
        ensures { result ≡ conflict (accesses_of self.now) (accesses_of other.now) }
    {
        let others = other.accesses();
        self.accesses()
            .iter()
            .any(|access| conflicts_with_any(access, others))
    }
}

// Whether the access conflicts with one of the others.
fn conflicts_with_any(access: &Access, others: &[Access]) -> bool
    ensures { result ≡ some_access (conflicting access.now) others.now }
{
    others.iter().any(|other| access.conflicts(other))
}
