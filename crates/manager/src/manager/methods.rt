// The calls of the manager. The contract of each says that its answer, and the state of the manager and of the host after it, are the
// outcome of the call on the roll; a refusal changes nothing.
ghost use Rattle.std.specs.Prelude.{◌≡◌, false, is_ok};
ghost use Rattle.roll.specs.Calls.{submit as submission, take as taking, step as stepping, finish as finishing, perform};
ghost use Rattle.roll.specs.Built.{left_by, take_answer, finish_answer};
ghost use Rattle.manager.specs.Model.{tables_of};
ghost use Rattle.manager.specs.Answers.{submit_answer, step_answer, state_with, setting_with, state_alone, setting_alone};

use crate::manager::Manager;
use crate::manager::steps::step_record;
use admission::check;
use fault::ManagerFault;
use host::Host;
use seat::Event;
use task::{Access, Task};

impl Manager {
    // Accepts a task, which gets the first free seat and joins the end of the roll; it is ready if no earlier task conflicts with it.
    // Answers the seat.
    // Kept: a word for what stays (fixed, tables, refused) would have to be looked up at each call; so each call says it in full.
    // Kept: a list of more than 15 accesses has to be refused by 5, and a `Task` cannot hold one; so submit takes the parts.
    pub fn submit<H: Host>(
        &mut self,
        host: &H,
        name: u32,
        kind: u32,
        accesses: &[Access],
    ) -> Result<u16, ManagerFault>
        ensures answer { result ≡ submit_answer (perform (setting_with self.old (H.Host.fixed host.now)) (state_with self.old (H.Host.values host.now)) (submission name kind accesses.now)) }
        ensures after { state_with self.new (H.Host.values host.now) ≡ left_by (state_with self.old (H.Host.values host.now)) (perform (setting_with self.old (H.Host.fixed host.now)) (state_with self.old (H.Host.values host.now)) (submission name kind accesses.now)) }
        ensures tables { tables_of self.new.inner ≡ tables_of self.old.inner }
        ensures refused { is_ok result ≡ false → self.new ≡ self.old }
    {
        check(host, accesses)?;
        let seat = self.inner.seat_for(accesses)?;
        let task = Task::from_slice(name, kind, accesses)?;
        self.inner.enter(seat, task);
        Ok(u16::from(seat))
    }

    // The first of the ready line begins to run. Answers its seat, kind and name.
    // Kept: the answer is a tuple of plain numbers, as a rule of the project has it; `turn` and `dispatch` take it apart by a pattern.
    pub fn take(&mut self) -> Result<(u16, u32, u32), ManagerFault>
        ensures answer { result ≡ take_answer (perform (setting_alone self.old) (state_alone self.old) taking) }
        ensures after { state_alone self.new ≡ left_by (state_alone self.old) (perform (setting_alone self.old) (state_alone self.old) taking) }
        ensures tables { tables_of self.new.inner ≡ tables_of self.old.inner }
        ensures refused { is_ok result ≡ false → self.new ≡ self.old }
    {
        let Some(first) = self.inner.ready.pop() else {
            return Err(ManagerFault::LineEmpty);
        };
        let occupant = self.inner.table.lend(first);
        let _ = occupant.on(Event::Taken);
        let task = occupant.task();
        Ok((u16::from(first), task.kind, task.name))
    }

    // Does the next step of a running seat on the host. Answers the number of its access, and 0 for a bring or 1 for a put.
    // Kept: the answer is a tuple of plain numbers, as a rule of the project has it; inside it is a `StepDone`, which `From` turns into it.
    pub fn step<H: Host>(&mut self, host: &mut H, seat: u16) -> Result<(u8, u8), ManagerFault>
        ensures answer { result ≡ step_answer (perform (setting_with self.old (H.Host.fixed host.old)) (state_with self.old (H.Host.values host.old)) (stepping seat)) }
        ensures after { state_with self.new (H.Host.values host.new) ≡ left_by (state_with self.old (H.Host.values host.old)) (perform (setting_with self.old (H.Host.fixed host.old)) (state_with self.old (H.Host.values host.old)) (stepping seat)) }
        ensures fixed { H.Host.fixed host.new ≡ H.Host.fixed host.old }
        ensures tables { tables_of self.new.inner ≡ tables_of self.old.inner }
        ensures refused { is_ok result ≡ false → self.new ≡ self.old }
        ensures host { is_ok result ≡ false → host.new ≡ host.old }
    {
        let Some(occupant) = self.inner.table.find(usize::from(seat)) else {
            return Err(ManagerFault::NotRunning { seat });
        };
        let done = step_record(occupant, host, seat)?;
        Ok(done.into())
    }

    // Takes a running task with no step left off the roll, gives up its seat, and wakes what it alone blocked. Answers how many became
    // ready.
    pub fn finish(&mut self, seat: u16) -> Result<u16, ManagerFault>
        ensures answer { result ≡ finish_answer (perform (setting_alone self.old) (state_alone self.old) (finishing seat)) }
        ensures after { state_alone self.new ≡ left_by (state_alone self.old) (perform (setting_alone self.old) (state_alone self.old) (finishing seat)) }
        ensures tables { tables_of self.new.inner ≡ tables_of self.old.inner }
        ensures refused { is_ok result ≡ false → self.new ≡ self.old }
    {
        let at = self.inner.finishing(seat)?;
        let span = self.inner.leave(at);
        Ok(self.inner.wake(span))
    }
}
