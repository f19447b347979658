// A task enters: the seat that it gets, and all tables with it.
ghost use Rattle.std.specs.Prelude.{◌≡◌, ℕ, ◌≤◌, List, [], ◌∷◌, length, None};
ghost use Rattle.task.specs.Task.{accesses_of};
ghost use Rattle.claims.specs.Queues.{Apart};
ghost use Rattle.roll.specs.Calls.{accepted};
ghost use Rattle.manager.specs.Model.{tables_of, state_of, roll_of, free_of};
ghost use Rattle.manager.specs.Answers.{no_values};
ghost use Rattle.manager.specs.Entered.{table_fault, seat_unless};
ghost use Rattle.manager.specs.Sound.{Sound};

use crate::inner::Inner;
use fault::TableFault;
use task::{Access, Task};
use tracker::Tracker;

impl Inner {
    // The seat that a task with these accesses gets, or why the tables do not take it.
    // Kept: `Inner` is a plain struct by a rule of the project, and between the parts of a call `Sound` does not hold; so parts require it.
    pub(crate) fn seat_for(&self, accesses: &[Access]) -> Result<u8, TableFault>
        requires sound { Sound self.now }
        requires few { length accesses.now ≤ 15 }
        ensures { result ≡ seat_unless (table_fault (tables_of self.now) (roll_of self.now) (free_of self.now) accesses.now) (free_of self.now) }
    {
        if self.seats == 0 || Tracker::never_fits(accesses, self.versions) {
            return Err(TableFault::NeverFits);
        }
        let seat = self.free.first().ok_or(TableFault::NoFreeSeat)?;
        self.tracker.stall(accesses, self.versions)?;
        Ok(seat)
    }

    // The task enters the first free seat, which is this one, and joins the end of the roll.
    // Kept: what stays (tables) is said of each part of a call by itself, as it is of each call.
    pub(crate) fn enter(&mut self, seat: u8, task: Task)
        requires sound { Sound self.old }
        requires first { (rest : List ℕ) × (free_of self.old ≡ seat ∷ rest) }
        requires apart { Apart (accesses_of task) }
        requires fits { table_fault (tables_of self.old) (roll_of self.old) (free_of self.old) (accesses_of task) ≡ None }
        ensures after { (rest : List ℕ) → free_of self.old ≡ seat ∷ rest → state_of self.new no_values ≡ (accepted (state_of self.old no_values) task.name task.kind (accesses_of task) seat rest).state }
        ensures tables { tables_of self.new ≡ tables_of self.old }
        ensures sound { Sound self.new }
    {
        let _ = self.free.pop();
        let blocked = self.tracker.enter(seat, task.accesses());
        let occupant = self.table.lend(seat);
        let _ = occupant.occupy(task, blocked);
        let _ = self.order.push(seat);
        if !blocked {
            let _ = self.ready.push(seat);
        }
    }
}
