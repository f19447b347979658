// A task leaves the roll, and its seat is free again.
ghost use Rattle.std.specs.Prelude.{◌≡◌};
ghost use Rattle.roll.specs.Calls.{left};
ghost use Rattle.manager.specs.Model.{seat_at, tables_of, state_of};
ghost use Rattle.manager.specs.Answers.{no_values};
ghost use Rattle.manager.specs.Finished.{may_finish, Waking};
ghost use Rattle.manager.specs.Sound.{Sound};
ghost use Rattle.seat.specs.declared.Standing.TheVariants.{Running};
ghost use Rattle.seat.specs.declared.Phase.TheVariants.{Done};

use crate::inner::Inner;
use fault::ManagerFault;
use seat::{Event, Phase, Standing};
use tracker::Span;

impl Inner {
    // The seat, if its task runs and has no step left.
    pub(crate) fn finishing(&self, seat: u16) -> Result<u8, ManagerFault>
        requires { Sound self.now }
        ensures { result ≡ may_finish seat (seat_at self.now seat).standing }
    {
        let Ok(at) = u8::try_from(seat) else {
            return Err(ManagerFault::NotRunning { seat });
        };
        match self.table.records[usize::from(at)].standing() {
            Standing::Running(Phase::Done) => Ok(at),
            Standing::Running(_) => Err(ManagerFault::StepsLeft { seat }),
            _ => Err(ManagerFault::NotRunning { seat }),
        }
    }

    // The first part of a finish: the task leaves the roll and its seat joins the free line. Answers which places may have a task that
    // is no longer blocked.
    pub(crate) fn leave(&mut self, seat: u8) -> Span
        requires sound { Sound self.old }
        requires done { (seat_at self.old seat).standing ≡ Running Done }
        ensures after { state_of self.new no_values ≡ left (state_of self.old no_values) seat }
        ensures tables { tables_of self.new ≡ tables_of self.old }
        ensures waking { Waking self.new result }
    {
        let mut span = Span::none();
        let occupant = &self.table.records[usize::from(seat)];
        self.tracker
            .leave(seat, occupant.task().accesses(), &self.order, &mut span);
        let occupant = self.table.lend(seat);
        let _ = occupant.on(Event::Finished);
        let _ = self.order.remove(seat);
        let _ = self.free.push(seat);
        span
    }
}
