// Doing the next step of a running seat.
ghost use Rattle.std.specs.Prelude.{◌≡◌, false, is_ok};
ghost use Rattle.task.specs.Task.{accesses_of};
ghost use Rattle.seat.specs.Phases.{standing_of};
ghost use Rattle.manager.specs.Model.{entry_of};
ghost use Rattle.manager.specs.Stepped.{numbers_of, stepped_answer, stepped_standing, stepped_values};

use fault::ManagerFault;
use host::Host;
use seat::{Event, NextStep, Seat, Standing};

// What a step did: it brought the value of this access of the task, or put it.
#[derive(Clone, Copy, PartialEq, Eq, Debug)]
pub(crate) enum StepDone {
    Brought { access: u8 },
    Put { access: u8 },
}

// As two plain numbers: that of the access, and 0 for a bring or 1 for a put.
impl From<StepDone> for (u8, u8) {
    ghost from_gives = { λ done numbers. numbers ≡ numbers_of done };

    fn from(done: StepDone) -> (u8, u8) {
        match done {
            StepDone::Brought { access } => (access, 0),
            StepDone::Put { access } => (access, 1),
        }
    }
}

// Does the next step of a seat, by its occupant.
pub(crate) fn step_record<H: Host>(
    occupant: &mut Seat,
    host: &mut H,
    seat: u16,
) -> Result<StepDone, ManagerFault>
    ensures answer { result ≡ stepped_answer seat (entry_of occupant.old seat).standing }
    ensures standing { (entry_of occupant.new seat).standing ≡ stepped_standing (entry_of occupant.old seat).standing }
    ensures task { occupant.new.task ≡ occupant.old.task }
    ensures values { H.Host.values host.new ≡ stepped_values (H.Host.fixed host.old) (entry_of occupant.old seat).job (entry_of occupant.old seat).standing (H.Host.values host.old) }
    ensures fixed { H.Host.fixed host.new ≡ H.Host.fixed host.old }
    ensures refused { is_ok result ≡ false → occupant.new ≡ occupant.old }
    ensures host { is_ok result ≡ false → host.new ≡ host.old }
{
    match occupant.next_step() {
        Some(
            NextStep::Bring {
                access,
                address,
                position,
            },
        ) => {
            host.bring(address, seat, position);
            let _ = occupant.on(Event::Stepped);
            Ok(StepDone::Brought { access })
        }
        Some(
            NextStep::Put {
                access,
                address,
                brought,
            },
        ) => {
            let kind = occupant.task().kind;
            host.put(kind, access, brought, seat, address);
            let _ = occupant.on(Event::Stepped);
            Ok(StepDone::Put { access })
        }
        None => match occupant.standing() {
            Standing::Running(_) => Err(ManagerFault::NoStepLeft { seat }),
            _ => Err(ManagerFault::NotRunning { seat }),
        },
    }
}
