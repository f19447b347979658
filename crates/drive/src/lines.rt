// The work line, which carries seats out to the workers, and the notice line, which carries their notices back.
ghost use Rattle.std.specs.Prelude.{◌≡◌, false, is_ok};
ghost use Rattle.roll.specs.Built.{state_after, dispatch_calls, dispatch_answer, dispatched, settle_calls, settle_answer, settled};
ghost use Rattle.queue.specs.Model.{contents_of, slots_of, full, slot_after};
ghost use Rattle.manager.specs.Model.{tables_of};
ghost use Rattle.manager.specs.Answers.{state_alone, setting_alone};
ghost use Rattle.drive.specs.Lines.{dispatch_result, slots_dispatched, notices_of, settle_result};

use fault::ManagerFault;
use manager::Manager;
use queue::{Line, Notice};

// The task whose seat was put into the work line: its seat, its kind and its name.
#[derive(Clone, Copy, PartialEq, Eq, Debug)]
pub struct SentOut {
    pub seat: u16,
    pub kind: u32,
    pub name: u32,
}

// A notice that was removed from the notice line, and what finish answered for its seat.
#[derive(Clone, Copy, PartialEq, Eq, Debug)]
pub struct Settled {
    pub notice: Notice,
    pub finished: Result<u16, ManagerFault>,
}

// Takes the first ready task and puts its seat at the end of the work line. Answers which task it is. Where the line is full nothing
// is taken; a refusal changes nothing.
pub fn dispatch(manager: &mut Manager, work: &mut Line<'_, u16>) -> Result<SentOut, ManagerFault>
    ensures answer { result ≡ dispatch_result (dispatch_answer (full work.old) (setting_alone manager.old) (state_alone manager.old)) }
    ensures after { state_alone manager.new ≡ state_after (setting_alone manager.old) (state_alone manager.old) (dispatch_calls (full work.old)) }
    ensures tables { tables_of manager.new.inner ≡ tables_of manager.old.inner }
    ensures contents { contents_of work.new ≡ dispatched (contents_of work.old) (dispatch_answer (full work.old) (setting_alone manager.old) (state_alone manager.old)) }
    ensures slots { slots_of work.new ≡ slots_dispatched (slots_of work.old) (slot_after work.old) (dispatch_answer (full work.old) (setting_alone manager.old) (state_alone manager.old)) }
    ensures lent { work.new.slots.ghost_name ≡ work.old.slots.ghost_name }
    ensures refused { is_ok result ≡ false → (manager.new ≡ manager.old) × (work.new ≡ work.old) }
{
    if work.is_full() {
        return Err(ManagerFault::LineFull);
    }
    let (seat, kind, name) = manager.take()?;
    work.push(seat)?;
    Ok(SentOut { seat, kind, name })
}

// Takes the first notice out of the notice line and finishes its seat. Answers the notice and what finish said; the notice is gone also
// where finish refuses. Where there is no notice it refuses, and nothing changes.
pub fn settle(
    manager: &mut Manager,
    notices: &mut Line<'_, Notice>,
) -> Result<Settled, ManagerFault>
    ensures answer { result ≡ settle_result (settle_answer (notices_of notices.old) (setting_alone manager.old) (state_alone manager.old)) }
    ensures after { state_alone manager.new ≡ state_after (setting_alone manager.old) (state_alone manager.old) (settle_calls (notices_of notices.old)) }
    ensures tables { tables_of manager.new.inner ≡ tables_of manager.old.inner }
    ensures contents { notices_of notices.new ≡ settled (notices_of notices.old) }
    ensures slots { slots_of notices.new ≡ slots_of notices.old }
    ensures lent { notices.new.slots.ghost_name ≡ notices.old.slots.ghost_name }
    ensures refused { is_ok result ≡ false → (manager.new ≡ manager.old) × (notices.new ≡ notices.old) }
{
    let notice = notices.pop()?;
    let finished = manager.finish(notice.seat);
    Ok(Settled { notice, finished })
}
