// A turn: one ready task from take to finish.
ghost use Rattle.std.specs.Prelude.{◌≡◌, false, is_ok, IfErr};
ghost use Rattle.fault.specs.declared.ManagerFault.TheVariants.{LineEmpty};
ghost use Rattle.roll.specs.Roll.{find};
ghost use Rattle.roll.specs.Calls.{step as stepping};
ghost use Rattle.roll.specs.Built.{state_after, times, steps_at, turn_calls, turn_answer};
ghost use Rattle.manager.specs.Model.{tables_of};
ghost use Rattle.manager.specs.Answers.{state_with, setting_with};
ghost use Rattle.drive.specs.Turns.{turn_result};

use fault::ManagerFault;
use host::Host;
use manager::Manager;

// What a turn did: the seat of the task that has run, and how many tasks became ready at its finish.
#[derive(Clone, Copy, PartialEq, Eq, Debug)]
pub struct Ran {
    pub seat: u16,
    pub woken: u16,
}

// Takes the first ready task, does all its steps on the host and finishes it. Answers its seat, and how many tasks became ready.
// Where no task is ready it refuses, and nothing changes; it refuses for no other reason.
// Kept: manager and host stay two parameters, since dispatch and settle have no host, and the host is the caller's own.
// Kept: a word for what stays (fixed, tables, refused) would have to be looked up at each function; so each says it in full.
pub fn turn<H: Host>(manager: &mut Manager, host: &mut H) -> Result<Ran, ManagerFault>
    ensures answer { result ≡ turn_result (turn_answer (setting_with manager.old (H.Host.fixed host.old)) (state_with manager.old (H.Host.values host.old))) }
    ensures after { state_with manager.new (H.Host.values host.new) ≡ state_after (setting_with manager.old (H.Host.fixed host.old)) (state_with manager.old (H.Host.values host.old)) (turn_calls (setting_with manager.old (H.Host.fixed host.old)) (state_with manager.old (H.Host.values host.old))) }
    ensures fixed { H.Host.fixed host.new ≡ H.Host.fixed host.old }
    ensures tables { tables_of manager.new.inner ≡ tables_of manager.old.inner }
    ensures refused { is_ok result ≡ false → (manager.new ≡ manager.old) × (host.new ≡ host.old) }
    ensures empty { IfErr result (λ fault. fault ≡ LineEmpty) }
{
    let (seat, ..) = manager.take()?;
    run_steps(manager, host, seat);
    let woken = manager.finish(seat)?;
    Ok(Ran { seat, woken })
}

// Does the steps that are left to a seat, none where it is not running.
fn run_steps<H: Host>(manager: &mut Manager, host: &mut H, seat: u16)
    ensures after { state_with manager.new (H.Host.values host.new) ≡ state_after (setting_with manager.old (H.Host.fixed host.old)) (state_with manager.old (H.Host.values host.old)) (times (steps_at (find seat (state_with manager.old (H.Host.values host.old)).roll)) (stepping seat)) }
    ensures fixed { H.Host.fixed host.new ≡ H.Host.fixed host.old }
    ensures tables { tables_of manager.new.inner ≡ tables_of manager.old.inner }
{
    while manager.step(host, seat).is_ok() {}
}
