// A whole run: a new manager, and every call of a list on it.
ghost use Rattle.std.specs.Prelude.{◌≡◌, false, is_ok, IfOk, OnOk};
ghost use Rattle.roll.specs.Calls.{setting, made};
ghost use Rattle.roll.specs.Law.{Holds};
ghost use Rattle.manager.specs.Answers.{state_with, setting_with};
ghost use Rattle.runs.specs.Told.{calls_of, all_told, answers_to};
ghost use Rattle.runs.specs.Obeys.{history};

use crate::calls::{Answer, Call};
use crate::maker::new_manager;
use crate::performing::perform_all;
use fault::ManagerFault;
use host::Host;
use manager::Manager;
use std::alloc::{AllocError, Global};

// The manager as the calls have left it, and what each of them answered.
#[derive(Drop)]
pub struct Run {
    pub manager: Manager,
    pub answers: Vec<Result<Answer, ManagerFault>>,
}

// Makes a manager and performs every call of the list in turn, accepted or refused, over the host. All memory is got before the first
// call, so that for want of memory nothing is done.
pub fn run_calls<H: Host>(
    heap: Global,
    host: &mut H,
    seats: usize,
    versions: usize,
    calls: &[Call<'_>],
) -> Result<Run, AllocError>
    ensures answers { IfOk result (λ all. all_told all.answers.items ≡ answers_to (setting (H.Host.fixed host.old) seats versions) (made (setting (H.Host.fixed host.old) seats versions) (H.Host.values host.old)) (calls_of calls.now)) }
    ensures state { IfOk result (λ all. state_with all.manager (H.Host.values host.new) ≡ (history (setting (H.Host.fixed host.old) seats versions) (H.Host.values host.old) (calls_of calls.now)).state) }
    ensures setting { IfOk result (λ all. setting_with all.manager (H.Host.fixed host.new) ≡ setting (H.Host.fixed host.old) seats versions) }
    ensures law { OnOk result (Holds (setting (H.Host.fixed host.old) seats versions) (history (setting (H.Host.fixed host.old) seats versions) (H.Host.values host.old) (calls_of calls.now))) }
    ensures fixed { H.Host.fixed host.new ≡ H.Host.fixed host.old }
    ensures unmade { is_ok result ≡ false → host.new ≡ host.old }
{
    let mut manager = new_manager(heap, host, seats, versions)?;
    let mut answers = Vec::with_capacity(heap, calls.len())?;
    perform_all(&mut manager, host, calls, &mut answers);
    Ok(Run { manager, answers })
}
