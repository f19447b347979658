// A call of any kind, and a list of calls in turn.
ghost use Rattle.std.specs.Prelude.{◌≡◌, ◌+◌, ◌≤◌, false, ◌++◌, length, is_ok, vec_len, vec_capacity};
ghost use Rattle.roll.specs.Calls.{perform as outcome};
ghost use Rattle.roll.specs.Built.{left_by, state_after};
ghost use Rattle.manager.specs.Model.{tables_of};
ghost use Rattle.manager.specs.Answers.{state_with, setting_with};
ghost use Rattle.runs.specs.Told.{call_of, calls_of, told, all_told, answer_to, answers_to};

use crate::calls::{Answer, Call};
use fault::ManagerFault;
use host::Host;
use manager::Manager;

// Makes the call, whichever it is. A refusal changes nothing.
// Kept: a word for what stays (fixed, tables, refused) would have to be looked up at each function; so each says it in full.
pub fn perform<H: Host>(
    manager: &mut Manager,
    host: &mut H,
    call: &Call<'_>,
) -> Result<Answer, ManagerFault>
    ensures answer { told result ≡ answer_to (outcome (setting_with manager.old (H.Host.fixed host.old)) (state_with manager.old (H.Host.values host.old)) (call_of call.now)) }
    ensures after { state_with manager.new (H.Host.values host.new) ≡ left_by (state_with manager.old (H.Host.values host.old)) (outcome (setting_with manager.old (H.Host.fixed host.old)) (state_with manager.old (H.Host.values host.old)) (call_of call.now)) }
    ensures fixed { H.Host.fixed host.new ≡ H.Host.fixed host.old }
    ensures tables { tables_of manager.new.inner ≡ tables_of manager.old.inner }
    ensures refused { is_ok result ≡ false → manager.new ≡ manager.old }
    ensures host { is_ok result ≡ false → host.new ≡ host.old }
{
    match call {
        Call::Submit {
            name,
            kind,
            accesses,
        } => manager
            .submit(host, *name, *kind, accesses)
            .map(|seat| Answer::Seated { seat }),
        Call::Take => manager
            .take()
            .map(|(seat, kind, name)| Answer::Taken { seat, kind, name }),
        Call::Step { seat } => manager.step(host, *seat).map(|step| match step {
            // Kept: step answers plain numbers, by a rule of the project; here they get names.
            (access, 0) => Answer::Brought { access },
            (access, _) => Answer::Put { access },
        }),
        Call::Finish { seat } => manager.finish(*seat).map(|count| Answer::Woke { count }),
    }
}

// Makes every call in turn, and notes what each answers.
pub(crate) fn perform_all<H: Host>(
    manager: &mut Manager,
    host: &mut H,
    calls: &[Call<'_>],
    answers: &mut Vec<Result<Answer, ManagerFault>>,
)
    requires room { vec_len answers.old + length calls.now ≤ vec_capacity answers.old }
    ensures answers { all_told answers.new.items ≡ all_told answers.old.items ++ answers_to (setting_with manager.old (H.Host.fixed host.old)) (state_with manager.old (H.Host.values host.old)) (calls_of calls.now) }
    ensures after { state_with manager.new (H.Host.values host.new) ≡ state_after (setting_with manager.old (H.Host.fixed host.old)) (state_with manager.old (H.Host.values host.old)) (calls_of calls.now) }
    ensures fixed { H.Host.fixed host.new ≡ H.Host.fixed host.old }
    ensures tables { tables_of manager.new.inner ≡ tables_of manager.old.inner }
{
    for call in calls {
        let answer = perform(manager, host, call);
        answers.push_reserved(answer);
    }
}
