// Whether a task can be taken at all, before any table is looked at.
#![tactic(auto)]

ghost use Rattle.std.specs.Prelude.{◌≡◌, ◌<◌, length, IfSome};
ghost use Rattle.admission.specs.Admission.{occurs, repeated, not_held, task_fault, unless};

use fault::ManagerFault;
use host::Host;
use task::{Access, MAX_ACCESSES};

// Refuses a task of more than 15 accesses, one in which an address occurs twice, and one with an address that the host does
// not hold, in that order; each at the first access that is at fault.
pub fn check<H: Host>(host: &H, accesses: &[Access]) -> Result<(), ManagerFault>
    ensures { result ≡ unless (task_fault (H.Host.fixed host.now).held accesses.now) }
{
    if accesses.len() > MAX_ACCESSES {
        return Err(ManagerFault::TooManyAccesses);
    }
    if let Some(at) = first_repeated(accesses) {
        return Err(ManagerFault::RepeatedAddress { access: at as u8 });
    }
    if let Some(at) = first_not_held(host, accesses) {
        return Err(ManagerFault::NotHeld { access: at as u8 });
    }
    Ok(())
}

// The first access whose address occurs earlier in the task.
fn first_repeated(accesses: &[Access]) -> Option<usize>
    ensures first { result ≡ repeated accesses.now }
    ensures within { IfSome result (λ i. i < length accesses.now) }
{
    accesses
        .iter()
        .enumerate()
        .position(|(i, access)| occurs(access.address, &accesses[..i]))
}

// Whether the address is that of one of the accesses.
fn occurs(address: u64, accesses: &[Access]) -> bool
    ensures { result ≡ occurs address accesses.now }
{
    accesses.iter().any(|access| access.address == address)
}

// The first access whose address the host does not hold.
fn first_not_held<H: Host>(host: &H, accesses: &[Access]) -> Option<usize>
    ensures first { result ≡ not_held (H.Host.fixed host.now).held accesses.now }
    ensures within { IfSome result (λ i. i < length accesses.now) }
{
    accesses
        .iter()
        .position(|access| !host.holds(access.address))
}
