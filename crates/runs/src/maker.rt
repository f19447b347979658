// The maker of managers, which says that the law holds of whatever is called from there on; and that law by itself.
ghost use Rattle.std.specs.Prelude.{◌≡◌, true, IfOk};
ghost use Rattle.roll.specs.Calls.{setting, made};
ghost use Rattle.manager.specs.Answers.{state_with, setting_with};
ghost use Rattle.runs.specs.Obeys.{Obeys, AllObey};

use host::Host;
use manager::Manager;
use std::alloc::{AllocError, Global};

// A manager with this many seats and version places, at most 256 and 512, and no task, for this host. After every list of calls on the
// two the law holds.
// Kept: the interface of the makers names two plain numbers, as a rule of the project.
pub fn new_manager<H: Host>(
    heap: Global,
    host: &H,
    seats: usize,
    versions: usize,
) -> Result<Manager, AllocError>
    ensures state { IfOk result (λ m. state_with m (H.Host.values host.now) ≡ made (setting (H.Host.fixed host.now) seats versions) (H.Host.values host.now)) }
    ensures setting { IfOk result (λ m. setting_with m (H.Host.fixed host.now) ≡ setting (H.Host.fixed host.now) seats versions) }
    ensures law { Obeys (setting (H.Host.fixed host.now) seats versions) (H.Host.values host.now) }
{
    Manager::new(heap, seats, versions)
}

// On every host with values of this kind, whatever calls are made, also by calls that are built of calls: the law holds.
pub fn any_calls_obey<H: Host>() -> bool
    ensures law { AllObey H.Value }
    ensures value { result ≡ true }
{
    true
}
