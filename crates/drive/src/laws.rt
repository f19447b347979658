// What follows from the definition of a turn alone.
ghost use Rattle.std.specs.Prelude.{◌≡◌, true};
ghost use Rattle.drive.specs.Law.{RefusesOnlyEmpty};

use host::Host;

// Beside every host with values of this kind, in every state, a turn is refused only where no task is ready.
pub fn turn_refuses_only_empty<H: Host>() -> bool
    ensures law { RefusesOnlyEmpty H.Value }
    ensures value { result ≡ true }
{
    true
}
