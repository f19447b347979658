// The roll and its calls as definitions, and the law over runs.
#![tactic(auto)]

ghost use Rattle.std.specs.Prelude.{◌≡◌, true};
ghost use Rattle.roll.specs.Law.{Law, LawOf};

use host::Host;

// On every host with values of this kind, the law over runs holds.
pub fn serial_equivalence<H: Host>() -> bool
    ensures law { Law H.Value }
    ensures value { result ≡ true }
{
    true
}

// The law of this very host, from the values that it has now.
pub fn law_here<H: Host>(host: &H) -> bool
    ensures law { LawOf (H.Host.fixed host.now) (H.Host.values host.now) }
    ensures value { result ≡ true }
{
    serial_equivalence::<H>()
}
