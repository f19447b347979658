// The claims on each address in order of acceptance: which of them hold it and which wait, as definitions over the roll.
#![tactic(auto)]

ghost use Rattle.std.specs.Prelude.{◌≡◌, true};
ghost use Rattle.claims.specs.Decided.{ClaimsDecide};

// An access to one address, by the seat whose task makes it.
#[derive(Clone, Copy, PartialEq, Eq, Debug)]
pub struct Claim {
    pub seat: u8,
    pub writes: bool,
}

// On every roll, a task is blocked exactly if one of its claims waits.
pub fn claims_decide() -> bool
    ensures law { ClaimsDecide }
    ensures value { result ≡ true }
{
    true
}
