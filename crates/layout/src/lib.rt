// The layout of messages and what a reader makes of bytes, as definitions, and the law that ties the two.
#![tactic(auto)]

ghost use Rattle.std.specs.Prelude.{◌≡◌, true};
ghost use Rattle.layout.specs.Agreement.{Agree};

// The reader and the layout agree: what is laid out is read back as itself, and what is read is laid out exactly so.
pub fn reading_is_exact() -> bool
    ensures law { Agree }
    ensures value { result ≡ true }
{
    true
}
