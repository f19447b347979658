// A host whose values are stamps: numbers of 64 bits at the addresses from 0 on.
#![tactic(auto)]

mod rule;

ghost use Rattle.std.proofs.Common.{lit<};
ghost use Rattle.stamp_host.specs.Rule.{stamp_rule};

use host::{ArrayHost, MAX_VALUES, Work};
pub use rule::stamp_rule;

// How many stamps a host has at most.
pub const MAX_STAMPS: usize = MAX_VALUES;

// Stamps, stamp n at address n, and the stamps held aside.
pub type StampHost = ArrayHost<Stamps>;

// The work on stamps.
pub struct Stamps;

impl Work for Stamps {
    type Value = u64;

    const STEP: u64 = 1;

    ghost STEP = { 1 };

    ghost blank = { 0 };

    ghost rule = { stamp_rule };

    ghost apart = { lit< tt };

    // The stamp 0.
    fn blank() -> u64 {
        0
    }

    // The stamp for the kind, the access number and the stamps.
    fn work(kind: u32, access: u8, values: &[u64]) -> u64 {
        stamp_rule(kind, access, values)
    }
}
