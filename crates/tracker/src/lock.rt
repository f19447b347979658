// One address: the claims that hold it, and those that wait.
ghost use Rattle.std.specs.Prelude.{◌≡◌, ℕ, ◌+◌, ◌-◌, ◌<◌, Bool, true, false, not, ◌&&◌, [], length, OnSome, nat_lt};
ghost use Rattle.claims.specs.Claims.{may, open_to, joined_by, dropped, promotes, moves, lone, reader_next};
ghost use Rattle.tracker.specs.State.{count_of, writes_of, state_of};

use claims::Claim;
use ring::Ring;

// Who holds an address: so many that read it, none of them if it is free, or one that writes it.
#[derive(Clone, Copy)]
pub(crate) enum Holders {
    Reading(u16),
    Writing,
}

// Who holds the address, and the claims that wait, first in first.
#[derive(Clone, Copy)]
pub struct Lock {
    held: Holders,
    waiting: Ring<Claim>,
}

impl Holders {
    // One more, which writes or reads.
    fn joined(self, writes: bool) -> Holders
        ensures count { may (count_of self) (writes_of self) writes ≡ true → count_of self < 1000 → count_of result ≡ count_of self + 1 }
        ensures writing { may (count_of self) (writes_of self) writes ≡ true → writes_of result ≡ writes }
    {
        match self {
            Holders::Reading(n) if !writes => Holders::Reading(n.saturating_add(1)),
            _ => Holders::Writing,
        }
    }

    // One fewer.
    fn left(self) -> Holders
        ensures count { count_of result ≡ count_of self - 1 }
        ensures writing { writes_of result ≡ false }
    {
        match self {
            Holders::Reading(n) => Holders::Reading(n.saturating_sub(1)),
            Holders::Writing => Holders::Reading(0),
        }
    }
}

impl Lock {
    // Nobody holds it, and nobody waits.
    pub(crate) fn new() -> Lock
        ensures { state_of result ≡ record { holders = 0; writing = false; waiting = [] } }
    {
        Lock {
            held: Holders::Reading(0),
            waiting: Ring::new(Claim {
                seat: 0,
                writes: false,
            }),
        }
    }

    // Does somebody hold it?
    pub(crate) fn is_live(&self) -> bool
        ensures { result ≡ nat_lt 0 (state_of self.now).holders }
    {
        !matches!(self.held, Holders::Reading(0))
    }

    // May a claim hold it beside those that do?
    fn admits(&self, writes: bool) -> bool
        ensures { result ≡ may (state_of self.now).holders (state_of self.now).writing writes }
    {
        match self.held {
            Holders::Reading(n) => n == 0 || !writes,
            Holders::Writing => false,
        }
    }

    // May one more claim hold it at once?
    fn is_open(&self, writes: bool) -> bool
        ensures { result ≡ open_to (state_of self.now) writes }
    {
        self.waiting.first().is_none() && self.admits(writes)
    }

    // One more claim, which holds at once if it conflicts with no earlier one, and else waits. Does it hold?
    pub(crate) fn enter(&mut self, claim: Claim) -> bool
        ensures answer { result ≡ open_to (state_of self.old) claim.writes }
        ensures after { (state_of self.old).holders < 1000 → length (state_of self.old).waiting < 256 → state_of self.new ≡ joined_by (state_of self.old) claim }
    {
        if self.is_open(claim.writes) {
            self.held = self.held.joined(claim.writes);
            return true;
        }
        let _ = self.waiting.push(claim);
        false
    }

    // A holder leaves, and nobody that waits holds it yet.
    pub(crate) fn release(&mut self)
        ensures { state_of self.new ≡ dropped (state_of self.old) }
    {
        self.held = self.held.left();
    }

    // The first that waits holds it too, if it may. Whose claim?
    pub(crate) fn promote(&mut self) -> Option<u8>
        ensures answer { result ≡ promotes (state_of self.old) }
        ensures after { (state_of self.old).holders < 1000 → state_of self.new ≡ moves (state_of self.old) }
        ensures shorter { OnSome result (length (state_of self.new).waiting < length (state_of self.old).waiting) }
    {
        let first = self.waiting.first()?;
        if !self.admits(first.writes) {
            return None;
        }
        let _ = self.waiting.pop();
        self.held = self.held.joined(first.writes);
        Some(first.seat)
    }

    // Does a version fall free when a holder leaves? It does if that is the last holder and no reader is the next.
    pub(crate) fn frees(&self) -> bool
        ensures { result ≡ (lone (state_of self.now).holders && not (reader_next (state_of self.now).waiting)) }
    {
        matches!(self.held, Holders::Reading(1) | Holders::Writing)
            && self.waiting.first().is_none_or(|first| first.writes)
    }
}
