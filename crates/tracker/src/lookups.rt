// The ways of the address table: looking up an address, a claim on it, and a claim that leaves.
ghost use Rattle.std.specs.Prelude.{◌≡◌, ℕ, ◌+◌, ◌-◌, ◌*◌, ◌%◌, ◌<◌, ◌≤◌, true, false, not, ◌&&◌, T, length, set, if◌then◌else◌, vec_len, MatchOption, IsSomeAnd, OnSome, ◌==◌, ◌≢◌, nat_eq, nat_lt};
ghost use Rattle.roll.specs.Tables.{tally};
ghost use Rattle.claims.specs.Claims.{State, open_to, joined_by, dropped, promotes, moves, freed};
ghost use Rattle.tracker.specs.State.{state_of};
ghost use Rattle.tracker.specs.Table.{Absent, Found, Full, Free, Placed, Table, Joined, ChangesOnlyWay, lock_at, tag_at, live_at};

use crate::lock::Lock;
use crate::ways::{AddressTable, Claimed, Set, WAYS, Way};
use claims::Claim;

impl AddressTable {
    // Is this live address at this way?
    fn shows(&self, way: Way, address: u64) -> bool
        ensures { elim result [ true ↦ Found self.now address way.number | false ↦ (Found self.now address way.number → ⊥) ] }
    {
        let slot = &self.slots[way.number];
        slot.address == address && slot.lock.is_live()
    }

    // Does somebody hold the address at this way?
    pub(crate) fn is_live(&self, way: Way) -> bool
        ensures { result ≡ nat_lt 0 (state_of (lock_at self.now way.number)).holders }
    {
        self.slots[way.number].lock.is_live()
    }

    // The way of a live address.
    pub(crate) fn find(&self, address: u64) -> Option<Way>
        ensures { MatchOption result (Absent self.now address) (λ w. (w.number % 64 ≡ address % 64) × Found self.now address w.number) }
    {
        let set = Set::of(address);
        (0..WAYS)
            .map(|k| set.way(k))
            .find(|way| self.shows(*way, address))
    }

    // A way of the address's set that is not live.
    // Kept: this and `find` share the library's chain and differ in its test; a function for it would take the test and what it promises.
    fn vacancy(&self, address: u64) -> Option<Way>
        ensures { MatchOption result (Full self.now address) (λ w. Free self.now address w.number) }
    {
        let set = Set::of(address);
        (0..WAYS)
            .map(|k| set.way(k))
            .find(|way| !self.is_live(*way))
    }

    // The way of an address, or one that it may have.
    fn place(&self, address: u64) -> Option<Way>
        ensures { MatchOption result (Absent self.now address × Full self.now address) (λ w. Placed self.now address w.number) }
    {
        self.find(address).or_else(|| self.vacancy(address))
    }

    // One more claim on an address, at a way. Does it hold?
    // Kept: what a change of one way leaves is said of each change by one word, `ChangesOnlyWay`; no value holds a relation of old and new.
    fn claim_at(&mut self, way: Way, address: u64, claim: Claim) -> bool
        ensures answer { result ≡ open_to (state_of (lock_at self.old way.number)) claim.writes }
        ensures tag { tag_at self.new way.number ≡ address }
        ensures here { (state_of (lock_at self.old way.number)).holders < 1000 → length (state_of (lock_at self.old way.number)).waiting < 256 → state_of (lock_at self.new way.number) ≡ joined_by (state_of (lock_at self.old way.number)) claim }
        ensures rest { ChangesOnlyWay self.old self.new way.number }
    {
        let slot = &mut self.slots[way.number];
        slot.address = address;
        slot.lock.enter(claim)
    }

    // A holder of the address at a way leaves, and nobody that waits holds it yet.
    pub(crate) fn release_at(&mut self, way: Way)
        ensures tag { tag_at self.new way.number ≡ tag_at self.old way.number }
        ensures here { state_of (lock_at self.new way.number) ≡ dropped (state_of (lock_at self.old way.number)) }
        ensures rest { ChangesOnlyWay self.old self.new way.number }
    {
        self.slots[way.number].lock.release();
    }

    // The first that waits at a way holds the address too, if it may. Whose claim?
    pub(crate) fn promote_at(&mut self, way: Way) -> Option<u8>
        ensures answer { result ≡ promotes (state_of (lock_at self.old way.number)) }
        ensures tag { tag_at self.new way.number ≡ tag_at self.old way.number }
        ensures here { (state_of (lock_at self.old way.number)).holders < 1000 → state_of (lock_at self.new way.number) ≡ moves (state_of (lock_at self.old way.number)) }
        ensures rest { ChangesOnlyWay self.old self.new way.number }
        ensures shorter { OnSome result (length (state_of (lock_at self.new way.number)).waiting < length (state_of (lock_at self.old way.number)).waiting) }
    {
        self.slots[way.number].lock.promote()
    }

    // If the way was not live before, its set has one more live way.
    fn open(&mut self, way: Way, fresh: bool)
        ensures ways { self.new.slots.items ≡ self.old.slots.items }
        ensures live { live_at self.old (way.number % 64) < 255 → (z : ℕ) → live_at self.new z ≡ live_at self.old z + tally (way.number % 64 == z && fresh) }
    {
        if fresh {
            let set = way.set();
            self.live[set.number] = self.live[set.number].saturating_add(1);
        }
    }

    // If nobody holds the address at a way any more, its set has one live way fewer.
    pub(crate) fn close(&mut self, way: Way)
        ensures ways { self.new.slots.items ≡ self.old.slots.items }
        ensures live { (z : ℕ) → live_at self.new z ≡ live_at self.old z - tally (way.number % 64 == z && not (nat_lt 0 (state_of (lock_at self.old way.number)).holders)) }
    {
        if !self.is_live(way) {
            let set = way.set();
            self.live[set.number] = self.live[set.number].saturating_sub(1);
        }
    }

    // One more claim on an address, at a way that is found for it; the set's count follows. What did it meet, if there was a way?
    pub(crate) fn claim(&mut self, address: u64, claim: Claim) -> Option<Claimed>
        ensures { (M : ℕ → State) → Table self.old M → ((M address).holders ≡ 0 → live_at self.old (address % 64) < 8) → (M address).holders + length (M address).waiting < 256 → IsSomeAnd result (Joined self.old self.new M address claim) }
    {
        let way = self.place(address)?;
        let fresh = !self.is_live(way);
        let holds = self.claim_at(way, address, claim);
        self.open(way, fresh);
        Some(Claimed { fresh, holds })
    }

    // Does a version fall free when a holder of the address at a way leaves?
    pub(crate) fn frees(&self, way: Way) -> bool
        ensures { tally result ≡ freed (state_of (lock_at self.now way.number)) }
    {
        self.slots[way.number].lock.frees()
    }
}
