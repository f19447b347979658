// A task leaves the tables: its accesses leave the queues of their addresses one by one.
ghost use Rattle.std.specs.Prelude.{◌≡◌, ℕ, ◌-◌, ◌%◌, ◌<◌, false, not, ◌&&◌, ◌∷◌, ◌++◌, ◌==◌, ◌≢◌, nat_lt};
ghost use Rattle.acceptance.specs.Listed.{place_of};
ghost use Rattle.roll.specs.Roll.{Roll, blocked};
ghost use Rattle.roll.specs.Tables.{tally};
ghost use Rattle.claims.specs.Claims.{State, dropped, freed};
ghost use Rattle.claims.specs.Queues.{bare};
ghost use Rattle.tracker.specs.State.{state_of};
ghost use Rattle.tracker.specs.Table.{Table, ChangesOnlyWay, tag_at, lock_at};
ghost use Rattle.tracker.specs.Covered.{Covered};
ghost use Rattle.tracker.specs.Tracked.{Tracked, blocked_at};
ghost use Rattle.tracker.specs.Departures.{Leaves, Departed, Ready, Drained, Lowered, Woken};

use crate::span::Span;
use crate::tracker::Tracker;
use crate::ways::Way;
use acceptance::Acceptance;
use task::Access;

impl Tracker {
    // One access fewer of the seat's task waits; after the last, the seat's place is covered.
    // Kept: the order is only read and the span is changed; a record of both holds two borrows, and each clause speaks through them.
    fn unblock(&mut self, seat: u8, order: &Acceptance, span: &mut Span)
        ensures lowered { Lowered self.old self.new seat }
        ensures woken { Woken self.old self.new order.now span.old span.new }
    {
        let left = self.blocked[seat as usize].saturating_sub(1);
        self.blocked[seat as usize] = left;
        if left == 0 {
            span.cover(order.place(seat));
        }
    }

    // All that may hold the address at a way do, and each of their seats has one access fewer that waits.
    fn drain(&mut self, way: Way, order: &Acceptance, span: &mut Span)
        ensures drained { Ready self.old way.number → Drained self.old self.new way.number }
        ensures woken { Woken self.old self.new order.now span.old span.new }
    {
        while let Some(seat) = self.table.promote_at(way) {
            self.unblock(seat, order, span);
        }
    }

    // A holder of the address at a way leaves, with the version that falls free.
    fn release(&mut self, way: Way)
        ensures tag { tag_at self.new.table way.number ≡ tag_at self.old.table way.number }
        ensures here { state_of (lock_at self.new.table way.number) ≡ dropped (state_of (lock_at self.old.table way.number)) }
        ensures rest { ChangesOnlyWay self.old.table self.new.table way.number }
        ensures counts { self.new.blocked.items ≡ self.old.blocked.items }
        ensures versions { self.new.used ≡ self.old.used - freed (state_of (lock_at self.old.table way.number)) }
    {
        if self.table.frees(way) {
            self.used = self.used.saturating_sub(1);
        }
        self.table.release_at(way);
    }

    // A holder of an address leaves, and all that may hold the address then do.
    fn depart(&mut self, address: u64, order: &Acceptance, span: &mut Span)
        ensures departed { (M : ℕ → State) → Table self.old.table M → Leaves (M address) self.old → Departed self.old self.new M address }
        ensures woken { Woken self.old self.new order.now span.old span.new }
    {
        let Some(way) = self.table.find(address) else {
            return;
        };
        self.release(way);
        self.drain(way, order, span);
        self.table.close(way);
    }

    // A task that no earlier task blocks leaves the tables. The places of the seats that are no longer blocked then are covered.
    pub fn leave(&mut self, seat: u8, accesses: &[Access], order: &Acceptance, span: &mut Span)
        ensures tables { (pre post : Roll) → Tracked self.old (pre ++ (bare seat accesses.now ∷ post)) → blocked pre accesses.now ≡ false → Tracked self.new (pre ++ post) }
        ensures woken { (v : Roll) → Tracked self.old v → (t : ℕ) → t < 256 → (blocked_at self.old t ≢ 0) → blocked_at self.new t ≡ 0 → Covered span.new (place_of order.now t) }
        ensures covered { (p : ℕ) → Covered span.old p → Covered span.new p }
    {
        for x in accesses {
            self.depart(x.address, order, span);
        }
    }
}
