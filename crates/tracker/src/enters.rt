// A task enters the tables: its accesses join the queues of their addresses one by one.
ghost use Rattle.std.specs.Prelude.{◌≡◌, ℕ, ◌+◌, ◌%◌, ◌<◌, ◌≤◌, true, false, not, ◌&&◌, ◌||◌, List, [], ◌∷◌, ◌++◌, length, None, ◌==◌, ◌≢◌};
ghost use Rattle.task.specs.declared.Access.{Access};
ghost use Rattle.task.specs.Access.{writes};
ghost use Rattle.admission.specs.Admission.{occurs};
ghost use Rattle.roll.specs.Roll.{Roll, blocked};
ghost use Rattle.roll.specs.Tables.{stall, live, used, occupied, tally};
ghost use Rattle.claims.specs.Queues.{Apart, AbsentSeat, bare};
ghost use Rattle.tracker.specs.Tracked.{Tracked, sized, blocked_at};

use crate::tracker::Tracker;
use claims::Claim;
use task::Access;

// Does an access take a version? It does if it writes, or if its address was not live.
pub(crate) fn takes_version(output: bool, fresh: bool) -> bool
    ensures { result ≡ (output || fresh) }
{
    output || fresh
}

impl Tracker {
    // Does an access of the task at this seat wait?
    pub fn is_blocked(&self, seat: u8) -> bool
        ensures { result ≡ not (blocked_at self.now seat == 0) }
    {
        self.blocked[seat as usize] != 0
    }

    // One more access of the last task.
    fn join(&mut self, seat: u8, access: Access)
        ensures { (v : Roll) (ys : List Access) → Tracked self.old (v ++ (bare seat ys ∷ [])) → occurs access.address ys ≡ false → length ys < 15 → (live v access.address ≡ false → occupied (sized 0 0) (access.address % 64) [] (v ++ (bare seat ys ∷ [])) < 8) → ((writes access || not (live v access.address)) ≡ true → used [] (v ++ (bare seat ys ∷ [])) < 60000) → Tracked self.new (v ++ (bare seat (ys ++ (access ∷ [])) ∷ [])) }
    {
        let writes = access.writes();
        let Some(claimed) = self.table.claim(access.address, Claim { seat, writes }) else {
            return;
        };
        let version = takes_version(writes, claimed.fresh);
        self.count(seat, version, !claimed.holds);
    }

    // Counts an access that joined: a version, if it takes one, and one more of the seat's accesses that wait, if it does.
    fn count(&mut self, seat: u8, version: bool, waits: bool)
        ensures table { self.new.table ≡ self.old.table }
        ensures versions { (version ≡ true → self.old.used < 60000) → self.new.used ≡ self.old.used + tally version }
        ensures waiting { blocked_at self.old seat < 255 → (s : ℕ) → blocked_at self.new s ≡ blocked_at self.old s + tally (seat == s && waits) }
    {
        if version {
            self.used = self.used.saturating_add(1);
        }
        if waits {
            self.blocked[seat as usize] = self.blocked[seat as usize].saturating_add(1);
        }
    }

    // No access of the seat's task waits.
    fn clear(&mut self, seat: u8)
        ensures table { self.new.table ≡ self.old.table }
        ensures versions { self.new.used ≡ self.old.used }
        ensures others { (s : ℕ) → (s ≢ seat) → blocked_at self.new s ≡ blocked_at self.old s }
        ensures own { blocked_at self.new seat ≡ 0 }
    {
        self.blocked[seat as usize] = 0;
    }

    // A task takes a seat and joins the queues of its addresses. Does it wait for an earlier task?
    pub fn enter(&mut self, seat: u8, accesses: &[Access]) -> bool
        ensures { (v : Roll) (versions : ℕ) → Tracked self.old v → AbsentSeat seat v → length v < 256 → Apart accesses.now → length accesses.now ≤ 15 → versions ≤ 512 → stall (sized 0 versions) v (0 ∷ []) accesses.now ≡ None → (result ≡ blocked v accesses.now) × Tracked self.new (v ++ (bare seat accesses.now ∷ [])) }
    {
        self.clear(seat);
        for x in accesses {
            self.join(seat, *x);
        }
        self.is_blocked(seat)
    }
}
