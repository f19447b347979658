// Why the tables cannot take a task: it never fits, too few versions are free, or a set has no room.
ghost use Rattle.std.specs.Prelude.{◌≡◌, ℕ, ◌+◌, ◌%◌, ◌<◌, ◌≤◌, min, not, ◌&&◌, ◌||◌, [], ◌∷◌, length, is_some, if◌then◌else◌, ◌==◌, nat_lt, slice_index};
ghost use Rattle.std.specs.Option.{option_map_or};
ghost use Rattle.task.specs.Access.{writes};
ghost use Rattle.roll.specs.Roll.{Roll};
ghost use Rattle.roll.specs.Tables.{live, needs, fresh, crowded, stall, tally};
ghost use Rattle.tracker.specs.Table.{live_at};
ghost use Rattle.tracker.specs.Tracked.{Tracked, sized, unless};

use crate::enters::takes_version;
use crate::tracker::Tracker;
use crate::ways::{Set, WAYS};
use fault::TableFault;
use task::Access;

// How many addresses of each set are counted.
#[derive(Clone, Copy)]
struct SetCounts {
    counts: [u8; 64],
}

// What a task needs of the tables: how many versions, and how many new addresses of each set; and the lowest set that has no room for
// its new addresses, if there is one.
#[derive(Clone, Copy)]
struct Demand {
    versions: u16,
    added: SetCounts,
    full: Option<u8>,
}

impl SetCounts {
    // No address.
    fn none() -> SetCounts
        ensures { (z : ℕ) → z < 64 → slice_index result.counts z ≡ 0 }
    {
        SetCounts { counts: [0; 64] }
    }

    // One more address of a set. How many of the set are counted now?
    fn add(&mut self, set: Set) -> u8
        ensures answer { result ≡ slice_index self.new.counts set.number }
        ensures counts { slice_index self.old.counts set.number < 255 → (z : ℕ) → slice_index self.new.counts z ≡ slice_index self.old.counts z + tally (set.number == z) }
    {
        self.counts[set.number] = self.counts[set.number].saturating_add(1);
        self.counts[set.number]
    }
}

// Has a set more than 8 of the accesses?
fn crowds(accesses: &[Access]) -> bool
    ensures { result ≡ is_some (crowded (λ set. fresh (sized 0 0) [] set accesses.now)) }
{
    if accesses.len() <= WAYS {
        return false;
    }
    let mut counts = SetCounts::none();
    accesses
        .iter()
        .any(|access| counts.add(Set::of(access.address)) > WAYS as u8)
}

// The lower of a set and another, if there is another.
fn lower(set: u8, other: Option<u8>) -> u8
    ensures { result ≡ option_map_or (λ z. min z set) other set }
{
    other.map_or(set, |z| z.min(set))
}

impl Demand {
    // One more new address of a set that has so many live ones.
    fn add(&mut self, set: Set, live: u8)
        ensures versions { self.new.versions ≡ self.old.versions }
        ensures added { slice_index self.old.added.counts set.number < 255 → (z : ℕ) → slice_index self.new.added.counts z ≡ slice_index self.old.added.counts z + tally (set.number == z) }
        ensures full { self.new.full ≡ (if nat_lt 8 (live + slice_index self.new.added.counts set.number) then Some (option_map_or (λ z. min z set.number) self.old.full set.number) else self.old.full) }
    {
        if live.saturating_add(self.added.add(set)) > WAYS as u8 {
            self.full = Some(lower(set.number as u8, self.full));
        }
    }
}

impl Tracker {
    // Does a task with these accesses fit into no tables of so many versions, even empty ones?
    pub fn never_fits(accesses: &[Access], versions: u16) -> bool
        ensures { result ≡ (nat_lt versions (length accesses.now) || is_some (crowded (λ set. fresh (sized 0 versions) [] set accesses.now))) }
    {
        accesses.len() > versions as usize || crowds(accesses)
    }

    // Has an unfinished task an access to the address?
    fn is_live(&self, address: u64) -> bool
        ensures { (v : Roll) → Tracked self.now v → result ≡ live v address }
    {
        self.table.find(address).is_some()
    }

    // Adds what one more access needs.
    fn count_in(&self, demand: &mut Demand, access: &Access)
        ensures versions { (v : Roll) → Tracked self.now v → demand.old.versions < 255 → demand.new.versions ≡ demand.old.versions + tally (writes access.now || not (live v access.now.address)) }
        ensures added { (v : Roll) → Tracked self.now v → slice_index demand.old.added.counts (access.now.address % 64) < 255 → (z : ℕ) → slice_index demand.new.added.counts z ≡ slice_index demand.old.added.counts z + tally (access.now.address % 64 == z && not (live v access.now.address)) }
        ensures full { slice_index demand.old.added.counts (access.now.address % 64) < 255 → demand.old.full ≡ crowded (λ z. live_at self.now.table z + slice_index demand.old.added.counts z) → demand.new.full ≡ crowded (λ z. live_at self.now.table z + slice_index demand.new.added.counts z) }
    {
        let live = self.is_live(access.address);
        if takes_version(access.writes(), !live) {
            demand.versions = demand.versions.saturating_add(1);
        }
        if !live {
            let set = Set::of(access.address);
            demand.add(set, self.table.live[set.number]);
        }
    }

    // What a task with these accesses needs of the tables.
    fn demand(&self, accesses: &[Access]) -> Demand
        ensures versions { (v : Roll) → Tracked self.now v → length accesses.now ≤ 15 → result.versions ≡ needs v accesses.now }
        ensures added { (v : Roll) → Tracked self.now v → length accesses.now ≤ 15 → (z : ℕ) → z < 64 → slice_index result.added.counts z ≡ fresh (sized 0 0) v z accesses.now }
        ensures full { (v : Roll) → Tracked self.now v → length accesses.now ≤ 15 → result.full ≡ crowded (λ z. live_at self.now.table z + slice_index result.added.counts z) }
    {
        let mut demand = Demand {
            versions: 0,
            added: SetCounts::none(),
            full: None,
        };
        for access in accesses {
            self.count_in(&mut demand, access);
        }
        demand
    }

    // May a task with these accesses, which has a seat, enter now? If not, why: too few versions, or a set without room, in that order.
    pub fn stall(&self, accesses: &[Access], versions: u16) -> Result<(), TableFault>
        ensures { (v : Roll) → Tracked self.now v → length accesses.now ≤ 15 → result ≡ unless (stall (sized 0 versions) v (0 ∷ []) accesses.now) }
    {
        let demand = self.demand(accesses);
        let free = versions.saturating_sub(self.used);
        let missing = demand.versions.saturating_sub(free);
        if missing > 0 {
            return Err(TableFault::TooFewVersions { missing });
        }
        match demand.full {
            Some(set) => Err(TableFault::SetFull { set }),
            None => Ok(()),
        }
    }
}
