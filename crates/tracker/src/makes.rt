// Tables that no task is in.
ghost use Rattle.std.specs.Prelude.{[], IfOk};
ghost use Rattle.tracker.specs.Table.{Unused};
ghost use Rattle.tracker.specs.Tracked.{Tracked};

use crate::lock::Lock;
use crate::tracker::{SEATS, Tracker};
use crate::ways::{AddressTable, SETS, Slot, TOTAL};
use std::alloc::{AllocError, Global};

impl AddressTable {
    // No way is live.
    pub(crate) fn new(heap: Global) -> Result<AddressTable, AllocError>
        ensures { IfOk result (λ w. Unused w) }
    {
        let free = Slot {
            address: 0,
            lock: Lock::new(),
        };
        let slots = vec![in heap; free; TOTAL]?;
        let live = vec![in heap; 0u8; SETS]?;
        Ok(AddressTable { slots, live })
    }
}

impl Tracker {
    // No task is in the tables.
    pub fn new(heap: Global) -> Result<Tracker, AllocError>
        ensures { IfOk result (λ t. Tracked t []) }
    {
        let table = AddressTable::new(heap)?;
        let blocked = vec![in heap; 0u8; SEATS]?;
        Ok(Tracker {
            table,
            blocked,
            used: 0,
        })
    }
}
