// The address table: 64 sets of 8 ways; the ways of set z are z, z + 64, and so on to z + 448.
ghost use Rattle.std.specs.Prelude.{◌≡◌, ◌+◌, ◌*◌, ◌%◌, ◌<◌, vec_len};

use crate::lock::Lock;

// How many sets there are, how many ways a set has, and how many ways that makes.
pub(crate) const SETS: usize = 64;

pub(crate) const WAYS: usize = 8;

pub(crate) const TOTAL: usize = 512;

// One of the sets.
#[derive(Clone, Copy)]
pub(crate) struct Set {
    pub(crate) number: usize,
    ghost low: { number < 64 },
}

// One of the ways of the table.
#[derive(Clone, Copy)]
pub(crate) struct Way {
    pub(crate) number: usize,
    ghost low: { number < 512 },
}

// What stands at a way: an address and its lock.
#[derive(Clone, Copy)]
pub struct Slot {
    pub(crate) address: u64,
    pub(crate) lock: Lock,
}

// What stands at each way, and for each set how many of its ways are live.
#[derive(Drop)]
pub struct AddressTable {
    pub(crate) slots: Vec<Slot>,
    pub(crate) live: Vec<u8>,
    ghost whole: { vec_len slots ≡ 512 },
    ghost counted: { vec_len live ≡ 64 },
}

// What a claim met: was its address not live before, and does it hold the address at once?
// Kept: the caller asks for each of the two by itself; as three cases (first, beside others, waits) it would ask by two matches.
#[derive(Clone, Copy)]
pub struct Claimed {
    pub fresh: bool,
    pub holds: bool,
}

impl Set {
    // The set of an address.
    pub(crate) fn of(address: u64) -> Set
        ensures { result.number ≡ address % 64 }
    {
        Set {
            number: (address % SETS as u64) as usize,
        }
    }

    // One of its ways.
    pub(crate) fn way(self, k: usize) -> Way
        requires { k < 8 }
        ensures { result.number ≡ self.number + 64 * k }
    {
        Way {
            number: self.number + SETS * k,
        }
    }
}

impl Way {
    // The set that the way is of.
    pub(crate) fn set(self) -> Set
        ensures { result.number ≡ self.number % 64 }
    {
        Set {
            number: self.number % SETS,
        }
    }
}
