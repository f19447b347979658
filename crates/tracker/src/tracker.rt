// The dependence tables of the unfinished tasks.
ghost use Rattle.std.specs.Prelude.{◌≡◌, vec_len};

use crate::ways::AddressTable;

// How many seats there are.
pub(crate) const SEATS: usize = 256;

// The address table, for each seat how many accesses of its task wait, and how many versions are in use.
#[derive(Drop)]
pub struct Tracker {
    pub(crate) table: AddressTable,
    pub(crate) blocked: Vec<u8>,
    pub(crate) used: u16,
    ghost seats: { vec_len blocked ≡ 256 },
}
