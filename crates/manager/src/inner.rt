// The manager's fields, as plain structs: the table of seats and all that stands beside it.
mod enters;
mod leaves;
mod table;
mod wakes;

use acceptance::Acceptance;
use ring::Ring;
use seat::Seat;
use tracker::Tracker;

// A record for each of the 256 seats.
#[derive(Drop)]
pub struct SeatTable {
    pub(crate) records: Vec<Seat>,
}

// The seats, the order of acceptance, the two lines of seats, the dependence tables, and the sizes.
#[derive(Drop)]
pub struct Inner {
    pub(crate) table: SeatTable,
    pub(crate) order: Acceptance,
    pub(crate) ready: Ring<u8>,
    pub(crate) free: Ring<u8>,
    pub(crate) tracker: Tracker,
    pub(crate) seats: u16,
    pub(crate) versions: u16,
}
