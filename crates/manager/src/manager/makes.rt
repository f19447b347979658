// Making a manager.
ghost use Rattle.std.specs.Prelude.{◌≡◌, ◌≤◌, [], IfOk};
ghost use Rattle.ring.specs.Model.{contents_of};
ghost use Rattle.roll.specs.Tables.{tables};
ghost use Rattle.roll.specs.Calls.{numbers};
ghost use Rattle.manager.specs.Model.{roll_of, ready_of, free_of, tables_of};

use crate::inner::{Inner, SeatTable};
use crate::manager::Manager;
use acceptance::Acceptance;
use ring::Ring;
use seat::Seat;
use std::alloc::{AllocError, Global};
use tracker::Tracker;

// How many seats and how many version places there are at most.
const MOST_SEATS: usize = 256;

const MOST_VERSIONS: usize = 512;

impl Manager {
    // A manager with this many seats and version places, at most 256 and 512, and no task; every seat is free, in order of its number.
    // Kept: the interface of the makers names two plain numbers, as a rule of the project.
    pub fn new(heap: Global, seats: usize, versions: usize) -> Result<Manager, AllocError>
        ensures tables { IfOk result (λ m. tables_of m.inner ≡ tables seats versions) }
        ensures roll { IfOk result (λ m. roll_of m.inner ≡ []) }
        ensures ready { IfOk result (λ m. ready_of m.inner ≡ []) }
        ensures free { IfOk result (λ m. free_of m.inner ≡ numbers 0 (tables seats versions).seats) }
    {
        let most = seats.min(MOST_SEATS) as u16;
        let inner = Inner {
            table: SeatTable {
                records: vec![in heap; Seat::free(); MOST_SEATS]?,
            },
            order: Acceptance::new(heap)?,
            ready: Ring::new(0u8),
            free: free_line(most),
            tracker: Tracker::new(heap)?,
            seats: most,
            versions: versions.min(MOST_VERSIONS) as u16,
        };
        Ok(Manager { inner })
    }
}

// The first seats, in order.
fn free_line(seats: u16) -> Ring<u8>
    requires { seats ≤ 256 }
    ensures { contents_of result ≡ numbers 0 seats }
{
    let mut line = Ring::new(0u8);
    for seat in 0..seats {
        let _ = line.push(seat as u8);
    }
    line
}
