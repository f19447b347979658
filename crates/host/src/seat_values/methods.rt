// How a table of the values held aside is made, read and written.
ghost use Rattle.std.specs.Prelude.{◌≡◌, ℕ, ◌+◌, ◌*◌, ◌&&◌, is_some, IfSome, IfOk, if◌then◌else◌, Some, None, nat_le, nat_lt};
ghost use Rattle.host.specs.Meaning.{row, seats, positions, update};
ghost use Rattle.host.specs.SeatValues.{aside_of, within};

use super::SeatValues;
use crate::{POSITIONS, SEATS};
use std::alloc::{AllocError, Global};

// Where the value at a seat and a position lies in the list, if the table has them.
fn place(seat: u16, position: u8) -> Option<usize>
    ensures { result ≡ (if within seat position then Some (seat * positions + position) else None) }
{
    let seat = seat as usize;
    let position = position as usize;
    if seat < SEATS && position < POSITIONS {
        Some(seat * POSITIONS + position)
    } else {
        None
    }
}

impl<V: Copy> SeatValues<V> {
    // A table with the same value at every seat and position.
    pub fn new(heap: Global, blank: V) -> Result<SeatValues<V>, AllocError>
        ensures { IfOk result (λ t. aside_of blank t ≡ (λ s p. blank)) }
    {
        let mut values = Vec::new(heap);
        values.resize(SEATS * POSITIONS, blank)?;
        Ok(SeatValues { values })
    }

    // The value at a seat and a position of the table.
    pub fn get(&self, seat: u16, position: u8) -> Option<V>
        ensures { (blank : V) → result ≡ (if within seat position then Some (aside_of blank self.now seat position) else None) }
    {
        place(seat, position).map(|place| self.values[place])
    }

    // Sets the value at a seat and a position. Beyond the table it changes nothing.
    pub fn set(&mut self, seat: u16, position: u8, value: V)
        ensures { (blank : V) → aside_of blank self.new ≡ (if within seat position then update (aside_of blank self.old) seat (update (aside_of blank self.old seat) position value) else aside_of blank self.old) }
    {
        if let Some(place) = place(seat, position) {
            self.values[place] = value;
        }
    }

    // The values at the first n positions of a seat.
    pub fn first(&self, seat: u16, n: u8) -> Option<&[V]>
        ensures test { is_some result ≡ (nat_lt seat seats && nat_le n positions) }
        ensures value { (blank : V) → IfSome result (λ values. values.now ≡ row 0 n (aside_of blank self.now seat)) }
    {
        let seat = seat as usize;
        let n = n as usize;
        if seat < SEATS && n <= POSITIONS {
            let start = seat * POSITIONS;
            Some(&self.values[start..start + n])
        } else {
            None
        }
    }
}
