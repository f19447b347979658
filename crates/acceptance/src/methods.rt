// Listing a seat, removing it, and looking at the seats in order.
ghost use Rattle.std.specs.Prelude.{◌≡◌, ℕ, ◌+◌, ◌<◌, ◌≤◌, false, not, [], ◌∷◌, ◌++◌, IfOk, if◌then◌else◌, MatchOption, length, vec_len, vec_capacity};
ghost use Rattle.acceptance.specs.Listed.{below, end_of, listed, member, place_of, removed, seat_at, seats_in};
ghost use Rattle.acceptance.specs.Placed.{Placed};

use crate::{Acceptance, PLACES, SEATS};
use std::alloc::{AllocError, Global};

impl Acceptance {
    // No seat is listed.
    pub fn new(heap: Global) -> Result<Acceptance, AllocError>
        ensures { IfOk result (λ a. listed a ≡ []) }
    {
        let slots = Vec::with_capacity(heap, PLACES)?;
        let places = vec![in heap; 0; SEATS]?;
        Ok(Acceptance { slots, places })
    }

    // Whether the seat is listed.
    pub fn lists(&self, seat: u8) -> bool
        ensures { result ≡ member seat (listed self.now) }
    {
        self.at(self.place(seat)) == Some(seat)
    }

    // Lists a seat behind all others, or refuses it where it is listed already.
    // Kept: a bool as that of `HashSet::insert`: there is one way to refuse and no value to hand back.
    pub fn push(&mut self, seat: u8) -> bool
        ensures answer { result ≡ not (member seat (listed self.old)) }
        ensures listed { listed self.new ≡ (if result then listed self.old ++ (seat ∷ []) else listed self.old) }
        ensures refused { result ≡ false → self.new ≡ self.old }
    {
        if self.lists(seat) {
            return false;
        }
        if self.slots.len() == PLACES {
            self.close_up();
        }
        self.append(seat);
        true
    }

    // Removes a seat and leaves a hole at its place, or refuses where it is not listed.
    // Kept: a bool as that of `HashSet::remove`: there is one way to refuse and no value to hand back.
    pub fn remove(&mut self, seat: u8) -> bool
        ensures answer { result ≡ member seat (listed self.old) }
        ensures listed { listed self.new ≡ (if result then removed seat (listed self.old) else listed self.old) }
        ensures stays { (t : ℕ) → place_of self.new t ≡ place_of self.old t }
        ensures end { end_of self.new ≡ end_of self.old }
        ensures refused { result ≡ false → self.new ≡ self.old }
    {
        if !self.lists(seat) {
            return false;
        }
        let place = self.place(seat);
        self.slots[place] = None;
        true
    }

    // The place of a listed seat.
    pub fn place(&self, seat: u8) -> usize
        ensures value { result ≡ place_of self.now seat }
        ensures low { result < 65536 }
    {
        usize::from(self.places[usize::from(seat)])
    }

    // The seat at a place, if there is one.
    pub fn at(&self, place: usize) -> Option<u8>
        ensures value { result ≡ seat_at self.now place }
        ensures cases { MatchOption result (below self.now (place + 1) ≡ below self.now place) (λ s. (below self.now (place + 1) ≡ below self.now place ++ (s ∷ [])) × (place_of self.now s ≡ place) × (place < end_of self.now)) }
    {
        *self.slots.get(place)?
    }

    // The place behind all listed seats.
    pub fn end(&self) -> usize
        ensures { result ≡ end_of self.now }
    {
        self.slots.len()
    }

    // Lists a seat that is not listed, where a place is left.
    fn append(&mut self, seat: u8)
        requires room { end_of self.old < 512 }
        requires apart { member seat (listed self.old) ≡ false }
        ensures { listed self.new ≡ listed self.old ++ (seat ∷ []) }
    {
        self.places[usize::from(seat)] = self.slots.len() as u16;
        self.slots.push_reserved(Some(seat));
    }

    // Closes up the holes, so that a place is left.
    fn close_up(&mut self)
        ensures room { end_of self.new < 512 }
        ensures listed { listed self.new ≡ listed self.old }
    {
        close_holes(&mut self.slots, &mut self.places);
    }
}

// Closes up the holes, and notes the seats' new places.
fn close_holes(slots: &mut Vec<Option<u8>>, places: &mut [u16])
    requires noted { length places.old ≡ 256 }
    requires placed { Placed slots.old.items places.old }
    ensures few { vec_len slots.new ≤ 256 }
    ensures room { vec_capacity slots.new ≡ vec_capacity slots.old }
    ensures seats { seats_in slots.new.items ≡ seats_in slots.old.items }
    ensures placed { Placed slots.new.items places.new }
{
    slots.retain(|slot| slot.is_some());
    for (place, slot) in slots.iter().enumerate() {
        if let Some(seat) = slot {
            places[usize::from(*seat)] = place as u16;
        }
    }
}
