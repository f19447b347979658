// How a host of values at evenly spaced addresses is made, and what it does as a host.
ghost use Rattle.std.specs.Prelude.{◌≡◌, ◌/◌, min, length, IfOk, if◌then◌else◌, Some, None};
ghost use Rattle.host.specs.Limit.{max_values};
ghost use Rattle.host.specs.ArrayHost.{held_by, count_of, fixed_of, values_of, fixed_for, values_from, all_blank};

use super::ArrayHost;
use crate::{Host, MAX_VALUES, ReadBack, SeatValues, Work};
use std::alloc::{AllocError, Global};

impl<W: Work> ArrayHost<W> {
    // A host of the handed values, of at most MAX_VALUES of them, with blank values held aside.
    pub fn new(heap: Global, values: &[W::Value]) -> Result<ArrayHost<W>, AllocError>
        ensures count { IfOk result (λ h. count_of h ≡ min (length values.now) max_values) }
        ensures fixed { IfOk result (λ h. fixed_of h ≡ fixed_for W.STEP W.rule (length values.now)) }
        ensures values { IfOk result (λ h. values_of h ≡ values_from W.STEP W.blank values.now) }
    {
        let count = values.len().min(MAX_VALUES);
        let values = Vec::from_slice(heap, &values[..count])?;
        let aside = SeatValues::new(heap, W::blank())?;
        Ok(ArrayHost { values, aside })
    }

    // A host of as many blank values as asked for, of at most MAX_VALUES, with blank values held aside.
    pub fn zeros(heap: Global, count: usize) -> Result<ArrayHost<W>, AllocError>
        ensures count { IfOk result (λ h. count_of h ≡ min count max_values) }
        ensures fixed { IfOk result (λ h. fixed_of h ≡ fixed_for W.STEP W.rule count) }
        ensures values { IfOk result (λ h. values_of h ≡ all_blank W.blank) }
    {
        let mut values = Vec::new(heap);
        values.resize(count.min(MAX_VALUES), W::blank())?;
        let aside = SeatValues::new(heap, W::blank())?;
        Ok(ArrayHost { values, aside })
    }

    // How many values the host has.
    pub fn len(&self) -> usize
        ensures { result ≡ count_of self.now }
    {
        self.values.len()
    }

    // Where the value at an address lies in the list, if there is one.
    fn place(&self, address: u64) -> Option<usize>
        ensures { result ≡ (if held_by W.STEP (count_of self.now) address then Some (address / W.STEP) else None) }
    {
        let place = address / W::STEP;
        if address % W::STEP == 0 && place < self.values.len() as u64 {
            Some(place as usize)
        } else {
            None
        }
    }
}

// The host's meaning is its values at the multiples of the step from 0 on.
impl<W: Work> Host for ArrayHost<W> {
    type Value = W::Value;

    ghost fixed = { fixed_of };

    ghost values = { values_of };

    // Whether there is a value at the address.
    fn holds(&self, address: u64) -> bool {
        self.place(address).is_some()
    }

    // Copies the value at the address to a position of the seat.
    fn bring(&mut self, address: u64, seat: u16, position: u8) {
        if let Some(place) = self.place(address) {
            self.aside.set(seat, position, self.values[place]);
        }
    }

    // Sets the value at the address by the rule, from the seat's first n positions.
    fn put(&mut self, kind: u32, access: u8, n: u8, seat: u16, address: u64) {
        if let Some(place) = self.place(address) {
            if let Some(values) = self.aside.first(seat, n) {
                self.values[place] = W::work(kind, access, values);
            }
        }
    }
}

// The values can be looked at.
impl<W: Work> ReadBack for ArrayHost<W> {
    // The value at the address.
    fn value_at(&self, address: u64) -> Option<W::Value> {
        self.place(address).map(|place| self.values[place])
    }

    // The value held aside for the seat and the position.
    fn aside_at(&self, seat: u16, position: u8) -> Option<W::Value> {
        self.aside.get(seat, position)
    }
}
