// Making a ring, reading it, putting in at its end and taking out at its front.
ghost use Rattle.std.specs.Prelude.{◌≡◌, false, [], ◌∷◌, ◌++◌, length, if◌then◌else◌, MatchOption, nat_lt};
ghost use Rattle.ring.specs.Capacity.{capacity};
ghost use Rattle.ring.specs.Model.{contents_of, first_of};

use crate::{CAPACITY, Ring};
use queue::Window;

impl<T: Copy> Ring<T> {
    // A ring with no element; the filler stands in every slot until an element is put there.
    pub fn new(filler: T) -> Ring<T>
        ensures { contents_of result ≡ [] }
    {
        Ring {
            slots: [filler; CAPACITY],
            window: Window::new(),
        }
    }

    // How many elements are in the ring.
    pub fn len(&self) -> usize
        ensures { result ≡ length (contents_of self.now) }
    {
        self.window.len
    }

    // The element that is first, if there is one.
    pub fn first(&self) -> Option<T>
        ensures { result ≡ first_of (contents_of self.now) }
    {
        let place = self.window.first()?;
        Some(self.slots[place])
    }

    // Puts an element at the end, unless there is one in every slot. Was it put in?
    // Kept: an element is Copy, so the caller still has what was refused, and there is one way to refuse.
    pub fn push(&mut self, x: T) -> bool
        ensures answer { result ≡ nat_lt (length (contents_of self.old)) capacity }
        ensures contents { contents_of self.new ≡ (if result then contents_of self.old ++ (x ∷ []) else contents_of self.old) }
        ensures refused { result ≡ false → self.new ≡ self.old }
    {
        let Some(at) = self.window.push(CAPACITY) else {
            return false;
        };
        self.slots[at] = x;
        true
    }

    // Takes the first element out, if there is one.
    pub fn pop(&mut self) -> Option<T>
        ensures cases { MatchOption result ((contents_of self.old ≡ []) × (self.new ≡ self.old)) (λ x. contents_of self.old ≡ x ∷ contents_of self.new) }
    {
        let at = self.window.pop(CAPACITY)?;
        Some(self.slots[at])
    }
}
