// Making a line, putting in at its end and taking out at its front.
ghost use Rattle.std.specs.Prelude.{◌≡◌, true, [], ◌∷◌, ◌++◌, length, if◌then◌else◌, Ok, Err, MatchResult, slice_set};
ghost use Rattle.fault.specs.declared.ManagerFault.TheVariants.{LineEmpty, LineFull};
ghost use Rattle.queue.specs.Model.{contents_of, slots_of, full, slot_after};

use crate::Line;
use crate::window::Window;
use fault::ManagerFault;

impl<'a, T: Copy> Line<'a, T> {
    // An empty line over the slots, which stay as they are.
    pub fn new(slots: &'a mut [T]) -> Line<'a, T>
        ensures lent { result.slots.ghost_name ≡ slots.entry.ghost_name }
        ensures slots { slots_of result ≡ slots.old }
        ensures contents { contents_of result ≡ [] }
    {
        Line {
            slots,
            window: Window::new(),
        }
    }

    // How many elements are in the line.
    pub fn len(&self) -> usize
        ensures { result ≡ length (contents_of self.now) }
    {
        self.window.len
    }

    // Whether there is an element in every slot.
    pub fn is_full(&self) -> bool
        ensures { result ≡ full self.now }
    {
        self.len() == self.slots.len()
    }

    // Puts an element at the end, into one slot, or refuses where the line is full.
    pub fn push(&mut self, x: T) -> Result<(), ManagerFault>
        ensures answer { result ≡ (if full self.old then Err LineFull else Ok tt) }
        ensures contents { contents_of self.new ≡ (if full self.old then contents_of self.old else contents_of self.old ++ (x ∷ [])) }
        ensures slots { slots_of self.new ≡ (if full self.old then slots_of self.old else slice_set (slots_of self.old) (slot_after self.old) x) }
        ensures refused { full self.old ≡ true → self.new ≡ self.old }
        ensures lent { self.new.slots.ghost_name ≡ self.old.slots.ghost_name }
    {
        let Some(at) = self.window.push(self.slots.len()) else {
            return Err(ManagerFault::LineFull);
        };
        self.slots[at] = x;
        Ok(())
    }

    // Takes the first element out, or refuses where there is none. No slot changes.
    pub fn pop(&mut self) -> Result<T, ManagerFault>
        ensures cases { MatchResult result (λ x. contents_of self.old ≡ x ∷ contents_of self.new) (λ e. (e ≡ LineEmpty) × (contents_of self.old ≡ []) × (self.new ≡ self.old)) }
        ensures slots { slots_of self.new ≡ slots_of self.old }
        ensures lent { self.new.slots.ghost_name ≡ self.old.slots.ghost_name }
    {
        let Some(at) = self.window.pop(self.slots.len()) else {
            return Err(ManagerFault::LineEmpty);
        };
        Ok(self.slots[at])
    }
}
