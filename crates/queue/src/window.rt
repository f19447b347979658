// The slots of a ring that are in use: which slot the next element goes into, and which one holds the first.
ghost use Rattle.std.specs.Prelude.{◌≡◌, ◌+◌, ◌-◌, ◌<◌, MatchOption, if◌then◌else◌, nat_lt};
ghost use Rattle.queue.specs.Contents.{next_slot};
ghost use Rattle.queue.specs.Window.{Within};

// So many slots are in use, from head on, round the end of the slots.
#[derive(Clone, Copy, PartialEq, Eq, Debug)]
pub struct Window {
    pub head: usize,
    pub len: usize,
}

impl Window {
    // No slot is in use.
    pub fn new() -> Window
        ensures { result ≡ record { head = 0; len = 0 } }
    {
        Window { head: 0, len: 0 }
    }

    // The slot of the first element, if there is one.
    pub fn first(&self) -> Option<usize>
        ensures cases { MatchOption result (self.now.len ≡ 0) (λ at. (0 < self.now.len) × (at ≡ self.now.head)) }
    {
        if self.len == 0 {
            return None;
        }
        Some(self.head)
    }

    // One more element: the slot that it goes into, unless each of the slots is in use. It says nothing of a window on fewer slots.
    pub fn push(&mut self, slots: usize) -> Option<usize>
        ensures cases { Within self.old slots → MatchOption result ((self.old.len ≡ slots) × (self.new ≡ self.old)) (λ at. (self.old.len < slots) × (at ≡ next_slot slots self.old.head self.old.len) × (at < slots) × (self.new ≡ record { head = self.old.head; len = self.old.len + 1 })) }
    {
        if self.len == slots {
            return None;
        }
        let room = slots.saturating_sub(self.head);
        let at = if self.len < room {
            self.head + self.len
        } else {
            self.len - room
        };
        self.len = self.len.saturating_add(1);
        Some(at)
    }

    // One element fewer: the slot of the first one, if there is one, and then the slots from the next one on are in use. It says nothing
    // of a window on fewer slots.
    pub fn pop(&mut self, slots: usize) -> Option<usize>
        ensures cases { Within self.old slots → MatchOption result ((self.old.len ≡ 0) × (self.new ≡ self.old)) (λ at. (0 < self.old.len) × (at ≡ self.old.head) × (at < slots) × (self.new ≡ record { head = (if nat_lt (at + 1) slots then at + 1 else 0); len = self.old.len - 1 })) }
    {
        let first = self.first()?;
        self.head = if first < slots.saturating_sub(1) {
            first + 1
        } else {
            0
        };
        self.len -= 1;
        Some(first)
    }
}
