// A run of places.
ghost use Rattle.std.specs.Prelude.{◌≡◌, ℕ, ◌<◌, ◌≤◌};
ghost use Rattle.tracker.specs.Covered.{Covered};

// The places from first up to before end.
// Kept: `cover` is a method of its own; of a Range of the library it would be a function beside it, and none() and Copy would be lost.
#[derive(Clone, Copy, PartialEq, Eq, Debug)]
pub struct Span {
    pub first: usize,
    pub end: usize,
}

impl Span {
    // No place.
    pub fn none() -> Span
        ensures { result ≡ record { first = 0; end = 0 } }
    {
        Span { first: 0, end: 0 }
    }

    // One more place, and those between it and the others.
    pub(crate) fn cover(&mut self, place: usize)
        ensures covered { place < 65536 → Covered self.new place }
        ensures stays { (p : ℕ) → Covered self.old p → Covered self.new p }
    {
        let after = place.saturating_add(1);
        if self.first >= self.end {
            self.first = place;
            self.end = after;
            return;
        }
        self.first = self.first.min(place);
        self.end = self.end.max(after);
    }
}
