// A guard over a reader's place.
ghost use Rattle.std.specs.Prelude.{◌≡◌, Some, None, unwrap_or};

use crate::Place;

// While a message is read the guard has the place, which moves on from field to field. Where the guard ends, the place goes
// back to where it was, unless the message was accepted.
pub struct PlaceGuard<'a> {
    pub place: &'a mut Place,
    // Where the place goes back to; none once the message is accepted.
    pub back_to: Option<Place>,
}

impl<'a> PlaceGuard<'a> {
    // A guard that puts the place back to where it is now.
    pub fn new(place: &'a mut Place) -> PlaceGuard<'a>
        ensures reference { result.place.ghost_name ≡ place.entry.ghost_name }
        ensures place { result.place.now ≡ place.old }
        ensures back_to { result.back_to ≡ Some place.old }
    {
        let back_to = Some(*place);
        PlaceGuard { place, back_to }
    }

    // Accepts the message: the place stays where it has moved to.
    pub fn accept(&mut self)
        ensures reference { self.new.place.ghost_name ≡ self.old.place.ghost_name }
        ensures place { self.new.place.now ≡ self.old.place.now }
        ensures back_to { self.new.back_to ≡ None }
    {
        self.back_to = None;
    }
}

impl Drop for PlaceGuard<'_> {
    fn drop(self)
        ensures { self.exit.0.now ≡ unwrap_or self.entry.back_to self.entry.place.now }
    {
        let PlaceGuard { place, back_to } = self;
        if let Some(old) = back_to {
            *place = old;
        }
    }
}
