// A reader: a run of bytes and a place in it.
ghost use Rattle.std.specs.Prelude.{◌≡◌};
ghost use Rattle.message.specs.Contents.{Answered};

use crate::fields::Fields;
use crate::guard::PlaceGuard;
use crate::{Message, Place};
use fault::StreamFault;

// A run of bytes, and the place of the next message in it.
#[derive(Drop)]
pub struct Reader<'a> {
    pub bytes: &'a [u8],
    pub place: Place,
}

impl<'a> Reader<'a> {
    // A reader that stands at the first byte.
    pub fn new(bytes: &'a [u8]) -> Reader<'a>
        ensures bytes { result.bytes.now ≡ bytes.now }
        ensures place { result.place.at ≡ 0 }
    {
        Reader {
            bytes,
            place: Place { at: 0 },
        }
    }

    // The message at the place, which moves behind it; or the first fault, and the place stays.
    pub fn read(&mut self) -> Result<Message, StreamFault>
        ensures answer { Answered self.old.bytes.now self.old.place.at result self.new.place.at }
        ensures bytes { self.new.bytes.now ≡ self.old.bytes.now }
    {
        read_message(self.bytes, &mut self.place)
    }
}

// The message at the place, which moves behind it; or the first fault, and the place stays.
pub fn read_message(bytes: &[u8], place: &mut Place) -> Result<Message, StreamFault>
    ensures { Answered bytes.now place.old.at result place.new.at }
{
    if place.at >= bytes.len() {
        return Err(StreamFault::NoByteLeft { place: place.at });
    }
    let mut guard = PlaceGuard::new(place);
    let mut fields = Fields::new(bytes, guard.place);
    let message = fields.message()?;
    guard.accept();
    Ok(message)
}
