// The fields of a message, read one after another.
ghost use Rattle.std.specs.Prelude.{◌≡◌, ℕ, ◌+◌, ◌-◌, ◌*◌, ◌<◌, ◌≤◌, [], ◌∷◌, length, Err, IfOk};
ghost use Rattle.layout.specs.Reading.{read};

use crate::kind::Kind;
use crate::{Message, Place};
use fault::StreamFault;
use task::{Access, Direction, MAX_ACCESSES, Task};

// The first byte of every message.
const VERSION: u8 = 2;

// A message whose fields are read: the run of bytes, the place of the next field, and where the message begins.
#[derive(Drop)]
pub(crate) struct Fields<'a> {
    bytes: &'a [u8],
    place: &'a mut Place,
    start: usize,
    ghost begun: { start ≤ place.now.at },
    ghost inside: { place.now.at ≤ length bytes.now },
}

impl<'a> Fields<'a> {
    ghost use Rattle.layout.specs.Reading.{value, number, direction_at, addresses, directions, submission};
    ghost use Rattle.message.specs.Contents.{contents_of, message_width, submitted, submission_width, FieldRead, ListRead, BodyRead, HeaderRead};
    ghost use Rattle.message.specs.Fields.{SameMessage};
    ghost use Rattle.task.specs.Limits.{max_accesses};
    ghost use Rattle.task.specs.Task.{accesses_of};

    // The fields of the message that begins at the place.
    pub(crate) fn new(bytes: &'a [u8], place: &'a mut Place) -> Fields<'a>
        requires { place.old.at ≤ length bytes.now }
        ensures reference { result.place.ghost_name ≡ place.entry.ghost_name }
        ensures place { result.place.now ≡ place.old }
        ensures bytes { result.bytes.now ≡ bytes.now }
        ensures start { result.start ≡ place.old.at }
    {
        let start = place.at;
        Fields {
            bytes,
            place,
            start,
        }
    }

    // The byte number of the next field, counted from the message's first byte.
    fn byte(&self) -> usize
        ensures { result ≡ self.now.place.now.at - self.now.start }
    {
        self.place.at - self.start
    }

    // The next field, of N bytes. The place moves behind it; or it reaches beyond the end, and the place stays.
    // Kept: each method says by one word that it is still the same message; no value holds a relation of old and new.
    fn field<const N: usize>(&mut self) -> Result<[u8; N], StreamFault>
        ensures same { SameMessage self.old self.new }
        ensures read { FieldRead (number N) value N self.old.bytes.now self.old.start self.old.place.now.at result self.new.place.now.at }
    {
        let rest = &self.bytes[self.place.at..];
        let Some(field) = rest.first_chunk::<N>() else {
            return Err(StreamFault::BeyondEnd { byte: self.byte() });
        };
        self.place.at += N;
        Ok(*field)
    }

    // A direction. The place moves behind it; or it is refused, and the place stays.
    fn direction(&mut self) -> Result<Direction, StreamFault>
        ensures same { SameMessage self.old self.new }
        ensures read { FieldRead direction_at (λ d. d) 1 self.old.bytes.now self.old.start self.old.place.now.at result self.new.place.now.at }
    {
        let byte = self.byte();
        let [code, ..] = &self.bytes[self.place.at..] else {
            return Err(StreamFault::BeyondEnd { byte });
        };
        let direction = Direction::try_from(*code).map_err(
            |unknown| StreamFault::UnknownDirection {
                byte,
                found: unknown.found,
            },
        )?;
        self.place.at += 1;
        Ok(direction)
    }

    // The message, from its first byte. The place moves on with each field.
    pub(crate) fn message(&mut self) -> Result<Message, StreamFault>
        requires first { self.old.place.now.at ≡ self.old.start }
        requires some { self.old.place.now.at < length self.old.bytes.now }
        ensures reference { self.new.place.ghost_name ≡ self.old.place.ghost_name }
        ensures read { BodyRead (read self.old.place.now.at) contents_of message_width self.old.bytes.now self.old.place.now.at result self.new.place.now.at }
    {
        match self.header()? {
            Kind::Submission => Ok(Message::Submission(self.submission()?)),
            Kind::Finish => Ok(Message::Finish(u16::from_le_bytes(self.field()?))),
        }
    }

    // The kind of the message, whose version is known. The place moves behind the two.
    fn header(&mut self) -> Result<Kind, StreamFault>
        requires { self.old.place.now.at < length self.old.bytes.now }
        ensures same { SameMessage self.old self.new }
        ensures read { HeaderRead self.old.bytes.now self.old.place.now.at result self.new.place.now.at }
    {
        let [version, kind, rest @ ..] = &self.bytes[self.place.at..] else {
            return Err(one_byte(self.bytes[self.place.at]));
        };
        if *version != VERSION {
            return Err(StreamFault::UnknownVersion { found: *version });
        }
        let kind = Kind::try_from(*kind)?;
        self.place.at = self.bytes.len() - rest.len();
        Ok(kind)
    }

    // An address for each place of the list.
    fn addresses(&mut self, list: &mut [u64]) -> Result<(), StreamFault>
        ensures same { SameMessage self.old self.new }
        ensures length { length list.new ≡ length list.old }
        ensures read { ListRead (addresses (length list.old)) (λ _. list.new) (8 * length list.old) self.old.bytes.now self.old.start self.old.place.now.at result self.new.place.now.at }
    {
        for slot in list {
            *slot = u64::from_le_bytes(self.field()?);
        }
        Ok(())
    }

    // A direction for each of the addresses. The two together are pushed to the task.
    fn directions(&mut self, list: &[u64], mut task: Task) -> Result<Task, StreamFault>
        requires few { length list.now ≤ max_accesses }
        requires empty { accesses_of task ≡ [] }
        ensures same { SameMessage self.old self.new }
        ensures kept { IfOk result (λ t. (t.name ≡ task.name) × (t.kind ≡ task.kind) × (length (accesses_of t) ≡ length list.now)) }
        ensures read { ListRead (directions list.now) accesses_of (length list.now) self.old.bytes.now self.old.start self.old.place.now.at result self.new.place.now.at }
    {
        for address in list {
            let direction = self.direction()?;
            let access = Access {
                address: *address,
                direction,
            };
            let _ = task.push(access);
        }
        Ok(task)
    }

    // A submission, behind its first two bytes.
    fn submission(&mut self) -> Result<Task, StreamFault>
        requires { self.old.place.now.at ≡ self.old.start + 2 }
        ensures same { SameMessage self.old self.new }
        ensures read { BodyRead submission submitted submission_width self.old.bytes.now self.old.place.now.at result self.new.place.now.at }
    {
        let count = u16::from_le_bytes(self.field()?);
        let n = usize::from(count);
        if n > MAX_ACCESSES {
            return Err(StreamFault::TooMany { count });
        }
        let name = u32::from_le_bytes(self.field()?);
        let kind = u32::from_le_bytes(self.field()?);
        let mut room = [0; MAX_ACCESSES];
        let list = &mut room[..n];
        self.addresses(list)?;
        self.directions(list, Task::new(name, kind))
    }
}

// What is wrong with a message of one byte.
fn one_byte(version: u8) -> StreamFault
    ensures { (place : ℕ) → read place (version ∷ []) ≡ Err result }
{
    if version != VERSION {
        StreamFault::UnknownVersion { found: version }
    } else {
        StreamFault::BeyondEnd { byte: 1 }
    }
}
