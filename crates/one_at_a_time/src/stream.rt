// A stream of messages, one at a time.
ghost use Rattle.std.specs.Prelude.{◌≡◌, length, MatchResult};
ghost use Rattle.message.specs.Contents.{contents_of};
ghost use Rattle.one_at_a_time.specs.Journal.{line, after_all};
ghost use Rattle.one_at_a_time.specs.Ran.{line_of, lines_of, NotTaken, Ended, Next, RanStream};

use crate::alone::perform;
use crate::journal::{End, Entry, Journal};
use host::ReadBack;
use message::{Message, Place, PlaceGuard, read_message};
use std::alloc::Global;

// Does every submission of the stream in turn, alone, and passes over finish notices, up to the first message that is refused.
// Answers what was done at each message, where it ended and why.
pub fn run_stream<H: ReadBack>(heap: Global, host: &mut H, bytes: &[u8]) -> Journal<H::Value>
    ensures fixed { H.Host.fixed host.new ≡ H.Host.fixed host.old }
    ensures ran { RanStream (H.Host.fixed host.old) bytes.now result (H.Host.values host.old) (H.Host.values host.new) }
{
    let mut entries = Vec::new(heap);
    let mut place = Place { at: 0 };
    loop {
        if let Err(end) = run_next(heap, host, bytes, &mut place, &mut entries) {
            return Journal {
                entries,
                place: place.at,
                end,
            };
        }
    }
}

// Does the message at the place, which moves behind it, and notes what was done; or says why not, and the place stays.
// Memory for the note is reserved before the message is done, so that what is done can always be noted.
fn run_next<H: ReadBack>(
    heap: Global,
    host: &mut H,
    bytes: &[u8],
    place: &mut Place,
    entries: &mut Vec<Entry<H::Value>>,
) -> Result<(), End>
    ensures fixed { H.Host.fixed host.new ≡ H.Host.fixed host.old }
    ensures cases { MatchResult result (λ _. Next (H.Host.fixed host.old) bytes.now place.old.at place.new.at (lines_of entries.old.items) (lines_of entries.new.items) (H.Host.values host.old) (H.Host.values host.new)) (λ e. Ended (H.Host.fixed host.old) bytes.now place.old.at e × (place.new.at ≡ place.old.at) × (entries.new.items ≡ entries.old.items) × (H.Host.values host.new ≡ H.Host.values host.old)) }
{
    let mut guard = PlaceGuard::new(place);
    let message = read_message(bytes, guard.place)?;
    entries.reserve(1)?;
    let entry = entry_of(heap, host, message)?;
    entries.push_reserved(entry);
    guard.accept();
    Ok(())
}

// Does what the message asks for: the task of a submission, alone, and nothing at a finish notice.
fn entry_of<H: ReadBack>(
    heap: Global,
    host: &mut H,
    message: Message,
) -> Result<Entry<H::Value>, End>
    ensures fixed { H.Host.fixed host.new ≡ H.Host.fixed host.old }
    ensures cases { MatchResult result (λ e. (line_of e ≡ line (H.Host.fixed host.old) (contents_of message) (H.Host.values host.old).at) × (H.Host.values host.new ≡ after_all (H.Host.fixed host.old) (contents_of message) (H.Host.values host.old))) (λ e. NotTaken (H.Host.fixed host.old) (contents_of message) e × (H.Host.values host.new ≡ H.Host.values host.old)) }
{
    match message {
        Message::Submission(task) => Ok(Entry::Ran(perform(heap, host, task)?)),
        Message::Finish(seat) => Ok(Entry::PassedOver(seat)),
    }
}
