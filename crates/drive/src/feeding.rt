// One message of a stream, from its bytes to its call.
ghost use Rattle.std.specs.Prelude.{◌≡◌, false, drop, is_ok};
ghost use Rattle.layout.specs.Reading.{read};
ghost use Rattle.message.specs.Contents.{contents_of};
ghost use Rattle.roll.specs.Calls.{perform};
ghost use Rattle.roll.specs.Built.{state_after, left_by, asked, feed_calls, feed_answer, fed_place};
ghost use Rattle.manager.specs.Model.{tables_of};
ghost use Rattle.manager.specs.Answers.{state_with, setting_with};
ghost use Rattle.drive.specs.Feeding.{feed_result, cause_result, asked_result};

use crate::fed::{Fed, FeedFault};
use fault::{Cause, ManagerFault};
use host::Host;
use manager::Manager;
use message::{Message, Place, PlaceGuard, Reader, read_message};

// Reads one message and makes its submit or its finish. Answers which of the two it was, with that call's answer, and the reader's place
// moves behind the message; or the cause of the refusal with the place of the message's first byte, where the reader stays.
pub fn feed<H: Host>(
    manager: &mut Manager,
    host: &H,
    reader: &mut Reader<'_>,
) -> Result<Fed, FeedFault>
    ensures answer { result ≡ feed_result (feed_answer (setting_with manager.old (H.Host.fixed host.now)) (state_with manager.old (H.Host.values host.now)) reader.old.bytes.now reader.old.place.at) }
    ensures after { state_with manager.new (H.Host.values host.now) ≡ state_after (setting_with manager.old (H.Host.fixed host.now)) (state_with manager.old (H.Host.values host.now)) (feed_calls (read reader.old.place.at (drop reader.old.place.at reader.old.bytes.now))) }
    ensures tables { tables_of manager.new.inner ≡ tables_of manager.old.inner }
    ensures place { reader.new.place.at ≡ fed_place (setting_with manager.old (H.Host.fixed host.now)) (state_with manager.old (H.Host.values host.now)) reader.old.bytes.now reader.old.place.at }
    ensures bytes { reader.new.bytes.now ≡ reader.old.bytes.now }
    ensures refused { is_ok result ≡ false → manager.new ≡ manager.old }
{
    let place = reader.place.at;
    feed_next(manager, host, reader.bytes, &mut reader.place).map_err(|cause| FeedFault {
        place,
        cause,
    })
}

// Reads the message at the place, which moves behind it, and makes its call; or says why not, and the place stays.
fn feed_next<H: Host>(
    manager: &mut Manager,
    host: &H,
    bytes: &[u8],
    place: &mut Place,
) -> Result<Fed, Cause>
    ensures answer { result ≡ cause_result (feed_answer (setting_with manager.old (H.Host.fixed host.now)) (state_with manager.old (H.Host.values host.now)) bytes.now place.old.at) }
    ensures after { state_with manager.new (H.Host.values host.now) ≡ state_after (setting_with manager.old (H.Host.fixed host.now)) (state_with manager.old (H.Host.values host.now)) (feed_calls (read place.old.at (drop place.old.at bytes.now))) }
    ensures tables { tables_of manager.new.inner ≡ tables_of manager.old.inner }
    ensures place { place.new.at ≡ fed_place (setting_with manager.old (H.Host.fixed host.now)) (state_with manager.old (H.Host.values host.now)) bytes.now place.old.at }
    ensures refused { is_ok result ≡ false → manager.new ≡ manager.old }
{
    let mut guard = PlaceGuard::new(place);
    let message = read_message(bytes, guard.place)?;
    let fed = ask(manager, host, message)?;
    guard.accept();
    Ok(fed)
}

// Makes the call that a message asks for.
fn ask<H: Host>(manager: &mut Manager, host: &H, message: Message) -> Result<Fed, ManagerFault>
    ensures answer { result ≡ asked_result (contents_of message) (perform (setting_with manager.old (H.Host.fixed host.now)) (state_with manager.old (H.Host.values host.now)) (asked (contents_of message))) }
    ensures after { state_with manager.new (H.Host.values host.now) ≡ left_by (state_with manager.old (H.Host.values host.now)) (perform (setting_with manager.old (H.Host.fixed host.now)) (state_with manager.old (H.Host.values host.now)) (asked (contents_of message))) }
    ensures tables { tables_of manager.new.inner ≡ tables_of manager.old.inner }
    ensures refused { is_ok result ≡ false → manager.new ≡ manager.old }
{
    match message {
        Message::Submission(task) => {
            let seat = manager.submit(host, task.name, task.kind, task.accesses())?;
            Ok(Fed::Submitted { seat })
        }
        Message::Finish(seat) => {
            let woken = manager.finish(seat)?;
            Ok(Fed::Finished { woken })
        }
    }
}
