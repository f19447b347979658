// The kinds of message.
ghost use Rattle.std.specs.Prelude.{◌≡◌};

use fault::StreamFault;

// What the second byte of a message says that it is.
#[derive(Clone, Copy, PartialEq, Eq, Debug)]
pub(crate) enum Kind {
    Submission,
    Finish,
}

impl TryFrom<u8> for Kind {
    ghost use Rattle.message.specs.Kinds.{kind_of};

    type Error = StreamFault;

    ghost try_from_gives = { λ code r. r ≡ kind_of code };

    fn try_from(code: u8) -> Result<Kind, StreamFault> {
        match code {
            1 => Ok(Kind::Submission),
            2 => Ok(Kind::Finish),
            found => Err(StreamFault::UnknownKind { found }),
        }
    }
}
