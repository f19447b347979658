// What feed answers.
ghost use Rattle.std.specs.Prelude.{◌≡◌, Some};
ghost use Rattle.fault.specs.Numbers.{cause_number, cause_place};
ghost use Rattle.drive.specs.Text.{fed_text};

use fault::Cause;
use std::fmt;

// Which of the two a message asked for, with that call's answer: the seat of a submission, or how many tasks a finish made ready.
#[derive(Clone, Copy, PartialEq, Eq, Debug)]
pub enum Fed {
    Submitted { seat: u16 },
    Finished { woken: u16 },
}

// Why a message was not accepted, beside the place of its first byte in the stream.
#[derive(Clone, Copy, PartialEq, Eq, Debug)]
pub struct FeedFault {
    pub place: usize,
    pub cause: Cause,
}

impl fmt::Display for Fed {
    ghost output = { λ fed. Some (fed_text fed) };

    fn fmt<W: fmt::Write>(&self, f: &mut fmt::Formatter<W>) -> fmt::Result {
        match *self {
            Fed::Submitted { seat } => write!(f, "seat {seat}"),
            Fed::Finished { woken } => write!(f, "woke {woken}"),
        }
    }
}

impl FeedFault {
    // The refusal's number.
    pub fn number(&self) -> u8
        ensures { result ≡ cause_number self.now.cause }
    {
        self.cause.number()
    }

    // The place that the refusal names, as its cause names it.
    pub fn place(&self) -> usize
        ensures { result ≡ cause_place self.now.cause }
    {
        self.cause.place()
    }
}

impl fmt::Display for FeedFault {
    fn fmt<W: fmt::Write>(&self, f: &mut fmt::Formatter<W>) -> fmt::Result {
        let place = self.place;
        let cause = self.cause;
        write!(
            f,
            "the message at byte {place} of the stream is refused: {cause}"
        )
    }
}
