// What is answered, as lines.
use drive::{FeedFault, Ran, SentOut, Settled};
use fault::ManagerFault;
use std::fmt;
use std::fmt::Display;

// A refusal with its number and its place.
#[derive(Clone, Copy)]
pub struct Refusal<F> {
    number: u8,
    place: usize,
    fault: F,
}

// Kept: number and place are methods of each fault that callers use without an import, and only two of the five are shown here.
impl From<ManagerFault> for Refusal<ManagerFault> {
    fn from(fault: ManagerFault) -> Refusal<ManagerFault> {
        Refusal {
            number: fault.number(),
            place: fault.place(),
            fault,
        }
    }
}

impl From<FeedFault> for Refusal<FeedFault> {
    fn from(fault: FeedFault) -> Refusal<FeedFault> {
        Refusal {
            number: fault.number(),
            place: fault.place(),
            fault,
        }
    }
}

impl<F: Display> Display for Refusal<F> {
    fn fmt<W: fmt::Write>(&self, f: &mut fmt::Formatter<W>) -> fmt::Result {
        let number = self.number;
        let place = self.place;
        let fault = &self.fault;
        write!(f, "refused {number} at {place}: {fault}")
    }
}

// What comes of a call that is built of calls, or of a line, with how many are in the line then.
#[derive(Clone, Copy)]
pub enum Outcome {
    Turned(Ran),
    Dispatched { sent_out: SentOut, waiting: usize },
    Fetched { seat: u16 },
    Sent { seat: u16 },
    Settled { settled: Settled, waiting: usize },
}

impl Display for Outcome {
    fn fmt<W: fmt::Write>(&self, f: &mut fmt::Formatter<W>) -> fmt::Result {
        match *self {
            Outcome::Turned(Ran { seat, woken }) => write!(f, "ran seat {seat}, woke {woken}"),
            Outcome::Dispatched {
                sent_out: SentOut { seat, kind, name },
                waiting,
            } => write!(
                f,
                "sent out seat {seat} kind {kind} name {name}; {waiting} in the line"
            ),
            Outcome::Fetched { seat } => write!(f, "fetched seat {seat}"),
            Outcome::Sent { seat } => write!(f, "noticed seat {seat}"),
            Outcome::Settled { settled, waiting } => {
                let seat = settled.notice.seat;
                writeln!(f, "settled seat {seat}; {waiting} in the line")?;
                match settled.finished {
                    Ok(woken) => write!(f, "woke {woken}"),
                    Err(fault) => write_refusal(f, fault),
                }
            }
        }
    }
}

fn write_refusal<W: fmt::Write>(f: &mut fmt::Formatter<W>, fault: ManagerFault) -> fmt::Result {
    let refusal = Refusal::from(fault);
    write!(f, "{refusal}")
}

// Prints what is answered, or the refusal.
pub fn show<T: Display + Drop>(
    rt: &HostRuntime,
    answer: Result<T, ManagerFault>,
) -> anyhow::Result<()> {
    match answer {
        Ok(said) => rt.println(said)?,
        Err(fault) => rt.println(Refusal::from(fault))?,
    }
    Ok(())
}
