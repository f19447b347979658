// A manager with all that a case hands to it.
use crate::asked::Action;
use crate::shown::{Outcome, Refusal};
use cases::from_hex;
use drive::{dispatch, feed, settle, turn};
use fault::ManagerFault;
use manager::Manager;
use message::Reader;
use queue::{Line, Notice};
use runs::{Answer, Call, perform};
use stamp_host::StampHost;

// The manager, the host of its values, and the two lines.
#[derive(Drop)]
pub struct Bench<'a> {
    pub manager: Manager,
    pub host: StampHost,
    pub work: Line<'a, u16>,
    pub notices: Line<'a, Notice>,
}

impl Bench<'_> {
    // Makes one of the four calls.
    pub fn perform(&mut self, call: &Call<'_>) -> Result<Answer, ManagerFault> {
        perform(&mut self.manager, &mut self.host, call)
    }

    // Makes a call that is built of calls, or puts into a line or takes out of it.
    pub fn make(&mut self, action: Action) -> Result<Outcome, ManagerFault> {
        match action {
            Action::Turn => turn(&mut self.manager, &mut self.host).map(Outcome::Turned),
            Action::Dispatch => self.dispatch(),
            Action::Fetch => self.work.pop().map(|seat| Outcome::Fetched { seat }),
            Action::Send { seat } => self.send(seat),
            Action::Settle => self.settle(),
        }
    }

    fn dispatch(&mut self) -> Result<Outcome, ManagerFault> {
        let sent_out = dispatch(&mut self.manager, &mut self.work)?;
        let waiting = self.work.len();
        Ok(Outcome::Dispatched { sent_out, waiting })
    }

    fn send(&mut self, seat: u16) -> Result<Outcome, ManagerFault> {
        self.notices.push(Notice { seat, worker: 1 })?;
        Ok(Outcome::Sent { seat })
    }

    fn settle(&mut self) -> Result<Outcome, ManagerFault> {
        let settled = settle(&mut self.manager, &mut self.notices)?;
        let waiting = self.notices.len();
        Ok(Outcome::Settled { settled, waiting })
    }

    // Feeds the messages of the bytes until one is refused, and prints what each answers.
    pub fn feed_all(&mut self, rt: &HostRuntime, text: &str) -> anyhow::Result<()> {
        let bytes = from_hex(rt.alloc(), text)?;
        let mut reader = Reader::new(bytes.as_slice());
        // A message has a byte at least, and none is accepted behind the last byte: one of so many is refused.
        for _ in 0..bytes.len() + 1 {
            let fed = feed(&mut self.manager, &self.host, &mut reader);
            let at = reader.place.at;
            match fed {
                Ok(fed) => println!(rt; "fed: {fed}; now at {at}")?,
                Err(fault) => {
                    let refusal = Refusal::from(fault);
                    println!(rt; "{refusal}; still at {at}")?;
                    break;
                }
            }
        }
        Ok(())
    }
}
