// One round after another: a message is fed, or a turn is made where it stalls; and at the end of the stream the turns that are left.
ghost use Rattle.std.specs.Prelude.{◌≡◌, ◌++◌, IfOk, OnOk};
ghost use Rattle.fault.specs.Numbers.{cause_number};
ghost use Rattle.roll.specs.Built.{state_after, turn_calls, turn_answer};
ghost use Rattle.rehearse_run.specs.Rounds.{rounds, lines_of, fed_lines, Turned, Answered, Goes, Went, Drained};
ghost use Rattle.rehearse_run.specs.Session.{setting_at, state_at, lines_at};

use crate::MAX_INPUT;
use crate::line::Line;
use drive::{Fed, feed, turn};
use fault::{Cause, ManagerFault, StreamFault, TableFault};
use manager::Manager;
use message::Reader;
use stamp_host::StampHost;
use std::alloc::AllocError;

// How many rounds there are at most: more than any stream of so many bytes takes.
const ROUNDS: usize = 2 * MAX_INPUT + 512;

// What follows a round: another, the turns at the end of the stream, or nothing.
// Kept: ControlFlow has two cases, and a Break that holds which of the two ends it is would be a second enum inside it.
#[derive(Clone, Copy, PartialEq, Eq, Debug)]
enum Next {
    On,
    Drain,
    Stop,
}

// A rehearsal under way: the manager, the stamps that it works on, and the lines so far.
#[derive(Drop)]
pub(crate) struct Session {
    pub(crate) manager: Manager,
    pub(crate) host: StampHost,
    pub(crate) lines: Vec<Line>,
}

// Notes a submission that is accepted; of a finish there is no line.
fn note_fed(lines: &mut Vec<Line>, fed: Fed) -> Result<(), AllocError>
    ensures { OnOk result (lines_of lines.new.items ≡ lines_of lines.old.items ++ fed_lines fed) }
{
    if let Fed::Submitted { seat } = fed {
        lines.push(Line::Sub { seat })?;
    }
    Ok(())
}

impl Session {
    // Makes one turn and notes its line: the seat of the task that has run, or the end where no task is ready.
    // Kept: that the setting stays is said of each method by one word; no value holds a relation of old and new.
    fn take_turn(&mut self) -> Result<Next, AllocError>
        ensures turned { IfOk result (λ next. Turned (turn_answer (setting_at self.old) (state_at self.old)) (lines_at self.old) next (lines_at self.new)) }
        ensures after { state_at self.new ≡ state_after (setting_at self.old) (state_at self.old) (turn_calls (setting_at self.old) (state_at self.old)) }
        ensures setting { setting_at self.new ≡ setting_at self.old }
    {
        match turn(&mut self.manager, &mut self.host) {
            Ok(ran) => {
                self.lines.push(Line::Ran { seat: ran.seat })?;
                Ok(Next::On)
            }
            Err(_) => {
                self.lines.push(Line::End)?;
                Ok(Next::Stop)
            }
        }
    }

    // What a refusal makes: at the end of the stream nothing, at a stall one turn, and else its line.
    fn refused(&mut self, cause: Cause) -> Result<Next, AllocError>
        ensures answered { IfOk result (λ next. Answered (setting_at self.old) (cause_number cause) (state_at self.old) (lines_at self.old) next (state_at self.new) (lines_at self.new)) }
        ensures setting { setting_at self.new ≡ setting_at self.old }
    {
        match cause {
            Cause::Stream(StreamFault::NoByteLeft { .. }) => Ok(Next::Drain),
            Cause::Manager(
                ManagerFault::Table(
                    TableFault::NoFreeSeat
                    | TableFault::TooFewVersions { .. }
                    | TableFault::SetFull { .. },
                ),
            ) => self.take_turn(),
            _ => {
                let number = cause.number();
                self.lines.push(Line::No { number })?;
                Ok(Next::Stop)
            }
        }
    }

    // One round: feeds the message at the reader's place, and notes what comes of it.
    fn advance(&mut self, reader: &mut Reader<'_>) -> Result<Next, AllocError>
        ensures goes { IfOk result (λ next. Goes (setting_at self.old) reader.old.bytes.now reader.old.place.at (state_at self.old) (lines_at self.old) next reader.new.place.at (state_at self.new) (lines_at self.new)) }
        ensures bytes { reader.new.bytes.now ≡ reader.old.bytes.now }
        ensures setting { setting_at self.new ≡ setting_at self.old }
    {
        match feed(&mut self.manager, &self.host, reader) {
            Ok(fed) => {
                note_fed(&mut self.lines, fed)?;
                Ok(Next::On)
            }
            Err(fault) => self.refused(fault.cause),
        }
    }

    // Turns at most so many times, until no task is ready.
    fn drain(&mut self, most: usize) -> Result<(), AllocError>
        ensures drained { OnOk result (Drained (setting_at self.old) most (state_at self.old) (lines_at self.old) (state_at self.new) (lines_at self.new)) }
        ensures setting { setting_at self.new ≡ setting_at self.old }
    {
        for _ in 0..most {
            match self.take_turn()? {
                Next::On => {}
                _ => return Ok(()),
            }
        }
        Ok(())
    }

    // One round after another, until the stream ends and no task is ready, or a message is refused.
    pub(crate) fn feed_all(&mut self, reader: &mut Reader<'_>) -> Result<(), AllocError>
        ensures went { OnOk result (Went (setting_at self.old) reader.old.bytes.now rounds reader.old.place.at (state_at self.old) (lines_at self.old) (state_at self.new) (lines_at self.new)) }
        ensures setting { setting_at self.new ≡ setting_at self.old }
    {
        for round in 0..ROUNDS {
            match self.advance(reader)? {
                Next::On => {}
                Next::Drain => return self.drain(ROUNDS - round),
                Next::Stop => return Ok(()),
            }
        }
        Ok(())
    }
}
