// The words of a case, as what they ask for.
ghost use Rattle.std.specs.Prelude.{◌≤◌, length};
ghost use Rattle.std.specs.Str.Iter.{split_whitespace_rest};

use anyhow::{Context, anyhow};
use runs::Call;
use std::str::{FromStr, SplitWhitespace};
use task::{Access, Direction};

// What a word of a case asks for, with the words behind it.
#[derive(Clone, Copy)]
pub enum Request<'a> {
    Call(ListedCall),
    Action(Action),
    // Feed the messages of these bytes, in hexadecimal, until one is refused.
    Feed(&'a str),
}

// One of the four calls of the manager. The accesses of a submission are those of the case's list from one place up to before another.
// Kept: a Call borrows its accesses, and those of a case stay for the second run. A Vec for each submission was tried: of a case of
// 200,000 submissions of one access it took the program to one and a half times the memory.
#[derive(Clone, Copy)]
pub enum ListedCall {
    Submit {
        name: u32,
        kind: u32,
        from: usize,
        to: usize,
    },
    Take,
    Step {
        seat: u16,
    },
    Finish {
        seat: u16,
    },
}

// A call that is built of calls, or one of a line.
#[derive(Clone, Copy)]
pub enum Action {
    Turn,
    Dispatch,
    // Take the first seat out of the work line.
    Fetch,
    // Put a notice for this seat into the notice line.
    Send { seat: u16 },
    Settle,
}

impl<'a> Request<'a> {
    // The request that begins with the word. The accesses of a submission join the list.
    // Kept: no value holds that the words only become fewer, and a struct around them would say it of each of its methods.
    pub fn read(
        word: &str,
        words: &mut SplitWhitespace<'a>,
        list: &mut Vec<Access>,
    ) -> anyhow::Result<Request<'a>>
        ensures { length (split_whitespace_rest words.new) ≤ length (split_whitespace_rest words.old) }
    {
        match word {
            "submit" => {
                let name = number(words, "a name or a kind is missing")?;
                let kind = number(words, "a name or a kind is missing")?;
                let from = list.len();
                read_accesses(words, list)?;
                let to = list.len();
                Ok(Request::Call(ListedCall::Submit {
                    name,
                    kind,
                    from,
                    to,
                }))
            }
            "take" => Ok(Request::Call(ListedCall::Take)),
            "step" => {
                let seat = number(words, "a seat is missing")?;
                Ok(Request::Call(ListedCall::Step { seat }))
            }
            "finish" => {
                let seat = number(words, "a seat is missing")?;
                Ok(Request::Call(ListedCall::Finish { seat }))
            }
            "turn" => Ok(Request::Action(Action::Turn)),
            "dispatch" => Ok(Request::Action(Action::Dispatch)),
            "fetch" => Ok(Request::Action(Action::Fetch)),
            "send" => {
                let seat = number(words, "a seat is missing")?;
                Ok(Request::Action(Action::Send { seat }))
            }
            "settle" => Ok(Request::Action(Action::Settle)),
            "feed" => Ok(Request::Feed(words.next().context("bytes are missing")?)),
            _ => Err(anyhow!("a word is not known")),
        }
    }
}

impl ListedCall {
    // The call, with its accesses lent from the list, where the list has them.
    pub fn over(self, list: &[Access]) -> Option<Call<'_>> {
        match self {
            ListedCall::Submit {
                name,
                kind,
                from,
                to,
            } => list.get(from..to).map(|accesses| Call::Submit {
                name,
                kind,
                accesses,
            }),
            ListedCall::Take => Some(Call::Take),
            ListedCall::Step { seat } => Some(Call::Step { seat }),
            ListedCall::Finish { seat } => Some(Call::Finish { seat }),
        }
    }
}

// The next word, as a number.
pub fn number<T: FromStr>(words: &mut SplitWhitespace<'_>, missing: &str) -> anyhow::Result<T>
where
    T::Err: std::error::Error,
    ensures { length (split_whitespace_rest words.new) ≤ length (split_whitespace_rest words.old) }
{
    let word = words.next().context(missing)?;
    Ok(word.parse::<T>()?)
}

// The accesses of a submission, up to the full stop behind them, join the list.
fn read_accesses(words: &mut SplitWhitespace<'_>, list: &mut Vec<Access>) -> anyhow::Result<()>
    ensures { length (split_whitespace_rest words.new) ≤ length (split_whitespace_rest words.old) }
{
    while let Some(word) = words.next() {
        // Kept: these words are those of the cases alone, and `Direction` and `FromStr` are both of other crates.
        let direction = match word {
            "in" => Direction::In,
            "out" => Direction::Out,
            "inout" => Direction::InOut,
            _ => return Ok(()),
        };
        let address = number(words, "an address is missing")?;
        list.push(Access { address, direction })?;
    }
    Err(anyhow!("a submission ends with a full stop"))
}
