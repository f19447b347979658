// Tasks and their accesses, and when they conflict.
#![tactic(auto)]

mod tasks;

ghost use Rattle.std.specs.Prelude.{◌≡◌};
ghost use Rattle.task.specs.Access.{reading, writing, reads, writes, conflicting};
ghost use Rattle.task.specs.Codes.{direction_of};

use std::error::Error;
use std::fmt;
pub use tasks::{MAX_ACCESSES, Task};

// What an access does with its address.
#[derive(Clone, Copy, PartialEq, Eq, Debug)]
pub enum Direction {
    In,
    Out,
    InOut,
}

impl Direction {
    // Whether it reads: in and inout do.
    pub fn reads(self) -> bool
        ensures { result ≡ reading self }
    {
        match self {
            Direction::In | Direction::InOut => true,
            Direction::Out => false,
        }
    }

    // Whether it writes: out and inout do.
    pub fn writes(self) -> bool
        ensures { result ≡ writing self }
    {
        match self {
            Direction::In => false,
            Direction::Out | Direction::InOut => true,
        }
    }
}

// A code that no direction has.
#[derive(Clone, Copy, PartialEq, Eq, Debug)]
pub struct UnknownDirection {
    pub found: u8,
}

impl fmt::Display for UnknownDirection {
    fn fmt<W: fmt::Write>(&self, f: &mut fmt::Formatter<W>) -> fmt::Result {
        let found = self.found;
        write!(f, "direction {found} is not known: 1 is in, 2 out, 3 inout")
    }
}

impl Error for UnknownDirection {}

// The direction that a byte stands for.
impl TryFrom<u8> for Direction {
    type Error = UnknownDirection;

    ghost try_from_gives = { λ code r. r ≡ direction_of code };

    fn try_from(code: u8) -> Result<Direction, UnknownDirection> {
        match code {
            1 => Ok(Direction::In),
            2 => Ok(Direction::Out),
            3 => Ok(Direction::InOut),
            found => Err(UnknownDirection { found }),
        }
    }
}

// An address that a task reads, writes, or both.
#[derive(Clone, Copy, PartialEq, Eq, Debug)]
pub struct Access {
    pub address: u64,
    pub direction: Direction,
}

impl Access {
    // Whether the access reads its address.
    pub fn reads(&self) -> bool
        ensures { result ≡ reads self.now }
    {
        self.direction.reads()
    }

    // Whether the access writes its address.
    pub fn writes(&self) -> bool
        ensures { result ≡ writes self.now }
    {
        self.direction.writes()
    }

    // Whether the two accesses conflict: equal addresses, and at least one writes.
    pub fn conflicts(&self, other: &Access) -> bool
        ensures { result ≡ conflicting self.now other.now }
    {
        self.address == other.address && (self.writes() || other.writes())
    }
}
