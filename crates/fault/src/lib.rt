// What is refused, by layer: a fault of the message stream, of the tables, of the manager, and the cause for which a message is refused.
// Each has a number and a place, and reads as a sentence.
#![tactic(auto)]

mod sentences;

ghost use Rattle.std.specs.Prelude.{◌≡◌};
ghost use Rattle.fault.specs.Numbers.{stream_number, stream_place, table_number, table_place, manager_number, manager_place, cause_number, cause_place};
ghost use Rattle.fault.specs.declared.ManagerFault.TheVariants.{Table};
ghost use Rattle.fault.specs.declared.Cause.TheVariants.{Stream, Manager};

// Why the next bytes of a stream are not a message.
#[derive(Clone, Copy, PartialEq, Eq, Debug)]
pub enum StreamFault {
    // 1: the reader stands at the end, at this place.
    NoByteLeft { place: usize },
    // 2: the version is this one.
    UnknownVersion { found: u8 },
    // 3: the message kind is this one.
    UnknownKind { found: u8 },
    // 4: the field that begins at this byte of the message reaches beyond the end.
    BeyondEnd { byte: usize },
    // 5: the message announces this many accesses.
    TooMany { count: u16 },
    // 6: the direction at this byte of the message has this code.
    UnknownDirection { byte: usize, found: u8 },
}

// Why the tables cannot take a task.
#[derive(Clone, Copy, PartialEq, Eq, Debug)]
pub enum TableFault {
    // 9: the task fits into no such tables, even empty ones.
    NeverFits,
    // 10: every seat is taken.
    NoFreeSeat,
    // 11: this many versions are missing.
    TooFewVersions { missing: u16 },
    // 12: this set of the address table has no room for the task's new addresses.
    SetFull { set: u8 },
}

// Why the manager does not do what it is asked.
#[derive(Clone, Copy, PartialEq, Eq, Debug)]
pub enum ManagerFault {
    // 5: a task of more accesses than a task may have.
    TooManyAccesses,
    // 7: the address of this access occurs earlier in the task.
    RepeatedAddress { access: u8 },
    // 8: the host does not hold the address of this access.
    NotHeld { access: u8 },
    // 9 to 12: the tables refuse.
    Table(TableFault),
    // 13: the seat is not running.
    NotRunning { seat: u16 },
    // 14: the seat has no step left.
    NoStepLeft { seat: u16 },
    // 15: the seat has steps left.
    StepsLeft { seat: u16 },
    // 16: nothing is in the line.
    LineEmpty,
    // 17: the line is full.
    LineFull,
}

// For which of two reasons a message is refused: its bytes, or what it asks for.
#[derive(Clone, Copy, PartialEq, Eq, Debug)]
pub enum Cause {
    Stream(StreamFault),
    Manager(ManagerFault),
}

impl From<TableFault> for ManagerFault {
    ghost from_gives = { λ f m. m ≡ Table f };

    fn from(f: TableFault) -> ManagerFault {
        ManagerFault::Table(f)
    }
}

impl From<StreamFault> for Cause {
    ghost from_gives = { λ f c. c ≡ Stream f };

    fn from(f: StreamFault) -> Cause {
        Cause::Stream(f)
    }
}

impl From<ManagerFault> for Cause {
    ghost from_gives = { λ f c. c ≡ Manager f };

    fn from(f: ManagerFault) -> Cause {
        Cause::Manager(f)
    }
}

impl StreamFault {
    // The refusal's number.
    pub fn number(&self) -> u8
        ensures { result ≡ stream_number self.now }
    {
        match self {
            StreamFault::NoByteLeft { .. } => 1,
            StreamFault::UnknownVersion { .. } => 2,
            StreamFault::UnknownKind { .. } => 3,
            StreamFault::BeyondEnd { .. } => 4,
            StreamFault::TooMany { .. } => 5,
            StreamFault::UnknownDirection { .. } => 6,
        }
    }

    // The place that the refusal names: the reader's place, or a byte number counted from the message's first byte.
    pub fn place(&self) -> usize
        ensures { result ≡ stream_place self.now }
    {
        match *self {
            StreamFault::NoByteLeft { place } => place,
            StreamFault::UnknownVersion { .. } => 0,
            StreamFault::UnknownKind { .. } => 1,
            StreamFault::BeyondEnd { byte } => byte,
            StreamFault::TooMany { .. } => 2,
            StreamFault::UnknownDirection { byte, .. } => byte,
        }
    }
}

impl TableFault {
    // The refusal's number.
    pub fn number(&self) -> u8
        ensures { result ≡ table_number self.now }
    {
        match self {
            TableFault::NeverFits => 9,
            TableFault::NoFreeSeat => 10,
            TableFault::TooFewVersions { .. } => 11,
            TableFault::SetFull { .. } => 12,
        }
    }

    // The place that the refusal names: how many versions are missing, or the set, or 0.
    pub fn place(&self) -> usize
        ensures { result ≡ table_place self.now }
    {
        match *self {
            TableFault::NeverFits | TableFault::NoFreeSeat => 0,
            TableFault::TooFewVersions { missing } => usize::from(missing),
            TableFault::SetFull { set } => usize::from(set),
        }
    }
}

impl ManagerFault {
    // The refusal's number.
    pub fn number(&self) -> u8
        ensures { result ≡ manager_number self.now }
    {
        match self {
            ManagerFault::TooManyAccesses => 5,
            ManagerFault::RepeatedAddress { .. } => 7,
            ManagerFault::NotHeld { .. } => 8,
            ManagerFault::Table(fault) => fault.number(),
            ManagerFault::NotRunning { .. } => 13,
            ManagerFault::NoStepLeft { .. } => 14,
            ManagerFault::StepsLeft { .. } => 15,
            ManagerFault::LineEmpty => 16,
            ManagerFault::LineFull => 17,
        }
    }

    // The place that the refusal names: an access number, a seat, a table fault's place, or 0.
    pub fn place(&self) -> usize
        ensures { result ≡ manager_place self.now }
    {
        match *self {
            ManagerFault::TooManyAccesses | ManagerFault::LineEmpty | ManagerFault::LineFull => 0,
            ManagerFault::RepeatedAddress { access } | ManagerFault::NotHeld { access } =>
                usize::from(access),
            ManagerFault::Table(fault) => fault.place(),
            ManagerFault::NotRunning { seat }
            | ManagerFault::NoStepLeft { seat }
            | ManagerFault::StepsLeft { seat } => usize::from(seat),
        }
    }
}

impl Cause {
    // The refusal's number.
    pub fn number(&self) -> u8
        ensures { result ≡ cause_number self.now }
    {
        match self {
            Cause::Stream(fault) => fault.number(),
            Cause::Manager(fault) => fault.number(),
        }
    }

    // The place that the refusal names, as the fault that it holds names it.
    pub fn place(&self) -> usize
        ensures { result ≡ cause_place self.now }
    {
        match self {
            Cause::Stream(fault) => fault.place(),
            Cause::Manager(fault) => fault.place(),
        }
    }
}
