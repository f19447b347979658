// Each refusal as a sentence that says what is wrong and what would be right.
use crate::{Cause, ManagerFault, StreamFault, TableFault};
use std::fmt;

impl fmt::Display for StreamFault {
    fn fmt<W: fmt::Write>(&self, f: &mut fmt::Formatter<W>) -> fmt::Result {
        match *self {
            StreamFault::NoByteLeft { place } => write!(
                f,
                "no byte is left at byte {place} of the stream"
            ),
            StreamFault::UnknownVersion { found } => write!(
                f,
                "version {found} is not known: messages have version 2"
            ),
            StreamFault::UnknownKind { found } => write!(
                f,
                "message kind {found} is not known: 1 is a submission, 2 a finish notice"
            ),
            StreamFault::BeyondEnd { byte } => write!(
                f,
                "the field at byte {byte} of the message reaches beyond the end of the stream"
            ),
            StreamFault::TooMany { count } => write!(
                f,
                "the message announces {count} accesses: a task has at most 15"
            ),
            StreamFault::UnknownDirection { byte, found } => write!(
                f,
                "direction {found} at byte {byte} of the message is not known: 1 is in, 2 out, 3 inout"
            ),
        }
    }
}

impl fmt::Display for TableFault {
    fn fmt<W: fmt::Write>(&self, f: &mut fmt::Formatter<W>) -> fmt::Result {
        match *self {
            TableFault::NeverFits => write!(
                f,
                "the task can never fit: there is no seat, or it has more accesses than there are versions, or over 8 addresses in one set"
            ),
            TableFault::NoFreeSeat => write!(
                f,
                "every seat is taken: try again after a task has finished"
            ),
            TableFault::TooFewVersions { missing } => write!(
                f,
                "too few versions are free, {missing} more are needed: try again after a task has finished"
            ),
            TableFault::SetFull { set } => write!(
                f,
                "set {set} of the address table has no room: try again after a task has finished"
            ),
        }
    }
}

impl fmt::Display for ManagerFault {
    fn fmt<W: fmt::Write>(&self, f: &mut fmt::Formatter<W>) -> fmt::Result {
        match *self {
            ManagerFault::TooManyAccesses => write!(f, "a task has at most 15 accesses"),
            ManagerFault::RepeatedAddress { access } => write!(
                f,
                "the address of access {access} occurs earlier in the task: name each address once"
            ),
            ManagerFault::NotHeld { access } => write!(
                f,
                "the host does not hold the address of access {access}"
            ),
            ManagerFault::Table(fault) => write!(f, "{fault}"),
            ManagerFault::NotRunning { seat } => write!(f, "seat {seat} is not running"),
            ManagerFault::NoStepLeft { seat } => write!(
                f,
                "the task in seat {seat} has no step left: finish it"
            ),
            ManagerFault::StepsLeft { seat } => write!(
                f,
                "the task in seat {seat} has steps left: do them first"
            ),
            ManagerFault::LineEmpty => write!(f, "nothing is in the line"),
            ManagerFault::LineFull => write!(f, "the line is full"),
        }
    }
}

impl fmt::Display for Cause {
    fn fmt<W: fmt::Write>(&self, f: &mut fmt::Formatter<W>) -> fmt::Result {
        match *self {
            Cause::Stream(fault) => write!(f, "{fault}"),
            Cause::Manager(fault) => write!(f, "{fault}"),
        }
    }
}
