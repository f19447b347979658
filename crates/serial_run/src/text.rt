// A report as text: a line for each message, then how the run ended, then each stamp that is not zero.
use crate::{MAX_INPUT, Report};
use fault::{Cause, StreamFault};
use host::ReadBack;
use one_at_a_time::{End, Entry, TaskRun};
use stamp_host::StampHost;
use std::fmt;
use task::{Access, Task};

impl fmt::Display for Report {
    fn fmt<W: fmt::Write>(&self, f: &mut fmt::Formatter<W>) -> fmt::Result {
        for entry in self.journal.entries.iter() {
            write_entry(f, entry)?;
        }
        if self.cut {
            writeln!(
                f,
                "the input is longer than {MAX_INPUT} bytes: the rest was not read"
            )?;
        }
        write_end(f, self.journal.place, &self.journal.end)?;
        let stamps = StampsLeft { host: &self.host };
        write!(f, "{stamps}")
    }
}

// The line of a message that was done or passed over.
fn write_entry<W: fmt::Write>(f: &mut fmt::Formatter<W>, entry: &Entry<u64>) -> fmt::Result {
    match entry {
        Entry::Ran(run) => write_task(f, run),
        Entry::PassedOver(seat) => {
            writeln!(
                f,
                "notice for seat {seat}: passed over, since a task that runs alone is finished at once"
            )
        }
    }
}

// The line of a task: its name and kind, what it read and what it wrote, each as address=value.
fn write_task<W: fmt::Write>(f: &mut fmt::Formatter<W>, run: &TaskRun<u64>) -> fmt::Result {
    let name = run.task.name;
    let kind = run.task.kind;
    write!(f, "task {name} kind {kind}: read")?;
    write_values(f, &run.task, Access::reads, &run.read)?;
    write!(f, "; wrote")?;
    write_values(f, &run.task, Access::writes, &run.wrote)?;
    writeln!(f, "")
}

// The addresses of the accesses that pass the test, each with its value, or that there is none.
fn write_values<W: fmt::Write, F: Fn(&Access) -> bool>(
    f: &mut fmt::Formatter<W>,
    task: &Task,
    passes: F,
    values: &[u64],
) -> fmt::Result
    requires { F.IsAlwaysCallable passes }
{
    if values.is_empty() {
        return write!(f, " nothing");
    }
    let passing = task.accesses().iter().filter(|access| passes(access));
    for (access, value) in passing.zip(values) {
        let address = access.address;
        write!(f, " {address}={value}")?;
    }
    Ok(())
}

// How the run ended: at the end of the stream, at a message that is refused, or for want of memory.
fn write_end<W: fmt::Write>(f: &mut fmt::Formatter<W>, place: usize, end: &End) -> fmt::Result {
    match end {
        End::Refused(Cause::Stream(StreamFault::NoByteLeft { .. })) => writeln!(
            f,
            "end of the stream at byte {place}"
        ),
        End::Refused(cause) => {
            let number = cause.number();
            let at = cause.place();
            writeln!(
                f,
                "refused: number {number}, place {at}, in the message at byte {place}: {cause}"
            )
        }
        End::OutOfMemory => writeln!(
            f,
            "stopped at byte {place}: there is no memory to go on with"
        ),
    }
}

// The stamps of a host that are not zero, a line each.
// Kept: a host answers its values by address alone, so the chain begins with the addresses.
#[derive(Clone, Copy)]
pub struct StampsLeft<'a> {
    pub host: &'a StampHost,
}

impl fmt::Display for StampsLeft<'_> {
    fn fmt<W: fmt::Write>(&self, f: &mut fmt::Formatter<W>) -> fmt::Result {
        let stamps = (0..self.host.len() as u64)
            .filter_map(|address| self.host.value_at(address).map(|value| (address, value)))
            .filter(|(_, value)| *value != 0);
        for (address, value) in stamps {
            writeln!(f, "stamp {address} = {value}")?;
        }
        Ok(())
    }
}
