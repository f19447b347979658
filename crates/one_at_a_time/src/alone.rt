// One task, done from its first step to its last.
ghost use Rattle.std.specs.Prelude.{◌≡◌, ◌+◌, ◌<◌, ◌≤◌, ◌++◌, length, option_to_list, vec_len, vec_capacity, MatchResult};
ghost use Rattle.task.specs.Limits.{max_accesses};
ghost use Rattle.task.specs.Task.{accesses_of};
ghost use Rattle.host.specs.Meaning.{positions, row};
ghost use Rattle.one_at_a_time.specs.Alone.{values_read, values_written, AllHeld, brought_alone, put_alone};
ghost use Rattle.one_at_a_time.specs.Ran.{RanAlone, NotRun};

use crate::journal::{End, TaskRun};
use admission::check;
use host::{Host, ReadBack};
use std::alloc::Global;
use task::{MAX_ACCESSES, Task};

// The seat that every task runs on.
const SEAT: u16 = 0;

// Brings every reading access of the task to the seat's positions from 0 on, and notes each value.
// Kept: a struct of host and task would borrow the host, and each clause on the host would speak of it through that borrow.
// Kept: that what is fixed of a host stays is said at each function that changes one, since it is known of the trait's methods alone.
fn bring_all<H: ReadBack>(host: &mut H, task: &Task, read: &mut Vec<H::Value>)
    requires held { AllHeld (H.Host.fixed host.old) (accesses_of task.now) }
    requires empty { vec_len read.old ≡ 0 }
    requires room { max_accesses ≤ vec_capacity read.old }
    ensures read { read.new.items ≡ values_read (H.Host.values host.old).at (accesses_of task.now) }
    ensures most { vec_len read.new ≤ positions }
    ensures fixed { H.Host.fixed host.new ≡ H.Host.fixed host.old }
    ensures values { H.Host.values host.new ≡ brought_alone 0 (values_read (H.Host.values host.old).at (accesses_of task.now)) (H.Host.values host.old) }
{
    let accesses = task.accesses();
    for access in accesses {
        if access.reads() {
            let position = read.len() as u8;
            host.bring(access.address, SEAT, position);
            note(read, host.aside_at(SEAT, position));
        }
    }
}

// Puts every writing access of the task from the seat's first n positions, and notes each value.
fn put_all<H: ReadBack>(host: &mut H, task: &Task, n: u8, wrote: &mut Vec<H::Value>)
    requires most { n ≤ positions }
    requires held { AllHeld (H.Host.fixed host.old) (accesses_of task.now) }
    requires empty { vec_len wrote.old ≡ 0 }
    requires room { max_accesses ≤ vec_capacity wrote.old }
    ensures wrote { wrote.new.items ≡ values_written (H.Host.fixed host.old) task.now.kind (row 0 n ((H.Host.values host.old).aside 0)) (accesses_of task.now) }
    ensures fixed { H.Host.fixed host.new ≡ H.Host.fixed host.old }
    ensures values { H.Host.values host.new ≡ put_alone (H.Host.fixed host.old) task.now.kind (row 0 n ((H.Host.values host.old).aside 0)) (accesses_of task.now) (H.Host.values host.old) }
{
    let accesses = task.accesses();
    for (i, access) in accesses.iter().enumerate() {
        if access.writes() {
            host.put(task.kind, i as u8, n, SEAT, access.address);
            note(wrote, host.value_at(access.address));
        }
    }
}

// Notes a value, if there is one, behind values that have room for it.
fn note<V: Copy>(values: &mut Vec<V>, value: Option<V>)
    requires { vec_len values.old < vec_capacity values.old }
    ensures items { values.new.items ≡ values.old.items ++ option_to_list value }
    ensures len { vec_len values.new ≡ vec_len values.old + length (option_to_list value) }
    ensures room { vec_capacity values.new ≡ vec_capacity values.old }
{
    if let Some(value) = value {
        values.push_reserved(value);
    }
}

// Does the task alone, on seat 0, and answers what it read and wrote. A task that is refused, or for which there is no memory,
// changes nothing.
pub fn perform<H: ReadBack>(
    heap: Global,
    host: &mut H,
    task: Task,
) -> Result<TaskRun<H::Value>, End>
    ensures fixed { H.Host.fixed host.new ≡ H.Host.fixed host.old }
    ensures cases { MatchResult result (λ t. RanAlone (H.Host.fixed host.old) task t (H.Host.values host.old) (H.Host.values host.new)) (λ e. (host.new ≡ host.old) × NotRun (H.Host.fixed host.old) task e) }
{
    check(host, task.accesses())?;
    let mut read = Vec::with_capacity(heap, MAX_ACCESSES)?;
    let mut wrote = Vec::with_capacity(heap, MAX_ACCESSES)?;
    bring_all(host, &task, &mut read);
    put_all(host, &task, read.len() as u8, &mut wrote);
    Ok(TaskRun { task, read, wrote })
}
