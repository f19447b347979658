// A program that reads a stream from standard input and prints what a job makes of it.
#![tactic(auto)]

use std::alloc::{AllocError, Global};
use std::env;
use std::fmt::Display;
use std::io::Read;

// What a program makes of the bytes of a stream.
pub trait Job {
    // What is printed of it.
    type Report: Display + Drop;

    // The report of these bytes.
    fn report(heap: Global, bytes: &[u8]) -> Result<Self::Report, AllocError>;
}

// Prints the help where there is an argument, and else what the job makes of at most so many bytes of standard input. The job is a
// closure, which may hold values, and has to be callable with any bytes.
pub fn serve<R: Display + Drop, F: FnOnce(&[u8]) -> Result<R, AllocError>>(
    rt: &HostRuntime,
    help: &str,
    most: u64,
    job: F,
) -> anyhow::Result<()>
    requires { F.IsAlwaysCallable job }
{
    if env::args(rt)?.count() > 1 {
        rt.println(help)?;
        return Ok(());
    }
    let mut bytes = Vec::new(rt.alloc());
    rt.stdin().take(most).read_to_end(&mut bytes)?;
    let report = job(bytes.as_slice())?;
    print!(rt; "{report}")?;
    Ok(())
}

// The same for a job that is a type and holds no value: nothing is asked.
// Kept: `serve` cannot be made of this, since a type holds no value; this made of `serve` would call a program's job through a closure.
pub fn serve_job<J: Job>(rt: &HostRuntime, help: &str, most: u64) -> anyhow::Result<()> {
    if env::args(rt)?.count() > 1 {
        rt.println(help)?;
        return Ok(());
    }
    let mut bytes = Vec::new(rt.alloc());
    rt.stdin().take(most).read_to_end(&mut bytes)?;
    let report = J::report(rt.alloc(), bytes.as_slice())?;
    print!(rt; "{report}")?;
    Ok(())
}
