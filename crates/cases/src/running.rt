// The cases of standard input, one after the other.
use crate::StreamCase;

// What a program does with the bytes of a case.
pub trait CaseJob {
    // Does it, and prints what comes of it.
    fn run(rt: &HostRuntime, bytes: &[u8]) -> anyhow::Result<()>;
}

// Reads a case from each line of standard input, prints its label, and does the job on its bytes. The job is a closure, which may hold
// values, and has to be callable with any bytes.
pub fn run_cases<F: Fn(&[u8]) -> anyhow::Result<()>>(rt: &HostRuntime, job: F) -> anyhow::Result<()>
    requires { F.IsAlwaysCallable job }
{
    for line in rt.lines(rt.alloc()) {
        let line = line?;
        let case = StreamCase::try_from(line.as_str())?;
        let label = case.label;
        println!(rt; "== {label}")?;
        let bytes = case.bytes(rt.alloc())?;
        job(bytes.as_slice())?;
    }
    Ok(())
}

// The same for a job that is a type and holds no value: nothing is asked.
// Kept: `run_cases` cannot be made of this, since a type holds no value; this made of `run_cases` would call a program's job
// through a closure.
pub fn run_job_on_cases<J: CaseJob>(rt: &HostRuntime) -> anyhow::Result<()> {
    for line in rt.lines(rt.alloc()) {
        let line = line?;
        let case = StreamCase::try_from(line.as_str())?;
        let label = case.label;
        println!(rt; "== {label}")?;
        let bytes = case.bytes(rt.alloc())?;
        J::run(rt, bytes.as_slice())?;
    }
    Ok(())
}
