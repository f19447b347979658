// One case.
use crate::asked::{Request, number};
use crate::bench::Bench;
use crate::shown::show;
use anyhow::Context;
use cases::same_stamps;
use fault::ManagerFault;
use queue::{Line, Notice};
use runs::{Answer, Call, new_manager, run_calls};
use serial_run::StampsLeft;
use stamp_host::StampHost;
use std::str::SplitWhitespace;

// How large everything is that a case works on.
#[derive(Clone, Copy)]
struct Sizes {
    seats: usize,
    versions: usize,
    stamps: usize,
    // Slots of the work line and of the notice line.
    work: usize,
    notices: usize,
}

impl Sizes {
    // The next five words.
    fn read(words: &mut SplitWhitespace<'_>) -> anyhow::Result<Sizes> {
        Ok(Sizes {
            seats: number(words, "a number is missing")?,
            versions: number(words, "a number is missing")?,
            stamps: number(words, "a number is missing")?,
            work: number(words, "a number is missing")?,
            notices: number(words, "a number is missing")?,
        })
    }
}

// Does what a case asks for, word by word, and prints what is answered.
pub fn run_case(rt: &HostRuntime, words: &mut SplitWhitespace<'_>) -> anyhow::Result<()> {
    let heap = rt.alloc();
    let sizes = Sizes::read(words)?;
    let host = StampHost::zeros(heap, sizes.stamps)?;
    let manager = new_manager(heap, &host, sizes.seats, sizes.versions)?;
    let mut work_slots = vec![in heap; 0u16; sizes.work]?;
    let mut notice_slots = vec![in heap; Notice { seat: 0, worker: 0 }; sizes.notices]?;
    let mut bench = Bench {
        manager,
        host,
        work: Line::new(work_slots.as_mut_slice()),
        notices: Line::new(notice_slots.as_mut_slice()),
    };
    // The calls that were made, as long as nothing else is asked for, and the accesses of their submissions.
    let mut made = Some(Vec::new(heap));
    let mut list = Vec::new(heap);
    let mut answers = Vec::new(heap);
    while let Some(word) = words.next() {
        match Request::read(word, words, &mut list)? {
            Request::Call(call) => {
                let lent = call
                    .over(list.as_slice())
                    .context("the list has the accesses")?;
                let answer = bench.perform(&lent);
                show(rt, answer)?;
                match &mut made {
                    Some(calls) => {
                        calls.push(call)?;
                        answers.push(answer)?;
                    }
                    None => list.clear(),
                }
            }
            Request::Action(action) => {
                made = None;
                show(rt, bench.make(action))?;
            }
            Request::Feed(text) => {
                made = None;
                bench.feed_all(rt, text)?;
            }
        }
    }
    let stamps = StampsLeft { host: &bench.host };
    print!(rt; "{stamps}")?;
    if let Some(made) = &made {
        let calls: Vec<Call<'_>> = made
            .iter()
            .filter_map(|call| call.over(list.as_slice()))
            .collect(heap)?;
        run_again(rt, sizes, calls.as_slice(), answers.as_slice(), &bench.host)?;
    }
    Ok(())
}

// Makes the same calls by `run_calls` on a new manager, and says whether answers and stamps are the same.
fn run_again(
    rt: &HostRuntime,
    sizes: Sizes,
    calls: &[Call<'_>],
    answers: &[Result<Answer, ManagerFault>],
    host: &StampHost,
) -> anyhow::Result<()> {
    let heap = rt.alloc();
    let mut other = StampHost::zeros(heap, sizes.stamps)?;
    let run = run_calls(heap, &mut other, sizes.seats, sizes.versions, calls)?;
    let verdict = if run.answers.as_slice() == answers && same_stamps(&other, host) {
        "the same by run_calls"
    } else {
        "not the same by run_calls"
    };
    rt.println(verdict)?;
    Ok(())
}
