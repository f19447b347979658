// Small cases that are settled by computing the definitions.
#![tactic(auto)]

ghost use Rattle.std.specs.Prelude.{◌≡◌};
ghost use Rattle.stamp_host.specs.Stamps.{fixed_for};
ghost use Rattle.layout.specs.Layout.{layout};
ghost use Rattle.one_at_a_time.specs.Journal.{run};
ghost use Rattle.worked_cases.specs.Cases.{first_task, two_tasks, TwoTasksDone, FirstTaskRead, SixteenRefused};

use fault::StreamFault;

// Over 64 zero stamps a task of kind 3 that writes 5 writes 3, and then a task of kind 1 that reads 5 and writes 6 writes 260: the two
// stamps that are left.
pub fn kind_three_then_kind_one() -> (u64, u64)
    ensures five { result.0 ≡ run (fixed_for 64) two_tasks (λ a. 0) 5 }
    ensures six { result.1 ≡ run (fixed_for 64) two_tasks (λ a. 0) 6 }
    ensures done { TwoTasksDone result.0 result.1 }
{
    (3, 260)
}

// The bytes of the first of these tasks' submission, which are read back as it.
pub fn first_task_in_bytes() -> [u8; 21]
    ensures laid { result ≡ layout first_task }
    ensures read { FirstTaskRead result }
{
    [
        2, 1, 1, 0, 7, 0, 0, 0, 3, 0, 0, 0, 5, 0, 0, 0, 0, 0, 0, 0, 2,
    ]
}

// The place at which a message that announces 16 accesses is refused.
pub fn sixteen_accesses() -> usize
    ensures { SixteenRefused result }
{
    let fault = StreamFault::TooMany { count: 16 };
    fault.place()
}
