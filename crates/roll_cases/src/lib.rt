// Small runs of the calls, settled by computing the definitions. Each function answers the number that the case is about.
#![tactic(auto)]

ghost use Rattle.roll_cases.specs.Cases.{FifteenAndSixteen, ReadersWake, ThirdWaits, LastHeld, TwiceRefused, NineNeverFit, NinthStalls, ThirdWriterStalls, VersionStays, OneVersion, EmptyTables, BringThenPut, StampsLeft, HeldAside, SeatAgain, Rehearsed};

// 15 accesses are accepted, on seat 0, and 16 are refused by 5.
pub fn fifteen_and_sixteen_accesses() -> (u16, u8)
    ensures { FifteenAndSixteen result.0 result.1 }
{
    (0, 5)
}

// Out 5, in 5, in 5, inout 5: finishing the first wakes both readers, and the fourth waits for both.
pub fn readers_wake_together() -> u16
    ensures { ReadersWake result }
{
    let woken = 2;
    woken
}

// In, out, in: the reader does not pass the waiting writer; the seat that is woken first is the writer's.
pub fn no_reader_passes_a_waiting_writer() -> u16
    ensures { ThirdWaits result }
{
    let writer = 1;
    writer
}

// With 64 stamps the last address that is held.
pub fn last_held_address() -> u64
    ensures { LastHeld result }
{
    let address = 63;
    address
}

// In 5, then out 5 in one task is refused at the second access.
pub fn address_twice() -> u8
    ensures { TwiceRefused result }
{
    let access = 1;
    access
}

// With 1,024 stamps eight addresses of one set pass, and nine are refused by 9.
pub fn nine_addresses_of_a_set() -> u8
    ensures { NineNeverFit result }
{
    let number = 9;
    number
}

// With eight addresses of a set live, a task on a ninth stalls at this set, and a task on one of the eight passes.
pub fn ninth_live_address() -> u8
    ensures { NinthStalls result }
{
    let set = 0;
    set
}

// Three seats and two versions: the third writer misses one version, and passes after a finish.
pub fn third_writer() -> u16
    ensures { ThirdWriterStalls result }
{
    let missing = 1;
    missing
}

// A version is in use while a reader of what was written remains, also when its writer has ended: another writer misses one.
pub fn version_of_a_reader() -> u16
    ensures { VersionStays result }
{
    let still_missing = 1;
    still_missing
}

// Without a seat no task fits, and without a version only a task without accesses does.
pub fn tables_without_seats_or_versions() -> u16
    ensures { EmptyTables result }
{
    let first_seat = 0;
    first_seat
}

// One version is enough for inout 5.
pub fn one_version() -> u16
    ensures { OneVersion result }
{
    let seat = 0;
    seat
}

// Inout 5 is a bring and a put; then a step is refused by 14, and a finish after the bring is refused.
pub fn bring_then_put() -> u8
    ensures { BringThenPut result }
{
    let number_of_no_step_left = 14;
    number_of_no_step_left
}

// Kind 3, out 5 leaves 3; then kind 1 with in 5, out 6 leaves 260.
pub fn kind_three_then_kind_one() -> (u64, u64)
    ensures { StampsLeft result.0 result.1 }
{
    (3, 260)
}

// Kind 1 with inout 3, inout 4 leaves what the values held aside give, although the first put has changed address 3 by then.
pub fn puts_from_values_held_aside() -> (u64, u64)
    ensures { HeldAside result.0 result.1 }
{
    (16513, 32897)
}

// Two seats: the seat that was given up is given again, behind the other.
pub fn seat_given_up() -> (u16, u16)
    ensures { SeatAgain result.0 result.1 }
{
    (1, 0)
}

// Of three submissions, out 5, in 5 and one without access, the third runs before the second.
pub fn three_submissions() -> [u16; 3]
    ensures { Rehearsed result }
{
    [0, 2, 1]
}
