ghost use Rattle.std.specs.Prelude.{◌≡◌, min, length, IfOk, nat_lt};
ghost use Rattle.stamp_host.specs.Stamps.{max_stamps, count_of, fixed_of, values_of, fixed_for, values_from, all_zero};

use host::{Host, ReadBack};
use stamp_host::{MAX_STAMPS, StampHost, stamp_rule};
use std::alloc::{AllocError, Global};
use std::test::Fail;

// A host of the handed stamps, said in the words for stamps.
fn of_stamps(heap: Global, stamps: &[u64]) -> Result<StampHost, AllocError>
    ensures count { IfOk result (λ h. count_of h ≡ min (length stamps.now) max_stamps) }
    ensures fixed { IfOk result (λ h. fixed_of h ≡ fixed_for (length stamps.now)) }
    ensures values { IfOk result (λ h. values_of h ≡ values_from stamps.now) }
{
    StampHost::new(heap, stamps)
}

// A host of as many zeros as asked for, said in the words for stamps.
fn of_zeros(heap: Global, count: usize) -> Result<StampHost, AllocError>
    ensures count { IfOk result (λ h. count_of h ≡ min count max_stamps) }
    ensures fixed { IfOk result (λ h. fixed_of h ≡ fixed_for count) }
    ensures values { IfOk result (λ h. values_of h ≡ all_zero) }
{
    StampHost::zeros(heap, count)
}

// The addresses of stamps are those below their number.
fn holds_below(host: &StampHost, address: u64) -> bool
    ensures { result ≡ nat_lt address (count_of host.now) }
{
    host.holds(address)
}

#[test]
fn the_rule_rotates_combines_and_raises(rt: HostRuntime) {
    assert_eq!(rt; stamp_rule(3, 0, &[]), 3);
    assert_eq!(rt; stamp_rule(1, 1, &[3]), 260);
    assert_eq!(rt; stamp_rule(u32::MAX, 255, &[]), 4_294_967_550);
    assert_eq!(rt; stamp_rule(0, 0, &[u64::MAX]), 0);
    assert_eq!(rt; stamp_rule(12, 0, &[3, 0, 261]), 25_231_750);
}

#[test]
fn a_host_holds_an_address_for_each_stamp(rt: HostRuntime) -> Result<(), Fail> {
    let host = of_zeros(rt.alloc(), 64)?;
    assert!(rt; holds_below(&host, 63));
    assert!(rt; !holds_below(&host, 64));
    assert!(rt; !holds_below(&host, u64::MAX));
    assert_eq!(rt; host.value_at(63), Some(0));
    assert_eq!(rt; host.value_at(64), None);
    assert_eq!(rt; host.aside_at(255, 14), Some(0));
    assert_eq!(rt; host.aside_at(256, 0), None);
    assert_eq!(rt; host.aside_at(0, 15), None);
    Ok(())
}

#[test]
fn more_than_4096_stamps_are_not_used(rt: HostRuntime) -> Result<(), Fail> {
    let stamps = vec![in rt.alloc(); 9u64; MAX_STAMPS + 1]?;
    let host = of_stamps(rt.alloc(), stamps.as_slice())?;
    assert_eq!(rt; host.len(), 4096);
    assert_eq!(rt; host.value_at(4095), Some(9));
    assert_eq!(rt; host.value_at(4096), None);
    Ok(())
}

#[test]
fn bring_and_put_beyond_the_meaning_change_nothing(rt: HostRuntime) -> Result<(), Fail> {
    let mut host = of_stamps(rt.alloc(), &[5, 6])?;
    host.bring(2, 0, 0);
    host.bring(0, 256, 0);
    host.bring(0, 0, 15);
    host.put(1, 0, 16, 0, 0);
    host.put(1, 0, 0, 256, 0);
    host.put(1, 0, 0, 0, 2);
    assert_eq!(rt; host.value_at(0), Some(5));
    assert_eq!(rt; host.value_at(1), Some(6));
    assert_eq!(rt; host.aside_at(0, 0), Some(0));
    host.bring(1, 255, 14);
    assert_eq!(rt; host.aside_at(255, 14), Some(6));
    host.put(1, 0, 15, 255, 0);
    assert_ne!(rt; host.value_at(0), Some(5));
    Ok(())
}
