// That the bytes of a case are made where there is memory, and what is passed over in them.
use crate::{StreamCase, from_hex, same_stamps};
use stamp_host::StampHost;
use std::test::Fail;

#[test]
fn hexadecimal_is_read(rt: HostRuntime) -> Result<(), Fail> {
    let bytes = from_hex(rt.alloc(), "02 0A-fF7")?;
    assert_eq!(rt; bytes.as_slice(), [2, 10, 255].as_slice());
    let none = from_hex(rt.alloc(), "-")?;
    assert!(rt; none.is_empty());
    Ok(())
}

#[test]
fn bytes_are_repeated(rt: HostRuntime) -> Result<(), Fail> {
    let case = StreamCase::try_from("  three 3 0102 more")?;
    assert_eq!(rt; case.label, "three");
    let bytes = case.bytes(rt.alloc())?;
    assert_eq!(rt; bytes.as_slice(), [1, 2, 1, 2, 1, 2].as_slice());
    Ok(())
}

#[test]
fn stamps_are_compared(rt: HostRuntime) -> Result<(), Fail> {
    let one = StampHost::new(rt.alloc(), &[1, 2])?;
    let other = StampHost::new(rt.alloc(), &[1, 3])?;
    assert!(rt; same_stamps(&one, &one));
    assert!(rt; !same_stamps(&one, &other));
    Ok(())
}
