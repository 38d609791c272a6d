//! Addresses for look-ups, sums with signed numbers, and error texts.
use framehop_core::add_signed::{checked_add_signed, wrapping_add_signed};
use framehop_core::code_address::FrameAddress;
use framehop_core::error::Error;
use std::test::Fail;

/// The address, that for look-ups, and whether it is a return address.
fn told(address: FrameAddress) -> (u64, u64, bool) {
    (
        address.address(),
        address.address_for_lookup(),
        address.is_return_address(),
    )
}

#[test]
fn looks_up_inside_the_call(rt: HostRuntime) {
    let caller = match FrameAddress::from_return_address(0x1000) {
        Some(caller) => told(caller),
        None => (0, 0, false),
    };
    let first = told(FrameAddress::from_instruction_pointer(0));
    assert!(rt; (caller, first) == ((0x1000, 0xfff, true), (0, 0, false)));
    assert!(rt; FrameAddress::from_return_address(0).is_none());
}

/// Numbers, what their sum wraps to, and whether it fits.
const SUMS: [(u64, i64, u64, bool); 12] = [
    (1, 2, 3, true),
    (2, 1, 3, true),
    (5, -4, 1, true),
    (5, -5, 0, true),
    (u64::MAX - 5, 3, u64::MAX - 2, true),
    (u64::MAX - 5, 5, u64::MAX, true),
    (u64::MAX - 5, -5, u64::MAX - 10, true),
    (1, -2, u64::MAX, false),
    (2, -4, u64::MAX - 1, false),
    (u64::MAX, 1, 0, false),
    (u64::MAX - 5, 6, 0, false),
    (u64::MAX - 5, 9, 3, false),
];

#[test]
fn adds_and_subtracts(rt: HostRuntime) {
    for (lhs, rhs, sum, fits) in &SUMS {
        let checked = if *fits { Some(*sum) } else { None };
        assert!(rt; wrapping_add_signed(*lhs, *rhs) == *sum);
        assert!(rt; checked_add_signed(*lhs, *rhs) == checked);
    }
    let most = checked_add_signed(u32::MAX - 5, 5);
    assert!(rt; (wrapping_add_signed(1_u32, -2), most) == (u32::MAX, Some(u32::MAX)));
    assert!(rt; checked_add_signed(1_u32, -2).is_none());
}

const ERRORS: [(Error, &str); 7] = [
    (
        Error::CouldNotReadStack(0x1003fc0de),
        "Could not read stack memory at 0x1003fc0de",
    ),
    (
        Error::CouldNotReadStack(0),
        "Could not read stack memory at 0x0",
    ),
    (
        Error::FramepointerUnwindingMovedBackwards,
        "Frame pointer unwinding moved backwards",
    ),
    (
        Error::DidNotAdvance,
        "Neither the code address nor the stack pointer changed, would loop",
    ),
    (Error::IntegerOverflow, "Unwinding caused integer overflow"),
    (Error::ReturnAddressIsNull, "Return address is null"),
    (Error::OutOfMemory, "Out of memory"),
];

#[test]
fn prints_each_error(rt: HostRuntime) -> Result<(), Fail> {
    for (error, text) in &ERRORS {
        assert!(rt; error.to_string(rt.alloc())?.as_str() == *text);
    }
    Ok(())
}
