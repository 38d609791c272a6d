//! Rows of aarch64, by hand.
use crate::columns::frames::{Known, NoCaller, Section, caller_of, has_columns};
use framehop_callers::caller::{Caller, RowRefusal};
use framehop_callers::convention::Convention;
use framehop_cfi::storage::StoreOnStack;
use std::alloc::{AllocError, Global};
use std::test::Fail;

/// An FDE for 0x1000 to 0x1020: the CFA is sp. After 4 bytes it is sp + 16, x30 is at the CFA - 8 and x19 at the CFA - 16.
const FRAMES: Section = Section {
    bytes: &[
        0x10, 0x00, 0x00, 0x00, 0x00, 0x00, 0x00, 0x00, 0x01, 0x7a, 0x52, 0x00, 0x01, 0x78, 0x1e,
        0x01, 0x1b, 0x0c, 0x1f, 0x00, 0x18, 0x00, 0x00, 0x00, 0x18, 0x00, 0x00, 0x00, 0xe4, 0xef,
        0xff, 0xff, 0x20, 0x00, 0x00, 0x00, 0x00, 0x44, 0x0e, 0x10, 0x9e, 0x01, 0x93, 0x02, 0x00,
        0x00, 0x00, 0x00,
    ],
    svma: 0x2000,
    fde: 20,
};

/// The memory at 0x100.
const WORDS: [u64; 2] = [0x1919, 0x3030];

/// The columns 0 to 32: x0 to x30, sp and pc.
const REGISTERS: [u64; 33] = [
    0xa00, 0xa01, 0xa02, 0xa03, 0xa04, 0xa05, 0xa06, 0xa07, 0xa08, 0xa09, 0xa10, 0xa11, 0xa12,
    0xa13, 0xa14, 0xa15, 0xa16, 0xa17, 0xa18, 0xa19, 0xa20, 0xa21, 0xa22, 0xa23, 0xa24, 0xa25,
    0xa26, 0xa27, 0xa28, 0xa29, 0xa30, 0x100, 0x1004,
];

/// The caller of a frame with those registers, of which one is changed.
fn found_at(
    alloc: Global,
    address: u32,
    changed: (u16, u64),
) -> Result<Result<Caller, NoCaller>, AllocError> {
    let known = Known {
        registers: &REGISTERS,
        changed: &[(changed.0, Some(changed.1))],
        start: 0x100,
        words: &WORDS,
        size: 16,
    };
    caller_of::<StoreOnStack>(alloc, Convention::Aarch64, &FRAMES, address, &known)
}

/// Whether there is a caller with this CFA, return address and x19: x18 is not kept, and x20 to x29 are.
fn is_found(found: Result<Caller, NoCaller>, cfa: u64, x19: u64, lr: u64) -> bool {
    let Ok(caller) = found else {
        return false;
    };
    let kept = [
        (0, None),
        (18, None),
        (19, Some(x19)),
        (20, Some(0xa20)),
        (29, Some(0xa29)),
        (30, Some(lr)),
        (31, Some(cfa)),
        (32, Some(lr)),
    ];
    (caller.cfa, caller.return_address) == (cfa, lr) && has_columns(&caller, &kept)
}

#[test]
fn finds_callers(rt: HostRuntime) -> Result<(), Fail> {
    // an address, the CFA, x19, and the return address
    for (address, cfa, x19, lr) in [
        (0x1000, 0x100, 0xa19, 0xa30),
        (0x1004, 0x110, 0x1919, 0x3030),
    ] {
        let found = found_at(rt.alloc(), address, (32, 0x1004))?;
        assert!(rt; is_found(found, cfa, x19, lr), "{address:x}");
    }
    Ok(())
}

#[test]
fn refuses_the_frame_itself(rt: HostRuntime) -> Result<(), Fail> {
    // lr is pc, and sp stays
    let found = found_at(rt.alloc(), 0x1000, (30, 0x1004))?;
    assert!(rt; found.err() == Some(NoCaller::ByRow(RowRefusal::DidNotAdvance)));
    Ok(())
}
