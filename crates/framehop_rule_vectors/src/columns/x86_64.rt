//! Rows of compiled and of hand-written code of x86_64. The sections are a CIE and an FDE of libcrypto 3.0.19, ld.so 2.36
//! and libc 2.36 each, of Debian, next to one another. The expected values are those that gdb 13.1 prints of the caller's
//! frame, by `scripts/callers.py`, but for registers that the row doesn't name and that calls may change: gdb keeps their
//! values, and nothing is known of them.
use crate::columns::frames::{Known, NoCaller, Section, caller_of};
use framehop_callers::caller::{Caller, RowRefusal};
use framehop_callers::convention::Convention;
use framehop_cfi::rule::Register;
use framehop_cfi::storage::{StoreOnHeap, StoreOnStack};
use std::test::Fail;

/// `AES_encrypt` of libcrypto: the CFA is by rax, then at a word of the stack, then by rsi.
const CRYPTO: Section = Section {
    bytes: &[
        0x14, 0x00, 0x00, 0x00, 0x00, 0x00, 0x00, 0x00, 0x01, 0x7a, 0x52, 0x00, 0x01, 0x78, 0x10,
        0x01, 0x1b, 0x0c, 0x07, 0x08, 0x90, 0x01, 0x00, 0x00, 0x40, 0x00, 0x00, 0x00, 0x1c, 0x00,
        0x00, 0x00, 0x78, 0x07, 0xd2, 0xff, 0xb5, 0x00, 0x00, 0x00, 0x00, 0x47, 0x0d, 0x00, 0x41,
        0x83, 0x02, 0x41, 0x86, 0x03, 0x42, 0x8c, 0x04, 0x42, 0x8d, 0x05, 0x42, 0x8e, 0x06, 0x42,
        0x8f, 0x07, 0x66, 0x0f, 0x05, 0x77, 0x18, 0x06, 0x23, 0x08, 0x02, 0x52, 0x0c, 0x04, 0x08,
        0x53, 0xcf, 0x44, 0xce, 0x44, 0xcd, 0x44, 0xcc, 0x44, 0xc6, 0x44, 0xc3, 0x43, 0x0d, 0x07,
        0x00, 0x00,
    ],
    svma: 0x3b0dc8,
    fde: 24,
};

/// A resolver of ld.so, to which a PLT jumps that has pushed two words: the CFA is by rbx.
const RESOLVE: Section = Section {
    bytes: &[
        0x14, 0x00, 0x00, 0x00, 0x00, 0x00, 0x00, 0x00, 0x01, 0x7a, 0x52, 0x00, 0x01, 0x78, 0x10,
        0x01, 0x1b, 0x0c, 0x07, 0x08, 0x90, 0x01, 0x0e, 0x18, 0x30, 0x00, 0x00, 0x00, 0x1c, 0x00,
        0x00, 0x00, 0x54, 0x67, 0xff, 0xff, 0xf9, 0x03, 0x00, 0x00, 0x00, 0x44, 0x0e, 0x38, 0x44,
        0x83, 0x07, 0x48, 0x0d, 0x03, 0x03, 0xfa, 0x02, 0xc3, 0x0d, 0x07, 0x44, 0x0e, 0x08, 0x43,
        0x0e, 0x38, 0x83, 0x07, 0x0d, 0x03, 0x02, 0xe3, 0xc3, 0x0d, 0x07, 0x44, 0x0e, 0x08, 0x00,
        0x00,
    ],
    svma: 0x2f1ac,
    fde: 24,
};

/// `__restore_rt` of libc: all registers are at expressions.
const RESTORE: Section = Section {
    bytes: &[
        0x10, 0x00, 0x00, 0x00, 0x00, 0x00, 0x00, 0x00, 0x01, 0x7a, 0x52, 0x53, 0x00, 0x01, 0x78,
        0x10, 0x01, 0x1b, 0x00, 0x00, 0x78, 0x00, 0x00, 0x00, 0x18, 0x00, 0x00, 0x00, 0xc7, 0x0b,
        0xe9, 0xff, 0x0a, 0x00, 0x00, 0x00, 0x00, 0x0f, 0x04, 0x77, 0xa0, 0x01, 0x06, 0x10, 0x08,
        0x02, 0x77, 0x28, 0x10, 0x09, 0x02, 0x77, 0x30, 0x10, 0x0a, 0x02, 0x77, 0x38, 0x10, 0x0b,
        0x03, 0x77, 0xc0, 0x00, 0x10, 0x0c, 0x03, 0x77, 0xc8, 0x00, 0x10, 0x0d, 0x03, 0x77, 0xd0,
        0x00, 0x10, 0x0e, 0x03, 0x77, 0xd8, 0x00, 0x10, 0x0f, 0x03, 0x77, 0xe0, 0x00, 0x10, 0x05,
        0x03, 0x77, 0xe8, 0x00, 0x10, 0x04, 0x03, 0x77, 0xf0, 0x00, 0x10, 0x06, 0x03, 0x77, 0xf8,
        0x00, 0x10, 0x03, 0x03, 0x77, 0x80, 0x01, 0x10, 0x01, 0x03, 0x77, 0x88, 0x01, 0x10, 0x00,
        0x03, 0x77, 0x90, 0x01, 0x10, 0x02, 0x03, 0x77, 0x98, 0x01, 0x10, 0x07, 0x03, 0x77, 0xa0,
        0x01, 0x10, 0x10, 0x03, 0x77, 0xa8, 0x01, 0x00, 0x00,
    ],
    svma: 0x1ab46c,
    fde: 20,
};

/// Where the memory begins, and its words.
const START: u64 = 0x7fffffff6000;

const WORDS: [u64; 22] = [
    0x550000000000,
    0x550000000101,
    0x550000000202,
    0x7fffffff6078,
    0x550000000404,
    0x550000000505,
    0x550000000606,
    0x550000000707,
    0x550000000808,
    0x550000000909,
    0x550000000a0a,
    0x550000000b0b,
    0x550000000c0c,
    0x550000000d0d,
    0x550000000e0e,
    0x550000000f0f,
    0x550000001010,
    0x550000001111,
    0x550000001212,
    0x550000001313,
    0x7fffffff6200,
    0x550000001515,
];

/// The registers of the frame by their columns, but for those that a case changes.
const REGISTERS: [u64; 17] = [
    0x10000,
    0x10111,
    0x10222,
    0x10333,
    0x10444,
    0x10555,
    0x10666,
    0x7fffffff6000,
    0x10888,
    0x10999,
    0x10aaa,
    0x10bbb,
    0x10ccc,
    0x10ddd,
    0x10eee,
    0x10fff,
    0x7ffff7ad1597,
];

/// A section, an address, another value of a register, and the caller's CFA and columns.
#[derive(Clone, Copy)]
struct Case {
    section: Section,
    address: u32,
    changed: (u16, u64),
    cfa: u64,
    caller: [Option<u64>; 17],
}

const CASES: [Case; 5] = [
    Case {
        section: CRYPTO,
        address: 0xd1597,
        changed: (16, 0x7ffff7ad1597),
        cfa: 0x7fffffff6080,
        caller: [
            None,
            None,
            None,
            Some(0x550000000e0e),
            None,
            None,
            Some(0x550000000d0d),
            Some(0x7fffffff6080),
            None,
            None,
            None,
            None,
            Some(0x550000000c0c),
            Some(0x550000000b0b),
            Some(0x550000000a0a),
            Some(0x550000000909),
            Some(0x550000000f0f),
        ],
    },
    Case {
        section: CRYPTO,
        address: 0xd1568,
        changed: (0, 0x7fffffff6078),
        cfa: 0x7fffffff6080,
        caller: [
            None,
            None,
            None,
            Some(0x550000000e0e),
            None,
            None,
            Some(0x10666),
            Some(0x7fffffff6080),
            None,
            None,
            None,
            None,
            Some(0x10ccc),
            Some(0x10ddd),
            Some(0x10eee),
            Some(0x10fff),
            Some(0x550000000f0f),
        ],
    },
    Case {
        section: CRYPTO,
        address: 0xd15e9,
        changed: (4, 0x7fffffff6078),
        cfa: 0x7fffffff6080,
        caller: [
            None,
            None,
            None,
            Some(0x550000000e0e),
            None,
            None,
            Some(0x550000000d0d),
            Some(0x7fffffff6080),
            None,
            None,
            None,
            None,
            Some(0x550000000c0c),
            Some(0x550000000b0b),
            Some(0x550000000a0a),
            Some(0x550000000909),
            Some(0x550000000f0f),
        ],
    },
    Case {
        section: RESOLVE,
        address: 0x25930,
        changed: (3, 0x7fffffff6008),
        cfa: 0x7fffffff6040,
        caller: [
            None,
            None,
            None,
            Some(0x550000000101),
            None,
            None,
            Some(0x10666),
            Some(0x7fffffff6040),
            None,
            None,
            None,
            None,
            Some(0x10ccc),
            Some(0x10ddd),
            Some(0x10eee),
            Some(0x10fff),
            Some(0x550000000707),
        ],
    },
    Case {
        section: RESTORE,
        address: 0x3c04f,
        changed: (16, 0x7ffff785a04f),
        cfa: 0x7fffffff6200,
        caller: [
            Some(0x550000001212),
            Some(0x550000001111),
            Some(0x550000001313),
            Some(0x550000001010),
            Some(0x550000000e0e),
            Some(0x550000000d0d),
            Some(0x550000000f0f),
            Some(0x7fffffff6200),
            Some(0x550000000505),
            Some(0x550000000606),
            Some(0x550000000707),
            Some(0x550000000808),
            Some(0x550000000909),
            Some(0x550000000a0a),
            Some(0x550000000b0b),
            Some(0x550000000c0c),
            Some(0x550000001515),
        ],
    },
];

/// What is known of a frame, of which registers are changed, with so many bytes of the memory.
fn known(changed: &[(u16, Option<u64>)], size: usize) -> Known<'_> {
    Known {
        registers: &REGISTERS,
        changed,
        start: START,
        words: &WORDS,
        size,
    }
}

/// Whether there is a caller with this CFA and these columns. Nothing is known of columns from 17 on.
fn is_of(found: Result<Caller, NoCaller>, cfa: u64, columns: [Option<u64>; 17]) -> bool {
    let Ok(caller) = found else {
        return false;
    };
    for column in 0..33u16 {
        let value = columns.get(column as usize).copied().unwrap_or(None);
        if caller.regs.get(Register(column)) != value {
            return false;
        }
    }
    caller.cfa == cfa && Some(caller.return_address) == columns[16]
}

#[test]
fn finds_callers(rt: HostRuntime) -> Result<(), Fail> {
    let alloc = rt.alloc();
    let convention = Convention::X86_64;
    for case in CASES {
        let changed = [(case.changed.0, Some(case.changed.1))];
        let known = known(&changed, 176);
        let found = caller_of::<StoreOnStack>(
            alloc,
            convention,
            &case.section,
            case.address,
            &known,
        )?;
        assert!(rt; is_of(found, case.cfa, case.caller), "{:x}", case.address);
        // the same with rows that grow in memory
        let found = caller_of::<StoreOnHeap>(
            alloc,
            convention,
            &case.section,
            case.address,
            &known,
        )?;
        assert!(rt; is_of(found, case.cfa, case.caller), "{:x}", case.address);
    }
    Ok(())
}

/// A case of `CASES`, how many bytes of the memory are there, a register that isn't known, and the refusal.
const REFUSED: [(usize, usize, u16, NoCaller); 4] = [
    // the word at rsp + 24 is missing, or rsp
    (0, 24, 16, NoCaller::ByRow(RowRefusal::CfaUnknown)),
    (0, 176, 7, NoCaller::ByRow(RowRefusal::CfaUnknown)),
    // the CFA is known, and the word below it is missing
    (
        0,
        120,
        16,
        NoCaller::ByRow(RowRefusal::ReturnAddressUnknown),
    ),
    (
        1,
        120,
        16,
        NoCaller::ByRow(RowRefusal::ReturnAddressUnknown),
    ),
];

#[test]
fn refuses_what_is_not_known(rt: HostRuntime) -> Result<(), Fail> {
    let alloc = rt.alloc();
    let convention = Convention::X86_64;
    for (case, size, register, refusal) in REFUSED {
        let case = CASES.get(case).copied().ok_or("no case")?;
        let changed = [(case.changed.0, Some(case.changed.1)), (register, None)];
        let known = known(&changed, size);
        let found = caller_of::<StoreOnStack>(
            alloc,
            convention,
            &case.section,
            case.address,
            &known,
        )?;
        assert!(rt; found.err() == Some(refusal), "{:x}", case.address);
    }
    Ok(())
}

/// As `CRYPTO` for 0x1000 to 0x1020 at 0x2000, but the return address is undefined.
const OUTERMOST: Section = Section {
    bytes: &[
        0x14, 0x00, 0x00, 0x00, 0x00, 0x00, 0x00, 0x00, 0x01, 0x7a, 0x52, 0x00, 0x01, 0x78, 0x10,
        0x01, 0x1b, 0x0c, 0x07, 0x08, 0x90, 0x01, 0x00, 0x00, 0x18, 0x00, 0x00, 0x00, 0x1c, 0x00,
        0x00, 0x00, 0xe0, 0xef, 0xff, 0xff, 0x20, 0x00, 0x00, 0x00, 0x00, 0x07, 0x10, 0x00, 0x00,
        0x00, 0x00, 0x00, 0x00, 0x00, 0x00, 0x00, 0x00, 0x00, 0x00, 0x00,
    ],
    svma: 0x2000,
    fde: 24,
};

#[test]
fn refuses_where_there_is_no_caller(rt: HostRuntime) -> Result<(), Fail> {
    let known = known(&[(16, Some(0x1000))], 176);
    for (fde, address, refusal) in [
        (24, 0x1000, NoCaller::ByRow(RowRefusal::Outermost)),
        (24, 0x1020, NoCaller::NoRow),
        (0, 0x1000, NoCaller::NoFde),
    ] {
        let section = Section { fde, ..OUTERMOST };
        let found = caller_of::<StoreOnHeap>(
            rt.alloc(),
            Convention::X86_64,
            &section,
            address,
            &known,
        )?;
        assert!(rt; found.err() == Some(refusal), "{fde} {address:x}");
    }
    Ok(())
}
