//! Expressions that read memory, by hand (DWARF 5 section 2.5.1.3).
use crate::columns::frames::{bytes_of, memory_of};
use framehop_callers::base::{CfaBase, base_of};
use framehop_callers::evaluation::evaluate;
use framehop_callers::register_file::RegisterFile;
use framehop_cfi::rule::{CfaRule, Expression, Register};
use std::alloc::{AllocError, Global};
use std::test::Fail;

/// The memory at 0x1000: the bytes 11, 22 .. 88, 99 .. ff, 10.
const WORDS: [u64; 2] = [0x8877665544332211, 0x10ffeeddccbbaa99];

/// Operations, and their value.
const EXPRESSIONS: [(&'static [u8], Option<u64>); 15] = [
    // DW_OP_const2u 0x1000, DW_OP_deref
    (&[0x0a, 0x00, 0x10, 0x06], Some(0x8877665544332211)),
    // not aligned, and beyond the end
    (&[0x0a, 0x01, 0x10, 0x06], Some(0x9988776655443322)),
    (&[0x0a, 0x08, 0x10, 0x06], Some(0x10ffeeddccbbaa99)),
    (&[0x0a, 0x09, 0x10, 0x06], None),
    // DW_OP_deref_size of 1, 2, 4 and 8, of another number, and without one
    (&[0x0a, 0x00, 0x10, 0x94, 0x01], Some(0x11)),
    (&[0x0a, 0x00, 0x10, 0x94, 0x02], Some(0x2211)),
    (&[0x0a, 0x00, 0x10, 0x94, 0x04], Some(0x44332211)),
    (&[0x0a, 0x00, 0x10, 0x94, 0x08], Some(0x8877665544332211)),
    (&[0x0a, 0x00, 0x10, 0x94, 0x03], None),
    (&[0x0a, 0x00, 0x10, 0x94], None),
    // no address
    (&[0x06], None),
    // DW_OP_breg7 1, DW_OP_deref_size 1, DW_OP_plus_uconst 8
    (&[0x77, 0x01, 0x94, 0x01, 0x23, 0x08], Some(0x2a)),
    // a register that isn't known
    (&[0x76, 0x00, 0x06], None),
    // DW_OP_breg7 0, DW_OP_skip 1 over a DW_OP_deref
    (&[0x77, 0x00, 0x2f, 0x01, 0x00, 0x06], Some(0x1000)),
    // no operation
    (&[], None),
];

/// Registers of which rsp only is known.
fn only_sp() -> RegisterFile {
    let mut regs = RegisterFile::new();
    regs.set(Register(7), Some(0x1000));
    regs
}

/// The value of a part of code over that memory, which begins with a value or with none.
fn value_of(
    alloc: Global,
    code: &[u8],
    part: Expression,
    first: Option<u64>,
) -> Result<Option<u64>, AllocError> {
    let bytes = bytes_of(alloc, &WORDS)?;
    let memory = memory_of(alloc, 0x1000, bytes.as_slice())?;
    Ok(evaluate(alloc, code, part, &only_sp(), &memory, first))
}

/// All of code.
fn whole(code: &[u8]) -> Expression {
    Expression {
        start: 0,
        end: code.len(),
    }
}

#[test]
fn evaluates(rt: HostRuntime) -> Result<(), Fail> {
    for (code, value) in EXPRESSIONS {
        let found = value_of(rt.alloc(), code, whole(code), None)?;
        assert!(rt; found == value);
    }
    Ok(())
}

/// CFAs as expressions, and what they count from.
const BASES: [(&'static [u8], Option<CfaBase>); 5] = [
    // of gcc, where a function aligns its stack pointer: DW_OP_breg6 -8, DW_OP_deref
    (
        &[0x76, 0x78, 0x06],
        Some(CfaBase::Word {
            register: Register(6),
            offset: -8,
        }),
    ),
    // of OpenSSL's SHA-256: DW_OP_breg7 112, DW_OP_deref, DW_OP_plus_uconst 8
    (
        &[0x77, 0xf0, 0x00, 0x06, 0x23, 0x08],
        Some(CfaBase::Word {
            register: Register(7),
            offset: 112,
        }),
    ),
    // of a PLT: DW_OP_breg7 8, DW_OP_breg16 0, DW_OP_lit15 ..
    (
        &[0x77, 0x08, 0x80, 0x00, 0x3f],
        Some(CfaBase::Register(Register(7))),
    ),
    // DW_OP_const2u 0x1000, DW_OP_deref
    (&[0x0a, 0x00, 0x10, 0x06], None),
    // no operation
    (&[], None),
];

#[test]
fn counts_from_a_register_or_a_word(rt: HostRuntime) {
    for (code, base) in BASES {
        assert!(rt; base_of(code, CfaRule::Expression(whole(code))) == base);
    }
    let rule = CfaRule::RegisterAndOffset {
        register: Register(7),
        offset: 16,
    };
    assert!(rt; base_of(&[], rule) == Some(CfaBase::Register(Register(7))));
}

/// `DW_OP_over`, `DW_OP_deref`, `DW_OP_over`.
const PARTS: &[u8] = &[0x13, 0x06, 0x13];

#[test]
fn begins_with_the_first_value(rt: HostRuntime) -> Result<(), Fail> {
    // the DW_OP_deref at 1, and places that are no part of the section
    for (start, end, value) in [
        (1, 2, Some(0x9988776655443322)),
        (2, 1, None),
        (1, 4, None),
        (3, 3, Some(0x1001)),
    ] {
        let found = value_of(rt.alloc(), PARTS, Expression { start, end }, Some(0x1001))?;
        assert!(rt; found == value, "{start} {end}");
    }
    Ok(())
}

/// The value of so many times an operation.
fn value_of_repeated(
    alloc: Global,
    operation: u8,
    count: usize,
) -> Result<Option<u64>, AllocError> {
    let mut code = Vec::new(alloc);
    for _ in 0..count {
        code.push(operation)?;
    }
    value_of(alloc, code.as_slice(), whole(code.as_slice()), Some(7))
}

#[test]
fn has_limits(rt: HostRuntime) -> Result<(), Fail> {
    // DW_OP_nop, and DW_OP_lit0: 4,096 operations are carried out, and 64 values fit
    for (operation, count, value) in [
        (0x96, 4096, Some(7)),
        (0x96, 4097, None),
        (0x30, 63, Some(0)),
        (0x30, 64, None),
    ] {
        assert!(rt;
            value_of_repeated(rt.alloc(), operation, count)? == value,
            "{count}"
        );
    }
    Ok(())
}

/// Whether a file of registers keeps the 33 columns from 0 on, and no other.
fn keeps_columns() -> bool {
    let mut regs = RegisterFile::new();
    for column in 0..34u16 {
        regs.set(Register(column), Some(u64::from(column)));
    }
    regs.set(Register(5), None);
    for column in 0..34u16 {
        let is_kept = column != 5 && column != 33;
        if regs.get(Register(column)) != is_kept.then_some(u64::from(column)) {
            return false;
        }
    }
    true
}

#[test]
fn keeps_33_columns(rt: HostRuntime) {
    assert!(rt; RegisterFile::new().get(Register(5)).is_none());
    assert!(rt; keeps_columns());
}
