//! A page by hand, the rules of stub helpers, and the names of errors. Functions, opcodes, stubs and refusals are cases: `checks/cases/rules/compact_*`.
use framehop_cfi::dwarf_error::DwarfUnwinderError;
use framehop_core::aarch64::{ArchAarch64, UnwindRuleAarch64};
use framehop_core::x86_64::{ArchX86_64, UnwindRuleX86_64};
use framehop_macho::macho::{
    CompactUnwindInfoUnwinder, CompactUnwindInfoUnwinderError, CompactUnwindInfoUnwinding,
    CuiUnwindResult,
};
use framehop_macho::unwind_info::error::CompactReadError;
use framehop_macho::unwind_info::info::Function;
use std::test::Fail;

// one page, regular, with one function from 0x1000 to 0x2000 and the opcode 0x01000000
const REGULAR: [u8; 68] = [
    1, 0, 0, 0, 0x1c, 0, 0, 0, 0, 0, 0, 0, 0x1c, 0, 0, 0, 0, 0, 0, 0, 0x1c, 0, 0, 0, 2, 0, 0, 0, 0,
    0x10, 0, 0, 0x34, 0, 0, 0, 0x34, 0, 0, 0, 0, 0x20, 0, 0, 0, 0, 0, 0, 0x34, 0, 0, 0, 2, 0, 0, 0,
    8, 0, 1, 0, 0, 0x10, 0, 0, 0, 0, 0, 1,
];

#[test]
fn reads_a_regular_page(rt: HostRuntime) {
    let info = REGULAR.as_slice();
    let unwinder = CompactUnwindInfoUnwinder::<ArchX86_64>::new(info, None, (0, 0), (0, 0));
    let whole = Function {
        start_address: 0x1000,
        end_address: 0x2000,
        opcode: 0x0100_0000,
    };
    assert!(rt; unwinder.function_for_address(0x1fff) == Ok(whole));
    let outside = CompactUnwindInfoUnwinderError::AddressOutsideRange(0x2000);
    assert!(rt; unwinder.function_for_address(0x2000) == Err(outside));
    let rule = CuiUnwindResult::ExecRule(UnwindRuleX86_64::UseFramePointer);
    assert!(rt; unwinder.unwind_frame(0x1000, false) == Ok(rule));
}

#[test]
fn hands_on_the_offset_of_an_fde(rt: HostRuntime) {
    // the same page with the opcode 0x04000018: DWARF, and the FDE at 24
    let mut info = REGULAR;
    info[64..].copy_from_slice(&[0x18, 0, 0, 4]);
    let info = info.as_slice();
    let unwinder = CompactUnwindInfoUnwinder::<ArchX86_64>::new(info, None, (0, 0), (0, 0));
    assert!(rt; unwinder.unwind_frame(0x1000, false) == Ok(CuiUnwindResult::NeedDwarf(24)));
}

/// An offset of a `__stub_helper`, and its rule: that of the shared code, which pushes a word, and then of a stub, which
/// does so too, and jumps there.
const HELPERS_X86_64: [(u32, UnwindRuleX86_64); 5] = [
    (0, UnwindRuleX86_64::OffsetSp { sp_offset_by_8: 2 }),
    (7, UnwindRuleX86_64::OffsetSp { sp_offset_by_8: 3 }),
    (0x10, UnwindRuleX86_64::JustReturn),
    (0x15, UnwindRuleX86_64::OffsetSp { sp_offset_by_8: 2 }),
    (0x1a, UnwindRuleX86_64::JustReturn),
];

/// The same, where the shared code stores two words, and a stub none.
const HELPERS_AARCH64: [(u32, UnwindRuleAarch64); 3] = [
    (0, UnwindRuleAarch64::NoOp),
    (0xc, UnwindRuleAarch64::OffsetSp { sp_offset_by_16: 1 }),
    (0x18, UnwindRuleAarch64::NoOp),
];

#[test]
fn rules_of_stub_helpers(rt: HostRuntime) {
    for (offset, rule) in HELPERS_X86_64 {
        let want = Ok(CuiUnwindResult::ExecRule(rule));
        assert!(rt; ArchX86_64::rule_for_stub_helper(offset) == want);
    }
    for (offset, rule) in HELPERS_AARCH64 {
        let want = Ok(CuiUnwindResult::ExecRule(rule));
        assert!(rt; ArchAarch64::rule_for_stub_helper(offset) == want);
    }
}

const READ_ERRORS: [(CompactReadError, &str); 5] = [
    (CompactReadError::Eof, "Eof"),
    (CompactReadError::BadVersion, "BadVersion"),
    (CompactReadError::BadPageKind, "BadPageKind"),
    (CompactReadError::BadEncodingIndex, "BadEncodingIndex"),
    (CompactReadError::AddressTooBig, "AddressTooBig"),
];

const ERRORS: [(CompactUnwindInfoUnwinderError, &str); 13] = [
    (
        CompactUnwindInfoUnwinderError::AddressOutsideRange(0x1000),
        "AddressOutsideRange",
    ),
    (
        CompactUnwindInfoUnwinderError::CallerCannotBeFrameless,
        "CallerCannotBeFrameless",
    ),
    (
        CompactUnwindInfoUnwinderError::FunctionHasNoInfo,
        "FunctionHasNoInfo",
    ),
    (
        CompactUnwindInfoUnwinderError::BpOffsetDoesNotFit,
        "BpOffsetDoesNotFit",
    ),
    (
        CompactUnwindInfoUnwinderError::BadOpcodeKind(5),
        "BadOpcodeKind",
    ),
    (
        CompactUnwindInfoUnwinderError::NoTextBytesToLookUpIndirectStackOffset,
        "NoTextBytesToLookUpIndirectStackOffset",
    ),
    (
        CompactUnwindInfoUnwinderError::IndirectStackOffsetOutOfBounds,
        "IndirectStackOffsetOutOfBounds",
    ),
    (
        CompactUnwindInfoUnwinderError::StackAdjustOverflow,
        "StackAdjustOverflow",
    ),
    (
        CompactUnwindInfoUnwinderError::StackSizeDoesNotFit,
        "StackSizeDoesNotFit",
    ),
    (
        CompactUnwindInfoUnwinderError::StubFunctionCannotBeCaller,
        "StubFunctionCannotBeCaller",
    ),
    (
        CompactUnwindInfoUnwinderError::InvalidFrameless,
        "InvalidFrameless",
    ),
    (
        CompactUnwindInfoUnwinderError::BadFormat(CompactReadError::Eof),
        "BadFormat",
    ),
    (
        CompactUnwindInfoUnwinderError::BadDwarfUnwinding(DwarfUnwinderError::DidNotAdvance),
        "BadDwarfUnwinding",
    ),
];

#[test]
fn prints_the_names_of_errors(rt: HostRuntime) -> Result<(), Fail> {
    for (error, name) in &READ_ERRORS {
        assert!(rt; error.to_string(rt.alloc())?.as_str() == *name);
        let outer = CompactUnwindInfoUnwinderError::from(*error);
        assert!(rt; outer == CompactUnwindInfoUnwinderError::BadFormat(*error));
    }
    for (error, name) in &ERRORS {
        assert!(rt; error.to_string(rt.alloc())?.as_str() == *name);
    }
    let inner = DwarfUnwinderError::DidNotAdvance;
    let outer = CompactUnwindInfoUnwinderError::from(inner);
    assert!(rt; outer == CompactUnwindInfoUnwinderError::BadDwarfUnwinding(inner));
    Ok(())
}
