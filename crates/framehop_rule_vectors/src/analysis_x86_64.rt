//! Worked examples of prologues and epilogues, with the rules that framehop's documentation and the
//! instructions' manual give for them.
use crate::real_code::{Place, X86_64_CODE, X86_64_PLACES};
use framehop_analysis::InstructionAnalysis;
use framehop_analysis::x86_64::instruction_analysis::{
    unwind_rule_from_detected_epilogue, unwind_rule_from_detected_prologue,
};
use framehop_core::unwind_rule::UnwindRule;
use framehop_core::x86_64::{ArchX86_64, UnwindRegsX86_64, UnwindRuleX86_64};

/// The rule that is found, if one is.
type Rule = Option<UnwindRuleX86_64>;

/// Code, an offset in it, and the rule there.
type Row = (&'static [u8], usize, Rule);

const FRAME: Rule = Some(UnwindRuleX86_64::UseFramePointer);

const RETURN: Rule = Some(UnwindRuleX86_64::JustReturn);

const SP_1: Rule = Some(UnwindRuleX86_64::OffsetSp { sp_offset_by_8: 1 });

const SP_2: Rule = Some(UnwindRuleX86_64::OffsetSp { sp_offset_by_8: 2 });

const SP_2_BP_0: Rule = Some(UnwindRuleX86_64::OffsetSpAndRestoreBp {
    sp_offset_by_8: 2,
    bp_storage_offset_from_sp_by_8: 0,
});

const SP_3: Rule = Some(UnwindRuleX86_64::OffsetSp { sp_offset_by_8: 3 });

const SP_3_BP_0: Rule = Some(UnwindRuleX86_64::OffsetSpAndRestoreBp {
    sp_offset_by_8: 3,
    bp_storage_offset_from_sp_by_8: 0,
});

const SP_3_BP_1: Rule = Some(UnwindRuleX86_64::OffsetSpAndRestoreBp {
    sp_offset_by_8: 3,
    bp_storage_offset_from_sp_by_8: 1,
});

const SP_4: Rule = Some(UnwindRuleX86_64::OffsetSp { sp_offset_by_8: 4 });

const PROLOGUES: [Row; 31] = [
    // push rbp; mov rbp, rsp, and pushes after it, before sub rsp, 0x18
    (
        &[
            0x55, 0x48, 0x89, 0xe5, 0x41, 0x57, 0x53, 0x48, 0x83, 0xec, 0x18,
        ],
        7,
        FRAME,
    ),
    (
        &[
            0x55, 0x48, 0x89, 0xe5, 0x41, 0x57, 0x53, 0x48, 0x83, 0xec, 0x18,
        ],
        4,
        FRAME,
    ),
    (
        &[
            0x55, 0x48, 0x89, 0xe5, 0x41, 0x57, 0x53, 0x48, 0x83, 0xec, 0x18,
        ],
        1,
        SP_2,
    ),
    (
        &[
            0x55, 0x48, 0x89, 0xe5, 0x41, 0x57, 0x53, 0x48, 0x83, 0xec, 0x18,
        ],
        0,
        SP_1,
    ),
    // pushes before sub rsp, 0x80
    (
        &[0x41, 0x57, 0x41, 0x56, 0x53, 0x48, 0x81, 0xec, 0x80],
        5,
        SP_4,
    ),
    (
        &[0x41, 0x57, 0x41, 0x56, 0x53, 0x48, 0x81, 0xec, 0x80],
        4,
        SP_3,
    ),
    (
        &[0x41, 0x57, 0x41, 0x56, 0x53, 0x48, 0x81, 0xec, 0x80],
        2,
        SP_2,
    ),
    (
        &[0x41, 0x57, 0x41, 0x56, 0x53, 0x48, 0x81, 0xec, 0x80],
        0,
        SP_1,
    ),
    // three bytes left
    (&[0x41, 0x57, 0x41, 0x56, 0x53, 0x48, 0x81, 0xec], 5, None),
    // each of the next instructions, and others
    (&[0x53, 0x50, 0x90, 0x90, 0x90], 1, SP_2),
    (&[0x53, 0x57, 0x90, 0x90, 0x90], 1, SP_2),
    (&[0x53, 0x58, 0x90, 0x90, 0x90], 1, None),
    (&[0x53, 0x41, 0x50, 0x90, 0x90], 1, SP_2),
    (&[0x53, 0x40, 0x57, 0x90, 0x90], 1, SP_2),
    (&[0x53, 0x42, 0x50, 0x90, 0x90], 1, None),
    (&[0x53, 0x41, 0x58, 0x90, 0x90], 1, None),
    (&[0x53, 0x83, 0xec, 0x18, 0x90], 1, SP_2),
    (&[0x53, 0x81, 0xec, 0x80, 0x00], 1, SP_2),
    (&[0x53, 0x48, 0x83, 0xec, 0x18], 1, SP_2),
    (&[0x53, 0x48, 0x81, 0xec, 0x80], 1, SP_2),
    (&[0x53, 0x48, 0x89, 0xe5, 0x90], 1, SP_2),
    (&[0x53, 0x82, 0xec, 0x18, 0x90], 1, None),
    (&[0x53, 0x83, 0xed, 0x18, 0x90], 1, None),
    (&[0x53, 0x48, 0x83, 0xed, 0x18], 1, None),
    (&[0x53, 0x48, 0x89, 0xe6, 0x90], 1, None),
    // a prefix before the first push, or at the start of the code, and a byte before that is none
    (&[0x50, 0x50, 0x90, 0x90, 0x90], 1, SP_2),
    (&[0x41, 0x50, 0x50, 0x90, 0x90, 0x90], 2, SP_2),
    (&[0x41, 0x41, 0x50, 0x50, 0x90, 0x90, 0x90], 3, SP_2),
    (&[0x42, 0x50, 0x50, 0x90, 0x90, 0x90], 2, SP_2),
    // another frame group than the one before the pushes
    (
        &[0x55, 0x48, 0x89, 0xe5, 0x90, 0x50, 0x90, 0x90, 0x90],
        5,
        SP_1,
    ),
    (&[0x54, 0x48, 0x89, 0xe5, 0x50, 0x90, 0x90, 0x90], 4, SP_1),
];

const EPILOGUES: [Row; 33] = [
    // pops of rbp without and with a prefix
    (&[0x5b, 0x40, 0x5d, 0xc3], 0, SP_3_BP_1),
    (&[0x41, 0x5c, 0x5d, 0xc3], 0, SP_3_BP_1),
    (&[0x40, 0x5d, 0xc3], 0, SP_2_BP_0),
    (&[0x5d, 0x5d, 0xc3], 0, SP_3_BP_1),
    (&[0x5d, 0x5b, 0xc3], 0, SP_3_BP_0),
    // a pop of rsp, and of r12 and r13
    (&[0x5c, 0xc3], 0, None),
    (&[0x40, 0x5c, 0xc3], 0, None),
    (&[0x5b, 0x5c, 0xc3], 0, None),
    (&[0x41, 0x5c, 0xc3], 0, SP_2),
    (&[0x41, 0x5d, 0xc3], 0, SP_2),
    // a return, and jumps after a pop
    (&[0xc3], 0, RETURN),
    (&[0x5b, 0xeb], 0, SP_2),
    (&[0x5b, 0xeb], 1, RETURN),
    (&[0x5b, 0xe9], 1, RETURN),
    (&[0x5b, 0xff], 1, RETURN),
    (&[0x5c, 0xff], 1, RETURN),
    // jumps that follow no pop
    (&[0x90, 0xeb], 1, None),
    (&[0xeb], 0, None),
    (&[0x57, 0xe9], 1, None),
    (&[0x60, 0xff], 1, None),
    // each instruction that begins with FF is taken for the end: INC, DEC, CALL, far CALL, JMP, far JMP and PUSH
    (&[0x5d, 0xff, 0xc0], 0, SP_2_BP_0),
    (&[0x5d, 0xff, 0xc8], 0, SP_2_BP_0),
    (&[0x5d, 0xff, 0xd0], 0, SP_2_BP_0),
    (&[0x5d, 0xff, 0xd8], 0, SP_2_BP_0),
    (&[0x5d, 0xff, 0xe0], 0, SP_2_BP_0),
    (&[0x5d, 0xff, 0xe8], 0, SP_2_BP_0),
    (&[0x5d, 0xff, 0xf0], 0, SP_2_BP_0),
    // no end
    (&[0x5b], 0, None),
    (&[0x5b, 0x41], 0, None),
    (&[], 0, None),
    (&[0x5b, 0x90, 0xc3], 0, None),
    (&[0x42, 0x5b, 0xc3], 0, None),
    (&[0x41, 0x50, 0xc3], 0, None),
];

/// The number of the first row whose rule is not found in a prologue.
fn wrong_prologue(rows: &[Row]) -> Option<usize> {
    for (number, (text_bytes, pc_offset, rule)) in rows.iter().enumerate() {
        if *pc_offset > text_bytes.len() {
            return Some(number);
        }
        let found = unwind_rule_from_detected_prologue(text_bytes, *pc_offset);
        let by_trait = ArchX86_64::rule_from_prologue_analysis(text_bytes, *pc_offset);
        if found != *rule || by_trait != *rule {
            return Some(number);
        }
    }
    None
}

/// The number of the first row whose rule is not found in an epilogue.
fn wrong_epilogue(rows: &[Row]) -> Option<usize> {
    for (number, (text_bytes, pc_offset, rule)) in rows.iter().enumerate() {
        if *pc_offset > text_bytes.len() {
            return Some(number);
        }
        let found = unwind_rule_from_detected_epilogue(text_bytes, *pc_offset);
        let by_trait = ArchX86_64::rule_from_epilogue_analysis(text_bytes, *pc_offset);
        if found != *rule || by_trait != *rule {
            return Some(number);
        }
    }
    None
}

#[test]
fn finds_prologues(rt: HostRuntime) {
    assert_eq!(rt; wrong_prologue(&PROLOGUES), None);
}

#[test]
fn finds_epilogues(rt: HostRuntime) {
    assert_eq!(rt; wrong_epilogue(&EPILOGUES), None);
}

/// A prologue, an epilogue and neither.
const INSTRUCTIONS: [Row; 3] = [
    // the next instruction is a push of r15, and the bytes are no epilogue
    (&[0x53, 0x41, 0x57, 0x90, 0x90], 1, SP_2),
    (&[0x90, 0x5d, 0xc3, 0x90, 0x90], 1, SP_2_BP_0),
    (&[0x90, 0x90, 0x90, 0x90, 0x90], 1, None),
];

#[test]
fn prefers_prologues(rt: HostRuntime) {
    for (text_bytes, pc_offset, rule) in &INSTRUCTIONS {
        assert!(rt; *pc_offset <= text_bytes.len());
        let found = ArchX86_64::rule_from_instruction_analysis(text_bytes, *pc_offset);
        assert!(rt; found == *rule, "at {pc_offset}");
    }
}

/// A word of a stack in which each address has another one.
pub(crate) fn word_at(address: u64) -> u64 {
    address ^ 0x5000_0000
}

/// The word at an offset from the stack pointer 0x10000, if there is an offset, or else another value.
pub(crate) fn word_or(offset: Option<u64>, otherwise: u64) -> u64 {
    match offset {
        Some(offset) => word_at(0x10000u64.wrapping_add(offset)),
        None => otherwise,
    }
}

/// A frame pointer of 0x8888, or one that points into the frame.
pub(crate) fn frame_pointer(offset: Option<u64>) -> u64 {
    match offset {
        Some(offset) => 0x10000u64.wrapping_add(offset),
        None => 0x8888,
    }
}

/// Runs the rule that is found at a place of compiled code, if one is. Returns whether it finds the
/// caller.
fn finds_caller(place: &Place) -> Option<bool> {
    let (start, end, pc_offset, sp, bp, return_address, frame, _) = *place;
    let text_bytes = X86_64_CODE.get(start..end)?;
    if pc_offset > text_bytes.len() {
        return None;
    }
    let rule = ArchX86_64::rule_from_instruction_analysis(text_bytes, pc_offset)?;
    let old_sp = 0x10000u64;
    let old_bp = frame_pointer(frame);
    let mut regs = UnwindRegsX86_64::new(0x7777, old_sp, old_bp);
    let mut read_stack = |address: u64| -> Result<u64, ()> { Ok(word_at(address)) };
    let answer = rule.exec(true, &mut regs, &mut read_stack);
    let caller = (
        Ok(Some(word_or(return_address, 0))),
        old_sp.wrapping_add(sp),
        word_or(bp, old_bp),
    );
    Some((answer, regs.sp(), regs.bp()) == caller)
}

#[test]
fn finds_callers_in_compiled_code(rt: HostRuntime) {
    let mut right = 0u32;
    let mut wrong = 0u32;
    for place in &X86_64_PLACES {
        match finds_caller(place) {
            Some(true) => right = right.wrapping_add(1),
            Some(false) => {
                assert!(rt; place.7, "{place:?}");
                wrong = wrong.wrapping_add(1);
            }
            None => {}
        }
    }
    assert_eq!(rt; (right, wrong), (129, 8), "of {}", X86_64_PLACES.len());
}
