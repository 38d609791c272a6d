//! Worked examples of prologues and epilogues, with the rules that framehop's documentation and the
//! instructions' manual give for them.
use crate::analysis_x86_64::{frame_pointer, word_at, word_or};
use crate::real_code::{AARCH64_CODE, AARCH64_PLACES, Place};
use framehop_analysis::InstructionAnalysis;
use framehop_analysis::aarch64::instruction_analysis::{
    unwind_rule_from_detected_epilogue, unwind_rule_from_detected_prologue,
};
use framehop_core::aarch64::{ArchAarch64, UnwindRegsAarch64, UnwindRuleAarch64};
use framehop_core::unwind_rule::UnwindRule;

/// The rule that is found, if one is.
type Rule = Option<UnwindRuleAarch64>;

/// Code, and the rules at offsets in it.
type Row = (&'static [u8], &'static [(usize, Rule)]);

const FP_LR_0_1_0: Rule = Some(UnwindRuleAarch64::OffsetSpAndRestoreFpAndLr {
    sp_offset_by_16: 0,
    fp_storage_offset_from_sp_by_8: 1,
    lr_storage_offset_from_sp_by_8: 0,
});

const FP_LR_0_MINUS_2_MINUS_1: Rule = Some(UnwindRuleAarch64::OffsetSpAndRestoreFpAndLr {
    sp_offset_by_16: 0,
    fp_storage_offset_from_sp_by_8: -2,
    lr_storage_offset_from_sp_by_8: -1,
});

const FP_LR_1_0_1: Rule = Some(UnwindRuleAarch64::OffsetSpAndRestoreFpAndLr {
    sp_offset_by_16: 1,
    fp_storage_offset_from_sp_by_8: 0,
    lr_storage_offset_from_sp_by_8: 1,
});

const FP_LR_1_2_3: Rule = Some(UnwindRuleAarch64::OffsetSpAndRestoreFpAndLr {
    sp_offset_by_16: 1,
    fp_storage_offset_from_sp_by_8: 2,
    lr_storage_offset_from_sp_by_8: 3,
});

const FP_LR_2_0_1: Rule = Some(UnwindRuleAarch64::OffsetSpAndRestoreFpAndLr {
    sp_offset_by_16: 2,
    fp_storage_offset_from_sp_by_8: 0,
    lr_storage_offset_from_sp_by_8: 1,
});

const FP_LR_2_2_3: Rule = Some(UnwindRuleAarch64::OffsetSpAndRestoreFpAndLr {
    sp_offset_by_16: 2,
    fp_storage_offset_from_sp_by_8: 2,
    lr_storage_offset_from_sp_by_8: 3,
});

const FP_LR_3_4_5: Rule = Some(UnwindRuleAarch64::OffsetSpAndRestoreFpAndLr {
    sp_offset_by_16: 3,
    fp_storage_offset_from_sp_by_8: 4,
    lr_storage_offset_from_sp_by_8: 5,
});

const FP_LR_4_6_7: Rule = Some(UnwindRuleAarch64::OffsetSpAndRestoreFpAndLr {
    sp_offset_by_16: 4,
    fp_storage_offset_from_sp_by_8: 6,
    lr_storage_offset_from_sp_by_8: 7,
});

const FP_LR_5_8_9: Rule = Some(UnwindRuleAarch64::OffsetSpAndRestoreFpAndLr {
    sp_offset_by_16: 5,
    fp_storage_offset_from_sp_by_8: 8,
    lr_storage_offset_from_sp_by_8: 9,
});

const LR_1_0: Rule = Some(UnwindRuleAarch64::OffsetSpAndRestoreLr {
    sp_offset_by_16: 1,
    lr_storage_offset_from_sp_by_8: 0,
});

const NO_OP: Rule = Some(UnwindRuleAarch64::NoOp);

const SP_1: Rule = Some(UnwindRuleAarch64::OffsetSp { sp_offset_by_16: 1 });

const SP_2: Rule = Some(UnwindRuleAarch64::OffsetSp { sp_offset_by_16: 2 });

const SP_3: Rule = Some(UnwindRuleAarch64::OffsetSp { sp_offset_by_16: 3 });

const SP_4: Rule = Some(UnwindRuleAarch64::OffsetSp { sp_offset_by_16: 4 });

const SP_4096: Rule = Some(UnwindRuleAarch64::OffsetSp {
    sp_offset_by_16: 4096,
});

const SP_5: Rule = Some(UnwindRuleAarch64::OffsetSp { sp_offset_by_16: 5 });

const SP_6: Rule = Some(UnwindRuleAarch64::OffsetSp { sp_offset_by_16: 6 });

/// `sub sp, sp, #80`, three plain `stp`, `add x29, sp, #64`, and two `mov`.
const PROLOGUE: [u8; 28] = [
    0xff, 0x43, 0x01, 0xd1, 0xf6, 0x57, 0x02, 0xa9, 0xf4, 0x4f, 0x03, 0xa9, 0xfd, 0x7b, 0x04, 0xa9,
    0xfd, 0x03, 0x01, 0x91, 0xf4, 0x03, 0x04, 0xaa, 0xf5, 0x03, 0x01, 0xaa,
];

/// Three plain `ldp`, `add sp, sp, #80`, and `ret`.
const EPILOGUE: [u8; 20] = [
    0xfd, 0x7b, 0x44, 0xa9, 0xf4, 0x4f, 0x43, 0xa9, 0xf6, 0x57, 0x42, 0xa9, 0xff, 0x43, 0x01, 0x91,
    0xc0, 0x03, 0x5f, 0xd6,
];

const PROLOGUES: [Row; 12] = [
    (
        &PROLOGUE,
        &[
            (0, NO_OP),
            (4, SP_5),
            (8, SP_5),
            (12, SP_5),
            (16, SP_5),
            (20, None),
            (24, None),
            (28, None),
        ],
    ),
    // a function before, then pacibsp and a pre-indexed store
    (
        &[
            0x08, 0x58, 0x29, 0xb8, 0xc0, 0x03, 0x5f, 0xd6, 0x7f, 0x23, 0x03, 0xd5, 0xf8, 0x5f,
            0xbc, 0xa9, 0xf6, 0x57, 0x01, 0xa9, 0xf4, 0x4f, 0x02, 0xa9, 0xfd, 0x7b, 0x03, 0xa9,
            0xfd, 0xc3, 0x00, 0x91, 0xf3, 0x03, 0x02, 0xaa, 0xf4, 0x03, 0x01, 0xaa,
        ],
        &[
            (0, None),
            (4, None),
            (8, NO_OP),
            (12, NO_OP),
            (16, SP_4),
            (20, SP_4),
            (24, SP_4),
            (28, SP_4),
            (32, None),
        ],
    ),
    (
        &[
            0x7f, 0x23, 0x03, 0xd5, 0xfd, 0x7b, 0xbf, 0xa9, 0xfd, 0x03, 0x00, 0x91, 0x68, 0x04,
            0x00, 0x51,
        ],
        &[(0, NO_OP), (4, NO_OP), (8, SP_1), (12, None)],
    ),
    // stores that do not move sp
    (
        &[
            0xe8, 0x17, 0x00, 0xf9, 0x03, 0x00, 0x00, 0x14, 0xff, 0xff, 0x01, 0xa9, 0xff, 0x17,
            0x00, 0xf9, 0xe0, 0x03, 0x00, 0x91,
        ],
        &[(0, None), (4, None), (8, None), (12, None), (16, None)],
    ),
    // 24 bytes are no multiple of 16
    (
        &[0xff, 0x63, 0x00, 0xd1, 0xfd, 0x7b, 0x01, 0xa9],
        &[(4, None)],
    ),
    // sub sp, sp, #0x10, lsl #12
    (
        &[0xff, 0x43, 0x40, 0xd1, 0xfd, 0x7b, 0x01, 0xa9],
        &[(4, SP_4096)],
    ),
    // the depth is 2^20, one unit more than fits
    (
        &[0xff, 0x03, 0x44, 0xd1, 0xfd, 0x7b, 0x01, 0xa9],
        &[(4, None)],
    ),
    // a post-indexed store that raises sp
    (
        &[0xfd, 0x7b, 0x81, 0xa8, 0xfd, 0x7b, 0xbf, 0xa9],
        &[(4, None)],
    ),
    // three bytes are left
    (&[0xff, 0x43, 0x01, 0xd1, 0xf6, 0x57, 0x02], &[(4, None)]),
    // the run is cut from the start of the slice, and the bytes before the pc are passed over
    (
        &[0xff, 0x43, 0x01, 0xd1, 0x00, 0x00, 0xf6, 0x57, 0x02, 0xa9],
        &[(6, SP_5)],
    ),
    // pairs of 32-bit registers, and by another register than sp
    (
        &[0xff, 0x43, 0x01, 0xd1, 0xf6, 0x57, 0x02, 0x29],
        &[(4, None)],
    ),
    (
        &[0xff, 0x43, 0x01, 0xd1, 0x16, 0x54, 0x02, 0xa9],
        &[(4, None)],
    ),
];

const EPILOGUES: [Row; 24] = [
    (
        &EPILOGUE,
        &[
            (0, FP_LR_5_8_9),
            (4, SP_5),
            (8, SP_5),
            (12, SP_5),
            (16, NO_OP),
            (20, None),
        ],
    ),
    // retab after a post-indexed load
    (
        &[0xfd, 0x7b, 0xc1, 0xa8, 0xff, 0x0f, 0x5f, 0xd6],
        &[(0, FP_LR_1_0_1), (4, NO_OP)],
    ),
    (
        &[
            0x28, 0x01, 0x00, 0x79, 0xfd, 0x7b, 0xc1, 0xa8, 0xff, 0x0f, 0x5f, 0xd6, 0xe2, 0x03,
            0x08, 0xaa, 0x38, 0x76, 0x00, 0x94,
        ],
        &[
            (0, None),
            (4, FP_LR_1_0_1),
            (8, NO_OP),
            (12, None),
            (16, None),
        ],
    ),
    // tail calls by b and by br
    (
        &[0xfc, 0x6f, 0xc6, 0xa8, 0xbc, 0xba, 0xff, 0x17],
        &[(0, SP_6), (4, NO_OP)],
    ),
    (
        &[0xfa, 0x67, 0xc5, 0xa8, 0x60, 0x00, 0x1f, 0xd6],
        &[(0, None), (4, NO_OP)],
    ),
    (
        &[0xff, 0x43, 0x01, 0x91, 0xbc, 0xba, 0xff, 0x17],
        &[(0, SP_5), (4, NO_OP)],
    ),
    // a branch where sp has not moved
    (
        &[0xfd, 0x7b, 0x44, 0xa9, 0xbc, 0xba, 0xff, 0x17],
        &[(0, None), (4, None)],
    ),
    (
        &[
            0xe0, 0x03, 0x16, 0xaa, 0xfd, 0x7b, 0x43, 0xa9, 0xf4, 0x4f, 0x42, 0xa9, 0xf6, 0x57,
            0x41, 0xa9, 0xf8, 0x5f, 0xc4, 0xa8, 0xff, 0x0f, 0x5f, 0xd6, 0xa0, 0x01, 0x80, 0x52,
            0x20, 0x60, 0xa6, 0x72,
        ],
        &[
            (0, None),
            (4, FP_LR_4_6_7),
            (8, SP_4),
            (12, SP_4),
            (16, SP_4),
            (20, NO_OP),
            (24, None),
        ],
    ),
    (
        &[
            0xe1, 0x03, 0x13, 0xaa, 0xfd, 0x7b, 0x42, 0xa9, 0xf4, 0x4f, 0x41, 0xa9, 0xf6, 0x57,
            0xc3, 0xa8, 0xff, 0x23, 0x03, 0xd5, 0xd0, 0x07, 0x1e, 0xca, 0x50, 0x00, 0xf0, 0xb6,
            0x20, 0x8e, 0x38, 0xd4, 0x13, 0x00, 0x00, 0x14, 0xa0, 0x16, 0x78, 0xf9, 0x03, 0x3c,
            0x40, 0xf9,
        ],
        &[
            (0, None),
            (4, FP_LR_3_4_5),
            (8, SP_3),
            (12, SP_3),
            (16, NO_OP),
            (20, NO_OP),
            (24, NO_OP),
            (28, NO_OP),
            (32, NO_OP),
            (36, None),
        ],
    ),
    (
        &[
            0xe1, 0x03, 0x13, 0xaa, 0xfd, 0x7b, 0x41, 0xa9, 0xf4, 0x4f, 0xc2, 0xa8, 0xff, 0x23,
            0x03, 0xd5, 0xd0, 0x07, 0x1e, 0xca, 0x50, 0x00, 0xf0, 0xb6, 0x20, 0x8e, 0x38, 0xd4,
            0xf0, 0x77, 0x9c, 0xd2, 0x50, 0x08, 0x1f, 0xd7,
        ],
        &[
            (0, None),
            (4, FP_LR_2_2_3),
            (8, SP_2),
            (12, NO_OP),
            (16, NO_OP),
            (20, NO_OP),
            (24, NO_OP),
            (28, NO_OP),
            (32, NO_OP),
        ],
    ),
    // braa after a call that has ended with b, and br in the place of b, are not part of it
    (
        &[
            0xff, 0x23, 0x03, 0xd5, 0xd0, 0x07, 0x1e, 0xca, 0x50, 0x00, 0xf0, 0xb6, 0x20, 0x8e,
            0x38, 0xd4, 0x13, 0x00, 0x00, 0x14, 0x50, 0x08, 0x1f, 0xd7,
        ],
        &[(0, NO_OP), (16, NO_OP), (20, None)],
    ),
    (
        &[
            0xff, 0x23, 0x03, 0xd5, 0xd0, 0x07, 0x1e, 0xca, 0x50, 0x00, 0xf0, 0xb6, 0x20, 0x8e,
            0x38, 0xd4, 0x60, 0x00, 0x1f, 0xd6,
        ],
        &[(0, None), (4, None), (8, None), (12, None), (16, None)],
    ),
    // the check without the authentication, and a call that is cut off
    (
        &[
            0x1f, 0x20, 0x03, 0xd5, 0xd0, 0x07, 0x1e, 0xca, 0x50, 0x00, 0xf0, 0xb6, 0x20, 0x8e,
            0x38, 0xd4, 0x13, 0x00, 0x00, 0x14,
        ],
        &[(0, None), (4, None), (8, None), (12, None), (16, None)],
    ),
    (
        &[
            0xff, 0x23, 0x03, 0xd5, 0xd0, 0x07, 0x1e, 0xca, 0x50, 0x00, 0xf0, 0xb6, 0x20, 0x8e,
            0x38, 0xd4, 0xf0, 0x77, 0x9c, 0xd2,
        ],
        &[(0, None), (16, None)],
    ),
    // ldp x30, x19, [sp], #16; ret
    (
        &[0xfe, 0x4f, 0xc1, 0xa8, 0xc0, 0x03, 0x5f, 0xd6],
        &[(0, LR_1_0)],
    ),
    // ldp x29, x30, [sp, #16]; ldp x29, x30, [sp], #32; ret
    (
        &[
            0xfd, 0x7b, 0x41, 0xa9, 0xfd, 0x7b, 0xc2, 0xa8, 0xc0, 0x03, 0x5f, 0xd6,
        ],
        &[(0, FP_LR_2_0_1)],
    ),
    // ldp x29, x30, [sp, #16]!: read after sp has moved
    (
        &[0xfd, 0x7b, 0xc1, 0xa9, 0xc0, 0x03, 0x5f, 0xd6],
        &[(0, FP_LR_1_2_3)],
    ),
    // ldp x29, x30, [sp, #-16]
    (
        &[0xfd, 0x7b, 0x7f, 0xa9, 0xc0, 0x03, 0x5f, 0xd6],
        &[(0, FP_LR_0_MINUS_2_MINUS_1)],
    ),
    // ldp x30, x29, [sp]: in the other order
    (
        &[0xfe, 0x77, 0x40, 0xa9, 0xc0, 0x03, 0x5f, 0xd6],
        &[(0, FP_LR_0_1_0)],
    ),
    // fp without lr
    (
        &[0xfd, 0x4f, 0xc1, 0xa8, 0xc0, 0x03, 0x5f, 0xd6],
        &[(0, None)],
    ),
    // sp moves by 24 bytes, and by -16
    (
        &[0xff, 0x63, 0x00, 0x91, 0xc0, 0x03, 0x5f, 0xd6],
        &[(0, None)],
    ),
    (
        &[0xfd, 0x7b, 0xff, 0xa8, 0xc0, 0x03, 0x5f, 0xd6],
        &[(0, None)],
    ),
    // no return
    (&[0xfd, 0x7b, 0xc1, 0xa8], &[(0, None), (4, None)]),
    (&[0xfd, 0x7b, 0xc1, 0xa8, 0xc0, 0x03, 0x5f], &[(0, None)]),
];

/// Whether the rules of a prologue are found at offsets of the code.
fn are_prologues(text_bytes: &[u8], rules: &[(usize, Rule)]) -> bool {
    for (pc_offset, rule) in rules {
        if *pc_offset > text_bytes.len() {
            return false;
        }
        let (before, after) = text_bytes.split_at(*pc_offset);
        let found = unwind_rule_from_detected_prologue(before, after);
        let by_trait = ArchAarch64::rule_from_prologue_analysis(text_bytes, *pc_offset);
        if found != *rule || by_trait != *rule {
            return false;
        }
    }
    true
}

/// Whether the rules of an epilogue are found at offsets of the code.
fn are_epilogues(text_bytes: &[u8], rules: &[(usize, Rule)]) -> bool {
    for (pc_offset, rule) in rules {
        if *pc_offset > text_bytes.len() {
            return false;
        }
        let found = unwind_rule_from_detected_epilogue(text_bytes, *pc_offset);
        let by_trait = ArchAarch64::rule_from_epilogue_analysis(text_bytes, *pc_offset);
        if found != *rule || by_trait != *rule {
            return false;
        }
    }
    true
}

/// The number of the first row whose rules are not found in a prologue.
fn wrong_prologue(rows: &[Row]) -> Option<usize> {
    for (number, (text_bytes, rules)) in rows.iter().enumerate() {
        if !are_prologues(text_bytes, rules) {
            return Some(number);
        }
    }
    None
}

/// The number of the first row whose rules are not found in an epilogue.
fn wrong_epilogue(rows: &[Row]) -> Option<usize> {
    for (number, (text_bytes, rules)) in rows.iter().enumerate() {
        if !are_epilogues(text_bytes, rules) {
            return Some(number);
        }
    }
    None
}

#[test]
fn finds_prologues(rt: HostRuntime) {
    assert_eq!(rt; wrong_prologue(&PROLOGUES), None);
}

#[test]
fn finds_epilogues(rt: HostRuntime) {
    assert_eq!(rt; wrong_epilogue(&EPILOGUES), None);
}

/// A prologue, an epilogue and neither.
const INSTRUCTIONS: [(&[u8], usize, Rule); 5] = [
    (&PROLOGUE, 0, NO_OP),
    (&PROLOGUE, 16, SP_5),
    (&PROLOGUE, 20, None),
    (&EPILOGUE, 0, FP_LR_5_8_9),
    (&EPILOGUE, 20, None),
];

#[test]
fn prefers_prologues(rt: HostRuntime) {
    for (text_bytes, pc_offset, rule) in &INSTRUCTIONS {
        assert!(rt; *pc_offset <= text_bytes.len());
        let found = ArchAarch64::rule_from_instruction_analysis(text_bytes, *pc_offset);
        assert!(rt; found == *rule, "at {pc_offset}");
    }
}

/// Runs the rule that is found at a place of compiled code, if one is. Returns whether it finds the
/// caller.
fn finds_caller(place: &Place) -> Option<bool> {
    let (start, end, pc_offset, sp, fp, return_address, frame, _) = *place;
    let text_bytes = AARCH64_CODE.get(start..end)?;
    if pc_offset > text_bytes.len() {
        return None;
    }
    let rule = ArchAarch64::rule_from_instruction_analysis(text_bytes, pc_offset)?;
    let (old_sp, old_lr) = (0x10000u64, 0x7777);
    let old_fp = frame_pointer(frame);
    let mut regs = UnwindRegsAarch64::new(old_lr, old_sp, old_fp);
    let mut read_stack = |address: u64| -> Result<u64, ()> { Ok(word_at(address)) };
    let answer = rule.exec(true, &mut regs, &mut read_stack);
    let caller = (
        Ok(Some(word_or(return_address, old_lr))),
        old_sp.wrapping_add(sp),
        word_or(fp, old_fp),
    );
    Some((answer, regs.sp(), regs.fp()) == caller)
}

#[test]
fn finds_callers_in_compiled_code(rt: HostRuntime) {
    let mut right = 0u32;
    let mut wrong = 0u32;
    for place in &AARCH64_PLACES {
        match finds_caller(place) {
            Some(true) => right = right.wrapping_add(1),
            Some(false) => {
                assert!(rt; place.7, "{place:?}");
                wrong = wrong.wrapping_add(1);
            }
            None => {}
        }
    }
    assert_eq!(rt; (right, wrong), (98, 3), "of {}", AARCH64_PLACES.len());
}
