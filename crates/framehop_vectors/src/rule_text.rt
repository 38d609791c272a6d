//! Rules as text: their names and fields, and words worked out by hand from where a rule says that the caller's stack
//! pointer and registers are.
use framehop_core::aarch64::UnwindRuleAarch64;
use framehop_core::x86_64::{OffsetOrPop, Reg, UnwindRuleX86_64};
use framehop_explain::Described;
use std::test::Fail;

#[test]
fn writes_rules_of_x86_64(rt: HostRuntime) -> Result<(), Fail> {
    let alloc = rt.alloc();
    for (rule, want) in [
        (UnwindRuleX86_64::EndOfStack, "EndOfStack: end of the stack"),
        (
            UnwindRuleX86_64::JustReturn,
            "JustReturn: CFA = rsp + 8; return address at CFA - 8",
        ),
        (
            UnwindRuleX86_64::JustReturnIfFirstFrameOtherwiseFp,
            "JustReturnIfFirstFrameOtherwiseFp: in a first frame CFA = rsp + 8, else CFA = rbp + 16 and rbp at CFA - 16; return address at CFA - 8",
        ),
        (
            UnwindRuleX86_64::OffsetSp {
                sp_offset_by_8: 65535,
            },
            "OffsetSp { sp_offset_by_8: 65535 }: CFA = rsp + 524280; return address at CFA - 8",
        ),
        (
            UnwindRuleX86_64::OffsetSpAndRestoreBp {
                sp_offset_by_8: 3,
                bp_storage_offset_from_sp_by_8: 1,
            },
            "OffsetSpAndRestoreBp { sp_offset_by_8: 3, bp_storage_offset_from_sp_by_8: 1 }: CFA = rsp + 24; rbp at CFA - 16; return address at CFA - 8",
        ),
        (
            UnwindRuleX86_64::OffsetSpAndRestoreBp {
                sp_offset_by_8: 1,
                bp_storage_offset_from_sp_by_8: 32767,
            },
            "OffsetSpAndRestoreBp { sp_offset_by_8: 1, bp_storage_offset_from_sp_by_8: 32767 }: CFA = rsp + 8; rbp at CFA + 262128; return address at CFA - 8",
        ),
        (
            UnwindRuleX86_64::UseFramePointer,
            "UseFramePointer: CFA = rbp + 16; rbp at CFA - 16; return address at CFA - 8",
        ),
        (
            UnwindRuleX86_64::UseFramePointerWithOffsets {
                sp_offset_from_bp_by_8: 4,
                bp_storage_offset_from_bp_by_8: -2,
            },
            "UseFramePointerWithOffsets { sp_offset_from_bp_by_8: 4, bp_storage_offset_from_bp_by_8: -2 }: CFA = rbp + 32; rbp at CFA - 48; return address at CFA - 8",
        ),
    ] {
        let text = format!(in alloc; "{}", Described(rule))?;
        assert_eq!(rt; text.as_str(), want);
    }
    Ok(())
}

#[test]
fn writes_popped_registers(rt: HostRuntime) -> Result<(), Fail> {
    let alloc = rt.alloc();
    for (operations, want) in [
        (
            [
                OffsetOrPop::OffsetBy8(2),
                OffsetOrPop::Pop(Reg::RBX),
                OffsetOrPop::Pop(Reg::R12),
            ],
            "OffsetSpAndPopRegisters { sp_offset_by_8: 2, register_count: 2, encoded_registers_to_pop: 24 }: CFA = rsp + 40; rbx at CFA - 24; r12 at CFA - 16; return address at CFA - 8",
        ),
        (
            [
                OffsetOrPop::Pop(Reg::R15),
                OffsetOrPop::Pop(Reg::RSI),
                OffsetOrPop::Pop(Reg::RBP),
            ],
            "OffsetSpAndPopRegisters { sp_offset_by_8: 0, register_count: 3, encoded_registers_to_pop: 79 }: CFA = rsp + 32; r15 at CFA - 32; rsi at CFA - 24; rbp at CFA - 16; return address at CFA - 8",
        ),
    ] {
        let rule = UnwindRuleX86_64::for_sequence_of_offset_or_pop(operations.into_iter());
        let rule = rule.expect(&rt, "the operations have a rule");
        let text = format!(in alloc; "{}", Described(rule))?;
        assert_eq!(rt; text.as_str(), want);
    }
    Ok(())
}

#[test]
fn writes_rules_of_aarch64(rt: HostRuntime) -> Result<(), Fail> {
    let alloc = rt.alloc();
    for (rule, want) in [
        (
            UnwindRuleAarch64::NoOp,
            "NoOp: CFA = sp; return address in lr",
        ),
        (
            UnwindRuleAarch64::NoOpIfFirstFrameOtherwiseFp,
            "NoOpIfFirstFrameOtherwiseFp: in a first frame CFA = sp and return address in lr, else CFA = fp + 16, fp at CFA - 16 and return address at CFA - 8",
        ),
        (
            UnwindRuleAarch64::OffsetSp { sp_offset_by_16: 3 },
            "OffsetSp { sp_offset_by_16: 3 }: CFA = sp + 48; return address in lr",
        ),
        (
            UnwindRuleAarch64::OffsetSpIfFirstFrameOtherwiseStackEndsHere {
                sp_offset_by_16: 65535,
            },
            "OffsetSpIfFirstFrameOtherwiseStackEndsHere { sp_offset_by_16: 65535 }: in a first frame CFA = sp + 1048560 and return address in lr, else end of the stack",
        ),
        (
            UnwindRuleAarch64::OffsetSpAndRestoreLr {
                sp_offset_by_16: 2,
                lr_storage_offset_from_sp_by_8: 1,
            },
            "OffsetSpAndRestoreLr { sp_offset_by_16: 2, lr_storage_offset_from_sp_by_8: 1 }: CFA = sp + 32; return address at CFA - 24",
        ),
        (
            UnwindRuleAarch64::OffsetSpAndRestoreFpAndLr {
                sp_offset_by_16: 2,
                fp_storage_offset_from_sp_by_8: 2,
                lr_storage_offset_from_sp_by_8: 3,
            },
            "OffsetSpAndRestoreFpAndLr { sp_offset_by_16: 2, fp_storage_offset_from_sp_by_8: 2, lr_storage_offset_from_sp_by_8: 3 }: CFA = sp + 32; fp at CFA - 16; return address at CFA - 8",
        ),
        (
            UnwindRuleAarch64::UseFramePointer,
            "UseFramePointer: CFA = fp + 16; fp at CFA - 16; return address at CFA - 8",
        ),
        (
            UnwindRuleAarch64::UseFramepointerWithOffsets {
                sp_offset_from_fp_by_8: 6,
                fp_storage_offset_from_fp_by_8: -1,
                lr_storage_offset_from_fp_by_8: 7,
            },
            "UseFramepointerWithOffsets { sp_offset_from_fp_by_8: 6, fp_storage_offset_from_fp_by_8: -1, lr_storage_offset_from_fp_by_8: 7 }: CFA = fp + 48; fp at CFA - 56; return address at CFA + 8",
        ),
    ] {
        let text = format!(in alloc; "{}", Described(rule))?;
        assert_eq!(rt; text.as_str(), want);
    }
    Ok(())
}
