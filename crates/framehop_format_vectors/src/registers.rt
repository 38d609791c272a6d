//! Rules over registers at the ends of the address space.
use crate::steps::Failing;
use crate::totals::{Totals, holds, is_consistent};
use framehop::Error;
use framehop::aarch64::{PtrAuthMask, UnwindRegsAarch64, UnwindRuleAarch64};
use framehop::unwind_rule::UnwindRule;
use framehop::x86_64::{Reg, UnwindRegsX86_64, UnwindRuleX86_64};
use std::test::Fail;

/// The values of sp and of the frame pointer.
static VALUES: [u64; 8] = [
    0,
    7,
    8,
    0x7fffffffffffffff,
    0x8000000000000000,
    0xfffffffffffffff0,
    0xfffffffffffffff8,
    0xffffffffffffffff,
];

/// The rules of x86_64.
static RULES_X86_64: [UnwindRuleX86_64; 22] = [
    UnwindRuleX86_64::EndOfStack,
    UnwindRuleX86_64::JustReturn,
    UnwindRuleX86_64::JustReturnIfFirstFrameOtherwiseFp,
    UnwindRuleX86_64::OffsetSp { sp_offset_by_8: 0 },
    UnwindRuleX86_64::OffsetSp { sp_offset_by_8: 1 },
    UnwindRuleX86_64::OffsetSp { sp_offset_by_8: 2 },
    UnwindRuleX86_64::OffsetSp {
        sp_offset_by_8: 0xffff,
    },
    UnwindRuleX86_64::OffsetSpAndRestoreBp {
        sp_offset_by_8: 0,
        bp_storage_offset_from_sp_by_8: -1,
    },
    UnwindRuleX86_64::OffsetSpAndRestoreBp {
        sp_offset_by_8: 1,
        bp_storage_offset_from_sp_by_8: -1,
    },
    UnwindRuleX86_64::OffsetSpAndRestoreBp {
        sp_offset_by_8: 2,
        bp_storage_offset_from_sp_by_8: 0,
    },
    UnwindRuleX86_64::OffsetSpAndRestoreBp {
        sp_offset_by_8: 1,
        bp_storage_offset_from_sp_by_8: 2,
    },
    UnwindRuleX86_64::OffsetSpAndRestoreBp {
        sp_offset_by_8: 0xffff,
        bp_storage_offset_from_sp_by_8: 0x7fff,
    },
    UnwindRuleX86_64::OffsetSpAndRestoreBp {
        sp_offset_by_8: 0,
        bp_storage_offset_from_sp_by_8: -0x8000,
    },
    UnwindRuleX86_64::UseFramePointer,
    UnwindRuleX86_64::UseFramePointerWithOffsets {
        sp_offset_from_bp_by_8: 4,
        bp_storage_offset_from_bp_by_8: 2,
    },
    UnwindRuleX86_64::UseFramePointerWithOffsets {
        sp_offset_from_bp_by_8: 0,
        bp_storage_offset_from_bp_by_8: 0,
    },
    UnwindRuleX86_64::UseFramePointerWithOffsets {
        sp_offset_from_bp_by_8: 0xffff,
        bp_storage_offset_from_bp_by_8: 0x7fff,
    },
    UnwindRuleX86_64::UseFramePointerWithOffsets {
        sp_offset_from_bp_by_8: 1,
        bp_storage_offset_from_bp_by_8: -0x8000,
    },
    UnwindRuleX86_64::OffsetSpAndPopRegisters {
        sp_offset_by_8: 0,
        register_count: 0,
        encoded_registers_to_pop: 0,
    },
    UnwindRuleX86_64::OffsetSpAndPopRegisters {
        sp_offset_by_8: 4,
        register_count: 1,
        encoded_registers_to_pop: 0,
    },
    UnwindRuleX86_64::OffsetSpAndPopRegisters {
        sp_offset_by_8: 0,
        register_count: 2,
        encoded_registers_to_pop: 55,
    },
    UnwindRuleX86_64::OffsetSpAndPopRegisters {
        sp_offset_by_8: 0xffff,
        register_count: 8,
        encoded_registers_to_pop: 40319,
    },
];

/// The rules of aarch64.
static RULES_AARCH64: [UnwindRuleAarch64; 22] = [
    UnwindRuleAarch64::NoOp,
    UnwindRuleAarch64::NoOpIfFirstFrameOtherwiseFp,
    UnwindRuleAarch64::OffsetSp { sp_offset_by_16: 0 },
    UnwindRuleAarch64::OffsetSp { sp_offset_by_16: 1 },
    UnwindRuleAarch64::OffsetSp {
        sp_offset_by_16: 0xffff,
    },
    UnwindRuleAarch64::OffsetSpIfFirstFrameOtherwiseStackEndsHere { sp_offset_by_16: 0 },
    UnwindRuleAarch64::OffsetSpIfFirstFrameOtherwiseStackEndsHere { sp_offset_by_16: 1 },
    UnwindRuleAarch64::OffsetSpIfFirstFrameOtherwiseStackEndsHere {
        sp_offset_by_16: 0xffff,
    },
    UnwindRuleAarch64::OffsetSpAndRestoreLr {
        sp_offset_by_16: 0,
        lr_storage_offset_from_sp_by_8: -1,
    },
    UnwindRuleAarch64::OffsetSpAndRestoreLr {
        sp_offset_by_16: 0,
        lr_storage_offset_from_sp_by_8: 0,
    },
    UnwindRuleAarch64::OffsetSpAndRestoreLr {
        sp_offset_by_16: 1,
        lr_storage_offset_from_sp_by_8: 1,
    },
    UnwindRuleAarch64::OffsetSpAndRestoreLr {
        sp_offset_by_16: 0xffff,
        lr_storage_offset_from_sp_by_8: 0x7fff,
    },
    UnwindRuleAarch64::OffsetSpAndRestoreLr {
        sp_offset_by_16: 1,
        lr_storage_offset_from_sp_by_8: -0x8000,
    },
    UnwindRuleAarch64::OffsetSpAndRestoreFpAndLr {
        sp_offset_by_16: 1,
        fp_storage_offset_from_sp_by_8: 0,
        lr_storage_offset_from_sp_by_8: 1,
    },
    UnwindRuleAarch64::OffsetSpAndRestoreFpAndLr {
        sp_offset_by_16: 0,
        fp_storage_offset_from_sp_by_8: -2,
        lr_storage_offset_from_sp_by_8: -1,
    },
    UnwindRuleAarch64::OffsetSpAndRestoreFpAndLr {
        sp_offset_by_16: 0xffff,
        fp_storage_offset_from_sp_by_8: 0x7fff,
        lr_storage_offset_from_sp_by_8: -0x8000,
    },
    UnwindRuleAarch64::UseFramePointer,
    UnwindRuleAarch64::UseFramepointerWithOffsets {
        sp_offset_from_fp_by_8: 2,
        fp_storage_offset_from_fp_by_8: 0,
        lr_storage_offset_from_fp_by_8: 1,
    },
    UnwindRuleAarch64::UseFramepointerWithOffsets {
        sp_offset_from_fp_by_8: 0,
        fp_storage_offset_from_fp_by_8: 0,
        lr_storage_offset_from_fp_by_8: 0,
    },
    UnwindRuleAarch64::UseFramepointerWithOffsets {
        sp_offset_from_fp_by_8: 4,
        fp_storage_offset_from_fp_by_8: -2,
        lr_storage_offset_from_fp_by_8: -1,
    },
    UnwindRuleAarch64::UseFramepointerWithOffsets {
        sp_offset_from_fp_by_8: 0xffff,
        fp_storage_offset_from_fp_by_8: 0x7fff,
        lr_storage_offset_from_fp_by_8: 0x7ffe,
    },
    UnwindRuleAarch64::UseFramepointerWithOffsets {
        sp_offset_from_fp_by_8: 1,
        fp_storage_offset_from_fp_by_8: -0x8000,
        lr_storage_offset_from_fp_by_8: 0,
    },
];

/// Which reads of a rule fail.
static FAILING: [Failing; 5] = [
    Failing::None,
    Failing::All,
    Failing::Only(1),
    Failing::Only(2),
    Failing::Only(3),
];

/// Runs a rule over a stack whose word at each address is 0x30 more than that: what it gives, and the registers after
/// it. Each rule here may be run.
fn exec<U: UnwindRule>(
    rule: U,
    is_first_frame: bool,
    mut regs: U::UnwindRegs,
    failing: Failing,
) -> Option<(Result<Option<u64>, Error>, U::UnwindRegs)> {
    if !rule.executable() {
        return None;
    }
    let mut number = 0u32;
    let mut read = |address: u64| -> Result<u64, ()> {
        number = number.saturating_add(1);
        if failing.fails(number) {
            return Err(());
        }
        Ok(address.wrapping_add(0x30))
    };
    let result = rule.exec(is_first_frame, &mut regs, &mut read);
    Some((result, regs))
}

/// Runs a rule, adds what it gives, and says whether that fits the registers.
fn add_run_x86_64(
    totals: &mut Totals,
    rule: UnwindRuleX86_64,
    is_first_frame: bool,
    regs: UnwindRegsX86_64,
    failing: Failing,
) -> bool {
    let Some((end, after)) = exec(rule, is_first_frame, regs, failing) else {
        return false;
    };
    totals.add_end(end);
    totals.add_regs(&after);
    is_consistent(end, &regs, &after)
}

/// A rule over all values of sp and bp, in both kinds of frame.
fn add_rule_x86_64(totals: &mut Totals, rule: UnwindRuleX86_64, failing: Failing) -> bool {
    let mut is_right = true;
    for is_first_frame in [true, false] {
        for sp in &VALUES {
            for bp in &VALUES {
                let regs = UnwindRegsX86_64::new(0x1000, *sp, *bp);
                is_right &= add_run_x86_64(totals, rule, is_first_frame, regs, failing);
            }
        }
    }
    is_right
}

/// Runs a rule, adds what it gives, and says whether it keeps the registers where it has no return address.
fn add_run_aarch64(
    totals: &mut Totals,
    rule: UnwindRuleAarch64,
    is_first_frame: bool,
    regs: UnwindRegsAarch64,
    failing: Failing,
) -> bool {
    let Some((end, after)) = exec(rule, is_first_frame, regs, failing) else {
        return false;
    };
    totals.add_end(end);
    totals.add_words([after.lr(), after.sp(), after.fp()]);
    matches!(end, Ok(Some(_))) || after == regs
}

/// A rule over all values of sp and fp, in both kinds of frame, with an lr of 40 bits.
fn add_rule_aarch64(totals: &mut Totals, rule: UnwindRuleAarch64, failing: Failing) -> bool {
    let mask = PtrAuthMask::new_24_40();
    let mut is_right = true;
    for is_first_frame in [true, false] {
        for sp in &VALUES {
            for fp in &VALUES {
                let regs = UnwindRegsAarch64::new_with_ptr_auth_mask(mask, 0x1234, *sp, *fp);
                is_right &= add_run_aarch64(totals, rule, is_first_frame, regs, failing);
            }
        }
    }
    is_right
}

/// All rules where these reads fail.
fn add_rules(x86_64: &mut Totals, aarch64: &mut Totals, failing: Failing) -> bool {
    let mut is_right = true;
    for rule in &RULES_X86_64 {
        is_right &= add_rule_x86_64(x86_64, *rule, failing);
    }
    for rule in &RULES_AARCH64 {
        is_right &= add_rule_aarch64(aarch64, *rule, failing);
    }
    is_right
}

#[test]
fn rules_over_extreme_registers(rt: HostRuntime) {
    let mut x86_64 = Totals::new();
    let mut aarch64 = Totals::new();
    for failing in &FAILING {
        assert!(rt; add_rules(&mut x86_64, &mut aarch64, *failing));
    }
    assert_eq!(rt; x86_64.ends(), ([3578, 1040, 9462], 0x7dcd038436109646));
    assert_eq!(rt; aarch64.ends(), ([3642, 960, 9478], 0xbc6ab213c7b0e375));
}

/// Addresses that would not fit, and a first read that fails: all registers stay.
#[test]
fn refusals_keep_the_registers() -> Result<(), Fail> {
    let regs = UnwindRegsAarch64::new(0x1234, 0, 0xfffffffffffffff0);
    let refused = Some((Err(Error::IntegerOverflow), regs));
    for rule in [
        UnwindRuleAarch64::UseFramePointer,
        UnwindRuleAarch64::OffsetSpAndRestoreLr {
            sp_offset_by_16: 0,
            lr_storage_offset_from_sp_by_8: -1,
        },
    ] {
        let found = exec(rule, true, regs, Failing::None);
        holds(found == refused, "an address that would not fit is refused")?;
    }
    let rule = UnwindRuleX86_64::OffsetSpAndRestoreBp {
        sp_offset_by_8: 0,
        bp_storage_offset_from_sp_by_8: -1,
    };
    let regs = UnwindRegsX86_64::new(0x1000, 0, 0x200);
    let found = exec(rule, true, regs, Failing::None);
    let overflows = found == Some((Err(Error::IntegerOverflow), regs));
    let rule = UnwindRuleX86_64::OffsetSpAndPopRegisters {
        sp_offset_by_8: 4,
        register_count: 1,
        encoded_registers_to_pop: 0,
    };
    let mut regs = UnwindRegsX86_64::new(0x1000, 0x100, 0x200);
    regs.set(Reg::RBX, 0x99);
    let found = exec(rule, true, regs, Failing::Only(1));
    let is_refused = found == Some((Err(Error::CouldNotReadStack(0x120)), regs));
    holds(overflows && is_refused, "refusals on x86_64")
}
