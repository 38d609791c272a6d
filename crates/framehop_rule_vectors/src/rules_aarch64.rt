//! Worked examples of the rules of aarch64.
ghost use Rattle.std.specs.Prelude.{◌≡◌};
ghost use Rattle.framehop_core.specs.Memory.{memory_of_words, reply};
ghost use Rattle.framehop_core.specs.Outcome.{answer_of, registers_after};
ghost use Rattle.framehop_core.specs.Aarch64.Rules.{outcome};

use arrayvec::ArrayVec;
use framehop_core::aarch64::unwindregs::UnwindRegsAarch64;
use framehop_core::aarch64::{UnwindRuleAarch64, run_rules};
use framehop_core::error::Error;
use framehop_core::unwind_rule::{RunEnd, UnwindRule};

const STACK: [u64; 16] = [
    1, 2, 3, 4, 0x40, 0x100200, 5, 6, 0x70, 0x100100, 7, 8, 9, 10, 0, 0,
];

/// Runs a rule over the words of a stack that begins at address 0.
fn exec_over_words(
    rule: UnwindRuleAarch64,
    is_first_frame: bool,
    regs: &mut UnwindRegsAarch64,
    stack: &[u64],
) -> Result<Option<u64>, Error>
    ensures answer { result ≡ answer_of (outcome rule is_first_frame regs.old (memory_of_words stack.now)) }
    ensures registers { regs.new ≡ registers_after regs.old (outcome rule is_first_frame regs.old (memory_of_words stack.now)) }
{
    let mut read_stack = |address: u64| -> Result<u64, ()>
        ensures { result ≡ reply (memory_of_words stack.entry.now address) }
    { stack.get((address / 8) as usize).copied().ok_or(()) };
    rule.exec(is_first_frame, regs, &mut read_stack)
}

/// lr, sp and fp.
type Registers = (u64, u64, u64);

/// A rule, whether the frame is the first, and its registers; then what running the rule over the stack returns, and the
/// registers after it.
type Run = (
    UnwindRuleAarch64,
    bool,
    Registers,
    Result<Option<u64>, Error>,
    Registers,
);

const USE_FP: UnwindRuleAarch64 = UnwindRuleAarch64::UseFramePointer;

const SP_1: UnwindRuleAarch64 = UnwindRuleAarch64::OffsetSp { sp_offset_by_16: 1 };

const LR_BELOW: UnwindRuleAarch64 = UnwindRuleAarch64::OffsetSpAndRestoreLr {
    sp_offset_by_16: 0,
    lr_storage_offset_from_sp_by_8: -1,
};

const RESTORE_LR: UnwindRuleAarch64 = UnwindRuleAarch64::OffsetSpAndRestoreLr {
    sp_offset_by_16: 2,
    lr_storage_offset_from_sp_by_8: 3,
};

const RESTORE_BOTH: UnwindRuleAarch64 = UnwindRuleAarch64::OffsetSpAndRestoreFpAndLr {
    sp_offset_by_16: 4,
    fp_storage_offset_from_sp_by_8: 1,
    lr_storage_offset_from_sp_by_8: 2,
};

const FROM_FP: UnwindRuleAarch64 = UnwindRuleAarch64::UseFramepointerWithOffsets {
    sp_offset_from_fp_by_8: 4,
    fp_storage_offset_from_fp_by_8: 1,
    lr_storage_offset_from_fp_by_8: 3,
};

const OR_FP: UnwindRuleAarch64 = UnwindRuleAarch64::NoOpIfFirstFrameOtherwiseFp;

const STACK_END: UnwindRuleAarch64 = UnwindRuleAarch64::OffsetSpIfFirstFrameOtherwiseStackEndsHere {
    sp_offset_by_16: 1,
};

const RUNS: [Run; 21] = [
    // a walk
    (
        UnwindRuleAarch64::NoOp,
        true,
        (0x100300, 0x10, 0x20),
        Ok(Some(0x100300)),
        (0x100300, 0x10, 0x20),
    ),
    (
        USE_FP,
        false,
        (0x100300, 0x10, 0x20),
        Ok(Some(0x100200)),
        (0x100200, 0x30, 0x40),
    ),
    (
        USE_FP,
        false,
        (0x100200, 0x30, 0x40),
        Ok(Some(0x100100)),
        (0x100100, 0x50, 0x70),
    ),
    (
        USE_FP,
        false,
        (0x100100, 0x50, 0x70),
        Ok(None),
        (0x100100, 0x50, 0x70),
    ),
    // each caller
    (
        UnwindRuleAarch64::NoOp,
        true,
        (0x100300, 0x10, 0x20),
        Ok(Some(0x100300)),
        (0x100300, 0x10, 0x20),
    ),
    (
        UnwindRuleAarch64::NoOpIfFirstFrameOtherwiseFp,
        true,
        (0x100300, 0x10, 0x20),
        Ok(Some(0x100300)),
        (0x100300, 0x10, 0x20),
    ),
    (
        UnwindRuleAarch64::NoOpIfFirstFrameOtherwiseFp,
        false,
        (0x100300, 0x10, 0x20),
        Ok(Some(0x100200)),
        (0x100200, 0x30, 0x40),
    ),
    (
        UnwindRuleAarch64::OffsetSp { sp_offset_by_16: 5 },
        true,
        (0x100300, 0x10, 0x20),
        Ok(Some(0x100300)),
        (0x100300, 0x60, 0x20),
    ),
    (
        UnwindRuleAarch64::OffsetSpIfFirstFrameOtherwiseStackEndsHere { sp_offset_by_16: 2 },
        true,
        (0x100300, 0x10, 0x20),
        Ok(Some(0x100300)),
        (0x100300, 0x30, 0x20),
    ),
    (
        UnwindRuleAarch64::OffsetSpAndRestoreLr {
            sp_offset_by_16: 2,
            lr_storage_offset_from_sp_by_8: 3,
        },
        false,
        (0x100300, 0x10, 0x20),
        Ok(Some(0x100200)),
        (0x100200, 0x30, 0x20),
    ),
    (
        UnwindRuleAarch64::OffsetSpAndRestoreFpAndLr {
            sp_offset_by_16: 2,
            fp_storage_offset_from_sp_by_8: 2,
            lr_storage_offset_from_sp_by_8: 3,
        },
        false,
        (0x100300, 0x10, 0x20),
        Ok(Some(0x100200)),
        (0x100200, 0x30, 0x40),
    ),
    (
        USE_FP,
        true,
        (0x100300, 0x10, 0x20),
        Ok(Some(0x100200)),
        (0x100200, 0x30, 0x40),
    ),
    (
        UnwindRuleAarch64::UseFramepointerWithOffsets {
            sp_offset_from_fp_by_8: 4,
            fp_storage_offset_from_fp_by_8: 4,
            lr_storage_offset_from_fp_by_8: 5,
        },
        false,
        (0x100300, 0x10, 0x20),
        Ok(Some(0x100100)),
        (0x100100, 0x40, 0x70),
    ),
    // refused, or the root, with the registers kept
    (
        UnwindRuleAarch64::NoOp,
        false,
        (0x100300, 0x10, 0x20),
        Err(Error::DidNotAdvance),
        (0x100300, 0x10, 0x20),
    ),
    (
        SP_1,
        false,
        (0x100300, 0x10, 0x20),
        Err(Error::DidNotAdvance),
        (0x100300, 0x10, 0x20),
    ),
    (
        SP_1,
        true,
        (0x100300, u64::MAX - 15, 0x20),
        Err(Error::IntegerOverflow),
        (0x100300, u64::MAX - 15, 0x20),
    ),
    (
        STACK_END,
        false,
        (0x100300, 0x10, 0x20),
        Ok(None),
        (0x100300, 0x10, 0x20),
    ),
    (
        LR_BELOW,
        true,
        (0x100300, 0, 0x20),
        Err(Error::IntegerOverflow),
        (0x100300, 0, 0x20),
    ),
    (
        USE_FP,
        true,
        (0x100300, 0x10, u64::MAX - 15),
        Err(Error::IntegerOverflow),
        (0x100300, 0x10, u64::MAX - 15),
    ),
    (
        USE_FP,
        true,
        (0x100300, 0x10, 0x78),
        Err(Error::CouldNotReadStack(0x80)),
        (0x100300, 0x10, 0x78),
    ),
    (
        USE_FP,
        true,
        (0x100300, 0x40, 0x20),
        Err(Error::FramepointerUnwindingMovedBackwards),
        (0x100300, 0x40, 0x20),
    ),
];

/// Whether a rule returns what it is to, and leaves the registers that it is to.
fn is_right(run: &Run) -> bool {
    let (rule, is_first_frame, (lr, sp, fp), want, after) = *run;
    let mut regs = UnwindRegsAarch64::new(lr, sp, fp);
    let answer = exec_over_words(rule, is_first_frame, &mut regs, &STACK);
    answer == want && regs == UnwindRegsAarch64::new(after.0, after.1, after.2)
}

#[test]
fn finds_each_caller_or_refuses(rt: HostRuntime) {
    for (number, run) in RUNS.iter().enumerate() {
        assert!(rt; is_right(run), "{number}");
    }
}

#[test]
fn runs_rules_to_the_root(rt: HostRuntime) {
    let rules = [
        UnwindRuleAarch64::NoOp,
        UnwindRuleAarch64::UseFramePointer,
        UnwindRuleAarch64::UseFramePointer,
        UnwindRuleAarch64::UseFramePointer,
    ];
    let mut regs = UnwindRegsAarch64::new(0x100300, 0x10, 0x20);
    let mut read_stack = |address: u64| -> Result<u64, ()> {
        STACK.get((address / 8) as usize).copied().ok_or(())
    };
    let run = run_rules(&rules, &mut regs, &mut read_stack);
    let mut other = UnwindRegsAarch64::new(0x100300, 0x10, 0x20);
    let other_run = run_rules(&rules[..2], &mut other, &mut read_stack);
    assert!(rt; (run, other_run) == ((3, RunEnd::Root), (2, RunEnd::All)));
    assert!(rt; regs == UnwindRegsAarch64::new(0x100100, 0x50, 0x70));
    assert!(rt; other == UnwindRegsAarch64::new(0x100200, 0x30, 0x40));
}

#[test]
fn has_rules_without_unwind_data(rt: HostRuntime) {
    let found = (
        UnwindRuleAarch64::rule_for_stub_functions(),
        UnwindRuleAarch64::rule_for_function_start(),
        UnwindRuleAarch64::fallback_rule(),
    );
    assert!(rt; found == (UnwindRuleAarch64::NoOp, UnwindRuleAarch64::NoOp, USE_FP));
    assert!(rt; found.0.executable() && found.2.executable());
}

/// A rule, whether the frame is the first, the addresses of the words read, and the caller's lr and fp.
const READS: [(UnwindRuleAarch64, bool, &[u64], u64, u64); 10] = [
    (UnwindRuleAarch64::NoOp, true, &[], 0x5000, 0x2000),
    (OR_FP, true, &[], 0x5000, 0x2000),
    (
        OR_FP,
        false,
        &[0x2008, 0x2000],
        0x1_0000_2008,
        0x2_0000_2000,
    ),
    (
        UnwindRuleAarch64::OffsetSp { sp_offset_by_16: 1 },
        true,
        &[],
        0x5000,
        0x2000,
    ),
    (STACK_END, true, &[], 0x5000, 0x2000),
    (STACK_END, false, &[], 0x5000, 0x2000),
    (RESTORE_LR, false, &[0x1018], 0x1_0000_1018, 0x2000),
    (
        RESTORE_BOTH,
        false,
        &[0x1010, 0x1008],
        0x1_0000_1010,
        0x2_0000_1008,
    ),
    (
        UnwindRuleAarch64::UseFramePointer,
        false,
        &[0x2008, 0x2000],
        0x1_0000_2008,
        0x2_0000_2000,
    ),
    (
        FROM_FP,
        false,
        &[0x2018, 0x2008],
        0x1_0000_2018,
        0x2_0000_2008,
    ),
];

/// Runs a rule over a callback whose replies tell the calls apart: the call of number `n`, from 1
/// on, at an address gives `n << 32` more than the address. Returns the addresses that it was
/// asked for, in order.
fn addresses_read(
    rule: UnwindRuleAarch64,
    is_first_frame: bool,
    regs: &mut UnwindRegsAarch64,
) -> ArrayVec<u64, 8> {
    let mut asked = ArrayVec::new();
    let mut calls = 0u64;
    let mut read_stack = |address: u64| -> Result<u64, ()> {
        calls = calls.wrapping_add(1);
        if asked.try_push(address).is_err() {
            return Err(());
        }
        Ok(address.wrapping_add(calls.wrapping_mul(0x1_0000_0000)))
    };
    let _caller = rule.exec(is_first_frame, regs, &mut read_stack);
    asked
}

/// Each word of a rule is read once, in the order of the table, and its reply is what is used.
#[test]
fn reads_each_word_once(rt: HostRuntime) {
    for (rule, is_first_frame, want, lr, fp) in &READS {
        let mut regs = UnwindRegsAarch64::new(0x5000, 0x1000, 0x2000);
        let asked = addresses_read(*rule, *is_first_frame, &mut regs);
        assert!(rt; asked.as_slice() == *want, "{rule:?}");
        assert!(rt; regs.lr() == *lr && regs.fp() == *fp, "{rule:?}");
    }
}
