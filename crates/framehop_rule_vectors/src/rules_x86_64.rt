//! Worked examples of the rules of x86_64.
use arrayvec::ArrayVec;
use framehop_core::error::Error;
use framehop_core::unwind_rule::{RunEnd, UnwindRule};
use framehop_core::x86_64::unwindregs::{Reg, UnwindRegsX86_64};
use framehop_core::x86_64::{OffsetOrPop, UnwindRuleX86_64, run_rules};

const STACK: [u64; 16] = [
    1, 2, 0x100300, 4, 0x40, 0x100200, 5, 6, 0x70, 0x100100, 7, 8, 9, 10, 0, 0,
];

/// ip, sp and bp.
type Registers = (u64, u64, u64);

/// A rule, whether the frame is the first, its registers, where the stack begins and its words; then what running the
/// rule returns, the registers after it, and rbx, which is 0 before it.
type Run = (
    UnwindRuleX86_64,
    bool,
    Registers,
    u64,
    &'static [u64],
    Result<Option<u64>, Error>,
    Registers,
    u64,
);

const RETURN: UnwindRuleX86_64 = UnwindRuleX86_64::JustReturn;

const OR_FP: UnwindRuleX86_64 = UnwindRuleX86_64::JustReturnIfFirstFrameOtherwiseFp;

const USE_FP: UnwindRuleX86_64 = UnwindRuleX86_64::UseFramePointer;

const FROM_BP_1_1: UnwindRuleX86_64 = UnwindRuleX86_64::UseFramePointerWithOffsets {
    sp_offset_from_bp_by_8: 1,
    bp_storage_offset_from_bp_by_8: 1,
};

const FROM_BP_4_2: UnwindRuleX86_64 = UnwindRuleX86_64::UseFramePointerWithOffsets {
    sp_offset_from_bp_by_8: 4,
    bp_storage_offset_from_bp_by_8: 2,
};

const FROM_BP_4_8: UnwindRuleX86_64 = UnwindRuleX86_64::UseFramePointerWithOffsets {
    sp_offset_from_bp_by_8: 4,
    bp_storage_offset_from_bp_by_8: 8,
};

const FROM_BP_4_MINUS_5: UnwindRuleX86_64 = UnwindRuleX86_64::UseFramePointerWithOffsets {
    sp_offset_from_bp_by_8: 4,
    bp_storage_offset_from_bp_by_8: -5,
};

const SP_0: UnwindRuleX86_64 = UnwindRuleX86_64::OffsetSp { sp_offset_by_8: 0 };

const SP_1: UnwindRuleX86_64 = UnwindRuleX86_64::OffsetSp { sp_offset_by_8: 1 };

const SP_3: UnwindRuleX86_64 = UnwindRuleX86_64::OffsetSp { sp_offset_by_8: 3 };

const SP_BP_0_MINUS_1: UnwindRuleX86_64 = UnwindRuleX86_64::OffsetSpAndRestoreBp {
    sp_offset_by_8: 0,
    bp_storage_offset_from_sp_by_8: -1,
};

const SP_BP_1_2: UnwindRuleX86_64 = UnwindRuleX86_64::OffsetSpAndRestoreBp {
    sp_offset_by_8: 1,
    bp_storage_offset_from_sp_by_8: 2,
};

const SP_BP_1_MINUS_1: UnwindRuleX86_64 = UnwindRuleX86_64::OffsetSpAndRestoreBp {
    sp_offset_by_8: 1,
    bp_storage_offset_from_sp_by_8: -1,
};

const SP_BP_3_1: UnwindRuleX86_64 = UnwindRuleX86_64::OffsetSpAndRestoreBp {
    sp_offset_by_8: 3,
    bp_storage_offset_from_sp_by_8: 1,
};

const SP_BP_4_2: UnwindRuleX86_64 = UnwindRuleX86_64::OffsetSpAndRestoreBp {
    sp_offset_by_8: 4,
    bp_storage_offset_from_sp_by_8: 2,
};

/// An offset, and a pop of rbx.
const POP_RBX: UnwindRuleX86_64 = UnwindRuleX86_64::OffsetSpAndPopRegisters {
    sp_offset_by_8: 4,
    register_count: 1,
    encoded_registers_to_pop: 0,
};

/// The highest stack pointer from which a word does not fit.
const HIGH: u64 = u64::MAX - 7;

/// In the place of what running returns, for a rule that can't be run.
const NOT_EXECUTABLE: Result<Option<u64>, Error> = Err(Error::OutOfMemory);

const LAST_LIST: UnwindRuleX86_64 = UnwindRuleX86_64::OffsetSpAndPopRegisters {
    sp_offset_by_8: 0,
    register_count: 8,
    encoded_registers_to_pop: 40319,
};

const NO_LIST: UnwindRuleX86_64 = UnwindRuleX86_64::OffsetSpAndPopRegisters {
    sp_offset_by_8: 0,
    register_count: 8,
    encoded_registers_to_pop: 40320,
};

const NINE: UnwindRuleX86_64 = UnwindRuleX86_64::OffsetSpAndPopRegisters {
    sp_offset_by_8: 0,
    register_count: 9,
    encoded_registers_to_pop: 0,
};

const RUNS: [Run; 31] = [
    // a walk
    (
        SP_1,
        true,
        (0x100400, 0x10, 0x20),
        0,
        &STACK,
        Ok(Some(0x100300)),
        (0x100300, 0x18, 0x20),
        0,
    ),
    (
        USE_FP,
        true,
        (0x100300, 0x18, 0x20),
        0,
        &STACK,
        Ok(Some(0x100200)),
        (0x100200, 0x30, 0x40),
        0,
    ),
    (
        USE_FP,
        false,
        (0x100200, 0x30, 0x40),
        0,
        &STACK,
        Ok(Some(0x100100)),
        (0x100100, 0x50, 0x70),
        0,
    ),
    (
        USE_FP,
        false,
        (0x100100, 0x50, 0x70),
        0,
        &STACK,
        Ok(None),
        (0x100100, 0x50, 0x70),
        0,
    ),
    // each caller
    (
        RETURN,
        false,
        (0x100400, 0x10, 0x20),
        0,
        &STACK,
        Ok(Some(0x100300)),
        (0x100300, 0x18, 0x20),
        0,
    ),
    (
        OR_FP,
        true,
        (0x100400, 0x10, 0x20),
        0,
        &STACK,
        Ok(Some(0x100300)),
        (0x100300, 0x18, 0x20),
        0,
    ),
    (
        OR_FP,
        false,
        (0x100400, 0x10, 0x20),
        0,
        &STACK,
        Ok(Some(0x100200)),
        (0x100200, 0x30, 0x40),
        0,
    ),
    (
        SP_BP_4_2,
        false,
        (0x100400, 0x10, 0x20),
        0,
        &STACK,
        Ok(Some(0x100200)),
        (0x100200, 0x30, 0x40),
        0,
    ),
    (
        UnwindRuleX86_64::EndOfStack,
        true,
        (0x100400, 0x10, 0x20),
        0,
        &STACK,
        Ok(None),
        (0x100400, 0x10, 0x20),
        0,
    ),
    // refused, with the registers kept
    (
        RETURN,
        true,
        (0x100400, HIGH, u64::MAX),
        0,
        &STACK,
        Err(Error::IntegerOverflow),
        (0x100400, HIGH, u64::MAX),
        0,
    ),
    (
        SP_1,
        true,
        (0x100400, HIGH, u64::MAX),
        0,
        &STACK,
        Err(Error::IntegerOverflow),
        (0x100400, HIGH, u64::MAX),
        0,
    ),
    (
        SP_BP_1_2,
        true,
        (0x100400, HIGH, u64::MAX),
        0,
        &STACK,
        Err(Error::IntegerOverflow),
        (0x100400, HIGH, u64::MAX),
        0,
    ),
    (
        USE_FP,
        true,
        (0x100400, HIGH, u64::MAX),
        0,
        &STACK,
        Err(Error::IntegerOverflow),
        (0x100400, HIGH, u64::MAX),
        0,
    ),
    (
        SP_0,
        true,
        (0x100400, 0, 0),
        0,
        &STACK,
        Err(Error::IntegerOverflow),
        (0x100400, 0, 0),
        0,
    ),
    (
        SP_BP_0_MINUS_1,
        true,
        (0x100400, 0, 0),
        0,
        &STACK,
        Err(Error::IntegerOverflow),
        (0x100400, 0, 0),
        0,
    ),
    (
        USE_FP,
        true,
        (0x100400, 0x40, 0x20),
        0,
        &STACK,
        Err(Error::FramepointerUnwindingMovedBackwards),
        (0x100400, 0x40, 0x20),
        0,
    ),
    (
        USE_FP,
        true,
        (0x100400, 0x40, 0x80),
        0,
        &STACK,
        Err(Error::CouldNotReadStack(0x80)),
        (0x100400, 0x40, 0x80),
        0,
    ),
    // the same in this order: the sum, the stack pointer, the second sum, the word
    (
        FROM_BP_1_1,
        true,
        (0x100400, 0, HIGH),
        0,
        &STACK,
        Err(Error::IntegerOverflow),
        (0x100400, 0, HIGH),
        0,
    ),
    (
        FROM_BP_4_MINUS_5,
        true,
        (0x100400, 0x40, 0x20),
        0,
        &STACK,
        Err(Error::FramepointerUnwindingMovedBackwards),
        (0x100400, 0x40, 0x20),
        0,
    ),
    (
        FROM_BP_4_MINUS_5,
        true,
        (0x100400, 0x20, 0x20),
        0,
        &STACK,
        Err(Error::IntegerOverflow),
        (0x100400, 0x20, 0x20),
        0,
    ),
    (
        FROM_BP_4_8,
        true,
        (0x100400, 0x40, 0x40),
        0,
        &STACK,
        Err(Error::CouldNotReadStack(0x80)),
        (0x100400, 0x40, 0x40),
        0,
    ),
    // a word below the stack pointer that can't be read: a first frame keeps its bp
    (
        SP_BP_1_MINUS_1,
        true,
        (0x1000, 0x20, 0x90),
        0x20,
        &[0x2000],
        Ok(Some(0x2000)),
        (0x2000, 0x28, 0x90),
        0,
    ),
    (
        SP_BP_1_MINUS_1,
        false,
        (0x1000, 0x20, 0x90),
        0x20,
        &[0x2000],
        Err(Error::CouldNotReadStack(0x18)),
        (0x1000, 0x20, 0x90),
        0,
    ),
    // the same frame would come again
    (
        SP_0,
        true,
        (0x1000, 0x20, 0),
        0x18,
        &[0x2000],
        Ok(Some(0x2000)),
        (0x2000, 0x20, 0),
        0,
    ),
    (
        SP_0,
        true,
        (0x2000, 0x20, 0),
        0x18,
        &[0x2000],
        Err(Error::DidNotAdvance),
        (0x2000, 0x20, 0),
        0,
    ),
    // registers that are popped
    (
        POP_RBX,
        false,
        (0x1007, 0x100, 0),
        0x120,
        &[0x77, 0x5000],
        Ok(Some(0x5000)),
        (0x5000, 0x130, 0),
        0x77,
    ),
    (
        POP_RBX,
        false,
        (0x1007, 0x100, 0),
        0x120,
        &[],
        Err(Error::CouldNotReadStack(0x120)),
        (0x1007, 0x100, 0),
        0,
    ),
    (
        POP_RBX,
        false,
        (0x1007, 0x100, 0),
        0x120,
        &[0x77],
        Err(Error::CouldNotReadStack(0x128)),
        (0x1007, 0x100, 0),
        0,
    ),
    // the last list of eight registers, and numbers of no list
    (
        LAST_LIST,
        true,
        (1, 0x100, 2),
        0,
        &[],
        Err(Error::CouldNotReadStack(0x100)),
        (1, 0x100, 2),
        0,
    ),
    (
        NO_LIST,
        true,
        (1, 0x100, 2),
        0,
        &[],
        NOT_EXECUTABLE,
        (1, 0x100, 2),
        0,
    ),
    (
        NINE,
        true,
        (1, 0x100, 2),
        0,
        &[],
        NOT_EXECUTABLE,
        (1, 0x100, 2),
        0,
    ),
];

/// Whether a rule returns what it is to, and leaves the registers that it is to.
fn is_right(run: &Run) -> bool {
    let (rule, is_first_frame, (ip, sp, bp), base, words, want, after, rbx) = *run;
    let mut regs = UnwindRegsX86_64::new(ip, sp, bp);
    let mut read_stack = |address: u64| -> Result<u64, ()> {
        let offset = address.checked_sub(base).ok_or(())?;
        words.get((offset / 8) as usize).copied().ok_or(())
    };
    let answer = if rule.executable() {
        rule.exec(is_first_frame, &mut regs, &mut read_stack)
    } else {
        NOT_EXECUTABLE
    };
    let mut wanted = UnwindRegsX86_64::new(after.0, after.1, after.2);
    wanted.set(Reg::RBX, rbx);
    answer == want && regs == wanted
}

#[test]
fn finds_each_caller_or_refuses(rt: HostRuntime) {
    for (number, run) in RUNS.iter().enumerate() {
        assert!(rt; is_right(run), "{number}");
    }
}

/// A rule of an offset and of the pop of so many registers.
const OFFSET_3: UnwindRuleX86_64 = UnwindRuleX86_64::OffsetSpAndPopRegisters {
    sp_offset_by_8: 3,
    register_count: 0,
    encoded_registers_to_pop: 0,
};

const RBX: OffsetOrPop = OffsetOrPop::Pop(Reg::RBX);

const OPERATIONS: [(&[OffsetOrPop], Option<UnwindRuleX86_64>); 7] = [
    (&[], Some(RETURN)),
    (&[OffsetOrPop::OffsetBy8(0)], Some(RETURN)),
    (&[OffsetOrPop::OffsetBy8(3)], Some(OFFSET_3)),
    (&[OffsetOrPop::OffsetBy8(4), RBX], Some(POP_RBX)),
    (&[RBX, OffsetOrPop::OffsetBy8(4)], None),
    (&[OffsetOrPop::None], None),
    (&[OffsetOrPop::Pop(Reg::RAX)], None),
];

#[test]
fn makes_rules_of_operations(rt: HostRuntime) {
    for (operations, want) in &OPERATIONS {
        let rule = UnwindRuleX86_64::for_sequence_of_offset_or_pop(operations.iter().copied());
        assert!(rt; rule == *want);
    }
}

#[test]
fn runs_rules_up_to_a_refusal(rt: HostRuntime) {
    let rules = [UnwindRuleX86_64::OffsetSp { sp_offset_by_8: 0 }; 2];
    let mut regs = UnwindRegsX86_64::new(0x1000, 0x20, 0);
    let mut read_stack = |address: u64| -> Result<u64, ()> {
        if address == 0x18 { Ok(0x2000) } else { Err(()) }
    };
    let run = run_rules(&rules, &mut regs, &mut read_stack);
    assert!(rt; run == (1, RunEnd::Refused(Error::DidNotAdvance)));
    assert!(rt; regs == UnwindRegsX86_64::new(0x2000, 0x20, 0));
}

#[test]
fn has_rules_without_unwind_data(rt: HostRuntime) {
    let found = (
        UnwindRuleX86_64::rule_for_stub_functions(),
        UnwindRuleX86_64::rule_for_function_start(),
        UnwindRuleX86_64::fallback_rule(),
    );
    assert!(rt; found == (RETURN, RETURN, USE_FP));
    assert!(rt; found.0.executable() && found.2.executable());
}

/// rbx, then rbp.
const POPS: UnwindRuleX86_64 = UnwindRuleX86_64::OffsetSpAndPopRegisters {
    sp_offset_by_8: 2,
    register_count: 2,
    encoded_registers_to_pop: 0,
};

/// A rule, whether the frame is the first, the addresses of the words read, and the caller's ip and bp.
const READS: [(UnwindRuleX86_64, bool, &[u64], u64, u64); 9] = [
    (UnwindRuleX86_64::EndOfStack, true, &[], 0x5000, 0x2000),
    (RETURN, false, &[0x1000], 0x1_0000_1000, 0x2000),
    (OR_FP, true, &[0x1000], 0x1_0000_1000, 0x2000),
    (
        OR_FP,
        false,
        &[0x2000, 0x2008],
        0x2_0000_2008,
        0x1_0000_2000,
    ),
    (SP_3, false, &[0x1010], 0x1_0000_1010, 0x2000),
    (
        SP_BP_3_1,
        false,
        &[0x1008, 0x1010],
        0x2_0000_1010,
        0x1_0000_1008,
    ),
    (
        USE_FP,
        true,
        &[0x2000, 0x2008],
        0x2_0000_2008,
        0x1_0000_2000,
    ),
    (
        FROM_BP_4_2,
        true,
        &[0x2010, 0x2018],
        0x2_0000_2018,
        0x1_0000_2010,
    ),
    (
        POPS,
        false,
        &[0x1010, 0x1018, 0x1020],
        0x3_0000_1020,
        0x2_0000_1018,
    ),
];

/// Runs a rule over a callback whose replies tell the calls apart: the call of number `n`, from 1
/// on, at an address gives `n << 32` more than the address. Returns the addresses that it was
/// asked for, in order.
fn addresses_read(
    rule: UnwindRuleX86_64,
    is_first_frame: bool,
    regs: &mut UnwindRegsX86_64,
) -> ArrayVec<u64, 8> {
    let mut asked = ArrayVec::new();
    let mut calls = 0u64;
    let mut read_stack = |address: u64| -> Result<u64, ()> {
        calls = calls.wrapping_add(1);
        if asked.try_push(address).is_err() {
            return Err(());
        }
        Ok(address.wrapping_add(calls.wrapping_mul(0x1_0000_0000)))
    };
    if rule.executable() {
        let _caller = rule.exec(is_first_frame, regs, &mut read_stack);
    }
    asked
}

/// Each word of a rule is read once, in the order of the table, and its reply is what is used.
#[test]
fn reads_each_word_once(rt: HostRuntime) {
    for (rule, is_first_frame, want, ip, bp) in &READS {
        let mut regs = UnwindRegsX86_64::new(0x5000, 0x1000, 0x2000);
        let asked = addresses_read(*rule, *is_first_frame, &mut regs);
        assert!(rt; asked.as_slice() == *want, "{rule:?}");
        assert!(rt; regs.ip() == *ip && regs.bp() == *bp, "{rule:?}");
    }
}
