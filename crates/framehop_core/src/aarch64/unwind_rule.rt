//! The unwind rules of aarch64: a table, and the `exec` that runs a line of it.
//!
//! A line says where the new stack pointer comes from, and which words are read in which order. Each arm of `exec`
//! is one line, so that both can be held side by side, and registers are written by its last step only: a rule that
//! is refused writes nothing.
ghost use Rattle.std.specs.Prelude.{◌≡◌, ◌≢◌, ◌≤◌, true, false, IfOk, OnSome};
ghost use Rattle.framehop_core.specs.Memory.{Answering};
ghost use Rattle.framehop_core.specs.Runs.{run_of, after_first, IsCountWithinRise};
ghost use Rattle.framehop_core.specs.Aarch64.Rules.{outcome, IsBoundedRun, finished, finished_at_frame_pointer, MovesUp, AdvancesWhereAnswered};
ghost use Rattle.framehop_core.specs.Outcome.{KeptUnlessAnswered, HasDone};
ghost use Rattle.framehop_core.specs.declared.aarch64.unwind_rule.UnwindRuleAarch64.TheVariants.{NoOpIfFirstFrameOtherwiseFp, UseFramePointer};

use super::unwindregs::UnwindRegsAarch64;
use crate::error::Error;
use crate::unwind_rule;
use crate::unwind_rule::{RunEnd, UnwindRule, offset_address, read_stack_word, read_word_beside};

/// How to get from the registers of a frame to those of its caller, on aarch64.
///
/// A field whose name ends in `by_16` or `by_8` counts units of that many bytes: here `x` stands
/// for the offset of sp, `y` and `z` for those of the stored fp and lr, all in bytes. Registers on the
/// right of `=` are those of the frame, and a register that is not named keeps its value.
#[derive(Clone, Copy, Debug, PartialEq, Eq)]
pub enum UnwindRuleAarch64 {
    /// All three registers stay as they are, in a first frame only: any other frame must get its
    /// return address from somewhere else than lr, or the walk would not end.
    NoOp,

    /// `NoOp` in a first frame, else `sp = fp + 16`, `fp = *fp`, `lr = *(fp + 8)`.
    ///
    /// This serves an address inside a module for which the unwind data has nothing.
    NoOpIfFirstFrameOtherwiseFp,

    /// `sp = sp + x`, in a first frame only, for the reason given at `NoOp`.
    OffsetSp {
        sp_offset_by_16: u16,
    },

    /// `sp = sp + x` in a first frame; any other frame is the root.
    ///
    /// DWARF data that leaves the return address undefined can mean two things: that lr still has
    /// it, which only a first frame allows, or that there is no caller.
    OffsetSpIfFirstFrameOtherwiseStackEndsHere {
        sp_offset_by_16: u16,
    },

    /// `sp = sp + x`, `lr = *(sp + z)`
    OffsetSpAndRestoreLr {
        sp_offset_by_16: u16,
        lr_storage_offset_from_sp_by_8: i16,
    },

    /// `sp = sp + x`, `fp = *(sp + y)`, `lr = *(sp + z)`
    OffsetSpAndRestoreFpAndLr {
        sp_offset_by_16: u16,
        fp_storage_offset_from_sp_by_8: i16,
        lr_storage_offset_from_sp_by_8: i16,
    },

    /// `sp = fp + 16`, `fp = *fp`, `lr = *(fp + 8)`
    ///
    /// A function with a frame pointer stores the caller's fp and lr next to each other on the
    /// stack, and sets fp to the address of that pair.
    UseFramePointer,

    /// `sp = fp + x`, `fp = *(fp + y)`, `lr = *(fp + z)`
    UseFramepointerWithOffsets {
        sp_offset_from_fp_by_8: u16,
        fp_storage_offset_from_fp_by_8: i16,
        lr_storage_offset_from_fp_by_8: i16,
    },
}

impl UnwindRule for UnwindRuleAarch64 {
    ghost use Rattle.std.specs.Prelude.{true, refl};
    ghost use Rattle.framehop_core.specs.Aarch64.Rules.{outcome, Advances};
    ghost use Rattle.framehop_core.specs.Laws.Aarch64.{raises};
    ghost use Rattle.framehop_core.specs.declared.aarch64.unwind_rule.UnwindRuleAarch64.TheVariants.{NoOp, UseFramePointer};

    type UnwindRegs = UnwindRegsAarch64;

    ghost outcome = { outcome };

    ghost advances = { Advances };

    ghost stack_pointer = { λ r. r.sp };

    ghost is_after_step = { λ memory r. Unit {0} };

    ghost executable = { λ _. true };

    ghost stub_rule = { NoOp };

    ghost function_start_rule = { NoOp };

    ghost fallback = { UseFramePointer };

    ghost stub_rule_executable = { refl };

    ghost function_start_rule_executable = { refl };

    ghost fallback_executable = { refl };

    ghost raises = { raises };

    fn rule_for_stub_functions() -> Self {
        UnwindRuleAarch64::NoOp
    }

    fn rule_for_function_start() -> Self {
        UnwindRuleAarch64::NoOp
    }

    fn fallback_rule() -> Self {
        UnwindRuleAarch64::UseFramePointer
    }

    // inlined, so that on a hit of the cache the rule stays in registers
    #[inline(always)]
    fn exec<F>(
        self,
        is_first_frame: bool,
        regs: &mut UnwindRegsAarch64,
        read_stack: &mut F,
    ) -> Result<Option<u64>, Error>
    where
        F: FnMut(u64) -> Result<u64, ()>,
    {
        let (lr, sp, fp) = (regs.lr(), regs.sp(), regs.fp());
        match self {
            UnwindRuleAarch64::NoOp => {
                if !is_first_frame {
                    return Err(Error::DidNotAdvance);
                }
                finish(is_first_frame, regs, sp, lr, fp)
            }
            UnwindRuleAarch64::NoOpIfFirstFrameOtherwiseFp => {
                if is_first_frame {
                    return finish(is_first_frame, regs, sp, lr, fp);
                }
                exec_frame_record(regs, read_stack)
            }
            UnwindRuleAarch64::OffsetSp { sp_offset_by_16 } => {
                if !is_first_frame {
                    return Err(Error::DidNotAdvance);
                }
                let new_sp = offset_address(sp, u64::from(sp_offset_by_16) * 16)?;
                finish(is_first_frame, regs, new_sp, lr, fp)
            }
            UnwindRuleAarch64::OffsetSpIfFirstFrameOtherwiseStackEndsHere { sp_offset_by_16 } => {
                if !is_first_frame {
                    return Ok(None);
                }
                let new_sp = offset_address(sp, u64::from(sp_offset_by_16) * 16)?;
                finish(is_first_frame, regs, new_sp, lr, fp)
            }
            UnwindRuleAarch64::OffsetSpAndRestoreLr {
                sp_offset_by_16,
                lr_storage_offset_from_sp_by_8,
            } => {
                let new_sp = offset_address(sp, u64::from(sp_offset_by_16) * 16)?;
                let new_lr = read_word_beside(read_stack, sp, lr_storage_offset_from_sp_by_8)?;
                finish(is_first_frame, regs, new_sp, new_lr, fp)
            }
            UnwindRuleAarch64::OffsetSpAndRestoreFpAndLr {
                sp_offset_by_16,
                fp_storage_offset_from_sp_by_8,
                lr_storage_offset_from_sp_by_8,
            } => {
                let new_sp = offset_address(sp, u64::from(sp_offset_by_16) * 16)?;
                let new_lr = read_word_beside(read_stack, sp, lr_storage_offset_from_sp_by_8)?;
                let new_fp = read_word_beside(read_stack, sp, fp_storage_offset_from_sp_by_8)?;
                finish(is_first_frame, regs, new_sp, new_lr, new_fp)
            }
            UnwindRuleAarch64::UseFramePointer => {
                exec_frame_pointer(is_first_frame, regs, read_stack)
            }
            UnwindRuleAarch64::UseFramepointerWithOffsets {
                sp_offset_from_fp_by_8,
                fp_storage_offset_from_fp_by_8,
                lr_storage_offset_from_fp_by_8,
            } => {
                let new_sp = offset_address(fp, u64::from(sp_offset_from_fp_by_8) * 8)?;
                let new_lr = read_word_beside(read_stack, fp, lr_storage_offset_from_fp_by_8)?;
                let new_fp = read_word_beside(read_stack, fp, fp_storage_offset_from_fp_by_8)?;
                finish_at_frame_pointer(is_first_frame, regs, new_sp, new_lr, new_fp)
            }
        }
    }

    fn executable(self) -> bool {
        true
    }
}

/// Runs rules one after another, each from the registers that the one before it leaves, the first
/// one as a first frame. Returns how many gave an address, and why the run ended.
///
/// Each rule after the first that gives an address raises the stack pointer, whatever the callback replies. So
/// at most as many of them do as the stack pointer has risen since the first one.
pub fn run_rules<F: FnMut(u64) -> Result<u64, ()>>(
    rules: &[UnwindRuleAarch64],
    regs: &mut UnwindRegsAarch64,
    read_stack: &mut F,
) -> (usize, RunEnd)
    requires { F.IsAlwaysCallable read_stack.old }
    ensures callable { F.IsAlwaysCallable read_stack.new }
    ensures bounded { IsBoundedRun rules.now result.0 regs.old regs.new }
    ensures answers { Answering F.FnMut read_stack.old read_stack.new (λ memory.
        (run_of outcome true rules.now regs.old memory
        ≡ record { count = result.0; end = result.1; registers = regs.new })
        × IsCountWithinRise result.0 (after_first outcome rules.now regs.old memory).sp regs.new.sp) }
{
    unwind_rule::run_rules(rules, regs, read_stack)
}

/// Returns the step by the frame pointer, `sp = fp + 16`, `fp = *fp`, `lr = *(fp + 8)`, where both the frame
/// pointer and the stack pointer must rise.
///
/// `bl` puts the return address into lr. A function with a frame pointer lowers sp, stores fp and lr
/// as a pair and sets fp to the pair's address, so that in its body the stack is, from low to high
/// addresses:
///
/// ```text
/// .. locals ..   caller's fp   return address   .. saved registers, the caller's frame ..
/// ^ sp           ^ fp
/// ```
///
/// sp is a multiple of 16, and registers are stored in pairs.
fn exec_frame_pointer<F: FnMut(u64) -> Result<u64, ()>>(
    is_first_frame: bool,
    regs: &mut UnwindRegsAarch64,
    read_stack: &mut F,
) -> Result<Option<u64>, Error>
    requires { F.IsAlwaysCallable read_stack.old }
    ensures callable { F.IsAlwaysCallable read_stack.new }
    ensures never_out_of_memory { result ≢ Err Error.OutOfMemory }
    ensures kept { KeptUnlessAnswered result regs.old regs.new }
    ensures advances { AdvancesWhereAnswered UseFramePointer is_first_frame result regs.old regs.new }
    ensures answers { Answering F.FnMut read_stack.old read_stack.new (λ memory.
        HasDone (outcome UseFramePointer is_first_frame regs.old memory)
        result regs.old regs.new) }
{
    let fp = regs.fp();
    let new_sp = offset_address(fp, 16)?;
    let new_lr = read_stack_word(read_stack, fp + 8)?;
    let new_fp = read_stack_word(read_stack, fp)?;
    finish_at_frame_pointer(is_first_frame, regs, new_sp, new_lr, new_fp)
}

/// Returns the same step from a frame that is not the first, where only the stack pointer must rise.
fn exec_frame_record<F: FnMut(u64) -> Result<u64, ()>>(
    regs: &mut UnwindRegsAarch64,
    read_stack: &mut F,
) -> Result<Option<u64>, Error>
    requires { F.IsAlwaysCallable read_stack.old }
    ensures callable { F.IsAlwaysCallable read_stack.new }
    ensures never_out_of_memory { result ≢ Err Error.OutOfMemory }
    ensures kept { KeptUnlessAnswered result regs.old regs.new }
    ensures advances { AdvancesWhereAnswered NoOpIfFirstFrameOtherwiseFp false result regs.old regs.new }
    ensures answers { Answering F.FnMut read_stack.old read_stack.new (λ memory.
        HasDone (outcome NoOpIfFirstFrameOtherwiseFp false regs.old memory)
        result regs.old regs.new) }
{
    let fp = regs.fp();
    let new_sp = offset_address(fp, 16)?;
    let new_lr = read_stack_word(read_stack, fp + 8)?;
    let new_fp = read_stack_word(read_stack, fp)?;
    if new_sp <= regs.sp() {
        return Err(Error::FramepointerUnwindingMovedBackwards);
    }
    finish(false, regs, new_sp, new_lr, new_fp)
}

/// Returns the last step of a rule that goes by a frame pointer: the caller's frame pointer is 0 at the
/// root, and otherwise it and the stack pointer lie above the callee's.
#[inline(always)]
fn finish_at_frame_pointer(
    is_first_frame: bool,
    regs: &mut UnwindRegsAarch64,
    new_sp: u64,
    new_lr: u64,
    new_fp: u64,
) -> Result<Option<u64>, Error>
    ensures done { HasDone (finished_at_frame_pointer is_first_frame regs.old new_sp new_lr new_fp)
        result regs.old regs.new }
    ensures up { IfOk result (λ answer. OnSome answer (MovesUp is_first_frame regs.old regs.new)) }
    ensures stack_pointer { IfOk result (λ answer. OnSome answer (regs.new.sp ≡ new_sp)) }
{
    if new_fp == 0 {
        return Ok(None);
    }
    if new_fp <= regs.fp() || new_sp <= regs.sp() {
        return Err(Error::FramepointerUnwindingMovedBackwards);
    }
    finish(is_first_frame, regs, new_sp, new_lr, new_fp)
}

/// Returns the last step of each rule: writes the caller's registers and returns the stripped return
/// address, unless that is 0 (the root) or a caller frame keeps its stack pointer.
#[inline(always)]
fn finish(
    is_first_frame: bool,
    regs: &mut UnwindRegsAarch64,
    new_sp: u64,
    new_lr: u64,
    new_fp: u64,
) -> Result<Option<u64>, Error>
    ensures done { HasDone (finished is_first_frame regs.old new_sp new_lr new_fp)
        result regs.old regs.new }
    ensures up { regs.old.sp ≤ new_sp
        → IfOk result (λ answer. OnSome answer (MovesUp is_first_frame regs.old regs.new)) }
    ensures stack_pointer { IfOk result (λ answer. OnSome answer (regs.new.sp ≡ new_sp)) }
{
    let return_address = regs.lr_mask().strip_ptr_auth(new_lr);
    if return_address == 0 {
        return Ok(None);
    }
    if !is_first_frame && new_sp == regs.sp() {
        return Err(Error::DidNotAdvance);
    }
    regs.set_lr(new_lr);
    regs.set_sp(new_sp);
    regs.set_fp(new_fp);
    Ok(Some(return_address))
}
