//! The unwind rules of x86_64: a table, and the `exec` that runs a line of it.
//!
//! A line says where the new stack pointer comes from, and which words are read in which order. Each arm of `exec`
//! is one line, so that both can be held side by side, and registers are written by its last step only: a rule that
//! is refused writes nothing.
ghost use Rattle.std.specs.Prelude.{◌≡◌, ◌≢◌, ℕ, ◌<◌, ◌≤◌, pos, ◌-ℤ◌, true, List, length, All, MatchResult, OnOk, MatchOption, IsSome, IfSome};
ghost use Rattle.std.specs.Iterator.{AlwaysYields};
ghost use Rattle.framehop_core.specs.Memory.{Answering};
ghost use Rattle.framehop_core.specs.Outcome.{KeptUnlessAnswered, HasDone, address_at, after, beside};
ghost use Rattle.framehop_core.specs.Runs.{run_of, after_first, IsCountWithinRise};
ghost use Rattle.framehop_core.specs.X86_64.Rules.{outcome, NotBelowWhereAnswered, outcome_of_line, frame_pointer_line, frame_pointer_line_with, restored_at, value_from, popped, return_address, finished, is_executable, offset_and_pops_of, IsRuleOfOperations};

use super::register_ordering;
use super::unwindregs::{Reg, UnwindRegsX86_64};
use crate::error::Error;
use crate::unwind_rule;
use crate::unwind_rule::{
    RunEnd, UnwindRule, address_beside, offset_address, read_stack_word, read_word_beside,
};
use arrayvec::ArrayVec;

/// How to get from the registers of a frame to those of its caller, on x86_64.
///
/// The return address is the word below the caller's stack pointer, for each of these rules. A
/// field whose name ends in `by_8` counts units of 8 bytes: here `x` stands for the offset of sp
/// and `y` for that of the stored bp, in bytes.
#[derive(Clone, Copy, Debug, PartialEq, Eq)]
pub enum UnwindRuleX86_64 {
    /// There is no caller.
    EndOfStack,

    /// `sp = sp + 8`
    JustReturn,

    /// `sp = sp + 8` in a first frame, else `sp = bp + 16`, `bp = *bp`.
    ///
    /// This serves an address inside a module for which the unwind data has nothing.
    JustReturnIfFirstFrameOtherwiseFp,

    /// `sp = sp + x`
    OffsetSp {
        sp_offset_by_8: u16,
    },

    /// `sp = sp + x`, `bp = *(sp + y)`
    OffsetSpAndRestoreBp {
        sp_offset_by_8: u16,
        bp_storage_offset_from_sp_by_8: i16,
    },

    /// `sp = bp + 16`, `bp = *bp`
    ///
    /// A function with a frame pointer pushes the caller's bp after the return address, and sets
    /// bp to the address of that word.
    UseFramePointer,

    /// `sp = bp + x`, `bp = *(bp + y)`, where `x` and `y` count from bp.
    ///
    /// A function whose frame pointer is not next to the return address, as where it aligns its stack.
    UseFramePointerWithOffsets {
        sp_offset_from_bp_by_8: u16,
        bp_storage_offset_from_bp_by_8: i16,
    },

    /// `sp + x`, then up to 8 registers are popped from there, and sp is above them and the
    /// return address.
    OffsetSpAndPopRegisters {
        /// The offset of the first popped register from sp, in units of 8 bytes.
        sp_offset_by_8: u16,
        /// How many registers are popped.
        register_count: u8,
        /// The number of their ordering, see `register_ordering`.
        encoded_registers_to_pop: u16,
    },
}

/// An operation that unwinding has to do: an offset of the stack pointer, in units of 8 bytes, or
/// a pop of a register, or something else.
#[derive(Clone, Copy, Debug, PartialEq, Eq)]
pub enum OffsetOrPop {
    None,
    OffsetBy8(u16),
    Pop(Reg),
}

impl UnwindRuleX86_64 {
    /// Returns the rule that does these operations: at most one offset first, then only pops, of distinct
    /// registers among the eight that can be ordered. Other operations have no rule. At most ten
    /// operations are read, so the iterator need not end.
    pub fn for_sequence_of_offset_or_pop<I>(operations: I) -> Option<Self>
    where
        I: Iterator<Item = OffsetOrPop> + Drop,
        requires { I.can_next operations }
        ensures rule { (given : List OffsetOrPop)
            → AlwaysYields I.next_gives (λ operation. operation) operations given
            → IsRuleOfOperations given result }
        ensures executable { IfSome result (λ rule. is_executable rule ≡ true) }
    {
        let (sp_offset_by_8, registers) = offset_and_pops(operations)?;
        if sp_offset_by_8 == 0 && registers.is_empty() {
            return Some(Self::JustReturn);
        }
        let (register_count, encoded_registers_to_pop) = register_ordering::encode(
            registers.as_slice(),
        )?;
        Some(Self::OffsetSpAndPopRegisters {
            sp_offset_by_8,
            register_count,
            encoded_registers_to_pop,
        })
    }
}

/// Returns the next operation. A loop that calls this does not ask that the iterator ends.
fn next_operation<I>(operations: &mut I) -> Option<OffsetOrPop>
where
    I: Iterator<Item = OffsetOrPop> + Drop,
    requires { I.can_next operations.old }
    ensures given { I.next_gives operations.old result operations.new }
    ensures can_go_on { IsSome result → I.can_next operations.new }
{
    operations.next()
}

/// Returns the offset and the registers of operations that are at most one offset, then at most 8 pops.
fn offset_and_pops<I>(mut operations: I) -> Option<(u16, ArrayVec<Reg, 8>)>
where
    I: Iterator<Item = OffsetOrPop> + Drop,
    requires { I.can_next operations }
    ensures given { (given : List OffsetOrPop)
        → AlwaysYields I.next_gives (λ operation. operation) operations given
        → MatchOption result
        ((x : ℕ) (registers : List Reg) → offset_and_pops_of given ≡ Some (x, registers)
        → 8 < length registers)
        (λ found. offset_and_pops_of given ≡ Some (found.0, found.1.items)) }
    ensures few { IfSome result (λ found. length found.1.items ≤ 8) }
{
    let mut sp_offset_by_8 = 0;
    let mut registers = ArrayVec::new();
    let mut is_first = true;
    // an offset, 8 pops, and the end or one operation too many
    for _read in 0..10u32 {
        let Some(operation) = next_operation(&mut operations) else {
            return Some((sp_offset_by_8, registers));
        };
        match operation {
            OffsetOrPop::OffsetBy8(offset) if is_first => sp_offset_by_8 = offset,
            OffsetOrPop::Pop(register) if !registers.is_full() => registers.push(register),
            _ => return None,
        }
        is_first = false;
    }
    None
}

impl UnwindRule for UnwindRuleX86_64 {
    ghost use Rattle.std.specs.Prelude.{refl};
    ghost use Rattle.framehop_core.specs.X86_64.Rules.{outcome, Advances, StandsAfterReturn, is_executable};
    ghost use Rattle.framehop_core.specs.Laws.X86_64.{raises};
    ghost use Rattle.framehop_core.specs.declared.x86_64.unwind_rule.UnwindRuleX86_64.TheVariants.{JustReturn, UseFramePointer};

    type UnwindRegs = UnwindRegsX86_64;

    ghost outcome = { outcome };

    ghost advances = { λ _. Advances };

    ghost stack_pointer = { λ r. r.rsp };

    ghost is_after_step = { StandsAfterReturn };

    ghost executable = { is_executable };

    ghost stub_rule = { JustReturn };

    ghost function_start_rule = { JustReturn };

    ghost fallback = { UseFramePointer };

    ghost stub_rule_executable = { refl };

    ghost function_start_rule_executable = { refl };

    ghost fallback_executable = { refl };

    ghost raises = { raises };

    fn rule_for_stub_functions() -> Self {
        UnwindRuleX86_64::JustReturn
    }

    fn rule_for_function_start() -> Self {
        UnwindRuleX86_64::JustReturn
    }

    fn fallback_rule() -> Self {
        UnwindRuleX86_64::UseFramePointer
    }

    // inlined, so that on a hit of the cache the rule stays in registers
    #[inline(always)]
    fn exec<F>(
        self,
        is_first_frame: bool,
        regs: &mut UnwindRegsX86_64,
        read_stack: &mut F,
    ) -> Result<Option<u64>, Error>
    where
        F: FnMut(u64) -> Result<u64, ()>,
    {
        let sp = regs.sp();
        let bp = regs.bp();
        match self {
            UnwindRuleX86_64::EndOfStack => Ok(None),
            UnwindRuleX86_64::JustReturn => {
                let new_sp = offset_address(sp, 8)?;
                finish(regs, read_stack, new_sp, bp)
            }
            UnwindRuleX86_64::JustReturnIfFirstFrameOtherwiseFp => {
                if !is_first_frame {
                    return exec_frame_pointer(regs, read_stack);
                }
                let new_sp = offset_address(sp, 8)?;
                finish(regs, read_stack, new_sp, bp)
            }
            UnwindRuleX86_64::OffsetSp { sp_offset_by_8 } => {
                let new_sp = offset_address(sp, u64::from(sp_offset_by_8) * 8)?;
                finish(regs, read_stack, new_sp, bp)
            }
            UnwindRuleX86_64::OffsetSpAndRestoreBp {
                sp_offset_by_8,
                bp_storage_offset_from_sp_by_8,
            } => {
                let new_sp = offset_address(sp, u64::from(sp_offset_by_8) * 8)?;
                let new_bp = read_bp_beside(
                    is_first_frame,
                    regs,
                    read_stack,
                    bp_storage_offset_from_sp_by_8,
                )?;
                finish(regs, read_stack, new_sp, new_bp)
            }
            UnwindRuleX86_64::UseFramePointer => {
                if bp == 0 {
                    return Ok(None);
                }
                exec_frame_pointer(regs, read_stack)
            }
            UnwindRuleX86_64::UseFramePointerWithOffsets {
                sp_offset_from_bp_by_8,
                bp_storage_offset_from_bp_by_8,
            } => {
                if bp == 0 {
                    return Ok(None);
                }
                exec_frame_pointer_with_offsets(
                    regs,
                    read_stack,
                    sp_offset_from_bp_by_8,
                    bp_storage_offset_from_bp_by_8,
                )
            }
            UnwindRuleX86_64::OffsetSpAndPopRegisters {
                sp_offset_by_8,
                register_count,
                encoded_registers_to_pop,
            } => {
                let first = offset_address(sp, u64::from(sp_offset_by_8) * 8)?;
                let registers = register_ordering::decode(register_count, encoded_registers_to_pop);
                exec_pops(regs, read_stack, first, registers.as_slice())
            }
        }
    }

    fn executable(self) -> bool {
        match self {
            UnwindRuleX86_64::OffsetSpAndPopRegisters {
                sp_offset_by_8: _,
                register_count,
                encoded_registers_to_pop,
            } => register_ordering::is_ordering(register_count, encoded_registers_to_pop),
            _ => true,
        }
    }
}

/// Runs rules one after another, each from the registers that the one before it leaves, the first
/// one as a first frame. Returns how many gave an address, and why the run ended.
///
/// No rule that gives an address lowers the stack pointer. With a callback that answers as one memory each
/// after the first raises it: then at most as many of them do as the stack pointer has risen
/// since the first one.
pub fn run_rules<F: FnMut(u64) -> Result<u64, ()>>(
    rules: &[UnwindRuleX86_64],
    regs: &mut UnwindRegsX86_64,
    read_stack: &mut F,
) -> (usize, RunEnd)
    requires can_run { All (λ rule. is_executable rule ≡ true) rules.now }
    requires can_read { F.IsAlwaysCallable read_stack.old }
    ensures callable { F.IsAlwaysCallable read_stack.new }
    ensures not_below { regs.old.rsp ≤ regs.new.rsp }
    ensures answers { Answering F.FnMut read_stack.old read_stack.new (λ memory.
        (run_of outcome true rules.now regs.old memory
        ≡ record { count = result.0; end = result.1; registers = regs.new })
        × IsCountWithinRise result.0 (after_first outcome rules.now regs.old memory).rsp regs.new.rsp) }
{
    unwind_rule::run_rules(rules, regs, read_stack)
}

/// Returns the step by the frame pointer, `(sp, bp) = (bp + 16, *bp)`, where the stack pointer must rise.
///
/// `call` pushes the return address. A function that is compiled with frame pointers begins with
/// `push rbp` and `mov rbp, rsp`, and ends with `pop rbp` and `ret`, so that in its body the stack
/// is, from low to high addresses:
///
/// ```text
/// .. locals ..   caller's rbp   return address   .. the caller's frame ..
/// ^ rsp          ^ rbp                           ^ the caller's rsp
/// ```
///
/// The words at rbp and rbp + 8 are a link of a list: the next frame's link, and where its code goes
/// on.
///
/// The caller's bp is not tested: where the caller uses rbp as a general register, each value is one
/// that it may hold, 0 among them. Whether it does can't be told here.
fn exec_frame_pointer<F: FnMut(u64) -> Result<u64, ()>>(
    regs: &mut UnwindRegsX86_64,
    read_stack: &mut F,
) -> Result<Option<u64>, Error>
    requires { F.IsAlwaysCallable read_stack.old }
    ensures callable { F.IsAlwaysCallable read_stack.new }
    ensures never_out_of_memory { result ≢ Err Error.OutOfMemory }
    ensures kept { KeptUnlessAnswered result regs.old regs.new }
    ensures not_below { NotBelowWhereAnswered result regs.old regs.new }
    ensures answers { Answering F.FnMut read_stack.old read_stack.new (λ memory.
        HasDone (outcome_of_line (frame_pointer_line regs.old) regs.old memory)
        result regs.old regs.new) }
{
    let bp = regs.bp();
    let new_sp = offset_address(bp, 16)?;
    if new_sp <= regs.sp() {
        return Err(Error::FramepointerUnwindingMovedBackwards);
    }
    let new_bp = read_stack_word(read_stack, bp)?;
    finish(regs, read_stack, new_sp, new_bp)
}

/// Returns the step by the frame pointer with other offsets from it, in units of 8 bytes, where the stack pointer
/// must rise.
fn exec_frame_pointer_with_offsets<F: FnMut(u64) -> Result<u64, ()>>(
    regs: &mut UnwindRegsX86_64,
    read_stack: &mut F,
    sp_offset_from_bp_by_8: u16,
    bp_storage_offset_from_bp_by_8: i16,
) -> Result<Option<u64>, Error>
    requires { F.IsAlwaysCallable read_stack.old }
    ensures callable { F.IsAlwaysCallable read_stack.new }
    ensures never_out_of_memory { result ≢ Err Error.OutOfMemory }
    ensures kept { KeptUnlessAnswered result regs.old regs.new }
    ensures not_below { NotBelowWhereAnswered result regs.old regs.new }
    ensures answers { Answering F.FnMut read_stack.old read_stack.new (λ memory.
        HasDone (outcome_of_line (frame_pointer_line_with sp_offset_from_bp_by_8 bp_storage_offset_from_bp_by_8 regs.old) regs.old memory)
        result regs.old regs.new) }
{
    let bp = regs.bp();
    let new_sp = offset_address(bp, u64::from(sp_offset_from_bp_by_8) * 8)?;
    if new_sp <= regs.sp() {
        return Err(Error::FramepointerUnwindingMovedBackwards);
    }
    let new_bp = read_word_beside(read_stack, bp, bp_storage_offset_from_bp_by_8)?;
    finish(regs, read_stack, new_sp, new_bp)
}

/// Reads the caller's bp in the word at this many words of 8 bytes from sp. In a first frame a
/// word below sp may be unreadable: then bp is taken to be restored already.
///
/// Such offsets come from function ends, where registers are popped one after another and the
/// unwind data, to save room, does not say of each that it is back in place. The word is then below
/// sp, which a callback may well be unable to read: a copy of the stack begins at sp, as those do
/// that Linux's perf events bring.
#[inline(always)]
fn read_bp_beside<F: FnMut(u64) -> Result<u64, ()>>(
    is_first_frame: bool,
    regs: &UnwindRegsX86_64,
    read_stack: &mut F,
    offset_from_sp_by_8: i16,
) -> Result<u64, Error>
    requires { F.IsAlwaysCallable read_stack.old }
    ensures callable { F.IsAlwaysCallable read_stack.new }
    ensures never_out_of_memory { result ≢ Err Error.OutOfMemory }
    ensures answers { Answering F.FnMut read_stack.old read_stack.new (λ memory.
        result ≡ value_from memory regs.now.rbp
        (restored_at is_first_frame offset_from_sp_by_8 (beside regs.now.rsp offset_from_sp_by_8))) }
{
    let location = address_beside(regs.sp(), offset_from_sp_by_8)?;
    match read_stack_word(read_stack, location) {
        Ok(bp) => Ok(bp),
        Err(_) if is_first_frame && offset_from_sp_by_8 < 0 => Ok(regs.bp()),
        Err(error) => Err(error),
    }
}

/// Returns the step by pops, the first one at the address (AVMA).
#[inline(always)]
fn exec_pops<F: FnMut(u64) -> Result<u64, ()>>(
    regs: &mut UnwindRegsX86_64,
    read_stack: &mut F,
    first: u64,
    registers: &[Reg],
) -> Result<Option<u64>, Error>
    requires { F.IsAlwaysCallable read_stack.old }
    ensures callable { F.IsAlwaysCallable read_stack.new }
    ensures never_out_of_memory { result ≢ Err Error.OutOfMemory }
    ensures kept { KeptUnlessAnswered result regs.old regs.new }
    ensures not_below { regs.old.rsp ≤ first → NotBelowWhereAnswered result regs.old regs.new }
    ensures answers { Answering F.FnMut read_stack.old read_stack.new (λ memory.
        HasDone (after (popped memory first registers.now regs.old) (λ caller. finished regs.old caller memory))
        result regs.old regs.new) }
{
    let mut caller = *regs;
    pop_registers(&mut caller, read_stack, first, registers)?;
    finish_with(regs, read_stack, caller)
}

/// Pops registers off the stack, the first one at the address (AVMA), and sets sp above them and
/// the return address. It is called, and `exec_pops` is not, so that no step is handed on in memory.
#[inline(never)]
fn pop_registers<F: FnMut(u64) -> Result<u64, ()>>(
    regs: &mut UnwindRegsX86_64,
    read_stack: &mut F,
    first: u64,
    registers: &[Reg],
) -> Result<(), Error>
    requires { F.IsAlwaysCallable read_stack.old }
    ensures callable { F.IsAlwaysCallable read_stack.new }
    ensures never_out_of_memory { result ≢ Err Error.OutOfMemory }
    ensures not_below { OnOk result (first ≤ regs.new.rsp) }
    ensures answers { Answering F.FnMut read_stack.old read_stack.new (λ memory.
        MatchResult result (λ _. popped memory first registers.now regs.old ≡ Ok regs.new)
        (λ error. popped memory first registers.now regs.old ≡ Err error)) }
{
    let mut address = first;
    for register in registers {
        let value = read_stack_word(read_stack, address)?;
        address = offset_address(address, 8)?;
        regs.set(*register, value);
    }
    regs.set_sp(offset_address(address, 8)?);
    Ok(())
}

/// Returns the last step of each rule but pops: reads the return address and writes the caller's registers,
/// unless the address is 0 (the root) or the step would give the same frame again.
#[inline(always)]
fn finish<F: FnMut(u64) -> Result<u64, ()>>(
    regs: &mut UnwindRegsX86_64,
    read_stack: &mut F,
    new_sp: u64,
    new_bp: u64,
) -> Result<Option<u64>, Error>
    requires { F.IsAlwaysCallable read_stack.old }
    ensures callable { F.IsAlwaysCallable read_stack.new }
    ensures never_out_of_memory { result ≢ Err Error.OutOfMemory }
    ensures kept { KeptUnlessAnswered result regs.old regs.new }
    ensures not_below { regs.old.rsp ≤ new_sp → NotBelowWhereAnswered result regs.old regs.new }
    ensures answers { Answering F.FnMut read_stack.old read_stack.new (λ memory.
        HasDone (finished regs.old (record regs.old { rsp = new_sp; rbp = new_bp }) memory)
        result regs.old regs.new) }
{
    let Some(address) = read_return_address(regs, read_stack, new_sp)? else {
        return Ok(None);
    };
    regs.set_ip(address);
    regs.set_sp(new_sp);
    regs.set_bp(new_bp);
    Ok(Some(address))
}

/// Returns the last step after pops: as `finish`, with the caller's registers but for ip.
#[inline(always)]
fn finish_with<F: FnMut(u64) -> Result<u64, ()>>(
    regs: &mut UnwindRegsX86_64,
    read_stack: &mut F,
    caller: UnwindRegsX86_64,
) -> Result<Option<u64>, Error>
    requires { F.IsAlwaysCallable read_stack.old }
    ensures callable { F.IsAlwaysCallable read_stack.new }
    ensures never_out_of_memory { result ≢ Err Error.OutOfMemory }
    ensures kept { KeptUnlessAnswered result regs.old regs.new }
    ensures not_below { regs.old.rsp ≤ caller.rsp → NotBelowWhereAnswered result regs.old regs.new }
    ensures answers { Answering F.FnMut read_stack.old read_stack.new (λ memory.
        HasDone (finished regs.old caller memory) result regs.old regs.new) }
{
    let Some(address) = read_return_address(regs, read_stack, caller.sp())? else {
        return Ok(None);
    };
    *regs = caller;
    regs.set_ip(address);
    Ok(Some(address))
}

/// Reads the return address below the caller's stack pointer: `None` where it is 0, and
/// `DidNotAdvance` where neither it nor the stack pointer changes.
#[inline(always)]
fn read_return_address<F: FnMut(u64) -> Result<u64, ()>>(
    regs: &UnwindRegsX86_64,
    read_stack: &mut F,
    new_sp: u64,
) -> Result<Option<u64>, Error>
    requires { F.IsAlwaysCallable read_stack.old }
    ensures callable { F.IsAlwaysCallable read_stack.new }
    ensures never_out_of_memory { result ≢ Err Error.OutOfMemory }
    ensures answers { Answering F.FnMut read_stack.old read_stack.new (λ memory. result ≡ return_address regs.now new_sp memory) }
{
    let location = word_below(new_sp)?;
    let address = read_stack_word(read_stack, location)?;
    if address == 0 {
        return Ok(None);
    }
    if new_sp == regs.sp() && address == regs.ip() {
        return Err(Error::DidNotAdvance);
    }
    Ok(Some(address))
}

/// Returns the address of the word below a stack pointer. `IntegerOverflow` where that lies below 0.
#[inline(always)]
fn word_below(sp: u64) -> Result<u64, Error>
    ensures { result ≡ address_at (pos sp -ℤ pos 8) }
{
    sp.checked_sub(8).ok_or(Error::IntegerOverflow)
}
