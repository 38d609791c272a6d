//! The rules that unwind one frame, for any architecture, and runs of rules.
ghost use Rattle.std.specs.Prelude.{◌≡◌, ◌≢◌, ℕ, ◌≤◌, pos, Bool, true, IsTrue, All, MatchResult, IfOk, OnSome, IfNone, Result};
ghost use Rattle.framehop_core.specs.Memory.{Memory, Answering};
ghost use Rattle.framehop_core.specs.Runs.{run_of, StepsBy, Raises};
ghost use Rattle.framehop_core.specs.Outcome.{Outcome, answer_of, registers_after, address_at, word_at, word_from, read_of, above, beside};

use crate::add_signed::checked_add_signed;
use crate::error::Error;
use std::fmt;

/// A rule that unwinds one frame: from the registers of a callee and its stack words to the
/// return address and the registers of its caller.
pub trait UnwindRule: Copy + fmt::Debug {
    /// The registers that the rule works on.
    type UnwindRegs: Copy;

    // what the rule does in a first frame (`true`) or another, over registers and memory
    ghost outcome: { Self → Bool → Self.UnwindRegs → Memory → Outcome Self.UnwindRegs };

    // what the rule does to the registers where it answers an address, whatever the callback replies: in a first
    // frame (`true`) or another, before and after
    ghost advances: { Self → Bool → Self.UnwindRegs → Self.UnwindRegs → Type 0 };

    // the stack pointer of registers
    ghost stack_pointer: { Self.UnwindRegs → ℕ };

    // what the registers after a step meet, over the memory that it has read
    ghost is_after_step: { Memory → Self.UnwindRegs → Type 0 };

    // whether the rule can be run; the others are made by no function of this library
    ghost executable: { Self → Bool };

    ghost stub_rule: { Self };

    ghost function_start_rule: { Self };

    ghost fallback: { Self };

    /// Unwinds one frame: returns the return address (AVMA), `None` at the root of the stack, or
    /// why the frame can't be unwound, and writes the caller's registers where it returns an
    /// address. `read_stack` reads the stack word at an address (AVMA).
    fn exec<F>(
        self,
        is_first_frame: bool,
        regs: &mut Self::UnwindRegs,
        read_stack: &mut F,
    ) -> Result<Option<u64>, Error>
    where
        F: FnMut(u64) -> Result<u64, ()>,
        requires can_run { IsTrue (executable self) }
        requires can_read { F.IsAlwaysCallable read_stack.old }
        ensures callable { F.IsAlwaysCallable read_stack.new }
        ensures kept { MatchResult result
            (λ answer. IfNone answer (regs.new ≡ regs.old))
            (λ _. regs.new ≡ regs.old) }
        ensures advances { IfOk result
            (λ answer. OnSome answer (advances self is_first_frame regs.old regs.new)) }
        ensures never_out_of_memory { result ≢ Err Error.OutOfMemory }
        ensures answers { Answering F.FnMut read_stack.old read_stack.new (λ memory.
            (result ≡ answer_of (outcome self is_first_frame regs.old memory))
            × (regs.new ≡ registers_after regs.old (outcome self is_first_frame regs.old memory))) };

    /// Returns the rule inside stub functions.
    fn rule_for_stub_functions() -> Self
        ensures { result ≡ stub_rule };

    /// Returns the rule at the first instruction of a function.
    fn rule_for_function_start() -> Self
        ensures { result ≡ function_start_rule };

    /// Returns the rule where no unwind information is found.
    fn fallback_rule() -> Self
        ensures { result ≡ fallback };

    /// Returns whether `exec` may be called.
    fn executable(self) -> bool
        ensures { result ≡ executable self };

    ghost stub_rule_executable: { executable stub_rule ≡ true };

    ghost function_start_rule_executable: { executable function_start_rule ≡ true };

    ghost fallback_executable: { executable fallback ≡ true };

    // over one memory, each step after another one raises the stack pointer
    ghost raises: { Raises outcome stack_pointer is_after_step };
}

/// How a run of rules ends.
#[derive(Clone, Copy, Debug, PartialEq, Eq)]
pub enum RunEnd {
    /// Each rule gave an address.
    All,

    /// A rule found the root of the stack.
    Root,

    /// A rule was refused.
    Refused(Error),
}

/// Runs rules one after another, each from the registers that the one before it leaves, the first
/// one as a first frame. Returns how many gave an address, and why the run ended.
pub fn run_rules<R: UnwindRule, F: FnMut(u64) -> Result<u64, ()>>(
    rules: &[R],
    regs: &mut R::UnwindRegs,
    read_stack: &mut F,
) -> (usize, RunEnd)
    requires can_run { All (λ rule. IsTrue (R.executable rule)) rules.now }
    requires can_read { F.IsAlwaysCallable read_stack.old }
    ensures callable { F.IsAlwaysCallable read_stack.new }
    ensures advances { StepsBy R.advances true rules.now result.0 regs.old regs.new }
    ensures answers { Answering F.FnMut read_stack.old read_stack.new (λ memory.
        run_of R.outcome true rules.now regs.old memory
        ≡ record { count = result.0; end = result.1; registers = regs.new }) }
{
    for (answered, rule) in rules.iter().enumerate() {
        match rule.exec(answered == 0, regs, read_stack) {
            Ok(Some(_)) => {}
            Ok(None) => return (answered, RunEnd::Root),
            Err(error) => return (answered, RunEnd::Refused(error)),
        }
    }
    (rules.len(), RunEnd::All)
}

/// Reads the stack word at the address (AVMA). A failed read is `CouldNotReadStack` of it.
#[inline(always)]
pub fn read_stack_word<F: FnMut(u64) -> Result<u64, ()>>(
    read_stack: &mut F,
    address: u64,
) -> Result<u64, Error>
    requires { F.IsAlwaysCallable read_stack.old }
    ensures callable { F.IsAlwaysCallable read_stack.new }
    ensures read { (reply : Result ℕ (Unit {0}))
        × F.step read_stack.old address reply read_stack.new
        × (result ≡ read_of address reply) }
    ensures never_out_of_memory { result ≢ Err Error.OutOfMemory }
    ensures answers { Answering F.FnMut read_stack.old read_stack.new (λ memory. result ≡ word_at memory address) }
{
    match read_stack(address) {
        Ok(word) => Ok(word),
        Err(()) => Err(Error::CouldNotReadStack(address)),
    }
}

/// Returns the address at this many bytes above another. `IntegerOverflow` where it does not fit 64 bits.
#[inline(always)]
pub(crate) fn offset_address(base: u64, offset: u64) -> Result<u64, Error>
    ensures address { result ≡ address_at (above base offset) }
    ensures sum { IfOk result (λ address. above base offset ≡ pos address) }
    ensures not_below { IfOk result (λ address. base ≤ address) }
{
    base.checked_add(offset).ok_or(Error::IntegerOverflow)
}

/// Returns the address at this many words of 8 bytes from another. `IntegerOverflow` where it does not
/// fit 64 bits.
#[inline(always)]
pub(crate) fn address_beside(base: u64, offset_by_8: i16) -> Result<u64, Error>
    ensures { result ≡ address_at (beside base offset_by_8) }
{
    checked_add_signed(base, i64::from(offset_by_8) * 8).ok_or(Error::IntegerOverflow)
}

/// Reads the stack word at this many words of 8 bytes from the address (AVMA).
#[inline(always)]
pub(crate) fn read_word_beside<F: FnMut(u64) -> Result<u64, ()>>(
    read_stack: &mut F,
    base: u64,
    offset_by_8: i16,
) -> Result<u64, Error>
    requires { F.IsAlwaysCallable read_stack.old }
    ensures callable { F.IsAlwaysCallable read_stack.new }
    ensures never_out_of_memory { result ≢ Err Error.OutOfMemory }
    ensures answers { Answering F.FnMut read_stack.old read_stack.new (λ memory. result ≡ word_from memory (beside base offset_by_8)) }
{
    read_stack_word(read_stack, address_beside(base, offset_by_8)?)
}
