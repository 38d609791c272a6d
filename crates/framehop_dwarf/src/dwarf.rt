//! From a row of call frame information to a frame: what both architectures share.
ghost use Rattle.std.specs.Prelude.{◌≡◌, ◌≢◌, ◌^◌, ℕ, Bool, true, IsTrue, List, Option, Result, Ok, Err, Some, None, IfOk, IfErr, OnErr, pos, negsuc, ◌+ℤ◌, ◌≤ℤ◌, option_and_then};
ghost use Rattle.framehop_core.specs.Memory.{Memory, Answering};
ghost use Rattle.framehop_core.specs.Outcome.{answered};
ghost use Rattle.framehop_core.specs.Step.{IfRule, IfAddress, WritesWithAddress, TellsFound};
ghost use Rattle.framehop_cfi.specs.Row.{Row};
ghost use Rattle.framehop_dwarf.specs.Told.{out_of_memory, IsOfValues, NeedsNoStack, TellsDirect};
ghost use Rattle.framehop_cfi.specs.declared.dwarf_error.DwarfUnwinderError.{DwarfUnwinderError as DwarfRefusal};
ghost use Rattle.framehop_dwarf.specs.Units.{units_of, signed_units_of};
ghost use Rattle.framehop_dwarf.specs.Direct.{sum_of, cfa_of, register_of};
ghost use Rattle.framehop_dwarf.specs.MayTakeMemory.{is_cfa_expression, is_some_expression, has_expression};

use crate::evaluation::{DwarfUnwindRegs, EvaluationStorage, evaluate};
pub use framehop_cfi::dwarf_error::DwarfUnwinderError;
use framehop_cfi::read_error::ReadError;
use framehop_cfi::row::UnwindTableRow;
use framehop_cfi::rule::{CfaRule, RegisterRule};
use framehop_cfi::storage::UnwindContextStorage;
use framehop_core::arch::Arch;
use framehop_core::unwind_result::UnwindResult;
use framehop_core::unwind_rule::read_stack_word;
use std::alloc::Global;

/// How an architecture unwinds by a row.
pub trait DwarfUnwinding: Arch {
    // the rule that a row is translated to, if it is
    ghost translated: { Row → Option Self.UnwindRule };

    // the return address and the caller's registers of a row that has no rule: by the section's bytes, the most
    // values of an expression, the memory, the row, the kind of frame (`true`: the first) and the registers
    ghost direct: { List ℕ → Option ℕ → Memory → Row → Bool → Self.UnwindRegs → Result (ℕ × Self.UnwindRegs) DwarfRefusal };

    // a row means the step from these registers to the return address and those registers
    ghost row_means: { List ℕ → Memory → Row → Bool → Self.UnwindRegs → ℕ → Self.UnwindRegs → Type 0 };

    // as far as the columns have values
    ghost columns_mean: { List ℕ → Option ℕ → Memory → Row → Bool → Self.UnwindRegs → ℕ → Self.UnwindRegs → Type 0 };

    // what a direct step does to the registers, whatever the callback replies: in a first frame (`true`) or
    // another, before and after
    ghost ascends: { Bool → Self.UnwindRegs → Self.UnwindRegs → Type 0 };

    ghost uncovered: { Self.UnwindRule };

    /// Unwinds a frame by a row: tells the rule of its address, where the row is translated to one, or else
    /// computes the return address (AVMA) and writes the caller's registers. `section` is the section's bytes,
    /// and `read_stack` reads the stack word at an address (AVMA).
    ///
    /// # Errors
    ///
    /// The registers are unchanged. `UnwindInfoForAddressFailed` says that an allocation failed, where the
    /// row has an expression whose values have no limit.
    fn unwind_frame<S: UnwindContextStorage, E: EvaluationStorage, F>(
        alloc: Global,
        section: &[u8],
        unwind_info: &UnwindTableRow<S>,
        regs: &mut Self::UnwindRegs,
        is_first_frame: bool,
        read_stack: &mut F,
    ) -> Result<UnwindResult<Self::UnwindRule>, DwarfUnwinderError>
    where
        F: FnMut(u64) -> Result<u64, ()>,
        requires { F.IsAlwaysCallable read_stack.old }
        ensures callable { F.IsAlwaysCallable read_stack.new }
        ensures found { TellsFound IsOfValues (Ok (translated unwind_info.now)) result }
        ensures written { WritesWithAddress (ascends is_first_frame) result regs.old regs.new }
        ensures unread { IfRule result (λ rule. read_stack.new ≡ read_stack.old) }
        ensures unread_refused { IfErr result (λ error. NeedsNoStack error → read_stack.new ≡ read_stack.old) }
        ensures executable { IfRule result (λ rule. IsTrue (Self.UnwindRule.executable rule)) }
        ensures memory { result ≡ Err out_of_memory → (E.Stack.limit ≡ None) × (has_expression unwind_info.now ≡ true) }
        ensures means { IfRule result (λ rule. (first : Bool) (old new : Self.UnwindRegs) (memory : Memory) (address : ℕ)
            → Self.UnwindRule.outcome rule first old memory ≡ answered address new
            → row_means section.now memory unwind_info.now first old address new) }
        ensures answers { Answering F.FnMut read_stack.old read_stack.new (λ memory.
            TellsDirect (direct section.now E.Stack.limit memory unwind_info.now is_first_frame regs.old) result regs.new
            × IfAddress result (λ address. columns_mean section.now E.Stack.limit memory unwind_info.now is_first_frame regs.old address regs.new)) };

    /// Returns the rule of an address that no row covers.
    fn rule_if_uncovered_by_fde() -> Self::UnwindRule
        ensures rule { result ≡ uncovered }
        ensures executable { IsTrue (Self.UnwindRule.executable result) };

    // where the rule of a row answers an address, the step is what the row means
    ghost rule_means: { (section : List ℕ) (memory : Memory) (row : Row) (rule : Self.UnwindRule) (first : Bool) (old new : Self.UnwindRegs) (address : ℕ)
        → translated row ≡ Some rule → Self.UnwindRule.outcome rule first old memory ≡ answered address new
        → row_means section memory row first old address new };

    // the values of a row without a rule are those of its columns
    ghost values_mean: { (section : List ℕ) (limit : Option ℕ) (memory : Memory) (row : Row) (first : Bool) (old new : Self.UnwindRegs) (address : ℕ)
        → direct section limit memory row first old ≡ Ok (address, new) → columns_mean section limit memory row first old address new };
}

/// Returns a base plus an offset, both in bytes, where the base and the sum are below 2^63.
fn offset_from(base: u64, offset: i64) -> Option<u64>
    ensures { result ≡ sum_of base offset }
{
    let Ok(base) = i64::try_from(base) else {
        return None;
    };
    let sum = base.checked_add(offset)?;
    u64::try_from(sum).ok()
}

/// Returns the canonical frame address that a rule gives over the registers (an AVMA), or `None` where
/// it gives none. `section` is the section's bytes, in which expressions lie.
///
/// # Errors
///
/// `OutOfMemory` where the rule is an expression, its values have no limit and an allocation fails; no other.
pub fn eval_cfa_rule<R: DwarfUnwindRegs, E: EvaluationStorage>(
    alloc: Global,
    section: &[u8],
    rule: &CfaRule,
    regs: &R,
) -> Result<Option<u64>, ReadError>
    ensures exact { IfOk result (λ answer. answer ≡ cfa_of (record { bytes = section.now; columns = R.column regs.now; limit = E.Stack.limit }) rule.now) }
    ensures memory { OnErr result (E.Stack.limit ≡ None) }
    ensures expression { OnErr result (is_cfa_expression rule.now ≡ true) }
    ensures error { IfErr result (λ error. error ≡ ReadError.OutOfMemory) }
{
    match *rule {
        CfaRule::RegisterAndOffset { register, offset } => match regs.get(register) {
            Some(base) => Ok(offset_from(base, offset)),
            None => Ok(None),
        },
        CfaRule::Expression(expression) => {
            evaluate::<R, E>(alloc, section, expression, regs, None)
        }
    }
}

/// Reads the stack word at an address, if there is one.
pub(crate) fn read_word<F: FnMut(u64) -> Result<u64, ()>>(
    read_stack: &mut F,
    address: u64,
) -> Option<u64>
    requires { F.IsAlwaysCallable read_stack.old }
    ensures callable { F.IsAlwaysCallable read_stack.new }
    ensures answers { Answering F.FnMut read_stack.old read_stack.new (λ memory. result ≡ memory address) }
{
    match read_stack_word(read_stack, address) {
        Ok(word) => Some(word),
        Err(_) => None,
    }
}

/// Reads the stack word at an address, if there are both.
fn read_word_at<F: FnMut(u64) -> Result<u64, ()>>(
    read_stack: &mut F,
    address: Option<u64>,
) -> Option<u64>
    requires { F.IsAlwaysCallable read_stack.old }
    ensures callable { F.IsAlwaysCallable read_stack.new }
    ensures answers { Answering F.FnMut read_stack.old read_stack.new (λ memory. result ≡ option_and_then memory address) }
{
    match address {
        Some(address) => read_word(read_stack, address),
        None => None,
    }
}

/// Returns the value that a register's rule gives in the caller's frame, or `None` where it gives none.
/// `cfa` is the canonical frame address, and `val` is what the register has now.
///
/// # Errors
///
/// `OutOfMemory` where the rule is an expression, its values have no limit and an allocation fails; no other.
pub fn eval_register_rule<R: DwarfUnwindRegs, E: EvaluationStorage, F>(
    alloc: Global,
    section: &[u8],
    rule: Option<RegisterRule>,
    cfa: u64,
    val: u64,
    regs: &R,
    read_stack: &mut F,
) -> Result<Option<u64>, ReadError>
where
    F: FnMut(u64) -> Result<u64, ()>,
    requires { F.IsAlwaysCallable read_stack.old }
    ensures callable { F.IsAlwaysCallable read_stack.new }
    ensures memory { OnErr result (E.Stack.limit ≡ None) }
    ensures expression { OnErr result (is_some_expression rule ≡ true) }
    ensures error { IfErr result (λ error. error ≡ ReadError.OutOfMemory) }
    ensures answers { Answering F.FnMut read_stack.old read_stack.new (λ memory.
        IfOk result (λ answer. answer ≡ register_of (record { bytes = section.now; columns = R.column regs.now; limit = E.Stack.limit }) memory cfa val rule)) }
{
    let Some(rule) = rule else {
        return Ok(None);
    };
    match rule {
        RegisterRule::Undefined => Ok(None),
        RegisterRule::SameValue => Ok(Some(val)),
        RegisterRule::Offset(offset) => Ok(read_word_at(read_stack, offset_from(cfa, offset))),
        RegisterRule::ValOffset(offset) => Ok(offset_from(cfa, offset)),
        RegisterRule::Register(register) => Ok(regs.get(register)),
        RegisterRule::Expression(expression) => {
            let address = evaluate::<R, E>(alloc, section, expression, regs, Some(cfa))?;
            Ok(read_word_at(read_stack, address))
        }
        RegisterRule::ValExpression(expression) => {
            evaluate::<R, E>(alloc, section, expression, regs, Some(cfa))
        }
    }
}

/// Returns how many units of so many bytes an offset is, where that is exact and fits 16 bits.
#[tactic(auto, unfolding(crate::specs::Units::units_of))]
pub(crate) fn units_of(size: u8, offset: i64) -> Option<u16>
    requires { size ≢ 0 }
    ensures { result ≡ units_of size offset }
{
    let size = i128::from(size);
    let units = i128::from(offset) / size;
    if units * size != i128::from(offset) {
        return None;
    }
    u16::try_from(units).ok()
}

/// Returns how many words of 8 bytes two offsets are together, where that is exact and fits 16 bits with
/// a sign.
pub(crate) fn words_of_sum(first: i64, second: i64) -> Option<i16>
    ensures { result ≡ signed_units_of 8 (first +ℤ second) }
{
    signed_units_of(i128::from(first) + i128::from(second))
}

/// Returns how many words of 8 bytes an offset is, where that is exact and fits 16 bits with a sign.
#[tactic(auto, unfolding(crate::specs::Units::signed_units_of))]
fn signed_units_of(offset: i128) -> Option<i16>
    requires low { negsuc (2 ^ 65) ≤ℤ offset }
    requires high { offset ≤ℤ pos (2 ^ 65) }
    ensures { result ≡ signed_units_of 8 offset }
{
    let units = offset / 8;
    if units * 8 != offset {
        return None;
    }
    i16::try_from(units).ok()
}
