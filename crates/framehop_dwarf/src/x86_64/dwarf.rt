//! From a row of call frame information to a frame on x86_64: the rule that most rows are translated to,
//! and the values of the others.
//!
//! A rule can be stored, and runs without the section. So a row is translated wherever a rule has its meaning
//! exactly, and computed elsewhere.
ghost use Rattle.std.specs.Prelude.{◌≡◌, ◌≢◌, ◌||◌, true, None, IfSome, IfErr, OnErr, Err};
ghost use Rattle.framehop_core.specs.Memory.{Memory, Answering};
ghost use Rattle.framehop_core.specs.X86_64.Rules.{is_executable};
ghost use Rattle.framehop_dwarf.specs.X86_64.{translated_by, by_cfa, by_sp, by_bp, with_bp, with_offsets, below, or_below, scope_of, stepped, direct_by, translated, direct_of};
ghost use Rattle.framehop_dwarf.specs.Told.{out_of_memory, NeedsNoStack, Has, IsOfValues};
ghost use Rattle.framehop_dwarf.specs.MayTakeMemory.{is_cfa_expression, is_some_expression, has_expression};

use crate::dwarf::{
    DwarfUnwinderError, DwarfUnwinding, eval_cfa_rule, eval_register_rule, read_word, units_of,
    words_of_sum,
};
use crate::evaluation::{DwarfUnwindRegs, EvaluationStorage};
use framehop_cfi::read_error::ReadError;
use framehop_cfi::row::UnwindTableRow;
use framehop_cfi::rule::{CfaRule, Register, RegisterRule};
use framehop_cfi::storage::UnwindContextStorage;
use framehop_cfi::x86_64::{RA, RBP, RSP};
use framehop_core::unwind_result::UnwindResult;
use framehop_core::x86_64::arch::ArchX86_64;
use framehop_core::x86_64::unwind_rule::UnwindRuleX86_64;
use framehop_core::x86_64::unwindregs::UnwindRegsX86_64;
use std::alloc::Global;

impl DwarfUnwindRegs for UnwindRegsX86_64 {
    ghost use Rattle.framehop_dwarf.specs.X86_64.{column_of};

    ghost column = { column_of };

    fn get(&self, register: Register) -> Option<u64> {
        match register {
            RA => Some(self.ip()),
            RSP => Some(self.sp()),
            RBP => Some(self.bp()),
            _ => None,
        }
    }
}

impl DwarfUnwinding for ArchX86_64 {
    ghost use Rattle.framehop_dwarf.specs.X86_64.{translated, direct_of, RowMeans, ColumnsMean};
    ghost use Rattle.framehop_dwarf.specs.Laws.X86_64.{rule-means, values-mean};
    ghost use Rattle.framehop_core.specs.declared.x86_64.unwind_rule.UnwindRuleX86_64.TheVariants.{JustReturnIfFirstFrameOtherwiseFp};

    ghost translated = { translated };

    ghost direct = { direct_of };

    ghost row_means = { RowMeans };

    ghost columns_mean = { ColumnsMean };

    ghost ascends = { λ first old new. Unit {0} };

    ghost uncovered = { JustReturnIfFirstFrameOtherwiseFp };

    ghost rule_means = { rule-means };

    ghost values_mean = { values-mean };

    fn unwind_frame<S: UnwindContextStorage, E: EvaluationStorage, F>(
        alloc: Global,
        section: &[u8],
        unwind_info: &UnwindTableRow<S>,
        regs: &mut UnwindRegsX86_64,
        is_first_frame: bool,
        read_stack: &mut F,
    ) -> Result<UnwindResult<UnwindRuleX86_64>, DwarfUnwinderError>
    where
        F: FnMut(u64) -> Result<u64, ()>,
    {
        if let Some(rule) = rule_of_row(unwind_info) {
            return Ok(UnwindResult::ExecRule(rule));
        }
        let return_address = unwind_by_row::<S, E, F>(
            alloc,
            section,
            unwind_info,
            regs,
            is_first_frame,
            read_stack,
        )?;
        Ok(UnwindResult::Uncacheable(return_address))
    }

    fn rule_if_uncovered_by_fde() -> UnwindRuleX86_64 {
        UnwindRuleX86_64::JustReturnIfFirstFrameOtherwiseFp
    }
}

/// Returns the rule that a row is translated to, if it is.
#[tactic(auto, unfolding(crate::specs::X86_64::translated))]
fn rule_of_row<S: UnwindContextStorage>(unwind_info: &UnwindTableRow<S>) -> Option<UnwindRuleX86_64>
    ensures exact { result ≡ translated unwind_info.now }
    ensures executable { IfSome result (λ rule. is_executable rule ≡ true) }
{
    let bp_rule = unwind_info.register(RBP);
    let ra_rule = unwind_info.register(RA);
    translate_into_unwind_rule(*unwind_info.cfa(), bp_rule, ra_rule)
}

/// Returns the rule that a row is translated to, or `None` where its values are computed on the spot.
fn translate_into_unwind_rule(
    cfa_rule: CfaRule,
    bp_rule: Option<RegisterRule>,
    ra_rule: Option<RegisterRule>,
) -> Option<UnwindRuleX86_64>
    ensures exact { result ≡ translated_by cfa_rule bp_rule ra_rule }
    ensures executable { IfSome result (λ rule. is_executable rule ≡ true) }
{
    let Some(ra_rule) = ra_rule else {
        return Some(UnwindRuleX86_64::EndOfStack);
    };
    match ra_rule {
        RegisterRule::Undefined => Some(UnwindRuleX86_64::EndOfStack),
        RegisterRule::Offset(offset) => {
            if offset != -8 {
                return None;
            }
            translate_by_cfa(cfa_rule, bp_rule)
        }
        _ => None,
    }
}

/// Returns the rule of a row whose return address is the word below the CFA.
fn translate_by_cfa(cfa_rule: CfaRule, bp_rule: Option<RegisterRule>) -> Option<UnwindRuleX86_64>
    ensures exact { result ≡ by_cfa cfa_rule bp_rule }
    ensures executable { IfSome result (λ rule. is_executable rule ≡ true) }
{
    match cfa_rule {
        CfaRule::RegisterAndOffset { register, offset } => {
            if register == RSP {
                return translate_by_sp(offset, bp_rule);
            }
            if register == RBP {
                return translate_by_bp(offset, bp_rule);
            }
            None
        }
        CfaRule::Expression(_) => None,
    }
}

/// Returns the rule of a row whose CFA is rsp plus an offset in bytes.
fn translate_by_sp(offset: i64, bp_rule: Option<RegisterRule>) -> Option<UnwindRuleX86_64>
    ensures exact { result ≡ by_sp offset bp_rule }
    ensures executable { IfSome result (λ rule. is_executable rule ≡ true) }
{
    match units_of(8, offset) {
        Some(sp_offset_by_8) => translate_with_bp(sp_offset_by_8, offset, bp_rule),
        None => None,
    }
}

/// Returns the rule of a row whose CFA is rsp plus a number of words.
fn translate_with_bp(
    sp_offset_by_8: u16,
    offset: i64,
    bp_rule: Option<RegisterRule>,
) -> Option<UnwindRuleX86_64>
    ensures exact { result ≡ with_bp sp_offset_by_8 offset bp_rule }
    ensures executable { IfSome result (λ rule. is_executable rule ≡ true) }
{
    let Some(bp_rule) = bp_rule else {
        return Some(UnwindRuleX86_64::OffsetSp { sp_offset_by_8 });
    };
    match bp_rule {
        RegisterRule::Undefined => Some(UnwindRuleX86_64::OffsetSp { sp_offset_by_8 }),
        RegisterRule::SameValue => Some(UnwindRuleX86_64::OffsetSp { sp_offset_by_8 }),
        RegisterRule::Offset(bp_offset) => match words_of_sum(offset, bp_offset) {
            Some(bp_storage_offset_from_sp_by_8) => Some(UnwindRuleX86_64::OffsetSpAndRestoreBp {
                sp_offset_by_8,
                bp_storage_offset_from_sp_by_8,
            }),
            None => None,
        },
        _ => None,
    }
}

/// Returns the rule of a row whose CFA is rbp plus an offset in bytes.
fn translate_by_bp(offset: i64, bp_rule: Option<RegisterRule>) -> Option<UnwindRuleX86_64>
    ensures exact { result ≡ by_bp offset bp_rule }
    ensures executable { IfSome result (λ rule. is_executable rule ≡ true) }
{
    match bp_rule {
        Some(RegisterRule::Offset(bp_offset)) if offset == 16 && bp_offset == -16 => {
            Some(UnwindRuleX86_64::UseFramePointer)
        }
        Some(RegisterRule::Offset(bp_offset)) => translate_with_offsets(offset, bp_offset),
        _ => None,
    }
}

/// Returns the rule of a row whose CFA is rbp plus a number of words, and that saves rbp at an offset in bytes
/// from the CFA.
fn translate_with_offsets(offset: i64, bp_offset: i64) -> Option<UnwindRuleX86_64>
    ensures exact { result ≡ with_offsets offset bp_offset }
    ensures executable { IfSome result (λ rule. is_executable rule ≡ true) }
{
    let sp_offset_from_bp_by_8 = units_of(8, offset)?;
    let bp_storage_offset_from_bp_by_8 = words_of_sum(offset, bp_offset)?;
    Some(UnwindRuleX86_64::UseFramePointerWithOffsets {
        sp_offset_from_bp_by_8,
        bp_storage_offset_from_bp_by_8,
    })
}

/// Computes the caller's registers by a row, and writes them. Returns the return address.
#[tactic(auto, using(crate::proofs::MayTakeMemory::of_row), unfolding(crate::specs::X86_64::direct_of))]
fn unwind_by_row<S: UnwindContextStorage, E: EvaluationStorage, F>(
    alloc: Global,
    section: &[u8],
    unwind_info: &UnwindTableRow<S>,
    regs: &mut UnwindRegsX86_64,
    is_first_frame: bool,
    read_stack: &mut F,
) -> Result<u64, DwarfUnwinderError>
where
    F: FnMut(u64) -> Result<u64, ()>,
    requires { F.IsAlwaysCallable read_stack.old }
    ensures callable { F.IsAlwaysCallable read_stack.new }
    ensures kept { OnErr result (regs.new ≡ regs.old) }
    ensures refused { IfErr result IsOfValues }
    ensures unread { IfErr result (λ error. NeedsNoStack error → read_stack.new ≡ read_stack.old) }
    ensures memory { result ≡ Err out_of_memory → (E.Stack.limit ≡ None) × (has_expression unwind_info.now ≡ true) }
    ensures answers { Answering F.FnMut read_stack.old read_stack.new (λ memory.
        Has (direct_of section.now E.Stack.limit memory unwind_info.now is_first_frame regs.old) result regs.new) }
{
    let bp_rule = unwind_info.register(RBP);
    let ra_rule = unwind_info.register(RA);
    unwind_directly::<E, F>(
        alloc,
        section,
        *unwind_info.cfa(),
        bp_rule,
        ra_rule,
        regs,
        is_first_frame,
        read_stack,
    )
}

/// Computes the caller's registers by a row's rules, and writes them. Returns the return address.
fn unwind_directly<E: EvaluationStorage, F>(
    alloc: Global,
    section: &[u8],
    cfa_rule: CfaRule,
    bp_rule: Option<RegisterRule>,
    ra_rule: Option<RegisterRule>,
    regs: &mut UnwindRegsX86_64,
    is_first_frame: bool,
    read_stack: &mut F,
) -> Result<u64, DwarfUnwinderError>
where
    F: FnMut(u64) -> Result<u64, ()>,
    requires { F.IsAlwaysCallable read_stack.old }
    ensures callable { F.IsAlwaysCallable read_stack.new }
    ensures kept { OnErr result (regs.new ≡ regs.old) }
    ensures refused { IfErr result IsOfValues }
    ensures unread { IfErr result (λ error. NeedsNoStack error → read_stack.new ≡ read_stack.old) }
    ensures memory { result ≡ Err out_of_memory → (E.Stack.limit ≡ None)
        × ((is_cfa_expression cfa_rule || is_some_expression bp_rule || is_some_expression ra_rule) ≡ true) }
    ensures answers { Answering F.FnMut read_stack.old read_stack.new (λ memory.
        Has (direct_by (scope_of section.now E.Stack.limit regs.old) memory cfa_rule bp_rule ra_rule is_first_frame regs.old) result regs.new) }
{
    let Ok(cfa) = eval_cfa_rule::<UnwindRegsX86_64, E>(alloc, section, &cfa_rule, regs) else {
        return Err(DwarfUnwinderError::UnwindInfoForAddressFailed(ReadError::OutOfMemory));
    };
    let Some(cfa) = cfa else {
        return Err(DwarfUnwinderError::CouldNotRecoverCfa);
    };
    let ip = regs.ip();
    let bp = regs.bp();
    let Ok(saved_bp) = eval_register_rule::<UnwindRegsX86_64, E, F>(
        alloc, section, bp_rule, cfa, bp, regs, read_stack,
    ) else {
        return Err(DwarfUnwinderError::UnwindInfoForAddressFailed(ReadError::OutOfMemory));
    };
    let Ok(saved_ip) = eval_register_rule::<UnwindRegsX86_64, E, F>(
        alloc, section, ra_rule, cfa, ip, regs, read_stack,
    ) else {
        return Err(DwarfUnwinderError::UnwindInfoForAddressFailed(ReadError::OutOfMemory));
    };
    let Some(return_address) = or_word_below(saved_ip, cfa, read_stack) else {
        return Err(DwarfUnwinderError::CouldNotRecoverReturnAddress);
    };
    step_to(
        is_first_frame,
        regs,
        cfa,
        saved_bp.unwrap_or(bp),
        return_address,
    )
}

/// Returns the return address, which is the word below the CFA where its rule gives none.
fn or_word_below<F: FnMut(u64) -> Result<u64, ()>>(
    saved: Option<u64>,
    cfa: u64,
    read_stack: &mut F,
) -> Option<u64>
    requires { F.IsAlwaysCallable read_stack.old }
    ensures callable { F.IsAlwaysCallable read_stack.new }
    ensures answers { Answering F.FnMut read_stack.old read_stack.new (λ memory. result ≡ or_below saved (below memory cfa)) }
{
    if saved.is_some() {
        return saved;
    }
    if cfa < 8 {
        return None;
    }
    read_word(read_stack, cfa - 8)
}

/// Writes the caller's registers, and returns its code address; the same frame and one below it are
/// refused.
fn step_to(
    is_first_frame: bool,
    regs: &mut UnwindRegsX86_64,
    cfa: u64,
    new_bp: u64,
    return_address: u64,
) -> Result<u64, DwarfUnwinderError>
    ensures kept { OnErr result (regs.new ≡ regs.old) }
    ensures refused { IfErr result IsOfValues }
    ensures late { IfErr result (λ error. NeedsNoStack error → ⊥) }
    ensures memory { result ≢ Err out_of_memory }
    ensures answers { Has (stepped is_first_frame regs.old cfa new_bp return_address) result regs.new }
{
    if cfa == regs.sp() && return_address == regs.ip() {
        return Err(DwarfUnwinderError::DidNotAdvance);
    }
    if !is_first_frame && cfa < regs.sp() {
        return Err(DwarfUnwinderError::StackPointerMovedBackwards);
    }
    regs.set_ip(return_address);
    regs.set_sp(cfa);
    regs.set_bp(new_bp);
    Ok(return_address)
}
