//! From a row of call frame information to a frame on aarch64: the rule that most rows are translated
//! to, and the values of the others.
//!
//! A rule can be stored, and runs without the section. So a row is translated wherever a rule has its meaning
//! exactly, and computed elsewhere.
ghost use Rattle.std.specs.Prelude.{◌≡◌, ◌^◌, ◌<◌, ◌||◌, true, None, IfErr, OnOk, OnErr, Ok, Err};
ghost use Rattle.framehop_core.specs.Memory.{Memory, Answering};
ghost use Rattle.framehop_dwarf.specs.Aarch64.{translated_by, by_sp, by_fp, by_saved, beside_fp, with_fp, with_fp_kept, with_lr, or_kept, stepped, scope_of, direct_by, translated, direct_of, Ascends};
ghost use Rattle.framehop_dwarf.specs.Told.{out_of_memory, NeedsNoStack, Has, IsOfValues};
ghost use Rattle.framehop_dwarf.specs.MayTakeMemory.{is_cfa_expression, is_some_expression, has_expression};

use crate::dwarf::{
    DwarfUnwinderError, DwarfUnwinding, eval_cfa_rule, eval_register_rule, units_of, words_of_sum,
};
use crate::evaluation::{DwarfUnwindRegs, EvaluationStorage};
use framehop_cfi::aarch64::{SP, X29, X30};
use framehop_cfi::read_error::ReadError;
use framehop_cfi::row::UnwindTableRow;
use framehop_cfi::rule::{CfaRule, Register, RegisterRule};
use framehop_cfi::storage::UnwindContextStorage;
use framehop_core::aarch64::arch::ArchAarch64;
use framehop_core::aarch64::unwind_rule::UnwindRuleAarch64;
use framehop_core::aarch64::unwindregs::UnwindRegsAarch64;
use framehop_core::unwind_result::UnwindResult;
use std::alloc::Global;

impl DwarfUnwindRegs for UnwindRegsAarch64 {
    ghost use Rattle.framehop_dwarf.specs.Aarch64.{column_of};

    ghost column = { column_of };

    fn get(&self, register: Register) -> Option<u64> {
        match register {
            X29 => Some(self.fp()),
            X30 => Some(self.lr()),
            SP => Some(self.sp()),
            _ => None,
        }
    }
}

impl DwarfUnwinding for ArchAarch64 {
    ghost use Rattle.framehop_dwarf.specs.Aarch64.{translated, direct_of, RowMeans, ColumnsMean, Ascends};
    ghost use Rattle.framehop_dwarf.specs.Laws.Aarch64.{rule-means, values-mean};
    ghost use Rattle.framehop_core.specs.declared.aarch64.unwind_rule.UnwindRuleAarch64.TheVariants.{NoOpIfFirstFrameOtherwiseFp};

    ghost translated = { translated };

    ghost direct = { direct_of };

    ghost row_means = { RowMeans };

    ghost columns_mean = { ColumnsMean };

    ghost ascends = { Ascends };

    ghost uncovered = { NoOpIfFirstFrameOtherwiseFp };

    ghost rule_means = { rule-means };

    ghost values_mean = { values-mean };

    fn unwind_frame<S: UnwindContextStorage, E: EvaluationStorage, F>(
        alloc: Global,
        section: &[u8],
        unwind_info: &UnwindTableRow<S>,
        regs: &mut UnwindRegsAarch64,
        is_first_frame: bool,
        read_stack: &mut F,
    ) -> Result<UnwindResult<UnwindRuleAarch64>, DwarfUnwinderError>
    where
        F: FnMut(u64) -> Result<u64, ()>,
    {
        if let Some(rule) = rule_of_row(unwind_info) {
            return Ok(UnwindResult::ExecRule(rule));
        }
        let return_address = unwind_by_row::<S, E, F>(
            alloc,
            section,
            unwind_info,
            regs,
            is_first_frame,
            read_stack,
        )?;
        Ok(UnwindResult::Uncacheable(return_address))
    }

    fn rule_if_uncovered_by_fde() -> UnwindRuleAarch64 {
        UnwindRuleAarch64::NoOpIfFirstFrameOtherwiseFp
    }
}

/// Returns the rule that a row is translated to, if it is.
#[tactic(auto, unfolding(crate::specs::Aarch64::translated))]
fn rule_of_row<S: UnwindContextStorage>(
    unwind_info: &UnwindTableRow<S>,
) -> Option<UnwindRuleAarch64>
    ensures { result ≡ translated unwind_info.now }
{
    let fp_rule = unwind_info.register(X29);
    let lr_rule = unwind_info.register(X30);
    translate_into_unwind_rule(*unwind_info.cfa(), fp_rule, lr_rule)
}

/// Returns the rule that a row is translated to, or `None` where its values are computed on the spot.
fn translate_into_unwind_rule(
    cfa_rule: CfaRule,
    fp_rule: Option<RegisterRule>,
    lr_rule: Option<RegisterRule>,
) -> Option<UnwindRuleAarch64>
    ensures { result ≡ translated_by cfa_rule fp_rule lr_rule }
{
    match cfa_rule {
        CfaRule::RegisterAndOffset { register, offset } => {
            if register == SP {
                return translate_by_sp(offset, fp_rule, lr_rule);
            }
            if register == X29 {
                return translate_by_fp(offset, fp_rule, lr_rule);
            }
            None
        }
        CfaRule::Expression(_) => None,
    }
}

/// Returns the rule of a row whose CFA is sp plus an offset in bytes.
fn translate_by_sp(
    offset: i64,
    fp_rule: Option<RegisterRule>,
    lr_rule: Option<RegisterRule>,
) -> Option<UnwindRuleAarch64>
    ensures { result ≡ by_sp offset fp_rule lr_rule }
{
    match units_of(16, offset) {
        Some(sp_offset_by_16) => translate_with_lr(sp_offset_by_16, offset, fp_rule, lr_rule),
        None => None,
    }
}

/// Returns the rule of a row whose CFA is sp plus so many units of 16 bytes.
fn translate_with_lr(
    sp_offset_by_16: u16,
    offset: i64,
    fp_rule: Option<RegisterRule>,
    lr_rule: Option<RegisterRule>,
) -> Option<UnwindRuleAarch64>
    ensures { result ≡ with_lr sp_offset_by_16 offset fp_rule lr_rule }
{
    let offset_sp = UnwindRuleAarch64::OffsetSp { sp_offset_by_16 };
    let Some(lr_rule) = lr_rule else {
        return translate_with_fp_kept(offset_sp, fp_rule);
    };
    match lr_rule {
        RegisterRule::SameValue => translate_with_fp_kept(offset_sp, fp_rule),
        RegisterRule::Undefined => {
            let stack_ends = UnwindRuleAarch64::OffsetSpIfFirstFrameOtherwiseStackEndsHere {
                sp_offset_by_16,
            };
            translate_with_fp_kept(stack_ends, fp_rule)
        }
        RegisterRule::Offset(lr_offset) => match words_of_sum(offset, lr_offset) {
            Some(lr_words) => translate_with_fp(sp_offset_by_16, offset, lr_words, fp_rule),
            None => None,
        },
        _ => None,
    }
}

/// Returns a rule that keeps fp, where the row does.
fn translate_with_fp_kept(
    rule: UnwindRuleAarch64,
    fp_rule: Option<RegisterRule>,
) -> Option<UnwindRuleAarch64>
    ensures { result ≡ with_fp_kept rule fp_rule }
{
    let Some(fp_rule) = fp_rule else {
        return Some(rule);
    };
    match fp_rule {
        RegisterRule::Undefined => Some(rule),
        RegisterRule::SameValue => Some(rule),
        _ => None,
    }
}

/// Returns the rule of a row that saves lr so many words from sp.
fn translate_with_fp(
    sp_offset_by_16: u16,
    offset: i64,
    lr_storage_offset_from_sp_by_8: i16,
    fp_rule: Option<RegisterRule>,
) -> Option<UnwindRuleAarch64>
    ensures { result ≡ with_fp sp_offset_by_16 offset lr_storage_offset_from_sp_by_8 fp_rule }
{
    let restore_lr = UnwindRuleAarch64::OffsetSpAndRestoreLr {
        sp_offset_by_16,
        lr_storage_offset_from_sp_by_8,
    };
    let Some(fp_rule) = fp_rule else {
        return Some(restore_lr);
    };
    match fp_rule {
        RegisterRule::Undefined => Some(restore_lr),
        RegisterRule::SameValue => Some(restore_lr),
        RegisterRule::Offset(fp_offset) => match words_of_sum(offset, fp_offset) {
            Some(fp_storage_offset_from_sp_by_8) => {
                Some(UnwindRuleAarch64::OffsetSpAndRestoreFpAndLr {
                    sp_offset_by_16,
                    fp_storage_offset_from_sp_by_8,
                    lr_storage_offset_from_sp_by_8,
                })
            }
            None => None,
        },
        _ => None,
    }
}

/// Returns the rule of a row whose CFA is fp plus an offset in bytes.
fn translate_by_fp(
    offset: i64,
    fp_rule: Option<RegisterRule>,
    lr_rule: Option<RegisterRule>,
) -> Option<UnwindRuleAarch64>
    ensures { result ≡ by_fp offset fp_rule lr_rule }
{
    let Some(RegisterRule::Offset(fp_offset)) = fp_rule else {
        return None;
    };
    let Some(RegisterRule::Offset(lr_offset)) = lr_rule else {
        return None;
    };
    translate_saved(offset, fp_offset, lr_offset)
}

/// Returns the same, but for the usual pair of words, which has a rule of its own.
fn translate_saved(offset: i64, fp_offset: i64, lr_offset: i64) -> Option<UnwindRuleAarch64>
    ensures { result ≡ by_saved offset fp_offset lr_offset }
{
    if offset == 16 && fp_offset == -16 && lr_offset == -8 {
        return Some(UnwindRuleAarch64::UseFramePointer);
    }
    translate_beside_fp(offset, fp_offset, lr_offset)
}

/// Returns the rule of a row whose CFA is fp plus an offset in bytes, and which saves fp and lr at
/// offsets from the CFA.
fn translate_beside_fp(offset: i64, fp_offset: i64, lr_offset: i64) -> Option<UnwindRuleAarch64>
    ensures { result ≡ beside_fp offset fp_offset lr_offset }
{
    let Some(sp_offset_from_fp_by_8) = units_of(8, offset) else {
        return None;
    };
    let Some(fp_storage_offset_from_fp_by_8) = words_of_sum(offset, fp_offset) else {
        return None;
    };
    let Some(lr_storage_offset_from_fp_by_8) = words_of_sum(offset, lr_offset) else {
        return None;
    };
    Some(UnwindRuleAarch64::UseFramepointerWithOffsets {
        sp_offset_from_fp_by_8,
        fp_storage_offset_from_fp_by_8,
        lr_storage_offset_from_fp_by_8,
    })
}

/// Computes the caller's registers by a row, and writes them. Returns the return address.
#[tactic(auto, using(crate::proofs::MayTakeMemory::of_row), unfolding(crate::specs::Aarch64::direct_of))]
fn unwind_by_row<S: UnwindContextStorage, E: EvaluationStorage, F>(
    alloc: Global,
    section: &[u8],
    unwind_info: &UnwindTableRow<S>,
    regs: &mut UnwindRegsAarch64,
    is_first_frame: bool,
    read_stack: &mut F,
) -> Result<u64, DwarfUnwinderError>
where
    F: FnMut(u64) -> Result<u64, ()>,
    requires { F.IsAlwaysCallable read_stack.old }
    ensures callable { F.IsAlwaysCallable read_stack.new }
    ensures kept { OnErr result (regs.new ≡ regs.old) }
    ensures refused { IfErr result IsOfValues }
    ensures unread { IfErr result (λ error. NeedsNoStack error → read_stack.new ≡ read_stack.old) }
    ensures ascends { OnOk result (Ascends is_first_frame regs.old regs.new) }
    ensures memory { result ≡ Err out_of_memory → (E.Stack.limit ≡ None) × (has_expression unwind_info.now ≡ true) }
    ensures answers { Answering F.FnMut read_stack.old read_stack.new (λ memory.
        Has (direct_of section.now E.Stack.limit memory unwind_info.now is_first_frame regs.old) result regs.new) }
{
    let fp_rule = unwind_info.register(X29);
    let lr_rule = unwind_info.register(X30);
    unwind_directly::<E, F>(
        alloc,
        section,
        *unwind_info.cfa(),
        fp_rule,
        lr_rule,
        regs,
        is_first_frame,
        read_stack,
    )
}

/// Computes the caller's registers by a row's rules, and writes them. Returns the return address.
fn unwind_directly<E: EvaluationStorage, F>(
    alloc: Global,
    section: &[u8],
    cfa_rule: CfaRule,
    fp_rule: Option<RegisterRule>,
    lr_rule: Option<RegisterRule>,
    regs: &mut UnwindRegsAarch64,
    is_first_frame: bool,
    read_stack: &mut F,
) -> Result<u64, DwarfUnwinderError>
where
    F: FnMut(u64) -> Result<u64, ()>,
    requires { F.IsAlwaysCallable read_stack.old }
    ensures callable { F.IsAlwaysCallable read_stack.new }
    ensures kept { OnErr result (regs.new ≡ regs.old) }
    ensures refused { IfErr result IsOfValues }
    ensures unread { IfErr result (λ error. NeedsNoStack error → read_stack.new ≡ read_stack.old) }
    ensures ascends { OnOk result (Ascends is_first_frame regs.old regs.new) }
    ensures memory { result ≡ Err out_of_memory → (E.Stack.limit ≡ None)
        × ((is_cfa_expression cfa_rule || is_some_expression fp_rule || is_some_expression lr_rule) ≡ true) }
    ensures answers { Answering F.FnMut read_stack.old read_stack.new (λ memory.
        Has (direct_by (scope_of section.now E.Stack.limit regs.old) memory cfa_rule fp_rule lr_rule is_first_frame regs.old) result regs.new) }
{
    let Ok(cfa) = eval_cfa_rule::<UnwindRegsAarch64, E>(alloc, section, &cfa_rule, regs) else {
        return Err(DwarfUnwinderError::UnwindInfoForAddressFailed(ReadError::OutOfMemory));
    };
    let Some(cfa) = cfa else {
        return Err(DwarfUnwinderError::CouldNotRecoverCfa);
    };
    if !is_first_frame && cfa <= regs.sp() {
        return Err(DwarfUnwinderError::StackPointerMovedBackwards);
    }
    let fp = regs.fp();
    let lr = regs.lr();
    let Ok(saved_fp) = eval_register_rule::<UnwindRegsAarch64, E, F>(
        alloc, section, fp_rule, cfa, fp, regs, read_stack,
    ) else {
        return Err(DwarfUnwinderError::UnwindInfoForAddressFailed(ReadError::OutOfMemory));
    };
    let Some(new_fp) = or_kept(is_first_frame, fp, saved_fp) else {
        return Err(DwarfUnwinderError::CouldNotRecoverFramePointer);
    };
    let Ok(saved_lr) = eval_register_rule::<UnwindRegsAarch64, E, F>(
        alloc, section, lr_rule, cfa, lr, regs, read_stack,
    ) else {
        return Err(DwarfUnwinderError::UnwindInfoForAddressFailed(ReadError::OutOfMemory));
    };
    let Some(new_lr) = or_kept(is_first_frame, lr, saved_lr) else {
        return Err(DwarfUnwinderError::CouldNotRecoverReturnAddress);
    };
    Ok(step_to(regs, cfa, new_fp, new_lr))
}

/// Returns a value, or the register's own in a first frame where there is none.
fn or_kept(is_first_frame: bool, value: u64, found: Option<u64>) -> Option<u64>
    ensures { result ≡ or_kept is_first_frame value found }
{
    match found {
        Some(found) => Some(found),
        None => {
            if is_first_frame {
                return Some(value);
            }
            None
        }
    }
}

/// Writes the caller's registers, and returns the stripped lr.
fn step_to(regs: &mut UnwindRegsAarch64, cfa: u64, fp: u64, lr: u64) -> u64
    ensures step { stepped regs.old cfa fp lr ≡ Ok (result, regs.new) }
    ensures sp { regs.new.sp ≡ cfa }
    ensures fits { cfa < 2 ^ 64 }
{
    regs.set_lr(lr);
    regs.set_sp(cfa);
    regs.set_fp(fp);
    regs.lr()
}
