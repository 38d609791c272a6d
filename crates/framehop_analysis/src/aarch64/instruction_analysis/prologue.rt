//! The unwind rule inside a prologue on aarch64.
//!
//! Instructions have a fixed size, so the prologue is read backwards from the pc: the start of the
//! function is often not known, and the slice can begin in an earlier one. If the next instruction
//! is one that is expected in a prologue, the instructions before it are taken to belong to that
//! prologue as long as they look like it, and the first that does not is taken to belong to the
//! function before.
ghost use Rattle.std.specs.Prelude.{◌≡◌, ℕ, ◌+◌, ◌-◌, ◌*◌, ◌<◌, ◌^◌, pos, negsuc, ◌≤ℤ◌, true, List, Some, MatchOption, IfSome, OnSome, ◌↔◌};
ghost use Rattle.framehop_analysis.specs.Answer.{IsOnly};
ghost use Rattle.framehop_analysis.specs.Aarch64.Words.{word_at};
ghost use Rattle.framehop_analysis.specs.Aarch64.Prologue.{is_run_word, lowered_by, lowered, IsLongestRun, is_prologue_word, is_plain_store, IsRuleOfDepth, IsPrologueRule, ReachesFrom, UndoesPrologue};

use super::units::units_of_16;
use super::words::{
    immediate, is_add_fp, is_indexed, is_pacibsp, is_store, is_sub_sp, pair_offset, word_at,
};
use framehop_core::aarch64::UnwindRuleAarch64;

/// Finds the rule of a prologue.
fn detect_prologue(slice_from_start: &[u8], slice_to_end: &[u8]) -> Option<UnwindRuleAarch64>
    ensures { IsOnly (IsPrologueRule slice_from_start.now slice_to_end.now) result }
{
    let next = word_at(slice_to_end, 0)?;
    if !is_expected_in_prologue(next) {
        return None;
    }
    let sp_offset = sp_offset_of_run(slice_from_start);
    if sp_offset == 0 && is_plain_store(next) {
        return None;
    }
    rule_of_sp_offset(sp_offset)
}

/// Returns whether the instruction is expected in a prologue.
fn is_expected_in_prologue(word: u32) -> bool
    ensures { result ≡ is_prologue_word word }
{
    is_pacibsp(word) || is_store(word) || is_sub_sp(word) || is_add_fp(word)
}

/// Returns whether the instruction stores a pair of registers to the stack and leaves sp.
fn is_plain_store(word: u32) -> bool
    ensures { result ≡ is_plain_store word }
{
    is_store(word) && !is_indexed(word)
}

/// Steps backwards over the instructions before the pc that belong to its prologue. Returns how
/// many bytes they have lowered sp by.
fn sp_offset_of_run(slice_from_start: &[u8]) -> i128
    ensures { (run : List ℕ) × IsLongestRun slice_from_start.now run × (result ≡ lowered run) }
{
    let mut start = slice_from_start.len() / 4;
    let mut sp_offset = 0i128;
    while let Some(lowered_by) = reverse_step(slice_from_start, start) {
        sp_offset += lowered_by;
        start -= 1;
    }
    sp_offset
}

/// Steps backwards over the instruction before the word with the number `start`. Returns how many
/// bytes it has lowered sp by, or `None` where there is none or it does not belong to a prologue.
fn reverse_step(slice_from_start: &[u8], start: usize) -> Option<i128>
    requires { start * 4 < 2 ^ 64 }
    ensures step { MatchOption result
        ((word : ℕ) → 0 < start → word_at slice_from_start.now (4 * (start - 1)) ≡ Some word
        → is_run_word word ≡ true → ⊥)
        (λ by. (word : ℕ) × (0 < start)
        × (word_at slice_from_start.now (4 * (start - 1)) ≡ Some word)
        × (is_run_word word ≡ true) × (by ≡ lowered_by word)) }
    ensures bounds { IfSome result (λ by. (negsuc 16777215 ≤ℤ by) × (by ≤ℤ pos 16777216)) }
{
    if start == 0 {
        return None;
    }
    reverse_step_instruction(word_at(slice_from_start, 4 * (start - 1))?)
}

/// Returns how many bytes an instruction of a prologue that has been executed lowers sp by, or
/// `None` of any other instruction.
fn reverse_step_instruction(word: u32) -> Option<i128>
    ensures step { MatchOption result (is_run_word word ≡ true → ⊥)
        (λ by. (is_run_word word ≡ true) × (by ≡ lowered_by word)) }
    ensures bounds { IfSome result (λ by. (negsuc 16777215 ≤ℤ by) × (by ≤ℤ pos 16777216)) }
{
    if is_store(word) {
        if is_indexed(word) {
            return Some(-pair_offset(word));
        }
        return Some(0);
    }
    if is_sub_sp(word) {
        return Some(immediate(word));
    }
    if is_pacibsp(word) {
        return Some(0);
    }
    None
}

/// Returns the rule that raises sp by so many bytes, or `None` where there is none.
fn rule_of_sp_offset(sp_offset: i128) -> Option<UnwindRuleAarch64>
    ensures { IsOnly (IsRuleOfDepth sp_offset) result }
{
    let sp_offset_by_16 = units_of_16(sp_offset)?;
    if sp_offset_by_16 == 0 {
        Some(UnwindRuleAarch64::NoOp)
    } else {
        Some(UnwindRuleAarch64::OffsetSp { sp_offset_by_16 })
    }
}

/// Returns the unwind rule at a pc inside a prologue, or `None` where the instructions around the
/// pc are not recognised as one.
///
/// `slice_from_start` has the code up to the pc, from the start of the function or earlier, and
/// `slice_to_end` the code from the pc on.
///
/// There is also no rule where the prologue has lowered sp by an amount that is not a multiple of
/// 16 bytes or too great for the rule.
pub fn unwind_rule_from_detected_prologue(
    slice_from_start: &[u8],
    slice_to_end: &[u8],
) -> Option<UnwindRuleAarch64>
    ensures exact { (rule : UnwindRuleAarch64)
        → (result ≡ Some rule) ↔ IsPrologueRule slice_from_start.now slice_to_end.now rule }
    ensures simulation { IfSome result (UndoesPrologue slice_from_start.now) }
    ensures reaches { OnSome result (ReachesFrom slice_from_start.now) }
{
    detect_prologue(slice_from_start, slice_to_end)
}
