//! The unwind rule inside a prologue on x86_64.
//!
//! If the next instruction is one that is expected in a prologue, the pushes before the pc are
//! counted backwards. Instructions have different sizes, so a byte that is read backwards can be
//! the last one of another instruction than it seems to be.
ghost use Rattle.std.specs.Prelude.{◌≡◌, ℕ, ◌+◌, ◌-◌, ◌<◌, ◌≤◌, ◌↔◌, true, length, slice_get, Some, IsTrue, MatchOption, IfSome, OnSome, OnSome};
ghost use Rattle.framehop_core.specs.X86_64.Rules.{is_executable};
ghost use Rattle.framehop_analysis.specs.Answer.{IsOnly};
ghost use Rattle.framehop_analysis.specs.X86_64.Bytes.{is_push};
ghost use Rattle.framehop_analysis.specs.X86_64.Prologue.{IsPushBefore, IsFrameSetUpBefore, AreLongestPushes, IsNext, begins_prologue, IsRuleOfPushes, IsPrologueRule, ReachesFrom, UndoesPrologue};

use super::bytes::{byte_at, is_prefix, is_push};
use framehop_core::x86_64::UnwindRuleX86_64;

/// Returns the unwind rule at a pc inside a prologue, or `None` where the bytes from the pc on are
/// not expected in one.
///
/// `text_bytes` has the function's code, and `pc_offset` is the offset of the pc in it, in bytes.
pub fn unwind_rule_from_detected_prologue(
    text_bytes: &[u8],
    pc_offset: usize,
) -> Option<UnwindRuleX86_64>
    requires { pc_offset ≤ length text_bytes.now }
    ensures exact { (rule : UnwindRuleX86_64)
        → (result ≡ Some rule) ↔ IsPrologueRule text_bytes.now pc_offset rule }
    ensures simulation { IfSome result (UndoesPrologue text_bytes.now pc_offset) }
    ensures reaches { OnSome result (ReachesFrom text_bytes.now pc_offset) }
    ensures executable { IfSome result (λ rule. IsTrue (is_executable rule)) }
{
    detect_prologue(text_bytes, pc_offset)
}

/// Finds the rule of a prologue.
fn detect_prologue(text_bytes: &[u8], pc_offset: usize) -> Option<UnwindRuleX86_64>
    requires { pc_offset ≤ length text_bytes.now }
    ensures { IsOnly (IsPrologueRule text_bytes.now pc_offset) result }
{
    if !is_next_instruction_expected_in_prologue(text_bytes, pc_offset) {
        return None;
    }
    let (start, pushes) = pushes_before(text_bytes, pc_offset);
    rule_of_pushes(text_bytes, start, pushes)
}

/// Returns the rule of so many pushes from an offset on, or `None` where there are too many.
fn rule_of_pushes(text_bytes: &[u8], start: usize, pushes: usize) -> Option<UnwindRuleX86_64>
    requires { start ≤ length text_bytes.now }
    ensures { IsOnly (IsRuleOfPushes text_bytes.now start pushes) result }
{
    if is_frame_set_up_before(text_bytes, start) {
        return Some(UnwindRuleX86_64::UseFramePointer);
    }
    // Add one for popping the return address.
    let sp_offset_by_8 = u16::try_from(pushes).ok()?.checked_add(1)?;
    Some(UnwindRuleX86_64::OffsetSp { sp_offset_by_8 })
}

/// Returns where the pushes that end at the pc start, and how many there are.
fn pushes_before(text_bytes: &[u8], pc_offset: usize) -> (usize, usize)
    requires { pc_offset ≤ length text_bytes.now }
    ensures longest { AreLongestPushes text_bytes.now pc_offset result.0 result.1 }
    ensures within { result.0 + result.1 ≤ pc_offset }
{
    let mut start = pc_offset;
    let mut pushes = 0usize;
    while let Some(before) = push_before(text_bytes, start) {
        start = before;
        pushes += 1;
    }
    (start, pushes)
}

/// Returns where the push that ends at the offset starts, with its prefix if it has one, or `None`
/// where no push ends there.
fn push_before(text_bytes: &[u8], end: usize) -> Option<usize>
    requires { end ≤ length text_bytes.now }
    ensures { MatchOption result
        ((opcode : ℕ) → 0 < end → slice_get text_bytes.now (end - 1) ≡ Some opcode
        → is_push opcode ≡ true → ⊥)
        (IsPushBefore text_bytes.now end) }
{
    if end == 0 {
        return None;
    }
    let opcode = byte_at(text_bytes, end - 1)?;
    if !is_push(opcode) {
        return None;
    }
    if end == 1 {
        return Some(0);
    }
    match byte_at(text_bytes, end - 2) {
        Some(prefix) if is_prefix(prefix) => Some(end - 2),
        _ => Some(end - 1),
    }
}

/// Returns whether `push rbp; mov rbp, rsp` is before the offset.
fn is_frame_set_up_before(text_bytes: &[u8], at: usize) -> bool
    requires { at ≤ length text_bytes.now }
    ensures { IsTrue result ↔ IsFrameSetUpBefore text_bytes.now at }
{
    at >= 4
        && text_bytes[at - 4] == 0x55
        && text_bytes[at - 3] == 0x48
        && text_bytes[at - 2] == 0x89
        && text_bytes[at - 1] == 0xe5
}

/// Returns whether the instruction at the pc is expected in a prologue.
fn is_next_instruction_expected_in_prologue(text_bytes: &[u8], pc_offset: usize) -> bool
    requires { pc_offset ≤ length text_bytes.now }
    ensures { IsTrue result ↔ IsNext text_bytes.now pc_offset }
{
    if text_bytes.len() - pc_offset < 4 {
        return false;
    }
    begins_prologue(
        text_bytes[pc_offset],
        text_bytes[pc_offset + 1],
        text_bytes[pc_offset + 2],
    )
}

/// Returns whether an instruction that is expected in a prologue begins with these bytes.
fn begins_prologue(a: u8, b: u8, c: u8) -> bool
    ensures { result ≡ begins_prologue a b c }
{
    match (a, b, c) {
        // sub rsp, imm8
        (0x83, 0xec, _) | (0x48, 0x83, 0xec) => true,
        // sub rsp, imm32
        (0x81, 0xec, _) | (0x48, 0x81, 0xec) => true,
        // mov rbp, rsp
        (0x48, 0x89, 0xe5) => true,
        // push, perhaps with a prefix
        _ => is_push(a) || (is_prefix(a) && is_push(b)),
    }
}
