//! The unwind rule inside an epilogue on x86_64.
//!
//! The pops from the pc on are counted, up to what is taken for the end of the function: a return, or
//! a tail call.
ghost use Rattle.std.specs.Prelude.{◌≡◌, ℕ, ◌+◌, ◌-◌, ◌<◌, ◌≤◌, ◌↔◌, Bool, true, length, Some, IsTrue, MatchOption, IfSome, OnSome, if◌then◌else◌};
ghost use Rattle.framehop_core.specs.X86_64.Rules.{is_executable};
ghost use Rattle.framehop_analysis.specs.Answer.{IsOnly};
ghost use Rattle.framehop_analysis.specs.X86_64.Epilogue.{is_plain_pop, IsPopBytes, is_jump, FollowsPop, IsEnd, IsRuleOfPopped, IsEpilogueRule, EndsFrom, DoesEpilogue};

use super::bytes::{byte_at, is_pop_opcode};
use framehop_core::x86_64::UnwindRuleX86_64;

/// Returns the unwind rule at a pc inside an epilogue, or `None` where the bytes from the pc on are
/// not recognised as one.
///
/// `text_bytes` has the function's code, and `pc_offset` is the offset of the pc in it, in bytes.
pub fn unwind_rule_from_detected_epilogue(
    text_bytes: &[u8],
    pc_offset: usize,
) -> Option<UnwindRuleX86_64>
    requires { pc_offset ≤ length text_bytes.now }
    ensures exact { (rule : UnwindRuleX86_64)
        → (result ≡ Some rule) ↔ IsEpilogueRule text_bytes.now pc_offset rule }
    ensures simulation { IfSome result (DoesEpilogue text_bytes.now pc_offset) }
    ensures ends { OnSome result (EndsFrom text_bytes.now pc_offset) }
    ensures executable { IfSome result (λ rule. IsTrue (is_executable rule)) }
{
    detect_epilogue(text_bytes, pc_offset)
}

/// Finds the rule of an epilogue.
fn detect_epilogue(text_bytes: &[u8], pc_offset: usize) -> Option<UnwindRuleX86_64>
    requires { pc_offset ≤ length text_bytes.now }
    ensures { IsOnly (IsEpilogueRule text_bytes.now pc_offset) result }
{
    let mut at = pc_offset;
    let mut pops = 0usize;
    let mut pops_before_bp = None;
    while let Some((size, is_bp)) = pop_at(text_bytes, at) {
        pops_before_bp = last_of_bp(pops, is_bp, pops_before_bp);
        pops += 1;
        at += size;
    }
    if !is_end(text_bytes, pc_offset, at, pops) {
        return None;
    }
    rule_of_pops(pops, pops_before_bp)
}

/// Returns how many pops come before the last one of rbp, after one more pop.
fn last_of_bp(pops: usize, is_bp: bool, pops_before_bp: Option<usize>) -> Option<usize>
    ensures { result ≡ (if is_bp then Some pops else pops_before_bp) }
{
    if is_bp { Some(pops) } else { pops_before_bp }
}

/// Returns how many bytes the pop at the offset has and whether it is of rbp, or `None` where no
/// pop is. A pop of rsp is none: it changes where the next one reads.
fn pop_at(text_bytes: &[u8], at: usize) -> Option<(usize, bool)>
    ensures exact { MatchOption result
        ((size : ℕ) (is_bp : Bool) → IsPopBytes text_bytes.now at size is_bp → ⊥)
        (λ pop. IsPopBytes text_bytes.now at pop.0 pop.1) }
    ensures within { IfSome result (λ pop. (0 < pop.0) × (at + pop.0 ≤ length text_bytes.now)) }
{
    let first = byte_at(text_bytes, at)?;
    if is_plain_pop(first) {
        return Some((1, first == 0x5d));
    }
    let opcode = byte_at(text_bytes, at + 1)?;
    if first == 0x40 && is_plain_pop(opcode) {
        return Some((2, opcode == 0x5d));
    }
    if first == 0x41 && is_pop_opcode(opcode) {
        return Some((2, false));
    }
    None
}

/// Returns whether the byte is the opcode of a pop of one of the first eight registers but rsp.
fn is_plain_pop(byte: u8) -> bool
    ensures { result ≡ is_plain_pop byte }
{
    is_pop_opcode(byte) && byte != 0x5c
}

/// Returns whether the epilogue ends at the offset, after so many pops from the pc on.
fn is_end(text_bytes: &[u8], pc_offset: usize, at: usize, pops: usize) -> bool
    requires { pc_offset ≤ length text_bytes.now }
    ensures { IsTrue result ↔ IsEnd text_bytes.now pc_offset at pops }
{
    let Some(opcode) = byte_at(text_bytes, at) else {
        return false;
    };
    // ret
    if opcode == 0xc3 {
        return true;
    }
    // This could be a tail call, or a jump inside the function. It is taken for a tail call where
    // it follows a pop.
    is_jump(opcode) && follows_pop(text_bytes, pc_offset, pops)
}

/// Returns whether the byte is taken for the first one of a `jmp`. `FF` also begins `call`, `push` and others,
/// which the next byte would tell apart.
fn is_jump(opcode: u8) -> bool
    ensures { result ≡ is_jump opcode }
{
    opcode == 0xeb || opcode == 0xe9 || opcode == 0xff
}

/// Returns whether what is before the end looks like a pop: one that has been counted, or the byte before
/// the pc, which may also be the last byte of a longer instruction.
fn follows_pop(text_bytes: &[u8], pc_offset: usize, pops: usize) -> bool
    requires { pc_offset ≤ length text_bytes.now }
    ensures { IsTrue result ↔ FollowsPop text_bytes.now pc_offset pops }
{
    if pops != 0 {
        return true;
    }
    if pc_offset == 0 {
        return false;
    }
    match byte_at(text_bytes, pc_offset - 1) {
        Some(before) => is_pop_opcode(before),
        None => false,
    }
}

/// Returns the rule of so many pops, or `None` where a count is too great for it.
fn rule_of_pops(pops: usize, pops_before_bp: Option<usize>) -> Option<UnwindRuleX86_64>
    ensures { IsOnly (IsRuleOfPopped record { count = pops; before_bp = pops_before_bp }) result }
{
    if pops == 0 {
        return Some(UnwindRuleX86_64::JustReturn);
    }
    // Add one for popping the return address.
    let sp_offset_by_8 = u16::try_from(pops).ok()?.checked_add(1)?;
    match pops_before_bp {
        None => Some(UnwindRuleX86_64::OffsetSp { sp_offset_by_8 }),
        Some(before) => Some(UnwindRuleX86_64::OffsetSpAndRestoreBp {
            sp_offset_by_8,
            bp_storage_offset_from_sp_by_8: i16::try_from(before).ok()?,
        }),
    }
}
