//! The unwind rule inside an epilogue on aarch64.
//!
//! The instructions from the pc on are read up to the end of the function, which is a return or a
//! tail call. They say where the caller's sp is, and from where fp and lr are restored.
ghost use Rattle.std.specs.Prelude.{◌≡◌, ℕ, ◌+◌, ◌-◌, ◌*◌, ◌<◌, ◌≤◌, ◌^◌, pos, negsuc, ◌≤ℤ◌, ◌+ℤ◌, ◌==◌, if◌then◌else◌, true, List, length, Some, IsTrue, MatchOption, IfSome, OnSome, ◌↔◌};
ghost use Rattle.framehop_analysis.specs.Answer.{IsOnly};
ghost use Rattle.framehop_analysis.specs.Aarch64.Words.{word_at, AreWordsAt, addressing};
ghost use Rattle.framehop_analysis.specs.Aarch64.Epilogue.{is_restoring, moves_sp, is_call_word, check_words, at_pc, IsAuthenticatedCall, IsEnd, IsInsideCall, IsInsideCallAfter, IsAtTailCall, IsRestored, IsEpilogueRule, EndsFrom, DoesEpilogue, places_after, place_after_load, IsRuleOfPlaces};
ghost use Rattle.framehop_analysis.specs.Aarch64.Detector.{places_of};

use super::units::{units_of_8, units_of_16};
use super::words::{
    first_register, has_word, immediate, is_add_sp, is_b, is_br, is_braa, is_indexed, is_load,
    is_mov, is_post_indexed, is_return, pair_offset, second_register, word_at,
};
use framehop_core::aarch64::UnwindRuleAarch64;

/// `autibsp`
const AUTIBSP: u32 = 0xd50323ff;

/// `eor x16, x30, x30, lsl #1`
const EOR: u32 = 0xca1e07d0;

/// `tbz x16, #62, #8`
const TBZ: u32 = 0xb6f00050;

/// `brk #0xc471`
const BRK: u32 = 0xd4388e20;

/// What the instructions of an epilogue have restored so far: offsets in bytes from sp at the pc.
#[derive(Clone, Copy)]
struct EpilogueDetectorAarch64 {
    sp_offset: i128,
    fp_offset_from_initial_sp: Option<i128>,
    lr_offset_from_initial_sp: Option<i128>,
}

impl EpilogueDetectorAarch64 {
    fn new() -> Self
        ensures places { places_of result ≡ at_pc }
        ensures start { result.sp_offset ≡ pos 0 }
    {
        Self {
            sp_offset: 0,
            fp_offset_from_initial_sp: None,
            lr_offset_from_initial_sp: None,
        }
    }

    /// Steps over an instruction that restores.
    fn step_instruction(self, word: u32) -> Self
        requires low { negsuc (2 ^ 100) ≤ℤ self.sp_offset }
        requires high { self.sp_offset ≤ℤ pos (2 ^ 100) }
        ensures places { places_of result ≡ places_after (places_of self) word }
        ensures least { self.sp_offset ≤ℤ (result.sp_offset +ℤ pos 512) }
        ensures most { result.sp_offset ≤ℤ (self.sp_offset +ℤ pos 16777216) }
    {
        if !is_load(word) {
            return Self {
                sp_offset: self.sp_offset + immediate(word),
                ..self
            };
        }
        let moved = self.sp_offset + pair_offset(word);
        let place = place_of_load(word, self.sp_offset, moved);
        Self {
            sp_offset: sp_after_load(word, self.sp_offset, moved),
            fp_offset_from_initial_sp: place_after_load(
                word,
                29,
                place,
                self.fp_offset_from_initial_sp,
            ),
            lr_offset_from_initial_sp: place_after_load(
                word,
                30,
                place,
                self.lr_offset_from_initial_sp,
            ),
        }
    }

    /// Returns the rule of what has been restored, or `None` where there is none.
    fn rule(self) -> Option<UnwindRuleAarch64>
        ensures { IsOnly (IsRuleOfPlaces (places_of self)) result }
    {
        let sp_offset_by_16 = units_of_16(self.sp_offset)?;
        match (
            self.fp_offset_from_initial_sp,
            self.lr_offset_from_initial_sp,
        ) {
            (None, None) => {
                if sp_offset_by_16 == 0 {
                    Some(UnwindRuleAarch64::NoOp)
                } else {
                    Some(UnwindRuleAarch64::OffsetSp { sp_offset_by_16 })
                }
            }
            (None, Some(lr_offset)) => Some(UnwindRuleAarch64::OffsetSpAndRestoreLr {
                sp_offset_by_16,
                lr_storage_offset_from_sp_by_8: units_of_8(lr_offset)?,
            }),
            (Some(_), None) => None,
            (Some(fp_offset), Some(lr_offset)) => {
                Some(UnwindRuleAarch64::OffsetSpAndRestoreFpAndLr {
                    sp_offset_by_16,
                    fp_storage_offset_from_sp_by_8: units_of_8(fp_offset)?,
                    lr_storage_offset_from_sp_by_8: units_of_8(lr_offset)?,
                })
            }
        }
    }
}

/// Returns where a load of a pair begins: a post-indexed one at sp before it has moved.
fn place_of_load(word: u32, sp_offset: i128, moved: i128) -> i128
    requires low { sp_offset ≤ℤ (moved +ℤ pos 512) }
    requires high { moved ≤ℤ (sp_offset +ℤ pos 504) }
    ensures value { result ≡ (if addressing word == 1 then sp_offset else moved) }
    ensures least { sp_offset ≤ℤ (result +ℤ pos 512) }
    ensures most { result ≤ℤ (sp_offset +ℤ pos 504) }
{
    if is_post_indexed(word) {
        sp_offset
    } else {
        moved
    }
}

/// Returns where sp is after a load of a pair: only a plain one leaves it.
fn sp_after_load(word: u32, sp_offset: i128, moved: i128) -> i128
    requires low { sp_offset ≤ℤ (moved +ℤ pos 512) }
    requires high { moved ≤ℤ (sp_offset +ℤ pos 504) }
    ensures value { result ≡ (if addressing word == 2 then sp_offset else moved) }
    ensures least { sp_offset ≤ℤ (result +ℤ pos 512) }
    ensures most { result ≤ℤ (sp_offset +ℤ pos 504) }
{
    if is_indexed(word) { moved } else { sp_offset }
}

/// Returns the place of a register after a load of a pair from `place`.
fn place_after_load(word: u32, register: u32, place: i128, old: Option<i128>) -> Option<i128>
    requires low { negsuc (2 ^ 101) ≤ℤ place }
    requires high { place ≤ℤ pos (2 ^ 101) }
    ensures { result ≡ place_after_load word register place old }
{
    if second_register(word) == register {
        Some(place + 8)
    } else if first_register(word) == register {
        Some(place)
    } else {
        old
    }
}

/// Finds the rule of an epilogue.
fn detect_epilogue(text_bytes: &[u8], pc_offset: usize) -> Option<UnwindRuleAarch64>
    requires { pc_offset ≤ length text_bytes.now }
    ensures { IsOnly (IsEpilogueRule text_bytes.now pc_offset) result }
{
    if is_restored(text_bytes, pc_offset) {
        return Some(UnwindRuleAarch64::NoOp);
    }
    let mut detector = EpilogueDetectorAarch64::new();
    let mut at = pc_offset;
    while let Some(word) = restoring_word_at(text_bytes, at) {
        detector = detector.step_instruction(word);
        at += 4;
    }
    if !is_end(text_bytes, at, detector.sp_offset) {
        return None;
    }
    detector.rule()
}

/// Returns whether everything has been restored before the pc, and what follows is a tail call.
fn is_restored(text_bytes: &[u8], pc_offset: usize) -> bool
    requires { pc_offset ≤ length text_bytes.now }
    ensures { IsTrue result ↔ IsRestored text_bytes.now pc_offset }
{
    is_in_auth_tail_call(text_bytes, pc_offset) || is_at_tail_call(text_bytes, pc_offset)
}

/// Returns whether the pc is at a branch after an instruction that moves sp.
///
/// The branch could lead to a place inside the function. It is taken for a tail call where the
/// instruction before it looks like one of an epilogue.
fn is_at_tail_call(text_bytes: &[u8], pc_offset: usize) -> bool
    requires { pc_offset ≤ length text_bytes.now }
    ensures { IsTrue result ↔ IsAtTailCall text_bytes.now pc_offset }
{
    if pc_offset < 4 {
        return false;
    }
    match (
        word_at(text_bytes, pc_offset),
        word_at(text_bytes, pc_offset - 4),
    ) {
        (Some(branch), Some(before)) => {
            (is_b(branch) || is_br(branch)) && instruction_adjusts_stack_pointer(before)
        }
        _ => false,
    }
}

/// Returns whether the instruction moves sp as one of an epilogue does.
fn instruction_adjusts_stack_pointer(word: u32) -> bool
    ensures { result ≡ moves_sp word }
{
    (is_load(word) && is_indexed(word)) || is_add_sp(word)
}

/// Returns whether the pc is inside an authenticated tail call, after any number of its words.
fn is_in_auth_tail_call(text_bytes: &[u8], pc_offset: usize) -> bool
    ensures { IsTrue result ↔ IsInsideCall text_bytes.now pc_offset }
{
    let Some(word) = word_at(text_bytes, pc_offset) else {
        return false;
    };
    for before in 0..6 {
        if is_word_of_auth_tail_call(word, before)
            && is_in_auth_tail_call_after(text_bytes, pc_offset, before)
        {
            return true;
        }
    }
    false
}

/// Returns whether the instruction can be in an authenticated tail call after so many others.
fn is_word_of_auth_tail_call(word: u32, before: usize) -> bool
    ensures { result ≡ is_call_word before word }
{
    match before {
        0 => word == AUTIBSP,
        1 => word == EOR,
        2 => word == TBZ,
        3 => word == BRK,
        4 => is_b(word) || is_mov(word),
        5 => is_braa(word),
        _ => false,
    }
}

/// Returns whether the pc is inside an authenticated tail call, after so many of its words.
fn is_in_auth_tail_call_after(text_bytes: &[u8], pc_offset: usize, before: usize) -> bool
    requires { before < 6 }
    ensures { IsTrue result ↔ IsInsideCallAfter text_bytes.now pc_offset before }
{
    if pc_offset < 4 * before {
        return false;
    }
    match auth_tail_call_len(text_bytes, pc_offset - 4 * before) {
        Some(len) => before < len,
        None => false,
    }
}

/// Returns how many words the authenticated tail call at the offset has, or `None` where there is
/// none.
///
/// After restoring the registers from the stack, such a function has `autibsp`, a check of lr and
/// then a tail call. The function could as well return at any of these instructions.
///
/// ```text
/// D50323FF    autibsp
/// CA1E07D0    eor x16, x30, x30, lsl #1
/// B6F00050    tbz x16, #62, to the tail call
/// D4388E20    brk #0xc471
/// ```
///
/// The tail call is `b`, or `mov x16, #imm` and `braa xN, x16`.
fn auth_tail_call_len(text_bytes: &[u8], start: usize) -> Option<usize>
    ensures { MatchOption result
        ((words : List ℕ) → AreWordsAt text_bytes.now start words → IsAuthenticatedCall words → ⊥)
        (λ len. (words : List ℕ) × AreWordsAt text_bytes.now start words
        × IsAuthenticatedCall words × (len ≡ length words)) }
{
    let tail_call = auth_check_end(text_bytes, start)?;
    let first = word_at(text_bytes, tail_call)?;
    if is_b(first) {
        return Some(5);
    }
    let second = word_at(text_bytes, tail_call + 4)?;
    if is_mov(first) && is_braa(second) {
        return Some(6);
    }
    None
}

/// Returns the offset after `autibsp` and the check of lr at the offset, or `None` where there are
/// none.
fn auth_check_end(text_bytes: &[u8], start: usize) -> Option<usize>
    ensures { MatchOption result
        (AreWordsAt text_bytes.now start check_words → ⊥)
        (λ end. AreWordsAt text_bytes.now start check_words × (end ≡ start + 4 + 4 + 4 + 4)) }
{
    if !has_word(text_bytes, start, AUTIBSP) {
        return None;
    }
    let eor = start + 4;
    if !has_word(text_bytes, eor, EOR) {
        return None;
    }
    let tbz = eor + 4;
    if !has_word(text_bytes, tbz, TBZ) {
        return None;
    }
    let brk = tbz + 4;
    if !has_word(text_bytes, brk, BRK) {
        return None;
    }
    Some(brk + 4)
}

/// Returns the instruction at the offset if it is one that restores.
fn restoring_word_at(text_bytes: &[u8], at: usize) -> Option<u32>
    ensures { MatchOption result
        ((word : ℕ) → word_at text_bytes.now at ≡ Some word → is_restoring word ≡ true → ⊥)
        (λ word. (word_at text_bytes.now at ≡ Some word) × (is_restoring word ≡ true)
        × (at + 4 ≤ length text_bytes.now)) }
{
    let word = word_at(text_bytes, at)?;
    if is_load(word) || is_add_sp(word) {
        Some(word)
    } else {
        None
    }
}

/// Returns whether an epilogue that has moved sp by so many bytes ends at the offset: by a return, by a
/// branch where sp has moved, which is taken for a tail call, or by an authenticated tail call.
fn is_end(text_bytes: &[u8], at: usize, moved: i128) -> bool
    ensures { IsTrue result
        ↔ ((words : List ℕ) × AreWordsAt text_bytes.now at words × IsEnd moved words) }
{
    let Some(word) = word_at(text_bytes, at) else {
        return false;
    };
    if is_return(word) {
        return true;
    }
    if is_b(word) && moved != 0 {
        return true;
    }
    auth_tail_call_len(text_bytes, at).is_some()
}

/// Returns the unwind rule at a pc inside an epilogue, or `None` where the instructions from the
/// pc on are not recognised as one.
///
/// `text_bytes` has the function's code, and `pc_offset` is the offset of the pc in it, in bytes.
///
/// There is also no rule where fp is restored and lr is not, or where an offset is not a multiple
/// of the unit of the rule's field or too great for it.
pub fn unwind_rule_from_detected_epilogue(
    text_bytes: &[u8],
    pc_offset: usize,
) -> Option<UnwindRuleAarch64>
    requires { pc_offset ≤ length text_bytes.now }
    ensures exact { (rule : UnwindRuleAarch64)
        → (result ≡ Some rule) ↔ IsEpilogueRule text_bytes.now pc_offset rule }
    ensures simulation { IfSome result (DoesEpilogue text_bytes.now pc_offset) }
    ensures ends { OnSome result (EndsFrom text_bytes.now pc_offset) }
{
    detect_epilogue(text_bytes, pc_offset)
}
