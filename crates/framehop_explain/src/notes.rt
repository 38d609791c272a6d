//! Notes of frames, one for each.
ghost use Rattle.std.specs.Prelude.{◌≡◌, ◌+◌, length, map, option_map, Some, IfOk, OnOk};
ghost use Rattle.framehop_core.specs.CodeAddress.{location_of, lookup_address, at_instruction_pointer};
ghost use Rattle.framehop_core.specs.Memory.{reply};
ghost use Rattle.framehop_core.specs.Outcome.{answer_of, registers_after};
ghost use Rattle.framehop.specs.CachedWorld.{step_of};
ghost use Rattle.framehop.specs.Walk.{walk_from};
ghost use Rattle.framehop_explain.specs.Callers.{caller_by, frames_from, located};
ghost use Rattle.framehop_explain.specs.Found.{IsFinding, explaining_by, finding_of};
ghost use Rattle.framehop_explain.specs.FrameNotes.{IsFrameNote, AddsNote, AddsNotes};
ghost use Rattle.framehop_explain.specs.FrameText.{frame_text};
ghost use Rattle.framehop_explain.specs.Note.{note_line};

use crate::explain::{Explanation, explain_frame};
use crate::note::Note;
use crate::pe::Sources;
use crate::rule_text::DescribeRule;
use crate::text::frame_text;
use framehop::unwinder::UnwinderInternal;
use framehop::walk::Words;
use framehop::{AllocationPolicy, Error, FrameAddress, Module};
use framehop_bytes::section::SectionBytes;
use std::alloc::{AllocError, Global};

/// Notes where each frame of a walk came from: the frames from an instruction pointer (AVMA) on, at most `limit`.
///
/// # Errors
///
/// An allocation failed.
pub fn note_walk<D: SectionBytes + Drop, A: Sources, P: AllocationPolicy, M: Words>(
    alloc: Global,
    unwinder: &UnwinderInternal<D, A, P>,
    pc: u64,
    regs: A::UnwindRegs,
    memory: &M,
    limit: u32,
    notes: &mut Vec<Note>,
) -> Result<(), AllocError>
where
    A::UnwindRule: DescribeRule,
    ensures noted { OnOk result (length notes.new.items ≡ length notes.old.items
        + length (walk_from (step_of (A.unwinding P.policy) unwinder.now (M.memory memory.now)) limit pc regs).frames) }
    ensures notes { OnOk result (AddsNotes (IsFrameNote (explaining_by A.readers A.pe_source
        (record { by_code = A.by_code; prologue = A.prologue_rule; epilogue = A.epilogue_rule })
        A.UnwindRule.rule_text A.UnwindRule.fallback P.policy) unwinder.now.modules (M.memory memory.now))
        (frames_from (step_of (A.unwinding P.policy) unwinder.now (M.memory memory.now)) limit (Some (at_instruction_pointer pc, regs)))
        notes.old.items notes.new.items) }
    ensures frames { map (λ frame. frame.0)
        (frames_from (step_of (A.unwinding P.policy) unwinder.now (M.memory memory.now)) limit (Some (at_instruction_pointer pc, regs)))
        ≡ (walk_from (step_of (A.unwinding P.policy) unwinder.now (M.memory memory.now)) limit pc regs).frames }
{
    let mut frame = Some((FrameAddress::from_instruction_pointer(pc), regs));
    for _number in 0..limit {
        let Some(current) = frame else {
            return Ok(());
        };
        frame = note_frame::<D, A, P, M>(alloc, unwinder, current.0, current.1, memory, notes)?;
    }
    Ok(())
}

/// Notes where a frame came from, and returns the frame that called it, with its registers, if there is one.
///
/// # Errors
///
/// An allocation failed.
pub fn note_frame<D: SectionBytes + Drop, A: Sources, P: AllocationPolicy, M: Words>(
    alloc: Global,
    unwinder: &UnwinderInternal<D, A, P>,
    address: FrameAddress,
    regs: A::UnwindRegs,
    memory: &M,
    notes: &mut Vec<Note>,
) -> Result<Option<(FrameAddress, A::UnwindRegs)>, AllocError>
where
    A::UnwindRule: DescribeRule,
    ensures noted { OnOk result (length notes.new.items ≡ length notes.old.items + 1) }
    ensures note { OnOk result (AddsNote (IsFrameNote (explaining_by A.readers A.pe_source
        (record { by_code = A.by_code; prologue = A.prologue_rule; epilogue = A.epilogue_rule })
        A.UnwindRule.rule_text A.UnwindRule.fallback P.policy) unwinder.now.modules (M.memory memory.now) (location_of address) regs) notes.old.items notes.new.items) }
    ensures caller { IfOk result (λ frame.
        let outcome = step_of (A.unwinding P.policy) unwinder.now (M.memory memory.now) (location_of address) regs in
        option_map located frame ≡ caller_by (answer_of outcome) (registers_after regs outcome)) }
{
    let explanation = explain_over(alloc, unwinder, address, regs, memory)?;
    let note = frame_note::<D, A>(alloc, unwinder.modules(), address, &explanation)?;
    notes.push(note)?;
    Ok(caller(explanation.outcome, explanation.regs))
}

/// Explains a frame over a memory: where its rule comes from, and what unwinding it with an empty cache returns.
///
/// # Errors
///
/// An allocation failed.
pub fn explain_over<'a, D: SectionBytes + Drop, A: Sources, P: AllocationPolicy, M: Words>(
    alloc: Global,
    unwinder: &'a UnwinderInternal<D, A, P>,
    address: FrameAddress,
    regs: A::UnwindRegs,
    memory: &M,
) -> Result<Explanation<'a, D, A>, AllocError>
where
    A::UnwindRule: DescribeRule,
    ensures found { IfOk result (λ explanation. IsFinding (explaining_by A.readers A.pe_source
        (record { by_code = A.by_code; prologue = A.prologue_rule; epilogue = A.epilogue_rule })
        A.UnwindRule.rule_text A.UnwindRule.fallback P.policy) unwinder.entry.now.modules (M.memory memory.now) (location_of address) regs
        (option_map finding_of explanation.finding)) }
    ensures outcome { IfOk result (λ explanation.
        let outcome = step_of (A.unwinding P.policy) unwinder.entry.now (M.memory memory.now) (location_of address) regs in
        (explanation.outcome ≡ answer_of outcome) × (explanation.regs ≡ registers_after regs outcome)) }
{
    let mut read_stack = |word: u64| -> Result<u64, ()>
        ensures { result ≡ reply (M.memory memory.entry.now word) }
    { memory.read(word) };
    explain_frame(unwinder, alloc, address, regs, &mut read_stack)
}

/// Returns the note of a frame: what the module that covers it tells, or why no module does.
fn frame_note<D: SectionBytes + Drop, A: Sources>(
    alloc: Global,
    modules: &[Module<D>],
    address: FrameAddress,
    explanation: &Explanation<'_, D, A>,
) -> Result<Note, AllocError>
where
    A::UnwindRule: DescribeRule,
    ensures { IfOk result (λ note. note ≡ note_line (frame_text A.UnwindRule.rule_text A.UnwindRule.fallback modules.now
        (lookup_address (location_of address)) (option_map finding_of explanation.now.finding))) }
{
    let line = frame_text::<D, A>(alloc, modules, address, explanation)?;
    Note::new(alloc).with_line(line.as_str())
}

/// Returns the frame that called another, with its registers, by what the step of that one returned.
fn caller<R: Copy>(outcome: Result<Option<u64>, Error>, regs: R) -> Option<(FrameAddress, R)>
    ensures { option_map located result ≡ caller_by outcome regs }
{
    let Ok(Some(address)) = outcome else {
        return None;
    };
    match FrameAddress::from_return_address(address) {
        Some(frame) => Some((frame, regs)),
        None => None,
    }
}
