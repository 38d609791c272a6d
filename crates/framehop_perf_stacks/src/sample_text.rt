//! The text of a sample: its folded stack, and the head and the lines of its block.
ghost use Rattle.std.specs.Prelude.{ℕ, ◌≡◌, ◌++◌, List, IfOk, OnOk};
ghost use Rattle.framehop_perf_stacks.specs.Samples.{stack_of, told_of, thread_name, folded_name, folded_stack, block_of, head_text, tail_text};
ghost use Rattle.framehop_processes.specs.Mappings.{IsInOrder};

use crate::kernel::{push_kernel_labels, push_kernel_lines};
use crate::sample_json::{counted_line, stack_json};
use crate::sample_stack::{EndedStack, SampleAt, push_mark_of_end, text_of_end};
use framehop_explain::Note;
use framehop_frames::explain::shown_block;
use framehop_frames::line::{
    block_head, part_of, printed_name, push_frame_lines, push_frames, push_last_line,
};
use std::alloc::{AllocError, Global};

/// Returns what is counted of a sample: its folded stack, or its JSON.
pub(crate) fn counted_stack<R: Copy>(
    alloc: Global,
    at: SampleAt<'_, '_>,
    stack: EndedStack<'_, R>,
) -> Result<Vec<u8>, AllocError>
    requires { IsInOrder 0 at.mappings.now }
    ensures { IfOk result (λ line. (notes : List (List ℕ)) → line.items ≡ (told_of at.entry (stack_of stack.entry) notes).text) }
{
    if at.options.json {
        return stack_json(alloc, at, stack);
    }
    let mut line = folded_stack(alloc, at, stack)?;
    push_tail(alloc, &mut line, at)?;
    Ok(line)
}

/// Returns what is written of a sample: its block, with notes where it is to be explained, or a line of JSON.
pub(crate) fn shown_stack<R: Copy>(
    alloc: Global,
    at: SampleAt<'_, '_>,
    stack: EndedStack<'_, R>,
    notes: &[Note],
) -> Result<Vec<u8>, AllocError>
    requires { IsInOrder 0 at.mappings.now }
    ensures { IfOk result (λ shown. shown.items ≡ (told_of at.entry (stack_of stack.entry) notes.now).shown) }
{
    if at.options.json {
        let text = stack_json(alloc, at, stack)?;
        return counted_line(alloc, 1, text.as_slice());
    }
    let head = head_of(alloc, at)?;
    let block = block_of(alloc, at, stack)?;
    shown_block(
        alloc,
        head.as_slice(),
        block.as_slice(),
        at.options.explain,
        notes,
    )
}

/// Returns the folded stack of a sample, of all frames or of those that are sure.
fn folded_stack<R: Copy>(
    alloc: Global,
    at: SampleAt<'_, '_>,
    stack: EndedStack<'_, R>,
) -> Result<Vec<u8>, AllocError>
    requires { IsInOrder 0 at.mappings.now }
    ensures { IfOk result (λ line. line.items ≡ folded_stack at.entry.options.sure at.entry.files.now
        (folded_name at.entry.options.by_thread at.entry.name.now at.entry.sample) at.entry.mappings.now (stack_of stack.entry)) }
{
    let name = folded_name(alloc, at)?;
    let part = part_of(stack.frames, at.options.sure);
    let is_part = part.len() < stack.frames.len();
    let mut line = printed_name(alloc, name.as_slice())?;
    push_mark_of_end(&mut line, stack.end, is_part)?;
    push_frames(alloc, &mut line, at.files, at.mappings, part)?;
    Ok(line)
}

/// Returns the lines of the block of a sample after its head.
fn block_of<R: Copy>(
    alloc: Global,
    at: SampleAt<'_, '_>,
    stack: EndedStack<'_, R>,
) -> Result<Vec<u8>, AllocError>
    requires { IsInOrder 0 at.mappings.now }
    ensures { IfOk result (λ block. block.items ≡ block_of at.entry.files.now at.entry.mappings.now (stack_of stack.entry)) }
{
    let mut block = Vec::new(alloc);
    push_frame_lines(alloc, &mut block, at.files, at.mappings, stack.frames)?;
    let end = text_of_end(alloc, stack.end)?;
    push_last_line(&mut block, end.as_slice())?;
    Ok(block)
}

/// Appends what ends a folded stack: the frames of the kernel.
fn push_tail(alloc: Global, line: &mut Vec<u8>, at: SampleAt<'_, '_>) -> Result<(), AllocError>
    ensures { OnOk result (line.new.items ≡ line.old.items ++ tail_text at.entry.options at.entry.sample) }
{
    match at.sample {
        Some(sample) => push_kernel_labels(alloc, line, at.options, sample.chain),
        None => Ok(()),
    }
}

/// Returns the name of a sample's thread in a folded stack.
fn folded_name(alloc: Global, at: SampleAt<'_, '_>) -> Result<Vec<u8>, AllocError>
    ensures { IfOk result (λ folded. folded.items ≡ folded_name at.entry.options.by_thread at.entry.name.now at.entry.sample) }
{
    let mut folded = Vec::from_slice(alloc, at.name)?;
    if let Some(sample) = at.sample {
        let by_thread = at.options.by_thread;
        push_thread(alloc, &mut folded, sample.pid, sample.tid, by_thread)?;
    }
    Ok(folded)
}

/// Appends the process and the thread to its name, where threads are told apart.
fn push_thread(
    alloc: Global,
    name: &mut Vec<u8>,
    pid: u32,
    tid: u32,
    by_thread: bool,
) -> Result<(), AllocError>
    ensures { OnOk result (name.new.items ≡ thread_name by_thread name.old.items pid tid) }
{
    if by_thread {
        let text = format!(in alloc; "-{pid}/{tid}")?;
        name.extend_from_slice(text.as_bytes())?;
    }
    Ok(())
}

/// Returns the head of a sample's block, by the name of its thread, where the sample can be read.
fn head_of(alloc: Global, at: SampleAt<'_, '_>) -> Result<Vec<u8>, AllocError>
    ensures { IfOk result (λ head. head.items ≡ head_text at.entry.options at.entry.name.now at.entry.sample) }
{
    match at.sample {
        Some(sample) => {
            let mut head = block_head(alloc, at.name, sample.pid, sample.tid, sample.time)?;
            push_kernel_lines(alloc, &mut head, at.options, sample.chain)?;
            Ok(head)
        }
        None => Ok(Vec::from_slice(alloc, b"[unknown]:\n")?),
    }
}
