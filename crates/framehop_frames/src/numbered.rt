//! Stacks as text with numbers of frames.
ghost use Rattle.std.specs.Prelude.{◌≡◌, ◌++◌, map, IfOk, OnOk};
ghost use Rattle.framehop_processes.specs.Mappings.{IsInOrder};
ghost use Rattle.framehop_frames.specs.Line.{frame_line};
ghost use Rattle.framehop_frames.specs.Numbered.{number_text, numbered_from, numbered_block_of};
ghost use Rattle.framehop_frames.specs.Stack.{shown_frame};

use crate::line::{end_text, push_frame_line, push_last_line};
use crate::stack::{Stack, StackFrame};
use framehop_processes::Mapping;
use framehop_processes::files::Files;
use std::alloc::{AllocError, Global};

/// Returns the lines of a stack's frames, each after its number, and of its end, by its process's mappings in order.
pub fn numbered_block<R: Copy>(
    alloc: Global,
    files: &Files<'_>,
    mappings: &[Mapping],
    stack: &Stack<R>,
) -> Result<Vec<u8>, AllocError>
    requires { IsInOrder 0 mappings.now }
    ensures { IfOk result (λ block. block.items ≡ numbered_block_of stack.now.end
        (frame_line files.now mappings.now) (map shown_frame stack.now.frames.items)) }
{
    let mut block = Vec::new(alloc);
    push_numbered_lines(alloc, &mut block, files, mappings, stack.frames.as_slice())?;
    push_last_line(&mut block, end_text(alloc, stack.end)?.as_slice())?;
    Ok(block)
}

/// Appends the lines of a stack's frames, each after its number, the innermost first, by mappings in order.
fn push_numbered_lines<R: Copy>(
    alloc: Global,
    block: &mut Vec<u8>,
    files: &Files<'_>,
    mappings: &[Mapping],
    frames: &[StackFrame<R>],
) -> Result<(), AllocError>
    requires { IsInOrder 0 mappings.now }
    ensures { OnOk result (block.new.items ≡ block.old.items
        ++ numbered_from 0 (frame_line files.now mappings.now) (map shown_frame frames.now)) }
{
    for (number, frame) in frames.iter().enumerate() {
        push_number(alloc, block, number)?;
        push_frame_line(alloc, block, files, mappings, frame)?;
    }
    Ok(())
}

/// Appends the number of a frame.
fn push_number(alloc: Global, block: &mut Vec<u8>, number: usize) -> Result<(), AllocError>
    ensures { OnOk result (block.new.items ≡ block.old.items ++ number_text number) }
{
    let text = format!(in alloc; "#{number} ")?;
    block.extend_from_slice(text.as_bytes())?;
    Ok(())
}
