//! Walks over stacks.
ghost use Rattle.std.specs.Prelude.{◌≡◌, IfOk, map};
ghost use Rattle.framehop.specs.Modules.{UnwinderView};
ghost use Rattle.framehop.specs.Soundness.{AreApart};
ghost use Rattle.framehop_backtrace.specs.Backtrace.{frame_view};
ghost use Rattle.framehop_frames.specs.Notes.{noted_frame, noted_of, noted_stack, noted_from};
ghost use Rattle.framehop_frames.specs.Stack.{shown_frame, shown_of, stack_view, stack_from};
ghost use Rattle.framehop_frames.specs.Walker.{row_limits};

use crate::machine::{Start, Steps};
use crate::missing::end_of_walk;
use crate::stack::{Stack, StackFrame};
use framehop_backtrace::memory::is_in_trampoline;
use framehop_backtrace::{CodeMemory, Frame, RowRoom, Rows, backtrace};
use framehop_cfi::storage::StoreOnStack;
use std::alloc::{AllocError, Global};

/// Returns the stack from registers on, by rows and over a memory, at most `limit` frames. A walk that ends for want of a
/// word has that word's address in its end, where the rows tell it.
///
/// # Errors
///
/// An allocation failed.
pub fn walk_stack<U: Steps, W: Rows, M: CodeMemory>(
    alloc: Global,
    unwinder: &U,
    rows: &W,
    room: &mut RowRoom<StoreOnStack>,
    cache: &mut U::Cache,
    memory: &M,
    start: Start<U::UnwindRegs>,
    limit: u32,
) -> Result<Stack<U::UnwindRegs>, AllocError>
    ensures stays_sound { (other : UnwinderView) → AreApart (U.unwinder_view unwinder.now) other
        → U.is_sound other cache.old → U.is_sound other cache.new }
    ensures walked { U.is_sound (U.unwinder_view unwinder.now) cache.old → IfOk result (λ stack. stack_view stack
        ≡ stack_from U.walker limit (U.unwinder_view unwinder.now).modules (W.rows rows.now row_limits) (M.memory memory.now) (M.code memory.now) start) }
    ensures noted { U.is_sound (U.unwinder_view unwinder.now) cache.old → IfOk result (λ stack. noted_stack stack
        ≡ noted_from U.walker limit (U.unwinder_view unwinder.now).modules (W.rows rows.now row_limits) (M.memory memory.now) (M.code memory.now) start) }
{
    let first = Frame::first(start.pc, start.columns, start.regs);
    let found = backtrace(alloc, unwinder, rows, room, cache, memory, first, limit)?;
    Ok(Stack {
        frames: stack_frames(alloc, memory, found.frames.as_slice())?,
        end: end_of_walk::<U, W, M>(alloc, rows, memory, &found)?,
        step_end: found.end,
    })
}

/// Returns the frames of a stack, by those of a backtrace.
fn stack_frames<M: CodeMemory, R: Copy>(
    alloc: Global,
    memory: &M,
    found: &[Frame<R>],
) -> Result<Vec<StackFrame<R>>, AllocError>
    ensures shown { IfOk result (λ frames. map shown_frame frames.items ≡ map (shown_of (M.code memory.now)) (map frame_view found.now)) }
    ensures noted { IfOk result (λ frames. map noted_frame frames.items ≡ map (noted_of (M.code memory.now)) (map frame_view found.now)) }
{
    let mut frames = Vec::new(alloc);
    for frame in found {
        frames.push(stack_frame(memory, frame))?;
    }
    Ok(frames)
}

/// Returns the frame of a stack, by one of a backtrace.
fn stack_frame<M: CodeMemory, R: Copy>(memory: &M, frame: &Frame<R>) -> StackFrame<R>
    ensures shown { shown_frame result ≡ shown_of (M.code memory.now) (frame_view frame.now) }
    ensures noted { noted_frame result ≡ noted_of (M.code memory.now) (frame_view frame.now) }
{
    StackFrame {
        address: frame.address,
        regs: frame.regs,
        found: frame.found,
        is_trampoline: is_in_trampoline(memory, frame.address),
    }
}
