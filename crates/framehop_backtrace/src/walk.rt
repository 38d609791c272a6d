//! Backtraces of stacks.
ghost use Rattle.std.specs.Prelude.{◌≡◌, IfOk};
ghost use Rattle.framehop.specs.Modules.{UnwinderView};
ghost use Rattle.framehop.specs.Soundness.{AreApart};
ghost use Rattle.framehop_backtrace.specs.Backtrace.{frame_view, trace_view, stack_of, backtrace_of};
ghost use Rattle.framehop_backtrace.specs.Covers.{is_covered};
ghost use Rattle.framehop_backtrace.specs.Library.{IsLibraryWalk};

use crate::frame::{BacktraceEnd, Frame};
use crate::kept::{KEPT_ROWS, RowRoom};
use crate::machine::BacktraceUnwinder;
use crate::memory::CodeMemory;
use crate::next::next_kept_frame;
use crate::rows::Rows;
use framehop_cfi::storage::UnwindContextStorage;
use std::alloc::{AllocError, Global};

/// The frames of a stack.
#[derive(Drop)]
pub struct StackTrace<R: Copy> {
    /// The frames, the innermost first.
    pub frames: Vec<Frame<R>>,
    /// How they ended.
    pub end: BacktraceEnd,
}

/// Returns the backtrace from a frame on: it and its callers, as `next_frame` finds them, at most `limit`
/// frames. The rows of the latest frames are kept in the room, so that in a recursion they are made once.
///
/// Where no frame is in a trampoline or has a row, no run of code comes to a caller, no guess is made, and each return
/// address is in code, this is the library's walk.
///
/// # Errors
///
/// An allocation failed.
pub fn backtrace<U: BacktraceUnwinder, W: Rows, M: CodeMemory, S: UnwindContextStorage>(
    alloc: Global,
    unwinder: &U,
    rows: &W,
    room: &mut RowRoom<S>,
    cache: &mut U::Cache,
    memory: &M,
    first: Frame<U::UnwindRegs>,
    limit: u32,
) -> Result<StackTrace<U::UnwindRegs>, AllocError>
    ensures stays_sound { (other : UnwinderView) → AreApart (U.unwinder_view unwinder.now) other
        → U.is_sound other cache.old → U.is_sound other cache.new }
    ensures exact { U.is_sound (U.unwinder_view unwinder.now) cache.old → IfOk result (λ found. trace_view found
        ≡ backtrace_of (stack_of U.machine (U.step unwinder.now) (U.is_by_info unwinder.now) (W.rows rows.now S.limits) (is_covered (U.unwinder_view unwinder.now).modules)
        (M.memory memory.now) (M.code memory.now)) limit (frame_view first)) }
    ensures library { U.is_sound (U.unwinder_view unwinder.now) cache.old → IfOk result (λ found. IsLibraryWalk
        (stack_of U.machine (U.step unwinder.now) (U.is_by_info unwinder.now) (W.rows rows.now S.limits) (is_covered (U.unwinder_view unwinder.now).modules)
        (M.memory memory.now) (M.code memory.now)) limit (frame_view first) (trace_view found)) }
{
    let mut frames = Vec::new(alloc);
    if limit == 0 {
        let end = BacktraceEnd::Limit;
        return Ok(StackTrace { frames, end });
    }
    let mut found = [None; KEPT_ROWS];
    let mut callee: Option<Frame<U::UnwindRegs>> = None;
    let mut frame = first;
    frames.push(frame)?;
    for _caller in 1..limit {
        let before = frame;
        let moved = next_kept_frame(
            alloc, unwinder, rows, room, &mut found, cache, memory, callee, &mut frame,
        )?;
        match moved {
            Ok(()) => {
                frames.push(frame)?;
                callee = Some(before);
            }
            Err(end) => return Ok(StackTrace { frames, end }),
        }
    }
    let end = BacktraceEnd::Limit;
    Ok(StackTrace { frames, end })
}
