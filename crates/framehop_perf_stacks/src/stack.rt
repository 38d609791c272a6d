//! The walk of a sample.
ghost use Rattle.std.specs.Prelude.{◌≡◌, IfOk};
ghost use Rattle.framehop.specs.Modules.{UnwinderView};
ghost use Rattle.framehop.specs.Soundness.{AreApart};
ghost use Rattle.framehop_frames.specs.Notes.{option_noted};
ghost use Rattle.framehop_frames.specs.Stack.{option_stack_view};
ghost use Rattle.framehop_perf_stacks.specs.Samples.{sampled_from, noted_sample};

use crate::machine::Sampled;
use framehop::walk::StackBytes;
use framehop_backtrace::{OrElse, RowRoom};
use framehop_cfi::storage::StoreOnStack;
use framehop_frames::machine::Start;
use framehop_frames::memory::MappedMemory;
use framehop_frames::rows::DebugFrames;
use framehop_frames::stack::Stack;
use framehop_frames::walk::walk_stack;
use framehop_processes::Process;
use framehop_processes::files::Files;
use std::alloc::{AllocError, Global};

/// Walks the stack of a sample of a process by at most `limit` frames, from the registers with which a walk begins, over
/// what was copied from the stack pointer on. Returns `None` where the sample has not these registers.
pub(crate) fn walk_sample<U: Sampled>(
    alloc: Global,
    files: &Files,
    process: &Process<U>,
    room: &mut RowRoom<StoreOnStack>,
    cache: &mut U::Cache,
    start: Option<Start<U::UnwindRegs>>,
    copied: &[u8],
    limit: u32,
) -> Result<Option<Stack<U::UnwindRegs>>, AllocError>
    ensures stays_sound { (other : UnwinderView) → AreApart process.now.unwinder other
        → U.is_sound other cache.old → U.is_sound other cache.new }
    ensures walked { U.is_sound process.now.unwinder cache.old → IfOk result (λ walked. option_stack_view walked
        ≡ sampled_from U.walker limit files.now process.now.mappings process.now.unwinder.modules copied.now start) }
    ensures noted { U.is_sound process.now.unwinder cache.old → IfOk result (λ walked. option_noted walked
        ≡ noted_sample U.walker limit files.now process.now.mappings process.now.unwinder.modules copied.now start) }
{
    let unwinder = process.unwinder();
    let Some(start) = start else {
        return Ok(None);
    };
    let known = StackBytes {
        base: start.sp,
        bytes: copied,
    };
    let memory = MappedMemory {
        known: &known,
        files,
        process,
    };
    let rows = OrElse {
        first: unwinder,
        second: &DebugFrames { files, process },
    };
    let stack = walk_stack(alloc, unwinder, &rows, room, cache, &memory, start, limit)?;
    Ok(Some(stack))
}
