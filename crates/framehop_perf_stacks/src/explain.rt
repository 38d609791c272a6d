//! Notes under the lines of a sample's block: where each frame's caller comes from, and why its walk ended.
ghost use Rattle.std.specs.Prelude.{IfOk};
ghost use Rattle.framehop_frames.specs.Notes.{option_noted, AreStackNotes};
ghost use Rattle.framehop_perf_stacks.specs.Samples.{copied_memory};

use crate::machine::Sampled;
use framehop::walk::StackBytes;
use framehop_explain::Note;
use framehop_frames::explain::note_stack;
use framehop_frames::machine::Start;
use framehop_frames::stack::Stack;
use std::alloc::{AllocError, Global};

/// Returns a note for each line of the block of a sample, whose stack was copied from the stack pointer on: nothing of its
/// head, where each frame's caller comes from, why the walk ended, and nothing of the blank line.
pub(crate) fn sample_notes<U: Sampled>(
    alloc: Global,
    unwinder: &U,
    start: Option<Start<U::UnwindRegs>>,
    copied: &[u8],
    walked: &Option<Stack<U::UnwindRegs>>,
) -> Result<Vec<Note>, AllocError>
    ensures { IfOk result (λ notes. AreStackNotes (U.is_note (U.unwinder_view unwinder.now).modules (copied_memory copied.now start))
        (option_noted walked.now) notes.items) }
{
    let mut notes = Vec::new(alloc);
    let base = match start {
        Some(start) => start.sp,
        None => 0,
    };
    let words = StackBytes {
        base,
        bytes: copied,
    };
    note_stack(alloc, unwinder, &words, walked, &mut notes)?;
    Ok(notes)
}
