//! Folded stacks that are read, counted as they are printed.
ghost use Rattle.std.specs.Prelude.{◌≡◌, IfOk, List, ℕ};
ghost use Rattle.framehop_folded.specs.Folded.{entry_of};
ghost use Rattle.framehop_disk.specs.Counted.{counted_by, with_line};

use crate::printed::printed_text;
use framehop_folded::error::FoldedError;
use framehop_folded::folded::Folded;
use framehop_folded::text::FoldedLine;
use std::alloc::{AllocError, Global};

/// Adds the counts of the stacks of lines, as they are printed, to those so far. Ends at the first that is refused.
///
/// # Errors
///
/// [`AllocError`] where a stack can't be printed; and, inside, what [`Folded::add`] returns.
pub fn count_lines(
    alloc: Global,
    lines: &[FoldedLine],
    counted: &mut Folded,
) -> Result<Result<(), FoldedError>, AllocError>
    ensures { IfOk result (λ done. IfOk done (λ unit. (stack : List ℕ)
        → entry_of counted.new stack ≡ counted_by stack (entry_of counted.old stack) lines.now)) }
{
    for line in lines {
        let done = count_line(alloc, line, counted)?;
        if done.is_err() {
            return Ok(done);
        }
    }
    Ok(Ok(()))
}

/// Adds the count of the stack of a line, as it is printed, to that so far.
fn count_line(
    alloc: Global,
    line: &FoldedLine,
    counted: &mut Folded,
) -> Result<Result<(), FoldedError>, AllocError>
    ensures { IfOk result (λ done. IfOk done (λ unit. (stack : List ℕ)
        → entry_of counted.new stack ≡ with_line stack (entry_of counted.old stack) line.now)) }
{
    let stack = printed_text(alloc, line.stack.as_slice())?;
    Ok(counted.add(stack, line.count))
}
