//! Folded stacks as they are read.
ghost use Rattle.std.specs.Prelude.{◌≡◌, IfOk};
ghost use Rattle.framehop_stacks_cli.specs.Statuses.{text_status};
ghost use Rattle.framehop_stacks_cli.specs.Stacks.{Merges};

use crate::request::{refuse_file, refuse_file_by};
use framehop_cli::Result;
use framehop_disk::counted::count_lines;
use framehop_folded::error::TextError;
use framehop_folded::folded::Folded;
use framehop_folded::text::{FoldedLine, line_number, read_folded};

/// Adds the folded stacks of a text to those so far, if all of its lines can be read.
pub fn add_folded(rt: &HostRuntime, path: &str, text: &[u8], folded: &mut Folded) -> Result<u8> {
    if text.is_empty() {
        return refuse_file(rt, path, "empty", 1);
    }
    match read_folded(rt.alloc(), text) {
        Ok(lines) => add_lines(rt, path, lines.as_slice(), folded),
        Err(error) => refuse_line(rt, path, text, error),
    }
}

/// Adds the folded stacks of lines to those so far, or says why they can't be added.
fn add_lines(
    rt: &HostRuntime,
    path: &str,
    lines: &[FoldedLine],
    folded: &mut Folded,
) -> Result<u8> {
    let mut added = Folded::new(rt.alloc());
    match count_lines(rt.alloc(), lines, &mut added)? {
        Ok(()) => merge(rt, path, added, folded),
        Err(error) => refuse_file_by(rt, path, error),
    }
}

/// Adds folded stacks to those so far, or says why they can't be added.
pub fn merge(rt: &HostRuntime, path: &str, added: Folded, folded: &mut Folded) -> Result<u8>
    ensures { IfOk result (λ status. Merges added folded.old folded.new status) }
{
    match folded.merge(added) {
        Ok(()) => Ok(0),
        Err(error) => refuse_file_by(rt, path, error),
    }
}

/// Says which line of a text is no folded stack, and why.
fn refuse_line(rt: &HostRuntime, path: &str, text: &[u8], error: TextError) -> Result<u8>
    ensures { IfOk result (λ status. status ≡ text_status error) }
{
    match error {
        TextError::NoCount(offset) => {
            refuse_at(rt, path, text, offset, "it has no blank before a count")
        }
        TextError::BadCount(offset) => {
            let cause = "after its last blank there is no decimal count below 2^64";
            refuse_at(rt, path, text, offset, cause)
        }
        TextError::OutOfMemory => refuse_file_by(rt, path, error),
    }
}

/// Says that the line at an offset of a text is no folded stack, and why.
fn refuse_at(rt: &HostRuntime, path: &str, text: &[u8], offset: usize, cause: &str) -> Result<u8>
    ensures { IfOk result (λ status. status ≡ 1) }
{
    let line = line_number(text, offset);
    let why = format_args!("line {line} is no folded stack: {cause}");
    refuse_file(rt, path, why, 1)
}
