//! Text that others made, as it is printed.
ghost use Rattle.std.specs.Prelude.{◌≡◌, IfOk};
ghost use Rattle.framehop_disk.specs.Printed.{is_separator, printed_text};

use framehop_frames::line::push_name;
use std::alloc::{AllocError, Global};

/// Returns a text as it is printed: each part between semicolons and line feeds as a name is, so that a terminal takes no
/// byte of it for a command, and a long part is cut.
pub(crate) fn printed_text(alloc: Global, text: &[u8]) -> Result<Vec<u8>, AllocError>
    ensures { IfOk result (λ printed. printed.items ≡ printed_text text.now) }
{
    let mut printed = Vec::with_capacity(alloc, text.len())?;
    let mut start = 0;
    for (at, byte) in text.iter().enumerate() {
        if is_separator(*byte) {
            push_name(&mut printed, &text[start..at])?;
            printed.push(*byte)?;
            start = at + 1;
        }
    }
    push_name(&mut printed, &text[start..])?;
    Ok(printed)
}

/// Returns whether a byte separates the names of a text: a semicolon or a line feed.
fn is_separator(byte: u8) -> bool
    ensures { result ≡ is_separator byte }
{
    byte == b';' || byte == b'\n'
}
