//! Notes under the lines of a text.
ghost use Rattle.std.specs.Prelude.{◌≡◌, ◌<◌, ◌==◌, length, position, IfOk, IfSome, OnOk};
ghost use Rattle.std.specs.List.{AllByRecursion};
ghost use Rattle.framehop_explain.specs.Note.{IsNote};
ghost use Rattle.framehop_explain.specs.Annotated.{first_line as line_of, after_first_line, annotated};

use crate::note::Note;
use std::alloc::{AllocError, Global};

/// Returns a text with a note after each line, as far as there are notes.
pub fn annotated(alloc: Global, text: &[u8], notes: &[Note]) -> Result<Vec<u8>, AllocError>
    ensures annotated { IfOk result (λ out. out.items ≡ annotated text.now notes.now) }
    ensures notes { OnOk result (AllByRecursion IsNote notes.now) }
{
    let mut out = Vec::new(alloc);
    let mut rest = text;
    for note in notes {
        let (line, after) = first_line(rest);
        out.extend_from_slice(line)?;
        out.extend_from_slice(note.bytes())?;
        rest = after;
    }
    out.extend_from_slice(rest)?;
    Ok(out)
}

/// Returns the first line of a text, with its line feed, and what comes after it.
#[tactic(auto, unfolding(crate::specs::Annotated::first_line, crate::specs::Annotated::after_first_line))]
fn first_line(text: &[u8]) -> (&[u8], &[u8])
    ensures line { result.0.now ≡ line_of text.entry.now }
    ensures rest { result.1.now ≡ after_first_line text.entry.now }
{
    match first_feed(text) {
        Some(feed) => text.split_at(feed + 1),
        None => (text, &[]),
    }
}

/// Returns where the first line feed of a text is.
fn first_feed(text: &[u8]) -> Option<usize>
    ensures exact { result ≡ position (λ byte. byte == 10) text.now }
    ensures within { IfSome result (λ feed. feed < length text.now) }
{
    text.iter().position(|byte| *byte == b'\n')
}
