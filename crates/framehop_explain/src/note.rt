//! Notes: lines that begin with two blanks.
ghost use Rattle.std.specs.Prelude.{◌≡◌, ◌++◌, [], IfOk, OnOk};
ghost use Rattle.framehop_explain.specs.Note.{IsNote, has_c1_after, printable, printed, note_line};

use std::alloc::{AllocError, Global};
use std::marker::Model;

/// Lines that begin with two blanks, each ended by a line feed.
#[derive(Drop)]
pub struct Note {
    bytes: Vec<u8>,
}

impl Model for Note {
    ghost use Rattle.std.specs.Prelude.{ℕ, List};
    ghost use Rattle.framehop_explain.specs.Note.{IsNote};

    ghost Value = { List ℕ };

    ghost view = { λ note. note.bytes.items };

    ghost invariant = { λ note. IsNote note.bytes.items };
}

impl Note {
    /// Returns a note without lines.
    pub fn new(alloc: Global) -> Self
        ensures { result ≡ [] }
    {
        Note {
            bytes: Vec::new(alloc),
        }
    }

    /// Returns the same note with a further line. A control character of its text becomes a question mark, and where one is of
    /// C1, so does each byte beyond ASCII.
    pub fn with_line(self, text: &str) -> Result<Self, AllocError>
        ensures { IfOk result (λ note. note ≡ self ++ note_line text.now) }
    {
        let mut bytes = self.bytes;
        bytes.extend_from_slice(b"  ")?;
        push_printed(text.as_bytes(), &mut bytes)?;
        bytes.extend_from_slice(b"\n")?;
        Ok(Note { bytes })
    }

    /// Returns the bytes of the lines.
    pub fn bytes(&self) -> &[u8]
        ensures exact { result.now ≡ self.now }
        ensures lines { IsNote self.now }
    {
        self.bytes.as_slice()
    }
}

/// Appends a text as it is printed.
fn push_printed(text: &[u8], out: &mut Vec<u8>) -> Result<(), AllocError>
    ensures { OnOk result (out.new.items ≡ out.old.items ++ printed text.now) }
{
    let c1 = has_c1(text);
    for byte in text {
        out.push(printable(c1, *byte))?;
    }
    Ok(())
}

/// Returns a byte as it is printed, by whether its text has a control character of C1.
#[tactic(auto, unfolding(crate::specs::Note::printable))]
fn printable(c1: bool, byte: u8) -> u8
    ensures { result ≡ printable c1 byte }
{
    if byte < b' ' || byte == 127 || c1 && byte >= 128 {
        b'?'
    } else {
        byte
    }
}

/// Returns whether UTF-8 has a control character of C1.
pub fn has_c1(text: &[u8]) -> bool
    ensures { result ≡ has_c1_after 0 text.now }
{
    let mut previous = 0u8;
    for byte in text {
        if previous == 0xc2 && *byte < 0xa0 {
            return true;
        }
        previous = *byte;
    }
    false
}
