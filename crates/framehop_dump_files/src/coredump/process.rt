//! The process of a core file.
ghost use Rattle.std.specs.Prelude.{◌≡◌, Ok, Err, MatchResult, map, option_map};
ghost use Rattle.framehop_dump_files.specs.Coredump.Note.{placed_view};
ghost use Rattle.framehop_dump_files.specs.Coredump.Process.{process_view, process_of};

use crate::coredump::error::CoreFileError;
use crate::coredump::note::{PlacedNote, first_of};
use framehop_bytes::bytes::{back, front, u32_at};
use framehop_bytes::string::string_at;

/// `NT_PRPSINFO` of "CORE".
const NT_PRPSINFO: u32 = 3;

/// The size of `struct elf_prpsinfo`, in bytes.
const PRPSINFO_SIZE: usize = 136;

/// A process: `struct elf_prpsinfo`.
#[derive(Clone, Copy, Drop)]
pub struct Process<'a> {
    /// The process: `pr_pid`.
    pub pid: u32,
    /// The name of its program, of at most 16 bytes and without the 0 after it: `pr_fname`.
    pub name: &'a [u8],
}

/// Reads the process from its notes: the first of "CORE" of type NT_PRPSINFO, or `None` where there is
/// none.
///
/// # Errors
///
/// `BadNoteSize` where the note has another size than `struct elf_prpsinfo`.
///
/// Source: Linux, `include/linux/elfcore.h`, `struct elf_prpsinfo`.
pub fn read_process<'a>(notes: &[PlacedNote<'a>]) -> Result<Option<Process<'a>>, CoreFileError>
    ensures { MatchResult result
        (λ process. process_of (map placed_view notes.entry.now) ≡ Ok (option_map process_view process))
        (λ error. process_of (map placed_view notes.entry.now) ≡ Err error) }
{
    let Some(placed) = first_of(notes, b"CORE\0", NT_PRPSINFO) else {
        return Ok(None);
    };
    let descriptor = placed.note.descriptor;
    if descriptor.len() != PRPSINFO_SIZE {
        return Err(CoreFileError::BadNoteSize {
            offset: placed.offset,
        });
    }
    let name = string_at(front(back(descriptor, 40), 16), 0);
    let pid = u32_at(descriptor, 24);
    Ok(Some(Process { pid, name }))
}
