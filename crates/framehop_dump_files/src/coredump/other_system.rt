//! Core files of other systems than Linux.
ghost use Rattle.std.specs.Prelude.{◌≡◌, map};
ghost use Rattle.framehop_dump_files.specs.Coredump.Note.{placed_view};
ghost use Rattle.framehop_dump_files.specs.Coredump.OtherSystem.{system_of, without_threads};

use crate::coredump::error::CoreFileError;
use crate::coredump::note::PlacedNote;

/// Returns why a core file with these notes, of which none is a thread's, is refused: `OfFreeBsd`, `OfNetBsd` or `OfOpenBsd` by
/// the owner of the first note that is one of theirs, else `NoThreads`.
///
/// Source: FreeBSD, `sys/elf_common.h`; NetBSD, `sys/exec_elf.h`; OpenBSD, `sys/exec_elf.h`.
pub fn without_threads(notes: &[PlacedNote<'_>]) -> CoreFileError
    ensures { result ≡ without_threads (map placed_view notes.now) }
{
    for placed in notes {
        if let Some(refusal) = system_of(placed) {
            return refusal;
        }
    }
    CoreFileError::NoThreads
}

/// Returns the refusal of the system that writes such a note, if it is one of these.
fn system_of(placed: &PlacedNote<'_>) -> Option<CoreFileError>
    ensures { result ≡ system_of (placed_view placed.now) }
{
    let offset = placed.offset;
    let owner = placed.note.name;
    if owner == b"FreeBSD\0".as_slice() {
        return Some(CoreFileError::OfFreeBsd { offset });
    }
    if owner.starts_with(b"NetBSD-CORE") {
        return Some(CoreFileError::OfNetBsd { offset });
    }
    if owner == b"OpenBSD\0".as_slice() {
        return Some(CoreFileError::OfOpenBsd { offset });
    }
    None
}
