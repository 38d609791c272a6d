//! The auxiliary vector of a core file.
ghost use Rattle.std.specs.Prelude.{◌≡◌, map};
ghost use Rattle.framehop_dump_files.specs.Coredump.Note.{placed_view};
ghost use Rattle.framehop_dump_files.specs.Coredump.AuxiliaryVector.{value_of, vdso_of};

use crate::coredump::note::{PlacedNote, first_of};
use framehop_bytes::bytes::u64_at;

/// `NT_AUXV` of "CORE".
const NT_AUXV: u32 = 6;

/// `AT_SYSINFO_EHDR`: where the vdso begins.
const AT_SYSINFO_EHDR: u64 = 33;

/// The size of an entry, in bytes: its type and its value.
const ENTRY_SIZE: usize = 16;

/// Returns the first address (AVMA) of the vdso, if the auxiliary vector is among the notes and has it.
///
/// Source: Linux, `include/uapi/linux/auxvec.h`; `vdso(7)`.
pub fn vdso_of(notes: &[PlacedNote<'_>]) -> Option<u64>
    ensures { result ≡ vdso_of (map placed_view notes.now) }
{
    let placed = first_of(notes, b"CORE\0", NT_AUXV)?;
    value_of(placed.note.descriptor, AT_SYSINFO_EHDR)
}

/// Returns the value of the first entry of a type.
fn value_of(vector: &[u8], a_type: u64) -> Option<u64>
    ensures { result ≡ value_of a_type vector.now }
{
    for number in 0..vector.len() / ENTRY_SIZE {
        let at = number * ENTRY_SIZE;
        if u64_at(vector, at) == a_type {
            return Some(u64_at(vector, at + 8));
        }
    }
    None
}
