//! Notes, of which one has the build id.
ghost use Rattle.std.specs.Prelude.{◌≡◌, ◌+◌, ◌<◌, ◌≤◌, ◌^◌, Some, None, MatchOption, IfSome, option_map, length};
ghost use Rattle.std.specs.Option.{option_copied};
ghost use Rattle.framehop_object.specs.Elf.Note.{note_view, padded, note_at, is_build_id, build_id_of};

use framehop_bytes::bytes::{back, front, u32_at};

/// `NT_GNU_BUILD_ID`.
const NT_GNU_BUILD_ID: u32 = 3;

/// The size of what is before a note's name, in bytes.
const HEADER_SIZE: usize = 12;

/// A note: `Elf64_Nhdr`, and what is after it.
#[derive(Clone, Copy, Drop)]
pub struct ElfNote<'a> {
    /// Whose note it is, with the 0 after it.
    pub name: &'a [u8],
    /// Which of the owner's notes it is.
    pub n_type: u32,
    /// What it says.
    pub descriptor: &'a [u8],
}

/// Returns the build id in notes, which are those of a section of type `SHT_NOTE` or a segment of type
/// `PT_NOTE`: the descriptor of the first note of the owner "GNU" and the type `NT_GNU_BUILD_ID`. Notes
/// after one that the bytes don't hold whole are not read.
///
/// Source: System V gABI, chapter 5, "Note Section"; the linker's option `--build-id`.
pub fn build_id_in(notes: &[u8]) -> Option<&[u8]>
    ensures { option_map (λ found. found.now) result ≡ build_id_of notes.entry.now }
{
    let mut rest = notes;
    while let Some((note, size)) = read_note(rest) {
        if is_build_id(note) {
            return Some(note.descriptor);
        }
        rest = back(rest, size);
    }
    None
}

/// Returns the note at the front of the bytes, and how many bytes it takes with the padding after it, if
/// they hold it. The padding after the last note may be missing.
///
/// Source: System V gABI, chapter 5, "Note Section".
#[tactic(auto, unfolding(crate::specs::Elf::Note::note_at))]
pub fn read_note<'a>(bytes: &'a [u8]) -> Option<(ElfNote<'a>, u64)>
    ensures exact { MatchOption result
        (note_at bytes.entry.now ≡ None)
        (λ read. note_at bytes.entry.now ≡ Some (note_view read.0, read.1)) }
    ensures forward { IfSome result (λ read. (0 < read.1) × (0 < length bytes.entry.now)) }
{
    if bytes.len() < HEADER_SIZE {
        return None;
    }
    let name_size = u64::from(u32_at(bytes, 0));
    let size = u64::from(u32_at(bytes, 4));
    let n_type = u32_at(bytes, 8);
    let start = padded(12 + name_size);
    let end = start + size;
    if end > bytes.len() as u64 {
        return None;
    }
    let name = front(back(bytes, 12), name_size as usize);
    let descriptor = front(back(bytes, start), size as usize);
    let note = ElfNote {
        name,
        n_type,
        descriptor,
    };
    Some((note, padded(end)))
}

/// Returns the next multiple of four.
fn padded(size: u64) -> u64
    requires { size + 3 < 2 ^ 64 }
    ensures { result ≡ padded size }
{
    (size + 3) / 4 * 4
}

/// Returns whether a note is a build id.
fn is_build_id<'a>(note: ElfNote<'a>) -> bool
    ensures { result ≡ is_build_id (note_view note.entry) }
{
    note.n_type == NT_GNU_BUILD_ID && note.name == b"GNU\0".as_slice()
}
