//! The build id of a whole file.
ghost use Rattle.std.specs.Prelude.{◌≡◌, length, option_map};
ghost use Rattle.framehop_object.specs.Elf.BuildId.{notes_of_segment, notes_of_section, build_id_within, first_in, build_id_of_file};

use crate::elf::note::build_id_in;
use crate::elf::program_header::{PT_NOTE, ProgramHeader};
use crate::elf::section::read_contents;
use crate::elf::section_header::SectionHeader;
use crate::elf::segment::read_segment;

/// `SHT_NOTE`.
const SHT_NOTE: u32 = 7;

/// Returns the build id of a file: that of the first segment of type `PT_NOTE` that has one, or else of
/// the first such section of type `SHT_NOTE`. A segment or section that the file does not hold has none, nor has one whose
/// notes have, with those read before, more bytes than the file: so notes that many of them share are not read again for
/// each.
///
/// Source: System V gABI, chapter 5, "Note Section"; the linker's option `--build-id`.
pub fn read_build_id<'a>(
    file: &'a [u8],
    segments: &[ProgramHeader],
    sections: &[SectionHeader],
) -> Option<&'a [u8]>
    ensures { option_map (λ found. found.now) result ≡ build_id_of_file file.entry.now segments.now sections.now }
{
    match in_segments(file, segments) {
        Some(build_id) => Some(build_id),
        None => in_sections(file, sections),
    }
}

/// Returns the build id of the first segment that has one.
fn in_segments<'a>(file: &'a [u8], segments: &[ProgramHeader]) -> Option<&'a [u8]>
    ensures { option_map (λ found. found.now) result ≡ first_in (notes_of_segment file.entry.now) (length file.entry.now) segments.now }
{
    let mut left = file.len();
    for segment in segments {
        let (found, rest) = build_id_within(notes_of_segment(file, *segment), left);
        if found.is_some() {
            return found;
        }
        left = rest;
    }
    None
}

/// Returns the build id of the first section that has one.
fn in_sections<'a>(file: &'a [u8], sections: &[SectionHeader]) -> Option<&'a [u8]>
    ensures { option_map (λ found. found.now) result ≡ first_in (notes_of_section file.entry.now) (length file.entry.now) sections.now }
{
    let mut left = file.len();
    for section in sections {
        let (found, rest) = build_id_within(notes_of_section(file, *section), left);
        if found.is_some() {
            return found;
        }
        left = rest;
    }
    None
}

/// Returns the notes of a segment, if it has some and the file holds them.
fn notes_of_segment(file: &[u8], segment: ProgramHeader) -> Option<&[u8]>
    ensures { option_map (λ notes. notes.now) result ≡ notes_of_segment file.entry.now segment }
{
    if segment.p_type != PT_NOTE {
        return None;
    }
    match read_segment(file, segment) {
        Ok(notes) => Some(notes),
        Err(_) => None,
    }
}

/// Returns the notes of a section, if it has some and the file holds them.
fn notes_of_section(file: &[u8], section: SectionHeader) -> Option<&[u8]>
    ensures { option_map (λ notes. notes.now) result ≡ notes_of_section file.entry.now section }
{
    if section.sh_type != SHT_NOTE {
        return None;
    }
    match read_contents(file, section) {
        Ok(notes) => Some(notes),
        Err(_) => None,
    }
}

/// Returns the build id in notes of which so many bytes may be read, and how many are left. Notes that have more are
/// not read.
fn build_id_within(notes: Option<&[u8]>, left: usize) -> (Option<&[u8]>, usize)
    ensures { (option_map (λ found. found.now) result.0, result.1) ≡ build_id_within (option_map (λ notes. notes.now) notes.entry) left }
{
    match notes {
        Some(notes) if notes.len() <= left => (build_id_in(notes), left - notes.len()),
        _ => (None, left),
    }
}
