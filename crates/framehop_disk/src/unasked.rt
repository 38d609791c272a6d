//! The sections of an ELF file of which neither unwinding nor names ask for a byte.
ghost use Rattle.std.specs.Prelude.{◌≡◌, IfOk, IfSome, IsPermutation, true};
ghost use Rattle.framehop_disk.specs.Unasked.{IsOfParts, are_kept, end_of_code, is_inside, is_name_unasked, is_section_kept, is_unasked, later_end, part_of, unasked_parts};

use crate::gaps::Gaps;
use framehop_bytes::bytes::back;
use framehop_object::elf::program_header::{PT_NOTE, ProgramHeader};
use framehop_object::elf::section::{SHF_EXECINSTR, SHT_NOBITS};
use framehop_object::elf::section_header::SectionHeader;
use framehop_object::elf::segment::PF_X;
use std::alloc::{AllocError, Global};
use std::ops::Range;

/// `SHT_PROGBITS`.
const SHT_PROGBITS: u32 = 1;

/// The size of the largest `.rodata` that is read, in bytes: 4 MiB. Code that is run may ask for its tables of jumps.
const LARGEST_CONSTANTS: u64 = 0x40_0000;

/// Returns the parts of a file of a size that nothing asks for, by its sections and their names. `None` where there are none,
/// and where they are not apart and after the code, or one has a byte of another section.
pub(crate) fn gaps_in(
    alloc: Global,
    headers: &[SectionHeader],
    names: &[u8],
    code_end: u64,
    size: u64,
) -> Result<Option<Gaps>, AllocError>
    ensures unasked { IfOk result (λ found. IfSome found (λ gaps. IsOfParts code_end (unasked_parts names.now size headers.now) gaps)) }
    ensures kept { IfOk result (λ found. IfSome found (λ gaps. are_kept names.now gaps headers.now ≡ true)) }
{
    let parts = unasked_parts(alloc, headers, names, size)?;
    match Gaps::new(alloc, parts.as_slice(), code_end)? {
        Some(gaps) if !parts.is_empty() && are_kept(headers, names, &gaps) => Ok(Some(gaps)),
        _ => Ok(None),
    }
}

/// Returns the parts of a file of a size that nothing asks for, in the order of their offsets, by its sections and their
/// names.
fn unasked_parts(
    alloc: Global,
    headers: &[SectionHeader],
    names: &[u8],
    size: u64,
) -> Result<Vec<Range<u64>>, AllocError>
    ensures { IfOk result (λ parts. IsPermutation (unasked_parts names.now size headers.now) parts.items) }
{
    let mut parts = parts_of(alloc, headers, names, size)?;
    parts.sort_by_key(|part| part.start)?;
    Ok(parts)
}

/// Returns these parts in the order of the sections.
fn parts_of(
    alloc: Global,
    headers: &[SectionHeader],
    names: &[u8],
    size: u64,
) -> Result<Vec<Range<u64>>, AllocError>
    ensures { IfOk result (λ parts. parts.items ≡ unasked_parts names.now size headers.now) }
{
    headers
        .iter()
        .filter(|section| is_unasked(section, names) && is_inside(section, size))
        .map(part_of)
        .collect(alloc)
}

/// Returns where a section is in the file.
fn part_of(section: &SectionHeader) -> Range<u64>
    ensures { result ≡ part_of section.now }
{
    section.sh_offset..section.sh_offset.saturating_add(section.sh_size)
}

/// Returns whether a file of a size has all bytes of a section.
pub(crate) fn is_inside(section: &SectionHeader, size: u64) -> bool
    ensures { result ≡ is_inside size section.now }
{
    section.sh_offset <= size && section.sh_size <= size - section.sh_offset
}

/// Returns whether neither unwinding nor names ask for a byte of a section, or few do: it has data that a process changes, or
/// much that it doesn't, or only debuggers read it.
fn is_unasked(section: &SectionHeader, names: &[u8]) -> bool
    ensures { result ≡ is_unasked names.now section.now }
{
    is_name_unasked(back(names, u64::from(section.sh_name)), section.sh_size)
        && section.sh_type == SHT_PROGBITS
        && section.sh_flags & SHF_EXECINSTR == 0
        && section.sh_size > 0
}

/// Returns whether the name with which bytes begin is that of such a section, which has a size.
#[tactic(auto, unfolding(crate::specs::Unasked::is_name_unasked))]
fn is_name_unasked(bytes: &[u8], size: u64) -> bool
    ensures { result ≡ is_name_unasked bytes.now size }
{
    (bytes.starts_with(b".rodata\0") && LARGEST_CONSTANTS < size)
        || bytes.starts_with(b".data\0")
        || (bytes.starts_with(b".debug_") && !bytes.starts_with(b".debug_frame\0"))
}

/// Returns whether all bytes of the other sections are kept.
fn are_kept(headers: &[SectionHeader], names: &[u8], gaps: &Gaps) -> bool
    ensures { result ≡ are_kept names.now gaps.now headers.now }
{
    headers
        .iter()
        .all(|section| is_section_kept(section, names, gaps))
}

/// Returns whether a section has no byte in the file, or none that is asked for, or all its bytes are kept.
fn is_section_kept(section: &SectionHeader, names: &[u8], gaps: &Gaps) -> bool
    ensures { result ≡ is_section_kept names.now gaps.now section.now }
{
    section.sh_type == SHT_NOBITS
        || is_unasked(section, names)
        || gaps.keep(section.sh_offset, section.sh_size)
}

/// Returns where the last segment of code or notes ends, if that is after an end.
pub(crate) fn end_of_code(headers: &[ProgramHeader], end: u64) -> u64
    ensures { result ≡ end_of_code end headers.now }
{
    let mut last = end;
    for segment in headers {
        last = later_end(last, segment);
    }
    last
}

/// Returns where a segment of code or notes ends, if it is one, and that is after an end.
fn later_end(end: u64, segment: &ProgramHeader) -> u64
    ensures { result ≡ later_end end segment.now }
{
    if segment.p_type == PT_NOTE || segment.p_flags & PF_X != 0 {
        end.max(segment.p_offset.saturating_add(segment.p_filesz))
    } else {
        end
    }
}
