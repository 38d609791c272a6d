//! The sections of a file that an unwinder needs.
ghost use Rattle.std.specs.Prelude.{◌≡◌, ◌≢◌, Ok, Err, MatchResult, IfOk, IfErr, option_map};
ghost use Rattle.framehop_object.specs.Elf.ElfFile.{section_called};
ghost use Rattle.framehop_object.specs.Elf.UnwindSections.{range_in, stored_in, stored_called, range_of, data_of, held_in, debug_frame_of, bytes_or_none, unwind_sections_of, has_eh_frame, debug_frame_sections_of, bytes_in, sections_view};

use crate::elf::decompressed::{ContentsError, read_decompressed};
use crate::elf::elf_file::ElfFile;
use crate::elf::error::ElfError;
use crate::elf::section::{SHT_NOBITS, read_contents};
use crate::elf::section_header::SectionHeader;
use framehop_bytes::section::ExplicitModuleSectionInfo;
use std::alloc::Global;
use std::ops::Range;

/// A section, and what it holds.
#[derive(Clone, Copy, Drop)]
struct Stored<'a> {
    section: SectionHeader,
    contents: &'a [u8],
}

/// Returns what an unwinder needs of a file, to make a module of it: where `.text` and `.got` are,
/// and copies of `.eh_frame`, `.eh_frame_hdr` and `.debug_frame`, which is decompressed where it is compressed. Of these
/// a section that the file does not hold, or whose contents are refused, counts as absent. The base SVMA of an ELF file
/// is 0.
///
/// # Errors
///
/// `OutOfMemory`.
///
/// Source: System V gABI, chapter 4, "Special Sections"; LSB Core, "Exception Frames".
pub fn read_unwind_sections(
    alloc: Global,
    elf: &ElfFile<'_>,
) -> Result<ExplicitModuleSectionInfo<Vec<u8>>, ElfError>
    ensures exact { IfOk result (λ info. sections_view info ≡ unwind_sections_of elf.now
        (bytes_or_none (debug_frame_of elf.now))) }
    ensures refused { IfErr result (λ error. error ≡ ElfError.OutOfMemory) }
{
    let debug_frame = match read_debug_frame(alloc, elf) {
        Ok(debug_frame) => debug_frame,
        Err(ContentsError::OutOfMemory) => return Err(ElfError::OutOfMemory),
        Err(_refusal) => None,
    };
    unwind_sections_with(alloc, elf, debug_frame)
}

/// Returns the same with these bytes of `.debug_frame`, as [`read_debug_frame`] returns them.
///
/// # Errors
///
/// `OutOfMemory`.
pub fn unwind_sections_with(
    alloc: Global,
    elf: &ElfFile<'_>,
    debug_frame: Option<Vec<u8>>,
) -> Result<ExplicitModuleSectionInfo<Vec<u8>>, ElfError>
    ensures exact { IfOk result (λ info. sections_view info
        ≡ unwind_sections_of elf.now (bytes_in debug_frame)) }
    ensures refused { IfErr result (λ error. error ≡ ElfError.OutOfMemory) }
{
    let eh_frame = stored_called(elf, b".eh_frame");
    let eh_frame_hdr = stored_called(elf, b".eh_frame_hdr");
    Ok(ExplicitModuleSectionInfo {
        eh_frame_svma: range_of(eh_frame),
        eh_frame: data_of(alloc, eh_frame)?,
        eh_frame_hdr_svma: range_of(eh_frame_hdr),
        eh_frame_hdr: data_of(alloc, eh_frame_hdr)?,
        ..debug_frame_sections(elf, debug_frame)
    })
}

/// Returns what an unwinder needs of the `.debug_frame` of a file: where `.text` and `.got` are, and these bytes, as
/// [`read_debug_frame`] returns them.
pub fn debug_frame_sections(
    elf: &ElfFile<'_>,
    debug_frame: Option<Vec<u8>>,
) -> ExplicitModuleSectionInfo<Vec<u8>>
    ensures { sections_view result ≡ debug_frame_sections_of elf.now (bytes_in debug_frame) }
{
    ExplicitModuleSectionInfo {
        text_svma: range_called(elf, b".text"),
        got_svma: range_called(elf, b".got"),
        debug_frame,
        ..ExplicitModuleSectionInfo::default()
    }
}

/// Returns whether a file holds `.eh_frame`.
pub fn has_eh_frame(elf: &ElfFile<'_>) -> bool
    ensures { result ≡ has_eh_frame elf.now }
{
    stored_called(elf, b".eh_frame").is_some()
}

/// Returns what the `.debug_frame` of a file holds, decompressed where it is compressed: `None` where the file has none,
/// or has no bytes of it.
///
/// # Errors
///
/// Those of `read_decompressed`, and `OlderForm` where the file has no `.debug_frame` and a `.zdebug_frame`.
///
/// Source: DWARF 5 section 6.4.1, "Structure of Call Frame Information"; GNU binutils,
/// `--compress-debug-sections=zlib-gnu`.
pub fn read_debug_frame(alloc: Global, elf: &ElfFile<'_>) -> Result<Option<Vec<u8>>, ContentsError>
    ensures { MatchResult result
        (λ bytes. debug_frame_of elf.now ≡ Ok (bytes_in bytes))
        (λ error. error ≢ ContentsError.OutOfMemory → debug_frame_of elf.now ≡ Err error) }
{
    match elf.section(b".debug_frame") {
        Some(section) => read_held(alloc, elf.bytes(), section),
        None if elf.section(b".zdebug_frame").is_some() => { Err(ContentsError::OlderForm) }
        None => Ok(None),
    }
}

/// Returns what a section holds, decompressed where it is compressed: `None` where the file has no bytes of it.
fn read_held(
    alloc: Global,
    file: &[u8],
    section: SectionHeader,
) -> Result<Option<Vec<u8>>, ContentsError>
    ensures { MatchResult result
        (λ bytes. held_in file.now section ≡ Ok (bytes_in bytes))
        (λ error. error ≢ ContentsError.OutOfMemory → held_in file.now section ≡ Err error) }
{
    if section.sh_type == SHT_NOBITS {
        return Ok(None);
    }
    let contents = read_decompressed(alloc, file, section)?;
    Ok(Some(contents))
}

/// Returns the section of a name, if the file holds it.
fn stored_called<'a>(elf: &ElfFile<'a>, name: &[u8]) -> Option<Stored<'a>>
    ensures { option_map (λ stored. (stored.section, stored.contents.now)) result
        ≡ stored_called elf.entry.now name.now }
{
    let section = elf.section(name)?;
    let contents = stored_in(elf.bytes(), section)?;
    Some(Stored { section, contents })
}

/// Returns what the file holds of a section.
fn stored_in(file: &[u8], section: SectionHeader) -> Option<&[u8]>
    ensures { option_map (λ contents. contents.now) result ≡ stored_in file.entry.now section }
{
    if section.sh_type == SHT_NOBITS {
        return None;
    }
    match read_contents(file, section) {
        Ok(contents) => Some(contents),
        Err(_) => None,
    }
}

/// Returns where the section of a name is (SVMA).
fn range_called(elf: &ElfFile<'_>, name: &[u8]) -> Option<Range<u64>>
    ensures { result ≡ option_map range_in (section_called elf.now name.now) }
{
    let section = elf.section(name)?;
    Some(range_in(section))
}

/// Returns where a section is (SVMA), if there is one.
fn range_of(stored: Option<Stored<'_>>) -> Option<Range<u64>>
    ensures { result ≡ range_of (option_map (λ stored. (stored.section, stored.contents.now)) stored.entry) }
{
    let stored = stored?;
    Some(range_in(stored.section))
}

/// Returns where a section is (SVMA). One that ends above the last address ends at it.
fn range_in(section: SectionHeader) -> Range<u64>
    ensures { result ≡ range_in section }
{
    section.sh_addr..section.sh_addr.saturating_add(section.sh_size)
}

/// Returns a copy of what a section holds, if there is one.
fn data_of(alloc: Global, stored: Option<Stored<'_>>) -> Result<Option<Vec<u8>>, ElfError>
    ensures exact { IfOk result (λ bytes. bytes_in bytes ≡ data_of (option_map (λ stored. (stored.section, stored.contents.now)) stored.entry)) }
    ensures refused { IfErr result (λ error. error ≡ ElfError.OutOfMemory) }
{
    let Some(stored) = stored else {
        return Ok(None);
    };
    let bytes = Vec::from_slice(alloc, stored.contents)?;
    Ok(Some(bytes))
}
