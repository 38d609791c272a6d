//! What sections hold, and where their names are.
ghost use Rattle.std.specs.Prelude.{◌≡◌, ◌==◌, Ok, Err, MatchResult};
ghost use Rattle.framehop_object.specs.Elf.Section.{size_in_file, contents_of, names_index_of, section_names_of};

use crate::elf::block::read_block;
use crate::elf::error::ElfError;
use crate::elf::header::FileHeader;
use crate::elf::section_header::{SectionHeader, read_first_section};

/// `SHT_NOBITS`: a section that takes no space in the file.
pub const SHT_NOBITS: u32 = 8;

/// `SHF_EXECINSTR`: the section has code.
pub const SHF_EXECINSTR: u64 = 4;

/// `SHF_COMPRESSED`.
pub(crate) const SHF_COMPRESSED: u64 = 0x800;

/// `SHN_UNDEF`.
const SHN_UNDEF: u32 = 0;

/// `SHN_XINDEX`: the index does not fit the field.
const SHN_XINDEX: u16 = 0xffff;

/// Returns the size of a section in the file.
pub(crate) fn size_in_file(section: SectionHeader) -> u64
    ensures { result ≡ size_in_file section }
{
    if section.sh_type == SHT_NOBITS {
        0
    } else {
        section.sh_size
    }
}

/// Returns the string table that has the names of a file's sections, without bytes where there are no
/// names.
///
/// # Errors
///
/// - `NoSuchSection` where the ELF header names a section that is not among these;
/// - `Eof` and `Compressed` by its contents, and `Eof` where the file ends before the first section
///   header, which has the index where `e_shstrndx` is `SHN_XINDEX`.
///
/// Source: System V gABI, chapter 4, "ELF Header", `e_shstrndx`.
#[tactic(auto, unfolding(crate::specs::Elf::Section::section_names_of))]
pub fn read_section_names<'a>(
    file: &'a [u8],
    header: FileHeader,
    sections: &[SectionHeader],
) -> Result<&'a [u8], ElfError>
    ensures { MatchResult result
        (λ names. section_names_of file.entry.now header sections.now ≡ Ok names.now)
        (λ error. section_names_of file.entry.now header sections.now ≡ Err error) }
{
    let index = names_index(file, header)?;
    if index == SHN_UNDEF {
        return Ok(&[]);
    }
    match sections.get(index as usize) {
        Some(section) => read_contents(file, *section),
        None => Err(ElfError::NoSuchSection { offset: 62 }),
    }
}

/// Returns the index of the section that has the names of sections.
#[tactic(auto, unfolding(crate::specs::Elf::Section::names_index_of))]
fn names_index(file: &[u8], header: FileHeader) -> Result<u32, ElfError>
    ensures { result ≡ names_index_of file.now header }
{
    if header.e_shstrndx != SHN_XINDEX {
        return Ok(u32::from(header.e_shstrndx));
    }
    let first = read_first_section(file, header)?;
    Ok(first.sh_link)
}

/// Returns what a section holds: no bytes where it is `SHT_NOBITS`.
///
/// # Errors
///
/// `Compressed` where it has `SHF_COMPRESSED`, which `read_decompressed` reads, and `Eof` where the file ends before it does.
///
/// Source: System V gABI, chapter 4, "Sections".
#[tactic(auto, unfolding(crate::specs::Elf::Section::contents_of))]
pub fn read_contents<'a>(file: &'a [u8], section: SectionHeader) -> Result<&'a [u8], ElfError>
    ensures { MatchResult result
        (λ contents. contents_of file.entry.now section ≡ Ok contents.now)
        (λ error. contents_of file.entry.now section ≡ Err error) }
{
    if section.sh_type == SHT_NOBITS {
        return Ok(&[]);
    }
    if section.sh_flags & SHF_COMPRESSED != 0 {
        return Err(ElfError::Compressed {
            offset: section.sh_offset,
        });
    }
    read_block(file, section.sh_offset, section.sh_size)
}
