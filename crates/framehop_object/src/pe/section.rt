//! What sections hold, and what they are called.
ghost use Rattle.std.specs.Prelude.{◌≡◌, Ok, Err, MatchResult};
ghost use Rattle.framehop_object.specs.Pe.Section.{name_of, size_in_file, rva_range, contents_of, section_called};

use crate::pe::block::read_block;
use crate::pe::error::PeError;
use crate::pe::section_header::SectionHeader;
use framehop_bytes::string::string_at;
use std::ops::Range;

/// Returns the first section of a name.
pub(crate) fn section_by_name(sections: &[SectionHeader], name: &[u8]) -> Option<SectionHeader>
    ensures { result ≡ section_called sections.now name.now }
{
    sections
        .iter()
        .find(|section| section_name(section) == name)
        .copied()
}

/// Returns the name of a section, without the zeros after it. A linker may write longer names as `/` and an
/// offset of the string table, which is not read.
///
/// Source: Microsoft, "PE Format", "Section Table (Section Headers)", `Name`.
pub fn section_name(section: &SectionHeader) -> &[u8]
    ensures { result.now ≡ name_of section.entry.now }
{
    string_at(&section.name, 0)
}

/// Returns where a section is in memory (RVA): from `VirtualAddress` on `VirtualSize` bytes.
///
/// Source: Microsoft, "PE Format", "Section Table (Section Headers)".
pub fn rva_range(section: SectionHeader) -> Range<u64>
    ensures { result ≡ rva_range section }
{
    let start = u64::from(section.virtual_address);
    start..start + u64::from(section.virtual_size)
}

/// Returns the bytes of a section as they are in the file: from `PointerToRawData` on as many as the smaller of
/// `VirtualSize` and `SizeOfRawData`.
///
/// # Errors
///
/// `Eof` where the file ends before they do.
///
/// Source: Microsoft, "PE Format", "Section Table (Section Headers)".
pub fn read_contents<'a>(file: &'a [u8], section: SectionHeader) -> Result<&'a [u8], PeError>
    ensures { MatchResult result
        (λ contents. contents_of file.entry.now section ≡ Ok contents.now)
        (λ error. contents_of file.entry.now section ≡ Err error) }
{
    read_block(
        file,
        u64::from(section.pointer_to_raw_data),
        u64::from(size_in_file(section)),
    )
}

/// Returns how many bytes of a section the file has: the smaller of `SizeOfRawData`, which counts padding, and
/// `VirtualSize`, which counts zeros that are not in the file.
pub(crate) fn size_in_file(section: SectionHeader) -> u32
    ensures { result ≡ size_in_file section }
{
    section.size_of_raw_data.min(section.virtual_size)
}
