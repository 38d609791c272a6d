//! Where the bytes of an image are in its file.
ghost use Rattle.std.specs.Prelude.{◌≡◌, ◌≤◌, Ok, Err, MatchResult, IfSome};
ghost use Rattle.framehop_object.specs.Pe.Rva.{holds, section_with, bytes_at};

use crate::pe::block::read_block;
use crate::pe::error::PeError;
use crate::pe::pe_file::PeFile;
use crate::pe::section::size_in_file;
use crate::pe::section_header::SectionHeader;

/// Returns so many bytes of the image from an RVA on, as they are in the file: those of the headers, which are
/// at the front of both, or of the first section that has them all.
///
/// # Errors
///
/// `NotInSection` where neither the headers nor a section have them, else `Eof` where the file ends before they
/// do.
///
/// Source: Microsoft, "PE Format", "General Concepts", "relative virtual address (RVA)", and "Optional Header
/// Windows-Specific Fields (Image Only)", `SizeOfHeaders`.
pub fn read_at_rva<'a>(pe: &PeFile<'a>, rva: u32, size: u32) -> Result<&'a [u8], PeError>
    ensures { MatchResult result
        (λ bytes. bytes_at pe.entry.now rva size ≡ Ok bytes.now)
        (λ error. bytes_at pe.entry.now rva size ≡ Err error) }
{
    let (first, length) = (u64::from(rva), u64::from(size));
    if first + length <= u64::from(pe.header().size_of_headers) {
        return read_block(pe.bytes(), first, length);
    }
    let Some(section) = section_with_rva(pe.sections(), rva, size) else {
        return Err(PeError::NotInSection { rva });
    };
    let offset = u64::from(section.pointer_to_raw_data) + u64::from(rva - section.virtual_address);
    read_block(pe.bytes(), offset, length)
}

/// Returns the first section that has so many bytes from an RVA on in the file.
fn section_with_rva(sections: &[SectionHeader], rva: u32, size: u32) -> Option<SectionHeader>
    ensures exact { result ≡ section_with sections.now rva size }
    ensures before { IfSome result (λ section. section.virtual_address ≤ rva) }
{
    sections
        .iter()
        .find(|section| holds(**section, rva, size))
        .copied()
}

/// Returns whether the file has so many bytes of a section from an RVA on.
fn holds(section: SectionHeader, rva: u32, size: u32) -> bool
    ensures { result ≡ holds rva size section }
{
    let (start, first) = (u64::from(section.virtual_address), u64::from(rva));
    start <= first && first + u64::from(size) <= start + u64::from(size_in_file(section))
}
