//! What is kept of a PE file.
ghost use Rattle.std.specs.Prelude.{◌≡◌, IfOk, IfErr, map};
ghost use Rattle.framehop_processes.specs.ObjectFiles.{segment_of, identity_by, identity_of, pe_module_in, pdata_of};

use crate::mapped_bytes::{MappedBytes, kept_pe_sections};
use framehop::Module;
use framehop_memory::segment::Segment;
use framehop_object::pe::codeview::read_rsds;
use framehop_object::pe::error::PeError;
use framehop_object::pe::pe_file::PeFile;
use framehop_object::pe::section_header::SectionHeader;
use framehop_object::pe::unwind_sections::{lend_unwind_sections, read_unwind_sections};
use std::alloc::{AllocError, Global};

/// `IMAGE_SCN_MEM_EXECUTE`: the section may be executed.
const EXECUTE: u32 = 0x2000_0000;

/// Returns the segments that sections are loaded as.
pub fn segments_of(alloc: Global, sections: &[SectionHeader]) -> Result<Vec<Segment>, AllocError>
    ensures { IfOk result (λ segments. segments.items ≡ map segment_of sections.now) }
{
    sections
        .iter()
        .map(|section| segment_of(*section))
        .collect(alloc)
}

/// Returns the segment that a section is loaded as. Its addresses are relative to the base of the image (RVAs).
fn segment_of(section: SectionHeader) -> Segment
    ensures { result ≡ segment_of section }
{
    Segment {
        address: u64::from(section.virtual_address),
        size: u64::from(section.virtual_size),
        offset: u64::from(section.pointer_to_raw_data),
        file_size: u64::from(section.size_of_raw_data),
        is_code: section.characteristics & EXECUTE != 0,
    }
}

/// Returns what tells a file from others of its name: the GUID and the age of its program database, or no bytes.
pub(crate) fn identity_in<'a>(pe: &PeFile<'a>) -> &'a [u8]
    ensures { result.now ≡ identity_of pe.entry.now }
{
    match read_rsds(pe) {
        Ok(Some(rsds)) => rsds.guid_and_age,
        _ => &[],
    }
}

/// Returns the function table of a file, no bytes where it has none.
pub(crate) fn pdata_in<'a>(pe: &PeFile<'a>) -> &'a [u8]
    ensures { result.now ≡ pdata_of pe.entry.now }
{
    match lend_unwind_sections(pe).pdata {
        Some(pdata) => pdata,
        None => &[],
    }
}

/// Returns a module of a file that lies at no address.
pub(crate) fn module_in<'m>(
    alloc: Global,
    pe: &PeFile<'_>,
) -> Result<Module<MappedBytes<'m>>, PeError>
    ensures loaded { IfOk result (λ made. made ≡ pe_module_in pe.now) }
    ensures refused { IfErr result (λ error. error ≡ PeError.OutOfMemory) }
{
    let info = read_unwind_sections(alloc, pe)?;
    let info = kept_pe_sections(info);
    match Module::new(alloc, String::new(alloc), 0..0, 0, info) {
        Ok(made) => Ok(made),
        Err(_) => Err(PeError::OutOfMemory),
    }
}
