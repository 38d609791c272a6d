//! The sections of a file that an unwinder needs.
ghost use Rattle.std.specs.Prelude.{◌≡◌, ℕ, IfOk, IfErr, option_map, Vec};
ghost use Rattle.std.specs.declared.alloc.Global.{Global};
ghost use Rattle.framehop_object.specs.Pe.UnwindSections.{part_view, range_in, part_in, part_called, part_of_directory, exception_part, pdata_of, table_of, range_of, data_of, sections_view, unwind_sections_of};

use crate::pe::error::PeError;
use crate::pe::header::DataDirectory;
use crate::pe::pe_file::PeFile;
use crate::pe::rva::read_at_rva;
use crate::pe::section::{read_contents, section_by_name};
use crate::pe::section_header::SectionHeader;
use framehop_bytes::section::ModuleSectionInfo;
use std::alloc::Global;
use std::ops::Range;

/// The sections of a PE module that unwinding reads: where they are (SVMA), and their data. Data is taken out
/// of its field when it is asked for.
#[derive(Drop)]
pub struct PeUnwindSections<D> {
    /// The address that the image is linked for.
    pub base_svma: u64,
    /// Where the function table is.
    pub pdata_svma: Option<Range<u64>>,
    /// The function table.
    pub pdata: Option<D>,
    /// Where `.rdata` is.
    pub rdata_svma: Option<Range<u64>>,
    /// The data of `.rdata`, which has unwind info in most files.
    pub rdata: Option<D>,
    /// Where `.xdata` is.
    pub xdata_svma: Option<Range<u64>>,
    /// The data of `.xdata`, which has unwind info in some files.
    pub xdata: Option<D>,
    /// Where `.text` is.
    pub text_svma: Option<Range<u64>>,
    /// The code, in which epilogs are looked for.
    pub text: Option<D>,
}

impl<D> ModuleSectionInfo<D> for PeUnwindSections<D> {
    ghost table = { table_of };

    fn base_svma(&self) -> u64 {
        self.base_svma
    }

    fn section_svma_range(&mut self, name: &[u8]) -> Option<Range<u64>> {
        if name == b".pdata".as_slice() {
            copy_of(&self.pdata_svma)
        } else if name == b".rdata".as_slice() {
            copy_of(&self.rdata_svma)
        } else if name == b".xdata".as_slice() {
            copy_of(&self.xdata_svma)
        } else if name == b".text".as_slice() {
            copy_of(&self.text_svma)
        } else {
            None
        }
    }

    fn section_data(&mut self, name: &[u8]) -> Option<D> {
        if name == b".pdata".as_slice() {
            self.pdata.take()
        } else if name == b".rdata".as_slice() {
            self.rdata.take()
        } else if name == b".xdata".as_slice() {
            self.xdata.take()
        } else if name == b".text".as_slice() {
            self.text.take()
        } else {
            None
        }
    }

    fn segment_svma_range(&mut self, _name: &[u8]) -> Option<Range<u64>> {
        None
    }

    fn segment_data(&mut self, _name: &[u8]) -> Option<D> {
        None
    }
}

/// A part of the image: where it is, and what the file has of it.
#[derive(Clone, Copy, Drop)]
struct Part<'a> {
    rva: u32,
    size: u32,
    contents: &'a [u8],
}

/// Returns a copy of a range.
fn copy_of(range: &Option<Range<u64>>) -> Option<Range<u64>>
    ensures { result ≡ range.now }
{
    match range {
        Some(range) => Some(range.start..range.end),
        None => None,
    }
}

/// Returns what an unwinder needs of a file, as [`lend_unwind_sections`] does, with copies of the sections.
///
/// # Errors
///
/// `OutOfMemory`.
pub fn read_unwind_sections(
    alloc: Global,
    pe: &PeFile<'_>,
) -> Result<PeUnwindSections<Vec<u8>>, PeError>
    ensures exact { IfOk result (λ info. sections_view (λ (vec : Vec ℕ Global). vec.items) info ≡ unwind_sections_of pe.now) }
    ensures refused { IfErr result (λ error. error ≡ PeError.OutOfMemory) }
{
    let lent = lend_unwind_sections(pe);
    Ok(PeUnwindSections {
        base_svma: lent.base_svma,
        pdata_svma: lent.pdata_svma,
        pdata: copied(alloc, lent.pdata)?,
        rdata_svma: lent.rdata_svma,
        rdata: copied(alloc, lent.rdata)?,
        xdata_svma: lent.xdata_svma,
        xdata: copied(alloc, lent.xdata)?,
        text_svma: lent.text_svma,
        text: copied(alloc, lent.text)?,
    })
}

/// Lends what an unwinder needs of a file, to make a module of it: where `.pdata`, `.rdata`, `.xdata` and
/// `.text` are, and their bytes as they are in the file. Each is the first section of its name. One that the
/// file does not hold counts as absent. Where `.pdata` is absent, the function table is what the data directory
/// of exceptions names, in whichever section it is: by that directory Windows finds the table in each file.
/// Takes no memory.
///
/// Source: Microsoft, "PE Format", "Special Sections" and "The .pdata Section".
pub fn lend_unwind_sections<'a>(pe: &PeFile<'a>) -> PeUnwindSections<&'a [u8]>
    ensures { sections_view (λ bytes. bytes.now) result ≡ unwind_sections_of pe.entry.now }
{
    let base = pe.header().image_base;
    let pdata = pdata(pe);
    let rdata = part_called(pe, b".rdata");
    let xdata = part_called(pe, b".xdata");
    let text = part_called(pe, b".text");
    PeUnwindSections {
        base_svma: base,
        pdata_svma: range_of(base, pdata),
        pdata: data_of(pdata),
        rdata_svma: range_of(base, rdata),
        rdata: data_of(rdata),
        xdata_svma: range_of(base, xdata),
        xdata: data_of(xdata),
        text_svma: range_of(base, text),
        text: data_of(text),
    }
}

/// Returns the function table: the section `.pdata`, or else what the data directory of exceptions names.
fn pdata<'a>(pe: &PeFile<'a>) -> Option<Part<'a>>
    ensures { option_map part_view result ≡ pdata_of pe.entry.now }
{
    match part_called(pe, b".pdata") {
        Some(part) => Some(part),
        None => exception_part(pe),
    }
}

/// Returns the first section of a name, if the file holds it.
fn part_called<'a>(pe: &PeFile<'a>, name: &[u8]) -> Option<Part<'a>>
    ensures { option_map part_view result ≡ part_called pe.entry.now name.now }
{
    let section = section_by_name(pe.sections(), name)?;
    part_in(pe.bytes(), section)
}

/// Returns a section, if the file holds it.
fn part_in(file: &[u8], section: SectionHeader) -> Option<Part<'_>>
    ensures { option_map part_view result ≡ part_in file.entry.now section }
{
    match read_contents(file, section) {
        Ok(contents) => Some(Part {
            rva: section.virtual_address,
            size: section.virtual_size,
            contents,
        }),
        Err(_) => None,
    }
}

/// Returns what the data directory of exceptions names, if there is one and the file holds it.
fn exception_part<'a>(pe: &PeFile<'a>) -> Option<Part<'a>>
    ensures { option_map part_view result ≡ exception_part pe.entry.now }
{
    let directory = pe.header().exception_directory?;
    part_of_directory(pe, directory)
}

/// Returns what a data directory names, if the file holds it.
fn part_of_directory<'a>(pe: &PeFile<'a>, directory: DataDirectory) -> Option<Part<'a>>
    ensures { option_map part_view result ≡ part_of_directory pe.entry.now directory }
{
    let (rva, size) = (directory.virtual_address, directory.size);
    match read_at_rva(pe, rva, size) {
        Ok(contents) => Some(Part {
            rva,
            size,
            contents,
        }),
        Err(_) => None,
    }
}

/// Returns where a part is (SVMA), if there is one.
fn range_of(base: u64, part: Option<Part<'_>>) -> Option<Range<u64>>
    ensures { result ≡ range_of base (option_map part_view part.entry) }
{
    let part = part?;
    Some(range_in(base, part))
}

/// Returns where a part is (SVMA). An address above the last one is the last one.
fn range_in(base: u64, part: Part<'_>) -> Range<u64>
    ensures { result ≡ range_in base (part_view part.entry) }
{
    let start = base.saturating_add(u64::from(part.rva));
    let end = base.saturating_add(u64::from(part.rva) + u64::from(part.size));
    start..end
}

/// Returns what the file has of a part, if there is one.
fn data_of<'a>(part: Option<Part<'a>>) -> Option<&'a [u8]>
    ensures { option_map (λ contents. contents.now) result ≡ data_of (option_map part_view part.entry) }
{
    let part = part?;
    Some(part.contents)
}

/// Returns a copy of bytes, if there are some.
fn copied(alloc: Global, bytes: Option<&[u8]>) -> Result<Option<Vec<u8>>, PeError>
    ensures exact { IfOk result (λ copy. option_map (λ (vec : Vec ℕ Global). vec.items) copy ≡ option_map (λ contents. contents.now) bytes.entry) }
    ensures refused { IfErr result (λ error. error ≡ PeError.OutOfMemory) }
{
    let Some(bytes) = bytes else {
        return Ok(None);
    };
    let copy = Vec::from_slice(alloc, bytes)?;
    Ok(Some(copy))
}
