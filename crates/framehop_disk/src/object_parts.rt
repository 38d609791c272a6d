//! Mapped files without the sections of which neither unwinding nor names ask for a byte: most of a file that was built for
//! debugging.
ghost use Rattle.std.specs.Prelude.{◌≡◌, IfOk, IfSome, Ok, Some, true};
ghost use Rattle.framehop_disk.specs.Gaps.{is_kept};
ghost use Rattle.framehop_disk.specs.ObjectParts.{code_end_by, front_size, has_build_id, headers_in, headers_place, headers_size, is_object, kept_parts, names_section, with_moved, with_section, written};
ghost use Rattle.framehop_disk.specs.Unasked.{IsOfParts, are_kept, unasked_parts};

use crate::gaps::{Gap, Gaps};
use crate::input::{read_at, read_front, read_sized, zeros};
use crate::unasked::{end_of_code, gaps_in, is_inside};
use framehop_object::elf::header::{FileHeader, HEADER_SIZE, read_file_header};
use framehop_object::elf::program_header::{
    ENTRY_SIZE as PROGRAM_HEADER_SIZE, read_program_headers,
};
use framehop_object::elf::section_header::{
    ENTRY_SIZE as SECTION_HEADER_SIZE, SectionHeader, read_section_headers,
};
use framehop_object::pe::header::is_pe;
use framehop_processes::object_file::build_id_of;
use std::alloc::{AllocError, Global};
use std::fs::File;
use std::io;
use std::ops::Range;

/// The size from which on sections are left out of a file, in bytes: 1 MiB.
const SMALLEST: u64 = 0x10_0000;

/// The most bytes of names of sections that are read apart: 16 MiB.
const LARGEST_NAMES: u64 = 0x100_0000;

/// The offset of `e_shoff` in an ELF header, in bytes.
const E_SHOFF: u64 = 40;

/// The offset of `sh_offset` in a section header, in bytes.
const SH_OFFSET: u64 = 24;

/// The offset of `sh_size` in a section header, in bytes.
const SH_SIZE: u64 = 32;

/// The section headers of a file, and the parts of it that are left out.
#[derive(Drop)]
struct Sections {
    /// Where the section headers begin in the file, in bytes.
    offset: u64,
    headers: Vec<SectionHeader>,
    left_out: Gaps,
}

/// Reads a file of a size: of one of 1 MiB or more that is neither an ELF nor a PE file the first bytes, by which it is refused;
/// of an ELF file with a build id, of 1 MiB or more, without a `.rodata` above 4 MiB, `.data` and its sections
/// `.debug_*` but for `.debug_frame`, where they come after all code. What comes after them moves to the front, and the section
/// headers tell where to.
pub(crate) fn read_object(rt: &HostRuntime, path: &str, size: u64) -> io::Result<Vec<u8>> {
    if size >= SMALLEST {
        let mut file = File::open(rt, path)?;
        let front = read_at(rt.alloc(), &mut file, 0, HEADER_SIZE)?;
        if !is_object(front.as_slice()) {
            return Ok(front);
        }
        if let Some(bytes) = read_asked_sections(rt.alloc(), &mut file, size)? {
            return Ok(bytes);
        }
    }
    read_sized(rt, path, size)
}

/// Returns whether a file may be an ELF or a PE file, by its first bytes.
fn is_object(front: &[u8]) -> bool
    ensures { result ≡ is_object front.now }
{
    front.starts_with(b"\x7fELF") || is_pe(front)
}

/// Reads an ELF file of a size without the sections that nothing asks for. `None` of what is to be read whole.
fn read_asked_sections(alloc: Global, file: &mut File, size: u64) -> io::Result<Option<Vec<u8>>> {
    let Some(header) = read_header(alloc, file)? else {
        return Ok(None);
    };
    match read_sections(alloc, file, header, size)? {
        Some(sections) => read_with_build_id(alloc, file, size, &sections),
        None => Ok(None),
    }
}

/// Reads the header of an ELF file.
fn read_header(alloc: Global, file: &mut File) -> io::Result<Option<FileHeader>> {
    let front = read_at(alloc, file, 0, HEADER_SIZE)?;
    Ok(read_file_header(front.as_slice()).ok())
}

/// Reads a file of a size without the parts that are left out. `None` of one without a build id.
fn read_with_build_id(
    alloc: Global,
    file: &mut File,
    size: u64,
    sections: &Sections,
) -> io::Result<Option<Vec<u8>>> {
    let mut bytes = read_rest(alloc, file, size, &sections.left_out)?;
    move_sections(
        bytes.as_mut_slice(),
        sections.offset,
        sections.headers.as_slice(),
        &sections.left_out,
    );
    if has_build_id(alloc, bytes.as_slice())? {
        Ok(Some(bytes))
    } else {
        Ok(None)
    }
}

/// Returns whether a file has a build id.
fn has_build_id(alloc: Global, file: &[u8]) -> Result<bool, AllocError>
    ensures { IfOk result (λ has. has ≡ has_build_id file.now) }
{
    Ok(!build_id_of(alloc, file)?.is_empty())
}

/// Reads the section headers of a file of a size, and tells which parts of it are left out. `None` where none are, and of a
/// file whose headers are not as linkers write them: it is to be read whole.
fn read_sections(
    alloc: Global,
    file: &mut File,
    header: FileHeader,
    size: u64,
) -> io::Result<Option<Sections>> {
    let Some(code_end) = code_end(alloc, file, header)? else {
        return Ok(None);
    };
    let Some(headers) = read_headers(alloc, file, header, size)? else {
        return Ok(None);
    };
    match read_gaps(alloc, file, header, headers.as_slice(), code_end, size)? {
        Some(left_out) => Ok(Some(Sections {
            offset: header.e_shoff,
            headers,
            left_out,
        })),
        None => Ok(None),
    }
}

/// Returns the parts of a file of a size that are left out, by the names of its sections, which are read. `None` where there are
/// none, and where they are not apart and after the code.
fn read_gaps(
    alloc: Global,
    file: &mut File,
    header: FileHeader,
    headers: &[SectionHeader],
    code_end: u64,
    size: u64,
) -> io::Result<Option<Gaps>> {
    let Some(names) = names_section(header, headers, size) else {
        return Ok(None);
    };
    let names = read_at(alloc, file, names.sh_offset, names.sh_size)?;
    Ok(left_out(alloc, header, headers, names.as_slice(), code_end, size)?)
}

/// Returns the parts of a file of a size that are left out, by the names of its sections. `None` where there are none, where they
/// are not apart and after the code, and where one has a byte of another section or of the section headers.
fn left_out(
    alloc: Global,
    header: FileHeader,
    headers: &[SectionHeader],
    names: &[u8],
    code_end: u64,
    size: u64,
) -> Result<Option<Gaps>, AllocError>
    ensures unasked { IfOk result (λ found. IfSome found (λ gaps. IsOfParts code_end (unasked_parts names.now size headers.now) gaps)) }
    ensures sections { IfOk result (λ found. IfSome found (λ gaps. are_kept names.now gaps headers.now ≡ true)) }
    ensures headers { IfOk result (λ found. IfSome found (λ gaps. is_kept gaps header.e_shoff (headers_size header) ≡ true)) }
{
    match gaps_in(alloc, headers, names, code_end, size)? {
        Some(gaps) if gaps.keep(header.e_shoff, headers_size(header)) => Ok(Some(gaps)),
        _ => Ok(None),
    }
}

/// Returns the section of the names of sections, if a file of a size has it, and it is not too large.
fn names_section(header: FileHeader, headers: &[SectionHeader], size: u64) -> Option<SectionHeader>
    ensures { result ≡ names_section header headers.now size }
{
    let names = headers.get(usize::from(header.e_shstrndx))?;
    if is_inside(names, size) && names.sh_size <= LARGEST_NAMES {
        Some(*names)
    } else {
        None
    }
}

/// Returns the offset at which a file's program headers, its code and its notes end. `None` where the program headers are not
/// in its first MiB, or can't be read.
fn code_end(alloc: Global, file: &mut File, header: FileHeader) -> io::Result<Option<u64>> {
    let Some(end) = front_size(header) else {
        return Ok(None);
    };
    let front = read_at(alloc, file, 0, end)?;
    Ok(code_end_by(alloc, front.as_slice(), header))
}

/// Returns the offset at which the first bytes of a file end or, where that is later, its code and its notes. `None` where its
/// program headers can't be read in these.
fn code_end_by(alloc: Global, front: &[u8], header: FileHeader) -> Option<u64>
    ensures { IfSome result (λ end. code_end_by front.now header ≡ Some end) }
{
    match read_program_headers(alloc, front, header) {
        Ok(headers) => Some(end_of_code(headers.as_slice(), front.len() as u64)),
        Err(_) => None,
    }
}

/// Returns where the program headers of a file end, or its header where it has none before that. `None` where they are not in its
/// first MiB.
fn front_size(header: FileHeader) -> Option<u64>
    ensures { result ≡ front_size header }
{
    let size = PROGRAM_HEADER_SIZE as u64 * u64::from(header.e_phnum);
    let end = header.e_phoff.saturating_add(size).max(HEADER_SIZE);
    if end <= SMALLEST { Some(end) } else { None }
}

/// Reads the section headers of a file of a size, if it has them where its header says.
fn read_headers(
    alloc: Global,
    file: &mut File,
    header: FileHeader,
    size: u64,
) -> io::Result<Option<Vec<SectionHeader>>> {
    let Some(place) = headers_place(header, size) else {
        return Ok(None);
    };
    let before = place.start.saturating_sub(HEADER_SIZE);
    let table = read_at(alloc, file, before, place.end.saturating_sub(before))?;
    Ok(headers_in(alloc, table.as_slice(), header))
}

/// Returns the section headers of a file, which are in a table after as many bytes as its own header has. `None` where they can't
/// be read.
fn headers_in(alloc: Global, table: &[u8], header: FileHeader) -> Option<Vec<SectionHeader>>
    ensures { IfSome result (λ headers. headers_in table.now header ≡ Ok headers.items) }
{
    let here = FileHeader {
        e_shoff: HEADER_SIZE,
        ..header
    };
    read_section_headers(alloc, table, here).ok()
}

/// Returns where a file of a size has its section headers: after its own header, if it has some.
fn headers_place(header: FileHeader, size: u64) -> Option<Range<u64>>
    ensures { result ≡ headers_place header size }
{
    let end = header.e_shoff.saturating_add(headers_size(header));
    if header.e_shoff < HEADER_SIZE || header.e_shnum == 0 || end > size {
        None
    } else {
        Some(header.e_shoff..end)
    }
}

/// Returns the size of the section headers of a file, in bytes.
fn headers_size(header: FileHeader) -> u64
    ensures { result ≡ headers_size header }
{
    SECTION_HEADER_SIZE as u64 * u64::from(header.e_shnum)
}

/// Reads a file of a size without the parts that are left out.
fn read_rest(alloc: Global, file: &mut File, size: u64, left_out: &Gaps) -> io::Result<Vec<u8>> {
    let mut bytes = zeros(alloc, left_out.moved(size) as usize)?;
    let mut rest = bytes.as_mut_slice();
    let parts = kept_parts(alloc, left_out.gaps(), size)?;
    for part in &parts {
        rest = read_front(file, part.start, part.end.saturating_sub(part.start), rest)?;
    }
    Ok(bytes)
}

/// Returns the parts of a file of a size that are read: what is before, between and after the gaps.
fn kept_parts(alloc: Global, left_out: &[Gap], size: u64) -> Result<Vec<Range<u64>>, AllocError>
    ensures { IfOk result (λ parts. parts.items ≡ kept_parts size left_out.now) }
{
    let mut parts = Vec::new(alloc);
    let mut start = 0;
    for gap in left_out {
        parts.push(start..gap.start)?;
        start = gap.end;
    }
    parts.push(start..size)?;
    Ok(parts)
}

/// Writes where the sections are in a file of which parts are left out: those have no bytes. Their headers began at an offset.
fn move_sections(bytes: &mut [u8], offset: u64, sections: &[SectionHeader], left_out: &Gaps)
    ensures { bytes.new ≡ with_moved left_out.now offset sections.now bytes.old }
{
    let mut place = left_out.moved(offset);
    write_u64(bytes, E_SHOFF, place);
    for section in sections {
        move_section(bytes, place, section, left_out);
        place = place.saturating_add(SECTION_HEADER_SIZE as u64);
    }
}

/// Writes where a section is, whose header is at a place.
fn move_section(bytes: &mut [u8], place: u64, section: &SectionHeader, left_out: &Gaps)
    ensures { bytes.new ≡ with_section left_out.now place section.now bytes.old }
{
    let offset = left_out.moved(section.sh_offset);
    write_u64(bytes, place.saturating_add(SH_OFFSET), offset);
    if left_out.begins_at(section.sh_offset) {
        write_u64(bytes, place.saturating_add(SH_SIZE), 0);
    }
}

/// Writes the bytes of a number at an offset, as many of them as there is room for.
pub(crate) fn write_u64(bytes: &mut [u8], offset: u64, number: u64)
    ensures { bytes.new ≡ written bytes.old offset number }
{
    let digits = number.to_le_bytes();
    let start = (offset as usize).min(bytes.len());
    let count = (bytes.len() - start).min(8);
    bytes[start..start + count].copy_from_slice(&digits[..count]);
}
