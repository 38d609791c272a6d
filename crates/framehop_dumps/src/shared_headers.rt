//! Program headers and notes in the first bytes of files, as memory has them: no more than the bytes of a dump.
//!
//! Ranges of memory may share bytes of a dump. So the first bytes of many files may be the same ones, and tell of many times
//! more than the dump has: such a dump is refused before they are all read.
ghost use Rattle.std.specs.Prelude.{◌≡◌, ◌⊎◌, Ok, Err, MatchResult, IfOk, map};
ghost use Rattle.std.specs.List.{sum_by};
ghost use Rattle.framehop_dump_files.specs.Coredump.MappedFile.{mapped_file_view};
ghost use Rattle.framehop_memory.specs.Memory.{memory_view};
ghost use Rattle.framehop_dumps.specs.Minidump.{loaded_view, module_size, with_own_modules};
ghost use Rattle.framehop_dumps.specs.SharedHeaders.{notes_in, header_size, headers_size, left_after, mapped_size, with_own_headers};

use crate::image::{head_at, segments_in};
use crate::minidump::LoadedModule;
use framehop_dump_files::coredump::error::CoreFileError;
use framehop_dump_files::coredump::mapped_file::MappedFile;
use framehop_dump_files::minidump::error::MinidumpError;
use framehop_memory::memory::ProcessMemory;
use framehop_object::elf::program_header::{
    ENTRY_SIZE as PROGRAM_HEADER_SIZE, PT_NOTE, ProgramHeader,
};
use framehop_object::elf::segment::read_segment;
use std::alloc::{AllocError, Global};

/// Refuses mapped files whose first bytes tell of more program headers and notes than memory has bytes.
///
/// # Errors
///
/// `SharedHeaders`; `OutOfMemory`.
pub(crate) fn check_mapped_files(
    alloc: Global,
    memory: &ProcessMemory<'_>,
    files: &[MappedFile<'_>],
) -> Result<(), CoreFileError>
    ensures { MatchResult result
        (λ checked. with_own_headers (memory_view memory.now) (map mapped_file_view files.now) ≡ Ok (map mapped_file_view files.now))
        (λ error. (error ≡ CoreFileError.OutOfMemory)
        ⊎ (with_own_headers (memory_view memory.now) (map mapped_file_view files.now) ≡ Err error)) }
{
    let mut left = memory.file.len();
    for mapped in files {
        match left_after_mapped(alloc, memory, mapped, left)? {
            Some(rest) => left = rest,
            None => return Err(CoreFileError::SharedHeaders),
        }
    }
    Ok(())
}

/// Returns how many of so many bytes are left after the program headers and the notes that the first bytes of a mapped file
/// tell of, if the mapping has them. `None` where they are more.
fn left_after_mapped(
    alloc: Global,
    memory: &ProcessMemory<'_>,
    mapped: &MappedFile<'_>,
    left: usize,
) -> Result<Option<usize>, AllocError>
    ensures { IfOk result (λ rest. rest ≡ left_after left (mapped_size (memory_view memory.now) (mapped_file_view mapped.now))) }
{
    if mapped.offset != 0 {
        return Ok(Some(left));
    }
    left_after_head(alloc, head_at(memory, mapped.start), left)
}

/// Refuses modules whose first bytes tell of more program headers and notes than memory has bytes.
///
/// # Errors
///
/// `SharedHeaders`; `OutOfMemory`.
pub(crate) fn check_modules(
    alloc: Global,
    memory: &ProcessMemory<'_>,
    modules: &[LoadedModule],
) -> Result<(), MinidumpError>
    ensures { MatchResult result
        (λ checked. with_own_modules (memory_view memory.now) (map loaded_view modules.now) ≡ Ok (map loaded_view modules.now))
        (λ error. (error ≡ MinidumpError.OutOfMemory)
        ⊎ (with_own_modules (memory_view memory.now) (map loaded_view modules.now) ≡ Err error)) }
{
    let mut left = memory.file.len();
    for module in modules {
        match left_after_module(alloc, memory, module, left)? {
            Some(rest) => left = rest,
            None => return Err(MinidumpError::SharedHeaders),
        }
    }
    Ok(())
}

/// Returns how many of so many bytes are left after the program headers and the notes that the first bytes of a module tell
/// of. `None` where they are more.
fn left_after_module(
    alloc: Global,
    memory: &ProcessMemory<'_>,
    module: &LoadedModule,
    left: usize,
) -> Result<Option<usize>, AllocError>
    ensures { IfOk result (λ rest. rest ≡ left_after left (module_size (memory_view memory.now) (loaded_view «module».now))) }
{
    left_after_head(alloc, head_at(memory, module.base), left)
}

/// Returns how many of so many bytes are left after the program headers and the notes that the first bytes of a file tell
/// of. `None` where they are more.
fn left_after_head(alloc: Global, head: &[u8], left: usize) -> Result<Option<usize>, AllocError>
    ensures { IfOk result (λ rest. rest ≡ left_after left (headers_size head.now)) }
{
    let headers = segments_in(alloc, head)?;
    Ok(left_after_headers(head, headers.as_slice(), left))
}

/// Returns how many of so many bytes are left after these program headers and their notes. `None` where they are more.
fn left_after_headers(head: &[u8], headers: &[ProgramHeader], left: usize) -> Option<usize>
    ensures { result ≡ left_after left (sum_by (header_size head.now) headers.now) }
{
    let mut rest = left;
    for header in headers {
        rest = rest.checked_sub(header_size(head, *header))?;
    }
    Some(rest)
}

/// Returns how many bytes a program header has, and its notes.
fn header_size(head: &[u8], header: ProgramHeader) -> usize
    ensures { result ≡ header_size head.now header }
{
    PROGRAM_HEADER_SIZE + notes_in(head, header).len()
}

/// Returns the notes of a program header, as far as the first bytes of the file have them: none of other segments.
fn notes_in(head: &[u8], header: ProgramHeader) -> &[u8]
    ensures { result.now ≡ notes_in head.entry.now header }
{
    if header.p_type != PT_NOTE {
        return &[];
    }
    match read_segment(head, header) {
        Ok(notes) => notes,
        Err(_) => &[],
    }
}
