//! What a file has for its segments, and which of them are loaded.
ghost use Rattle.std.specs.Prelude.{◌≡◌, ◌++◌, Ok, Err, MatchResult, IfOk, OnOk};
ghost use Rattle.framehop_object.specs.Elf.Block.{block_at};
ghost use Rattle.framehop_object.specs.Elf.Segment.{is_loaded, segment_of, loaded_if, loaded_segments_of};

use crate::elf::block::read_block;
use crate::elf::error::ElfError;
use crate::elf::program_header::ProgramHeader;
use framehop_memory::segment::Segment;
use std::alloc::{AllocError, Global};

/// `PT_LOAD`.
const PT_LOAD: u32 = 1;

/// `PF_X`: the segment may be executed.
pub const PF_X: u32 = 1;

/// Returns the bytes that a segment has in the file.
///
/// # Errors
///
/// `Eof` where the file ends before they do.
///
/// Source: System V gABI, chapter 5, "Program Header", `p_offset` and `p_filesz`.
pub fn read_segment<'a>(file: &'a [u8], segment: ProgramHeader) -> Result<&'a [u8], ElfError>
    ensures { MatchResult result
        (λ contents. block_at file.entry.now segment.p_offset segment.p_filesz ≡ Ok contents.now)
        (λ error. block_at file.entry.now segment.p_offset segment.p_filesz ≡ Err error) }
{
    read_block(file, segment.p_offset, segment.p_filesz)
}

/// Returns the segments that are loaded: those of type `PT_LOAD`, in their order.
///
/// Source: System V gABI, chapter 5, "Program Header", `p_type` and `p_flags`.
pub fn loaded_segments(alloc: Global, headers: &[ProgramHeader]) -> Result<Vec<Segment>, AllocError>
    ensures { IfOk result (λ segments. segments.items ≡ loaded_segments_of headers.now) }
{
    let mut segments = Vec::new(alloc);
    for header in headers {
        push_loaded(&mut segments, *header)?;
    }
    Ok(segments)
}

/// Appends a segment, if it is loaded.
fn push_loaded(segments: &mut Vec<Segment>, header: ProgramHeader) -> Result<(), AllocError>
    ensures { OnOk result (segments.new.items ≡ segments.old.items ++ loaded_if header) }
{
    if header.p_type == PT_LOAD {
        segments.push(segment_of(header))?;
    }
    Ok(())
}

/// Returns the segment of a program header.
fn segment_of(header: ProgramHeader) -> Segment
    ensures { result ≡ segment_of header }
{
    Segment {
        address: header.p_vaddr,
        size: header.p_memsz,
        offset: header.p_offset,
        file_size: header.p_filesz,
        is_code: header.p_flags & PF_X != 0,
    }
}
