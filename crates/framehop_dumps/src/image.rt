//! What the memory of a process has of the files that it had mapped: their build ids and their unwind data.
ghost use Rattle.std.specs.Prelude.{◌≡◌, IfOk, option_map};
ghost use Rattle.framehop_memory.specs.Memory.{memory_view};
ghost use Rattle.framehop_processes.specs.MappedBytes.{mapped_sections_view};
ghost use Rattle.framehop_dumps.specs.Image.{head_at, segments_in, build_id_in, eh_frame_header, memory_at, memory_after, frames_behind, call_frames_view, range_of, sections_of};

use framehop_bytes::section::ExplicitModuleSectionInfo;
use framehop_cfi::header::TableLayout;
use framehop_cfi::pointer::SectionBaseAddresses;
use framehop_memory::memory::ProcessMemory;
use framehop_object::elf::build_id::read_build_id;
use framehop_object::elf::error::ElfError;
use framehop_object::elf::header::read_file_header;
use framehop_object::elf::program_header::{ProgramHeader, read_program_headers};
use framehop_processes::mapped_bytes::MappedBytes;
use std::alloc::{AllocError, Global};
use std::ops::Range;

/// `PT_GNU_EH_FRAME`: the segment that has `.eh_frame_hdr`.
const PT_GNU_EH_FRAME: u32 = 0x6474_e550;

/// Returns the bytes of memory from an address (AVMA) on, as far as it has them, or none.
pub fn head_at<'a>(memory: &ProcessMemory<'a>, address: u64) -> &'a [u8]
    ensures { result.now ≡ head_at (memory_view memory.now) address }
{
    match memory.bytes_from(address) {
        Some(head) => head,
        None => &[],
    }
}

/// Returns the build id in the first bytes of a file, or no bytes.
pub fn build_id_in<'a>(head: &'a [u8], segments: &[ProgramHeader]) -> &'a [u8]
    ensures { result.now ≡ build_id_in head.entry.now segments.now }
{
    match read_build_id(head, segments, &[]) {
        Some(build_id) => build_id,
        None => &[],
    }
}

/// Returns the unwind sections of a file that lies at a base and has its `.eh_frame_hdr` in a segment, as memory has them,
/// which lends their bytes: none where it has not both `.eh_frame_hdr` and `.eh_frame`.
pub fn sections_behind<'m>(
    memory: &ProcessMemory<'m>,
    header: Option<ProgramHeader>,
    base: u64,
) -> ExplicitModuleSectionInfo<MappedBytes<'m>>
    ensures { mapped_sections_view result ≡ sections_of (frames_behind (memory_view memory.now) base header) }
{
    sections_of(frames_behind(memory, header, base))
}

/// Returns the program headers in the first bytes of a file: none where they can't be read.
#[tactic(auto, unfolding(crate::specs::Image::headers_in))]
pub fn segments_in(alloc: Global, head: &[u8]) -> Result<Vec<ProgramHeader>, AllocError>
    ensures { IfOk result (λ segments. segments.items ≡ segments_in head.now) }
{
    let Ok(header) = read_file_header(head) else {
        return Ok(Vec::new(alloc));
    };
    match read_program_headers(alloc, head, header) {
        Ok(segments) => Ok(segments),
        Err(ElfError::OutOfMemory) => Err(AllocError),
        Err(_) => Ok(Vec::new(alloc)),
    }
}

/// The call frame sections of a file, and where they begin (SVMA).
#[derive(Clone, Copy, Drop)]
struct CallFrames<'a> {
    header_svma: u64,
    header: &'a [u8],
    frames_svma: u64,
    frames: &'a [u8],
}

/// Returns the call frame sections of a file that lies at a base, if memory has them: `.eh_frame_hdr` by its segment, and
/// what is at the address that it tells.
///
/// Source: LSB Core, "Exception Frames", "The .eh_frame_hdr section".
fn frames_behind<'a>(
    memory: &ProcessMemory<'a>,
    header: Option<ProgramHeader>,
    base: u64,
) -> Option<CallFrames<'a>>
    ensures { option_map call_frames_view result ≡ frames_behind (memory_view memory.now) base header }
{
    let segment = header?;
    let header_svma = segment.p_vaddr;
    let header = memory_at(memory, base, header_svma, segment.p_memsz)?;
    let bases = SectionBaseAddresses {
        section: header_svma,
        text: 0,
        data: header_svma,
    };
    let layout = TableLayout::parse(header, &bases).ok()?;
    let frames_svma = layout.eh_frame_pointer();
    let frames = memory_after(memory, base, frames_svma)?;
    Some(CallFrames {
        header_svma,
        header,
        frames_svma,
        frames,
    })
}

/// Returns the segment that has `.eh_frame_hdr`.
pub fn eh_frame_header(segments: &[ProgramHeader]) -> Option<ProgramHeader>
    ensures { result ≡ eh_frame_header segments.now }
{
    for segment in segments {
        if segment.p_type == PT_GNU_EH_FRAME {
            return Some(*segment);
        }
    }
    None
}

/// Returns so many bytes from an SVMA on of what lies at a base, if memory has them.
fn memory_at<'a>(memory: &ProcessMemory<'a>, base: u64, svma: u64, size: u64) -> Option<&'a [u8]>
    ensures { option_map (λ bytes. bytes.now) result ≡ memory_at (memory_view memory.now) base svma size }
{
    let avma = base.checked_add(svma)?;
    memory.bytes_at(avma, size)
}

/// Returns the bytes from an SVMA on of what lies at a base, as far as memory has them.
fn memory_after<'a>(memory: &ProcessMemory<'a>, base: u64, svma: u64) -> Option<&'a [u8]>
    ensures { option_map (λ bytes. bytes.now) result ≡ memory_after (memory_view memory.now) base svma }
{
    let avma = base.checked_add(svma)?;
    memory.bytes_from(avma)
}

/// Returns what an unwinder is to know of call frame sections, whose bytes are lent.
fn sections_of<'m>(found: Option<CallFrames<'m>>) -> ExplicitModuleSectionInfo<MappedBytes<'m>>
    ensures { mapped_sections_view result ≡ sections_of (option_map call_frames_view found.entry) }
{
    ExplicitModuleSectionInfo {
        base_svma: 0,
        text_svma: None,
        text: None,
        stubs_svma: None,
        stub_helper_svma: None,
        got_svma: None,
        unwind_info: None,
        eh_frame_svma: found.map(|found| range_of(found.frames_svma, found.frames)),
        eh_frame: found.map(|found| MappedBytes::Lent(found.frames)),
        eh_frame_hdr_svma: found.map(|found| range_of(found.header_svma, found.header)),
        eh_frame_hdr: found.map(|found| MappedBytes::Lent(found.header)),
        debug_frame: None,
        text_segment_svma: None,
        text_segment: None,
    }
}

/// Returns where bytes are from an SVMA on. What ends above the last address ends at it.
fn range_of(svma: u64, bytes: &[u8]) -> Range<u64>
    ensures { result ≡ range_of svma bytes.now }
{
    svma..svma.saturating_add(bytes.len() as u64)
}
