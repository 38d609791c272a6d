//! Segments of files, and where their addresses are once they are mapped.
ghost use Rattle.std.specs.Prelude.{◌≡◌, find};
ghost use Rattle.framehop_memory.specs.Segment.{fits, is_loaded_from, segment_of, svma_in, svma_of, base_of, base_from};

/// The size of a page, in bytes: memory is mapped by whole pages.
pub(crate) const PAGE_SIZE: u64 = 4096;

/// A part of a file that is loaded into memory.
#[derive(Clone, Copy, PartialEq, Eq)]
pub struct Segment {
    /// Its first address, as the file states it: an SVMA, or of a core file an AVMA.
    pub address: u64,
    /// Its size in memory, in bytes.
    pub size: u64,
    /// Where it begins in the file, in bytes.
    pub offset: u64,
    /// Its size in the file, in bytes.
    pub file_size: u64,
    /// Whether it may be executed.
    pub is_code: bool,
}

/// Returns the base of a module's relative addresses, an AVMA, where an executable mapping of its file
/// of a size begins at an AVMA and at an offset of the file: where the SVMA 0 is, as the base SVMA of an
/// ELF file is 0. `None` where no segment has the mapping, or the base would be below 0.
pub fn base_avma(segments: &[Segment], offset: u64, size: u64, avma: u64) -> Option<u64>
    ensures { result ≡ base_of segments.now offset size avma }
{
    let svma = svma_of_file_offset(segments, offset, size)?;
    avma.checked_sub(svma)
}

/// Returns the stated address (SVMA) of the offset of the file at which an executable mapping of a size
/// begins, or `None` where no segment has it. Offset and size are in bytes.
///
/// As whole pages are mapped, a mapping may begin before its segment, and a page of the file may be in
/// two mappings. The segment is the first that is loaded to be executed and whose pages are the mapping.
/// Where there is none, as where a part of a mapping is mapped anew, it is the first that is loaded to be
/// executed, begins before the end of the page at the offset, and ends after the offset.
///
/// Source: System V gABI, chapter 5, "Program Loading".
pub fn svma_of_file_offset(segments: &[Segment], offset: u64, size: u64) -> Option<u64>
    ensures { result ≡ svma_of segments.now offset size }
{
    let segment = segment_of(segments, offset, size)?;
    svma_in_segment(segment, offset)
}

/// Returns the segment of an executable mapping.
fn segment_of(segments: &[Segment], offset: u64, size: u64) -> Option<Segment>
    ensures { result ≡ segment_of segments.now offset size }
{
    match whole_segment(segments, offset, size) {
        Some(segment) => Some(segment),
        None => segment_of_file_offset(segments, offset),
    }
}

/// Returns the first segment whose pages are those of an executable mapping, if there is one.
fn whole_segment(segments: &[Segment], offset: u64, size: u64) -> Option<Segment>
    ensures { result ≡ find (fits offset size) segments.now }
{
    segments
        .iter()
        .find(|segment| is_whole(**segment, offset, size))
        .copied()
}

/// Returns whether the pages of a segment that is loaded to be executed are those at an offset, of a size.
fn is_whole(segment: Segment, offset: u64, size: u64) -> bool
    ensures { result ≡ fits offset size segment }
{
    let page_size = u128::from(PAGE_SIZE);
    let start = u128::from(segment.offset);
    let end = start + u128::from(segment.file_size);
    let mapped_start = u128::from(offset);
    let mapped_end = mapped_start + u128::from(size);
    segment.is_code
        && mapped_start <= start
        && start < mapped_start + page_size
        && end <= mapped_end
        && mapped_end < end + page_size
}

/// Returns the first segment of which an executable mapping from an offset on is a part.
fn segment_of_file_offset(segments: &[Segment], offset: u64) -> Option<Segment>
    ensures { result ≡ find (is_loaded_from offset) segments.now }
{
    segments
        .iter()
        .find(|segment| is_loaded(**segment, offset))
        .copied()
}

/// Returns whether a segment that is loaded to be executed begins before the end of the page at an
/// offset, and ends after the offset.
fn is_loaded(segment: Segment, offset: u64) -> bool
    ensures { result ≡ is_loaded_from offset segment }
{
    segment.is_code
        && (segment.offset < offset || segment.offset - offset < PAGE_SIZE)
        && (offset < segment.offset || offset - segment.offset < segment.file_size)
}

/// Returns the stated address of a file offset that is in a segment.
fn svma_in_segment(segment: Segment, offset: u64) -> Option<u64>
    ensures { result ≡ svma_in offset segment }
{
    if offset < segment.offset {
        segment.address.checked_sub(segment.offset - offset)
    } else {
        segment.address.checked_add(offset - segment.offset)
    }
}

/// Returns the base of a module's relative addresses, an AVMA, where its file is mapped from an AVMA on: where the
/// SVMA 0 is. The mapping begins with the page of the first segment, which has the lowest address. `None` where there
/// is no segment, or the base would be below 0.
///
/// Source: System V gABI, chapter 5, "Base Address".
pub fn base_from(segments: &[Segment], start: u64) -> Option<u64>
    ensures { result ≡ base_from segments.now start }
{
    let segment = segments.first()?;
    start.checked_sub(segment.address - segment.address % PAGE_SIZE)
}
