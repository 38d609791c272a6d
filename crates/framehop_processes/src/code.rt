//! The code of the files that processes map.
ghost use Rattle.std.specs.Prelude.{◌≡◌, IfOk, map, option_map};
ghost use Rattle.framehop_processes.specs.Mappings.{IsInOrder};
ghost use Rattle.framehop_processes.specs.ObjectFiles.{part_view, code_view, code_segments, code_of};
ghost use Rattle.framehop_processes.specs.Code.{segment_code, has_svma, bytes_from, code_in_mapping, code_at, is_mapped, entry_in_mapping, is_at_entry};

use crate::Mapping;
use crate::files::Files;
use crate::place::{mapping_asked_for, mapping_at};
use framehop_bytes::bytes::{back, front};
use framehop_memory::segment::Segment;
use std::alloc::{AllocError, Global};

/// The code of a file. Its bytes are kept once, also where segments share them.
#[derive(Drop)]
pub struct FileCode {
    file: Vec<u8>,
    /// The segments that may be executed.
    segments: Vec<FilePart>,
}

/// A part of a file that is loaded.
#[derive(Clone, Copy, Drop)]
pub(crate) struct FilePart {
    /// Its first address, as the file states it (SVMA).
    pub(crate) start: u64,
    /// Where its bytes begin in the file.
    pub(crate) offset: u64,
    /// How many bytes of it are in the file.
    pub(crate) size: u64,
}

/// The most parts of a file in which code is looked for, and data.
pub(crate) const MOST_PARTS: usize = 64;

/// The size of a file whose code is large, in bytes: 16 MiB.
const LARGE: usize = 0x100_0000;

impl FileCode {
    /// Returns whether there is much code.
    pub(crate) fn is_large(&self) -> bool {
        self.file.len() >= LARGE
    }

    /// Returns the bytes of the file.
    pub(crate) fn file(&self) -> &[u8]
        ensures { result.now ≡ self.now.file.items }
    {
        self.file.as_slice()
    }
}

/// Returns the code of a process from an address (AVMA) on, as far as a segment of the mapped file has it, by mappings
/// in order.
pub fn code_at<'a>(files: &'a Files<'_>, mappings: &[Mapping], address: u64) -> Option<&'a [u8]>
    requires { IsInOrder 0 mappings.now }
    ensures { option_map (λ code. code.now) result ≡ code_at files.entry.now mappings.now address }
{
    let mapping = mapping_asked_for(files, mappings, address)?;
    code_in_mapping(files, mapping, address)
}

/// Returns whether a process begins a few instructions before an address (AVMA), in the first code of a mapped file, by mappings
/// in order: the address is in the 64 bytes from the file's entry point on.
pub fn is_at_entry(files: &Files<'_>, mappings: &[Mapping], address: u64) -> bool
    requires { IsInOrder 0 mappings.now }
    ensures { result ≡ is_at_entry files.now mappings.now address }
{
    match mapping_asked_for(files, mappings, address) {
        Some(mapping) => is_at_entry_of(files, mapping, address),
        None => false,
    }
}

/// Returns the same of an address (AVMA) of a mapping.
fn is_at_entry_of(files: &Files<'_>, mapping: Mapping, address: u64) -> bool
    ensures { result ≡ entry_in_mapping files.now address mapping }
{
    if !mapping.has_sections {
        return false;
    }
    match files.object(mapping.file) {
        Some(object) => object.is_at_entry(address.saturating_sub(mapping.base_avma)),
        None => false,
    }
}

/// Returns whether an address (AVMA) is in one of mappings in order.
pub fn is_mapped(mappings: &[Mapping], address: u64) -> bool
    requires { IsInOrder 0 mappings.now }
    ensures { result ≡ is_mapped mappings.now address }
{
    mapping_at(mappings, address).is_some()
}

/// Returns the code of a mapped file from an address (AVMA) on, as far as a segment has it.
fn code_in_mapping<'a>(files: &'a Files<'_>, mapping: Mapping, address: u64) -> Option<&'a [u8]>
    ensures { option_map (λ code. code.now) result ≡ code_in_mapping files.entry.now address mapping }
{
    if !mapping.has_sections {
        return None;
    }
    let object = files.object(mapping.file)?;
    object.code_from(address.saturating_sub(mapping.base_avma))
}

/// Returns the code of a file by its segments, the first 64 that may be executed. The file's bytes are kept.
pub(crate) fn code_of(
    alloc: Global,
    file: Vec<u8>,
    segments: &[Segment],
) -> Result<FileCode, AllocError>
    ensures code { IfOk result (λ code. code_view code ≡ code_of file.items segments.now) }
    ensures file { IfOk result (λ code. code.file.items ≡ file.items) }
{
    let segments = segments_in(alloc, segments)?;
    Ok(FileCode { file, segments })
}

/// Returns where the bytes of the segments of code are in their file.
fn segments_in(alloc: Global, segments: &[Segment]) -> Result<Vec<FilePart>, AllocError>
    ensures { IfOk result (λ code. code.items ≡ map segment_code (code_segments segments.now)) }
{
    segments
        .iter()
        .filter(|segment| segment.is_code)
        .take(MOST_PARTS)
        .map(|segment| segment_code(*segment))
        .collect(alloc)
}

/// Returns no code.
pub(crate) fn no_code(alloc: Global) -> FileCode {
    FileCode {
        file: Vec::new(alloc),
        segments: Vec::new(alloc),
    }
}

/// Returns where the bytes of a segment are in its file.
fn segment_code(segment: Segment) -> FilePart
    ensures { result ≡ segment_code segment }
{
    FilePart {
        start: segment.address,
        offset: segment.offset,
        size: segment.file_size,
    }
}

/// Returns the code from an address (SVMA) on, as far as the first segment has it that has the address.
pub(crate) fn code_from(code: &FileCode, svma: u64) -> Option<&[u8]>
    ensures { option_map (λ code. code.now) result ≡ bytes_from (code_view code.entry.now) svma }
{
    bytes_from(code.file.as_slice(), code.segments.as_slice(), svma)
}

/// Returns the bytes of a file from an address (SVMA) on, as far as the first of its parts has them that has the address.
pub(crate) fn bytes_from<'a>(file: &'a [u8], parts: &[FilePart], svma: u64) -> Option<&'a [u8]>
    ensures { option_map (λ bytes. bytes.now) result ≡ bytes_from (map (part_view file.entry.now) parts.now) svma }
{
    for part in parts {
        let bytes = bytes_in(file, *part);
        if has_svma(*part, bytes, svma) {
            return Some(back(bytes, svma - part.start));
        }
    }
    None
}

/// Returns the bytes of a part of a file.
fn bytes_in(file: &[u8], part: FilePart) -> &[u8]
    ensures { result.now ≡ (part_view file.entry.now part).bytes }
{
    front(back(file, part.offset), part.size as usize)
}

/// Returns whether a part of a file, which has these bytes, has an address (SVMA).
fn has_svma(part: FilePart, bytes: &[u8], svma: u64) -> bool
    ensures { result ≡ has_svma svma (record { start = part.start; bytes = bytes.now }) }
{
    part.start <= svma && svma - part.start < bytes.len() as u64
}
