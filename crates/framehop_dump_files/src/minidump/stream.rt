//! The directory of a minidump.
ghost use Rattle.std.specs.Prelude.{◌≡◌, ◌≤◌, Ok, Err, MatchResult, IfOk, length, map};
ghost use Rattle.framehop_dump_files.specs.Minidump.Location.{IsErrorOf};
ghost use Rattle.framehop_dump_files.specs.Minidump.Stream.{stream_at, directory_of, streams_of, stream_of};

use crate::minidump::error::MinidumpError;
use crate::minidump::header::{Header, read_header};
use crate::minidump::location::{Location, location_at, read_block};
use framehop_bytes::bytes::u32_at;
use std::alloc::{AllocError, Global};

/// The size of an entry of the directory, in bytes.
const ENTRY_SIZE: usize = 12;

/// A stream: `MINIDUMP_DIRECTORY`.
#[derive(Clone, Copy, PartialEq, Eq)]
pub struct Stream {
    /// What it has, a number of `MINIDUMP_STREAM_TYPE`: `StreamType`.
    pub stream_type: u32,
    /// Where it is: `Location`.
    pub location: Location,
}

/// Reads the header of a minidump, and its directory.
///
/// # Errors
///
/// - those of [`read_header`];
/// - `Eof` where the file ends before the directory does;
/// - `OutOfMemory`.
///
/// Source: `minidumpapiset.h`, `MINIDUMP_DIRECTORY`.
#[tactic(auto, unfolding(crate::specs::Minidump::Stream::streams_of))]
pub fn read_streams(alloc: Global, file: &[u8]) -> Result<Vec<Stream>, MinidumpError>
    ensures { MatchResult result
        (λ streams. streams_of file.now ≡ Ok streams.items)
        (λ error. IsErrorOf (streams_of file.now) error) }
{
    let header = read_header(file)?;
    let entries = directory(file, header)?;
    Ok(streams(alloc, entries)?)
}

/// Returns the entries of the directory.
#[tactic(auto, unfolding(crate::specs::Minidump::Stream::directory_of))]
fn directory<'a>(file: &'a [u8], header: Header) -> Result<&'a [[u8; ENTRY_SIZE]], MinidumpError>
    ensures { MatchResult result
        (λ entries. directory_of file.entry.now header ≡ Ok (map stream_at entries.now))
        (λ error. directory_of file.entry.now header ≡ Err error) }
{
    let size = u64::from(header.stream_count) * ENTRY_SIZE as u64;
    let block = read_block(file, u64::from(header.directory), size)?;
    let (entries, _) = block.as_chunks::<ENTRY_SIZE>();
    Ok(entries)
}

/// Returns the streams that have these bytes.
fn streams(alloc: Global, entries: &[[u8; ENTRY_SIZE]]) -> Result<Vec<Stream>, AllocError>
    ensures { IfOk result (λ streams. streams.items ≡ map stream_at entries.now) }
{
    entries.iter().map(|entry| stream_at(entry)).collect(alloc)
}

/// Returns the stream of an entry.
fn stream_at(entry: &[u8]) -> Stream
    requires { 12 ≤ length entry.now }
    ensures { result ≡ stream_at entry.now }
{
    Stream {
        stream_type: u32_at(entry, 0),
        location: location_at(entry, 4),
    }
}

/// Returns the first stream of a type.
pub(crate) fn first_stream(streams: &[Stream], stream_type: u32) -> Option<Stream>
    ensures { result ≡ stream_of streams.now stream_type }
{
    streams
        .iter()
        .find(|stream| stream.stream_type == stream_type)
        .copied()
}
