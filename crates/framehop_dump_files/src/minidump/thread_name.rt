//! The names of threads.
ghost use Rattle.std.specs.Prelude.{◌≡◌, ◌≤◌, Ok, Err, MatchResult, IfOk, length, map};
ghost use Rattle.framehop_dump_files.specs.Minidump.Location.{IsErrorOf};
ghost use Rattle.framehop_dump_files.specs.Minidump.ThreadName.{thread_name_at, thread_name_entries_of, thread_names_of};

use crate::minidump::error::MinidumpError;
use crate::minidump::list::read_list;
use crate::minidump::stream::Stream;
use framehop_bytes::bytes::{u32_at, u64_at};
use std::alloc::{AllocError, Global};

/// `ThreadNamesStream`.
const THREAD_NAMES_STREAM: u32 = 24;

/// The size of an entry, in bytes.
const ENTRY_SIZE: usize = 12;

/// Where the name of a thread is: `MINIDUMP_THREAD_NAME`.
#[derive(Clone, Copy)]
pub struct ThreadName {
    /// The thread: `ThreadId`.
    pub tid: u32,
    /// Where its name is, in bytes from the start of the file: `RvaOfThreadName`. `string::read_far_string` reads it.
    pub name: u64,
}

/// Reads where the names of threads are, in the order of the file: the entries of the first stream of type
/// `ThreadNamesStream`, none where there is no such stream.
///
/// # Errors
///
/// `Eof` where the file ends before the stream does, `ShortStream` where it ends before the count of names, and
/// `BadListSize` where its size is not that of so many names, with or without four bytes of padding after the
/// count; else `OutOfMemory`.
///
/// Source: `minidumpapiset.h`, `MINIDUMP_THREAD_NAME_LIST` and `MINIDUMP_THREAD_NAME`.
#[tactic(auto, unfolding(crate::specs::Minidump::ThreadName::thread_names_of))]
pub fn read_thread_names(
    alloc: Global,
    file: &[u8],
    streams: &[Stream],
) -> Result<Vec<ThreadName>, MinidumpError>
    ensures { MatchResult result
        (λ names. thread_names_of file.now streams.now ≡ Ok names.items)
        (λ error. IsErrorOf (thread_names_of file.now streams.now) error) }
{
    let entries = entries(file, streams)?;
    Ok(thread_names(alloc, entries)?)
}

/// Returns the entries of the names.
#[tactic(auto, unfolding(crate::specs::Minidump::ThreadName::thread_name_entries_of))]
fn entries<'a>(file: &'a [u8], streams: &[Stream]) -> Result<&'a [[u8; ENTRY_SIZE]], MinidumpError>
    ensures { MatchResult result
        (λ entries. thread_name_entries_of file.entry.now streams.now ≡ Ok entries.now)
        (λ error. thread_name_entries_of file.entry.now streams.now ≡ Err error) }
{
    let list = read_list(file, streams, THREAD_NAMES_STREAM, ENTRY_SIZE as u64)?;
    let (entries, _) = list.as_chunks::<ENTRY_SIZE>();
    Ok(entries)
}

/// Returns the names that have these bytes.
fn thread_names(alloc: Global, entries: &[[u8; ENTRY_SIZE]]) -> Result<Vec<ThreadName>, AllocError>
    ensures { IfOk result (λ names. names.items ≡ map thread_name_at entries.now) }
{
    entries
        .iter()
        .map(|entry| thread_name_at(entry))
        .collect(alloc)
}

/// Returns the name of an entry.
fn thread_name_at(entry: &[u8]) -> ThreadName
    requires { 12 ≤ length entry.now }
    ensures { result ≡ thread_name_at entry.now }
{
    ThreadName {
        tid: u32_at(entry, 0),
        name: u64_at(entry, 4),
    }
}
