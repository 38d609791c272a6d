//! The threads of a process.
ghost use Rattle.std.specs.Prelude.{◌≡◌, ◌≤◌, Ok, Err, MatchResult, IfOk, length, map};
ghost use Rattle.framehop_dump_files.specs.Minidump.Location.{IsErrorOf};
ghost use Rattle.framehop_dump_files.specs.Minidump.Thread.{thread_at, thread_entries_of, threads_of};

use crate::minidump::error::MinidumpError;
use crate::minidump::list::read_list;
use crate::minidump::location::{Location, location_at};
use crate::minidump::memory::descriptor_at;
use crate::minidump::stream::Stream;
use framehop_bytes::bytes::{u32_at, u64_at};
use framehop_memory::memory::MemoryRange;
use std::alloc::{AllocError, Global};

/// `ThreadListStream`.
const THREAD_LIST_STREAM: u32 = 3;

/// The size of a thread's entry, in bytes.
const ENTRY_SIZE: usize = 48;

/// A thread, as it was when the minidump was made: `MINIDUMP_THREAD`.
#[derive(Clone, Copy)]
pub struct Thread {
    /// The thread: `ThreadId`.
    pub tid: u32,
    /// The address of its thread environment block (AVMA), or 0: `Teb`.
    pub teb: u64,
    /// Its stack: `Stack`.
    pub stack: MemoryRange,
    /// Its registers: `ThreadContext`.
    pub context: Location,
}

/// Reads the threads of a process, in the order of the file: those of the first stream of type
/// `ThreadListStream`, none where there is no such stream.
///
/// # Errors
///
/// `Eof` where the file ends before the stream does, `ShortStream` where it ends before the count of threads,
/// and `BadListSize` where its size is not that of so many threads, with or without four bytes of padding
/// after the count; else `OutOfMemory`.
///
/// Source: `minidumpapiset.h`, `MINIDUMP_THREAD_LIST` and `MINIDUMP_THREAD`.
#[tactic(auto, unfolding(crate::specs::Minidump::Thread::threads_of))]
pub fn read_threads(
    alloc: Global,
    file: &[u8],
    streams: &[Stream],
) -> Result<Vec<Thread>, MinidumpError>
    ensures { MatchResult result
        (λ threads. threads_of file.now streams.now ≡ Ok threads.items)
        (λ error. IsErrorOf (threads_of file.now streams.now) error) }
{
    let entries = entries(file, streams)?;
    Ok(threads(alloc, entries)?)
}

/// Returns the entries of the threads.
#[tactic(auto, unfolding(crate::specs::Minidump::Thread::thread_entries_of))]
fn entries<'a>(file: &'a [u8], streams: &[Stream]) -> Result<&'a [[u8; ENTRY_SIZE]], MinidumpError>
    ensures { MatchResult result
        (λ entries. thread_entries_of file.entry.now streams.now ≡ Ok entries.now)
        (λ error. thread_entries_of file.entry.now streams.now ≡ Err error) }
{
    let list = read_list(file, streams, THREAD_LIST_STREAM, ENTRY_SIZE as u64)?;
    let (entries, _) = list.as_chunks::<ENTRY_SIZE>();
    Ok(entries)
}

/// Returns the threads that have these bytes.
fn threads(alloc: Global, entries: &[[u8; ENTRY_SIZE]]) -> Result<Vec<Thread>, AllocError>
    ensures { IfOk result (λ threads. threads.items ≡ map thread_at entries.now) }
{
    entries.iter().map(|entry| thread_at(entry)).collect(alloc)
}

/// Returns the thread of an entry.
fn thread_at(entry: &[u8]) -> Thread
    requires { 48 ≤ length entry.now }
    ensures { result ≡ thread_at entry.now }
{
    Thread {
        tid: u32_at(entry, 0),
        teb: u64_at(entry, 16),
        stack: descriptor_at(entry, 24),
        context: location_at(entry, 40),
    }
}
