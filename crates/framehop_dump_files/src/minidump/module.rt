//! The modules of a process: the files that it had mapped.
ghost use Rattle.std.specs.Prelude.{◌≡◌, ◌≤◌, Ok, Err, MatchResult, IfOk, length, map};
ghost use Rattle.framehop_dump_files.specs.Minidump.Location.{IsErrorOf};
ghost use Rattle.framehop_dump_files.specs.Minidump.Module.{module_at, module_entries_of, modules_of};

use crate::minidump::error::MinidumpError;
use crate::minidump::list::read_list;
use crate::minidump::location::{Location, location_at};
use crate::minidump::stream::Stream;
use framehop_bytes::bytes::{u32_at, u64_at};
use std::alloc::{AllocError, Global};

/// `ModuleListStream`.
const MODULE_LIST_STREAM: u32 = 4;

/// The size of a module's entry, in bytes.
const ENTRY_SIZE: usize = 108;

/// A module: `MINIDUMP_MODULE`.
#[derive(Clone, Copy, PartialEq, Eq)]
pub struct Module {
    /// Its first address (AVMA): `BaseOfImage`.
    pub base: u64,
    /// How many bytes it takes in memory: `SizeOfImage`.
    pub size: u32,
    /// The sum of its file, or 0: `CheckSum`.
    pub checksum: u32,
    /// When its file was made, in seconds since 1970, or 0: `TimeDateStamp`.
    pub time: u32,
    /// Where its name is, in bytes from the start of the file: `ModuleNameRva`. `string::read_string` reads
    /// it.
    pub name: u32,
    /// Which file it is of: `CvRecord`. `codeview::read_codeview` reads it.
    pub codeview: Location,
}

/// Reads the modules of a process, in the order of the file: those of the first stream of type
/// `ModuleListStream`, none where there is no such stream.
///
/// # Errors
///
/// `Eof` where the file ends before the stream does, `ShortStream` where it ends before the count of modules,
/// and `BadListSize` where its size is not that of so many modules, with or without four bytes of padding
/// after the count; else `OutOfMemory`.
///
/// Source: `minidumpapiset.h`, `MINIDUMP_MODULE_LIST` and `MINIDUMP_MODULE`.
#[tactic(auto, unfolding(crate::specs::Minidump::Module::modules_of))]
pub fn read_modules(
    alloc: Global,
    file: &[u8],
    streams: &[Stream],
) -> Result<Vec<Module>, MinidumpError>
    ensures { MatchResult result
        (λ modules. modules_of file.now streams.now ≡ Ok modules.items)
        (λ error. IsErrorOf (modules_of file.now streams.now) error) }
{
    let entries = entries(file, streams)?;
    Ok(modules(alloc, entries)?)
}

/// Returns the entries of the modules.
#[tactic(auto, unfolding(crate::specs::Minidump::Module::module_entries_of))]
fn entries<'a>(file: &'a [u8], streams: &[Stream]) -> Result<&'a [[u8; ENTRY_SIZE]], MinidumpError>
    ensures { MatchResult result
        (λ entries. module_entries_of file.entry.now streams.now ≡ Ok entries.now)
        (λ error. module_entries_of file.entry.now streams.now ≡ Err error) }
{
    let list = read_list(file, streams, MODULE_LIST_STREAM, ENTRY_SIZE as u64)?;
    let (entries, _) = list.as_chunks::<ENTRY_SIZE>();
    Ok(entries)
}

/// Returns the modules that have these bytes.
fn modules(alloc: Global, entries: &[[u8; ENTRY_SIZE]]) -> Result<Vec<Module>, AllocError>
    ensures { IfOk result (λ modules. modules.items ≡ map module_at entries.now) }
{
    entries.iter().map(|entry| module_at(entry)).collect(alloc)
}

/// Returns the module of an entry.
fn module_at(entry: &[u8]) -> Module
    requires { 108 ≤ length entry.now }
    ensures { result ≡ module_at entry.now }
{
    Module {
        base: u64_at(entry, 0),
        size: u32_at(entry, 8),
        checksum: u32_at(entry, 12),
        time: u32_at(entry, 16),
        name: u32_at(entry, 20),
        codeview: location_at(entry, 76),
    }
}
