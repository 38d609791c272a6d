//! The names of code that JIT compilers make, by the maps that they write for perf, one for each process.
//!
//! Source: Linux, `tools/perf/Documentation/jit-interface.txt`.
ghost use Rattle.std.specs.Prelude.{◌≡◌, ℕ, List, Option, map, count_by, option_map, IfOk, OnOk};
ghost use Rattle.framehop_recording.specs.Mapping.{mapping_view};
ghost use Rattle.framehop_perf_stacks.specs.PerfMap.{is_anonymous, without_prefix, number_of, function_from, function_in, functions_of, is_left_out, told_view, line_view, map_name, IsMapOfText, IsMapRead};

use crate::kallsyms::value_of;
use crate::window::{after_byte, before_byte, lines_of};
use framehop_processes::code_map::{CodeFunction, CodeFunctions, CodeMap};
use framehop_processes::files::Files;
use framehop_recording::mapping::Mapping;
use std::alloc::{AllocError, Global};

/// What gives the maps of processes, as a folder does.
pub trait MapSource {
    // what it can give for the number of a process
    ghost gives_map: { Self → ℕ → Option (List ℕ) → Type 0 };

    /// Returns the bytes of the map of a process, if there is one and it can be read.
    ///
    /// # Errors
    ///
    /// An allocation failed.
    fn read_map(&self, pid: u32) -> Result<Option<Vec<u8>>, AllocError>
        ensures { IfOk result (λ given. gives_map self.now pid (option_map (λ bytes. bytes.items) given)) };
}

/// A line of a map.
#[derive(Clone, Copy, Drop)]
struct MapLine<'a> {
    /// The first address (AVMA).
    start: u64,
    /// The address after the last (AVMA).
    end: u64,
    /// The name of the function.
    name: &'a [u8],
}

/// Adds the map of the process of a mapping that is of no file, if there is one, and if it has not been read.
pub fn add_map<S: MapSource>(
    alloc: Global,
    source: &S,
    files: &mut Files,
    mapping: &Mapping<'_>,
) -> Result<(), AllocError>
    ensures { OnOk result (IsMapRead (S.gives_map source.now) (mapping_view mapping.now) files.old files.new) }
{
    if !is_anonymous(mapping.name) || files.map_number_of(mapping.pid).is_some() {
        return Ok(());
    }
    let Some(text) = source.read_map(mapping.pid)? else {
        return Ok(());
    };
    let code_map = read_perf_map(alloc, text.as_slice())?;
    let name = map_name(alloc, mapping.pid)?;
    files.add_map(mapping.pid, name, code_map)
}

/// Returns whether a name is one that perf gives to memory of no file.
///
/// Source: Linux, `tools/perf/util/map.c`, `is_anon_memory` and `is_no_dso_memory`; `[anon:` is of names by `prctl`, and
/// `/memfd:doublemapper` of .NET.
pub(crate) fn is_anonymous(name: &[u8]) -> bool
    ensures { result ≡ is_anonymous name.now }
{
    name.starts_with(b"//anon")
        || name.starts_with(b"[anon:")
        || name.starts_with(b"/dev/zero")
        || name.starts_with(b"/anon_hugepage")
        || name.starts_with(b"/memfd:doublemapper")
        || name.starts_with(b"[stack")
        || name.starts_with(b"/SYSV")
        || name.starts_with(b"[heap]")
}

/// Returns the name of the map of a process.
fn map_name(alloc: Global, pid: u32) -> Result<Vec<u8>, AllocError>
    ensures { IfOk result (λ name. name.items ≡ map_name pid) }
{
    let name = format!(in alloc; "perf-{pid}.map")?;
    Vec::from_slice(alloc, name.as_bytes())
}

/// Reads a map: a line for each function, with its start and its size in hexadecimal, which may begin with `0x`, and its name,
/// each after a blank. Lines that are not so are left out.
pub(crate) fn read_perf_map(alloc: Global, text: &[u8]) -> Result<CodeMap, AllocError>
    ensures { IfOk result (IsMapOfText text.now) }
{
    let lines = lines_of(alloc, text)?;
    let told = told_in(alloc, lines.as_slice())?;
    let functions = functions_of(alloc, told.as_slice())?;
    Ok(CodeMap {
        functions: CodeFunctions::new(alloc, functions)?,
        left_out: count_left_out(lines.as_slice()),
    })
}

/// Returns what lines tell.
fn told_in<'a>(alloc: Global, lines: &[&'a [u8]]) -> Result<Vec<MapLine<'a>>, AllocError>
    ensures { IfOk result (λ told. map line_view told.items ≡ functions_of (map (λ line. line.now) lines.now)) }
{
    let mut told = Vec::new(alloc);
    for line in lines {
        if let Some(line) = line_in(line) {
            told.push(line)?;
        }
    }
    Ok(told)
}

/// Returns how many lines tell nothing, but for empty ones.
fn count_left_out(lines: &[&[u8]]) -> usize
    ensures { result ≡ count_by is_left_out (map (λ line. line.now) lines.now) }
{
    let mut count = 0;
    for line in lines {
        if is_left_out(line) {
            count += 1;
        }
    }
    count
}

/// Returns whether a line tells nothing and is not empty.
fn is_left_out(line: &[u8]) -> bool
    ensures { result ≡ is_left_out line.now }
{
    !line.is_empty() && line_in(line).is_none()
}

/// Returns the functions of lines.
fn functions_of(alloc: Global, told: &[MapLine<'_>]) -> Result<Vec<CodeFunction>, AllocError>
    ensures { IfOk result (λ functions. map told_view functions.items ≡ map line_view told.now) }
{
    let mut functions = Vec::new(alloc);
    for line in told {
        functions.push(CodeFunction {
            start: line.start,
            end: line.end,
            name: Vec::from_slice(alloc, line.name)?,
        })?;
    }
    Ok(functions)
}

/// Returns what a line tells.
fn line_in(line: &[u8]) -> Option<MapLine<'_>>
    ensures { option_map line_view result ≡ function_in line.entry.now }
{
    let start = number_of(before_byte(b' ', line))?;
    line_from(start, after_byte(b' ', line))
}

/// Returns what a line tells, by the start of the function and what is after it.
fn line_from(start: u64, rest: &[u8]) -> Option<MapLine<'_>>
    ensures { option_map line_view result ≡ function_from start rest.entry.now }
{
    let size = number_of(before_byte(b' ', rest))?;
    let end = start.checked_add(size)?;
    let name = after_byte(b' ', rest);
    if name.is_empty() {
        return None;
    }
    Some(MapLine { start, end, name })
}

/// Returns the value of digits in hexadecimal, below 2^64, of which there is one. They may begin with `0x`.
fn number_of(digits: &[u8]) -> Option<u64>
    ensures { result ≡ number_of digits.now }
{
    let digits = without_prefix(digits);
    if digits.is_empty() {
        return None;
    }
    value_of(digits)
}

/// Returns digits without a `0x` before them.
fn without_prefix(digits: &[u8]) -> &[u8]
    ensures { result.now ≡ without_prefix digits.entry.now }
{
    match digits.strip_prefix(b"0x") {
        Some(digits) => digits,
        None => digits,
    }
}
