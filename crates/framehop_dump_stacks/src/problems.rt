//! What is said of files: of which nothing was read, and of which something was not.
ghost use Rattle.std.specs.Prelude.{◌≡◌, Some, None, string_bytes, IfOk};
ghost use Rattle.framehop_processes.specs.Found.{has_names};
ghost use Rattle.framehop.specs.Parts.{is_unwind_data};
ghost use Rattle.framehop_dumps.specs.Dump.{dump_view};
ghost use Rattle.framehop_dump_stacks.specs.Problems.{range_end, needed_size, sizes_text, cut_text, wow64_text, file_text, lack_text, lack_line, AreObjectLines, IsProblemText, has_frames, is_in_memory, in_memory_text, IsLineOf, AreProblems, IsSaid};

use crate::first_mappings::FirstMappings;
use crate::modules::DumpModules;
use framehop_dumps::dump::{Dump, Kind, kind_name};
use framehop_frames::line::push_name;
use framehop_memory::memory::MemoryRange;
use framehop_processes::Mapping;
use framehop_processes::files::NamedFile;
use framehop_processes::frames_text::frames_text;
use framehop_processes::object_file::{FileProblem, ObjectFile};
use std::alloc::{AllocError, Global};

/// The first address (AVMA) that is the kernel's.
const FIRST_OF_KERNEL: u64 = 0x8000_0000_0000_0000;

/// Returns what is said of a dump: that its file is cut short, that it is of a 32-bit process of Windows, and of each file of
/// which nothing was read, that lacks unwind data or names, or whose `.debug_frame` is not read.
pub(crate) fn said_text(
    alloc: Global,
    modules: &DumpModules<'_, '_>,
    mappings: &[Mapping],
) -> Result<Vec<u8>, AllocError>
    ensures { IfOk result (λ text. IsSaid (dump_view modules.now.dump.now) modules.now.files.now mappings.now text.items) }
{
    let text = file_text(alloc, modules.dump)?;
    let mut said = Vec::from_slice(alloc, text.as_bytes())?;
    let problems = problems_text(alloc, modules, mappings)?;
    said.extend_from_slice(problems.as_slice())?;
    Ok(said)
}

/// Returns what is said of the file of a dump.
fn file_text(alloc: Global, dump: &Dump<'_>) -> Result<String, AllocError>
    ensures { IfOk result (λ text. string_bytes text ≡ file_text (dump_view dump.now)) }
{
    let has = dump.memory.file.len() as u64;
    let mut text = cut_text(alloc, dump.kind, has, needed_size(dump.memory.ranges()))?;
    text.push_str(wow64_text(dump.wow64))?;
    Ok(text)
}

/// Returns how many bytes a file has, to where the last of its memory ends.
fn needed_size(ranges: &[MemoryRange]) -> u64
    ensures { result ≡ needed_size ranges.now }
{
    let mut most = 0u64;
    for range in ranges {
        most = most.max(range_end(*range));
    }
    most
}

/// Returns where memory of a process ends in the file, or 0 of memory of the kernel.
fn range_end(range: MemoryRange) -> u64
    ensures { result ≡ range_end range }
{
    if range.start >= FIRST_OF_KERNEL {
        return 0;
    }
    range.offset.saturating_add(range.size)
}

/// Returns that a file is cut short, if it has fewer bytes than it needs.
fn cut_text(alloc: Global, kind: Kind, has: u64, needed: u64) -> Result<String, AllocError>
    ensures { IfOk result (λ text. string_bytes text ≡ cut_text kind has needed) }
{
    if has >= needed {
        return Ok(String::new(alloc));
    }
    let kind = kind_name(kind);
    let sizes = sizes_text(alloc, has, needed)?;
    let sizes = sizes.as_str();
    Ok(format!(in alloc; "the {kind} is cut short: it has {sizes}")?)
}

/// Returns how many of so many bytes there are.
fn sizes_text(alloc: Global, has: u64, needed: u64) -> Result<String, AllocError>
    ensures { IfOk result (λ text. string_bytes text ≡ sizes_text has needed) }
{
    Ok(format!(in alloc; "{has} of {needed} bytes\n")?)
}

/// Returns that a process had 32-bit code on a Windows of 64 bits, if it had.
fn wow64_text(wow64: bool) -> &'static str
    ensures { result.now ≡ wow64_text wow64 }
{
    if wow64 {
        "a 32-bit process of Windows (wow64): the stacks are its 64-bit ones, on which calls of the system run\n"
    } else {
        ""
    }
}

/// Returns a line for each file of which nothing was read, in the order of the files: its name, why, and whether memory
/// has its unwind data; and for each that lacks unwind data or names, or whose `.debug_frame` is not read.
fn problems_text(
    alloc: Global,
    modules: &DumpModules<'_, '_>,
    mappings: &[Mapping],
) -> Result<Vec<u8>, AllocError>
    ensures { IfOk result (λ text. AreProblems (dump_view modules.now.dump.now) modules.now.files.now mappings.now text.items) }
{
    let first = FirstMappings::new(alloc, mappings)?;
    let mut text = Vec::new(alloc);
    for file in modules.files.list() {
        let line = problem_line(alloc, modules, &first, file)?;
        text.extend_from_slice(line.as_slice())?;
    }
    Ok(text)
}

/// Returns the lines of a file: none where it was read and lacks nothing.
fn problem_line(
    alloc: Global,
    modules: &DumpModules<'_, '_>,
    first: &FirstMappings<'_>,
    file: &NamedFile<'_>,
) -> Result<Vec<u8>, AllocError>
    ensures { IfOk result (λ line. IsLineOf (dump_view modules.now.dump.now) modules.now.files.now first.now.mappings.now file.now.name.items file.now.object file.now.problem line.items) }
{
    match (file.problem, &file.object) {
        (Some(problem), _) => unread_line(alloc, modules, first, file.name.as_slice(), problem),
        (None, Some(object)) => object_lines(alloc, file.name.as_slice(), object),
        (None, None) => Ok(Vec::new(alloc)),
    }
}

/// Returns the line of a file that was read: none where it lacks nothing.
fn lack_line(alloc: Global, name: &[u8], object: &ObjectFile<'_>) -> Result<Vec<u8>, AllocError>
    ensures { IfOk result (λ line. line.items ≡ lack_line name.now
        (lack_text (is_unwind_data object.now.«module».unwind_data) (has_names object.now.symbols.items))) }
{
    let lack = lack_text(object.has_unwind_data(), object.has_names());
    name_line(alloc, name, lack)
}

/// Returns the lines of a file that was read: what it lacks, and why its `.debug_frame` is not read.
fn object_lines(alloc: Global, name: &[u8], object: &ObjectFile<'_>) -> Result<Vec<u8>, AllocError>
    ensures { IfOk result (λ lines. AreObjectLines name.now object.now lines.items) }
{
    let mut lines = lack_line(alloc, name, object)?;
    let frames = frames_text(alloc, object.frames_problem())?;
    let line = name_line(alloc, name, frames.as_str())?;
    lines.extend_from_slice(line.as_slice())?;
    Ok(lines)
}

/// Returns a line of a name and what is said of it, if something is.
fn name_line(alloc: Global, name: &[u8], said: &str) -> Result<Vec<u8>, AllocError>
    ensures { IfOk result (λ line. line.items ≡ lack_line name.now said.now) }
{
    let mut line = Vec::new(alloc);
    if !said.is_empty() {
        push_name(&mut line, name)?;
        line.extend_from_slice(said.as_bytes())?;
        line.push(b'\n')?;
    }
    Ok(line)
}

/// Returns what was not found in a file that was read: its unwind data, its names.
fn lack_text(unwind_data: bool, names: bool) -> &'static str
    ensures { result.now ≡ lack_text unwind_data names }
{
    match (unwind_data, names) {
        (true, true) => "",
        (true, false) => ": no names of functions",
        (false, true) => ": no unwind data",
        (false, false) => ": no unwind data and no names of functions",
    }
}

/// Returns the line of a file of which nothing was read: its name, why, and whether memory has its unwind data.
fn unread_line(
    alloc: Global,
    modules: &DumpModules<'_, '_>,
    first: &FirstMappings<'_>,
    name: &[u8],
    problem: FileProblem,
) -> Result<Vec<u8>, AllocError>
    ensures { IfOk result (λ line. IsLineOf (dump_view modules.now.dump.now) modules.now.files.now first.now.mappings.now name.now None (Some problem) line.items) }
{
    let mut line = Vec::new(alloc);
    push_name(&mut line, name)?;
    let why = problem_text(alloc, modules.dump.kind, problem)?;
    line.extend_from_slice(why.as_bytes())?;
    let in_memory = is_in_memory(modules, first, name);
    let note = in_memory_text(alloc, modules.dump.kind, in_memory)?;
    line.extend_from_slice(note.as_bytes())?;
    line.push(b'\n')?;
    Ok(line)
}

/// Returns why nothing was read of a file, as it comes after its name.
fn problem_text(alloc: Global, kind: Kind, problem: FileProblem) -> Result<String, AllocError>
    ensures { IfOk result (λ text. IsProblemText kind problem (string_bytes text)) }
{
    match problem {
        FileProblem::NotRead(refusal) => {
            let refusal = refusal.text();
            format!(in alloc; ": {refusal}")
        }
        FileProblem::OtherBuildId => {
            let kind = kind_name(kind);
            format!(in alloc; ": its build id is not the {kind}'s")
        }
        FileProblem::Elf(error) => format!(in alloc; ": {error}"),
        FileProblem::Pe(error) => format!(in alloc; ": {error}"),
    }
}

/// Returns whether memory has the unwind data of a file.
fn is_in_memory(modules: &DumpModules<'_, '_>, first: &FirstMappings<'_>, name: &[u8]) -> bool
    ensures { result ≡ is_in_memory (dump_view modules.now.dump.now) modules.now.files.now first.now.mappings.now name.now }
{
    let number = modules.files.number_of(name);
    has_frames(modules, name, first.of_file(number))
}

/// Returns whether memory has the unwind data of a file where it is mapped.
fn has_frames(modules: &DumpModules<'_, '_>, name: &[u8], mapping: Option<Mapping>) -> bool
    ensures { result ≡ has_frames (dump_view modules.now.dump.now) name.now mapping }
{
    let Some(mapping) = mapping else {
        return false;
    };
    let info = modules.sections_in(name, mapping.base_avma);
    info.eh_frame.is_some()
}

/// Returns what is said where memory has the unwind data of a file.
fn in_memory_text(alloc: Global, kind: Kind, in_memory: bool) -> Result<String, AllocError>
    ensures { IfOk result (λ text. string_bytes text ≡ in_memory_text kind in_memory) }
{
    if !in_memory {
        return Ok(String::new(alloc));
    }
    let kind = kind_name(kind);
    Ok(format!(in alloc; "; its unwind data is the {kind}'s")?)
}
