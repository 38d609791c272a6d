//! A dump as JSON: a line.
ghost use Rattle.std.specs.Prelude.{◌≡◌, IfOk};
ghost use Rattle.serde_json.specs.Data.{object, no_members};
ghost use Rattle.serde_json.specs.View.{view};
ghost use Rattle.framehop_dumps.specs.Dump.{dump_view};
ghost use Rattle.framehop_dump_stacks.specs.JsonReport.{machine_name, dump_members, head_text};

use crate::json_crash::crash_value;
use crate::json_modules::modules_value;
use crate::json_threads::thread_value;
use crate::report::Report;
use framehop_dump_files::coredump::core_file::Machine;
use framehop_dumps::dump::{Dump, Thread, kind_name};
use framehop_explain::Note;
use framehop_frames::json_files::FilePaths;
use framehop_frames::json_values::{name_value, number_value};
use framehop_frames::stack::Stack;
use framehop_processes::Mapping;
use framehop_processes::files::Files;
use serde_json::{Value, json};
use std::alloc::{AllocError, Global};

/// What tells where files were read.
pub trait PathSource {
    ghost use Rattle.std.specs.Prelude.{List, IfOk};
    ghost use Rattle.framehop_processes.specs.declared.files.Files.{Files};
    ghost use Rattle.framehop_frames.specs.declared.json_files.FilePaths.{FilePaths};

    // the paths that it may give for files
    ghost gives_paths: { Self → Files → List FilePaths → Type 0 };

    /// Returns where files were read, in the order of their numbers.
    fn paths_of(&self, alloc: Global, files: &Files<'_>) -> Result<Vec<FilePaths>, AllocError>
        ensures { IfOk result (λ paths. gives_paths self.now files.now paths.items) };
}

/// Makes JSON of a dump: an object, whose threads come last.
#[derive(Clone, Copy, Drop)]
pub struct Json<'a, P> {
    /// Where the files of the dump were read.
    pub paths: &'a P,
}

impl<P: PathSource> Report for Json<'_, P> {
    ghost use Rattle.std.specs.Prelude.{true, false};
    ghost use Rattle.framehop_dump_stacks.specs.JsonReport.{IsDumpText, IsHeadText, thread_text, end_text};
    ghost use Rattle.framehop_dump_stacks.specs.Laws.JsonParts.{is-by-parts};

    ghost is_explained = { λ report. false };

    ghost is_of_all_files = { λ report. true };

    ghost is_text = { λ report dump files. IsDumpText (P.gives_paths report.paths.now files) dump files };

    ghost is_head = { λ report dump files. IsHeadText (P.gives_paths report.paths.now files) dump files };

    ghost thread_text = { λ report dump. thread_text };

    ghost end_text = { λ report. end_text };

    ghost is_by_parts = { λ report dump files. is-by-parts (P.gives_paths report.paths.now files) dump files };

    fn explains(&self) -> bool {
        false
    }

    fn tells_all_files(&self) -> bool {
        true
    }

    fn head(
        &self,
        alloc: Global,
        dump: &Dump<'_>,
        files: &Files<'_>,
        mappings: &[Mapping],
    ) -> Result<Vec<u8>, AllocError> {
        let paths = self.paths.paths_of(alloc, files)?;
        head_text(alloc, paths.as_slice(), dump, files, mappings)
    }

    fn thread<R: Copy>(
        &self,
        alloc: Global,
        _dump: &Dump<'_>,
        files: &Files<'_>,
        mappings: &[Mapping],
        is_later: bool,
        thread: Thread<'_>,
        stack: &Option<Stack<R>>,
        _notes: &[Note],
    ) -> Result<Vec<u8>, AllocError> {
        let value = thread_value(alloc, files, mappings, thread, stack)?;
        let mut text = Vec::new(alloc);
        if is_later {
            text.push(b',')?;
        }
        text.extend_from_slice(value.to_string(alloc)?.as_bytes())?;
        Ok(text)
    }

    fn end(&self) -> &'static [u8] {
        b"]}\n"
    }
}

/// Returns what comes before the threads of a dump.
fn head_text(
    alloc: Global,
    paths: &[FilePaths],
    dump: &Dump<'_>,
    files: &Files<'_>,
    mappings: &[Mapping],
) -> Result<Vec<u8>, AllocError>
    ensures { IfOk result (λ text. text.items ≡ head_text paths.now (dump_view dump.now) files.now mappings.now) }
{
    let value = head_value(alloc, paths, dump, files, mappings)?;
    let mut text = value.to_string(alloc)?.into_bytes();
    text.pop();
    text.extend_from_slice(b",\"threads\":[")?;
    Ok(text)
}

/// Returns what is said of a dump besides its threads.
fn head_value(
    alloc: Global,
    paths: &[FilePaths],
    dump: &Dump<'_>,
    files: &Files<'_>,
    mappings: &[Mapping],
) -> Result<Value, AllocError>
    ensures { IfOk result (λ value. view value ≡ object (dump_members paths.now (dump_view dump.now) files.now mappings.now no_members)) }
{
    let program = name_value(alloc, dump.name)?;
    let pid = number_value(dump.pid);
    let crash = crash_value(alloc, dump.threads.as_slice())?;
    let modules = modules_value(alloc, paths, files, mappings)?;
    json!(in alloc; {
        "kind": kind_name(dump.kind),
        "machine": machine_name(dump.machine),
        "program": program,
        "pid": pid,
        "crash": crash,
        "modules": modules
    })
}

/// Returns what a machine is called.
fn machine_name(machine: Machine) -> &'static str
    ensures { result.now ≡ machine_name machine }
{
    match machine {
        Machine::X86_64 => "x86_64",
        Machine::Aarch64 => "aarch64",
    }
}
