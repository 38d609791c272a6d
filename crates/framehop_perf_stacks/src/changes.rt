//! What the records of a recording change in its processes.
ghost use Rattle.std.specs.Prelude.{◌≡◌, option_map};
ghost use Rattle.framehop_recording.specs.Mapping.{mapping_view};
ghost use Rattle.framehop_recording.specs.Records.{record_view};
ghost use Rattle.framehop_processes.specs.Files.{object_in};
ghost use Rattle.framehop_perf_stacks.specs.Changes.{is_of_code, number_for, base_in, mapping_based, code_mapping_in, maps_file, forks_process, change_in};

use crate::perf_map::is_anonymous;
use framehop_processes::Mapping;
use framehop_processes::files::Files;
use framehop_recording::error::RecordingError;
use framehop_recording::kind::{COMM, FORK, MMAP, MMAP2};
use framehop_recording::mapping::{Mapping as RecordedMapping, read_mapping};
use framehop_recording::records::Record;
use framehop_recording::tasks::{Task, read_command, read_task};

/// The process of the kernel's mappings.
const KERNEL: u32 = u32::MAX;

/// A change of the processes.
#[derive(Clone, Copy, PartialEq, Eq)]
pub enum Change {
    /// A process maps a file.
    Map { pid: u32, mapping: Mapping },
    /// A process begins without mappings, as one that runs another program does.
    Begin { pid: u32 },
    /// A process begins as a copy of another.
    Fork { pid: u32, parent: u32 },
}

/// Returns the mapping of a record, if it can be read and is one of a process's code.
#[tactic(auto, unfolding(crate::specs::Changes::code_mapping_in))]
pub(crate) fn code_mapping<'a>(record: Record<'a>) -> Option<RecordedMapping<'a>>
    ensures { option_map (λ mapping. mapping_view mapping) result ≡ code_mapping_in (record_view «record».entry) }
{
    if record.kind != MMAP && record.kind != MMAP2 {
        return None;
    }
    let Ok(mapping) = read_mapping(record) else {
        return None;
    };
    if is_of_code(&mapping) {
        Some(mapping)
    } else {
        None
    }
}

/// Returns what a record changes in the processes, if it changes anything.
///
/// # Errors
///
/// Those of [`read_mapping`], [`read_command`] and [`read_task`].
#[tactic(auto, unfolding(crate::specs::Changes::change_in))]
pub(crate) fn change_of(files: &Files, record: Record<'_>) -> Result<Option<Change>, RecordingError>
    ensures exact { result ≡ change_in files.now (record_view «record».entry) }
{
    match record.kind {
        MMAP | MMAP2 => {
            let mapping = read_mapping(record)?;
            Ok(map_change(files, mapping))
        }
        COMM => {
            let command = read_command(record)?;
            if command.is_exec {
                Ok(Some(Change::Begin { pid: command.pid }))
            } else {
                Ok(None)
            }
        }
        FORK => {
            let task = read_task(record)?;
            Ok(fork_change(task))
        }
        _ => Ok(None),
    }
}

/// Returns what a mapping changes.
fn map_change(files: &Files, mapping: RecordedMapping<'_>) -> Option<Change>
    ensures { result ≡ maps_file files.now (mapping_view mapping.entry) }
{
    if !is_of_code(&mapping) {
        return None;
    }
    let file = number_for(files, &mapping)?;
    let base = base_of(files, &mapping, file);
    let made = mapping_of(&mapping, file, base);
    if made.end <= made.start {
        return None;
    }
    Some(Change::Map {
        pid: mapping.pid,
        mapping: made,
    })
}

/// Returns the number of the file of a mapping: of one that is of no file that of the map of its process, if there is one.
fn number_for(files: &Files, mapping: &RecordedMapping<'_>) -> Option<u32>
    ensures { result ≡ number_for files.now (mapping_view mapping.now) }
{
    if is_anonymous(mapping.name) {
        if let Some(number) = files.map_number_of(mapping.pid) {
            return Some(number);
        }
    }
    files.number_of(mapping.name)
}

/// Returns whether a mapping is one of a process's code.
fn is_of_code(mapping: &RecordedMapping<'_>) -> bool
    ensures { result ≡ is_of_code (mapping_view mapping.now) }
{
    mapping.is_executable && mapping.pid != KERNEL
}

/// Returns where the stated address 0 of a mapped file is (AVMA), if it is known.
fn base_of(files: &Files, mapping: &RecordedMapping<'_>, file: u32) -> Option<u64>
    ensures { result ≡ base_in (object_in files.now file) (mapping_view mapping.now) }
{
    let object = files.object(file)?;
    object.base(mapping.offset, mapping.size, mapping.start)
}

/// Returns the mapping of a file that has a number.
fn mapping_of(mapping: &RecordedMapping<'_>, file: u32, base: Option<u64>) -> Mapping
    ensures { result ≡ mapping_based (mapping_view mapping.now) file base }
{
    let start = mapping.start;
    let end = start.saturating_add(mapping.size);
    match base {
        Some(base_avma) => Mapping {
            start,
            end,
            base_avma,
            file,
            has_sections: true,
        },
        None => Mapping {
            start,
            end,
            base_avma: start.saturating_sub(mapping.offset),
            file,
            has_sections: false,
        },
    }
}

/// Returns what a thread that begins changes.
fn fork_change(task: Task) -> Option<Change>
    ensures { result ≡ forks_process task }
{
    let pid = task.pid;
    if pid == task.parent_pid {
        None
    } else if task.is_made_up {
        Some(Change::Begin { pid })
    } else {
        Some(Change::Fork {
            pid,
            parent: task.parent_pid,
        })
    }
}
