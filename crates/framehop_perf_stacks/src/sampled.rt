//! The mappings of a recording that its samples may need.
ghost use Rattle.std.specs.Prelude.{◌≡◌, ℕ, IfOk, IfErr, OnOk, false, map, option_map};
ghost use Rattle.framehop_recording.specs.Attributes.{attribute_view};
ghost use Rattle.framehop_recording.specs.Mapping.{mapping_view};
ghost use Rattle.framehop_recording.specs.Records.{record_view};
ghost use Rattle.framehop_recording.specs.Tasks.{task_at};
ghost use Rattle.framehop_perf_stacks.specs.Changes.{code_mapping_in};
ghost use Rattle.framehop_perf_stacks.specs.Recording.{records_in, sample_in};
ghost use Rattle.framehop_perf_stacks.specs.Sampled.{has_process, sampled_by, forked_by, process_in, begun_in, is_sampled_with, of_process, sampled_mappings};
ghost use Rattle.framehop_perf_stacks.specs.declared.error.StacksError.TheVariants.{OutOfMemory};

use crate::changes::code_mapping;
use crate::error::StacksError;
use crate::recording::sample_of;
use framehop_recording::events::Events;
use framehop_recording::kind::{COMM, FORK};
use framehop_recording::mapping::Mapping;
use framehop_recording::order::TimedRecord;
use framehop_recording::records::Record;
use framehop_recording::tasks::{read_command, read_task};
use std::alloc::Global;
use std::collections::BTreeSet;

/// Processes whose mappings are there at a sample of the records from a place on.
#[derive(Drop)]
pub(crate) struct SampledProcesses {
    pids: BTreeSet<u32>,
}

/// Returns the mappings of code that are there at a sample, of records in the order of their times: those of a process that
/// has one before it runs another program, or off which such a process is forked until then.
pub(crate) fn sampled_mappings<'a>(
    alloc: Global,
    events: &Events<'_>,
    records: &[TimedRecord<'a>],
) -> Result<Vec<Mapping<'a>>, StacksError>
    ensures sampled { IfOk result (λ mappings. map (λ mapping. mapping_view mapping) mappings.items
        ≡ sampled_mappings (map attribute_view events.now.attributes.items) (records_in records.now)) }
    ensures refused { IfErr result (λ error. error ≡ OutOfMemory) }
{
    let mut sampled = SampledProcesses::new(alloc);
    let mut mappings = Vec::new(alloc);
    let mut left = records.len();
    while left > 0 {
        left -= 1;
        let record = records[left].record;
        if let Some(mapping) = sampled.mapping_in(record) {
            mappings.push(mapping)?;
        }
        sampled.note(events, record)?;
    }
    mappings.reverse();
    Ok(mappings)
}

impl SampledProcesses {
    /// Returns no processes.
    fn new(alloc: Global) -> Self
        ensures { (pid : ℕ) → has_process result pid ≡ false }
    {
        SampledProcesses {
            pids: BTreeSet::new(alloc),
        }
    }

    /// Returns whether a process is one of these.
    fn has(&self, pid: u32) -> bool
        ensures { result ≡ has_process self.now pid }
    {
        self.pids.contains(&pid)
    }

    /// Returns the mapping of a record, if it can be read and is one of the code of one of these processes.
    fn mapping_in<'a>(&self, record: Record<'a>) -> Option<Mapping<'a>>
        ensures { option_map (λ mapping. mapping_view mapping) result ≡ of_process (has_process self.now) (code_mapping_in (record_view «record».entry)) }
    {
        match code_mapping(record) {
            Some(mapping) if self.has(mapping.pid) => Some(mapping),
            _ => None,
        }
    }

    /// Goes back before a record: leaves out the process that begins with it, and adds the one whose mappings are there with it.
    fn note(&mut self, events: &Events<'_>, record: Record<'_>) -> Result<(), StacksError>
        ensures noted { OnOk result ((pid : ℕ) → has_process self.new pid
            ≡ is_sampled_with (map attribute_view events.now.attributes.items) (record_view «record».entry) (has_process self.old) pid) }
        ensures refused { IfErr result (λ error. error ≡ OutOfMemory) }
    {
        let added = self.process_in(events, record);
        if let Some(begun) = begun_in(record) {
            self.pids.remove(&begun);
        }
        if let Some(added) = added {
            self.pids.insert(added)?;
        }
        Ok(())
    }

    /// Returns the process of a record's sample or, of a fork, the process off which one of these was forked.
    fn process_in(&self, events: &Events<'_>, record: Record<'_>) -> Option<u32>
        ensures { result ≡ process_in (map attribute_view events.now.attributes.items) (record_view «record».entry) (has_process self.now) }
    {
        if record.kind == FORK {
            self.parent_in(record)
        } else {
            process_of(events, record)
        }
    }

    /// Returns the process off which a fork makes one of these.
    fn parent_in(&self, record: Record<'_>) -> Option<u32>
        ensures { result ≡ forked_by (task_at (record_view «record».entry)) (has_process self.now) }
    {
        match read_task(record) {
            Ok(task) if !task.is_made_up && self.has(task.pid) => Some(task.parent_pid),
            _ => None,
        }
    }
}

/// Returns the process of a record's sample, if it can be read.
fn process_of(events: &Events<'_>, record: Record<'_>) -> Option<u32>
    ensures { result ≡ sampled_by (sample_in (map attribute_view events.now.attributes.items) (record_view «record».entry)) }
{
    match sample_of(events, record) {
        Ok((sample, _)) => Some(sample.pid),
        Err(_) => None,
    }
}

/// Returns the process whose mappings are gone from a record on: it runs another program, or is a new one.
fn begun_in(record: Record<'_>) -> Option<u32>
    ensures { result ≡ begun_in (record_view «record».entry) }
{
    match record.kind {
        COMM => match read_command(record) {
            Ok(command) if command.is_exec => Some(command.pid),
            _ => None,
        },
        FORK => match read_task(record) {
            Ok(task) if task.pid != task.parent_pid => Some(task.pid),
            _ => None,
        },
        _ => None,
    }
}
