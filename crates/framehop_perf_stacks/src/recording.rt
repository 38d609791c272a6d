//! What is read of a recording before its samples are unwound.
ghost use Rattle.std.specs.Prelude.{◌≡◌, ◌^◌, ◌⊎◌, ℕ, Bool, Ok, Err, IfOk, IfErr, OnOk, MatchResult, List, map};
ghost use Rattle.std.specs.List.{list_any};
ghost use Rattle.framehop_recording.specs.Attributes.{attribute_view};
ghost use Rattle.framehop_recording.specs.BuildIds.{FileBuildIdView, file_build_id_view};
ghost use Rattle.framehop_recording.specs.Bytes.{has_bit};
ghost use Rattle.framehop_recording.specs.Mapping.{mapping_view};
ghost use Rattle.framehop_recording.specs.Numbers.{PERF_REG_ARM64_PC};
ghost use Rattle.framehop_recording.specs.Records.{record_view};
ghost use Rattle.framehop_recording.specs.Sample.{sample_view};
ghost use Rattle.framehop_recording.specs.declared.error.RecordingError.{RecordingError};
ghost use Rattle.framehop_perf_stacks.specs.Files.{build_id_in, HasBuildIds, wanted_for, IsAddedFor, AreFilesOf};
ghost use Rattle.framehop_perf_stacks.specs.Recording.{sample_in, are_of_aarch64, records_in, events_in, IsReadOf};
ghost use Rattle.framehop_perf_stacks.specs.Refusal.{of_recording};
ghost use Rattle.framehop_perf_stacks.specs.declared.error.StacksError.{StacksError};

use crate::error::StacksError;
use crate::perf_map::{MapSource, add_map};
use crate::sampled::sampled_mappings;
use framehop_processes::files::{FileSource, Files};
use framehop_recording::attributes::Attribute;
use framehop_recording::build_ids::{FileBuildId, read_build_ids};
use framehop_recording::error::RecordingError;
use framehop_recording::events::{Events, read_events};
use framehop_recording::header::read_header;
use framehop_recording::mapping::Mapping;
use framehop_recording::order::{TimedRecord, in_order_of_time};
use framehop_recording::records::{Record, read_records};
use framehop_recording::sample::{Sample, read_sample};
use std::alloc::{AllocError, Global};
use std::collections::BTreeMap;

/// The bit of the program counter among the user registers of aarch64. Those of x86_64 have none there.
///
/// Source: Linux, `arch/arm64/include/uapi/asm/perf_regs.h`, PERF_REG_ARM64_PC.
const AARCH64_PC: u64 = 0x1_0000_0000;

/// What was read of a recording.
#[derive(Drop)]
pub struct Recording<'a> {
    /// Its events.
    pub events: Events<'a>,
    /// Its records, in the order of their times.
    pub records: Vec<TimedRecord<'a>>,
    /// The build ids of its files.
    pub build_ids: Vec<FileBuildId<'a>>,
    /// Why no more records could be read.
    pub refusal: Option<RecordingError>,
}

/// The build ids of a recording's files by their names.
#[derive(Drop)]
struct BuildIdsByName<'a> {
    by_name: BTreeMap<&'a [u8], &'a [u8]>,
}

/// Reads a recording. Build ids that can't be read count as absent.
///
/// # Errors
///
/// `Recording` with the first refusal of the header or of the events, and `OutOfMemory`. What refuses a record
/// is in the field `refusal`.
pub fn read_recording<'a>(alloc: Global, file: &'a [u8]) -> Result<Recording<'a>, StacksError>
    ensures exact { IfOk result (λ recording. IsReadOf file.entry.now recording) }
    ensures refused { IfErr result (λ error. (error ≡ StacksError.OutOfMemory)
        ⊎ ((refusal : RecordingError) × (events_in file.entry.now ≡ Err refusal) × (error ≡ of_recording refusal))) }
{
    let header = read_header(file)?;
    let events = read_events(alloc, file, &header)?;
    let read = read_records(alloc, file, header.records)?;
    let records = in_order_of_time(alloc, &events, read.records.as_slice())?;
    let build_ids = match read_build_ids(alloc, file, &header) {
        Ok(build_ids) => build_ids,
        Err(RecordingError::OutOfMemory) => return Err(StacksError::OutOfMemory),
        Err(_) => Vec::new(alloc),
    };
    Ok(Recording {
        events,
        records,
        build_ids,
        refusal: read.refusal,
    })
}

impl<'a> BuildIdsByName<'a> {
    /// Returns the build id of the file of a name, or no bytes.
    fn get(&self, name: &[u8]) -> &'a [u8]
        ensures { result.now ≡ build_id_in self.now.by_name name.now }
    {
        match self.by_name.get(name) {
            Some(build_id) => *build_id,
            None => &[],
        }
    }

    /// Returns the build id that is wanted of the file of a mapping: the mapping's, or else the one that the
    /// recording has of its name.
    fn wanted(&self, mapping: &Mapping<'a>) -> &'a [u8]
        ensures { (build_ids : List FileBuildIdView) → HasBuildIds build_ids self.now.by_name
            → result.now ≡ wanted_for build_ids (mapping_view mapping.now) }
    {
        if mapping.build_id.is_empty() {
            self.get(mapping.name)
        } else {
            mapping.build_id
        }
    }
}

/// Reads the files whose code is mapped at samples, and the maps of code that is in no file, each once. Fails
/// only where an allocation does, or from 2^32 files on.
pub fn read_files<'m, S: FileSource + MapSource>(
    alloc: Global,
    recording: &Recording<'_>,
    source: &S,
) -> Result<Files<'m>, StacksError>
    ensures read { IfOk result (λ files. AreFilesOf (S.source source.now) (S.gives_map source.now)
        (map attribute_view recording.now.events.attributes.items) (map file_build_id_view recording.now.build_ids.items) (records_in recording.now.records.items) files) }
    ensures refused { IfErr result (λ error. error ≡ StacksError.OutOfMemory) }
{
    let build_ids = build_ids_by_name(alloc, recording.build_ids.as_slice())?;
    let mappings = sampled_mappings(alloc, &recording.events, recording.records.as_slice())?;
    let mut files = Files::new(alloc)?;
    for mapping in &mappings {
        add_file(alloc, &build_ids, source, &mut files, mapping)?;
    }
    Ok(files)
}

/// Returns the build ids of files by their names, of each name the first.
fn build_ids_by_name<'a>(
    alloc: Global,
    build_ids: &[FileBuildId<'a>],
) -> Result<BuildIdsByName<'a>, AllocError>
    ensures { IfOk result (λ by_name. HasBuildIds (map file_build_id_view build_ids.now) by_name.by_name) }
{
    let mut by_name = BTreeMap::new(alloc);
    let mut left = build_ids.len();
    while left > 0 {
        left -= 1;
        let build_id = build_ids[left];
        by_name.insert(build_id.name, build_id.build_id)?;
    }
    Ok(BuildIdsByName { by_name })
}

/// Reads the file of a mapping, or the map of its process, if it is of no file.
fn add_file<'a, S: FileSource + MapSource>(
    alloc: Global,
    build_ids: &BuildIdsByName<'a>,
    source: &S,
    files: &mut Files,
    mapping: &Mapping<'a>,
) -> Result<(), StacksError>
    ensures added { (recorded : List FileBuildIdView) → HasBuildIds recorded build_ids.now.by_name
        → OnOk result (IsAddedFor (S.source source.now) (S.gives_map source.now) recorded (mapping_view mapping.now) files.old files.new) }
    ensures refused { IfErr result (λ error. error ≡ StacksError.OutOfMemory) }
{
    let build_id = build_ids.wanted(mapping);
    files.add(alloc, source, mapping.name, build_id)?;
    add_map(alloc, source, files, mapping)?;
    Ok(())
}

/// Returns the sample of a record with the mask of its registers.
///
/// # Errors
///
/// `NoThread` also where the record is of no event that is known, and those of [`read_sample`].
#[tactic(auto, unfolding(crate::specs::Recording::sample_in))]
pub(crate) fn sample_of<'a>(
    events: &Events<'_>,
    record: Record<'a>,
) -> Result<(Sample<'a>, u64), RecordingError>
    ensures exact { MatchResult result
        (λ read. sample_in (map attribute_view events.now.attributes.items) (record_view «record».entry) ≡ Ok (sample_view read.0, read.1))
        (λ error. sample_in (map attribute_view events.now.attributes.items) (record_view «record».entry) ≡ Err error) }
{
    let unknown = RecordingError::NoThread {
        offset: record.offset,
    };
    let Some(event) = events.event_of(record) else {
        return Err(unknown);
    };
    let Some(attribute) = events.attributes.get(event) else {
        return Err(unknown);
    };
    let sample = read_sample(attribute, record)?;
    Ok((sample, attribute.sample_regs_user))
}

/// Returns whether the samples are of aarch64: where an event records the program counter at its place.
pub(crate) fn is_aarch64(events: &Events<'_>) -> bool
    ensures { result ≡ are_of_aarch64 (map attribute_view events.now.attributes.items) }
{
    have_aarch64_pc(events.attributes.as_slice())
}

/// Returns whether the samples of one of these events have it.
fn have_aarch64_pc(attributes: &[Attribute<'_>]) -> bool
    ensures { result ≡ list_any (λ a. has_bit a.sample_regs_user (2 ^ PERF_REG_ARM64_PC)) attributes.now }
{
    attributes.iter().any(|attribute| has_aarch64_pc(attribute))
}

/// Returns whether the samples of an event have the program counter of aarch64.
fn has_aarch64_pc(attribute: &Attribute<'_>) -> bool
    ensures { result ≡ has_bit attribute.now.sample_regs_user (2 ^ PERF_REG_ARM64_PC) }
{
    attribute.sample_regs_user & AARCH64_PC != 0
}
