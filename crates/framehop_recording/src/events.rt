//! The events of a recording, and which record belongs to which.
ghost use Rattle.std.specs.Prelude.{ℕ, ◌≡◌, ◌<◌, ◌≤◌, ◌^◌, ◌⊎◌, ◌==◌, ◌/◌, Ok, Err, IfErr, IfOk, OnOk, MatchResult, Some, length, map, nat_le, if◌then◌else◌};
ghost use Rattle.std.specs.List.{list_any, list_all};
ghost use Rattle.std.specs.Ordering.{nat_cmp};
ghost use Rattle.std.specs.BTreeMap.{get};
ghost use Rattle.std.proofs.Props.{props};
ghost use Rattle.framehop_bytes.specs.Bytes.{le8};
ghost use Rattle.framehop_recording.specs.Bytes.{offsets};
ghost use Rattle.framehop_recording.specs.Attributes.{attribute_view, attributes_of};
ghost use Rattle.framehop_recording.specs.declared.error.RecordingError.{RecordingError};
ghost use Rattle.framehop_recording.specs.Records.{record_view};
ghost use Rattle.framehop_recording.specs.Events.{count_present, field_between, known_time, time_field, id_field, id_fields, is_like, are_told_apart, ids_size, event_with, event_of, time_of, events_of};

use crate::attributes::{Attribute, read_attributes};
use crate::bytes::{word, word_from_end};
use crate::error::RecordingError;
use crate::header::Header;
use crate::kind::{SAMPLE, USER_TYPE_START};
use crate::records::Record;
use crate::sample_type::{ADDR, CPU, ID, IDENTIFIER, IP, STREAM_ID, TID, TIME};
use std::alloc::Global;
use std::collections::BTreeMap;

/// The fields of a sample before its time.
const BEFORE_TIME: [u64; 3] = [IDENTIFIER, IP, TID];

/// The fields at the end of another record from its time on.
const FROM_TIME: [u64; 5] = [TIME, ID, STREAM_ID, CPU, IDENTIFIER];

/// The fields of a sample before its id.
const BEFORE_ID: [u64; 5] = [IDENTIFIER, IP, TID, TIME, ADDR];

/// The fields at the end of another record from its id on.
const FROM_ID: [u64; 4] = [ID, STREAM_ID, CPU, IDENTIFIER];

/// The fields of which one is the id.
const ANY_ID: u64 = IDENTIFIER | ID;

/// Which fields say where an id is that is no PERF_SAMPLE_IDENTIFIER.
const AROUND_ID: u64 = IP | TID | TIME | ADDR | ID | STREAM_ID | CPU;

/// The events of a recording.
#[derive(Drop)]
pub struct Events<'a> {
    /// In the order of the file.
    pub attributes: Vec<Attribute<'a>>,
    /// Of each id, which of the attributes is the first to have it.
    pub by_id: BTreeMap<u64, usize>,
    ghost indexed: { (id : ℕ) → get nat_cmp by_id id ≡ event_with (map attribute_view attributes.items) id } by { Prim.hlevel props },
}

/// A time that says that there is none.
const NO_TIME: u64 = u64::MAX;

/// Reads the events of a recording.
///
/// # Errors
///
/// - What [`read_attributes`] refuses;
/// - `MixedIds` where there are several events, and not each has an id in its records at one place;
/// - `SharedIds` where the ids of all take more bytes than the file has;
/// - `OutOfMemory`, where the attributes can be read.
///
/// Source: Linux, `perf.data-file-format.txt`, `perf_file_attr`; `include/uapi/linux/perf_event.h`,
/// PERF_RECORD_SAMPLE and `struct sample_id`.
#[tactic(auto, unfolding(crate::specs::Events::events_of))]
pub fn read_events<'a>(
    alloc: Global,
    file: &'a [u8],
    header: &Header,
) -> Result<Events<'a>, RecordingError>
    ensures exact { MatchResult result
        (λ events. events_of file.entry.now header.now ≡ Ok (map attribute_view events.attributes.items))
        (λ error. (error ≡ RecordingError.OutOfMemory) ⊎ (events_of file.entry.now header.now ≡ Err error)) }
    ensures named { (error : RecordingError) → attributes_of file.entry.now header.now ≡ Err error → result ≡ Err error }
{
    let offset = header.attributes.offset;
    let attributes = read_attributes(alloc, file, header)?;
    if !are_told_apart(attributes.as_slice()) {
        return Err(RecordingError::MixedIds { offset });
    }
    if !have_room(attributes.as_slice(), file.len()) {
        return Err(RecordingError::SharedIds { offset });
    }
    let by_id = events_by_id(alloc, attributes.as_slice())?;
    Ok(Events { attributes, by_id })
}

/// Returns whether ids tell the records of these events apart.
#[tactic(auto, unfolding(crate::specs::Events::are_told_apart))]
fn are_told_apart(attributes: &[Attribute<'_>]) -> bool
    ensures { result ≡ are_told_apart (map attribute_view attributes.now) }
{
    let Some((first, others)) = attributes.split_first() else {
        return true;
    };
    if others.is_empty() {
        return true;
    }
    if id_fields(first) & ANY_ID == 0 {
        return false;
    }
    are_like(first, others)
}

/// Returns whether the records of all these events have their ids where those of another have them.
fn are_like(one: &Attribute<'_>, others: &[Attribute<'_>]) -> bool
    ensures { result ≡ list_all (λ other. is_like (attribute_view one.now) (attribute_view other)) others.now }
{
    others.iter().all(|other| is_like(one, other))
}

/// Returns whether the records of two events have their ids at one place.
#[tactic(auto, unfolding(crate::specs::Events::is_like))]
fn is_like(one: &Attribute<'_>, other: &Attribute<'_>) -> bool
    ensures { result ≡ is_like (attribute_view one.now) (attribute_view other.now) }
{
    let is_placed_alike = id_fields(one) == id_fields(other);
    is_placed_alike && (one.sample_id_all == other.sample_id_all)
}

/// Returns which fields say where the id of an event's records is.
#[tactic(auto, unfolding(crate::specs::Events::id_fields))]
fn id_fields(attribute: &Attribute<'_>) -> u64
    ensures { result ≡ id_fields (attribute_view attribute.now) }
{
    if attribute.sample_type & IDENTIFIER != 0 {
        IDENTIFIER
    } else {
        attribute.sample_type & AROUND_ID
    }
}

/// Returns whether the ids of these events take at most so many bytes.
fn have_room(attributes: &[Attribute<'_>], size: usize) -> bool
    ensures { result ≡ nat_le (ids_size (map attribute_view attributes.now)) size }
{
    let mut left = size;
    for attribute in attributes {
        let ids_size = attribute.ids.len();
        if ids_size > left {
            return false;
        }
        left -= ids_size;
    }
    true
}

/// Returns the first event of each id.
fn events_by_id(
    alloc: Global,
    attributes: &[Attribute<'_>],
) -> Result<BTreeMap<u64, usize>, RecordingError>
    ensures refused { IfErr result (λ error. error ≡ RecordingError.OutOfMemory) }
    ensures indexed { IfOk result (λ by_id. (id : ℕ) → get nat_cmp by_id id ≡ event_with (map attribute_view attributes.now) id) }
{
    let mut by_id = BTreeMap::new(alloc);
    let mut event = attributes.len();
    while event > 0 {
        event -= 1;
        add_ids(&mut by_id, event, attributes[event].ids)?;
    }
    Ok(by_id)
}

/// Enters the ids of an event, also where another event has them.
fn add_ids(by_id: &mut BTreeMap<u64, usize>, event: usize, ids: &[u8]) -> Result<(), RecordingError>
    ensures refused { IfErr result (λ error. error ≡ RecordingError.OutOfMemory) }
    ensures added { OnOk result ((id : ℕ) → get nat_cmp by_id.new id ≡ (if list_any (λ at. le8 ids.now at == id) (offsets 0 8 (length ids.now / 8)) then Some event else get nat_cmp by_id.old id)) }
{
    let mut at = 0;
    while let Some(id) = word(ids, at) {
        by_id.insert(id, event)?;
        at += 8;
    }
    Ok(())
}

impl Events<'_> {
    /// Returns when a record was made, in nanoseconds, if it says so: of a record that is no sample,
    /// the time at its end. The time `u64::MAX` says that there is none.
    #[tactic(auto, unfolding(crate::specs::Events::time_of))]
    pub fn time_of(&self, record: Record<'_>) -> Option<u64>
        ensures { result ≡ time_of (map attribute_view self.now.attributes.items) (record_view «record».entry) }
    {
        let event = self.event_of(record)?;
        let attribute = self.attributes.get(event)?;
        time_field(attribute, record)
    }

    /// Returns which of the attributes is that of a record, if one is known to be.
    ///
    /// A single event has all records. Of several, the record's id says which. The records that perf
    /// made up, with the id 0, belong to the first.
    #[tactic(auto, unfolding(crate::specs::Events::event_of))]
    pub fn event_of(&self, record: Record<'_>) -> Option<usize>
        ensures { result ≡ event_of (map attribute_view self.now.attributes.items) (record_view «record».entry) }
    {
        let first = self.attributes.get(0)?;
        if self.attributes.len() == 1 {
            return Some(0);
        }
        let id = id_field(first, record)?;
        if id == 0 {
            return Some(0);
        }
        self.by_id.get(&id).copied()
    }
}

/// Returns when a record of an event was made.
#[tactic(auto, unfolding(crate::specs::Events::time_field))]
fn time_field(attribute: &Attribute<'_>, record: Record<'_>) -> Option<u64>
    ensures { result ≡ time_field (attribute_view attribute.now) (record_view «record».entry) }
{
    if attribute.sample_type & TIME == 0 {
        return None;
    }
    known_time(field(attribute, record, &BEFORE_TIME, &FROM_TIME)?)
}

/// Returns a time, unless it says that there is none.
pub(crate) fn known_time(time: u64) -> Option<u64>
    ensures { result ≡ known_time time }
{
    if time == NO_TIME { None } else { Some(time) }
}

/// Returns the id of the event that made a record, which has it where this event has it.
#[tactic(auto, unfolding(crate::specs::Events::id_field))]
fn id_field(attribute: &Attribute<'_>, record: Record<'_>) -> Option<u64>
    ensures { result ≡ id_field (attribute_view attribute.now) (record_view «record».entry) }
{
    if attribute.sample_type & IDENTIFIER != 0 {
        return field(attribute, record, &[], &[IDENTIFIER]);
    }
    if attribute.sample_type & ID == 0 {
        return None;
    }
    field(attribute, record, &BEFORE_ID, &FROM_ID)
}

/// Returns the field of a record of an event that comes after some fields in a sample, and is the first of
/// others at the end of another record.
#[tactic(auto, unfolding(crate::specs::Events::field_between))]
fn field(attribute: &Attribute<'_>, record: Record<'_>, before: &[u64], from: &[u64]) -> Option<u64>
    requires before_few { length before.now < 2 ^ 16 }
    requires from_few { length from.now < 2 ^ 16 }
    ensures { result ≡ field_between (attribute_view attribute.now) (record_view «record».entry) before.now from.now }
{
    if record.kind == SAMPLE {
        let before = count_present(attribute.sample_type, before);
        return word(record.body, 8 * before);
    }
    if !attribute.sample_id_all || record.kind >= USER_TYPE_START {
        return None;
    }
    word_from_end(record.body, count_present(attribute.sample_type, from))
}

/// Returns how many of these fields a sample has.
fn count_present(sample_type: u64, fields: &[u64]) -> usize
    ensures exact { result ≡ count_present sample_type fields.now }
    ensures bound { result ≤ length fields.now }
{
    let mut count = 0;
    for field in fields {
        if sample_type & *field != 0 {
            count += 1;
        }
    }
    count
}
