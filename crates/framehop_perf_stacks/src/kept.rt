//! The records of a recording that is read in parts: all but the registers and stacks of its samples.
ghost use Rattle.std.specs.Prelude.{◌≡◌, ◌++◌, ◌∷◌, [], List, map, IfOk, OnOk, OnErr};
ghost use Rattle.framehop_recording.specs.Attributes.{attribute_view};
ghost use Rattle.framehop_recording.specs.Order.{IsInOrderOfTime};
ghost use Rattle.framehop_recording.specs.Records.{record_view};
ghost use Rattle.framehop_recording.specs.declared.order.TimedRecord.{TimedRecord};
ghost use Rattle.framehop_perf_stacks.specs.Kept.{timed_view, kept_body, kept_of, kept_view};

use framehop_bytes::bytes::front;
use framehop_recording::events::Events;
use framehop_recording::kind::SAMPLE;
use framehop_recording::order::TimedRecord;
use framehop_recording::records::Record;
use std::alloc::{AllocError, Global};
use std::marker::Model;

/// The size of the fields of eight bytes with which a sample may begin: nine, up to its period.
///
/// Source: Linux, `include/uapi/linux/perf_event.h`, PERF_RECORD_SAMPLE.
const SAMPLE_FIELDS: usize = 72;

/// The records that are kept of a recording: of a sample only the front of its body, by which it can be chosen, with the time that
/// the whole sample has. Their bytes are copied, so that the buffer into which they were read can be used again.
#[derive(Drop)]
pub struct KeptRecords {
    records: Vec<KeptRecord>,
}

/// A record that is kept.
#[derive(Drop)]
struct KeptRecord {
    /// In nanoseconds, or 0 where the record has no time.
    time: u64,
    /// Where it is, in bytes from the start of the file.
    offset: u64,
    kind: u32,
    misc: u16,
    /// What is after its header; of a sample the front of that.
    body: Vec<u8>,
}

impl Model for KeptRecords {
    ghost use Rattle.std.specs.Prelude.{List, map};
    ghost use Rattle.framehop_perf_stacks.specs.Kept.{TimedView, kept_view};

    ghost Value = { List TimedView };

    ghost view = { λ kept. map kept_view kept.records.items };
}

impl KeptRecords {
    /// Returns no records.
    pub fn new(alloc: Global) -> Self
        ensures { result ≡ [] }
    {
        KeptRecords {
            records: Vec::new(alloc),
        }
    }

    /// Keeps a record, after those before it.
    ///
    /// # Errors
    ///
    /// An allocation failed; the record is not kept.
    pub fn push(
        &mut self,
        alloc: Global,
        events: &Events<'_>,
        record: Record<'_>,
    ) -> Result<(), AllocError>
        ensures pushed { OnOk result (self.new
            ≡ self.old ++ kept_of (map attribute_view events.now.attributes.items) (record_view «record».entry) ∷ []) }
        ensures kept { OnErr result (self.new ≡ self.old) }
    {
        let time = events.time_of(record).unwrap_or(0);
        let body = kept_body(alloc, record)?;
        self.records.push(KeptRecord {
            time,
            offset: record.offset,
            kind: record.kind,
            misc: record.misc,
            body,
        })?;
        Ok(())
    }

    /// Returns the records in the order of their times. Records of the same time keep their order, and those without one come
    /// first in their order, as of [`framehop_recording::order::in_order_of_time`].
    ///
    /// # Errors
    ///
    /// An allocation failed.
    pub fn in_order_of_time(&self, alloc: Global) -> Result<Vec<TimedRecord<'_>>, AllocError>
        ensures { IfOk result (λ ordered. (kept : List TimedRecord) × (map timed_view kept ≡ self.now) × IsInOrderOfTime kept ordered.items) }
    {
        let mut list = timed_records(alloc, self.records.as_slice())?;
        sort_by_time(&mut list)?;
        Ok(list)
    }
}

/// Returns the bytes that are kept of a record's body.
fn kept_body(alloc: Global, record: Record<'_>) -> Result<Vec<u8>, AllocError>
    ensures { IfOk result (λ body. body.items ≡ kept_body (record_view «record».entry)) }
{
    if record.kind == SAMPLE {
        return Vec::from_slice(alloc, front(record.body, SAMPLE_FIELDS));
    }
    Vec::from_slice(alloc, record.body)
}

/// Returns these records with their times, in their order.
fn timed_records(alloc: Global, kept: &[KeptRecord]) -> Result<Vec<TimedRecord<'_>>, AllocError>
    ensures { IfOk result (λ list. map timed_view list.items ≡ map kept_view kept.entry.now) }
{
    let mut list = Vec::with_capacity(alloc, kept.len())?;
    for index in 0..kept.len() {
        let timed = timed_record(&kept[index]);
        list.push(timed)?;
    }
    Ok(list)
}

/// Returns a record with its time.
fn timed_record(kept: &KeptRecord) -> TimedRecord<'_>
    ensures { timed_view result ≡ kept_view kept.entry.now }
{
    TimedRecord {
        time: kept.time,
        record: Record {
            offset: kept.offset,
            kind: kept.kind,
            misc: kept.misc,
            body: kept.body.as_slice(),
        },
    }
}

/// Sorts records by their times.
fn sort_by_time(list: &mut Vec<TimedRecord<'_>>) -> Result<(), AllocError>
    ensures ordered { OnOk result (IsInOrderOfTime list.old.items list.new.items) }
{
    list.sort_by_key(|timed| timed.time)?;
    Ok(())
}
