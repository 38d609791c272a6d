//! Records in the order of their times.
ghost use Rattle.std.specs.Prelude.{◌≡◌, IfErr, IfOk, OnOk, map};
ghost use Rattle.framehop_recording.specs.Attributes.{attribute_view};
ghost use Rattle.framehop_recording.specs.Order.{timed, IsInOrderOfTime};

use crate::error::RecordingError;
use crate::events::Events;
use crate::records::Record;
use std::alloc::Global;

/// A record and when it was made.
#[derive(Clone, Copy, Drop)]
pub struct TimedRecord<'a> {
    /// In nanoseconds, or 0 where the record has no time.
    pub time: u64,
    /// The record.
    pub record: Record<'a>,
}

/// Returns these records in the order of their times, each with its own. In a file those of several
/// processors are not in order.
///
/// Records of the same time keep their order. Those without one, as what perf made up for the processes
/// that ran before, come first in their order: perf too hands them on at once, and not by time.
///
/// # Errors
///
/// `OutOfMemory`.
///
/// Source: Linux, `include/uapi/linux/perf_event.h`, `struct sample_id`; `tools/perf/util/session.c`,
/// `perf_session__process_event`, and `tools/perf/util/ordered-events.c`, `ordered_events__queue`.
pub fn in_order_of_time<'a>(
    alloc: Global,
    events: &Events<'_>,
    records: &[Record<'a>],
) -> Result<Vec<TimedRecord<'a>>, RecordingError>
    ensures refused { IfErr result (λ error. error ≡ RecordingError.OutOfMemory) }
    ensures exact { IfOk result (λ list. IsInOrderOfTime (map (timed (map attribute_view events.now.attributes.items)) records.entry.now) list.items) }
{
    let mut list = with_times(alloc, events, records)?;
    sort_by_time(&mut list)?;
    Ok(list)
}

/// Returns each of these records with its time.
fn with_times<'a>(
    alloc: Global,
    events: &Events<'_>,
    records: &[Record<'a>],
) -> Result<Vec<TimedRecord<'a>>, RecordingError>
    ensures refused { IfErr result (λ error. error ≡ RecordingError.OutOfMemory) }
    ensures exact { IfOk result (λ list. list.items ≡ map (timed (map attribute_view events.now.attributes.items)) records.entry.now) }
{
    let mut list = Vec::new(alloc);
    for index in 0..records.len() {
        let record = records[index];
        let time = events.time_of(record).unwrap_or(0);
        list.push(TimedRecord { time, record })?;
    }
    Ok(list)
}

/// Sorts records by their times.
fn sort_by_time(list: &mut Vec<TimedRecord<'_>>) -> Result<(), RecordingError>
    ensures refused { IfErr result (λ error. error ≡ RecordingError.OutOfMemory) }
    ensures ordered { OnOk result (IsInOrderOfTime list.old.items list.new.items) }
{
    Ok(list.sort_by_key(|timed| timed.time)?)
}
