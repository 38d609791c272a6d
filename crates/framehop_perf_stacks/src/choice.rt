//! Which samples of a recording are counted.
ghost use Rattle.std.specs.Prelude.{ℕ, ◌≡◌, ◌==◌, ◌++◌, ◌∷◌, [], Ok, true, nat_eq, codes, length, map, IfOk, IfErr, OnOk, if◌then◌else◌};
ghost use Rattle.std.specs.Cmp.Lexicographic.{pointwise};
ghost use Rattle.std.specs.List.{list_any};
ghost use Rattle.framehop_recording.specs.Attributes.{attribute_view};
ghost use Rattle.framehop_recording.specs.Records.{record_view};
ghost use Rattle.framehop_recording.specs.Sample.{sample_view};
ghost use Rattle.framehop_perf_stacks.specs.Choice.{is_wanted, is_number_wanted, is_from, is_until, is_within, is_of_thread, is_sample_chosen, is_record_chosen, chosen_among, IsChosenOf, is_of_all};
ghost use Rattle.framehop_perf_stacks.specs.Names.{named_in, named_after};
ghost use Rattle.framehop_perf_stacks.specs.Recording.{sample_in, records_in};
ghost use Rattle.framehop_perf_stacks.specs.declared.error.StacksError.TheVariants.{OutOfMemory};

use crate::error::StacksError;
use crate::names::Names;
use crate::recording::{Recording, sample_of};
use crate::window::Window;
use framehop_recording::events::Events;
use framehop_recording::kind::SAMPLE;
use framehop_recording::order::TimedRecord;
use framehop_recording::records::Record;
use framehop_recording::sample::Sample;
use std::alloc::Global;

/// Which samples are counted: those that each field asks for. An empty list asks for all.
#[derive(Clone, Copy, Drop)]
pub struct Choice<'a> {
    /// Samples of threads that have one of these names at the time.
    pub commands: &'a [&'a [u8]],
    /// Samples of these processes.
    pub processes: &'a [u32],
    /// Samples of these threads.
    pub threads: &'a [u32],
    /// Samples of these events, by their numbers from 0 on.
    pub events: &'a [usize],
    /// Samples of these times, and those without a time.
    pub window: Window,
}

impl Choice<'_> {
    /// Returns whether all samples are chosen.
    pub(crate) fn is_of_all(&self) -> bool
        ensures { result ≡ is_of_all self.now }
    {
        self.commands.is_empty()
            && self.processes.is_empty()
            && self.threads.is_empty()
            && self.events.is_empty()
            && self.window.first.is_none()
            && self.window.last.is_none()
    }

    /// Returns whether a record is chosen, by the names of threads at its time: each that is no sample, and each
    /// sample that is asked for.
    #[tactic(auto, unfolding(crate::specs::Choice::is_record_chosen))]
    fn has_record(&self, events: &Events<'_>, names: &Names, record: Record<'_>) -> bool
        ensures { result ≡ is_record_chosen self.now (map attribute_view events.now.attributes.items) (named_in names.now) (record_view «record».entry) }
    {
        if record.kind != SAMPLE {
            return true;
        }
        self.has_sample(events, names, record)
    }

    /// Returns whether the sample of a record is chosen.
    fn has_sample(&self, events: &Events<'_>, names: &Names, record: Record<'_>) -> bool
        ensures { result ≡ is_sample_chosen self.now (map attribute_view events.now.attributes.items) (named_in names.now) (record_view «record».entry) }
    {
        let event = events.event_of(record);
        let time = events.time_of(record);
        is_event_wanted(event, self.events)
            && is_within(self.window, time)
            && self.has_thread(events, names, record)
    }

    /// Returns whether the thread of a sample is chosen.
    fn has_thread(&self, events: &Events<'_>, names: &Names, record: Record<'_>) -> bool
        ensures { result ≡ is_of_thread self.now (named_in names.now) (sample_in (map attribute_view events.now.attributes.items) (record_view «record».entry)) }
    {
        match sample_of(events, record) {
            Ok((sample, _)) => self.has_thread_of(names, &sample),
            Err(_) => {
                self.processes.is_empty() && self.threads.is_empty() && self.commands.is_empty()
            }
        }
    }

    /// Returns whether the thread of a sample that can be read is chosen.
    fn has_thread_of(&self, names: &Names, sample: &Sample<'_>) -> bool
        ensures { (mask : ℕ) → result ≡ is_of_thread self.now (named_in names.now) (Ok (sample_view sample.now, mask)) }
    {
        is_number_wanted(sample.pid, self.processes)
            && is_number_wanted(sample.tid, self.threads)
            && is_name_wanted(names.get(sample.tid), self.commands)
    }
}

/// Returns whether a number is one of these, of which none stand for all.
fn is_number_wanted(number: u32, numbers: &[u32]) -> bool
    ensures { result ≡ is_wanted (λ n. n == number) numbers.now }
{
    numbers.is_empty() || has_number(number, numbers)
}

/// Returns whether a number is one of these.
fn has_number(number: u32, numbers: &[u32]) -> bool
    ensures { result ≡ list_any (λ n. n == number) numbers.now }
{
    numbers.iter().any(|one| *one == number)
}

/// Returns whether a name is one of these, of which none stand for all.
fn is_name_wanted(name: &[u8], names: &[&[u8]]) -> bool
    ensures { result ≡ is_wanted (λ one. pointwise nat_eq one.now name.now) names.now }
{
    names.is_empty() || has_name(name, names)
}

/// Returns whether a name is one of these.
fn has_name(name: &[u8], names: &[&[u8]]) -> bool
    ensures { result ≡ list_any (λ one. pointwise nat_eq one.now name.now) names.now }
{
    names.iter().any(|one| is_same(one, name))
}

/// Returns whether two names are the same.
fn is_same(one: &[u8], other: &[u8]) -> bool
    ensures { result ≡ pointwise nat_eq one.now other.now }
{
    one == other
}

/// Returns whether an event, if it is known, is one of these, of which none stand for all.
fn is_event_wanted(event: Option<usize>, events: &[usize]) -> bool
    ensures { result ≡ is_number_wanted event events.now }
{
    match event {
        Some(event) => events.is_empty() || has_event(event, events),
        None => events.is_empty(),
    }
}

/// Returns whether an event is one of these.
fn has_event(event: usize, events: &[usize]) -> bool
    ensures { result ≡ list_any (λ n. n == event) events.now }
{
    events.iter().any(|one| *one == event)
}

/// Returns whether a time lies in a window. One that is not known does.
fn is_within(window: Window, time: Option<u64>) -> bool
    ensures { result ≡ is_within window time }
{
    match time {
        Some(time) => is_from(window.first, time) && is_until(window.last, time),
        None => true,
    }
}

/// Returns whether a time lies from a time on, where one is given.
fn is_from(first: Option<u64>, time: u64) -> bool
    ensures { result ≡ is_from first time }
{
    match first {
        Some(first) => first <= time,
        None => true,
    }
}

/// Returns whether a time lies not after a time, where one is given.
fn is_until(last: Option<u64>, time: u64) -> bool
    ensures { result ≡ is_until last time }
{
    match last {
        Some(last) => time <= last,
        None => true,
    }
}

/// Returns a recording with only the samples that are chosen. All its other records stay, so that processes and names are
/// as before.
pub fn choose<'a>(
    alloc: Global,
    recording: Recording<'a>,
    choice: &Choice<'_>,
) -> Result<Recording<'a>, StacksError>
    ensures chosen { IfOk result (λ chosen. IsChosenOf choice.now recording.entry chosen) }
    ensures all { is_of_all choice.now ≡ true → IfOk result (λ chosen. chosen.records.items ≡ recording.entry.records.items) }
    ensures refused { IfErr result (λ error. error ≡ OutOfMemory) }
{
    if choice.is_of_all() {
        return Ok(recording);
    }
    let Recording {
        events,
        records,
        build_ids,
        refusal,
    } = recording;
    let records = chosen_records(alloc, &events, records.as_slice(), choice)?;
    Ok(Recording {
        events,
        records,
        build_ids,
        refusal,
    })
}

/// Returns the chosen ones of records, in their order.
fn chosen_records<'a>(
    alloc: Global,
    events: &Events<'_>,
    records: &[TimedRecord<'a>],
    choice: &Choice<'_>,
) -> Result<Vec<TimedRecord<'a>>, StacksError>
    ensures chosen { IfOk result (λ chosen. records_in chosen.items
        ≡ chosen_among choice.now (map attribute_view events.now.attributes.items) (λ tid. codes "[unknown]") (records_in records.entry.now)) }
    ensures refused { IfErr result (λ error. error ≡ OutOfMemory) }
{
    let mut names = Names::new(alloc);
    let mut chosen = Vec::new(alloc);
    for index in 0..records.len() {
        let timed = records[index];
        let is_chosen = choice.has_record(events, &names, timed.record);
        push_if(&mut chosen, timed, is_chosen)?;
        note_names(alloc, &mut names, timed.record)?;
    }
    Ok(chosen)
}

/// Appends a record, if it is chosen.
fn push_if<'a>(
    chosen: &mut Vec<TimedRecord<'a>>,
    timed: TimedRecord<'a>,
    is_chosen: bool,
) -> Result<(), StacksError>
    ensures pushed { OnOk result (chosen.new.items ≡ chosen.old.items ++ (if is_chosen then timed.entry ∷ [] else [])) }
    ensures refused { IfErr result (λ error. error ≡ OutOfMemory) }
{
    if is_chosen {
        chosen.push(timed)?;
    }
    Ok(())
}

/// Takes note of what a record says of names, if it can be read.
fn note_names(alloc: Global, names: &mut Names, record: Record<'_>) -> Result<(), StacksError>
    ensures named { OnOk result ((tid : ℕ) → named_in names.new tid ≡ named_after (record_view «record».entry) (named_in names.old) tid) }
    ensures refused { IfErr result (λ error. error ≡ OutOfMemory) }
{
    match names.note(alloc, record) {
        Ok(()) | Err(StacksError::Recording(_)) => Ok(()),
        Err(error) => Err(error),
    }
}
