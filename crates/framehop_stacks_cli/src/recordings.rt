//! The stacks of recordings.
ghost use Rattle.std.specs.Prelude.{◌≡◌, IfOk};
ghost use Rattle.framehop_stacks_cli.specs.Stacks.{AddsStacks, ended_status};

use crate::events::numbers_of_events;
use crate::folded::merge;
use crate::misuse::misuse_of_kind;
use crate::recording_json::{write_json_of, write_recording_json};
use crate::recording_parts::{RecordingParts, SampleBodies};
use crate::request::{Request, refuse_file, refuse_file_by};
use framehop_cli::{Result, StandardOutput};
use framehop_disk::input::{Kind, announce};
use framehop_disk::messages::Messages;
use framehop_folded::folded::Folded;
use framehop_output::Output;
use framehop_perf_stacks::choice::{Choice, choose};
use framehop_perf_stacks::error::StacksError;
use framehop_perf_stacks::kept::KeptRecords;
use framehop_perf_stacks::program::{Unwound, write_recording_stacks, write_stacks};
use framehop_perf_stacks::recording::Recording;
use framehop_recording::build_ids::read_build_ids;
use framehop_recording::error::RecordingError;
use framehop_recording::events::read_events;
use framehop_recording::header::read_header;
use std::alloc::Global;
use std::io;
use std::io::BufWriter;

/// What came of a recording: its stacks, or why there are none.
type Stacks = std::result::Result<Unwound, StacksError>;

/// Prints a block for each sample of a recording, or adds its folded stacks to those so far, where it can be read in parts. Returns
/// the status, or `None` where nothing is printed: of what is no recording, and of one that is to be read whole.
pub fn print_recording_parts(
    request: Request<'_, '_>,
    path: &str,
    folded: &mut Folded,
) -> Result<Option<u8>> {
    let Ok(Some(parts)) = RecordingParts::open(request.rt, path) else {
        return Ok(None);
    };
    match misuse_of_kind(Kind::Recording, request.options, request.form) {
        Some(misuse) => Ok(Some(refuse_file(request.rt, path, misuse, 2)?)),
        None => print_parts(request, path, &parts, folded),
    }
}

/// Prints the stacks of a recording that is read in parts, or adds them to those so far. Returns the status, or `None` where nothing
/// is printed, since something of it is refused.
fn print_parts(
    request: Request<'_, '_>,
    path: &str,
    parts: &RecordingParts,
    folded: &mut Folded,
) -> Result<Option<u8>> {
    let (rt, asked) = (request.rt, request.asked);
    announce(rt, path, parts.size())?;
    let (frame, header) = parts.frame();
    match numbers_of_events(rt, path, frame, Some(header), asked.events.as_slice())? {
        Some(events) => {
            let choice = asked.choice(events.as_slice());
            print_chosen(request, path, parts, &choice, folded)
        }
        None => Ok(Some(1)),
    }
}

/// Prints the stacks of the samples that are chosen, of a recording that is read in parts.
fn print_chosen(
    request: Request<'_, '_>,
    path: &str,
    parts: &RecordingParts,
    choice: &Choice<'_>,
    folded: &mut Folded,
) -> Result<Option<u8>> {
    let alloc = request.rt.alloc();
    let Some(kept) = kept_records(alloc, parts) else {
        return Ok(None);
    };
    match chosen_recording(alloc, parts, &kept, choice) {
        Some(recording) => Ok(Some(print_read(request, path, parts, &recording, folded)?)),
        None => Ok(None),
    }
}

/// Returns what is kept of the records of a recording, or `None` where something of it is refused.
fn kept_records(alloc: Global, parts: &RecordingParts) -> Option<KeptRecords> {
    let (frame, header) = parts.frame();
    let events = read_events(alloc, frame, header).ok()?;
    parts.read_records(alloc, &events).ok()?
}

/// Returns a recording by what was kept of its records, with the samples that are chosen. `None` where something of it is
/// refused.
fn chosen_recording<'a>(
    alloc: Global,
    parts: &'a RecordingParts,
    kept: &'a KeptRecords,
    choice: &Choice<'_>,
) -> Option<Recording<'a>> {
    let (frame, header) = parts.frame();
    let events = read_events(alloc, frame, header).ok()?;
    let build_ids = read_build_ids(alloc, frame, header).ok()?;
    let records = kept.in_order_of_time(alloc).ok()?;
    let recording = Recording {
        events,
        records,
        build_ids,
        refusal: None,
    };
    choose(alloc, recording, choice).ok()
}

/// Prints the stacks of a recording whose samples are in its file, or adds them to those so far. Returns the status.
fn print_read(
    request: Request<'_, '_>,
    path: &str,
    parts: &RecordingParts,
    recording: &Recording<'_>,
    folded: &mut Folded,
) -> Result<u8> {
    let bodies = parts.bodies();
    let stacks = write_read(request, recording, &bodies)?;
    match bodies.failure() {
        Some(error) => refuse_file(request.rt, path, error, 1),
        None => add_stacks(request.rt, path, stacks, folded),
    }
}

/// Writes the stacks of a recording whose samples are in its file.
fn write_read(
    request: Request<'_, '_>,
    recording: &Recording<'_>,
    bodies: &SampleBodies<'_>,
) -> Result<Stacks> {
    let Request {
        rt,
        sources,
        options,
        ..
    } = request;
    let alloc = rt.alloc();
    let mut out = Output::new(BufWriter::new(alloc, StandardOutput { rt })?);
    let mut err = Output::new(Messages { rt });
    let stacks = if options.json {
        write_recording_json(
            alloc, recording, sources, bodies, options, &mut out, &mut err,
        )
    } else {
        write_recording_stacks(
            alloc, recording, sources, bodies, options, &mut out, &mut err,
        )
    };
    io::Write::flush(&mut out)?;
    Ok(stacks)
}

/// Prints a block for each sample of a recording, by its bytes, or adds its folded stacks to those so far.
pub fn print_recording(
    request: Request<'_, '_>,
    path: &str,
    bytes: &[u8],
    folded: &mut Folded,
) -> Result<u8> {
    let (rt, asked) = (request.rt, request.asked);
    let header = read_header(bytes).ok();
    match numbers_of_events(rt, path, bytes, header.as_ref(), asked.events.as_slice())? {
        Some(events) => {
            let choice = asked.choice(events.as_slice());
            let stacks = write_bytes(request, bytes, &choice)?;
            add_stacks(rt, path, stacks, folded)
        }
        None => Ok(1),
    }
}

/// Writes the stacks of the samples that are chosen, of a recording by its bytes.
fn write_bytes(request: Request<'_, '_>, bytes: &[u8], choice: &Choice<'_>) -> Result<Stacks> {
    let Request {
        rt,
        sources,
        options,
        ..
    } = request;
    let alloc = rt.alloc();
    let mut out = Output::new(BufWriter::new(alloc, StandardOutput { rt })?);
    let mut err = Output::new(Messages { rt });
    let stacks = if options.json {
        write_json_of(alloc, bytes, sources, choice, options, &mut out, &mut err)
    } else {
        write_stacks(alloc, bytes, sources, choice, options, &mut out, &mut err)
    };
    io::Write::flush(&mut out)?;
    Ok(stacks)
}

/// Adds the folded stacks of a recording to those so far, and returns the status for how it ended.
fn add_stacks(rt: &HostRuntime, path: &str, stacks: Stacks, folded: &mut Folded) -> Result<u8>
    ensures { IfOk result (λ status. AddsStacks stacks folded.old folded.new status) }
{
    match stacks {
        Ok(
            Unwound {
                folded: added,
                ended,
            },
        ) => {
            let status = merge(rt, path, added, folded)?;
            if status > 0 {
                return Ok(status);
            }
            status_of(rt, path, ended)
        }
        Err(error) => refuse_file_by(rt, path, error),
    }
}

/// Returns the status for how a recording ended, and says why it gives no more stacks, if so.
fn status_of(
    rt: &HostRuntime,
    path: &str,
    ended: Result<Option<RecordingError>, StacksError>,
) -> Result<u8>
    ensures { IfOk result (λ status. status ≡ ended_status ended) }
{
    match ended {
        Ok(None) => Ok(0),
        Ok(Some(refusal)) => refuse_file_by(rt, path, StacksError::Recording(refusal)),
        Err(error) => refuse_file_by(rt, path, error),
    }
}
