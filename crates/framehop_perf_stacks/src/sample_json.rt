//! A sample and its stack as JSON.
ghost use Rattle.std.specs.Prelude.{ℕ, ◌≡◌, false, List, IfOk};
ghost use Rattle.serde_json.specs.Data.{object, Members};
ghost use Rattle.serde_json.specs.View.{view};
ghost use Rattle.serde_json.specs.Written.{has_float};
ghost use Rattle.framehop_frames.specs.JsonValues.{number_data, or_null};
ghost use Rattle.framehop_perf_stacks.specs.Json.{told_if, time_if, thread_members, stack_members, stack_line, rest_text, counted_line};
ghost use Rattle.framehop_perf_stacks.specs.Samples.{end_of, stack_of, name_of_end, address_of_end, json_text, thread_told};
ghost use Rattle.framehop_processes.specs.Mappings.{IsInOrder};

use crate::run::Options;
use crate::sample_stack::{EndedStack, SampleAt, StackEnd, address_of_end, name_of_end};
use framehop_frames::json_frames::frames_value;
use framehop_frames::json_values::{address_value, name_text, number_value};
use framehop_recording::sample::Sample;
use serde_json::{Value, json};
use std::alloc::{AllocError, Global};

/// What is told of the thread of a sample besides its name.
#[derive(Clone, Copy, Drop)]
struct ToldThread {
    pid: Option<u32>,
    tid: Option<u32>,
    /// In nanoseconds.
    time: Option<u64>,
}

/// Returns the JSON of a sample's stack, but for its count: what is after a comma.
pub(crate) fn stack_json<R: Copy>(
    alloc: Global,
    at: SampleAt<'_, '_>,
    stack: EndedStack<'_, R>,
) -> Result<Vec<u8>, AllocError>
    requires { IsInOrder 0 at.mappings.now }
    ensures { IfOk result (λ text. text.items ≡ json_text at.entry.files.now at.entry.mappings.now (stack_of stack.entry)
        (thread_told at.entry.options at.entry.name.now at.entry.sample)) }
{
    let frames = frames_value(alloc, at.files, at.mappings, stack.frames)?;
    rest_text(alloc, at, frames, stack.end)
}

/// Returns the text of a sample's JSON, by its frames, but for its count: what is after a comma.
fn rest_text(
    alloc: Global,
    at: SampleAt<'_, '_>,
    frames: Value,
    end: StackEnd,
) -> Result<Vec<u8>, AllocError>
    ensures { has_float (view frames) ≡ false → IfOk result (λ text. text.items
        ≡ rest_text (stack_members (name_of_end (end_of end)) (address_of_end (end_of end)) (view frames)
        (thread_told at.entry.options at.entry.name.now at.entry.sample))) }
{
    let value = stack_value(alloc, at, frames, end)?;
    let text = value.to_string(alloc)?;
    let mut rest = Vec::new(alloc);
    if let Some((_brace, members)) = text.as_bytes().split_first() {
        rest.push(b',')?;
        rest.extend_from_slice(members)?;
    }
    Ok(rest)
}

/// Returns the JSON of a sample, by its frames, but for its count.
fn stack_value(
    alloc: Global,
    at: SampleAt<'_, '_>,
    frames: Value,
    end: StackEnd,
) -> Result<Value, AllocError>
    ensures { IfOk result (λ value. view value
        ≡ object (stack_members (name_of_end (end_of end)) (address_of_end (end_of end)) (view frames)
        (thread_told at.entry.options at.entry.name.now at.entry.sample))) }
{
    let name = name_text(alloc, at.name)?;
    let thread = told_thread(at.sample, at.options);
    let pid = number_value(thread.pid);
    let tid = number_value(thread.tid);
    let time = time_value(thread.time);
    let end_address = address_value(alloc, address_of_end(end))?;
    let end = name_of_end(end);
    json!(in alloc; {
        "name": name.as_str(),
        "pid": pid,
        "tid": tid,
        "time": time,
        "frames": frames,
        "end": end,
        "end_address": end_address
    })
}

/// Returns what is told of the thread of a sample besides its name: nothing where the sample can't be read.
fn told_thread(sample: Option<Sample<'_>>, options: Options<'_>) -> ToldThread
    ensures { (name : List ℕ) → thread_members name result.pid result.tid result.time ≡ thread_told options.entry name sample.entry }
{
    let Some(sample) = sample else {
        return ToldThread {
            pid: None,
            tid: None,
            time: None,
        };
    };
    let is_told = options.frames || options.by_thread;
    ToldThread {
        pid: told_if(is_told, sample.pid),
        tid: told_if(is_told, sample.tid),
        time: time_if(options.frames, sample.time),
    }
}

/// Returns a number where it is told.
fn told_if(is_told: bool, number: u32) -> Option<u32>
    ensures { result ≡ told_if is_told number }
{
    if is_told { Some(number) } else { None }
}

/// Returns the time of a sample where it is told.
fn time_if(is_told: bool, time: Option<u64>) -> Option<u64>
    ensures { result ≡ time_if is_told time }
{
    if is_told { time } else { None }
}

/// Returns a time in nanoseconds, or null where there is none.
fn time_value(time: Option<u64>) -> Value
    ensures { view result ≡ or_null number_data time }
{
    match time {
        Some(time) => Value::from(time),
        None => Value::Null,
    }
}

/// Returns the line of a stack that was counted so often, by the text of its JSON but for the count.
pub(crate) fn counted_line(alloc: Global, count: u64, text: &[u8]) -> Result<Vec<u8>, AllocError>
    ensures line { IfOk result (λ line. line.items ≡ counted_line count text.now) }
    ensures json { (members : Members) → text.now ≡ rest_text members → IfOk result (λ line. line.items ≡ stack_line count members) }
{
    let front = format!(in alloc; "{{\"count\":{count}")?;
    let mut line = front.into_bytes();
    line.extend_from_slice(text)?;
    line.push(b'\n')?;
    Ok(line)
}
