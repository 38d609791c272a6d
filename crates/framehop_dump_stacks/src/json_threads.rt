//! Threads and their stacks as JSON.
ghost use Rattle.std.specs.Prelude.{◌≡◌, map, IfOk};
ghost use Rattle.serde_json.specs.View.{view};
ghost use Rattle.framehop_processes.specs.Mappings.{IsInOrder};
ghost use Rattle.framehop_frames.specs.Stack.{shown_frame, option_stack_view};
ghost use Rattle.framehop_dumps.specs.Dump.{thread_view};
ghost use Rattle.framehop_dump_stacks.specs.JsonThreads.{frames_of, end_of, end_address_of, thread_data};

use framehop_dumps::dump::Thread;
use framehop_frames::json_frames::frames_value;
use framehop_frames::json_values::{address_value, name_value};
use framehop_frames::line::{address_of_end, end_name};
use framehop_frames::stack::{Stack, StackFrame};
use framehop_processes::Mapping;
use framehop_processes::files::Files;
use serde_json::{Value, json};
use std::alloc::{AllocError, Global};

/// Returns a thread with its stack.
pub(crate) fn thread_value<R: Copy>(
    alloc: Global,
    files: &Files<'_>,
    mappings: &[Mapping],
    thread: Thread<'_>,
    stack: &Option<Stack<R>>,
) -> Result<Value, AllocError>
    requires { IsInOrder 0 mappings.now }
    ensures { IfOk result (λ value. view value ≡ thread_data files.now mappings.now (thread_view thread.entry) (option_stack_view stack.now)) }
{
    let name = name_value(alloc, thread.name)?;
    let frames = frames_value(alloc, files, mappings, frames_of(stack))?;
    let end_address = address_value(alloc, end_address(stack))?;
    json!(in alloc; {
        "tid": thread.tid,
        "name": name,
        "crashed": thread.cause.is_some(),
        "frames": frames,
        "end": end_of(stack),
        "end_address": end_address
    })
}

/// Returns the frames of a stack, the innermost first: none of a thread without registers.
fn frames_of<R: Copy>(stack: &Option<Stack<R>>) -> &[StackFrame<R>]
    ensures { map shown_frame result.now ≡ frames_of (option_stack_view stack.entry.now) }
{
    match stack {
        Some(stack) => stack.frames.as_slice(),
        None => &[],
    }
}

/// Returns what the end of a walk is called.
fn end_of<R: Copy>(stack: &Option<Stack<R>>) -> &'static str
    ensures { result.now ≡ end_of (option_stack_view stack.now) }
{
    match stack {
        Some(stack) => end_name(stack.end),
        None => "no-registers",
    }
}

/// Returns the address (AVMA) at which a walk ended, if its end has one.
fn end_address<R: Copy>(stack: &Option<Stack<R>>) -> Option<u64>
    ensures { result ≡ end_address_of (option_stack_view stack.now) }
{
    match stack {
        Some(stack) => address_of_end(stack.end),
        None => None,
    }
}
