//! What ended a process, as JSON.
ghost use Rattle.std.specs.Prelude.{◌≡◌, map, IfOk};
ghost use Rattle.serde_json.specs.View.{view};
ghost use Rattle.framehop_dump_stacks.specs.JsonCrash.{number_of, signal_address, exception_address, fault_address, cause_data, crash_data};
ghost use Rattle.framehop_frames.specs.JsonValues.{or_null};
ghost use Rattle.framehop_dumps.specs.Dump.{thread_view};

use crate::signal::is_fault;
use crate::text::reason_text;
use framehop_dumps::dump::{Cause, Exception, Signal, Thread};
use framehop_frames::json_values::address_value;
use serde_json::{Value, json};
use std::alloc::{AllocError, Global};

/// Returns what ended a process, by its threads: null where none of them did.
pub(crate) fn crash_value(alloc: Global, threads: &[Thread<'_>]) -> Result<Value, AllocError>
    ensures { IfOk result (λ value. view value ≡ crash_data (map thread_view threads.now)) }
{
    match threads.first() {
        Some(thread) => thread_crash(alloc, thread.tid, thread.cause),
        None => Ok(Value::Null),
    }
}

/// Returns how the thread of a number ended its process: null where it did not.
fn thread_crash(alloc: Global, tid: u32, cause: Option<Cause>) -> Result<Value, AllocError>
    ensures { IfOk result (λ value. view value ≡ or_null (cause_data tid) cause) }
{
    let Some(cause) = cause else {
        return Ok(Value::Null);
    };
    let reason = reason_text(alloc, cause)?;
    let address = address_value(alloc, fault_address(cause))?;
    json!(in alloc; {
        "tid": tid,
        "reason": reason.as_str(),
        "number": number_of(cause),
        "address": address
    })
}

/// Returns the number of a signal, or the code of an exception.
fn number_of(cause: Cause) -> u32
    ensures { result ≡ number_of cause }
{
    match cause {
        Cause::Signal(signal) => signal.number,
        Cause::Exception(exception) => exception.code,
        Cause::Other(code) => code,
    }
}

/// Returns the address that a fault was at, if it is told.
fn fault_address(cause: Cause) -> Option<u64>
    ensures { result ≡ fault_address cause }
{
    match cause {
        Cause::Signal(signal) => signal_address(signal),
        Cause::Exception(exception) => Some(exception_address(exception)),
        Cause::Other(_) => None,
    }
}

/// Returns the address that the fault of a signal was at, if it is told.
fn signal_address(signal: Signal) -> Option<u64>
    ensures { result ≡ signal_address signal.number signal.sent }
{
    match signal.sent {
        Some(sent) if is_fault(signal.number, sent.code) => Some(sent.fields),
        _ => None,
    }
}

/// Returns the address that an access to memory failed at, or else that of the instruction.
fn exception_address(exception: Exception) -> u64
    ensures { result ≡ exception_address exception.address exception.access }
{
    match exception.access {
        Some(access) => access.address,
        None => exception.address,
    }
}
