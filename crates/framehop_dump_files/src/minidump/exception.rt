//! Why the minidump was made, and the registers of the thread that crashed.
ghost use Rattle.std.specs.Prelude.{◌≡◌, ◌≤◌, length};
ghost use Rattle.framehop_dump_files.specs.Minidump.Exception.{exception_in, exception_of, context_of};

use crate::minidump::error::MinidumpError;
use crate::minidump::location::{Location, location_at, read_located};
use crate::minidump::stream::{Stream, first_stream};
use crate::minidump::thread::Thread;
use framehop_bytes::bytes::{u32_at, u64_at};

/// `ExceptionStream`.
const EXCEPTION_STREAM: u32 = 6;

/// The size of the stream, in bytes.
const EXCEPTION_SIZE: usize = 168;

/// Why a minidump was made: `MINIDUMP_EXCEPTION_STREAM`.
#[derive(Clone, Copy)]
pub struct Exception {
    /// The thread that crashed: `ThreadId`.
    pub tid: u32,
    /// The exception of Windows, or the signal of Linux: `ExceptionCode`.
    pub code: u32,
    /// Of a signal of Linux why it was sent, `si_code`, a signed number of 32 bits, by Breakpad's writer; 0 by LLDB's:
    /// `ExceptionFlags`.
    pub flags: u32,
    /// The address (AVMA) of the instruction that crashed, or on Linux that which it used, by Breakpad's
    /// writer: `ExceptionAddress`.
    pub address: u64,
    /// How many of its parameters are told: `NumberParameters`.
    pub parameter_count: u32,
    /// The first of them, of an access to memory which access it was: `ExceptionInformation[0]`.
    pub first_parameter: u64,
    /// The second of them, of an access to memory the address (AVMA): `ExceptionInformation[1]`.
    pub second_parameter: u64,
    /// The registers of the thread when it crashed: `ThreadContext`.
    pub context: Location,
}

/// Reads why the minidump was made, from the first stream of type `ExceptionStream`, or `None` where there
/// is no such stream.
///
/// # Errors
///
/// `Eof` where the file ends before the stream does, and `ShortStream` where it ends before its fields do.
///
/// Source: `minidumpapiset.h`, `MINIDUMP_EXCEPTION_STREAM` and `MINIDUMP_EXCEPTION`.
#[tactic(auto, unfolding(crate::specs::Minidump::Exception::exception_of))]
pub fn read_exception(file: &[u8], streams: &[Stream]) -> Result<Option<Exception>, MinidumpError>
    ensures { result ≡ exception_of file.now streams.now }
{
    let Some(stream) = first_stream(streams, EXCEPTION_STREAM) else {
        return Ok(None);
    };
    let fields = read_located(file, stream.location)?;
    if fields.len() < EXCEPTION_SIZE {
        return Err(MinidumpError::ShortStream {
            offset: u64::from(stream.location.offset),
        });
    }
    Ok(Some(exception_in(fields)))
}

/// Returns the exception of a stream.
fn exception_in(fields: &[u8]) -> Exception
    requires { 168 ≤ length fields.now }
    ensures { result ≡ exception_in fields.now }
{
    Exception {
        tid: u32_at(fields, 0),
        code: u32_at(fields, 8),
        flags: u32_at(fields, 12),
        address: u64_at(fields, 24),
        parameter_count: u32_at(fields, 32),
        first_parameter: u64_at(fields, 40),
        second_parameter: u64_at(fields, 48),
        context: location_at(fields, 160),
    }
}

/// Returns where the registers of a thread are: those of the exception, if it is of this thread and has some,
/// or else the thread's own. The thread's own may be those with which it wrote the minidump.
///
/// Source: `minidumpapiset.h`, `MINIDUMP_EXCEPTION_STREAM`, `ThreadContext`.
pub fn context_of(thread: Thread, exception: Option<Exception>) -> Location
    ensures { result ≡ context_of thread exception }
{
    match exception {
        Some(exception) if exception.tid == thread.tid && exception.context.size != 0 => {
            exception.context
        }
        _ => thread.context,
    }
}
