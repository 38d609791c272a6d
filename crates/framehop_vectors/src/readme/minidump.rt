//! The example of a minidump of docs/EXAMPLES.md.
use anyhow::Context;
use framehop::x86_64::UnwindRegsX86_64;
use framehop_dump_files::minidump::error::MinidumpError;
use framehop_dump_files::minidump::exception::{context_of, read_exception};
use framehop_dump_files::minidump::location::read_located;
use framehop_dump_files::minidump::memory::read_memory;
use framehop_dump_files::minidump::registers::x86_64_registers;
use framehop_dump_files::minidump::stream::{Stream, read_streams};
use framehop_dump_files::minidump::thread::read_threads;
use framehop_memory::memory::ProcessMemory;
use std::alloc::Global;

/// The threads and the exception of the minidump that LLDB wrote for the program of `checks/stacks/crash.c`, with their registers up to
/// those of vectors, and a word of its memory.
static MINIDUMP: [u8; 876] = *b"MDMP\x93\xa7\0\0\x03\0\0\0\x20\0\0\0\0\0\0\0\xc0\xa7\x06\x6b\0\0\
    \0\0\0\0\0\0\x03\0\0\0\x64\0\0\0\x44\0\0\0\x06\0\0\0\xa8\0\0\0\xa8\0\0\0\x05\0\0\0\x14\0\0\0\
    \x50\x03\0\0\x02\0\0\0\xe2\x7a\0\0\0\0\0\0\0\0\0\0\0\0\0\0\0\0\0\0\0\0\0\0\x08\x34\x40\0\0\0\
    \0\0\xf8\x0b\0\0\x47\x2a\0\0\0\x01\0\0\x50\x01\0\0\xdf\x7a\0\0\0\0\0\0\0\0\0\0\0\0\0\0\0\0\0\
    \0\0\0\0\0\x58\xed\xff\xff\xff\x7f\0\0\xa8\x02\0\0\x9f\x27\0\0\0\x01\0\0\x50\x02\0\0\xdf\x7a\
    \0\0\0\0\0\0\x0b\0\0\0\0\0\0\0\0\0\0\0\0\0\0\0\x4e\x10\x40\0\0\0\0\0\0\0\0\0\0\0\0\0\0\0\0\0\
    \0\0\0\0\0\0\0\0\0\0\0\0\0\0\0\0\0\0\0\0\0\0\0\0\0\0\0\0\0\0\0\0\0\0\0\0\0\0\0\0\0\0\0\0\0\0\
    \0\0\0\0\0\0\0\0\0\0\0\0\0\0\0\0\0\0\0\0\0\0\0\0\0\0\0\0\0\0\0\0\0\0\0\0\0\0\0\0\0\0\0\0\0\0\
    \0\0\0\0\0\0\0\0\0\0\0\0\0\0\0\0\0\0\0\0\0\0\0\0\0\x01\0\0\x50\x02\0\0\0\0\0\0\0\0\0\0\0\0\0\
    \0\0\0\0\0\0\0\0\0\0\0\0\0\0\0\0\0\0\0\0\0\0\0\0\0\0\0\0\0\0\0\0\0\0\0\0\0\x07\0\x10\0\0\0\0\
    \0\xff\xff\xff\xff\0\0\xff\xff\xff\xff\xff\xff\xff\xff\xff\xff\0\0\0\0\0\0\0\0\0\0\0\0\0\0\0\
    \0\0\0\0\0\0\0\0\0\0\0\0\0\0\0\0\0\0\0\0\0\0\0\0\0\0\0\0\0\0\0\0\0\xfe\xfd\xff\xff\xff\xff\
    \xff\xff\x88\x10\x40\0\0\0\0\0\0\0\0\0\0\0\0\0\0\0\0\0\0\0\0\0\x88\x34\x40\0\0\0\0\0\0\0\0\0\
    \0\0\0\0\0\0\0\0\0\0\0\0\0\0\0\0\0\0\0\0\x22\0\0\0\0\0\0\0\0\0\0\0\0\0\0\0\0\0\0\0\0\0\0\0\
    \x46\x02\0\0\0\0\0\0\0\0\0\0\0\0\0\0\0\0\0\0\0\0\0\0\0\0\0\0\0\0\0\0\0\0\0\0\0\0\0\0\x88\x10\
    \x40\0\0\0\0\0\0\0\0\0\0\0\0\0\0\0\0\0\0\0\0\0\0\0\0\0\0\0\0\0\0\0\0\0\0\0\0\0\0\0\0\0\0\0\0\
    \0\0\0\0\0\0\0\0\0\x07\0\x10\0\0\0\0\0\xff\xff\xff\xff\0\0\xff\xff\xff\xff\xff\xff\xff\xff\
    \xff\xff\0\0\0\0\0\0\0\0\0\0\0\0\0\0\0\0\0\0\0\0\0\0\0\0\0\0\0\0\0\0\0\0\0\0\0\0\0\0\0\0\0\0\
    \0\0\0\0\0\0\xa1\0\0\0\0\0\0\0\xc3\0\0\0\0\0\0\0\xd4\0\0\0\0\0\0\0\xb2\0\0\0\0\0\0\0\xd8\xed\
    \xff\xff\xff\x7f\0\0\xb6\0\0\0\0\0\0\0\xe5\0\0\0\0\0\0\0\x10\0\0\0\0\0\0\0\x81\x80\0\0\0\0\0\
    \0\x91\x90\0\0\0\0\0\0\xa1\xa0\0\0\0\0\0\0\xb1\xb0\0\0\0\0\0\0\xc1\xc0\0\0\0\0\0\0\xd1\xd0\0\
    \0\0\0\0\0\xe1\xe0\0\0\0\0\0\0\xf1\xf0\0\0\0\0\0\0\x4e\x10\x40\0\0\0\0\0\x01\0\0\0\xd8\xed\
    \xff\xff\xff\x7f\0\0\x08\0\0\0\x64\x03\0\0\x6a\x10\x40\0\0\0\0\0";

/// The registers of a thread of a minidump. The thread that crashed has those of the exception.
fn registers_of_thread(
    alloc: Global,
    file: &[u8],
    index: usize,
) -> Result<UnwindRegsX86_64, anyhow::Error> {
    let streams = read_streams(alloc, file)?;
    let threads = read_threads(alloc, file, streams.as_slice())?;
    let exception = read_exception(file, streams.as_slice())?;
    let thread = threads.get(index).copied().context("no such thread")?;
    let context = read_located(file, context_of(thread, exception))?;
    x86_64_registers(context).context("no registers")
}

/// The instruction pointer, the stack pointer and the frame pointer of a thread.
fn registers(alloc: Global, index: usize) -> Option<(u64, u64, u64)> {
    match registers_of_thread(alloc, &MINIDUMP, index) {
        Ok(regs) => Some((regs.ip(), regs.sp(), regs.bp())),
        Err(_) => None,
    }
}

/// What LLDB prints by `register read`: of the thread that waits, and of the one that crashed.
#[test]
fn has_the_registers_of_threads(rt: HostRuntime) {
    assert!(rt; registers(rt.alloc(), 0) == Some((0x401088, 0x403488, 0)));
    assert!(rt; registers(rt.alloc(), 1) == Some((0x40104e, 0x7fffffffedd8, 0xb6)));
    assert!(rt; registers(rt.alloc(), 2).is_none());
}

/// What a callback reads of the stack, by the streams of the minidump.
fn word_by(
    alloc: Global,
    streams: &[Stream],
    address: u64,
) -> Result<Result<u64, ()>, MinidumpError> {
    let ranges = read_memory(alloc, &MINIDUMP, streams)?;
    let memory = ProcessMemory::new(alloc, &MINIDUMP, ranges)?;
    let read_stack = |address: u64| memory.word_at(address).ok_or(());
    Ok(read_stack(address))
}

/// What it reads of the stack.
fn word(alloc: Global, address: u64) -> Result<Result<u64, ()>, MinidumpError> {
    let streams = read_streams(alloc, &MINIDUMP)?;
    word_by(alloc, streams.as_slice(), address)
}

/// The return address of the thread that crashed, as LLDB prints it by `thread backtrace all`.
#[test]
fn reads_the_stack(rt: HostRuntime) {
    assert!(rt; word(rt.alloc(), 0x7fffffffedd8) == Ok(Ok(0x40106a)));
    assert!(rt; word(rt.alloc(), 0x7fffffffede0) == Ok(Err(())));
}
