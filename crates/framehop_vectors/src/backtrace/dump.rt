//! A dumped process: its memory, and where its code is.
ghost use Rattle.std.specs.Prelude.{◌≡◌};

use framehop_backtrace::memory::CodeMemory;
use framehop_backtrace::signal::is_trampoline;
use framehop_bytes::bytes::front;
use framehop_callers::memory::WordMemory;
use framehop_code::action::Instruction;
use framehop_code::x86_64::action::action_at;
use framehop_memory::memory::{MemoryRange, ProcessMemory};
use std::alloc::{AllocError, Global};

/// How many bytes an instruction has at most.
const MOST_BYTES: usize = 15;

/// The memory of a process, whose code is from one address (AVMA) on, up to another, and in which one function is known.
#[derive(Drop)]
pub(crate) struct Dump<'a> {
    pub(crate) memory: ProcessMemory<'a>,
    pub(crate) code_start: u64,
    pub(crate) code_end: u64,
    pub(crate) function_start: Option<u64>,
    /// Where the process begins.
    pub(crate) entry: u64,
}

impl<'a> WordMemory for Dump<'a> {
    ghost use Rattle.framehop_memory.specs.Memory.{memory_view, word_of};

    ghost memory = { λ dump. word_of (memory_view dump.memory) };

    fn word(&self, address: u64) -> Option<u64> {
        self.memory.word_at(address)
    }
}

impl<'a> CodeMemory for Dump<'a> {
    ghost use Rattle.std.specs.Prelude.{nat_le, nat_lt, nat_eq, ◌&&◌, None, [], take, unwrap_or, if◌then◌else◌};
    ghost use Rattle.framehop_memory.specs.Memory.{memory_view, bytes_of, bytes_after};
    ghost use Rattle.framehop_backtrace.specs.Signal.{is_trampoline};
    ghost use Rattle.framehop_backtrace.specs.Call.{passes};

    ghost code = { λ dump. record {
      bytes = bytes_of (memory_view dump.memory);
      instruction = λ address. if nat_le dump.code_start address && nat_lt address dump.code_end
          then take 15 (unwrap_or (bytes_after (memory_view dump.memory) address) []) else [];
      constant = λ address. None;
      is_executable = λ address. nat_le dump.code_start address && nat_lt address dump.code_end;
      is_trampoline = λ address. passes is_trampoline (bytes_after (memory_view dump.memory) address);
      start_of = λ address. dump.function_start;
      is_entry = λ address. nat_eq address dump.entry;
    } };

    fn bytes_at(&self, address: u64, size: u64) -> Option<&[u8]> {
        self.memory.bytes_at(address, size)
    }

    fn code_at(&self, address: u64) -> &[u8] {
        match self.memory.bytes_from(address) {
            Some(code) if self.is_executable(address) => front(code, MOST_BYTES),
            _ => &[],
        }
    }

    fn constant_at(&self, _address: u64) -> Option<u64> {
        None
    }

    fn is_executable(&self, address: u64) -> bool {
        self.code_start <= address && address < self.code_end
    }

    fn is_trampoline(&self, address: u64) -> bool {
        match self.memory.bytes_from(address) {
            Some(code) => is_trampoline(code),
            None => false,
        }
    }

    fn function_start(&self, _address: u64) -> Option<u64> {
        self.function_start
    }

    fn is_at_entry(&self, address: u64) -> bool {
        address == self.entry
    }

    fn instruction_of(&self, bytes: &[u8]) -> Option<Instruction> {
        action_at(bytes, 0)
    }
}

/// Where the code and the stack begin, and the size of the code.
pub(crate) const CODE: u64 = 0x401000;

pub(crate) const CODE_SIZE: u64 = 0x200;

pub(crate) const STACK: u64 = 0x7000;

/// The size of a file of code and stack.
pub(crate) const FILE_SIZE: usize = 0xa00;

/// Returns the process that has the bytes of a file from two addresses on: code, so many bytes, and the stack.
pub(crate) fn dump_of(alloc: Global, file: &[u8], code_size: u64) -> Result<Dump<'_>, AllocError> {
    let code = MemoryRange {
        start: CODE,
        size: code_size,
        offset: 0,
    };
    let stack = MemoryRange {
        start: STACK,
        size: (file.len() as u64).saturating_sub(code_size),
        offset: code_size,
    };
    let ranges = Vec::from_slice(alloc, &[code, stack])?;
    Ok(Dump {
        memory: ProcessMemory::new(alloc, file, ranges)?,
        code_start: CODE,
        code_end: CODE.saturating_add(code_size),
        function_start: None,
        entry: 0,
    })
}

/// Returns code and stack that have bytes by their offsets and words by their addresses, and are else 0.
pub(crate) fn file_of(code: &[(usize, &[u8])], words: &[(u64, u64)]) -> [u8; FILE_SIZE] {
    let mut file = [0; FILE_SIZE];
    for (offset, bytes) in code {
        put(&mut file, *offset, bytes);
    }
    for (address, word) in words {
        let offset = address.saturating_sub(STACK).saturating_add(CODE_SIZE);
        put(&mut file, offset as usize, &word.to_le_bytes());
    }
    file
}

/// Writes bytes at an offset, if they fit.
fn put(file: &mut [u8], offset: usize, bytes: &[u8]) {
    let end = offset.saturating_add(bytes.len());
    if let Some(places) = file.get_mut(offset..end) {
        for (place, byte) in places.iter_mut().zip(bytes) {
            *place = *byte;
        }
    }
}
