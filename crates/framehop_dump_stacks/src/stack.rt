//! The walk of a thread.
ghost use Rattle.std.specs.Prelude.{◌≡◌, IfOk};
ghost use Rattle.framehop.specs.Memory.{reply};
ghost use Rattle.framehop.specs.Modules.{UnwinderView};
ghost use Rattle.framehop.specs.Soundness.{AreApart};
ghost use Rattle.framehop_memory.specs.Memory.{memory_view, word_of};
ghost use Rattle.framehop_frames.specs.Notes.{option_noted};
ghost use Rattle.framehop_frames.specs.Stack.{option_stack_view};
ghost use Rattle.framehop_dumps.specs.Dump.{thread_view, dump_view};
ghost use Rattle.framehop_dump_stacks.specs.Walked.{noted_thread};
ghost use Rattle.framehop_dump_stacks.specs.Thread.{thread_stack};

use crate::machine::Dumped;
use framehop::walk::Words;
use framehop_backtrace::{OrElse, RowRoom};
use framehop_cfi::storage::StoreOnStack;
use framehop_dumps::dump::{Dump, Thread, is_code_at};
use framehop_frames::memory::{KnownMemory, MappedMemory};
use framehop_frames::rows::DebugFrames;
use framehop_frames::stack::Stack;
use framehop_frames::walk::walk_stack;
use framehop_memory::memory::ProcessMemory;
use framehop_processes::Process;
use framehop_processes::files::Files;
use std::alloc::{AllocError, Global};

/// Walks the stack of a thread by at most `limit` frames, over the words of memory. Returns `None`
/// where the thread has not the registers with which a walk begins.
pub(crate) fn walk_thread<U: Dumped>(
    alloc: Global,
    dump: &Dump<'_>,
    files: &Files<'_>,
    process: &Process<U>,
    room: &mut RowRoom<StoreOnStack>,
    cache: &mut U::Cache,
    thread: Thread<'_>,
    limit: u32,
) -> Result<Option<Stack<U::UnwindRegs>>, AllocError>
    ensures stays_sound { (other : UnwinderView) → AreApart process.now.unwinder other
        → U.is_sound other cache.old → U.is_sound other cache.new }
    ensures walked { U.is_sound process.now.unwinder cache.old → IfOk result (λ walked. option_stack_view walked
        ≡ thread_stack U.walker U.begins limit files.now process.now.mappings process.now.unwinder.modules (dump_view dump.now) (thread_view thread.entry)) }
    ensures noted { U.is_sound process.now.unwinder cache.old → IfOk result (λ walked. option_noted walked
        ≡ noted_thread U.walker U.begins limit files.now process.now.mappings process.now.unwinder.modules (dump_view dump.now) (thread_view thread.entry)) }
{
    let Some(start) = U::begin(thread.registers) else {
        return Ok(None);
    };
    let memory = MappedMemory {
        known: &DumpMemory { dump },
        files,
        process,
    };
    let unwinder = process.unwinder();
    let rows = OrElse {
        first: unwinder,
        second: &DebugFrames { files, process },
    };
    let stack = walk_stack(alloc, unwinder, &rows, room, cache, &memory, start, limit)?;
    Ok(Some(stack))
}

/// The memory of a dump, and where its code is.
#[derive(Clone, Copy, Drop)]
pub(crate) struct DumpMemory<'a, 'm> {
    pub(crate) dump: &'a Dump<'m>,
}

impl Words for DumpMemory<'_, '_> {
    ghost use Rattle.framehop_dumps.specs.Dump.{dump_view, memory_in};

    ghost memory = { λ memory. memory_in (dump_view memory.dump.now) };

    fn read(&self, address: u64) -> Result<u64, ()> {
        read_memory(&self.dump.memory, address)
    }
}

impl KnownMemory for DumpMemory<'_, '_> {
    ghost use Rattle.framehop_memory.specs.Memory.{memory_view, bytes_after};
    ghost use Rattle.framehop_dumps.specs.Dump.{dump_view, is_code_at};

    ghost bytes_from = { λ memory. bytes_after (memory_view memory.dump.now.memory) };

    ghost is_code = { λ memory. is_code_at (dump_view memory.dump.now) };

    fn bytes_from(&self, address: u64) -> Option<&[u8]> {
        self.dump.memory.bytes_from(address)
    }

    fn is_code(&self, address: u64) -> bool {
        is_code_at(self.dump, address)
    }
}

/// Returns the word of memory at an address (AVMA).
fn read_memory(memory: &ProcessMemory<'_>, address: u64) -> Result<u64, ()>
    ensures { result ≡ reply (word_of (memory_view memory.now) address) }
{
    match memory.word_at(address) {
        Some(word) => Ok(word),
        None => Err(()),
    }
}
