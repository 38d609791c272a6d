//! The threads of a process.
ghost use Rattle.std.specs.Prelude.{◌≡◌, Ok, Err, MatchResult, map, option_map};
ghost use Rattle.framehop_dump_files.specs.Coredump.Refusal.{IsErrorOf};
ghost use Rattle.framehop_dump_files.specs.Coredump.Note.{placed_view, is_of};
ghost use Rattle.framehop_dump_files.specs.Coredump.Thread.{thread_view, registers_size, prstatus_size, is_thread, note_in, pac_mask_of, thread_of, threads_of};

use crate::coredump::core_file::Machine;
use crate::coredump::error::CoreFileError;
use crate::coredump::note::{PlacedNote, is_of};
use crate::coredump::signal_info::{SignalInfo, signal_info_of};
use framehop_bytes::bytes::{back, front, u16_at, u32_at, u64_at};
use framehop_bytes::gathered::pushed;
use std::alloc::Global;

/// `NT_PRSTATUS` of "CORE".
const NT_PRSTATUS: u32 = 1;

/// `NT_SIGINFO` of "CORE".
const NT_SIGINFO: u32 = 0x5349_4749;

/// `NT_ARM_PAC_MASK` of "LINUX".
const NT_ARM_PAC_MASK: u32 = 0x406;

/// Where the registers are in `struct elf_prstatus`, in bytes.
const PR_REG: u64 = 112;

/// The size of `struct user_pac_mask`, in bytes.
const PAC_MASK_SIZE: usize = 16;

/// A thread, as it was when the core file was made: `struct elf_prstatus`.
#[derive(Clone, Copy, Drop)]
pub struct Thread<'a> {
    /// Where its note is, in bytes from the start of the file.
    pub offset: u64,
    /// The thread: `pr_pid`.
    pub tid: u32,
    /// The signal that it got, or 0: `pr_cursig`. Linux writes the one of the first thread in the note of each.
    pub signal: u16,
    /// What is told of the signal, where the thread has a note of it: NT_SIGINFO.
    pub info: Option<SignalInfo>,
    /// Its registers, eight bytes each, in the order of the kernel: `pr_reg`.
    pub registers: &'a [u8],
    /// The bits of an address of code that are its signature, where the thread has a note of them:
    /// `insn_mask` of NT_ARM_PAC_MASK.
    pub pac_mask: Option<u64>,
}

/// Reads the threads of a process from its notes, in their order. Linux writes the thread first that got
/// the signal.
///
/// # Errors
///
/// `BadNoteSize` where a note has another size than `struct elf_prstatus` on that machine, or than
/// `struct user_pac_mask`; else `OutOfMemory`.
///
/// Source: Linux, `include/linux/elfcore.h`, `struct elf_prstatus`; `fs/binfmt_elf.c`, `write_note_info`;
/// `arch/arm64/include/uapi/asm/ptrace.h`, `struct user_pac_mask`.
pub fn read_threads<'a>(
    alloc: Global,
    machine: Machine,
    notes: &[PlacedNote<'a>],
) -> Result<Vec<Thread<'a>>, CoreFileError>
    ensures { MatchResult result
        (λ threads. threads_of machine (map placed_view notes.entry.now) ≡ Ok (map thread_view threads.items))
        (λ error. IsErrorOf (threads_of machine (map placed_view notes.entry.now)) error) }
{
    let mut threads = Some(Vec::new(alloc));
    for index in 0..notes.len() {
        if is_thread(notes[index]) {
            let thread = read_thread(machine, notes[index], &notes[index + 1..])?;
            threads = pushed(threads, thread);
        }
    }
    match threads {
        Some(threads) => Ok(threads),
        None => Err(CoreFileError::OutOfMemory),
    }
}

/// Returns the thread of a note, which these notes come after.
#[tactic(auto, unfolding(crate::specs::Coredump::Thread::thread_of))]
fn read_thread<'a>(
    machine: Machine,
    placed: PlacedNote<'a>,
    later: &[PlacedNote<'a>],
) -> Result<Thread<'a>, CoreFileError>
    ensures exact { MatchResult result
        (λ thread. thread_of machine (placed_view placed.entry) (map placed_view later.entry.now) ≡ Ok (thread_view thread))
        (λ error. thread_of machine (placed_view placed.entry) (map placed_view later.entry.now) ≡ Err error) }
{
    let offset = placed.offset;
    let descriptor = placed.note.descriptor;
    if descriptor.len() != prstatus_size(machine) {
        return Err(CoreFileError::BadNoteSize { offset });
    }
    let pac_mask = pac_mask(note_in(later, b"LINUX\0", NT_ARM_PAC_MASK))?;
    Ok(Thread {
        offset,
        tid: u32_at(descriptor, 32),
        signal: u16_at(descriptor, 12),
        info: signal_info_of(note_in(later, b"CORE\0", NT_SIGINFO)),
        registers: front(back(descriptor, PR_REG), registers_size(machine)),
        pac_mask,
    })
}

/// Returns the size of `struct elf_prstatus` on a machine, in bytes.
fn prstatus_size(machine: Machine) -> usize
    ensures { result ≡ prstatus_size machine }
{
    match machine {
        Machine::X86_64 => 336,
        Machine::Aarch64 => 392,
    }
}

/// Returns the mask of code of a note, if there is one.
fn pac_mask<'a>(placed: Option<PlacedNote<'a>>) -> Result<Option<u64>, CoreFileError>
    ensures { result ≡ pac_mask_of (option_map placed_view placed.entry) }
{
    let Some(placed) = placed else {
        return Ok(None);
    };
    let descriptor = placed.note.descriptor;
    if descriptor.len() != PAC_MASK_SIZE {
        return Err(CoreFileError::BadNoteSize {
            offset: placed.offset,
        });
    }
    Ok(Some(u64_at(descriptor, 8)))
}

/// Returns the first note of an owner, whose name ends with a 0, and of one of its types that comes before the next thread's
/// first note.
fn note_in<'a>(later: &[PlacedNote<'a>], owner: &[u8], n_type: u32) -> Option<PlacedNote<'a>>
    ensures { option_map placed_view result ≡ note_in (is_of owner.now n_type) (map placed_view later.entry.now) }
{
    for index in 0..later.len() {
        if is_thread(later[index]) {
            return None;
        }
        if is_of(later[index], owner, n_type) {
            return Some(later[index]);
        }
    }
    None
}

/// Returns whether a note is a thread's first.
fn is_thread<'a>(placed: PlacedNote<'a>) -> bool
    ensures { result ≡ is_thread (placed_view placed.entry) }
{
    is_of(placed, b"CORE\0", NT_PRSTATUS)
}

/// Returns the size of the registers of a machine, in bytes.
fn registers_size(machine: Machine) -> usize
    ensures { result ≡ registers_size machine }
{
    match machine {
        Machine::X86_64 => 216,
        Machine::Aarch64 => 272,
    }
}
