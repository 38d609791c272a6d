//! What the tests need: sections, registers and a memory.
use framehop_bytes::bytes::front;
use framehop_callers::caller::{Caller, RowRefusal, caller_by_row};
use framehop_callers::convention::Convention;
use framehop_callers::memory::WordMemory;
use framehop_callers::register_file::RegisterFile;
use framehop_cfi::context::UnwindContext;
use framehop_cfi::entry::{UnwindSection, UnwindSectionType};
use framehop_cfi::pointer::BaseAddresses;
use framehop_cfi::rule::Register;
use framehop_cfi::storage::UnwindContextStorage;
use framehop_dwarf::unwinder::find_row;
use framehop_memory::memory::{MemoryRange, ProcessMemory};
use std::alloc::{AllocError, Global};

/// An `.eh_frame` at an SVMA, and the offset of one of its FDEs.
#[derive(Clone, Copy)]
pub(crate) struct Section {
    pub(crate) bytes: &'static [u8],
    pub(crate) svma: u64,
    pub(crate) fde: u32,
}

/// Why a frame has no caller by an FDE.
#[derive(Clone, Copy, PartialEq, Eq)]
pub(crate) enum NoCaller {
    /// No FDE can be read at the offset.
    NoFde,
    /// The FDE has no row for the address.
    NoRow,
    /// The row gives no caller.
    ByRow(RowRefusal),
}

/// A frame of which these registers are known, by their columns from 0 on, but for those that are changed; and memory that has
/// words from an address on, as far as so many bytes.
#[derive(Clone, Copy)]
pub(crate) struct Known<'a> {
    pub(crate) registers: &'a [u64],
    pub(crate) changed: &'a [(u16, Option<u64>)],
    pub(crate) start: u64,
    pub(crate) words: &'a [u64],
    pub(crate) size: usize,
}

/// Returns the bytes of words.
pub(crate) fn bytes_of(alloc: Global, words: &[u64]) -> Result<Vec<u8>, AllocError> {
    let mut bytes = Vec::new(alloc);
    for word in words {
        bytes.extend_from_slice(&word.to_le_bytes())?;
    }
    Ok(bytes)
}

/// Returns the memory that has these bytes from an address on.
pub(crate) fn memory_of(
    alloc: Global,
    start: u64,
    bytes: &[u8],
) -> Result<ProcessMemory<'_>, AllocError> {
    let mut ranges = Vec::new(alloc);
    ranges.push(MemoryRange {
        start,
        size: bytes.len() as u64,
        offset: 0,
    })?;
    ProcessMemory::new(alloc, bytes, ranges)
}

/// Returns the registers of a frame.
fn registers_of(known: &Known<'_>) -> RegisterFile {
    let mut regs = RegisterFile::new();
    let mut column = 0;
    for value in known.registers {
        regs.set(Register(column), Some(*value));
        column = column.saturating_add(1);
    }
    for (column, value) in known.changed {
        regs.set(Register(*column), *value);
    }
    regs
}

/// Returns the caller of a frame at an address, an SVMA, by the FDE of a section.
pub(crate) fn caller_of<S: UnwindContextStorage>(
    alloc: Global,
    convention: Convention,
    section: &Section,
    address: u32,
    known: &Known<'_>,
) -> Result<Result<Caller, NoCaller>, AllocError> {
    let bytes = bytes_of(alloc, known.words)?;
    let memory = memory_of(alloc, known.start, front(bytes.as_slice(), known.size))?;
    let regs = registers_of(known);
    caller_at::<S, _>(alloc, convention, section, address, &regs, &memory)
}

/// Whether a caller has these columns.
pub(crate) fn has_columns(caller: &Caller, columns: &[(u16, Option<u64>)]) -> bool {
    for (column, value) in columns {
        if caller.regs.get(Register(*column)) != *value {
            return false;
        }
    }
    true
}

/// Returns the caller of a frame with these registers, over a memory.
fn caller_at<S: UnwindContextStorage, M: WordMemory>(
    alloc: Global,
    convention: Convention,
    section: &Section,
    address: u32,
    regs: &RegisterFile,
    memory: &M,
) -> Result<Result<Caller, NoCaller>, AllocError> {
    let bases = BaseAddresses {
        eh_frame: section.svma,
        ..BaseAddresses::default()
    };
    let kind = UnwindSectionType::EhFrame;
    let frames = UnwindSection::new(section.bytes, kind, &bases);
    let mut context = UnwindContext::<S>::new_in(alloc)?;
    match find_row(&frames, 0, address, section.fde, &mut context) {
        Ok(true) => {
            let caller = caller_by_row(
                alloc,
                convention,
                section.bytes,
                context.row(),
                regs,
                memory,
            );
            Ok(caller.map_err(|refusal| NoCaller::ByRow(refusal)))
        }
        Ok(false) => Ok(Err(NoCaller::NoRow)),
        Err(_) => Ok(Err(NoCaller::NoFde)),
    }
}
