//! Rows of two sources: `.eh_frame`, and the `.debug_frame` of a file of its own.
use crate::backtrace::dump::{CODE_SIZE, dump_of, file_of};
use crate::backtrace::traces::{FrameRow, frame_row};
use crate::backtrace::unwinders::{LentX86_64, Sections, module_of, sections_of, unwinder_x86_64};
use crate::backtrace::x86_64::backtrace_in;
use framehop::lookup::Lookup;
use framehop::x86_64::{UnwindRegsX86_64, UnwinderX86_64};
use framehop::{Generations, Module, Unwinder};
use framehop_backtrace::{FoundBy, OrElse, RowFinding, Rows, row_in_module};
use framehop_cfi::context::UnwindContext;
use framehop_cfi::rule::CfaRule;
use framehop_cfi::storage::StoreOnHeap;
use framehop_core::FrameAddress;
use framehop_core::x86_64::ArchX86_64;
use std::alloc::{AllocError, Global};
use std::test::Fail;

/// An `.eh_frame` at 0x402000: a CIE, and an FDE for 0x401000 to 0x401040, whose CFA is rsp + 32.
const EH_FRAME: &'static [u8] = &[
    0x14, 0x00, 0x00, 0x00, 0x00, 0x00, 0x00, 0x00, 0x01, 0x7a, 0x52, 0x00, 0x01, 0x78, 0x10, 0x01,
    0x1b, 0x0c, 0x07, 0x08, 0x90, 0x01, 0x00, 0x00, 0x14, 0x00, 0x00, 0x00, 0x1c, 0x00, 0x00, 0x00,
    0xe0, 0xef, 0xff, 0xff, 0x40, 0x00, 0x00, 0x00, 0x00, 0x0e, 0x20, 0x00, 0x00, 0x00, 0x00, 0x00,
    0x00, 0x00, 0x00, 0x00,
];

/// A `.debug_frame`: a CIE, an FDE for 0x401000 to 0x401040, whose CFA is rsp + 16, and one for 0x4010c0 to 0x401100, whose
/// CFA is rsp + 24.
const DEBUG_FRAME: &'static [u8] = &[
    0x14, 0x00, 0x00, 0x00, 0xff, 0xff, 0xff, 0xff, 0x01, 0x00, 0x01, 0x78, 0x10, 0x0c, 0x07, 0x08,
    0x90, 0x01, 0x00, 0x00, 0x00, 0x00, 0x00, 0x00, 0x1c, 0x00, 0x00, 0x00, 0x00, 0x00, 0x00, 0x00,
    0x00, 0x10, 0x40, 0x00, 0x00, 0x00, 0x00, 0x00, 0x40, 0x00, 0x00, 0x00, 0x00, 0x00, 0x00, 0x00,
    0x0e, 0x10, 0x00, 0x00, 0x00, 0x00, 0x00, 0x00, 0x1c, 0x00, 0x00, 0x00, 0x00, 0x00, 0x00, 0x00,
    0xc0, 0x10, 0x40, 0x00, 0x00, 0x00, 0x00, 0x00, 0x40, 0x00, 0x00, 0x00, 0x00, 0x00, 0x00, 0x00,
    0x0e, 0x18, 0x00, 0x00, 0x00, 0x00, 0x00, 0x00,
];

/// Returns the sections of the program's file.
fn program() -> Sections {
    sections_of(0x400000, Some(EH_FRAME), 0x402000..0x402034, None)
}

/// Returns those of its debug file.
fn debug_file() -> Sections {
    sections_of(0x400000, None, 0x402000..0x402034, Some(DEBUG_FRAME))
}

/// Returns unwinders with the module of the program's file, and with that of its debug file.
fn both_sources(alloc: Global) -> Result<(LentX86_64, LentX86_64), Fail> {
    let mut generations = Generations::new();
    let first = unwinder_x86_64(alloc, &mut generations, program())?;
    let second = unwinder_x86_64(alloc, &mut generations, debug_file())?;
    Ok((first, second))
}

/// What a source has for a frame: nothing, or an FDE, and the CFA's distance from rsp (in bytes) if it has a row.
type Found = Option<Option<i64>>;

/// Returns what rows have for an instruction pointer.
fn found_by<W: Rows>(alloc: Global, rows: &W, pc: u64) -> Result<Found, AllocError> {
    let mut context = UnwindContext::<StoreOnHeap>::new_in(alloc)?;
    let address = FrameAddress::from_instruction_pointer(pc);
    match rows.row_at(&mut context, address)? {
        RowFinding::Row(_) => Ok(Some(cfa_offset(&context))),
        RowFinding::Uncovered => Ok(Some(None)),
        RowFinding::NoRow => Ok(None),
    }
}

/// Returns the CFA's distance from its register in a row, or nothing for an expression.
fn cfa_offset(context: &UnwindContext<StoreOnHeap>) -> Option<i64> {
    match *context.row().cfa() {
        CfaRule::RegisterAndOffset { offset, .. } => Some(offset),
        CfaRule::Expression(_) => None,
    }
}

/// An instruction pointer, and what is found by the program's file, by its debug file, and by both.
const FOUND: [(u64, [Found; 3]); 3] = [
    (0x401004, [Some(Some(32)), Some(Some(16)), Some(Some(32))]),
    (0x4010d0, [Some(None), Some(Some(24)), Some(Some(24))]),
    (0x401044, [Some(None), Some(None), Some(None)]),
];

/// Returns what is found by two sources, and by both.
fn found_by_each(
    alloc: Global,
    first: &LentX86_64,
    second: &LentX86_64,
    pc: u64,
) -> Result<[Found; 3], AllocError> {
    Ok([
        found_by(alloc, first, pc)?,
        found_by(alloc, second, pc)?,
        found_by(alloc, &OrElse { first, second }, pc)?,
    ])
}

/// Whether all rows of the table are found.
fn finds_all(alloc: Global, first: &LentX86_64, second: &LentX86_64) -> Result<bool, AllocError> {
    for (pc, expected) in FOUND {
        if found_by_each(alloc, first, second, pc)? != expected {
            return Ok(false);
        }
    }
    Ok(true)
}

#[test]
fn asks_a_second_source(rt: HostRuntime) -> Result<(), Fail> {
    let (first, second) = both_sources(rt.alloc())?;
    assert!(rt; finds_all(rt.alloc(), &first, &second)?);
    Ok(())
}

/// Whether an FDE of a first source, which does not cover an address, is found although a second source has nothing, and
/// nothing is found by the second.
fn keeps_what_is_found(
    alloc: Global,
    first: &LentX86_64,
    second: &LentX86_64,
) -> Result<bool, AllocError> {
    let found = found_by_each(alloc, first, second, 0x4010d0)?;
    let turned = found_by_each(alloc, second, first, 0x4010d0)?;
    Ok(found == [Some(None), None, Some(None)] && turned == [None, Some(None), None])
}

#[test]
fn keeps_what_the_first_source_has_found(rt: HostRuntime) -> Result<(), Fail> {
    let mut generations = Generations::new();
    let first = unwinder_x86_64(rt.alloc(), &mut generations, program())?;
    let second = UnwinderX86_64::new(rt.alloc(), &mut generations)?;
    assert!(rt; keeps_what_is_found(rt.alloc(), &first, &second)?);
    Ok(())
}

/// Returns the first caller by two sources, where the return address at 0x7010 is 0x401010.
fn caller_by_both(
    alloc: Global,
    first: &LentX86_64,
    second: &LentX86_64,
) -> Result<Option<FrameRow>, AllocError> {
    let file = file_of(&[], &[(0x7010, 0x401010)]);
    let memory = dump_of(alloc, &file, CODE_SIZE)?;
    let regs = UnwindRegsX86_64::new(0x4010d0, 0x7000, 0x7ff0);
    let both = OrElse { first, second };
    let found = backtrace_in(alloc, first, &both, &memory, regs, 2)?;
    Ok(frame_row(&found, 1))
}

#[test]
fn walks_by_two_sources(rt: HostRuntime) -> Result<(), Fail> {
    let (first, second) = both_sources(rt.alloc())?;
    let caller = caller_by_both(rt.alloc(), &first, &second)?;
    assert!(rt; caller == Some((0x401010, true, FoundBy::Cfi)));
    Ok(())
}

/// Whether a module has a row for a relative address of a first frame.
fn has_row(
    module: &Module<&'static [u8]>,
    context: &mut UnwindContext<StoreOnHeap>,
    relative_address: u32,
) -> Result<bool, AllocError> {
    let lookup = Lookup {
        relative_address,
        is_first_frame: true,
    };
    let found = row_in_module::<&'static [u8], ArchX86_64, StoreOnHeap>(module, context, lookup)?;
    Ok(matches!(found, RowFinding::Row(_)))
}

/// Whether the module of the debug file has a row for each of three relative addresses of first frames.
fn have_rows(alloc: Global) -> Result<[bool; 3], Fail> {
    let module = module_of(alloc, debug_file())?;
    let mut context = UnwindContext::<StoreOnHeap>::new_in(alloc)?;
    let mut found = [false; 3];
    for (place, relative_address) in found.iter_mut().zip([0x1004, 0x1040, 0x10d0]) {
        *place = has_row(&module, &mut context, relative_address)?;
    }
    Ok(found)
}

#[test]
fn finds_rows_of_a_module(rt: HostRuntime) -> Result<(), Fail> {
    assert!(rt; have_rows(rt.alloc())? == [true, false, true]);
    Ok(())
}
