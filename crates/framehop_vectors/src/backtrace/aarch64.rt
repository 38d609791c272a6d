//! A stack of aarch64, with pointer authentication.
use crate::backtrace::dump::{CODE_SIZE, Dump, STACK, dump_of, file_of};
use crate::backtrace::traces::{ColumnRow, FrameRow, frame_row, has_columns, is_trace};
use crate::backtrace::unwinders::{LentAarch64, sections_of, unwinder_aarch64};
use framehop::Unwinder;
use framehop::aarch64::{CacheAarch64, PtrAuthMask, UnwindRegsAarch64};
use framehop_backtrace::{BacktraceEnd, FoundBy, Frame, RowRoom, StackTrace, backtrace};
use framehop_callers::register_file::RegisterFile;
use framehop_cfi::rule::Register;
use framehop_cfi::storage::StoreOnStack;
use std::alloc::{AllocError, Global};
use std::test::Fail;

/// An `.eh_frame` at 0x2000 with an FDE for 0x1000 to 0x1020: the CFA is sp. After 4 bytes it is sp + 16, x30 is at the
/// CFA - 8 and x19 at the CFA - 16.
const EH_FRAME: &'static [u8] = &[
    0x10, 0x00, 0x00, 0x00, 0x00, 0x00, 0x00, 0x00, 0x01, 0x7a, 0x52, 0x00, 0x01, 0x78, 0x1e, 0x01,
    0x1b, 0x0c, 0x1f, 0x00, 0x18, 0x00, 0x00, 0x00, 0x18, 0x00, 0x00, 0x00, 0xe4, 0xef, 0xff, 0xff,
    0x20, 0x00, 0x00, 0x00, 0x00, 0x44, 0x0e, 0x10, 0x9e, 0x01, 0x93, 0x02, 0x00, 0x00, 0x00, 0x00,
];

/// Code by its offsets: `bl`, and `__kernel_rt_sigreturn`.
const CODE_PIECES: [(usize, &[u8]); 2] = [
    (0x30, &[0x04, 0x00, 0x00, 0x94]),
    (0x100, &[0x68, 0x11, 0x80, 0xd2, 0x01, 0x00, 0x00, 0xd4]),
];

/// The stack: x19 and x30 of the handler, which begins with bits of pointer authentication; the signal frame at 0x7010, of
/// which x19, x29, x30, sp and pc are set; and a frame record with the frame pointer 0.
const WORDS: [(u64, u64); 9] = [
    (0x7000, 0x1919),
    (0x7008, 0x0040000000401100),
    (0x7010 + 312 + 8 * 19, 0x9191),
    (0x7010 + 312 + 8 * 29, 0x7600),
    (0x7010 + 312 + 8 * 30, 0x0070000000401034),
    (0x7010 + 312 + 8 * 31, 0x7500),
    (0x7010 + 312 + 8 * 32, 0x401150),
    (0x7600, 0),
    (0x7608, 0),
];

/// The registers of the handler by their columns: x19, x29, x30, sp and pc.
const COLUMNS: [(u16, u64); 5] = [
    (19, 0xa19),
    (29, 0x7ff0),
    (30, 0x401014),
    (31, STACK),
    (32, 0x401004),
];

/// Returns the frame of the handler.
fn handler() -> Frame<UnwindRegsAarch64> {
    let mask = PtrAuthMask::new_24_40();
    let regs = UnwindRegsAarch64::new_with_ptr_auth_mask(mask, 0x401014, STACK, 0x7ff0);
    first_frame(0x401004, regs, &COLUMNS)
}

/// Returns a frame with these registers by their columns.
fn first_frame(
    pc: u64,
    regs: UnwindRegsAarch64,
    values: &[(u16, u64)],
) -> Frame<UnwindRegsAarch64> {
    let mut columns = RegisterFile::new();
    for (column, value) in values {
        columns.set(Register(*column), Some(*value));
    }
    Frame::first(pc, columns, regs)
}

/// Returns an unwinder that has the program.
fn unwinder(alloc: Global) -> Result<LentAarch64, Fail> {
    let sections = sections_of(0, Some(EH_FRAME), 0x2000..0x2030, None);
    unwinder_aarch64(alloc, sections)
}

/// Returns the backtrace from a frame on.
fn backtrace_in(
    alloc: Global,
    unwinder: &LentAarch64,
    memory: &Dump<'_>,
    first: Frame<UnwindRegsAarch64>,
) -> Result<StackTrace<UnwindRegsAarch64>, AllocError> {
    let mut cache = CacheAarch64::new(alloc)?;
    let mut room = RowRoom::<StoreOnStack>::new_in(alloc)?;
    backtrace(
        alloc,
        unwinder,
        unwinder.inner(),
        &mut room,
        &mut cache,
        memory,
        first,
        10,
    )
}

/// Returns the same of the stack.
fn backtrace_of_stack(alloc: Global) -> Result<StackTrace<UnwindRegsAarch64>, Fail> {
    let unwinder = unwinder(alloc)?;
    let file = file_of(&CODE_PIECES, &WORDS);
    let memory = dump_of(alloc, &file, CODE_SIZE)?;
    Ok(backtrace_in(alloc, &unwinder, &memory, handler())?)
}

/// The frames from the handler on.
const FRAMES: [FrameRow; 4] = [
    (0x401004, false, FoundBy::First),
    (0x401100, true, FoundBy::Cfi),
    (0x401150, false, FoundBy::Signal),
    (0x401034, true, FoundBy::Guess),
];

#[test]
fn crosses_a_signal_frame(rt: HostRuntime) -> Result<(), Fail> {
    let found = backtrace_of_stack(rt.alloc())?;
    assert!(rt; is_trace(&found, &FRAMES, BacktraceEnd::FramePointerZero));
    Ok(())
}

/// What is known of their registers.
const KNOWN: [ColumnRow; 14] = [
    (0, 19, Some(0xa19)),
    (0, 0, None),
    // x30 and pc are stripped
    (1, 19, Some(0x1919)),
    (1, 30, Some(0x401100)),
    (1, 31, Some(0x7010)),
    (1, 32, Some(0x401100)),
    // all that the kernel saved
    (2, 0, Some(0)),
    (2, 19, Some(0x9191)),
    (2, 30, Some(0x0070000000401034)),
    (2, 32, Some(0x401150)),
    // what the library's step keeps
    (3, 19, None),
    (3, 29, Some(0x7600)),
    (3, 30, Some(0x401034)),
    (3, 31, Some(0x7500)),
];

#[test]
fn knows_the_registers_of_frames(rt: HostRuntime) -> Result<(), Fail> {
    let found = backtrace_of_stack(rt.alloc())?;
    assert!(rt; has_columns(&found, &KNOWN));
    Ok(())
}

/// `bl`, and a function at 0x401080 that begins with `stp x29, x30, [sp, #-32]!` and `mov x29, sp`.
const CODE_OF_PROLOGUE: [(usize, &[u8]); 2] = [
    (0x30, &[0x04, 0x00, 0x00, 0x94]),
    (0x80, &[0xfd, 0x7b, 0xbe, 0xa9, 0xfd, 0x03, 0x00, 0x91]),
];

/// The frame record of that function, with a return address after code that nobody has.
const WORDS_OF_PROLOGUE: [(u64, u64); 2] = [(0x7600, 0x7700), (0x7608, 0x401280)];

/// Returns the first caller of that function at a place, where lr is after the `bl`.
fn called_from(alloc: Global, pc: u64) -> Result<Option<FrameRow>, Fail> {
    let unwinder = unwinder(alloc)?;
    let file = file_of(&CODE_OF_PROLOGUE, &WORDS_OF_PROLOGUE);
    let mut memory = dump_of(alloc, &file, CODE_SIZE)?;
    memory.code_end = 0x401300;
    memory.function_start = Some(0x401080);
    let regs = UnwindRegsAarch64::new(0x401034, STACK, 0x7600);
    let columns = [(29, 0x7600), (30, 0x401034), (31, STACK), (32, pc)];
    let first = first_frame(pc, regs, &columns);
    let found = backtrace_in(alloc, &unwinder, &memory, first)?;
    Ok(frame_row(&found, 1))
}

#[test]
fn follows_a_frame_pointer_that_is_set(rt: HostRuntime) -> Result<(), Fail> {
    let before = called_from(rt.alloc(), 0x401084)?;
    assert!(rt; before == Some((0x401034, true, FoundBy::Guess)));
    let after = called_from(rt.alloc(), 0x401088)?;
    assert!(rt; after == Some((0x401280, true, FoundBy::FramePointer)));
    Ok(())
}
