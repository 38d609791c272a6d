//! Stacks of x86_64, each with the frames that are to be found.
use crate::backtrace::dump::{CODE_SIZE, Dump, dump_of, file_of};
use crate::backtrace::traces::{ColumnRow, FrameRow, has_columns, is_trace};
use crate::backtrace::unwinders::{sections_of, unwinder_x86_64};
use framehop::x86_64::{CacheX86_64, UnwindRegsX86_64, UnwinderX86_64};
use framehop::{Error, Generations, SectionBytes, Unwinder};
use framehop_backtrace::x86_64::all_columns;
use framehop_backtrace::{BacktraceEnd, FoundBy, Frame, RowRoom, Rows, StackTrace, backtrace};
use framehop_cfi::storage::StoreOnHeap;
use framehop_core::x86_64::Reg;
use std::alloc::{AllocError, Global};
use std::test::Fail;

/// A stack, and what is to be found of it.
#[derive(Clone, Copy)]
struct Stack<'a> {
    /// The section, from 0x402000 on.
    eh_frame: &'static [u8],
    /// Code by its offsets, and words by their addresses.
    code: &'a [(usize, &'static [u8])],
    words: &'a [(u64, u64)],
    /// rip, rsp and rbp, and then others; those that are not listed are 0.
    regs: (u64, u64, u64),
    others: &'a [(Reg, u64)],
    /// Where executable memory ends, the only function that is known begins, and the process begins.
    code_end: u64,
    function_start: Option<u64>,
    entry: u64,
    limit: u32,
    frames: &'a [FrameRow],
    end: BacktraceEnd,
    columns: &'a [ColumnRow],
}

/// An `.eh_frame` at 0x402000: a CIE, an FDE for 0x401000 to 0x401040, whose CFA is rsp + 32 with rbx at the CFA - 24, and
/// one for 0x401080 to 0x4010c0 without a return address.
pub(crate) const EH_FRAME: &'static [u8] = &[
    0x14, 0x00, 0x00, 0x00, 0x00, 0x00, 0x00, 0x00, 0x01, 0x7a, 0x52, 0x00, 0x01, 0x78, 0x10, 0x01,
    0x1b, 0x0c, 0x07, 0x08, 0x90, 0x01, 0x00, 0x00, 0x14, 0x00, 0x00, 0x00, 0x1c, 0x00, 0x00, 0x00,
    0xe0, 0xef, 0xff, 0xff, 0x40, 0x00, 0x00, 0x00, 0x00, 0x0e, 0x20, 0x83, 0x03, 0x00, 0x00, 0x00,
    0x14, 0x00, 0x00, 0x00, 0x34, 0x00, 0x00, 0x00, 0x48, 0xf0, 0xff, 0xff, 0x40, 0x00, 0x00, 0x00,
    0x00, 0x07, 0x10, 0x00, 0x00, 0x00, 0x00, 0x00, 0x00, 0x00, 0x00, 0x00,
];

/// Code by its offsets: two calls, which end at 0x401010 and at 0x401030, and `__restore_rt`.
const CODE_PIECES: [(usize, &[u8]); 3] = [
    // call rel32
    (0x0b, &[0xe8]),
    // call *%rax
    (0x2e, &[0xff, 0xd0]),
    (
        0x100,
        &[0x48, 0xc7, 0xc0, 0x0f, 0x00, 0x00, 0x00, 0x0f, 0x05],
    ),
];

/// The program, with nothing on its stack.
const EMPTY: Stack<'static> = Stack {
    eh_frame: EH_FRAME,
    code: &CODE_PIECES,
    words: &[],
    regs: (0, 0, 0),
    others: &[],
    code_end: 0x401200,
    function_start: None,
    entry: 0,
    limit: 10,
    frames: &[],
    end: BacktraceEnd::Root,
    columns: &[],
};

/// Returns the backtrace of a process by an unwinder and by rows, from these registers on.
pub(crate) fn backtrace_in<D: SectionBytes + Drop, W: Rows>(
    alloc: Global,
    unwinder: &UnwinderX86_64<D>,
    rows: &W,
    memory: &Dump<'_>,
    regs: UnwindRegsX86_64,
    limit: u32,
) -> Result<StackTrace<UnwindRegsX86_64>, AllocError> {
    let mut cache = CacheX86_64::new(alloc)?;
    let mut room = RowRoom::<StoreOnHeap>::new_in(alloc)?;
    let first = Frame::first(regs.ip(), all_columns(&regs), regs);
    backtrace(
        alloc, unwinder, rows, &mut room, &mut cache, memory, first, limit,
    )
}

/// Returns the registers of a stack's first frame.
fn regs_of(stack: &Stack<'_>) -> UnwindRegsX86_64 {
    let (ip, sp, bp) = stack.regs;
    let mut regs = UnwindRegsX86_64::new(ip, sp, bp);
    for (register, value) in stack.others {
        regs.set(*register, *value);
    }
    regs
}

/// Whether a backtrace has the frames of a stack, what is known of them, and its end.
fn is_of(found: &StackTrace<UnwindRegsX86_64>, stack: &Stack<'_>) -> bool {
    is_trace(found, stack.frames, stack.end) && has_columns(found, stack.columns)
}

/// Whether that of a stack has, by an unwinder.
fn is_found_by(
    alloc: Global,
    unwinder: &UnwinderX86_64<&'static [u8]>,
    stack: &Stack<'_>,
) -> Result<bool, AllocError> {
    let file = file_of(stack.code, stack.words);
    let mut memory = dump_of(alloc, &file, CODE_SIZE)?;
    memory.code_end = stack.code_end;
    memory.function_start = stack.function_start;
    memory.entry = stack.entry;
    let regs = regs_of(stack);
    let found = backtrace_in(
        alloc,
        unwinder,
        unwinder.inner(),
        &memory,
        regs,
        stack.limit,
    )?;
    Ok(is_of(&found, stack))
}

/// Whether it has, by a new unwinder with the program.
fn is_found(alloc: Global, stack: &Stack<'_>) -> Result<bool, Fail> {
    let size = stack.eh_frame.len() as u64;
    let addresses = 0x402000..0x402000u64.saturating_add(size);
    let sections = sections_of(0x400000, Some(stack.eh_frame), addresses, None);
    let unwinder = unwinder_x86_64(alloc, &mut Generations::new(), sections)?;
    Ok(is_found_by(alloc, &unwinder, stack)?)
}

/// A handler, called from which is a leaf that no FDE covers; the trampoline; the function that it interrupted; and the
/// outermost one.
const WORDS: [(u64, u64); 6] = [
    // the leaf's return address
    (0x7000, 0x401010),
    // the handler's saved rbx, and its return address
    (0x7008 + 8, 0xbbbb),
    (0x7008 + 24, 0x401100),
    // the signal frame at 0x7028: rsp and rip
    (0x7028 + 160, 0x7200),
    (0x7028 + 168, 0x401020),
    // the interrupted function's return address
    (0x7200 + 24, 0x401090),
];

/// The frames from the leaf on.
const FRAMES: [FrameRow; 5] = [
    (0x4010d0, false, FoundBy::First),
    (0x401010, true, FoundBy::Guess),
    (0x401100, true, FoundBy::Cfi),
    (0x401020, false, FoundBy::Signal),
    (0x401090, true, FoundBy::Cfi),
];

/// The leaf's stack.
const HANDLER: Stack<'static> = Stack {
    words: &WORDS,
    regs: (0x4010d0, 0x7000, 0x7ff0),
    frames: &FRAMES,
    ..EMPTY
};

#[test]
fn crosses_a_signal_frame(rt: HostRuntime) -> Result<(), Fail> {
    assert!(rt; is_found(rt.alloc(), &HANDLER)?);
    for limit in 0u32..5 {
        let cut_off = Stack {
            limit,
            frames: FRAMES.get(..limit as usize).unwrap_or(&[]),
            end: BacktraceEnd::Limit,
            ..HANDLER
        };
        assert!(rt; is_found(rt.alloc(), &cut_off)?, "{limit}");
    }
    Ok(())
}

/// What is known of their registers, where rbx and r12 of the leaf are 0xb0 and 0xc0.
const KNOWN: [ColumnRow; 12] = [
    (0, 3, Some(0xb0)),
    // after the library's step rsp, rbp and rip only
    (1, 3, None),
    (1, 12, None),
    (1, 6, Some(0x7ff0)),
    (1, 7, Some(0x7008)),
    (1, 16, Some(0x401010)),
    // by a row what it saves
    (2, 3, Some(0xbbbb)),
    (2, 7, Some(0x7028)),
    // all that the kernel saved
    (3, 3, Some(0)),
    (3, 7, Some(0x7200)),
    (3, 16, Some(0x401020)),
    (4, 7, Some(0x7220)),
];

#[test]
fn knows_the_registers_of_frames(rt: HostRuntime) -> Result<(), Fail> {
    let stack = Stack {
        others: &[(Reg::RBX, 0xb0), (Reg::R12, 0xc0)],
        columns: &KNOWN,
        ..HANDLER
    };
    assert!(rt; is_found(rt.alloc(), &stack)?);
    Ok(())
}

/// Words of two stacks of the function of the first FDE.
const WORDS_OF_ENDS: [(u64, u64); 2] = [(0x7100 + 24, 0x1234), (0x7180 + 24, 0x401090)];

/// A frame of that function, and its caller.
const FRAMES_OF_ENDS: [FrameRow; 2] = [
    (0x401004, false, FoundBy::First),
    (0x401090, true, FoundBy::Cfi),
];

/// The stack pointer, how the backtrace ends, and how many frames it has: a return address outside of code, one that is 0, one
/// that can't be read, and the outermost function.
const ENDS: [(u64, BacktraceEnd, usize); 4] = [
    (0x7100, BacktraceEnd::NotCode(0x1234), 1),
    (0x7140, BacktraceEnd::Refused(Error::ReturnAddressIsNull), 1),
    (0x9000, BacktraceEnd::ReturnAddressUnknown, 1),
    (0x7180, BacktraceEnd::Root, 2),
];

#[test]
fn ends_by_name(rt: HostRuntime) -> Result<(), Fail> {
    for (rsp, end, count) in ENDS {
        let stack = Stack {
            words: &WORDS_OF_ENDS,
            regs: (0x401004, rsp, 0),
            frames: FRAMES_OF_ENDS.get(..count).unwrap_or(&[]),
            end,
            ..EMPTY
        };
        assert!(rt; is_found(rt.alloc(), &stack)?, "{rsp:x}");
    }
    Ok(())
}

/// Words of stacks of a function in no FDE: the word at rsp is after no call; a frame pointer leads to one after `call *%rax`,
/// and another to one that is after none.
const WORDS_OF_GUESSES: [(u64, u64); 6] = [
    (0x7000, 0x401014),
    (0x7100, 0x7140),
    (0x7108, 0x401030),
    (0x7110 + 24, 0x401090),
    (0x7180, 0x7190),
    (0x7188, 0x401014),
];

/// A frame of that function, the one to which the frame pointer leads, and its caller.
const FRAMES_OF_GUESSES: [FrameRow; 3] = [
    (0x4010d0, false, FoundBy::First),
    (0x401030, true, FoundBy::FramePointer),
    (0x401090, true, FoundBy::Cfi),
];

/// The frame pointer, how the backtrace ends, and how many frames it has.
const GUESSES: [(u64, BacktraceEnd, usize); 4] = [
    (0x7100, BacktraceEnd::Root, 3),
    (0x7180, BacktraceEnd::NoCaller, 1),
    (0, BacktraceEnd::FramePointerZero, 1),
    (0x9000, BacktraceEnd::NoCaller, 1),
];

#[test]
fn falls_back_from_a_guess(rt: HostRuntime) -> Result<(), Fail> {
    for (rbp, end, count) in GUESSES {
        let stack = Stack {
            words: &WORDS_OF_GUESSES,
            regs: (0x4010d0, 0x7000, rbp),
            frames: FRAMES_OF_GUESSES.get(..count).unwrap_or(&[]),
            end,
            ..EMPTY
        };
        assert!(rt; is_found(rt.alloc(), &stack)?, "{rbp:x}");
    }
    Ok(())
}

/// Code of a function in no FDE, in the middle of which a frame is: add rsp, 16; pop rbx; ret. Before it a call of *%rax.
const CODE_OF_RUN: [(usize, &[u8]); 2] = [
    (0x2e, &[0xff, 0xd0]),
    (0xd5, &[0x48, 0x83, 0xc4, 0x10, 0x5b, 0xc3]),
];

/// Its stack: the word at rsp is after no call. Then come its saved rbx, and its return address.
const WORDS_OF_RUN: [(u64, u64); 4] = [
    (0x7000, 0x401014),
    (0x7010, 0xbbbb),
    (0x7018, 0x401030),
    (0x7020 + 24, 0x401090),
];

/// What is known of its caller.
const KNOWN_BY_RUN: [ColumnRow; 4] = [
    (1, 3, Some(0xbbbb)),
    (1, 6, Some(0x7ff0)),
    (1, 7, Some(0x7020)),
    (1, 16, Some(0x401030)),
];

/// The frames, of which the first is in the middle of that function.
const FRAMES_OF_RUN: [FrameRow; 3] = [
    (0x4010d5, false, FoundBy::First),
    (0x401030, true, FoundBy::Run),
    (0x401090, true, FoundBy::Cfi),
];

#[test]
fn runs_code_in_no_fde(rt: HostRuntime) -> Result<(), Fail> {
    let stack = Stack {
        code: &CODE_OF_RUN,
        words: &WORDS_OF_RUN,
        regs: (0x4010d5, 0x7000, 0x7ff0),
        frames: &FRAMES_OF_RUN,
        columns: &KNOWN_BY_RUN,
        ..EMPTY
    };
    assert!(rt; is_found(rt.alloc(), &stack)?);
    Ok(())
}

/// The `.eh_frame` of [`EH_FRAME`], whose first FDE has as its CFA the word at rsp: DW_OP_breg7 0, DW_OP_deref.
const EH_FRAME_BY_WORD: &'static [u8] = &[
    0x14, 0x00, 0x00, 0x00, 0x00, 0x00, 0x00, 0x00, 0x01, 0x7a, 0x52, 0x00, 0x01, 0x78, 0x10, 0x01,
    0x1b, 0x0c, 0x07, 0x08, 0x90, 0x01, 0x00, 0x00, 0x14, 0x00, 0x00, 0x00, 0x1c, 0x00, 0x00, 0x00,
    0xe0, 0xef, 0xff, 0xff, 0x40, 0x00, 0x00, 0x00, 0x00, 0x0f, 0x03, 0x77, 0x00, 0x06, 0x00, 0x00,
    0x14, 0x00, 0x00, 0x00, 0x34, 0x00, 0x00, 0x00, 0x48, 0xf0, 0xff, 0xff, 0x40, 0x00, 0x00, 0x00,
    0x00, 0x07, 0x10, 0x00, 0x00, 0x00, 0x00, 0x00, 0x00, 0x00, 0x00, 0x00,
];

/// Code in the middle of the first FDE's function: mov rsp, rbp; pop rbp; ret. Before the caller a call of *%rax.
const CODE_OF_ANOTHER_STACK: [(usize, &[u8]); 2] = [
    (0x04, &[0x48, 0x89, 0xec, 0x5d, 0xc3]),
    (0x2e, &[0xff, 0xd0]),
];

/// The stack to which rbp leads, with a saved rbp, a return address, the caller's CFA, and its return address. That of rsp,
/// 0x9000, can't be read.
const WORDS_OF_ANOTHER_STACK: [(u64, u64); 4] = [
    (0x7100, 0x7ff0),
    (0x7108, 0x401030),
    (0x7110, 0x7130),
    (0x7110 + 24, 0x401090),
];

/// What is known of the caller.
const KNOWN_BY_ANOTHER_STACK: [ColumnRow; 3] = [
    (1, 6, Some(0x7ff0)),
    (1, 7, Some(0x7110)),
    (1, 16, Some(0x401030)),
];

/// The frames, of which the first is in the middle of that function.
const FRAMES_OF_ANOTHER_STACK: [FrameRow; 3] = [
    (0x401004, false, FoundBy::First),
    (0x401030, true, FoundBy::Run),
    (0x401090, true, FoundBy::Cfi),
];

/// The stack where the row of the first frame is told by the word at rsp.
const ANOTHER_STACK: Stack<'static> = Stack {
    eh_frame: EH_FRAME_BY_WORD,
    code: &CODE_OF_ANOTHER_STACK,
    words: &WORDS_OF_ANOTHER_STACK,
    regs: (0x401004, 0x9000, 0x7100),
    frames: &FRAMES_OF_ANOTHER_STACK,
    columns: &KNOWN_BY_ANOTHER_STACK,
    ..EMPTY
};

#[test]
fn runs_code_whose_row_is_not_known(rt: HostRuntime) -> Result<(), Fail> {
    assert!(rt; is_found(rt.alloc(), &ANOTHER_STACK)?);
    Ok(())
}

#[test]
fn runs_no_code_for_want_of_the_return_address(rt: HostRuntime) -> Result<(), Fail> {
    let stack = Stack {
        eh_frame: EH_FRAME,
        frames: &FRAMES_OF_ANOTHER_STACK[..1],
        end: BacktraceEnd::ReturnAddressUnknown,
        columns: &[],
        ..ANOTHER_STACK
    };
    assert!(rt; is_found(rt.alloc(), &stack)?);
    Ok(())
}

/// The `.eh_frame` of [`EH_FRAME`], whose second FDE is for 0x401040 to 0x401080, with rax + 8 as its CFA.
const EH_FRAME_BY_RAX: &'static [u8] = &[
    0x14, 0x00, 0x00, 0x00, 0x00, 0x00, 0x00, 0x00, 0x01, 0x7a, 0x52, 0x00, 0x01, 0x78, 0x10, 0x01,
    0x1b, 0x0c, 0x07, 0x08, 0x90, 0x01, 0x00, 0x00, 0x14, 0x00, 0x00, 0x00, 0x1c, 0x00, 0x00, 0x00,
    0xe0, 0xef, 0xff, 0xff, 0x40, 0x00, 0x00, 0x00, 0x00, 0x0e, 0x20, 0x83, 0x03, 0x00, 0x00, 0x00,
    0x14, 0x00, 0x00, 0x00, 0x34, 0x00, 0x00, 0x00, 0x08, 0xf0, 0xff, 0xff, 0x40, 0x00, 0x00, 0x00,
    0x00, 0x0c, 0x00, 0x08, 0x00, 0x00, 0x00, 0x00, 0x00, 0x00, 0x00, 0x00,
];

/// Code of a function of the first FDE that keeps rax: add rsp, 24; ret.
const CODE_THAT_KEEPS_RAX: [(usize, &[u8]); 1] = [(0x04, &[0x48, 0x83, 0xc4, 0x18, 0xc3])];

/// The return addresses of that function, of its caller, which is where rax is, and of the next.
const WORDS_BY_RAX: [(u64, u64); 3] = [
    (0x7000 + 24, 0x401050),
    (0x7200, 0x401030),
    (0x7208 + 24, 0x401090),
];

/// The frames, of which the row of the second is by a register that the row of the first doesn't tell.
const FRAMES_BY_RAX: [FrameRow; 4] = [
    (0x401004, false, FoundBy::First),
    (0x401050, true, FoundBy::Cfi),
    (0x401030, true, FoundBy::Cfi),
    (0x401090, true, FoundBy::Cfi),
];

#[test]
fn knows_what_the_callee_keeps(rt: HostRuntime) -> Result<(), Fail> {
    let stack = Stack {
        eh_frame: EH_FRAME_BY_RAX,
        code: &CODE_THAT_KEEPS_RAX,
        words: &WORDS_BY_RAX,
        regs: (0x401004, 0x7000, 0),
        others: &[(Reg::RAX, 0x7200)],
        frames: &FRAMES_BY_RAX,
        end: BacktraceEnd::FramePointerZero,
        ..EMPTY
    };
    assert!(rt; is_found(rt.alloc(), &stack)?);
    Ok(())
}

/// Code of calls by their offsets. They end at 0x401010, 0x401020, 0x401030, 0x401040 and 0x401050.
const CALLS: &'static [(usize, &'static [u8])] = &[
    // call 0x4010c0, call 0x4010d0
    (0x0b, &[0xe8, 0xb0, 0x00, 0x00, 0x00]),
    (0x1b, &[0xe8, 0xb0, 0x00, 0x00, 0x00]),
    // call *%rax
    (0x2e, &[0xff, 0xd0]),
    // call 0x4011a0, call 0x4011b0
    (0x3b, &[0xe8, 0x60, 0x01, 0x00, 0x00]),
    (0x4b, &[0xe8, 0x60, 0x01, 0x00, 0x00]),
    // jmp *0x2fe2(%rip), endbr64 and bnd jmp *0x2fe2(%rip)
    (0x1a0, &[0xff, 0x25, 0xe2, 0x2f, 0x00, 0x00]),
    (
        0x1b0,
        &[
            0xf3, 0x0f, 0x1e, 0xfa, 0xf2, 0xff, 0x25, 0xe2, 0x2f, 0x00, 0x00,
        ],
    ),
];

/// Addresses after a call of another function than that at 0x4010d0, of that, of `*%rax`, of two entries of a procedure
/// linkage table, of code that nobody has, and after no call.
const OTHER: u64 = 0x401010;

const OF_FUNCTION: u64 = 0x401020;

const INDIRECT: u64 = 0x401030;

const BY_TABLE: u64 = 0x401040;

const BY_MARKED_TABLE: u64 = 0x401050;

const UNREAD: u64 = 0x401280;

const NO_CALL: u64 = 0x401014;

/// The word at the stack pointer, that of the frame pointer, and the caller.
type Compared = (u64, u64, Option<(u64, FoundBy)>);

const COMPARED: [Compared; 16] = [
    (OF_FUNCTION, INDIRECT, Some((OF_FUNCTION, FoundBy::Guess))),
    (
        OF_FUNCTION,
        OF_FUNCTION,
        Some((OF_FUNCTION, FoundBy::Guess)),
    ),
    (
        INDIRECT,
        OF_FUNCTION,
        Some((OF_FUNCTION, FoundBy::FramePointer)),
    ),
    (INDIRECT, OTHER, Some((INDIRECT, FoundBy::Guess))),
    (BY_TABLE, INDIRECT, Some((BY_TABLE, FoundBy::Guess))),
    (
        BY_MARKED_TABLE,
        INDIRECT,
        Some((BY_MARKED_TABLE, FoundBy::Guess)),
    ),
    (OTHER, INDIRECT, Some((OTHER, FoundBy::Guess))),
    (OTHER, BY_MARKED_TABLE, Some((OTHER, FoundBy::Guess))),
    (OTHER, NO_CALL, Some((OTHER, FoundBy::Guess))),
    (NO_CALL, OTHER, Some((OTHER, FoundBy::FramePointer))),
    (NO_CALL, NO_CALL, None),
    (UNREAD, INDIRECT, Some((UNREAD, FoundBy::Guess))),
    (
        UNREAD,
        OF_FUNCTION,
        Some((OF_FUNCTION, FoundBy::FramePointer)),
    ),
    (NO_CALL, UNREAD, Some((UNREAD, FoundBy::FramePointer))),
    // at the end of executable memory, and beyond it
    (0x401300, NO_CALL, Some((0x401300, FoundBy::Guess))),
    (0x401301, NO_CALL, None),
];

/// The stack of a function at 0x4010d0 with this code, words and frames, of which two are looked for.
fn of_function<'a>(
    pc: u64,
    code: &'a [(usize, &'static [u8])],
    words: &'a [(u64, u64)],
    frames: &'a [FrameRow],
) -> Stack<'a> {
    Stack {
        code,
        words,
        regs: (pc, 0x7000, 0x7100),
        function_start: Some(0x4010d0),
        limit: 2,
        frames,
        end: BacktraceEnd::Limit,
        ..EMPTY
    }
}

/// Whether of a function at 0x4010d0 that caller is found, or none. Of executable memory from 0x401200 to 0x401300 nothing is
/// known.
fn is_compared(alloc: Global, row: &Compared) -> Result<bool, Fail> {
    let (at_stack, at_frame, caller) = *row;
    let (address, found) = caller.unwrap_or((0, FoundBy::First));
    let frames = [(0x4010d0, false, FoundBy::First), (address, true, found)];
    let words = [(0x7000, at_stack), (0x7100, 0x7140), (0x7108, at_frame)];
    let count = if caller.is_some() { 2 } else { 1 };
    let found = frames.get(..count).unwrap_or(&[]);
    let mut stack = of_function(0x4010d0, CALLS, &words, found);
    stack.code_end = 0x401300;
    if caller.is_none() {
        stack.end = BacktraceEnd::NoCaller;
    }
    is_found(alloc, &stack)
}

#[test]
fn compares_the_calls_of_a_function(rt: HostRuntime) -> Result<(), Fail> {
    for row in COMPARED {
        assert!(rt; is_compared(rt.alloc(), &row)?, "{:x} {:x}", row.0, row.1);
    }
    Ok(())
}

/// A function at 0x4010d0 that sets its frame pointer, by its first bytes.
const SETS_IT: &'static [u8] = &[0x55, 0x48, 0x89, 0xe5];

const SETS_IT_OTHERWISE: &'static [u8] = &[0x55, 0x48, 0x8b, 0xec];

const SETS_IT_AFTER_ENDBR64: &'static [u8] = &[0xf3, 0x0f, 0x1e, 0xfa, 0x55, 0x48, 0x89, 0xe5];

const SETS_ANOTHER: &'static [u8] = &[0x55, 0x48, 0x89, 0xe3];

/// The first bytes of the function, the instruction pointer, the words at the stack pointer and at the frame pointer, and the
/// caller.
type Prologue = (&'static [u8], u64, (u64, u64), (u64, FoundBy));

const PROLOGUES: [Prologue; 9] = [
    (
        SETS_IT,
        0x4010d3,
        (OTHER, INDIRECT),
        (OTHER, FoundBy::Guess),
    ),
    (
        SETS_IT,
        0x4010d4,
        (OTHER, INDIRECT),
        (INDIRECT, FoundBy::FramePointer),
    ),
    (
        SETS_IT_OTHERWISE,
        0x4010e0,
        (OTHER, INDIRECT),
        (INDIRECT, FoundBy::FramePointer),
    ),
    (
        SETS_IT_AFTER_ENDBR64,
        0x4010d7,
        (OTHER, INDIRECT),
        (OTHER, FoundBy::Guess),
    ),
    (
        SETS_IT_AFTER_ENDBR64,
        0x4010d8,
        (OTHER, INDIRECT),
        (INDIRECT, FoundBy::FramePointer),
    ),
    (
        SETS_ANOTHER,
        0x4010d4,
        (OTHER, INDIRECT),
        (OTHER, FoundBy::Guess),
    ),
    // a direct call of the function
    (
        SETS_IT,
        0x4010d4,
        (OF_FUNCTION, INDIRECT),
        (OF_FUNCTION, FoundBy::Guess),
    ),
    // the frame pointer leads to no call
    (SETS_IT, 0x4010d4, (OTHER, NO_CALL), (OTHER, FoundBy::Guess)),
    (
        SETS_IT,
        0x4010d4,
        (NO_CALL, OTHER),
        (OTHER, FoundBy::FramePointer),
    ),
];

/// Whether that caller is found of a function at 0x4010d0 with those first bytes.
fn is_called_from(alloc: Global, prologue: &Prologue) -> Result<bool, Fail> {
    let (code, pc, (at_stack, at_frame), (address, found)) = *prologue;
    let mut pieces = [(0xd0, code); 8];
    for (place, piece) in pieces.iter_mut().zip(CALLS) {
        *place = *piece;
    }
    let words = [(0x7000, at_stack), (0x7100, 0x7140), (0x7108, at_frame)];
    let frames = [(pc, false, FoundBy::First), (address, true, found)];
    is_found(alloc, &of_function(pc, &pieces, &words, &frames))
}

#[test]
fn follows_a_frame_pointer_that_is_set(rt: HostRuntime) -> Result<(), Fail> {
    for prologue in PROLOGUES {
        assert!(rt; is_called_from(rt.alloc(), &prologue)?, "{:x}", prologue.1);
    }
    Ok(())
}

/// The return address of a function of the first FDE, after `call *%rax` of a function that no FDE covers.
const WORDS_OF_STARTS: [(u64, u64); 1] = [(0x7000 + 24, 0x4010e0)];

/// A frame of the first function, and of the second.
const FRAMES_OF_STARTS: [FrameRow; 2] = [
    (0x401004, false, FoundBy::First),
    (0x4010e0, true, FoundBy::Cfi),
];

/// The frame pointer, where the process begins, and the end.
const STARTS: [(u64, u64, BacktraceEnd); 4] = [
    (0, 0, BacktraceEnd::FramePointerZero),
    (
        8,
        0,
        BacktraceEnd::Refused(Error::FramepointerUnwindingMovedBackwards),
    ),
    (0, 0x4010df, BacktraceEnd::Root),
    (0, 0x4010e0, BacktraceEnd::FramePointerZero),
];

#[test]
fn a_process_begins_at_a_root(rt: HostRuntime) -> Result<(), Fail> {
    for (rbp, entry, end) in STARTS {
        let stack = Stack {
            words: &WORDS_OF_STARTS,
            regs: (0x401004, 0x7000, rbp),
            entry,
            frames: &FRAMES_OF_STARTS,
            end,
            ..EMPTY
        };
        assert!(rt; is_found(rt.alloc(), &stack)?, "{rbp:x} {entry:x}");
    }
    Ok(())
}

/// Words of two stacks of a call to no code: rsp is at the address after `call`, or at one after no call; the frame pointer
/// leads to one after `call *%rax`.
const WORDS_OF_LOST_CALLS: [(u64, u64); 4] = [
    (0x7000, 0x401010),
    (0x7008, 0x401014),
    (0x7100, 0x7140),
    (0x7108, 0x401030),
];

/// The stack pointer, and the caller.
const LOST_CALLS: [(u64, FrameRow); 2] = [
    (0x7000, (0x401010, true, FoundBy::Guess)),
    (0x7008, (0x401030, true, FoundBy::FramePointer)),
];

#[test]
fn returns_from_calls_to_no_code(rt: HostRuntime) -> Result<(), Fail> {
    for (rsp, caller) in LOST_CALLS {
        let stack = Stack {
            words: &WORDS_OF_LOST_CALLS,
            regs: (0, rsp, 0x7100),
            limit: 2,
            frames: &[(0, false, FoundBy::First), caller],
            end: BacktraceEnd::Limit,
            ..EMPTY
        };
        assert!(rt; is_found(rt.alloc(), &stack)?, "{rsp:x}");
    }
    Ok(())
}

/// An `.eh_frame` at 0x402000: a CIE, and an FDE for 0x401000 to 0x401040, whose CFA is rsp + 8 with rbx at the CFA - 16: as
/// after `pop %rbx`, below the stack pointer.
const EH_FRAME_OF_RESTORED: &'static [u8] = &[
    0x14, 0x00, 0x00, 0x00, 0x00, 0x00, 0x00, 0x00, 0x01, 0x7a, 0x52, 0x00, 0x01, 0x78, 0x10, 0x01,
    0x1b, 0x0c, 0x07, 0x08, 0x90, 0x01, 0x00, 0x00, 0x14, 0x00, 0x00, 0x00, 0x1c, 0x00, 0x00, 0x00,
    0xe0, 0xef, 0xff, 0xff, 0x40, 0x00, 0x00, 0x00, 0x00, 0x0e, 0x08, 0x83, 0x02, 0x00, 0x00, 0x00,
    0x00, 0x00, 0x00, 0x00,
];

/// Its code: pop rbx and ret, at 0x401025; a call of *%rax; pop rax and ret, which return elsewhere than the row says; and a
/// load of rbx from where it is saved, and ret.
const CODE_OF_RESTORED: [(usize, &[u8]); 4] = [
    (0x24, &[0x5b, 0xc3]),
    (0x2e, &[0xff, 0xd0]),
    (0x34, &[0x58, 0xc3]),
    (0x38, &[0x48, 0x8b, 0x5c, 0x24, 0xf8, 0xc3]),
];

/// Its stack, which begins at rsp: the return address of the row, and that of the code with `pop %rax`.
const WORDS_OF_RESTORED: [(u64, u64); 2] = [(0x7000, 0x401030), (0x7008, 0x401030)];

/// Where the frame is, and what is known of rbx in its caller.
const RESTORED: [(u64, Option<u64>); 3] = [
    (0x401025, Some(0xb0)),
    (0x401034, None),
    (0x401038, None),
];

#[test]
fn knows_registers_that_are_restored(rt: HostRuntime) -> Result<(), Fail> {
    for (pc, rbx) in RESTORED {
        let stack = Stack {
            eh_frame: EH_FRAME_OF_RESTORED,
            code: &CODE_OF_RESTORED,
            words: &WORDS_OF_RESTORED,
            regs: (pc, 0x7000, 0x7ff0),
            others: &[(Reg::RBX, 0xb0)],
            limit: 2,
            frames: &[(pc, false, FoundBy::First), (0x401030, true, FoundBy::Cfi)],
            end: BacktraceEnd::Limit,
            columns: &[(1, 3, rbx), (1, 6, Some(0x7ff0)), (1, 7, Some(0x7008))],
            ..EMPTY
        };
        assert!(rt; is_found(rt.alloc(), &stack)?, "{pc:x}");
    }
    Ok(())
}
