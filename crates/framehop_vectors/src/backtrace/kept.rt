//! What a walk keeps of the rows that it finds.
use crate::backtrace::dump::{CODE_SIZE, dump_of, file_of};
use crate::backtrace::unwinders::{LentX86_64, sections_of, unwinder_x86_64};
use crate::backtrace::x86_64::{EH_FRAME, backtrace_in};
use framehop::Generations;
use framehop::x86_64::UnwindRegsX86_64;
use framehop_backtrace::{BacktraceEnd, RowFinding, Rows};
use framehop_cfi::context::UnwindContext;
use framehop_cfi::storage::UnwindContextStorage;
use framehop_core::FrameAddress;
use std::alloc::{AllocError, Global};
use std::cell::Cell;
use std::test::Fail;

/// Rows that count how often they are asked for one.
#[derive(Drop)]
struct Counted<'a, W> {
    rows: &'a W,
    asked: Cell<usize>,
}

impl<'a, W: Rows> Rows for Counted<'a, W> {
    ghost rows = { λ counted. W.rows counted.rows.now };

    fn row_at<S: UnwindContextStorage>(
        &self,
        unwind_context: &mut UnwindContext<S>,
        address: FrameAddress,
    ) -> Result<RowFinding<'_>, AllocError> {
        self.asked.set(self.asked.get().saturating_add(1));
        self.rows.row_at(unwind_context, address)
    }
}

/// The return addresses of the function of the first FDE, which calls itself, up to the outermost function. That of the first
/// frame is its instruction pointer, too, at which it is another frame.
const WORDS: [(u64, u64); 5] = [
    (0x7018, 0x401010),
    (0x7038, 0x401010),
    (0x7058, 0x401030),
    (0x7078, 0x401010),
    // at the same place as 0x401010
    (0x7098, 0x401090),
];

/// Returns how a backtrace ends, how many frames it has, and how often it has asked for a row.
fn asked(alloc: Global, unwinder: &LentX86_64) -> Result<(BacktraceEnd, usize, usize), AllocError> {
    let file = file_of(&[], &WORDS);
    let memory = dump_of(alloc, &file, CODE_SIZE)?;
    let regs = UnwindRegsX86_64::new(0x401010, 0x7000, 0x7ff0);
    let rows = Counted {
        rows: unwinder,
        asked: Cell::new(0),
    };
    let found = backtrace_in(alloc, unwinder, &rows, &memory, regs, 10)?;
    Ok((found.end, found.frames.len(), rows.asked.get()))
}

#[test]
fn asks_once_for_an_address(rt: HostRuntime) -> Result<(), Fail> {
    let sections = sections_of(0x400000, Some(EH_FRAME), 0x402000..0x40204c, None);
    let unwinder = unwinder_x86_64(rt.alloc(), &mut Generations::new(), sections)?;
    assert!(rt; asked(rt.alloc(), &unwinder)? == (BacktraceEnd::Root, 6, 4));
    Ok(())
}
