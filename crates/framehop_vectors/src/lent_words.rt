//! Steps and walks over words that are lent.
use crate::unwinders::{Aarch64, STACK, X86_64, holds};
use framehop::aarch64::{CacheAarch64, UnwindRegsAarch64, UnwinderAarch64};
use framehop::session::WalkEnd;
use framehop::x86_64::{CacheX86_64, UnwindRegsX86_64, UnwinderX86_64};
use framehop::{Error, FrameAddress, MayAllocateDuringUnwind};
use framehop_lent::{WalkStop, Window, step_over, told, walk_into, walk_on, word_at};
use std::alloc::Global;
use std::test::Fail;

/// Whether words are told by their addresses, of one list and of windows.
fn tells_each_word() -> bool {
    let words = [1, 2];
    for (address, word) in [(0x18, Ok(2)), (0x14, Err(())), (0x20, Err(()))] {
        if word_at(0x10, &words, address) != word {
            return false;
        }
    }
    let windows = [
        Window {
            base: 0x20,
            words: &[],
        },
        Window {
            base: 0x10,
            words: &words,
        },
    ];
    for (address, word) in [(0x10, Some(Ok(1))), (0x20, Some(Err(()))), (0x28, None)] {
        if told(&windows, address) != word {
            return false;
        }
    }
    true
}

#[test]
fn tells_of_words(rt: HostRuntime) {
    assert!(rt; tells_each_word());
}

/// The registers lr, sp and fp.
fn registers_of(regs: UnwindRegsAarch64) -> (u64, u64, u64) {
    (regs.lr(), regs.sp(), regs.fp())
}

/// Whether a walk writes the frames.
fn writes_frames(unwinder: &UnwinderAarch64<Vec<u8>>, cache: &mut CacheAarch64) -> bool {
    let stack = Window {
        base: 0,
        words: &STACK,
    };
    let mut regs = UnwindRegsAarch64::new(0x1004e0830, 0x10, 0x20);
    let mut frames = [0; 4];
    let walked = walk_into(unwinder, cache, 0x1005252c0, &mut regs, &stack, &mut frames);
    frames == [0x1005252c0, 0x1004fcdc4, 0x100528a28, 0]
        && walked == (3, WalkEnd::Root)
        && registers_of(regs) == (0x100528a28, 0x50, 0x70)
}

/// The same by a new unwinder and a new cache.
fn walks_into(alloc: Global) -> Result<bool, Fail> {
    let mut made = Aarch64::new(alloc, 0)?;
    Ok(writes_frames(&made.unwinder, &mut made.cache))
}

#[test]
fn walks_into_addresses_on_aarch64(rt: HostRuntime) -> Result<(), Fail> {
    holds(walks_into(rt.alloc())?)
}

/// What a step over windows gives, the registers after it, and the missing word.
type Step = (Result<Option<u64>, Error>, UnwindRegsX86_64, Option<u64>);

/// A step, before which a word was missing or none.
fn stepped(
    unwinder: &UnwinderX86_64<Vec<u8>>,
    cache: &mut CacheX86_64,
    windows: &[Window<'_>],
    missing: Option<u64>,
) -> Step {
    let pc = FrameAddress::from_instruction_pointer(0x100400);
    let mut regs = UnwindRegsX86_64::new(0x100400, 0x10, 0x20);
    let mut missing = missing;
    let step = step_over(unwinder, cache, pc, &mut regs, windows, &mut missing);
    (step, regs, missing)
}

/// Whether a step without words names the one that is missing, and one with them none.
fn names_the_missing(unwinder: &UnwinderX86_64<Vec<u8>>, cache: &mut CacheX86_64) -> bool {
    let windows = [Window {
        base: 0,
        words: &crate::x86_64::STACK,
    }];
    let refused = (
        Err(Error::CouldNotReadStack(0x20)),
        UnwindRegsX86_64::new(0x100400, 0x10, 0x20),
        Some(0x20),
    );
    let answered = (
        Ok(Some(0x100200)),
        UnwindRegsX86_64::new(0x100200, 0x30, 0x40),
        None,
    );
    stepped(unwinder, cache, &[], None) == refused
        && stepped(unwinder, cache, &windows, Some(0x20)) == answered
}

/// The same by a new unwinder and a new cache.
fn steps(alloc: Global) -> Result<bool, Fail> {
    let mut made = X86_64::<MayAllocateDuringUnwind>::new(alloc)?;
    Ok(names_the_missing(&made.unwinder, &mut made.cache))
}

#[test]
fn steps_and_names_the_missing_word_on_x86_64(rt: HostRuntime) -> Result<(), Fail> {
    holds(steps(rt.alloc())?)
}

/// A walk that goes on over windows: the frames, how many are new and how it stops, and the registers after it.
type Walk = ([u64; 4], (usize, WalkStop), (u64, u64, u64));

/// Walks on from a frame, and writes its callers from the slot of this number on.
fn walked_on(
    unwinder: &UnwinderAarch64<Vec<u8>>,
    cache: &mut CacheAarch64,
    start: (FrameAddress, UnwindRegsAarch64),
    window: Window<'_>,
    slot: usize,
) -> Walk {
    let (pc, mut regs) = start;
    let mut frames = [0; 4];
    let slots = frames.get_mut(slot..).unwrap_or(&mut []);
    let stopped = walk_on(unwinder, cache, pc, &mut regs, &[window], slots);
    (frames, stopped, registers_of(regs))
}

/// Whether a walk over the first frame's words writes its caller, and tells which word is missing.
fn stops_at_a_missing_word(unwinder: &UnwinderAarch64<Vec<u8>>, cache: &mut CacheAarch64) -> bool {
    let first = FrameAddress::from_instruction_pointer(0x1005252c0);
    let regs = UnwindRegsAarch64::new(0x1004e0830, 0x10, 0x20);
    let window = Window {
        base: 0x20,
        words: &STACK[4..6],
    };
    walked_on(unwinder, cache, (first, regs), window, 0)
        == (
            [0x1004fcdc4, 0, 0, 0],
            (1, WalkStop::Missing(0x48)),
            (0x1004fcdc4, 0x30, 0x40),
        )
}

/// Whether a walk over the other words, from that caller on, writes the next frame, and comes to the root.
fn goes_on_to_the_root(unwinder: &UnwinderAarch64<Vec<u8>>, cache: &mut CacheAarch64) -> bool {
    let Some(caller) = FrameAddress::from_return_address(0x1004fcdc4) else {
        return false;
    };
    let regs = UnwindRegsAarch64::new(0x1004fcdc4, 0x30, 0x40);
    let window = Window {
        base: 0,
        words: &STACK,
    };
    walked_on(unwinder, cache, (caller, regs), window, 1)
        == (
            [0, 0x100528a28, 0, 0],
            (1, WalkStop::Ended(WalkEnd::Root)),
            (0x100528a28, 0x50, 0x70),
        )
}

/// Both by a new unwinder and a new cache.
fn walks_on(alloc: Global) -> Result<bool, Fail> {
    let mut made = Aarch64::new(alloc, 0)?;
    Ok(
        stops_at_a_missing_word(&made.unwinder, &mut made.cache)
            && goes_on_to_the_root(&made.unwinder, &mut made.cache),
    )
}

#[test]
fn walks_on_up_to_a_missing_word(rt: HostRuntime) -> Result<(), Fail> {
    holds(walks_on(rt.alloc())?)
}
