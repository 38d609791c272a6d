//! The examples of docs/EXAMPLES.md, as they are printed there, and a walk on aarch64.

mod minidump;

use crate::unwinders::{Aarch64, binary, holds, read_stack, sections_of_binary};
use framehop::aarch64::{CacheAarch64, UnwindRegsAarch64, UnwinderAarch64};
use framehop::x86_64::{CacheX86_64, UnwindRegsX86_64, UnwinderX86_64};
use framehop::{
    ExplicitModuleSectionInfo, Generations, Module, MustNotAllocateDuringUnwind, Unwinder,
};
use framehop_walk::section_bytes;
use std::alloc::Global;
use std::test::Fail;

/// Prints the frames of a stack. On aarch64 each frame raises the stack pointer, so a walk without a limit ends.
fn print_frames(
    unwinder: &UnwinderAarch64<Vec<u8>>,
    cache: &mut CacheAarch64,
    out: &mut String,
) -> Result<(), Fail> {
    let mut read_stack = |address| read_stack(address);
    let regs = UnwindRegsAarch64::new(0x1004e0830, 0x10, 0x20);
    let mut frames = unwinder.iter_frames(0x1005252c0, regs, cache, &mut read_stack);
    // An `Err` is the usual end of a stack that is cut off: the frames before it are good.
    while let Ok(Some(frame)) = frames.next() {
        write!(out, "{:x} ", frame.address())?;
    }
    Ok(())
}

/// Whether the sections of a file equal their clone.
fn equals_its_clone(sections: &ExplicitModuleSectionInfo<Vec<u8>>) -> bool {
    match sections.clone() {
        Ok(copy) => copy == *sections,
        Err(_) => false,
    }
}

/// Whether the frames of the stack are printed, through a module whose sections equal their clone.
fn prints_frames(alloc: Global) -> Result<bool, Fail> {
    let binary = binary(alloc)?;
    let mut made = Aarch64::new(alloc, 0)?;
    let is_added = equals_its_clone(&sections_of_binary(alloc)) && made.adds(binary);
    let mut out = String::new(alloc);
    print_frames(&made.unwinder, &mut made.cache, &mut out)?;
    Ok(is_added && out.as_str() == "1005252c0 1004fcdc4 100528a28 ")
}

#[test]
fn prints_the_stack(rt: HostRuntime) -> Result<(), Fail> {
    holds(prints_frames(rt.alloc())?)
}

/// What a module's file states: its base (0 in an ELF file), where sections are, their bytes.
fn sections_of_file(eh_frame: Vec<u8>) -> ExplicitModuleSectionInfo<Vec<u8>> {
    ExplicitModuleSectionInfo {
        base_svma: 0,
        text_svma: Some(0x1000..0x2000),
        eh_frame_svma: Some(0x2000..0x2038),
        eh_frame: Some(eh_frame),
        ..ExplicitModuleSectionInfo::default()
    }
}

/// The frames of a stack, the innermost first, and whether its root was found. The words of `stack` begin at the stack pointer.
fn frames_of_stack(
    alloc: Global,
    eh_frame: Vec<u8>,
    regs: UnwindRegsX86_64,
    stack: &[u64],
) -> Result<(Vec<u64>, bool), anyhow::Error> {
    // One counter for all unwinders that share a cache.
    let mut generations = Generations::new();
    let mut cache = CacheX86_64::new(alloc)?;
    let mut unwinder: UnwinderX86_64<Vec<u8>> = UnwinderX86_64::new(alloc, &mut generations)?;

    // Where the file is in the process: its code, and its base.
    let sections = sections_of_file(eh_frame);
    let name = String::from_str(alloc, "libexample.so")?;
    let module = Module::new(
        alloc,
        name,
        0x7f0000001000..0x7f0000003000,
        0x7f0000000000,
        sections,
    )?;
    if let Err(refused) = unwinder.add_module(module, &mut generations) {
        // The module comes back in `refused.module`.
        return Err(refused.cause)?;
    }

    let stack_start = regs.sp();
    let mut read_stack = |address: u64| {
        let offset = address.checked_sub(stack_start).ok_or(())?;
        stack.get((offset / 8) as usize).copied().ok_or(())
    };
    let mut walk = unwinder.iter_frames(regs.ip(), regs, &mut cache, &mut read_stack);
    let mut frames = Vec::new(alloc);
    // A damaged stack can lead anywhere: so a limit.
    for _ in 0..1000 {
        match walk.next() {
            Ok(Some(frame)) => frames.push(frame.address_for_lookup())?,
            Ok(None) => return Ok((frames, true)),
            // The stack is cut off here. The frames before are good: keep them.
            Err(_) => break,
        }
    }
    Ok((frames, false))
}

/// Writes the frames of a stopped thread to `frames`, and returns how many there are. Takes no memory.
fn sample(
    unwinder: &UnwinderX86_64<Vec<u8>, MustNotAllocateDuringUnwind>,
    cache: &mut CacheX86_64<MustNotAllocateDuringUnwind>,
    regs: UnwindRegsX86_64,
    stack: &[u64],
    frames: &mut [u64],
) -> usize {
    let stack_start = regs.sp();
    let mut read_stack = |address: u64| {
        let offset = address.checked_sub(stack_start).ok_or(())?;
        stack.get((offset / 8) as usize).copied().ok_or(())
    };
    let mut walk = unwinder.iter_frames(regs.ip(), regs, cache, &mut read_stack);
    // The room for frames is the limit.
    for (count, slot) in frames.iter_mut().enumerate() {
        let Ok(Some(frame)) = walk.next() else {
            return count;
        };
        *slot = frame.address_for_lookup();
    }
    frames.len()
}

/// A function whose first instruction is not yet run, as its `.eh_frame` says; its callers have frame pointers.
const EH_FRAME: &str = "1400000000000000017a5200017810011b0c070890010000\
    180000001c000000e0efffff2000000000410e108602430d0600000000000000";

/// The words from the stack pointer on.
static FRAMES: [u64; 14] = [
    0x7f0000100300,
    4,
    0x7ffc00000040,
    0x7f0000100200,
    5,
    6,
    0x7ffc00000070,
    0x7f0000100100,
    7,
    8,
    9,
    10,
    0,
    0,
];

/// The frames of these words.
static ADDRESSES: [u64; 4] = [
    0x7f0000001000,
    0x7f00001002ff,
    0x7f00001001ff,
    0x7f00001000ff,
];

/// Whether the frames of a stack of so many words are so many of these, and whether it is whole.
fn has_frames(alloc: Global, words: &[u64], count: usize, is_whole: bool) -> Result<bool, Fail> {
    let eh_frame = section_bytes(alloc, EH_FRAME)?;
    let regs = UnwindRegsX86_64::new(0x7f0000001000, 0x7ffc00000010, 0x7ffc00000020);
    let found = frames_of_stack(alloc, eh_frame, regs, words)?;
    Ok(found.0.as_slice() == ADDRESSES.get(..count).unwrap_or(&[]) && found.1 == is_whole)
}

#[test]
fn finds_the_frames_of_a_stack(rt: HostRuntime) -> Result<(), Fail> {
    let alloc = rt.alloc();
    holds(has_frames(alloc, &FRAMES, 4, true)?)?;
    // cut off within the third frame
    holds(has_frames(alloc, &FRAMES[..7], 3, false)?)
}

/// Whether those of the file with that `.eh_frame` equal their clone.
fn clones_the_sections(alloc: Global) -> Result<bool, Fail> {
    let sections = sections_of_file(section_bytes(alloc, EH_FRAME)?);
    Ok(equals_its_clone(&sections))
}

#[test]
fn clones_the_sections_of_a_file(rt: HostRuntime) -> Result<(), Fail> {
    holds(clones_the_sections(rt.alloc())?)
}

/// Whether frames are sampled where there is room for more than there are, and for fewer.
fn are_sampled(
    unwinder: &UnwinderX86_64<Vec<u8>, MustNotAllocateDuringUnwind>,
    cache: &mut CacheX86_64<MustNotAllocateDuringUnwind>,
) -> bool {
    let regs = UnwindRegsX86_64::new(0x7f0000001000, 0x7ffc00000010, 0x7ffc00000020);
    let mut frames = [0; 5];
    let mut first = [0; 2];
    // without a module the frame pointer is followed
    sample(unwinder, cache, regs, &FRAMES, &mut frames) == 3
        && frames == [0x7f0000001000, 0x7f00001001ff, 0x7f00001000ff, 0, 0]
        && sample(unwinder, cache, regs, &FRAMES, &mut first) == 2
        && first == [0x7f0000001000, 0x7f00001001ff]
}

/// The same by a new unwinder and a new cache.
fn samples(alloc: Global) -> Result<bool, Fail> {
    let mut generations = Generations::new();
    let mut cache = CacheX86_64::new_in(alloc)?;
    let unwinder = UnwinderX86_64::new(alloc, &mut generations)?;
    Ok(are_sampled(&unwinder, &mut cache))
}

#[test]
fn samples_a_stack(rt: HostRuntime) -> Result<(), Fail> {
    holds(samples(rt.alloc())?)
}
