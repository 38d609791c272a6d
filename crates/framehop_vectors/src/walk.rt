//! Walks to the end of a stack, without a limit.
use crate::unwinders::{Aarch64, binary, holds, read_stack};
use framehop::FrameAddress;
use framehop::aarch64::UnwindRegsAarch64;
use framehop::session::{Reply, WalkEnd, walk_to_end_aarch64};
use std::alloc::Global;
use std::test::Fail;

/// Whether a walk has the three frames of the stack, and its registers at the root.
fn is_of_the_stack(reply: &Reply<UnwindRegsAarch64>) -> bool {
    match reply {
        Reply::Walk { frames, end, regs } => {
            let [first, second, third] = frames.as_slice() else {
                return false;
            };
            *first == FrameAddress::from_instruction_pointer(0x1005252c0)
                && Some(*second) == FrameAddress::from_return_address(0x1004fcdc4)
                && Some(*third) == FrameAddress::from_return_address(0x100528a28)
                && *end == WalkEnd::Root
                && (regs.lr(), regs.sp(), regs.fp()) == (0x100528a28, 0x50, 0x70)
        }
        _ => false,
    }
}

/// Whether a walk without a limit has them, through a module whose sections have no bytes.
fn has_the_frames(alloc: Global) -> Result<bool, Fail> {
    let binary = binary(alloc)?;
    let mut made = Aarch64::new(alloc, 0)?;
    let is_added = made.adds(binary);
    let regs = UnwindRegsAarch64::new(0x1004e0830, 0x10, 0x20);
    let mut read = |address| read_stack(address);
    let reply = walk_to_end_aarch64(
        alloc,
        &made.unwinder,
        &mut made.cache,
        0x1005252c0,
        regs,
        &mut read,
    )?;
    Ok(is_added && is_of_the_stack(&reply))
}

#[test]
fn walks_through_a_module(rt: HostRuntime) -> Result<(), Fail> {
    holds(has_the_frames(rt.alloc())?)
}

/// The frame records of 5,000 frames, 16 bytes each. The last one has no caller's.
const END: u64 = 0x10000 + 5_000 * 16;

/// A word of the records: the caller's frame pointer, or the return address, which is a word above it.
fn read_record(address: u64) -> Result<u64, ()> {
    match END.checked_sub(address) {
        Some(8 | 16) => Ok(0),
        Some(below) if below % 16 == 0 => Ok(address + 16),
        Some(_) => Ok(0x100000 + address / 4),
        None => Err(()),
    }
}

/// Whether a walk has all frames. The record below the last one is at 0x23860, and its return address at
/// 0x23868.
fn is_whole(reply: &Reply<UnwindRegsAarch64>) -> bool {
    match reply {
        Reply::Walk { frames, end, regs } => {
            frames.len() == 5_000
                && *end == WalkEnd::Root
                && frames.get(4_999).copied() == FrameAddress::from_return_address(0x108e1a)
                && (regs.lr(), regs.sp(), regs.fp()) == (0x108e1a, 0x23870, 0x23870)
        }
        _ => false,
    }
}

/// Whether a walk without a limit has all frames, each of which the cache missed.
fn has_all_frames(alloc: Global) -> Result<bool, Fail> {
    let mut made = Aarch64::new(alloc, 0)?;
    let regs = UnwindRegsAarch64::new(0x100000, 0x10000, 0x10000);
    let mut read = |address| read_record(address);
    let reply = walk_to_end_aarch64(
        alloc,
        &made.unwinder,
        &mut made.cache,
        0x100000,
        regs,
        &mut read,
    )?;
    let stats = made.cache.stats();
    Ok(is_whole(&reply) && (stats.hits(), stats.misses()) == (0, 5_000))
}

#[test]
fn walks_to_the_end(rt: HostRuntime) -> Result<(), Fail> {
    holds(has_all_frames(rt.alloc())?)
}
