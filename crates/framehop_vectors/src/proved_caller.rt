//! A caller with a contract of its own, as docs/EXAMPLES.md prints it: it rests on the clause `answers` of `walk`.
ghost use Rattle.std.specs.Prelude.{◌≡◌, IfOk};
ghost use Rattle.framehop_core.specs.Memory.{reply};
ghost use Rattle.framehop.specs.SessionView.{walk_of};
ghost use Rattle.framehop.specs.StackBytes.{memory_of_bytes};
ghost use Rattle.framehop.specs.Walk.{walk_from};

use crate::unwinders::holds;
use framehop::walk::{StackBytes, WalkEnd, Words, walk};
use framehop::x86_64::{CacheX86_64, UnwindRegsX86_64, UnwinderX86_64};
use framehop::{FrameAddress, Generations, Unwinder};
use std::alloc::{AllocError, Global};
use std::test::Fail;

/// Returns the frames of a stack whose bytes were copied, how the walk ended, and the registers there: those that the bytes of
/// the modules give, read afresh at each step, whatever the cache was used for before.
fn frames_of_copy<U: Unwinder>(
    alloc: Global,
    unwinder: &U,
    cache: &mut U::Cache,
    pc: u64,
    regs: U::UnwindRegs,
    stack: StackBytes<'_>,
    limit: u32,
) -> Result<(Vec<FrameAddress>, WalkEnd, U::UnwindRegs), AllocError>
    requires sound { U.is_sound (U.unwinder_view unwinder.now) cache.old }
    ensures frames { IfOk result (λ walk. walk_of walk.0.items walk.1 walk.2
        ≡ walk_from (λ location before. U.step unwinder.now location before (memory_of_bytes stack.entry.base stack.entry.bytes.now)) limit pc regs) }
{
    let mut read_stack = |address: u64| -> Result<u64, ()>
        ensures { result ≡ reply (memory_of_bytes stack.entry.base stack.entry.bytes.now address) }
    { stack.read(address) };
    Ok(walk(alloc, unwinder, cache, pc, regs, &mut read_stack, limit)?)
}

/// Whether the frames of a copy of four words are followed by the frame pointer, where there is no module.
fn follows_frame_pointers(alloc: Global) -> Result<bool, Fail> {
    let mut generations = Generations::new();
    let mut cache = CacheX86_64::new(alloc)?;
    let unwinder: UnwinderX86_64<Vec<u8>> = UnwinderX86_64::new(alloc, &mut generations)?;
    let mut bytes = [0; 32];
    bytes[0] = 0x20;
    bytes[8] = 0x77;
    let stack = StackBytes {
        base: 0x10,
        bytes: &bytes,
    };
    let regs = UnwindRegsX86_64::new(0x55, 0x8, 0x10);
    let (frames, end, after) = frames_of_copy(alloc, &unwinder, &mut cache, 0x55, regs, stack, 9)?;
    Ok(
        frames.as_slice().len() == 2
            && frames.as_slice()[1] == FrameAddress::from_return_address(0x77).ok_or("no address")?
            && end == WalkEnd::Root
            && after.bp() == 0x20,
    )
}

#[test]
fn follows_frame_pointers_in_a_copy(rt: HostRuntime) -> Result<(), Fail> {
    holds(follows_frame_pointers(rt.alloc())?)
}
