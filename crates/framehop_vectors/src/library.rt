//! The library on aarch64: an iterator, steps, and the list of modules.
use crate::unwinders::{Aarch64, holds, module, read_stack};
use framehop::aarch64::{CacheAarch64, UnwindRegsAarch64, UnwinderAarch64};
use framehop::unwinder::{ModuleListError, Unwinder};
use framehop::{Error, FrameAddress, Generations, Module};
use std::alloc::Global;
use std::test::Fail;

/// The step of the stack's first frame, with the address of its caller.
fn first_caller(
    unwinder: &UnwinderAarch64<Vec<u8>>,
    cache: &mut CacheAarch64,
) -> Result<Option<u64>, Error> {
    let mut read = |address| read_stack(address);
    let mut regs = UnwindRegsAarch64::new(0x1004e0830, 0x10, 0x20);
    let place = FrameAddress::from_instruction_pointer(0x1005252c0);
    unwinder.unwind_frame(place, &mut regs, cache, &mut read)
}

/// What five calls of an iterator over the stack return, and the registers after them.
fn frames(
    unwinder: &UnwinderAarch64<Vec<u8>>,
    cache: &mut CacheAarch64,
) -> ([Result<Option<FrameAddress>, Error>; 5], UnwindRegsAarch64) {
    let mut read = |address| read_stack(address);
    let regs = UnwindRegsAarch64::new(0x1004e0830, 0x10, 0x20);
    let mut frames = unwinder.iter_frames(0x1005252c0, regs, cache, &mut read);
    let mut found = [Ok(None); 5];
    for call in &mut found {
        *call = frames.next();
    }
    (found, *frames.regs())
}

/// Whether the iterator finds the frames of the stack, and after them `None`.
fn finds_the_frames(unwinder: &UnwinderAarch64<Vec<u8>>, cache: &mut CacheAarch64) -> bool {
    let (found, regs) = frames(unwinder, cache);
    let want = [
        Ok(Some(FrameAddress::from_instruction_pointer(0x1005252c0))),
        Ok(FrameAddress::from_return_address(0x1004fcdc4)),
        Ok(FrameAddress::from_return_address(0x100528a28)),
        Ok(None),
        Ok(None),
    ];
    found == want && (regs.lr(), regs.sp(), regs.fp()) == (0x100528a28, 0x50, 0x70)
}

/// Whether an iterator finds them by a new unwinder with a module, each of which the new cache misses.
fn misses_each_frame(alloc: Global) -> Result<bool, Fail> {
    let binary = module(alloc, "mybinary", 0x1003fc000, 0x100634000)?;
    let mut made = Aarch64::new(alloc, 0)?;
    let is_found = made.adds(binary) && finds_the_frames(&made.unwinder, &mut made.cache);
    let stats = made.cache.stats();
    Ok(is_found && (stats.hits(), stats.misses()) == (0, 3))
}

#[test]
fn walks_with_an_iterator(rt: HostRuntime) -> Result<(), Fail> {
    holds(misses_each_frame(rt.alloc())?)
}

/// Adds a module: whether the greatest code address is then this one.
fn raises_the_greatest(
    unwinder: &mut UnwinderAarch64<Vec<u8>>,
    generations: &mut Generations,
    module: Module<Vec<u8>>,
    greatest: u64,
) -> bool {
    match unwinder.add_module(module, generations) {
        Ok(()) => unwinder.max_known_code_address() == greatest,
        Err(_refused) => false,
    }
}

/// Adds modules of these ranges: whether each has the greatest code address beside it.
fn raise_the_greatest(
    alloc: Global,
    unwinder: &mut UnwinderAarch64<Vec<u8>>,
    generations: &mut Generations,
) -> Result<bool, Fail> {
    for (start, end, greatest) in [
        (5, 5, 5),
        (10, 20, 20),
        (40, 60, 60),
        (20, 30, 60),
        (10, 70, 70),
    ] {
        let module = module(alloc, "m", start, end)?;
        if !raises_the_greatest(unwinder, generations, module, greatest) {
            return Ok(false);
        }
    }
    Ok(true)
}

/// Whether the greatest code address is 0 at first, and goes down where a module is removed, but not in a clone: the
/// last one that starts at 10 is the one that ends at 70.
fn lowers_the_greatest(alloc: Global) -> Result<bool, Fail> {
    let mut generations = Generations::new();
    let mut unwinder: UnwinderAarch64<Vec<u8>> = UnwinderAarch64::new(alloc, &mut generations)?;
    let is_none = unwinder.max_known_code_address() == 0;
    let is_raised = raise_the_greatest(alloc, &mut unwinder, &mut generations)?;
    let copy = unwinder.clone()?;
    unwinder.remove_module(10, &mut generations)?;
    let are_lowered = (
        unwinder.max_known_code_address(),
        copy.max_known_code_address(),
    ) == (60, 70);
    Ok(is_none && is_raised && are_lowered)
}

#[test]
fn tells_the_greatest_code_address(rt: HostRuntime) -> Result<(), Fail> {
    holds(lowers_the_greatest(rt.alloc())?)
}

/// Whether a module comes back where the counter is at its end, and the unwinder has none.
fn gives_back(
    unwinder: &mut UnwinderAarch64<Vec<u8>>,
    generations: &mut Generations,
    binary: Module<Vec<u8>>,
) -> bool {
    match unwinder.add_module(binary, generations) {
        Ok(()) => false,
        Err(refused) => {
            refused.cause == ModuleListError::GenerationsExhausted
                && refused.module.name() == "mybinary"
                && unwinder.max_known_code_address() == 0
                && unwinder.remove_module(0x1003fc000, generations).is_ok()
        }
    }
}

/// Whether it is so with a new unwinder that has drawn the last generation, which still steps.
fn steps_without_a_generation(alloc: Global) -> Result<bool, Fail> {
    let binary = module(alloc, "mybinary", 0x1003fc000, 0x100634000)?;
    let mut made = Aarch64::new(alloc, 0xfffffffffffffffe)?;
    Ok(
        made.generations.is_exhausted()
            && gives_back(&mut made.unwinder, &mut made.generations, binary)
            && first_caller(&made.unwinder, &mut made.cache) == Ok(Some(0x1004fcdc4)),
    )
}

#[test]
fn gives_a_module_back_at_the_end_of_the_counter(rt: HostRuntime) -> Result<(), Fail> {
    holds(steps_without_a_generation(rt.alloc())?)
}

/// Makes an unwinder, a cache and a module, and then steps and walks, or does not: whether the frames are found.
/// The last allocation is this function's own.
fn makes(alloc: Global, is_stepped: bool) -> Result<bool, Fail> {
    let binary = module(alloc, "mybinary", 0x1003fc000, 0x100634000)?;
    let mut made = Aarch64::new(alloc, 0)?;
    let is_added = made.adds(binary);
    let is_found = !is_stepped
        || first_caller(&made.unwinder, &mut made.cache) == Ok(Some(0x1004fcdc4))
            && first_caller(&made.unwinder, &mut made.cache) == Ok(Some(0x1004fcdc4))
            && finds_the_frames(&made.unwinder, &mut made.cache);
    let _last: Vec<u8> = Vec::with_capacity(alloc, 1)?;
    Ok(is_added && is_found)
}

/// Steps and the calls of an iterator ask for no memory: this test and the next ask for it as often,
/// which `checks/refuse_allocations_in_tests.sh` shows by refusing one request after another.
#[test]
fn requests_of_the_makers(rt: HostRuntime) -> Result<(), Fail> {
    holds(makes(rt.alloc(), false)?)
}

#[test]
fn requests_of_the_makers_and_steps(rt: HostRuntime) -> Result<(), Fail> {
    holds(makes(rt.alloc(), true)?)
}
