//! The library on x86_64: an iterator, under both allocation policies, and two modules in one place.
use crate::unwinders::{X86_64, holds, module};
use framehop::x86_64::{CacheX86_64, UnwindRegsX86_64, UnwinderX86_64};
use framehop::{
    AllocationPolicy, Error, ExplicitModuleSectionInfo, FrameAddress, Generations,
    MayAllocateDuringUnwind, Module, MustNotAllocateDuringUnwind, Unwinder,
};
use framehop_walk::section_bytes;
use std::alloc::Global;
use std::test::Fail;

pub(crate) static STACK: [u64; 16] = [
    1, 2, 0x100300, 4, 0x40, 0x100200, 5, 6, 0x70, 0x100100, 7, 8, 9, 10, 0, 0,
];

fn read_stack(address: u64) -> Result<u64, ()> {
    STACK.get((address / 8) as usize).copied().ok_or(())
}

/// What four calls of an iterator give, and the registers after them.
type Frames = ([Result<Option<FrameAddress>, Error>; 4], UnwindRegsX86_64);

/// The frames of the stack, as an unwinder finds them.
fn frames<P: AllocationPolicy>(
    unwinder: &UnwinderX86_64<Vec<u8>, P>,
    cache: &mut CacheX86_64<P>,
) -> Frames {
    let mut read = |address| read_stack(address);
    let regs = UnwindRegsX86_64::new(0x100400, 0x10, 0x20);
    let mut frames = unwinder.iter_frames(0x100400, regs, cache, &mut read);
    let mut found = [Ok(None); 4];
    for call in &mut found {
        *call = frames.next();
    }
    (found, *frames.regs())
}

/// Whether an iterator finds the frames of the stack.
fn finds_the_frames<P: AllocationPolicy>(
    unwinder: &UnwinderX86_64<Vec<u8>, P>,
    cache: &mut CacheX86_64<P>,
) -> bool {
    let want = [
        Ok(Some(FrameAddress::from_instruction_pointer(0x100400))),
        Ok(FrameAddress::from_return_address(0x100200)),
        Ok(FrameAddress::from_return_address(0x100100)),
        Ok(None),
    ];
    let at_root = UnwindRegsX86_64::new(0x100100, 0x50, 0x70);
    frames(unwinder, cache) == (want, at_root)
}

/// Whether a new unwinder knows no address, and finds the frames by a new cache.
fn walks<P: AllocationPolicy>(alloc: Global) -> Result<bool, Fail> {
    let mut made = X86_64::<P>::new(alloc)?;
    Ok(
        made.unwinder.max_known_code_address() == 0
            && finds_the_frames(&made.unwinder, &mut made.cache),
    )
}

#[test]
fn walks_where_memory_may_be_taken(rt: HostRuntime) -> Result<(), Fail> {
    holds(walks::<MayAllocateDuringUnwind>(rt.alloc())?)
}

#[test]
fn walks_where_no_memory_may_be_taken(rt: HostRuntime) -> Result<(), Fail> {
    holds(walks::<MustNotAllocateDuringUnwind>(rt.alloc())?)
}

/// A CIE, and an FDE from 0x1000 to 0x1020: at its start the return address is on top of the stack.
const EH_FRAME: &str = "1400000000000000017a5200017810011b0c070890010000\
    180000001c000000e0efffff2000000000410e108602430d0600000000000000";

/// A module from 0x1000 to 0x2100 with that `.eh_frame` at 0x2000, and the base 0.
pub(crate) fn with_an_fde(alloc: Global) -> Result<Module<Vec<u8>>, Fail> {
    let sections = ExplicitModuleSectionInfo {
        eh_frame_svma: Some(0x2000..0x2038),
        eh_frame: Some(section_bytes(alloc, EH_FRAME)?),
        ..ExplicitModuleSectionInfo::default()
    };
    Ok(Module::new(alloc, String::new(alloc), 0x1000..0x2100, 0, sections)?)
}

/// The greatest code address, and the caller of a first frame at 0x1000.
fn greatest_and_caller(
    unwinder: &UnwinderX86_64<Vec<u8>>,
    cache: &mut CacheX86_64,
) -> (u64, Result<Option<u64>, Error>) {
    let mut read = |address| read_stack(address);
    let mut regs = UnwindRegsX86_64::new(0x1000, 0x10, 0x20);
    let place = FrameAddress::from_instruction_pointer(0x1000);
    let caller = unwinder.unwind_frame(place, &mut regs, cache, &mut read);
    (unwinder.max_known_code_address(), caller)
}

/// Whether of two modules in one place the newest is looked up, and then removed.
fn looks_up_the_newest(alloc: Global) -> Result<bool, Fail> {
    let mut generations = Generations::new();
    let mut cache = CacheX86_64::new(alloc)?;
    let mut unwinder: UnwinderX86_64<Vec<u8>> = UnwinderX86_64::new(alloc, &mut generations)?;
    let older = module(alloc, "older", 0x1000, 0x2100)?;
    let are_added = unwinder.add_module(older, &mut generations).is_ok()
        && unwinder
            .add_module(with_an_fde(alloc)?, &mut generations)
            .is_ok();
    let by_newest = greatest_and_caller(&unwinder, &mut cache);
    unwinder.remove_module(0x1000, &mut generations)?;
    let by_older = greatest_and_caller(&unwinder, &mut cache);
    Ok(
        are_added
            && by_newest == (0x2100, Ok(Some(0x100300)))
            && by_older == (0x2100, Ok(Some(0x100200))),
    )
}

#[test]
fn two_modules_in_one_place(rt: HostRuntime) -> Result<(), Fail> {
    holds(looks_up_the_newest(rt.alloc())?)
}
