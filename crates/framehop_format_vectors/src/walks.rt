//! Walks on aarch64 in which one read of the stack fails.
use crate::steps::{Failing, Stack};
use crate::totals::holds;
use framehop::aarch64::{CacheAarch64, UnwindRegsAarch64, UnwinderAarch64};
use framehop::section::ExplicitModuleSectionInfo;
use framehop::{
    Error, FrameAddress, Generations, Module, ModuleListError, MustNotAllocateDuringUnwind,
    Unwinder,
};
use std::alloc::Global;
use std::test::Fail;

/// What an iterator gives.
type Next = Result<Option<FrameAddress>, Error>;

/// The first calls of a walk.
#[derive(Clone, Copy)]
pub(crate) struct Walk {
    pub(crate) calls: [Next; 5],
    pub(crate) hits: u64,
    pub(crate) misses: u64,
}

/// Frame records at 0x20, 0x40 and 0x70.
static FRAME_RECORDS: Stack = Stack {
    base: 0,
    words: &[
        1,
        2,
        3,
        4,
        0x40,
        0x1004fcdc4,
        5,
        6,
        0x70,
        0x100528a28,
        7,
        8,
        9,
        10,
        0,
        0,
    ],
};

/// A module with an empty `__unwind_info`.
fn binary(alloc: Global) -> Result<Module<Vec<u8>>, ModuleListError> {
    let name = String::new(alloc);
    let sections = ExplicitModuleSectionInfo {
        base_svma: 0x100000000,
        unwind_info: Some(Vec::new(alloc)),
        ..ExplicitModuleSectionInfo::default()
    };
    Module::new(alloc, name, 0x1003fc000..0x100634000, 0x1003fc000, sections)
}

/// Walks by frame pointers under the policy that must not allocate, where these reads fail, or makes only what the walk
/// needs.
pub(crate) fn first_calls(
    alloc: Global,
    failing: Failing,
    is_walked: bool,
) -> Result<Walk, ModuleListError> {
    let mut generations = Generations::new();
    let Ok(mut cache) = CacheAarch64::<MustNotAllocateDuringUnwind>::new_in(alloc) else {
        return Err(ModuleListError::OutOfMemory);
    };
    let mut unwinder: UnwinderAarch64<Vec<u8>, MustNotAllocateDuringUnwind> = UnwinderAarch64::new(
        alloc,
        &mut generations,
    )?;
    if let Err(refused) = unwinder.add_module(binary(alloc)?, &mut generations) {
        return Err(refused.cause);
    }
    let mut number = 0u32;
    let mut read = |address: u64| -> Result<u64, ()> {
        number = number.saturating_add(1);
        if failing.fails(number) {
            return Err(());
        }
        FRAME_RECORDS.word(address)
    };
    let mut calls = [Ok(None); 5];
    if is_walked {
        let regs = UnwindRegsAarch64::new(0x1004e0830, 0x10, 0x20);
        let mut frames = unwinder.iter_frames(0x1005252c0, regs, &mut cache, &mut read);
        for call in &mut calls {
            *call = frames.next();
        }
    }
    let stats = cache.stats();
    Ok(Walk {
        calls,
        hits: stats.hits(),
        misses: stats.misses(),
    })
}

/// A read that fails is the end of its call, and the next call tries the frame again by the rule that was stored.
#[test]
fn fails_at_each_read(rt: HostRuntime) -> Result<(), Fail> {
    let frames = [
        Ok(Some(FrameAddress::from_instruction_pointer(0x1005252c0))),
        Ok(FrameAddress::from_return_address(0x1004fcdc4)),
        Ok(FrameAddress::from_return_address(0x100528a28)),
        Ok(None),
    ];
    let [start, second, third, root] = frames;
    for (failing, address) in [
        (1, 0x28),
        (2, 0x20),
        (3, 0x48),
        (4, 0x40),
        (5, 0x78),
        (6, 0x70),
    ] {
        let refused = Err(Error::CouldNotReadStack(address));
        let want = match failing {
            1 | 2 => [start, refused, second, third, root],
            3 | 4 => [start, second, refused, third, root],
            _ => [start, second, third, refused, root],
        };
        let found = first_calls(rt.alloc(), Failing::Only(failing), true)?;
        holds(
            found.calls == want && found.hits == 1 && found.misses == 3,
            "the call after a refused one goes on",
        )?;
    }
    let found = first_calls(rt.alloc(), Failing::Only(7), true)?;
    holds(
        found.calls == [start, second, third, root, root] && found.hits == 0 && found.misses == 3,
        "a walk without a refused read ends at the root",
    )
}
