//! Unwinders with their caches, a stack and modules for the tests.
use crate::sections::NoSections;
use framehop::aarch64::{CacheAarch64, UnwinderAarch64};
use framehop::x86_64::{CacheX86_64, UnwinderX86_64};
use framehop::{
    AllocationPolicy, ExplicitModuleSectionInfo, Generations, Module, ModuleListError, Unwinder,
};
use std::alloc::Global;
use std::test::Fail;

/// The words of a stack on aarch64, from the address 0 on.
pub(crate) static STACK: [u64; 16] = [
    1,
    2,
    3,
    4,
    0x40,
    0x1004fcdc4,
    5,
    6,
    0x70,
    0x100528a28,
    7,
    8,
    9,
    10,
    0,
    0,
];

/// The word of the stack at the address.
pub(crate) fn read_stack(address: u64) -> Result<u64, ()> {
    STACK.get((address / 8) as usize).copied().ok_or(())
}

/// A module without unwind data, whose base is its start.
pub(crate) fn module(
    alloc: Global,
    name: &str,
    start: u64,
    end: u64,
) -> Result<Module<Vec<u8>>, Fail> {
    let name = String::from_str(alloc, name)?;
    let sections = NoSections {
        base_svma: 0x100000000,
    };
    Ok(Module::new(alloc, name, start..end, start, sections)?)
}

/// Where the sections of a Mach-O file are. Those that are given have no bytes.
pub(crate) fn sections_of_binary(alloc: Global) -> ExplicitModuleSectionInfo<Vec<u8>> {
    ExplicitModuleSectionInfo {
        base_svma: 0x100000000,
        text_svma: Some(0x100000b64..0x1001d2d18),
        text: Some(Vec::new(alloc)),
        stubs_svma: Some(0x1001d2d18..0x1001d309c),
        stub_helper_svma: Some(0x1001d309c..0x1001d3438),
        got_svma: Some(0x100238000..0x100238010),
        unwind_info: Some(Vec::new(alloc)),
        eh_frame_svma: Some(0x100237f80..0x100237ffc),
        eh_frame: Some(Vec::new(alloc)),
        text_segment_svma: Some(0x1003fc000..0x100634000),
        text_segment: Some(Vec::new(alloc)),
        ..ExplicitModuleSectionInfo::default()
    }
}

/// The module of that file. Its `__unwind_info` is empty, so each frame is left by the frame pointer.
pub(crate) fn binary(alloc: Global) -> Result<Module<Vec<u8>>, Fail> {
    let name = String::from_str(alloc, "mybinary")?;
    let sections = sections_of_binary(alloc);
    Ok(Module::new(alloc, name, 0x1003fc000..0x100634000, 0x1003fc000, sections)?)
}

/// Refuses what does not hold.
pub(crate) fn holds(is_held: bool) -> Result<(), Fail> {
    if is_held {
        Ok(())
    } else {
        Err(Fail::from("another value"))
    }
}

/// An unwinder of aarch64, a cache, and the counter of both.
#[derive(Drop)]
pub(crate) struct Aarch64 {
    pub(crate) generations: Generations,
    pub(crate) unwinder: UnwinderAarch64<Vec<u8>>,
    pub(crate) cache: CacheAarch64,
}

impl Aarch64 {
    pub(crate) fn new(alloc: Global, first: u64) -> Result<Self, ModuleListError> {
        let mut generations = Generations::starting_at(first);
        let unwinder = UnwinderAarch64::new(alloc, &mut generations)?;
        let Ok(cache) = CacheAarch64::new(alloc) else {
            return Err(ModuleListError::OutOfMemory);
        };
        Ok(Aarch64 {
            generations,
            unwinder,
            cache,
        })
    }

    /// Adds a module: whether it is added.
    pub(crate) fn adds(&mut self, module: Module<Vec<u8>>) -> bool {
        match self.unwinder.add_module(module, &mut self.generations) {
            Ok(()) => true,
            Err(_refused) => false,
        }
    }
}

/// An unwinder of x86_64 and a cache, of an allocation policy, and the counter of both.
#[derive(Drop)]
pub(crate) struct X86_64<P: AllocationPolicy> {
    pub(crate) generations: Generations,
    pub(crate) unwinder: UnwinderX86_64<Vec<u8>, P>,
    pub(crate) cache: CacheX86_64<P>,
}

impl<P: AllocationPolicy> X86_64<P> {
    pub(crate) fn new(alloc: Global) -> Result<Self, ModuleListError> {
        let mut generations = Generations::new();
        let unwinder = UnwinderX86_64::new(alloc, &mut generations)?;
        let Ok(cache) = CacheX86_64::new_in(alloc) else {
            return Err(ModuleListError::OutOfMemory);
        };
        Ok(X86_64 {
            generations,
            unwinder,
            cache,
        })
    }

    /// Adds a module: whether it is added.
    pub(crate) fn adds(&mut self, module: Module<Vec<u8>>) -> bool {
        match self.unwinder.add_module(module, &mut self.generations) {
            Ok(()) => true,
            Err(_refused) => false,
        }
    }
}
