//! Steps through one module.
use crate::totals::is_consistent;
use framehop::x86_64::{CacheX86_64, UnwindRegsX86_64, UnwinderX86_64};
use framehop::{
    Error, FrameAddress, Generations, Module, ModuleListError, MustNotAllocateDuringUnwind,
    Unwinder,
};
use std::alloc::Global;

/// The words of a stack, from an address on.
#[derive(Clone, Copy)]
pub(crate) struct Stack {
    pub(crate) base: u64,
    pub(crate) words: &'static [u64],
}

/// The stack of a sweep.
pub(crate) const STACK: Stack = Stack {
    base: 0,
    words: &[
        1, 2, 0x100300, 4, 0x40, 0x100200, 5, 6, 0x70, 0x100100, 7, 8, 9, 10, 0, 0,
    ],
};

/// The same in one place.
pub(crate) static SWEPT_STACK: Stack = STACK;

impl Stack {
    /// The word at an address.
    pub(crate) fn word(&self, address: u64) -> Result<u64, ()> {
        let offset = address.checked_sub(self.base).ok_or(())?;
        if offset % 8 != 0 {
            return Err(());
        }
        self.words.get((offset / 8) as usize).copied().ok_or(())
    }
}

/// Which reads of the stack fail: none, all, or the one of this number; the first has the number 1.
#[derive(Clone, Copy)]
pub(crate) enum Failing {
    None,
    All,
    Only(u32),
}

impl Failing {
    /// Whether the read of this number fails.
    pub(crate) fn fails(self, number: u32) -> bool {
        match self {
            Failing::None => false,
            Failing::All => true,
            Failing::Only(failing) => failing == number,
        }
    }
}

/// A frame that is looked up at this address: a caller's, whose return address is one more, or a first one.
pub(crate) fn frame_at(is_caller: bool, lookup: u64) -> FrameAddress {
    if is_caller && let Some(caller) = FrameAddress::from_return_address(lookup.saturating_add(1)) {
        return caller;
    }
    FrameAddress::from_instruction_pointer(lookup)
}

/// What a step gives where these reads fail, and the registers after it.
pub(crate) fn step<U: Unwinder>(
    unwinder: &U,
    frame: FrameAddress,
    mut regs: U::UnwindRegs,
    cache: &mut U::Cache,
    stack: &Stack,
    failing: Failing,
) -> (Result<Option<u64>, Error>, U::UnwindRegs) {
    let mut number = 0u32;
    let mut read = |address: u64| -> Result<u64, ()> {
        number = number.saturating_add(1);
        if failing.fails(number) {
            return Err(());
        }
        stack.word(address)
    };
    let result = unwinder.unwind_frame(frame, &mut regs, cache, &mut read);
    (result, regs)
}

/// What a step on x86_64 gives, and the registers after it.
pub(crate) type Step = (Result<Option<u64>, Error>, UnwindRegsX86_64);

/// Caches for both allocation policies.
#[derive(Drop)]
pub(crate) struct Caches {
    pub(crate) may: CacheX86_64,
    pub(crate) must: CacheX86_64<MustNotAllocateDuringUnwind>,
}

impl Caches {
    pub(crate) fn new(alloc: Global) -> Result<Self, ModuleListError> {
        let Ok(may) = CacheX86_64::new_in(alloc) else {
            return Err(ModuleListError::OutOfMemory);
        };
        let Ok(must) = CacheX86_64::new_in(alloc) else {
            return Err(ModuleListError::OutOfMemory);
        };
        Ok(Caches { may, must })
    }

    /// Whether both have been hit and missed so many times.
    pub(crate) fn have_counts(&self, hits: u64, misses: u64) -> bool {
        let may = self.may.stats();
        let must = self.must.stats();
        may.hits() == hits
            && may.misses() == misses
            && must.hits() == hits
            && must.misses() == misses
    }
}

/// Unwinders with one module under both allocation policies.
#[derive(Drop)]
pub(crate) struct Unwinders {
    generations: Generations,
    pub(crate) may: UnwinderX86_64<Vec<u8>>,
    pub(crate) must: UnwinderX86_64<Vec<u8>, MustNotAllocateDuringUnwind>,
}

impl Unwinders {
    pub(crate) fn new(alloc: Global) -> Result<Self, ModuleListError> {
        let mut generations = Generations::new();
        let may = UnwinderX86_64::new(alloc, &mut generations)?;
        let must = UnwinderX86_64::new(alloc, &mut generations)?;
        Ok(Unwinders {
            generations,
            may,
            must,
        })
    }

    /// Removes a module that starts at an address, if there is one.
    fn remove(&mut self, start: u64) -> Result<(), ModuleListError> {
        self.may.remove_module(start, &mut self.generations)?;
        self.must.remove_module(start, &mut self.generations)
    }

    /// Puts a module of `sections::Sections` in the place of any other.
    pub(crate) fn set_module(&mut self, module: Module<Vec<u8>>) -> Result<(), ModuleListError> {
        self.remove(0)?;
        self.remove(0x100000)?;
        let Ok(copy) = module.clone() else {
            return Err(ModuleListError::OutOfMemory);
        };
        if let Err(refused) = self.may.add_module(copy, &mut self.generations) {
            return Err(refused.cause);
        }
        match self.must.add_module(module, &mut self.generations) {
            Ok(()) => Ok(()),
            Err(refused) => Err(refused.cause),
        }
    }

    /// What a step gives where these reads fail: under both policies the same, and a refusal keeps the registers.
    pub(crate) fn step(
        &self,
        frame: FrameAddress,
        regs: UnwindRegsX86_64,
        caches: &mut Caches,
        stack: &Stack,
        failing: Failing,
    ) -> Option<Step> {
        let may = step(&self.may, frame, regs, &mut caches.may, stack, failing);
        let must = step(&self.must, frame, regs, &mut caches.must, stack, failing);
        if may == must && is_consistent(may.0, &regs, &may.1) {
            Some(may)
        } else {
            None
        }
    }
}
