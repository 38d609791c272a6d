//! Unwinders: the modules of a process, and steps by them over a cache.
ghost use Rattle.std.specs.Prelude.{◌≡◌, ◌≢◌, ◌+◌, ◌-◌, ◌^◌, ◌<◌, ◌↔◌, Bool, true, false, IfOk, IfErr, IfSome, IfNone, IsOk, OnOk, OnSome, IsErrAnd, MatchResult, ℕ, Err};
ghost use Rattle.framehop.specs.Memory.{Memory, AnswersAs, Answering};
ghost use Rattle.framehop.specs.Outcome.{Outcome, answered, answer_of, registers_after};
ghost use Rattle.framehop.specs.CodeAddress.{FrameLocation, location_of, is_first_frame};
ghost use Rattle.framehop.specs.Iterator.{before};
ghost use Rattle.framehop.specs.UnwindIterator.{unwinder_of, progress_in, regs_of, cache_of, read_stack_of};
ghost use Rattle.framehop.specs.Soundness.{AreApart};
ghost use Rattle.framehop.specs.Modules.{ModuleView, UnwinderView, with_module, has_start, without_module, greatest_end};

pub use crate::iterator::UnwindIterator;
pub use crate::modules::{Module, ModuleListError, UnwinderError};
pub use crate::unwinder_internal::UnwinderInternal;
pub use crate::unwinding::Unwinding;
use framehop_cache::generations::Generations;
use framehop_core::{Error, FrameAddress};

/// A module that was not added, and why.
#[derive(Drop)]
pub struct RefusedModule<M> {
    pub module: M,
    pub cause: ModuleListError,
}

/// An unwinder for one CPU architecture: the modules of one process, and unwinding by them.
pub trait Unwinder: Clone {
    /// The registers that unwinding needs on this architecture.
    type UnwindRegs: Copy;

    /// The cache for this architecture, under the unwinder's allocation policy.
    type Cache;

    /// A module whose unwind data this unwinder can read.
    type Module;

    // the modules in order of start, and their generation
    ghost unwinder_view: { Self → UnwinderView };

    ghost module_view: { Self.Module → ModuleView };

    // one step by the modules' bytes, read afresh
    ghost step: { Self → FrameLocation → Self.UnwindRegs → Memory → Outcome Self.UnwindRegs };

    // what a step that answers an address does to the registers, whatever the callback replies
    ghost advances: { Bool → Self.UnwindRegs → Self.UnwindRegs → Type 0 };

    // the cache changes no answer of an unwinder with these modules and this generation
    ghost is_sound: { UnwinderView → Self.Cache → Type 0 };

    // the cache after a step at a frame, and after one that ran out of memory
    ghost cache_after: { Self → Self.Cache → FrameLocation → Self.Cache };

    ghost cache_after_lookup: { Self → Self.Cache → FrameLocation → Self.Cache };

    // each entry of a cache stood in another one, or is what the modules give afresh
    ghost extends: { Self → Self.Cache → Self.Cache → Type 0 };

    // a step at a frame can run out of memory
    ghost may_run_out: { Self → Self.Cache → FrameLocation → Type 0 };

    // a step at a frame from registers over memory to a return address and the caller's registers is what the row,
    // the PE unwind info, the prologue or the epilogue means that its rule was made from
    ghost means: { Self → FrameLocation → Self.UnwindRegs → Memory → ℕ → Self.UnwindRegs → Type 0 };

    /// Adds a module that is loaded in the process, after those of equal start, and takes the
    /// next generation.
    ///
    /// # Errors
    ///
    /// `GenerationsExhausted` where the counter is at its end (tested first), and `OutOfMemory`. The
    /// module comes back, and the unwinder and the counter are unchanged.
    ///
    /// # Examples
    ///
    /// ```
    /// if let Err(refused) = unwinder.add_module(module, &mut generations) {
    ///     // The module comes back in `refused.module`.
    ///     return Err(refused.cause)?;
    /// }
    /// ```
    fn add_module(
        &mut self,
        module: Self::Module,
        generations: &mut Generations,
    ) -> Result<(), RefusedModule<Self::Module>>
        ensures added { OnOk result (
            (unwinder_view self.new ≡ record {
              modules = with_module (module_view «module») (unwinder_view self.old).modules;
              generation = generations.old;
            })
            × (generations.new ≡ generations.old + 1) × (generations.old < 2 ^ 64 - 1)) }
        ensures refused { IfErr result (λ back. (back.«module» ≡ «module») × (self.new ≡ self.old)
            × (generations.new ≡ generations.old)) }
        ensures out_of_memory { IfErr result (λ back. back.cause ≡ ModuleListError.OutOfMemory
            → generations.old < 2 ^ 64 - 1) }
        ensures exhausted { (generations.old ≡ 2 ^ 64 - 1)
            ↔ IsErrAnd result (λ back. back.cause ≡ ModuleListError.GenerationsExhausted) };

    /// Removes the module that starts at the address (AVMA), the newest of those, and takes the next
    /// generation. Without such a module nothing happens. It takes no memory.
    ///
    /// # Errors
    ///
    /// `GenerationsExhausted` where there is such a module and the counter is at its end. Nothing is
    /// changed.
    ///
    /// # Examples
    ///
    /// ```
    /// unwinder.remove_module(10, &mut generations)?;
    /// ```
    fn remove_module(
        &mut self,
        module_avma_range_start: u64,
        generations: &mut Generations,
    ) -> Result<(), ModuleListError>
        ensures absent { has_start module_avma_range_start (unwinder_view self.old).modules ≡ false →
            IsOk result × (self.new ≡ self.old) × (generations.new ≡ generations.old) }
        ensures removed { has_start module_avma_range_start (unwinder_view self.old).modules ≡ true
            → IfOk result (λ done.
            (generations.old < 2 ^ 64 - 1)
            × (unwinder_view self.new ≡ record {
              modules = without_module module_avma_range_start (unwinder_view self.old).modules;
              generation = generations.old;
            })
            × (generations.new ≡ generations.old + 1)) }
        ensures exhausted { IfErr result (λ error.
            (error ≡ ModuleListError.GenerationsExhausted)
            × (has_start module_avma_range_start (unwinder_view self.old).modules ≡ true)
            × (generations.old ≡ 2 ^ 64 - 1)
            × (self.new ≡ self.old)
            × (generations.new ≡ generations.old)) };

    /// Returns the greatest end of a module (AVMA), or 0 without modules. It serves to guess a mask for
    /// pointer authentication.
    fn max_known_code_address(&self) -> u64
        ensures { result ≡ greatest_end (unwinder_view self.now).modules };

    /// Unwinds a single frame: returns its return address (AVMA), or `None` at the root of the stack,
    /// and writes the caller's registers where it returns an address. `read_stack` reads the stack
    /// word at an address (AVMA).
    ///
    /// # Errors
    ///
    /// Why the frame can't be unwound. The registers are unchanged.
    fn unwind_frame<F>(
        &self,
        address: FrameAddress,
        regs: &mut Self::UnwindRegs,
        cache: &mut Self::Cache,
        read_stack: &mut F,
    ) -> Result<Option<u64>, Error>
    where
        F: FnMut(u64) -> Result<u64, ()>,
        requires can_read { F.IsAlwaysCallable read_stack.old }
        ensures callable { F.IsAlwaysCallable read_stack.new }
        ensures kept { MatchResult result
            (λ answer. IfNone answer (regs.new ≡ regs.old))
            (λ _. regs.new ≡ regs.old) }
        ensures advances { IfOk result
            (λ answer. OnSome answer (advances (is_first_frame (location_of address)) regs.old regs.new)) }
        ensures may_run_out { result ≡ Err Error.OutOfMemory → may_run_out self.now cache.old (location_of address) }
        ensures cached { result ≢ Err Error.OutOfMemory
            → cache.new ≡ cache_after self.now cache.old (location_of address) }
        ensures not_cached { result ≡ Err Error.OutOfMemory
            → cache.new ≡ cache_after_lookup self.now cache.old (location_of address) }
        ensures extends { extends self.now cache.old cache.new }
        ensures stays_sound { (other : UnwinderView) → AreApart (unwinder_view self.now) other
            → is_sound other cache.old → is_sound other cache.new }
        ensures answers { is_sound (unwinder_view self.now) cache.old
            → Answering F.FnMut read_stack.old read_stack.new (λ memory.
            result ≢ Err Error.OutOfMemory →
            (result ≡ answer_of (step self.now (location_of address) regs.old memory))
            × (regs.new ≡ registers_after regs.old (step self.now (location_of address) regs.old memory))) }
        ensures means { (memory : Memory) → AnswersAs F.FnMut read_stack.old memory
            → is_sound (unwinder_view self.now) cache.old
            → IfOk result (λ answer. IfSome answer (λ return_address.
            means self.now (location_of address) regs.old memory return_address regs.new)) };

    // a step that answers an address does what the source of its rule means
    ghost step_means: { (unwinder : Self) (location : FrameLocation) (old new : Self.UnwindRegs) (memory : Memory)
        (address : ℕ)
        → step unwinder location old memory ≡ answered address new → means unwinder location old memory address new };

    /// Returns an iterator over the frames of a stack, from the instruction pointer (AVMA) and the
    /// initial registers on.
    ///
    /// # Examples
    ///
    /// ```
    /// let mut walk = unwinder.iter_frames(regs.ip(), regs, &mut cache, &mut read_stack);
    /// ```
    final fn iter_frames<'u, 'c, 'r, F>(
        &'u self,
        pc: u64,
        regs: Self::UnwindRegs,
        cache: &'c mut Self::Cache,
        read_stack: &'r mut F,
    ) -> UnwindIterator<'u, 'c, 'r, Self, F>
    where
        F: FnMut(u64) -> Result<u64, ()>,
        ensures progress { progress_in result ≡ before pc }
        ensures unwinder { (unwinder_of result).now ≡ self.entry.now }
        ensures regs { regs_of result ≡ regs }
        ensures cache { cache_of result ≡ cache.entry }
        ensures read_stack { read_stack_of result ≡ read_stack.entry }
    {
        UnwindIterator::new(self, pc, regs, cache, read_stack)
    }
}
