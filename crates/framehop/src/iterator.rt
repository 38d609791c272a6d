//! The iterator over the frames of a stack.
ghost use Rattle.std.specs.Prelude.{◌≡◌, ◌≢◌, IfOk, IfErr, IfSome, IfNone, Ok, Err};
ghost use Rattle.framehop.specs.Memory.{Memory, AnswersAs, Answering};
ghost use Rattle.framehop.specs.CodeAddress.{location_of};
ghost use Rattle.framehop.specs.Iterator.{before};
ghost use Rattle.framehop.specs.UnwindIterator.{unwinder_of, progress_in, regs_of, cache_of, read_stack_of};
ghost use Rattle.framehop.specs.Soundness.{AreApart};
ghost use Rattle.framehop.specs.Modules.{UnwinderView};

use crate::unwinder::Unwinder;
use framehop_core::{Error, FrameAddress};

/// An iterator over the frames of a stack, from the initial register values on.
///
/// The first frame is the instruction pointer, and the others are return addresses. It ends with
/// `Ok(None)` where it finds the root of the stack, and with an error where the stack seems to be
/// cut off. That can't be told in all cases, so expect errors in normal operation too.
///
/// It borrows the [`Unwinder`] for `'u`, and mutably the cache for `'c` and the callback that reads the
/// stack for `'r`: none of the three is moved, and all can be used again when the walk is over.
pub struct UnwindIterator<'u, 'c, 'r, U: Unwinder, F: FnMut(u64) -> Result<u64, ()>> {
    unwinder: &'u U,
    state: UnwindIteratorState,
    regs: U::UnwindRegs,
    cache: &'c mut U::Cache,
    read_stack: &'r mut F,
}

impl<U: Unwinder, F: FnMut(u64) -> Result<u64, ()>> Drop for UnwindIterator<'_, '_, '_, U, F> {
    ghost use Rattle.std.specs.Prelude.{◌≡◌};
    ghost use Rattle.framehop.specs.UnwindIterator.{cache_of, read_stack_of};

    // the cache and the callback stay as the last call left them
    fn drop(self)
        ensures cache { self.exit.1.1.1.0.now ≡ (cache_of self.entry).now }
        ensures read_stack { self.exit.1.1.1.1.0.now ≡ (read_stack_of self.entry).now }
    {
        let UnwindIterator {
            unwinder: _,
            state: _,
            regs: _,
            cache: _,
            read_stack: _,
        } = self;
    }
}

#[derive(Clone, Copy)]
enum UnwindIteratorState {
    Initial(u64),
    Unwinding(FrameAddress),
    Done,
}

impl<'u, 'c, 'r, U: Unwinder, F: FnMut(u64) -> Result<u64, ()>> UnwindIterator<'u, 'c, 'r, U, F> {
    ghost use Rattle.std.specs.Prelude.{◌≡◌};
    ghost use Rattle.framehop.specs.Iterator.{before};
    ghost use Rattle.framehop.specs.UnwindIterator.{unwinder_of, progress_in, regs_of, cache_of, read_stack_of};

    /// Returns an iterator from the instruction pointer (AVMA) on. [`Unwinder::iter_frames`] is the usual
    /// way to make one.
    pub fn new(
        unwinder: &'u U,
        pc: u64,
        regs: U::UnwindRegs,
        cache: &'c mut U::Cache,
        read_stack: &'r mut F,
    ) -> Self
        ensures progress { progress_in result ≡ before pc }
        ensures unwinder { (unwinder_of result).now ≡ unwinder.entry.now }
        ensures regs { regs_of result ≡ regs }
        ensures cache { cache_of result ≡ cache.entry }
        ensures read_stack { read_stack_of result ≡ read_stack.entry }
    {
        UnwindIterator {
            unwinder,
            state: UnwindIteratorState::Initial(pc),
            regs,
            cache,
            read_stack,
        }
    }
}

impl<U: Unwinder, F: FnMut(u64) -> Result<u64, ()>> UnwindIterator<'_, '_, '_, U, F> {
    ghost use Rattle.std.specs.Prelude.{◌≡◌, ◌≢◌, Result, Ok, Err, IfOk, IfErr, IfSome, IfNone};
    ghost use Rattle.framehop.specs.CodeAddress.{location_of};
    ghost use Rattle.framehop.specs.Iterator.{at_frame, at_end, location_answer, next_of, Moves, MeansNext, AtFrame, NeedsNoStep, cache_after_next};
    ghost use Rattle.framehop.specs.UnwindIterator.{unwinder_of, progress_in, regs_of, cache_of, read_stack_of};
    ghost use Rattle.framehop.specs.Memory.{Memory, AnswersAs, Answering};
    ghost use Rattle.framehop.specs.Modules.{UnwinderView};
    ghost use Rattle.framehop.specs.Soundness.{AreApart};

    /// Returns the next frame: the instruction pointer, then return addresses, and `Ok(None)` from
    /// the root on.
    ///
    /// # Errors
    ///
    /// Why the frame can't be unwound. The iterator stays at it, and the next call tries it anew. A return address 0
    /// is `ReturnAddressIsNull`, and the registers are the caller's by then.
    ///
    /// # Examples
    ///
    /// ```
    /// while let Ok(Some(frame)) = frames.next() {
    ///     write!(out, "{:x} ", frame.address())?;
    /// }
    /// ```
    #[allow(clippy::should_implement_trait)]
    pub fn next(&mut self) -> Result<Option<FrameAddress>, Error>
        requires { F.IsAlwaysCallable (read_stack_of self.old).now }
        ensures callable { F.IsAlwaysCallable (read_stack_of self.new).now }
        ensures same_unwinder { unwinder_of self.new ≡ unwinder_of self.old }
        ensures same_cache { (cache_of self.new).ghost_name ≡ (cache_of self.old).ghost_name }
        ensures same_callback { (read_stack_of self.new).ghost_name ≡ (read_stack_of self.old).ghost_name }
        ensures moves { IfOk result (λ answer. IfSome answer (λ frame.
            (progress_in self.new ≡ at_frame (location_of frame))
            × Moves U.advances (progress_in self.old) (regs_of self.old) (location_of frame) (regs_of self.new))) }
        ensures no_step { NeedsNoStep (progress_in self.old) (location_answer result) }
        ensures after_error { IfErr result (λ error. (progress_in self.new ≡ progress_in self.old)
            × (error ≢ Error.ReturnAddressIsNull → regs_of self.new ≡ regs_of self.old)) }
        ensures after_root { IfOk result (λ answer. IfNone answer ((progress_in self.new ≡ at_end)
            × (regs_of self.new ≡ regs_of self.old))) }
        ensures may_run_out { result ≡ Err Error.OutOfMemory
            → AtFrame (U.may_run_out (unwinder_of self.old).now (cache_of self.old).now) (progress_in self.old) }
        ensures stays_sound { (other : UnwinderView) → AreApart (U.unwinder_view (unwinder_of self.old).now) other
            → U.is_sound other (cache_of self.old).now → U.is_sound other (cache_of self.new).now }
        ensures cached { result ≢ Err Error.OutOfMemory → (cache_of self.new).now
            ≡ cache_after_next (U.cache_after (unwinder_of self.old).now) (progress_in self.old)
            (cache_of self.old).now }
        ensures not_cached { result ≡ Err Error.OutOfMemory → (cache_of self.new).now
            ≡ cache_after_next (U.cache_after_lookup (unwinder_of self.old).now) (progress_in self.old)
            (cache_of self.old).now }
        ensures answers { U.is_sound (U.unwinder_view (unwinder_of self.old).now) (cache_of self.old).now
            → Answering F.FnMut (read_stack_of self.old).now (read_stack_of self.new).now (λ memory.
            let next = next_of (λ location regs. U.step (unwinder_of self.old).now location regs memory)
            (progress_in self.old) (regs_of self.old) in
            result ≢ Err Error.OutOfMemory →
            (location_answer result ≡ next.answer) × (progress_in self.new ≡ next.progress)
            × (regs_of self.new ≡ next.regs)) }
        ensures means { (memory : Memory) → AnswersAs F.FnMut (read_stack_of self.old).now memory
            → U.is_sound (U.unwinder_view (unwinder_of self.old).now) (cache_of self.old).now
            → IfOk result (λ answer. IfSome answer (λ frame. MeansNext
            (λ location old address new. U.means (unwinder_of self.old).now location old memory address new)
            (progress_in self.old) (regs_of self.old) (location_of frame) (regs_of self.new))) }
    {
        let next = match self.state {
            UnwindIteratorState::Initial(pc) => {
                let first = FrameAddress::from_instruction_pointer(pc);
                self.state = UnwindIteratorState::Unwinding(first);
                return Ok(Some(first));
            }
            UnwindIteratorState::Unwinding(address) => self
                .unwinder
                .unwind_frame(address, &mut self.regs, self.cache, self.read_stack)?,
            UnwindIteratorState::Done => return Ok(None),
        };
        match next {
            Some(return_address) => {
                let return_address = FrameAddress::from_return_address(return_address).ok_or(
                    Error::ReturnAddressIsNull,
                )?;
                self.state = UnwindIteratorState::Unwinding(return_address);
                Ok(Some(return_address))
            }
            None => {
                self.state = UnwindIteratorState::Done;
                Ok(None)
            }
        }
    }

    /// Returns the registers of the frame at which the iterator is.
    pub fn regs(&self) -> &U::UnwindRegs
        ensures { result.now ≡ regs_of self.now }
    {
        &self.regs
    }
}
