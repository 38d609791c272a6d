//! Walks over the frames of a stack, and the words of a stack that they read.
ghost use Rattle.std.specs.Prelude.{◌≡◌, ◌+◌, [], ◌∷◌, ◌++◌, map, option_map, IfOk, IfErr, IfSome, IfNone, OnOk};
ghost use Rattle.framehop.specs.Memory.{Answering, Memory as MemoryOf, reply};
ghost use Rattle.framehop.specs.Iterator.{at_frame, next_of, Moves, frames_in, end_in, cache_after_next, walk_on, cache_on};
ghost use Rattle.framehop.specs.UnwindIterator.{unwinder_of, progress_in, regs_of, cache_of, read_stack_of};
ghost use Rattle.framehop.specs.SessionView.{end_of, walk_of};
ghost use Rattle.framehop.specs.Meant.{IsWalkMeant};
ghost use Rattle.framehop.specs.Walk.{walk_from, cache_after_walk};
ghost use Rattle.framehop.specs.Soundness.{AreApart};
ghost use Rattle.framehop.specs.Modules.{UnwinderView};
ghost use Rattle.framehop.specs.CodeAddress.{FrameLocation, location_of};
ghost use Rattle.framehop.specs.Outcome.{Outcome, answered};

use crate::unwinder::{UnwindIterator, Unwinder};
use framehop_bytes::bytes::read_u64;
use framehop_core::{Error, FrameAddress};
use std::alloc::{AllocError, Global};

/// How a walk ended.
#[derive(Clone, Copy, Debug, PartialEq, Eq)]
pub enum WalkEnd {
    /// At the root of the stack.
    Root,

    /// At a frame that could not be unwound.
    Refused(Error),

    /// At the limit of frames.
    Limit,
}

/// Stack words that can be read without changing anything.
pub trait Words {
    // the words by their addresses
    ghost memory: { Self → MemoryOf };

    /// Returns the word at an address (AVMA).
    ///
    /// # Errors
    ///
    /// No word is there.
    fn read(&self, address: u64) -> Result<u64, ()>
        ensures { result ≡ reply (memory self.now address) };
}

/// A copy of the bytes of a stack, from the address (AVMA) `base` on. It has the little-endian word
/// of eight bytes at each address, aligned or not, where all eight are among them.
#[derive(Clone, Copy, Drop)]
pub struct StackBytes<'a> {
    pub base: u64,
    pub bytes: &'a [u8],
}

impl Words for StackBytes<'_> {
    ghost use Rattle.framehop.specs.StackBytes.{memory_of_bytes};

    ghost memory = { λ stack. memory_of_bytes stack.base stack.bytes.now };

    #[inline]
    fn read(&self, address: u64) -> Result<u64, ()> {
        if address < self.base {
            return Err(());
        }
        let offset = address - self.base;
        match read_u64(self.bytes, offset as usize) {
            Some((word, _)) => Ok(word),
            None => Err(()),
        }
    }
}

/// Walks a stack from an instruction pointer (AVMA) and initial registers on, by at most `limit`
/// frames: returns the frames, how the walk ended, and the registers there. `read_stack` reads the
/// stack word at an address (AVMA). This is [`Unwinder::iter_frames`], called until it ends or the limit is reached.
///
/// # Errors
///
/// An allocation failed.
pub fn walk<U: Unwinder, F>(
    alloc: Global,
    unwinder: &U,
    cache: &mut U::Cache,
    pc: u64,
    regs: U::UnwindRegs,
    read_stack: &mut F,
    limit: u32,
) -> Result<(Vec<FrameAddress>, WalkEnd, U::UnwindRegs), AllocError>
where
    F: FnMut(u64) -> Result<u64, ()>,
    requires { F.IsAlwaysCallable read_stack.old }
    ensures callable { F.IsAlwaysCallable read_stack.new }
    ensures stays_sound { (other : UnwinderView) → AreApart (U.unwinder_view unwinder.now) other
        → U.is_sound other cache.old → U.is_sound other cache.new }
    ensures answers { U.is_sound (U.unwinder_view unwinder.now) cache.old
        → Answering F.FnMut read_stack.old read_stack.new (λ memory.
        IfOk result (λ walk.
        let step : FrameLocation → U.UnwindRegs → Outcome U.UnwindRegs =
        λ location before. U.step unwinder.now location before memory in
        (walk_of walk.0.items walk.1 walk.2 ≡ walk_from step limit pc regs)
        × (cache.new ≡ cache_after_walk step (U.cache_after unwinder.now) limit pc regs cache.old)
        × IsWalkMeant (λ location before address after. (step location before ≡ answered address after)
        × U.means unwinder.now location before memory address after)
        regs (walk_from step limit pc regs))) }
{
    let mut unwinding = unwinder.iter_frames(pc, regs, cache, read_stack);
    let (frames, end) = next_frames(alloc, &mut unwinding, limit)?;
    let regs = *unwinding.regs();
    Ok((frames, end, regs))
}

/// Returns the next frames of an iterator, at most so many, and how the walk ended.
fn next_frames<U: Unwinder, F: FnMut(u64) -> Result<u64, ()>>(
    alloc: Global,
    unwinding: &mut UnwindIterator<'_, '_, '_, U, F>,
    limit: u32,
) -> Result<(Vec<FrameAddress>, WalkEnd), AllocError>
    requires { F.IsAlwaysCallable (read_stack_of unwinding.old).now }
    ensures callable { F.IsAlwaysCallable (read_stack_of unwinding.new).now }
    ensures same_unwinder { unwinder_of unwinding.new ≡ unwinder_of unwinding.old }
    ensures same_cache { (cache_of unwinding.new).ghost_name ≡ (cache_of unwinding.old).ghost_name }
    ensures same_callback { (read_stack_of unwinding.new).ghost_name ≡ (read_stack_of unwinding.old).ghost_name }
    ensures stays_sound { (other : UnwinderView) → AreApart (U.unwinder_view (unwinder_of unwinding.old).now) other
        → U.is_sound other (cache_of unwinding.old).now → U.is_sound other (cache_of unwinding.new).now }
    ensures answers { U.is_sound (U.unwinder_view (unwinder_of unwinding.old).now) (cache_of unwinding.old).now
        → Answering F.FnMut (read_stack_of unwinding.old).now (read_stack_of unwinding.new).now (λ memory.
        IfOk result (λ walk.
        let step : FrameLocation → U.UnwindRegs → Outcome U.UnwindRegs =
        λ location regs. U.step (unwinder_of unwinding.old).now location regs memory in
        (walk_of walk.0.items walk.1 (regs_of unwinding.new)
        ≡ walk_on step limit (progress_in unwinding.old) (regs_of unwinding.old))
        × ((cache_of unwinding.new).now
        ≡ cache_on step (U.cache_after (unwinder_of unwinding.old).now) limit (progress_in unwinding.old)
        (regs_of unwinding.old) (cache_of unwinding.old).now))) }
{
    let mut frames = Vec::new(alloc);
    for _call in 0..limit {
        if let Some(end) = push_next_frame(unwinding, &mut frames)? {
            return Ok((frames, end));
        }
    }
    Ok((frames, WalkEnd::Limit))
}

/// Calls an iterator once: pushes the frame that it returns, or returns how the walk ended.
pub(crate) fn push_next_frame<U: Unwinder, F: FnMut(u64) -> Result<u64, ()>>(
    unwinding: &mut UnwindIterator<'_, '_, '_, U, F>,
    frames: &mut Vec<FrameAddress>,
) -> Result<Option<WalkEnd>, AllocError>
    requires { F.IsAlwaysCallable (read_stack_of unwinding.old).now }
    ensures callable { F.IsAlwaysCallable (read_stack_of unwinding.new).now }
    ensures same_unwinder { unwinder_of unwinding.new ≡ unwinder_of unwinding.old }
    ensures same_cache { (cache_of unwinding.new).ghost_name ≡ (cache_of unwinding.old).ghost_name }
    ensures same_callback { (read_stack_of unwinding.new).ghost_name ≡ (read_stack_of unwinding.old).ghost_name }
    ensures stays_sound { (other : UnwinderView) → AreApart (U.unwinder_view (unwinder_of unwinding.old).now) other
        → U.is_sound other (cache_of unwinding.old).now → U.is_sound other (cache_of unwinding.new).now }
    ensures moves { IfOk result (λ end. IfNone end ((frame : FrameAddress)
        × (frames.new.items ≡ frames.old.items ++ frame ∷ [])
        × (progress_in unwinding.new ≡ at_frame (location_of frame))
        × Moves U.advances (progress_in unwinding.old) (regs_of unwinding.old) (location_of frame)
        (regs_of unwinding.new))) }
    ensures kept { IfOk result (λ end. IfSome end (λ _. frames.new.items ≡ frames.old.items)) }
    ensures cached { OnOk result ((cache_of unwinding.new).now
        ≡ cache_after_next (U.cache_after (unwinder_of unwinding.old).now)
        (progress_in unwinding.old) (cache_of unwinding.old).now) }
    ensures answers { U.is_sound (U.unwinder_view (unwinder_of unwinding.old).now) (cache_of unwinding.old).now
        → Answering F.FnMut (read_stack_of unwinding.old).now (read_stack_of unwinding.new).now (λ memory.
        let next = next_of (λ location regs. U.step (unwinder_of unwinding.old).now location regs memory)
        (progress_in unwinding.old) (regs_of unwinding.old) in
        IfOk result (λ end. (option_map end_of end ≡ end_in next.answer)
        × (map location_of frames.new.items ≡ map location_of frames.old.items ++ frames_in next.answer)
        × (progress_in unwinding.new ≡ next.progress) × (regs_of unwinding.new ≡ next.regs))) }
{
    match unwinding.next() {
        Ok(Some(frame)) => match frames.push(frame) {
            Ok(()) => Ok(None),
            Err(_) => Err(AllocError),
        },
        Ok(None) => Ok(Some(WalkEnd::Root)),
        Err(error) => match error {
            Error::OutOfMemory => Err(AllocError),
            refusal => Ok(Some(WalkEnd::Refused(refusal))),
        },
    }
}
