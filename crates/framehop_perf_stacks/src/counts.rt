//! What is counted of samples.
ghost use Rattle.std.specs.Prelude.{ℕ, Bool, ◌≡◌, ◌≤◌, ◌+◌, ◌^◌, ◌⊎◌, List, None, OnOk, IfErr};
ghost use Rattle.framehop_folded.specs.Folded.{count_in, total_of, entry_of};
ghost use Rattle.framehop_perf_stacks.specs.Counts.{CountsOneMore, HasSampleMore};
ghost use Rattle.framehop_perf_stacks.specs.Ended.{MayEnd};
ghost use Rattle.framehop_perf_stacks.specs.Run.{AreCounted};
ghost use Rattle.framehop_perf_stacks.specs.declared.error.StacksError.TheVariants.{OutOfMemory, TooManySamples};

use crate::error::StacksError;
use framehop_folded::folded::Folded;
use std::alloc::Global;

/// What was counted of samples.
#[derive(Drop)]
pub struct Counts {
    /// How many samples there were.
    pub samples: u64,
    /// How many of them have a frame that no unwind data tells.
    pub unsure: u64,
    /// How many of them have a frame by a guess.
    pub guessed: u64,
    /// How many of them are cut where the copy of their stack ends.
    pub cut: u64,
    /// How many of them have a frame in the vdso, of which no file was read.
    pub in_vdso: u64,
    /// How many records the kernel lost.
    pub lost: u64,
    /// How often walks ended in which way, or why there was none.
    pub ends: Folded,
    /// How often there was which folded stack.
    pub stacks: Folded,
}

impl Counts {
    /// Returns counts of no samples.
    pub fn new(alloc: Global) -> Self
        ensures samples { result.samples ≡ 0 }
        ensures unsure { result.unsure ≡ 0 }
        ensures guessed { result.guessed ≡ 0 }
        ensures cut { result.cut ≡ 0 }
        ensures in_vdso { result.in_vdso ≡ 0 }
        ensures lost { result.lost ≡ 0 }
        ensures ends { total_of result.ends ≡ 0 }
        ensures stacks { total_of result.stacks ≡ 0 }
        ensures none { (stack : List ℕ) → entry_of result.stacks stack ≡ None }
        ensures endless { (end : List ℕ) → entry_of result.ends end ≡ None }
    {
        Counts {
            samples: 0,
            unsure: 0,
            guessed: 0,
            cut: 0,
            in_vdso: 0,
            lost: 0,
            ends: Folded::new(alloc),
            stacks: Folded::new(alloc),
        }
    }

    /// Counts a sample, by how its walk ended, whether unwind data tells all its frames, whether one of them is a guess,
    /// whether it is cut where the copy of its stack ends, and whether a frame is in a vdso of which no file was read.
    ///
    /// # Errors
    ///
    /// `TooManySamples` if a count would be 2^64, and `OutOfMemory`.
    pub(crate) fn add_sample(
        &mut self,
        alloc: Global,
        end: &[u8],
        is_sure: bool,
        has_guess: bool,
        is_cut: bool,
        in_vdso: bool,
    ) -> Result<(), StacksError>
        ensures more { OnOk result (HasSampleMore self.old self.new end.now is_sure has_guess is_cut in_vdso) }
        ensures stacks { self.new.stacks ≡ self.old.stacks }
        ensures refused { IfErr result (λ refusal. (refusal ≡ OutOfMemory)
            ⊎ ((refusal ≡ TooManySamples) × ((2 ^ 64 ≤ count_in self.old.ends end.now + 1) ⊎ (2 ^ 64 ≤ self.old.samples + 1)
            ⊎ (2 ^ 64 ≤ self.old.unsure + 1) ⊎ (2 ^ 64 ≤ self.old.guessed + 1) ⊎ (2 ^ 64 ≤ self.old.cut + 1)
            ⊎ (2 ^ 64 ≤ self.old.in_vdso + 1)))) }
        ensures within { (failed frames : Bool) (samples : ℕ) → AreCounted frames samples self.old
            → IfErr result (MayEnd failed None 0 (samples + 1)) }
    {
        let end = Vec::from_slice(alloc, end)?;
        let Some(samples) = self.samples.checked_add(1) else {
            return Err(StacksError::TooManySamples);
        };
        let more = if is_sure { 0 } else { 1 };
        let Some(unsure) = self.unsure.checked_add(more) else {
            return Err(StacksError::TooManySamples);
        };
        let more = if has_guess { 1 } else { 0 };
        let Some(guessed) = self.guessed.checked_add(more) else {
            return Err(StacksError::TooManySamples);
        };
        let more = if is_cut { 1 } else { 0 };
        let Some(cut) = self.cut.checked_add(more) else {
            return Err(StacksError::TooManySamples);
        };
        let more = if in_vdso { 1 } else { 0 };
        let Some(in_vdso) = self.in_vdso.checked_add(more) else {
            return Err(StacksError::TooManySamples);
        };
        self.ends.add(end, 1)?;
        self.samples = samples;
        self.unsure = unsure;
        self.guessed = guessed;
        self.cut = cut;
        self.in_vdso = in_vdso;
        Ok(())
    }

    /// Counts the folded stack of a sample.
    ///
    /// # Errors
    ///
    /// `TooManySamples` if its count would be 2^64, and `OutOfMemory`.
    pub fn add_stack(&mut self, stack: Vec<u8>) -> Result<(), StacksError>
        ensures more { OnOk result (CountsOneMore self.old.stacks self.new.stacks stack.items) }
        ensures samples { self.new.samples ≡ self.old.samples }
        ensures ends { self.new.ends ≡ self.old.ends }
        ensures unsure { self.new.unsure ≡ self.old.unsure }
        ensures guessed { self.new.guessed ≡ self.old.guessed }
        ensures cut { self.new.cut ≡ self.old.cut }
        ensures in_vdso { self.new.in_vdso ≡ self.old.in_vdso }
        ensures lost { self.new.lost ≡ self.old.lost }
        ensures refused { IfErr result (λ refusal. (refusal ≡ OutOfMemory)
            ⊎ ((refusal ≡ TooManySamples) × (2 ^ 64 ≤ count_in self.old.stacks stack.items + 1))) }
        ensures within { (failed : Bool) → IfErr result (MayEnd failed None 0 (total_of self.old.stacks + 1)) }
    {
        self.stacks.add(stack, 1)?;
        Ok(())
    }
}
