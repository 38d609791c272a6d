//! Stacks, each once, with how often they were counted.
ghost use Rattle.std.specs.Prelude.{◌≡◌, ◌≢◌, ◌+◌, ◌≤◌, ◌^◌, ◌||◌, is_err, ℕ, List, [], Some, None, OnOk, OnErr, IfErr, IsErr, ◌⊎◌};
ghost use Rattle.std.specs.Io.KnownBytes.{Appends};
ghost use Rattle.framehop_folded.specs.Folded.{entries_of, entry_of, count_in, total_of, together, with_stack, folded_line, text_of, IsInOrderOfBytes, IsUnchanged, IsTooLarge};
ghost use Rattle.framehop_folded.specs.declared.error.FoldedError.TheVariants.{OutOfMemory, CountTooLarge};

use crate::error::FoldedError;
use framehop_output::Output;
use std::alloc::{AllocError, Global};
use std::collections::BTreeMap;
use std::collections::btree_map::Iter;
use std::io;
use std::io::Write;

/// Stacks, each once, with how often they were counted.
#[derive(Drop)]
pub struct Folded {
    counts: BTreeMap<Vec<u8>, u64>,
}

impl Folded {
    /// Returns a collection without stacks.
    pub fn new(alloc: Global) -> Self
        ensures none { (stack : List ℕ) → entry_of result stack ≡ None }
        ensures empty { total_of result ≡ 0 }
        ensures unwritten { text_of result ≡ [] }
    {
        Folded {
            counts: BTreeMap::new(alloc),
        }
    }

    /// Adds to the count of a stack. A stack that was not there has been counted 0 times.
    ///
    /// # Errors
    ///
    /// [`FoldedError::CountTooLarge`] if the sum is 2^64 or more, and [`FoldedError::OutOfMemory`] if an allocation
    /// fails. Nothing is added then.
    pub fn add(&mut self, stack: Vec<u8>, count: u64) -> Result<(), FoldedError>
        ensures counted { OnOk result (entry_of self.new stack.items ≡ Some (count_in self.old stack.items + count)) }
        ensures others { OnOk result ((other : List ℕ) → other ≢ stack.items
            → entry_of self.new other ≡ entry_of self.old other) }
        ensures total { OnOk result (total_of self.new ≡ total_of self.old + count) }
        ensures too_large { 2 ^ 64 ≤ count_in self.old stack.items + count → result ≡ Err CountTooLarge }
        ensures refused { IfErr result (λ refusal. (refusal ≡ OutOfMemory)
            ⊎ (2 ^ 64 ≤ count_in self.old stack.items + count)) }
        ensures unchanged { OnErr result (IsUnchanged self.old self.new) }
    {
        let before = self.counts.get(stack.as_slice()).copied().unwrap_or(0);
        let Some(sum) = before.checked_add(count) else {
            return Err(FoldedError::CountTooLarge);
        };
        self.counts.insert(stack, sum)?;
        Ok(())
    }

    /// Adds the counts of other folded stacks.
    ///
    /// # Errors
    ///
    /// [`FoldedError::CountTooLarge`] if a sum is 2^64 or more, and [`FoldedError::OutOfMemory`] if an allocation
    /// fails. The counts of some stacks may have been added then, each whole.
    pub fn merge(&mut self, other: Folded) -> Result<(), FoldedError>
        ensures counted { OnOk result ((stack : List ℕ) → entry_of self.new stack
            ≡ together (entry_of self.old stack) (entry_of other stack)) }
        ensures total { OnOk result (total_of self.new ≡ total_of self.old + total_of other) }
        ensures too_large { (stack : List ℕ) → IsTooLarge self.old other stack → IsErr result }
        ensures refused { IfErr result (λ refusal. (refusal ≡ OutOfMemory)
            ⊎ ((refusal ≡ CountTooLarge) × (stack : List ℕ) × IsTooLarge self.old other stack)) }
        ensures part { OnErr result ((stack : List ℕ) → (entry_of self.new stack ≡ entry_of self.old stack)
            ⊎ (entry_of self.new stack ≡ together (entry_of self.old stack) (entry_of other stack))) }
    {
        for (stack, count) in other.counts {
            self.add(stack, count)?;
        }
        Ok(())
    }

    /// Returns how often a stack was counted, which is 0 where it is not there.
    pub fn count_of(&self, stack: &[u8]) -> u64
        ensures { result ≡ count_in self.now stack.now }
    {
        self.counts.get(stack).copied().unwrap_or(0)
    }

    /// Adds a stack that was counted 0 times, if it is not there.
    fn add_stack(&mut self, alloc: Global, stack: &[u8]) -> Result<(), AllocError>
        ensures counted { OnOk result (entry_of self.new stack.now ≡ Some (count_in self.old stack.now)) }
        ensures others { OnOk result ((other : List ℕ) → other ≢ stack.now
            → entry_of self.new other ≡ entry_of self.old other) }
    {
        if !self.counts.contains_key(stack) {
            let stack = Vec::from_slice(alloc, stack)?;
            self.counts.insert(stack, 0)?;
        }
        Ok(())
    }

    /// Adds the stacks of others that are not there, each counted 0 times.
    pub(crate) fn add_stacks(&mut self, alloc: Global, other: &Folded) -> Result<(), AllocError>
        ensures { OnOk result ((stack : List ℕ) → entry_of self.new stack
            ≡ with_stack (entry_of self.old stack) (entry_of other.now stack)) }
    {
        for (stack, _) in other.counts.iter() {
            self.add_stack(alloc, stack.as_slice())?;
        }
        Ok(())
    }

    /// Returns the stacks with their counts, in the order of their bytes.
    pub fn iter(&self) -> Iter<'_, Vec<u8>, u64>
        ensures entries { result ≡ entries_of self.now }
        ensures ordered { IsInOrderOfBytes self.now }
    {
        self.counts.iter()
    }

    /// Writes each stack with its count after a blank as a line, in the order of their bytes.
    ///
    /// # Errors
    ///
    /// If a write fails.
    pub fn write<W: Write>(&self, out: &mut Output<W>) -> io::Result<()>
        ensures written { OnOk result (Appends out.old.bytes out.new.bytes (text_of self.now)) }
        ensures noted { out.new.has_failed ≡ (out.old.has_failed || is_err result) }
        ensures ordered { IsInOrderOfBytes self.now }
    {
        for (stack, count) in self.counts.iter() {
            write_line(stack.as_slice(), *count, out)?;
        }
        Ok(())
    }
}

/// Writes a stack with its count.
fn write_line<W: Write>(stack: &[u8], count: u64, out: &mut Output<W>) -> io::Result<()>
    ensures written { OnOk result (Appends out.old.bytes out.new.bytes (folded_line stack.now count)) }
    ensures noted { out.new.has_failed ≡ (out.old.has_failed || is_err result) }
{
    out.write_all(stack)?;
    writeln!(out, " {count}")?;
    Ok(())
}
