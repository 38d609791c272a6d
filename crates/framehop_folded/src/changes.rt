//! Folded stacks of two runs beside one another, as text with two counts: FlameGraph's `difffolded.pl` writes such lines, and
//! its `flamegraph.pl` reads them.
ghost use Rattle.std.specs.Prelude.{◌≡◌, ◌||◌, is_err, ℕ, List, IfOk, OnOk};
ghost use Rattle.std.specs.Io.KnownBytes.{Appends};
ghost use Rattle.framehop_folded.specs.Changes.{change_line, changes_text};
ghost use Rattle.framehop_folded.specs.Folded.{entry_of, with_stack, IsInOrderOfBytes};

use crate::folded::Folded;
use framehop_output::Output;
use std::alloc::{AllocError, Global};
use std::io;
use std::io::Write;

/// Folded stacks of two runs. Both have the same stacks, of which some were counted 0 times.
#[derive(Drop)]
pub struct Changes {
    old: Folded,
    new: Folded,
}

impl Changes {
    /// Returns the folded stacks of two runs beside one another. A stack that one of them has not was counted 0 times
    /// there.
    pub fn between(alloc: Global, old: Folded, new: Folded) -> Result<Self, AllocError>
        ensures old { IfOk result (λ changes. (stack : List ℕ) → entry_of changes.old stack
            ≡ with_stack (entry_of old stack) (entry_of new stack)) }
        ensures new { IfOk result (λ changes. (stack : List ℕ) → entry_of changes.new stack
            ≡ with_stack (entry_of new stack) (entry_of old stack)) }
    {
        let (mut old, mut new) = (old, new);
        old.add_stacks(alloc, &new)?;
        new.add_stacks(alloc, &old)?;
        Ok(Changes { old, new })
    }

    /// Returns the stacks of the first run.
    pub fn old(&self) -> &Folded
        ensures { result.now ≡ self.entry.now.old }
    {
        &self.old
    }

    /// Returns the stacks of the second run.
    pub fn new(&self) -> &Folded
        ensures { result.now ≡ self.entry.now.new }
    {
        &self.new
    }

    /// Writes each stack with its counts in the first and the second run, each after a blank, as a line, in the order of
    /// the stacks' bytes.
    ///
    /// # Errors
    ///
    /// If a write fails.
    pub fn write<W: Write>(&self, out: &mut Output<W>) -> io::Result<()>
        ensures written { OnOk result (Appends out.old.bytes out.new.bytes (changes_text self.now)) }
        ensures noted { out.new.has_failed ≡ (out.old.has_failed || is_err result) }
        ensures ordered { IsInOrderOfBytes self.now.new }
    {
        for (stack, count) in self.new.iter() {
            let old = self.old.count_of(stack.as_slice());
            write_line(stack.as_slice(), old, *count, out)?;
        }
        Ok(())
    }
}

/// Writes a stack with its counts.
fn write_line<W: Write>(stack: &[u8], old: u64, new: u64, out: &mut Output<W>) -> io::Result<()>
    ensures written { OnOk result (Appends out.old.bytes out.new.bytes (change_line stack.now old new)) }
    ensures noted { out.new.has_failed ≡ (out.old.has_failed || is_err result) }
{
    out.write_all(stack)?;
    writeln!(out, " {old} {new}")?;
    Ok(())
}
