//! Whether one of many runs of addresses has some bytes, found by halving.
ghost use Rattle.std.specs.Prelude.{◌≡◌, ◌+◌, ◌≤◌, ◌<◌, ◌⊎◌, ℕ, IfOk, length, map};
ghost use Rattle.std.specs.List.Sorted.{IsNonDecreasingBy};
ghost use Rattle.framehop_memory.specs.Stairs.{has_run, have_run, AreRising};

use framehop_bytes::place::{Starts, place};
use std::alloc::{AllocError, Global};

/// A run of addresses.
#[derive(Clone, Copy, Drop)]
pub(crate) struct Run {
    /// The first of them.
    pub(crate) start: u64,
    /// How many they are.
    pub(crate) size: u64,
}

/// Runs of addresses in the order of their starts, each at least as long as those before it are from its start on: so
/// they rise like stairs, and the last one that begins at or before an address reaches as far as any.
#[derive(Drop)]
pub(crate) struct Stairs {
    runs: Vec<Run>,
    ghost rising: { AreRising runs.items },
}

/// The starts of runs.
#[derive(Clone, Copy, Drop)]
struct RunStarts<'a> {
    runs: &'a [Run],
}

impl<'a> Starts for RunStarts<'a> {
    ghost starts = { λ table. map (λ run. run.start) table.runs.now };

    fn count(&self) -> usize {
        self.runs.len()
    }

    fn start(&self, index: usize) -> u64 {
        self.runs[index].start
    }
}

impl Stairs {
    /// Returns the stairs of these runs.
    pub(crate) fn new(runs: Vec<Run>) -> Result<Self, AllocError>
        ensures { IfOk result (λ stairs. (address size : ℕ) → have_run stairs.runs.items address size ≡ have_run runs.items address size) }
    {
        let mut runs = runs;
        runs.sort_by_key(|run| run.start)?;
        raise(&mut runs);
        Ok(Stairs { runs })
    }

    /// Returns whether one of the runs has so many bytes from an address on.
    pub(crate) fn have(&self, address: u64, size: u64) -> bool
        ensures { result ≡ have_run self.now.runs.items address size }
    {
        let runs = self.runs.as_slice();
        !runs.is_empty() && has(runs[place(&RunStarts { runs }, address)], address, size)
    }
}

/// Makes each run at least as long as those before it are from its start on.
fn raise(runs: &mut [Run])
    requires { IsNonDecreasingBy (λ run. run.start) runs.old }
    ensures same { (address size : ℕ) → have_run runs.new address size ≡ have_run runs.old address size }
    ensures rising { AreRising runs.new }
{
    for index in 1..runs.len() {
        runs[index] = raised(runs[index], runs[index - 1]);
    }
}

/// Returns a run, made at least as long as one that begins at or before it is from its start on.
fn raised(run: Run, earlier: Run) -> Run
    requires { earlier.start ≤ run.start }
    ensures start { result.start ≡ run.start }
    ensures longer { run.size ≤ result.size }
    ensures further { earlier.start + earlier.size ≤ result.start + result.size }
    ensures one { (result.size ≡ run.size) ⊎ (result.start + result.size ≡ earlier.start + earlier.size) }
{
    let left = earlier.size.saturating_sub(run.start - earlier.start);
    Run {
        start: run.start,
        size: run.size.max(left),
    }
}

/// Returns whether a run has so many bytes from an address on.
fn has(run: Run, address: u64, size: u64) -> bool
    ensures { result ≡ has_run address size run }
{
    run.start <= address && size <= run.size && address - run.start <= run.size - size
}
