//! Stacks as lists of frames, in order.
ghost use Rattle.std.specs.Prelude.{◌≡◌, ◌<◌, [], IfOk, map, length, slice_index_or, vec_len};
ghost use Rattle.std.specs.List.{common_prefix_len};
ghost use Rattle.std.specs.List.Sorted.{IsPermutation};
ghost use Rattle.std.specs.Str.{bytes_eq};
ghost use Rattle.framehop_folded.specs.FlameGraph.Stacks.{Stacked, frames_of, viewed, viewed_before, stacks_of, stacks_before};
ghost use Rattle.framehop_folded.specs.FlameGraph.Sweep.{Rises, shared_frames, frames_before, neighbours_of};

use crate::folded::Folded;
use std::alloc::{AllocError, Global};

/// A stack: the names of its frames from the outermost on, and how often it was counted.
#[derive(Drop, PartialEq, Eq, PartialOrd, Ord)]
pub struct Stack<'a> {
    pub frames: Vec<&'a [u8]>,
    pub count: u64,
    /// How often it was counted in the run with which it is compared.
    pub before: u64,
}

/// A stack beside the one before it in order.
#[derive(Clone, Copy, Drop)]
pub(crate) struct Neighbour {
    /// How many frames both begin with.
    pub shared: usize,
    /// How often the stack was counted.
    pub count: u64,
}

/// Returns folded stacks in order of their frames, with how often each was counted in a run before.
pub(crate) fn stacks_in_order<'a>(
    alloc: Global,
    folded: &'a Folded,
    before: &Folded,
) -> Result<Vec<Stack<'a>>, AllocError>
    ensures same { IfOk result (λ stacks. IsPermutation (stacks_of folded.entry.now) (map viewed stacks.items)) }
    ensures before { IfOk result (λ stacks. IsPermutation (stacks_before folded.entry.now before.now)
        (map viewed_before stacks.items)) }
    ensures ordered { IfOk result (λ stacks. Rises [] (map viewed stacks.items)) }
{
    let mut stacks = Vec::new(alloc);
    for (stack, count) in folded.iter() {
        stacks.push(Stack {
            frames: frames_of(alloc, stack.as_slice())?,
            count: *count,
            before: before.count_of(stack.as_slice()),
        })?;
    }
    stacks.sort()?;
    Ok(stacks)
}

/// Returns the frames of a stack's text.
fn frames_of(alloc: Global, stack: &[u8]) -> Result<Vec<&[u8]>, AllocError>
    ensures { IfOk result (λ frames. map (λ frame. frame.now) frames.items ≡ frames_of stack.entry.now) }
{
    stack.split(|byte| *byte == b';').collect(alloc)
}

/// Gives each stack the count that it had before.
pub(crate) fn take_before(stacks: &mut [Stack<'_>])
    ensures { map viewed stacks.new ≡ map viewed_before stacks.old }
{
    for stack in stacks.iter_mut() {
        stack.count = stack.before;
    }
}

/// Returns each stack beside the one before it.
pub(crate) fn neighbours(alloc: Global, stacks: &[Stack<'_>]) -> Result<Vec<Neighbour>, AllocError>
    ensures neighbours { IfOk result (λ neighbours. neighbours.items ≡ neighbours_of [] (map viewed stacks.now)) }
    ensures len { IfOk result (λ neighbours. vec_len neighbours ≡ length stacks.now) }
{
    let mut neighbours = Vec::new(alloc);
    for (at, stack) in stacks.iter().enumerate() {
        neighbours.push(Neighbour {
            shared: shared_at(stacks, at),
            count: stack.count,
        })?;
    }
    Ok(neighbours)
}

/// Returns how many frames the stack at an index begins with like the one before it. The first has none before
/// it, and shares no frame.
fn shared_at(stacks: &[Stack<'_>], at: usize) -> usize
    requires { at < length stacks.now }
    ensures { (d : Stacked) → result ≡ shared_frames (frames_before (map viewed stacks.now) at)
        (slice_index_or (map viewed stacks.now) at d).frames }
{
    if at == 0 {
        return 0;
    }
    shared_frames(
        stacks[at - 1].frames.as_slice(),
        stacks[at].frames.as_slice(),
    )
}

/// Returns how many frames two stacks begin with alike.
fn shared_frames(before: &[&[u8]], frames: &[&[u8]]) -> usize
    ensures { result ≡ common_prefix_len (λ x y. bytes_eq x.now y.now) before.now frames.now }
{
    let most = before.len().min(frames.len());
    for at in 0..most {
        if before[at] != frames[at] {
            return at;
        }
    }
    most
}
