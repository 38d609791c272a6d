//! The boxes of a flame graph.
ghost use Rattle.std.specs.Prelude.{◌≡◌, ◌<◌, ◌≤◌, ◌+◌, ◌^◌, ◌++◌, ◌∷◌, [], IfOk, OnOk, map, sum_by};
ghost use Rattle.framehop_folded.specs.FlameGraph.Boxes.{boxed, root_of};
ghost use Rattle.framehop_folded.specs.FlameGraph.Stacks.{viewed, total_of};
ghost use Rattle.framehop_folded.specs.FlameGraph.Sweep.{count_along, boxes_at, boxes_along};

use crate::flame_graph::stacks::{Neighbour, Stack, neighbours};
use std::alloc::{AllocError, Global};

/// A box of a flame graph.
#[derive(Clone, Copy, Drop)]
pub struct FrameBox<'a> {
    /// The name of the frame.
    pub name: &'a [u8],
    /// How many boxes are below it.
    pub depth: usize,
    /// The counts of the stacks to its left.
    pub left: u64,
    /// The counts of the stacks that it is of.
    pub count: u64,
}

/// Returns the boxes of stacks in order, the root first.
pub(crate) fn boxes_of<'a>(
    alloc: Global,
    stacks: &[Stack<'a>],
    total: u64,
) -> Result<Vec<FrameBox<'a>>, AllocError>
    requires { total ≡ total_of (map viewed stacks.now) }
    ensures { IfOk result (λ boxes. map boxed boxes.items
        ≡ root_of (map viewed stacks.now) ∷ boxes_along 0 [] (map viewed stacks.now)) }
{
    let neighbours = neighbours(alloc, stacks)?;
    let mut boxes = Vec::new(alloc);
    boxes.push(FrameBox {
        name: b"all",
        depth: 0,
        left: 0,
        count: total,
    })?;
    let mut left = 0;
    for (at, stack) in stacks.iter().enumerate() {
        let here = neighbours[at];
        push_boxes(
            &mut boxes,
            stack.frames.as_slice(),
            left,
            here,
            &neighbours[at + 1..],
        )?;
        left += stack.count;
    }
    Ok(boxes)
}

/// Appends the boxes that begin at a stack: those of its frames that it does not share with the one before it.
fn push_boxes<'a>(
    boxes: &mut Vec<FrameBox<'a>>,
    frames: &[&'a [u8]],
    left: u64,
    here: Neighbour,
    later: &[Neighbour],
) -> Result<(), AllocError>
    requires { here.count + sum_by (λ stack. stack.count) later.now < 2 ^ 64 }
    ensures { OnOk result (map boxed boxes.new.items
        ≡ map boxed boxes.old.items ++ boxes_at left (map (λ frame. frame.now) frames.now) here later.now) }
{
    for depth in here.shared..frames.len() {
        boxes.push(FrameBox {
            name: frames[depth],
            depth: depth + 1,
            left,
            count: here.count + count_along(later, depth),
        })?;
    }
    Ok(())
}

/// Returns the counts of the stacks, from the first on, that share more frames than `depth` with the one before.
fn count_along(later: &[Neighbour], depth: usize) -> u64
    requires { sum_by (λ stack. stack.count) later.now < 2 ^ 64 }
    ensures along { result ≡ count_along depth later.now }
    ensures within { result ≤ sum_by (λ stack. stack.count) later.now }
{
    let mut count = 0;
    for stack in later {
        if stack.shared <= depth {
            return count;
        }
        count += stack.count;
    }
    count
}
