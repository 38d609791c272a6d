//! Folded stacks as a flame graph.
ghost use Rattle.std.specs.Prelude.{◌≡◌, ◌<◌, ◌≤◌, ◌+◌, ◌^◌, IfOk, IfErr, MatchOption, length, map, vec_len};
ghost use Rattle.std.specs.List.{All, filter};
ghost use Rattle.std.specs.String.{string_bytes};
ghost use Rattle.framehop_folded.specs.FlameGraph.Boxes.{boxed};
ghost use Rattle.framehop_folded.specs.FlameGraph.Numbers.{is_shown};
ghost use Rattle.framehop_folded.specs.FlameGraph.Picture.{IsFlameGraph, refusal_of};
ghost use Rattle.framehop_folded.specs.FlameGraph.Changes.{IsChangeGraph, refusal_of_both};
ghost use Rattle.framehop_folded.specs.FlameGraph.Stacks.{stacks_of, stacks_before, total_of};
ghost use Rattle.framehop_folded.specs.declared.flame_graph.error.FlameGraphError.TheVariants.{OutOfMemory};

use crate::changes::Changes;
use crate::flame_graph::boxes::{FrameBox, boxes_of};
use crate::flame_graph::changes::{Totals, draw_changes, join, shown_changes};
use crate::flame_graph::drawing::Drawing;
use crate::flame_graph::error::FlameGraphError;
use crate::flame_graph::numbers::is_shown;
use crate::flame_graph::picture::draw;
use crate::flame_graph::stacks::{stacks_in_order, take_before};
use crate::folded::Folded;
use std::alloc::{AllocError, Global};

/// Returns the flame graph of folded stacks: an SVG of 1,220 pixels' width.
///
/// There is a box for each list of frames with which a stack begins, in a row of 16 pixels for each frame, and a root
/// `all` at the top or at the bottom. A box is as wide as the counts of its stacks, and tells its name, its count and its
/// part of all where the pointer is over it. Its name is cut where it does not fit, and left out where fewer than three
/// characters fit. Boxes narrower than a tenth of a pixel are left out, and so are those further in, and those beyond
/// 4,096 frames; the picture says how many.
///
/// # Errors
///
/// [`FlameGraphError::TotalTooLarge`] if the counts add up to 2^64 or more, [`FlameGraphError::NothingCounted`] if they
/// add up to 0, and [`FlameGraphError::OutOfMemory`] if an allocation fails.
///
/// The form is that of Brendan Gregg's FlameGraph.
pub fn flame_graph(
    alloc: Global,
    folded: &Folded,
    drawing: Drawing<'_>,
) -> Result<String, FlameGraphError>
    ensures drawn { IfOk result (λ svg. IsFlameGraph drawing.entry (stacks_of folded.now) (string_bytes svg)) }
    ensures refused { MatchOption (refusal_of (stacks_of folded.now)) (IfErr result (λ refusal. refusal ≡ OutOfMemory))
        (λ refusal. result ≡ Err refusal) }
{
    let Some(total) = total_of(folded) else {
        return Err(FlameGraphError::TotalTooLarge);
    };
    if total == 0 {
        return Err(FlameGraphError::NothingCounted);
    }
    let stacks = stacks_in_order(alloc, folded, &Folded::new(alloc))?;
    let boxes = boxes_of(alloc, stacks.as_slice(), total)?;
    let shown = shown_of(alloc, total, boxes.as_slice())?;
    let left_out = boxes.len() - shown.len();
    Ok(draw(alloc, drawing, total, shown.as_slice(), left_out)?)
}

/// Returns the boxes that are drawn.
fn shown_of<'a>(
    alloc: Global,
    total: u64,
    boxes: &[FrameBox<'a>],
) -> Result<Vec<FrameBox<'a>>, AllocError>
    requires some { 0 < total }
    requires within { All (λ frame. frame.left + frame.count ≤ total) boxes.now }
    ensures shown { IfOk result (λ shown. map boxed shown.items ≡ filter (is_shown total) (map boxed boxes.now)) }
    ensures fewer { IfOk result (λ shown. vec_len shown ≤ length boxes.now) }
    ensures within { IfOk result (λ shown. All (λ frame. frame.left + frame.count ≤ total) shown.items) }
{
    let mut shown = Vec::new(alloc);
    for frame in boxes {
        if is_shown(total, *frame) {
            shown.push(*frame)?;
        }
    }
    Ok(shown)
}

/// Returns the flame graph of the second of two runs, whose colours compare it with the first: an SVG of the form of
/// [`flame_graph`].
///
/// The boxes are those of the second run, as wide as there. A box is red where its part of all is larger than in the
/// first run, and blue where it is smaller, the darker the more; it tells its counts and parts in both.
///
/// # Errors
///
/// Those of [`flame_graph`], where the counts of either run add up so.
pub fn change_graph(
    alloc: Global,
    changes: &Changes,
    drawing: Drawing<'_>,
) -> Result<String, FlameGraphError>
    ensures drawn { IfOk result (λ svg. IsChangeGraph drawing.entry (stacks_of changes.now.new)
        (stacks_before changes.now.new changes.now.old) (string_bytes svg)) }
    ensures refused { MatchOption (refusal_of_both (stacks_of changes.now.new) (stacks_before changes.now.new changes.now.old))
        (IfErr result (λ refusal. refusal ≡ OutOfMemory)) (λ refusal. result ≡ Err refusal) }
{
    let (folded, old) = (changes.new(), changes.old());
    let Some(now) = total_of(folded) else {
        return Err(FlameGraphError::TotalTooLarge);
    };
    let Some(before) = total_before(folded, old) else {
        return Err(FlameGraphError::TotalTooLarge);
    };
    if now == 0 || before == 0 {
        return Err(FlameGraphError::NothingCounted);
    }
    let mut stacks = stacks_in_order(alloc, folded, old)?;
    let boxes = boxes_of(alloc, stacks.as_slice(), now)?;
    take_before(stacks.as_mut_slice());
    let boxes_before = boxes_of(alloc, stacks.as_slice(), before)?;
    let joined = join(alloc, boxes.as_slice(), boxes_before.as_slice())?;
    let totals = Totals { before, now };
    let shown = shown_changes(alloc, totals, joined.as_slice())?;
    let left_out = joined.len() - shown.len();
    Ok(draw_changes(alloc, drawing, totals, shown.as_slice(), left_out)?)
}

/// Returns the counts of all stacks, together.
fn total_of(folded: &Folded) -> Option<u64>
    ensures { MatchOption result (2 ^ 64 ≤ total_of (stacks_of folded.now))
        (λ total. total ≡ total_of (stacks_of folded.now)) }
{
    let mut total: u64 = 0;
    for (_, count) in folded.iter() {
        total = total.checked_add(*count)?;
    }
    Some(total)
}

/// Returns how often the stacks of a run were counted in a run before, together.
fn total_before(folded: &Folded, before: &Folded) -> Option<u64>
    ensures { MatchOption result (2 ^ 64 ≤ total_of (stacks_before folded.now before.now))
        (λ total. total ≡ total_of (stacks_before folded.now before.now)) }
{
    let mut total: u64 = 0;
    for (stack, _) in folded.iter() {
        total = total.checked_add(before.count_of(stack.as_slice()))?;
    }
    Some(total)
}
