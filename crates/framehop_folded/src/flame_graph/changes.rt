//! Two runs as one flame graph: the boxes of the second, painted by how their parts of all differ from those in the first.
ghost use Rattle.std.specs.Prelude.{◌≡◌, ◌<◌, ◌≤◌, ◌+◌, ◌++◌, ◌^◌, IfOk, OnOk, length, map, vec_len};
ghost use Rattle.std.specs.List.{All, filter};
ghost use Rattle.std.specs.String.{string_bytes};
ghost use Rattle.framehop_folded.specs.FlameGraph.Changes.{viewed_change, joined, deepest_of, is_drawn, pale, change_colour, told, change_title_of, change_rectangle_of, change_drawn, change_picture_of};
ghost use Rattle.framehop_folded.specs.FlameGraph.Names.{characters_of};

use crate::flame_graph::boxes::FrameBox;
use crate::flame_graph::drawing::{Drawing, Layout};
use crate::flame_graph::names::{characters_of, push_escaped};
use crate::flame_graph::numbers::{is_shown, nearest_share, push_hundredths, share};
use crate::flame_graph::picture::{
    push_head, push_label, push_samples, push_script, push_span, top_of,
};
use std::alloc::{AllocError, Global};

/// A box of the second run.
#[derive(Clone, Copy, Drop)]
pub struct ChangedBox<'a> {
    pub frame: FrameBox<'a>,
    /// The counts of its stacks in the first run.
    pub before: u64,
}

/// The counts of all stacks of both runs.
#[derive(Clone, Copy)]
pub struct Totals {
    pub before: u64,
    pub now: u64,
}

/// Returns the boxes of the second run with the counts of the same boxes of the first.
pub fn join<'a>(
    alloc: Global,
    boxes: &[FrameBox<'a>],
    before: &[FrameBox<'a>],
) -> Result<Vec<ChangedBox<'a>>, AllocError>
    requires { length before.now ≡ length boxes.now }
    ensures { IfOk result (λ changes. changes.items ≡ joined boxes.now before.now) }
{
    let mut changes = Vec::new(alloc);
    for at in 0..boxes.len() {
        changes.push(ChangedBox {
            frame: boxes[at],
            before: before[at].count,
        })?;
    }
    Ok(changes)
}

/// Returns the boxes that are drawn.
pub(crate) fn shown_changes<'a>(
    alloc: Global,
    totals: Totals,
    changes: &[ChangedBox<'a>],
) -> Result<Vec<ChangedBox<'a>>, AllocError>
    requires some { 0 < totals.now }
    requires within { All (λ change. change.frame.left + change.frame.count ≤ totals.now) changes.now }
    requires before { All (λ change. change.before ≤ totals.before) changes.now }
    ensures shown { IfOk result (λ shown. map viewed_change shown.items
        ≡ filter (is_drawn totals) (map viewed_change changes.now)) }
    ensures fewer { IfOk result (λ shown. vec_len shown ≤ length changes.now) }
    ensures within { IfOk result (λ shown. All (λ change. change.frame.left + change.frame.count ≤ totals.now) shown.items) }
    ensures before { IfOk result (λ shown. All (λ change. change.before ≤ totals.before) shown.items) }
{
    let mut shown = Vec::new(alloc);
    for change in changes {
        if is_shown(totals.now, change.frame) {
            shown.push(*change)?;
        }
    }
    Ok(shown)
}

/// Returns boxes of two runs as an SVG that says how many were left out.
pub(crate) fn draw_changes(
    alloc: Global,
    drawing: Drawing<'_>,
    totals: Totals,
    changes: &[ChangedBox<'_>],
    left_out: usize,
) -> Result<String, AllocError>
    requires some { 0 < totals.now }
    requires some_before { 0 < totals.before }
    requires within { All (λ change. change.frame.left + change.frame.count ≤ totals.now) changes.now }
    requires before { All (λ change. change.before ≤ totals.before) changes.now }
    ensures { IfOk result (λ svg. string_bytes svg
        ≡ change_picture_of drawing.entry totals (map viewed_change changes.now) left_out) }
{
    let rows = deepest(changes);
    let mut out = String::new(alloc);
    push_head(alloc, &mut out, drawing.title, rows, left_out)?;
    for change in changes {
        push_change(alloc, &mut out, drawing.layout, totals, rows, *change)?;
    }
    push_script(&mut out, drawing.script)?;
    out.push_str("</svg>\n")?;
    Ok(out)
}

/// Returns how many rows boxes take beside that of the root.
fn deepest(changes: &[ChangedBox<'_>]) -> usize
    ensures rows { result ≡ deepest_of (map viewed_change changes.now) }
    ensures within { All (λ change. change.frame.depth ≤ result) changes.now }
{
    let mut rows = 0;
    for change in changes {
        rows = change.frame.depth.max(rows);
    }
    rows
}

/// Appends a box in a picture of so many rows beside that of the root.
#[tactic(auto, unfolding(crate::specs::FlameGraph::Changes::change_drawn))]
fn push_change(
    alloc: Global,
    out: &mut String,
    layout: Layout,
    totals: Totals,
    rows: usize,
    change: ChangedBox<'_>,
) -> Result<(), AllocError>
    requires some { 0 < totals.now }
    requires some_before { 0 < totals.before }
    requires within { change.frame.left + change.frame.count ≤ totals.now }
    requires before { change.before ≤ totals.before }
    requires rows { change.frame.depth ≤ rows }
    ensures { OnOk result (string_bytes out.new ≡ string_bytes out.old
        ++ change_drawn layout totals rows (viewed_change change.entry)) }
{
    let top = top_of(layout, rows, change.frame.depth);
    let characters = characters_of(alloc, change.frame.name)?;
    out.push_str("<g>")?;
    push_change_title(alloc, out, totals, change, characters.as_slice())?;
    push_change_rectangle(alloc, out, totals, top, change)?;
    push_label(
        alloc,
        out,
        totals.now,
        top,
        change.frame,
        characters.as_slice(),
    )?;
    out.push_str("</g>\n")?;
    Ok(())
}

/// Appends what is shown where the pointer is over a box.
#[tactic(auto, unfolding(crate::specs::FlameGraph::Changes::change_title_of))]
fn push_change_title(
    alloc: Global,
    out: &mut String,
    totals: Totals,
    change: ChangedBox<'_>,
    characters: &[char],
) -> Result<(), AllocError>
    requires some { 0 < totals.now }
    requires some_before { 0 < totals.before }
    requires within { change.frame.left + change.frame.count ≤ totals.now }
    requires before { change.before ≤ totals.before }
    requires name { characters.now ≡ characters_of change.frame.name.now }
    ensures { OnOk result (string_bytes out.new ≡ string_bytes out.old ++ change_title_of totals (viewed_change change.entry)) }
{
    out.push_str("<title>")?;
    push_escaped(out, characters)?;
    out.push_str(" (")?;
    push_told(alloc, out, change.frame.count, totals.now)?;
    out.push_str("; before ")?;
    push_told(alloc, out, change.before, totals.before)?;
    out.push_str(")</title>")?;
    Ok(())
}

/// Appends a count and its part of all.
#[tactic(auto, unfolding(crate::specs::FlameGraph::Changes::told))]
fn push_told(alloc: Global, out: &mut String, count: u64, total: u64) -> Result<(), AllocError>
    requires some { 0 < total }
    requires within { count ≤ total }
    ensures { OnOk result (string_bytes out.new ≡ string_bytes out.old ++ told count total) }
{
    push_samples(alloc, out, count)?;
    out.push_str(", ")?;
    push_hundredths(alloc, out, nearest_share(count, 10_000, total))?;
    out.push_str("%")?;
    Ok(())
}

/// Appends the rectangle of a box, of which the top is given in pixels.
#[tactic(auto, unfolding(crate::specs::FlameGraph::Changes::change_rectangle_of))]
fn push_change_rectangle(
    alloc: Global,
    out: &mut String,
    totals: Totals,
    top: u128,
    change: ChangedBox<'_>,
) -> Result<(), AllocError>
    requires some { 0 < totals.now }
    requires some_before { 0 < totals.before }
    requires within { change.frame.left + change.frame.count ≤ totals.now }
    requires before { change.before ≤ totals.before }
    ensures { OnOk result (string_bytes out.new ≡ string_bytes out.old
        ++ change_rectangle_of totals top (viewed_change change.entry)) }
{
    out.push_str("<rect")?;
    push_span(alloc, out, totals.now, change.frame)?;
    let text = format!(in alloc; " y=\"{top}\" height=\"15\" fill=\"")?;
    out.push_str(text.as_str())?;
    let before = share(change.before, 1_000_000_000, totals.before);
    let now = share(change.frame.count, 1_000_000_000, totals.now);
    push_change_colour(alloc, out, before, now)?;
    out.push_str("\"/>")?;
    Ok(())
}

/// Appends the colour of a box whose part of all changed from one to the other: red where it grew, blue where it shrank.
#[tactic(auto, unfolding(crate::specs::FlameGraph::Changes::change_colour))]
fn push_change_colour(
    alloc: Global,
    out: &mut String,
    before: u64,
    now: u64,
) -> Result<(), AllocError>
    ensures { OnOk result (string_bytes out.new ≡ string_bytes out.old ++ change_colour before now) }
{
    let pale = pale(before, now);
    if before < now {
        let text = format!(in alloc; "rgb(230,{pale},{pale})")?;
        out.push_str(text.as_str())?;
        return Ok(());
    }
    let text = format!(in alloc; "rgb({pale},{pale},230)")?;
    out.push_str(text.as_str())?;
    Ok(())
}

/// Returns how pale a box is whose part of all changed from one to the other: from 90, where it is new or gone, to 230,
/// where it is the same.
fn pale(before: u64, now: u64) -> u64
    ensures { result ≡ pale before now }
{
    let most = before.max(now);
    if most == 0 {
        return 230;
    }
    230 - share(most - before.min(now), 140, most)
}
