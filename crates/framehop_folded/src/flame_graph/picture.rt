//! Boxes as an SVG.
ghost use Rattle.std.specs.Prelude.{◌≡◌, ◌<◌, ◌≤◌, ◌+◌, ◌++◌, ◌^◌, IfOk, OnOk, map};
ghost use Rattle.std.specs.List.{All};
ghost use Rattle.std.specs.String.{string_bytes};
ghost use Rattle.framehop_folded.specs.FlameGraph.Boxes.{boxed};
ghost use Rattle.framehop_folded.specs.FlameGraph.Names.{characters_of};
ghost use Rattle.framehop_folded.specs.FlameGraph.Picture.{deepest, top_of, samples, title_of, span_of, rectangle_of, label_of, drawn, opening_of, document_title_of, background_of, heading_of, note_of, head_of, script_element_of, script_of, picture_of};

use crate::flame_graph::boxes::FrameBox;
use crate::flame_graph::drawing::{Drawing, Layout};
use crate::flame_graph::names::{characters_of, fitting, push_colour, push_cut, push_escaped};
use crate::flame_graph::numbers::{edge, nearest_share, push_hundredths, width_of};
use std::alloc::{AllocError, Global};

/// Returns boxes, of which counts add up to `total` in all, as an SVG that says how many were left out.
pub fn draw(
    alloc: Global,
    drawing: Drawing<'_>,
    total: u64,
    boxes: &[FrameBox<'_>],
    left_out: usize,
) -> Result<String, AllocError>
    requires some { 0 < total }
    requires within { All (λ frame. frame.left + frame.count ≤ total) boxes.now }
    ensures { IfOk result (λ svg. string_bytes svg ≡ picture_of drawing.entry total (map boxed boxes.now) left_out) }
{
    let rows = deepest(boxes);
    let mut out = String::new(alloc);
    push_head(alloc, &mut out, drawing.title, rows, left_out)?;
    for frame in boxes {
        push_box(alloc, &mut out, drawing.layout, total, rows, *frame)?;
    }
    push_script(&mut out, drawing.script)?;
    out.push_str("</svg>\n")?;
    Ok(out)
}

/// Returns how many rows boxes take beside that of the root.
fn deepest(boxes: &[FrameBox<'_>]) -> usize
    ensures rows { result ≡ deepest (map boxed boxes.now) }
    ensures within { All (λ frame. frame.depth ≤ result) boxes.now }
{
    let mut rows = 0;
    for frame in boxes {
        rows = frame.depth.max(rows);
    }
    rows
}

/// Appends what comes before the boxes, in a picture of so many rows beside that of the root.
pub(crate) fn push_head(
    alloc: Global,
    out: &mut String,
    title: &[u8],
    rows: usize,
    left_out: usize,
) -> Result<(), AllocError>
    ensures { OnOk result (string_bytes out.new ≡ string_bytes out.old ++ head_of title.now rows left_out) }
{
    let height = 82 + 16 * rows as u128;
    let characters = characters_of(alloc, title)?;
    push_opening(alloc, out, height)?;
    push_document_title(out, characters.as_slice())?;
    push_background(alloc, out, height)?;
    push_heading(out, characters.as_slice())?;
    push_note(alloc, out, left_out)
}

/// Appends the opening tag of an SVG of a height in pixels.
#[tactic(auto, unfolding(crate::specs::FlameGraph::Picture::opening_of))]
fn push_opening(alloc: Global, out: &mut String, height: u128) -> Result<(), AllocError>
    ensures { OnOk result (string_bytes out.new ≡ string_bytes out.old ++ opening_of height) }
{
    out.push_str(
        "<?xml version=\"1.0\" encoding=\"UTF-8\"?>\n<svg xmlns=\"http://www.w3.org/2000/svg\"",
    )?;
    let text = format!(in alloc;
        " width=\"1220\" height=\"{height}\" viewBox=\"-10 0 1220 {height}\""
    )?;
    out.push_str(text.as_str())?;
    out.push_str(" font-family=\"monospace\" font-size=\"12\">\n")?;
    Ok(())
}

/// Appends the title of the document, by its characters.
#[tactic(auto, unfolding(crate::specs::FlameGraph::Picture::document_title_of))]
fn push_document_title(out: &mut String, title: &[char]) -> Result<(), AllocError>
    ensures { OnOk result (string_bytes out.new ≡ string_bytes out.old ++ document_title_of title.now) }
{
    out.push_str("<title>")?;
    push_escaped(out, title)?;
    out.push_str("</title>\n")?;
    Ok(())
}

/// Appends the background of a picture of a height in pixels.
#[tactic(auto, unfolding(crate::specs::FlameGraph::Picture::background_of))]
fn push_background(alloc: Global, out: &mut String, height: u128) -> Result<(), AllocError>
    ensures { OnOk result (string_bytes out.new ≡ string_bytes out.old ++ background_of height) }
{
    let text = format!(in alloc;
        "<rect x=\"-10\" y=\"0\" width=\"1220\" height=\"{height}\" fill=\"#ffffff\"/>\n"
    )?;
    out.push_str(text.as_str())?;
    Ok(())
}

/// Appends the title as a heading, by its characters.
#[tactic(auto, unfolding(crate::specs::FlameGraph::Picture::heading_of))]
fn push_heading(out: &mut String, title: &[char]) -> Result<(), AllocError>
    ensures { OnOk result (string_bytes out.new ≡ string_bytes out.old ++ heading_of title.now) }
{
    out.push_str("<text x=\"600\" y=\"24\" font-size=\"17\" text-anchor=\"middle\">")?;
    push_cut(out, title, 115)?;
    out.push_str("</text>\n")?;
    Ok(())
}

/// Appends how many boxes were left out, if any were.
#[tactic(auto, unfolding(crate::specs::FlameGraph::Picture::note_of))]
fn push_note(alloc: Global, out: &mut String, left_out: usize) -> Result<(), AllocError>
    ensures { OnOk result (string_bytes out.new ≡ string_bytes out.old ++ note_of left_out) }
{
    if left_out == 0 {
        return Ok(());
    }
    let text = format!(in alloc;
        "<text x=\"0\" y=\"44\">Boxes narrower than a tenth of a pixel or beyond 4096 frames, left out: {left_out}</text>\n"
    )?;
    out.push_str(text.as_str())?;
    Ok(())
}

/// Appends a box in a picture of so many rows beside that of the root.
#[tactic(auto, unfolding(crate::specs::FlameGraph::Picture::drawn))]
fn push_box(
    alloc: Global,
    out: &mut String,
    layout: Layout,
    total: u64,
    rows: usize,
    frame: FrameBox<'_>,
) -> Result<(), AllocError>
    requires some { 0 < total }
    requires within { frame.left + frame.count ≤ total }
    requires rows { frame.depth ≤ rows }
    ensures { OnOk result (string_bytes out.new ≡ string_bytes out.old ++ drawn layout total rows (boxed frame.entry)) }
{
    let top = top_of(layout, rows, frame.depth);
    let characters = characters_of(alloc, frame.name)?;
    out.push_str("<g>")?;
    push_title(alloc, out, total, frame, characters.as_slice())?;
    push_rectangle(alloc, out, total, top, frame)?;
    push_label(alloc, out, total, top, frame, characters.as_slice())?;
    out.push_str("</g>\n")?;
    Ok(())
}

/// Returns how far below the top edge a box of a depth is, in pixels, in a picture of so many rows below the root.
pub(crate) fn top_of(layout: Layout, rows: usize, depth: usize) -> u128
    requires { depth ≤ rows }
    ensures top { result ≡ top_of layout rows depth }
    ensures fits { result < 2 ^ 100 }
{
    let rows_above = match layout {
        Layout::Icicle => depth,
        Layout::Flame => rows - depth,
    };
    56 + 16 * rows_above as u128
}

/// Appends what is shown where the pointer is over a box.
#[tactic(auto, unfolding(crate::specs::FlameGraph::Picture::title_of))]
fn push_title(
    alloc: Global,
    out: &mut String,
    total: u64,
    frame: FrameBox<'_>,
    characters: &[char],
) -> Result<(), AllocError>
    requires some { 0 < total }
    requires within { frame.left + frame.count ≤ total }
    requires name { characters.now ≡ characters_of frame.name.now }
    ensures { OnOk result (string_bytes out.new ≡ string_bytes out.old ++ title_of total (boxed frame.entry)) }
{
    let count = frame.count;
    out.push_str("<title>")?;
    push_escaped(out, characters)?;
    out.push_str(" (")?;
    push_samples(alloc, out, count)?;
    out.push_str(", ")?;
    push_hundredths(alloc, out, nearest_share(count, 10_000, total))?;
    out.push_str("%)</title>")?;
    Ok(())
}

/// Appends a count with its unit.
pub(crate) fn push_samples(alloc: Global, out: &mut String, count: u64) -> Result<(), AllocError>
    ensures { OnOk result (string_bytes out.new ≡ string_bytes out.old ++ samples count) }
{
    if count == 1 {
        out.push_str("1 sample")?;
        return Ok(());
    }
    let text = format!(in alloc; "{count} samples")?;
    out.push_str(text.as_str())?;
    Ok(())
}

/// Appends the rectangle of a box, of which the top is given in pixels.
#[tactic(auto, unfolding(crate::specs::FlameGraph::Picture::rectangle_of))]
fn push_rectangle(
    alloc: Global,
    out: &mut String,
    total: u64,
    top: u128,
    frame: FrameBox<'_>,
) -> Result<(), AllocError>
    requires some { 0 < total }
    requires within { frame.left + frame.count ≤ total }
    ensures { OnOk result (string_bytes out.new ≡ string_bytes out.old ++ rectangle_of total top (boxed frame.entry)) }
{
    out.push_str("<rect")?;
    push_span(alloc, out, total, frame)?;
    let text = format!(in alloc; " y=\"{top}\" height=\"15\" fill=\"")?;
    out.push_str(text.as_str())?;
    push_colour(alloc, out, frame.name)?;
    out.push_str("\"/>")?;
    Ok(())
}

/// Appends where a box begins and how wide it is.
#[tactic(auto, unfolding(crate::specs::FlameGraph::Picture::span_of))]
pub(crate) fn push_span(
    alloc: Global,
    out: &mut String,
    total: u64,
    frame: FrameBox<'_>,
) -> Result<(), AllocError>
    requires some { 0 < total }
    requires within { frame.left + frame.count ≤ total }
    ensures { OnOk result (string_bytes out.new ≡ string_bytes out.old ++ span_of total (boxed frame.entry)) }
{
    out.push_str(" x=\"")?;
    push_hundredths(alloc, out, edge(total, frame.left))?;
    out.push_str("\" width=\"")?;
    push_hundredths(alloc, out, width_of(total, frame))?;
    out.push_str("\"")?;
    Ok(())
}

/// Appends the name in a box, if three characters fit.
#[tactic(auto, unfolding(crate::specs::FlameGraph::Picture::label_of))]
pub fn push_label(
    alloc: Global,
    out: &mut String,
    total: u64,
    top: u128,
    frame: FrameBox<'_>,
    characters: &[char],
) -> Result<(), AllocError>
    requires some { 0 < total }
    requires within { frame.left + frame.count ≤ total }
    requires top { top < 2 ^ 100 }
    requires name { characters.now ≡ characters_of frame.name.now }
    ensures { OnOk result (string_bytes out.new ≡ string_bytes out.old ++ label_of total top (boxed frame.entry)) }
{
    let fit = fitting(width_of(total, frame));
    if fit < 3 {
        return Ok(());
    }
    out.push_str("<text x=\"")?;
    push_hundredths(alloc, out, edge(total, frame.left) + 300)?;
    let baseline = top + 12;
    let text = format!(in alloc; "\" y=\"{baseline}\">")?;
    out.push_str(text.as_str())?;
    push_cut(out, characters, fit as usize)?;
    out.push_str("</text>")?;
    Ok(())
}

/// Appends a script, if there is one.
pub(crate) fn push_script(out: &mut String, script: Option<&str>) -> Result<(), AllocError>
    ensures { OnOk result (string_bytes out.new ≡ string_bytes out.old ++ script_of script.entry) }
{
    match script {
        Some(script) => push_script_element(out, script),
        None => Ok(()),
    }
}

/// Appends a script as an element.
#[tactic(auto, unfolding(crate::specs::FlameGraph::Picture::script_element_of))]
fn push_script_element(out: &mut String, script: &str) -> Result<(), AllocError>
    ensures { OnOk result (string_bytes out.new ≡ string_bytes out.old ++ script_element_of script.now) }
{
    out.push_str("<script><![CDATA[")?;
    out.push_str(script)?;
    out.push_str("]]></script>\n")?;
    Ok(())
}
