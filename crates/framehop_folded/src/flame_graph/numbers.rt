//! Places and widths, in hundredths of a pixel.
ghost use Rattle.std.specs.Prelude.{◌≡◌, ◌<◌, ◌≤◌, ◌+◌, ◌++◌, OnOk};
ghost use Rattle.framehop_folded.specs.FlameGraph.Boxes.{boxed};
ghost use Rattle.framehop_folded.specs.FlameGraph.Numbers.{share, nearest_share, edge, width_of, is_shown, hundredths};
ghost use Rattle.std.specs.String.{string_bytes};

use crate::flame_graph::boxes::FrameBox;
use std::alloc::{AllocError, Global};

/// The width of the picture, in hundredths of a pixel.
const WIDTH: u64 = 120_000;

/// The width below which a box is left out, in hundredths of a pixel.
const LEAST_WIDTH: u64 = 10;

/// How many frames from the root boxes are drawn.
const DEEPEST: usize = 4_096;

/// Returns the part of a whole that `part` is of `total`, rounded to the nearest, and up from the middle.
pub(crate) fn nearest_share(part: u64, whole: u16, total: u64) -> u64
    requires some { 0 < total }
    requires within { part ≤ total }
    ensures { result ≡ nearest_share part whole total }
{
    let twice = 2 * u128::from(part) * u128::from(whole);
    ((twice + u128::from(total)) / (2 * u128::from(total))) as u64
}

/// Returns whether a box is drawn: one that is wide enough, and not too far from the root.
pub(crate) fn is_shown(total: u64, frame: FrameBox<'_>) -> bool
    requires some { 0 < total }
    requires within { frame.left + frame.count ≤ total }
    ensures { result ≡ is_shown total (boxed frame.entry) }
{
    if DEEPEST < frame.depth {
        return false;
    }
    LEAST_WIDTH <= width_of(total, frame)
}

/// Returns how wide a box is, in hundredths of a pixel.
pub fn width_of(total: u64, frame: FrameBox<'_>) -> u64
    requires some { 0 < total }
    requires within { frame.left + frame.count ≤ total }
    ensures { result ≡ width_of total (boxed frame.entry) }
{
    edge(total, frame.left + frame.count) - edge(total, frame.left)
}

/// Returns where a count lies in the picture, in hundredths of a pixel.
pub(crate) fn edge(total: u64, count: u64) -> u64
    requires some { 0 < total }
    requires within { count ≤ total }
    ensures edge { result ≡ edge total count }
    ensures fits { result ≤ 120000 }
{
    share(count, WIDTH, total)
}

/// Returns the part of a whole that `part` is of `total`, rounded down.
pub fn share(part: u64, whole: u64, total: u64) -> u64
    requires some { 0 < total }
    requires within { part ≤ total }
    ensures share { result ≡ share part whole total }
    ensures fits { result ≤ whole }
{
    (u128::from(part) * u128::from(whole) / u128::from(total)) as u64
}

/// Appends hundredths as a decimal number.
pub(crate) fn push_hundredths(alloc: Global, out: &mut String, value: u64) -> Result<(), AllocError>
    ensures { OnOk result (string_bytes out.new ≡ string_bytes out.old ++ hundredths value) }
{
    let (whole, tenth, hundredth) = (value / 100, value / 10 % 10, value % 10);
    let text = format!(in alloc; "{whole}.{tenth}{hundredth}")?;
    out.push_str(text.as_str())?;
    Ok(())
}
