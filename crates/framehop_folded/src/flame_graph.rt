//! From folded stacks to a flame graph: draws them as one SVG.
//!
//! # Decisions
//!
//! - Boxes are by frames, and not by the bytes of lines: a byte below `;` in a name would part a
//!   box in two.
//! - A box narrower than a tenth of a pixel is left out with those that it calls, and so are those
//!   beyond 4,096 frames (a browser shows no picture of 65,536 pixels and more whole); the picture
//!   says how many there are. Edges are rounded and not widths, so boxes meet and never overlap.
//! - Nothing counted is refused: an empty picture would look like a result.
//! - The picture is whole without its script, an argument (`Drawing::script`) that only moves and
//!   paints boxes. Its first element is a title, without which Chromium looks for one through all
//!   boxes.
//! - The outermost frame is at the top, since a deep stack would else begin with an empty page.

mod boxes;
mod changes;
pub mod drawing;
pub mod error;
mod names;
mod numbers;
mod picture;
pub mod script;
mod stacks;
pub mod svg;
