//! Windows of times, as they are asked for.
ghost use Rattle.std.specs.Prelude.{◌≡◌, ◌≤◌, ◌++◌, ◌==◌, map, length, replicate, IfOk, OnOk};
ghost use Rattle.std.specs.List.{list_any, position_or_len};
ghost use Rattle.framehop_perf_stacks.specs.Window.{before_byte, after_byte, lines_of, nanoseconds_by, nanoseconds_of, bound_of, window_by, window_of};

use framehop_folded::text::count_of;
use std::alloc::{AllocError, Global};

/// How many digits of a second nanoseconds have.
const DIGITS: usize = 9;

/// A window of times, each in nanoseconds. One that is left out is no bound.
#[derive(Clone, Copy, PartialEq, Eq)]
pub struct Window {
    /// The first time.
    pub first: Option<u64>,
    /// The last time.
    pub last: Option<u64>,
}

/// Reads a window of times: `FROM,TO` in seconds, as perf prints them, of which each may be left out. Returns `None` where
/// there is no comma, a time has no decimal digits or more than nine after its point, or is 2^64 nanoseconds or more.
pub fn window_of(alloc: Global, text: &[u8]) -> Result<Option<Window>, AllocError>
    ensures { IfOk result (λ window. window ≡ window_of text.now) }
{
    if !has_comma(text) {
        return Ok(None);
    }
    let first = bound_of(alloc, before_byte(b',', text))?;
    let last = bound_of(alloc, after_byte(b',', text))?;
    Ok(window_by(first, last))
}

/// Returns the lines of a text.
pub(crate) fn lines_of(alloc: Global, text: &[u8]) -> Result<Vec<&[u8]>, AllocError>
    ensures { IfOk result (λ lines. map (λ line. line.now) lines.items ≡ lines_of text.entry.now) }
{
    text.split(|byte| *byte == b'\n').collect(alloc)
}

/// Returns whether a text has a comma.
fn has_comma(text: &[u8]) -> bool
    ensures { result ≡ list_any (λ b. b == 44) text.now }
{
    text.iter().any(|byte| *byte == b',')
}

/// Returns the window of two bounds, where both can be read.
fn window_by(first: Option<Option<u64>>, last: Option<Option<u64>>) -> Option<Window>
    ensures { result ≡ window_by first last }
{
    let first = first?;
    let last = last?;
    Some(Window { first, last })
}

/// Reads a bound of a window, which may be left out.
fn bound_of(alloc: Global, text: &[u8]) -> Result<Option<Option<u64>>, AllocError>
    ensures { IfOk result (λ bound. bound ≡ bound_of text.now) }
{
    if text.is_empty() {
        return Ok(Some(None));
    }
    match nanoseconds_of(alloc, text)? {
        Some(time) => Ok(Some(Some(time))),
        None => Ok(None),
    }
}

/// Reads a time in seconds, and returns it in nanoseconds.
fn nanoseconds_of(alloc: Global, text: &[u8]) -> Result<Option<u64>, AllocError>
    ensures { IfOk result (λ time. time ≡ nanoseconds_of text.now) }
{
    nanoseconds_by(alloc, before_byte(b'.', text), after_byte(b'.', text))
}

/// Returns a time in nanoseconds by its digits before and after the point.
fn nanoseconds_by(alloc: Global, seconds: &[u8], fraction: &[u8]) -> Result<Option<u64>, AllocError>
    ensures { IfOk result (λ time. time ≡ nanoseconds_by seconds.now fraction.now) }
{
    if fraction.len() > DIGITS {
        return Ok(None);
    }
    let mut digits = Vec::from_slice(alloc, seconds)?;
    digits.extend_from_slice(fraction)?;
    let size = digits.len() + (DIGITS - fraction.len());
    digits.resize(size, b'0')?;
    Ok(count_of(digits.as_slice()))
}

/// Returns what of a text is before the first of a byte: all where there is none.
pub(crate) fn before_byte(byte: u8, text: &[u8]) -> &[u8]
    ensures { result.now ≡ before_byte byte text.entry.now }
{
    &text[..position_of(byte, text)]
}

/// Returns what of a text is after the first of a byte: nothing where there is none.
pub(crate) fn after_byte(byte: u8, text: &[u8]) -> &[u8]
    ensures { result.now ≡ after_byte byte text.entry.now }
{
    text.get(position_of(byte, text) + 1..).unwrap_or(&[])
}

/// Returns where the first of a byte is in a text, or how long the text is.
fn position_of(byte: u8, text: &[u8]) -> usize
    ensures position { result ≡ position_or_len (λ b. b == byte) text.now }
    ensures within { result ≤ length text.now }
{
    text.iter().take_while(|one| **one != byte).count()
}
