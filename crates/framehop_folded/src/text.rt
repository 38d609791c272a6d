//! Folded stacks as text, as `framehop-stacks` prints them and `flamegraph.pl` of Brendan Gregg's FlameGraph
//! reads them: a line for each stack, which is its frames from the outermost on, joined by `;`, a blank and a
//! decimal count.
ghost use Rattle.std.specs.Prelude.{◌≡◌, ◌≤◌, ◌⊎◌, ◌==◌, length, drop, take, map, MatchOption, MatchResult, false};
ghost use Rattle.std.specs.List.{list_any, position_or_len};
ghost use Rattle.framehop_folded.specs.Text.{counted, count_of, IsLastBlank, is_text, is_text_byte, line_number, read_line, read_text};
ghost use Rattle.framehop_folded.specs.declared.error.TextError.TheVariants.{OutOfMemory};

use crate::error::TextError;
use std::alloc::Global;

/// A stack and how often it was counted.
#[derive(Drop)]
pub struct FoldedLine {
    /// The names of the frames from the outermost on, joined by `;`.
    pub stack: Vec<u8>,
    /// How often the stack was counted.
    pub count: u64,
}

/// Returns whether bytes may be text, by the first 4,096 of them.
pub fn is_text(bytes: &[u8]) -> bool
    ensures { result ≡ is_text bytes.now }
{
    for byte in first_bytes(bytes, 4096) {
        if !is_text_byte(*byte) {
            return false;
        }
    }
    true
}

/// Returns whether text has a byte: one that is no control character, but for tabs, line feeds and carriage returns.
fn is_text_byte(byte: u8) -> bool
    ensures { result ≡ is_text_byte byte }
{
    byte >= b' ' || byte == b'\t' || byte == b'\n' || byte == b'\r'
}

/// Returns the number of the line at an offset of a text, in bytes. The first line is line 1.
pub fn line_number(text: &[u8], offset: usize) -> usize
    ensures { result ≡ line_number text.now offset }
{
    let mut number = 1;
    for byte in first_bytes(text, offset) {
        if *byte == b'\n' {
            number += 1;
        }
    }
    number
}

/// Returns the first bytes of a text, so many or all.
fn first_bytes(text: &[u8], count: usize) -> &[u8]
    ensures { result.now ≡ take count text.entry.now }
{
    text.get(..count).unwrap_or(text)
}

/// Reads folded stacks, in the order of their lines. Empty lines are passed over, and the last line may lack
/// its line feed.
///
/// # Errors
///
/// The first line that can't be read is refused, by the offset of its first byte: [`TextError::NoCount`] if it
/// has no blank, [`TextError::BadCount`] if what follows its last blank is not a decimal number below
/// 2^64. [`TextError::OutOfMemory`] if an allocation fails before that.
pub fn read_folded(alloc: Global, text: &[u8]) -> Result<Vec<FoldedLine>, TextError>
    ensures { MatchResult result (λ lines. read_text text.now ≡ Ok (map counted lines.items))
        (λ refusal. (refusal ≡ OutOfMemory) ⊎ (read_text text.now ≡ Err refusal)) }
{
    let mut lines = Vec::new(alloc);
    let mut rest = text;
    while !rest.is_empty() {
        let offset = text.len() - rest.len();
        let end = line_len(rest);
        if end > 0 {
            lines.push(read_line(alloc, offset, &rest[..end])?)?;
        }
        rest = rest_from(rest, end + 1);
    }
    Ok(lines)
}

/// Returns the length of a text's first line without its line feed, in bytes.
fn line_len(text: &[u8]) -> usize
    ensures len { result ≡ position_or_len (λ byte. byte == 10) text.now }
    ensures within { result ≤ length text.now }
{
    text.iter().take_while(|byte| **byte != b'\n').count()
}

/// Reads a line without its line feed, which begins at an offset of the text, in bytes.
fn read_line(alloc: Global, offset: usize, line: &[u8]) -> Result<FoldedLine, TextError>
    ensures { MatchResult result (λ made. read_line offset line.now ≡ Ok (counted made))
        (λ refusal. (refusal ≡ OutOfMemory) ⊎ (read_line offset line.now ≡ Err refusal)) }
{
    let Some(blank) = last_blank(line) else {
        return Err(TextError::NoCount(offset));
    };
    let Some(count) = count_of(&line[blank + 1..]) else {
        return Err(TextError::BadCount(offset));
    };
    let stack = Vec::from_slice(alloc, &line[..blank])?;
    Ok(FoldedLine { stack, count })
}

/// Returns the index of a line's last blank.
fn last_blank(line: &[u8]) -> Option<usize>
    ensures { MatchOption result (list_any (λ byte. byte == 32) line.now ≡ false)
        (λ blank. IsLastBlank line.now blank) }
{
    let mut blank = None;
    for (at, byte) in line.iter().enumerate() {
        if *byte == b' ' {
            blank = Some(at);
        }
    }
    blank
}

/// Returns the value of decimal digits, where there is one below 2^64.
pub fn count_of(digits: &[u8]) -> Option<u64>
    ensures { result ≡ count_of digits.now }
{
    if digits.is_empty() {
        return None;
    }
    let mut count: u64 = 0;
    for digit in digits {
        if !digit.is_ascii_digit() {
            return None;
        }
        count = count
            .checked_mul(10)?
            .checked_add(u64::from(*digit - b'0'))?;
    }
    Some(count)
}

/// Returns what a text holds from an index on, which is nothing past its end.
fn rest_from(text: &[u8], start: usize) -> &[u8]
    ensures { result.now ≡ drop start text.entry.now }
{
    text.get(start..).unwrap_or(&[])
}
