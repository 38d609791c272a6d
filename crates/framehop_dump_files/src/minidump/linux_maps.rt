//! Which memory of a process could be executed, as Linux says it.
ghost use Rattle.std.specs.Prelude.{◌≡◌, Ok, Err, MatchResult, IfOk};
ghost use Rattle.framehop_dump_files.specs.Minidump.Location.{IsErrorOf};
ghost use Rattle.framehop_dump_files.specs.Minidump.LinuxMaps.{before, address_of, is_letter, is_code_by, region_in, regions_in, text_of, maps_of};

use crate::minidump::error::MinidumpError;
use crate::minidump::location::read_located;
use crate::minidump::stream::{Stream, first_stream};
use framehop_bytes::bytes::{back, front};
use framehop_memory::segment::Segment;
use std::alloc::{AllocError, Global};

/// `MD_LINUX_MAPS`, of Breakpad.
const LINUX_MAPS: u32 = 0x47670009;

/// The most digits of an address.
const MOST_DIGITS: usize = 16;

/// Reads the regions of the memory that the process had, and which of them could be executed: the lines of the text in
/// the first stream of type `LinuxMaps`, in its order. They are segments without bytes. There are none without such a
/// stream.
///
/// A line begins with the first address, `-`, the address after the last, a blank, and the letters `rwx` and `p` or `s`,
/// where `-` is in the place of each of the first three that is not granted. The addresses are of one to sixteen
/// hexadecimal digits. Lines of another form are left out, as LLDB leaves them out; Breakpad reads no line where there is
/// one.
///
/// # Errors
///
/// `Eof` where the file ends before the stream does; else `OutOfMemory`.
///
/// Source: Breakpad, `minidump_format.h`, `MD_LINUX_MAPS`; `proc(5)`, `/proc/pid/maps`; LLDB, `LinuxProcMaps.cpp`.
#[tactic(auto, unfolding(crate::specs::Minidump::LinuxMaps::maps_of))]
pub fn read_linux_maps(
    alloc: Global,
    file: &[u8],
    streams: &[Stream],
) -> Result<Vec<Segment>, MinidumpError>
    ensures { MatchResult result
        (λ regions. maps_of file.now streams.now ≡ Ok regions.items)
        (λ error. IsErrorOf (maps_of file.now streams.now) error) }
{
    let text = text(file, streams)?;
    Ok(regions(alloc, text)?)
}

/// Returns the text of the stream, if there is one.
#[tactic(auto, unfolding(crate::specs::Minidump::LinuxMaps::text_of))]
fn text<'a>(file: &'a [u8], streams: &[Stream]) -> Result<&'a [u8], MinidumpError>
    ensures { MatchResult result
        (λ text. text_of file.entry.now streams.now ≡ Ok text.now)
        (λ error. text_of file.entry.now streams.now ≡ Err error) }
{
    match first_stream(streams, LINUX_MAPS) {
        Some(stream) => read_located(file, stream.location),
        None => Ok(&[]),
    }
}

/// Returns the regions of the lines of a text.
fn regions(alloc: Global, text: &[u8]) -> Result<Vec<Segment>, AllocError>
    ensures { IfOk result (λ regions. regions.items ≡ regions_in text.now) }
{
    text.split(|byte| *byte == b'\n')
        .filter_map(|line| region_in(line))
        .collect(alloc)
}

/// Returns the region of a line, if it is of the form.
#[tactic(auto, unfolding(crate::specs::Minidump::LinuxMaps::region_in))]
fn region_in(line: &[u8]) -> Option<Segment>
    ensures { result ≡ region_in line.now }
{
    let first = before(line, b'-');
    let rest = back(line, first.len() as u64 + 1);
    let second = before(rest, b' ');
    let letters = back(rest, second.len() as u64 + 1);
    let start = address_of(first)?;
    let end = address_of(second)?;
    let is_code = is_code(letters)?;
    Some(Segment {
        address: start,
        size: end.saturating_sub(start),
        offset: 0,
        file_size: 0,
        is_code,
    })
}

/// Returns the bytes before the first of a code, or all of them where there is none.
fn before(bytes: &[u8], code: u8) -> &[u8]
    ensures { result.now ≡ before code bytes.entry.now }
{
    for end in 0..bytes.len() {
        if bytes[end] == code {
            return front(bytes, end);
        }
    }
    bytes
}

/// Returns the number that one to sixteen hexadecimal digits write.
fn address_of(digits: &[u8]) -> Option<u64>
    ensures { result ≡ address_of digits.now }
{
    if digits.is_empty() || digits.len() > MOST_DIGITS {
        return None;
    }
    let mut address = 0;
    for digit in digits {
        let value = char::from(*digit).to_digit(16)?;
        address = 16 * address + u64::from(value);
    }
    Some(address)
}

/// Returns whether the letters of a line let memory be executed, `None` where they are others.
fn is_code(letters: &[u8]) -> Option<bool>
    ensures { result ≡ is_code_by letters.now }
{
    if letters.len() < 4 {
        return None;
    }
    let is_shared = letters[3] == b's';
    let is_granted = is_letter(letters[0], b'r')
        && is_letter(letters[1], b'w')
        && is_letter(letters[2], b'x');
    if is_granted && (is_shared || letters[3] == b'p') {
        Some(letters[2] == b'x')
    } else {
        None
    }
}

/// Returns whether a byte is a letter, or `-` in its place.
fn is_letter(byte: u8, letter: u8) -> bool
    ensures { result ≡ is_letter letter byte }
{
    byte == letter || byte == b'-'
}
