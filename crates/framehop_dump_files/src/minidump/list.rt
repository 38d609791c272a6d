//! Streams that are lists.
ghost use Rattle.std.specs.Prelude.{◌≡◌, ◌^◌, ◌<◌, Ok, Err, MatchResult};
ghost use Rattle.framehop_dump_files.specs.Minidump.List.{list_in, list_of};

use crate::minidump::error::MinidumpError;
use crate::minidump::location::read_located;
use crate::minidump::stream::{Stream, first_stream};
use framehop_bytes::bytes::{back, u32_at};

/// Returns the bytes of the entries, of a size, of the list in the first stream of a type: none where there
/// is no such stream.
///
/// # Errors
///
/// `Eof` where the file ends before the stream does, `ShortStream` where the stream ends before the count of
/// entries, and `BadListSize` where its size is not that of so many entries.
#[tactic(auto, unfolding(crate::specs::Minidump::List::list_of))]
pub(crate) fn read_list<'a>(
    file: &'a [u8],
    streams: &[Stream],
    stream_type: u32,
    size: u64,
) -> Result<&'a [u8], MinidumpError>
    requires { size < 2 ^ 16 }
    ensures { MatchResult result
        (λ entries. list_of file.entry.now streams.now stream_type size ≡ Ok entries.now)
        (λ error. list_of file.entry.now streams.now stream_type size ≡ Err error) }
{
    let Some(stream) = first_stream(streams, stream_type) else {
        return Ok(&[]);
    };
    let list = read_located(file, stream.location)?;
    list_in(u64::from(stream.location.offset), size, list)
}

/// Returns the bytes of the entries, of a size, of a list that is at an offset of the file.
#[tactic(auto, unfolding(crate::specs::Minidump::List::list_in))]
fn list_in(offset: u64, size: u64, list: &[u8]) -> Result<&[u8], MinidumpError>
    requires { size < 2 ^ 16 }
    ensures { MatchResult result
        (λ entries. list_in offset size list.entry.now ≡ Ok entries.now)
        (λ error. list_in offset size list.entry.now ≡ Err error) }
{
    let length = list.len() as u64;
    if length < 4 {
        return Err(MinidumpError::ShortStream { offset });
    }
    let entries = size * u64::from(u32_at(list, 0));
    if length == 4 + entries {
        return Ok(back(list, 4));
    }
    if length == 8 + entries {
        return Ok(back(list, 8));
    }
    Err(MinidumpError::BadListSize { offset })
}
