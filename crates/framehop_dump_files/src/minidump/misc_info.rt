//! Which process it was.
ghost use Rattle.std.specs.Prelude.{◌≡◌};
ghost use Rattle.framehop_dump_files.specs.Minidump.MiscInfo.{process_id_of};

use crate::minidump::error::MinidumpError;
use crate::minidump::location::read_located;
use crate::minidump::stream::{Stream, first_stream};
use framehop_bytes::bytes::u32_at;

/// `MiscInfoStream`.
const MISC_INFO_STREAM: u32 = 15;

/// `MINIDUMP_MISC1_PROCESS_ID`: the field `ProcessId` says something.
const MINIDUMP_MISC1_PROCESS_ID: u32 = 1;

/// The size of the fields up to `ProcessId`, in bytes.
const FIELDS_SIZE: usize = 12;

/// Reads the number of the process, from the first stream of type `MiscInfoStream`, or `None` where there is
/// no such stream, or it does not say.
///
/// # Errors
///
/// `Eof` where the file ends before the stream does, and `ShortStream` where it ends before its fields do.
///
/// Source: `minidumpapiset.h`, `MINIDUMP_MISC_INFO`.
#[tactic(auto, unfolding(crate::specs::Minidump::MiscInfo::process_id_of))]
pub fn read_process_id(file: &[u8], streams: &[Stream]) -> Result<Option<u32>, MinidumpError>
    ensures { result ≡ process_id_of file.now streams.now }
{
    let Some(stream) = first_stream(streams, MISC_INFO_STREAM) else {
        return Ok(None);
    };
    let fields = read_located(file, stream.location)?;
    if fields.len() < FIELDS_SIZE {
        return Err(MinidumpError::ShortStream {
            offset: u64::from(stream.location.offset),
        });
    }
    if u32_at(fields, 4) & MINIDUMP_MISC1_PROCESS_ID == 0 {
        return Ok(None);
    }
    Ok(Some(u32_at(fields, 8)))
}
