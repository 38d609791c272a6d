//! Blocks of a file.
ghost use Rattle.std.specs.Prelude.{◌≡◌, Ok, Err, MatchResult, IfOk, length};
ghost use Rattle.framehop_object.specs.Pe.Block.{block_at};

use crate::pe::error::PeError;
use framehop_bytes::block;

/// Returns so many bytes from an offset of the file on.
///
/// # Errors
///
/// `Eof` where the file ends before them.
pub(crate) fn read_block(file: &[u8], offset: u64, size: u64) -> Result<&[u8], PeError>
    ensures exact { MatchResult result
        (λ block. block_at file.entry.now offset size ≡ Ok block.now)
        (λ error. block_at file.entry.now offset size ≡ Err error) }
    ensures whole { IfOk result (λ block. length block.now ≡ size) }
{
    block::read_block(file, offset, size).ok_or(PeError::Eof { offset })
}
