//! Blocks and tables of a file.
ghost use Rattle.std.specs.Prelude.{◌≡◌, ◌*◌, Ok, Err, MatchResult, IfOk, length};
ghost use Rattle.framehop_object.specs.Elf.Block.{block_at};

use crate::elf::error::ElfError;
use framehop_bytes::block;

/// Returns the bytes of a table of so many entries of a size.
///
/// # Errors
///
/// `Eof` where the file ends before the table does.
pub(crate) fn read_table_block(
    file: &[u8],
    offset: u64,
    count: u64,
    size: u64,
) -> Result<&[u8], ElfError>
    ensures exact { MatchResult result
        (λ block. block_at file.entry.now offset (count * size) ≡ Ok block.now)
        (λ error. block_at file.entry.now offset (count * size) ≡ Err error) }
    ensures whole { IfOk result (λ block. length block.now ≡ count * size) }
{
    let Some(size) = count.checked_mul(size) else {
        return Err(ElfError::Eof { offset });
    };
    read_block(file, offset, size)
}

/// Returns so many bytes from an offset of the file on.
///
/// # Errors
///
/// `Eof` where the file ends before them.
#[inline]
pub(crate) fn read_block(file: &[u8], offset: u64, size: u64) -> Result<&[u8], ElfError>
    ensures exact { MatchResult result
        (λ block. block_at file.entry.now offset size ≡ Ok block.now)
        (λ error. block_at file.entry.now offset size ≡ Err error) }
    ensures whole { IfOk result (λ block. length block.now ≡ size) }
{
    block::read_block(file, offset, size).ok_or(ElfError::Eof { offset })
}
