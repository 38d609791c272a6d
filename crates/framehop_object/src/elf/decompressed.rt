//! What sections hold that may be compressed.
ghost use Rattle.std.specs.Prelude.{◌≡◌, ◌≢◌, Ok, Err, MatchResult, Some};
ghost use Rattle.framehop_object.specs.Elf.Decompressed.{is_compressed, chdr_refusal, decompressed_of};
ghost use Rattle.framehop_object.specs.Elf.ErrorText.{contents_error_text};

use crate::elf::block::read_block;
use crate::elf::error::ElfError;
use crate::elf::section::{SHF_COMPRESSED, SHT_NOBITS, read_contents};
use crate::elf::section_header::SectionHeader;
use framehop_bytes::bytes::{u32_at, u64_at};
use framehop_inflate::inflate_error::InflateError;
use framehop_inflate::section::inflate_section;
use std::alloc::{AllocError, Global};
use std::{error, fmt};

/// `ELFCOMPRESS_ZLIB`.
const ELFCOMPRESS_ZLIB: u32 = 1;

/// `ELFCOMPRESS_ZSTD`.
const ELFCOMPRESS_ZSTD: u32 = 2;

/// The size of `Elf64_Chdr`, in bytes.
const HEADER_SIZE: usize = 24;

/// The most bytes of a section that is decompressed: 64 MiB.
const MOST: u64 = 0x400_0000;

/// Why what a section holds can't be had.
#[derive(Clone, Copy, Debug, PartialEq, Eq)]
pub enum ContentsError {
    /// The file has not all of the section.
    Elf(ElfError),
    /// It is compressed, and too short for an `Elf64_Chdr`.
    NoHeader,
    /// Its `ch_type` is `ELFCOMPRESS_ZSTD`.
    Zstandard,
    /// It is compressed in the older form of GNU, in which the name of a section tells it.
    OlderForm,
    /// Its `ch_type` is none of the gABI's.
    UnknownType(u32),
    /// It has more than 64 MiB when it is decompressed.
    TooLarge(u64),
    /// Its bytes are not a stream of zlib with the size that its header states.
    Inflate(InflateError),
    /// An allocation failed.
    OutOfMemory,
}

impl fmt::Display for ContentsError {
    ghost output = { λ e. Some (contents_error_text e) };

    #[tactic(auto, unfolding(crate::specs::Elf::ErrorText::contents_error_text))]
    fn fmt<W: fmt::Write>(&self, f: &mut fmt::Formatter<W>) -> fmt::Result {
        match self {
            ContentsError::Elf(error) => write!(f, "{error}"),
            ContentsError::NoHeader => write!(f, "a compressed section without its header"),
            ContentsError::Zstandard => write!(f, "compressed by zstandard"),
            ContentsError::OlderForm => write!(f, "compressed in GNU's older form"),
            ContentsError::UnknownType(kind) => write!(
                f,
                "compressed by another program than zlib and zstandard: ch_type {kind}"
            ),
            ContentsError::TooLarge(size) => {
                write!(f, "more than 64 MiB when decompressed: {size} bytes")
            }
            ContentsError::Inflate(error) => write!(f, "{error}"),
            ContentsError::OutOfMemory => write!(f, "out of memory"),
        }
    }
}

impl error::Error for ContentsError {}

impl From<ElfError> for ContentsError {
    ghost use Rattle.framehop_object.specs.Elf.Decompressed.{of_elf};

    ghost from_gives = { λ value error. error ≡ of_elf value };

    fn from(value: ElfError) -> Self {
        match value {
            ElfError::OutOfMemory => ContentsError::OutOfMemory,
            value => ContentsError::Elf(value),
        }
    }
}

impl From<InflateError> for ContentsError {
    ghost use Rattle.framehop_object.specs.Elf.Decompressed.{of_inflate};

    ghost from_gives = { λ value error. error ≡ of_inflate value };

    fn from(value: InflateError) -> Self {
        match value {
            InflateError::OutOfMemory => ContentsError::OutOfMemory,
            value => ContentsError::Inflate(value),
        }
    }
}

impl From<AllocError> for ContentsError {
    ghost use Rattle.framehop_object.specs.declared.elf.decompressed.ContentsError.{ContentsError};

    ghost from_gives = { λ value error. error ≡ ContentsError.OutOfMemory };

    fn from(_value: AllocError) -> Self {
        ContentsError::OutOfMemory
    }
}

/// Returns a copy of what a section holds, decompressed where it is compressed.
///
/// # Errors
///
/// - `Elf` where the file ends before the section does;
/// - of a section with `SHF_COMPRESSED`, in this order: `NoHeader`, `Zstandard` or `UnknownType` by its
///   `ch_type`, `TooLarge` by its `ch_size`, and `Inflate` by its bytes;
/// - `OutOfMemory`.
///
/// Source: System V gABI, chapter 4, "Section Compression".
pub fn read_decompressed(
    alloc: Global,
    file: &[u8],
    section: SectionHeader,
) -> Result<Vec<u8>, ContentsError>
    ensures { MatchResult result
        (λ bytes. decompressed_of file.now section ≡ Ok bytes.items)
        (λ error. error ≢ ContentsError.OutOfMemory → decompressed_of file.now section ≡ Err error) }
{
    if !is_compressed(section) {
        let contents = read_contents(file, section)?;
        return Ok(Vec::from_slice(alloc, contents)?);
    }
    let stored = read_block(file, section.sh_offset, section.sh_size)?;
    match chdr_refusal(stored) {
        Some(refusal) => Err(refusal),
        None => Ok(inflate_section(alloc, stored)?),
    }
}

/// Returns whether a section has bytes in the file, and they are compressed.
fn is_compressed(section: SectionHeader) -> bool
    ensures { result ≡ is_compressed section }
{
    section.sh_type != SHT_NOBITS && section.sh_flags & SHF_COMPRESSED != 0
}

/// Returns why a compressed section is not decompressed, by the header at its front.
fn chdr_refusal(stored: &[u8]) -> Option<ContentsError>
    ensures refused { result ≡ chdr_refusal stored.now }
{
    if stored.len() < HEADER_SIZE {
        return Some(ContentsError::NoHeader);
    }
    let size = u64_at(stored, 8);
    match u32_at(stored, 0) {
        ELFCOMPRESS_ZLIB if size > MOST => Some(ContentsError::TooLarge(size)),
        ELFCOMPRESS_ZLIB => None,
        ELFCOMPRESS_ZSTD => Some(ContentsError::Zstandard),
        other => Some(ContentsError::UnknownType(other)),
    }
}
