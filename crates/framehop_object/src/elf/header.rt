//! The ELF header of a file.
ghost use Rattle.std.specs.Prelude.{◌≡◌, ◌≤◌, length};
ghost use Rattle.framehop_object.specs.Elf.Header.{fields_of, identified, file_header_of};

use crate::elf::block::read_block;
use crate::elf::error::ElfError;
use framehop_bytes::bytes::{u16_at, u32_at, u64_at};

/// `EM_X86_64`: the value of `e_machine` of x86_64.
pub const EM_X86_64: u16 = 62;

/// `EM_AARCH64`: the value of `e_machine` of aarch64.
pub const EM_AARCH64: u16 = 183;

/// `ELFMAG0` to `ELFMAG3` as a little-endian number.
const MAGIC: u32 = 0x464c457f;

/// The value of `EI_CLASS` of a 64-bit file.
const ELFCLASS64: u8 = 2;

/// The value of `EI_DATA` of a little-endian file.
const ELFDATA2LSB: u8 = 1;

/// The value of `EI_VERSION`.
const EV_CURRENT: u8 = 1;

/// The size of the header, in bytes.
pub const HEADER_SIZE: u64 = 64;

/// The ELF header: `Elf64_Ehdr`.
#[derive(Clone, Copy, PartialEq, Eq)]
pub struct FileHeader {
    /// Which kind of object it is.
    pub e_type: u16,
    /// Its architecture.
    pub e_machine: u16,
    /// Where the program begins (SVMA).
    pub e_entry: u64,
    /// Where the program headers are, in bytes from the start of the file, or 0.
    pub e_phoff: u64,
    /// Where the section headers are, in bytes from the start of the file, or 0.
    pub e_shoff: u64,
    /// The size of a program header, in bytes.
    pub e_phentsize: u16,
    /// How many program headers there are, or `PN_XNUM`.
    pub e_phnum: u16,
    /// The size of a section header, in bytes.
    pub e_shentsize: u16,
    /// How many section headers there are, or 0.
    pub e_shnum: u16,
    /// The index of the section that has the names of sections, `SHN_UNDEF` or `SHN_XINDEX`.
    pub e_shstrndx: u16,
}

/// Reads the ELF header of a file.
///
/// # Errors
///
/// `Eof` where the file is shorter than the header, else `NotElf`, `NotClass64`, `NotLittleEndian` or
/// `UnknownVersion` by the first of the bytes of `e_ident` that is another.
///
/// Source: System V gABI, chapter 4, "ELF Header" and "ELF Identification".
#[tactic(auto, unfolding(crate::specs::Elf::Header::file_header_of))]
pub fn read_file_header(file: &[u8]) -> Result<FileHeader, ElfError>
    ensures { result ≡ file_header_of file.now }
{
    let entry = read_block(file, 0, HEADER_SIZE)?;
    identify(entry)
}

/// Returns the header, if it is of a kind that is read.
fn identify(entry: &[u8]) -> Result<FileHeader, ElfError>
    requires { 64 ≤ length entry.now }
    ensures { result ≡ identified entry.now }
{
    if u32_at(entry, 0) != MAGIC {
        return Err(ElfError::NotElf { offset: 0 });
    }
    if entry[4] != ELFCLASS64 {
        return Err(ElfError::NotClass64 { offset: 4 });
    }
    if entry[5] != ELFDATA2LSB {
        return Err(ElfError::NotLittleEndian { offset: 5 });
    }
    if entry[6] != EV_CURRENT {
        return Err(ElfError::UnknownVersion { offset: 6 });
    }
    Ok(fields(entry))
}

/// Returns the fields after `e_ident`.
fn fields(entry: &[u8]) -> FileHeader
    requires { 64 ≤ length entry.now }
    ensures { result ≡ fields_of entry.now }
{
    FileHeader {
        e_type: u16_at(entry, 16),
        e_machine: u16_at(entry, 18),
        e_entry: u64_at(entry, 24),
        e_phoff: u64_at(entry, 32),
        e_shoff: u64_at(entry, 40),
        e_phentsize: u16_at(entry, 54),
        e_phnum: u16_at(entry, 56),
        e_shentsize: u16_at(entry, 58),
        e_shnum: u16_at(entry, 60),
        e_shstrndx: u16_at(entry, 62),
    }
}
