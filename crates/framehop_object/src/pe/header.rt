//! The headers of a file.
ghost use Rattle.std.specs.Prelude.{◌≡◌, ◌≤◌, ◌<◌, Ok, Err, MatchResult, IfOk, length};
ghost use Rattle.framehop_object.specs.Pe.Header.{is_pe, machine_of, directory_of, start_of, coff_header_of, optional_header_of, fields_of, file_header_of};

use crate::pe::block::read_block;
use crate::pe::error::PeError;
use framehop_bytes::bytes::{u16_at, u32_at, u64_at};

/// `IMAGE_DOS_SIGNATURE`: "MZ" as a little-endian number.
const DOS_SIGNATURE: u16 = 0x5a4d;

/// `IMAGE_NT_SIGNATURE`: "PE" and two zeros as a little-endian number.
const NT_SIGNATURE: u32 = 0x4550;

/// The magic number of PE32+.
const PE32_PLUS: u16 = 0x20b;

/// `IMAGE_FILE_MACHINE_AMD64`.
const AMD64: u16 = 0x8664;

/// `IMAGE_FILE_MACHINE_ARM64`.
const ARM64: u16 = 0xaa64;

/// The size of the DOS header, in bytes.
const DOS_HEADER_SIZE: u64 = 64;

/// The size of the signature and the COFF header, in bytes.
const COFF_SIZE: u64 = 24;

/// The size of the magic number after them, in bytes.
const MAGIC_SIZE: u64 = 2;

/// The size of the fields before the data directories, in bytes.
const FIELDS_SIZE: usize = 112;

/// The index of the data directory that has the export directory.
const EXPORT: usize = 0;

/// The index of the data directory that has the function table.
const EXCEPTION: usize = 3;

/// The index of the data directory that has the debug directory.
const DEBUG: usize = 6;

/// The machine of a file.
#[derive(Clone, Copy, PartialEq, Eq)]
pub enum Machine {
    /// `IMAGE_FILE_MACHINE_AMD64`.
    X86_64,
    /// `IMAGE_FILE_MACHINE_ARM64`.
    Aarch64,
    /// Another, by its number.
    Other(u16),
}

/// Where a table of the image is: `IMAGE_DATA_DIRECTORY`.
#[derive(Clone, Copy, PartialEq, Eq)]
pub struct DataDirectory {
    /// Its first address (RVA).
    pub virtual_address: u32,
    /// Its size, in bytes.
    pub size: u32,
}

/// The fields that are read of the COFF header and the optional header. A module of a minidump has
/// `time_date_stamp` and `size_of_image` of its file, and a symbol server keeps the file under both.
#[derive(Clone, Copy, PartialEq, Eq)]
pub struct FileHeader {
    /// Its machine: `Machine`.
    pub machine: Machine,
    /// How many sections there are: `NumberOfSections`.
    pub number_of_sections: u16,
    /// When the file was made, in seconds since 1970, or a number in its place: `TimeDateStamp`.
    pub time_date_stamp: u32,
    /// The address that the image is linked for (SVMA), to which RVAs are relative: `ImageBase`.
    pub image_base: u64,
    /// How many bytes the image takes in memory: `SizeOfImage`.
    pub size_of_image: u32,
    /// How many bytes the headers take in the file, padding counted: `SizeOfHeaders`.
    pub size_of_headers: u32,
    /// How many data directories there are: `NumberOfRvaAndSizes`.
    pub number_of_rva_and_sizes: u32,
    /// The export directory, if there is one.
    pub export_directory: Option<DataDirectory>,
    /// The function table, which is mostly in the section `.pdata`, if there is one.
    pub exception_directory: Option<DataDirectory>,
    /// The debug directory, if there is one.
    pub debug_directory: Option<DataDirectory>,
    /// Where the section headers begin, in bytes from the start of the file.
    pub section_table: u64,
}

/// Returns whether a file may be a PE file, by its first two bytes.
///
/// Source: Microsoft, "PE Format", "MS-DOS Stub".
pub fn is_pe(file: &[u8]) -> bool
    ensures { result ≡ is_pe file.now }
{
    file.starts_with(b"MZ")
}

/// Reads the headers of a PE file. A data directory that the optional header does not have, or whose address
/// or size is 0, is `None`.
///
/// # Errors
///
/// The first of these:
///
/// - `Eof` where the file ends before the DOS header does;
/// - `NotPe` where it does not begin with "MZ";
/// - `Eof` where it ends before the COFF header and the magic number after it do;
/// - `NotPe` where the signature is another;
/// - `NotPe32Plus` where the magic number is another;
/// - `ShortOptionalHeader` where `SizeOfOptionalHeader` is less than that of its fields;
/// - `Eof` where the file ends before the optional header does.
///
/// Source: Microsoft, "PE Format": "MS-DOS Stub", "Signature", "COFF File Header" and "Optional Header".
#[tactic(auto, unfolding(crate::specs::Pe::Header::file_header_of))]
pub fn read_file_header(file: &[u8]) -> Result<FileHeader, PeError>
    ensures { result ≡ file_header_of file.now }
{
    let start = start(file)?;
    let coff = coff_header(file, start)?;
    let optional = optional_header(file, start, u16_at(coff, 20))?;
    Ok(fields(start, coff, optional))
}

/// Returns the signature, the COFF header and the magic number after it, which begin at an offset.
#[tactic(auto, unfolding(crate::specs::Pe::Header::coff_header_of))]
fn coff_header(file: &[u8], start: u32) -> Result<&[u8], PeError>
    ensures exact { MatchResult result
        (λ header. coff_header_of file.entry.now start ≡ Ok header.now)
        (λ error. coff_header_of file.entry.now start ≡ Err error) }
    ensures whole { IfOk result (λ header. length header.now ≡ 26) }
{
    let offset = u64::from(start);
    let header = read_block(file, offset, COFF_SIZE + MAGIC_SIZE)?;
    if u32_at(header, 0) != NT_SIGNATURE {
        return Err(PeError::NotPe { offset });
    }
    if u16_at(header, 24) != PE32_PLUS {
        return Err(PeError::NotPe32Plus {
            offset: offset + COFF_SIZE,
        });
    }
    Ok(header)
}

/// Returns the optional header, of a size.
fn optional_header(file: &[u8], start: u32, size: u16) -> Result<&[u8], PeError>
    ensures exact { MatchResult result
        (λ header. optional_header_of file.entry.now start size ≡ Ok header.now)
        (λ error. optional_header_of file.entry.now start size ≡ Err error) }
    ensures whole { IfOk result (λ header. 112 ≤ length header.now) }
{
    let offset = u64::from(start);
    if usize::from(size) < FIELDS_SIZE {
        return Err(PeError::ShortOptionalHeader {
            offset: offset + 20,
        });
    }
    read_block(file, offset + COFF_SIZE, u64::from(size))
}

/// Returns the fields of both headers.
fn fields(start: u32, coff: &[u8], optional: &[u8]) -> FileHeader
    requires coff { 26 ≤ length coff.now }
    requires optional { 112 ≤ length optional.now }
    ensures { result ≡ fields_of start coff.now optional.now }
{
    FileHeader {
        machine: machine_of(u16_at(coff, 4)),
        number_of_sections: u16_at(coff, 6),
        time_date_stamp: u32_at(coff, 8),
        image_base: u64_at(optional, 24),
        size_of_image: u32_at(optional, 56),
        size_of_headers: u32_at(optional, 60),
        number_of_rva_and_sizes: u32_at(optional, 108),
        export_directory: directory(optional, EXPORT),
        exception_directory: directory(optional, EXCEPTION),
        debug_directory: directory(optional, DEBUG),
        section_table: u64::from(start) + COFF_SIZE + u64::from(u16_at(coff, 20)),
    }
}

/// Returns the machine of a number.
fn machine_of(number: u16) -> Machine
    ensures { result ≡ machine_of number }
{
    match number {
        AMD64 => Machine::X86_64,
        ARM64 => Machine::Aarch64,
        _ => Machine::Other(number),
    }
}

/// Returns the data directory of an index, if the optional header has it and it has bytes.
fn directory(optional: &[u8], index: usize) -> Option<DataDirectory>
    requires fields { 112 ≤ length optional.now }
    requires listed { index < 16 }
    ensures { result ≡ directory_of optional.now index }
{
    let at = FIELDS_SIZE + 8 * index;
    if index >= u32_at(optional, 108) as usize || at + 8 > optional.len() {
        return None;
    }
    let (virtual_address, size) = (u32_at(optional, at), u32_at(optional, at + 4));
    if virtual_address == 0 || size == 0 {
        return None;
    }
    Some(DataDirectory {
        virtual_address,
        size,
    })
}

/// Returns where the signature is, in bytes from the start of the file.
#[tactic(auto, unfolding(crate::specs::Pe::Header::start_of))]
fn start(file: &[u8]) -> Result<u32, PeError>
    ensures { result ≡ start_of file.now }
{
    let header = read_block(file, 0, DOS_HEADER_SIZE)?;
    if u16_at(header, 0) != DOS_SIGNATURE {
        return Err(PeError::NotPe { offset: 0 });
    }
    Ok(u32_at(header, 0x3c))
}
