//! Which program database belongs to a file: its CodeView record.
ghost use Rattle.std.specs.Prelude.{◌≡◌, Ok, Err, MatchResult, option_map};
ghost use Rattle.framehop_object.specs.Pe.CodeView.{rsds_view, rsds_in, rsds_of_entry, first_rsds, debug_bytes_of, debug_entries_of, rsds_of};

use crate::pe::block::read_block;
use crate::pe::error::PeError;
use crate::pe::pe_file::PeFile;
use crate::pe::rva::read_at_rva;
use framehop_bytes::bytes::{back, front, u32_at};
use framehop_bytes::string::string_at;

/// "RSDS" as a little-endian number.
const RSDS: u32 = 0x53445352;

/// `IMAGE_DEBUG_TYPE_CODEVIEW`.
const CODEVIEW: u32 = 2;

/// The size of an entry of the debug directory, in bytes.
const ENTRY_SIZE: usize = 28;

/// The size of what is before the path of a record "RSDS", in bytes.
const RSDS_SIZE: usize = 24;

/// The program database of a file: the CodeView record "RSDS". A module of a minidump has the same of its
/// file.
#[derive(Clone, Copy, Drop)]
pub struct Rsds<'a> {
    /// The GUID of the database, 16 bytes as they are in the file.
    pub guid: &'a [u8],
    /// How often it was written since it was made.
    pub age: u32,
    /// Its path, without the 0 after it.
    pub path: &'a [u8],
    /// The GUID and the age, 20 bytes as they are in the file: what a file must have in common with a module.
    pub guid_and_age: &'a [u8],
}

/// Reads which program database belongs to a file: the record "RSDS" of the first entry of the debug directory
/// that has one, or `None` where no entry has. An entry whose bytes the file does not hold has none.
///
/// # Errors
///
/// `NotInSection` where neither the headers nor a section have the bytes of the debug directory, and `Eof` where
/// the file ends before they do.
///
/// Source: Microsoft, "PE Format", "Debug Directory (Image Only)" and "Debug Type"; of the record Breakpad,
/// `minidump_format.h`, `MDCVInfoPDB70`.
#[tactic(auto, unfolding(crate::specs::Pe::CodeView::rsds_of))]
pub fn read_rsds<'a>(pe: &PeFile<'a>) -> Result<Option<Rsds<'a>>, PeError>
    ensures { MatchResult result
        (λ found. rsds_of pe.entry.now ≡ Ok (option_map rsds_view found))
        (λ error. rsds_of pe.entry.now ≡ Err error) }
{
    let entries = debug_entries(pe)?;
    Ok(first_rsds(pe.bytes(), entries))
}

/// Returns the entries of the debug directory.
#[tactic(auto, unfolding(crate::specs::Pe::CodeView::debug_entries_of))]
fn debug_entries<'a>(pe: &PeFile<'a>) -> Result<&'a [[u8; ENTRY_SIZE]], PeError>
    ensures { MatchResult result
        (λ entries. debug_entries_of pe.entry.now ≡ Ok entries.now)
        (λ error. debug_entries_of pe.entry.now ≡ Err error) }
{
    let bytes = debug_bytes(pe)?;
    let (entries, _) = bytes.as_chunks::<ENTRY_SIZE>();
    Ok(entries)
}

/// Returns the bytes of the debug directory, none where there is no such directory.
fn debug_bytes<'a>(pe: &PeFile<'a>) -> Result<&'a [u8], PeError>
    ensures { MatchResult result
        (λ bytes. debug_bytes_of pe.entry.now ≡ Ok bytes.now)
        (λ error. debug_bytes_of pe.entry.now ≡ Err error) }
{
    match pe.header().debug_directory {
        Some(directory) => {
            let (rva, size) = (directory.virtual_address, directory.size);
            read_at_rva(pe, rva, size)
        }
        None => Ok(&[]),
    }
}

/// Returns the record of the first entry that has one.
fn first_rsds<'a>(file: &'a [u8], entries: &[[u8; ENTRY_SIZE]]) -> Option<Rsds<'a>>
    ensures { option_map rsds_view result ≡ first_rsds file.entry.now entries.now }
{
    for entry in entries {
        let found = rsds_of_entry(file, entry);
        if found.is_some() {
            return found;
        }
    }
    None
}

/// Returns the record of an entry of the debug directory, if it has one and the file holds it.
fn rsds_of_entry<'a>(file: &'a [u8], entry: &[u8; ENTRY_SIZE]) -> Option<Rsds<'a>>
    ensures { option_map rsds_view result ≡ rsds_of_entry file.entry.now entry.now }
{
    if u32_at(entry, 12) != CODEVIEW {
        return None;
    }
    let (size, offset) = (u32_at(entry, 16), u32_at(entry, 24));
    match read_block(file, u64::from(offset), u64::from(size)) {
        Ok(bytes) => rsds_in(bytes),
        Err(_) => None,
    }
}

/// Returns the record that the bytes are, if they are one.
fn rsds_in(bytes: &[u8]) -> Option<Rsds<'_>>
    ensures { option_map rsds_view result ≡ rsds_in bytes.entry.now }
{
    if bytes.len() < RSDS_SIZE || u32_at(bytes, 0) != RSDS {
        return None;
    }
    Some(Rsds {
        guid: front(back(bytes, 4), 16),
        age: u32_at(bytes, 20),
        path: string_at(bytes, 24),
        guid_and_age: front(back(bytes, 4), 20),
    })
}
