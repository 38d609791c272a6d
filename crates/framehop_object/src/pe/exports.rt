//! The functions that a file exports, by their names.
ghost use Rattle.std.specs.Prelude.{◌≡◌, ◌≤◌, Ok, Err, MatchResult, IfOk, length};
ghost use Rattle.framehop_object.specs.Pe.Block.{entries_in};
ghost use Rattle.framehop_object.specs.Pe.Exports.{directory_bytes_of, table_at, address_at, is_forwarder, export_at, exports_from, exports_in};

use crate::pe::error::PeError;
use crate::pe::pe_file::PeFile;
use crate::pe::rva::read_at_rva;
use framehop_bytes::bytes::{back, front, u16_at, u32_at};
use std::alloc::{AllocError, Global};

/// The size of the export directory table, in bytes.
const TABLE_SIZE: usize = 40;

/// The size of an address, and of the RVA of a name, in bytes.
const ADDRESS_SIZE: usize = 4;

/// The size of an ordinal, in bytes.
const ORDINAL_SIZE: usize = 2;

/// A function, or data, that a file exports.
#[derive(Clone, Copy)]
pub struct Export {
    /// Where its name begins, in bytes from the start of the export directory. It ends before a 0.
    pub name: u32,
    /// Where it begins (RVA).
    pub address: u32,
}

/// Reads the export directory of a file, in which the tables and the names of exports are: no bytes where it has none.
///
/// # Errors
///
/// `NotInSection` where neither the headers nor a section have its bytes, and `Eof` where the file ends before they do.
///
/// Source: Microsoft, "PE Format", "The .edata Section (Image Only)".
pub fn read_export_directory<'a>(pe: &PeFile<'a>) -> Result<&'a [u8], PeError>
    ensures { MatchResult result
        (λ bytes. directory_bytes_of pe.entry.now ≡ Ok bytes.now)
        (λ error. directory_bytes_of pe.entry.now ≡ Err error) }
{
    match pe.header().export_directory {
        Some(directory) => {
            let (rva, size) = (directory.virtual_address, directory.size);
            read_at_rva(pe, rva, size)
        }
        None => Ok(&[]),
    }
}

/// Returns what a file exports by names, in the order of its name pointers, by the bytes of its export directory, which
/// begins at an RVA. What is in another file, by a forwarder, is left out, and so is what the directory does not hold.
///
/// Source: Microsoft, "PE Format", "Export Directory Table" and the tables after it.
pub fn exports_in(alloc: Global, start: u32, directory: &[u8]) -> Result<Vec<Export>, AllocError>
    ensures { IfOk result (λ exports. exports.items ≡ exports_in start directory.now) }
{
    if directory.len() < TABLE_SIZE {
        return Ok(Vec::new(alloc));
    }
    let address_count = u64::from(u32_at(directory, 20));
    let name_count = u64::from(u32_at(directory, 24));
    let addresses = table_at(directory, start, u32_at(directory, 28), 4 * address_count);
    let names = table_at(directory, start, u32_at(directory, 32), 4 * name_count);
    let ordinals = table_at(directory, start, u32_at(directory, 36), 2 * name_count);
    exports_from(alloc, start, directory, addresses, names, ordinals)
}

/// Returns the exports of name pointers and of the ordinals beside them.
fn exports_from(
    alloc: Global,
    start: u32,
    directory: &[u8],
    addresses: &[u8],
    names: &[u8],
    ordinals: &[u8],
) -> Result<Vec<Export>, AllocError>
    ensures { IfOk result (λ exports. exports.items
        ≡ exports_from start directory.now addresses.now (entries_in 4 names.now) (entries_in 2 ordinals.now)) }
{
    let (names, _) = names.as_chunks::<ADDRESS_SIZE>();
    let (ordinals, _) = ordinals.as_chunks::<ORDINAL_SIZE>();
    names
        .iter()
        .zip(ordinals)
        .filter_map(|(name, ordinal)| export_at(start, directory, addresses, name, ordinal))
        .collect(alloc)
}

/// Returns the export of a name pointer and of the ordinal beside it.
fn export_at(
    start: u32,
    directory: &[u8],
    addresses: &[u8],
    name: &[u8; ADDRESS_SIZE],
    ordinal: &[u8; ORDINAL_SIZE],
) -> Option<Export>
    ensures { result ≡ export_at start directory.now addresses.now (name.now, ordinal.now) }
{
    let address = address_at(addresses, u16_at(ordinal, 0))?;
    if is_forwarder(start, directory, address) {
        return None;
    }
    let name = u32_at(name, 0).checked_sub(start)?;
    Some(Export { name, address })
}

/// Returns the address (RVA) of an ordinal without its base, if the table has it.
fn address_at(addresses: &[u8], ordinal: u16) -> Option<u32>
    ensures { result ≡ address_at addresses.now ordinal }
{
    let at = ADDRESS_SIZE * usize::from(ordinal);
    if addresses.len() < at + ADDRESS_SIZE {
        return None;
    }
    Some(u32_at(addresses, at))
}

/// Returns whether an address is that of the name of a function of another file: it lies in the export directory.
fn is_forwarder(start: u32, directory: &[u8], address: u32) -> bool
    ensures { result ≡ is_forwarder start directory.now address }
{
    start <= address && u64::from(address - start) < directory.len() as u64
}

/// Returns the bytes of a table of a size at an RVA, as far as the directory has them.
fn table_at(directory: &[u8], start: u32, rva: u32, size: u64) -> &[u8]
    ensures { result.now ≡ table_at start directory.entry.now rva size }
{
    match rva.checked_sub(start) {
        Some(offset) => front(back(directory, u64::from(offset)), size as usize),
        None => &[],
    }
}
