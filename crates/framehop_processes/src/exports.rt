//! The functions that a PE file exports, as symbols.
ghost use Rattle.std.specs.Prelude.{◌≡◌, IfOk, map};
ghost use Rattle.framehop_pe.specs.FunctionTable.{starts_of};
ghost use Rattle.framehop_processes.specs.Exports.{start_after, end_of_leaf, size_of, symbol_of, symbols_of};

use framehop_bytes::place::{Starts, place};
use framehop_object::elf::symbol::Symbol;
use framehop_object::pe::exports::{Export, exports_in};
use framehop_object::pe::header::FileHeader;
use framehop_pe::unwind_info::function_table::FunctionTableEntries;
use std::alloc::{AllocError, Global};

/// Returns the functions that a file exports by names, as symbols whose names lie in the export directory, which has these
/// bytes. The function table gives their sizes.
pub(crate) fn exported_functions(
    alloc: Global,
    header: FileHeader,
    directory: &[u8],
    pdata: &[u8],
) -> Result<Vec<Symbol>, AllocError>
    ensures { IfOk result (λ symbols. symbols.items ≡ symbols_of header pdata.now directory.now) }
{
    match header.export_directory {
        Some(place) => {
            let exports = exports_in(alloc, place.virtual_address, directory)?;
            symbols_of_exports(alloc, header.size_of_image, pdata, exports.as_slice())
        }
        None => Ok(Vec::new(alloc)),
    }
}

/// Returns exports of an image of a size as symbols.
fn symbols_of_exports(
    alloc: Global,
    size_of_image: u32,
    pdata: &[u8],
    exports: &[Export],
) -> Result<Vec<Symbol>, AllocError>
    ensures { IfOk result (λ symbols. symbols.items ≡ map (symbol_of size_of_image pdata.now) exports.now) }
{
    exports
        .iter()
        .map(|export| symbol_of(size_of_image, pdata, *export))
        .collect(alloc)
}

/// Returns the symbol of an export of an image of a size.
fn symbol_of(size_of_image: u32, pdata: &[u8], export: Export) -> Symbol
    ensures { result ≡ symbol_of size_of_image pdata.now export }
{
    Symbol {
        st_name: export.name,
        st_value: u64::from(export.address),
        size: size_of(size_of_image, pdata, export.address),
    }
}

/// Returns how many bytes an exported function has at most: those to the end of the function that the table has there, or
/// else to the next one of the table, or to the end of the image.
fn size_of(size_of_image: u32, pdata: &[u8], address: u32) -> u64
    ensures { result ≡ size_of size_of_image pdata.now address }
{
    let table = FunctionTableEntries { bytes: pdata };
    let end = match table.lookup(address) {
        Some(function) => u64::from(function.end_address),
        None => end_of_leaf(size_of_image, &table, address),
    };
    end.saturating_sub(u64::from(address))
}

/// Returns where a function that the table does not have ends at the latest (RVA).
fn end_of_leaf(size_of_image: u32, table: &FunctionTableEntries<'_>, address: u32) -> u64
    ensures { result ≡ end_of_leaf size_of_image (starts_of table.now.bytes.now) address }
{
    match start_after(table, address) {
        Some(start) => start,
        None => u64::from(size_of_image),
    }
}

/// Returns the start that comes after an address in a table of functions in their order, if one does.
fn start_after(table: &FunctionTableEntries<'_>, address: u32) -> Option<u64>
    ensures { result ≡ start_after (starts_of table.now.bytes.now) address }
{
    let count = table.count();
    if count == 0 {
        return None;
    }
    let at = place(table, u64::from(address));
    let start = table.start(at);
    if u64::from(address) < start {
        return Some(start);
    }
    if at + 1 < count {
        Some(table.start(at + 1))
    } else {
        None
    }
}
