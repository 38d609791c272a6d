//! Symbols of functions, and of other places in code, by their addresses.
ghost use Rattle.std.specs.Prelude.{◌≡◌, ◌≤◌, Ok, Err, MatchResult, IfOk, IfErr, IsPermutation, filter, length, map, nat_eq};
ghost use Rattle.std.specs.List.Sorted.{IsNonDecreasingBy, IsStableByKey};
ghost use Rattle.std.specs.Ordering.{nat_cmp};
ghost use Rattle.framehop_object.specs.Elf.Block.{IsErrorOf};
ghost use Rattle.framehop_object.specs.Elf.Symbol.{symbol_type, is_function, is_code, is_mapping, is_label, size_from, size_of, symbol_of, entries_of, function_symbols_of, labels_of, start_of, nearest_of, reaches, symbol_for, symbol_names_of};

use crate::elf::elf_file::ElfFile;
use crate::elf::error::ElfError;
use crate::elf::section::{SHF_EXECINSTR, read_contents};
use crate::elf::section_header::SectionHeader;
use framehop_bytes::bytes::{u16_at, u32_at, u64_at};
use framehop_bytes::string::string_at;
use std::alloc::{AllocError, Global};
use std::marker::Model;

/// `STT_NOTYPE`: the type of a label of hand-written code.
const STT_NOTYPE: u8 = 0;

/// `STT_FUNC`.
const STT_FUNC: u8 = 2;

/// `STT_GNU_IFUNC`: a function that returns the address of the one that is to be called.
const STT_GNU_IFUNC: u8 = 10;

/// `SHN_UNDEF`: the symbol is not defined in the file.
const SHN_UNDEF: u16 = 0;

/// The size of a symbol, in bytes.
const ENTRY_SIZE: usize = 24;

/// The symbol of a function or of a label: `Elf64_Sym`.
#[derive(Clone, Copy)]
pub struct Symbol {
    /// Where its name begins in the string table of the symbol table, in bytes.
    pub st_name: u32,
    /// Where the function begins, or the label is (SVMA).
    pub st_value: u64,
    /// How many bytes it has at most: its `st_size`, or, where that is 0, those to the end of its section.
    pub size: u64,
}

/// Symbols of functions, to be searched by address. A contract sees the list of them.
#[derive(Drop)]
pub struct SymbolTable {
    /// In the order of their starts.
    symbols: Vec<Symbol>,
}

impl Model for SymbolTable {
    ghost use Rattle.std.specs.Prelude.{List};
    ghost use Rattle.std.specs.List.Sorted.{IsNonDecreasingBy};
    ghost use Rattle.framehop_object.specs.Elf.Symbol.{start_of};
    ghost use Rattle.framehop_object.specs.declared.elf.symbol.Symbol.{Symbol};

    ghost Value = { List Symbol };

    ghost view = { λ table. table.symbols.items };

    ghost invariant = { λ table. IsNonDecreasingBy start_of table.symbols.items };
}

/// Reads the functions among the symbols of a symbol table, a section of type `SHT_SYMTAB` or
/// `SHT_DYNSYM`, in its order: symbols of type `STT_FUNC` or `STT_GNU_IFUNC` that are defined and whose
/// value is not 0. Their names are in the section of index `sh_link`. A symbol without a size ends with its section.
///
/// # Errors
///
/// - `BadEntrySize` where `sh_entsize` is not the size of `Elf64_Sym`, with the offset of the table;
/// - `Eof` and `Compressed` by the contents of the section;
/// - `OutOfMemory`.
///
/// Source: System V gABI, chapter 4, "Symbol Table".
#[tactic(auto, unfolding(crate::specs::Elf::Symbol::function_symbols_of))]
pub fn read_function_symbols(
    alloc: Global,
    elf: &ElfFile<'_>,
    table: SectionHeader,
) -> Result<Vec<Symbol>, ElfError>
    ensures { MatchResult result
        (λ symbols. function_symbols_of elf.now.bytes elf.now.sections table ≡ Ok symbols.items)
        (λ error. IsErrorOf (function_symbols_of elf.now.bytes elf.now.sections table) error) }
{
    let entries = read_entries(elf.bytes(), table)?;
    Ok(functions(alloc, elf.sections(), entries)?)
}

/// Reads the labels in code among the symbols of a symbol table, in its order: symbols of type `STT_NOTYPE` that have a
/// name, whose section has code and whose value is not 0. `names` has their names. The mapping symbols of aarch64, `$x`
/// and `$d`, are no labels.
///
/// # Errors
///
/// Those of [`read_function_symbols`].
///
/// Source: System V gABI, chapter 4, "Symbol Table"; ELF for the Arm 64-bit Architecture, "Mapping symbols".
#[tactic(auto, unfolding(crate::specs::Elf::Symbol::labels_of))]
pub fn read_labels(
    alloc: Global,
    elf: &ElfFile<'_>,
    table: SectionHeader,
    names: &[u8],
) -> Result<Vec<Symbol>, ElfError>
    ensures { MatchResult result
        (λ symbols. labels_of elf.now.bytes elf.now.sections table names.now ≡ Ok symbols.items)
        (λ error. IsErrorOf (labels_of elf.now.bytes elf.now.sections table names.now) error) }
{
    let entries = read_entries(elf.bytes(), table)?;
    Ok(labels(alloc, elf.sections(), names, entries)?)
}

/// Returns the entries of a symbol table.
#[tactic(auto, unfolding(crate::specs::Elf::Symbol::entries_of))]
fn read_entries(file: &[u8], table: SectionHeader) -> Result<&[[u8; ENTRY_SIZE]], ElfError>
    ensures { MatchResult result
        (λ entries. entries_of file.entry.now table ≡ Ok entries.now)
        (λ error. entries_of file.entry.now table ≡ Err error) }
{
    if table.sh_entsize != ENTRY_SIZE as u64 {
        return Err(ElfError::BadEntrySize {
            offset: table.sh_offset,
        });
    }
    let contents = read_contents(file, table)?;
    let (entries, _) = contents.as_chunks::<ENTRY_SIZE>();
    Ok(entries)
}

/// Returns the symbols of the functions among these entries.
fn functions(
    alloc: Global,
    sections: &[SectionHeader],
    entries: &[[u8; ENTRY_SIZE]],
) -> Result<Vec<Symbol>, AllocError>
    ensures { IfOk result (λ symbols. symbols.items ≡ map (symbol_of sections.now) (filter is_function entries.now)) }
{
    entries
        .iter()
        .filter(|entry| is_function(*entry))
        .map(|entry| read_symbol(sections, entry))
        .collect(alloc)
}

/// Returns whether an entry is of a function that is defined in the file.
fn is_function(entry: &[u8; ENTRY_SIZE]) -> bool
    ensures { result ≡ is_function entry.now }
{
    let kind = symbol_type(entry);
    (kind == STT_FUNC || kind == STT_GNU_IFUNC)
        && u16_at(entry, 6) != SHN_UNDEF
        && u64_at(entry, 8) != 0
}

/// Returns the symbols of the labels among these entries.
fn labels(
    alloc: Global,
    sections: &[SectionHeader],
    names: &[u8],
    entries: &[[u8; ENTRY_SIZE]],
) -> Result<Vec<Symbol>, AllocError>
    ensures { IfOk result (λ symbols. symbols.items ≡ map (symbol_of sections.now) (filter (is_label sections.now names.now) entries.now)) }
{
    entries
        .iter()
        .filter(|entry| is_label(sections, names, *entry))
        .map(|entry| read_symbol(sections, entry))
        .collect(alloc)
}

/// Returns whether an entry is of a label in code.
fn is_label(sections: &[SectionHeader], names: &[u8], entry: &[u8; ENTRY_SIZE]) -> bool
    ensures { result ≡ is_label sections.now names.now entry.now }
{
    symbol_type(entry) == STT_NOTYPE
        && u32_at(entry, 0) != 0
        && u64_at(entry, 8) != 0
        && is_code(sections, u16_at(entry, 6))
        && !is_mapping(names, u32_at(entry, 0))
}

/// Returns whether a section has code, by its index.
fn is_code(sections: &[SectionHeader], index: u16) -> bool
    ensures { result ≡ is_code sections.now index }
{
    match sections.get(usize::from(index)) {
        Some(section) => section.sh_flags & SHF_EXECINSTR != 0,
        None => false,
    }
}

/// Returns whether a name is that of a mapping symbol, which tells where code and data begin.
fn is_mapping(names: &[u8], st_name: u32) -> bool
    ensures { result ≡ is_mapping names.now st_name }
{
    string_at(names, st_name).starts_with(b"$")
}

/// Returns the type of an entry's symbol: the lower half of `st_info`.
fn symbol_type(entry: &[u8; ENTRY_SIZE]) -> u8
    ensures { result ≡ symbol_type entry.now }
{
    entry[4] % 16
}

/// Returns the symbol that has these bytes.
fn read_symbol(sections: &[SectionHeader], entry: &[u8; ENTRY_SIZE]) -> Symbol
    ensures { result ≡ symbol_of sections.now entry.now }
{
    Symbol {
        st_name: u32_at(entry, 0),
        st_value: u64_at(entry, 8),
        size: size_of(sections, entry),
    }
}

/// Returns how many bytes the symbol of an entry has at most.
fn size_of(sections: &[SectionHeader], entry: &[u8; ENTRY_SIZE]) -> u64
    ensures { result ≡ size_of sections.now entry.now }
{
    let st_size = u64_at(entry, 16);
    if st_size != 0 {
        return st_size;
    }
    match sections.get(usize::from(u16_at(entry, 6))) {
        Some(section) => size_from(u64_at(entry, 8), *section),
        None => 0,
    }
}

/// Returns how many bytes of a section there are from an address (SVMA) on.
fn size_from(address: u64, section: SectionHeader) -> u64
    ensures { result ≡ size_from address section }
{
    if address < section.sh_addr {
        return 0;
    }
    section.sh_size.saturating_sub(address - section.sh_addr)
}

/// Returns the string table that has the names of a symbol table's symbols, which [`string_at`] reads.
///
/// # Errors
///
/// `NoSuchSection` where `sh_link` is the index of no section, with the offset of the table; `Eof` and
/// `Compressed` by the contents of that section.
///
/// Source: System V gABI, chapter 4, "Symbol Table" and "Sections", `sh_link`.
///
/// [`string_at`]: framehop_bytes::string::string_at
pub fn read_symbol_names<'a>(elf: &ElfFile<'a>, table: SectionHeader) -> Result<&'a [u8], ElfError>
    ensures { MatchResult result
        (λ names. symbol_names_of elf.entry.now.bytes elf.entry.now.sections table ≡ Ok names.now)
        (λ error. symbol_names_of elf.entry.now.bytes elf.entry.now.sections table ≡ Err error) }
{
    match elf.sections().get(table.sh_link as usize) {
        Some(section) => elf.contents(*section),
        None => Err(ElfError::NoSuchSection {
            offset: table.sh_offset,
        }),
    }
}

impl SymbolTable {
    /// Returns the table of these symbols, of which those that begin at one address keep their order.
    ///
    /// # Errors
    ///
    /// `OutOfMemory`.
    pub fn new(symbols: Vec<Symbol>) -> Result<Self, ElfError>
        ensures refused { IfErr result (λ error. error ≡ ElfError.OutOfMemory) }
        ensures all { IfOk result (λ table. IsPermutation symbols.items table) }
        ensures order { IfOk result (λ table. IsStableByKey start_of nat_cmp symbols.items table) }
    {
        let mut symbols = symbols;
        symbols.sort_by_key(|symbol| symbol.st_value)?;
        Ok(SymbolTable { symbols })
    }

    /// Returns whether there is no function.
    pub fn is_empty(&self) -> bool
        ensures { result ≡ nat_eq (length self.now) 0 }
    {
        self.symbols.is_empty()
    }

    /// Returns the symbol that begins last of those at or below an address (SVMA); of several there the last in the table.
    pub fn nearest(&self, svma: u64) -> Option<Symbol>
        ensures { result ≡ nearest_of self.now svma }
    {
        nearest(self.symbols.as_slice(), svma)
    }

    /// Returns the symbol of the function that has an address (SVMA): the one with the greatest start at
    /// or below it, if the address is before its end. A symbol without a size reaches to the next one, or
    /// to the end of its section. Of symbols that begin at one address it is the last: in a symbol table a
    /// global one is after the local ones.
    pub fn symbol_for(&self, svma: u64) -> Option<Symbol>
        ensures { result ≡ symbol_for self.now svma }
    {
        let symbol = self.nearest(svma)?;
        if reaches(symbol, svma) {
            Some(symbol)
        } else {
            None
        }
    }
}

/// Returns the nearest symbol of sorted ones.
fn nearest(symbols: &[Symbol], svma: u64) -> Option<Symbol>
    requires { IsNonDecreasingBy start_of symbols.now }
    ensures { result ≡ nearest_of symbols.now svma }
{
    let count = symbols.partition_point(|symbol| symbol.st_value <= svma);
    if count == 0 {
        return None;
    }
    Some(symbols[count - 1])
}

/// Returns whether a symbol reaches to an address at or after its start.
fn reaches(symbol: Symbol, svma: u64) -> bool
    ensures { result ≡ reaches svma symbol }
{
    let Some(end) = symbol.st_value.checked_add(symbol.size) else {
        return true;
    };
    svma < end
}
