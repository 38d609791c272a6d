//! The symbol tables of a file: functions and labels, by address, with their names.
ghost use Rattle.std.specs.Prelude.{◌≡◌, ◌⊎◌, List, ◌++◌, Ok, Err, IfOk, IfErr, OnOk, MatchResult, option_map, option_to_list};
ghost use Rattle.framehop_object.specs.declared.elf.error.ElfError.{ElfError};
ghost use Rattle.framehop_processes.specs.ObjectFiles.{Listed, symbols_in, symbols_called, listed, listed_of, tables_of, IsTable, AreTables};
ghost use Rattle.framehop_processes.specs.Place.{option_named, label_at, symbol_at};

use crate::plainness::by_plainness;
use framehop_bytes::string::string_at;
use framehop_object::elf::elf_file::ElfFile;
use framehop_object::elf::error::ElfError;
use framehop_object::elf::section_header::SectionHeader;
use framehop_object::elf::symbol::{
    Symbol, SymbolTable, read_function_symbols, read_labels, read_symbol_names,
};
use std::alloc::Global;

/// The functions and the labels of a symbol table, and the string table that has their names.
#[derive(Drop)]
pub(crate) struct Symbols {
    pub(crate) table: SymbolTable,
    labels: SymbolTable,
    names: Vec<u8>,
}

impl Symbols {
    /// Returns the name of the function that has an address (SVMA), and how far the address is from its
    /// start.
    pub(crate) fn function_at(&self, svma: u64) -> Option<(&[u8], u64)>
        ensures { option_map (λ found. (found.0.now, found.1)) result
            ≡ option_named self.now svma (symbol_at self.now svma) }
    {
        let symbol = self.symbol_at(svma)?;
        let name = string_at(self.names.as_slice(), symbol.st_name);
        Some((name, svma.saturating_sub(symbol.st_value)))
    }

    /// Returns the symbol of the function that has an address (SVMA), or else of the label before it.
    fn symbol_at(&self, svma: u64) -> Option<Symbol>
        ensures { result ≡ symbol_at self.now svma }
    {
        match self.table.symbol_for(svma) {
            Some(symbol) => Some(symbol),
            None => self.label_at(svma),
        }
    }

    /// Returns the label before an address (SVMA), if no function begins after it.
    fn label_at(&self, svma: u64) -> Option<Symbol>
        ensures { result ≡ label_at self.now svma }
    {
        let label = self.labels.symbol_for(svma)?;
        match self.table.nearest(svma) {
            Some(function) if label.st_value <= function.st_value => None,
            _ => Some(label),
        }
    }
}

/// Reads the symbols of both symbol tables.
pub(crate) fn read_all_symbols(alloc: Global, elf: &ElfFile<'_>) -> Result<Vec<Symbols>, ElfError>
    ensures kept { IfOk result (λ all. AreTables (tables_of elf.now) all.items) }
    ensures refused { IfErr result (λ error. error ≡ ElfError.OutOfMemory) }
{
    let mut all = Vec::new(alloc);
    push_symbols(alloc, &mut all, elf, b".symtab")?;
    push_symbols(alloc, &mut all, elf, b".dynsym")?;
    Ok(all)
}

/// Appends the symbols of a section of a name, if they can be read.
fn push_symbols(
    alloc: Global,
    all: &mut Vec<Symbols>,
    elf: &ElfFile<'_>,
    name: &[u8],
) -> Result<(), ElfError>
    ensures kept { (listed : List Listed) → AreTables listed all.old.items → OnOk result
        (AreTables (listed ++ option_to_list (symbols_called elf.now name.now)) all.new.items) }
    ensures refused { IfErr result (λ error. error ≡ ElfError.OutOfMemory) }
{
    let Some(symbols) = read_symbols(alloc, elf, elf.section(name))? else {
        return Ok(());
    };
    Ok(all.push(symbols)?)
}

/// Reads the symbols of a section, if the file has it. They count as absent where they can't be read.
#[tactic(auto, unfolding(crate::specs::ObjectFiles::symbols_of))]
pub(crate) fn read_symbols(
    alloc: Global,
    elf: &ElfFile<'_>,
    section: Option<SectionHeader>,
) -> Result<Option<Symbols>, ElfError>
    ensures kept { IfOk result (λ symbols. AreTables (option_to_list (symbols_in elf.now section)) (option_to_list symbols)) }
    ensures refused { IfErr result (λ error. error ≡ ElfError.OutOfMemory) }
{
    let Some(section) = section else {
        return Ok(None);
    };
    let Ok(names) = read_symbol_names(elf, section) else {
        return Ok(None);
    };
    match read_listed(alloc, elf, section, names) {
        Ok((functions, labels)) => {
            let symbols = kept_symbols(alloc, functions, labels, names)?;
            Ok(Some(symbols))
        }
        Err(ElfError::OutOfMemory) => Err(ElfError::OutOfMemory),
        Err(_) => Ok(None),
    }
}

/// Reads the functions and the labels of a symbol table, by the string table that has their names.
#[tactic(auto, unfolding(crate::specs::ObjectFiles::listed_of))]
fn read_listed(
    alloc: Global,
    elf: &ElfFile<'_>,
    table: SectionHeader,
    names: &[u8],
) -> Result<(Vec<Symbol>, Vec<Symbol>), ElfError>
    ensures { MatchResult result
        (λ read. listed_of elf.now table names.now ≡ Ok (listed read.0.items read.1.items names.now))
        (λ error. (error ≡ ElfError.OutOfMemory) ⊎ (listed_of elf.now table names.now ≡ Err error)) }
{
    let functions = read_function_symbols(alloc, elf, table)?;
    let labels = read_labels(alloc, elf, table, names)?;
    Ok((functions, labels))
}

/// Keeps the functions and the labels of a symbol table with the strings that have their names.
pub(crate) fn kept_symbols(
    alloc: Global,
    functions: Vec<Symbol>,
    labels: Vec<Symbol>,
    names: &[u8],
) -> Result<Symbols, ElfError>
    ensures kept { IfOk result (λ symbols. IsTable (listed functions.items labels.items names.now) symbols) }
    ensures refused { IfErr result (λ error. error ≡ ElfError.OutOfMemory) }
{
    let ordered = by_plainness(alloc, functions.as_slice(), names)?;
    let table = SymbolTable::new(ordered)?;
    let labels = SymbolTable::new(labels)?;
    let names = Vec::from_slice(alloc, names)?;
    Ok(Symbols {
        table,
        labels,
        names,
    })
}
