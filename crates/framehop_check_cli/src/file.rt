//! The check of a file.
ghost use Rattle.std.specs.Prelude.{◌≡◌, Ok, option_map, IfOk, OnOk};
ghost use Rattle.framehop_check_cli.specs.Checked.{AreRowsChecked, IsChecked};
ghost use Rattle.framehop_check_cli.specs.Findings.{name_in, named, name_at, found_view, machine_of, IsSectionChecked};
ghost use Rattle.framehop_check_cli.specs.Opened.{symbols_by, strings_by, rows_of, ArePartsOf, IsRowsSection, AreRowsBy, IsOpened};
ghost use Rattle.framehop_check_cli.specs.Parts.{rows_section, symbol_section};

use crate::allowed::Allowed;
use crate::findings::Findings;
use crate::parts::{code_of, function_ranges, rows_section, symbol_section};
use framehop_bytes::bytes::{back, front};
use framehop_bytes::string::before_nul;
use framehop_cfi::entry::{UnwindSection, UnwindSectionType};
use framehop_cfi::pointer::BaseAddresses;
use framehop_check::check::Checker;
use framehop_check::entries::read_fdes;
use framehop_check::missing::Range;
use framehop_check::room::Room;
use framehop_check::sections::CodeSections;
use framehop_code::aarch64::CodeAarch64;
use framehop_code::effect::Code;
use framehop_code::x86_64::CodeX86_64;
use framehop_object::elf::decompressed::{ContentsError, read_decompressed};
use framehop_object::elf::elf_file::ElfFile;
use framehop_object::elf::error::ElfError;
use framehop_object::elf::header::{EM_AARCH64, EM_X86_64};
use framehop_object::elf::section_header::SectionHeader;
use framehop_object::elf::symbol::{Symbol, SymbolTable, read_function_symbols, read_symbol_names};
use framehop_object::pe::error::PeError;
use std::alloc::{AllocError, Global};
use std::fmt;

/// How many bytes of a name are read: more than are printed.
const LONGEST_NAME: usize = 4096;

/// What is printed.
#[derive(Clone, Copy)]
pub struct Options {
    /// Only summaries.
    pub is_quiet: bool,
    /// Rows that begin inside instructions too.
    pub has_notes: bool,
    /// Code without rows in the place of alarms.
    pub is_missing: bool,
}

/// Why a file can't be checked.
#[derive(Clone, Copy)]
pub enum Refusal {
    /// It is no ELF file, or a damaged one.
    Elf(ElfError),
    /// Its rows can't be read.
    Rows(ContentsError),
    /// Its machine is neither x86_64 nor aarch64.
    Machine(u16),
    /// It has neither `.eh_frame` nor `.debug_frame`.
    NoRows,
    /// It begins as a PE file does, and is a damaged one, or none of 64 bits.
    Pe(PeError),
    /// It is a PE file of another machine than x86_64.
    PeMachine,
    /// It is a PE file without a function table.
    NoFunctionTable,
    /// It is a PE file, of which code without an entry is not listed.
    PeMissing,
}

impl From<ElfError> for Refusal {
    fn from(value: ElfError) -> Self {
        Refusal::Elf(value)
    }
}

impl From<ContentsError> for Refusal {
    fn from(value: ContentsError) -> Self {
        match value {
            ContentsError::OutOfMemory => Refusal::Elf(ElfError::OutOfMemory),
            ContentsError::Elf(error) => Refusal::Elf(error),
            value => Refusal::Rows(value),
        }
    }
}

impl fmt::Display for Refusal {
    fn fmt<W: fmt::Write>(&self, f: &mut fmt::Formatter<W>) -> fmt::Result {
        match *self {
            Refusal::Elf(error) => write!(f, "{error}"),
            Refusal::Rows(error) => write!(f, "its .debug_frame is not read: {error}"),
            Refusal::Machine(machine) => write!(
                f,
                "machine {machine} is neither x86_64 nor aarch64"
            ),
            Refusal::NoRows => write!(f, "neither .eh_frame nor .debug_frame"),
            Refusal::Pe(error) => write!(f, "{error}"),
            Refusal::PeMachine => write!(f, "a PE file whose machine is not x86_64"),
            Refusal::NoFunctionTable => write!(f, "no function table"),
            Refusal::PeMissing => write!(
                f,
                "a PE file: a function without an entry is a leaf, and wants none; --missing lists the code of ELF files"
            ),
        }
    }
}

/// Returns the lines for a file, and whether there are no alarms and each entry was read, or why it can't be checked.
pub fn check_file(
    alloc: Global,
    path: &str,
    file: &[u8],
    options: Options,
    allowed: &Allowed<'_>,
) -> Result<Checked, AllocError> {
    match open(alloc, file) {
        Ok(opened) => check_opened(alloc, path, file.len(), &opened, options, allowed),
        Err(refusal) => Ok(Checked::Refused(refusal)),
    }
}

/// Returns the lines for a file of a size, by what it has to be checked by.
fn check_opened(
    alloc: Global,
    path: &str,
    size: usize,
    opened: &Opened<'_>,
    options: Options,
    allowed: &Allowed<'_>,
) -> Result<Checked, AllocError>
    ensures { IfOk result (IsChecked path.now size opened.now options allowed.now opened.now.rows) }
{
    let Some(rows) = &opened.rows else {
        return Ok(Checked::Refused(Refusal::NoRows));
    };
    let parts = &opened.parts;
    match opened.machine {
        EM_X86_64 => check_rows::<CodeX86_64>(alloc, path, size, parts, rows, options, allowed),
        EM_AARCH64 => check_rows::<CodeAarch64>(alloc, path, size, parts, rows, options, allowed),
        machine => Ok(Checked::Refused(Refusal::Machine(machine))),
    }
}

/// Returns the lines for a file of a size, by its rows.
fn check_rows<C: Code>(
    alloc: Global,
    path: &str,
    size: usize,
    parts: &Parts<'_>,
    rows: &Rows,
    options: Options,
    allowed: &Allowed<'_>,
) -> Result<Checked, AllocError>
    ensures { IfOk result (AreRowsChecked (machine_of C.instruction C.numbered C.return_column C.entry C.named)
        path.now size parts.now rows.now options allowed.now) }
{
    let room = Room::new(size, rows.contents.len());
    let mut findings = Findings::new(alloc, room);
    check_section::<C>(
        alloc,
        &rows.section(),
        parts,
        options,
        allowed,
        &mut findings,
    )?;
    findings.into_checked(path)
}

/// What a file has to be checked by.
#[derive(Drop)]
pub struct Opened<'a> {
    pub machine: u16,
    pub parts: Parts<'a>,
    pub rows: Option<Rows>,
}

/// The section that has the rows.
#[derive(Drop)]
pub struct Rows {
    pub contents: Vec<u8>,
    /// Its first address (SVMA).
    pub address: u64,
    pub kind: UnwindSectionType,
}

impl Rows {
    /// Returns the section.
    pub fn section(&self) -> UnwindSection<'_>
        ensures { result ≡ rows_of self.now }
    {
        let bases = BaseAddresses {
            eh_frame: self.address,
            ..BaseAddresses::default()
        };
        UnwindSection::new(self.contents.as_slice(), self.kind, &bases)
    }
}

/// Reads what a file has to be checked by.
pub fn open(alloc: Global, file: &[u8]) -> Result<Opened<'_>, Refusal>
    ensures { IfOk result (IsOpened file.entry.now) }
{
    let elf = ElfFile::read(alloc, file)?;
    Ok(Opened {
        machine: elf.header().e_machine,
        parts: read_parts(alloc, &elf)?,
        rows: read_rows(alloc, &elf)?,
    })
}

/// Reads the code and the symbols of a file.
fn read_parts<'a>(alloc: Global, elf: &ElfFile<'a>) -> Result<Parts<'a>, ElfError>
    ensures { IfOk result (ArePartsOf elf.now) }
{
    let (symbols, strings) = read_symbols(alloc, elf)?;
    Ok(Parts {
        code: CodeSections::new(code_of(alloc, elf.bytes(), elf.sections())?)?,
        functions: function_ranges(alloc, &symbols)?,
        symbols: SymbolTable::new(symbols)?,
        strings,
    })
}

/// Reads the section that has the rows, if there is one.
fn read_rows(alloc: Global, elf: &ElfFile<'_>) -> Result<Option<Rows>, Refusal>
    ensures { IfOk result (AreRowsBy elf.now (rows_section elf.now)) }
{
    match rows_section(elf) {
        Some((section, kind)) => Ok(Some(rows_in(alloc, elf, section, kind)?)),
        None => Ok(None),
    }
}

/// Reads the rows of a section.
fn rows_in(
    alloc: Global,
    elf: &ElfFile<'_>,
    section: SectionHeader,
    kind: UnwindSectionType,
) -> Result<Rows, Refusal>
    ensures { IfOk result (IsRowsSection elf.now section kind) }
{
    Ok(Rows {
        contents: read_decompressed(alloc, elf.bytes(), section)?,
        address: section.sh_addr,
        kind,
    })
}

/// What a check of a file gives.
#[derive(Drop)]
pub enum Checked {
    /// The lines to be printed, and whether there are no alarms and each entry was read.
    Text { text: String, is_good: bool },
    Refused(Refusal),
}

/// The parts of a file that are needed.
#[derive(Drop)]
pub struct Parts<'a> {
    pub code: CodeSections<'a>,
    /// Where functions are, by their symbols.
    pub functions: Vec<Range>,
    pub symbols: SymbolTable,
    /// The names of symbols.
    pub strings: &'a [u8],
}

/// Returns the symbols of a file's functions, and their names.
fn read_symbols<'a>(alloc: Global, elf: &ElfFile<'a>) -> Result<(Vec<Symbol>, &'a [u8]), ElfError>
    ensures symbols { IfOk result (λ read. symbols_by elf.entry.now (symbol_section elf.entry.now) ≡ Ok read.0.items) }
    ensures strings { IfOk result (λ read. strings_by elf.entry.now (symbol_section elf.entry.now) ≡ Ok read.1.now) }
{
    match symbol_section(elf) {
        Some(table) => {
            let symbols = read_function_symbols(alloc, elf, table)?;
            let strings = read_symbol_names(elf, table)?;
            Ok((symbols, strings))
        }
        None => Ok((Vec::new(alloc), &[])),
    }
}

/// Checks all FDEs of a section.
fn check_section<C: Code>(
    alloc: Global,
    section: &UnwindSection<'_>,
    parts: &Parts<'_>,
    options: Options,
    allowed: &Allowed<'_>,
    findings: &mut Findings,
) -> Result<(), AllocError>
    ensures { OnOk result (IsSectionChecked (machine_of C.instruction C.numbered C.return_column C.entry C.named)
        section.now parts.now options allowed.now (found_view findings.old) (found_view findings.new)) }
{
    let fdes = read_fdes(alloc, section)?;
    findings.others.unreadable = fdes.unreadable;
    let mut checker = Checker::new(alloc)?;
    findings.check_fdes::<C>(&mut checker, section, parts, &fdes.list, options, allowed)
}

/// Returns the name of the function at an address (SVMA), and where the function begins.
pub fn name_of<'a>(parts: &Parts<'a>, address: u64) -> Option<(&'a str, u64)>
    ensures { option_map (λ name. (name.0.now, name.1)) result ≡ name_at parts.now address }
{
    named(parts.strings, parts.symbols.symbol_for(address)?)
}

/// Returns the name of a symbol, if it is UTF-8, and where the function begins.
fn named(strings: &[u8], symbol: Symbol) -> Option<(&str, u64)>
    ensures { option_map (λ name. (name.0.now, name.1)) result ≡ named strings.entry.now symbol }
{
    match str::from_utf8(name_in(strings, symbol)) {
        Ok(name) => Some((name, symbol.st_value)),
        Err(_) => None,
    }
}

/// Returns the name of a symbol in a table of strings.
fn name_in(strings: &[u8], symbol: Symbol) -> &[u8]
    ensures { result.now ≡ name_in strings.entry.now symbol }
{
    before_nul(front(back(strings, u64::from(symbol.st_name)), LONGEST_NAME))
}
