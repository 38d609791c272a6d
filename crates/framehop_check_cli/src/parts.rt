//! Which parts of an ELF file are looked at.
ghost use Rattle.std.specs.Prelude.{◌≡◌, IfOk, map, option_map};
ghost use Rattle.framehop_check_cli.specs.Parts.{rows_section, symbol_section, range_of_symbol, has_code, code_view, code_in_section, code_of};

use framehop_cfi::entry::UnwindSectionType;
use framehop_check::missing::Range;
use framehop_check::sections::CodeSection;
use framehop_object::elf::elf_file::ElfFile;
use framehop_object::elf::section::{SHF_EXECINSTR, read_contents};
use framehop_object::elf::section_header::SectionHeader;
use framehop_object::elf::symbol::Symbol;
use std::alloc::{AllocError, Global};

/// Returns the section that has the rows, `.eh_frame` or else `.debug_frame`, and its kind.
pub fn rows_section(elf: &ElfFile<'_>) -> Option<(SectionHeader, UnwindSectionType)>
    ensures { result ≡ rows_section elf.now }
{
    match elf.section(b".eh_frame") {
        Some(section) => Some((section, UnwindSectionType::EhFrame)),
        None => {
            let section = elf.section(b".debug_frame")?;
            Some((section, UnwindSectionType::DebugFrame))
        }
    }
}

/// Returns the section that has the symbols: `.symtab`, or else `.dynsym`.
pub fn symbol_section(elf: &ElfFile<'_>) -> Option<SectionHeader>
    ensures { result ≡ symbol_section elf.now }
{
    match elf.section(b".symtab") {
        Some(table) => Some(table),
        None => elf.section(b".dynsym"),
    }
}

/// Returns where functions are, by their symbols.
pub fn function_ranges(alloc: Global, symbols: &[Symbol]) -> Result<Vec<Range>, AllocError>
    ensures { IfOk result (λ ranges. ranges.items ≡ map range_of_symbol symbols.now) }
{
    symbols
        .iter()
        .map(|symbol| range_of_symbol(*symbol))
        .collect(alloc)
}

/// Returns the addresses of a function.
fn range_of_symbol(symbol: Symbol) -> Range
    ensures { result ≡ range_of_symbol symbol }
{
    Range {
        start: symbol.st_value,
        end: symbol.st_value.saturating_add(symbol.size),
    }
}

/// Returns the code that a file has, in the order of its sections.
pub fn code_of<'a>(
    alloc: Global,
    file: &'a [u8],
    sections: &[SectionHeader],
) -> Result<Vec<CodeSection<'a>>, AllocError>
    ensures { IfOk result (λ code. map code_view code.items ≡ code_of file.entry.now sections.now) }
{
    let mut code = Vec::new(alloc);
    for section in sections {
        if let Some(section) = code_in_section(file, *section) {
            code.push(section)?;
        }
    }
    Ok(code)
}

/// Returns the code of a section, if it is one of code and the file has it.
fn code_in_section(file: &[u8], section: SectionHeader) -> Option<CodeSection<'_>>
    ensures { option_map code_view result ≡ code_in_section file.entry.now section }
{
    if !has_code(section) {
        return None;
    }
    match read_contents(file, section) {
        Ok(contents) if !contents.is_empty() => Some(CodeSection {
            address: section.sh_addr,
            contents,
        }),
        _ => None,
    }
}

/// Returns whether a section is one of code.
fn has_code(section: SectionHeader) -> bool
    ensures { result ≡ has_code section }
{
    section.sh_flags & SHF_EXECINSTR != 0
}
