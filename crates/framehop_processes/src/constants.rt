//! The data of the files that processes map, as far as no process changes it: tables of jumps are there.
ghost use Rattle.std.specs.Prelude.{◌≡◌, IfOk};
ghost use Rattle.framehop_processes.specs.Mappings.{IsInOrder};
ghost use Rattle.framehop_processes.specs.ObjectFiles.{is_constant, part_of_section, constant_parts};
ghost use Rattle.framehop_processes.specs.Constants.{first_word, constant_in_mapping, last_by, mapping_before, constant_at};

use crate::Mapping;
use crate::code::{FilePart, MOST_PARTS};
use crate::files::Files;
use framehop_bytes::bytes::read_u64;
use framehop_object::elf::section::SHT_NOBITS;
use framehop_object::elf::section_header::SectionHeader;
use std::alloc::{AllocError, Global};

/// `SHF_WRITE`: a process may write the section.
const SHF_WRITE: u64 = 1;

/// `SHF_ALLOC`: the section is loaded.
const SHF_ALLOC: u64 = 2;

/// Returns the word of eight bytes at an address (AVMA), if a mapped ELF file has it in a section that is loaded and that no
/// process may write, by mappings in order. The file is that of the last mapping that starts at or below the address: of many
/// inputs only code is a mapping, and the data of a file lies after its code.
///
/// Source: System V gABI, chapter 4, "Sections".
#[tactic(auto, unfolding(crate::specs::Constants::constant_at))]
pub fn constant_at(files: &Files<'_>, mappings: &[Mapping], address: u64) -> Option<u64>
    requires { IsInOrder 0 mappings.now }
    ensures { result ≡ constant_at files.now mappings.now address }
{
    let mapping = last_mapping(mappings, address)?;
    constant_in_mapping(files, mapping, address)
}

/// Returns the last mapping that starts at or below an address (AVMA), of mappings in order.
fn last_mapping(mappings: &[Mapping], address: u64) -> Option<Mapping>
    requires { IsInOrder 0 mappings.now }
    ensures { result ≡ last_by address mappings.now }
{
    let place = mappings.partition_point(|mapping| mapping.start <= address);
    mapping_before(mappings, place)
}

/// Returns the mapping before a place, if there is one.
fn mapping_before(mappings: &[Mapping], place: usize) -> Option<Mapping>
    ensures { result ≡ mapping_before mappings.now place }
{
    if place == 0 {
        return None;
    }
    match mappings.get(place - 1) {
        Some(mapping) => Some(*mapping),
        None => None,
    }
}

/// Returns the word at an address (AVMA) by the file of a mapping.
fn constant_in_mapping(files: &Files<'_>, mapping: Mapping, address: u64) -> Option<u64>
    ensures { result ≡ constant_in_mapping files.now address mapping }
{
    if !mapping.has_sections {
        return None;
    }
    let object = files.object(mapping.file)?;
    object.constant(address.saturating_sub(mapping.base_avma))
}

/// Returns the word of eight bytes at the front of bytes, if there are so many.
pub(crate) fn first_word(bytes: &[u8]) -> Option<u64>
    ensures { result ≡ first_word bytes.now }
{
    match read_u64(bytes, 0) {
        Some((word, _)) => Some(word),
        None => None,
    }
}

/// Returns where the data of a file is that no process changes, by its first 64 sections that have some.
pub(crate) fn constant_parts(
    alloc: Global,
    sections: &[SectionHeader],
) -> Result<Vec<FilePart>, AllocError>
    ensures { IfOk result (λ parts. parts.items ≡ constant_parts sections.now) }
{
    sections
        .iter()
        .filter(|section| is_constant(section))
        .take(MOST_PARTS)
        .map(part_of)
        .collect(alloc)
}

/// Returns whether a section is loaded, no process may write it, and it has bytes in the file.
fn is_constant(section: &SectionHeader) -> bool
    ensures { result ≡ is_constant section.now }
{
    section.sh_flags & SHF_ALLOC != 0
        && section.sh_flags & SHF_WRITE == 0
        && section.sh_type != SHT_NOBITS
}

/// Returns where a section is in its file.
fn part_of(section: &SectionHeader) -> FilePart
    ensures { result ≡ part_of_section section.now }
{
    FilePart {
        start: section.sh_addr,
        offset: section.sh_offset,
        size: section.sh_size,
    }
}
