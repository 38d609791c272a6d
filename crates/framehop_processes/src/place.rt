//! Where an address is: in which function of which file.
ghost use Rattle.std.specs.Prelude.{◌≡◌, ◌-◌, true, Some, slice_get, option_map};
ghost use Rattle.std.specs.List.{find};
ghost use Rattle.framehop_processes.specs.Mappings.{IsInOrder};
ghost use Rattle.framehop_processes.specs.Place.{place_view, starting_by, has_address, unnamed_start, place_started, place_at, name_in_map, place_in_object, place_in_file};

use crate::Mapping;
use crate::code_map::CodeMap;
use crate::files::{Files, NamedFile};
use crate::object_file::ObjectFile;

/// Where an address is.
#[derive(Clone, Copy, Drop)]
pub enum Place<'a> {
    /// In a function of a file, or of code that is in no file, by its map.
    Function {
        /// The name of the file, as the input has it.
        file: &'a [u8],
        /// The name of the function.
        name: &'a [u8],
        /// From the start of the function, in bytes.
        offset: u64,
    },
    /// In a function of a file that has no name for it, by the file's unwind data.
    Unnamed {
        /// The name of the file, as the input has it.
        file: &'a [u8],
        /// Where the function begins (SVMA).
        start: u64,
        /// The address in the file (SVMA).
        address: u64,
    },
    /// In a file, at no function that is known.
    File {
        /// The name of the file, as the input has it.
        file: &'a [u8],
        /// The address in the file (SVMA), or the offset in it where no ELF file could be read.
        address: u64,
    },
    /// In no mapping.
    Unmapped,
}

/// Returns where an address (AVMA) is, by mappings in order.
#[tactic(auto, unfolding(crate::specs::Place::place_at))]
pub fn place_of<'a>(files: &'a Files<'_>, mappings: &[Mapping], address: u64) -> Place<'a>
    requires { IsInOrder 0 mappings.now }
    ensures { place_view result ≡ place_at files.entry.now mappings.now address }
{
    let Some(mapping) = mapping_asked_for(files, mappings, address) else {
        return Place::Unmapped;
    };
    match files.get(mapping.file) {
        Some(file) => place_in_file(file, mapping, address),
        None => Place::Unmapped,
    }
}

/// Returns the mapping that has an address (AVMA), of mappings in order, and notes that something of its file was asked for.
pub(crate) fn mapping_asked_for(
    files: &Files<'_>,
    mappings: &[Mapping],
    address: u64,
) -> Option<Mapping>
    requires { IsInOrder 0 mappings.now }
    ensures { result ≡ find (has_address address) mappings.now }
{
    let mapping = mapping_at(mappings, address)?;
    if let Some(file) = files.get(mapping.file) {
        file.note();
    }
    Some(mapping)
}

/// Returns the mapping that has an address (AVMA), of mappings in order.
pub fn mapping_at(mappings: &[Mapping], address: u64) -> Option<Mapping>
    requires { IsInOrder 0 mappings.now }
    ensures { result ≡ find (has_address address) mappings.now }
{
    let place = mappings.partition_point(|mapping| mapping.end <= address);
    mapping_from(mappings, place, address)
}

/// Returns the mapping at a place if it starts at or below an address (AVMA).
fn mapping_from(mappings: &[Mapping], place: usize, address: u64) -> Option<Mapping>
    ensures { result ≡ starting_by address (slice_get mappings.now place) }
{
    match mappings.get(place) {
        Some(mapping) if mapping.start <= address => Some(*mapping),
        _ => None,
    }
}

/// Returns where an address (AVMA) of a mapping of a file is.
fn place_in_file<'a>(file: &'a NamedFile<'_>, mapping: Mapping, address: u64) -> Place<'a>
    ensures { place_view result ≡ place_in_file (Some file.entry.now) mapping address }
{
    match name_in_map(&file.code_map, address) {
        Some((name, offset)) => Place::Function {
            file: file.name.as_slice(),
            name,
            offset,
        },
        None => place_in_sections(file, mapping, address),
    }
}

/// Returns the name of the function that has an address (AVMA) by a map of code, if there is one, and how far the address is
/// from its start.
fn name_in_map(code_map: &Option<CodeMap>, address: u64) -> Option<(&[u8], u64)>
    ensures { option_map (λ found. (found.0.now, found.1)) result ≡ name_in_map code_map.entry.now address }
{
    match code_map {
        Some(code_map) => code_map.functions.function_at(address),
        None => None,
    }
}

/// Returns where an address (AVMA) of a mapping of a file is, by the sections of the file.
fn place_in_sections<'a>(file: &'a NamedFile<'_>, mapping: Mapping, address: u64) -> Place<'a>
    ensures { place_view result ≡ place_in_object mapping.has_sections file.entry.now.name.items file.entry.now.object (address - mapping.base_avma) }
{
    let name = file.name.as_slice();
    let svma = address.saturating_sub(mapping.base_avma);
    if mapping.has_sections {
        if let Some(object) = &file.object {
            return place_in_object(name, object, svma);
        }
    }
    Place::File {
        file: name,
        address: svma,
    }
}

/// Returns where an address (SVMA) of an ELF file is.
fn place_in_object<'a>(file: &'a [u8], object: &'a ObjectFile<'_>, svma: u64) -> Place<'a>
    ensures { place_view result ≡ place_in_object true file.entry.now (Some object.entry.now) svma }
{
    match object.function_at(svma) {
        Some((name, offset)) => Place::Function { file, name, offset },
        None => place_without_name(file, object, svma),
    }
}

/// Returns where an address (SVMA) of an ELF file is that is in no function with a name.
fn place_without_name<'a>(file: &'a [u8], object: &ObjectFile<'_>, svma: u64) -> Place<'a>
    ensures { place_view result ≡ place_started file.entry.now svma (unnamed_start object.now svma) }
{
    match object.unnamed_start(svma) {
        Some(start) => Place::Unnamed {
            file,
            start,
            address: svma,
        },
        None => Place::File {
            file,
            address: svma,
        },
    }
}
