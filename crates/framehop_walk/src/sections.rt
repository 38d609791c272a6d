//! The sections and segments of a module, read from JSON.
ghost use Rattle.std.specs.Prelude.{◌≡◌, ◌≢◌, IfOk, IfErr, Ok, Err, ℕ, List, [], ◌∷◌, ◌++◌, map, codes, option_map};
ghost use Rattle.framehop_bytes.specs.SectionTable.{Entry};
ghost use Rattle.serde_json.specs.View.{view, items_view};
ghost use Rattle.framehop_walk.specs.Refusals.{told, reading_of};
ghost use Rattle.framehop_walk.specs.Fields.{optional_field_as, each};
ghost use Rattle.framehop_walk.specs.Sections.{entry_view, entries_view, bytes_of_entry, bytes_of_table, table_view, HasNames, read_contents as contents_read, read_section as section_read, read_table, range, two_addresses as two, bytes};
ghost use Rattle.hex.specs.Hex.{decode_of};
ghost use Rattle.hex.specs.declared.error.FromHexError.TheVariants.{OutOfMemory};

use crate::fields::{hexadecimal, hexadecimal_value, list, text};
use crate::lookup::{range_under, take_bytes};
use crate::refusal::Refusal;
use framehop_bytes::section::ModuleSectionInfo;
use hex::FromHexError;
use serde_json::Value;
use std::alloc::Global;
use std::collections::BTreeSet;
use std::ops::Range;

/// A section or a segment of the input.
#[derive(Drop)]
pub struct Section {
    pub name: String,
    pub svma: Option<Range<u64>>,
    pub bytes: Option<Vec<u8>>,
}

/// The sections and segments of a module of the input.
#[derive(Drop)]
pub struct Sections {
    pub base_svma: u64,
    pub sections: Vec<Section>,
    pub segments: Vec<Section>,
}

impl ModuleSectionInfo<Vec<u8>> for Sections {
    ghost table = { table_view };

    fn base_svma(&self) -> u64 {
        self.base_svma
    }

    fn section_svma_range(&mut self, name: &[u8]) -> Option<Range<u64>> {
        range_under(name, self.sections.as_slice())
    }

    fn section_data(&mut self, name: &[u8]) -> Option<Vec<u8>> {
        take_bytes(name, &mut self.sections)
    }

    fn segment_svma_range(&mut self, name: &[u8]) -> Option<Range<u64>> {
        range_under(name, self.segments.as_slice())
    }

    fn segment_data(&mut self, name: &[u8]) -> Option<Vec<u8>> {
        take_bytes(name, &mut self.segments)
    }
}

/// Reads the fields `base_svma`, `sections` and `segments` of a command.
#[tactic(auto, unfolding(crate::specs::Sections::read_table))]
pub fn read_sections(alloc: Global, command: &Value) -> Result<Sections, Refusal>
    ensures { result ≢ Err Refusal.OutOfMemory
        → reading_of (λ sections. bytes_of_table (table_view sections)) result ≡ read_table (view command.now) }
{
    let base_svma = hexadecimal(command, "base_svma")?;
    let sections = read_list(alloc, list(command, "sections")?)?;
    let segments = read_list(alloc, list(command, "segments")?)?;
    Ok(Sections {
        base_svma,
        sections,
        segments,
    })
}

fn read_list(alloc: Global, items: &Vec<Value>) -> Result<Vec<Section>, Refusal>
    ensures { result ≢ Err Refusal.OutOfMemory
        → reading_of (λ sections. map bytes_of_entry (entries_view sections.items)) result
        ≡ each section_read [] (items_view items.now.items) }
{
    let mut names: BTreeSet<&str> = BTreeSet::new(alloc);
    let mut sections = Vec::with_capacity(alloc, items.len())?;
    for item in items {
        sections.push(read_section(alloc, &mut names, item)?)?;
    }
    Ok(sections)
}

/// Reads a section whose name is not among `names`, and adds it to them.
fn read_section<'v>(
    alloc: Global,
    names: &mut BTreeSet<&'v str>,
    section: &'v Value,
) -> Result<Section, Refusal>
    ensures { (entries : List (Entry (List ℕ))) → HasNames names.old entries → result ≢ Err Refusal.OutOfMemory
        → (reading_of (λ section. bytes_of_entry (entry_view section)) result
        ≡ section_read entries (view section.entry.now))
        × IfOk result (λ section. HasNames names.new (entries ++ bytes_of_entry (entry_view section) ∷ [])) }
{
    let name = text(section, "name")?;
    if !names.insert(name)? {
        return Err(Refusal::BadField("name"));
    }
    read_contents(alloc, name, section)
}

/// Reads where the section of this name lies, and its bytes.
#[tactic(auto, unfolding(crate::specs::Sections::read_contents))]
fn read_contents(alloc: Global, name: &str, section: &Value) -> Result<Section, Refusal>
    ensures { result ≢ Err Refusal.OutOfMemory
        → reading_of (λ section. bytes_of_entry (entry_view section)) result
        ≡ contents_read name.now (view section.now) }
{
    let svma = read_range(section)?;
    let bytes = read_bytes(alloc, section)?;
    Ok(Section {
        name: String::from_str(alloc, name)?,
        svma,
        bytes,
    })
}

/// Reads the field `svma` of a section, a list of its start and its end.
#[tactic(auto, unfolding(crate::specs::Fields::optional_field_as))]
fn read_range(section: &Value) -> Result<Option<Range<u64>>, Refusal>
    ensures { told result ≡ optional_field_as range (codes "svma") (view section.now) }
{
    let Some(value) = section.get("svma") else {
        return Ok(None);
    };
    match range_value(value) {
        Some(range) => Ok(Some(range)),
        None => Err(Refusal::BadField("svma")),
    }
}

#[tactic(auto, unfolding(crate::specs::Sections::range))]
fn range_value(value: &Value) -> Option<Range<u64>>
    ensures { result ≡ range (view value.now) }
{
    two_addresses(value.as_array()?)
}

/// Returns a list of a start and an end.
fn two_addresses(items: &Vec<Value>) -> Option<Range<u64>>
    ensures { result ≡ two (items_view items.now.items) }
{
    if items.len() != 2 {
        return None;
    }
    Some(hexadecimal_value(&items[0])?..hexadecimal_value(&items[1])?)
}

/// Reads the field `data` of a section.
#[tactic(auto, unfolding(crate::specs::Fields::optional_field_as, crate::specs::Sections::bytes))]
fn read_bytes(alloc: Global, section: &Value) -> Result<Option<Vec<u8>>, Refusal>
    ensures { result ≢ Err Refusal.OutOfMemory
        → reading_of (λ bytes. option_map (λ vec. vec.items) bytes) result
        ≡ optional_field_as bytes (codes "data") (view section.now) }
{
    let Some(value) = section.get("data") else {
        return Ok(None);
    };
    let Some(text) = value.as_str() else {
        return Err(Refusal::BadField("data"));
    };
    match section_bytes(alloc, text) {
        Ok(bytes) => Ok(Some(bytes)),
        Err(FromHexError::OutOfMemory) => Err(Refusal::OutOfMemory),
        Err(_) => Err(Refusal::BadField("data")),
    }
}

/// Returns the bytes of a section, which the input gives as pairs of hexadecimal digits of either case.
pub fn section_bytes(alloc: Global, text: &str) -> Result<Vec<u8>, FromHexError>
    ensures ok { IfOk result (λ bytes. decode_of text.now ≡ Ok bytes.items) }
    ensures err { IfErr result (λ e. e ≢ OutOfMemory → decode_of text.now ≡ Err e) }
{
    hex::decode(alloc, text)
}
