//! The entries of a call frame section, one after another.
ghost use Rattle.std.specs.Prelude.{◌≡◌, ◌<◌, [], ◌∷◌, List, IfSome, IfOk, map};
ghost use Rattle.std.specs.Io.Iter.{u64_saturate};
ghost use Rattle.framehop_check.specs.declared.entries.Entry.{Entry};
ghost use Rattle.framehop_check.specs.Entries.{entry_if_read, entry_at, AreEntries, range_of, fdes_of, unreadable_in, entry_of};

use crate::missing::Range;
use framehop_cfi::entry::{EntryHead, FrameDescriptionEntry, UnwindSection, UnwindSectionType};
use framehop_cfi::extent::read_extent;
use framehop_cfi::known_cies::KnownCies;
use framehop_cfi::read_error::ReadError;
use std::alloc::{AllocError, Global};

/// An entry of a call frame section.
#[derive(Clone, Copy)]
pub enum Entry {
    Fde(FrameDescriptionEntry),
    /// A CIE.
    Other,
    /// It, its CIE or its length can't be read.
    Unreadable,
}

/// Where an entry is.
#[derive(Clone, Copy, PartialEq, Eq)]
pub enum Place {
    /// At an offset of the section.
    At(usize),
    /// Its length can't be read.
    CutOff,
}

/// The FDEs of a section.
#[derive(Drop)]
pub struct Fdes {
    /// In the section's order.
    pub list: Vec<FrameDescriptionEntry>,
    /// How many entries can't be read.
    pub unreadable: u64,
}

/// Reads the FDEs of a section. A CIE is read once, however many FDEs name it.
///
/// # Errors
///
/// An allocation failed.
pub fn read_fdes(alloc: Global, section: &UnwindSection) -> Result<Fdes, AllocError>
    ensures { IfOk result (λ fdes. (entries : List Entry) × AreEntries section.now 0 entries
        × (fdes.list.items ≡ fdes_of entries) × (fdes.unreadable ≡ u64_saturate (unreadable_in entries))) }
{
    let mut fdes = Fdes {
        list: Vec::new(alloc),
        unreadable: 0,
    };
    let mut cies = KnownCies::new(alloc, section);
    let mut at = 0;
    while at < section.bytes.len() {
        let Some(place) = next_place(section, &mut at) else {
            return Ok(fdes);
        };
        match read_entry(section, &mut cies, place)? {
            Entry::Fde(fde) => fdes.list.push(fde)?,
            Entry::Unreadable => fdes.unreadable = fdes.unreadable.saturating_add(1),
            Entry::Other => {}
        }
    }
    Ok(fdes)
}

/// Returns the addresses that FDEs cover.
///
/// # Errors
///
/// An allocation failed.
pub fn ranges_of(alloc: Global, fdes: &[FrameDescriptionEntry]) -> Result<Vec<Range>, AllocError>
    ensures { IfOk result (λ ranges. ranges.items ≡ map range_of fdes.now) }
{
    fdes.iter().map(|fde| range_of(fde)).collect(alloc)
}

/// Returns the addresses that an FDE covers.
fn range_of(fde: &FrameDescriptionEntry) -> Range
    ensures { result ≡ range_of fde.now }
{
    Range {
        start: fde.initial_address,
        end: fde.initial_address.saturating_add(fde.address_range),
    }
}

/// Returns where the entry of a section is that an offset leads to, which then is that of the next one, or `None` where there
/// is none.
fn next_place(section: &UnwindSection, at: &mut usize) -> Option<Place>
    ensures some { IfSome result (λ place. (entries : List Entry)
        → AreEntries section.now at.new entries → AreEntries section.now at.old (entry_of section.now place ∷ entries)) }
    ensures further { IfSome result (λ place. at.old < at.new) }
    ensures none { result ≡ None → AreEntries section.now at.old [] }
{
    let size = section.bytes.len();
    while *at < size {
        let begin = *at;
        let Ok(extent) = read_extent(section.bytes, begin) else {
            *at = size;
            return Some(Place::CutOff);
        };
        *at = extent.end;
        if !extent.is_zero_length() {
            return Some(Place::At(begin));
        }
        match section.section_type {
            UnwindSectionType::EhFrame => return None,
            UnwindSectionType::DebugFrame => {}
        }
    }
    None
}

/// Returns the entry at a place.
fn read_entry(
    section: &UnwindSection,
    cies: &mut KnownCies<'_>,
    place: Place,
) -> Result<Entry, AllocError>
    requires { cies.old ≡ section.now }
    ensures exact { IfOk result (λ entry. entry ≡ entry_of section.now place) }
    ensures kept { cies.new ≡ cies.old }
{
    match place {
        Place::At(offset) => read_entry_at(section, cies, offset),
        Place::CutOff => Ok(Entry::Unreadable),
    }
}

/// Returns the entry at an offset.
#[tactic(auto, unfolding(crate::specs::Entries::entry_at, framehop_cfi::specs::Entry::fde_at))]
fn read_entry_at(
    section: &UnwindSection,
    cies: &mut KnownCies<'_>,
    at: usize,
) -> Result<Entry, AllocError>
    requires { cies.old ≡ section.now }
    ensures exact { IfOk result (λ entry. entry ≡ entry_at section.now at) }
    ensures kept { cies.new ≡ cies.old }
{
    match section.head_at(at) {
        Ok(
            EntryHead::Fde {
                cie_offset,
                fields,
                end,
            },
        ) => Ok(entry_if_read(cies.read_fde(cie_offset, fields, end)?)),
        Ok(_) => Ok(Entry::Other),
        Err(_) => Ok(Entry::Unreadable),
    }
}

/// Returns the entry that is an FDE, if that was read.
fn entry_if_read(read: Result<FrameDescriptionEntry, ReadError>) -> Entry
    ensures { result ≡ entry_if_read read }
{
    match read {
        Ok(fde) => Entry::Fde(fde),
        Err(_) => Entry::Unreadable,
    }
}
