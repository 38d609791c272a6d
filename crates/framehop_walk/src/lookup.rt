//! Entries of a list, found by name.
// Looks for a section by its name.
ghost use Rattle.std.specs.Prelude.{◌≡◌};
ghost use Rattle.std.specs.List.{position, find};
ghost use Rattle.std.specs.Option.{option_copied};
ghost use Rattle.framehop_bytes.specs.SectionTable.{range_of, data_of, without_data};
ghost use Rattle.framehop_walk.specs.Sections.{entries_view, is_named};

use crate::sections::Section;
use std::ops::Range;

// the place of the first section of that name

/// Returns where the section of that name lies, as SVMAs.
pub fn range_under(name: &[u8], sections: &[Section]) -> Option<Range<u64>>
    ensures { result ≡ range_of name.now (entries_view sections.now) }
{
    match section_of(name, sections) {
        Some(section) => match &section.svma {
            Some(range) => Some(range.start..range.end),
            None => None,
        },
        None => None,
    }
}

// the first section of that name
fn section_of<'s>(name: &[u8], sections: &'s [Section]) -> Option<&'s Section>
    ensures { option_copied result ≡ find (is_named name.now) sections.entry.now }
{
    sections
        .iter()
        .find(|section| section.name.as_bytes() == name)
}

/// Takes out the bytes of the section of that name.
pub(crate) fn take_bytes(name: &[u8], sections: &mut Vec<Section>) -> Option<Vec<u8>>
    ensures answer { result ≡ data_of name.now (entries_view sections.old.items) }
    ensures taken { entries_view sections.new.items
        ≡ without_data name.now (entries_view sections.old.items) }
{
    match location_of(name, sections.as_slice()) {
        Some(index) => sections[index].bytes.take(),
        None => None,
    }
}

fn location_of(name: &[u8], sections: &[Section]) -> Option<usize>
    ensures { result ≡ position (is_named name.now) sections.now }
{
    sections
        .iter()
        .position(|section| section.name.as_bytes() == name)
}
