//! The `.debug_frame` of the files that processes map.
ghost use Rattle.std.specs.Prelude.{◌≡◌, option_map};
ghost use Rattle.framehop_processes.specs.Mappings.{IsInOrder};
ghost use Rattle.framehop_processes.specs.DebugFrame.{debug_frame_in_mapping, debug_frame_at};

use crate::Mapping;
use crate::files::Files;
use crate::mapped_bytes::MappedBytes;
use crate::place::mapping_asked_for;
use framehop::Module;

/// Returns a module of the `.debug_frame` that the file mapped at an address (AVMA) has beside its `.eh_frame`, and the
/// relative address in it, by mappings in order.
pub fn debug_frame_at<'a, 'm>(
    files: &'a Files<'m>,
    mappings: &[Mapping],
    address: u64,
) -> Option<(&'a Module<MappedBytes<'m>>, u32)>
    requires { IsInOrder 0 mappings.now }
    ensures { option_map (λ found. (found.0.now, found.1)) result ≡ debug_frame_at files.entry.now mappings.now address }
{
    let mapping = mapping_asked_for(files, mappings, address)?;
    debug_frame_in_mapping(files, mapping, address)
}

/// Returns the same of a mapping: one without sections is of no file that was read.
fn debug_frame_in_mapping<'a, 'm>(
    files: &'a Files<'m>,
    mapping: Mapping,
    address: u64,
) -> Option<(&'a Module<MappedBytes<'m>>, u32)>
    ensures { option_map (λ found. (found.0.now, found.1)) result ≡ debug_frame_in_mapping files.entry.now address mapping }
{
    if !mapping.has_sections {
        return None;
    }
    let object = files.object(mapping.file)?;
    let relative_address = u32::try_from(address.saturating_sub(mapping.base_avma)).ok()?;
    Some((object.debug_frame(), relative_address))
}
