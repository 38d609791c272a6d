//! The base addresses of a module, from the ranges of its sections.
ghost use Rattle.std.specs.Prelude.{◌≡◌};
ghost use Rattle.framehop_dwarf.specs.Bases.{start_of, base_addresses, range_under, base_addresses_of};

use framehop_bytes::section::ModuleSectionInfo;
use framehop_cfi::pointer::BaseAddresses;
use std::ops::Range;

/// Returns the starts of the sections that pointers count from, as SVMAs; 0 for one that is not there.
///
/// Each name is asked at most once.
pub fn base_addresses_for_sections<D, I: ModuleSectionInfo<D>>(
    section_info: &mut I,
) -> BaseAddresses
    ensures bases { result ≡ base_addresses_of (I.table section_info.old).sections }
    ensures kept { I.table section_info.new ≡ I.table section_info.old }
{
    let eh_frame = range_under(section_info, b"__eh_frame", b".eh_frame");
    let eh_frame_hdr = range_under(section_info, b"__eh_frame_hdr", b".eh_frame_hdr");
    let text = range_under(section_info, b"__text", b".text");
    let got = range_under(section_info, b"__got", b".got");
    base_addresses_for_ranges(&eh_frame, &eh_frame_hdr, &text, &got)
}

/// Returns the starts of these ranges, as SVMAs; 0 for one that is not there.
pub fn base_addresses_for_ranges(
    eh_frame: &Option<Range<u64>>,
    eh_frame_hdr: &Option<Range<u64>>,
    text: &Option<Range<u64>>,
    got: &Option<Range<u64>>,
) -> BaseAddresses
    ensures { result ≡ base_addresses eh_frame.now eh_frame_hdr.now text.now got.now }
{
    BaseAddresses {
        eh_frame: start_of(eh_frame),
        eh_frame_hdr: start_of(eh_frame_hdr),
        text: start_of(text),
        got: start_of(got),
    }
}

/// Returns a range's start, or 0 where there is no range.
fn start_of(range: &Option<Range<u64>>) -> u64
    ensures { result ≡ start_of range.now }
{
    match range {
        Some(range) => range.start,
        None => 0,
    }
}

/// Returns the range of the section of the first name, or else of the second, as SVMAs.
pub fn range_under<D, I: ModuleSectionInfo<D>>(
    section_info: &mut I,
    first: &[u8],
    second: &[u8],
) -> Option<Range<u64>>
    ensures range { result ≡ range_under (I.table section_info.old).sections first.now second.now }
    ensures kept { I.table section_info.new ≡ I.table section_info.old }
{
    match section_info.section_svma_range(first) {
        Some(range) => Some(range),
        None => section_info.section_svma_range(second),
    }
}
