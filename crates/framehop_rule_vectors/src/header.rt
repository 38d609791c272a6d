//! The FDE that the table of `.eh_frame_hdr` names for an address, which may not cover it.
use crate::sections::{ONE_FDE, at};
use framehop_cfi::context::UnwindContext;
use framehop_cfi::entry::UnwindSectionType;
use framehop_cfi::storage::StoreOnStack;
use framehop_core::x86_64::ArchX86_64;
use framehop_dwarf::unwinder::DwarfUnwinder;
use std::alloc::{AllocError, Global};

/// A table of the FDE at 0x2018, which is at offset 24 of an `.eh_frame` at 0x2000. It starts at 0x1000.
const ONE_ROW: [u8; 20] = [
    0x01, 0x1b, 0x03, 0x3b, 0xfc, 0xef, 0xff, 0xff, 0x01, 0x00, 0x00, 0x00, 0x00, 0xe0, 0xff, 0xff,
    0x18, 0xf0, 0xff, 0xff,
];

/// A table of the starts 0x1000, 0x3000 and 0x2000 with the offsets 24, 48 and 72. It is not in order.
const UNSORTED: [u8; 36] = [
    0x01, 0x1b, 0x03, 0x3b, 0xfc, 0xef, 0xff, 0xff, 0x03, 0x00, 0x00, 0x00, 0x00, 0xe0, 0xff, 0xff,
    0x18, 0xf0, 0xff, 0xff, 0x00, 0x00, 0x00, 0x00, 0x30, 0xf0, 0xff, 0xff, 0x00, 0xf0, 0xff, 0xff,
    0x48, 0xf0, 0xff, 0xff,
];

/// A header, if there is one, an address, and the offset of the FDE.
const OFFSETS: [(Option<&'static [u8]>, u32, Option<u32>); 5] = [
    // the first row has each address below the second
    (Some(&ONE_ROW), 0xfff, Some(24)),
    (Some(&ONE_ROW), 0x1000, Some(24)),
    // the middle row is above the address, and the first one is left
    (Some(&UNSORTED), 0x2500, Some(24)),
    // it is at the address, and the last row is below
    (Some(&UNSORTED), 0x3000, Some(72)),
    (None, 0x1000, None),
];

/// The offset of the FDE that a header has for an address.
fn offset_for(
    alloc: Global,
    header: Option<&[u8]>,
    address: u32,
) -> Result<Option<u32>, AllocError> {
    let mut context = UnwindContext::<StoreOnStack>::new_in(alloc)?;
    let unwinder: DwarfUnwinder<'_, ArchX86_64, StoreOnStack> = DwarfUnwinder::new(
        &ONE_FDE,
        UnwindSectionType::EhFrame,
        header,
        &mut context,
        at(0x2000),
        0,
    );
    Ok(unwinder.get_fde_offset_for_relative_address(address))
}

#[test]
fn finds_by_a_header(rt: HostRuntime) {
    for (header, address, offset) in OFFSETS {
        assert_eq!(rt;
            offset_for(rt.alloc(), header, address),
            Ok(offset),
            "{address:x}"
        );
    }
}
