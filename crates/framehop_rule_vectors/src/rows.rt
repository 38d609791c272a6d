//! Refusals of entries and of rows, by the name that the call returns.
use crate::sections::{FOUR_REMEMBERED, NONE_REMEMBERED, ONE_FDE, THREE_REMEMBERED, at};
use framehop_cfi::context::UnwindContext;
use framehop_cfi::entry::{UnwindSection, UnwindSectionType};
use framehop_cfi::read_error::ReadError;
use framehop_cfi::storage::{StoreOnHeap, StoreOnStack, UnwindContextStorage};
use std::alloc::{AllocError, Global};
use std::test::Fail;

#[test]
fn refuses_offsets_of_no_fde_and_no_cie(rt: HostRuntime) {
    let section = UnwindSection::new(&ONE_FDE, UnwindSectionType::EhFrame, &at(0x2000));
    for offset in [0, 52] {
        assert_eq!(rt;
            section.fde_from_offset(offset).err(),
            Some(ReadError::NotFde)
        );
    }
    assert_eq!(rt; section.cie_from_offset(24).err(), Some(ReadError::NotCie));
}

/// The refusal of the row that the FDE at 24 of an `.eh_frame` has for an address.
fn refusal<S: UnwindContextStorage>(
    alloc: Global,
    section: &[u8],
    address: u64,
) -> Result<Option<ReadError>, ReadError> {
    let section = UnwindSection::new(section, UnwindSectionType::EhFrame, &at(0x2000));
    let fde = section.fde_from_offset(24)?;
    let Ok(mut context) = UnwindContext::<S>::new_in(alloc) else {
        return Err(ReadError::OutOfMemory);
    };
    Ok(context.row_for_address(&section, &fde, address).err())
}

/// A section, an address, and the refusal with room on the stack and on the heap.
type Refusal = (&'static [u8], u64, Option<ReadError>, Option<ReadError>);

const REFUSALS: [Refusal; 5] = [
    (&ONE_FDE, 0x101f, None, None),
    (
        &ONE_FDE,
        0x1020,
        Some(ReadError::NoRow),
        Some(ReadError::NoRow),
    ),
    (&THREE_REMEMBERED, 0x1000, None, None),
    (&FOUR_REMEMBERED, 0x1000, Some(ReadError::TooManyRows), None),
    (
        &NONE_REMEMBERED,
        0x1000,
        Some(ReadError::NothingRemembered),
        Some(ReadError::NothingRemembered),
    ),
];

#[test]
fn refuses_rows(rt: HostRuntime) -> Result<(), Fail> {
    for (section, address, on_stack, on_heap) in REFUSALS {
        assert_eq!(rt;
            refusal::<StoreOnStack>(rt.alloc(), section, address)?,
            on_stack
        );
        assert_eq!(rt;
            refusal::<StoreOnHeap>(rt.alloc(), section, address)?,
            on_heap
        );
    }
    Ok(())
}

/// The CIE of `ONE_FDE` and an FDE for the same addresses that gives rules to so many registers beside the return
/// address, none of which has one yet.
fn with_rules(alloc: Global, count: u8) -> Result<Vec<u8>, AllocError> {
    let mut data = Vec::from_slice(alloc, &ONE_FDE[..24])?;
    let length = 13 + 3 * u32::from(count);
    data.extend_from_slice(&length.to_le_bytes())?;
    data.extend_from_slice(&[0x1c, 0, 0, 0, 0xe0, 0xef, 0xff, 0xff, 0x20, 0, 0, 0, 0])?;
    for register in 0..count {
        data.extend_from_slice(&[0x07, 128 + register % 128, 1 + register / 128])?;
    }
    Ok(data)
}

#[test]
fn refuses_rules_without_room(rt: HostRuntime) -> Result<(), Fail> {
    let too_many = Some(ReadError::TooManyRules);
    for (count, on_stack) in [(191, None), (192, too_many)] {
        let data = with_rules(rt.alloc(), count)?;
        let section = data.as_slice();
        assert_eq!(rt;
            refusal::<StoreOnStack>(rt.alloc(), section, 0x1000)?,
            on_stack
        );
        assert_eq!(rt; refusal::<StoreOnHeap>(rt.alloc(), section, 0x1000)?, None);
    }
    Ok(())
}
