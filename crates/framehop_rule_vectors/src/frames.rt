//! A frame of each architecture by an FDE that is named, as a user of these two crates unwinds it.
use crate::sections::{ONE_FDE, at};
use framehop_cfi::context::UnwindContext;
use framehop_cfi::entry::UnwindSectionType;
use framehop_cfi::storage::{StoreOnHeap, StoreOnStack};
use framehop_core::aarch64::{ArchAarch64, UnwindRegsAarch64};
use framehop_core::unwind_result::UnwindResult;
use framehop_core::x86_64::{ArchX86_64, UnwindRegsX86_64, UnwindRuleX86_64};
use framehop_dwarf::unwinder::DwarfUnwinder;
use std::test::Fail;

#[test]
fn unwinds_a_frame_of_x86_64(rt: HostRuntime) -> Result<(), Fail> {
    let kind = UnwindSectionType::EhFrame;
    let mut context = UnwindContext::<StoreOnStack>::new_in(rt.alloc())?;
    let mut unwinder: DwarfUnwinder<'_, ArchX86_64, StoreOnStack> = DwarfUnwinder::new(
        &ONE_FDE,
        kind,
        None,
        &mut context,
        at(0x2000),
        0,
    );
    let mut regs = UnwindRegsX86_64::new(0x1004, 0x100, 0x200);
    let mut read_stack = |_at: u64| Err(());
    let answer = unwinder.unwind_frame_with_fde::<StoreOnStack, _>(
        rt.alloc(),
        &mut regs,
        true,
        0x1004,
        24,
        &mut read_stack,
    );
    let use_frame_pointer = UnwindRuleX86_64::UseFramePointer;
    assert!(rt; matches!(answer?, UnwindResult::ExecRule(rule) if rule == use_frame_pointer));
    Ok(())
}

/// A CIE, and one FDE for 0x1000 to 0x1020: the CFA is sp + 8, and x30 is at the CFA - 8.
const ONLY_LR: [u8; 48] = [
    0x10, 0x00, 0x00, 0x00, 0x00, 0x00, 0x00, 0x00, 0x01, 0x7a, 0x52, 0x00, 0x01, 0x78, 0x1e, 0x01,
    0x1b, 0x0c, 0x1f, 0x00, 0x14, 0x00, 0x00, 0x00, 0x18, 0x00, 0x00, 0x00, 0xe4, 0xef, 0xff, 0xff,
    0x20, 0x00, 0x00, 0x00, 0x00, 0x0e, 0x08, 0x9e, 0x01, 0x00, 0x00, 0x00, 0x00, 0x00, 0x00, 0x00,
];

#[test]
fn unwinds_a_frame_of_aarch64(rt: HostRuntime) -> Result<(), Fail> {
    let kind = UnwindSectionType::EhFrame;
    let mut context = UnwindContext::<StoreOnHeap>::new_in(rt.alloc())?;
    let mut unwinder: DwarfUnwinder<'_, ArchAarch64, StoreOnHeap> = DwarfUnwinder::new(
        &ONLY_LR,
        kind,
        None,
        &mut context,
        at(0x2000),
        0,
    );
    let mut regs = UnwindRegsAarch64::new(0x3000, 0x100, 0x200);
    let mut read_stack = |at: u64| if at == 0x100 { Ok(0x1000) } else { Err(()) };
    let answer = unwinder.unwind_frame_with_fde::<StoreOnHeap, _>(
        rt.alloc(),
        &mut regs,
        true,
        0x1000,
        20,
        &mut read_stack,
    );
    assert!(rt; matches!(answer?, UnwindResult::Uncacheable(0x1000)));
    assert_eq!(rt; (regs.lr(), regs.sp(), regs.fp()), (0x1000, 0x108, 0x200));
    Ok(())
}
