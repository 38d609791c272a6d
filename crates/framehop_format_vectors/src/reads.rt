//! Steps on x86_64 in which reads of the stack fail, and what is stored after them.
use crate::cases::{
    BY_HEADER, CALL_FRAMES, COMPUTED_VALUES, CUT_OFF, Case, CutOff, Given, OTHER_UNWIND_DATA,
    WITHOUT_END_OR_ORDER,
};
use crate::sections::{LONG_LENGTH, RESERVED_LENGTH, Sections};
use crate::steps::{Caches, Failing, Unwinders, frame_at};
use crate::totals::holds;
use framehop::Error;
use framehop::x86_64::{Reg, UnwindRegsX86_64};
use framehop_cfi::entry::UnwindSectionType;
use framehop_cfi::pointer::BaseAddresses;
use framehop_cfi::read_error::ReadError;
use framehop_dwarf::index::{DwarfCfiIndex, DwarfCfiIndexError};
use std::alloc::Global;
use std::test::Fail;

/// Whether a step gives this where these reads fail.
fn gives(
    unwinders: &Unwinders,
    caches: &mut Caches,
    case: &Case,
    failing: Failing,
    want: &Given,
) -> bool {
    let frame = frame_at(case.is_caller, case.lookup);
    let regs = UnwindRegsX86_64::new(frame.address(), case.sp, case.bp);
    match unwinders.step(frame, regs, caches, &case.stack, failing) {
        Some((end, after)) => {
            end == want.0 && [after.sp(), after.bp(), after.get(Reg::RBX)] == want.1
        }
        None => false,
    }
}

/// Tests a step that fails at one read, and then the same without that. What the first stores, the second finds.
fn fails_at(
    alloc: Global,
    unwinders: &Unwinders,
    case: &Case,
    failing: Failing,
    want: &Given,
) -> Result<(), Fail> {
    let mut caches = Caches::new(alloc)?;
    let is_given = gives(unwinders, &mut caches, case, failing, want)
        && gives(unwinders, &mut caches, case, Failing::None, &case.given);
    let hits = u64::from(case.is_stored);
    holds(
        is_given && caches.have_counts(hits, 2 - hits),
        "the step and the one after it give what they are to",
    )
}

/// Fails all reads of a step, then each of them in turn, and then one that it does not come to.
fn fails_at_each_read(alloc: Global, unwinders: &Unwinders, case: &Case) -> Result<(), Fail> {
    let mut failing = Failing::All;
    let mut number = 1u32;
    for address in case.refused {
        let refused = Err(Error::CouldNotReadStack(*address));
        let want = (refused, [case.sp, case.bp, 0]);
        fails_at(alloc, unwinders, case, failing, &want)?;
        failing = Failing::Only(number);
        number = number.saturating_add(1);
    }
    if matches!(failing, Failing::All) {
        failing = Failing::None;
    }
    fails_at(alloc, unwinders, case, failing, &case.given)
}

/// Tests a step through a module whose section is cut off at this length.
fn gives_where_cut_off(
    alloc: Global,
    unwinders: &mut Unwinders,
    cut_off: &CutOff,
    bytes: &[u8],
) -> Result<(), Fail> {
    let mut case = cut_off.case;
    for (length, given) in cut_off.whole {
        if *length == bytes.len() {
            case.given = *given;
        }
    }
    let module = case.sections.module_with(alloc, cut_off.place, bytes)?;
    unwinders.set_module(module)?;
    fails_at_each_read(alloc, unwinders, &case)
}

/// Tests a step through a module whose section is cut off at each length, from the whole on.
fn gives_at_each_length(
    alloc: Global,
    unwinders: &mut Unwinders,
    cut_off: &CutOff,
) -> Result<(), Fail> {
    let mut bytes = cut_off.case.sections.bytes(alloc, cut_off.place)?;
    for _length in 0..bytes.len() {
        gives_where_cut_off(alloc, unwinders, cut_off, bytes.as_slice())?;
        let _last = bytes.pop();
    }
    gives_where_cut_off(alloc, unwinders, cut_off, &[])
}

/// Tests these steps.
fn are_given(alloc: Global, unwinders: &mut Unwinders, cases: &[Case]) -> Result<(), Fail> {
    for case in cases {
        unwinders.set_module(case.sections.module(alloc)?)?;
        fails_at_each_read(alloc, unwinders, case)?;
    }
    Ok(())
}

#[test]
fn steps(rt: HostRuntime) -> Result<(), Fail> {
    let mut unwinders = Unwinders::new(rt.alloc())?;
    are_given(rt.alloc(), &mut unwinders, &CALL_FRAMES)?;
    are_given(rt.alloc(), &mut unwinders, &BY_HEADER)?;
    are_given(rt.alloc(), &mut unwinders, &OTHER_UNWIND_DATA)?;
    are_given(rt.alloc(), &mut unwinders, &COMPUTED_VALUES)?;
    are_given(rt.alloc(), &mut unwinders, &WITHOUT_END_OR_ORDER)
}

#[test]
fn sections_that_are_cut_off(rt: HostRuntime) -> Result<(), Fail> {
    let mut unwinders = Unwinders::new(rt.alloc())?;
    for cut_off in &CUT_OFF {
        gives_at_each_length(rt.alloc(), &mut unwinders, cut_off)?;
    }
    Ok(())
}

/// A reserved length, and the mark of a length of 64 bits, have no index.
#[test]
fn lengths_that_no_entry_has(rt: HostRuntime) -> Result<(), Fail> {
    for (section, refusal) in [
        (RESERVED_LENGTH, ReadError::BadLength),
        (LONG_LENGTH, ReadError::Eof),
    ] {
        let bytes = Sections::EhFrame(section).bytes(rt.alloc(), 0)?;
        let bases = BaseAddresses {
            eh_frame: 0x2000,
            ..BaseAddresses::default()
        };
        let index = DwarfCfiIndex::try_new(
            rt.alloc(),
            bytes.as_slice(),
            UnwindSectionType::EhFrame,
            bases,
            0,
        );
        let is_refused = index.err() == Some(DwarfCfiIndexError::Gimli(refusal));
        holds(is_refused, "the length is refused")?;
    }
    Ok(())
}
