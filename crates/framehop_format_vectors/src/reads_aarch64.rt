//! Steps on aarch64 in which reads of the stack fail, and what is stored after them.
use crate::sections::Sections;
use crate::steps::{Failing, Stack, frame_at, step};
use crate::totals::holds;
use framehop::aarch64::{CacheAarch64, PtrAuthMask, UnwindRegsAarch64, UnwinderAarch64};
use framehop::{Error, Generations, Unwinder};
use std::alloc::Global;
use std::test::Fail;

/// A CIE whose CFA is sp, and an FDE from 0x1000 to 0x1020: the CFA is sp + 16, x29 is at CFA - 16 and x30 at
/// CFA - 8. The section is at 0x2000.
const FRAME_RECORD: &str = "1000000000000000017a520001781e011b0c1f00\
     1400000018000000e4efffff20000000000e109d029e010000000000";

/// The same CIE and FDE, where the CFA is sp + 8 and x30 is at CFA - 8. No rule has a distance of 8.
const ODD_DISTANCE: &str = "1000000000000000017a520001781e011b0c1f00\
     1400000018000000e4efffff20000000000e089e0100000000000000";

/// What a step gives, and lr, sp and fp after it.
type Given = (Result<Option<u64>, Error>, (u64, u64, u64));

/// A step at the start of a function, and what it gives where these reads fail.
#[derive(Clone, Copy)]
struct Case {
    eh_frame: &'static str,
    is_caller: bool,
    stack: Stack,
    given: &'static [(Failing, Given)],
    is_stored: bool,
}

/// Tests a step whose reads fail, and the same step again, which finds what the first one has stored.
fn gives(
    alloc: Global,
    unwinder: &UnwinderAarch64<Vec<u8>>,
    case: &Case,
    failing: Failing,
    given: &Given,
) -> Result<(), Fail> {
    let frame = frame_at(case.is_caller, 0x1000);
    let mask = PtrAuthMask::new_24_40();
    let regs = UnwindRegsAarch64::new_with_ptr_auth_mask(mask, 0x1234, 0x100, 0x200);
    let mut cache = CacheAarch64::new(alloc)?;
    let (end, after) = step(unwinder, frame, regs, &mut cache, &case.stack, failing);
    let is_given = end == given.0 && (after.lr(), after.sp(), after.fp()) == given.1;
    let _again = step(
        unwinder,
        frame,
        regs,
        &mut cache,
        &case.stack,
        Failing::None,
    );
    let hits = u64::from(case.is_stored);
    let stats = cache.stats();
    holds(
        is_given && stats.hits() == hits && stats.misses() == 2 - hits,
        "the step gives what it is to, and stores what it is to",
    )
}

/// Tests the steps of a case.
fn all_are_given(alloc: Global, case: &Case) -> Result<(), Fail> {
    let module = Sections::EhFrame(case.eh_frame).module(alloc)?;
    let mut generations = Generations::new();
    let mut unwinder: UnwinderAarch64<Vec<u8>> = UnwinderAarch64::new(alloc, &mut generations)?;
    holds(
        unwinder.add_module(module, &mut generations).is_ok(),
        "the module is added",
    )?;
    for (failing, given) in case.given {
        gives(alloc, &unwinder, case, *failing, given)?;
    }
    Ok(())
}

/// A rule reads lr first. Of computed values a first frame keeps those that can't be read, and any other frame is left
/// by the frame pointer, which is not stored.
static CASES: [Case; 3] = [
    Case {
        eh_frame: FRAME_RECORD,
        is_caller: true,
        stack: Stack {
            base: 0x100,
            words: &[0x300, 0x4000],
        },
        given: &[
            (Failing::None, (Ok(Some(0x4000)), (0x4000, 0x110, 0x300))),
            (
                Failing::All,
                (Err(Error::CouldNotReadStack(0x108)), (0x1234, 0x100, 0x200)),
            ),
            (
                Failing::Only(1),
                (Err(Error::CouldNotReadStack(0x108)), (0x1234, 0x100, 0x200)),
            ),
            (
                Failing::Only(2),
                (Err(Error::CouldNotReadStack(0x100)), (0x1234, 0x100, 0x200)),
            ),
            (Failing::Only(3), (Ok(Some(0x4000)), (0x4000, 0x110, 0x300))),
        ],
        is_stored: true,
    },
    Case {
        eh_frame: ODD_DISTANCE,
        is_caller: false,
        stack: Stack {
            base: 0x100,
            words: &[0xab00000000001000],
        },
        given: &[
            (Failing::None, (Ok(Some(0x1000)), (0x1000, 0x108, 0x200))),
            (Failing::All, (Ok(Some(0x1234)), (0x1234, 0x108, 0x200))),
            (Failing::Only(1), (Ok(Some(0x1234)), (0x1234, 0x108, 0x200))),
            (Failing::Only(2), (Ok(Some(0x1000)), (0x1000, 0x108, 0x200))),
        ],
        is_stored: false,
    },
    Case {
        eh_frame: ODD_DISTANCE,
        is_caller: true,
        stack: Stack {
            base: 0x200,
            words: &[0x300, 0x5000],
        },
        given: &[
            (Failing::None, (Ok(Some(0x5000)), (0x5000, 0x210, 0x300))),
            (
                Failing::All,
                (Err(Error::CouldNotReadStack(0x208)), (0x1234, 0x100, 0x200)),
            ),
        ],
        is_stored: false,
    },
];

#[test]
fn frames_of_aarch64(rt: HostRuntime) -> Result<(), Fail> {
    for case in &CASES {
        all_are_given(rt.alloc(), case)?;
    }
    Ok(())
}
