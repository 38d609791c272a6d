//! Sections with each byte set to each other value, and cut off at each length.
use crate::sections::{
    DEBUG_FRAME, HEADER, LINKAGE_TABLE, ONE_FDE, PUSHES_RBX, Sections, TEXT, TWO_FDES, UNWIND_INFO,
};
use crate::steps::{Caches, Failing, SWEPT_STACK, Unwinders, frame_at};
use crate::totals::{Ends, Totals, holds};
use framehop::FrameAddress;
use framehop::x86_64::UnwindRegsX86_64;
use std::alloc::Global;
use std::test::Fail;

/// A sweep over one section of a module, and what it comes to.
#[derive(Clone, Copy)]
struct Sweep {
    sections: Sections,
    place: usize,
    addresses: &'static [u64],
    ends: Ends,
}

/// A sweep as it goes on: the unwinders, the caches that all steps use, and what the steps come to.
#[derive(Drop)]
struct State {
    unwinders: Unwinders,
    used: Caches,
    totals: Totals,
}

/// Steps over new caches, over those that all steps before have used, and over the same again.
fn step_at(alloc: Global, frame: FrameAddress, state: &mut State) -> Result<(), Fail> {
    let regs = UnwindRegsX86_64::new(frame.address(), 0x10, 0x20);
    let stack = &SWEPT_STACK;
    let mut new = Caches::new(alloc)?;
    let unwinders = &state.unwinders;
    let first = unwinders.step(frame, regs, &mut new, stack, Failing::None);
    let second = unwinders.step(frame, regs, &mut state.used, stack, Failing::None);
    let third = unwinders.step(frame, regs, &mut state.used, stack, Failing::None);
    let Some((end, after)) = &first else {
        return Err(Fail::from("the policies give the same"));
    };
    state.totals.add_end(*end);
    state.totals.add_regs(after);
    holds(
        first == second && first == third,
        "the caches give the same",
    )
}

/// Steps through a module whose section has these bytes: at each address, as a first frame and as a caller's.
fn step_through(alloc: Global, sweep: &Sweep, bytes: &[u8], state: &mut State) -> Result<(), Fail> {
    let module = sweep.sections.module_with(alloc, sweep.place, bytes)?;
    state.unwinders.set_module(module)?;
    for lookup in sweep.addresses {
        step_at(alloc, frame_at(false, *lookup), state)?;
        step_at(alloc, frame_at(true, *lookup), state)?;
    }
    Ok(())
}

/// Steps through the section with each byte set to each other value, from the first byte on.
fn set_each_byte(
    alloc: Global,
    sweep: &Sweep,
    bytes: &mut Vec<u8>,
    state: &mut State,
) -> Result<(), Fail> {
    for index in 0..bytes.len() {
        for value in u8::MIN..=u8::MAX {
            let was = bytes[index];
            if value != was {
                bytes[index] = value;
                step_through(alloc, sweep, bytes.as_slice(), state)?;
                bytes[index] = was;
            }
        }
    }
    Ok(())
}

/// Steps through the section cut off at each length, from the greatest on.
fn cut_at_each_length(
    alloc: Global,
    sweep: &Sweep,
    bytes: &mut Vec<u8>,
    state: &mut State,
) -> Result<(), Fail> {
    for _length in 0..bytes.len() {
        let _last = bytes.pop();
        step_through(alloc, sweep, bytes.as_slice(), state)?;
    }
    Ok(())
}

/// What all variants of a section come to.
fn sweep_section(alloc: Global, sweep: &Sweep) -> Result<Ends, Fail> {
    let mut bytes = sweep.sections.bytes(alloc, sweep.place)?;
    let mut state = State {
        unwinders: Unwinders::new(alloc)?,
        used: Caches::new(alloc)?,
        totals: Totals::new(),
    };
    set_each_byte(alloc, sweep, &mut bytes, &mut state)?;
    cut_at_each_length(alloc, sweep, &mut bytes, &mut state)?;
    Ok(state.totals.ends())
}

/// Sweeps over these sections, under both allocation policies.
fn sweep_sections(alloc: Global, sweeps: &[Sweep]) -> Result<(), Fail> {
    for sweep in sweeps {
        let ends = sweep_section(alloc, sweep)?;
        holds(
            ends == sweep.ends,
            "as many steps with each end, and the same digest",
        )?;
    }
    Ok(())
}

/// The addresses in and around the function of a call frame section.
const CALL_FRAMES: &[u64] = &[0xfff, 0x1000, 0x1001, 0x1004, 0x101f, 0x1020];

/// Those of the function of a PE module.
const PE_FUNCTION: &[u64] = &[
    0x1000, 0x1001, 0x1002, 0x1006, 0x103a, 0x103e, 0x103f, 0x1040,
];

/// Those of the function of an `__unwind_info`.
const COMPACT_FUNCTION: &[u64] = &[0x100fff, 0x101000, 0x101001, 0x101fff, 0x102000];

/// Sweeps over the `.eh_frame` of one and of two FDEs.
static FDES: [Sweep; 2] = [
    Sweep {
        sections: Sections::EhFrame(ONE_FDE),
        place: 0,
        addresses: CALL_FRAMES,
        ends: ([167196, 3280, 1556], 0x4d0976ccd3deb591),
    },
    Sweep {
        sections: Sections::EhFrame(TWO_FDES),
        place: 0,
        addresses: CALL_FRAMES,
        ends: ([253212, 3280, 1556], 0x6fb26c00728cc739),
    },
];

/// Sweeps over other call frame sections.
///
/// A header with a count that is relative to the text (23 and 2B in its encoding) has no FDE here, and the original
/// reads it. `checks/sweeps.py` puts a header of version 0, which has no FDE for both, in the place of these two.
static CALL_FRAME_SECTIONS: [Sweep; 3] = [
    Sweep {
        sections: Sections::EhFrameHdr(ONE_FDE, HEADER),
        place: 1,
        addresses: CALL_FRAMES,
        ends: ([61440, 0, 0], 0x4bac650b5dc464a5),
    },
    Sweep {
        sections: Sections::DebugFrame(DEBUG_FRAME),
        place: 0,
        addresses: CALL_FRAMES,
        ends: ([154982, 3174, 1588], 0x35651b4ef21c17f6),
    },
    Sweep {
        sections: Sections::EhFrame(LINKAGE_TABLE),
        place: 0,
        addresses: &[0x1000, 0x100b, 0x1020],
        ends: ([90524, 1632, 4], 0x6969fde3f3a360b1),
    },
];

/// A sweep over `__unwind_info`.
///
/// A page of kind 3 whose own list of opcodes does not lie in the bytes is refused here as a whole, and the original
/// reads it. `checks/sweeps.py` puts a page of kind 4, which both refuse, in the place of this one.
static COMPACT: [Sweep; 1] = [Sweep {
    sections: Sections::UnwindInfo(UNWIND_INFO),
    place: 0,
    addresses: COMPACT_FUNCTION,
    ends: ([174080, 0, 0], 0x2f34965bf73e045d),
}];

/// Sweeps over the sections of a PE module.
static PE: [Sweep; 3] = [
    Sweep {
        sections: Sections::Pe(0x2008, PUSHES_RBX, TEXT),
        place: 0,
        addresses: PE_FUNCTION,
        ends: ([49152, 0, 0], 0x72c758ea8a2540f8),
    },
    Sweep {
        sections: Sections::Pe(0x2008, PUSHES_RBX, TEXT),
        place: 1,
        addresses: PE_FUNCTION,
        ends: ([32723, 14, 31], 0x4c6aa69de9a8bd42),
    },
    Sweep {
        sections: Sections::Pe(0x2008, PUSHES_RBX, TEXT),
        place: 2,
        addresses: PE_FUNCTION,
        ends: ([262139, 2, 3], 0xe1d22c1a1f1892b7),
    },
];

#[test]
fn fdes(rt: HostRuntime) -> Result<(), Fail> {
    sweep_sections(rt.alloc(), &FDES)
}

#[test]
fn call_frame_sections(rt: HostRuntime) -> Result<(), Fail> {
    sweep_sections(rt.alloc(), &CALL_FRAME_SECTIONS)
}

#[test]
fn compact_unwind_info(rt: HostRuntime) -> Result<(), Fail> {
    sweep_sections(rt.alloc(), &COMPACT)
}

#[test]
fn pe_sections(rt: HostRuntime) -> Result<(), Fail> {
    sweep_sections(rt.alloc(), &PE)
}
