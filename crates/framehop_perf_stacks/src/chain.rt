//! The frames of a call chain.
ghost use Rattle.std.specs.Prelude.{◌≡◌, ◌++◌, map, IfOk, OnOk};
ghost use Rattle.framehop_core.specs.CodeAddress.{location_of};
ghost use Rattle.framehop_frames.specs.Stack.{shown_frame};
ghost use Rattle.framehop_perf_stacks.specs.Chain.{caller_at, chain_locations, caller_shown, chain_frames};

use framehop_backtrace::FoundBy;
use framehop_core::code_address::FrameAddress;
use framehop_frames::stack::StackFrame;
use std::alloc::{AllocError, Global};

/// Returns where the frames of a chain are, by its addresses from the innermost on.
pub(crate) fn chain_locations(
    alloc: Global,
    addresses: &[u64],
) -> Result<Vec<FrameAddress>, AllocError>
    ensures { IfOk result (λ frames. map location_of frames.items ≡ chain_locations addresses.now) }
{
    let mut frames = Vec::new(alloc);
    let Some((first, callers)) = addresses.split_first() else {
        return Ok(frames);
    };
    frames.push(FrameAddress::from_instruction_pointer(*first))?;
    push_callers(&mut frames, callers)?;
    Ok(frames)
}

/// Appends where callers are, by their addresses.
fn push_callers(frames: &mut Vec<FrameAddress>, callers: &[u64]) -> Result<(), AllocError>
    ensures { OnOk result (map location_of frames.new.items ≡ map location_of frames.old.items ++ map caller_at callers.now) }
{
    for caller in callers {
        frames.push(caller_at(*caller))?;
    }
    Ok(())
}

/// Returns where the frame of a caller is: at a return address, which is not 0.
fn caller_at(address: u64) -> FrameAddress
    ensures { location_of result ≡ caller_at address }
{
    match FrameAddress::from_return_address(address) {
        Some(caller) => caller,
        None => FrameAddress::from_instruction_pointer(0),
    }
}

/// Returns the frames of a chain, by its addresses from the innermost on. The kernel finds each caller by the frame pointer.
pub(crate) fn chain_frames(
    alloc: Global,
    addresses: &[u64],
) -> Result<Vec<StackFrame<()>>, AllocError>
    ensures { IfOk result (λ frames. map shown_frame frames.items ≡ chain_frames addresses.now) }
{
    let mut frames = Vec::new(alloc);
    let Some((first, callers)) = addresses.split_first() else {
        return Ok(frames);
    };
    frames.push(StackFrame {
        address: FrameAddress::from_instruction_pointer(*first),
        regs: (),
        found: FoundBy::First,
        is_trampoline: false,
    })?;
    push_caller_frames(&mut frames, callers)?;
    Ok(frames)
}

/// Appends the frames of callers, by their addresses.
fn push_caller_frames(frames: &mut Vec<StackFrame<()>>, callers: &[u64]) -> Result<(), AllocError>
    ensures { OnOk result (map shown_frame frames.new.items ≡ map shown_frame frames.old.items ++ map caller_shown callers.now) }
{
    for caller in callers {
        frames.push(caller_frame(*caller))?;
    }
    Ok(())
}

/// Returns the frame of a caller.
fn caller_frame(address: u64) -> StackFrame<()>
    ensures { shown_frame result ≡ caller_shown address }
{
    StackFrame {
        address: caller_at(address),
        regs: (),
        found: FoundBy::FramePointer,
        is_trampoline: false,
    }
}
