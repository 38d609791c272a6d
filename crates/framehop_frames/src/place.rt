//! Where frames are: in which function of which file.
ghost use Rattle.std.specs.Prelude.{◌≡◌};
ghost use Rattle.framehop_frames.specs.Line.{looked_up, is_after_call, told_at, frame_place};
ghost use Rattle.framehop_frames.specs.Stack.{shown_frame};
ghost use Rattle.framehop_processes.specs.Mappings.{IsInOrder};
ghost use Rattle.framehop_processes.specs.Place.{place_view};

use crate::stack::StackFrame;
use framehop_processes::Mapping;
use framehop_processes::files::Files;
use framehop_processes::place::{Place, place_of};

/// Returns where a frame is, by mappings in order: in the function of the address that is looked up for it, at its own
/// address, as gdb prints it.
pub(crate) fn frame_place<'a, R: Copy>(
    files: &'a Files<'_>,
    mappings: &[Mapping],
    frame: &StackFrame<R>,
) -> Place<'a>
    requires { IsInOrder 0 mappings.now }
    ensures { place_view result ≡ frame_place files.entry.now mappings.now (shown_frame frame.now) }
{
    let looked_up = looked_up(frame);
    told_at(
        frame.address.address(),
        looked_up,
        place_of(files, mappings, looked_up),
    )
}

/// Returns a place for another address (AVMA) than the one that was looked up, in the same function or file.
fn told_at(address: u64, looked_up: u64, place: Place<'_>) -> Place<'_>
    ensures { place_view result ≡ told_at address looked_up (place_view place.entry) }
{
    match place {
        Place::Function { file, name, offset } => {
            let offset = address.saturating_sub(looked_up.saturating_sub(offset));
            Place::Function { file, name, offset }
        }
        Place::Unnamed {
            file,
            start,
            address: svma,
        } => {
            let address = address.saturating_sub(looked_up.saturating_sub(svma));
            Place::Unnamed {
                file,
                start,
                address,
            }
        }
        Place::File {
            file,
            address: svma,
        } => {
            let address = address.saturating_sub(looked_up.saturating_sub(svma));
            Place::File { file, address }
        }
        Place::Unmapped => Place::Unmapped,
    }
}

/// Returns the address (AVMA) that is looked up for a frame: of a return address the byte before it. The handler of a signal
/// returns to the first instruction of a trampoline, after no call.
pub fn looked_up<R: Copy>(frame: &StackFrame<R>) -> u64
    ensures { result ≡ looked_up (shown_frame frame.now) }
{
    if frame.is_trampoline {
        frame.address.address()
    } else {
        frame.address.address_for_lookup()
    }
}

/// Returns whether a frame is after a call: the byte before its address is looked up.
pub fn is_after_call<R: Copy>(frame: &StackFrame<R>) -> bool
    ensures { result ≡ is_after_call (shown_frame frame.now) }
{
    frame.address.is_return_address() && !frame.is_trampoline
}
