//! Frames and how a stack ended, as JSON.
ghost use Rattle.std.specs.Prelude.{◌≡◌, map, option_map, IfOk};
ghost use Rattle.serde_json.specs.Data.{array};
ghost use Rattle.serde_json.specs.View.{view, items_of};
ghost use Rattle.framehop_frames.specs.JsonFrames.{offset_data, module_at, function_data, in_function_data, found_data, frame_data, frames_data};
ghost use Rattle.framehop_frames.specs.Stack.{shown_frame};
ghost use Rattle.framehop_processes.specs.Mappings.{IsInOrder};
ghost use Rattle.framehop_processes.specs.Place.{place_view};

use crate::json_values::{address_value, hexadecimal, name_text, name_value};
use crate::place::{frame_place, is_after_call, looked_up};
use crate::stack::StackFrame;
use framehop_backtrace::FoundBy;
use framehop_processes::Mapping;
use framehop_processes::files::{Files, NamedFile};
use framehop_processes::place::{Place, mapping_at};
use serde_json::{Value, json};
use std::alloc::{AllocError, Global};

/// Returns frames, the innermost first, by mappings in order.
pub fn frames_value<R: Copy>(
    alloc: Global,
    files: &Files<'_>,
    mappings: &[Mapping],
    frames: &[StackFrame<R>],
) -> Result<Value, AllocError>
    requires { IsInOrder 0 mappings.now }
    ensures { IfOk result (λ value. view value ≡ array (items_of (frames_data files.now mappings.now (map shown_frame frames.now)))) }
{
    let mut values = Vec::new(alloc);
    for (number, frame) in frames.iter().enumerate() {
        values.push(frame_value(alloc, number as u64, files, mappings, frame)?)?;
    }
    Ok(Value::Array(values))
}

/// Returns the frame of a number.
fn frame_value<R: Copy>(
    alloc: Global,
    number: u64,
    files: &Files<'_>,
    mappings: &[Mapping],
    frame: &StackFrame<R>,
) -> Result<Value, AllocError>
    requires { IsInOrder 0 mappings.now }
    ensures { IfOk result (λ value. view value ≡ frame_data files.now mappings.now number (shown_frame frame.now)) }
{
    let address = hexadecimal(alloc, frame.address.address())?;
    let module = module_value(alloc, files, mappings, frame)?;
    let function = function_value(alloc, frame_place(files, mappings, frame))?;
    let found_by = found_value(alloc, frame.found)?;
    json!(in alloc; {
        "frame": number,
        "address": address.as_str(),
        "after_call": is_after_call(frame),
        "module": module,
        "function": function,
        "found_by": found_by,
        "signal_trampoline": frame.is_trampoline
    })
}

/// Returns the file that a frame is in, and where in it, or null where it is in none.
fn module_value<R: Copy>(
    alloc: Global,
    files: &Files<'_>,
    mappings: &[Mapping],
    frame: &StackFrame<R>,
) -> Result<Value, AllocError>
    requires { IsInOrder 0 mappings.now }
    ensures { IfOk result (λ value. view value ≡ module_at files.now mappings.now (shown_frame frame.now)) }
{
    let Some(mapping) = mapping_at(mappings, looked_up(frame)) else {
        return Ok(Value::Null);
    };
    let address = frame.address.address();
    match files.get(mapping.file) {
        Some(file) => offset_value(alloc, file, address.saturating_sub(mapping.base_avma)),
        None => Ok(Value::Null),
    }
}

/// Returns a file and an offset from its stated address 0.
fn offset_value(alloc: Global, file: &NamedFile<'_>, offset: u64) -> Result<Value, AllocError>
    ensures { IfOk result (λ value. view value ≡ offset_data file.now offset) }
{
    let name = name_text(alloc, file.name.as_slice())?;
    let offset = hexadecimal(alloc, offset)?;
    json!(in alloc; {"file": name.as_str(), "offset": offset.as_str()})
}

/// Returns the function of a place, whose name is null where it has none, and how far the place is from its start; or null
/// where no function is known.
fn function_value(alloc: Global, place: Place<'_>) -> Result<Value, AllocError>
    ensures { IfOk result (λ value. view value ≡ function_data (place_view place.entry)) }
{
    match place {
        Place::Function { name, offset, .. } => in_function_value(alloc, Some(name), offset, None),
        Place::Unnamed { start, address, .. } => {
            in_function_value(alloc, None, address.saturating_sub(start), Some(start))
        }
        _ => Ok(Value::Null),
    }
}

/// Returns the name of a function, which may not be known, an offset from its start, and where that is in the file, if it is
/// to be told.
fn in_function_value(
    alloc: Global,
    name: Option<&[u8]>,
    offset: u64,
    start: Option<u64>,
) -> Result<Value, AllocError>
    ensures { IfOk result (λ value. view value ≡ in_function_data (option_map (λ name. name.now) name.entry) offset start) }
{
    let name = name_value(alloc, name)?;
    let offset = hexadecimal(alloc, offset)?;
    let start = address_value(alloc, start)?;
    json!(in alloc; {"name": name, "offset": offset.as_str(), "start": start})
}

/// Returns how a frame was found, in the words of blocks: null of the first.
fn found_value(alloc: Global, found: FoundBy) -> Result<Value, AllocError>
    ensures { IfOk result (λ value. view value ≡ found_data found) }
{
    let name = match found {
        FoundBy::First => return Ok(Value::Null),
        FoundBy::Cfi => "cfi",
        FoundBy::Signal => "signal",
        FoundBy::Run => "code",
        FoundBy::FramePointer => "frame-pointer",
        FoundBy::Guess => "guess",
    };
    Ok(Value::String(String::from_str(alloc, name)?))
}
