//! Which events of a recording are asked for by a name or a number.
ghost use Rattle.std.specs.Prelude.{◌≡◌, IfOk, map, length};
ghost use Rattle.framehop_perf_stacks.specs.EventChoice.{numbers_from, or_number, asked_among};

use std::alloc::{AllocError, Global};

/// Returns the numbers of the events that are asked for, of events with these names: all that have a name or, where none
/// has it, the event of a number. None where there is neither.
pub fn events_asked(
    alloc: Global,
    names: &[&[u8]],
    wanted: &[u8],
    number: Option<usize>,
) -> Result<Vec<usize>, AllocError>
    ensures { IfOk result (λ numbers. numbers.items ≡ asked_among (map (λ name. name.now) names.now) wanted.now number) }
{
    let mut numbers = events_named(alloc, names, wanted)?;
    if numbers.is_empty() {
        if let Some(number) = number
            && number < names.len()
        {
            numbers.push(number)?;
        }
    }
    Ok(numbers)
}

/// Returns the numbers of the events that have a name.
fn events_named(alloc: Global, names: &[&[u8]], wanted: &[u8]) -> Result<Vec<usize>, AllocError>
    ensures { IfOk result (λ numbers. numbers.items ≡ numbers_from 0 wanted.now (map (λ name. name.now) names.now)) }
{
    let mut numbers = Vec::new(alloc);
    let mut number = 0;
    for name in names {
        if *name == wanted {
            numbers.push(number)?;
        }
        number += 1;
    }
    Ok(numbers)
}
