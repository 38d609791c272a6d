//! The events of a recording that are asked for.
ghost use Rattle.std.specs.Prelude.{◌≡◌, ◌^◌, map, option_map, IfOk};
ghost use Rattle.std.specs.Result.{result_map_both};
ghost use Rattle.framehop_stacks_cli.specs.CommandLine.{number_below};
ghost use Rattle.framehop_stacks_cli.specs.Events.{events_asked, events_by, events_of, names_in};

use framehop_cli::{Failure, Printed, Result};
use framehop_disk::messages::Messages;
use framehop_frames::line::{printed_name, push_name};
use framehop_perf_stacks::event_choice::events_asked;
use framehop_recording::error::RecordingError;
use framehop_recording::event_names::read_event_names;
use framehop_recording::header::Header;
use std::alloc::{AllocError, Global};
use std::io::Write;

/// Returns the numbers of the events of a recording, whose header was read, that are asked for by their names or numbers. Where it
/// has none of them, says which it has, and returns `None`. Without a header events are not looked for.
pub fn numbers_of_events(
    rt: &HostRuntime,
    path: &str,
    bytes: &[u8],
    header: Option<&Header>,
    asked: &[&str],
) -> Result<Option<Vec<usize>>>
    ensures { IfOk result (λ numbers. option_map (λ list. list.items) numbers
        ≡ events_asked bytes.now (option_map (λ header. header.now) header.entry) (map (λ word. word.now) asked.now)) }
{
    let alloc = rt.alloc();
    let Some(header) = header else {
        return Ok(Some(Vec::new(alloc)));
    };
    if asked.is_empty() {
        return Ok(Some(Vec::new(alloc)));
    }
    let names = names_in(alloc, bytes, header)?;
    match numbers_by_words(alloc, names.as_slice(), asked)? {
        Ok(numbers) => Ok(Some(numbers)),
        Err(word) => {
            tell_events(rt, path, word, names.as_slice())?;
            Ok(None)
        }
    }
}

/// Returns the names of a recording's events: none where they can't be read.
fn names_in<'a>(alloc: Global, bytes: &'a [u8], header: &Header) -> Result<Vec<&'a [u8]>>
    ensures { IfOk result (λ names. map (λ name. name.now) names.items ≡ names_in bytes.entry.now header.now) }
{
    match read_event_names(alloc, bytes, header) {
        Ok(names) => Ok(names),
        Err(RecordingError::OutOfMemory) => Err(Failure::OutOfMemory),
        Err(_) => Ok(Vec::new(alloc)),
    }
}

/// Returns the numbers of the events that words ask for, of events with these names; or the first word for which there are none.
fn numbers_by_words<'w>(
    alloc: Global,
    names: &[&[u8]],
    words: &[&'w str],
) -> Result<Result<Vec<usize>, &'w str>, AllocError>
    ensures { IfOk result (λ numbers. result_map_both (λ list. list.items) (λ word. word.now) numbers
        ≡ events_of (map (λ name. name.now) names.now) (map (λ word. word.now) words.entry.now)) }
{
    let mut numbers = Vec::new(alloc);
    for word in words {
        let found = numbers_by(alloc, names, word)?;
        if found.is_empty() {
            return Ok(Err(*word));
        }
        numbers.extend_from_slice(found.as_slice())?;
    }
    Ok(Ok(numbers))
}

/// Returns the numbers of the events that a word asks for, by their name or by a number.
#[tactic(auto, unfolding(crate::specs::Events::events_by))]
fn numbers_by(alloc: Global, names: &[&[u8]], word: &str) -> Result<Vec<usize>, AllocError>
    ensures { IfOk result (λ numbers. numbers.items ≡ events_by (map (λ name. name.now) names.now) word.now) }
{
    events_asked(alloc, names, word.as_bytes(), number_in(word))
}

/// Returns the number that a word is, if it is one below 2^64.
fn number_in(word: &str) -> Option<usize>
    ensures { result ≡ number_below (2 ^ 64) word.now }
{
    word.parse::<usize>().ok()
}

/// Says that a recording has no such event, and which it has.
fn tell_events(rt: &HostRuntime, path: &str, wanted: &str, names: &[&[u8]]) -> Result<()> {
    let mut line = Vec::from_slice(rt.alloc(), b"no event ")?;
    let wanted = printed_name(rt.alloc(), wanted.as_bytes())?;
    line.extend_from_slice(wanted.as_slice())?;
    for (number, name) in names.iter().enumerate() {
        push_event(&mut line, number, name)?;
    }
    line.push(b'\n')?;
    let mut err = Messages { rt };
    write!(err, "framehop-stacks: {}: ", Printed(path))?;
    err.write_all(line.as_slice())?;
    Ok(())
}

/// Appends the number and the name of an event, after what is said before it.
fn push_event(line: &mut Vec<u8>, number: usize, name: &[u8]) -> Result<()> {
    let before = if number == 0 { "; the events are" } else { "," };
    write!(line, "{before} {number} ")?;
    push_name(line, name)?;
    Ok(())
}
