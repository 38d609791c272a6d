//! Which samples of recordings are asked for.
ghost use Rattle.std.specs.Prelude.{◌≡◌, map, option_map, IfOk, codes};
ghost use Rattle.framehop_stacks_cli.specs.CommandLine.{words_of};
ghost use Rattle.framehop_stacks_cli.specs.Samples.{samples_in, samples_of, window_asked, IsChoiceOf};

use crate::command_line::{numbers_below, word_of, words_of};
use clap::ArgMatches;
use framehop_perf_stacks::choice::Choice;
use framehop_perf_stacks::window::{Window, window_of};
use std::alloc::{AllocError, Global};

/// Which samples are asked for.
#[derive(Drop)]
pub struct Asked<'a> {
    pub commands: Vec<&'a [u8]>,
    pub processes: Vec<u32>,
    pub threads: Vec<u32>,
    /// The names or numbers of events.
    pub events: Vec<&'a str>,
    pub window: Window,
}

impl Asked<'_> {
    /// Returns the choice of the samples that are asked for, by the numbers of their events.
    pub fn choice<'a>(&'a self, events: &'a [usize]) -> Choice<'a>
        ensures { IsChoiceOf (samples_in self.entry.now) events.entry.now result }
    {
        Choice {
            commands: self.commands.as_slice(),
            processes: self.processes.as_slice(),
            threads: self.threads.as_slice(),
            events,
            window: self.window,
        }
    }
}

/// Returns which samples are asked for, or `None` where a process or thread is no number, or times are no times.
pub fn samples_asked<'a>(
    alloc: Global,
    matches: &ArgMatches<'a>,
) -> Result<Option<Asked<'a>>, AllocError>
    ensures { IfOk result (λ asked. option_map samples_in asked ≡ samples_of matches.now) }
{
    let Some(window) = window_asked(alloc, matches)? else {
        return Ok(None);
    };
    let Some(processes) = numbers_below(alloc, words_of(matches, "pid"))? else {
        return Ok(None);
    };
    let Some(threads) = numbers_below(alloc, words_of(matches, "tid"))? else {
        return Ok(None);
    };
    Ok(Some(Asked {
        commands: commands(alloc, matches)?,
        processes,
        threads,
        events: events(alloc, matches)?,
        window,
    }))
}

/// Returns the times that are asked for, if they are times.
fn window_asked(alloc: Global, matches: &ArgMatches<'_>) -> Result<Option<Window>, AllocError>
    ensures { IfOk result (λ window. window ≡ window_asked matches.now) }
{
    let times = word_of(matches, "time").unwrap_or(",");
    window_of(alloc, times.as_bytes())
}

/// Returns the names of the threads that are asked for.
fn commands<'a>(alloc: Global, matches: &ArgMatches<'a>) -> Result<Vec<&'a [u8]>, AllocError>
    ensures { IfOk result (λ names. map (λ name. name.now) names.items ≡ words_of matches.now (codes "comm")) }
{
    let mut commands = Vec::new(alloc);
    for name in words_of(matches, "comm") {
        commands.push(name.as_bytes())?;
    }
    Ok(commands)
}

/// Returns the names or numbers of the events that are asked for.
fn events<'a>(alloc: Global, matches: &ArgMatches<'a>) -> Result<Vec<&'a str>, AllocError>
    ensures { IfOk result (λ events. map (λ event. event.now) events.items ≡ words_of matches.now (codes "event")) }
{
    Vec::from_slice(alloc, words_of(matches, "event"))
}
