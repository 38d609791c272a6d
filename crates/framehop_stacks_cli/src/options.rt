//! How stacks are printed.
ghost use Rattle.std.specs.Prelude.{◌≡◌, option_map, codes};
ghost use Rattle.framehop_stacks_cli.specs.CommandLine.{word_of};
ghost use Rattle.framehop_stacks_cli.specs.Options.{limit_by, options_of, perf_map_of};

use crate::command_line::{is_given, number_in, word_of};
use clap::ArgMatches;
use framehop_perf_stacks::kernel::KernelNames;
use framehop_perf_stacks::run::Options;

/// The most frames of a stack, where no limit is asked for.
const LIMIT: u32 = 512;

/// Returns how stacks are printed, with these names of the kernel's functions. `None` where the limit is no number.
pub fn options<'n>(matches: &ArgMatches<'_>, names: &'n KernelNames) -> Option<Options<'n>>
    ensures { result ≡ options_of matches.now names.entry }
{
    let limit = limit(matches)?;
    let explain = is_given(matches, "explain");
    Some(Options {
        frames: explain || is_given(matches, "frames"),
        explain,
        sure: is_given(matches, "sure"),
        limit,
        by_thread: is_given(matches, "by-thread"),
        kernel: if is_given(matches, "kernel") {
            Some(names)
        } else {
            None
        },
        json: is_given(matches, "json"),
    })
}

/// Returns the most frames of a stack, if what is asked for is a number below 2^32.
fn limit(matches: &ArgMatches<'_>) -> Option<u32>
    ensures { result ≡ limit_by (word_of matches.now (codes "limit")) }
{
    match word_of(matches, "limit") {
        Some(word) => number_in(word),
        None => Some(LIMIT),
    }
}

/// Returns the folder of the maps that JIT compilers write: the one that is named, or where they write them on this machine,
/// if its files are those that are looked for.
pub fn perf_map<'a>(matches: &ArgMatches<'a>) -> Option<&'a str>
    ensures { option_map (λ folder. folder.now) result ≡ perf_map_of matches.now }
{
    match (word_of(matches, "perf-map"), word_of(matches, "root")) {
        (Some(folder), _) => Some(folder),
        (None, None) => Some("/tmp"),
        (None, Some(_)) => None,
    }
}
