//! Which options do not go together, or not with a kind of file.
ghost use Rattle.std.specs.Prelude.{◌≡◌, option_map};
ghost use Rattle.framehop_stacks_cli.specs.Misuse.{given_by, misuse_of, misuse_of_kind};

use crate::command_line::{is_given, word_of};
use crate::form::Form;
use clap::ArgMatches;
use framehop_disk::input::Kind;
use framehop_perf_stacks::run::Options;

/// The options that are given, of those that do not go with others.
#[derive(Clone, Copy)]
struct Given {
    by_thread: bool,
    demangle: bool,
    diff: bool,
    explain: bool,
    /// Blocks of frames, which `--explain` asks for, too.
    frames: bool,
    json: bool,
    kernel: bool,
    /// Lines of the source or inlined functions.
    lines: bool,
    speedscope: bool,
    sure: bool,
    svg: bool,
    title: bool,
}

/// Returns which options do not go together, if some do not.
pub fn misuse_of_options(matches: &ArgMatches<'_>, options: Options<'_>) -> Option<&'static str>
    ensures { option_map (λ text. text.now) result ≡ misuse_of (given_by matches.now options.entry) }
{
    misuse_of(given_by(matches, options))
}

/// Returns the options that are given, of those that do not go with others.
fn given_by(matches: &ArgMatches<'_>, options: Options<'_>) -> Given
    ensures { result ≡ given_by matches.now options.entry }
{
    Given {
        by_thread: options.by_thread,
        demangle: is_given(matches, "demangle"),
        diff: is_given(matches, "diff"),
        explain: options.explain,
        frames: options.frames,
        json: options.json,
        kernel: options.kernel.is_some(),
        lines: is_given(matches, "inlines") || is_given(matches, "lines"),
        speedscope: is_given(matches, "speedscope"),
        sure: options.sure,
        svg: is_given(matches, "svg"),
        title: word_of(matches, "title").is_some(),
    }
}

/// Returns the first of the texts of options that do not go together, if some do not.
fn misuse_of(given: Given) -> Option<&'static str>
    ensures { option_map (λ text. text.now) result ≡ misuse_of given }
{
    if given.demangle {
        Some(
            "names are demangled by c++filt: framehop-stacks FILE.. | c++filt, and for a picture | framehop-stacks --svg -",
        )
    } else if given.lines {
        Some("inlined functions and lines are printed by the script framehop-stacks")
    } else if given.sure && given.frames {
        Some("only folded stacks are cut at frames that are not sure")
    } else if given.kernel && given.explain {
        Some("frames of the kernel are not explained")
    } else if given.by_thread && given.frames {
        Some("each block tells its thread")
    } else if given.svg && given.frames {
        Some("a flame graph has no blocks of frames")
    } else if given.speedscope && (given.frames || given.svg) {
        Some("speedscope reads folded stacks: no blocks of frames, and no picture")
    } else if given.speedscope && given.diff {
        Some("speedscope reads one profile, and not two beside one another")
    } else if given.title && !given.svg && !given.speedscope {
        Some("a title is that of a flame graph or of a profile: --svg or --speedscope")
    } else if given.diff && given.frames {
        Some("only folded stacks are compared, and no blocks of frames")
    } else if given.json && (given.svg || given.diff || given.speedscope) {
        Some("only folded stacks are drawn and compared, and no JSON")
    } else if given.json && (given.explain || given.sure || given.kernel) {
        Some("JSON has all frames of the user's side, with how each was found, and no notes")
    } else {
        None
    }
}

/// Returns why a file of a kind is not printed as it is asked for, if so.
pub fn misuse_of_kind(kind: Kind, options: Options<'_>, form: Form<'_>) -> Option<&'static str>
    ensures { option_map (λ text. text.now) result ≡ misuse_of_kind kind options.entry form.entry }
{
    match (kind, form) {
        (Kind::Core | Kind::Minidump, Form::Graph(_) | Form::Speedscope(_)) => {
            Some("only recordings and folded stacks are drawn")
        }
        (Kind::Core | Kind::Minidump, Form::Changes) => {
            Some("only recordings and folded stacks are compared")
        }
        (Kind::Folded, Form::Json) => Some("folded stacks have no addresses, and no JSON"),
        (Kind::Core | Kind::Minidump, _) if options.sure => { Some("only recordings are folded") }
        (Kind::Folded, _) if options.frames => Some("folded stacks have no blocks of frames"),
        (Kind::Folded, _) if options.sure => Some("folded stacks don't say what is sure"),
        _ => None,
    }
}
