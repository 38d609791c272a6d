//! What is printed of folded stacks.
ghost use Rattle.std.specs.Prelude.{◌≡◌, option_map, Some};
ghost use Rattle.framehop_stacks_cli.specs.Form.{are_folded, layout_of, title_of, IsDrawingOf, IsFormOf};

use crate::command_line::{is_given, word_of};
use clap::ArgMatches;
use framehop_folded::flame_graph::drawing::{Drawing, Layout};
use framehop_folded::flame_graph::script::ZOOM_AND_SEARCH;
use framehop_perf_stacks::run::Options;

/// What is printed of the folded stacks of recordings.
#[derive(Clone, Copy)]
pub enum Form<'a> {
    /// Their lines.
    Text,
    /// A flame graph.
    Graph(Drawing<'a>),
    /// A file of speedscope, of this title.
    Speedscope(&'a str),
    /// Their lines beside those of others.
    Changes,
    /// JSON.
    Json,
}

/// Returns in which form the folded stacks of recordings are asked for.
pub fn form_asked<'a>(matches: &ArgMatches<'a>) -> Form<'a>
    ensures { IsFormOf matches.now result }
{
    if is_given(matches, "svg") {
        Form::Graph(drawing(matches))
    } else if is_given(matches, "speedscope") {
        Form::Speedscope(title(matches))
    } else if is_given(matches, "json") {
        Form::Json
    } else {
        Form::Text
    }
}

/// Returns how a flame graph is drawn: with the script of clicks and searches.
fn drawing<'a>(matches: &ArgMatches<'a>) -> Drawing<'a>
    ensures asked { IsDrawingOf matches.now result }
    ensures script { option_map (λ script. script.now) result.script ≡ Some ZOOM_AND_SEARCH.now }
{
    Drawing {
        title: title(matches).as_bytes(),
        layout: layout(matches),
        script: Some(ZOOM_AND_SEARCH),
    }
}

/// Returns which way the boxes of a flame graph go.
fn layout(matches: &ArgMatches<'_>) -> Layout
    ensures { result ≡ layout_of matches.now }
{
    if is_given(matches, "flame") {
        Layout::Flame
    } else {
        Layout::Icicle
    }
}

/// Returns the title of a flame graph or of a profile.
fn title<'a>(matches: &ArgMatches<'a>) -> &'a str
    ensures { result.now ≡ title_of matches.now }
{
    word_of(matches, "title").unwrap_or("Flame Graph")
}

/// Returns whether the stacks of recordings are folded: neither blocks nor JSON are printed of them.
pub fn are_folded(options: Options<'_>, form: Form<'_>) -> bool
    ensures { result ≡ are_folded options.entry form.entry }
{
    !(options.frames || matches!(form, Form::Json))
}
