//! The words of a command line.
ghost use Rattle.std.specs.Prelude.{◌≡◌, ◌^◌, map, option_map, IfOk};
ghost use Rattle.framehop_stacks_cli.specs.CommandLine.{word_of, words_of, is_given, number_below, numbers_below};

use clap::ArgMatches;
use std::alloc::{AllocError, Global};

/// Returns the word that an option is given, if it is given one: the first.
#[tactic(auto, unfolding(crate::specs::CommandLine::word_of))]
pub fn word_of<'a>(matches: &ArgMatches<'a>, option: &str) -> Option<&'a str>
    ensures { option_map (λ word. word.now) result ≡ word_of matches.now option.now }
{
    matches.get_str(option)
}

/// Returns the words that an option is given, one each time.
#[tactic(auto, unfolding(crate::specs::CommandLine::words_of))]
pub fn words_of<'m, 'a: 'm>(matches: &'m ArgMatches<'a>, option: &str) -> &'m [&'a str]
    ensures { map (λ word. word.now) result.now ≡ words_of matches.entry.now option.now }
{
    matches.get_strs(option).unwrap_or_default()
}

/// Returns whether an option that takes no word is given.
#[tactic(auto, unfolding(crate::specs::CommandLine::is_given))]
pub fn is_given(matches: &ArgMatches<'_>, option: &str) -> bool
    ensures { result ≡ is_given matches.now option.now }
{
    matches.get_one::<bool>(option).unwrap_or(false)
}

/// Returns the numbers that words are, where each is one below 2^32.
pub fn numbers_below(alloc: Global, words: &[&str]) -> Result<Option<Vec<u32>>, AllocError>
    ensures { IfOk result (λ numbers. option_map (λ list. list.items) numbers
        ≡ numbers_below (2 ^ 32) (map (λ word. word.now) words.now)) }
{
    let mut numbers = Vec::new(alloc);
    for word in words {
        let Some(number) = number_in(word) else {
            return Ok(None);
        };
        numbers.push(number)?;
    }
    Ok(Some(numbers))
}

/// Returns the number that a word is, if it is one below 2^32.
#[tactic(auto, unfolding(crate::specs::CommandLine::number_below))]
pub fn number_in(word: &str) -> Option<u32>
    ensures { result ≡ number_below (2 ^ 32) word.now }
{
    word.parse::<u32>().ok()
}
