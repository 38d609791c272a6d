//! One step over the words of windows.
ghost use Rattle.std.specs.Prelude.{◌≡◌, ◌≢◌, Err, None, IfSome, IfNone, MatchResult};
ghost use Rattle.std.specs.Option.{is_some};
ghost use Rattle.framehop.specs.Memory.{Memory, reply};
ghost use Rattle.framehop.specs.CodeAddress.{location_of};
ghost use Rattle.framehop.specs.Outcome.{answer_of, registers_after};
ghost use Rattle.framehop.specs.Modules.{UnwinderView};
ghost use Rattle.framehop.specs.Soundness.{AreApart};
ghost use Rattle.framehop_lent.specs.Window.{told_in, words_in, noted, unreadable_word, IsReadAs};

use crate::window::{Window, told, word_at};
use framehop::{Error, FrameAddress, Unwinder};

/// Unwinds a single frame over the words of windows: [`Unwinder::unwind_frame`] with a callback that
/// reads them, which can't read what no window has.
///
/// `missing` is the first address (AVMA) of a word that was asked for and of which no window
/// tells, if there is one. Who can read that word adds a window that has it, or an empty window
/// where it can't be read, and calls again with the registers of before. Where no word is missing,
/// the windows decide: the step is the same over each stack that has what they tell, and a word that
/// could not be read is one of which a window tells.
#[inline(always)]
pub fn step_over<U: Unwinder>(
    unwinder: &U,
    cache: &mut U::Cache,
    address: FrameAddress,
    regs: &mut U::UnwindRegs,
    windows: &[Window<'_>],
    missing: &mut Option<u64>,
) -> Result<Option<u64>, Error>
    ensures kept { MatchResult result
        (λ answer. IfNone answer (regs.new ≡ regs.old))
        (λ _. regs.new ≡ regs.old) }
    ensures missing { IfSome missing.new (λ asked. told_in windows.now asked ≡ None) }
    ensures unreadable { missing.new ≡ None → IfSome (unreadable_word result) (λ address. told_in windows.now address ≢ None) }
    ensures may_run_out { result ≡ Err Error.OutOfMemory → U.may_run_out unwinder.now cache.old (location_of address) }
    ensures cached { result ≢ Err Error.OutOfMemory → cache.new ≡ U.cache_after unwinder.now cache.old (location_of address) }
    ensures not_cached { result ≡ Err Error.OutOfMemory → cache.new ≡ U.cache_after_lookup unwinder.now cache.old (location_of address) }
    ensures stays_sound { (other : UnwinderView) → AreApart (U.unwinder_view unwinder.now) other
        → U.is_sound other cache.old → U.is_sound other cache.new }
    ensures answers { U.is_sound (U.unwinder_view unwinder.now) cache.old → result ≢ Err Error.OutOfMemory →
        (memory : Memory) → IsReadAs windows.now (is_some missing.new) memory →
        let stepping = U.step unwinder.now (location_of address) regs.old memory in
        (result ≡ answer_of stepping) × (regs.new ≡ registers_after regs.old stepping) }
{
    let mut first_missing: Option<u64> = None;
    let mut read_stack = |address: u64| -> Result<u64, ()>
        ensures reads { result ≡ reply (words_in windows.entry.now address) }
        ensures notes { first_missing.exit ≡ noted windows.entry.now first_missing.entry address }
    { read_noting(windows, &mut first_missing, address) };
    let answer = unwinder.unwind_frame(address, regs, cache, &mut read_stack);
    *missing = match (first_missing, answer) {
        (None, Ok(_)) => None,
        _ => missing_word(windows, first_missing, answer),
    };
    answer
}

/// Returns the word of windows at an address (AVMA). The first address of which they tell nothing is noted.
#[inline(always)]
pub(crate) fn read_noting(
    windows: &[Window<'_>],
    first_missing: &mut Option<u64>,
    address: u64,
) -> Result<u64, ()>
    ensures reads { result ≡ reply (words_in windows.now address) }
    ensures notes { first_missing.new ≡ noted windows.now first_missing.old address }
{
    if let Some(window) = windows.first() {
        // most words are in the first one, and are read at once
        if let Ok(word) = word_at(window.base, window.words, address) {
            return Ok(word);
        }
    }
    look_up(windows, first_missing, address)
}

/// Returns what the windows tell of an address (AVMA). The first one of which they tell nothing is noted.
#[inline(never)]
pub(crate) fn look_up(
    windows: &[Window<'_>],
    first_missing: &mut Option<u64>,
    address: u64,
) -> Result<u64, ()>
    ensures reads { result ≡ reply (words_in windows.now address) }
    ensures notes { first_missing.new ≡ noted windows.now first_missing.old address }
{
    match told(windows, address) {
        Some(word) => word,
        None => {
            *first_missing = first_missing.or(Some(address));
            Err(())
        }
    }
}

/// Returns the first word (AVMA) that was asked for and of which no window tells, if there is one.
#[inline(never)]
pub(crate) fn missing_word(
    windows: &[Window<'_>],
    first_missing: Option<u64>,
    answer: Result<Option<u64>, Error>,
) -> Option<u64>
    ensures missing { IfSome result (λ asked. told_in windows.now asked ≡ None) }
    ensures none { result ≡ None → IfSome first_missing (λ address. told_in windows.now address ≢ None) }
    ensures unreadable { result ≡ None → IfSome (unreadable_word answer) (λ address. told_in windows.now address ≢ None) }
{
    untold(windows, first_missing).or(untold(windows, unreadable(answer)))
}

/// Returns the address (AVMA), if there is one and no window tells of it.
fn untold(windows: &[Window<'_>], asked: Option<u64>) -> Option<u64>
    ensures some { IfSome result (λ address. told_in windows.now address ≡ None) }
    ensures none { result ≡ None → IfSome asked (λ address. told_in windows.now address ≢ None) }
{
    let address = asked?;
    if told(windows, address).is_some() {
        return None;
    }
    Some(address)
}

/// Returns the address (AVMA) of the stack word that a step could not read, if that is why it was refused.
pub(crate) fn unreadable(answer: Result<Option<u64>, Error>) -> Option<u64>
    ensures { result ≡ unreadable_word answer }
{
    match answer {
        Err(Error::CouldNotReadStack(address)) => Some(address),
        _ => None,
    }
}
