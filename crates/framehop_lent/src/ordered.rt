//! Windows of which one is looked into first, that in which the words of a step are expected.
//!
//! Frames lie one above the other. In windows that lie in order at most one tells of an address: whichever has the word, it is
//! the first one that tells of it.
ghost use Rattle.std.specs.Prelude.{◌≡◌, ℕ, ◌<◌, length, Some, IfSome};
ghost use Rattle.framehop.specs.Memory.{reply};
ghost use Rattle.framehop_lent.specs.Window.{words_from, told_in, words_in, noted, in_order};

use crate::step::look_up;
use crate::window::{Window, word_at};

/// Windows, and whether they lie in order.
#[derive(Clone, Copy)]
pub(crate) struct Ordered<'a> {
    pub(crate) windows: &'a [Window<'a>],
    pub(crate) is_in_order: bool,
    ghost order: { is_in_order ≡ in_order windows.now },
}

/// Windows, and the base and the words of one of them.
#[derive(Clone, Copy)]
pub(crate) struct Near<'a> {
    pub(crate) windows: &'a [Window<'a>],
    pub(crate) base: u64,
    pub(crate) words: &'a [u64],
    ghost told: { (address word : ℕ) → words_from base words.now address ≡ Some word
        → told_in windows.now address ≡ Some (Some word) },
}

impl<'a> Ordered<'a> {
    /// Returns the windows, with whether they lie in order.
    pub(crate) fn new(windows: &'a [Window<'a>]) -> Ordered<'a>
        ensures { result.windows.now ≡ windows.now }
    {
        Ordered {
            windows,
            is_in_order: are_in_order(windows),
        }
    }

    /// Returns the windows with that of this number, or with no words where they don't lie in order or there is none.
    #[inline(always)]
    pub(crate) fn near(&self, number: usize) -> Near<'a>
        ensures { result.windows.now ≡ self.now.windows.now }
    {
        if self.is_in_order {
            if let Some(window) = self.windows.get(number) {
                return Near {
                    windows: self.windows,
                    base: window.base,
                    words: window.words,
                };
            }
        }
        Near {
            windows: self.windows,
            base: 0,
            words: &[],
        }
    }

    /// Puts the window of this number in the place of another one, unless the stride between them is 0.
    #[inline(always)]
    pub(crate) fn move_by(&self, near: &mut Near<'a>, number: usize, stride: usize)
        ensures { near.old.windows.now ≡ self.now.windows.now → near.new.windows.now ≡ self.now.windows.now }
    {
        if stride != 0 {
            *near = self.near(number);
        }
    }
}

impl Near<'_> {
    /// Returns the word of the windows at an address (AVMA). The first address of which they tell nothing is noted. Where
    /// another window has the word, `number` becomes the number of that one.
    #[inline(always)]
    pub(crate) fn read(
        &self,
        number: &mut usize,
        first_missing: &mut Option<u64>,
        address: u64,
    ) -> Result<u64, ()>
        ensures reads { result ≡ reply (words_in self.now.windows.now address) }
        ensures notes { first_missing.new ≡ noted self.now.windows.now first_missing.old address }
    {
        match word_at(self.base, self.words, address) {
            Ok(word) => Ok(word),
            Err(()) => look_up_near(self.windows, number, first_missing, address),
        }
    }
}

/// Returns what the windows tell of an address (AVMA). The first one of which they tell nothing is noted. `number` becomes that
/// of the window that has the word, if there is one.
#[inline(never)]
fn look_up_near(
    windows: &[Window<'_>],
    number: &mut usize,
    first_missing: &mut Option<u64>,
    address: u64,
) -> Result<u64, ()>
    ensures reads { result ≡ reply (words_in windows.now address) }
    ensures notes { first_missing.new ≡ noted windows.now first_missing.old address }
{
    if let Some(found) = number_of(windows, address) {
        *number = found;
    }
    look_up(windows, first_missing, address)
}

/// Returns the number of a window that has the word at an address (AVMA), if there is one.
fn number_of(windows: &[Window<'_>], address: u64) -> Option<usize>
    ensures { IfSome result (λ number. number < length windows.now) }
{
    for i in 0..windows.len() {
        if word_at(windows[i].base, windows[i].words, address).is_ok() {
            return Some(i);
        }
    }
    None
}

/// Returns whether each window lies above all that the one before it tells of.
fn are_in_order(windows: &[Window<'_>]) -> bool
    ensures { result ≡ in_order windows.now }
{
    let mut end = 0u128;
    for window in windows {
        if u128::from(window.base) < end {
            return false;
        }
        end = u128::from(window.base) + (window.words.len() as u128 * 8).max(1);
    }
    true
}
