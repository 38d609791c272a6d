//! Stack words that a caller lends.
ghost use Rattle.std.specs.Prelude.{◌≡◌, option_map};
ghost use Rattle.framehop.specs.Memory.{reply};
ghost use Rattle.framehop_lent.specs.Window.{words_from, told_by, told_in};

/// Stack words that are lent: word `i` is at the address (AVMA) `base + 8 * i`. An empty window
/// tells that the word at its base can't be read.
#[repr(C)]
#[derive(Clone, Copy)]
pub struct Window<'a> {
    pub base: u64,
    pub words: &'a [u64],
}

impl Window<'_> {
    /// Returns what the window tells of an address (AVMA): its word there, or that it can't be read, or
    /// nothing (`None`).
    #[inline(always)]
    pub fn told(&self, address: u64) -> Option<Result<u64, ()>>
        ensures { result ≡ option_map reply (told_by self.now address) }
    {
        if self.words.is_empty() {
            return if address == self.base {
                Some(Err(()))
            } else {
                None
            };
        }
        match word_at(self.base, self.words, address) {
            Ok(word) => Some(Ok(word)),
            Err(()) => None,
        }
    }
}

/// Returns the stack word at an address (AVMA), where word `i` is at `base + 8 * i`, and no other address
/// can be read.
#[inline(always)]
pub fn word_at(base: u64, words: &[u64], address: u64) -> Result<u64, ()>
    ensures { result ≡ reply (words_from base words.now address) }
{
    let Some(offset) = address.checked_sub(base) else {
        return Err(());
    };
    if offset % 8 != 0 {
        return Err(());
    }
    words.get((offset / 8) as usize).copied().ok_or(())
}

/// Returns what the first window that tells of an address (AVMA) tells of it, or `None` if none does.
pub fn told(windows: &[Window<'_>], address: u64) -> Option<Result<u64, ()>>
    ensures { result ≡ option_map reply (told_in windows.now address) }
{
    for window in windows {
        let word = window.told(address);
        if word.is_some() {
            return word;
        }
    }
    None
}
