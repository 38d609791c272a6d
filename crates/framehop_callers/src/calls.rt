//! The calls that a run has entered.
ghost use Rattle.std.specs.Prelude.{◌≡◌, ◌==◌, [], nat_le, not};
ghost use Rattle.std.specs.List.{filter, list_any};
ghost use Rattle.framehop_callers.specs.Calls.{is_none, opened, has, noted, without, left_by};

use arrayvec::ArrayVec;
use std::marker::Model;

/// Addresses (AVMA) of calls that a run has entered, the first first: of the words on the stack that have their return
/// addresses, of those that it has not returned from; or the return addresses, of those to which it has not returned.
#[derive(Drop)]
pub struct Calls {
    words: ArrayVec<u64, 8>,
}

impl Model for Calls {
    ghost use Rattle.std.specs.Prelude.{ℕ, List};

    ghost Value = { List ℕ };

    ghost view = { λ calls. calls.words.items };
}

impl Calls {
    /// Returns no calls.
    pub(crate) fn new() -> Self
        ensures { result ≡ [] }
    {
        Calls {
            words: ArrayVec::new(),
        }
    }

    /// Returns the same calls.
    pub(crate) fn copied(&self) -> Self
        ensures { result ≡ self.now }
    {
        let mut words = ArrayVec::new();
        let _fits = words.try_extend_from_slice(self.words.as_slice()).is_ok();
        Calls { words }
    }

    /// Returns whether no call is open.
    pub(crate) fn is_none(&self) -> bool
        ensures { result ≡ is_none self.now }
    {
        self.words.as_slice().is_empty()
    }

    /// Opens a call whose return address is at an address of the stack (AVMA). Returns `false` where eight are open.
    pub(crate) fn open(&mut self, word: u64) -> bool
        ensures { left_by result self.new ≡ opened self.old word }
    {
        if self.words.is_full() {
            return false;
        }
        self.words.push(word);
        true
    }

    /// Returns whether an address (AVMA) is one of these.
    pub(crate) fn has(&self, address: u64) -> bool
        ensures { result ≡ has self.now address }
    {
        self.words.as_slice().iter().any(|word| *word == address)
    }

    /// Adds an address (AVMA), once. Returns `false` where there are eight others.
    pub(crate) fn note(&mut self, address: u64) -> bool
        ensures { left_by result self.new ≡ noted self.old address }
    {
        if self.has(address) {
            return true;
        }
        self.open(address)
    }

    /// Drops an address (AVMA).
    pub(crate) fn forget(&mut self, address: u64)
        ensures { self.new ≡ without self.old address }
    {
        drop_address(&mut self.words, address);
    }

    /// Closes the calls whose return address is below the stack pointer (AVMA): it has been taken from the stack.
    pub(crate) fn close_below(&mut self, sp: u64)
        ensures { self.new ≡ filter (λ word. nat_le sp word) self.old }
    {
        close_below(&mut self.words, sp);
    }
}

/// Drops the addresses (AVMA) below one.
fn close_below(words: &mut ArrayVec<u64, 8>, sp: u64)
    ensures { words.new.items ≡ filter (λ word. nat_le sp word) words.old.items }
{
    words.retain(|word| sp <= *word);
}

/// Drops an address (AVMA).
fn drop_address(words: &mut ArrayVec<u64, 8>, address: u64)
    ensures { words.new.items ≡ filter (λ word. not (word == address)) words.old.items }
{
    words.retain(|word| *word != address);
}
