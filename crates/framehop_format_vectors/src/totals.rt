//! What a sweep comes to: how many steps have which end, and a digest of all that they give.
use framehop::Error;
use framehop::x86_64::{Reg, UnwindRegsX86_64};
use std::test::Fail;

/// The registers in the order in which the program prints them.
static REGISTERS: [Reg; 16] = [
    Reg::RAX,
    Reg::RDX,
    Reg::RCX,
    Reg::RBX,
    Reg::RSI,
    Reg::RDI,
    Reg::RBP,
    Reg::RSP,
    Reg::R8,
    Reg::R9,
    Reg::R10,
    Reg::R11,
    Reg::R12,
    Reg::R13,
    Reg::R14,
    Reg::R15,
];

/// How many steps return an address, are at the root and are refused, and a digest of them.
pub(crate) type Ends = ([u32; 3], u64);

/// How many steps have which end.
///
/// The digest is FNV-1a over 64-bit words: of each step a word that tells its end, the return address or the address
/// that can't be read or 0, and the registers after the step.
#[derive(Drop)]
pub(crate) struct Totals {
    answered: u32,
    roots: u32,
    refused: u32,
    digest: u64,
}

impl Totals {
    pub(crate) fn new() -> Self {
        Totals {
            answered: 0,
            roots: 0,
            refused: 0,
            digest: 0xcbf29ce484222325,
        }
    }

    /// What all steps so far come to.
    pub(crate) fn ends(&self) -> Ends {
        ([self.answered, self.roots, self.refused], self.digest)
    }

    /// Adds a word to the digest.
    fn add_word(&mut self, word: u64) {
        self.digest = (self.digest ^ word).wrapping_mul(0x100000001b3);
    }

    /// Adds the end of a step or of a rule.
    pub(crate) fn add_end(&mut self, end: Result<Option<u64>, Error>) {
        let (tag, address) = match end {
            Ok(Some(address)) => (1, address),
            Ok(None) => (2, 0),
            Err(Error::CouldNotReadStack(address)) => (3, address),
            Err(Error::FramepointerUnwindingMovedBackwards) => (4, 0),
            Err(Error::DidNotAdvance) => (5, 0),
            Err(Error::IntegerOverflow) => (6, 0),
            Err(Error::ReturnAddressIsNull) => (7, 0),
            Err(Error::OutOfMemory) => (8, 0),
        };
        match tag {
            1 => self.answered = self.answered.saturating_add(1),
            2 => self.roots = self.roots.saturating_add(1),
            _ => self.refused = self.refused.saturating_add(1),
        }
        self.add_word(tag);
        self.add_word(address);
    }

    /// Adds registers, in the order in which the program prints them.
    pub(crate) fn add_regs(&mut self, regs: &UnwindRegsX86_64) {
        self.add_word(regs.ip());
        for register in &REGISTERS {
            self.add_word(regs.get(*register));
        }
    }

    /// Adds the registers of aarch64.
    pub(crate) fn add_words(&mut self, words: [u64; 3]) {
        for word in words {
            self.add_word(word);
        }
    }
}

/// Whether the registers after a step have the return address, or are as before where there is none.
pub(crate) fn is_consistent(
    end: Result<Option<u64>, Error>,
    before: &UnwindRegsX86_64,
    after: &UnwindRegsX86_64,
) -> bool {
    match end {
        Ok(Some(address)) => after.ip() == address,
        Ok(None) | Err(_) => *after == *before,
    }
}

/// Fails a test unless this holds.
pub(crate) fn holds(is_held: bool, what: &'static str) -> Result<(), Fail> {
    if is_held {
        Ok(())
    } else {
        Err(Fail::from(what))
    }
}
