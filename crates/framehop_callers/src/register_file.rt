//! The registers of a frame by their DWARF columns, each known or not.
ghost use Rattle.std.specs.Prelude.{◌≡◌};
ghost use Rattle.framehop_callers.specs.RegisterFile.{word_of, with_word, unknown};

use framehop_cfi::rule::Register;
use framehop_dwarf::evaluation::DwarfUnwindRegs;
use std::marker::Model;

/// The registers of a frame: a word, or none where it isn't known, for each of the columns 0 to 32.
///
/// On x86_64 columns 0 to 15 are rax, rdx, rcx, rbx, rsi, rdi, rbp, rsp and r8 to r15, and 16 is rip (System V ABI for
/// AMD64, figure 3.36). On aarch64 0 to 30 are x0 to x30, 31 is sp and 32 is pc (DWARF for the Arm 64-bit Architecture,
/// section 4.1).
#[derive(Clone, Copy)]
pub struct RegisterFile {
    words: [Option<u64>; 33],
}

impl Model for RegisterFile {
    ghost use Rattle.std.specs.Prelude.{◌≡◌, length, ℕ, List, Option};
    ghost use Rattle.std.proofs.Common.{refl};

    ghost Value = { List (Option ℕ) };

    ghost view = { λ file. file.words };

    ghost invariant = { λ file. length file.words ≡ 33 };

    ghost inverse = { λ words. record { words = words } };

    ghost inverse_ok = { λ words within. refl };
}

impl RegisterFile {
    /// Returns a file of which no register is known.
    pub fn new() -> Self
        ensures { result ≡ unknown }
    {
        RegisterFile { words: [None; 33] }
    }

    /// Returns the value of a register, or `None` where it isn't known or has no column.
    pub fn get(&self, register: Register) -> Option<u64>
        ensures { result ≡ word_of self.now register }
    {
        match self.words.get(usize::from(register.0)) {
            Some(word) => *word,
            None => None,
        }
    }

    /// Sets a register. One without a column changes nothing.
    pub fn set(&mut self, register: Register, word: Option<u64>)
        ensures { self.new ≡ with_word self.old register word }
    {
        if register.0 < 33 {
            let place = usize::from(register.0);
            self.words[place] = word;
        }
    }
}

impl DwarfUnwindRegs for RegisterFile {
    ghost use Rattle.framehop_callers.specs.RegisterFile.{word_of};

    ghost column = { word_of };

    fn get(&self, register: Register) -> Option<u64> {
        RegisterFile::get(self, register)
    }
}
