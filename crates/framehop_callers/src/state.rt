//! What a run knows between two instructions.
ghost use Rattle.std.specs.Prelude.{◌≡◌, ◌<◌, None, option_map, if◌then◌else◌};
ghost use Rattle.framehop_callers.specs.RegisterFile.{with_word};
ghost use Rattle.framehop_callers.specs.Run.{start};
ghost use Rattle.framehop_callers.specs.State.{sum, bytes_of, low, sign_extended, computed, computed_of, base_of, index_of, start_of, sum_of, address_of, place_of, number_at, operand_of, value_of, left_by, with_register, with_bytes, put, pushed, raised_by, word_at, popped, leaving, is_in, forgotten_below, forgotten};

use crate::calls::Calls;
use crate::known::Writes;
use crate::memory::WordMemory;
use crate::register_file::RegisterFile;
use framehop_cfi::rule::Register;
use framehop_cfi::x86_64::{RBP, RSP};
use framehop_code::action::{
    Address, Computation, Index, Operand, Place, Registers, Source, Width,
};

/// What a run knows between two instructions.
#[derive(Drop)]
pub struct State {
    /// The address of the next instruction (AVMA).
    pub address: u64,
    /// The registers by their DWARF columns.
    pub registers: RegisterFile,
    /// What the run has written to memory.
    pub writes: Writes,
    /// The calls that the run has entered and not returned from.
    pub calls: Calls,
    /// The addresses (AVMA) after the calls that it has entered and to which it has not returned.
    pub after_calls: Calls,
    /// The address after the highest conditional jump that the run has taken back, or has met (AVMA), or 0.
    pub looped: u64,
}

impl State {
    /// Returns where a run begins: at an address (AVMA), with these registers.
    pub(crate) fn new(address: u64, registers: &RegisterFile) -> Self
        ensures { result ≡ start address registers.now }
    {
        State {
            address,
            registers: *registers,
            writes: Writes::new(),
            calls: Calls::new(),
            after_calls: Calls::new(),
            looped: 0,
        }
    }

    /// Returns a copy.
    pub(crate) fn copied(&self) -> Self
        ensures { result ≡ self.now }
    {
        State {
            address: self.address,
            registers: self.registers,
            writes: self.writes.copied(),
            calls: self.calls.copied(),
            after_calls: self.after_calls.copied(),
            looped: self.looped,
        }
    }

    /// Returns the value of a source, if it is known. `next` is the address of the next instruction (AVMA).
    pub(crate) fn value_of<M: WordMemory>(
        &self,
        memory: &M,
        next: u64,
        width: Width,
        from: Source,
    ) -> Option<u64>
        ensures { result ≡ value_of (M.memory memory.now) self.now next width from }
    {
        match from {
            Source::Operand(operand) => self.operand_of(memory, next, width, operand),
            Source::SignExtended(operand) => {
                let number = self.operand_of(memory, next, Width::Four, operand)?;
                Some(low(width, sign_extended(number)))
            }
            Source::Immediate(number) => Some(low(width, number)),
            Source::Address(address) => Some(low(width, self.address_of(next, address)?)),
            Source::Unknown => None,
        }
    }

    /// Returns the value of an operand, if it is known.
    pub(crate) fn operand_of<M: WordMemory>(
        &self,
        memory: &M,
        next: u64,
        width: Width,
        operand: Operand,
    ) -> Option<u64>
        ensures { result ≡ operand_of (M.memory memory.now) self.now next width operand }
    {
        match operand {
            Operand::Register(register) => Some(low(width, self.registers.get(register)?)),
            Operand::Memory(place) => self.number_at(memory, width, self.place_of(next, place)),
        }
    }

    /// Returns the number at an address (AVMA), if both are known.
    fn number_at<M: WordMemory>(
        &self,
        memory: &M,
        width: Width,
        address: Option<u64>,
    ) -> Option<u64>
        ensures { result ≡ number_at (M.memory memory.now) self.now width address }
    {
        match address {
            Some(address) => self.writes.load(memory, address, bytes_of(width)),
            None => None,
        }
    }

    /// Returns the word at the address (AVMA) that a register has, if both are known.
    pub(crate) fn word_at<M: WordMemory>(&self, memory: &M, register: Register) -> Option<u64>
        ensures { result ≡ word_at (M.memory memory.now) self.now register }
    {
        self.number_at(memory, Width::Eight, self.registers.get(register))
    }

    /// Returns the address (AVMA) of a place, if it is known.
    pub(crate) fn place_of(&self, next: u64, place: Place) -> Option<u64>
        ensures { result ≡ place_of self.now next place }
    {
        match place {
            Place::At(address) => self.address_of(next, address),
            Place::Elsewhere => None,
        }
    }

    /// Returns an address (AVMA), if its registers are known.
    pub(crate) fn address_of(&self, next: u64, address: Address) -> Option<u64>
        ensures { result ≡ address_of self.now next address }
    {
        let base = self.base_of(address.base);
        let index = self.index_of(address.index);
        let start = if address.from_next { next } else { 0 };
        sum_of(base, index, address.displacement, start)
    }

    /// Returns what a base register adds to an address.
    fn base_of(&self, base: Option<Register>) -> Option<u64>
        ensures { result ≡ base_of self.now base }
    {
        match base {
            Some(register) => self.registers.get(register),
            None => Some(0),
        }
    }

    /// Returns what an index register adds to an address.
    fn index_of(&self, index: Option<Index>) -> Option<u64>
        ensures { result ≡ index_of self.now index }
    {
        match index {
            Some(index) => {
                let word = self.registers.get(index.register)?;
                Some(word.wrapping_mul(u64::from(index.scale)))
            }
            None => Some(0),
        }
    }

    /// Gives an operand a value. Returns `false` where the run can't keep more writes.
    pub(crate) fn put(&mut self, next: u64, width: Width, to: Operand, value: Option<u64>) -> bool
        ensures { left_by result self.new ≡ put self.old next width to value }
    {
        match to {
            Operand::Register(register) => {
                self.registers.set(register, value);
                true
            }
            Operand::Memory(place) => {
                let address = self.place_of(next, place);
                self.store(address, bytes_of(width), value)
            }
        }
    }

    /// Writes so many bytes, where their address (AVMA) is known. Returns `false` where the run can't keep more writes.
    pub(crate) fn store(&mut self, address: Option<u64>, bytes: u64, value: Option<u64>) -> bool
        ensures { left_by result self.new ≡ with_bytes self.old address bytes value }
    {
        match address {
            Some(address) => self.writes.store(address, bytes, value),
            None => true,
        }
    }

    /// Pushes a value. Returns `false` where the stack pointer isn't known, or the run can't keep more writes.
    pub(crate) fn push(&mut self, value: Option<u64>) -> bool
        ensures { left_by result self.new ≡ pushed self.old value }
    {
        let Some(sp) = self.registers.get(RSP) else {
            return false;
        };
        let slot = sp.wrapping_sub(8);
        if !self.store(Some(slot), 8, value) {
            return false;
        }
        self.registers.set(RSP, Some(slot));
        true
    }

    /// Pops a word into an operand. Returns `false` where the run can't keep more writes.
    pub(crate) fn pop<M: WordMemory>(&mut self, memory: &M, next: u64, to: Operand) -> bool
        ensures { left_by result self.new ≡ popped (M.memory memory.now) self.old next to }
    {
        let word = self.word_at(memory, RSP);
        self.raise(8);
        self.put(next, Width::Eight, to, word)
    }

    /// Adds so many bytes to the stack pointer.
    pub(crate) fn raise(&mut self, bytes: u64)
        ensures { self.new ≡ raised_by self.old bytes }
    {
        let sp = raised(self.registers.get(RSP), bytes);
        self.registers.set(RSP, sp);
    }

    /// LEAVE.
    pub(crate) fn leave<M: WordMemory>(&mut self, memory: &M)
        ensures { self.new ≡ leaving (M.memory memory.now) self.old }
    {
        let word = self.word_at(memory, RBP);
        let sp = raised(self.registers.get(RBP), 8);
        self.registers.set(RSP, sp);
        self.registers.set(RBP, word);
    }

    /// Forgets the registers of a set.
    pub(crate) fn forget(&mut self, registers: Registers)
        ensures { self.new ≡ forgotten self.old registers.0 }
    {
        forget_registers(&mut self.registers, registers);
    }
}

/// Forgets the registers of a set.
fn forget_registers(words: &mut RegisterFile, registers: Registers)
    ensures { words.new ≡ forgotten_below registers.0 32 words.old }
{
    // most instructions of vectors change none
    if registers.0 == 0 {
        return;
    }
    let mut left = 32u16;
    while left > 0 {
        left -= 1;
        forget_if(words, Register(left), is_in(registers, left));
    }
}

/// Forgets a register if a condition holds.
fn forget_if(words: &mut RegisterFile, register: Register, condition: bool)
    ensures { words.new ≡ (if condition then with_word words.old register None else words.old) }
{
    if condition {
        words.set(register, None);
    }
}

/// Returns whether the register of a column is in a set.
fn is_in(registers: Registers, column: u16) -> bool
    requires { column < 32 }
    ensures { result ≡ is_in registers.0 column }
{
    registers.0 >> column & 1 == 1
}

/// Returns a word that is so many bytes more, if it is known.
fn raised(word: Option<u64>, bytes: u64) -> Option<u64>
    ensures { result ≡ option_map (λ sp. sum sp bytes) word }
{
    match word {
        Some(sp) => Some(sp.wrapping_add(bytes)),
        None => None,
    }
}

/// Returns the sum of the parts of an address, if they are known.
fn sum_of(base: Option<u64>, index: Option<u64>, displacement: u64, start: u64) -> Option<u64>
    ensures { result ≡ sum_of base index displacement start }
{
    match (base, index) {
        (Some(base), Some(index)) => Some(
            base.wrapping_add(index)
                .wrapping_add(displacement)
                .wrapping_add(start),
        ),
        _ => None,
    }
}

/// Returns what is computed of two values, if they are known.
pub(crate) fn computed_of(
    computation: Computation,
    width: Width,
    left: Option<u64>,
    right: Option<u64>,
) -> Option<u64>
    ensures { result ≡ computed_of computation width left right }
{
    match (left, right) {
        (Some(left), Some(right)) => Some(low(width, computed(computation, left, right))),
        _ => None,
    }
}

/// Returns what is computed of two numbers.
fn computed(computation: Computation, left: u64, right: u64) -> u64
    ensures { result ≡ computed computation left right }
{
    match computation {
        Computation::Add => left.wrapping_add(right),
        Computation::Subtract => left.wrapping_sub(right),
        Computation::And => left & right,
        Computation::Or => left | right,
        Computation::ExclusiveOr => left ^ right,
    }
}

/// Returns how many bytes a width has.
fn bytes_of(width: Width) -> u64
    ensures { result ≡ bytes_of width }
{
    match width {
        Width::Four => 4,
        Width::Eight => 8,
    }
}

/// Returns the number that the low bytes of a word are.
fn low(width: Width, word: u64) -> u64
    ensures { result ≡ low width word }
{
    match width {
        Width::Four => word % 0x1_0000_0000,
        Width::Eight => word,
    }
}

/// Returns a number of four bytes with its sign extended to eight.
fn sign_extended(number: u64) -> u64
    ensures { result ≡ sign_extended number }
{
    if number < 0x8000_0000 {
        return number;
    }
    number.wrapping_add(0xffff_ffff_0000_0000)
}
