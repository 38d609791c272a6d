//! Instructions that are kept, by their bytes.
ghost use Rattle.std.specs.Prelude.{◌≡◌, Some, IfSome};
ghost use Rattle.framehop_code.specs.X86_64.Action.{action_at};

use super::action::action_at;
use crate::action::Instruction;
use framehop_bytes::bytes::u64_at;
use std::alloc::{AllocError, Global};
use std::cell::RefCell;
use std::marker::Model;

/// The size of the longest instruction, in bytes.
const LONGEST: usize = 15;

/// How many instructions are kept at most.
const FEW: usize = 0x1000;

/// The same of large code.
const MANY: usize = 0x1_0000;

/// An odd number whose multiples differ in their high bits: 2^64 by the golden ratio.
const SPREAD: u64 = 0x9e37_79b9_7f4a_7c15;

/// An instruction that was read, and the bytes from it on.
#[derive(Clone, Copy)]
struct KeptInstruction {
    code: [u8; LONGEST],
    instruction: Instruction,
}

impl Model for KeptInstruction {
    ghost use Rattle.std.specs.Prelude.{ℕ, List, Some, ◌≡◌};
    ghost use Rattle.framehop_code.specs.X86_64.Action.{action_at};
    ghost use Rattle.framehop_code.specs.declared.action.Instruction.{Instruction};

    ghost Value = { List ℕ × Instruction };

    ghost view = { λ kept. (kept.code, kept.instruction) };

    ghost invariant = { λ kept. action_at kept.code 0 ≡ Some kept.instruction };

    ghost inverse = { λ kept. record { code = kept.0; instruction = kept.1 } };
}

impl KeptInstruction {
    /// Returns the instruction at the front of code, if it was read of the same bytes.
    fn of(&self, code: &[u8; LONGEST]) -> Option<Instruction>
        ensures { IfSome result (λ instruction. action_at code.now 0 ≡ Some instruction) }
    {
        if self.code == *code {
            Some(self.instruction)
        } else {
            None
        }
    }
}

/// Instructions that were read. They are told by their bytes alone, so that what is kept is right for any code, also where
/// other code is mapped at an address. A run of code meets most of its instructions many times.
#[derive(Drop)]
pub struct KeptInstructions {
    /// A borrow ends where it begins: none fails.
    kept: RefCell<Kept>,
}

impl KeptInstructions {
    /// Returns no instructions, with room for 4,096.
    pub fn new(alloc: Global) -> Result<Self, AllocError> {
        Ok(KeptInstructions {
            kept: RefCell::new(Kept::new(alloc, FEW)?),
        })
    }

    /// Makes room for the instructions of large code, 65,536, unless it is there. What was kept goes.
    pub fn enlarge(&self, alloc: Global) -> Result<(), AllocError> {
        if self.is_large() {
            return Ok(());
        }
        let room = Kept::new(alloc, MANY)?;
        if let Ok(mut kept) = self.kept.try_borrow_mut() {
            *kept = room;
        }
        Ok(())
    }

    /// Returns whether there is room for the instructions of large code.
    fn is_large(&self) -> bool {
        match self.kept.try_borrow() {
            Ok(kept) => kept.places.len() >= MANY,
            Err(_) => false,
        }
    }

    /// Returns the instruction at the front of code, as [`action_at`] does.
    pub fn action_at(&self, code: &[u8]) -> Option<Instruction>
        ensures { result ≡ action_at code.now 0 }
    {
        match <&[u8; LONGEST]>::try_from(code) {
            Ok(code) => self.action_of(code),
            Err(_) => action_at(code, 0),
        }
    }

    /// Returns the same of as much code as an instruction has at most, which is kept, or else kept now.
    fn action_of(&self, code: &[u8; LONGEST]) -> Option<Instruction>
        ensures { result ≡ action_at code.now 0 }
    {
        let Ok(mut kept) = self.kept.try_borrow_mut() else {
            return action_at(code, 0);
        };
        kept.action_of(code)
    }
}

/// Instructions in the order in which they were met: mostly a run meets one after another as a run before it did, so that
/// they are read from memory in turn.
#[derive(Drop)]
struct Kept {
    list: Vec<KeptInstruction>,
    /// Where in the list the instructions are, by a hash of their bytes; as many as a power of two.
    places: Vec<usize>,
    /// The place in the list after that of the instruction that was found last.
    next: usize,
    /// The place in the list of the instruction that goes next, once the list is full.
    oldest: usize,
}

impl Kept {
    /// Returns no instructions, with room for so many, a power of two.
    fn new(alloc: Global, count: usize) -> Result<Self, AllocError> {
        let mut places = Vec::with_capacity(alloc, count)?;
        for _ in 0..count {
            places.push(0)?;
        }
        Ok(Kept {
            list: Vec::with_capacity(alloc, count)?,
            places,
            next: 0,
            oldest: 0,
        })
    }

    /// Returns the instruction at the front of code, which is kept, or else kept now.
    fn action_of(&mut self, code: &[u8; LONGEST]) -> Option<Instruction>
        ensures { result ≡ action_at code.now 0 }
    {
        if let Some(instruction) = self.found_at(self.next, code) {
            return Some(instruction);
        }
        let hash = place_of(code, self.places.len());
        if let Some(instruction) = self.found_at(self.place_at(hash), code) {
            return Some(instruction);
        }
        let instruction = action_at(code, 0)?;
        self.keep(hash, code, instruction);
        Some(instruction)
    }

    /// Returns the instruction at the front of code, if it is at a place in the list. The next one is looked for after it.
    fn found_at(&mut self, place: usize, code: &[u8; LONGEST]) -> Option<Instruction>
        ensures { IfSome result (λ instruction. action_at code.now 0 ≡ Some instruction) }
    {
        let found = self.list.get(place)?.of(code);
        if found.is_some() {
            self.next = place.saturating_add(1);
        }
        found
    }

    /// Returns the place in the list for a hash.
    fn place_at(&self, hash: usize) -> usize {
        match self.places.get(hash) {
            Some(place) => *place,
            None => 0,
        }
    }

    /// Keeps the instruction at the front of code: after the others, or in the place of the oldest.
    fn keep(&mut self, hash: usize, code: &[u8; LONGEST], instruction: Instruction)
        requires { action_at code.now 0 ≡ Some instruction }
    {
        let kept = KeptInstruction {
            code: *code,
            instruction,
        };
        let place = self.put(kept);
        if let Some(at) = self.places.get_mut(hash) {
            *at = place;
        }
        self.next = place.saturating_add(1);
    }

    /// Puts an instruction into the list, and returns its place there. No memory is taken.
    fn put(&mut self, kept: KeptInstruction) -> usize {
        let count = self.list.len();
        if count < self.list.capacity() {
            let _is_kept = self.list.push(kept).is_ok();
            return count;
        }
        let place = if self.oldest < count { self.oldest } else { 0 };
        if let Some(oldest) = self.list.get_mut(place) {
            *oldest = kept;
        }
        self.oldest = place.saturating_add(1);
        place
    }
}

/// Returns the place of code among so many, a power of two below 2^32: those of like code differ.
fn place_of(code: &[u8; LONGEST], count: usize) -> usize {
    let word = u64_at(code, 0) ^ u64_at(code, 7).rotate_left(32);
    (word.wrapping_mul(SPREAD) >> 32) as usize & count.saturating_sub(1)
}
