//! Commands of a session, and the replies to them.
ghost use Rattle.std.specs.Prelude.{◌≡◌};

use crate::unwinder::Module;
use crate::walk::{WalkEnd, Words};
use framehop_bytes::section::SectionBytes;
use framehop_cache::rule_cache::CacheStats;
use framehop_core::{Error, FrameAddress};
use std::alloc::AllocError;

/// The stack words of a step or a walk: word `i` is at the address (AVMA) `base + 8 * i`, and
/// no other address can be read.
#[derive(Drop)]
pub struct Memory {
    pub base: u64,
    pub words: Vec<u64>,
}

impl Words for Memory {
    ghost use Rattle.framehop.specs.World.{memory_of};

    ghost memory = { memory_of };

    fn read(&self, address: u64) -> Result<u64, ()> {
        if address < self.base {
            return Err(());
        }
        let offset = address - self.base;
        if offset % 8 != 0 {
            return Err(());
        }
        self.words.get((offset / 8) as usize).copied().ok_or(())
    }
}

/// A command of a session. Unwinders are numbered from 0, in the order in which they are made.
#[derive(Drop)]
pub enum Command<D: SectionBytes, R> {
    /// Makes an unwinder without modules.
    New,

    /// Makes a clone of an unwinder.
    Clone {
        unwinder: usize,
    },

    /// Adds a module to an unwinder.
    Add {
        unwinder: usize,
        module: Module<D>,
    },

    /// Removes the newest module of an unwinder that starts at the address (AVMA), if there is one.
    Remove {
        unwinder: usize,
        start: u64,
    },

    /// Unwinds a single frame.
    Step {
        unwinder: usize,
        cache: usize,
        address: FrameAddress,
        regs: R,
        memory: Memory,
    },

    /// Walks a stack from an instruction pointer (AVMA) and initial registers on, by at most
    /// `limit` frames.
    Walk {
        unwinder: usize,
        cache: usize,
        pc: u64,
        regs: R,
        memory: Memory,
        limit: u32,
    },

    /// Tells the counts of a cache.
    Stats {
        cache: usize,
    },
}

/// The reply to a command.
#[derive(Drop)]
pub enum Reply<R> {
    /// The number of the unwinder that was made.
    Made(usize),

    /// The command was carried out.
    Done,

    /// What a step returned, and the registers after it.
    Step {
        result: Result<Option<u64>, Error>,
        regs: R,
    },

    /// The frames of a walk, how it ended, and the registers there.
    Walk {
        frames: Vec<FrameAddress>,
        end: WalkEnd,
        regs: R,
    },

    /// The counts of a cache.
    Stats(CacheStats),
}

/// Why a session was refused.
#[derive(Clone, Copy, Debug, PartialEq, Eq, thiserror::Error)]
pub enum SessionError {
    /// An allocation failed.
    #[error("Out of memory")]
    OutOfMemory,

    /// A command names an unwinder that was not made.
    #[error("No such unwinder")]
    NoSuchUnwinder,

    /// A command names a cache that the session does not have.
    #[error("No such cache")]
    NoSuchCache,

    /// The counter of generations is at its end.
    #[error("Generations exhausted")]
    GenerationsExhausted,
}

impl From<AllocError> for SessionError {
    ghost use Rattle.framehop.specs.declared.session.commands.SessionError.{SessionError};

    ghost from_gives = { λ _ error. error ≡ SessionError.OutOfMemory };

    fn from(_error: AllocError) -> Self {
        SessionError::OutOfMemory
    }
}
