//! Why folded stacks are not drawn.
ghost use Rattle.std.specs.Prelude.{◌≡◌};

use std::alloc::{AllocError, AllocFailed};
use thiserror::Error;

/// Why folded stacks are not drawn.
#[derive(Clone, Copy, Debug, Error)]
pub enum FlameGraphError {
    /// The counts of all stacks add up to 2^64 or more.
    #[error("the counts add up to 2^64 or more")]
    TotalTooLarge,
    /// There is no stack with a count above zero.
    #[error("nothing was counted")]
    NothingCounted,
    /// An allocation failed.
    #[error("out of memory")]
    OutOfMemory,
}

impl From<AllocError> for FlameGraphError {
    ghost use Rattle.framehop_folded.specs.declared.flame_graph.error.FlameGraphError.{FlameGraphError};

    ghost from_gives = { λ value error. error ≡ FlameGraphError.OutOfMemory };

    fn from(_value: AllocError) -> Self {
        FlameGraphError::OutOfMemory
    }
}

impl<T: Drop> From<AllocFailed<T>> for FlameGraphError {
    ghost use Rattle.framehop_folded.specs.declared.flame_graph.error.FlameGraphError.{FlameGraphError};

    ghost from_gives = { λ value error. error ≡ FlameGraphError.OutOfMemory };

    fn from(_value: AllocFailed<T>) -> Self {
        FlameGraphError::OutOfMemory
    }
}
