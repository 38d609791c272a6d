//! Why a change of the processes is refused.
ghost use Rattle.std.specs.Prelude.{◌≡◌};

use framehop::ModuleListError;
use std::alloc::AllocError;
use thiserror::Error;

/// Why a change of the processes is refused. Nothing has changed then, except that generations may
/// have been drawn.
#[derive(Clone, Copy, Debug, Error)]
pub enum ProcessesError {
    /// The mapping has no address: its end does not lie above its start.
    #[error("a mapping without an address")]
    EmptyMapping,
    /// An allocation failed.
    #[error("out of memory")]
    OutOfMemory,
    /// The counter of generations is at its end.
    #[error("no generation is left")]
    GenerationsExhausted,
}

impl From<AllocError> for ProcessesError {
    ghost use Rattle.framehop_processes.specs.declared.error.ProcessesError.{ProcessesError};

    ghost from_gives = { λ value error. error ≡ ProcessesError.OutOfMemory };

    fn from(_value: AllocError) -> Self {
        ProcessesError::OutOfMemory
    }
}

impl From<ModuleListError> for ProcessesError {
    ghost use Rattle.framehop_processes.specs.Refusal.{refusal_of};

    ghost from_gives = { λ value error. error ≡ refusal_of value };

    fn from(value: ModuleListError) -> Self {
        match value {
            ModuleListError::OutOfMemory => ProcessesError::OutOfMemory,
            ModuleListError::GenerationsExhausted => ProcessesError::GenerationsExhausted,
        }
    }
}
