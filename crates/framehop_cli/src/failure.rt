//! How a run of a program fails.
ghost use Rattle.std.specs.Prelude.{◌≡◌};
ghost use Rattle.framehop_cli.specs.Status.{status_of};

use std::alloc::{AllocError, AllocFailed};
use std::io;
use std::io::{ErrorKind, Write};
use std::process::ExitCode;
use thiserror::Error;

/// What a step of a program gives, or why the run ends.
pub type Result<T, E = Failure> = std::result::Result<T, E>;

/// Why a run of a program ends before it has done what it was asked for.
#[derive(Debug, Drop, Error)]
pub enum Failure {
    /// An allocation failed.
    #[error("out of memory")]
    OutOfMemory,
    /// A file, the output or the arguments can't be read or written.
    #[error("{0}")]
    Io(io::Error),
}

/// Returns the exit code of a program's run. Where the run failed, says why, in a line after the program's name; a line that
/// can't be written is lost.
pub fn exit_code(rt: &HostRuntime, program: &str, run: Result<u8>) -> ExitCode {
    match run {
        Ok(status) => ExitCode::from(status),
        Err(failure) => {
            let _written = writeln!(rt.stderr(), "{program}: {failure}");
            ExitCode::from(failure.status())
        }
    }
}

impl Failure {
    /// Returns the status with which the program ends: 2 where memory ran out, else 1.
    pub fn status(&self) -> u8
        ensures { result ≡ status_of self.now }
    {
        match self {
            Failure::OutOfMemory => 2,
            Failure::Io(_) => 1,
        }
    }
}

impl From<AllocError> for Failure {
    ghost use Rattle.framehop_cli.specs.declared.failure.Failure.{Failure};

    ghost from_gives = { λ value failure. failure ≡ Failure.OutOfMemory };

    fn from(_error: AllocError) -> Self {
        Failure::OutOfMemory
    }
}

impl<T: Drop> From<AllocFailed<T>> for Failure {
    ghost use Rattle.framehop_cli.specs.declared.failure.Failure.{Failure};

    ghost from_gives = { λ value failure. failure ≡ Failure.OutOfMemory };

    fn from(_error: AllocFailed<T>) -> Self {
        Failure::OutOfMemory
    }
}

impl From<io::Error> for Failure {
    ghost use Rattle.framehop_cli.specs.Status.{IsFailureOf};

    ghost from_gives = { IsFailureOf };

    fn from(error: io::Error) -> Self {
        if error.kind() == ErrorKind::OutOfMemory {
            Failure::OutOfMemory
        } else {
            Failure::Io(error)
        }
    }
}
