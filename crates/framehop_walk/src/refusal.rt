//! Why a run is refused: its line and its exit status.
ghost use Rattle.std.specs.Prelude.{◌≡◌, ◌++◌, Some};
ghost use Rattle.std.specs.IoError.{error_kind};
ghost use Rattle.framehop_walk.specs.Refusals.{refusal_text, refusal_status, of_session, of_kind};
ghost use Rattle.framehop_walk.specs.declared.refusal.Refusal.TheVariants.{OutOfMemory};

use framehop::session::SessionError;
use std::alloc::{AllocError, AllocFailed};
use std::{error, fmt, io};

/// Why a run of the program was refused. The text is that of its error line, after the
/// program's name.
#[derive(Clone, Copy, Debug)]
pub enum Refusal {
    /// There is more than one argument.
    Usage,

    /// The file could not be opened, or a read failed.
    CannotReadInput,

    /// A write to standard output failed, or its flush.
    CannotWriteOutput,

    /// The input is no JSON text.
    NotJson,

    /// A number of the input is no whole number of 64 bits.
    BadNumber,

    /// The first field that is missing or wrong.
    BadField(&'static str),

    /// A command names an unwinder that was not made.
    NoSuchUnwinder,

    /// A command names a cache that the input does not ask for.
    NoSuchCache,

    /// An allocation failed.
    OutOfMemory,

    /// The counter of generations is at its end.
    GenerationsExhausted,
}

impl fmt::Display for Refusal {
    ghost output = { λ refusal. Some (refusal_text refusal) };

    fn fmt<W: fmt::Write>(&self, f: &mut fmt::Formatter<W>) -> fmt::Result {
        let (text, field) = self.text();
        write!(f, "{text}{field}")
    }
}

impl error::Error for Refusal {}

impl Refusal {
    /// Returns the text of the error line, after the program's name, and the name of a field that ends it.
    #[tactic(auto, unfolding(crate::specs::Refusals::bad_field))]
    pub fn text(self) -> (&'static str, &'static str)
        ensures { refusal_text self ≡ result.0.now ++ result.1.now }
    {
        match self {
            Refusal::Usage => ("usage: framehop-walk [FILE]", ""),
            Refusal::CannotReadInput => ("cannot read input", ""),
            Refusal::CannotWriteOutput => ("cannot write output", ""),
            Refusal::NotJson => ("input refused: not JSON", ""),
            Refusal::BadNumber => ("input refused: bad number", ""),
            Refusal::BadField(name) => ("input refused: bad field ", name),
            Refusal::NoSuchUnwinder => ("input refused: no such unwinder", ""),
            Refusal::NoSuchCache => ("input refused: no such cache", ""),
            Refusal::OutOfMemory => ("out of memory", ""),
            Refusal::GenerationsExhausted => ("generations exhausted", ""),
        }
    }

    /// Returns the exit status of the refused run: 2 where the machine was too small for it, else 1.
    pub fn status(self) -> u8
        ensures { result ≡ refusal_status self }
    {
        match self {
            Refusal::OutOfMemory | Refusal::GenerationsExhausted => 2,
            _ => 1,
        }
    }
}

impl From<AllocError> for Refusal {
    ghost from_gives = { λ _ refusal. refusal ≡ OutOfMemory };

    fn from(_error: AllocError) -> Refusal {
        Refusal::OutOfMemory
    }
}

impl<T: Drop> From<AllocFailed<T>> for Refusal {
    ghost from_gives = { λ _ refusal. refusal ≡ OutOfMemory };

    fn from(_error: AllocFailed<T>) -> Refusal {
        Refusal::OutOfMemory
    }
}

impl From<io::Error> for Refusal {
    ghost from_gives = { λ error refusal. refusal ≡ of_kind (error_kind error) };

    fn from(error: io::Error) -> Refusal {
        match error.kind() {
            io::ErrorKind::OutOfMemory => Refusal::OutOfMemory,
            _ => Refusal::CannotReadInput,
        }
    }
}

impl From<SessionError> for Refusal {
    ghost from_gives = { λ error refusal. refusal ≡ of_session error };

    fn from(error: SessionError) -> Refusal {
        match error {
            SessionError::OutOfMemory => Refusal::OutOfMemory,
            SessionError::NoSuchUnwinder => Refusal::NoSuchUnwinder,
            SessionError::NoSuchCache => Refusal::NoSuchCache,
            SessionError::GenerationsExhausted => Refusal::GenerationsExhausted,
        }
    }
}
