//! What is said of a file whose `.debug_frame` is not read.
ghost use Rattle.std.specs.Prelude.{IfOk, string_bytes};
ghost use Rattle.framehop_processes.specs.FramesText.{IsFramesText, IsProblemText, IsReason};

use framehop_object::elf::decompressed::ContentsError;
use std::alloc::{AllocError, Global};

/// Returns what is said of a file, after its name, by why its `.debug_frame` is not read: nothing where there is no
/// problem. Where `objcopy` makes a file of which it can be read, that is said.
pub fn frames_text(alloc: Global, problem: Option<ContentsError>) -> Result<String, AllocError>
    ensures { IfOk result (λ text. IsFramesText problem (string_bytes text)) }
{
    match problem {
        Some(problem) => problem_text(alloc, problem),
        None => Ok(String::new(alloc)),
    }
}

/// Returns the same of a problem.
fn problem_text(alloc: Global, problem: ContentsError) -> Result<String, AllocError>
    ensures { IfOk result (λ text. IsProblemText problem (string_bytes text)) }
{
    match problem {
        ContentsError::Zstandard => String::from_str(
            alloc,
            ": its .debug_frame is compressed by zstandard; objcopy --decompress-debug-sections makes a file of which it can be read",
        ),
        ContentsError::OlderForm => String::from_str(
            alloc,
            ": its .debug_frame is compressed in an older form; objcopy --decompress-debug-sections makes a file of which it can be read",
        ),
        ContentsError::TooLarge(size) => format!(in alloc;
            ": its .debug_frame has {size} bytes when decompressed, and no more than 64 MiB are read"
        ),
        ContentsError::Elf(_) => reason_text(alloc, problem),
        ContentsError::Inflate(_) => reason_text(alloc, problem),
        ContentsError::NoHeader => reason_text(alloc, problem),
        ContentsError::UnknownType(_) => reason_text(alloc, problem),
        ContentsError::OutOfMemory => reason_text(alloc, problem),
    }
}

/// Returns a reader's reason, as it comes after a name.
fn reason_text(alloc: Global, problem: ContentsError) -> Result<String, AllocError>
    ensures { IfOk result (λ text. IsReason problem (string_bytes text)) }
{
    format!(in alloc; ": its .debug_frame can't be read: {problem}")
}
