//! What is told of a signal.
ghost use Rattle.std.specs.Prelude.{◌≡◌, option_map};
ghost use Rattle.framehop_dump_files.specs.Coredump.Note.{placed_view};
ghost use Rattle.framehop_dump_files.specs.Coredump.SignalInfo.{signal_info_of};

use crate::coredump::note::PlacedNote;
use framehop_bytes::bytes::{u32_at, u64_at};

/// The size of `siginfo_t`, in bytes.
const SIGINFO_SIZE: usize = 128;

/// What is told of a signal: `siginfo_t`.
#[derive(Clone, Copy)]
pub struct SignalInfo {
    /// Its number: `si_signo`.
    pub signal: u32,
    /// Why it was sent: `si_code`, a signed number of 32 bits.
    pub code: u32,
    /// What comes first of what is told by the number and the code: the address (AVMA) of a fault, `si_addr`, or the
    /// process that sent the signal in the lower half, `si_pid`, and its user in the upper one, `si_uid`.
    pub fields: u64,
}

/// Returns what a note tells of a signal, if there is one: `None`, too, where it has another size than `siginfo_t`.
///
/// Source: Linux, `include/uapi/asm-generic/siginfo.h`; `sigaction(2)`.
pub(crate) fn signal_info_of<'a>(placed: Option<PlacedNote<'a>>) -> Option<SignalInfo>
    ensures { result ≡ signal_info_of (option_map placed_view placed.entry) }
{
    let placed = placed?;
    let descriptor = placed.note.descriptor;
    if descriptor.len() != SIGINFO_SIZE {
        return None;
    }
    Some(SignalInfo {
        signal: u32_at(descriptor, 0),
        code: u32_at(descriptor, 8),
        fields: u64_at(descriptor, 16),
    })
}
