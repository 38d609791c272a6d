//! Processes and threads that begin, end or run another program, and lost records.
ghost use Rattle.std.specs.Prelude.{◌≡◌, Ok, Err, MatchResult};
ghost use Rattle.framehop_recording.specs.Records.{record_view};
ghost use Rattle.framehop_recording.specs.Tasks.{command_at, command_view, task_at, lost_at};

use crate::bytes::{read_u32, read_u64};
use crate::error::RecordingError;
use crate::kind::{COMM, EXIT, FORK, LOST};
use crate::records::Record;
use framehop_bytes::bytes::back;
use framehop_bytes::string::before_nul;

/// PERF_RECORD_MISC_COMM_EXEC.
const COMM_EXEC: u16 = 0x2000;

/// PERF_RECORD_MISC_FORK_EXEC.
const FORK_EXEC: u16 = 0x2000;

/// The name of a thread.
#[derive(Clone, Copy, Drop)]
pub struct Command<'a> {
    /// The process.
    pub pid: u32,
    /// The thread.
    pub tid: u32,
    /// Whether the process has begun to run another program.
    pub is_exec: bool,
    /// The name, without the 0 after it.
    pub name: &'a [u8],
}

/// A thread that begins or ends.
#[derive(Clone, Copy)]
pub struct Task {
    /// The thread's process.
    pub pid: u32,
    /// The process of the thread that made it.
    pub parent_pid: u32,
    /// The thread.
    pub tid: u32,
    /// The thread that made it.
    pub parent_tid: u32,
    /// Whether perf made the record up, for a thread that already ran: its process has no mappings of
    /// its parent, since a record of each of its own follows.
    pub is_made_up: bool,
    /// When it begins or ends, in nanoseconds.
    pub time: u64,
}

/// Reads a thread's name from its record.
///
/// # Errors
///
/// `OtherKind` where the record is no PERF_RECORD_COMM, and `ShortRecord`.
///
/// Source: Linux, `include/uapi/linux/perf_event.h`, PERF_RECORD_COMM.
#[tactic(auto, unfolding(crate::specs::Tasks::command_at))]
pub fn read_command<'a>(record: Record<'a>) -> Result<Command<'a>, RecordingError>
    ensures exact { MatchResult result
        (λ command. command_at (record_view «record».entry) ≡ Ok (command_view command))
        (λ error. command_at (record_view «record».entry) ≡ Err error) }
{
    let offset = record.offset;
    if record.kind != COMM {
        return Err(RecordingError::OtherKind { offset });
    }
    let short = RecordingError::ShortRecord { offset };
    let (pid, _) = read_u32(record.body, 0, short)?;
    let (tid, _) = read_u32(record.body, 4, short)?;
    Ok(Command {
        pid,
        tid,
        is_exec: record.misc & COMM_EXEC != 0,
        name: before_nul(back(record.body, 8)),
    })
}

/// Reads a thread that begins or ends from its record.
///
/// # Errors
///
/// `OtherKind` where the record is no PERF_RECORD_FORK and no PERF_RECORD_EXIT, and `ShortRecord`.
///
/// Source: Linux, `include/uapi/linux/perf_event.h`, PERF_RECORD_FORK and PERF_RECORD_EXIT;
/// `tools/perf/util/machine.c`, `machine__process_fork_event`, PERF_RECORD_MISC_FORK_EXEC.
#[tactic(auto, unfolding(crate::specs::Tasks::task_at))]
pub fn read_task(record: Record<'_>) -> Result<Task, RecordingError>
    ensures exact { result ≡ task_at (record_view «record».entry) }
{
    let offset = record.offset;
    if record.kind != FORK && record.kind != EXIT {
        return Err(RecordingError::OtherKind { offset });
    }
    let short = RecordingError::ShortRecord { offset };
    let (pid, _) = read_u32(record.body, 0, short)?;
    let (parent_pid, _) = read_u32(record.body, 4, short)?;
    let (tid, _) = read_u32(record.body, 8, short)?;
    let (parent_tid, _) = read_u32(record.body, 12, short)?;
    let (time, _) = read_u64(record.body, 16, short)?;
    Ok(Task {
        pid,
        parent_pid,
        tid,
        parent_tid,
        is_made_up: record.misc & FORK_EXEC != 0,
        time,
    })
}

/// Reads how many records the kernel lost since the last record that says so.
///
/// # Errors
///
/// `OtherKind` where the record is no PERF_RECORD_LOST, and `ShortRecord`.
///
/// Source: Linux, `include/uapi/linux/perf_event.h`, PERF_RECORD_LOST.
#[tactic(auto, unfolding(crate::specs::Tasks::lost_at))]
pub fn read_lost(record: Record<'_>) -> Result<u64, RecordingError>
    ensures exact { result ≡ lost_at (record_view «record».entry) }
{
    let offset = record.offset;
    if record.kind != LOST {
        return Err(RecordingError::OtherKind { offset });
    }
    let (lost, _) = read_u64(record.body, 8, RecordingError::ShortRecord { offset })?;
    Ok(lost)
}
