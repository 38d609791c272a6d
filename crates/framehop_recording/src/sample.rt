//! Samples of user stacks.
ghost use Rattle.std.specs.Prelude.{◌≡◌, Ok, Err, IfOk, MatchResult, None, if◌then◌else◌};
ghost use Rattle.framehop_recording.specs.Attributes.{attribute_view};
ghost use Rattle.framehop_recording.specs.Records.{record_view};
ghost use Rattle.framehop_recording.specs.Events.{known_time, time_field};
ghost use Rattle.framehop_recording.specs.Sample.{optional_at, chain_at, after_chain, after_period, chain_side, user_at, user_side, user_view, sample_at, sample_view};

use crate::attributes::Attribute;
use crate::bytes::{read_block, read_u32, read_u64};
use crate::error::RecordingError;
use crate::events::known_time;
use crate::kind::SAMPLE;
use crate::records::Record;
use crate::sample_type::{
    ADDR, BRANCH_STACK, CALLCHAIN, CPU, ID, IDENTIFIER, IP, PERIOD, RAW, READ, REGS_USER,
    STACK_USER, STREAM_ID, TID, TIME,
};

/// PERF_SAMPLE_REGS_ABI_NONE, PERF_SAMPLE_REGS_ABI_32 and PERF_SAMPLE_REGS_ABI_64.
const ABI_NONE: u64 = 0;

const ABI_32: u64 = 1;

const ABI_64: u64 = 2;

/// The registers of a thread on the user's side, and the bytes of its stack from the stack pointer on.
#[derive(Clone, Copy, Drop)]
pub struct UserStack<'a> {
    /// Eight bytes for each bit of the attribute's `sample_regs_user`.
    pub registers: &'a [u8],
    /// As many bytes as the kernel could copy.
    pub stack: &'a [u8],
    /// Whether these are as many as it was to copy: then the stack may go on.
    pub is_full: bool,
}

/// The call chain of a sample as the kernel found it: addresses and marks (`perf_callchain_context`).
#[derive(Clone, Copy, Drop)]
pub struct CallChain<'a> {
    /// Eight bytes for each, from the innermost on.
    pub bytes: &'a [u8],
}

/// Where a thread was at a time.
#[derive(Clone, Copy, Drop)]
pub struct Sample<'a> {
    /// The instruction pointer, of the kernel where the thread was in it.
    pub ip: u64,
    /// The process.
    pub pid: u32,
    /// The thread.
    pub tid: u32,
    /// In nanoseconds, if the event's samples have a time.
    pub time: Option<u64>,
    /// Its call chain, or why it can't be read.
    pub chain: Result<CallChain<'a>, RecordingError>,
    /// Its registers and its stack, or why they can't be read.
    pub user: Result<UserStack<'a>, RecordingError>,
}

/// Reads a sample of an event from its record. Where the call chain, the registers or the stack can't be read, the
/// sample says why, and still has its thread and its time.
///
/// # Errors
///
/// `OtherKind` where the record is no PERF_RECORD_SAMPLE, `NoThread` where the samples of the event have no
/// instruction pointer or no thread, and `ShortRecord` where the record ends before these and the time do.
///
/// Those of the field `user` are:
///
/// - of the event: `NoUserStack` and `UnsupportedField`;
/// - of the sample: `NoUserRegisters`, `Process32Bit`, `UnknownAbi` and `ShortRecord`.
///
/// Those of the field `chain` are `NoCallChain`, `UnsupportedField` and `ShortRecord`.
///
/// Source: Linux, `include/uapi/linux/perf_event.h`, PERF_RECORD_SAMPLE.
pub fn read_sample<'a>(
    attribute: &Attribute<'_>,
    record: Record<'a>,
) -> Result<Sample<'a>, RecordingError>
    ensures exact { MatchResult result
        (λ sample. sample_at (attribute_view attribute.now) (record_view «record».entry) ≡ Ok (sample_view sample))
        (λ error. sample_at (attribute_view attribute.now) (record_view «record».entry) ≡ Err error) }
    ensures timed { IfOk result (λ sample. sample.time ≡ time_field (attribute_view attribute.now) (record_view «record».entry)) }
{
    let sample = read_fields(attribute, record)?;
    Ok(sample)
}

/// Reads the fields of a sample of an event from its record.
#[tactic(auto, unfolding(crate::specs::Sample::sample_at))]
fn read_fields<'a>(
    attribute: &Attribute<'_>,
    record: Record<'a>,
) -> Result<Sample<'a>, RecordingError>
    ensures exact { MatchResult result
        (λ sample. sample_at (attribute_view attribute.now) (record_view «record».entry) ≡ Ok (sample_view sample))
        (λ error. sample_at (attribute_view attribute.now) (record_view «record».entry) ≡ Err error) }
{
    let offset = record.offset;
    if record.kind != SAMPLE {
        return Err(RecordingError::OtherKind { offset });
    }
    let kind = attribute.sample_type;
    if kind & IP == 0 || kind & TID == 0 {
        return Err(RecordingError::NoThread { offset });
    }
    let short = RecordingError::ShortRecord { offset };
    let bytes = record.body;
    let (_, at) = read_optional(kind & IDENTIFIER != 0, bytes, 0, short)?;
    let (ip, at) = read_u64(bytes, at, short)?;
    let (pid, at) = read_u32(bytes, at, short)?;
    let (tid, at) = read_u32(bytes, at, short)?;
    let (time, at) = read_optional(kind & TIME != 0, bytes, at, short)?;
    let time = optional_time(kind & TIME != 0, time);
    let chain = read_chain_side(attribute, record, at);
    let user = read_user_side(attribute, record, at);
    Ok(Sample {
        ip,
        pid,
        tid,
        time,
        chain,
        user,
    })
}

/// Returns a time that is there or not, unless it says that there is none.
fn optional_time(present: bool, time: u64) -> Option<u64>
    ensures { result ≡ (if present then known_time time else None) }
{
    if present { known_time(time) } else { None }
}

/// Reads the registers and the stack of a sample, from the offset after its time on.
#[tactic(auto, unfolding(crate::specs::Sample::user_side))]
fn read_user_side<'a>(
    attribute: &Attribute<'_>,
    record: Record<'a>,
    at: usize,
) -> Result<UserStack<'a>, RecordingError>
    ensures exact { MatchResult result
        (λ user. user_side (attribute_view attribute.now) (record_view «record».entry) at ≡ Ok (user_view user))
        (λ error. user_side (attribute_view attribute.now) (record_view «record».entry) at ≡ Err error) }
{
    let offset = record.offset;
    let kind = attribute.sample_type;
    if kind & REGS_USER == 0 || kind & STACK_USER == 0 {
        return Err(RecordingError::NoUserStack { offset });
    }
    if kind & READ != 0 || kind & RAW != 0 || kind & BRANCH_STACK != 0 {
        return Err(RecordingError::UnsupportedField { offset });
    }
    let short = RecordingError::ShortRecord { offset };
    let at = skip_to_counters(attribute, record, at)?;
    let at = skip_chain(kind & CALLCHAIN != 0, record.body, at, short)?;
    read_user(offset, attribute.sample_regs_user, record.body, at)
}

/// Reads the call chain of a sample, from the offset after its time on.
#[tactic(auto, unfolding(crate::specs::Sample::chain_side))]
fn read_chain_side<'a>(
    attribute: &Attribute<'_>,
    record: Record<'a>,
    at: usize,
) -> Result<CallChain<'a>, RecordingError>
    ensures exact { MatchResult result
        (λ chain. chain_side (attribute_view attribute.now) (record_view «record».entry) at ≡ Ok chain.bytes.now)
        (λ error. chain_side (attribute_view attribute.now) (record_view «record».entry) at ≡ Err error) }
{
    let offset = record.offset;
    let kind = attribute.sample_type;
    if kind & CALLCHAIN == 0 {
        return Err(RecordingError::NoCallChain { offset });
    }
    if kind & READ != 0 {
        return Err(RecordingError::UnsupportedField { offset });
    }
    let at = skip_to_counters(attribute, record, at)?;
    let (bytes, _) = read_chain(record.body, at, RecordingError::ShortRecord { offset })?;
    Ok(CallChain { bytes })
}

/// Passes over the fields of eight bytes between the time of a sample and the values of its counters.
#[tactic(auto, unfolding(crate::specs::Sample::after_period))]
fn skip_to_counters(
    attribute: &Attribute<'_>,
    record: Record<'_>,
    at: usize,
) -> Result<usize, RecordingError>
    ensures { result ≡ after_period (attribute_view attribute.now) (record_view «record».entry) at }
{
    let kind = attribute.sample_type;
    let short = RecordingError::ShortRecord {
        offset: record.offset,
    };
    let bytes = record.body;
    let (_, at) = read_optional(kind & ADDR != 0, bytes, at, short)?;
    let (_, at) = read_optional(kind & ID != 0, bytes, at, short)?;
    let (_, at) = read_optional(kind & STREAM_ID != 0, bytes, at, short)?;
    let (_, at) = read_optional(kind & CPU != 0, bytes, at, short)?;
    let (_, at) = read_optional(kind & PERIOD != 0, bytes, at, short)?;
    Ok(at)
}

/// Passes over a count and so many numbers, where they are there.
#[tactic(auto, unfolding(crate::specs::Sample::after_chain))]
fn skip_chain(
    present: bool,
    bytes: &[u8],
    at: usize,
    short: RecordingError,
) -> Result<usize, RecordingError>
    ensures { result ≡ after_chain present bytes.now at short }
{
    if !present {
        return Ok(at);
    }
    let (_, end) = read_chain(bytes, at, short)?;
    Ok(end)
}

/// Reads a count and so many numbers of eight bytes.
#[tactic(auto, unfolding(crate::specs::Sample::chain_at))]
fn read_chain<'a>(
    bytes: &'a [u8],
    at: usize,
    short: RecordingError,
) -> Result<(&'a [u8], usize), RecordingError>
    ensures exact { MatchResult result
        (λ read. chain_at bytes.entry.now at short ≡ Ok (read.0.now, read.1))
        (λ error. chain_at bytes.entry.now at short ≡ Err error) }
{
    let (count, next) = read_u64(bytes, at, short)?;
    let Some(size) = count.checked_mul(8) else {
        return Err(short);
    };
    read_block(bytes, next as u64, size, short)
}

/// Reads the registers and the stack at an offset of a record's bytes.
#[tactic(auto, unfolding(crate::specs::Sample::user_at))]
fn read_user<'a>(
    offset: u64,
    mask: u64,
    bytes: &'a [u8],
    at: usize,
) -> Result<UserStack<'a>, RecordingError>
    ensures exact { MatchResult result
        (λ user. user_at offset mask bytes.entry.now at ≡ Ok (user_view user))
        (λ error. user_at offset mask bytes.entry.now at ≡ Err error) }
{
    let short = RecordingError::ShortRecord { offset };
    let (abi, at) = read_u64(bytes, at, short)?;
    match abi {
        ABI_NONE => return Err(RecordingError::NoUserRegisters { offset }),
        ABI_32 => return Err(RecordingError::Process32Bit { offset }),
        ABI_64 => {}
        _ => return Err(RecordingError::UnknownAbi { offset }),
    }
    let registers_size = 8 * u64::from(mask.count_ones());
    let (registers, at) = read_block(bytes, at as u64, registers_size, short)?;
    let (size, at) = read_u64(bytes, at, short)?;
    let (copied, at) = read_block(bytes, at as u64, size, short)?;
    let (filled, _) = read_optional(size != 0, bytes, at, short)?;
    let (stack, _) = read_block(copied, 0, filled, short)?;
    Ok(UserStack {
        registers,
        stack,
        is_full: size != 0 && filled == size,
    })
}

/// Reads a number that is there or not.
#[inline]
fn read_optional(
    present: bool,
    bytes: &[u8],
    at: usize,
    short: RecordingError,
) -> Result<(u64, usize), RecordingError>
    ensures { result ≡ optional_at present bytes.now at short }
{
    if present {
        read_u64(bytes, at, short)
    } else {
        Ok((0, at))
    }
}
