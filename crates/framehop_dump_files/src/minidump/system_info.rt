//! On what a process ran.
ghost use Rattle.std.specs.Prelude.{◌≡◌};
ghost use Rattle.framehop_dump_files.specs.Minidump.SystemInfo.{machine_of, system_info_of};

use crate::minidump::error::MinidumpError;
use crate::minidump::location::read_located;
use crate::minidump::stream::{Stream, first_stream};
use framehop_bytes::bytes::{u16_at, u32_at};

/// `SystemInfoStream`.
const SYSTEM_INFO_STREAM: u32 = 7;

/// `PROCESSOR_ARCHITECTURE_AMD64`.
const AMD64: u16 = 9;

/// `PROCESSOR_ARCHITECTURE_ARM64`.
const ARM64: u16 = 12;

/// `MD_CPU_ARCHITECTURE_ARM64_OLD`, of Breakpad.
const ARM64_OLD: u16 = 0x8003;

/// The size of the fields up to `PlatformId`, in bytes.
const FIELDS_SIZE: usize = 24;

/// The machine of a minidump.
#[derive(Clone, Copy, PartialEq, Eq)]
pub enum Machine {
    /// `PROCESSOR_ARCHITECTURE_AMD64`.
    X86_64,
    /// `PROCESSOR_ARCHITECTURE_ARM64`, and Breakpad's older number of it.
    Aarch64,
}

/// On what the process ran: `MINIDUMP_SYSTEM_INFO`.
#[derive(Clone, Copy)]
pub struct SystemInfo {
    /// Its machine: `ProcessorArchitecture`.
    pub machine: Machine,
    /// Its operating system: `PlatformId`. 2 is Windows, 0x8101 macOS, 0x8102 iOS, 0x8201 Linux and 0x8203
    /// Android.
    pub platform: u32,
}

/// Reads on what the process ran, from the first stream of type `SystemInfoStream`.
///
/// # Errors
///
/// The first of these:
///
/// - `NoSystemInfo` where there is no such stream;
/// - `Eof` where the file ends before it does, and `ShortStream` where it ends before its fields do;
/// - `UnknownMachine` by its field `ProcessorArchitecture`.
///
/// Source: `minidumpapiset.h`, `MINIDUMP_SYSTEM_INFO`; Breakpad, `minidump_format.h`, `MDRawSystemInfo`.
#[tactic(auto, unfolding(crate::specs::Minidump::SystemInfo::system_info_of))]
pub fn read_system_info(file: &[u8], streams: &[Stream]) -> Result<SystemInfo, MinidumpError>
    ensures { result ≡ system_info_of file.now streams.now }
{
    let Some(stream) = first_stream(streams, SYSTEM_INFO_STREAM) else {
        return Err(MinidumpError::NoSystemInfo { offset: 8 });
    };
    let offset = u64::from(stream.location.offset);
    let fields = read_located(file, stream.location)?;
    if fields.len() < FIELDS_SIZE {
        return Err(MinidumpError::ShortStream { offset });
    }
    let machine = machine_of(offset, u16_at(fields, 0))?;
    let platform = u32_at(fields, 20);
    Ok(SystemInfo { machine, platform })
}

/// Returns the machine of a number, in the system information at an offset of the file.
fn machine_of(offset: u64, architecture: u16) -> Result<Machine, MinidumpError>
    ensures { result ≡ machine_of offset architecture }
{
    match architecture {
        AMD64 => Ok(Machine::X86_64),
        ARM64 => Ok(Machine::Aarch64),
        ARM64_OLD => Ok(Machine::Aarch64),
        _ => Err(MinidumpError::UnknownMachine { offset }),
    }
}
