//! What is known of a process that is gone, by a core file or a minidump: its memory, its threads, and the code
//! that it had mapped.
ghost use Rattle.std.specs.Prelude.{◌≡◌};
ghost use Rattle.framehop_dumps.specs.Dump.{dump_view, is_code_at, kind_name};

use framehop_dump_files::coredump::core_file::Machine;
use framehop_memory::code::CodeSegments;
use framehop_memory::memory::ProcessMemory;

/// Which kind of file tells of a process.
#[derive(Clone, Copy)]
pub enum Kind {
    /// A core file.
    CoreFile,
    /// A minidump.
    Minidump,
}

/// The registers of a thread, for its machine.
#[derive(Clone, Copy, Drop)]
pub enum Registers<'a> {
    /// As Linux keeps them: `framehop_dump_files::coredump::registers` reads them.
    Kernel {
        /// Eight bytes for each register.
        values: &'a [u8],
        /// The bits of an address of code that are its signature, where they are known.
        pac_mask: Option<u64>,
    },
    /// A context: `framehop_dump_files::minidump::registers` reads it.
    Context {
        /// Its bytes.
        values: &'a [u8],
        /// The bits of an address of code that are no signature.
        code_mask: u64,
    },
}

/// Why a thread ended its process.
#[derive(Clone, Copy)]
pub enum Cause {
    /// A signal of Linux.
    Signal(Signal),
    /// An exception of Windows.
    Exception(Exception),
    /// An exception of another system, by its code.
    Other(u32),
}

/// A signal of Linux.
#[derive(Clone, Copy, PartialEq, Eq)]
pub struct Signal {
    /// Its number.
    pub number: u32,
    /// Why it was sent, where that is told.
    pub sent: Option<Sent>,
}

/// Why a signal was sent.
#[derive(Clone, Copy, PartialEq, Eq)]
pub struct Sent {
    /// `si_code`, a signed number of 32 bits.
    pub code: u32,
    /// By signal and code the address (AVMA) of a fault, or in the lower half the process that sent the signal.
    pub fields: u64,
}

/// An exception of Windows.
#[derive(Clone, Copy)]
pub struct Exception {
    /// Its code.
    pub code: u32,
    /// The address of the instruction (AVMA).
    pub address: u64,
    /// The access to memory that failed, if it was one.
    pub access: Option<Access>,
}

/// An access to memory.
#[derive(Clone, Copy, PartialEq, Eq)]
pub struct Access {
    /// 0 to read, 1 to write, 8 to execute.
    pub kind: u64,
    /// The address (AVMA).
    pub address: u64,
}

/// A thread, as it was when the file was made.
#[derive(Clone, Copy, Drop)]
pub struct Thread<'a> {
    /// Its number.
    pub tid: u32,
    /// Its name, if the file tells it.
    pub name: Option<&'a [u8]>,
    /// What ended the process, if it was this thread that got it.
    pub cause: Option<Cause>,
    /// Its registers.
    pub registers: Registers<'a>,
}

/// Addresses at which code of a file was mapped.
#[derive(Clone, Copy, Drop)]
pub struct MappedCode<'a> {
    /// The first address (AVMA).
    pub start: u64,
    /// The address after the last (AVMA).
    pub end: u64,
    /// Where the mapping begins in the file, in bytes.
    pub offset: u64,
    /// The file's path.
    pub path: &'a [u8],
    /// The first bytes of the file, as far as memory has them.
    pub head: &'a [u8],
    /// The build id that the file must have, or no bytes.
    pub build_id: &'a [u8],
    /// Where the file's SVMA 0 is (AVMA), where that is known before the file is read.
    pub base: Option<u64>,
    /// Where it is by the first bytes of the file, for one of which nothing is read.
    pub memory_base: Option<u64>,
}

/// What is known of a process that is gone.
#[derive(Drop)]
pub struct Dump<'a> {
    /// Which kind of file tells it.
    pub kind: Kind,
    /// Its memory.
    pub memory: ProcessMemory<'a>,
    /// The segments of its memory, if the file tells them.
    pub segments: CodeSegments,
    /// The machine on which it ran.
    pub machine: Machine,
    /// Its threads, the one first that ended it.
    pub threads: Vec<Thread<'a>>,
    /// The code that it had mapped.
    pub code: Vec<MappedCode<'a>>,
    /// The name of its program, if the file tells it.
    pub name: Option<&'a [u8]>,
    /// Its number, if the file tells it.
    pub pid: Option<u32>,
    /// Whether it had 32-bit code on a Windows of 64 bits.
    pub wow64: bool,
}

/// Returns what a kind of file is called.
pub fn kind_name(kind: Kind) -> &'static str
    ensures { result.now ≡ kind_name kind }
{
    match kind {
        Kind::CoreFile => "core file",
        Kind::Minidump => "minidump",
    }
}

/// Returns whether an address (AVMA) is in a segment of memory that may be executed.
pub fn is_code_at(dump: &Dump<'_>, address: u64) -> bool
    ensures { result ≡ is_code_at (dump_view dump.now) address }
{
    dump.segments.is_code_at(address)
}
