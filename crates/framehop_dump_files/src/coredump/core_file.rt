//! Which files are core files.
ghost use Rattle.std.specs.Prelude.{◌≡◌, Ok, MatchResult};
ghost use Rattle.framehop_dump_files.specs.Coredump.Refusal.{IsErrorOf};
ghost use Rattle.framehop_dump_files.specs.Coredump.CoreFile.{machine_of, core_file_of};

use crate::coredump::error::CoreFileError;
use framehop_object::elf::header::{EM_AARCH64, EM_X86_64, FileHeader, read_file_header};
use framehop_object::elf::program_header::{ProgramHeader, read_program_headers};
use std::alloc::Global;

/// `ET_CORE`.
const ET_CORE: u16 = 4;

/// The machine of a core file.
#[derive(Clone, Copy, PartialEq, Eq)]
pub enum Machine {
    /// `EM_X86_64`.
    X86_64,
    /// `EM_AARCH64`.
    Aarch64,
}

/// A core file: what its ELF header and its program headers say.
#[derive(Drop)]
pub struct CoreFile {
    /// The machine on which the process ran.
    pub machine: Machine,
    /// Its segments: notes, and the memory of the process.
    pub segments: Vec<ProgramHeader>,
}

/// Reads the headers of a core file.
///
/// # Errors
///
/// The first of these:
///
/// - `Elf` with what refuses the ELF header;
/// - `NotACore` and `UnknownMachine` by its fields `e_type` and `e_machine`;
/// - `Elf` with what refuses the program headers;
/// - `OutOfMemory`.
///
/// Source: System V gABI, chapter 4, "ELF Header".
#[tactic(auto, unfolding(crate::specs::Coredump::CoreFile::core_file_of))]
pub fn read_core_file(alloc: Global, file: &[u8]) -> Result<CoreFile, CoreFileError>
    ensures { MatchResult result
        (λ core. core_file_of file.now ≡ Ok (core.machine, core.segments.items))
        (λ error. IsErrorOf (core_file_of file.now) error) }
{
    let header = read_file_header(file)?;
    let machine = machine_of(header)?;
    let segments = read_program_headers(alloc, file, header)?;
    Ok(CoreFile { machine, segments })
}

/// Returns the machine of a core file.
fn machine_of(header: FileHeader) -> Result<Machine, CoreFileError>
    ensures { result ≡ machine_of header }
{
    if header.e_type != ET_CORE {
        return Err(CoreFileError::NotACore { offset: 16 });
    }
    match header.e_machine {
        EM_X86_64 => Ok(Machine::X86_64),
        EM_AARCH64 => Ok(Machine::Aarch64),
        _ => Err(CoreFileError::UnknownMachine { offset: 18 }),
    }
}
