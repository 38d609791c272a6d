//! The stacks of core files.
ghost use Rattle.std.specs.Prelude.{◌≡◌};
ghost use Rattle.framehop_stacks_cli.specs.Cores.{stack_pointer};

use crate::form::Form;
use crate::misuse::misuse_of_kind;
use crate::output::{print_end, status_of_dump};
use crate::request::{Request, refuse_file};
use crate::sources::Sources;
use framehop_cli::{Result, StandardOutput};
use framehop_disk::core_parts::{CoreParts, ReadMemory};
use framehop_disk::input::Kind;
use framehop_dump_files::coredump::core_file::Machine;
use framehop_dump_files::coredump::registers::{
    aarch64_registers, code_ptr_auth_mask, x86_64_registers,
};
use framehop_dump_stacks::error::DumpStacksError;
use framehop_dump_stacks::json_report::Json;
use framehop_dump_stacks::program::write_core_stacks;
use framehop_dump_stacks::text::Text;
use framehop_dumps::core_dump::{read_core_dump, read_core_dump_over};
use framehop_dumps::dump::{Dump, Registers};
use framehop_memory::left_out::LeftOut;
use framehop_memory::memory::ProcessMemory;
use framehop_output::Output;
use framehop_perf_stacks::run::Options;
use std::io::{BufWriter, Write};

/// What came of a round over the parts that were read of a core file.
#[derive(Drop)]
enum Round {
    /// The stacks are printed, and this is the status.
    Printed(u8),
    /// Memory at these addresses (AVMAs), which was not read, was asked for. Nothing is printed.
    Asked(Vec<u64>),
    /// The file is refused. Nothing is printed.
    Refused,
}

/// Prints the stacks of the threads of a core file, of which the headers and the notes are read and the memory that is asked
/// for, and of the files that were mapped those that are asked for. Where more is asked for than was read, nothing is printed, and all is done
/// again with it. Returns the status, or `None` where nothing is printed: of what is no core file, and of one that is to be
/// read whole.
pub fn print_core_parts(request: Request<'_, '_>, path: &str) -> Result<Option<u8>> {
    let Ok(Some(mut core)) = CoreParts::open(request.rt, path) else {
        return Ok(None);
    };
    match misuse_of_kind(Kind::Core, request.options, request.form) {
        Some(misuse) => Ok(Some(refuse_file(request.rt, path, misuse, 2)?)),
        None => print_by_rounds(request, path, &mut core),
    }
}

/// Prints the stacks of the threads of a core file, of which more is read in each round.
fn print_by_rounds(
    request: Request<'_, '_>,
    path: &str,
    core: &mut CoreParts,
) -> Result<Option<u8>> {
    for _round in 0..core.most_rounds() {
        match print_round(request, path, core)? {
            Round::Printed(status) => return Ok(Some(status)),
            Round::Asked(addresses) if core.want(addresses.as_slice()) => {}
            _ => return Ok(None),
        }
    }
    Ok(None)
}

/// Prints the stacks of the threads of a core file, by the memory of it that is wanted.
fn print_round(request: Request<'_, '_>, path: &str, core: &mut CoreParts) -> Result<Round> {
    match core.read_memory(request.rt.alloc()) {
        Ok(Some(memory)) => print_read_core(request, path, core.front(), &memory),
        _ => Ok(Round::Refused),
    }
}

/// Prints the stacks of the threads of a core file, if they ask for no memory but that which was read.
fn print_read_core(
    request: Request<'_, '_>,
    path: &str,
    front: &[u8],
    memory: &ReadMemory,
) -> Result<Round> {
    let alloc = request.rt.alloc();
    let (bytes, parts) = (memory.bytes.as_slice(), memory.parts.as_slice());
    let left_out = LeftOut::new(alloc, parts)?;
    let known = ProcessMemory::of_parts(alloc, bytes, parts, &left_out)?;
    match read_core_dump_over(alloc, front, known) {
        Ok(dump) => print_dump(request, path, &dump, &left_out),
        Err(_) => Ok(Round::Refused),
    }
}

/// Prints the stacks of the threads of a core file that was read, if they ask for no memory that was left out.
fn print_dump(
    request: Request<'_, '_>,
    path: &str,
    dump: &Dump<'_>,
    left_out: &LeftOut,
) -> Result<Round> {
    let alloc = request.rt.alloc();
    note_stack_pointers(dump, left_out);
    let asked = left_out.asked(alloc)?;
    if !asked.is_empty() {
        return Ok(Round::Asked(asked));
    }
    match print_stacks(request, path, dump, left_out)? {
        Some(status) => Ok(Round::Printed(status)),
        None => Ok(Round::Asked(left_out.asked(alloc)?)),
    }
}

/// Notes that memory is asked for at the stack pointers of all threads.
fn note_stack_pointers(dump: &Dump<'_>, left_out: &LeftOut) {
    for thread in &dump.threads {
        if let Some(address) = stack_pointer(dump.machine, thread.registers) {
            left_out.note(address);
        }
    }
}

/// Returns the stack pointer (AVMA) of a thread of a core file, if it has its registers.
fn stack_pointer(machine: Machine, registers: Registers<'_>) -> Option<u64>
    ensures { result ≡ stack_pointer machine registers.entry }
{
    let Registers::Kernel { values, pac_mask } = registers else {
        return None;
    };
    match machine {
        Machine::X86_64 => Some(x86_64_registers(values)?.sp()),
        Machine::Aarch64 => {
            let (_, regs) = aarch64_registers(code_ptr_auth_mask(pac_mask), values)?;
            Some(regs.sp())
        }
    }
}

/// Prints the stacks of the threads of a core file, by its bytes. Of the files that were mapped those are read that are asked
/// for.
pub fn print_core(request: Request<'_, '_>, path: &str, bytes: &[u8]) -> Result<u8> {
    let (rt, alloc) = (request.rt, request.rt.alloc());
    match read_core_dump(alloc, bytes) {
        Ok(dump) => {
            let left_out = LeftOut::new(alloc, &[])?;
            let status = print_stacks(request, path, &dump, &left_out)?;
            Ok(status.unwrap_or(0))
        }
        Err(error) => status_of_dump(rt, path, Err(error.into())),
    }
}

/// Prints what is asked for of a core file that was read, and what was missing. Returns the status, or `None` where memory that
/// was left out was asked for: nothing is printed then.
fn print_stacks(
    request: Request<'_, '_>,
    path: &str,
    dump: &Dump<'_>,
    left_out: &LeftOut,
) -> Result<Option<u8>> {
    let (rt, alloc) = (request.rt, request.rt.alloc());
    let mut out = Output::new(BufWriter::new(alloc, StandardOutput { rt })?);
    let mut said = Output::new(Vec::new(alloc));
    let written = match write_stacks(request, dump, left_out, &mut out, &mut said) {
        Ok(false) => return Ok(None),
        Ok(true) => Ok(()),
        Err(error) => Err(error),
    };
    let said = said.into_inner();
    Ok(Some(print_end(rt, path, &mut out, said.as_slice(), written)?))
}

/// Writes what is asked for of a core file that was read, and then what was missing. Returns whether it is written.
fn write_stacks<W: Write, E: Write>(
    request: Request<'_, '_>,
    dump: &Dump<'_>,
    left_out: &LeftOut,
    out: &mut Output<W>,
    said: &mut Output<E>,
) -> Result<bool, DumpStacksError> {
    let (alloc, sources) = (request.rt.alloc(), request.sources);
    let Options { limit, explain, .. } = request.options;
    match request.form {
        Form::Json => {
            let json: Json<'_, Sources<'_, '_>> = Json { paths: sources };
            write_core_stacks(alloc, dump, left_out, sources, limit, &json, out, said)
        }
        _ => {
            let text = Text { explain };
            write_core_stacks(alloc, dump, left_out, sources, limit, &text, out, said)
        }
    }
}
