//! The check of a PE file: the unwind codes of each entry of its function table.
ghost use Rattle.std.specs.Prelude.{◌≡◌, IfOk, MatchOption, OnOk, Some, None, option_map};
ghost use Rattle.framehop_pe.specs.Info.{read_by};
ghost use Rattle.framehop_check_cli.specs.Checked.{IsReported};
ghost use Rattle.framehop_check_cli.specs.Findings.{found_view};
ghost use Rattle.framehop_check_cli.specs.PeFindings.{IsPeChecked, IsTableChecked, begin_of, bytes_if, code_of, nothing_yet, prolog_at, with_entry, with_found, with_prolog, with_table};

use crate::file::{Checked, Options, Refusal};
use crate::findings::Findings;
use framehop_check::prolog::check_prolog;
use framehop_check::room::Room;
use framehop_code::x86_64::CodeX86_64;
use framehop_object::pe::header::Machine;
use framehop_object::pe::pe_file::PeFile;
use framehop_object::pe::rva::read_at_rva;
use framehop_object::pe::unwind_sections::lend_unwind_sections;
use framehop_pe::unwind_info::function_table::RuntimeFunction;
use framehop_pe::unwind_info::info::{PrologInfo, UnwindInfo, skip_bytes};
use std::alloc::{AllocError, Global};

/// The size of an entry of the function table, in bytes.
const ENTRY_SIZE: usize = 12;

/// The size of the header of unwind info, in bytes.
const HEADER_SIZE: u32 = 4;

/// Returns the lines for a PE file, and whether there are no alarms and each entry was read, or why it can't be checked.
pub fn check_pe_file(
    alloc: Global,
    path: &str,
    file: &[u8],
    options: Options,
) -> Result<Checked, AllocError>
    ensures { IfOk result (IsPeChecked path.now file.now options) }
{
    match PeFile::read(alloc, file) {
        Ok(image) if !matches!(image.header().machine, Machine::X86_64) => {
            Ok(Checked::Refused(Refusal::PeMachine))
        }
        Ok(image) => match lend_unwind_sections(&image).pdata {
            Some(table) => check_image(alloc, path, &image, table, options),
            None => Ok(Checked::Refused(Refusal::NoFunctionTable)),
        },
        Err(error) => Ok(Checked::Refused(Refusal::Pe(error))),
    }
}

/// Returns the lines for the entries of a function table, and whether there are no alarms and each was read.
fn check_image(
    alloc: Global,
    path: &str,
    image: &PeFile<'_>,
    table: &[u8],
    options: Options,
) -> Result<Checked, AllocError>
    ensures { IfOk result (IsReported path.now (with_table image.now options table.now nothing_yet)) }
{
    let mut findings = Findings::new(alloc, Room::new(0, 0));
    check_table(image, table, options, &mut findings)?;
    findings.into_checked(path)
}

/// Checks the entries of a function table.
fn check_table(
    image: &PeFile<'_>,
    table: &[u8],
    options: Options,
    findings: &mut Findings,
) -> Result<(), AllocError>
    ensures { OnOk result (found_view findings.new ≡ with_table image.now options table.now (found_view findings.old)) }
{
    for number in 0..table.len() / ENTRY_SIZE {
        let entry = skip_bytes(table, ENTRY_SIZE * number);
        check_found(image, RuntimeFunction::parse(entry), options, findings)?;
    }
    Ok(())
}

/// Checks an entry of the function table, if it is one.
fn check_found(
    image: &PeFile<'_>,
    function: Option<RuntimeFunction>,
    options: Options,
    findings: &mut Findings,
) -> Result<(), AllocError>
    ensures { OnOk result (found_view findings.new ≡ with_found image.now options (found_view findings.old) function) }
{
    match function {
        Some(function) => check_entry(image, function, options, findings),
        None => Ok(()),
    }
}

/// Checks an entry of the function table, and appends its lines.
#[tactic(auto, unfolding(crate::specs::PeFindings::with_entry))]
fn check_entry(
    image: &PeFile<'_>,
    function: RuntimeFunction,
    options: Options,
    findings: &mut Findings,
) -> Result<(), AllocError>
    ensures { OnOk result (found_view findings.new ≡ with_entry image.now options (found_view findings.old) function) }
{
    let Some(info) = prolog_at(image, function.unwind_info_address) else {
        findings.others.unreadable = findings.others.unreadable.saturating_add(1);
        return Ok(());
    };
    let Some(code) = code_of(image, function) else {
        findings.others.without_code = findings.others.without_code.saturating_add(1);
        return Ok(());
    };
    check_code(begin_of(image, function), &info, code, options, findings)
}

/// Checks a function's prolog against its code, and appends its lines.
#[tactic(auto, unfolding(crate::specs::PeFindings::with_prolog))]
fn check_code(
    begin: u64,
    info: &PrologInfo<'_>,
    code: &[u8],
    options: Options,
    findings: &mut Findings,
) -> Result<(), AllocError>
    ensures { OnOk result (found_view findings.new ≡ with_prolog options begin (read_by info.now) code.now (found_view findings.old)) }
{
    findings.report.alarms.clear();
    findings.report.notes.clear();
    check_prolog(begin, info, code, &mut findings.report)?;
    if options.is_quiet {
        return Ok(());
    }
    findings.push_lines::<CodeX86_64>(None, begin, code, options)
}

/// Returns the first address of a function (SVMA).
fn begin_of(image: &PeFile<'_>, function: RuntimeFunction) -> u64
    ensures { result ≡ begin_of image.now function }
{
    image
        .header()
        .image_base
        .saturating_add(u64::from(function.begin_address))
}

/// Returns the unwind info at an RVA: its header, its codes, and the entry that it is chained to.
#[tactic(auto, unfolding(crate::specs::PeFindings::prolog_at))]
fn prolog_at<'a>(image: &PeFile<'a>, rva: u32) -> Option<PrologInfo<'a>>
    ensures { option_map read_by result ≡ prolog_at image.entry.now rva }
{
    let head = UnwindInfo::parse(bytes_if(image, rva, HEADER_SIZE)?)?;
    let slots = u32::from(head.code_count) + u32::from(head.code_count % 2);
    let chained = if head.is_chained {
        ENTRY_SIZE as u32
    } else {
        0
    };
    UnwindInfo::parse(bytes_if(image, rva, HEADER_SIZE + 2 * slots + chained)?)?.read()
}

/// Returns the code of a function.
#[tactic(auto, unfolding(crate::specs::PeFindings::code_of))]
fn code_of<'a>(image: &PeFile<'a>, function: RuntimeFunction) -> Option<&'a [u8]>
    ensures { option_map (λ code. code.now) result ≡ code_of image.entry.now function }
{
    let size = function.end_address.checked_sub(function.begin_address)?;
    bytes_if(image, function.begin_address, size)
}

/// Returns so many bytes of the image from an RVA on, if the file has them.
fn bytes_if<'a>(image: &PeFile<'a>, rva: u32, size: u32) -> Option<&'a [u8]>
    ensures { option_map (λ bytes. bytes.now) result ≡ bytes_if image.entry.now rva size }
{
    match read_at_rva(image, rva, size) {
        Ok(bytes) => Some(bytes),
        Err(_) => None,
    }
}
