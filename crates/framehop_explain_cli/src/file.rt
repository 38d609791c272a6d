//! What an ELF file or a PE file has to unwind by: the functions of its table, and for an address its row and its rule.
//!
//! What is printed is what unwinding does with a caller's frame over a stack that can't be read: the same calls
//! tell it.
ghost use Rattle.std.specs.Prelude.{◌≡◌, ◌≢◌, ◌++◌, ℕ, List, codes, None, Ok, Err, IfOk, IfErr, OnOk, string_bytes};
ghost use Rattle.framehop_core.specs.Memory.{reply};
ghost use Rattle.framehop_dwarf.specs.Unwinder.{reading_of};
ghost use Rattle.framehop.specs.Laws.SectionContents.{table_bytes};
ghost use Rattle.framehop.specs.ModuleData.{unwind_data_in};
ghost use Rattle.framehop.specs.Policy.{with_allocation};
ghost use Rattle.framehop_object.specs.Elf.UnwindSections.{bytes_in};
ghost use Rattle.framehop_explain.specs.Found.{explaining_by};
ghost use Rattle.framehop_explain_cli.specs.FileText.{range_line, row_line, fde_lines, source_lines, is_row, lacks_stack, no_rule_text, told_line, near_text, far_text, pe_line, entry_text, pe_lines, all_functions, functions_unless_asked, IsToldOf, IsAddressText, IsModuleText};
ghost use Rattle.framehop_explain_cli.specs.Files.{elf_machine, of_elf, of_contents, of_pe, debug_frame_in, elf_of, pe_of, file_of, IsFileText, IsFileProblem};
ghost use Rattle.framehop_explain_cli.specs.declared.file.FileProblem.TheVariants.{OutOfMemory as NoMemory};
ghost use Rattle.framehop_explain_cli.specs.Functions.{unread_line, fde_line, entry_line, ends_section, function_lines};

use crate::row_text::{RegisterNames, push_row};
use framehop::aarch64::{ArchAarch64, UnwindRegsAarch64};
use framehop::cache::MayAllocateDuringUnwind;
use framehop::lookup::Lookup;
use framehop::x86_64::{ArchX86_64, UnwindRegsX86_64};
use framehop::{Module, ModuleListError, ModuleSectionInfo, UnwinderError};
use framehop_cfi::context::UnwindContext;
use framehop_cfi::dwarf_error::DwarfUnwinderError;
use framehop_cfi::entry::{EntryHead, FrameDescriptionEntry, UnwindSection, UnwindSectionType};
use framehop_cfi::extent::{EntryExtent, read_extent};
use framehop_cfi::known_cies::KnownCies;
use framehop_cfi::read_error::ReadError;
use framehop_cfi::storage::StoreOnHeap;
use framehop_dwarf::unwinder::find_row;
use framehop_explain::explain::explain_module;
use framehop_explain::pe::Sources;
use framehop_explain::reason::ReadReason;
use framehop_explain::{
    DescribeRule, Described, Reason, RowSource, Source, Told, unwind_data_text,
};
use framehop_object::elf::decompressed::ContentsError;
use framehop_object::elf::elf_file::ElfFile;
use framehop_object::elf::error::ElfError;
use framehop_object::elf::header::{EM_AARCH64, EM_X86_64};
use framehop_object::elf::unwind_sections::{has_eh_frame, read_debug_frame, unwind_sections_with};
use framehop_object::pe::error::PeError;
use framehop_object::pe::header::{Machine as PeMachine, is_pe};
use framehop_object::pe::pe_file::PeFile;
use framehop_object::pe::unwind_sections::read_unwind_sections as read_pe_sections;
use framehop_pe::pe::PeUnwinderError;
use framehop_pe::unwind_info::function_table::RuntimeFunction;
use std::alloc::{AllocError, Global};
use thiserror::Error;

/// Why a file is not explained.
#[derive(Clone, Copy, Debug, PartialEq, Eq, Error)]
pub enum FileProblem {
    /// It is no ELF file that can be read.
    #[error("{0}")]
    Elf(ElfError),
    /// It is a PE file that can't be read.
    #[error("{0}")]
    Pe(PeError),
    /// It has no `.eh_frame`, and its `.debug_frame` can't be read.
    #[error("its .debug_frame is not read: {0}")]
    DebugFrame(ContentsError),
    /// It is for another machine than x86_64 and aarch64.
    #[error("machine {0}: neither x86_64 nor aarch64")]
    OtherMachine(u16),
    /// An allocation failed.
    #[error("out of memory")]
    OutOfMemory,
}

impl From<ElfError> for FileProblem {
    ghost from_gives = { λ value problem. problem ≡ of_elf value };

    fn from(value: ElfError) -> Self {
        match value {
            ElfError::OutOfMemory => FileProblem::OutOfMemory,
            value => FileProblem::Elf(value),
        }
    }
}

impl From<ContentsError> for FileProblem {
    ghost from_gives = { λ value problem. problem ≡ of_contents value };

    fn from(value: ContentsError) -> Self {
        match value {
            ContentsError::OutOfMemory => FileProblem::OutOfMemory,
            value => FileProblem::DebugFrame(value),
        }
    }
}

impl From<PeError> for FileProblem {
    ghost from_gives = { λ value problem. problem ≡ of_pe value };

    fn from(value: PeError) -> Self {
        match value {
            PeError::OutOfMemory => FileProblem::OutOfMemory,
            value => FileProblem::Pe(value),
        }
    }
}

impl From<AllocError> for FileProblem {
    ghost from_gives = { λ _ problem. problem ≡ NoMemory };

    fn from(_value: AllocError) -> Self {
        FileProblem::OutOfMemory
    }
}

impl From<ModuleListError> for FileProblem {
    ghost from_gives = { λ _ problem. problem ≡ NoMemory };

    fn from(_value: ModuleListError) -> Self {
        FileProblem::OutOfMemory
    }
}

/// An architecture whose files are explained.
trait Machine: Sources + RegisterNames {
    // registers that are all 0
    ghost no_registers: { Self.UnwindRegs };

    /// Returns registers that are all 0: what a file tells does not depend on them.
    fn no_registers() -> Self::UnwindRegs
        ensures { result ≡ no_registers };
}

impl Machine for ArchX86_64 {
    ghost use Rattle.framehop_walk.specs.Registers.{three};

    ghost no_registers = { three 0 0 0 };

    fn no_registers() -> UnwindRegsX86_64 {
        UnwindRegsX86_64::new(0, 0, 0)
    }
}

impl Machine for ArchAarch64 {
    ghost use Rattle.framehop_explain_cli.specs.Files.{zero_aarch64};

    ghost no_registers = { zero_aarch64 };

    fn no_registers() -> UnwindRegsAarch64 {
        UnwindRegsAarch64::new(0, 0, 0)
    }
}

/// Returns what an ELF file or a PE file has to unwind by, as text: what unwind data it has; then for each of the
/// addresses (SVMAs of an ELF file, RVAs of a PE file) the FDE, the row and the rule, or without addresses a line for
/// each function that it has unwind data of.
///
/// # Errors
///
/// `Elf` or `Pe` where the bytes are no file that can be read, `DebugFrame`, `OtherMachine` and `OutOfMemory`.
pub fn explain_file(alloc: Global, file: &[u8], addresses: &[u64]) -> Result<String, FileProblem>
    ensures told { IfOk result (λ text. IsFileText (file_of file.now) addresses.now (string_bytes text)) }
    ensures refused { IfErr result (λ problem. problem ≢ FileProblem.OutOfMemory
        → IsFileProblem (file_of file.now) problem) }
{
    let (machine, module) = read_module(alloc, file)?;
    match machine {
        EM_X86_64 => Ok(module_text::<ArchX86_64>(alloc, &module, addresses)?),
        EM_AARCH64 => Ok(module_text::<ArchAarch64>(alloc, &module, addresses)?),
        other => Err(FileProblem::OtherMachine(other)),
    }
}

/// Reads a file as a module: a PE file begins with "MZ".
fn read_module(alloc: Global, file: &[u8]) -> Result<(u16, Module<Vec<u8>>), FileProblem>
    ensures read { IfOk result (λ read.
        file_of file.now ≡ Ok (record { machine = read.0; unwind_data = read.1.unwind_data })) }
    ensures refused { IfErr result (λ problem. problem ≢ FileProblem.OutOfMemory → file_of file.now ≡ Err problem) }
{
    if is_pe(file) {
        return read_pe(alloc, file);
    }
    read_elf(alloc, file)
}

/// Reads a PE file as a module: addresses in it are relative to the base of the image (RVAs).
#[tactic(auto, unfolding(crate::specs::Files::pe_of))]
fn read_pe(alloc: Global, file: &[u8]) -> Result<(u16, Module<Vec<u8>>), FileProblem>
    ensures read { IfOk result (λ read.
        pe_of file.now ≡ Ok (record { machine = read.0; unwind_data = read.1.unwind_data })) }
    ensures refused { IfErr result (λ problem. problem ≢ FileProblem.OutOfMemory → pe_of file.now ≡ Err problem) }
{
    let pe = PeFile::read(alloc, file)?;
    let sections = read_pe_sections(alloc, &pe)?;
    let module = module_of(alloc, sections)?;
    Ok((elf_machine(pe.header().machine), module))
}

/// Returns the number by which ELF files name the machine of a PE file, or that of the PE file itself.
fn elf_machine(machine: PeMachine) -> u16
    ensures { result ≡ elf_machine machine }
{
    match machine {
        PeMachine::X86_64 => EM_X86_64,
        PeMachine::Aarch64 => EM_AARCH64,
        PeMachine::Other(number) => number,
    }
}

/// Reads an ELF file as a module: addresses in it are the stated ones (SVMAs).
#[tactic(auto, unfolding(crate::specs::Files::elf_of))]
fn read_elf(alloc: Global, file: &[u8]) -> Result<(u16, Module<Vec<u8>>), FileProblem>
    ensures read { IfOk result (λ read.
        elf_of file.now ≡ Ok (record { machine = read.0; unwind_data = read.1.unwind_data })) }
    ensures refused { IfErr result (λ problem. problem ≢ FileProblem.OutOfMemory → elf_of file.now ≡ Err problem) }
{
    let elf = ElfFile::read(alloc, file)?;
    let debug_frame = read_only_frames(alloc, &elf)?;
    let sections = unwind_sections_with(alloc, &elf, debug_frame)?;
    let module = module_of(alloc, sections)?;
    Ok((elf.header().e_machine, module))
}

/// Returns a module of these sections, which has all addresses.
fn module_of<I: ModuleSectionInfo<Vec<u8>> + Drop>(
    alloc: Global,
    sections: I,
) -> Result<Module<Vec<u8>>, FileProblem>
    ensures made { IfOk result (λ made. made.unwind_data
        ≡ unwind_data_in (λ bytes. bytes) (table_bytes (λ vec. vec.items) (I.table sections))) }
    ensures refused { IfErr result (λ problem. problem ≡ FileProblem.OutOfMemory) }
{
    let module = Module::new(alloc, String::new(alloc), 0..u64::MAX, 0, sections)?;
    Ok(module)
}

/// Reads the `.debug_frame` of a file without `.eh_frame`.
fn read_only_frames(alloc: Global, elf: &ElfFile<'_>) -> Result<Option<Vec<u8>>, ContentsError>
    ensures read { IfOk result (λ bytes. debug_frame_in elf.now ≡ Ok (bytes_in bytes)) }
    ensures refused { IfErr result (λ error. error ≢ ContentsError.OutOfMemory → debug_frame_in elf.now ≡ Err error) }
{
    if has_eh_frame(elf) {
        Ok(None)
    } else {
        read_debug_frame(alloc, elf)
    }
}

/// Returns the lines for the functions of a module, or for addresses in it where there are any.
fn module_text<A: Machine>(
    alloc: Global,
    module: &Module<Vec<u8>>,
    addresses: &[u64],
) -> Result<String, AllocError>
where
    A::UnwindRule: DescribeRule,
    ensures { IfOk result (λ text. IsModuleText A.names (explaining_by A.readers A.pe_source
        (record { by_code = A.by_code; prologue = A.prologue_rule; epilogue = A.epilogue_rule })
        A.UnwindRule.rule_text A.UnwindRule.fallback with_allocation)
        A.no_registers «module».now.unwind_data addresses.now (string_bytes text)) }
{
    let mut out = String::new(alloc);
    let unwind_data = unwind_data_text(alloc, module)?;
    writeln!(out, "{}", unwind_data.as_str())?;
    for address in addresses {
        push_address::<A>(alloc, module, *address, &mut out)?;
    }
    push_functions_unless_asked(alloc, module, addresses, &mut out)?;
    Ok(out)
}

/// Appends what a module tells of an address.
fn push_address<A: Machine>(
    alloc: Global,
    module: &Module<Vec<u8>>,
    address: u64,
    out: &mut String,
) -> Result<(), AllocError>
where
    A::UnwindRule: DescribeRule,
    ensures { OnOk result ((text : List ℕ) × IsAddressText A.names (explaining_by A.readers A.pe_source
        (record { by_code = A.by_code; prologue = A.prologue_rule; epilogue = A.epilogue_rule })
        A.UnwindRule.rule_text A.UnwindRule.fallback with_allocation)
        A.no_registers «module».now.unwind_data address text
        × (string_bytes out.new ≡ string_bytes out.old ++ text)) }
{
    match u32::try_from(address) {
        Ok(relative) => push_relative::<A>(alloc, module, relative, out),
        Err(_) => push_far(address, out),
    }
}

/// Appends that an address is too far from the base for any unwind data.
#[tactic(auto, unfolding(crate::specs::FileText::far_text))]
fn push_far(address: u64, out: &mut String) -> Result<(), AllocError>
    ensures { OnOk result (string_bytes out.new ≡ string_bytes out.old ++ far_text address) }
{
    writeln!(out, "0x{address:x}: 4 GiB or more above the base")
}

/// Appends what a module tells of a relative address.
fn push_relative<A: Machine>(
    alloc: Global,
    module: &Module<Vec<u8>>,
    address: u32,
    out: &mut String,
) -> Result<(), AllocError>
where
    A::UnwindRule: DescribeRule,
    ensures { OnOk result ((text : List ℕ) × IsAddressText A.names (explaining_by A.readers A.pe_source
        (record { by_code = A.by_code; prologue = A.prologue_rule; epilogue = A.epilogue_rule })
        A.UnwindRule.rule_text A.UnwindRule.fallback with_allocation)
        A.no_registers «module».now.unwind_data address text
        × (string_bytes out.new ≡ string_bytes out.old ++ text)) }
{
    let (source, told) = told_by_module::<A>(alloc, module, address)?;
    push_near::<A>(alloc, module, address, source, told, out)
}

/// Appends what a module tells of a relative address, by where it tells it.
fn push_near<A: Machine>(
    alloc: Global,
    module: &Module<Vec<u8>>,
    address: u32,
    source: Source,
    told: Told<A::UnwindRule>,
    out: &mut String,
) -> Result<(), AllocError>
where
    A::UnwindRule: DescribeRule,
    ensures { OnOk result (string_bytes out.new ≡ string_bytes out.old
        ++ near_text A.names A.UnwindRule.rule_text «module».now.unwind_data address source told) }
{
    writeln!(out, "0x{address:x}: {source}")?;
    push_source::<A>(alloc, module, address, source, out)?;
    push_told(source, told, out)
}

/// Returns where a module's unwind data tells how to unwind from a relative address, and what: of a caller's frame, over
/// a stack that can't be read.
fn told_by_module<A: Machine>(
    alloc: Global,
    module: &Module<Vec<u8>>,
    address: u32,
) -> Result<(Source, Told<A::UnwindRule>), AllocError>
where
    A::UnwindRule: DescribeRule,
    ensures { IfOk result (λ found. IsToldOf A.names (explaining_by A.readers A.pe_source
        (record { by_code = A.by_code; prologue = A.prologue_rule; epilogue = A.epilogue_rule })
        A.UnwindRule.rule_text A.UnwindRule.fallback with_allocation)
        A.no_registers «module».now.unwind_data address found.0 found.1) }
{
    let mut read_stack = |_word: u64| -> Result<u64, ()>
        ensures { result ≡ reply None }
    { Err(()) };
    let mut context = UnwindContext::new_in(alloc)?;
    let lookup = Lookup {
        relative_address: address,
        is_first_frame: false,
    };
    explain_module::<Vec<u8>, A, MayAllocateDuringUnwind, _>(
        module,
        alloc,
        &mut context,
        lookup,
        A::no_registers(),
        &mut read_stack,
    )
}

/// Appends the lines of the FDE that tells how to unwind from an address, if one does.
fn push_source<A: RegisterNames>(
    alloc: Global,
    module: &Module<Vec<u8>>,
    address: u32,
    source: Source,
    out: &mut String,
) -> Result<(), AllocError>
    ensures { OnOk result (string_bytes out.new ≡ string_bytes out.old
        ++ source_lines A.names «module».now.unwind_data address source) }
{
    let Source::Fde { offset, .. } = source else {
        return Ok(());
    };
    match module.frame_section() {
        Some(section) => push_fde::<A>(alloc, &section, address, offset, out),
        None => Ok(()),
    }
}

/// Appends the range of the FDE at an offset, and its row for an address.
fn push_fde<A: RegisterNames>(
    alloc: Global,
    section: &UnwindSection<'_>,
    address: u32,
    offset: u32,
    out: &mut String,
) -> Result<(), AllocError>
    ensures { OnOk result (string_bytes out.new ≡ string_bytes out.old
        ++ fde_lines A.names section.now address offset) }
{
    push_range(section.fde_from_offset(offset as usize), out)?;
    push_row_at::<A>(alloc, section, address, offset, out)
}

/// Appends the range of an FDE, if it could be read.
#[tactic(auto, unfolding(crate::specs::FileText::range_line))]
fn push_range(
    fde: Result<FrameDescriptionEntry, ReadError>,
    out: &mut String,
) -> Result<(), AllocError>
    ensures { OnOk result (string_bytes out.new ≡ string_bytes out.old ++ range_line fde) }
{
    match fde {
        Ok(fde) => {
            let start = fde.initial_address;
            let end = start.wrapping_add(fde.address_range);
            writeln!(out, "  function 0x{start:x}..0x{end:x}")
        }
        Err(_) => Ok(()),
    }
}

/// Appends the row for an address of the FDE at an offset, if it has one.
fn push_row_at<A: RegisterNames>(
    alloc: Global,
    section: &UnwindSection<'_>,
    address: u32,
    offset: u32,
    out: &mut String,
) -> Result<(), AllocError>
    ensures { OnOk result (string_bytes out.new ≡ string_bytes out.old
        ++ row_line A.names (reading_of None section.now address offset)) }
{
    let mut context: UnwindContext<StoreOnHeap> = UnwindContext::new_in(alloc)?;
    match find_row(section, 0, address, offset, &mut context) {
        Ok(true) => {
            out.push_str("  row ")?;
            push_row::<A, StoreOnHeap>(context.row(), out)?;
            out.push_str("\n")
        }
        Ok(false) => Ok(()),
        Err(DwarfUnwinderError::UnwindInfoForAddressFailed(ReadError::OutOfMemory)) => Err(
            AllocError,
        ),
        Err(_) => Ok(()),
    }
}

/// Appends the rule that a file tells, or why there is none.
fn push_told<R: DescribeRule>(
    source: Source,
    told: Told<R>,
    out: &mut String,
) -> Result<(), AllocError>
    ensures { OnOk result (string_bytes out.new ≡ string_bytes out.old ++ told_line R.rule_text source told) }
{
    match told {
        Told::Rule(rule) => {
            let rule = Described(rule);
            writeln!(out, "  rule {rule}")
        }
        Told::Computed(_) => push_computed(out),
        Told::Refused(_) if is_row(source) => push_computed(out),
        Told::Refused(error) if lacks_stack(error) => push_computed(out),
        Told::Refused(error) => {
            let reason = Reason(error);
            writeln!(out, "  no rule: {reason}")
        }
    }
}

/// Appends that a frame has no rule, since its caller is computed.
fn push_computed(out: &mut String) -> Result<(), AllocError>
    ensures { OnOk result (string_bytes out.new ≡ string_bytes out.old
        ++ codes "  no rule: the frame is computed from its registers and its stack\n") }
{
    out.push_str("  no rule: the frame is computed from its registers and its stack\n")
}

/// Returns whether a row is the source.
fn is_row(source: Source) -> bool
    ensures { result ≡ is_row source }
{
    matches!(
        source,
        Source::Fde {
            row: RowSource::Row,
            ..
        }
    )
}

/// Returns whether words of the stack are wanted, which can't be read.
fn lacks_stack(error: UnwinderError) -> bool
    ensures { result ≡ lacks_stack error }
{
    matches!(
        error,
        UnwinderError::Pe(PeUnwinderError::MissingStackData(_))
    )
}

/// Appends a line for each function that a module's unwind data has, where no addresses are asked for.
fn push_functions_unless_asked(
    alloc: Global,
    module: &Module<Vec<u8>>,
    addresses: &[u64],
    out: &mut String,
) -> Result<(), AllocError>
    ensures { OnOk result (string_bytes out.new ≡ string_bytes out.old
        ++ functions_unless_asked «module».now.unwind_data addresses.now) }
{
    if addresses.is_empty() {
        push_all_functions(alloc, module, out)
    } else {
        Ok(())
    }
}

/// Appends a line for each function that a module's unwind data has.
fn push_all_functions(
    alloc: Global,
    module: &Module<Vec<u8>>,
    out: &mut String,
) -> Result<(), AllocError>
    ensures { OnOk result (string_bytes out.new ≡ string_bytes out.old ++ all_functions «module».now.unwind_data) }
{
    if let Some(info) = module.pe_info() {
        return push_pe_functions(info.pdata.as_slice(), out);
    }
    match module.frame_section() {
        Some(section) => push_functions(alloc, &section, out),
        None => Ok(()),
    }
}

/// Appends a line for each function of a PE module, in the order of its table.
#[tactic(auto, unfolding(crate::specs::FileText::pe_lines))]
fn push_pe_functions(pdata: &[u8], out: &mut String) -> Result<(), AllocError>
    ensures { OnOk result (string_bytes out.new ≡ string_bytes out.old ++ pe_lines pdata.now) }
{
    let (entries, _) = pdata.as_chunks::<12>();
    for entry in entries {
        push_pe_entry(RuntimeFunction::parse(entry), out)?;
    }
    Ok(())
}

/// Appends the line of an entry of the table of a PE module, if it is one.
fn push_pe_entry(function: Option<RuntimeFunction>, out: &mut String) -> Result<(), AllocError>
    ensures { OnOk result (string_bytes out.new ≡ string_bytes out.old ++ entry_text function) }
{
    match function {
        Some(function) => push_pe_function(function, out),
        None => Ok(()),
    }
}

/// Appends the line of a function of a PE module.
#[tactic(auto, unfolding(crate::specs::FileText::pe_line))]
fn push_pe_function(function: RuntimeFunction, out: &mut String) -> Result<(), AllocError>
    ensures { OnOk result (string_bytes out.new ≡ string_bytes out.old ++ pe_line function) }
{
    let (start, end) = (function.begin_address, function.end_address);
    let info = function.unwind_info_address;
    writeln!(out, "0x{start:x}..0x{end:x}: unwind info 0x{info:x}")
}

/// Appends a line for each FDE of a section, in its order. A length of 0 ends `.eh_frame`, and is passed over in
/// `.debug_frame`. A CIE is read once, however many FDEs name it.
fn push_functions(
    alloc: Global,
    section: &UnwindSection<'_>,
    out: &mut String,
) -> Result<(), AllocError>
    ensures { OnOk result (string_bytes out.new ≡ string_bytes out.old ++ function_lines section.now) }
{
    let mut cies = KnownCies::new(alloc, section);
    let mut at = 0;
    while at < section.bytes.len() {
        let Ok(extent) = read_extent(section.bytes, at) else {
            return Ok(());
        };
        if ends_section(section, &extent) {
            return Ok(());
        }
        push_entry(section, &mut cies, at, out)?;
        at = extent.end;
    }
    Ok(())
}

/// Returns whether an entry of this extent ends a section: a length of 0 does in `.eh_frame`.
fn ends_section(section: &UnwindSection<'_>, extent: &EntryExtent) -> bool
    ensures { result ≡ ends_section section.now.kind extent.now }
{
    match section.section_type {
        UnwindSectionType::EhFrame => extent.is_zero_length(),
        UnwindSectionType::DebugFrame => false,
    }
}

/// Appends a line for the entry at an offset, if it is an FDE.
#[tactic(auto, unfolding(crate::specs::Functions::entry_line, framehop_cfi::specs::Entry::fde_at))]
fn push_entry(
    section: &UnwindSection<'_>,
    cies: &mut KnownCies<'_>,
    at: usize,
    out: &mut String,
) -> Result<(), AllocError>
    requires { cies.old ≡ section.now }
    ensures appended { OnOk result (string_bytes out.new ≡ string_bytes out.old ++ entry_line section.now at) }
    ensures kept { cies.new ≡ cies.old }
{
    match section.head_at(at) {
        Ok(
            EntryHead::Fde {
                cie_offset,
                fields,
                end,
            },
        ) => push_fde_line(at, cies.read_fde(cie_offset, fields, end)?, out),
        _ => Ok(()),
    }
}

/// Appends the line of the FDE at an offset: the addresses that it covers, or why it can't be read.
#[tactic(auto, unfolding(crate::specs::Functions::fde_line))]
fn push_fde_line(
    at: usize,
    fde: Result<FrameDescriptionEntry, ReadError>,
    out: &mut String,
) -> Result<(), AllocError>
    ensures { OnOk result (string_bytes out.new ≡ string_bytes out.old ++ fde_line at fde) }
{
    match fde {
        Ok(fde) => {
            let start = fde.initial_address;
            let end = start.wrapping_add(fde.address_range);
            writeln!(out, "0x{start:x}..0x{end:x}: FDE 0x{at:x}")
        }
        Err(error) => push_unread(at, error, out),
    }
}

/// Appends the line of an FDE at an offset that can't be read.
#[tactic(auto, unfolding(crate::specs::Functions::unread_line))]
fn push_unread(at: usize, error: ReadError, out: &mut String) -> Result<(), AllocError>
    ensures { OnOk result (string_bytes out.new ≡ string_bytes out.old ++ unread_line at error) }
{
    let reason = ReadReason(error);
    writeln!(out, "FDE 0x{at:x} can't be read: {reason}")
}
