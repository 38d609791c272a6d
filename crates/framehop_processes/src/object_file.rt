//! A file that processes map, an ELF file or a PE file: where it is loaded, its unwind data and its symbols.
//!
//! The sections are copied, and the file's bytes are kept for its code, which is most of a large file. The module lies at no
//! address: the modules of all mappings of the file share its unwind data.
ghost use Rattle.std.specs.Prelude.{◌≡◌, ◌⊎◌, ◌↔◌, IsTrue, ℕ, List, [], ◌++◌, Some, None, Ok, Err, IfOk, IfErr, OnOk, MatchResult, option_map, option_to_list};
ghost use Rattle.std.specs.Result.{result_err};
ghost use Rattle.framehop_object.specs.Elf.UnwindSections.{bytes_in, bytes_or_none, debug_frame_of};
ghost use Rattle.framehop_object.specs.declared.elf.error.ElfError.{ElfError};
ghost use Rattle.framehop_memory.specs.Segment.{base_of};
ghost use Rattle.framehop_processes.specs.ObjectFiles.{Contents, headers_view, headers_of, build_id_in, build_id_by, debug_link_in, contents_of, is_another, is_another_file, problem_by, problem_of, is_at_entry, debug_tables_of, AreTables, module_of, module_with, module_in, debug_frame_with, debug_frame_in, bare_module, export_tables_of, elf_contents_of, pe_contents_of, IsOutOfMemory, IsKeptWith, IsKeptOf};
ghost use Rattle.framehop_processes.specs.Code.{code_of_object};
ghost use Rattle.framehop_processes.specs.Constants.{constant_in};
ghost use Rattle.framehop_processes.specs.MappedBytes.{mapped_sections_view};
ghost use Rattle.framehop_processes.specs.Found.{has_names};
ghost use Rattle.framehop.specs.Parts.{is_unwind_data};
ghost use Rattle.framehop_processes.specs.Place.{function_at, unnamed_start};
ghost use Rattle.framehop_processes.specs.declared.object_file.FileProblem.{FileProblem};

use crate::code::{FileCode, FilePart, bytes_from, code_from, code_of, no_code};
use crate::constants::{constant_parts, first_word};
use crate::exports::exported_functions;
use crate::function_start::function_start;
use crate::made_up_id::is_made_up;
use crate::mapped_bytes::{MappedBytes, kept_sections};
use crate::pe_file;
use crate::read_refusal::ReadRefusal;
use crate::symbols::{Symbols, kept_symbols, read_all_symbols, read_symbols};
use framehop::Module;
use framehop::section::ExplicitModuleSectionInfo;
use framehop_bytes::string::before_nul;
use framehop_memory::segment::{Segment, base_avma};
use framehop_object::elf::build_id::read_build_id;
use framehop_object::elf::decompressed::ContentsError;
use framehop_object::elf::elf_file::ElfFile;
use framehop_object::elf::error::ElfError;
use framehop_object::elf::header::read_file_header;
use framehop_object::elf::program_header::{ProgramHeader, read_program_headers};
use framehop_object::elf::segment::loaded_segments;
use framehop_object::elf::unwind_sections::{
    debug_frame_sections, has_eh_frame, read_debug_frame, unwind_sections_with,
};
use framehop_object::pe::error::PeError;
use framehop_object::pe::exports::read_export_directory;
use framehop_object::pe::header::is_pe;
use framehop_object::pe::pe_file::PeFile;
use std::alloc::{AllocError, Global};
use thiserror::Error;

/// The size of the code from the entry point of a file on in which a process begins, in bytes: a call of it, or a jump, leads
/// away.
const ENTRY_SIZE: u64 = 64;

/// A file that processes map: its segments with their code, its functions, and its unwind data, which is read once. It owns
/// all of them; its modules are of the type of those that lend bytes for `'m`.
#[derive(Drop)]
pub struct ObjectFile<'m> {
    segments: Vec<Segment>,
    /// Where a process begins in it (SVMA), or 0.
    entry: u64,
    /// The code of each segment.
    code: FileCode,
    /// Where the data is that no process changes.
    constants: Vec<FilePart>,
    symbols: Vec<Symbols>,
    /// At no address. The modules of mappings share its unwind data.
    module: Module<MappedBytes<'m>>,
    /// The same by `.debug_frame` only, where the file has `.eh_frame`, too.
    debug_frame: Module<MappedBytes<'m>>,
    /// Its build id, or the GUID and the age of its program database: no bytes where it has none.
    build_id: Vec<u8>,
    /// The name of its debug file by `.gnu_debuglink`: no bytes where it has none.
    debug_link: Vec<u8>,
    /// Why its `.debug_frame` is not read.
    frames_problem: Option<ContentsError>,
}

/// Why a file gives no unwind data and no names.
#[derive(Clone, Copy, Debug, PartialEq, Eq, Error)]
pub enum FileProblem {
    /// It is not given.
    #[error("not read")]
    NotRead(ReadRefusal),
    /// It is no ELF file that can be read.
    #[error("{0}")]
    Elf(ElfError),
    /// It is a PE file that can't be read.
    #[error("{0}")]
    Pe(PeError),
    /// Its build id is not the one that is wanted.
    #[error("its build id is not the recording's")]
    OtherBuildId,
}

impl FileProblem {
    /// Returns whether memory ran out.
    pub(crate) fn is_out_of_memory(self) -> bool
        ensures { IsTrue result ↔ IsOutOfMemory self }
    {
        self == FileProblem::Elf(ElfError::OutOfMemory)
            || self == FileProblem::Pe(PeError::OutOfMemory)
    }
}

impl From<ElfError> for FileProblem {
    ghost use Rattle.framehop_processes.specs.declared.object_file.FileProblem.TheVariants.{Elf};

    ghost from_gives = { λ value error. error ≡ Elf value };

    fn from(value: ElfError) -> Self {
        FileProblem::Elf(value)
    }
}

impl From<PeError> for FileProblem {
    ghost use Rattle.framehop_processes.specs.declared.object_file.FileProblem.TheVariants.{Pe};

    ghost from_gives = { λ value error. error ≡ Pe value };

    fn from(value: PeError) -> Self {
        FileProblem::Pe(value)
    }
}

impl From<AllocError> for FileProblem {
    ghost use Rattle.framehop_object.specs.declared.elf.error.ElfError.TheVariants.{OutOfMemory};
    ghost use Rattle.framehop_processes.specs.declared.object_file.FileProblem.TheVariants.{Elf};

    ghost from_gives = { λ value error. error ≡ Elf OutOfMemory };

    fn from(_value: AllocError) -> Self {
        FileProblem::Elf(ElfError::OutOfMemory)
    }
}

impl<'m> ObjectFile<'m> {
    /// Reads an ELF file or a PE file. Where a build id is wanted, the file's must be the same; that of a PE file
    /// is the GUID and the age of its program database.
    ///
    /// # Errors
    ///
    /// `OtherBuildId`, and the refusals of the file's headers and of its section names; `OutOfMemory`. A section
    /// that can't be read counts as absent.
    pub fn new(alloc: Global, bytes: Vec<u8>, wanted: &[u8]) -> Result<Self, FileProblem>
        ensures kept { IfOk result (λ object. IsKeptOf bytes.items [] object) }
        ensures wanted { IfOk result (λ _. problem_of bytes.items wanted.now ≡ None) }
        ensures refused { IfErr result (λ problem. IsOutOfMemory problem
            ⊎ (problem_of bytes.items wanted.now ≡ Some problem)) }
    {
        let mut object = read_parts(alloc, bytes.as_slice(), wanted)?;
        object.code = code_of(alloc, bytes, object.segments.as_slice())?;
        Ok(object)
    }

    /// Takes the functions of the file's debug file, which are asked before its own: nothing where it can't be
    /// read, or has not the file's build id. Fails only where an allocation does.
    pub(crate) fn add_debug_names(&mut self, alloc: Global, bytes: &[u8]) -> Result<(), ElfError>
        ensures kept { (file : List ℕ) → IsKeptOf file [] self.old
            → OnOk result (IsKeptOf file (debug_tables_of self.old.build_id.items bytes.now) self.new) }
        ensures same { self.new.build_id ≡ self.old.build_id }
        ensures same_link { self.new.debug_link ≡ self.old.debug_link }
        ensures refused { IfErr result (λ error. error ≡ ElfError.OutOfMemory) }
    {
        let build_id = self.build_id.as_slice();
        let Some(symbols) = read_debug_symbols(alloc, build_id, bytes)? else {
            return Ok(());
        };
        Ok(self.symbols.insert(0, symbols)?)
    }

    /// Returns the build id of the file, or no bytes.
    pub fn build_id(&self) -> &[u8]
        ensures { result.now ≡ self.now.build_id.items }
    {
        self.build_id.as_slice()
    }

    /// Returns the name of the file's debug file, by its section `.gnu_debuglink`, or no bytes.
    pub(crate) fn debug_link(&self) -> &[u8]
        ensures { result.now ≡ self.now.debug_link.items }
    {
        self.debug_link.as_slice()
    }

    /// Returns why the file's `.debug_frame` is not read, if it has one and that is so.
    pub fn frames_problem(&self) -> Option<ContentsError>
        ensures { result ≡ self.now.frames_problem }
    {
        self.frames_problem
    }

    /// Returns where the stated address 0 of the file is (AVMA), if `size` bytes of it from an offset on are
    /// mapped at an AVMA.
    pub fn base(&self, offset: u64, size: u64, avma: u64) -> Option<u64>
        ensures { result ≡ base_of self.now.segments.items offset size avma }
    {
        base_avma(self.segments.as_slice(), offset, size, avma)
    }

    /// Returns the segments that are loaded, in the order of the file.
    pub fn segments(&self) -> &[Segment]
        ensures { result.now ≡ self.now.segments.items }
    {
        self.segments.as_slice()
    }

    /// Returns whether a process begins in the file a few instructions before an address (SVMA): the address is in the 64
    /// bytes from the file's entry point on.
    pub(crate) fn is_at_entry(&self, svma: u64) -> bool
        ensures { result ≡ is_at_entry self.now.entry svma }
    {
        self.entry != 0 && self.entry <= svma && svma - self.entry < ENTRY_SIZE
    }

    /// Returns whether the file or its debug file has the name of a function.
    pub fn has_names(&self) -> bool
        ensures { result ≡ has_names self.now.symbols.items }
    {
        for symbols in &self.symbols {
            if !symbols.table.is_empty() {
                return true;
            }
        }
        false
    }

    /// Returns whether the file has unwind data.
    pub fn has_unwind_data(&self) -> bool
        ensures { result ≡ is_unwind_data self.now.«module».unwind_data }
    {
        self.module.has_unwind_data()
    }

    /// Returns the code of the file from an address (SVMA) on, as far as a segment has it.
    pub(crate) fn code_from(&self, svma: u64) -> Option<&[u8]>
        ensures { option_map (λ code. code.now) result ≡ code_of_object svma self.now }
    {
        code_from(&self.code, svma)
    }

    /// Returns the word of eight bytes at an address (SVMA), if the file has it in data that no process changes.
    pub(crate) fn constant(&self, svma: u64) -> Option<u64>
        ensures { result ≡ constant_in svma self.now }
    {
        let bytes = bytes_from(self.code.file(), self.constants.as_slice(), svma)?;
        first_word(bytes)
    }

    /// Returns whether the file has much code.
    pub(crate) fn has_large_code(&self) -> bool {
        self.code.is_large()
    }

    /// Returns a module of the file that lies at no address.
    pub fn module(&self) -> &Module<MappedBytes<'m>>
        ensures { result.now ≡ self.now.«module» }
    {
        &self.module
    }

    /// Returns a module of the file's `.debug_frame` that lies at no address: without unwind data where the file has none
    /// beside its `.eh_frame`.
    pub fn debug_frame(&self) -> &Module<MappedBytes<'m>>
        ensures { result.now ≡ self.now.debug_frame }
    {
        &self.debug_frame
    }

    /// Returns the name of the function that has an address (SVMA), and how far the address is from its
    /// start: by the debug file, then by `.symtab`, and where these have none by `.dynsym`.
    pub fn function_at(&self, svma: u64) -> Option<(&[u8], u64)>
        ensures { option_map (λ found. (found.0.now, found.1)) result ≡ function_at self.now.symbols.items svma }
    {
        for symbols in &self.symbols {
            if let Some(found) = symbols.function_at(svma) {
                return Some(found);
            }
        }
        None
    }

    /// Returns where the function begins (SVMA) that has an address (SVMA) below 4 GiB, by the file's unwind data, and else
    /// by its `.debug_frame`: for a function without a name.
    pub fn unnamed_start(&self, svma: u64) -> Option<u64>
        ensures { result ≡ unnamed_start self.now svma }
    {
        let relative_address = u32::try_from(svma).ok()?;
        match function_start(&self.module, relative_address) {
            Some(start) => Some(start),
            None => function_start(&self.debug_frame, relative_address),
        }
    }
}

/// Reads an ELF file or a PE file, without its code.
fn read_parts<'m>(alloc: Global, bytes: &[u8], wanted: &[u8]) -> Result<ObjectFile<'m>, FileProblem>
    ensures kept { IfOk result (λ object. (contents : Contents) × (contents_of bytes.now ≡ Ok contents)
        × IsKeptWith bytes.now contents [] object) }
    ensures wanted { IfOk result (λ _. problem_of bytes.now wanted.now ≡ None) }
    ensures refused { IfErr result (λ problem. IsOutOfMemory problem
        ⊎ (problem_of bytes.now wanted.now ≡ Some problem)) }
{
    if is_pe(bytes) {
        return read_pe(alloc, bytes, wanted);
    }
    read_elf(alloc, bytes, wanted)
}

/// Reads a PE file, without its code. Where the GUID and the age of a program database are wanted, the file's must be the
/// same.
fn read_pe<'m>(alloc: Global, bytes: &[u8], wanted: &[u8]) -> Result<ObjectFile<'m>, FileProblem>
    ensures kept { IfOk result (λ object. (contents : Contents) × (pe_contents_of bytes.now ≡ Ok contents)
        × IsKeptWith bytes.now contents [] object) }
    ensures wanted { IfOk result (λ _. problem_by bytes.now wanted.now (pe_contents_of bytes.now) ≡ None) }
    ensures refused { IfErr result (λ problem. IsOutOfMemory problem
        ⊎ (problem_by bytes.now wanted.now (pe_contents_of bytes.now) ≡ Some problem)) }
{
    let pe = PeFile::read(alloc, bytes)?;
    let identity = pe_file::identity_in(&pe);
    if is_another_file(wanted, identity, bytes) {
        return Err(FileProblem::OtherBuildId);
    }
    let module = pe_file::module_in(alloc, &pe)?;
    let segments = pe_file::segments_of(alloc, pe.sections())?;
    let symbols = read_exports(alloc, &pe)?;
    let build_id = Vec::from_slice(alloc, identity)?;
    Ok(ObjectFile {
        segments,
        entry: 0,
        code: no_code(alloc),
        constants: Vec::new(alloc),
        symbols,
        module,
        debug_frame: bare_module(alloc)?,
        build_id,
        debug_link: Vec::new(alloc),
        frames_problem: None,
    })
}

/// Reads the functions that a PE file exports: none where the export directory can't be read.
fn read_exports(alloc: Global, pe: &PeFile<'_>) -> Result<Vec<Symbols>, ElfError>
    ensures kept { IfOk result (λ all. AreTables (export_tables_of pe.now) all.items) }
    ensures refused { IfErr result (λ error. error ≡ ElfError.OutOfMemory) }
{
    let mut all = Vec::new(alloc);
    let Ok(directory) = read_export_directory(pe) else {
        return Ok(all);
    };
    let pdata = pe_file::pdata_in(pe);
    let functions = exported_functions(alloc, pe.header(), directory, pdata)?;
    all.push(kept_symbols(alloc, functions, Vec::new(alloc), directory)?)?;
    Ok(all)
}

/// Returns a module without unwind data that lies at no address.
pub(crate) fn bare_module<'m>(alloc: Global) -> Result<Module<MappedBytes<'m>>, AllocError>
    ensures { IfOk result (λ made. made ≡ bare_module) }
{
    let info: ExplicitModuleSectionInfo<MappedBytes<'m>> = ExplicitModuleSectionInfo::default();
    module_of(alloc, info)
}

/// Reads an ELF file, without its code. Where a build id is wanted, the file's must be the same.
fn read_elf<'m>(alloc: Global, bytes: &[u8], wanted: &[u8]) -> Result<ObjectFile<'m>, FileProblem>
    ensures kept { IfOk result (λ object. (contents : Contents) × (elf_contents_of bytes.now ≡ Ok contents)
        × IsKeptWith bytes.now contents [] object) }
    ensures wanted { IfOk result (λ _. problem_by bytes.now wanted.now (elf_contents_of bytes.now) ≡ None) }
    ensures refused { IfErr result (λ problem. IsOutOfMemory problem
        ⊎ (problem_by bytes.now wanted.now (elf_contents_of bytes.now) ≡ Some problem)) }
{
    let headers = read_headers(alloc, bytes)?;
    let elf = &headers.elf;
    let found = build_id_in(&headers);
    if is_another_file(wanted, found, bytes) {
        return Err(FileProblem::OtherBuildId);
    }
    let segments = loaded_segments(alloc, headers.segments.as_slice())?;
    let constants = constant_parts(alloc, elf.sections())?;
    let symbols = read_all_symbols(alloc, elf)?;
    let frames = read_frames(alloc, elf)?;
    let frames_problem = frames.problem;
    let (module, debug_frame) = modules_in(alloc, elf, frames.contents)?;
    let build_id = Vec::from_slice(alloc, found)?;
    let debug_link = Vec::from_slice(alloc, debug_link_in(elf))?;
    Ok(ObjectFile {
        segments,
        entry: elf.header().e_entry,
        code: no_code(alloc),
        constants,
        symbols,
        module,
        debug_frame,
        build_id,
        debug_link,
        frames_problem,
    })
}

/// What is read of the `.debug_frame` of a file.
#[derive(Drop)]
struct Frames {
    /// What it holds, if the file has it.
    contents: Option<Vec<u8>>,
    /// Why that can't be had.
    problem: Option<ContentsError>,
}

/// Reads the `.debug_frame` of a file. Fails only where an allocation does.
fn read_frames(alloc: Global, elf: &ElfFile<'_>) -> Result<Frames, AllocError>
    ensures contents { IfOk result (λ frames. bytes_in frames.contents ≡ bytes_or_none (debug_frame_of elf.now)) }
    ensures problem { IfOk result (λ frames. frames.problem ≡ result_err (debug_frame_of elf.now)) }
{
    match read_debug_frame(alloc, elf) {
        Ok(contents) => Ok(Frames {
            contents,
            problem: None,
        }),
        Err(ContentsError::OutOfMemory) => Err(AllocError),
        Err(problem) => Ok(Frames {
            contents: None,
            problem: Some(problem),
        }),
    }
}

/// Returns two modules that lie at no address: with the unwind data of the file's sections, and with its `.debug_frame`
/// where it has `.eh_frame`, too. Without either of them the second has no unwind data.
fn modules_in<'m>(
    alloc: Global,
    elf: &ElfFile<'_>,
    debug_frame: Option<Vec<u8>>,
) -> Result<(Module<MappedBytes<'m>>, Module<MappedBytes<'m>>), ElfError>
    ensures loaded { IfOk result (λ made. made.0 ≡ module_in elf.now (bytes_in debug_frame)) }
    ensures debug_frame { IfOk result (λ made. made.1 ≡ debug_frame_in elf.now (bytes_in debug_frame)) }
    ensures refused { IfErr result (λ error. error ≡ ElfError.OutOfMemory) }
{
    if has_eh_frame(elf) {
        let module = module_in(alloc, elf, None)?;
        Ok((module, debug_frame_in(alloc, elf, debug_frame)?))
    } else {
        let module = module_in(alloc, elf, debug_frame)?;
        Ok((module, debug_frame_in(alloc, elf, None)?))
    }
}

/// Returns a module that lies at no address, with the unwind data of the file's sections and these bytes of `.debug_frame`.
fn module_in<'m>(
    alloc: Global,
    elf: &ElfFile<'_>,
    debug_frame: Option<Vec<u8>>,
) -> Result<Module<MappedBytes<'m>>, ElfError>
    ensures loaded { IfOk result (λ made. made ≡ module_with elf.now (bytes_in debug_frame)) }
    ensures refused { IfErr result (λ error. error ≡ ElfError.OutOfMemory) }
{
    let info = unwind_sections_with(alloc, elf, debug_frame)?;
    Ok(module_of(alloc, kept_sections(info))?)
}

/// Returns a module that lies at no address, with these bytes of `.debug_frame`.
fn debug_frame_in<'m>(
    alloc: Global,
    elf: &ElfFile<'_>,
    debug_frame: Option<Vec<u8>>,
) -> Result<Module<MappedBytes<'m>>, AllocError>
    ensures { IfOk result (λ made. made ≡ debug_frame_with elf.now (bytes_in debug_frame)) }
{
    let info = debug_frame_sections(elf, debug_frame);
    module_of(alloc, kept_sections(info))
}

/// Returns a module that lies at no address, with the unwind data of sections.
fn module_of<'m>(
    alloc: Global,
    info: ExplicitModuleSectionInfo<MappedBytes<'m>>,
) -> Result<Module<MappedBytes<'m>>, AllocError>
    ensures { IfOk result (λ made. made ≡ module_of (mapped_sections_view info.entry)) }
{
    match Module::new(alloc, String::new(alloc), 0..0, 0, info) {
        Ok(made) => Ok(made),
        Err(_) => Err(AllocError),
    }
}

/// Reads the symbols of the debug file of a build id: none where it can't be read, or has not the same build id.
fn read_debug_symbols(
    alloc: Global,
    build_id: &[u8],
    file: &[u8],
) -> Result<Option<Symbols>, ElfError>
    ensures kept { IfOk result (λ symbols. AreTables (debug_tables_of build_id.now file.now) (option_to_list symbols)) }
    ensures refused { IfErr result (λ error. error ≡ ElfError.OutOfMemory) }
{
    let headers = match read_headers(alloc, file) {
        Ok(headers) => headers,
        Err(ElfError::OutOfMemory) => return Err(ElfError::OutOfMemory),
        Err(_) => return Ok(None),
    };
    if is_another(build_id, build_id_in(&headers)) {
        return Ok(None);
    }
    let elf = &headers.elf;
    let symbols = read_symbols(alloc, elf, elf.section(b".symtab"))?;
    Ok(symbols)
}

/// A file with its segments.
#[derive(Drop)]
struct Headers<'a> {
    elf: ElfFile<'a>,
    segments: Vec<ProgramHeader>,
}

/// Reads the segments and the sections of a file.
#[tactic(auto, unfolding(crate::specs::ObjectFiles::headers_of))]
fn read_headers<'a>(alloc: Global, file: &'a [u8]) -> Result<Headers<'a>, ElfError>
    ensures { MatchResult result
        (λ headers. headers_of file.entry.now ≡ Ok (headers_view headers))
        (λ error. (error ≡ ElfError.OutOfMemory) ⊎ (headers_of file.entry.now ≡ Err error)) }
{
    let header = read_file_header(file)?;
    let segments = read_program_headers(alloc, file, header)?;
    let elf = ElfFile::with_header(alloc, file, header)?;
    Ok(Headers { elf, segments })
}

/// Returns whether a build id that is wanted is another.
pub(crate) fn is_another(wanted: &[u8], found: &[u8]) -> bool
    ensures { result ≡ is_another wanted.now found.now }
{
    !wanted.is_empty() && found != wanted
}

/// Returns whether a file is another than the one whose build id is wanted. One without a build id is that for which LLDB makes
/// it up.
fn is_another_file(wanted: &[u8], found: &[u8], file: &[u8]) -> bool
    ensures { result ≡ is_another_file wanted.now found.now file.now }
{
    is_another(wanted, found) && !(found.is_empty() && is_made_up(wanted, file))
}

/// Returns the build id of a file, or no bytes.
fn build_id_in<'a>(headers: &Headers<'a>) -> &'a [u8]
    ensures { result.now ≡ build_id_in (headers_view headers.entry.now) }
{
    let elf = &headers.elf;
    match read_build_id(elf.bytes(), headers.segments.as_slice(), elf.sections()) {
        Some(build_id) => build_id,
        None => &[],
    }
}

/// Returns the name of a file's debug file, or no bytes: the string at the front of `.gnu_debuglink`.
///
/// Source: GDB, "Debugging Information in Separate Files".
fn debug_link_in<'a>(elf: &ElfFile<'a>) -> &'a [u8]
    ensures { result.now ≡ debug_link_in elf.entry.now }
{
    match elf.section(b".gnu_debuglink") {
        Some(section) => match elf.contents(section) {
            Ok(contents) => before_nul(contents),
            Err(_) => &[],
        },
        None => &[],
    }
}

/// Returns the build id of a file as [`ObjectFile::build_id`] has it, or no bytes where it has none or can't be read.
pub fn build_id_of(alloc: Global, file: &[u8]) -> Result<&[u8], AllocError>
    ensures { IfOk result (λ build_id. build_id.now ≡ build_id_by (contents_of file.entry.now)) }
{
    if is_pe(file) {
        return build_id_of_pe(alloc, file);
    }
    match read_headers(alloc, file) {
        Ok(headers) => Ok(build_id_in(&headers)),
        Err(ElfError::OutOfMemory) => Err(AllocError),
        Err(_) => Ok(&[]),
    }
}

/// Returns the same of a PE file.
fn build_id_of_pe(alloc: Global, file: &[u8]) -> Result<&[u8], AllocError>
    ensures { IfOk result (λ build_id. build_id.now ≡ build_id_by (pe_contents_of file.entry.now)) }
{
    match PeFile::read(alloc, file) {
        Ok(pe) => Ok(pe_file::identity_in(&pe)),
        Err(PeError::OutOfMemory) => Err(AllocError),
        Err(_) => Ok(&[]),
    }
}
