//! What a minidump says of a process.
//!
//! A minidump says where a module is loaded, and not which parts of it have code. So the files of the modules are read
//! first, and the segments of an ELF file are taken from what was read or from its first bytes in memory; a module of
//! Windows is code as a whole. All else becomes a `Dump`, as of a core file.
ghost use Rattle.std.specs.Prelude.{◌≡◌, ◌⊎◌, ◌++◌, ◌∷◌, [], ℕ, None, Ok, Err, MatchResult, IfOk, OnOk, length, map, option_map};
ghost use Rattle.std.specs.List.{flat_map, list_any};
ghost use Rattle.framehop_dumps.specs.Added.{object_called};
ghost use Rattle.framehop_dumps.specs.Dump.{thread_view, mapped_code_view, dump_view};
ghost use Rattle.framehop_memory.specs.Memory.{memory_view};
ghost use Rattle.framehop_dumps.specs.Image.{segments_in};
ghost use Rattle.framehop_dumps.specs.Minidump.{each, each_within, names_limit, machine_of, cause_of, last_address, mask_up_to, thread_in, loaded_view, loaded_size, loaded_if, build_id_by, loaded_in, named_in, parts_view, parts_of, separator, file_name, program_name, is_wow64, has_wow64, dumped_threads_of, dump_in, object_segments, or_else, base_by_name, whole, all_regions_of, segment_code, code_by, code_in, code_of, AreModuleFiles, dump_with};
ghost use Rattle.framehop_object.specs.Elf.Segment.{loaded_segments_of};
ghost use Rattle.framehop_dump_files.specs.Minidump.CodeView.{codeview_view};
ghost use Rattle.framehop_dump_files.specs.declared.minidump.error.MinidumpError.{MinidumpError};
ghost use Rattle.framehop_processes.specs.Files.{is_unix_path, IsAdded};
ghost use Rattle.framehop_dumps.specs.ThreadNames.{named_view};

use crate::dump::{Dump, Kind, MappedCode, Registers, Thread};
use crate::image::{head_at, segments_in};
use crate::minidump_cause::cause_of;
use crate::order::crashed_first;
use crate::shared_headers::check_modules;
use crate::thread_names::{NamedThread, ThreadNames};
use framehop_dump_files::coredump::core_file::Machine;
use framehop_dump_files::minidump::codeview::{CodeView, read_codeview};
use framehop_dump_files::minidump::error::MinidumpError;
use framehop_dump_files::minidump::exception::{Exception, context_of, read_exception};
use framehop_dump_files::minidump::linux_maps::read_linux_maps;
use framehop_dump_files::minidump::location::read_located;
use framehop_dump_files::minidump::memory::read_memory;
use framehop_dump_files::minidump::memory_info::read_memory_info;
use framehop_dump_files::minidump::misc_info::read_process_id;
use framehop_dump_files::minidump::module::{Module, read_modules};
use framehop_dump_files::minidump::stream::{Stream, read_streams};
use framehop_dump_files::minidump::string::{read_far_string, read_string};
use framehop_dump_files::minidump::system_info::{Machine as SystemMachine, read_system_info};
use framehop_dump_files::minidump::thread::{Thread as ListedThread, read_threads};
use framehop_dump_files::minidump::thread_name::{ThreadName, read_thread_names};
use framehop_memory::code::CodeSegments;
use framehop_memory::memory::ProcessMemory;
use framehop_memory::segment::{Segment, base_avma, base_from};
use framehop_object::elf::segment::loaded_segments;
use framehop_processes::files::{FileSource, Files, is_unix_path, is_windows_path};
use std::alloc::{AllocError, Global};

/// The platform of Windows.
pub(crate) const WINDOWS: u32 = 2;

/// A module of a minidump.
#[derive(Drop)]
pub struct LoadedModule {
    /// Its first address (AVMA).
    pub base: u64,
    /// How many bytes it takes in memory, as the minidump says.
    pub size: u32,
    /// The name of its file.
    pub name: Vec<u8>,
    /// The build id that the file must have, or no bytes.
    pub build_id: Vec<u8>,
}

/// The parts of a minidump that others are read by.
#[derive(Drop)]
pub struct Parts {
    /// Its streams, in the order of the file.
    pub streams: Vec<Stream>,
    /// Its modules, with their names and their build ids, in the order of the file.
    pub modules: Vec<LoadedModule>,
    /// The names of its threads.
    pub names: Vec<NamedThread>,
}

/// Reads the streams of a minidump, its modules with their names and their build ids, and the names of its threads, in the
/// order of the file.
///
/// # Errors
///
/// The first refusal of the header, of the directory, of the list of modules, and then, module by module, of the
/// name and of the CodeView record, and `SharedNames` where these take more than twice the bytes of the file; then of the
/// list of the names of threads, and of each of these, the same. `OutOfMemory`.
#[tactic(auto, unfolding(crate::specs::Minidump::parts_of, crate::specs::Minidump::modules_in, crate::specs::Minidump::names_in))]
pub fn read_parts(alloc: Global, file: &[u8]) -> Result<Parts, MinidumpError>
    ensures { MatchResult result
        (λ parts. parts_of file.now ≡ Ok (parts_view parts))
        (λ error. (error ≡ MinidumpError.OutOfMemory) ⊎ (parts_of file.now ≡ Err error)) }
{
    let streams = read_streams(alloc, file)?;
    let listed = read_modules(alloc, file, streams.as_slice())?;
    let modules = loaded_modules(alloc, file, listed.as_slice())?;
    let placed = read_thread_names(alloc, file, streams.as_slice())?;
    let names = named_threads(alloc, file, placed.as_slice())?;
    Ok(Parts {
        streams,
        modules,
        names,
    })
}

/// Reads the names and the build ids of modules.
fn loaded_modules(
    alloc: Global,
    file: &[u8],
    modules: &[Module],
) -> Result<Vec<LoadedModule>, MinidumpError>
    ensures { MatchResult result
        (λ loaded. each_within (loaded_in file.now) loaded_size (names_limit file.now) modules.now ≡ Ok (map loaded_view loaded.items))
        (λ error. (error ≡ MinidumpError.OutOfMemory)
        ⊎ (each_within (loaded_in file.now) loaded_size (names_limit file.now) modules.now ≡ Err error)) }
{
    let mut loaded = Vec::new(alloc);
    let mut left = names_limit(file);
    for module in modules {
        let one = loaded_in(alloc, file, left, *module)?;
        left = left.saturating_sub(loaded_size(&one));
        let Ok(()) = loaded.push(one) else {
            return Err(MinidumpError::OutOfMemory);
        };
    }
    Ok(loaded)
}

/// Returns how many bytes names and build ids may take together: no more than those that share no bytes of the file.
fn names_limit(file: &[u8]) -> usize
    ensures { result ≡ names_limit file.now }
{
    file.len() + file.len()
}

/// Reads the name and the build id of a module, which may take so many bytes.
#[tactic(auto, unfolding(crate::specs::Minidump::loaded_in))]
fn loaded_in(
    alloc: Global,
    file: &[u8],
    left: usize,
    module: Module,
) -> Result<LoadedModule, MinidumpError>
    ensures { MatchResult result
        (λ loaded. loaded_in file.now left «module» ≡ Ok (loaded_view loaded))
        (λ error. (error ≡ MinidumpError.OutOfMemory) ⊎ (loaded_in file.now left «module» ≡ Err error)) }
{
    let name = read_string(alloc, file, module.name)?;
    let codeview = read_codeview(file, module.codeview)?;
    let Ok(build_id) = Vec::from_slice(alloc, build_id_by(name.as_bytes(), codeview)) else {
        return Err(MinidumpError::OutOfMemory);
    };
    let loaded = LoadedModule {
        base: module.base,
        size: module.size,
        name: name.into_bytes(),
        build_id,
    };
    loaded_if(left, module.name, loaded)
}

/// Returns a module, if its name and its build id take at most so many bytes.
fn loaded_if(left: usize, offset: u32, loaded: LoadedModule) -> Result<LoadedModule, MinidumpError>
    ensures { MatchResult result
        (λ same. loaded_if left offset (loaded_view loaded) ≡ Ok (loaded_view same))
        (λ error. loaded_if left offset (loaded_view loaded) ≡ Err error) }
{
    if loaded_size(&loaded) > left {
        return Err(MinidumpError::SharedNames {
            offset: u64::from(offset),
        });
    }
    Ok(loaded)
}

/// Returns how many bytes the name and the build id of a module take.
fn loaded_size(loaded: &LoadedModule) -> usize
    ensures { result ≡ loaded_size (loaded_view loaded.now) }
{
    loaded.name.len() + loaded.build_id.len()
}

/// Reads the names of threads.
fn named_threads(
    alloc: Global,
    file: &[u8],
    placed: &[ThreadName],
) -> Result<Vec<NamedThread>, MinidumpError>
    ensures { MatchResult result
        (λ names. each_within (named_in file.now) (λ named. length named.name) (names_limit file.now) placed.now
        ≡ Ok (map named_view names.items))
        (λ error. (error ≡ MinidumpError.OutOfMemory)
        ⊎ (each_within (named_in file.now) (λ named. length named.name) (names_limit file.now) placed.now ≡ Err error)) }
{
    let mut names = Vec::new(alloc);
    let mut left = names_limit(file);
    for one in placed {
        let named = named_in(alloc, file, left, *one)?;
        left = left.saturating_sub(named_size(&named));
        let Ok(()) = names.push(named) else {
            return Err(MinidumpError::OutOfMemory);
        };
    }
    Ok(names)
}

/// Returns how many bytes the name of a thread takes.
fn named_size(named: &NamedThread) -> usize
    ensures { result ≡ length (named_view named.now).name }
{
    named.name.len()
}

/// Reads the name of a thread, which may take so many bytes.
#[tactic(auto, unfolding(crate::specs::Minidump::named_in))]
fn named_in(
    alloc: Global,
    file: &[u8],
    left: usize,
    placed: ThreadName,
) -> Result<NamedThread, MinidumpError>
    ensures { MatchResult result
        (λ named. named_in file.now left placed ≡ Ok (named_view named))
        (λ error. (error ≡ MinidumpError.OutOfMemory) ⊎ (named_in file.now left placed ≡ Err error)) }
{
    let name = read_far_string(alloc, file, placed.name)?;
    if name.len() > left {
        return Err(MinidumpError::SharedNames {
            offset: placed.name,
        });
    }
    Ok(NamedThread {
        tid: placed.tid,
        name: name.into_bytes(),
    })
}

/// Returns what the file of a name must have in common with its module: the build id of an ELF file, and of a file
/// with a name of Windows the GUID and the age of its program database. No bytes, else.
fn build_id_by<'a>(name: &[u8], codeview: Option<CodeView<'a>>) -> &'a [u8]
    ensures { result.now ≡ build_id_by name.now (option_map codeview_view codeview.entry) }
{
    match codeview {
        Some(CodeView::Elf { build_id }) => build_id,
        Some(CodeView::Pdb { guid_and_age, .. }) if is_windows_path(name) => guid_and_age,
        _ => &[],
    }
}

/// Reads what else a minidump says of its process than its modules, but for where its code was mapped.
///
/// # Errors
///
/// The first refusal of the system information, of the exception, of the threads and their contexts, `NoThreads` where none
/// is listed, that of the list of memory, of that of its regions, and of the number of the process; `SharedHeaders`;
/// `OutOfMemory`.
#[tactic(auto, unfolding(crate::specs::Minidump::dump_in))]
pub fn dump_in<'a>(
    alloc: Global,
    file: &'a [u8],
    parts: &'a Parts,
) -> Result<Dump<'a>, MinidumpError>
    ensures { MatchResult result
        (λ dump. dump_in file.entry.now (parts_view parts.entry.now) ≡ Ok (dump_view dump))
        (λ error. (error ≡ MinidumpError.OutOfMemory)
        ⊎ (dump_in file.entry.now (parts_view parts.entry.now) ≡ Err error)) }
{
    let streams = parts.streams.as_slice();
    let modules = parts.modules.as_slice();
    let system = read_system_info(file, streams)?;
    let threads = dumped_threads(alloc, file, parts, system.platform)?;
    let ranges = read_memory(alloc, file, streams)?;
    let memory = ProcessMemory::new(alloc, file, ranges)?;
    let regions = all_regions(alloc, file, streams)?;
    let segments = CodeSegments::new(alloc, regions)?;
    let pid = read_process_id(file, streams)?;
    check_modules(alloc, &memory, modules)?;
    Ok(Dump {
        kind: Kind::Minidump,
        memory,
        segments,
        machine: machine_of(system.machine),
        threads,
        code: Vec::new(alloc),
        name: program_name(system.platform, modules),
        pid,
        wow64: has_wow64(system.platform, modules),
    })
}

/// Reads the threads, those first that ended the process.
///
/// # Errors
///
/// The first refusal of the exception, of the threads and their contexts, `NoThreads` where none is listed; `OutOfMemory`.
#[tactic(auto, unfolding(crate::specs::Minidump::dumped_threads_of))]
fn dumped_threads<'a>(
    alloc: Global,
    file: &'a [u8],
    parts: &'a Parts,
    platform: u32,
) -> Result<Vec<Thread<'a>>, MinidumpError>
    ensures { MatchResult result
        (λ threads. dumped_threads_of file.entry.now (parts_view parts.entry.now) platform ≡ Ok (map thread_view threads.items))
        (λ error. (error ≡ MinidumpError.OutOfMemory)
        ⊎ (dumped_threads_of file.entry.now (parts_view parts.entry.now) platform ≡ Err error)) }
{
    let streams = parts.streams.as_slice();
    let exception = read_exception(file, streams)?;
    let listed = read_threads(alloc, file, streams)?;
    if listed.is_empty() {
        return Err(MinidumpError::NoThreads);
    }
    let of_all = Circumstances {
        platform,
        code_mask: mask_up_to(last_address(parts.modules.as_slice())),
        exception,
    };
    let names = ThreadNames::new(alloc, parts.names.as_slice())?;
    let threads = threads_in(alloc, file, of_all, &names, listed.as_slice())?;
    Ok(crashed_first(alloc, threads.as_slice())?)
}

/// Reads which memory could be executed: as Windows says it, and as Linux does.
///
/// # Errors
///
/// The first refusal of the list of regions, and of the text of Linux; `OutOfMemory`.
#[tactic(auto, unfolding(crate::specs::Minidump::all_regions_of))]
fn all_regions(
    alloc: Global,
    file: &[u8],
    streams: &[Stream],
) -> Result<Vec<Segment>, MinidumpError>
    ensures { MatchResult result
        (λ regions. all_regions_of file.now streams.now ≡ Ok regions.items)
        (λ error. (error ≡ MinidumpError.OutOfMemory) ⊎ (all_regions_of file.now streams.now ≡ Err error)) }
{
    let mut regions = read_memory_info(alloc, file, streams)?;
    let maps = read_linux_maps(alloc, file, streams)?;
    regions.extend_from_slice(maps.as_slice())?;
    Ok(regions)
}

/// Returns a mask of all bits up to the highest one of an address: all bits, for the address 0.
fn mask_up_to(address: u64) -> u64
    ensures { result ≡ mask_up_to address }
{
    if address == 0 {
        return u64::MAX;
    }
    u64::MAX >> address.leading_zeros()
}

/// Returns the last address of modules (AVMA), or 0 where there is none.
fn last_address(modules: &[LoadedModule]) -> u64
    ensures { result ≡ last_address (map loaded_view modules.now) }
{
    let mut last = 0;
    for module in modules {
        let end = module.base.saturating_add(u64::from(module.size));
        if end > last {
            last = end;
        }
    }
    last
}

/// Reads the registers of threads.
fn threads_in<'a>(
    alloc: Global,
    file: &'a [u8],
    of_all: Circumstances,
    names: &ThreadNames<'a>,
    listed: &[ListedThread],
) -> Result<Vec<Thread<'a>>, MinidumpError>
    ensures { MatchResult result
        (λ threads. each (thread_in file.entry.now of_all.platform of_all.code_mask of_all.exception (map named_view names.now.listed.now)) listed.now
        ≡ Ok (map thread_view threads.items))
        (λ error. (error ≡ MinidumpError.OutOfMemory)
        ⊎ (each (thread_in file.entry.now of_all.platform of_all.code_mask of_all.exception (map named_view names.now.listed.now)) listed.now ≡ Err error)) }
{
    let mut threads = Vec::new(alloc);
    for thread in listed {
        let one = thread_in(file, of_all, names, *thread)?;
        let Ok(()) = threads.push(one) else {
            return Err(MinidumpError::OutOfMemory);
        };
    }
    Ok(threads)
}

/// What a minidump says of all its threads.
#[derive(Clone, Copy)]
struct Circumstances {
    platform: u32,
    code_mask: u64,
    exception: Option<Exception>,
}

/// Reads the registers of a thread.
#[tactic(auto, unfolding(crate::specs::Minidump::thread_in))]
fn thread_in<'a>(
    file: &'a [u8],
    of_all: Circumstances,
    names: &ThreadNames<'a>,
    thread: ListedThread,
) -> Result<Thread<'a>, MinidumpError>
    ensures { MatchResult result
        (λ read. thread_in file.entry.now of_all.platform of_all.code_mask of_all.exception (map named_view names.now.listed.now) thread ≡ Ok (thread_view read))
        (λ error. thread_in file.entry.now of_all.platform of_all.code_mask of_all.exception (map named_view names.now.listed.now) thread ≡ Err error) }
{
    let values = read_located(file, context_of(thread, of_all.exception))?;
    Ok(Thread {
        tid: thread.tid,
        name: names.name_of(thread.tid),
        cause: cause_of(of_all.platform, thread.tid, of_all.exception),
        registers: Registers::Context {
            values,
            code_mask: of_all.code_mask,
        },
    })
}

/// Returns the machine.
fn machine_of(machine: SystemMachine) -> Machine
    ensures { result ≡ machine_of machine }
{
    match machine {
        SystemMachine::X86_64 => Machine::X86_64,
        SystemMachine::Aarch64 => Machine::Aarch64,
    }
}

/// Returns the name of the program: that of the first module.
fn program_name<'a>(platform: u32, modules: &'a [LoadedModule]) -> Option<&'a [u8]>
    ensures { option_map (λ name. name.now) result ≡ program_name platform (map loaded_view modules.entry.now) }
{
    let program = modules.first()?;
    Some(file_name(separator(platform), program.name.as_slice()))
}

/// Returns a file's name without its folders.
fn file_name(separator: u8, path: &[u8]) -> &[u8]
    ensures { result.now ≡ file_name separator path.entry.now }
{
    let mut start = 0;
    for (at, byte) in path.iter().enumerate() {
        if *byte == separator {
            start = at + 1;
        }
    }
    &path[start..]
}

/// Returns whether a process of 32 bits ran on a Windows of 64 bits.
fn has_wow64(platform: u32, modules: &[LoadedModule]) -> bool
    ensures { result ≡ has_wow64 platform (map loaded_view modules.now) }
{
    platform == WINDOWS && any_wow64(modules)
}

/// Returns whether the library is among modules that takes the calls of processes of 32 bits.
fn any_wow64(modules: &[LoadedModule]) -> bool
    ensures { result ≡ list_any is_wow64 (map loaded_view modules.now) }
{
    for module in modules {
        if is_wow64(module) {
            return true;
        }
    }
    false
}

/// Returns whether a module is that library.
fn is_wow64(module: &LoadedModule) -> bool
    ensures { result ≡ is_wow64 (loaded_view «module».now) }
{
    file_name(b'\\', module.name.as_slice()).eq_ignore_ascii_case(b"wow64.dll")
}

/// Returns the byte that parts folders in the paths of a platform.
fn separator(platform: u32) -> u8
    ensures { result ≡ separator platform }
{
    if platform == WINDOWS { b'\\' } else { b'/' }
}

/// Reads the files of modules, each once.
pub fn read_module_files<'m, S: FileSource>(
    alloc: Global,
    modules: &[LoadedModule],
    source: &S,
) -> Result<Files<'m>, AllocError>
    ensures { IfOk result (λ files. AreModuleFiles (S.source source.now) (map loaded_view modules.now) files) }
{
    let mut files = Files::new(alloc)?;
    for module in modules {
        add_file(alloc, source, &mut files, module)?;
    }
    Ok(files)
}

/// Reads the file of a module, if it has not been read.
fn add_file<S: FileSource>(
    alloc: Global,
    source: &S,
    files: &mut Files<'_>,
    module: &LoadedModule,
) -> Result<(), AllocError>
    ensures { OnOk result (IsAdded (S.source source.now) (loaded_view «module».now).name (loaded_view «module».now).build_id
        files.old files.new) }
{
    let build_id = module.build_id.as_slice();
    files.add(alloc, source, module.name.as_slice(), build_id)?;
    Ok(())
}

/// Returns a dump with the code of its modules, by what was read of their files.
pub fn with_code<'a>(
    alloc: Global,
    dump: Dump<'a>,
    files: &Files<'_>,
    modules: &'a [LoadedModule],
) -> Result<Dump<'a>, AllocError>
    ensures { IfOk result (λ whole. dump_view whole ≡ dump_with (dump_view dump.entry, map loaded_view modules.entry.now) files.now) }
{
    let mut dump = dump;
    dump.code = code_of(alloc, &dump.memory, files, modules)?;
    Ok(dump)
}

/// Returns the code of modules, by what was read of their files or else by their first bytes in memory.
pub fn code_of<'a>(
    alloc: Global,
    memory: &ProcessMemory<'a>,
    files: &Files<'_>,
    modules: &'a [LoadedModule],
) -> Result<Vec<MappedCode<'a>>, AllocError>
    ensures { IfOk result (λ code. map mapped_code_view code.items
        ≡ code_of (memory_view memory.now) files.now (map loaded_view modules.entry.now)) }
{
    let mut code = Vec::new(alloc);
    for module in modules {
        push_module(alloc, memory, files, &mut code, module)?;
    }
    Ok(code)
}

/// Appends the code of a module, by what was read of its file or else by its first bytes in memory.
fn push_module<'a>(
    alloc: Global,
    memory: &ProcessMemory<'a>,
    files: &Files<'_>,
    code: &mut Vec<MappedCode<'a>>,
    module: &'a LoadedModule,
) -> Result<(), AllocError>
    ensures { OnOk result (map mapped_code_view code.new.items ≡ map mapped_code_view code.old.items
        ++ code_in (memory_view memory.now) files.now (loaded_view «module».entry.now)) }
{
    let head = head_at(memory, module.base);
    let headers = segments_in(alloc, head)?;
    let told = loaded_segments(alloc, headers.as_slice())?;
    let segments = or_else(object_segments(files, module), told.as_slice());
    push_code(code, module, head, told.as_slice(), segments)
}

/// Returns the segments of an ELF file that was read for a module. Only one with a path of Unix is an ELF file.
fn object_segments<'a>(files: &'a Files<'_>, module: &LoadedModule) -> &'a [Segment]
    ensures { result.now ≡ object_segments (is_unix_path (loaded_view «module».now).name)
        (object_called files.entry.now (loaded_view «module».now).name) }
{
    let name = module.name.as_slice();
    if !is_unix_path(name) {
        return &[];
    }
    let Some(number) = files.number_of(name) else {
        return &[];
    };
    match files.object(number) {
        Some(object) => object.segments(),
        None => &[],
    }
}

/// Returns the first segments, or else the others.
fn or_else<'a>(first: &'a [Segment], others: &'a [Segment]) -> &'a [Segment]
    ensures { result.now ≡ or_else first.entry.now others.entry.now }
{
    if first.is_empty() { others } else { first }
}

/// Appends the code of a module that has these segments, and whose first bytes in memory tell those.
fn push_code<'a>(
    code: &mut Vec<MappedCode<'a>>,
    module: &'a LoadedModule,
    head: &'a [u8],
    told: &[Segment],
    segments: &[Segment],
) -> Result<(), AllocError>
    requires { told.now ≡ loaded_segments_of (segments_in head.now) }
    ensures { OnOk result (map mapped_code_view code.new.items ≡ map mapped_code_view code.old.items
        ++ code_by head.entry.now (loaded_view «module».entry.now) segments.now) }
{
    match base_from(segments, module.base) {
        Some(base) => push_segments(code, module, head, base, segments),
        None => Ok(code.push(whole(module, head, told))?),
    }
}

/// Appends the segments of a module that are code.
fn push_segments<'a>(
    code: &mut Vec<MappedCode<'a>>,
    module: &'a LoadedModule,
    head: &'a [u8],
    base: u64,
    segments: &[Segment],
) -> Result<(), AllocError>
    ensures { OnOk result (map mapped_code_view code.new.items ≡ map mapped_code_view code.old.items
        ++ flat_map (segment_code head.entry.now (loaded_view «module».entry.now) base) segments.now) }
{
    for segment in segments {
        push_segment(code, module, head, base, *segment)?;
    }
    Ok(())
}

/// Appends a segment of a module, if it is one of code.
fn push_segment<'a>(
    code: &mut Vec<MappedCode<'a>>,
    module: &'a LoadedModule,
    head: &'a [u8],
    base: u64,
    segment: Segment,
) -> Result<(), AllocError>
    ensures { OnOk result (map mapped_code_view code.new.items ≡ map mapped_code_view code.old.items
        ++ segment_code head.entry.now (loaded_view «module».entry.now) base segment) }
{
    if segment.is_code {
        let start = base.saturating_add(segment.address);
        code.push(MappedCode {
            start,
            end: start.saturating_add(segment.size),
            offset: segment.offset,
            path: module.name.as_slice(),
            head,
            build_id: module.build_id.as_slice(),
            base: Some(base),
            memory_base: None,
        })?;
    }
    Ok(())
}

/// Returns all addresses of a module as mapped code, whose first bytes in memory tell these segments.
fn whole<'a>(module: &'a LoadedModule, head: &'a [u8], told: &[Segment]) -> MappedCode<'a>
    requires { told.now ≡ loaded_segments_of (segments_in head.now) }
    ensures { mapped_code_view result ≡ whole head.entry.now (loaded_view «module».entry.now) }
{
    let start = module.base;
    let end = start.saturating_add(u64::from(module.size));
    MappedCode {
        start,
        end,
        offset: 0,
        path: module.name.as_slice(),
        head,
        build_id: module.build_id.as_slice(),
        base: base_by_name(module),
        memory_base: base_avma(told, 0, end.saturating_sub(start), start),
    }
}

/// Returns where the base of a PE file is (AVMA), if the module has a name of Windows: it is the first address.
fn base_by_name(module: &LoadedModule) -> Option<u64>
    ensures { result ≡ base_by_name (loaded_view «module».now) }
{
    if is_windows_path(module.name.as_slice()) {
        return Some(module.base);
    }
    None
}
