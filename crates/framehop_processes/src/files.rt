//! The files that processes map by their numbers, and the modules of their mappings.
ghost use Rattle.std.specs.Prelude.{◌≡◌, ◌⊎◌, ◌<◌, ℕ, List, [], length, true, false, is_some, Option, Some, None, Ok, IsSome, IfOk, IfErr, OnOk, option_map, option_copied, slice_get, MatchOption};
ghost use Rattle.framehop.specs.Modules.{ModuleView};
ghost use Rattle.framehop_object.specs.Elf.UnwindSections.{bytes_in};
ghost use Rattle.framehop_object.specs.declared.elf.error.ElfError.{ElfError};
ghost use Rattle.framehop_processes.specs.ObjectFiles.{Listed, problem_of, IsOutOfMemory, IsKeptOf};
ghost use Rattle.framehop_processes.specs.Files.{number_in, object_in, module_at, placed_at, is_unix_path, has_drive, is_windows_path, is_path, is_vdso, is_read, is_deleted, path_of, is_asked, told_of, given_bytes, IsGiven, IsNamed, IsRefused, IsCopied, IsNotCopied, IsKept, AreDebugTables, IsFileOf, IsNextFile, IsNext, IsNextMap, IsAdded, IsMapAdded, IsWithoutFiles, IsLeftOut, IsNextLeftOut, IsAddedLeftOut, IsRead, file_called, is_left_out, map_number_in};
ghost use Rattle.framehop_processes.specs.Source.{SourceView};
ghost use Rattle.framehop_processes.specs.declared.object_file.FileProblem.{FileProblem};

use crate::code_map::CodeMap;
use crate::mapped_bytes::MappedBytes;
use crate::object_file::{FileProblem, ObjectFile, bare_module};
use crate::read_refusal::ReadRefusal;
use crate::{Mapping, ModuleMaker, ProcessUnwinder};
use framehop::Module;
use framehop::aarch64::UnwinderAarch64;
use framehop::cache::AllocationPolicy;
use framehop::section::SectionBytes;
use framehop::x86_64::UnwinderX86_64;
use framehop_code::x86_64::kept::KeptInstructions;
use std::alloc::{AllocError, Global};
use std::cell::Cell;
use std::collections::BTreeMap;

/// What Linux adds to the path of a file that was deleted.
const DELETED: &[u8] = b" (deleted)";

/// What gives files by their names and their build ids, as a disk does.
pub trait FileSource {
    // what it can give
    ghost source: { Self → SourceView };

    /// Returns the bytes of a file by its name, a path or `[vdso]`, or why it does not. Where several files stand for the
    /// name, that with the wanted build id is returned, if there is one.
    ///
    /// # Errors
    ///
    /// An allocation failed.
    fn read_file(
        &self,
        name: &[u8],
        build_id: &[u8],
    ) -> Result<Result<Vec<u8>, ReadRefusal>, AllocError>
        ensures { IfOk result (λ given. (source self.now).gives name.now build_id.now (given_bytes given)) };

    /// Returns the bytes of the file of a build id of which a profiler has a copy, if there is one and it can be read.
    ///
    /// # Errors
    ///
    /// An allocation failed.
    fn read_copied_file(&self, build_id: &[u8]) -> Result<Option<Vec<u8>>, AllocError>
        ensures { IfOk result (λ given. (source self.now).gives_copied build_id.now (bytes_in given)) };

    /// Returns the bytes of the debug file of a file that has this build id and names its debug file by a link, if it is
    /// there and can be read. Without a link, that is empty.
    ///
    /// # Errors
    ///
    /// An allocation failed.
    fn read_debug_file(
        &self,
        name: &[u8],
        build_id: &[u8],
        link: &[u8],
    ) -> Result<Option<Vec<u8>>, AllocError>
        ensures { IfOk result (λ given. (source self.now).gives_debug name.now build_id.now link.now (bytes_in given)) };
}

/// A file that processes map, by its name.
#[derive(Drop)]
pub struct NamedFile<'m> {
    /// Its name, as the input has it: a recording, a core file or a minidump.
    pub name: Vec<u8>,
    /// What was read of it.
    pub object: Option<ObjectFile<'m>>,
    /// What was read of it, where it is a map of code that is in no file.
    pub code_map: Option<CodeMap>,
    /// Why nothing was read of it. The vdso and other memory that is no file have no problem.
    pub problem: Option<FileProblem>,
    /// Whether something of it was asked for, where it was left out: where nothing of it has been read so far.
    left_out: Option<Cell<bool>>,
}

impl NamedFile<'_> {
    /// Notes that something of this file was asked for, if it was left out.
    pub(crate) fn note(&self) {
        if let Some(asked) = &self.left_out {
            asked.set(true);
        }
    }

    /// Returns whether this file was left out, and something of it was asked for.
    fn is_asked_for(&self) -> bool
        ensures { result ≡ true → is_some self.now.left_out ≡ true }
    {
        match &self.left_out {
            Some(asked) => asked.get(),
            None => false,
        }
    }
}

/// The files that processes map. Their modules are of the type of those that lend bytes for `'m`.
#[derive(Drop)]
pub struct Files<'m> {
    list: Vec<NamedFile<'m>>,
    numbers: BTreeMap<Vec<u8>, u32>,
    /// The numbers of maps of code that is in no file, by their processes.
    maps: BTreeMap<u32, u32>,
    bare: Module<MappedBytes<'m>>,
    /// Instructions of any code that was run.
    instructions: KeptInstructions,
}

impl<'m> Files<'m> {
    /// Returns no files.
    pub fn new(alloc: Global) -> Result<Self, AllocError>
        ensures { IfOk result (λ files. IsWithoutFiles files) }
    {
        Ok(Files {
            list: Vec::new(alloc),
            numbers: BTreeMap::new(alloc),
            maps: BTreeMap::new(alloc),
            bare: bare_module(alloc)?,
            instructions: KeptInstructions::new(alloc)?,
        })
    }

    /// Reads a file that a process maps, if it has not been read. Where a build id is wanted, the file's must be
    /// the same. Fails only where an allocation does, or from 2^32 files on.
    pub fn add<S: FileSource>(
        &mut self,
        alloc: Global,
        source: &S,
        name: &[u8],
        build_id: &[u8],
    ) -> Result<(), AllocError>
        ensures bare { self.new.bare ≡ self.old.bare }
        ensures known { IsSome (number_in self.old name.now) → (result ≡ Ok tt) × (self.new ≡ self.old) }
        ensures added { number_in self.old name.now ≡ None → OnOk result
            (IsNext (S.source source.now) name.now build_id.now self.old self.new) }
        ensures either { OnOk result (IsAdded (S.source source.now) name.now build_id.now self.old self.new) }
    {
        if self.numbers.get(name).is_some() {
            return Ok(());
        }
        let file = load(alloc, &self.instructions, source, name, build_id)?;
        self.push(alloc, file)?;
        Ok(())
    }

    /// Adds a file that a process maps, if it has not been added, and leaves it out: nothing of it is read before
    /// [`Files::read_left_out`]. Fails only where an allocation does, or from 2^32 files on.
    pub fn leave_out(&mut self, alloc: Global, name: &[u8]) -> Result<(), AllocError>
        ensures bare { self.new.bare ≡ self.old.bare }
        ensures known { IsSome (number_in self.old name.now) → (result ≡ Ok tt) × (self.new ≡ self.old) }
        ensures added { number_in self.old name.now ≡ None → OnOk result (IsNextLeftOut name.now self.old self.new) }
        ensures either { OnOk result (IsAddedLeftOut name.now self.old self.new) }
    {
        if self.numbers.get(name).is_some() {
            return Ok(());
        }
        let file = left_out_file(alloc, name)?;
        self.push(alloc, file)?;
        Ok(())
    }

    /// Appends a file under its name.
    fn push(&mut self, alloc: Global, file: NamedFile<'m>) -> Result<(), AllocError>
        ensures bare { self.new.bare ≡ self.old.bare }
        ensures added { OnOk result (IsNextFile file.entry self.old self.new) }
    {
        let Ok(number) = u32::try_from(self.list.len()) else {
            return Err(AllocError);
        };
        let key = Vec::from_slice(alloc, file.name.as_slice())?;
        self.numbers.insert(key, number)?;
        self.list.push(file)?;
        Ok(())
    }

    /// Returns whether the file of a name was left out.
    pub fn is_left_out(&self, name: &[u8]) -> bool
        ensures { result ≡ is_left_out self.now name.now }
    {
        self.left_out_number(name).is_some()
    }

    /// Returns whether the file of a name was left out, and something of it was asked for: where an address in one of its
    /// mappings is, the code there, or the rows of its `.debug_frame`. Which were is noted in cells, of which no clause
    /// knows.
    pub fn is_asked_for(&self, name: &[u8]) -> bool
        ensures { result ≡ true → is_left_out self.now name.now ≡ true }
    {
        match self.called(name) {
            Some(file) => file.is_asked_for(),
            None => false,
        }
    }

    /// Returns the file of a name.
    fn called(&self, name: &[u8]) -> Option<&NamedFile<'m>>
        ensures { option_map (λ file. file.now) result ≡ file_called self.now name.now }
    {
        self.get(self.number_of(name)?)
    }

    /// Reads the file of a name, if it was left out, as [`Files::add`] does. Fails only where an allocation does.
    pub fn read_left_out<S: FileSource>(
        &mut self,
        alloc: Global,
        source: &S,
        name: &[u8],
        build_id: &[u8],
    ) -> Result<(), AllocError>
        ensures bare { self.new.bare ≡ self.old.bare }
        ensures kept { is_left_out self.old name.now ≡ false → (result ≡ Ok tt) × (self.new ≡ self.old) }
        ensures read { is_left_out self.old name.now ≡ true → OnOk result
            (IsRead (S.source source.now) name.now build_id.now self.old self.new) }
    {
        let Some(number) = self.left_out_number(name) else {
            return Ok(());
        };
        self.list[number as usize] = load(alloc, &self.instructions, source, name, build_id)?;
        Ok(())
    }

    /// Returns the number of the file of a name, if it was left out.
    fn left_out_number(&self, name: &[u8]) -> Option<u32>
        ensures some { (number : ℕ) → result ≡ Some number → (number_in self.now name.now ≡ Some number)
            × (number < length self.now.list.items) × (is_left_out self.now name.now ≡ true) }
        ensures none { result ≡ None → is_left_out self.now name.now ≡ false }
    {
        let number = self.number_of(name)?;
        let file = self.get(number)?;
        if file.left_out.is_some() {
            Some(number)
        } else {
            None
        }
    }

    /// Adds the map of a process's code that is in no file, under a name, unless it has one. Fails only where an allocation
    /// does, or from 2^32 files on.
    pub fn add_map(&mut self, pid: u32, name: Vec<u8>, code_map: CodeMap) -> Result<(), AllocError>
        ensures bare { self.new.bare ≡ self.old.bare }
        ensures added { OnOk result (IsMapAdded pid name.items code_map self.old self.new) }
    {
        if self.maps.get(&pid).is_some() {
            return Ok(());
        }
        let Ok(number) = u32::try_from(self.list.len()) else {
            return Err(AllocError);
        };
        self.maps.insert(pid, number)?;
        self.list.push(NamedFile {
            name,
            object: None,
            code_map: Some(code_map),
            problem: None,
            left_out: None,
        })?;
        Ok(())
    }

    /// Returns the number of a file by its name.
    pub fn number_of(&self, name: &[u8]) -> Option<u32>
        ensures { result ≡ number_in self.now name.now }
    {
        self.numbers.get(name).copied()
    }

    /// Returns the number of the map of a process's code that is in no file.
    pub fn map_number_of(&self, pid: u32) -> Option<u32>
        ensures { result ≡ map_number_in self.now pid }
    {
        self.maps.get(&pid).copied()
    }

    /// Returns the file of a number.
    pub fn get(&self, number: u32) -> Option<&NamedFile<'m>>
        ensures { option_map (λ file. file.now) result ≡ slice_get self.now.list.items number }
    {
        self.list.get(number as usize)
    }

    /// Returns all of them, in the order of their numbers.
    pub fn list(&self) -> &[NamedFile<'m>]
        ensures { result.now ≡ self.now.list.items }
    {
        self.list.as_slice()
    }

    /// Returns the instructions that are kept of code that was run.
    pub fn instructions(&self) -> &KeptInstructions {
        &self.instructions
    }

    /// Returns what was read of the file of a number.
    pub fn object(&self, number: u32) -> Option<&ObjectFile<'m>>
        ensures { option_copied result ≡ object_in self.now number }
    {
        match self.get(number) {
            Some(file) => file.object.as_ref(),
            None => None,
        }
    }

    /// Returns the module of a mapping. It has no unwind data where the mapping is without sections, or
    /// where nothing was read of the file.
    fn module_at(&self, mapping: &Mapping) -> Result<Module<MappedBytes<'m>>, AllocError>
        ensures { IfOk result (λ made. made ≡ module_at self.now mapping.now) }
    {
        if !mapping.has_sections {
            return placed_at(&self.bare, mapping);
        }
        match self.object(mapping.file) {
            Some(object) => placed_at(object.module(), mapping),
            None => placed_at(&self.bare, mapping),
        }
    }
}

/// Reads a file, if its name is a path or that of the vdso. Where it has much code, room is made for its instructions.
fn load<'m, S: FileSource>(
    alloc: Global,
    instructions: &KeptInstructions,
    source: &S,
    name: &[u8],
    build_id: &[u8],
) -> Result<NamedFile<'m>, AllocError>
    ensures { IfOk result (λ file. IsFileOf (S.source source.now) name.now build_id.now file) }
{
    let mut file = NamedFile {
        name: Vec::from_slice(alloc, name)?,
        object: None,
        code_map: None,
        problem: None,
        left_out: None,
    };
    if is_read(name) {
        match read_with_names(alloc, source, name, build_id) {
            Ok(object) => {
                if object.has_large_code() {
                    instructions.enlarge(alloc)?;
                }
                file.object = Some(object);
            }
            Err(problem) => {
                if problem.is_out_of_memory() {
                    return Err(AllocError);
                }
                file.problem = told_of(is_path(name), problem);
            }
        }
    }
    Ok(file)
}

/// Returns a file of which nothing is read: it is left out, if a source is to be asked for it.
fn left_out_file<'m>(alloc: Global, name: &[u8]) -> Result<NamedFile<'m>, AllocError>
    ensures { IfOk result (λ file. IsLeftOut name.now file) }
{
    Ok(NamedFile {
        name: Vec::from_slice(alloc, name)?,
        object: None,
        code_map: None,
        problem: None,
        left_out: if is_read(name) {
            Some(Cell::new(false))
        } else {
            None
        },
    })
}

/// Returns whether a source is asked for the file of a name.
fn is_read(name: &[u8]) -> bool
    ensures { result ≡ is_read name.now }
{
    is_path(name) || is_vdso(name)
}

/// Returns whether a name is that of the vdso, which the kernel maps.
pub fn is_vdso(name: &[u8]) -> bool
    ensures { result ≡ is_vdso name.now }
{
    name == b"[vdso]".as_slice()
}

/// Reads a file from its source, with the names of its functions in its debug file.
fn read_with_names<'m, S: FileSource>(
    alloc: Global,
    source: &S,
    name: &[u8],
    build_id: &[u8],
) -> Result<ObjectFile<'m>, FileProblem>
    ensures kept { IfOk result (IsKept (S.source source.now) name.now build_id.now) }
    ensures refused { IfErr result (λ problem. IsOutOfMemory problem
        ⊎ (IsRefused (S.source source.now) name.now build_id.now problem × IsNotCopied (S.source source.now) build_id.now)) }
{
    let mut object = read_object(alloc, source, name, build_id)?;
    add_debug_names(alloc, source, path_of(name), &mut object)?;
    Ok(object)
}

/// Reads a file from its source: by its name, or else by the build id that is wanted of it.
fn read_object<'m, S: FileSource>(
    alloc: Global,
    source: &S,
    name: &[u8],
    build_id: &[u8],
) -> Result<ObjectFile<'m>, FileProblem>
    ensures kept { IfOk result (λ object. (bytes : List ℕ)
        × (IsNamed (S.source source.now) name.now build_id.now bytes
        ⊎ (((problem : FileProblem) × IsRefused (S.source source.now) name.now build_id.now problem)
        × IsCopied (S.source source.now) build_id.now bytes))
        × IsKeptOf bytes [] object) }
    ensures refused { IfErr result (λ problem. IsOutOfMemory problem
        ⊎ (IsRefused (S.source source.now) name.now build_id.now problem × IsNotCopied (S.source source.now) build_id.now)) }
{
    match read_named(alloc, source, name, build_id) {
        Ok(object) => Ok(object),
        Err(problem) => {
            if problem.is_out_of_memory() {
                return Err(problem);
            }
            match read_copied(alloc, source, build_id)? {
                Some(object) => Ok(object),
                None => Err(problem),
            }
        }
    }
}

/// Reads the file of a name.
fn read_named<'m, S: FileSource>(
    alloc: Global,
    source: &S,
    name: &[u8],
    build_id: &[u8],
) -> Result<ObjectFile<'m>, FileProblem>
    ensures kept { IfOk result (λ object. (bytes : List ℕ)
        × IsNamed (S.source source.now) name.now build_id.now bytes × IsKeptOf bytes [] object) }
    ensures refused { IfErr result (λ problem. IsOutOfMemory problem
        ⊎ IsRefused (S.source source.now) name.now build_id.now problem) }
{
    match given_by(source, name, build_id)? {
        Ok(bytes) => ObjectFile::new(alloc, bytes, build_id),
        Err(refusal) => Err(FileProblem::NotRead(refusal)),
    }
}

/// Returns the bytes of the file of a name, or why there are none: by its path without the mark of a file that was deleted,
/// which is read only where a build id is wanted of it.
///
/// # Errors
///
/// An allocation failed.
///
/// Source of the mark: Linux, `d_path`.
pub(crate) fn given_by<S: FileSource>(
    source: &S,
    name: &[u8],
    build_id: &[u8],
) -> Result<Result<Vec<u8>, ReadRefusal>, AllocError>
    ensures { IfOk result (λ given. IsGiven (S.source source.now) name.now build_id.now (given_bytes given)) }
{
    if is_asked(name, build_id) {
        source.read_file(path_of(name), build_id)
    } else {
        Ok(Err(ReadRefusal::Deleted))
    }
}

/// Returns whether a source is asked for the file of a name: for one that was deleted only where a build id can tell it
/// from a later file of its path.
fn is_asked(name: &[u8], build_id: &[u8]) -> bool
    ensures { result ≡ is_asked name.now build_id.now }
{
    !is_deleted(name) || !build_id.is_empty()
}

/// Returns whether a name has the mark that Linux adds to the path of a file that was deleted.
fn is_deleted(name: &[u8]) -> bool
    ensures { result ≡ is_deleted name.now }
{
    name.strip_suffix(DELETED).is_some()
}

/// Returns the path of the file of a name, without that mark.
fn path_of(name: &[u8]) -> &[u8]
    ensures { result.now ≡ path_of name.entry.now }
{
    match name.strip_suffix(DELETED) {
        Some(path) => path,
        None => name,
    }
}

/// Reads the copy of the file of a build id that is wanted: `None` where there is none, or it can't be used. Fails only
/// where an allocation does.
fn read_copied<'m, S: FileSource>(
    alloc: Global,
    source: &S,
    build_id: &[u8],
) -> Result<Option<ObjectFile<'m>>, FileProblem>
    ensures kept { IfOk result (λ found. MatchOption found (IsNotCopied (S.source source.now) build_id.now)
        (λ object. (bytes : List ℕ) × IsCopied (S.source source.now) build_id.now bytes × IsKeptOf bytes [] object)) }
    ensures refused { IfErr result (λ problem. IsOutOfMemory problem) }
{
    if build_id.is_empty() {
        return Ok(None);
    }
    let Some(bytes) = source.read_copied_file(build_id)? else {
        return Ok(None);
    };
    match ObjectFile::new(alloc, bytes, build_id) {
        Ok(object) => Ok(Some(object)),
        Err(problem) => {
            if problem.is_out_of_memory() {
                return Err(problem);
            }
            Ok(None)
        }
    }
}

/// Reads the names of a file's functions in its debug file, by the path of the file. One that can't be read counts as
/// absent.
fn add_debug_names<S: FileSource>(
    alloc: Global,
    source: &S,
    path: &[u8],
    object: &mut ObjectFile<'_>,
) -> Result<(), AllocError>
    ensures kept { (file : List ℕ) → IsKeptOf file [] object.old → OnOk result ((debug : List Listed)
        × AreDebugTables (S.source source.now) path.now object.new.debug_link.items object.new.build_id.items debug
        × IsKeptOf file debug object.new) }
{
    if object.build_id().is_empty() {
        return Ok(());
    }
    let found = source.read_debug_file(path, object.build_id(), object.debug_link())?;
    let Some(bytes) = found else {
        return Ok(());
    };
    match object.add_debug_names(alloc, bytes.as_slice()) {
        Ok(()) => Ok(()),
        Err(_) => Err(AllocError),
    }
}

/// Returns what is told of a file that is not kept: nothing of a vdso that is not there.
fn told_of(is_path: bool, problem: FileProblem) -> Option<FileProblem>
    ensures { result ≡ told_of is_path problem }
{
    match problem {
        FileProblem::NotRead(_) if !is_path => None,
        problem => Some(problem),
    }
}

/// Returns whether a name is a path.
#[tactic(auto, unfolding(crate::specs::Files::is_path))]
fn is_path(name: &[u8]) -> bool
    ensures { result ≡ is_path name.now }
{
    is_unix_path(name) || is_windows_path(name)
}

/// Returns whether a name is a path of Unix: perf calls memory that is no file `[vdso]`, `//anon` and the like, and
/// LLDB adds an address in brackets to that of the vdso.
pub fn is_unix_path(name: &[u8]) -> bool
    ensures { result ≡ is_unix_path name.now }
{
    name.starts_with(b"/") && !name.starts_with(b"//")
}

/// Returns whether a name is a path of Windows: after its drive, or from a root on.
pub fn is_windows_path(name: &[u8]) -> bool
    ensures { result ≡ is_windows_path name.now }
{
    has_drive(name) || name.starts_with(b"\\")
}

/// Returns whether a name begins with a drive of Windows.
fn has_drive(name: &[u8]) -> bool
    ensures { result ≡ has_drive name.now }
{
    match name.split_first() {
        Some((_, rest)) => rest.starts_with(b":\\"),
        None => false,
    }
}

/// Returns a module at the addresses of a mapping.
pub fn placed_at<'m>(
    loaded: &Module<MappedBytes<'m>>,
    mapping: &Mapping,
) -> Result<Module<MappedBytes<'m>>, AllocError>
    ensures { IfOk result (λ made. made ≡ placed_at loaded.now mapping.now) }
{
    loaded.placed_at(mapping.start..mapping.end, mapping.base_avma)
}

/// An unwinder whose modules have their bytes as `D`.
pub trait FileUnwinder<D: SectionBytes>: ProcessUnwinder<Module = Module<D>> {
    // a module is what it is for all unwinders
    ghost module_is: { (made : ModuleView) → Self.module_view made ≡ made };
}

impl<D: SectionBytes + Drop, P: AllocationPolicy> FileUnwinder<D> for UnwinderX86_64<D, P> {
    ghost use Rattle.std.specs.Prelude.{refl};

    ghost module_is = { λ made. refl };
}

impl<D: SectionBytes + Drop, P: AllocationPolicy> FileUnwinder<D> for UnwinderAarch64<D, P> {
    ghost use Rattle.std.specs.Prelude.{refl};

    ghost module_is = { λ made. refl };
}

/// Makes the modules of mappings, by the files that processes map.
#[derive(Clone, Copy, Drop)]
pub struct FileModules<'a, 'm> {
    pub files: &'a Files<'m>,
}

impl<'m, U: FileUnwinder<MappedBytes<'m>>> ModuleMaker<U> for FileModules<'_, 'm> {
    ghost use Rattle.std.specs.Prelude.{refl};

    ghost module_of = { λ maker mapping. module_at maker.files.now mapping };

    ghost start_is = { λ maker mapping. refl };

    ghost end_is = { λ maker mapping. refl };

    fn make_module(
        &self,
        alloc: Global,
        mapping: &Mapping,
    ) -> Result<Module<MappedBytes<'m>>, AllocError> {
        self.files.module_at(mapping)
    }
}
