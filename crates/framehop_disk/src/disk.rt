//! The files of a disk that processes map.
ghost use Rattle.std.specs.Prelude.{◌≡◌, IfOk, IfSome, IsSome, MatchResult, Some, None, nat_lt, option_map, true, if◌then◌else◌};
ghost use Rattle.std.specs.IoError.{error_kind};
ghost use Rattle.std.specs.Str.{IsUtf8};
ghost use Rattle.framehop_disk.specs.Paths.{is_file_name};
ghost use Rattle.framehop_disk.specs.Disk.{IsLinked, is_number, is_of_kernel, is_program, is_read_and_wanted, is_readable, is_same, is_wanted, is_whole, map_refusal, rank, refusal_by, regular_refusal, worth_by, worth_of};

use crate::input::read_sized;
use crate::known_names::KnownNames;
use crate::messages::say_of;
use crate::object_parts::read_object;
use crate::paths::{file_name_of, folder_of, is_below, is_file_name};
use crate::places::{Place, copied_paths, debug_paths, linked_places, mapped_places};
use crate::read_paths::ReadPaths;
use framehop_frames::json_files::FilePaths;
use framehop_processes::files::{FileSource, Files, is_vdso};
use framehop_processes::made_up_id::is_made_up;
use framehop_processes::object_file::build_id_of;
use framehop_processes::read_refusal::ReadRefusal;
use std::alloc::{AllocError, Global};
use std::cell::Cell;
use std::fmt::Display;
use std::io::ErrorKind;
use std::os::unix::fs::MetadataExt;
use std::path::PathBuf;
use std::{fs, io};

/// The size of the largest file that is read for its unwind data and names, in bytes: 4 GiB.
const LARGEST_FILE: u64 = 0x1_0000_0000;

/// The size of the largest map of a JIT compiler that is read, in bytes: 256 MiB.
const LARGEST_MAP: u64 = 0x1000_0000;

/// The main program, where its file is named.
#[derive(Drop)]
pub struct Program<'a> {
    pub path: &'a str,
    pub bytes: Vec<u8>,
    /// Whether a mapped file was asked for that it is.
    pub is_mapped: Cell<bool>,
}

/// The files of a disk, by words of the command line at `'w`.
#[derive(Drop)]
pub struct Disk<'a, 'w> {
    pub rt: &'a HostRuntime,
    /// The folders below which the recorded files are looked for, one after another.
    pub roots: &'a [&'w str],
    /// The folders below which debug files are looked for, before that of the system.
    pub debug_dirs: &'a [&'w str],
    /// The folder in which perf keeps copies of files, if one is named.
    pub buildid_dir: Option<&'w str>,
    /// The home folder, if it is known: perf keeps them in its `.debug`.
    pub home: Option<PathBuf>,
    /// The file of the vdso, if one is named.
    pub vdso: Option<&'w str>,
    pub program: Option<Program<'w>>,
    /// The names by which mapped files and their debug files were read.
    pub known_names: KnownNames,
    /// Where they were read.
    pub read_paths: ReadPaths,
}

/// A file that was read.
#[derive(Drop)]
struct ReadFile {
    path: String,
    bytes: Vec<u8>,
}

/// A file that was read, or why it was not.
type Read = Result<ReadFile, ReadRefusal>;

/// What it is worth that was read of a file in a root, the least first.
#[derive(Clone, Copy, PartialEq, Eq)]
enum Worth {
    /// There is no file.
    Nothing,
    /// The file is not read.
    Refused,
    /// It is another file than the wanted one.
    Other,
    /// It is the wanted file.
    Wanted,
}

/// What was read of a file in a root, and what that is worth.
#[derive(Drop)]
struct Candidate {
    worth: Worth,
    read: Read,
}

impl FileSource for Disk<'_, '_> {
    // what a disk gives is not known
    ghost source = { λ disk. record {
      gives = λ name build_id given. Unit {0};
      gives_copied = λ build_id given. Unit {0};
      gives_debug = λ name build_id link given. Unit {0};
    } };

    fn read_file(
        &self,
        name: &[u8],
        build_id: &[u8],
    ) -> Result<Result<Vec<u8>, ReadRefusal>, AllocError> {
        let alloc = self.rt.alloc();
        match self.find_file(name, build_id)? {
            Ok(read) => {
                let path = Some(read.path.as_str());
                self.read_paths.note(alloc, name, build_id, path)?;
                Ok(Ok(read.bytes))
            }
            Err(refusal) => {
                self.read_paths.note(alloc, name, build_id, None)?;
                Ok(Err(refusal))
            }
        }
    }

    fn read_copied_file(&self, build_id: &[u8]) -> Result<Option<Vec<u8>>, AllocError> {
        let paths = self.copies_of(build_id)?;
        for path in &paths {
            if let Ok(read) = read_regular(self.rt, path.as_str())? {
                self.read_paths
                    .note_copy(self.rt.alloc(), read.path.as_str())?;
                return Ok(Some(read.bytes));
            }
        }
        Ok(None)
    }

    fn read_debug_file(
        &self,
        name: &[u8],
        build_id: &[u8],
        link: &[u8],
    ) -> Result<Option<Vec<u8>>, AllocError> {
        match self.find_debug_file(name, build_id, link)? {
            Some(read) => {
                self.note_debug_file(&read, build_id)?;
                Ok(Some(read.bytes))
            }
            None => Ok(None),
        }
    }
}

impl Disk<'_, '_> {
    /// Returns where files were read, in the order of their numbers.
    pub fn paths_of(&self, files: &Files<'_>) -> Result<Vec<FilePaths>, AllocError> {
        self.read_paths.of_files(self.rt.alloc(), files)
    }

    /// Reads a file by its name, a path or `[vdso]`.
    fn find_file(&self, name: &[u8], build_id: &[u8]) -> Result<Read, AllocError> {
        if is_vdso(name) {
            return match self.vdso {
                Some(path) => read_regular(self.rt, path),
                None => Ok(Err(ReadRefusal::NotThere)),
            };
        }
        match self.read_program(name, build_id)? {
            Some(read) => Ok(Ok(read)),
            None => match std::str::from_utf8(name) {
                Ok(path) => self.read_below_roots(path, build_id),
                Err(_) => Ok(Err(ReadRefusal::NotUtf8)),
            },
        }
    }

    /// Reads the main program in the place of the file of a name, if it is that.
    fn read_program(&self, name: &[u8], build_id: &[u8]) -> Result<Option<ReadFile>, AllocError> {
        let Some(program) = &self.program else {
            return Ok(None);
        };
        let alloc = self.rt.alloc();
        if !program.is_of(alloc, name, build_id)? {
            return Ok(None);
        }
        program.is_mapped.set(true);
        if self
            .known_names
            .allow(alloc, program.path.as_bytes(), name)?
        {
            Ok(Some(ReadFile {
                path: String::from_str(alloc, program.path)?,
                bytes: Vec::from_slice(alloc, program.bytes.as_slice())?,
            }))
        } else {
            Ok(None)
        }
    }

    /// Reads a file below the first root that has one with the wanted build id, or else below the first that has one.
    fn read_below_roots(&self, path: &str, build_id: &[u8]) -> Result<Read, AllocError> {
        let mut best = Candidate {
            worth: Worth::Nothing,
            read: Err(ReadRefusal::NotThere),
        };
        for root in self.roots {
            let places = mapped_places(self.rt.alloc(), root, path)?;
            let next = self.find_first(places.as_slice(), build_id)?;
            best = better(best, next);
            if best.worth == Worth::Wanted {
                break;
            }
        }
        Ok(best.read)
    }

    /// Reads the file in the first of these places in which one may be read, or else tells why that in the last may not.
    fn find_first(&self, places: &[Place<'_>], build_id: &[u8]) -> Result<Candidate, AllocError> {
        let mut read = Err(ReadRefusal::NotThere);
        for place in places {
            read = self.read_mapped(place)?;
            if read.is_ok() {
                break;
            }
        }
        candidate_of(self.rt.alloc(), read, build_id)
    }

    /// Reads a file that was mapped, by the path to which links and `..` lead: below the root, if one is named, and else in
    /// none of the folders of files that the kernel makes up. One that was read by many other names is not read.
    fn read_mapped(&self, place: &Place<'_>) -> Result<Read, AllocError> {
        let path = place.path();
        match found(self.rt, path, fs::canonicalize(self.rt, path))? {
            Ok(real) => self.read_real(place.root(), path, real.as_str()),
            Err(refusal) => Ok(Err(refusal)),
        }
    }

    /// Reads a file by its path without links, if that may be read below the root and by its name.
    fn read_real(&self, root: &str, name: &str, real: &str) -> Result<Read, AllocError> {
        if !self.is_allowed(root, real)? {
            return Ok(Err(ReadRefusal::Outside));
        }
        let alloc = self.rt.alloc();
        if !self
            .known_names
            .allow(alloc, real.as_bytes(), name.as_bytes())?
        {
            return Ok(Err(ReadRefusal::ManyNames));
        }
        read_regular(self.rt, real)
    }

    /// Returns whether the file of a path without links may be read.
    fn is_allowed(&self, root: &str, path: &str) -> Result<bool, AllocError> {
        if is_whole(root.as_bytes()) {
            return Ok(is_readable(root.as_bytes(), None, path.as_bytes()));
        }
        let real = known(fs::canonicalize(self.rt, root))?;
        let real = match &real {
            Some(real) => Some(real.as_str().as_bytes()),
            None => None,
        };
        Ok(is_readable(root.as_bytes(), real, path.as_bytes()))
    }

    /// Returns where perf keeps the copy of the file of a build id.
    fn copies_of(&self, build_id: &[u8]) -> Result<Vec<String>, AllocError> {
        let home = match &self.home {
            Some(home) => Some(home.as_str()),
            None => None,
        };
        copied_paths(self.rt.alloc(), self.buildid_dir, home, build_id)
    }

    /// Reads the debug file of a file by its build id, or else by its link.
    fn find_debug_file(
        &self,
        name: &[u8],
        build_id: &[u8],
        link: &[u8],
    ) -> Result<Option<ReadFile>, AllocError> {
        match self.read_debug_file_of(build_id)? {
            Some(read) => Ok(Some(read)),
            None => match linked(name, link) {
                Some((folder, link)) => self.read_linked(folder, build_id, link),
                None => Ok(None),
            },
        }
    }

    /// Reads the debug file of a build id below the first folder that has it.
    fn read_debug_file_of(&self, build_id: &[u8]) -> Result<Option<ReadFile>, AllocError> {
        let paths = debug_paths(self.rt.alloc(), self.debug_dirs, build_id)?;
        for path in &paths {
            if let Ok(read) = read_regular(self.rt, path.as_str())? {
                return Ok(Some(read));
            }
        }
        Ok(None)
    }

    /// Reads the debug file of a build id by its name, in the first of its places that has it.
    fn read_linked(
        &self,
        folder: &str,
        build_id: &[u8],
        link: &str,
    ) -> Result<Option<ReadFile>, AllocError> {
        let alloc = self.rt.alloc();
        let places = linked_places(alloc, self.roots, self.debug_dirs, folder, link)?;
        for place in &places {
            match self.read_mapped(place)? {
                Ok(read) if is_wanted(alloc, read.bytes.as_slice(), build_id)? => {
                    return Ok(Some(read));
                }
                _ => {}
            }
        }
        Ok(None)
    }

    /// Notes where a debug file was read, if it has the wanted build id.
    fn note_debug_file(&self, read: &ReadFile, build_id: &[u8]) -> Result<(), AllocError> {
        let alloc = self.rt.alloc();
        if is_wanted(alloc, read.bytes.as_slice(), build_id)? {
            self.read_paths.note_debug_file(alloc, read.path.as_str())?;
        }
        Ok(())
    }
}

impl Program<'_> {
    /// Returns whether it is the file of a name: by its build id or, where none is wanted, by its name.
    fn is_of(&self, alloc: Global, name: &[u8], build_id: &[u8]) -> Result<bool, AllocError>
        ensures { IfOk result (λ is. is ≡ is_program self.now.path.now self.now.bytes.items name.now build_id.now) }
    {
        if build_id.is_empty() {
            return Ok(is_same(file_name_of(name), file_name_of(self.path.as_bytes())));
        }
        Ok(is_same(build_id_of(alloc, self.bytes.as_slice())?, build_id))
    }
}

/// Returns the folder of a file and the name of its debug file, by the file's name and its link to that. `None` where one of them
/// is no UTF-8, and where the link leads to another folder.
fn linked<'a>(name: &'a [u8], link: &'a [u8]) -> Option<(&'a str, &'a str)>
    ensures found { IfSome result (IsLinked name.entry.now link.entry.now) }
    ensures all { IsUtf8 name.entry.now → IsUtf8 link.entry.now → is_file_name link.entry.now ≡ true → IsSome result }
{
    let path = std::str::from_utf8(name).ok()?;
    let link = std::str::from_utf8(link).ok()?;
    if is_file_name(link.as_bytes()) {
        Some((folder_of(path), link))
    } else {
        None
    }
}

/// Returns whether two texts are the same.
fn is_same(a: &[u8], b: &[u8]) -> bool
    ensures { result ≡ is_same a.now b.now }
{
    a == b
}

/// Returns what was read in a root with what that is worth, by the wanted build id.
fn candidate_of(alloc: Global, read: Read, build_id: &[u8]) -> Result<Candidate, AllocError>
    ensures worth { IfOk result (λ candidate. candidate.worth ≡ worth_by build_id.now read) }
    ensures read { IfOk result (λ candidate. candidate.read ≡ read) }
{
    let is_wanted = is_read_and_wanted(alloc, &read, build_id)?;
    Ok(Candidate {
        worth: worth_of(&read, is_wanted),
        read,
    })
}

/// Returns whether a file was read that has the wanted build id, if one is wanted.
fn is_read_and_wanted(alloc: Global, read: &Read, build_id: &[u8]) -> Result<bool, AllocError>
    ensures { IfOk result (λ is. is ≡ is_read_and_wanted build_id.now read.now) }
{
    match read {
        Ok(file) => is_wanted(alloc, file.bytes.as_slice(), build_id),
        Err(_) => Ok(false),
    }
}

/// Returns the better of what two roots have: of two that are worth the same the first.
fn better(first: Candidate, next: Candidate) -> Candidate
    ensures { result ≡ (if nat_lt (rank first.worth) (rank next.worth) then next else first) }
{
    if rank_of(first.worth) < rank_of(next.worth) {
        next
    } else {
        first
    }
}

/// Returns the place of what something is worth, among all of that.
fn rank_of(worth: Worth) -> u8
    ensures { result ≡ rank worth }
{
    match worth {
        Worth::Nothing => 0,
        Worth::Refused => 1,
        Worth::Other => 2,
        Worth::Wanted => 3,
    }
}

/// Returns what it is worth that was read, which is the wanted file or not.
fn worth_of(read: &Read, is_wanted: bool) -> Worth
    ensures { result ≡ worth_of read.now is_wanted }
{
    match read {
        Ok(_) if is_wanted => Worth::Wanted,
        Ok(_) => Worth::Other,
        Err(ReadRefusal::NotThere) => Worth::Nothing,
        Err(_) => Worth::Refused,
    }
}

/// Returns whether the file of a path without links may be read below a root, by the root's path without links, if that is
/// known. A root that leads to all files leads to none that the kernel makes up.
fn is_readable(root: &[u8], real: Option<&[u8]>, path: &[u8]) -> bool
    ensures { result ≡ is_readable root.now (option_map (λ real. real.now) real.entry) path.now }
{
    if is_whole(root) {
        return !is_of_kernel(path);
    }
    match real {
        Some(real) => is_below(path, real),
        None => false,
    }
}

/// Returns whether a root leads to all files.
fn is_whole(root: &[u8]) -> bool
    ensures { result ≡ is_whole root.now }
{
    root.is_empty() || is_same(root, b"/")
}

/// Returns whether a file is in a folder of files that the kernel makes up: to read one may block, end nowhere, or change
/// something.
fn is_of_kernel(path: &[u8]) -> bool
    ensures { result ≡ is_of_kernel path.now }
{
    is_below(path, b"/proc") || is_below(path, b"/sys") || is_below(path, b"/dev")
}

/// Returns whether a file has the wanted build id, if one is wanted.
fn is_wanted(alloc: Global, file: &[u8], build_id: &[u8]) -> Result<bool, AllocError>
    ensures { IfOk result (λ is. is ≡ is_wanted build_id.now file.now) }
{
    let found = build_id_of(alloc, file)?;
    Ok(
        build_id.is_empty()
            || is_same(found, build_id)
            || (found.is_empty() && is_made_up(build_id, file)),
    )
}

/// Reads a regular file of at most 4 GiB, as [`read_object`] does: a recording may name a device or a pipe, whose bytes don't end. A file whose size
/// is told as 0, as those that a kernel makes up when they are read, is not read.
fn read_regular(rt: &HostRuntime, path: &str) -> Result<Read, AllocError> {
    let metadata = match found(rt, path, fs::metadata(rt, path))? {
        Ok(metadata) => metadata,
        Err(refusal) => return Ok(Err(refusal)),
    };
    match regular_refusal(metadata.is_file(), metadata.len()) {
        Some(refusal) => {
            if refusal == ReadRefusal::Refused {
                refuse_file(rt, path, "larger than 4 GiB, and not read")?;
            }
            Ok(Err(refusal))
        }
        None => read_of_size(rt, path, metadata.len()),
    }
}

/// Returns why a file is not read, by whether it is a regular one, and its size.
fn regular_refusal(is_file: bool, size: u64) -> Option<ReadRefusal>
    ensures { result ≡ regular_refusal is_file size }
{
    if !is_file || size == 0 {
        Some(ReadRefusal::NotRegular)
    } else if size > LARGEST_FILE {
        Some(ReadRefusal::Refused)
    } else {
        None
    }
}

/// Reads a file of a size, as [`read_object`] does.
fn read_of_size(rt: &HostRuntime, path: &str, size: u64) -> Result<Read, AllocError> {
    match found(rt, path, read_object(rt, path, size))? {
        Ok(bytes) => Ok(Ok(ReadFile {
            path: String::from_str(rt.alloc(), path)?,
            bytes,
        })),
        Err(refusal) => Ok(Err(refusal)),
    }
}

/// Reads the map of a JIT compiler, if there is one: a regular file of at most 256 MiB that is the user's own or root's, since
/// anyone may write one of any process. Says why one that is there is not read.
pub fn read_perf_map(rt: &HostRuntime, path: &str) -> Result<Option<Vec<u8>>, AllocError> {
    let metadata = match fs::metadata(rt, path) {
        Ok(metadata) => metadata,
        Err(error) if error.kind() == ErrorKind::NotFound => return Ok(None),
        Err(error) => return no_file(rt, path, error),
    };
    let (is_file, size) = (metadata.is_file(), metadata.len());
    if let Some(why) = map_refusal(is_file, size, metadata.uid(), user(rt)) {
        return no_file(rt, path, why);
    }
    match read_sized(rt, path, metadata.len()) {
        Err(error) if error.kind() != ErrorKind::OutOfMemory => no_file(rt, path, error),
        read => known(read),
    }
}

/// Returns why a map is not read, by whether it is a regular file, its size, its owner, and the user who runs the program, if
/// that is known.
fn map_refusal(is_file: bool, size: u64, owner: u32, user: Option<u32>) -> Option<&'static str>
    ensures { option_map (λ why. why.now) result ≡ map_refusal is_file size owner user }
{
    if !is_file || size > LARGEST_MAP {
        Some("no regular file of at most 256 MiB")
    } else if owner == 0 || is_number(owner, user) {
        None
    } else {
        Some("not read, since it belongs to another user")
    }
}

/// Returns whether a number is this one, if it is known.
fn is_number(number: u32, known: Option<u32>) -> bool
    ensures { result ≡ is_number number known }
{
    match known {
        Some(other) => other == number,
        None => false,
    }
}

/// Says why a file is not read, and returns none.
fn no_file<D: Display + Drop>(
    rt: &HostRuntime,
    path: &str,
    why: D,
) -> Result<Option<Vec<u8>>, AllocError> {
    refuse_file(rt, path, why)?;
    Ok(None)
}

/// Returns what a system gives of a file, or why it does not. Where it refuses a file that is there, says why.
fn found<T: Drop>(
    rt: &HostRuntime,
    path: &str,
    given: io::Result<T>,
) -> Result<Result<T, ReadRefusal>, AllocError> {
    match given {
        Ok(given) => Ok(Ok(given)),
        Err(error) => {
            let refusal = refusal_by(error.kind())?;
            if refusal == ReadRefusal::Refused {
                refuse_file(rt, path, error)?;
            }
            Ok(Err(refusal))
        }
    }
}

/// Returns why there is no file, by the kind of a system's error.
fn refusal_by(kind: ErrorKind) -> Result<ReadRefusal, AllocError>
    ensures { MatchResult result (λ refusal. refusal_by kind ≡ Some refusal) (λ error. refusal_by kind ≡ None) }
{
    match kind {
        ErrorKind::OutOfMemory => Err(AllocError),
        ErrorKind::NotFound | ErrorKind::NotADirectory => Ok(ReadRefusal::NotThere),
        _ => Ok(ReadRefusal::Refused),
    }
}

/// Says why a file is not read.
fn refuse_file<D: Display + Drop>(rt: &HostRuntime, path: &str, why: D) -> Result<(), AllocError> {
    known(say_of(rt, path, why))?;
    Ok(())
}

/// Returns the number of the user who runs the program, if the system tells it.
fn user(rt: &HostRuntime) -> Option<u32> {
    let metadata = fs::metadata(rt, "/proc/self").ok()?;
    Some(metadata.uid())
}

/// Returns what a system gives of a file, or `None` where it refuses that. It fails where memory runs out.
fn known<T: Drop>(given: io::Result<T>) -> Result<Option<T>, AllocError> {
    match given {
        Ok(given) => Ok(Some(given)),
        Err(error) if error.kind() == ErrorKind::OutOfMemory => Err(AllocError),
        Err(_) => Ok(None),
    }
}
