//! Where files of a disk were read.
ghost use Rattle.std.specs.Prelude.{◌≡◌, IfOk, None, find, option_map, reverse};
ghost use Rattle.std.specs.Option.{option_copied};
ghost use Rattle.framehop_processes.specs.Files.{path_of};
ghost use Rattle.framehop_disk.specs.ReadPaths.{debug_file_of, file_of, is_named, is_read_by, last_of, path_bytes};

use framehop_frames::json_files::FilePaths;
use framehop_processes::files::{Files, NamedFile};
use std::alloc::{AllocError, Global};
use std::cell::RefCell;

/// Where files were read, by their names and the build ids that were wanted of them.
#[derive(Drop)]
pub struct ReadPaths {
    list: RefCell<Vec<ReadPath>>,
}

/// Where a file was read.
#[derive(Drop)]
struct ReadPath {
    name: Vec<u8>,
    build_id: Vec<u8>,
    file: Option<Vec<u8>>,
    debug_file: Option<Vec<u8>>,
}

impl ReadPaths {
    /// Returns no paths.
    pub fn new(alloc: Global) -> Self {
        ReadPaths {
            list: RefCell::new(Vec::new(alloc)),
        }
    }

    /// Notes where the file of a name was read, if it was. It is the last one then.
    pub fn note(
        &self,
        alloc: Global,
        name: &[u8],
        build_id: &[u8],
        path: Option<&str>,
    ) -> Result<(), AllocError> {
        let one = read_path(alloc, name, build_id, path)?;
        if let Ok(mut list) = self.list.try_borrow_mut() {
            list.push(one)?;
        }
        Ok(())
    }

    /// Notes where the copy of the last file was read, which is in its place.
    pub(crate) fn note_copy(&self, alloc: Global, path: &str) -> Result<(), AllocError> {
        let path = Vec::from_slice(alloc, path.as_bytes())?;
        if let Ok(mut list) = self.list.try_borrow_mut()
            && let Some(last) = list.last_mut()
        {
            last.file = Some(path);
        }
        Ok(())
    }

    /// Notes where the debug file of the last file was read.
    pub(crate) fn note_debug_file(&self, alloc: Global, path: &str) -> Result<(), AllocError> {
        let path = Vec::from_slice(alloc, path.as_bytes())?;
        if let Ok(mut list) = self.list.try_borrow_mut()
            && let Some(last) = list.last_mut()
        {
            last.debug_file = Some(path);
        }
        Ok(())
    }

    /// Returns where files were read, in the order of their numbers.
    pub fn of_files(&self, alloc: Global, files: &Files<'_>) -> Result<Vec<FilePaths>, AllocError> {
        let mut paths = Vec::new(alloc);
        for file in files.list() {
            paths.push(self.of_file(alloc, file)?)?;
        }
        Ok(paths)
    }

    /// Returns where a file was read.
    fn of_file(&self, alloc: Global, file: &NamedFile<'_>) -> Result<FilePaths, AllocError> {
        match (&file.object, self.list.try_borrow()) {
            (Some(object), Ok(list)) => {
                let name = undeleted(file.name.as_slice());
                paths_of(alloc, last_of(list.as_slice(), name, object.build_id()))
            }
            _ => paths_of(alloc, None),
        }
    }
}

/// Returns where the file of a name was read, if it was, by the build id that was wanted. Of its debug file nothing is known.
fn read_path(
    alloc: Global,
    name: &[u8],
    build_id: &[u8],
    path: Option<&str>,
) -> Result<ReadPath, AllocError>
    ensures name { IfOk result (λ read. read.name.items ≡ name.now) }
    ensures build_id { IfOk result (λ read. read.build_id.items ≡ build_id.now) }
    ensures file { IfOk result (λ read. path_bytes read.file ≡ option_map (λ path. path.now) path.entry) }
    ensures debug_file { IfOk result (λ read. read.debug_file ≡ None) }
{
    Ok(ReadPath {
        file: bytes_of(alloc, path)?,
        name: Vec::from_slice(alloc, name)?,
        build_id: Vec::from_slice(alloc, build_id)?,
        debug_file: None,
    })
}

/// Returns the bytes of a path, if there is one.
fn bytes_of(alloc: Global, path: Option<&str>) -> Result<Option<Vec<u8>>, AllocError>
    ensures { IfOk result (λ bytes. path_bytes bytes ≡ option_map (λ path. path.now) path.entry) }
{
    match path {
        Some(path) => Ok(Some(Vec::from_slice(alloc, path.as_bytes())?)),
        None => Ok(None),
    }
}

/// Returns the last that was read by a name where a build id was wanted, or else the last by that name.
fn last_of<'l>(list: &'l [ReadPath], name: &[u8], build_id: &[u8]) -> Option<&'l ReadPath>
    ensures { option_copied result ≡ last_of name.now build_id.now list.entry.now }
{
    match last_read_by(list, name, build_id) {
        Some(read) => Some(read),
        None => last_named(list, name),
    }
}

/// Returns the last that was read by a name where a build id was wanted.
fn last_read_by<'l>(list: &'l [ReadPath], name: &[u8], build_id: &[u8]) -> Option<&'l ReadPath>
    ensures { option_copied result ≡ find (is_read_by name.now build_id.now) (reverse list.entry.now) }
{
    list.iter()
        .rev()
        .find(|read| is_read_by(read, name, build_id))
}

/// Returns the last that was read by a name.
fn last_named<'l>(list: &'l [ReadPath], name: &[u8]) -> Option<&'l ReadPath>
    ensures { option_copied result ≡ find (is_named name.now) (reverse list.entry.now) }
{
    list.iter().rev().find(|read| is_named(read, name))
}

/// Returns whether a file was read by a name where a build id was wanted.
fn is_read_by(read: &ReadPath, name: &[u8], build_id: &[u8]) -> bool
    ensures { result ≡ is_read_by name.now build_id.now read.now }
{
    is_named(read, name) && read.build_id.as_slice() == build_id
}

/// Returns whether a file was read by a name.
fn is_named(read: &ReadPath, name: &[u8]) -> bool
    ensures { result ≡ is_named name.now read.now }
{
    read.name.as_slice() == name
}

/// Returns the paths of what was read, if something was.
fn paths_of(alloc: Global, read: Option<&ReadPath>) -> Result<FilePaths, AllocError>
    ensures file { IfOk result (λ paths. path_bytes paths.file ≡ file_of (option_copied read.entry)) }
    ensures debug_file { IfOk result (λ paths. path_bytes paths.debug_file ≡ debug_file_of (option_copied read.entry)) }
{
    match read {
        Some(read) => Ok(FilePaths {
            file: copied(alloc, &read.file)?,
            debug_file: copied(alloc, &read.debug_file)?,
        }),
        None => Ok(FilePaths {
            file: None,
            debug_file: None,
        }),
    }
}

/// Returns the path of a file without the mark that it was deleted, as files are asked for.
fn undeleted(name: &[u8]) -> &[u8]
    ensures { result.now ≡ path_of name.entry.now }
{
    match name.strip_suffix(b" (deleted)") {
        Some(path) => path,
        None => name,
    }
}

/// Returns a copy of a path, if there is one.
fn copied(alloc: Global, path: &Option<Vec<u8>>) -> Result<Option<Vec<u8>>, AllocError>
    ensures { IfOk result (λ copy. path_bytes copy ≡ path_bytes path.now) }
{
    match path {
        Some(path) => Ok(Some(Vec::from_slice(alloc, path.as_slice())?)),
        None => Ok(None),
    }
}
