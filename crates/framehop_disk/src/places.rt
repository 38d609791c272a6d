//! In which places of a disk a file is looked for.
ghost use Rattle.std.specs.Prelude.{◌≡◌, ◌++◌, IfOk, codes, map, option_map, Some};
ghost use Rattle.std.specs.String.{string_bytes};
ghost use Rattle.framehop_disk.specs.Paths.{build_id_path};
ghost use Rattle.framehop_disk.specs.Places.{cache_folder, copies_in, debug_paths, in_root, linked_places, mapped_places};

use crate::paths::{build_id_path, push_after_drive, windows_name};
use framehop_processes::files::is_windows_path;
use std::alloc::{AllocError, Global};
use std::marker::Model;

/// The folder below which systems keep debug files.
const DEBUG_DIR: &str = "/usr/lib/debug";

/// A place where a file is looked for.
#[derive(Drop)]
pub(crate) struct Place<'a> {
    /// The folder below which the file must lie.
    root: &'a str,
    path: String,
}

impl<'a> Model for Place<'a> {
    ghost use Rattle.std.specs.String.{string_bytes};
    ghost use Rattle.framehop_disk.specs.Places.{Place};

    ghost Value = { Place };

    ghost view = { λ place. (place.root.now, string_bytes place.path) };
}

impl<'a> Place<'a> {
    /// Returns where a path is in a root.
    fn in_root(alloc: Global, root: &'a str, path: &str) -> Result<Self, AllocError>
        ensures { IfOk result (λ place. place ≡ in_root path.now root.now) }
    {
        let path = format!(in alloc; "{root}{path}")?;
        Ok(Place { root, path })
    }

    /// Returns the folder below which the file must lie.
    pub(crate) fn root(&self) -> &str
        ensures { result.now ≡ self.entry.now.0 }
    {
        self.root
    }

    /// Returns the path of the file.
    pub(crate) fn path(&self) -> &str
        ensures { result.now ≡ self.entry.now.1 }
    {
        self.path.as_str()
    }
}

/// Returns the places of a file in a root: that of its path or, where it is one of Windows, of the path after its drive, and then
/// of its name.
pub(crate) fn mapped_places<'a>(
    alloc: Global,
    root: &'a str,
    path: &str,
) -> Result<Vec<Place<'a>>, AllocError>
    ensures { IfOk result (λ places. places.items ≡ mapped_places path.now root.now) }
{
    let mut places = Vec::new(alloc);
    if is_windows_path(path.as_bytes()) {
        let mut below = String::new(alloc);
        push_after_drive(path, &mut below)?;
        places.push(Place::in_root(alloc, root, below.as_str())?)?;
        let name = format!(in alloc; "/{}", windows_name(path))?;
        places.push(Place::in_root(alloc, root, name.as_str())?)?;
    } else {
        places.push(Place::in_root(alloc, root, path)?)?;
    }
    Ok(places)
}

/// Returns the paths of the debug file of a build id: below the folders that are named, and then below that of the system.
pub(crate) fn debug_paths(
    alloc: Global,
    debug_dirs: &[&str],
    build_id: &[u8],
) -> Result<Vec<String>, AllocError>
    ensures { IfOk result (λ paths. map (λ path. string_bytes path) paths.items
        ≡ debug_paths (map (λ folder. folder.now) debug_dirs.now) build_id.now) }
{
    let mut paths = Vec::new(alloc);
    for folder in debug_dirs {
        paths.push(debug_path(alloc, folder, build_id)?)?;
    }
    paths.push(debug_path(alloc, DEBUG_DIR, build_id)?)?;
    Ok(paths)
}

/// Returns the path of the debug file of a build id below a folder.
fn debug_path(alloc: Global, folder: &str, build_id: &[u8]) -> Result<String, AllocError>
    ensures { IfOk result (λ path. string_bytes path ≡ build_id_path folder.now build_id.now ++ codes ".debug") }
{
    let mut path = build_id_path(alloc, folder, build_id)?;
    path.push_str(".debug")?;
    Ok(path)
}

/// Returns the places of the debug file that a link names, where GDB looks for it: in each root the folder of the file that has
/// the link, and the folder `.debug` there; then the same folder below those of debug files.
pub(crate) fn linked_places<'a>(
    alloc: Global,
    roots: &[&'a str],
    debug_dirs: &[&'a str],
    folder: &str,
    link: &str,
) -> Result<Vec<Place<'a>>, AllocError>
    ensures { IfOk result (λ places. places.items
        ≡ linked_places (map (λ root. root.now) roots.now) (map (λ root. root.now) debug_dirs.now) folder.now link.now) }
{
    let inside = format!(in alloc; "{folder}/{link}")?;
    let hidden = format!(in alloc; "{folder}/.debug/{link}")?;
    let mut places = Vec::new(alloc);
    for root in roots {
        places.push(Place::in_root(alloc, root, inside.as_str())?)?;
        places.push(Place::in_root(alloc, root, hidden.as_str())?)?;
    }
    for debug_dir in debug_dirs {
        places.push(Place::in_root(alloc, debug_dir, inside.as_str())?)?;
    }
    places.push(Place::in_root(alloc, DEBUG_DIR, inside.as_str())?)?;
    Ok(places)
}

/// Returns the paths of the copy that perf keeps of the file of a build id, in the folder that is named, or else in the home
/// folder. None where neither is known.
pub(crate) fn copied_paths(
    alloc: Global,
    named: Option<&str>,
    home: Option<&str>,
    build_id: &[u8],
) -> Result<Vec<String>, AllocError>
    ensures { IfOk result (λ paths. map (λ path. string_bytes path) paths.items
        ≡ copies_in (cache_folder (option_map (λ folder. folder.now) named.entry) (option_map (λ folder. folder.now) home.entry)) build_id.now) }
{
    match cache_folder(alloc, named, home)? {
        Some(folder) => copies_in(alloc, folder.as_str(), build_id),
        None => Ok(Vec::new(alloc)),
    }
}

/// Returns the folder of such copies, if it is known.
fn cache_folder(
    alloc: Global,
    named: Option<&str>,
    home: Option<&str>,
) -> Result<Option<String>, AllocError>
    ensures { IfOk result (λ folder. option_map (λ path. string_bytes path) folder
        ≡ cache_folder (option_map (λ path. path.now) named.entry) (option_map (λ path. path.now) home.entry)) }
{
    match (named, home) {
        (Some(folder), _) => Ok(Some(String::from_str(alloc, folder)?)),
        (None, Some(home)) => Ok(Some(format!(in alloc; "{home}/.debug")?)),
        (None, None) => Ok(None),
    }
}

/// Returns the paths of the copy of the file of a build id in a folder of such copies.
fn copies_in(alloc: Global, folder: &str, build_id: &[u8]) -> Result<Vec<String>, AllocError>
    ensures { IfOk result (λ paths. map (λ path. string_bytes path) paths.items ≡ copies_in (Some folder.now) build_id.now) }
{
    let folder = build_id_path(alloc, folder, build_id)?;
    let mut paths = Vec::new(alloc);
    paths.push(format!(in alloc; "{folder}/elf")?)?;
    paths.push(format!(in alloc; "{folder}/vdso")?)?;
    Ok(paths)
}
