//! Files that processes map, with what was found in them, as JSON.
ghost use Rattle.std.specs.Prelude.{◌≡◌, option_map, IfOk};
ghost use Rattle.serde_json.specs.Data.{array};
ghost use Rattle.serde_json.specs.View.{view, items_of};
ghost use Rattle.framehop_frames.specs.JsonFiles.{build_id_data, has_unwind_data, has_function_names, path_in, debug_path_in, file_data, files_data};
ghost use Rattle.framehop_frames.specs.JsonValues.{or_null};

use crate::json_values::{name_text, name_value};
use framehop_processes::files::NamedFile;
use framehop_processes::object_file::ObjectFile;
use serde_json::{Value, json};
use std::alloc::{AllocError, Global};

/// Where a file that processes map was read, and its debug file.
#[derive(Drop)]
pub struct FilePaths {
    /// The path at which it was read, if it was.
    pub file: Option<Vec<u8>>,
    /// The path at which its debug file was read, if there is one.
    pub debug_file: Option<Vec<u8>>,
}

/// Returns files in the order of their numbers, by where they were read.
pub fn files_value(
    alloc: Global,
    paths: &[FilePaths],
    files: &[NamedFile<'_>],
) -> Result<Value, AllocError>
    ensures { IfOk result (λ value. view value ≡ array (items_of (files_data paths.now files.now))) }
{
    let mut values = Vec::new(alloc);
    for (number, file) in files.iter().enumerate() {
        values.push(file_value(alloc, paths, number, file)?)?;
    }
    Ok(Value::Array(values))
}

/// Returns the file of a number.
fn file_value(
    alloc: Global,
    paths: &[FilePaths],
    number: usize,
    file: &NamedFile<'_>,
) -> Result<Value, AllocError>
    ensures { IfOk result (λ value. view value ≡ file_data (path_in paths.now number) (debug_path_in paths.now number) file.now) }
{
    let name = name_text(alloc, file.name.as_slice())?;
    let build_id = build_id_value(alloc, &file.object)?;
    let path = name_value(alloc, path_in(paths, number))?;
    let debug_path = name_value(alloc, debug_path_in(paths, number))?;
    json!(in alloc; {
        "file": name.as_str(),
        "build_id": build_id,
        "path": path,
        "debug_path": debug_path,
        "file_read": file.object.is_some(),
        "unwind_data": has_unwind_data(&file.object),
        "names": has_function_names(&file.object)
    })
}

/// Returns the path at which the file of a number was read, if it was.
pub fn path_in(paths: &[FilePaths], number: usize) -> Option<&[u8]>
    ensures { option_map (λ path. path.now) result ≡ path_in paths.entry.now number }
{
    match paths.get(number) {
        Some(
            FilePaths {
                file: Some(path),
                ..
            },
        ) => Some(path.as_slice()),
        _ => None,
    }
}

/// Returns the path at which the debug file of the file of a number was read, if there is one.
pub fn debug_path_in(paths: &[FilePaths], number: usize) -> Option<&[u8]>
    ensures { option_map (λ path. path.now) result ≡ debug_path_in paths.entry.now number }
{
    match paths.get(number) {
        Some(
            FilePaths {
                debug_file: Some(path),
                ..
            },
        ) => Some(path.as_slice()),
        _ => None,
    }
}

/// Returns the build id of a file that was read, in hexadecimal: null where it has none.
pub fn build_id_value(alloc: Global, object: &Option<ObjectFile<'_>>) -> Result<Value, AllocError>
    ensures { IfOk result (λ value. view value ≡ or_null build_id_data object.now) }
{
    match object {
        Some(object) if !object.build_id().is_empty() => Ok(Value::String(hex::encode(
            alloc,
            object.build_id(),
        )?)),
        _ => Ok(Value::Null),
    }
}

/// Returns whether a file was read and has unwind data.
pub fn has_unwind_data(object: &Option<ObjectFile<'_>>) -> bool
    ensures { result ≡ has_unwind_data object.now }
{
    match object {
        Some(object) => object.has_unwind_data(),
        None => false,
    }
}

/// Returns whether a file was read and has names of functions.
pub fn has_function_names(object: &Option<ObjectFile<'_>>) -> bool
    ensures { result ≡ has_function_names object.now }
{
    match object {
        Some(object) => object.has_names(),
        None => false,
    }
}
