//! The modules of a process as JSON.
ghost use Rattle.std.specs.Prelude.{◌≡◌, IfOk};
ghost use Rattle.serde_json.specs.Data.{array};
ghost use Rattle.serde_json.specs.View.{view, items_of};
ghost use Rattle.framehop_dump_stacks.specs.JsonModules.{module_data, modules_data};

use framehop_frames::json_files::{
    FilePaths, build_id_value, debug_path_in, has_function_names, has_unwind_data, path_in,
};
use framehop_frames::json_values::{address_value, name_value};
use framehop_processes::Mapping;
use framehop_processes::files::{Files, NamedFile};
use serde_json::{Value, json};
use std::alloc::{AllocError, Global};

/// Returns the mappings of code of a process, in the order of their addresses, with what was found in their files, by the
/// paths at which files were read.
pub(crate) fn modules_value(
    alloc: Global,
    paths: &[FilePaths],
    files: &Files<'_>,
    mappings: &[Mapping],
) -> Result<Value, AllocError>
    ensures { IfOk result (λ value. view value ≡ array (items_of (modules_data paths.now files.now mappings.now))) }
{
    let mut values = Vec::new(alloc);
    for mapping in mappings {
        if let Some(file) = files.get(mapping.file) {
            values.push(module_value(alloc, paths, mapping, file)?)?;
        }
    }
    Ok(Value::Array(values))
}

/// Returns a mapping of a file.
fn module_value(
    alloc: Global,
    paths: &[FilePaths],
    mapping: &Mapping,
    file: &NamedFile<'_>,
) -> Result<Value, AllocError>
    ensures { IfOk result (λ value. view value ≡ module_data paths.now mapping.now file.now) }
{
    let name = name_value(alloc, Some(file.name.as_slice()))?;
    let start = address_value(alloc, Some(mapping.start))?;
    let end = address_value(alloc, Some(mapping.end))?;
    let build_id = build_id_value(alloc, &file.object)?;
    let path = name_value(alloc, path_in(paths, mapping.file as usize))?;
    let debug_path = name_value(alloc, debug_path_in(paths, mapping.file as usize))?;
    json!(in alloc; {
        "file": name,
        "build_id": build_id,
        "path": path,
        "debug_path": debug_path,
        "start": start,
        "end": end,
        "file_read": file.object.is_some(),
        "unwind_data": has_unwind_data(&file.object),
        "names": has_function_names(&file.object)
    })
}
