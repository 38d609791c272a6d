//! Files that a process maps, and when a file is asked for that was left out. Which file is read for a name is in
//! `checks/cases/elf_files`.
use crate::small::{BUILD_ID, SMALL};
use framehop_processes::Mapping;
use framehop_processes::code::code_at;
use framehop_processes::constants::constant_at;
use framehop_processes::debug_frame::debug_frame_at;
use framehop_processes::files::{FileSource, Files};
use framehop_processes::object_file::{FileProblem, ObjectFile};
use framehop_processes::place::place_of;
use framehop_processes::read_refusal::ReadRefusal;
use std::alloc::{AllocError, Global};

/// A disk with the program at one path, and whether memory runs out where its debug file is read.
#[derive(Clone, Copy, Drop)]
struct OneFile {
    alloc: Global,
    runs_out: bool,
}

impl FileSource for OneFile {
    ghost source = { λ disk. record {
      gives = λ name build_id given. Unit {0};
      gives_copied = λ build_id given. Unit {0};
      gives_debug = λ name build_id link given. Unit {0};
    } };

    fn read_file(
        &self,
        name: &[u8],
        _build_id: &[u8],
    ) -> Result<Result<Vec<u8>, ReadRefusal>, AllocError> {
        if name == b"/bin/small".as_slice() {
            Ok(Ok(Vec::from_slice(self.alloc, &SMALL)?))
        } else {
            Ok(Err(ReadRefusal::NotThere))
        }
    }

    fn read_copied_file(&self, _build_id: &[u8]) -> Result<Option<Vec<u8>>, AllocError> {
        Ok(None)
    }

    fn read_debug_file(
        &self,
        name: &[u8],
        build_id: &[u8],
        link: &[u8],
    ) -> Result<Option<Vec<u8>>, AllocError> {
        if self.runs_out && (name, build_id, link) == (b"/bin/small".as_slice(), BUILD_ID, b"") {
            Err(AllocError)
        } else {
            Ok(None)
        }
    }
}

/// How many files are listed after that of a name, and why nothing is read of it.
type Listed = (usize, Option<FileProblem>);

/// What is listed after the file of a name of which a build id is wanted.
fn listed(
    files: &mut Files<'_>,
    source: &OneFile,
    name: &[u8],
    build_id: &[u8],
) -> Result<Listed, AllocError> {
    files.add(source.alloc, source, name, build_id)?;
    match files.get(0) {
        Some(file) => Ok((files.list().len(), file.problem)),
        None => Ok((0, None)),
    }
}

/// The same of no files.
fn problem_of(alloc: Global, name: &[u8], build_id: &[u8]) -> Result<Listed, AllocError> {
    let source = OneFile {
        alloc,
        runs_out: false,
    };
    listed(&mut Files::new(alloc)?, &source, name, build_id)
}

/// Names, the build ids that are wanted, and why nothing is read.
const PROBLEMS: [(&'static [u8], &'static [u8], Option<FileProblem>); 6] = [
    (b"/bin/small", b"", None),
    (b"/bin/small", BUILD_ID, None),
    (b"/bin/small (deleted)", BUILD_ID, None),
    (
        b"/bin/small (deleted)",
        b"",
        Some(FileProblem::NotRead(ReadRefusal::Deleted)),
    ),
    (
        b"/bin/other",
        BUILD_ID,
        Some(FileProblem::NotRead(ReadRefusal::NotThere)),
    ),
    (
        b"/bin/small (deleted)",
        &[7; 20],
        Some(FileProblem::OtherBuildId),
    ),
];

#[test]
fn a_deleted_file_is_read_by_its_build_id(rt: HostRuntime) {
    for (name, build_id, problem) in &PROBLEMS {
        assert!(rt; problem_of(rt.alloc(), *name, *build_id) == Ok((1, *problem)));
    }
}

/// Whether no file is listed where memory runs out.
fn lists_none(files: &mut Files<'_>, source: &OneFile) -> bool {
    let is_refused = files.add(source.alloc, source, b"/bin/small", &[]).is_err();
    is_refused && files.list().is_empty()
}

/// Whether memory runs out while a debug file is read, and no file is listed.
fn tells_that_memory_runs_out(alloc: Global) -> Result<bool, AllocError> {
    let source = OneFile {
        alloc,
        runs_out: true,
    };
    Ok(lists_none(&mut Files::new(alloc)?, &source))
}

#[test]
fn memory_that_runs_out_at_a_debug_file_is_told(rt: HostRuntime) {
    assert!(rt; tells_that_memory_runs_out(rt.alloc()) == Ok(true));
}

/// The addresses of the first file.
const MAPPINGS: [Mapping; 1] = [Mapping {
    start: 0x1000,
    end: 0x2000,
    base_avma: 0x1000,
    file: 0,
    has_sections: true,
}];

/// What is looked up at an address.
#[derive(Clone, Copy)]
enum Look {
    Place(u64),
    Code(u64),
    Rows(u64),
}

/// Looks something up.
fn look_up(files: &Files<'_>, look: Look) {
    match look {
        Look::Place(address) => {
            place_of(files, &MAPPINGS, address);
        }
        Look::Code(address) => {
            code_at(files, &MAPPINGS, address);
        }
        Look::Rows(address) => {
            debug_frame_at(files, &MAPPINGS, address);
        }
    }
}

/// Whether a file that was left out is asked for by a look.
fn is_asked_for(alloc: Global, look: Look) -> Result<bool, AllocError> {
    let mut files = Files::new(alloc)?;
    files.leave_out(alloc, b"/bin/small")?;
    look_up(&files, look);
    Ok(files.is_asked_for(b"/bin/small"))
}

#[test]
fn a_file_that_was_left_out_is_asked_for_at_its_addresses(rt: HostRuntime) {
    assert!(rt; is_asked_for(rt.alloc(), Look::Place(0x1fff)) == Ok(true));
    assert!(rt; is_asked_for(rt.alloc(), Look::Code(0x1000)) == Ok(true));
    assert!(rt; is_asked_for(rt.alloc(), Look::Rows(0x1000)) == Ok(true));
    assert!(rt; is_asked_for(rt.alloc(), Look::Place(0x2000)) == Ok(false));
}

/// A part of the program's code, as an input has it that tells of code only.
const CODE_ONLY: [Mapping; 1] = [Mapping {
    start: 0x7000_0040_0000,
    end: 0x7000_0040_0120,
    base_avma: 0x7000_0000_0000,
    file: 0,
    has_sections: true,
}];

/// Addresses, and the words there by `readelf -x` of the sections: of code, of data after it, over the end of a section, in
/// no section, and below all mappings.
const CONSTANTS: [(u64, Option<u64>); 5] = [
    (0x7000_0040_010c, Some(0xffff_f7e8_c37f_048d)),
    (0x7000_0040_0130, Some(0x14)),
    (0x7000_0040_0126, None),
    (0x7000_0040_0200, None),
    (0x7000_003f_fff8, None),
];

/// Returns the word that the program has at an address (AVMA), if no process changes it.
fn constant_of(alloc: Global, address: u64) -> Result<Option<u64>, AllocError> {
    let source = OneFile {
        alloc,
        runs_out: false,
    };
    let mut files = Files::new(alloc)?;
    files.add(alloc, &source, b"/bin/small", &[])?;
    Ok(constant_at(&files, &CODE_ONLY, address))
}

#[test]
fn has_the_words_that_no_process_changes(rt: HostRuntime) {
    for (address, word) in &CONSTANTS {
        assert!(rt;
            constant_of(rt.alloc(), *address) == Ok(*word),
            "{address:x}"
        );
    }
}

/// Whether the program has the name of a function at an address (SVMA), and where the function begins by its unwind data.
fn is_named(object: &ObjectFile<'_>) -> bool {
    let name = b"inner".as_slice();
    object.function_at(0x40010f) == Some((name, 3))
        && object.unnamed_start(0x40010f) == Some(0x40010c)
}

/// Whether its file has.
fn names_a_function(alloc: Global) -> Result<bool, FileProblem> {
    let file = Vec::from_slice(alloc, &SMALL)?;
    let object = ObjectFile::new(alloc, file, BUILD_ID)?;
    Ok(is_named(&object))
}

#[test]
fn names_the_function_at_an_address(rt: HostRuntime) {
    assert!(rt; names_a_function(rt.alloc()) == Ok(true));
}
