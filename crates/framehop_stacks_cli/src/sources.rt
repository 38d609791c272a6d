//! The files and the maps of JIT compilers by which stacks get their names.
ghost use Rattle.std.specs.Prelude.{◌≡◌, map, option_map, codes};
ghost use Rattle.framehop_stacks_cli.specs.CommandLine.{word_of, words_of};
ghost use Rattle.framehop_stacks_cli.specs.Options.{perf_map_of, roots_of};

use crate::command_line::{word_of, words_of};
use crate::options::perf_map;
use clap::ArgMatches;
use framehop_disk::disk::{Disk, Program, read_perf_map};
use framehop_disk::known_names::KnownNames;
use framehop_disk::read_paths::ReadPaths;
use framehop_dump_stacks::json_report::PathSource;
use framehop_frames::json_files::FilePaths;
use framehop_perf_stacks::perf_map::MapSource;
use framehop_processes::files::{FileSource, Files};
use framehop_processes::read_refusal::ReadRefusal;
use std::alloc::{AllocError, Global};
use std::env;
use std::path::PathBuf;

/// The files of a disk, and the maps that JIT compilers write.
#[derive(Drop)]
pub struct Sources<'a, 'w> {
    pub disk: Disk<'a, 'w>,
    /// The folder of the maps, if they are read.
    pub perf_map: Option<&'w str>,
}

impl<'a, 'w> Sources<'a, 'w> {
    /// Returns the files and maps of the folders that a command line names, with a main program that was read.
    pub fn new(
        rt: &'a HostRuntime,
        matches: &'a ArgMatches<'w>,
        program: Option<Program<'w>>,
    ) -> Self
        ensures roots { map (λ folder. folder.now) result.disk.roots.now ≡ roots_of matches.entry.now }
        ensures debug_dirs { map (λ folder. folder.now) result.disk.debug_dirs.now ≡ words_of matches.entry.now (codes "debug-dir") }
        ensures buildid_dir { option_map (λ folder. folder.now) result.disk.buildid_dir ≡ word_of matches.entry.now (codes "buildid-dir") }
        ensures vdso { option_map (λ file. file.now) result.disk.vdso ≡ word_of matches.entry.now (codes "vdso") }
        ensures program { result.disk.program ≡ program.entry }
        ensures perf_map { option_map (λ folder. folder.now) result.perf_map ≡ perf_map_of matches.entry.now }
    {
        Sources {
            disk: Disk {
                rt,
                roots: roots(matches),
                debug_dirs: words_of(matches, "debug-dir"),
                buildid_dir: word_of(matches, "buildid-dir"),
                home: home(rt),
                vdso: word_of(matches, "vdso"),
                program,
                known_names: KnownNames::new(rt.alloc()),
                read_paths: ReadPaths::new(rt.alloc()),
            },
            perf_map: perf_map(matches),
        }
    }
}

/// Returns the folders below which mapped files are looked for: the root of this machine where none is named.
fn roots<'m, 'a: 'm>(matches: &'m ArgMatches<'a>) -> &'m [&'a str]
    ensures { map (λ folder. folder.now) result.now ≡ roots_of matches.entry.now }
{
    let roots = words_of(matches, "root");
    if roots.is_empty() { &[""] } else { roots }
}

/// Returns the home folder, if it is known.
fn home(rt: &HostRuntime) -> Option<PathBuf> {
    env::home_dir(rt).ok()?
}

impl FileSource for Sources<'_, '_> {
    // what a disk gives is not known
    ghost source = { λ sources. record {
      gives = λ name build_id given. Unit {0};
      gives_copied = λ build_id given. Unit {0};
      gives_debug = λ name build_id link given. Unit {0};
    } };

    fn read_file(
        &self,
        name: &[u8],
        build_id: &[u8],
    ) -> Result<Result<Vec<u8>, ReadRefusal>, AllocError> {
        self.disk.read_file(name, build_id)
    }

    fn read_copied_file(&self, build_id: &[u8]) -> Result<Option<Vec<u8>>, AllocError> {
        self.disk.read_copied_file(build_id)
    }

    fn read_debug_file(
        &self,
        name: &[u8],
        build_id: &[u8],
        link: &[u8],
    ) -> Result<Option<Vec<u8>>, AllocError> {
        self.disk.read_debug_file(name, build_id, link)
    }
}

impl MapSource for Sources<'_, '_> {
    ghost gives_map = { λ sources pid given. Unit {0} };

    fn read_map(&self, pid: u32) -> Result<Option<Vec<u8>>, AllocError> {
        let Some(folder) = self.perf_map else {
            return Ok(None);
        };
        let path = format!(in self.disk.rt.alloc(); "{folder}/perf-{pid}.map")?;
        read_perf_map(self.disk.rt, path.as_str())
    }
}

impl PathSource for Sources<'_, '_> {
    ghost gives_paths = { λ sources files paths. Unit {0} };

    fn paths_of(&self, _alloc: Global, files: &Files<'_>) -> Result<Vec<FilePaths>, AllocError> {
        self.disk.paths_of(files)
    }
}
