//! The program `framehop-stacks`: reads recordings of perf and folded stacks, and prints folded stacks or a flame graph;
//! reads core files and minidumps, and prints the stacks of their threads.
#![tactic(auto)]

mod arguments;
mod command_line;
mod cores;
mod events;
mod files;
mod folded;
mod form;
mod kernel;
mod minidumps;
mod misuse;
mod options;
mod output;
mod recording_json;
mod recording_parts;
mod recordings;
mod request;
mod samples;
mod sources;
mod statuses;

use arguments::command;
use clap::ArgMatches;
use command_line::{is_given, word_of, words_of};
use files::{print_all, print_changes};
use form::form_asked;
use framehop_cli::{Result, exit_code, usage};
use framehop_disk::disk::Program;
use framehop_disk::input::read_input;
use framehop_disk::messages::say_of;
use framehop_perf_stacks::kernel::KernelNames;
use framehop_perf_stacks::run::Options;
use kernel::kernel_names;
use misuse::misuse_of_options;
use options::options;
use request::{Request, refuse, refuse_file};
use samples::{Asked, samples_asked};
use sources::Sources;
use std::cell::Cell;
use std::process::ExitCode;
use std::{env, fs};

fn main(rt: HostRuntime) -> ExitCode {
    exit_code(&rt, "framehop-stacks", run(&rt))
}

/// Runs the program, and returns its status: 0, 1 where a recording can't be read, or 2.
fn run(rt: &HostRuntime) -> Result<u8> {
    let words: Vec<String> = env::args(rt)?.collect(rt.alloc())?;
    match command(rt.alloc())?.try_get_matches_from(&words) {
        Ok(matches) => run_matches(rt, &matches),
        Err(error) => usage(rt, &error),
    }
}

/// Runs what a command line asks for.
fn run_matches(rt: &HostRuntime, matches: &ArgMatches<'_>) -> Result<u8> {
    match kernel_names(rt, matches)? {
        Some(names) => run_with_names(rt, matches, &names),
        None => Ok(1),
    }
}

/// Runs what a command line asks for, with the names of the kernel's functions.
fn run_with_names(rt: &HostRuntime, matches: &ArgMatches<'_>, names: &KernelNames) -> Result<u8> {
    let Some(options) = options(matches, names) else {
        return refuse(rt, "the limit is no number", 2);
    };
    match samples_asked(rt.alloc(), matches)? {
        Some(asked) => run_options(rt, matches, options, &asked),
        None => {
            let why = "a process or a thread is no number, or the times are not FROM,TO in seconds";
            refuse(rt, why, 2)
        }
    }
}

/// Runs what a command line asks for, if its options go together.
fn run_options<'w>(
    rt: &HostRuntime,
    matches: &ArgMatches<'w>,
    options: Options<'_>,
    asked: &Asked<'w>,
) -> Result<u8> {
    if let Some(folder) = word_of(matches, "perf-map")
        && !is_folder(rt, folder)
    {
        return refuse_file(rt, folder, "no folder", 1);
    }
    if let Some(misuse) = misuse_of_options(matches, options) {
        return refuse(rt, misuse, 2);
    }
    match word_of(matches, "exec") {
        Some(path) => match read_input(rt, path)? {
            Ok(bytes) => {
                let is_mapped = Cell::new(false);
                let program = Program {
                    path,
                    bytes,
                    is_mapped,
                };
                run_with_program(rt, matches, options, asked, Some(program))
            }
            Err(status) => Ok(status),
        },
        None => run_with_program(rt, matches, options, asked, None),
    }
}

/// Prints what a command line asks for, and says so if no mapped file is the main program that it names.
fn run_with_program<'a, 'w>(
    rt: &'a HostRuntime,
    matches: &'a ArgMatches<'w>,
    options: Options<'a>,
    asked: &'a Asked<'w>,
    program: Option<Program<'w>>,
) -> Result<u8> {
    let sources = Sources::new(rt, matches, program);
    let request = Request {
        rt,
        sources: &sources,
        asked,
        options,
        form: form_asked(matches),
    };
    let status = print_paths(request, matches)?;
    tell_unmapped(rt, sources.disk.program.as_ref())?;
    Ok(status)
}

/// Prints what a request asks for, of the files of a command line.
fn print_paths(request: Request<'_, '_>, matches: &ArgMatches<'_>) -> Result<u8> {
    let paths = words_of(matches, "file");
    if is_given(matches, "diff") {
        print_changes(request, paths)
    } else {
        print_all(request, paths)
    }
}

/// Returns whether a path is that of a folder.
fn is_folder(rt: &HostRuntime, path: &str) -> bool {
    fs::metadata(rt, path).is_ok_and(|metadata| metadata.is_dir())
}

/// Says that the file of the main program was taken for no mapped file, if one is named and it was not.
fn tell_unmapped(rt: &HostRuntime, program: Option<&Program<'_>>) -> Result<()> {
    match program {
        Some(program) if !program.is_mapped.get() => {
            let why =
                "no mapped file that was asked for has its build id or, where none is known, its name";
            say_of(rt, program.path, why)?;
            Ok(())
        }
        _ => Ok(()),
    }
}
