//! The program `framehop-check`: checks the unwind data of ELF and PE files against their code.
#![tactic(auto)]

mod allowed;
mod file;
mod findings;
mod missing;
mod parts;
mod pe_file;
mod text;

use allowed::Allowed;
use clap::{Arg, ArgAction, ArgMatches, Command};
use file::{Checked, Options, Refusal, check_file};
use framehop_cli::{Failure, Result, exit_code, print_text, read_or_tell, tell, usage};
use framehop_object::elf::error::ElfError;
use framehop_object::pe::error::PeError;
use framehop_object::pe::header::is_pe;
use missing::list_missing;
use pe_file::check_pe_file;
use std::alloc::{AllocError, Global};
use std::env;
use std::process::ExitCode;

/// The program's name.
const PROGRAM: &str = "framehop-check";

/// What the program does.
const ABOUT: &str =
    "Checks the unwind data of ELF and PE files against their code: where the rows of .eh_frame or .debug_frame, or the codes of prologs, and the instructions contradict each other.";

fn main(rt: HostRuntime) -> ExitCode {
    exit_code(&rt, PROGRAM, run(&rt))
}

/// Runs the program, and returns its status: 0, 1 where there are alarms, or a file or an entry of one
/// is refused, or 2.
fn run(rt: &HostRuntime) -> Result<u8> {
    let words: Vec<String> = env::args(rt)?.collect(rt.alloc())?;
    match command(rt.alloc())?.try_get_matches_from(&words) {
        Ok(matches) => run_matches(rt, &matches),
        Err(error) => usage(rt, &error),
    }
}

/// Returns the command line.
fn command<'a>(alloc: Global) -> Result<Command<'a>> {
    let command = Command::new(alloc, PROGRAM)
        .version("0.16.0 (commit ............)")
        .about(ABOUT)
        .arg(quiet(alloc))?
        .arg(notes(alloc))?
        .arg(allow(alloc))?
        .arg(lists_missing(alloc)?)?
        .arg(files(alloc))?;
    Ok(command)
}

/// Returns the option by which only summaries are printed.
fn quiet<'a>(alloc: Global) -> Arg<'a> {
    Arg::new(alloc, "quiet")
        .short('q')
        .long("quiet")
        .help("Print the summary of each file only")
        .action(ArgAction::SetTrue)
}

/// Returns the option by which notes are printed, too.
fn notes<'a>(alloc: Global) -> Arg<'a> {
    Arg::new(alloc, "notes")
        .long("notes")
        .help("Print rows that begin inside instructions too, which are no alarms")
        .action(ArgAction::SetTrue)
}

/// Returns the option that names the list of functions.
fn allow<'a>(alloc: Global) -> Arg<'a> {
    Arg::new(alloc, "allow")
        .long("allow")
        .value_name("LIST")
        .help("A file of names of functions, one a line, of which no alarm is told")
        .action(ArgAction::Set)
}

/// Returns the option by which code without rows is listed.
fn lists_missing<'a>(alloc: Global) -> Result<Arg<'a>> {
    let missing = Arg::new(alloc, "missing")
        .long("missing")
        .help("List the code that no FDE covers, in the place of alarms")
        .action(ArgAction::SetTrue)
        .conflicts_with("notes")?
        .conflicts_with("allow")?;
    Ok(missing)
}

/// Returns the argument that names the files.
fn files<'a>(alloc: Global) -> Arg<'a> {
    Arg::new(alloc, "file")
        .value_name("FILE")
        .num_args(1..)
        .required(true)
        .help("ELF files of x86_64 or aarch64, or PE files of x86_64")
        .action(ArgAction::Append)
}

/// Checks the files of a command line, and returns the status.
fn run_matches(rt: &HostRuntime, matches: &ArgMatches<'_>) -> Result<u8> {
    match read_list(rt, matches.get_str("allow"))? {
        Some(list) => {
            let allowed = Allowed::new(rt.alloc(), list.as_slice())?;
            check_paths(rt, matches, &allowed)
        }
        None => Ok(2),
    }
}

/// Checks the files of a command line but for the functions that are allowed to have alarms, and returns the status.
fn check_paths(rt: &HostRuntime, matches: &ArgMatches<'_>, allowed: &Allowed<'_>) -> Result<u8> {
    let options = Options {
        is_quiet: matches.get_flag("quiet"),
        has_notes: matches.get_flag("notes"),
        is_missing: matches.get_flag("missing"),
    };
    let mut status = 0;
    for path in matches.get_strs("file").unwrap_or(&[]) {
        if !check_path(rt, path, options, allowed)? {
            status = 1;
        }
    }
    Ok(status)
}

/// Reads the list of names, which is empty without a path.
fn read_list(rt: &HostRuntime, path: Option<&str>) -> Result<Option<Vec<u8>>> {
    match path {
        Some(path) => read_or_tell(rt, PROGRAM, path),
        None => Ok(Some(Vec::new(rt.alloc()))),
    }
}

/// Checks a file and prints what was found, and returns whether there are no alarms.
fn check_path(
    rt: &HostRuntime,
    path: &str,
    options: Options,
    allowed: &Allowed<'_>,
) -> Result<bool> {
    match read_or_tell(rt, PROGRAM, path)? {
        Some(bytes) => {
            let checked = check_bytes(rt.alloc(), path, bytes.as_slice(), options, allowed)?;
            print_checked(rt, path, &checked)
        }
        None => Ok(false),
    }
}

/// Checks a file by its bytes.
fn check_bytes(
    alloc: Global,
    path: &str,
    bytes: &[u8],
    options: Options,
    allowed: &Allowed<'_>,
) -> Result<Checked, AllocError> {
    match (is_pe(bytes), options.is_missing) {
        (true, true) => Ok(Checked::Refused(Refusal::PeMissing)),
        (true, false) => check_pe_file(alloc, path, bytes, options),
        (false, true) => list_missing(alloc, path, bytes, options),
        (false, false) => check_file(alloc, path, bytes, options, allowed),
    }
}

/// Prints what was found, and returns whether there are no alarms.
fn print_checked(rt: &HostRuntime, path: &str, checked: &Checked) -> Result<bool> {
    match checked {
        Checked::Text { text, is_good } => {
            print_text(rt, text.as_str())?;
            Ok(*is_good)
        }
        Checked::Refused(refusal) => tell_refusal(rt, path, *refusal),
    }
}

/// Prints why a file is refused, and returns that it is not good.
fn tell_refusal(rt: &HostRuntime, path: &str, refusal: Refusal) -> Result<bool> {
    match refusal {
        Refusal::Elf(ElfError::OutOfMemory) | Refusal::Pe(PeError::OutOfMemory) => {
            Err(Failure::OutOfMemory)
        }
        refusal => {
            tell(rt, PROGRAM, path, refusal)?;
            Ok(false)
        }
    }
}
