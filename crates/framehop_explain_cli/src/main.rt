//! The program `framehop-explain`: the replies of `framehop-walk`, with where each frame came from; and by `--elf` what an
//! ELF file or a PE file has to unwind by.
#![tactic(auto)]

mod explainer;
mod fault;
mod fields;
mod file;
mod notes;
mod program;
mod row_text;
mod sections;

use clap::{Arg, ArgAction, ArgMatches, Command};
use either::{Either, Left, Right};
use file::{FileProblem, explain_file};
use framehop_cli::{Failure, Result, exit_code, print_text, read_or_tell, tell, usage};
use framehop_walk::{Input, Output};
use program::explain_program;
use std::alloc::Global;
use std::fs::File;
use std::io::Stdin;
use std::process::ExitCode;
use std::{env, fs, io};

/// The program's name.
const PROGRAM: &str = "framehop-explain";

/// What the program does.
const ABOUT: &str =
    "Carries out the commands of framehop-walk and prints its replies, with a note under each module and each frame: the kind of unwind data, and where the frame came from.";

fn main(rt: HostRuntime) -> ExitCode {
    exit_code(&rt, PROGRAM, run(&rt))
}

/// Runs the program, and returns its status: 0, 1 where the input is refused, or 2.
fn run(rt: &HostRuntime) -> Result<u8> {
    let words: Vec<String> = env::args(rt)?.collect(rt.alloc())?;
    match command(rt.alloc())?.try_get_matches_from(&words) {
        Ok(matches) => run_matches(rt, &matches),
        Err(error) => usage(rt, &error),
    }
}

/// Returns the command line.
fn command<'a>(alloc: Global) -> Result<Command<'a>> {
    let command = Command::new(alloc, PROGRAM)
        .version("0.16.0 (commit ............)")
        .about(ABOUT)
        .arg(elf(alloc))?
        .arg(path(alloc))?
        .arg(addresses(alloc))?;
    Ok(command)
}

/// Returns the option by which a file is explained.
fn elf<'a>(alloc: Global) -> Arg<'a> {
    Arg::new(alloc, "elf")
        .long("elf")
        .help(
            "Print what an ELF file or a PE file has to unwind by: all its functions, or the row and the rule of addresses",
        )
        .action(ArgAction::SetTrue)
}

/// Returns the argument that names the file.
fn path<'a>(alloc: Global) -> Arg<'a> {
    Arg::new(alloc, "file")
        .value_name("FILE")
        .help("Commands in JSON [default: standard input]; with --elf an ELF file or a PE file")
        .action(ArgAction::Set)
}

/// Returns the argument that names addresses.
fn addresses<'a>(alloc: Global) -> Arg<'a> {
    Arg::new(alloc, "address")
        .value_name("ADDRESS")
        .num_args(0..)
        .help("Addresses that the ELF file states, or RVAs of the PE file, in hexadecimal")
        .action(ArgAction::Append)
}

/// Explains what a command line names, and returns the status.
fn run_matches(rt: &HostRuntime, matches: &ArgMatches<'_>) -> Result<u8> {
    let (path, is_elf) = (matches.get_str("file"), matches.get_flag("elf"));
    let addresses = matches.get_strs("address").unwrap_or(&[]);
    match path {
        Some(path) if is_elf => print_file(rt, path, addresses),
        _ if is_elf || !addresses.is_empty() => {
            eprintln!(rt; "{PROGRAM}: addresses are asked of a FILE, with --elf")?;
            Ok(2)
        }
        _ => explain(rt, path),
    }
}

/// Prints what an ELF file or a PE file has to unwind by.
fn print_file(rt: &HostRuntime, path: &str, texts: &[&str]) -> Result<u8> {
    match parse_addresses(rt.alloc(), texts)? {
        Some(addresses) => print_addresses(rt, path, addresses.as_slice()),
        None => {
            eprintln!(rt; "{PROGRAM}: an address is no hexadecimal number of 64 bits")?;
            Ok(2)
        }
    }
}

/// Prints what a file has to unwind by at addresses, or for all its functions where there are none.
fn print_addresses(rt: &HostRuntime, path: &str, addresses: &[u64]) -> Result<u8> {
    match read_or_tell(rt, PROGRAM, path)? {
        Some(bytes) => {
            let explained = explain_file(rt.alloc(), bytes.as_slice(), addresses);
            print_explained(rt, path, explained)
        }
        None => Ok(1),
    }
}

/// Prints what a file has to unwind by, or why that can't be told.
fn print_explained(
    rt: &HostRuntime,
    path: &str,
    explained: Result<String, FileProblem>,
) -> Result<u8> {
    match explained {
        Ok(text) => {
            print_text(rt, text.as_str())?;
            Ok(0)
        }
        Err(FileProblem::OutOfMemory) => Err(Failure::OutOfMemory),
        Err(problem) => {
            tell(rt, PROGRAM, path, problem)?;
            Ok(1)
        }
    }
}

/// Returns the numbers of texts of hexadecimal digits, with or without 0x before them.
fn parse_addresses(alloc: Global, texts: &[&str]) -> Result<Option<Vec<u64>>> {
    let mut addresses = Vec::new(alloc);
    for text in texts {
        let digits = text.strip_prefix("0x").unwrap_or(*text);
        let Ok(address) = u64::from_str_radix(digits, 16) else {
            return Ok(None);
        };
        addresses.push(address)?;
    }
    Ok(Some(addresses))
}

/// Explains the commands of a file, or of standard input.
fn explain(rt: &HostRuntime, path: Option<&str>) -> Result<u8> {
    match open_input(rt, path) {
        Ok(reader) => {
            let mut input = Input::new(reader);
            let mut out = Output::new(io::writer(rt));
            let mut err = Output::new(rt.stderr());
            Ok(explain_program(rt.alloc(), &mut input, &mut out, &mut err))
        }
        Err(error) => {
            tell(rt, PROGRAM, path.unwrap_or("standard input"), error)?;
            Ok(1)
        }
    }
}

/// Opens the file at a path, or standard input for `None`.
fn open_input(rt: &HostRuntime, path: Option<&str>) -> io::Result<Either<File, Stdin>> {
    match path {
        Some(path) => Ok(Left(fs::open(rt, path)?)),
        None => Ok(Right(rt.stdin())),
    }
}
