//! The program `framehop-walk`: it reads a list of commands in JSON, from the file that its
//! argument names or from standard input, and prints the replies.
#![tactic(auto)]

use framehop_walk::{Output, Refusal, refuse, run};
use std::fs::File;
use std::io::{Read, Stderr, Stdin};
use std::process::ExitCode;
use std::{env, fs, io, mem};

/// What `--version` prints. The commit is written into the built program.
const VERSION: &str = "framehop-walk 0.16.0 (commit ............)";

fn main(rt: HostRuntime) -> ExitCode {
    let mut err = Output::new(rt.stderr());
    let ended = match is_version_asked(&rt) {
        Ok(true) => Ok(print_version(&rt)),
        Ok(false) => run_arguments(&rt, &mut err),
        Err(error) => Err(error),
    };
    ExitCode::from(match ended {
        Ok(status) => status,
        Err(error) => refuse(&mut err, Refusal::from(error)),
    })
}

/// Whether the argument after the program's name asks for the version.
fn is_version_asked(rt: &HostRuntime) -> io::Result<bool> {
    let mut arguments = env::args(rt)?;
    let _program = arguments.next();
    Ok(arguments.next().as_deref() == Some("--version"))
}

/// Prints the version, and returns the exit status.
fn print_version(rt: &HostRuntime) -> u8 {
    match println!(rt; "{VERSION}") {
        Ok(()) => 0,
        Err(_) => 1,
    }
}

/// Runs what the arguments ask for, and returns the exit status. What was read is left to the end of the process.
fn run_arguments(rt: &HostRuntime, err: &mut Output<Stderr>) -> io::Result<u8> {
    let mut out = Output::new(io::writer(rt));
    let arguments = env::args(rt)?;
    let opener = |path: Option<&str>| Source::open(rt, path);
    let (status, input) = run(rt.alloc(), arguments, opener, &mut out, err);
    mem::forget(input);
    Ok(status)
}

/// Where the commands are read from.
#[derive(Drop)]
enum Source {
    File(File),
    Stdin(Stdin),
}

impl Source {
    /// Opens the file at a path, or standard input for `None`.
    fn open(rt: &HostRuntime, path: Option<&str>) -> io::Result<Self> {
        match path {
            Some(path) => Ok(Source::File(fs::open(rt, path)?)),
            None => Ok(Source::Stdin(rt.stdin())),
        }
    }
}

impl Read for Source {
    fn read(&mut self, buf: &mut [u8]) -> io::Result<usize> {
        match self {
            Source::File(file) => file.read(buf),
            Source::Stdin(stdin) => stdin.read(buf),
        }
    }
}
