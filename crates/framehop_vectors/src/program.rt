//! The program over readers and writers that fail.
use framehop_walk::{Input, Output, Refusal, refuse, section_bytes, walk_program};
use hex::FromHexError;
use std::alloc::Global;
use std::io;
use std::io::{Read, Write};

/// An input of two commands.
const MODULE: &str = r#"{"arch":"aarch64","policy":"must","caches":0,"commands":[{"do":"new"},
{"do":"add","unwinder":0,"name":"a","start":"1000","end":"2000","base":"1000","base_svma":"0","sections":[],"segments":[]}]}"#;

/// What a run of the program answers and writes.
#[derive(Drop)]
struct Finished {
    status: u8,
    out: Vec<u8>,
    err: Vec<u8>,
}

/// A reader that gives seven bytes a read, and fails after so many reads.
#[derive(Drop)]
struct FailingReader<'i> {
    rest: &'i [u8],
    reads_left: usize,
}

impl Read for FailingReader<'_> {
    fn read(&mut self, buf: &mut [u8]) -> io::Result<usize> {
        if self.reads_left == 0 {
            return Err(io::Error::from(io::ErrorKind::Other));
        }
        self.reads_left -= 1;
        let end = buf.len().min(7);
        self.rest.read(&mut buf[..end])
    }
}

/// An input without commands.
const NOTHING: &str = r#"{"arch":"aarch64","policy":"may","caches":0,"commands":[]}"#;

/// Runs the program over `NOTHING` and a reader that fails after so many reads, and says whether a read has failed.
fn run_after(alloc: Global, reads_left: usize) -> (bool, Finished) {
    let mut reader = Input::new(FailingReader {
        rest: NOTHING.as_bytes(),
        reads_left,
    });
    let mut out = Output::new(Vec::new(alloc));
    let mut err = Output::new(Vec::new(alloc));
    let status = walk_program(alloc, &mut reader, &mut out, &mut err);
    let finished = Finished {
        status,
        out: out.into_inner(),
        err: err.into_inner(),
    };
    (reader.has_failed(), finished)
}

/// Whether a run has this status, and has written these texts.
fn is_finished(run: &Finished, status: u8, out: &str, err: &str) -> bool {
    run.status == status
        && run.out.as_slice() == out.as_bytes()
        && run.err.as_slice() == err.as_bytes()
}

/// Whether a run is refused where it has fewer reads than the input takes, and goes well with as many.
fn is_stopped(alloc: Global, reads_left: usize, reads: usize) -> bool {
    let (has_failed, run) = run_after(alloc, reads_left);
    let (status, err) = if reads_left < reads {
        (1, "framehop-walk: cannot read input\n")
    } else {
        (0, "")
    };
    has_failed == (reads_left < reads) && is_finished(&run, status, "", err)
}

#[test]
fn stops_at_a_failed_read(rt: HostRuntime) {
    let reads = NOTHING.len().div_ceil(7) + 1;
    for reads_left in 0..reads + 1 {
        assert!(rt; is_stopped(rt.alloc(), reads_left, reads), "{reads_left}");
    }
}

/// A writer that takes at most seven bytes a write, and fails after so many writes, and at a flush
/// where it is told to.
#[derive(Drop)]
struct FailingWriter {
    written: Vec<u8>,
    writes_left: usize,
    flushes: bool,
}

impl Write for FailingWriter {
    fn write(&mut self, buf: &[u8]) -> io::Result<usize> {
        if self.writes_left == 0 {
            return Err(io::Error::from(io::ErrorKind::Other));
        }
        self.writes_left -= 1;
        let end = buf.len().min(7);
        match self.written.extend_from_slice(&buf[..end]) {
            Ok(()) => Ok(end),
            Err(_) => Err(io::Error::from(io::ErrorKind::OutOfMemory)),
        }
    }

    fn flush(&mut self) -> io::Result<()> {
        if self.flushes {
            Ok(())
        } else {
            Err(io::Error::from(io::ErrorKind::Other))
        }
    }
}

/// Runs the program over `MODULE`, and a writer that fails after so many writes, or at its flush.
fn run_over(alloc: Global, writes_left: usize, flushes: bool) -> Finished {
    let mut reader = Input::new(MODULE.as_bytes());
    let mut out = Output::new(FailingWriter {
        written: Vec::new(alloc),
        writes_left,
        flushes,
    });
    let mut err = Output::new(Vec::new(alloc));
    let status = walk_program(alloc, &mut reader, &mut out, &mut err);
    Finished {
        status,
        out: out.into_inner().written,
        err: err.into_inner(),
    }
}

/// The lines `new 0` and `add` are written by two writes and a flush.
#[test]
fn stops_at_a_failed_write(rt: HostRuntime) {
    let line = "framehop-walk: cannot write output\n";
    for (writes_left, flushes, status, out, err) in [
        (0, true, 1, "", line),
        (1, true, 1, "new 0\na", line),
        (2, false, 1, "new 0\nadd\n", line),
        (2, true, 0, "new 0\nadd\n", ""),
    ] {
        let run = run_over(rt.alloc(), writes_left, flushes);
        assert!(rt; is_finished(&run, status, out, err));
    }
}

/// Where the line of a refusal can't be written, the status tells it all the same.
#[test]
fn refuses_without_a_line(rt: HostRuntime) {
    let mut err = Output::new(FailingWriter {
        written: Vec::new(rt.alloc()),
        writes_left: 0,
        flushes: true,
    });
    let status = refuse(&mut err, Refusal::NotJson);
    assert!(rt; status == 1 && err.has_failed());
}

/// Whether a refusal has this status and this line.
fn is_printed(alloc: Global, refusal: Refusal, status: u8, line: &str) -> bool {
    let mut err = Output::new(Vec::new(alloc));
    refuse(&mut err, refusal) == status && err.into_inner().as_slice() == line.as_bytes()
}

#[test]
fn prints_refusals(rt: HostRuntime) {
    for (refusal, status, line) in [
        (
            Refusal::Usage,
            1,
            "framehop-walk: usage: framehop-walk [FILE]\n",
        ),
        (
            Refusal::CannotWriteOutput,
            1,
            "framehop-walk: cannot write output\n",
        ),
        (Refusal::OutOfMemory, 2, "framehop-walk: out of memory\n"),
        (
            Refusal::GenerationsExhausted,
            2,
            "framehop-walk: generations exhausted\n",
        ),
    ] {
        assert!(rt;
            is_printed(rt.alloc(), refusal, status, line),
            "{status} {line}"
        );
    }
}

/// Digits, and their bytes, or why they are refused.
const DIGITS: [(&str, Result<&[u8], FromHexError>); 4] = [
    ("00fFa5", Ok(&[0, 255, 0xa5])),
    ("", Ok(&[])),
    ("123", Err(FromHexError::OddLength)),
    (
        "0g",
        Err(FromHexError::InvalidHexCharacter { c: 'g', index: 1 }),
    ),
];

/// Whether digits are decoded so.
fn is_decoded(alloc: Global, digits: &str, wanted: Result<&[u8], FromHexError>) -> bool {
    match (section_bytes(alloc, digits), wanted) {
        (Ok(bytes), Ok(wanted)) => bytes.as_slice() == wanted,
        (Err(error), Err(wanted)) => error == wanted,
        _ => false,
    }
}

#[test]
fn decodes_section_bytes(rt: HostRuntime) {
    for (digits, wanted) in DIGITS {
        assert!(rt; is_decoded(rt.alloc(), digits, wanted), "{digits}");
    }
}
