//! Recordings that are read in parts: first all but the bodies of samples, and each of these when its sample is unwound.
ghost use Rattle.std.specs.Prelude.{◌≡◌, ◌++◌, length, map, IfOk, OnOk};
ghost use Rattle.framehop_recording.specs.Attributes.{attribute_view};
ghost use Rattle.framehop_recording.specs.Records.{record_view, run_of};
ghost use Rattle.framehop_disk.specs.RecordingFrame.{whole_records};
ghost use Rattle.framehop_stacks_cli.specs.RecordingParts.{kept_from, whole};

use framehop_disk::recording_frame::{
    RECORD_HEADER_SIZE, after_records, body_size, frame_of, is_read_in_parts, left_after, piece_of,
    size_of_whole_records,
};
use framehop_perf_stacks::kept::KeptRecords;
use framehop_perf_stacks::sample_source::SampleSource;
use framehop_recording::events::Events;
use framehop_recording::header::{Header, Section, read_header};
use framehop_recording::records::{Record, read_records};
use std::alloc::{AllocError, Global};
use std::cell::Cell;
use std::fs::File;
use std::io::ErrorKind;
use std::os::unix::fs::FileExt;
use std::{fs, io};

/// The size of a recording's header, in bytes.
const HEADER_SIZE: u64 = 104;

/// A recording of which all is read but its records.
#[derive(Drop)]
pub struct RecordingParts {
    file: File,
    /// Its size, in bytes.
    size: u64,
    /// Where its records are.
    records: Section,
    /// What is before and after the records, as a recording of its own that has none.
    frame: Vec<u8>,
    /// The header of that.
    header: Header,
}

impl RecordingParts {
    /// Opens a recording, and reads what is before and after its records. `None` of what is no regular file or no recording,
    /// of a small one, and of one that is not as `perf record` writes it: such a file is read whole.
    pub fn open(rt: &HostRuntime, path: &str) -> io::Result<Option<RecordingParts>> {
        let metadata = fs::metadata(rt, path)?;
        if !is_read_in_parts(metadata.is_file(), metadata.len()) {
            return Ok(None);
        }
        let file = File::open(rt, path)?;
        RecordingParts::read(rt.alloc(), file, metadata.len())
    }

    /// Reads what is before and after the records of a recording of a size.
    fn read(alloc: Global, file: File, size: u64) -> io::Result<Option<RecordingParts>> {
        let Some(header) = read_header_of(alloc, &file)? else {
            return Ok(None);
        };
        let records = header.records;
        match read_frame(alloc, &file, size, &header)? {
            Some(frame) => Ok(Some(RecordingParts {
                file,
                size,
                records,
                frame,
                header: Header {
                    records: Section { size: 0, ..records },
                    ..header
                },
            })),
            None => Ok(None),
        }
    }

    /// Returns its size, in bytes.
    pub fn size(&self) -> u64 {
        self.size
    }

    /// Returns what is before and after its records, as a recording that has none.
    pub fn frame(&self) -> (&[u8], &Header) {
        (self.frame.as_slice(), &self.header)
    }

    /// Returns the bodies of its samples.
    pub fn bodies(&self) -> SampleBodies<'_> {
        SampleBodies {
            file: &self.file,
            failure: Cell::new(None),
        }
    }

    /// Reads its records, one piece after another, and returns what is kept of them; `None` where a record is refused.
    pub fn read_records(
        &self,
        alloc: Global,
        events: &Events<'_>,
    ) -> io::Result<Option<KeptRecords>> {
        let mut kept = KeptRecords::new(alloc);
        let mut piece = Vec::new(alloc);
        let mut left = self.records;
        for _piece in 0..self.records.size {
            let Section { offset, size } = piece_of(left);
            self.fill(&mut piece, offset, size)?;
            let is_last = size == left.size;
            let taken = keep_records(alloc, events, piece.as_slice(), offset, is_last, &mut kept)?;
            let Some(taken) = taken else {
                return Ok(None);
            };
            left = left_after(left, taken);
            if left.size == 0 {
                break;
            }
        }
        Ok(Some(kept))
    }

    /// Reads so many bytes from an offset on, in the place of what is in a piece.
    fn fill(&self, piece: &mut Vec<u8>, at: u64, size: u64) -> io::Result<()> {
        piece.resize(size as usize, 0u8)?;
        self.file.read_exact_at(piece.as_mut_slice(), at)
    }
}

/// Keeps the whole records of a piece, which is at an offset. Returns how many bytes they take, or `None` where one is refused.
fn keep_records(
    alloc: Global,
    events: &Events<'_>,
    piece: &[u8],
    at: u64,
    is_last: bool,
    kept: &mut KeptRecords,
) -> io::Result<Option<u64>>
    ensures kept { OnOk result (kept.new
        ≡ kept.old ++ kept_from (map attribute_view events.now.attributes.items) at (run_of piece.now (whole piece.now)).records) }
    ensures taken { IfOk result (λ taken. taken ≡ whole_records (length piece.now) is_last (run_of piece.now (whole piece.now)).refusal) }
{
    let size = piece.len() as u64;
    let Ok(read) = read_records(alloc, piece, Section { offset: 0, size }) else {
        return Err(ErrorKind::OutOfMemory.into());
    };
    keep_each(alloc, events, read.records.as_slice(), at, kept)?;
    Ok(size_of_whole_records(size, is_last, read.refusal))
}

/// Keeps records of a piece, which is at an offset.
fn keep_each(
    alloc: Global,
    events: &Events<'_>,
    records: &[Record<'_>],
    at: u64,
    kept: &mut KeptRecords,
) -> Result<(), AllocError>
    ensures { OnOk result (kept.new ≡ kept.old ++ kept_from (map attribute_view events.now.attributes.items) at (map record_view records.now)) }
{
    for record in records {
        let offset = at.saturating_add(record.offset);
        kept.push(alloc, events, Record { offset, ..*record })?;
    }
    Ok(())
}

/// The bodies of a recording's samples in its file.
#[derive(Drop)]
pub struct SampleBodies<'a> {
    file: &'a File,
    /// Why one could not be read.
    failure: Cell<Option<io::Error>>,
}

impl SampleSource for SampleBodies<'_> {
    // what a file gives is not known
    ghost gives = { λ bodies r body. Unit {0} };

    fn body<'a>(
        &self,
        sample: Record<'a>,
        buffer: &'a mut Vec<u8>,
    ) -> Result<&'a [u8], AllocError> {
        if let Err(error) = self.read(sample.offset, buffer) {
            if error.kind() == ErrorKind::OutOfMemory {
                return Err(AllocError);
            }
            self.failure.set(Some(error));
            buffer.clear();
        }
        Ok(buffer.as_slice())
    }
}

impl SampleBodies<'_> {
    /// Returns why a body could not be read, if so. It was taken for one without bytes.
    pub fn failure(&self) -> Option<io::Error> {
        self.failure.take()
    }

    /// Reads the body of the record at an offset of the file. The record's header has its size.
    fn read(&self, offset: u64, body: &mut Vec<u8>) -> io::Result<()> {
        let mut header = [0; RECORD_HEADER_SIZE];
        self.file.read_exact_at(&mut header, offset)?;
        body.resize(body_size(&header), 0u8)?;
        let start = offset.saturating_add(RECORD_HEADER_SIZE as u64);
        self.file.read_exact_at(body.as_mut_slice(), start)
    }
}

/// Reads the header of a recording.
fn read_header_of(alloc: Global, file: &File) -> io::Result<Option<Header>> {
    let start = read_at(alloc, file, 0, HEADER_SIZE)?;
    Ok(read_header(start.as_slice()).ok())
}

/// Reads what is before and after the records of a recording of a size, as a recording that has none. `None` of one that is not
/// as `perf record` writes it.
fn read_frame(
    alloc: Global,
    file: &File,
    size: u64,
    header: &Header,
) -> io::Result<Option<Vec<u8>>> {
    let Some(rest) = after_records(header.records, size) else {
        return Ok(None);
    };
    let before = read_at(alloc, file, 0, header.records.offset)?;
    let after = read_at(alloc, file, rest.offset, rest.size)?;
    Ok(frame_of(header, before, after.as_slice())?)
}

/// Reads so many bytes of a file from an offset on.
fn read_at(alloc: Global, file: &File, offset: u64, size: u64) -> io::Result<Vec<u8>> {
    let mut bytes = Vec::from_elem(alloc, 0u8, size as usize)?;
    file.read_exact_at(bytes.as_mut_slice(), offset)?;
    Ok(bytes)
}
