//! Where the bodies of samples come from: they are most of a recording, and need not be in memory all at once.
ghost use Rattle.std.specs.Prelude.{◌≡◌, ℕ, List, IfOk};
ghost use Rattle.framehop_recording.specs.Records.{RecordView, record_view};

use framehop_recording::records::Record;
use std::alloc::AllocError;

/// What gives the bodies of samples, as a recording in memory does, or its file.
pub trait SampleSource {
    // the bodies that it can give for a record
    ghost gives: { Self → RecordView → List ℕ → Type 0 };

    /// Returns the body of a sample, what is after its header of eight bytes, by the sample's place. The body may be in the
    /// buffer, whatever was in that before.
    ///
    /// # Errors
    ///
    /// An allocation failed.
    fn body<'a>(&self, sample: Record<'a>, buffer: &'a mut Vec<u8>) -> Result<&'a [u8], AllocError>
        ensures { IfOk result (λ body. gives self.now (record_view «sample».entry) body.now) };
}

/// The records themselves, where a recording is in memory whole.
#[derive(Clone, Copy, Drop)]
pub struct InMemory;

impl SampleSource for InMemory {
    ghost use Rattle.framehop_perf_stacks.specs.Bodies.{own_body};

    ghost gives = { λ source r body. own_body r body };

    fn body<'a>(
        &self,
        sample: Record<'a>,
        _buffer: &'a mut Vec<u8>,
    ) -> Result<&'a [u8], AllocError> {
        Ok(sample.body)
    }
}
