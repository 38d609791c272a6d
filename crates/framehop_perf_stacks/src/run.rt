//! The records of a recording one after another: its processes, and the stacks of its samples.
//!
//! The files that a recording maps are read before, so what makes modules stays as it is while processes change.
//! All processes share one cache, since generations tell their lists of modules apart.
ghost use Rattle.std.specs.Prelude.{ℕ, ◌≡◌, ◌++◌, true, ◌≢◌, ◌≤◌, ◌+◌, ◌-◌, ◌^◌, min, ◌&&◌, ◌||◌, [], Some, None, IfOk, IfErr, OnOk, OnErr, Ok, Err, IsSome, Bool, false, List, map, count_by};
ghost use Rattle.std.specs.Result.{result_err, result_unwrap_or};
ghost use Rattle.framehop.specs.Modules.{ModuleView};
ghost use Rattle.framehop_folded.specs.Folded.{entry_of};
ghost use Rattle.framehop_processes.specs.Mappings.{IsInOrder};
ghost use Rattle.framehop_processes.specs.declared.mapping.Mapping.{Mapping};
ghost use Rattle.framehop_recording.specs.Attributes.{attribute_view};
ghost use Rattle.framehop_recording.specs.Numbers.{PERF_RECORD_SAMPLE};
ghost use Rattle.framehop_recording.specs.Records.{record_view};
ghost use Rattle.framehop_recording.specs.Sample.{user_view, sample_view, read_chain_view};
ghost use Rattle.framehop_recording.specs.Tasks.{lost_at};
ghost use Rattle.framehop_recording.specs.declared.error.RecordingError.{RecordingError};
ghost use Rattle.framehop_perf_stacks.specs.Chain.{frames_of_chain};
ghost use Rattle.framehop_perf_stacks.specs.Changes.{change_in};
ghost use Rattle.framehop_perf_stacks.specs.Counts.{CountsOneMore, HasSameSamples};
ghost use Rattle.framehop_perf_stacks.specs.Ended.{refusal_in, first_refusal, before_refusal, drawn_in, is_unwritten, MayEnd};
ghost use Rattle.framehop_perf_stacks.specs.Names.{named_in};
ghost use Rattle.framehop_perf_stacks.specs.Processes.{mapped_in, ready_in, IsServed};
ghost use Rattle.framehop_perf_stacks.specs.Recording.{sample_in, records_in};
ghost use Rattle.framehop_perf_stacks.specs.Run.{AreCounted, CountsMore, is_sample, samples_in_kind, sample_refusal};
ghost use Rattle.framehop_perf_stacks.specs.Samples.{State, beginning, state_in, state_after, state_over, drawn_over, Agrees, samples_from, SampleStack, end_of, stack_of, unread_stack, name_of_end, told_by, told_of, base_of, copied_memory, NotedIf, IsUserStack, IsToldAt, IsToldWith, Told, lost_after, lost_over, Each, IsTaken, AreTaken};
ghost use Rattle.framehop_frames.specs.Notes.{option_noted, AreStackNotes};
ghost use Rattle.framehop_frames.specs.Stack.{shown_frame};
ghost use Rattle.framehop_perf_stacks.specs.declared.error.StacksError.TheVariants.{OutOfMemory, Recording as RecordingRefused};
ghost use Rattle.framehop_processes.specs.declared.files.Files.{Files};

use crate::chain::chain_frames;
use crate::changes::change_of;
use crate::counts::Counts;
use crate::error::StacksError;
use crate::explain::sample_notes;
use crate::kernel::KernelNames;
use crate::machine::Sampled;
use crate::names::Names;
use crate::processes::Processes;
use crate::recording::{Recording, sample_of};
use crate::sample_source::SampleSource;
use crate::sample_stack::{
    EndedStack, SampleAt, chain_stack, is_cut, name_of_end, no_stack, walked_stack,
};
use crate::sample_text::{counted_stack, shown_stack};
use crate::stack::walk_sample;
use crate::vdso::has_unread_vdso;
use framehop_backtrace::RowRoom;
use framehop_cfi::storage::StoreOnStack;
use framehop_explain::Note;
use framehop_frames::line::{has_guess, sure_part};
use framehop_frames::machine::Start;
use framehop_frames::stack::{Stack, StackFrame};
use framehop_output::Output;
use framehop_processes::files::Files;
use framehop_processes::{Mapping, ModuleMaker};
use framehop_recording::chain::user_part;
use framehop_recording::error::RecordingError;
use framehop_recording::kind::{LOST, SAMPLE};
use framehop_recording::records::Record;
use framehop_recording::sample::{CallChain, Sample, UserStack};
use framehop_recording::tasks::read_lost;
use std::alloc::{AllocError, Global};
use std::io::Write;

/// What is asked for.
#[derive(Clone, Copy, Drop)]
pub struct Options<'a> {
    /// A block for each sample, in the place of folded stacks.
    pub frames: bool,
    /// Notes under the lines of the blocks: where each frame's caller came from, and why walks ended.
    pub explain: bool,
    /// Of a folded stack only the frames before the first that no unwind data tells.
    pub sure: bool,
    /// The most frames of a stack.
    pub limit: u32,
    /// Folded stacks of each thread apart: the thread's name is followed by `-PID/TID`.
    pub by_thread: bool,
    /// The frames of the kernel, where nothing is explained, with these names of functions.
    pub kernel: Option<&'a KernelNames>,
    /// Stacks as JSON, in the place of lines and blocks.
    pub json: bool,
}

/// What a run takes in: records, and what is the same for each of them.
#[derive(Drop)]
pub(crate) struct Input<'r, 'd, 'm, M, B> {
    pub recording: &'r Recording<'d>,
    pub files: &'r Files<'m>,
    /// What makes modules of these.
    pub maker: &'r M,
    /// What gives the bodies of samples.
    pub samples: &'r B,
    pub options: Options<'r>,
}

/// The state of a run: what is known after the records so far.
#[derive(Drop)]
pub struct Run<U: Sampled>
where
    U::Cache: Drop,
{
    processes: Processes<U>,
    names: Names,
    room: RowRoom<StoreOnStack>,
    cache: U::Cache,
    /// What was counted of the samples so far.
    pub counts: Counts,
}

impl<U: Sampled> Run<U>
where
    U::Cache: Drop,
    U::Module: Drop,
{
    /// Returns the state before the first record.
    pub fn new(alloc: Global) -> Result<Self, StacksError>
        ensures served { IfOk result (λ run. (module_of : Mapping → ModuleView)
            → IsServed module_of (λ view. U.is_sound view run.cache) run.processes.ready run.processes.generations) }
        ensures none { IfOk result (λ run. (frames : Bool) → AreCounted frames 0 run.counts) }
        ensures begun { IfOk result (λ run. Agrees run.names run.processes.by_pid beginning) }
        ensures uncounted { IfOk result (λ run. (stack : List ℕ) → entry_of run.counts.stacks stack ≡ None) }
        ensures endless { IfOk result (λ run. (end : List ℕ) → entry_of run.counts.ends end ≡ None) }
        ensures unlost { IfOk result (λ run. run.counts.lost ≡ 0) }
        ensures undrawn { IfOk result (λ run. run.processes.generations ≡ 0) }
        ensures refused { IfErr result (λ error. error ≡ OutOfMemory) }
    {
        Ok(Run {
            processes: Processes::new(alloc),
            names: Names::new(alloc),
            room: RowRoom::new_in(alloc)?,
            cache: U::new_cache(alloc)?,
            counts: Counts::new(alloc),
        })
    }

    /// Counts or writes the stack of a sample, whose process is known.
    fn take_known<M, B, R: Copy, W: Write>(
        &mut self,
        alloc: Global,
        input: &Input<'_, '_, '_, M, B>,
        sample: Sample<'_>,
        stack: EndedStack<'_, R>,
        notes: &[Note],
        out: &mut Output<W>,
    ) -> Result<(), StacksError>
        requires { IsSome (ready_in self.old.processes.by_pid self.old.processes.ready sample.pid) }
        ensures counted { OnOk result (CountsMore input.now.options.frames 1 self.old.counts self.new.counts) }
        ensures processes { self.new.processes ≡ self.old.processes }
        ensures names { self.new.names ≡ self.old.names }
        ensures cache { self.new.cache ≡ self.old.cache }
        ensures taken { OnOk result (IsTaken input.now.options.frames
            (told_by input.now.options input.now.files.now (named_in self.old.names sample.entry.tid) (Some sample.entry) (mapped_in self.old.processes.by_pid sample.entry.pid) (stack_of stack.entry) notes.now)
            self.old.counts self.new.counts out.old.bytes out.new.bytes) }
        ensures refused { (samples : ℕ) → AreCounted input.now.options.frames samples self.old.counts
            → IfErr result (MayEnd (input.now.options.frames && out.new.has_failed) None 0 (samples + 1)) }
        ensures noted { out.new.has_failed ≡ (out.old.has_failed || is_unwritten result) }
    {
        let at = SampleAt {
            sample: Some(sample),
            name: self.names.get(sample.tid),
            mappings: self.processes.mappings(sample.pid),
            files: input.files,
            options: input.options,
        };
        take_stack(alloc, &mut self.counts, at, stack, notes, out)?;
        Ok(())
    }

    /// Unwinds the stack of a sample, whose process is known.
    fn take_user<M, B, W: Write>(
        &mut self,
        alloc: Global,
        input: &Input<'_, '_, '_, M, B>,
        sample: Sample<'_>,
        mask: u64,
        user: UserStack<'_>,
        out: &mut Output<W>,
    ) -> Result<(), StacksError>
        requires { IsSome (ready_in self.old.processes.by_pid self.old.processes.ready sample.pid) }
        ensures served { OnOk result ((module_of : Mapping → ModuleView)
            → IsServed module_of (λ view. U.is_sound view self.old.cache) self.old.processes.ready self.old.processes.generations
            → IsServed module_of (λ view. U.is_sound view self.new.cache) self.new.processes.ready self.new.processes.generations) }
        ensures counted { OnOk result (CountsMore input.now.options.frames 1 self.old.counts self.new.counts) }
        ensures processes { self.new.processes ≡ self.old.processes }
        ensures names { self.new.names ≡ self.old.names }
        ensures told { OnOk result ((module_of : Mapping → ModuleView)
            → IsServed module_of (λ view. U.is_sound view self.old.cache) self.old.processes.ready self.old.processes.generations
            → (stack : SampleStack) × ((notes : List (List ℕ)) × IsUserStack U.walker U.is_note U.starts (input.now.options.frames && input.now.options.explain) input.now.options.limit input.now.files.now (mapped_in self.old.processes.by_pid sample.entry.pid) (map module_of (mapped_in self.old.processes.by_pid sample.entry.pid)) mask (read_chain_view sample.entry.chain) (Ok (user_view user.entry)) stack notes
            × IsTaken input.now.options.frames (told_by input.now.options input.now.files.now (named_in self.old.names sample.entry.tid) (Some sample.entry) (mapped_in self.old.processes.by_pid sample.entry.pid) stack notes)
            self.old.counts self.new.counts out.old.bytes out.new.bytes)) }
        ensures refused { (samples : ℕ) → AreCounted input.now.options.frames samples self.old.counts
            → IfErr result (MayEnd (input.now.options.frames && out.new.has_failed) None 0 (samples + 1)) }
        ensures noted { out.new.has_failed ≡ (out.old.has_failed || is_unwritten result) }
    {
        let process = self.processes.known(sample.pid);
        let start = U::start(process.greatest_end(), mask, user.registers);
        let walked = walk_sample(
            alloc,
            input.files,
            process,
            &mut self.room,
            &mut self.cache,
            start,
            user.stack,
            input.options.limit,
        )?;
        let notes = notes_of(
            alloc,
            process.unwinder(),
            start,
            user.stack,
            &walked,
            input.options,
        )?;
        let stack = walked_stack(&walked, base_of(start));
        self.take_known(alloc, input, sample, stack, notes.as_slice(), out)?;
        Ok(())
    }

    /// Counts or writes the call chain of a sample whose stack can't be read, or why it can't be.
    fn take_unread<M, B, W: Write>(
        &mut self,
        alloc: Global,
        input: &Input<'_, '_, '_, M, B>,
        sample: Sample<'_>,
        refusal: RecordingError,
        out: &mut Output<W>,
    ) -> Result<(), StacksError>
        requires { IsSome (ready_in self.old.processes.by_pid self.old.processes.ready sample.pid) }
        ensures counted { OnOk result (CountsMore input.now.options.frames 1 self.old.counts self.new.counts) }
        ensures processes { self.new.processes ≡ self.old.processes }
        ensures names { self.new.names ≡ self.old.names }
        ensures cache { self.new.cache ≡ self.old.cache }
        ensures taken { OnOk result (IsTaken input.now.options.frames
            (told_by input.now.options input.now.files.now (named_in self.old.names sample.entry.tid) (Some sample.entry) (mapped_in self.old.processes.by_pid sample.entry.pid)
            (unread_stack (sample_refusal refusal) (frames_of_chain refusal (read_chain_view sample.entry.chain))) [])
            self.old.counts self.new.counts out.old.bytes out.new.bytes) }
        ensures refused { (samples : ℕ) → AreCounted input.now.options.frames samples self.old.counts
            → IfErr result (MayEnd (input.now.options.frames && out.new.has_failed) None 0 (samples + 1)) }
        ensures noted { out.new.has_failed ≡ (out.old.has_failed || is_unwritten result) }
    {
        let frames = frames_of_chain(alloc, refusal, sample.chain)?;
        let stack = chain_stack(frames.as_slice(), refusal_name(refusal));
        self.take_known(alloc, input, sample, stack, &[], out)?;
        Ok(())
    }

    /// Unwinds a sample, or counts why that can't be done.
    fn take_sample<M: ModuleMaker<U>, B, W: Write>(
        &mut self,
        alloc: Global,
        input: &Input<'_, '_, '_, M, B>,
        sample: Sample<'_>,
        mask: u64,
        out: &mut Output<W>,
    ) -> Result<(), StacksError>
        requires { IsServed (M.module_of input.now.maker.now) (λ view. U.is_sound view self.old.cache) self.old.processes.ready self.old.processes.generations }
        ensures served { OnOk result (IsServed (M.module_of input.now.maker.now) (λ view. U.is_sound view self.old.cache) self.old.processes.ready self.old.processes.generations
            → IsServed (M.module_of input.now.maker.now) (λ view. U.is_sound view self.new.cache) self.new.processes.ready self.new.processes.generations) }
        ensures counted { OnOk result (CountsMore input.now.options.frames 1 self.old.counts self.new.counts) }
        ensures names { self.new.names ≡ self.old.names }
        ensures mapped { OnOk result ((pid : ℕ) → mapped_in self.new.processes.by_pid pid ≡ mapped_in self.old.processes.by_pid pid) }
        ensures told { OnOk result (IsServed (M.module_of input.now.maker.now) (λ view. U.is_sound view self.old.cache) self.old.processes.ready self.old.processes.generations
            → (told : Told) × IsToldAt (M.module_of input.now.maker.now) U.walker U.is_note U.starts input.now.options input.now.files.now (state_in self.old.names self.old.processes.by_pid) (Ok (sample_view sample.entry, mask)) told
            × IsTaken input.now.options.frames told self.old.counts self.new.counts out.old.bytes out.new.bytes) }
        ensures drawn { self.new.processes.generations ≤ self.old.processes.generations + 2 }
        ensures refused { (samples : ℕ) → AreCounted input.now.options.frames samples self.old.counts
            → IfErr result (MayEnd (input.now.options.frames && out.new.has_failed) None (self.old.processes.generations + 2) (samples + 1)) }
        ensures noted { out.new.has_failed ≡ (out.old.has_failed || is_unwritten result) }
    {
        self.processes.make_ready(alloc, input.maker, sample.pid)?;
        match sample.user {
            Ok(user) => self.take_user(alloc, input, sample, mask, user, out)?,
            Err(error) => self.take_unread(alloc, input, sample, error, out)?,
        }
        Ok(())
    }

    /// Unwinds the sample of a record, or counts why that can't be done.
    fn take_sample_record<M: ModuleMaker<U>, B, W: Write>(
        &mut self,
        alloc: Global,
        input: &Input<'_, '_, '_, M, B>,
        record: Record<'_>,
        out: &mut Output<W>,
    ) -> Result<(), StacksError>
        requires { IsServed (M.module_of input.now.maker.now) (λ view. U.is_sound view self.old.cache) self.old.processes.ready self.old.processes.generations }
        ensures served { OnOk result (IsServed (M.module_of input.now.maker.now) (λ view. U.is_sound view self.old.cache) self.old.processes.ready self.old.processes.generations
            → IsServed (M.module_of input.now.maker.now) (λ view. U.is_sound view self.new.cache) self.new.processes.ready self.new.processes.generations) }
        ensures counted { OnOk result (CountsMore input.now.options.frames 1 self.old.counts self.new.counts) }
        ensures names { self.new.names ≡ self.old.names }
        ensures mapped { OnOk result ((pid : ℕ) → mapped_in self.new.processes.by_pid pid ≡ mapped_in self.old.processes.by_pid pid) }
        ensures told { OnOk result (IsServed (M.module_of input.now.maker.now) (λ view. U.is_sound view self.old.cache) self.old.processes.ready self.old.processes.generations
            → (told : Told) × IsToldAt (M.module_of input.now.maker.now) U.walker U.is_note U.starts input.now.options input.now.files.now (state_in self.old.names self.old.processes.by_pid) (sample_in (map attribute_view input.now.recording.now.events.attributes.items) (record_view «record».entry)) told
            × IsTaken input.now.options.frames told self.old.counts self.new.counts out.old.bytes out.new.bytes) }
        ensures drawn { self.new.processes.generations ≤ self.old.processes.generations + 2 }
        ensures refused { (samples : ℕ) → AreCounted input.now.options.frames samples self.old.counts
            → IfErr result (MayEnd (input.now.options.frames && out.new.has_failed) None (self.old.processes.generations + 2) (samples + 1)) }
        ensures noted { out.new.has_failed ≡ (out.old.has_failed || is_unwritten result) }
    {
        match sample_of(&input.recording.events, record) {
            Ok((sample, mask)) => self.take_sample(alloc, input, sample, mask, out)?,
            Err(error) => {
                let at = SampleAt {
                    sample: None,
                    name: b"[unknown]",
                    mappings: &[],
                    files: input.files,
                    options: input.options,
                };
                let stack: EndedStack<'_, ()> = no_stack(refusal_name(error));
                take_stack(alloc, &mut self.counts, at, stack, &[], out)?;
            }
        }
        Ok(())
    }

    /// Counts what a record says that the kernel lost.
    fn lose(&mut self, record: Record<'_>) -> Result<(), StacksError>
        ensures processes { self.new.processes ≡ self.old.processes }
        ensures names { self.new.names ≡ self.old.names }
        ensures cache { self.new.cache ≡ self.old.cache }
        ensures samples { HasSameSamples self.old.counts self.new.counts }
        ensures kept { OnErr result (self.new.counts ≡ self.old.counts) }
        ensures counted { OnOk result ((frames : Bool) → CountsMore frames 0 self.old.counts self.new.counts) }
        ensures lost { OnOk result (self.new.counts.lost
            ≡ min (self.old.counts.lost + result_unwrap_or (lost_at (record_view «record».entry)) 0) (2 ^ 64 - 1)) }
        ensures read { OnOk result (result_err (lost_at (record_view «record».entry)) ≡ None) }
        ensures refused { IfErr result (MayEnd false (result_err (lost_at (record_view «record».entry))) 0 0) }
    {
        let lost = read_lost(record)?;
        self.counts.lost = self.counts.lost.saturating_add(lost);
        Ok(())
    }

    /// Takes a record in.
    ///
    /// # Errors
    ///
    /// - `Recording` where the record is no sample and is too short for its kind;
    /// - `OutOfMemory`, `GenerationsExhausted`, `TooManySamples` and `CannotWrite`.
    fn take_record<M: ModuleMaker<U>, B: SampleSource, W: Write>(
        &mut self,
        alloc: Global,
        input: &Input<'_, '_, '_, M, B>,
        record: Record<'_>,
        buffer: &mut Vec<u8>,
        out: &mut Output<W>,
    ) -> Result<(), StacksError>
        requires served { IsServed (M.module_of input.now.maker.now) (λ view. U.is_sound view self.old.cache) self.old.processes.ready self.old.processes.generations }
        ensures served { OnOk result (IsServed (M.module_of input.now.maker.now) (λ view. U.is_sound view self.new.cache) self.new.processes.ready self.new.processes.generations) }
        ensures counted { OnOk result (CountsMore input.now.options.frames (samples_in_kind «record».entry.kind) self.old.counts self.new.counts) }
        ensures state { OnOk result (Agrees self.new.names self.new.processes.by_pid
            (state_after input.now.files.now (record_view «record».entry) (state_in self.old.names self.old.processes.by_pid))) }
        ensures sample { «record».entry.kind ≡ PERF_RECORD_SAMPLE → OnOk result ((told : Told)
            × IsToldWith (M.module_of input.now.maker.now) U.walker U.is_note U.starts input.now.options input.now.files.now (B.gives input.now.samples.now) (map attribute_view input.now.recording.now.events.attributes.items)
            (record_view «record».entry, state_in self.old.names self.old.processes.by_pid) told
            × IsTaken input.now.options.frames told self.old.counts self.new.counts out.old.bytes out.new.bytes) }
        ensures other { «record».entry.kind ≢ PERF_RECORD_SAMPLE → HasSameSamples self.old.counts self.new.counts × (out.new ≡ out.old) }
        ensures lost { OnOk result (self.new.counts.lost ≡ lost_after (record_view «record».entry) self.old.counts.lost) }
        ensures lost_before { (refusal : RecordingError) → refusal_in (record_view «record».entry) ≡ Some refusal → self.new.counts.lost ≡ self.old.counts.lost }
        ensures drawn { OnOk result (self.new.processes.generations ≤ self.old.processes.generations
            + drawn_in (change_in input.now.files.now (record_view «record».entry)) (mapped_in self.old.processes.by_pid)) }
        ensures read { OnOk result (refusal_in (record_view «record».entry) ≡ None) }
        ensures refused { (samples : ℕ) → AreCounted input.now.options.frames samples self.old.counts
            → IfErr result (MayEnd (input.now.options.frames && out.new.has_failed) (refusal_in (record_view «record».entry))
            (self.old.processes.generations + drawn_in (change_in input.now.files.now (record_view «record».entry)) (mapped_in self.old.processes.by_pid))
            (samples + samples_in_kind «record».entry.kind)) }
        ensures noted { out.new.has_failed ≡ (out.old.has_failed || is_unwritten result) }
    {
        if record.kind == SAMPLE {
            let body = input.samples.body(record, buffer)?;
            let record = Record { body, ..record };
            self.take_sample_record(alloc, input, record, out)?;
            return Ok(());
        }
        if record.kind == LOST {
            self.lose(record)?;
            return Ok(());
        }
        self.names.note(alloc, record)?;
        if let Some(change) = change_of(input.files, record)? {
            self.processes.apply(alloc, input.maker, change)?;
        }
        Ok(())
    }

    /// Takes the records of a recording in, in order, with the bodies that a source gives for its samples.
    pub(crate) fn take_records<M: ModuleMaker<U>, B: SampleSource, W: Write>(
        &mut self,
        alloc: Global,
        input: &Input<'_, '_, '_, M, B>,
        out: &mut Output<W>,
    ) -> Result<(), StacksError>
        requires served { IsServed (M.module_of input.now.maker.now) (λ view. U.is_sound view self.old.cache) self.old.processes.ready self.old.processes.generations }
        requires none { AreCounted input.now.options.frames 0 self.old.counts }
        ensures served { OnOk result (IsServed (M.module_of input.now.maker.now) (λ view. U.is_sound view self.new.cache) self.new.processes.ready self.new.processes.generations) }
        ensures counted { OnOk result (AreCounted input.now.options.frames (count_by is_sample input.now.recording.now.records.items) self.new.counts) }
        ensures state { (state : State) → Agrees self.old.names self.old.processes.by_pid state → OnOk result
            (Agrees self.new.names self.new.processes.by_pid (state_over input.now.files.now (records_in input.now.recording.now.records.items) state)) }
        ensures told { (state : State) → Agrees self.old.names self.old.processes.by_pid state → OnOk result ((told : List Told)
            × Each (IsToldWith (M.module_of input.now.maker.now) U.walker U.is_note U.starts input.now.options input.now.files.now (B.gives input.now.samples.now) (map attribute_view input.now.recording.now.events.attributes.items))
            (samples_from input.now.files.now state (records_in input.now.recording.now.records.items)) told
            × AreTaken input.now.options.frames told self.old.counts self.new.counts out.old.bytes out.new.bytes) }
        ensures read { OnOk result (first_refusal (records_in input.now.recording.now.records.items) ≡ None) }
        ensures refused { (state : State) → Agrees self.old.names self.old.processes.by_pid state → IfErr result (MayEnd (input.now.options.frames && out.new.has_failed)
            (first_refusal (records_in input.now.recording.now.records.items))
            (self.old.processes.generations + drawn_over input.now.files.now (records_in input.now.recording.now.records.items) state)
            (count_by is_sample input.now.recording.now.records.items)) }
        ensures lost { OnOk result (self.new.counts.lost ≡ lost_over (records_in input.now.recording.now.records.items) self.old.counts.lost) }
        ensures lost_before { (refusal : RecordingError) → result ≡ Err (RecordingRefused refusal)
            → self.new.counts.lost ≡ lost_over (before_refusal (records_in input.now.recording.now.records.items)) self.old.counts.lost }
        ensures before { (state : State) → Agrees self.old.names self.old.processes.by_pid state
            → (refusal : RecordingError) → result ≡ Err (RecordingRefused refusal) → (told : List Told)
            × Each (IsToldWith (M.module_of input.now.maker.now) U.walker U.is_note U.starts input.now.options input.now.files.now (B.gives input.now.samples.now) (map attribute_view input.now.recording.now.events.attributes.items))
            (samples_from input.now.files.now state (before_refusal (records_in input.now.recording.now.records.items))) told
            × AreTaken input.now.options.frames told self.old.counts self.new.counts out.old.bytes out.new.bytes }
        ensures noted { out.new.has_failed ≡ (out.old.has_failed || is_unwritten result) }
    {
        let mut buffer = Vec::new(alloc);
        for timed in &input.recording.records {
            self.take_record(alloc, input, timed.record, &mut buffer, out)?;
        }
        Ok(())
    }
}

/// Counts or writes the stack of a sample, or that it has none.
fn take_stack<R: Copy, W: Write>(
    alloc: Global,
    counts: &mut Counts,
    at: SampleAt<'_, '_>,
    stack: EndedStack<'_, R>,
    notes: &[Note],
    out: &mut Output<W>,
) -> Result<(), StacksError>
    requires { IsInOrder 0 at.mappings.now }
    ensures counted { OnOk result (CountsMore at.entry.options.frames 1 counts.old counts.new) }
    ensures taken { OnOk result (IsTaken at.entry.options.frames (told_of at.entry (stack_of stack.entry) notes.now)
        counts.old counts.new out.old.bytes out.new.bytes) }
    ensures refused { (samples : ℕ) → AreCounted at.entry.options.frames samples counts.old
        → IfErr result (MayEnd (at.entry.options.frames && out.new.has_failed) None 0 (samples + 1)) }
    ensures ends { OnOk result (CountsOneMore counts.old.ends counts.new.ends (name_of_end (end_of stack.entry.end))) }
    ensures noted { out.new.has_failed ≡ (out.old.has_failed || is_unwritten result) }
{
    let frames = stack.frames;
    let is_sure = sure_part(frames).len() == frames.len();
    let has_guess = has_guess(frames);
    let is_cut = is_cut(at.sample, stack.end);
    let in_vdso = has_unread_vdso(at.files, at.mappings, frames);
    let end = name_of_end(stack.end).as_bytes();
    counts.add_sample(alloc, end, is_sure, has_guess, is_cut, in_vdso)?;
    if at.options.frames {
        let shown = shown_stack(alloc, at, stack, notes)?;
        out.write_all(shown.as_slice())?;
    } else {
        let line = counted_stack(alloc, at, stack)?;
        counts.add_stack(line)?;
    }
    Ok(())
}

/// Returns the frames of the call chain of a sample whose event has no copies of stacks, or none.
fn frames_of_chain(
    alloc: Global,
    refusal: RecordingError,
    chain: Result<CallChain<'_>, RecordingError>,
) -> Result<Vec<StackFrame<()>>, AllocError>
    ensures { IfOk result (λ frames. map shown_frame frames.items ≡ frames_of_chain refusal (read_chain_view chain.entry)) }
{
    match (refusal, chain) {
        (RecordingError::NoUserStack { .. }, Ok(chain)) => {
            let part = user_part(alloc, chain)?;
            chain_frames(alloc, part.as_slice())
        }
        _ => Ok(Vec::new(alloc)),
    }
}

/// Returns where the copy of a stack begins (AVMA), by the registers with which a walk begins.
fn base_of<R: Copy>(start: Option<Start<R>>) -> u64
    ensures { result ≡ base_of start }
{
    match start {
        Some(start) => start.sp,
        None => 0,
    }
}

/// Returns a note for each line of the block of a sample, where it is to be explained, and else none.
fn notes_of<U: Sampled>(
    alloc: Global,
    unwinder: &U,
    start: Option<Start<U::UnwindRegs>>,
    copied: &[u8],
    walked: &Option<Stack<U::UnwindRegs>>,
    options: Options<'_>,
) -> Result<Vec<Note>, AllocError>
    ensures { IfOk result (λ notes. NotedIf (options.entry.frames && options.entry.explain)
        (AreStackNotes (U.is_note (U.unwinder_view unwinder.now).modules (copied_memory copied.now start)) (option_noted walked.now)) notes.items) }
{
    if options.frames && options.explain {
        return sample_notes(alloc, unwinder, start, copied, walked);
    }
    Ok(Vec::new(alloc))
}

/// Returns what is said of a sample that can't be unwound.
fn refusal_name(error: RecordingError) -> &'static str
    ensures { result.now ≡ sample_refusal error }
{
    match error {
        RecordingError::NoThread { .. } => "no-thread",
        RecordingError::NoUserStack { .. } => "no-user-stack",
        RecordingError::NoUserRegisters { .. } => "no-user-registers",
        RecordingError::Process32Bit { .. } => "32-bit-process",
        RecordingError::UnknownAbi { .. } => "unknown-abi",
        RecordingError::UnsupportedField { .. } => "unsupported-field",
        RecordingError::ShortRecord { .. } => "short-record",
        _ => "unreadable",
    }
}
