//! From a recording of perf to stacks: reads the records of a `perf.data`, unwinds each sample by the
//! unwinder of its process, and folds the stacks.
//!
//! # Decisions
//!
//! - Three passes: the first, from the last record on, tells which mappings are there at samples, the
//!   second reads their files, and the third makes the changes and walks, so that what makes modules
//!   stays as it is while processes change.
//! - Of a recording in a file all records are kept but the bodies of samples, of which the front
//!   is, with event, time and thread; each body is read when its sample is unwound, from a source
//!   that may give anything (`SampleSource`). What is before and after the records is read as a
//!   recording without records. It is read whole where it is small, a pipe, or not as `perf record`
//!   writes it, so that each refusal is that of the whole file.
//! - Every sample has a line: one that can't be walked has a mark that says why, so that the counts
//!   sum to the samples. A recording without copies of stacks has its call chains, with the mark
//!   `[callchain]`.
//! - Samples are chosen before anything is walked (`choose`), by the names of threads at the time.
//!   A stack is told to be cut where the kernel's copy is full and a word beyond it was needed.
//! - The architecture is told by the program counter's bit among the recorded registers. A fork
//!   that perf made up begins a process without mappings.
//! - How a recording ended is returned beside its stacks (`Unwound`): the samples before a refusal
//!   have theirs. A count of 2^64 is a refusal (`TooManySamples`), so no call has a premise on what
//!   was counted.
//! - Forks share their mappings as a tree until one of them maps something. A process that maps a
//!   file keeps its unwinder, if no fork shares it; unwinders are let go, all at once, when their
//!   mappings together pass `MOST_READY`, or the last one exchanges its modules for those of a
//!   process of about as many mappings. No clause states which.
//! - The mask of aarch64's pointers is by the end of the last mapping.
#![tactic(auto)]

pub mod chain;
pub mod changes;
pub mod choice;
pub mod counts;
pub mod error;
pub mod event_choice;
pub mod explain;
pub mod json_report;
pub mod kallsyms;
pub mod kept;
pub mod kernel;
pub mod machine;
pub mod names;
pub mod perf_map;
pub mod problems;
pub mod processes;
pub mod program;
pub mod recording;
pub mod run;
pub mod sample_json;
pub mod sample_source;
pub mod sample_stack;
pub mod sample_text;
mod sampled;
pub mod stack;
mod vdso;
pub mod window;
