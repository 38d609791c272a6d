//! Processes, of a recording or a dump: which files are mapped in each, what a mapped file gives (its segments with their
//! code, its unwind data, its functions), where an address is in it, and an unwinder with the modules of all mappings.
//!
//! # Decisions
//!
//! - What lies outside of a new mapping stays, as the kernel has it: where a program makes a page
//!   of its code writable and back, the rest of the code keeps its module. A mapping has the base
//!   of its module, and not its offset in the file.
//! - A change is made to a copy of the unwinder, so a refusal leaves the process as it was;
//!   `Process::mapped` takes the process and copies none.
//! - `Process::exchanged` goes through both lists of mappings, and makes the modules of those that
//!   one has and the other has not. To skip what trees of mappings share, a proof would have to
//!   know that two pointers to one place have one value, which no clause of `Rc` says.
//! - Modules are made by a trait (`ModuleMaker`), so that what processes map knows no file format.
//!   Mappings that can't be executed are not to be given.
//! - One maker of modules serves all unwinders over the bytes of mapped files (`FileUnwinder`). The
//!   index of a file is made once: its module lies at no address, and the modules of its mappings
//!   share its unwind data.
//! - A section is kept or lent (`MappedBytes`): a file that was read owns copies; what a dump's
//!   memory has is lent, since many mappings may share it. Code is most of a large file, so the
//!   file's bytes are kept for it, and a segment is a range of them (`FileCode`).
//! - A label in code names what no function's symbol reaches, up to the next function.
//! - A function without a name is called by its start, as the FDE says it. An export of a PE file
//!   ends with its function in `.pdata`, since exports have no sizes.
//! - Of symbols at one address those with a version and those that begin with `__GI_` are least
//!   plain, then those that begin with `_`; only the first 256 bytes of a name are looked at.
//! - A file is looked for by its name first, and by its build id in perf's copies only where that
//!   file is not there or is another one.
#![tactic(auto)]

mod around;
pub mod code;
pub mod code_map;
pub mod constants;
pub mod debug_frame;
pub mod error;
mod exchange;
mod exports;
pub mod files;
pub mod frames_text;
mod function_start;
pub mod made_up_id;
pub mod maker;
pub mod mapped_bytes;
pub mod mapping;
mod modules;
pub mod object_file;
mod pe_file;
pub mod place;
mod plainness;
pub mod process;
pub mod read_refusal;
pub mod shared;
mod symbols;
pub mod unwinder;

pub use error::ProcessesError;
pub use maker::ModuleMaker;
pub use mapping::Mapping;
pub use process::Process;
pub use shared::SharedMappings;
pub use unwinder::ProcessUnwinder;
