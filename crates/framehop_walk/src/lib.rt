//! The program `framehop-walk`: a list of commands in JSON in, the replies as text out.
//!
//! # Decisions
//!
//! - Clones are shared here and not in the library, where each has a list of modules, since a later
//!   `remove_module` may take no memory: `sharing` rewrites the commands so that a clone is one
//!   unwinder with its original until either changes, and `share_clones` is proved to tell the
//!   replies to the commands as they are written.
//! - No JSON value is freed: `Input` keeps what was read, to the end of the process.
//! - The input is opened by a call that is passed in, once at most (`FnOnce`), so that the contract
//!   of `run` says what is opened.
//! - `Input` and `Output` keep whether a call has failed, and have private fields, so that only a
//!   call that returns an error notes one. That a read or a write was tried at all is tested.
//! - An error line is written in parts by `write_all`, whose contract says that an error is one of
//!   a write, and without memory, since it may tell that there is none.
//! - The answer to the input is a relation (`Answers`), since a command in memory has vectors whose
//!   room the input does not determine.
//! - All caches are made before the first command, so that `caches` and `session::run` mean the
//!   same.
//! - Digits are read and printed here: 177 million instructions for 1,000 walks, where it took 199;
//!   137 since the JSON value is left to the end of the process.
#![tactic(auto)]

mod command_line;
pub mod commands;
pub mod fields;
mod input;
mod lookup;
mod printing;
mod program;
mod refusal;
pub mod registers;
mod replies;
pub mod sections;
mod sharing;

pub use command_line::run;
pub use framehop_output::Output;
pub use input::Input;
pub use program::{refuse, replies_to_value, walk_program, write_whole};
pub use refusal::Refusal;
pub use sections::section_bytes;
