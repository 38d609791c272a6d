//! What the programs have in common: how a run fails, which files they read, where they print, and how names of others are
//! printed.
#![tactic(auto)]

pub mod command_line;
pub mod failure;
pub mod file;
pub mod output;
pub mod printed;

pub use command_line::usage;
pub use failure::{Failure, Result, exit_code};
pub use file::read_or_tell;
pub use output::{StandardOutput, print_text, tell};
pub use printed::Printed;
