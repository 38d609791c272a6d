//! The files of a disk: which are tried for a file that processes map, which of their bytes are read, and what is said of those
//! that are not.
#![tactic(auto)]

pub mod core_parts;
pub mod counted;
pub mod disk;
mod gaps;
pub mod input;
pub mod known_names;
pub mod listing;
pub mod messages;
mod object_parts;
mod paths;
mod places;
pub mod printed;
pub mod read_paths;
pub mod recording_frame;
mod segments;
mod unasked;
mod wanted;
