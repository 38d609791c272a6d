//! Where a frame came from, and why: unwind rules as text, what unwind data a module has, explanations, and notes
//! under the lines of a text.
//!
//! # Decisions
//!
//! - An explanation is a second reading beside the path: it steps without a cache and reads the
//!   data and the words twice, so that unwinding carries nothing for it.
//! - The reason of a fallback is what the reader of the format returns, whose contract is exact on
//!   errors. `Sources::is_analysed` says whose code is looked at.
//! - A note is bytes, with each control character as a question mark, and where one is of C1 each
//!   byte beyond ASCII. Rules and reasons have texts of their own, which are what `{:?}` prints of
//!   them: a derived `Debug` has no contract.
//! - How a frame is explained is one record (`explaining_by`), so that crates above say which notes
//!   they write by a list of frames.
#![tactic(auto)]

pub mod annotate;
pub mod compact;
pub mod count;
pub mod explain;
pub mod frames;
pub mod kind;
pub mod note;
pub mod notes;
pub mod pe;
pub mod reason;
pub mod rule_text;
pub mod source;
pub mod text;
pub mod told;
pub mod uncovered;

pub use annotate::annotated;
pub use explain::{Explanation, Finding};
pub use kind::UnwindDataKind;
pub use note::Note;
pub use notes::{explain_over, note_frame, note_walk};
pub use reason::Reason;
pub use rule_text::{DescribeRule, Described};
pub use source::{CompactSource, PeSource, RowSource, Source};
pub use text::{frame_text, module_name, unwind_data_text};
pub use told::Told;
pub use uncovered::Uncovered;
