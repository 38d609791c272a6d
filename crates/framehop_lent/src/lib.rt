//! Steps and walks over words that a caller lends: in windows, and into a list of addresses.
//!
//! They take no memory of their own, and call nothing of their caller's, so that an interface for
//! C can stand on them.
#![tactic(auto)]

pub mod ahead;
mod ordered;
pub mod step;
pub mod walk;
pub mod window;

pub use ahead::{Wanted, wanted_word};
pub use step::step_over;
pub use walk::{WalkStop, caller_over, walk_into, walk_on};
pub use window::{Window, told, word_at};
