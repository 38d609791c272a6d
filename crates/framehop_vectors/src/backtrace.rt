//! Stacks made by hand, whose frames are known.
mod aarch64;
mod calls;
mod dump;
mod kept;
mod signal;
mod sources;
mod traces;
mod unwinders;
mod x86_64;
