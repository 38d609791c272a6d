//! Worked examples that only calls can show, of the library, of stacks over whole register files, of files that a process maps, and
//! of the examples in docs/EXAMPLES.md: the other rows are in `checks/cases/`. This crate has only tests.
#![tactic(auto)]

#[cfg(test)]
mod asked_names;
#[cfg(test)]
mod backtrace;
#[cfg(test)]
mod commands;
#[cfg(test)]
mod elf;
#[cfg(test)]
mod files;
#[cfg(test)]
mod lent_words;
#[cfg(test)]
mod library;
#[cfg(test)]
mod paths;
#[cfg(test)]
mod program;
#[cfg(test)]
mod proved_caller;
#[cfg(test)]
mod readme;
#[cfg(test)]
mod reasons;
#[cfg(test)]
mod rule_text;
#[cfg(test)]
mod section_info;
#[cfg(test)]
mod sections;
#[cfg(test)]
mod shared_mappings;
#[cfg(test)]
mod small;
#[cfg(test)]
mod texts;
#[cfg(test)]
mod unwinders;
#[cfg(test)]
mod walk;
#[cfg(test)]
mod x86_64;
