//! Worked examples of registers, rules, rows, runs of code and code analysis, and what only calls show of compact unwind
//! info and of PE unwind info. The rules that code analysis and sections give, and what they refuse, are cases, in
//! `checks/cases/rules`. This crate has only tests.
#![tactic(auto)]

#[cfg(test)]
mod actions_x86_64;
#[cfg(test)]
mod analysis_aarch64;
#[cfg(test)]
mod analysis_x86_64;
#[cfg(test)]
mod columns;
#[cfg(test)]
mod frames;
#[cfg(test)]
mod header;
#[cfg(test)]
mod index;
#[cfg(test)]
mod macho;
#[cfg(test)]
mod names;
#[cfg(test)]
mod pe;
#[cfg(test)]
mod real_code;
#[cfg(test)]
mod register_ordering;
#[cfg(test)]
mod registers;
#[cfg(test)]
mod remembered;
#[cfg(test)]
mod rows;
#[cfg(test)]
mod rules;
#[cfg(test)]
mod rules_aarch64;
#[cfg(test)]
mod rules_x86_64;
#[cfg(test)]
mod sections;
#[cfg(test)]
mod small_types;
