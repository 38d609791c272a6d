//! The sections of the input: whether their fields are right, and what the input tells of them beside.
ghost use Rattle.std.specs.Prelude.{◌≡◌, ℕ, List, [], ◌∷◌, IfOk};
ghost use Rattle.serde_json.specs.View.{view, items_view};
ghost use Rattle.framehop_explain_cli.specs.Faults.{HasNames, tested, names_after, test_contents, test_named_section, test_section, test_sections, test_one_of, test_items};

use crate::fault::{Cause, Fault};
use crate::fields::{Checked, Kind, check_optional, items_of, text_of};
use serde_json::Value;
use std::alloc::Global;
use std::collections::BTreeSet;

/// Tests the sections or segments of a command: their names differ.
#[tactic(auto, unfolding(crate::specs::Faults::test_sections))]
pub(crate) fn check_sections(alloc: Global, command: &Value, list: &'static str) -> Checked
    ensures { IfOk result (λ checked. tested checked ≡ test_sections list.entry.now (view command.now)) }
{
    match items_of(command, list) {
        Ok(sections) => check_each_section(alloc, list, sections),
        Err(fault) => Ok(Err(fault)),
    }
}

/// Tests the items of a list of sections or segments.
fn check_each_section(alloc: Global, list: &'static str, sections: &[Value]) -> Checked
    ensures { IfOk result (λ checked. tested checked
        ≡ test_items names_after (test_one_of list.entry.now) 0 [] (items_view sections.now)) }
{
    let mut names: BTreeSet<&str> = BTreeSet::new(alloc);
    for (i, section) in sections.iter().enumerate() {
        match check_section(&mut names, section)? {
            Ok(()) => {}
            Err(fault) => return Ok(Err(fault.below(list, Some(i)))),
        }
    }
    Ok(Ok(()))
}

/// Tests a section whose name is not among `names`, and adds it to them.
fn check_section<'v>(names: &mut BTreeSet<&'v str>, section: &'v Value) -> Checked
    ensures { (before : List (List ℕ)) → HasNames names.old before → IfOk result (λ checked.
        (tested checked ≡ test_section before (view section.entry.now))
        × IfOk checked (λ _. HasNames names.new (names_after before (view section.entry.now)))) }
{
    match text_of(section, "name") {
        Ok(name) => check_named_section(names, name, section),
        Err(fault) => Ok(Err(fault)),
    }
}

/// Tests a section of this name.
fn check_named_section<'v>(names: &mut BTreeSet<&'v str>, name: &'v str, section: &Value) -> Checked
    ensures { (before : List (List ℕ)) → HasNames names.old before → IfOk result (λ checked.
        (tested checked ≡ test_named_section before name.entry.now (view section.now))
        × IfOk checked (λ _. HasNames names.new (name.entry.now ∷ before))) }
{
    if !names.insert(name)? {
        return Ok(Err(Fault::of("name", Cause::SameName)));
    }
    Ok(check_contents(section))
}

/// Tests the fields of a section, but not its name.
#[tactic(auto, unfolding(crate::specs::Faults::test_contents))]
fn check_contents(section: &Value) -> Result<(), Fault>
    ensures { tested result ≡ test_contents (view section.now) }
{
    check_optional(section, "svma", Kind::Range)?;
    check_optional(section, "data", Kind::Bytes)
}
