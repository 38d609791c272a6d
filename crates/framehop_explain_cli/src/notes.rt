//! What the note of a module says, when it is added.
ghost use Rattle.std.specs.Prelude.{◌≡◌, ◌++◌, ℕ, List, codes, map, option_map, IfOk, string_bytes};
ghost use Rattle.std.specs.List.{list_any};
ghost use Rattle.std.specs.Str.{bytes_eq};
ghost use Rattle.serde_json.specs.Find.{get};
ghost use Rattle.serde_json.specs.View.{view, items_view};
ghost use Rattle.framehop_explain.specs.DataText.{IsDataText};
ghost use Rattle.framehop_explain_cli.specs.Remarks.{is_among, placed_sections, without_address, remark_of, remark_on as remark_for, remark_line, remark_lines, lines_among, section_lines};
ghost use Rattle.framehop_explain_cli.specs.SessionNotes.{module_line, base_lines, IsModuleNote};

use framehop::Module;
use framehop_explain::{Note, UnwindDataKind, module_name, unwind_data_text};
use serde_json::Value;
use std::alloc::{AllocError, Global};

/// The sections that unwinding asks for.
const ASKED: [&str; 16] = [
    "__unwind_info",
    "__eh_frame",
    "__eh_frame_hdr",
    "__debug_frame",
    "__stubs",
    "__stub_helper",
    "__text",
    "__got",
    ".pdata",
    ".rdata",
    ".xdata",
    ".text",
    ".eh_frame",
    ".eh_frame_hdr",
    ".debug_frame",
    ".got",
];

/// Returns the note of a module that a command adds: what unwind data it has, and what in the input is of no use.
pub(crate) fn module_note(
    alloc: Global,
    module: &Module<Vec<u8>>,
    command: &Value,
) -> Result<Note, AllocError>
    ensures { IfOk result (IsModuleNote «module».now (view command.now)) }
{
    let note = module_line(alloc, module)?;
    let note = with_base(alloc, module, note)?;
    with_sections(alloc, UnwindDataKind::of(module), command, note)
}

/// Returns the line of a module that a command adds: what unwind data it has.
fn module_line(alloc: Global, module: &Module<Vec<u8>>) -> Result<Note, AllocError>
    ensures { IfOk result (λ note. (unwind_data : List ℕ) × IsDataText «module».now.unwind_data unwind_data
        × (note ≡ module_line «module».now unwind_data)) }
{
    let name = module_name(module);
    let unwind_data = unwind_data_text(alloc, module)?;
    let line = format!(in alloc; "{name}: {}", unwind_data.as_str())?;
    let note = Note::new(alloc).with_line(line.as_str())?;
    Ok(note)
}

/// Adds to a note that the base of a module is above its start, if it is.
fn with_base(alloc: Global, module: &Module<Vec<u8>>, note: Note) -> Result<Note, AllocError>
    ensures { IfOk result (λ more. more ≡ note ++ base_lines «module».now) }
{
    let base = module.base_avma();
    let start = module.avma_range().start;
    if base <= start {
        return Ok(note);
    }
    let text = format!(in alloc;
        "the base 0x{base:x} is above the start 0x{start:x}: addresses below the base are not covered"
    )?;
    let more = with_remark(alloc, text.as_str(), note)?;
    Ok(more)
}

/// Adds to a note the remarks on the sections of a command, if it has a list of them.
#[tactic(auto, unfolding(crate::specs::Remarks::section_lines))]
fn with_sections(
    alloc: Global,
    kind: UnwindDataKind,
    command: &Value,
    note: Note,
) -> Result<Note, AllocError>
    ensures { IfOk result (λ more. more ≡ note ++ section_lines kind (view command.now)) }
{
    match command.get("sections").and_then(Value::as_array) {
        Some(sections) => with_remarks(alloc, kind, sections, note),
        None => Ok(note),
    }
}

/// Adds to a note the remarks on sections.
fn with_remarks(
    alloc: Global,
    kind: UnwindDataKind,
    sections: &Vec<Value>,
    note: Note,
) -> Result<Note, AllocError>
    ensures { IfOk result (λ more. more ≡ note ++ lines_among kind (items_view sections.now.items)) }
{
    let mut more = note;
    for section in sections {
        more = with_section(alloc, kind, section, more)?;
    }
    Ok(more)
}

/// Adds to a note the remark on a section, if there is one.
fn with_section(
    alloc: Global,
    kind: UnwindDataKind,
    section: &Value,
    note: Note,
) -> Result<Note, AllocError>
    ensures { IfOk result (λ more. more ≡ note ++ remark_lines (remark_for kind (view section.now))) }
{
    let remark = remark_on(alloc, kind, section)?;
    match &remark {
        Some(text) => with_remark(alloc, text.as_str(), note),
        None => Ok(note),
    }
}

/// Returns the remark on a section of a command, if there is one.
#[tactic(auto, unfolding(crate::specs::Remarks::remark_on))]
fn remark_on(
    alloc: Global,
    kind: UnwindDataKind,
    section: &Value,
) -> Result<Option<String>, AllocError>
    ensures { IfOk result (λ remark. option_map (λ text. string_bytes text) remark
        ≡ remark_for kind (view section.now)) }
{
    match section.get("name").and_then(Value::as_str) {
        Some(name) => remark_on_named(alloc, kind, section, name),
        None => Ok(None),
    }
}

/// Returns the remark on a section of this name, if there is one.
fn remark_on_named(
    alloc: Global,
    kind: UnwindDataKind,
    section: &Value,
    name: &str,
) -> Result<Option<String>, AllocError>
    ensures { IfOk result (λ remark. option_map (λ text. string_bytes text) remark
        ≡ remark_of kind (get (codes "svma") (view section.now)) name.now) }
{
    if !is_among(&ASKED, name) {
        return Ok(Some(format!(in alloc; "unwinding asks for no section {name}")?));
    }
    if needs_svma(kind, name) && section.get("svma").is_none() {
        let effect = without_svma(kind);
        return Ok(Some(format!(in alloc; "{name} has no svma, {effect}")?));
    }
    Ok(None)
}

/// Returns whether a name is one of these.
fn is_among(names: &[&str], name: &str) -> bool
    ensures { result ≡ list_any (λ known. bytes_eq name.now known.now) names.now }
{
    names.iter().any(|known| is_same(name, *known))
}

/// Returns whether two names are the same.
fn is_same(name: &str, other: &str) -> bool
    ensures { result ≡ bytes_eq name.now other.now }
{
    name == other
}

/// Returns whether unwinding by data of this kind counts on where the section of this name is.
fn needs_svma(kind: UnwindDataKind, name: &str) -> bool
    ensures { result ≡ is_among (placed_sections kind) name.now }
{
    match kind {
        UnwindDataKind::Pe => is_among(&[".xdata", ".rdata", ".text"], name),
        UnwindDataKind::Compact { .. } => {
            is_among(&["__eh_frame", "__text", "__stubs", "__stub_helper"], name)
        }
        UnwindDataKind::EhFrameWithHeader => is_among(
            &[".eh_frame", ".eh_frame_hdr", "__eh_frame", "__eh_frame_hdr"],
            name,
        ),
        _ => is_among(&[".eh_frame", "__eh_frame"], name),
    }
}

/// Returns what becomes of a section that does not say where it is.
fn without_svma(kind: UnwindDataKind) -> &'static str
    ensures { result.now ≡ without_address kind }
{
    match kind {
        UnwindDataKind::Pe => "so its data is not used",
        _ => "which counts as 0",
    }
}

/// Adds a remark to a note.
fn with_remark(alloc: Global, text: &str, note: Note) -> Result<Note, AllocError>
    ensures { IfOk result (λ more. more ≡ note ++ remark_line text.now) }
{
    let line = format!(in alloc; "note: {text}")?;
    note.with_line(line.as_str())
}
