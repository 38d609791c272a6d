//! The whole run of the program, over a reader and two writers.
ghost use Rattle.std.specs.Prelude.{◌≡◌, ◌≢◌, ◌≤◌, ◌++◌, ◌||◌, is_err, IfOk, IfErr, OnOk, OnErr, IfSome, MatchBool, true, false, None, Ok, Err, option_map, string_bytes};
ghost use Rattle.std.specs.Io.KnownBytes.{Keeps, Appends};
ghost use Rattle.serde_json.specs.Find.{as_str};
ghost use Rattle.serde_json.specs.View.{view};
ghost use Rattle.framehop_explain.specs.Found.{explaining_by};
ghost use Rattle.framehop_walk.specs.Answers.{Answers, IsJson, IsNoJson, IsOfRun, read_policy};
ghost use Rattle.framehop_walk.specs.Fields.{field_as};
ghost use Rattle.framehop_walk.specs.Refusals.{refusal_text, refusal_status};
ghost use Rattle.framehop_walk.specs.Streams.{outputs};
ghost use Rattle.framehop_walk.specs.declared.refusal.Refusal.TheVariants.{OutOfMemory};
ghost use Rattle.framehop_explain_cli.specs.Explained.{IsExplained, IsPrinted};
ghost use Rattle.framehop_explain_cli.specs.Faults.{fault_view};
ghost use Rattle.framehop_explain_cli.specs.FaultText.{command_text as text_of_command, verb_at as verb_of, place_in, place_of as place_text_of, IsPlace};
ghost use Rattle.framehop_explain_cli.specs.SessionNotes.{AreNotesUnder, AreSessionNotes};
ghost use Rattle.framehop_explain_cli.specs.Runs.{place_text, problem_line, IsRun};

use crate::explainer::notes_of;
use crate::fault::Fault;
use crate::fields::{check_input, check_session};
use framehop::aarch64::ArchAarch64;
use framehop::x86_64::ArchX86_64;
use framehop::{AllocationPolicy, MayAllocateDuringUnwind, MustNotAllocateDuringUnwind};
use framehop_explain::pe::Sources;
use framehop_explain::{DescribeRule, Note, annotated};
use framehop_walk::fields::text;
use framehop_walk::registers::Registers;
use framehop_walk::{Input, Output, Refusal, replies_to_value, write_whole};
use serde_json::Value;
use std::alloc::{AllocError, Global};
use std::io;
use std::io::{Read, Write};

/// Why a run was refused, and where the input is wrong.
#[derive(Drop)]
pub struct Problem {
    pub refusal: Refusal,
    /// Where the input is wrong, and how, on one line.
    pub place: Option<String>,
}

impl From<Refusal> for Problem {
    ghost from_gives = { λ refusal problem. (problem.refusal ≡ refusal) × (problem.place ≡ None) };

    fn from(refusal: Refusal) -> Self {
        Problem {
            refusal,
            place: None,
        }
    }
}

impl From<AllocError> for Problem {
    ghost from_gives = { λ _ problem. (problem.refusal ≡ OutOfMemory) × (problem.place ≡ None) };

    fn from(_error: AllocError) -> Self {
        Problem {
            refusal: Refusal::OutOfMemory,
            place: None,
        }
    }
}

/// Reads commands, carries them out and writes the replies to `out`, with notes under their lines, or one line that says
/// why the run was refused to `err`. Returns the exit status: 0, or that of the refusal. Nothing is written to `out` by a
/// run that is refused, unless a write to it fails.
pub fn explain_program<R: Read, W: Write, E: Write>(
    alloc: Global,
    input: &mut Input<R>,
    out: &mut Output<W>,
    err: &mut Output<E>,
) -> u8
    ensures run { IsRun result input.old input.new (outputs out.old err.old) (outputs out.new err.new) }
    ensures status { result ≤ 2 }
{
    match print_explained(alloc, input, out) {
        Ok(()) => 0,
        Err(problem) => refuse(err, &problem),
    }
}

/// Writes the replies to the input to `out`, with notes under their lines.
fn print_explained<R: Read, W: Write>(
    alloc: Global,
    input: &mut Input<R>,
    out: &mut Output<W>,
) -> Result<(), Problem>
    ensures printed { OnOk result (IfSome input.old.remaining (IsPrinted out.old.bytes out.new.bytes)) }
    ensures flushed { OnOk result (out.new.is_flushed ≡ true) }
    ensures noted { OnOk result (out.new.has_failed ≡ out.old.has_failed) }
    ensures told { IfErr result (λ problem. problem.refusal ≢ Refusal.OutOfMemory
        → IsOfRun input.new.has_failed out.new.has_failed input.old.remaining problem.refusal) }
    ensures placed { IfErr result (λ problem. IfSome input.old.remaining (λ bytes.
        IsPlace problem.refusal bytes (option_map (λ place. string_bytes place) problem.place))) }
    ensures refused { OnErr result (out.new.has_failed ≡ false → Keeps out.old.bytes out.new.bytes) }
{
    let bytes = match input.read_all(alloc) {
        Ok(bytes) => bytes,
        Err(error) => return Err(Problem::from(Refusal::from(error))),
    };
    let text = explain_text(alloc, bytes.as_slice())?;
    match write_whole(out, text.as_slice()) {
        Ok(()) => Ok(()),
        Err(_) => Err(Problem::from(Refusal::CannotWriteOutput)),
    }
}

/// Returns the replies to the bytes of the input, with notes under their lines.
///
/// # Errors
///
/// Where `framehop-walk` refuses the input, its refusal, and where the input is wrong; `OutOfMemory`.
pub(crate) fn explain_text(alloc: Global, bytes: &[u8]) -> Result<Vec<u8>, Problem>
    ensures answers { IfOk result (λ output. IsExplained bytes.now output.items) }
    ensures refused { IfErr result (λ problem. problem.refusal ≢ Refusal.OutOfMemory
        → Answers bytes.now (Err (refusal_text problem.refusal))) }
    ensures placed { IfErr result (λ problem.
        IsPlace problem.refusal bytes.now (option_map (λ place. string_bytes place) problem.place)) }
{
    let value = parse(alloc, bytes)?;
    match replies_to_value(alloc, &value) {
        Ok(replies) => {
            let notes = notes_on(alloc, &value)?;
            Ok(annotated(alloc, replies.as_bytes(), notes.as_slice())?)
        }
        Err(refusal) => Err(Problem {
            refusal,
            place: place_of(alloc, &value, refusal)?,
        }),
    }
}

/// Returns the value of the input.
fn parse(alloc: Global, bytes: &[u8]) -> Result<Value, Problem>
    ensures reading { IfOk result (λ value. IsJson bytes.now (view value)) }
    ensures refused { IfErr result (λ problem. problem.refusal ≢ Refusal.OutOfMemory
        → (problem.refusal ≡ Refusal.NotJson) × IsNoJson bytes.now) }
    ensures placed { IfErr result (λ problem.
        IsPlace problem.refusal bytes.now (option_map (λ place. string_bytes place) problem.place)) }
{
    match Value::from_slice(alloc, bytes) {
        Ok(value) => Ok(value),
        Err(error) => {
            if error.is_memory() {
                return Err(Problem::from(Refusal::OutOfMemory));
            }
            let (line, column) = (error.line(), error.column());
            Err(Problem {
                refusal: Refusal::NotJson,
                place: Some(format!(in alloc; "line {line}, column {column}: not JSON")?),
            })
        }
    }
}

/// Returns the notes under the lines of the replies, on the architecture that the input names.
fn notes_on(alloc: Global, value: &Value) -> Result<Vec<Note>, AllocError>
    ensures { IfOk result (λ notes. AreSessionNotes (view value.now) notes.items) }
{
    if is_word(value, "arch", "aarch64") {
        return notes_under::<ArchAarch64>(alloc, value);
    }
    notes_under::<ArchX86_64>(alloc, value)
}

/// Returns the notes of a session on an architecture, under the policy that the input names.
fn notes_under<A: Registers + Sources>(
    alloc: Global,
    value: &Value,
) -> Result<Vec<Note>, AllocError>
where
    A::UnwindRule: DescribeRule,
    ensures { IfOk result (λ notes. AreNotesUnder A.reading (explaining_by A.readers A.pe_source
        (record { by_code = A.by_code; prologue = A.prologue_rule; epilogue = A.epilogue_rule })
        A.UnwindRule.rule_text A.UnwindRule.fallback)
        A.unwinding (view value.now) (read_policy (view value.now)) notes.items) }
{
    if is_word(value, "policy", "may") {
        return notes_of::<A, MayAllocateDuringUnwind>(alloc, value);
    }
    notes_of::<A, MustNotAllocateDuringUnwind>(alloc, value)
}

/// Returns whether a field is this word.
fn is_word(value: &Value, field: &'static str, word: &str) -> bool
    ensures { MatchBool result (field_as as_str field.entry.now (view value.now) ≡ Ok word.now)
        (field_as as_str field.entry.now (view value.now) ≢ Ok word.now) }
{
    match text(value, field) {
        Ok(text) => text == word,
        Err(_) => false,
    }
}

/// Returns where the input is wrong that was refused, and how.
fn place_of(alloc: Global, value: &Value, refusal: Refusal) -> Result<Option<String>, AllocError>
    ensures { IfOk result (λ place. option_map (λ text. string_bytes text) place ≡ place_text_of refusal (view value.now)) }
{
    let checked = match refusal {
        Refusal::BadField(_) => check_input(alloc, value)?,
        Refusal::NoSuchUnwinder | Refusal::NoSuchCache => check_session(value),
        _ => Ok(()),
    };
    match checked {
        Ok(()) => Ok(None),
        Err(fault) => Ok(Some(fault_text(alloc, value, fault)?)),
    }
}

/// Returns where a field is wrong, and how.
#[tactic(auto, unfolding(crate::specs::FaultText::place_in))]
fn fault_text(alloc: Global, value: &Value, fault: Fault) -> Result<String, AllocError>
    ensures { IfOk result (λ text. string_bytes text ≡ place_in (view value.now) (fault_view fault)) }
{
    let Some(number) = fault.command else {
        return format!(in alloc; "{fault}");
    };
    let command = command_text(alloc, verb_at(value, number), number)?;
    format!(in alloc; "{}: {fault}", command.as_str())
}

/// Returns the number and the verb of a command, before what is wrong in it.
#[tactic(auto, unfolding(crate::specs::FaultText::command_text))]
fn command_text(alloc: Global, verb: Option<&str>, number: usize) -> Result<String, AllocError>
    ensures { IfOk result (λ text. string_bytes text
        ≡ text_of_command number (option_map (λ verb. verb.now) verb.entry)) }
{
    match verb {
        Some(verb) => format!(in alloc; "commands[{number}] ({verb})"),
        None => format!(in alloc; "commands[{number}]"),
    }
}

/// Returns the verb of the command of a number, if it has one.
fn verb_at(value: &Value, number: usize) -> Option<&str>
    ensures { option_map (λ verb. verb.now) result ≡ verb_of number (view value.entry.now) }
{
    value.get("commands")?.get(number)?.get("do")?.as_str()
}

/// Writes why a run was refused on one line, and returns its exit status.
pub fn refuse<E: Write>(err: &mut Output<E>, problem: &Problem) -> u8
    ensures status { result ≡ refusal_status problem.now.refusal }
    ensures told { err.new.has_failed ≡ false → Appends err.old.bytes err.new.bytes
        (problem_line (place_text problem.now.refusal (option_map (λ place. string_bytes place) problem.now.place))) }
{
    let (text, end) = problem_text(problem);
    let _written = write_line(err, text, end);
    problem.refusal.status()
}

/// Returns the text of a problem's line after the program's name, in two parts.
fn problem_text(problem: &Problem) -> (&str, &str)
    ensures { place_text problem.entry.now.refusal (option_map (λ place. string_bytes place) problem.entry.now.place)
        ≡ result.0.now ++ result.1.now }
{
    match &problem.place {
        Some(place) => (place.as_str(), ""),
        None => problem.refusal.text(),
    }
}

/// Writes the line of a problem.
#[tactic(auto, unfolding(crate::specs::Runs::problem_line))]
fn write_line<E: Write>(err: &mut Output<E>, text: &str, end: &str) -> io::Result<()>
    ensures written { OnOk result (Appends err.old.bytes err.new.bytes (problem_line (text.now ++ end.now))) }
    ensures noted { err.new.has_failed ≡ (err.old.has_failed || is_err result) }
{
    err.write_all(b"framehop-explain: ")?;
    err.write_all(text.as_bytes())?;
    err.write_all(end.as_bytes())?;
    err.write_all(b"\n")
}
