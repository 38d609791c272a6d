//! What is said of files: of which nothing was read, and of which something was not.
ghost use Rattle.std.specs.Prelude.{◌≡◌, string_bytes, IfOk};
ghost use Rattle.framehop_perf_stacks.specs.Problems.{left_out_text, frames_problem, lines_left_out, IsSaidOf, noted_line, unread_line, IsProblemText, IsLineOf, AreProblems};

use framehop_frames::line::push_name;
use framehop_object::elf::decompressed::ContentsError;
use framehop_processes::code_map::CodeMap;
use framehop_processes::files::{Files, NamedFile};
use framehop_processes::frames_text::frames_text;
use framehop_processes::object_file::{FileProblem, ObjectFile};
use std::alloc::{AllocError, Global};

/// Returns a line for each file of which nothing was read, or of which something was not, in the order of the files: its
/// name, and why.
pub fn problems_text(alloc: Global, files: &Files) -> Result<Vec<u8>, AllocError>
    ensures { IfOk result (λ text. AreProblems files.now text.items) }
{
    let mut text = Vec::new(alloc);
    for file in files.list() {
        let line = problem_line(alloc, file)?;
        text.extend_from_slice(line.as_slice())?;
    }
    Ok(text)
}

/// Returns the line of a file: none where all of it was read.
fn problem_line(alloc: Global, file: &NamedFile) -> Result<Vec<u8>, AllocError>
    ensures { IfOk result (λ line. IsLineOf file.now line.items) }
{
    let name = file.name.as_slice();
    match file.problem {
        Some(problem) => {
            let why = problem_text(alloc, problem)?;
            unread_line(alloc, name, why.as_bytes())
        }
        None => {
            let said = said_of(alloc, file)?;
            noted_line(alloc, name, said.as_bytes())
        }
    }
}

/// Returns the line of a file of which nothing was read.
fn unread_line(alloc: Global, name: &[u8], why: &[u8]) -> Result<Vec<u8>, AllocError>
    ensures { IfOk result (λ line. line.items ≡ unread_line name.now why.now) }
{
    let mut line = Vec::new(alloc);
    push_name(&mut line, name)?;
    line.extend_from_slice(b": ")?;
    line.extend_from_slice(why)?;
    line.push(b'\n')?;
    Ok(line)
}

/// Returns why nothing was read of a file.
fn problem_text(alloc: Global, problem: FileProblem) -> Result<String, AllocError>
    ensures { IfOk result (λ text. IsProblemText problem (string_bytes text)) }
{
    match problem {
        FileProblem::NotRead(refusal) => String::from_str(alloc, refusal.text()),
        FileProblem::OtherBuildId => {
            String::from_str(alloc, "its build id is not the recording's")
        }
        FileProblem::Elf(error) => format!(in alloc; "{error}"),
        FileProblem::Pe(error) => format!(in alloc; "{error}"),
    }
}

/// Returns the line of a file that was read: none where nothing is said of it.
fn noted_line(alloc: Global, name: &[u8], said: &[u8]) -> Result<Vec<u8>, AllocError>
    ensures { IfOk result (λ line. line.items ≡ noted_line name.now said.now) }
{
    let mut line = Vec::new(alloc);
    if !said.is_empty() {
        push_name(&mut line, name)?;
        line.extend_from_slice(said)?;
        line.push(b'\n')?;
    }
    Ok(line)
}

/// Returns what of a file was not read.
fn said_of(alloc: Global, file: &NamedFile) -> Result<String, AllocError>
    ensures { IfOk result (λ text. IsSaidOf file.now (string_bytes text)) }
{
    let mut text = frames_text(alloc, frames_problem(&file.object))?;
    let left_out = left_out_text(alloc, lines_left_out(&file.code_map))?;
    text.push_str(left_out.as_str())?;
    Ok(text)
}

/// Returns why a file's `.debug_frame` is not read.
fn frames_problem(object: &Option<ObjectFile>) -> Option<ContentsError>
    ensures { result ≡ frames_problem object.now }
{
    match object {
        Some(object) => object.frames_problem(),
        None => None,
    }
}

/// Returns how many lines of a map are left out, if some are.
fn left_out_text(alloc: Global, left_out: usize) -> Result<String, AllocError>
    ensures { IfOk result (λ text. string_bytes text ≡ left_out_text left_out) }
{
    if left_out == 0 {
        return Ok(String::new(alloc));
    }
    Ok(format!(in alloc;
        ": lines that are left out, since they are not START SIZE NAME: {left_out}"
    )?)
}

/// Returns how many lines of a map tell no function.
fn lines_left_out(code_map: &Option<CodeMap>) -> usize
    ensures { result ≡ lines_left_out code_map.now }
{
    match code_map {
        Some(code_map) => code_map.left_out,
        None => 0,
    }
}
