//! What is printed, and the status for it.
ghost use Rattle.std.specs.Prelude.{◌≡◌, ◌⊎◌, IfOk, IfErr, MatchResult};
ghost use Rattle.framehop_stacks_cli.specs.Statuses.{dump_status, graph_status, stacks_status, status_after};

use crate::form::Form;
use crate::request::{Request, refuse_by, refuse_file_by};
use framehop_cli::{Result, StandardOutput};
use framehop_disk::messages::Messages;
use framehop_dump_stacks::error::DumpStacksError;
use framehop_folded::changes::Changes;
use framehop_folded::flame_graph::error::FlameGraphError;
use framehop_folded::flame_graph::svg::{change_graph, flame_graph};
use framehop_folded::folded::Folded;
use framehop_folded::speedscope::speedscope_file;
use framehop_output::Output;
use framehop_perf_stacks::error::StacksError;
use std::io;
use std::io::{BufWriter, Write};

/// Prints the folded stacks of all recordings, or draws them, and returns the status.
pub fn print_folded(request: Request<'_, '_>, folded: &Folded) -> Result<u8> {
    let rt = request.rt;
    match request.form {
        Form::Graph(drawing) => print_graph(rt, flame_graph(rt.alloc(), folded, drawing)),
        Form::Speedscope(title) => print_speedscope(request, folded, title),
        _ => status_of(rt, write_lines(rt, folded)),
    }
}

/// Prints folded stacks as a file of speedscope, and returns the status.
fn print_speedscope(request: Request<'_, '_>, folded: &Folded, title: &str) -> Result<u8> {
    let rt = request.rt;
    if folded.iter().next().is_none() {
        return refuse_by(rt, FlameGraphError::NothingCounted);
    }
    let file = speedscope_file(rt.alloc(), folded, title, request.options.by_thread)?;
    status_of(rt, write_text(rt, file.as_str()))
}

/// Prints folded stacks beside one another, or draws them, and returns the status.
pub fn print_changed(request: Request<'_, '_>, changes: &Changes) -> Result<u8> {
    let rt = request.rt;
    match request.form {
        Form::Graph(drawing) => print_graph(rt, change_graph(rt.alloc(), changes, drawing)),
        _ => status_of(rt, write_changes(rt, changes)),
    }
}

/// Prints a flame graph, or why there is none, and returns the status.
fn print_graph(rt: &HostRuntime, graph: Result<String, FlameGraphError>) -> Result<u8>
    ensures { IfOk result (λ status. IfErr graph (λ error. status ≡ graph_status error)) }
{
    match graph {
        Ok(graph) => status_of(rt, write_text(rt, graph.as_str())),
        Err(error) => refuse_by(rt, error),
    }
}

/// Writes a text.
fn write_text(rt: &HostRuntime, text: &str) -> Result<(), StacksError> {
    StandardOutput { rt }.write_all(text.as_bytes())?;
    Ok(())
}

/// Writes the lines of folded stacks.
fn write_lines(rt: &HostRuntime, folded: &Folded) -> Result<(), StacksError> {
    let mut out = Output::new(BufWriter::new(rt.alloc(), StandardOutput { rt })?);
    folded.write(&mut out)?;
    io::Write::flush(&mut out)?;
    Ok(())
}

/// Writes the lines of folded stacks beside one another.
fn write_changes(rt: &HostRuntime, changes: &Changes) -> Result<(), StacksError> {
    let mut out = Output::new(BufWriter::new(rt.alloc(), StandardOutput { rt })?);
    changes.write(&mut out)?;
    io::Write::flush(&mut out)?;
    Ok(())
}

/// Returns the status for what was written, and prints why it was not, if so.
fn status_of(rt: &HostRuntime, written: Result<(), StacksError>) -> Result<u8>
    ensures { IfOk result (λ status. status ≡ status_after stacks_status written) }
{
    match written {
        Ok(()) => Ok(0),
        Err(error) => refuse_by(rt, error),
    }
}

/// Prints what is left of a report of a core file or a minidump, and then what was missing. Returns the status.
pub fn print_end<W: Write>(
    rt: &HostRuntime,
    path: &str,
    out: &mut Output<W>,
    said: &[u8],
    written: Result<(), DumpStacksError>,
) -> Result<u8>
    ensures { IfOk result (λ status. MatchResult written (λ done. (status ≡ 0) ⊎ (status ≡ 1)) (λ error. status ≡ dump_status error)) }
{
    let flushed = io::Write::flush(out);
    Messages { rt }.write_all(said)?;
    match (written, flushed) {
        (Ok(()), Err(error)) => status_of_dump(rt, path, Err(error.into())),
        (written, _) => status_of_dump(rt, path, written),
    }
}

/// Returns the status for what was written of a core file or a minidump, and prints why it was refused, if it was.
pub fn status_of_dump(
    rt: &HostRuntime,
    path: &str,
    written: Result<(), DumpStacksError>,
) -> Result<u8>
    ensures { IfOk result (λ status. status ≡ status_after dump_status written) }
{
    match written {
        Ok(()) => Ok(0),
        Err(error) => refuse_file_by(rt, path, error),
    }
}
