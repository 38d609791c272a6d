//! The stacks of minidumps.
use crate::form::Form;
use crate::output::print_end;
use crate::request::Request;
use crate::sources::Sources;
use framehop_cli::{Result, StandardOutput};
use framehop_dump_stacks::error::DumpStacksError;
use framehop_dump_stacks::json_report::Json;
use framehop_dump_stacks::program::write_minidump_stacks;
use framehop_dump_stacks::text::Text;
use framehop_output::Output;
use framehop_perf_stacks::run::Options;
use std::io::{BufWriter, Write};

/// Prints the stacks of the threads of a minidump, by its bytes.
pub fn print_minidump(request: Request<'_, '_>, path: &str, bytes: &[u8]) -> Result<u8> {
    let rt = request.rt;
    let alloc = rt.alloc();
    let mut out = Output::new(BufWriter::new(alloc, StandardOutput { rt })?);
    let mut said = Output::new(Vec::new(alloc));
    let written = write_minidump(request, bytes, &mut out, &mut said);
    let said = said.into_inner();
    print_end(rt, path, &mut out, said.as_slice(), written)
}

/// Writes what is asked for of a minidump, by its bytes, and then what was missing.
fn write_minidump<W: Write, E: Write>(
    request: Request<'_, '_>,
    bytes: &[u8],
    out: &mut Output<W>,
    said: &mut Output<E>,
) -> Result<(), DumpStacksError> {
    let (alloc, sources) = (request.rt.alloc(), request.sources);
    let Options { limit, explain, .. } = request.options;
    match request.form {
        Form::Json => {
            let json: Json<'_, Sources<'_, '_>> = Json { paths: sources };
            write_minidump_stacks(alloc, bytes, sources, limit, &json, out, said)
        }
        _ => write_minidump_stacks(alloc, bytes, sources, limit, &Text { explain }, out, said),
    }
}
