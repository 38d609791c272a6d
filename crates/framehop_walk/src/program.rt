//! The whole run of the program, over a reader and two writers.
ghost use Rattle.std.specs.Prelude.{◌≡◌, ◌≢◌, ◌≤◌, ◌^◌, ◌||◌, is_err, IfOk, IfErr, OnOk, OnErr, IfSome, MatchResult, [], true, false, Ok, Err, map, codes, string_bytes};
ghost use Rattle.std.specs.Io.KnownBytes.{Keeps, Appends};
ghost use Rattle.serde_json.specs.View.{view, items_view};
ghost use Rattle.framehop.specs.CachedWorld.{cached_replies, empty_cached_world};
ghost use Rattle.framehop.specs.SessionView.{reply_view};
ghost use Rattle.framehop_walk.specs.Refusals.{told, reading_of, refusal_status, refusal_text, refusal_line};
ghost use Rattle.framehop_walk.specs.Fields.{each, field_below};
ghost use Rattle.framehop_walk.specs.Program.{lines_of, printed, read_next, AreRead};
ghost use Rattle.framehop_walk.specs.Answers.{architecture, policy_of, read_arch as arch_read, read_policy as policy_read, AnswersUnder, AnswersOn, AnswersValue, Answers, IsJson, IsNoJson, IsOfInput, IsOfRun, IsPrinted};
ghost use Rattle.framehop_walk.specs.Runs.{IsRun};
ghost use Rattle.framehop_walk.specs.Streams.{outputs};
ghost use Rattle.framehop_walk.specs.Numbers.{has_bad_number as has_bad};
ghost use Rattle.framehop_walk.specs.Reading.{IsAccepted};

use crate::commands::read_command;
use crate::fields::{count, has_bad_number, list, text};
use crate::input::Input;
use crate::refusal::Refusal;
use crate::registers::Registers;
use crate::replies::print_reply;
use crate::sharing::{replies_told, share_clones};
use framehop::aarch64::ArchAarch64;
use framehop::session::{Command, Reply, run};
use framehop::x86_64::ArchX86_64;
use framehop::{
    AllocationPolicy, Generations, MayAllocateDuringUnwind, MustNotAllocateDuringUnwind,
};
use framehop_output::Output;
use serde_json::Value;
use std::alloc::{AllocError, Global};
use std::io;
use std::io::{Read, Write};

/// The architecture that the input names.
#[derive(Clone, Copy)]
pub enum Arch {
    Aarch64,
    X86_64,
}

/// The allocation policy that the input names.
#[derive(Clone, Copy)]
pub(crate) enum PolicyName {
    May,
    Must,
}

/// Reads commands, carries them out and writes the replies to `out`, or one line that says why
/// the run was refused to `err`. The answer is the exit status: 0, or that of the refusal. Nothing
/// is written to `out` by a run that is refused, unless a write to it fails.
///
/// What was read is kept with the input, and is freed when that is dropped.
pub fn walk_program<R: Read, W: Write, E: Write>(
    alloc: Global,
    input: &mut Input<R>,
    out: &mut Output<W>,
    err: &mut Output<E>,
) -> u8
    ensures run { IsRun result input.old input.new (outputs out.old err.old) (outputs out.new err.new) }
    ensures status { result ≤ 2 }
{
    match print_answer(alloc, input, out) {
        Ok(()) => 0,
        Err(refusal) => refuse(err, refusal),
    }
}

/// Writes the line of a refusal, and returns its exit status.
pub fn refuse<E: Write>(err: &mut Output<E>, refusal: Refusal) -> u8
    ensures status { result ≡ refusal_status refusal }
    ensures told { err.new.has_failed ≡ false → Appends err.old.bytes err.new.bytes (refusal_line refusal) }
{
    let _written = write_line(err, refusal);
    refusal.status()
}

#[tactic(auto, unfolding(crate::specs::Refusals::refusal_line))]
fn write_line<E: Write>(err: &mut Output<E>, refusal: Refusal) -> io::Result<()>
    ensures written { OnOk result (Appends err.old.bytes err.new.bytes (refusal_line refusal)) }
    ensures noted { err.new.has_failed ≡ (err.old.has_failed || is_err result) }
{
    let (text, field) = refusal.text();
    err.write_all(b"framehop-walk: ")?;
    err.write_all(text.as_bytes())?;
    err.write_all(field.as_bytes())?;
    err.write_all(b"\n")
}

/// Writes the replies to the input to `out`.
fn print_answer<R: Read, W: Write>(
    alloc: Global,
    input: &mut Input<R>,
    out: &mut Output<W>,
) -> Result<(), Refusal>
    ensures read { OnOk result (IfSome input.old.remaining IsAccepted) }
    ensures printed { OnOk result (IfSome input.old.remaining
        (IsPrinted out.old.bytes out.new.bytes)) }
    ensures flushed { OnOk result (out.new.is_flushed ≡ true) }
    ensures noted { OnOk result (out.new.has_failed ≡ out.old.has_failed) }
    ensures told { IfErr result (λ refusal. refusal ≢ Refusal.OutOfMemory
        → IsOfRun input.new.has_failed out.new.has_failed input.old.remaining refusal) }
    ensures refused { OnErr result (out.new.has_failed ≡ false
        → Keeps out.old.bytes out.new.bytes) }
{
    let text = replies_to_input(alloc, input)?;
    match write_whole(out, text.as_bytes()) {
        Ok(()) => Ok(()),
        Err(_) => Err(Refusal::CannotWriteOutput),
    }
}

/// Writes a text to `out`, and flushes it.
pub fn write_whole<W: Write>(out: &mut Output<W>, text: &[u8]) -> io::Result<()>
    ensures failed { IfErr result (λ _. out.new.has_failed ≡ true) }
    ensures noted { OnOk result (out.new.has_failed ≡ out.old.has_failed) }
    ensures written { OnOk result (Appends out.old.bytes out.new.bytes text.now) }
    ensures flushed { OnOk result (out.new.is_flushed ≡ true) }
{
    out.write_all(text)?;
    out.flush()
}

// all replies to the input, as text
fn replies_to_input<R: Read>(alloc: Global, input: &mut Input<R>) -> Result<String, Refusal>
    ensures read { OnOk result (IfSome input.old.remaining IsAccepted) }
    ensures answers { IfOk result (λ text. IfSome input.old.remaining
        (λ bytes. Answers bytes (Ok (string_bytes text)))) }
    ensures refused { IfErr result (λ refusal. refusal ≢ Refusal.OutOfMemory
        → IsOfInput input.new.has_failed input.old.remaining refusal) }
{
    let value = read_value(alloc, input)?;
    let replies = replies_to_value(alloc, &value);
    input.keep(value);
    replies
}

fn read_value<R: Read>(alloc: Global, input: &mut Input<R>) -> Result<Value, Refusal>
    ensures reading { IfOk result (λ value.
        IfSome input.old.remaining (λ bytes. IsJson bytes (view value))) }
    ensures refused { IfErr result (λ refusal. refusal ≢ Refusal.OutOfMemory
        → IsOfInput input.new.has_failed input.old.remaining refusal) }
{
    let bytes = input.read_all(alloc)?;
    parse(alloc, bytes.as_slice())
}

fn parse(alloc: Global, text: &[u8]) -> Result<Value, Refusal>
    ensures reading { IfOk result (λ value. IsJson text.now (view value)) }
    ensures refused { IfErr result (λ refusal. refusal ≢ Refusal.OutOfMemory
        → (refusal ≡ Refusal.NotJson) × IsNoJson text.now) }
{
    match Value::from_slice(alloc, text) {
        Ok(value) => Ok(value),
        Err(error) => Err(if error.is_memory() {
            Refusal::OutOfMemory
        } else {
            Refusal::NotJson
        }),
    }
}

/// Carries out the commands of a JSON value, and returns the lines of the replies.
///
/// # Errors
///
/// The first refusal: of a number, of a field, or of a command.
pub fn replies_to_value(alloc: Global, value: &Value) -> Result<String, Refusal>
    ensures whole { OnOk result (has_bad (view value.now) ≡ false) }
    ensures answers { result ≢ Err Refusal.OutOfMemory
        → AnswersValue (view value.now) (reading_of (λ text. string_bytes text) result) }
{
    if has_bad_number(value) {
        return Err(Refusal::BadNumber);
    }
    match read_arch(value)? {
        Arch::Aarch64 => replies_on::<ArchAarch64>(alloc, value),
        Arch::X86_64 => replies_on::<ArchX86_64>(alloc, value),
    }
}

/// Reads the field `arch`.
#[tactic(auto, unfolding(crate::specs::Answers::read_arch))]
fn read_arch(value: &Value) -> Result<Arch, Refusal>
    ensures { told result ≡ arch_read (view value.now) }
{
    match text(value, "arch")? {
        "aarch64" => Ok(Arch::Aarch64),
        "x86_64" => Ok(Arch::X86_64),
        _ => Err(Refusal::BadField("arch")),
    }
}

fn replies_on<A: Registers>(alloc: Global, value: &Value) -> Result<String, Refusal>
    ensures { result ≢ Err Refusal.OutOfMemory
        → AnswersOn (architecture A.reading A.text A.unwinding) (view value.now)
        (reading_of (λ text. string_bytes text) result) }
{
    match read_policy(value)? {
        PolicyName::May => replies_under::<A, MayAllocateDuringUnwind>(alloc, value),
        PolicyName::Must => replies_under::<A, MustNotAllocateDuringUnwind>(alloc, value),
    }
}

/// Reads the field `policy`.
#[tactic(auto, unfolding(crate::specs::Answers::read_policy))]
fn read_policy(value: &Value) -> Result<PolicyName, Refusal>
    ensures { reading_of policy_of result ≡ policy_read (view value.now) }
{
    match text(value, "policy")? {
        "may" => Ok(PolicyName::May),
        "must" => Ok(PolicyName::Must),
        _ => Err(Refusal::BadField("policy")),
    }
}

fn replies_under<A: Registers, P: AllocationPolicy>(
    alloc: Global,
    value: &Value,
) -> Result<String, Refusal>
    ensures { result ≢ Err Refusal.OutOfMemory
        → AnswersUnder (architecture A.reading A.text A.unwinding) P.policy (view value.now)
        (reading_of (λ text. string_bytes text) result) }
{
    let cache_count = read_caches(value)?;
    let (verbs, commands) = read_commands::<A>(alloc, list(value, "commands")?)?;
    run_commands::<A, P>(alloc, &verbs, commands, usize::from(cache_count))
}

/// Reads the field `caches`.
#[tactic(auto, unfolding(crate::specs::Fields::field_below))]
fn read_caches(value: &Value) -> Result<u16, Refusal>
    ensures { told result ≡ field_below (2 ^ 16) (codes "caches") (view value.now) }
{
    match u16::try_from(count(value, "caches")?) {
        Ok(cache_count) => Ok(cache_count),
        Err(_) => Err(Refusal::BadField("caches")),
    }
}

/// Reads the commands, and returns them with their fields `do`.
fn read_commands<'v, A: Registers>(
    alloc: Global,
    items: &'v Vec<Value>,
) -> Result<(Vec<&'v str>, Vec<Command<Vec<u8>, A::UnwindRegs>>), Refusal>
    ensures { MatchResult result
        (λ read. AreRead A.reading (items_view items.entry.now.items)
        (map (λ verb. verb.now) read.0.items) read.1.items)
        (λ refusal. refusal ≢ Refusal.OutOfMemory
        → each (read_next A.reading) [] (items_view items.entry.now.items) ≡ Err (refusal_text refusal)) }
{
    let mut verbs = Vec::new(alloc);
    let mut commands = Vec::new(alloc);
    for command in items {
        let verb = text(command, "do")?;
        commands.push(read_command::<A>(alloc, verb, command)?)?;
        verbs.push(verb)?;
    }
    Ok((verbs, commands))
}

/// Carries out the commands over so many caches, and returns the lines of their replies.
fn run_commands<A: Registers, P: AllocationPolicy>(
    alloc: Global,
    verbs: &Vec<&str>,
    commands: Vec<Command<Vec<u8>, A::UnwindRegs>>,
    cache_count: usize,
) -> Result<String, Refusal>
    ensures { result ≢ Err Refusal.OutOfMemory → reading_of (λ text. string_bytes text) result
        ≡ printed A.text (map (λ verb. verb.now) verbs.now.items)
        (cached_replies (A.unwinding P.policy) (empty_cached_world cache_count 0) commands.items) }
{
    let shared = share_clones::<A, P>(alloc, commands)?;
    let mut generations = Generations::new();
    let replies = run::<Vec<u8>, A, P>(alloc, shared.commands, cache_count, &mut generations)?;
    let told = replies_told(alloc, shared.told, replies)?;
    Ok(print_replies::<A>(alloc, verbs, &told)?)
}

/// Returns the lines of the replies to commands of these verbs.
fn print_replies<A: Registers>(
    alloc: Global,
    verbs: &Vec<&str>,
    replies: &Vec<Reply<A::UnwindRegs>>,
) -> Result<String, AllocError>
    ensures { IfOk result (λ text. string_bytes text
        ≡ lines_of A.text (map (λ verb. verb.now) verbs.now.items) (map reply_view replies.now.items)) }
{
    let mut out = String::new(alloc);
    for (i, reply) in replies.iter().enumerate() {
        if let Some(verb) = verbs.get(i) {
            print_reply::<A>(*verb, reply, &mut out)?;
        }
    }
    Ok(out)
}
