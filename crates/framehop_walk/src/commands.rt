//! Commands read from JSON.
ghost use Rattle.std.specs.Prelude.{◌≡◌, ◌≢◌, ◌^◌, Err, [], codes};
ghost use Rattle.serde_json.specs.View.{view, items_view};
ghost use Rattle.framehop_core.specs.CodeAddress.{location_of};
ghost use Rattle.framehop_walk.specs.Refusals.{told, reading_of, Reads};
ghost use Rattle.framehop_walk.specs.Fields.{each, field_below};
ghost use Rattle.framehop_walk.specs.Commands.{Says, IsModule, stack_view, read_command as command_read, read_add as add_read, read_module as module_read, read_step as step_read, read_walk as walk_read, read_location, read_memory as memory_read, read_word};

use crate::fields::{count, group, hexadecimal, hexadecimal_value, list, number, text};
use crate::refusal::Refusal;
use crate::registers::Registers;
use crate::sections::read_sections;
use framehop::FrameAddress;
use framehop::session::{Command, Memory};
use framehop::unwinder::Module;
use serde_json::Value;
use std::alloc::Global;

/// Reads one command. `verb` is its field `do`.
#[tactic(auto, unfolding(crate::specs::Commands::read_command))]
pub fn read_command<A: Registers>(
    alloc: Global,
    verb: &str,
    command: &Value,
) -> Result<Command<Vec<u8>, A::UnwindRegs>, Refusal>
    ensures { Reads Says (command_read A.reading verb.now (view command.now)) result }
{
    match verb {
        "new" => Ok(Command::New),
        "clone" => Ok(Command::Clone {
            unwinder: number(command, "unwinder")?,
        }),
        "add" => read_add::<A>(alloc, command),
        "remove" => Ok(Command::Remove {
            unwinder: number(command, "unwinder")?,
            start: hexadecimal(command, "start")?,
        }),
        "step" => read_step::<A>(alloc, command),
        "walk" => read_walk::<A>(alloc, command),
        "stats" => Ok(Command::Stats {
            cache: number(command, "cache")?,
        }),
        _ => Err(Refusal::BadField("do")),
    }
}

#[tactic(auto, unfolding(crate::specs::Commands::read_add))]
fn read_add<A: Registers>(
    alloc: Global,
    command: &Value,
) -> Result<Command<Vec<u8>, A::UnwindRegs>, Refusal>
    ensures { Reads Says (add_read A.reading (view command.now)) result }
{
    let unwinder = number(command, "unwinder")?;
    let module = read_module(alloc, command)?;
    Ok(Command::Add { unwinder, module })
}

#[tactic(auto, unfolding(crate::specs::Commands::read_module))]
fn read_module(alloc: Global, command: &Value) -> Result<Module<Vec<u8>>, Refusal>
    ensures { Reads IsModule (module_read (view command.now)) result }
{
    let label = text(command, "name")?;
    let name = String::from_str(alloc, label)?;
    let start = hexadecimal(command, "start")?;
    let end = hexadecimal(command, "end")?;
    let base = hexadecimal(command, "base")?;
    let sections = read_sections(alloc, command)?;
    match Module::new(alloc, name, start..end, base, sections) {
        Ok(module) => Ok(module),
        Err(_) => Err(Refusal::OutOfMemory),
    }
}

#[tactic(auto, unfolding(crate::specs::Commands::read_step))]
fn read_step<A: Registers>(
    alloc: Global,
    command: &Value,
) -> Result<Command<Vec<u8>, A::UnwindRegs>, Refusal>
    ensures { Reads Says (step_read A.reading (view command.now)) result }
{
    let unwinder = number(command, "unwinder")?;
    let cache = number(command, "cache")?;
    let address = read_frame_address(command)?;
    let regs = A::read(group(command, "regs")?)?;
    let memory = read_memory(alloc, command)?;
    Ok(Command::Step {
        unwinder,
        cache,
        address,
        regs,
        memory,
    })
}

/// Reads the fields `kind` and `address` of a command.
#[tactic(auto, unfolding(crate::specs::Commands::read_location))]
fn read_frame_address(command: &Value) -> Result<FrameAddress, Refusal>
    ensures { reading_of location_of result ≡ read_location (view command.now) }
{
    let kind = text(command, "kind")?;
    let is_return_address = match kind {
        "ip" => false,
        "ra" => true,
        _ => return Err(Refusal::BadField("kind")),
    };
    let address = hexadecimal(command, "address")?;
    if is_return_address {
        FrameAddress::from_return_address(address).ok_or(Refusal::BadField("address"))
    } else {
        Ok(FrameAddress::from_instruction_pointer(address))
    }
}

#[tactic(auto, unfolding(crate::specs::Commands::read_walk))]
fn read_walk<A: Registers>(
    alloc: Global,
    command: &Value,
) -> Result<Command<Vec<u8>, A::UnwindRegs>, Refusal>
    ensures { Reads Says (walk_read A.reading (view command.now)) result }
{
    let unwinder = number(command, "unwinder")?;
    let cache = number(command, "cache")?;
    let pc = hexadecimal(command, "pc")?;
    let regs = A::read(group(command, "regs")?)?;
    let memory = read_memory(alloc, command)?;
    let limit = read_limit(command)?;
    Ok(Command::Walk {
        unwinder,
        cache,
        pc,
        regs,
        memory,
        limit,
    })
}

/// Reads the field `limit` of a command.
#[tactic(auto, unfolding(crate::specs::Fields::field_below))]
fn read_limit(command: &Value) -> Result<u32, Refusal>
    ensures { told result ≡ field_below (2 ^ 32) (codes "limit") (view command.now) }
{
    match u32::try_from(count(command, "limit")?) {
        Ok(limit) => Ok(limit),
        Err(_) => Err(Refusal::BadField("limit")),
    }
}

/// Reads the field `memory` of a command.
#[tactic(auto, unfolding(crate::specs::Commands::read_memory))]
fn read_memory(alloc: Global, command: &Value) -> Result<Memory, Refusal>
    ensures { result ≢ Err Refusal.OutOfMemory → reading_of stack_view result ≡ memory_read (view command.now) }
{
    let memory = group(command, "memory")?;
    let base = hexadecimal(memory, "base")?;
    let words = read_words(alloc, list(memory, "words")?)?;
    Ok(Memory { base, words })
}

fn read_words(alloc: Global, items: &Vec<Value>) -> Result<Vec<u64>, Refusal>
    ensures { result ≢ Err Refusal.OutOfMemory
        → reading_of (λ words. words.items) result ≡ each read_word [] (items_view items.now.items) }
{
    let mut words = Vec::with_capacity(alloc, items.len())?;
    for item in items {
        let Some(word) = hexadecimal_value(item) else {
            return Err(Refusal::BadField("words"));
        };
        words.push(word)?;
    }
    Ok(words)
}
