//! The fields of the input, each tested for what it must be, in the order in which `framehop-walk` reads them.
ghost use Rattle.std.specs.Prelude.{◌≡◌, ◌≤◌, IfOk, codes};
ghost use Rattle.std.specs.Char.{is_ascii_hexdigit};
ghost use Rattle.std.specs.List.{list_all};
ghost use Rattle.serde_json.specs.View.{view, items_view};
ghost use Rattle.framehop_walk.specs.Sections.{two_addresses};
ghost use Rattle.framehop_explain_cli.specs.Faults.{found, tested, find_text, find_items, find_object, find_number, find_address, find_word, unless, digits_cause, kind_cause, right_unless, test_field, test_optional, test_below, test_list, test_items, test_word, test_words, test_memory, test_aarch64, test_named, test_numbered, test_x86_64, test_registers_of, test_registers, test_place, test_add, test_remove, test_location, test_step, test_walk, test_verb, test_command, test_numbered_command, find_arch, test_commands, test_input, test_session, unwinders_after, test_numbers_of, test_numbers, test_unwinder, test_cache, names_unwinder as does_name_unwinder, names_cache as does_name_cache, made_by_verb as made_by_this, made_by};

use crate::fault::{Cause, Fault};
use crate::sections::check_sections;
use framehop_walk::fields::hexadecimal_value;
use serde_json::Value;
use std::alloc::{AllocError, Global};

/// What kind of value a field has.
#[derive(Clone, Copy)]
pub enum Kind {
    /// A text.
    Text,
    /// A whole number of 64 bits.
    Number,
    /// A text of 1 to 16 hexadecimal digits.
    Address,
    /// A list of a start and an end.
    Range,
    /// A text of pairs of hexadecimal digits.
    Bytes,
}

/// Whether fields are as they must be, or that an allocation failed.
pub type Checked = Result<Result<(), Fault>, AllocError>;

/// Tests the fields of an input.
#[tactic(auto, unfolding(crate::specs::Faults::test_input))]
pub(crate) fn check_input(alloc: Global, value: &Value) -> Checked
    ensures { IfOk result (λ checked. tested checked ≡ test_input (view value.now)) }
{
    match arch_of(value) {
        Ok(arch) => check_commands(alloc, arch, value),
        Err(fault) => Ok(Err(fault)),
    }
}

/// Tests the fields of the whole input, but not its commands, and returns the architecture.
#[tactic(auto, unfolding(crate::specs::Faults::find_arch))]
fn arch_of(value: &Value) -> Result<&str, Fault>
    ensures { found (λ arch. arch.now) result ≡ find_arch (view value.entry.now) }
{
    let arch = word_of(value, "arch", "aarch64", "x86_64")?;
    let _policy = word_of(value, "policy", "may", "must")?;
    check_below(value, "caches", 1 << 16)?;
    Ok(arch)
}

/// Tests the commands of an input.
#[tactic(auto, unfolding(crate::specs::Faults::test_commands))]
fn check_commands(alloc: Global, arch: &str, value: &Value) -> Checked
    ensures { IfOk result (λ checked. tested checked ≡ test_commands arch.now (view value.now)) }
{
    match items_of(value, "commands") {
        Ok(commands) => check_each_command(alloc, arch, commands),
        Err(fault) => Ok(Err(fault)),
    }
}

/// Tests the fields of each command.
fn check_each_command(alloc: Global, arch: &str, commands: &[Value]) -> Checked
    ensures { IfOk result (λ checked. tested checked
        ≡ test_list (test_numbered_command arch.now) (items_view commands.now)) }
{
    for (i, command) in commands.iter().enumerate() {
        match check_command(alloc, arch, command)? {
            Ok(()) => {}
            Err(fault) => return Ok(Err(fault.in_command(i))),
        }
    }
    Ok(Ok(()))
}

/// Tests the fields of a command.
#[tactic(auto, unfolding(crate::specs::Faults::test_command))]
fn check_command(alloc: Global, arch: &str, command: &Value) -> Checked
    ensures { IfOk result (λ checked. tested checked ≡ test_command arch.now (view command.now)) }
{
    match text_of(command, "do") {
        Ok(verb) => check_verb(alloc, arch, verb, command),
        Err(fault) => Ok(Err(fault)),
    }
}

/// Tests the fields of a command of this verb.
#[tactic(auto, unfolding(crate::specs::Faults::test_verb))]
fn check_verb(alloc: Global, arch: &str, verb: &str, command: &Value) -> Checked
    ensures { IfOk result (λ checked. tested checked ≡ test_verb arch.now verb.now (view command.now)) }
{
    match verb {
        "new" => Ok(Ok(())),
        "clone" => Ok(check(command, "unwinder", Kind::Number)),
        "add" => check_add(alloc, command),
        "remove" => Ok(check_remove(command)),
        "step" => Ok(check_step(arch, command)),
        "walk" => Ok(check_walk(arch, command)),
        "stats" => Ok(check(command, "cache", Kind::Number)),
        _ => Ok(Err(Fault::of("do", Cause::Unknown))),
    }
}

/// Tests the fields of an `add`.
#[tactic(auto, unfolding(crate::specs::Faults::test_add))]
fn check_add(alloc: Global, command: &Value) -> Checked
    ensures { IfOk result (λ checked. tested checked ≡ test_add (view command.now)) }
{
    if let Err(fault) = check_place(command) {
        return Ok(Err(fault));
    }
    if let Err(fault) = check_sections(alloc, command, "sections")? {
        return Ok(Err(fault));
    }
    check_sections(alloc, command, "segments")
}

#[tactic(auto, unfolding(crate::specs::Faults::test_place))]
fn check_place(command: &Value) -> Result<(), Fault>
    ensures { tested result ≡ test_place (view command.now) }
{
    check(command, "unwinder", Kind::Number)?;
    check(command, "name", Kind::Text)?;
    check(command, "start", Kind::Address)?;
    check(command, "end", Kind::Address)?;
    check(command, "base", Kind::Address)?;
    check(command, "base_svma", Kind::Address)
}

#[tactic(auto, unfolding(crate::specs::Faults::test_remove))]
fn check_remove(command: &Value) -> Result<(), Fault>
    ensures { tested result ≡ test_remove (view command.now) }
{
    check(command, "unwinder", Kind::Number)?;
    check(command, "start", Kind::Address)
}

#[tactic(auto, unfolding(crate::specs::Faults::test_step))]
fn check_step(arch: &str, command: &Value) -> Result<(), Fault>
    ensures { tested result ≡ test_step arch.now (view command.now) }
{
    check(command, "unwinder", Kind::Number)?;
    check(command, "cache", Kind::Number)?;
    check_frame_address(command)?;
    check_registers(arch, command)?;
    check_memory(command)
}

/// Tests the address of a step.
#[tactic(auto, unfolding(crate::specs::Faults::test_location))]
fn check_frame_address(command: &Value) -> Result<(), Fault>
    ensures { tested result ≡ test_location (view command.now) }
{
    let kind = word_of(command, "kind", "ip", "ra")?;
    let address = address_of(command, "address")?;
    if address == 0 && kind == "ra" {
        return Err(Fault::of("address", Cause::NullReturnAddress));
    }
    Ok(())
}

/// Returns a field that is one of two words.
#[tactic(auto, unfolding(crate::specs::Faults::find_word))]
fn word_of<'v>(
    object: &'v Value,
    field: &'static str,
    first: &str,
    second: &str,
) -> Result<&'v str, Fault>
    ensures { found (λ text. text.now) result
        ≡ find_word field.entry.now first.now second.now (view object.entry.now) }
{
    let text = text_of(object, field)?;
    if text == first || text == second {
        return Ok(text);
    }
    Err(Fault::of(field, Cause::Unknown))
}

#[tactic(auto, unfolding(crate::specs::Faults::test_walk))]
fn check_walk(arch: &str, command: &Value) -> Result<(), Fault>
    ensures { tested result ≡ test_walk arch.now (view command.now) }
{
    check(command, "unwinder", Kind::Number)?;
    check(command, "cache", Kind::Number)?;
    check(command, "pc", Kind::Address)?;
    check_registers(arch, command)?;
    check_memory(command)?;
    check_below(command, "limit", 1 << 32)
}

/// Tests the field `regs` of a command.
#[tactic(auto, unfolding(crate::specs::Faults::test_registers))]
fn check_registers(arch: &str, command: &Value) -> Result<(), Fault>
    ensures { tested result ≡ test_registers arch.now (view command.now) }
{
    let registers = object_of(command, "regs")?;
    match check_registers_of(arch, registers) {
        Ok(()) => Ok(()),
        Err(fault) => Err(fault.below("regs", None)),
    }
}

/// Tests the registers of an architecture.
fn check_registers_of(arch: &str, registers: &Value) -> Result<(), Fault>
    ensures { tested result ≡ test_registers_of arch.now (view registers.now) }
{
    if arch == "aarch64" {
        check_registers_aarch64(registers)
    } else {
        check_registers_x86_64(registers)
    }
}

/// Tests the registers of aarch64.
#[tactic(auto, unfolding(crate::specs::Faults::test_aarch64))]
fn check_registers_aarch64(registers: &Value) -> Result<(), Fault>
    ensures { tested result ≡ test_aarch64 (view registers.now) }
{
    check(registers, "lr", Kind::Address)?;
    check(registers, "sp", Kind::Address)?;
    check(registers, "fp", Kind::Address)?;
    check_optional(registers, "mask", Kind::Address)
}

/// Tests the registers of x86_64.
#[tactic(auto, unfolding(crate::specs::Faults::test_x86_64))]
fn check_registers_x86_64(registers: &Value) -> Result<(), Fault>
    ensures { tested result ≡ test_x86_64 (view registers.now) }
{
    check(registers, "ip", Kind::Address)?;
    check(registers, "sp", Kind::Address)?;
    check(registers, "bp", Kind::Address)?;
    check_named_registers(registers)?;
    check_numbered_registers(registers)
}

/// Tests the registers that have names, each of which may be left out.
#[tactic(auto, unfolding(crate::specs::Faults::test_named))]
fn check_named_registers(registers: &Value) -> Result<(), Fault>
    ensures { tested result ≡ test_named (view registers.now) }
{
    check_optional(registers, "rax", Kind::Address)?;
    check_optional(registers, "rbx", Kind::Address)?;
    check_optional(registers, "rcx", Kind::Address)?;
    check_optional(registers, "rdx", Kind::Address)?;
    check_optional(registers, "rsi", Kind::Address)?;
    check_optional(registers, "rdi", Kind::Address)
}

/// Tests the registers that have numbers, each of which may be left out.
#[tactic(auto, unfolding(crate::specs::Faults::test_numbered))]
fn check_numbered_registers(registers: &Value) -> Result<(), Fault>
    ensures { tested result ≡ test_numbered (view registers.now) }
{
    check_optional(registers, "r8", Kind::Address)?;
    check_optional(registers, "r9", Kind::Address)?;
    check_optional(registers, "r10", Kind::Address)?;
    check_optional(registers, "r11", Kind::Address)?;
    check_optional(registers, "r12", Kind::Address)?;
    check_optional(registers, "r13", Kind::Address)?;
    check_optional(registers, "r14", Kind::Address)?;
    check_optional(registers, "r15", Kind::Address)
}

/// Tests a field that may be left out.
#[tactic(auto, unfolding(crate::specs::Faults::test_optional))]
pub(crate) fn check_optional(object: &Value, field: &'static str, kind: Kind) -> Result<(), Fault>
    ensures { tested result ≡ test_optional kind field.entry.now (view object.now) }
{
    match object.get(field) {
        Some(value) => check_value(field, kind, value),
        None => Ok(()),
    }
}

/// Tests the field `memory` of a command.
#[tactic(auto, unfolding(crate::specs::Faults::test_memory))]
fn check_memory(command: &Value) -> Result<(), Fault>
    ensures { tested result ≡ test_memory (view command.now) }
{
    let memory = object_of(command, "memory")?;
    match check_words_of(memory) {
        Ok(()) => Ok(()),
        Err(fault) => Err(fault.below("memory", None)),
    }
}

/// Tests the fields of the stack words of a command.
#[tactic(auto, unfolding(crate::specs::Faults::test_words))]
fn check_words_of(memory: &Value) -> Result<(), Fault>
    ensures { tested result ≡ test_words (view memory.now) }
{
    check(memory, "base", Kind::Address)?;
    check_each_word(items_of(memory, "words")?)
}

/// Tests stack words.
fn check_each_word(words: &[Value]) -> Result<(), Fault>
    ensures { tested result ≡ test_list test_word (items_view words.now) }
{
    for (i, word) in words.iter().enumerate() {
        let Some(_word) = hexadecimal_value(word) else {
            return Err(Fault::of_item("words", i, Cause::NoAddress));
        };
    }
    Ok(())
}

/// Tests a field.
#[tactic(auto, unfolding(crate::specs::Faults::test_field))]
pub fn check(object: &Value, field: &'static str, kind: Kind) -> Result<(), Fault>
    ensures { tested result ≡ test_field kind field.entry.now (view object.now) }
{
    match object.get(field) {
        Some(value) => check_value(field, kind, value),
        None => Err(Fault::of(field, Cause::Missing)),
    }
}

fn check_value(field: &'static str, kind: Kind, value: &Value) -> Result<(), Fault>
    ensures { tested result ≡ right_unless field.entry.now (kind_cause kind (view value.now)) }
{
    match cause_of(kind, value) {
        Some(cause) => Err(Fault::of(field, cause)),
        None => Ok(()),
    }
}

/// Returns what is wrong with a value that should be of a kind.
#[tactic(auto, unfolding(framehop_walk::specs::Sections::range))]
fn cause_of(kind: Kind, value: &Value) -> Option<Cause>
    ensures { result ≡ kind_cause kind (view value.now) }
{
    match kind {
        Kind::Text => match value.as_str() {
            Some(_) => None,
            None => Some(Cause::NoText),
        },
        Kind::Number => match value.as_u64() {
            Some(_) => None,
            None => Some(Cause::NoNumber),
        },
        Kind::Address => match hexadecimal_value(value) {
            Some(_) => None,
            None => Some(Cause::NoAddress),
        },
        Kind::Range => match value.as_array() {
            Some(items) => cause_of_range(items),
            None => Some(Cause::NoRange),
        },
        Kind::Bytes => match value.as_str() {
            Some(digits) => cause_of_digits(digits.as_bytes()),
            None => Some(Cause::NoText),
        },
    }
}

/// Returns what is wrong with a list that should be a start and an end.
fn cause_of_range(items: &Vec<Value>) -> Option<Cause>
    ensures { result ≡ unless Cause.NoRange (two_addresses (items_view items.now.items)) }
{
    if items.len() != 2 {
        return Some(Cause::NoRange);
    }
    if hexadecimal_value(&items[0]).is_none() || hexadecimal_value(&items[1]).is_none() {
        return Some(Cause::NoRange);
    }
    None
}

/// Returns what is wrong with a text that should be pairs of hexadecimal digits.
fn cause_of_digits(digits: &[u8]) -> Option<Cause>
    ensures { result ≡ digits_cause digits.now }
{
    if !are_digits(digits) {
        return Some(Cause::NoDigits);
    }
    if digits.len() % 2 == 0 {
        None
    } else {
        Some(Cause::OddDigits)
    }
}

/// Returns whether a text has hexadecimal digits only.
fn are_digits(digits: &[u8]) -> bool
    ensures { result ≡ list_all is_ascii_hexdigit digits.now }
{
    digits.iter().all(|digit| digit.is_ascii_hexdigit())
}

/// Returns a field that is an object.
#[tactic(auto, unfolding(crate::specs::Faults::find_as))]
fn object_of<'v>(object: &'v Value, field: &'static str) -> Result<&'v Value, Fault>
    ensures { found (λ value. view value.now) result ≡ find_object field.entry.now (view object.entry.now) }
{
    let Some(value) = object.get(field) else {
        return Err(Fault::of(field, Cause::Missing));
    };
    if !value.is_object() {
        return Err(Fault::of(field, Cause::NoObject));
    }
    Ok(value)
}

/// Returns a field that is an address.
#[tactic(auto, unfolding(crate::specs::Faults::find_as))]
fn address_of(object: &Value, field: &'static str) -> Result<u64, Fault>
    ensures { found (λ address. address) result ≡ find_address field.entry.now (view object.now) }
{
    let Some(value) = object.get(field) else {
        return Err(Fault::of(field, Cause::Missing));
    };
    match hexadecimal_value(value) {
        Some(address) => Ok(address),
        None => Err(Fault::of(field, Cause::NoAddress)),
    }
}

/// Tests a field that is a whole number below a limit.
#[tactic(auto, unfolding(crate::specs::Faults::test_below))]
fn check_below(object: &Value, field: &'static str, limit: u64) -> Result<(), Fault>
    ensures { tested result ≡ test_below limit field.entry.now (view object.now) }
{
    if number_of(object, field)? < limit {
        return Ok(());
    }
    Err(Fault::of(field, Cause::NotBelow(limit)))
}

/// Tests the unwinders and caches that the commands of an input name: each is there.
#[tactic(auto, unfolding(crate::specs::Faults::test_session))]
pub(crate) fn check_session(value: &Value) -> Result<(), Fault>
    ensures { tested result ≡ test_session (view value.now) }
{
    let caches = number_of(value, "caches")?;
    check_each_number(items_of(value, "commands")?, caches)
}

/// Tests the unwinders and the caches that commands name.
fn check_each_number(commands: &[Value], caches: u64) -> Result<(), Fault>
    ensures { tested result ≡ test_items unwinders_after (test_numbers_of caches) 0 0 (items_view commands.now) }
{
    let mut unwinders: u64 = 0;
    for (i, command) in commands.iter().enumerate() {
        match check_numbers(command, unwinders, caches) {
            Ok(()) => {}
            Err(fault) => return Err(fault.in_command(i)),
        }
        unwinders += unwinders_made(command);
    }
    Ok(())
}

/// Returns the items of a field that is a list.
#[tactic(auto, unfolding(crate::specs::Faults::find_as))]
pub fn items_of<'v>(object: &'v Value, field: &'static str) -> Result<&'v [Value], Fault>
    ensures { found (λ items. items_view items.now) result ≡ find_items field.entry.now (view object.entry.now) }
{
    let Some(value) = object.get(field) else {
        return Err(Fault::of(field, Cause::Missing));
    };
    match value.as_array() {
        Some(items) => Ok(items.as_slice()),
        None => Err(Fault::of(field, Cause::NoList)),
    }
}

/// Tests the unwinder and the cache that a command names, of those that there are.
#[tactic(auto, unfolding(crate::specs::Faults::test_numbers))]
fn check_numbers(command: &Value, unwinders: u64, caches: u64) -> Result<(), Fault>
    ensures { tested result ≡ test_numbers caches unwinders (view command.now) }
{
    let verb = text_of(command, "do")?;
    check_unwinder(command, verb, unwinders)?;
    check_cache(command, verb, caches)
}

/// Tests the unwinder that a command names, if it does.
#[tactic(auto, unfolding(crate::specs::Faults::test_unwinder))]
fn check_unwinder(command: &Value, verb: &str, unwinders: u64) -> Result<(), Fault>
    ensures { tested result ≡ test_unwinder unwinders verb.now (view command.now) }
{
    if !names_unwinder(verb) {
        return Ok(());
    }
    if number_of(command, "unwinder")? < unwinders {
        return Ok(());
    }
    Err(Fault::of("unwinder", Cause::NoUnwinder(unwinders)))
}

/// Tests the cache that a command names, if it does.
#[tactic(auto, unfolding(crate::specs::Faults::test_cache))]
fn check_cache(command: &Value, verb: &str, caches: u64) -> Result<(), Fault>
    ensures { tested result ≡ test_cache caches verb.now (view command.now) }
{
    if !names_cache(verb) {
        return Ok(());
    }
    if number_of(command, "cache")? < caches {
        return Ok(());
    }
    Err(Fault::of("cache", Cause::NoCache(caches)))
}

/// Returns whether a command of this verb names an unwinder.
fn names_unwinder(verb: &str) -> bool
    ensures { result ≡ does_name_unwinder verb.now }
{
    match verb {
        "new" => false,
        "stats" => false,
        _ => true,
    }
}

/// Returns whether a command of this verb names a cache.
fn names_cache(verb: &str) -> bool
    ensures { result ≡ does_name_cache verb.now }
{
    match verb {
        "step" => true,
        "walk" => true,
        "stats" => true,
        _ => false,
    }
}

/// Returns how many unwinders a command makes.
fn unwinders_made(command: &Value) -> u64
    ensures exact { result ≡ made_by (find_text (codes "do") (view command.now)) }
    ensures few { result ≤ 1 }
{
    match text_of(command, "do") {
        Ok(verb) => made_by_verb(verb),
        Err(_) => 0,
    }
}

/// Returns how many unwinders a command of this verb makes.
fn made_by_verb(verb: &str) -> u64
    ensures exact { result ≡ made_by_this verb.now }
    ensures few { result ≤ 1 }
{
    match verb {
        "new" => 1,
        "clone" => 1,
        _ => 0,
    }
}

/// Returns a field that is a text.
#[tactic(auto, unfolding(crate::specs::Faults::find_as))]
pub fn text_of<'v>(object: &'v Value, field: &'static str) -> Result<&'v str, Fault>
    ensures { found (λ text. text.now) result ≡ find_text field.entry.now (view object.entry.now) }
{
    let Some(value) = object.get(field) else {
        return Err(Fault::of(field, Cause::Missing));
    };
    match value.as_str() {
        Some(text) => Ok(text),
        None => Err(Fault::of(field, Cause::NoText)),
    }
}

/// Returns a field that is a whole number of 64 bits.
#[tactic(auto, unfolding(crate::specs::Faults::find_as))]
fn number_of(object: &Value, field: &'static str) -> Result<u64, Fault>
    ensures { found (λ number. number) result ≡ find_number field.entry.now (view object.now) }
{
    let Some(value) = object.get(field) else {
        return Err(Fault::of(field, Cause::Missing));
    };
    match value.as_u64() {
        Some(number) => Ok(number),
        None => Err(Fault::of(field, Cause::NoNumber)),
    }
}
