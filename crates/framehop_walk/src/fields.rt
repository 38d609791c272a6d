//! Fields of a JSON object, each of one kind.
// Reads the fields of JSON objects. A field that is missing or of another kind is refused by its
// name.
ghost use Rattle.std.specs.Prelude.{◌≡◌, ◌<◌, ◌≤◌, length, SomeIff};
ghost use Rattle.std.specs.Char.{digit_value};
ghost use Rattle.serde_json.specs.Find.{get, as_str, as_array};
ghost use Rattle.serde_json.specs.View.{view, items_view, members_view};
ghost use Rattle.framehop_walk.specs.Numbers.{has_bad_number, any_bad_item, any_bad_member};
ghost use Rattle.framehop_walk.specs.Refusals.{told, reading_of};
ghost use Rattle.framehop_walk.specs.Fields.{required, field_as, optional_field_as, whole_number, group as group_of, address};
ghost use Rattle.std.specs.Str.Parse.{IsNumeral, digits_value};

use crate::refusal::Refusal;
use serde_json::{Map, Value};

const MAX_DIGITS: usize = 16;

#[cycle(has_bad_number)]
#[inline(never)]
fn any_bad_member(members: &Map<String, Value>) -> bool
    ensures { result ≡ any_bad_member (members_view members.now.entries) }
{
    for (_name, member) in members.iter() {
        if has_bad_number(member) {
            return true;
        }
    }
    false
}

/// Returns whether a number is in the value, at any depth, that is not whole or does not fit 64 bits.
#[cycle(has_bad_number)]
#[inline(always)]
pub(crate) fn has_bad_number(value: &Value) -> bool
    ensures { result ≡ has_bad_number (view value.now) }
{
    match value {
        Value::Null => false,
        Value::Bool(_) => false,
        Value::Number(number) => number.as_u64().is_none() && number.as_i64().is_none(),
        Value::String(_) => false,
        Value::Array(items) => any_bad_item(items),
        Value::Object(members) => any_bad_member(members),
    }
}

#[cycle(has_bad_number)]
#[inline(never)]
fn any_bad_item(items: &Vec<Value>) -> bool
    ensures { result ≡ any_bad_item (items_view items.now.items) }
{
    for item in items {
        if has_bad_number(item) {
            return true;
        }
    }
    false
}

/// Returns a field that is a list.
#[tactic(auto, unfolding(crate::specs::Fields::field_as))]
pub fn list<'v>(object: &'v Value, name: &'static str) -> Result<&'v Vec<Value>, Refusal>
    ensures { reading_of (λ list. items_view list.now.items) result
        ≡ field_as as_array name.entry.now (view object.entry.now) }
{
    match field(object, name)?.as_array() {
        Some(list) => Ok(list),
        None => Err(Refusal::BadField(name)),
    }
}

/// Returns a field that is an object.
#[tactic(auto, unfolding(crate::specs::Fields::field_as))]
pub fn group<'v>(object: &'v Value, name: &'static str) -> Result<&'v Value, Refusal>
    ensures { reading_of (λ value. view value.now) result
        ≡ field_as group_of name.entry.now (view object.entry.now) }
{
    let inner = field(object, name)?;
    if !inner.is_object() {
        return Err(Refusal::BadField(name));
    }
    Ok(inner)
}

/// Returns an address, a register or a word: a text of hexadecimal digits.
#[tactic(auto, unfolding(crate::specs::Fields::field_as))]
pub fn hexadecimal(object: &Value, name: &'static str) -> Result<u64, Refusal>
    ensures { told result ≡ field_as address name.entry.now (view object.now) }
{
    match hexadecimal_value(field(object, name)?) {
        Some(number) => Ok(number),
        None => Err(Refusal::BadField(name)),
    }
}

/// Returns an address that may be left out.
#[tactic(auto, unfolding(crate::specs::Fields::optional_field_as))]
pub(crate) fn optional_hexadecimal(
    object: &Value,
    name: &'static str,
) -> Result<Option<u64>, Refusal>
    ensures { told result ≡ optional_field_as address name.entry.now (view object.now) }
{
    match object.get(name) {
        None => Ok(None),
        Some(value) => match hexadecimal_value(value) {
            Some(number) => Ok(Some(number)),
            None => Err(Refusal::BadField(name)),
        },
    }
}

/// Returns the number of a text of hexadecimal digits.
#[tactic(auto, unfolding(crate::specs::Fields::address))]
pub fn hexadecimal_value(value: &Value) -> Option<u64>
    ensures { result ≡ address (view value.now) }
{
    match value.as_str() {
        Some(text) => parse_hexadecimal(text),
        None => None,
    }
}

/// Returns the number of 1 to 16 hexadecimal digits, of either case.
fn parse_hexadecimal(digits: &str) -> Option<u64>
    ensures { SomeIff result (IsNumeral 16 digits.now × (length digits.now ≤ 16))
        (digits_value 16 digits.now) }
{
    let bytes = digits.as_bytes();
    if bytes.is_empty() || bytes.len() > MAX_DIGITS {
        return None;
    }
    let mut number = 0;
    for byte in bytes {
        number = number * 16 + hexadecimal_digit(*byte)?;
    }
    Some(number)
}

/// Returns the value of a hexadecimal digit, of either case.
#[inline(always)]
fn hexadecimal_digit(byte: u8) -> Option<u64>
    ensures { SomeIff result (digit_value byte < 16) (digit_value byte) }
{
    let decimal = byte.wrapping_sub(b'0');
    if decimal < 10 {
        return Some(u64::from(decimal));
    }
    match byte {
        b'a'..=b'f' => Some(u64::from(byte - b'a' + 10)),
        b'A'..=b'F' => Some(u64::from(byte - b'A' + 10)),
        _ => None,
    }
}

/// Returns a field that is a text.
#[tactic(auto, unfolding(crate::specs::Fields::field_as))]
pub fn text<'v>(object: &'v Value, name: &'static str) -> Result<&'v str, Refusal>
    ensures { reading_of (λ text. text.now) result ≡ field_as as_str name.entry.now (view object.entry.now) }
{
    match field(object, name)?.as_str() {
        Some(text) => Ok(text),
        None => Err(Refusal::BadField(name)),
    }
}

/// Returns the number of an unwinder or a cache.
pub fn number(object: &Value, name: &'static str) -> Result<usize, Refusal>
    ensures { told result ≡ field_as whole_number name.entry.now (view object.now) }
{
    Ok(count(object, name)? as usize)
}

/// Returns a whole number below 2^64.
#[tactic(auto, unfolding(crate::specs::Fields::field_as))]
pub fn count(object: &Value, name: &'static str) -> Result<u64, Refusal>
    ensures { told result ≡ field_as whole_number name.entry.now (view object.now) }
{
    match field(object, name)?.as_u64() {
        Some(number) => Ok(number),
        None => Err(Refusal::BadField(name)),
    }
}

pub fn field<'v>(object: &'v Value, name: &'static str) -> Result<&'v Value, Refusal>
    ensures { reading_of (λ value. view value.now) result
        ≡ required name.entry.now (get name.entry.now (view object.entry.now)) }
{
    match object.get(name) {
        Some(value) => Ok(value),
        None => Err(Refusal::BadField(name)),
    }
}
