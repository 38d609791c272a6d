//! Names, numbers and addresses as JSON.
ghost use Rattle.std.specs.Prelude.{◌≡◌, ◌++◌, codes, string_bytes, option_map, IfOk};
ghost use Rattle.std.specs.Str.Lossy.{utf8_lossy};
ghost use Rattle.serde_json.specs.View.{view};
ghost use Rattle.framehop_frames.specs.JsonValues.{number_data, address_data, name_data, or_null};
ghost use Rattle.framehop_frames.specs.Line.{hexadecimal, plain};

use crate::line::printed_name;
use serde_json::Value;
use std::alloc::{AllocError, Global};

/// Returns a name as it is printed in blocks, or null where there is none.
pub fn name_value(alloc: Global, name: Option<&[u8]>) -> Result<Value, AllocError>
    ensures { IfOk result (λ value. view value ≡ or_null name_data (option_map (λ name. name.now) name.entry)) }
{
    match name {
        Some(name) => Ok(Value::String(name_text(alloc, name)?)),
        None => Ok(Value::Null),
    }
}

/// Returns a name as it is printed in blocks, as a text.
pub fn name_text(alloc: Global, name: &[u8]) -> Result<String, AllocError>
    ensures { IfOk result (λ text. string_bytes text ≡ utf8_lossy (plain name.now)) }
{
    let printed = printed_name(alloc, name)?;
    String::from_utf8_lossy(alloc, printed.as_slice())
}

/// Returns a number, or null where there is none.
pub fn number_value(number: Option<u32>) -> Value
    ensures { view result ≡ or_null number_data number }
{
    match number {
        Some(number) => Value::from(u64::from(number)),
        None => Value::Null,
    }
}

/// Returns an address in hexadecimal, or null where there is none.
pub fn address_value(alloc: Global, address: Option<u64>) -> Result<Value, AllocError>
    ensures { IfOk result (λ value. view value ≡ or_null address_data address) }
{
    match address {
        Some(address) => Ok(Value::String(hexadecimal(alloc, address)?)),
        None => Ok(Value::Null),
    }
}

/// Returns an address or an offset in hexadecimal.
pub fn hexadecimal(alloc: Global, number: u64) -> Result<String, AllocError>
    ensures { IfOk result (λ text. string_bytes text ≡ codes "0x" ++ hexadecimal number) }
{
    format!(in alloc; "0x{number:x}")
}
