//! Maps from flags to numbers as JSON, brought over from arrays to objects.
ghost use Rattle.std.specs.Prelude.{◌≡◌, IfErr, IfOk, Ok, string_bytes};
ghost use Rattle.serde_json.specs.Data.{Data};
ghost use Rattle.serde_json.specs.View.{view};
ghost use Rattle.serde_json.specs.Written.{compact_text};
ghost use Rattle.litemap_json.specs.declared.fault.JsonFault.TheVariants.{Memory};
ghost use Rattle.names.specs.Rewriting.{FlagsReadAs, IsFlagsFault, IsJsonText, IsRewritten, flags_tree};

use litemap::VecMap;
use litemap_json::{JsonFault, from_json, to_json};
use serde_json::Value;
use std::alloc::Global;
use thiserror::Error;

/// Why flags were not rewritten.
#[derive(Debug, PartialEq, Drop, Error)]
pub enum FlagsFault {
    /// Memory ran out.
    #[error("there is not enough memory")]
    Memory,
    /// The bytes can't be read as JSON.
    #[error("the bytes are not a JSON text")]
    NotJson,
    /// The JSON value is no map from flags to numbers. The error is never `Memory`.
    #[error("the JSON value is not a map from flags to numbers: {0}")]
    Json(JsonFault),
}

type FlagMap = VecMap<bool, u32>;

/// Rewrites data of an older form (own). It reads a JSON text of a map whose keys are `true` and `false` and whose items are
/// numbers of 32 bits, and returns the compact text of the map as it is written now, as an object. Older maps were written as
/// arrays, since flags had no texts: these are read too, and so is an object.
///
/// # Errors
///
/// `NotJson` comes if the bytes can't be read, and `Json` with the first error of the value that they spell. `Memory` may come
/// in place of any result.
pub fn rewrite_flags(alloc: Global, bytes: &[u8]) -> Result<String, FlagsFault>
    ensures rewritten { IfOk result (λ text. IsRewritten bytes.now (string_bytes text)) }
    ensures error { IfErr result (IsFlagsFault bytes.now) }
{
    let value = read_value(alloc, bytes)?;
    let flags = read_flags(alloc, &value)?;
    flags_text(alloc, &flags)
}

fn read_value(alloc: Global, bytes: &[u8]) -> Result<Value, FlagsFault>
    ensures read { IfOk result (λ value. IsJsonText bytes.now (view value)) }
    ensures error { IfErr result (IsFlagsFault bytes.now) }
{
    match Value::from_slice(alloc, bytes) {
        Ok(value) => Ok(value),
        Err(error) if error.is_memory() => Err(FlagsFault::Memory),
        Err(_) => Err(FlagsFault::NotJson),
    }
}

fn read_flags(alloc: Global, value: &Value) -> Result<FlagMap, FlagsFault>
    ensures read { IfOk result (λ flags. FlagsReadAs (view value.now) flags.entries) }
    ensures error { IfErr result
        (λ fault. (bytes : _) → IsJsonText bytes (view value.now) → IsFlagsFault bytes fault) }
{
    match from_json(alloc, value) {
        Ok(flags) => Ok(flags),
        Err(JsonFault::Memory) => Err(FlagsFault::Memory),
        Err(fault) => Err(FlagsFault::Json(fault)),
    }
}

fn flags_text(alloc: Global, flags: &FlagMap) -> Result<String, FlagsFault>
    ensures text { IfOk result
        (λ text. (value : Data) × (flags_tree flags.now.entries ≡ Ok value) × (string_bytes text ≡ compact_text value)) }
    ensures error { IfErr result (λ fault. (bytes : _) → IsFlagsFault bytes fault) }
{
    let Ok(value) = to_json(alloc, flags) else {
        return Err(FlagsFault::Memory);
    };
    match value.to_string(alloc) {
        Ok(text) => Ok(text),
        Err(_) => Err(FlagsFault::Memory),
    }
}
