//! The output of a line that wants an error as it is shown to people.
use crate::Output;
use example_formats::evens::Even;
use example_formats::levels::Level;
use litemap::VecMap;
use litemap_json::{JsonFault, JsonItem, JsonKey, from_json};
use serde_json::Value;
use std::alloc::{AllocError, Global};
use std::io;

/// Returns the output of a line `TYPES TEXT`: why the text is no map of these types, or that it is one.
pub fn answer(alloc: Global, line: &str) -> Output {
    let Some((types, text)) = line.split_once(' ') else {
        return String::from_str(alloc, "no types");
    };
    match types {
        "u8" => told::<u8, u8>(alloc, text),
        "u16" => told::<u16, u16>(alloc, text),
        "u32" => told::<u32, u32>(alloc, text),
        "u64" => told::<u64, u64>(alloc, text),
        "i8" => told::<i8, i8>(alloc, text),
        "i16" => told::<i16, i16>(alloc, text),
        "i32" => told::<i32, i32>(alloc, text),
        "i64" => told::<i64, i64>(alloc, text),
        "ports" => told::<String, u16>(alloc, text),
        "flags" => told::<bool, bool>(alloc, text),
        "words" => told::<u32, String>(alloc, text),
        "tongues" => told::<(u32, String), String>(alloc, text),
        "ranks" => told::<(String, u32), String>(alloc, text),
        "levels" => told::<Level, Level>(alloc, text),
        "evens" => told::<Even, Even>(alloc, text),
        "elsewhere" => told_elsewhere(alloc, text),
        _ => String::from_str(alloc, "no such types"),
    }
}

fn told<K: JsonKey + Drop, V: JsonItem + Drop>(alloc: Global, text: &str) -> Output {
    let value = or_word!(alloc, "no JSON", Value::from_str(alloc, text));
    let map: Result<VecMap<K, V>, JsonFault> = from_json(alloc, &value);
    match unless_memory!(map, JsonFault::Memory) {
        Ok(_) => String::from_str(alloc, "a map"),
        Err(fault) => format!(in alloc; "{}", fault.told_in::<K, V>(&value)),
    }
}

// The same, told of a value that was not read, and has no such index; and what it says as an error of std's.
fn told_elsewhere(alloc: Global, text: &str) -> Output {
    let value = or_word!(alloc, "no JSON", Value::from_str(alloc, text));
    let other = or_word!(alloc, "no JSON", Value::from_str(alloc, "null"));
    let map: Result<VecMap<u32, u32>, JsonFault> = from_json(alloc, &value);
    match unless_memory!(map, JsonFault::Memory) {
        Ok(_) => String::from_str(alloc, "a map"),
        Err(fault) => {
            let told = format!(in alloc; "{}", fault.told_in::<u32, u32>(&other))?;
            format!(in alloc; "{told}; {}", io::Error::from(fault))
        }
    }
}
