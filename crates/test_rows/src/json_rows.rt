//! The output of a line.
ghost use Rattle.std.specs.Mem.{FitsInMemory};
ghost use Rattle.std.specs.contracts.alloc.Global as global;
ghost use Rattle.std.specs.contracts.impls.GlobalAllocator.TheImpl.{ghosts};
ghost use Rattle.litemap_short.specs.contracts.short_store.ShortStore.{the_row};

use crate::falling::Falling;
use crate::kinds::one_of;
use crate::{Output, Written, read_rows, told};
use example_formats::evens::Even;
use example_formats::levels::Level;
use example_formats::overlay::{OverlayFault, Settings, overlay};
use example_formats::{limits, numbers};
use litemap::store::{Store, StoreBulkMut};
use litemap::{LiteMap, VecMap};
use litemap_columns::ColumnStore;
use litemap_json::{
    JsonFault, JsonItem, JsonKey, WriteFault, Writer, from_json, to_json, write_json, write_value,
};
use litemap_short::ShortStore;
use names::{FlagsFault, rewrite_flags};
use serde_json::Value;
use std::alloc::{AllocError, Global};
use std::io;

/// Returns the output of a line, at the types of this name.
pub fn answer(alloc: Global, line: &str) -> Output {
    let Some((types, text)) = line.split_once(' ') else {
        return String::from_str(alloc, "no types");
    };
    match types {
        "inserted" => inserted(alloc, text),
        "limits" => copied_limits(alloc, text),
        "names" => copied_names(alloc, text),
        "overlay" => overlaid(alloc, text),
        "told" => told::answer(alloc, text),
        "rewrite" => rewritten(alloc, text.as_bytes()),
        "value" => written_value(alloc, text),
        _ => of_types(alloc, "json", types, text),
    }
}

/// Returns what a way of reading makes of a text, at the types of a name.
pub fn of_types(alloc: Global, way: &str, types: &str, text: &str) -> Output {
    match types {
        "u8" => asked::<u8, u8>(alloc, way, text),
        "u16" => asked::<u16, u16>(alloc, way, text),
        "u32" => asked::<u32, u32>(alloc, way, text),
        "u64" => asked::<u64, u64>(alloc, way, text),
        "i8" => asked::<i8, i8>(alloc, way, text),
        "i16" => asked::<i16, i16>(alloc, way, text),
        "i32" => asked::<i32, i32>(alloc, way, text),
        "i64" => asked::<i64, i64>(alloc, way, text),
        "bool" => asked::<bool, bool>(alloc, way, text),
        "text" => asked::<String, String>(alloc, way, text),
        "falling" => asked::<Falling, String>(alloc, way, text),
        "flags" => asked::<bool, u32>(alloc, way, text),
        "words" => asked::<u32, String>(alloc, way, text),
        "evens" => asked::<Even, String>(alloc, way, text),
        "tongues" => asked::<(u32, String), String>(alloc, way, text),
        "levels" => asked::<Level, u32>(alloc, way, text),
        "senders" => asked::<String, Level>(alloc, way, text),
        "nested" => asked::<((u8, bool), String), (u32, (bool, i8))>(alloc, way, text),
        _ => String::from_str(alloc, "no such types"),
    }
}

fn asked<K: JsonKey + Drop, V: JsonItem + Drop>(alloc: Global, way: &str, text: &str) -> Output
    requires { FitsInMemory (the_row K.row V.row global.the_row ghosts) }
{
    match way {
        "json" => written::<K, V>(alloc, text),
        "read" => read_rows::read::<K, V>(alloc, text),
        "repeated" => read_rows::repeated::<K, V>(alloc, text),
        _ => read_rows::swept::<K, V>(alloc, way, text),
    }
}

// The map that a text is read as, written as JSON: over a vector, over two columns and over a short store. That such a store fits
// in memory is proved where its types are known.
fn written<K: JsonKey + Drop, V: JsonItem + Drop>(alloc: Global, text: &str) -> Output
    requires { FitsInMemory (the_row K.row V.row global.the_row ghosts) }
{
    let value = or_word!(alloc, "no JSON", Value::from_str(alloc, text));
    let vector = written_over::<K, V, Vec<(K, V)>>(alloc, &value)?;
    let columns = written_over::<K, V, ColumnStore<K, V>>(alloc, &value)?;
    let short = written_over::<K, V, ShortStore<K, V>>(alloc, &value)?;
    one_of(alloc, vector, columns, short)
}

/// The same over one store.
pub fn written_over<K: JsonKey + Drop, V: JsonItem + Drop, S: StoreBulkMut<K, V, Alloc = Global>>(
    alloc: Global,
    value: &Value,
) -> Output {
    shown::<K, V, S>(alloc, from_json(alloc, value))
}

// A map into which the words of a line are inserted, each after its number, written as JSON.
fn inserted(alloc: Global, line: &str) -> Output {
    let mut words = LiteMap::new_vec(alloc);
    for pair in line.split(' ') {
        if let Some((number, word)) = pair.split_once(':') {
            insert_word(alloc, &mut words, number, word)?;
        }
    }
    shown(alloc, Ok(words))
}

// Inserts a word by its number, if this is one.
fn insert_word(
    alloc: Global,
    words: &mut VecMap<u32, String>,
    number: &str,
    word: &str,
) -> Written {
    if let Ok(number) = number.parse() {
        words.insert(number, String::from_str(alloc, word)?)?;
    }
    Ok(())
}

// What a JSON text is read as over a vector, with the map sent to JSON and back before.
fn copied_limits(alloc: Global, text: &str) -> Output {
    let value = or_word!(alloc, "no JSON", Value::from_str(alloc, text));
    let map = match from_json(alloc, &value) {
        Ok(limits) => Ok(limits::copied(alloc, &limits)?),
        Err(fault) => Err(fault),
    };
    shown(alloc, map)
}

// The same of numbers by their names.
fn copied_names(alloc: Global, text: &str) -> Output {
    let value = or_word!(alloc, "no JSON", Value::from_str(alloc, text));
    let map = match from_json(alloc, &value) {
        Ok(map) => Ok(numbers::copied(alloc, &map)?),
        Err(fault) => Err(fault),
    };
    shown(alloc, map)
}

// Two settings with those of a text over them, or why they stay.
fn overlaid(alloc: Global, text: &str) -> Output {
    let mut settings = Settings::new_vec(alloc);
    for name in ["de", "fr"] {
        settings.insert(String::from_str(alloc, name)?, String::from_str(alloc, "")?)?;
    }
    match overlay(&mut settings, alloc, text) {
        Ok(()) => shown(alloc, Ok(settings)),
        Err(OverlayFault::Text) => String::from_str(alloc, "no JSON"),
        Err(OverlayFault::Settings(JsonFault::Memory) | OverlayFault::Memory) => Err(AllocError),
        Err(OverlayFault::Settings(fault)) => format!(in alloc; "{fault}"),
    }
}

/// Flags that are brought over, or why they can't be.
pub fn rewritten(alloc: Global, bytes: &[u8]) -> Output {
    match unless_memory!(rewrite_flags(alloc, bytes), FlagsFault::Memory) {
        Ok(flags) => Ok(flags),
        Err(fault) => format!(in alloc; "{fault}"),
    }
}

fn written_value(alloc: Global, text: &str) -> Output {
    let value = or_word!(alloc, "no JSON", Value::from_str(alloc, text));
    let mut out = Writer::new(Vec::new(alloc));
    write_value(alloc, &value, &mut out)?;
    match String::from_utf8(out.into_inner()) {
        Ok(text) => Ok(text),
        Err(_) => String::from_str(alloc, "not UTF-8"),
    }
}

/// The map as JSON, by `to_json` and `write_json`, or why it was not read or not written.
pub fn shown<K: JsonKey + Drop, V: JsonItem + Drop, S: Store<K, V> + Drop>(
    alloc: Global,
    map: Result<LiteMap<K, V, S>, JsonFault>,
) -> Output {
    let map = match unless_memory!(map, JsonFault::Memory) {
        Ok(map) => map,
        Err(fault) => return format!(in alloc; "{fault}"),
    };
    let value = unless_memory!(to_json(alloc, &map), WriteFault::Memory);
    let written = unless_memory!(write_json(alloc, &map), WriteFault::Memory);
    match value {
        Ok(value) => one_text(alloc, &value, written),
        Err(fault) => one_fault(alloc, fault, written),
    }
}

// The text of a value, which is also that of its members written by themselves, and which a map was written as.
fn one_text(alloc: Global, value: &Value, written: Result<String, WriteFault>) -> Output {
    let text = value.to_string(alloc)?;
    let mut out = Writer::new(Vec::new(alloc));
    write_parts(alloc, value, &mut out)?;
    match written {
        Ok(other) if other == text && out.into_inner().as_slice() == text.as_bytes() => Ok(text),
        _ => format!(in alloc; "{text} is written otherwise"),
    }
}

// Writes a value, and each member of an object by itself.
fn write_parts(alloc: Global, value: &Value, out: &mut Writer) -> Result<(), AllocError> {
    let Some(members) = value.as_object() else {
        return write_value(alloc, value, out);
    };
    out.begin_object()?;
    for (name, member) in members.iter() {
        out.key(name.as_str())?;
        write_value(alloc, member, out)?;
    }
    out.end_object()
}

// An error, for which a map was not written, and what it says as one of std's.
fn one_fault(alloc: Global, fault: WriteFault, written: Result<String, WriteFault>) -> Output {
    match written {
        Err(other) if other == fault => format!(in alloc; "{fault}; {}", io::Error::from(other)),
        _ => format!(in alloc; "{fault}, and it is written"),
    }
}
