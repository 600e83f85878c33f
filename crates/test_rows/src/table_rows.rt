//! Lines for tables and indexes: words separated by one space, of which the last one is bytes in hexadecimal,
//! `-` for none.
//!
//! - `read BYTES`: what `read_names` returns.
//! - `find KEY BYTES`: what `find_name` returns.
//! - `walk BYTES`: the entries that `NameBytes` gives one by one, each with the offset and the number due after it, and
//!   what comes when there is no entry, twice.
//! - `again BYTES`: what `write_names` writes for the map that is read.
//! - `name CODE BYTES`: the name of a language, the bytes' or else the program's (`languages`).
//! - `table BYTES`: each entry of a `NameIndex`, found again by its key there and in the index that is written of it, and met
//!   again in a walk.
//! - `ask KEY BYTES`: what both return for a key.
//! - `begin TEXT BYTES`: the indices and the entries of the names that begin with a string, by a `NameIndex`.
//! - `word WORD BYTES`: the string that a table has for a word, or the word itself, by both (`words`).
//! - `many NUMBER -`: what a `NameIndex` of so many names and the index that is written of them return.
//! - `often NUMBER -`: how many of so many names both find, each looked up by itself.
//! - `falls NUMBER -`: how often both are refused for their second name, out of so many times.
//! - `faults -`: the errors that no other line shows.
//! - `rewrite BYTES`: what `rewrite_flags` makes of bytes.
//! - `prefixes BYTES`: what is read of each proper prefix, by kinds.
//! - `changes BYTES`: the same with each byte changed into each other one.
//! - `strings BYTES`: the same of every string of up to four of these bytes.
//!
//! The last three read each case into a map and by a `NameIndex`: the texts of both are in the checksum, which another reader
//! tells (`table_rows.py`). A map is also written and read again, and a table written as an index, which is looked up, too; a
//! case for which two results differ is `different`.
//!
//! - `index BYTES`: what `write_index` writes for the map that is read.
//! - `opened BYTES`: each entry of an index, found again by its key.
//! - `look KEY BYTES`: what an index returns for a key.
//! - `cuts BYTES`, `damages BYTES`: what is opened of each proper prefix of an index, and with each byte changed, by kinds.
use crate::json_rows::rewritten;
use crate::sweeps::{self, Tally};
use crate::{Output, Written, indexes, tables, texts};
use example_formats::languages::language_name;
use hex::FromHexError;
use litemap_json::JsonFault;
use litemap_read::ReadFault;
use name_index::NameIndexFault;
use name_table::{NameMap, NameWriteFault, read_names, write_names};
use names::FlagsFault;
use std::alloc::{AllocError, Global};
use std::fmt::Write;

/// Returns the output of a line.
pub fn answer(alloc: Global, line: &str) -> Output {
    let words: Vec<&str> = line.split(' ').collect(alloc)?;
    let Some((last, words)) = words.as_slice().split_last() else {
        return String::from_str(alloc, "bad line");
    };
    let digits = if *last == "-" { "" } else { *last };
    let Ok(bytes) = unless_memory!(hex::decode(alloc, digits), FromHexError::OutOfMemory) else {
        return String::from_str(alloc, "bad bytes");
    };
    let mut output = String::new(alloc);
    write_answer(alloc, words, bytes.as_slice(), &mut output)?;
    Ok(output)
}

fn write_answer(alloc: Global, words: &[&str], bytes: &[u8], output: &mut String) -> Written {
    match words {
        ["find", key] => texts::write_found(alloc, key, bytes, output),
        ["name", code] => write_name(alloc, code, bytes, output),
        ["table"] | ["ask" | "begin" | "word", _] => {
            tables::write_answer(alloc, words, bytes, output)
        }
        ["look", key] => indexes::write_looked(key, bytes, output),
        ["many" | "often", number] => tables::write_many(alloc, words, number, output),
        ["falls", number] => tables::write_falls(alloc, number, output),
        [name] => write_alone(alloc, name, bytes, output),
        _ => output.push_str("bad line"),
    }
}

// Writes what a word without another one asks of the bytes.
fn write_alone(alloc: Global, name: &str, bytes: &[u8], output: &mut String) -> Written {
    match name {
        "read" => texts::write_read(alloc, bytes, output),
        "walk" => texts::write_walk(bytes, output),
        "again" => write_again(alloc, bytes, output),
        "index" => indexes::write_digits(alloc, bytes, output),
        "opened" => indexes::write_opened(bytes, output),
        "faults" => write_faults(output),
        "rewrite" => output.push_str(rewritten(alloc, bytes)?.as_str()),
        _ => sweep(alloc, name, bytes, output),
    }
}

// Writes what is written for the map that is read.
fn write_again(alloc: Global, bytes: &[u8], output: &mut String) -> Written {
    match unless_memory!(read_names(alloc, bytes), ReadFault::NoRoom) {
        Ok((map, _)) => write_table(alloc, &map, output),
        Err(_) => output.push_str("no map"),
    }
}

fn write_table(alloc: Global, map: &NameMap<'_>, output: &mut String) -> Written {
    match unless_memory!(write_names(alloc, map), NameWriteFault::NoRoom) {
        Ok(written) => output.push_str(hex::encode(alloc, written.as_slice())?.as_str()),
        Err(_) => output.push_str("no table"),
    }
}

// The program's own names.
const OWN: &[(&str, &str)] = &[("de", "German"), ("en", "own English"), ("zu", "Zulu")];

fn write_name(alloc: Global, code: &str, bytes: &[u8], output: &mut String) -> Written {
    match language_name(alloc, bytes, OWN, code) {
        Ok(Some(name)) => output.push_str(name),
        Ok(None) => output.push_str("none"),
        Err(fault) => texts::write_fault(&fault, output),
    }
}

// Writes each error that needs more memory than there is, or a text of another program.
fn write_faults(output: &mut String) -> Written {
    let (no_room, too_large) = (NameWriteFault::NoRoom, NameWriteFault::TooLarge);
    write!(output, "{no_room}; {too_large}; ")?;
    let (no_room, too_far) = (NameIndexFault::NoRoom, NameIndexFault::TooFar);
    write!(output, "{no_room}; {too_far}; ")?;
    let (memory, no_json) = (FlagsFault::Memory, FlagsFault::NotJson);
    let no_flags = FlagsFault::Json(JsonFault::NotAMap);
    write!(output, "{memory}; {no_json}; {no_flags}")
}

// Reads many cases, and writes what came of them.
fn sweep(alloc: Global, name: &str, bytes: &[u8], output: &mut String) -> Written {
    let mut tally = Tally::new(matches!(name, "cuts" | "damages"));
    match name {
        "prefixes" | "cuts" => sweeps::prefixes(alloc, bytes, &mut tally)?,
        "changes" | "damages" => sweeps::changes(alloc, bytes, &mut tally)?,
        "strings" => {
            let parts: Vec<&[u8]> = bytes.chunks(1).collect(alloc)?;
            sweeps::strings(alloc, 4, [&[], &[]], parts.as_slice(), &mut tally)?;
        }
        _ => return output.push_str("bad line"),
    }
    tally.write(output)
}
