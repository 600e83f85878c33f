//! Lines for `read_json`, each at the types of a name (`json_rows`).
//!
//! - `TYPES TEXT`: what the map that `read_json` makes of a text is written as, or its error and what that says as one of std's;
//!   if `from_json` makes another one of the text's tree, that too. It is read over a vector, over two columns and over a short
//!   store, and the line shows if the outputs differ.
//! - `repeated TYPES THOUSANDS HEAD PART TAIL`: how many pairs `read_json` makes of so many thousand times a part between a head
//!   and a tail, or its error.
//! - `cuts TYPES TEXT`, `changes TYPES TEXT`: the same of each proper prefix, and with each byte changed into each other one, as
//!   numbers and a checksum. What is no UTF-8 is left out.
//! - `strings TYPES MOST HEAD TAIL PART ..`: the same of each string of up to `MOST` parts between a head and a tail.
ghost use Rattle.std.specs.Mem.{FitsInMemory};
ghost use Rattle.std.specs.contracts.alloc.Global as global;
ghost use Rattle.std.specs.contracts.impls.GlobalAllocator.TheImpl.{ghosts};
ghost use Rattle.litemap_short.specs.contracts.short_store.ShortStore.{the_row};

use crate::json_rows::{of_types, shown, written_over};
use crate::kinds::one_of;
use crate::sweeps::{self, Cases, SUM_OF_NONE, sum};
use crate::{Output, Written};
use litemap::store::StoreBulkMut;
use litemap::{LiteMap, VecMap};
use litemap_columns::ColumnStore;
use litemap_json::{JsonItem, JsonKey, TextFault, read_json};
use litemap_short::ShortStore;
use serde_json::Value;
use std::alloc::{AllocError, Global};
use std::io;
use std::marker::PhantomData;

/// Returns the output of a line.
pub fn answer(alloc: Global, line: &str) -> Output {
    let Some((word, rest)) = line.split_once(' ') else {
        return String::from_str(alloc, "no types");
    };
    if !matches!(word, "repeated" | "cuts" | "changes" | "strings") {
        return of_types(alloc, "read", word, rest);
    }
    match rest.split_once(' ') {
        Some((types, text)) => of_types(alloc, word, types, text),
        None => String::from_str(alloc, "no types"),
    }
}

/// What a text is read as over three stores. That a short one fits in memory is proved where its types are known.
pub fn read<K: JsonKey + Drop, V: JsonItem + Drop>(alloc: Global, text: &str) -> Output
    requires { FitsInMemory (the_row K.row V.row global.the_row ghosts) }
{
    let vector = read_over::<K, V, Vec<(K, V)>>(alloc, text)?;
    let columns = read_over::<K, V, ColumnStore<K, V>>(alloc, text)?;
    let short = read_over::<K, V, ShortStore<K, V>>(alloc, text)?;
    one_of(alloc, vector, columns, short)
}

fn read_over<K: JsonKey + Drop, V: JsonItem + Drop, S: StoreBulkMut<K, V, Alloc = Global>>(
    alloc: Global,
    text: &str,
) -> Output {
    let (read, of_value) = both::<K, V, S>(alloc, text)?;
    if read == of_value {
        return Ok(read);
    }
    format!(in alloc; "{read}; by its tree: {of_value}")
}

// What `read_json` makes of a text, and what `from_json` makes of its tree.
fn both<K: JsonKey + Drop, V: JsonItem + Drop, S: StoreBulkMut<K, V, Alloc = Global>>(
    alloc: Global,
    text: &str,
) -> Result<(String, String), AllocError> {
    let map: Result<LiteMap<K, V, S>, TextFault> = read_json(alloc, text);
    let read = match unless_memory!(map, TextFault::Memory) {
        Ok(map) => shown(alloc, Ok(map))?,
        Err(fault) => told(alloc, fault)?,
    };
    Ok((read, of_value::<K, V, S>(alloc, text)?))
}

fn of_value<K: JsonKey + Drop, V: JsonItem + Drop, S: StoreBulkMut<K, V, Alloc = Global>>(
    alloc: Global,
    text: &str,
) -> Output {
    let value = or_word!(alloc, "no JSON", Value::from_str(alloc, text));
    written_over::<K, V, S>(alloc, &value)
}

// An error, and what it says as one of std's.
fn told(alloc: Global, fault: TextFault) -> Output {
    let told = format!(in alloc; "{fault}")?;
    format!(in alloc; "{told}; {}", io::Error::from(fault))
}

/// How many pairs are read of a part that is repeated.
pub fn repeated<K: JsonKey + Drop, V: JsonItem + Drop>(alloc: Global, line: &str) -> Output {
    let words: Vec<&str> = line.split(' ').collect(alloc)?;
    let [thousands, head, part, tail] = words.as_slice() else {
        return String::from_str(alloc, "bad line");
    };
    let thousands = thousands.parse().unwrap_or(0);
    let parts = part.repeat(alloc, 1000)?;
    let text = [*head, parts.repeat(alloc, thousands)?.as_str(), *tail].concat(alloc)?;
    let map: Result<VecMap<K, V>, TextFault> = read_json(alloc, text.as_str());
    match unless_memory!(map, TextFault::Memory) {
        Ok(map) => format!(in alloc; "{} pairs", map.len()),
        Err(fault) => told(alloc, fault),
    }
}

// How many texts were read, how many of them as maps, for how many the tree gives the same, and a checksum.
#[derive(Drop)]
struct Readings<K: Drop, V: Drop> {
    counts: [u64; 3],
    checksum: u64,
    types: PhantomData<(K, V)>,
}

impl<K: JsonKey + Drop, V: JsonItem + Drop> Cases for Readings<K, V> {
    fn add(&mut self, alloc: Global, bytes: &[u8]) -> Written {
        let Ok(text) = str::from_utf8(bytes) else {
            return Ok(());
        };
        let (read, of_value) = both::<K, V, Vec<(K, V)>>(alloc, text)?;
        let kinds = [true, read.starts_with(['{', '[']), read == of_value];
        for (count, is_there) in self.counts.iter_mut().zip(kinds) {
            *count = count.wrapping_add(u64::from(is_there));
        }
        self.checksum = sum(sum(self.checksum, read.as_str()), of_value.as_str());
        Ok(())
    }
}

/// What many texts are read as.
pub fn swept<K: JsonKey + Drop, V: JsonItem + Drop>(
    alloc: Global,
    way: &str,
    text: &str,
) -> Output {
    let mut readings: Readings<K, V> = Readings {
        counts: [0; 3],
        checksum: SUM_OF_NONE,
        types: PhantomData,
    };
    match way {
        "cuts" => sweeps::prefixes(alloc, text.as_bytes(), &mut readings)?,
        "changes" => sweeps::changes(alloc, text.as_bytes(), &mut readings)?,
        _ => read_strings(alloc, text, &mut readings)?,
    }
    let [texts, maps, alike] = readings.counts;
    format!(in alloc;
        "{texts} texts: {maps} maps, {alike} alike, checksum {:016x}",
        readings.checksum
    )
}

// Reads each string of the parts in a line.
fn read_strings<C: Cases>(alloc: Global, line: &str, cases: &mut C) -> Written {
    let words: Vec<&str> = line.split(' ').collect(alloc)?;
    let [most, head, tail, parts @ ..] = words.as_slice() else {
        return Ok(());
    };
    let parts: Vec<&[u8]> = parts.iter().map(|part| part.as_bytes()).collect(alloc)?;
    let ends = [head.as_bytes(), tail.as_bytes()];
    sweeps::strings(
        alloc,
        most.parse().unwrap_or(0),
        ends,
        parts.as_slice(),
        cases,
    )
}
