//! Calls of maps over pairs of other sizes than those of `test_replay`: of 8 bytes, of 4 with values of none, and keys of 48.
//!
//! A row is `KIND STORE CALL LEN FIRST COUNT STEP`. `KIND` names the types of a pair, `small`, `set` or `wide`, and `STORE` is
//! `vec` or `columns`. The map has `LEN` keys, 10,002, 10,004 and so on, and no room for more. Given are `COUNT` pairs, of the
//! key `FIRST` and each that is `STEP` above the one before it, with the number after its key as its value. The output is what
//! the call tells, a number, and the sum of the pairs after it (`sums`).

mod calls;
mod copies;
mod looks;
mod made;
mod sums;

use crate::{BEGIN, END, Output, mark};
use calls::{Call, Given, Number};
use litemap::LiteMap;
use litemap::store::{KeepsMemory, StoreBulkMut, StoreFromIterable, StoreIntoIterator};
use litemap_columns::ColumnStore;
use made::{Made, Wide};
use std::alloc::{AllocError, Global};

// What a call tells, and the sum of the pairs after it.
type Told = Result<(u64, u64), AllocError>;

/// Returns the output of a row. Of its requests for memory the call's alone are watched.
pub fn answer(alloc: Global, row: &str) -> Output {
    mark(alloc, END);
    let words: Vec<&str> = row.split(' ').collect(alloc)?;
    let Some(call) = call_of(alloc, words.as_slice()) else {
        return String::from_str(alloc, "bad line");
    };
    let told = told(words.as_slice(), &call);
    mark(alloc, END);
    let (answer, sum) = told?;
    format!(in alloc; "{answer} {sum}")
}

// The call of a row.
fn call_of<'w>(alloc: Global, words: &'w [&'w str]) -> Option<Call<'w>> {
    let [_, _, name, len, first, count, step] = words else {
        return None;
    };
    Some(Call {
        alloc,
        name,
        len: len.parse().ok()?,
        first: first.parse().ok()?,
        count: count.parse().ok()?,
        step: step.parse().ok()?,
    })
}

// Makes a call over the kind of pairs and the store of a row.
fn told(words: &[&str], call: &Call<'_>) -> Told {
    match words {
        ["small", "vec", ..] => make::<u32, u32, Vec<(u32, u32)>>(call),
        ["small", "columns", ..] => make::<u32, u32, ColumnStore<u32, u32>>(call),
        ["set", "vec", ..] => make::<u32, (), Vec<(u32, ())>>(call),
        ["set", "columns", ..] => make::<u32, (), ColumnStore<u32, ()>>(call),
        ["wide", "vec", ..] => make::<Wide, u32, Vec<(Wide, u32)>>(call),
        ["wide", "columns", ..] => make::<Wide, u32, ColumnStore<Wide, u32>>(call),
        _ => Ok((0, 0)),
    }
}

// Makes a call of a map over a kind of pairs and a store.
fn make<K, V, S>(call: &Call<'_>) -> Told
where
    K: Made,
    V: Made,
    S: StoreBulkMut<K, V, Alloc = Global>
        + StoreFromIterable<K, V>
        + StoreIntoIterator<K, V>
        + KeepsMemory<K, V>,
{
    let mut map: LiteMap<K, V, S> = LiteMap::with_capacity(call.alloc, call.len as usize)?;
    calls::fill(call, &mut map)?;
    let given = calls::given(call)?;
    mark(call.alloc, BEGIN);
    let told = one(call, &mut map, given)?;
    Ok((told, sums::of_map(&map)))
}

// Makes a call.
fn one<K, V, S>(call: &Call<'_>, map: &mut LiteMap<K, V, S>, given: Given<K, V>) -> Number
where
    K: Made,
    V: Made,
    S: StoreBulkMut<K, V, Alloc = Global>
        + StoreFromIterable<K, V>
        + StoreIntoIterator<K, V>
        + KeepsMemory<K, V>,
{
    match call.name {
        "extend_from_litemap" | "extend_with" => calls::merge(call, map, given),
        "from_iter" | "from_vec" | "from_promised" => calls::renew(call, map, given),
        "extend" | "extend_from_vec" | "promised" => calls::extend(call, map, given),
        "split_off" => calls::split(call, map, given),
        "rename" => calls::rename(map, given),
        "retain" => calls::retain(call, map),
        "reserve" => calls::reserve(call, map),
        _ => match copies::copy(call, map) {
            Some(copied) => copied,
            None => calls::each(call, map, given),
        },
    }
}
