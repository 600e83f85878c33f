//! Lists of calls of a map beside that of the line, as words spell them.
use crate::answer::Answer;
use crate::call::{Call, Made};
use crate::counted::Key;
use litemap::LiteMap;
use litemap::store::StoreBulkMut;
use litemap_columns::ColumnStore;
use litemap_read::laws::{self, run_calls};
use std::alloc::Global;

type Listed = laws::Call<Key, u64>;

/// Makes a list of calls of an empty map, if the name is one of these: over a vector, or over two columns.
pub fn run(call: &Call<'_>, to: &mut Answer) -> Made {
    match call.name {
        "run_calls" => run_list::<Vec<(Key, u64)>>(call, to),
        "run_calls_in_columns" => run_list::<ColumnStore<Key, u64>>(call, to),
        _ => None,
    }
}

// What the calls return and the map, or the list that came back.
fn run_list<S: StoreBulkMut<Key, u64, Alloc = Global>>(call: &Call<'_>, to: &mut Answer) -> Made {
    call.end();
    let mut list = Vec::new(call.alloc);
    for word in call.words.iter() {
        list.push(spelled(call, word)?).ok()?;
    }
    let mut map: LiteMap<Key, u64, S> = LiteMap::with_capacity(call.alloc, 0).ok()?;
    call.begin();
    let ran = run_calls(call.alloc, &mut map, list);
    call.end();
    match ran {
        Ok(answers) => {
            to.show(answers);
            to.show(map);
        }
        Err(refused) => to.word_and("refused", refused.back),
    }
    Some(())
}

// The call that a word spells: its kind, and after a colon its key, its index or length, its pair, or its pairs.
fn spelled(call: &Call<'_>, word: &str) -> Option<Listed> {
    let (kind, rest) = word.split_once(':').unwrap_or((word, ""));
    Some(match kind {
        "len" => Listed::Len,
        "clear" => Listed::Clear,
        "value_at" => Listed::ValueAt(rest.parse().ok()?),
        "reserve" => Listed::Reserve(rest.parse().ok()?),
        "get" => Listed::Get(call.key_of(rest)?),
        "contains" => Listed::Contains(call.key_of(rest)?),
        "find" => Listed::Find(call.key_of(rest)?),
        "remove" => Listed::Remove(call.key_of(rest)?),
        "extend" => Listed::Extend(pairs_of(call, rest)?),
        _ => return put(kind, pair_of(call, rest)?),
    })
}

fn put(kind: &str, (key, value): (Key, u64)) -> Option<Listed> {
    match kind {
        "insert" => Some(Listed::Insert(key, value)),
        "try_insert" => Some(Listed::TryInsert(key, value)),
        "try_append" => Some(Listed::TryAppend(key, value)),
        _ => None,
    }
}

fn pair_of(call: &Call<'_>, word: &str) -> Option<(Key, u64)> {
    let (key, value) = word.split_once(':')?;
    Some((call.key_of(key)?, value.parse().ok()?))
}

// The pairs between plus signs.
fn pairs_of(call: &Call<'_>, words: &str) -> Option<Vec<(Key, u64)>> {
    let mut pairs = Vec::new(call.alloc);
    for word in words.split('+') {
        pairs.push(pair_of(call, word)?).ok()?;
    }
    Some(pairs)
}
