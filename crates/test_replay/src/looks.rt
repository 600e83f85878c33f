//! Calls that change nothing.
use crate::answer::{Answer, Pairs};
use crate::call::{Call, Made, Map, Pair};
use crate::counted::{Key, Value};
use litemap::store::{Count, Store, StoreSlice};
use litemap::{LiteMap, SliceMap};
use std::mem;

/// Makes a call of these, if the name is one.
pub fn look<S: Store<Key, Value>>(map: &Map<S>, call: &Call<'_>, to: &mut Answer) -> bool {
    with_no_key(map, call, to).is_some()
        || by_key(map, call, to).is_some()
        || by_closure(map, call, to).is_some()
        || bounds(map, call, to).is_some()
}

fn with_no_key<S: Store<Key, Value>>(map: &Map<S>, call: &Call<'_>, to: &mut Answer) -> Made {
    match call.name {
        "len" => to.show(map.len()),
        "is_empty" => to.show(map.is_empty()),
        "first" => to.pair_or_none(map.first()),
        "last" => to.pair_or_none(map.last()),
        "get_indexed" => to.pair_or_none(map.get_indexed(call.size(0)?)),
        "keys_ascend" => to.done(map.keys_ascend()),
        "debug" => to.show(map),
        "debug_lines" => to.show_lines(call, map),
        _ => return None,
    }
    Some(())
}

fn by_key<S: Store<Key, Value>>(map: &Map<S>, call: &Call<'_>, to: &mut Answer) -> Made {
    let (key, count) = (call.key(0)?, &mut Count::new());
    match call.name {
        "get" => to.some(map.get(&key)),
        "get_counted" => to.some(map.get_counted(&key, count)),
        "get_key_value" => to.pair_or_none(map.get_key_value(&key)),
        "contains_key" => to.show(map.contains_key(&key)),
        "find_index" => to.index(map.find_index(&key)),
        "find_index_counted" => to.index(map.find_index_counted(&key, count)),
        _ => return None,
    }
    Some(())
}

// The calls by a closure, and `index`, which is made if the key is there.
fn by_closure<S: Store<Key, Value>>(map: &Map<S>, call: &Call<'_>, to: &mut Answer) -> Made {
    if !matches!(call.name, "get_by" | "find_index_by" | "index") {
        return None;
    }
    let key = call.key(0)?;
    match call.name {
        "get_by" => to.some(map.get_by(|there| there.cmp(&key))),
        "find_index_by" => to.index(map.find_index_by(|there| there.cmp(&key))),
        _ if map.contains_key(&key) => {
            // What tells that the key is there is no part of the call.
            call.begin();
            to.show(map.index(&key));
        }
        _ => to.word("absent"),
    }
    Some(())
}

// Calls whose words are a bound of either end and their keys. `iter_range` gives its last pair, and then the others.
fn bounds<S: Store<Key, Value>>(map: &Map<S>, call: &Call<'_>, to: &mut Answer) -> Made {
    between(map, &call.key(1), &call.key(3), call, to)
}

fn between<S: Store<Key, Value>>(
    map: &Map<S>,
    first: &Option<Key>,
    last: &Option<Key>,
    call: &Call<'_>,
    to: &mut Answer,
) -> Made {
    let (from, till) = (call.bound(0, first)?, call.bound(2, last)?);
    let places = match call.name {
        "index_range" => map.index_range(from, till),
        "index_range_counted" => map.index_range_counted(from, till, &mut Count::new()),
        "iter_range" => {
            let mut rest = map.iter_range(from, till);
            to.pair_or_none(rest.next_back());
            to.show(Pairs::of(rest));
            return Some(());
        }
        _ => return None,
    };
    to.show(places.start);
    to.show(places.end);
    Some(())
}

/// Makes a call that lends the pairs as a slice, if the name is one.
pub fn view<S: StoreSlice<Key, Value>>(map: &Map<S>, call: &Call<'_>, to: &mut Answer) -> Made {
    match call.name {
        "as_slice" => to.show(Pairs::of_slice(map.as_slice())),
        "as_sliced" => show_table(&map.as_sliced(), to),
        "get_indexed_range" => match map.get_indexed_range(call.size(0)?..call.size(1)?) {
            Some(part) => to.show(Pairs::of_map(&part)),
            None => to.word("none"),
        },
        "range" => {
            let (first, last) = (call.key(1), call.key(3));
            let part = map.range(call.bound(0, &first)?, call.bound(2, &last)?);
            to.show(Pairs::of_map(&part));
        }
        _ => return None,
    }
    Some(())
}

// What the calls of a constant table return, but for those by a key.
fn show_table(table: &SliceMap<'_, Key, Value>, to: &mut Answer) {
    to.show(Pairs::of_map(table));
    to.show(table.const_len());
    to.show(table.const_is_empty());
    if table.const_len() > 0 {
        let (key, value) = table.const_get_indexed_or_panic(0);
        to.pair(key, value);
    }
}

/// Makes `take_range`, if that is the name, and the indices are those of a range.
pub fn take_range(map: &mut Map<Vec<Pair>>, call: &Call<'_>, to: &mut Answer) -> Made {
    let (start, end) = (call.size(0)?, call.size(1)?);
    if call.name != "take_range" || start > end || end > map.len() {
        return None;
    }
    let taken = map.take_range(call.alloc, start..end);
    to.pairs(taken.map(|taken| Pairs::of_slice(taken.as_slice())));
    Some(())
}

/// Makes `into_tuple_vec`, if that is the name.
pub fn vector(map: &mut Map<Vec<Pair>>, call: &Call<'_>, to: &mut Answer) -> Made {
    if call.name != "into_tuple_vec" {
        return None;
    }
    let vector = mem::replace(map, LiteMap::new(call.alloc)).into_tuple_vec();
    to.show(Pairs::of_slice(vector.as_slice()));
    Some(())
}
