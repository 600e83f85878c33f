//! Calls through the entry of a key.
use crate::answer::Answer;
use crate::call::{Call, Made, Map};
use crate::counted::{Key, Value};
use litemap::Entry;
use litemap::store::StoreMut;

// Writes the value that is lent, into which a number is written, if there is one, or the pair that had no room.
macro_rules! show_lent {
    ($lent:expr, $number:expr, $to:ident) => {
        match $lent {
            Ok(slot) => $to.show(written(slot, $number)),
            Err(refused) => $to.no_room(refused),
        }
    };
}

/// Makes a call of these, if the name is one.
pub fn enter<S: StoreMut<Key, Value>>(map: &mut Map<S>, call: &Call<'_>, to: &mut Answer) -> bool {
    one_key(map, call, to).is_some()
        || put(map, call, to).is_some()
        || of_kind(map, call, to).is_some()
}

fn one_key<S: StoreMut<Key, Value>>(map: &mut Map<S>, call: &Call<'_>, to: &mut Answer) -> Made {
    if !is_of_one_key(call.name) {
        return None;
    }
    let entry = map.entry(call.key(0)?);
    match call.name {
        "entry" => show_kind(&entry, to),
        "entry_debug" => to.show(entry),
        "entry_debug_lines" => to.show_lines(call, entry),
        "or_default" => show_lent!(entry.or_default(), call.number(1), to),
        _ => match entry {
            Entry::Occupied(entry) if call.name == "entry_get" => to.show(entry.get()),
            Entry::Occupied(entry) => to.show(entry.remove()),
            Entry::Vacant(_entry) => to.word("vacant"),
        },
    }
    Some(())
}

// Whether the call takes a key alone, and no value.
fn is_of_one_key(name: &str) -> bool {
    matches!(
        name,
        "entry" | "entry_debug" | "entry_debug_lines" | "or_default" | "entry_get" | "entry_remove"
    )
}

fn show_kind<S: StoreMut<Key, Value>>(entry: &Entry<'_, Key, Value, S>, to: &mut Answer) {
    let (kind, key) = match entry {
        Entry::Occupied(entry) => ("occupied", entry.key()),
        Entry::Vacant(entry) => ("vacant", entry.key()),
    };
    to.word_and(kind, key);
}

// Writes a number, if there is one, into the value that is lent, and returns what it was.
fn written(slot: &mut Value, number: Option<u64>) -> u64 {
    match number {
        Some(number) => slot.write(number),
        None => slot.number(),
    }
}

// A third word is written into the value that is lent. `and_modify` adds the value to that of a key that is there.
fn put<S: StoreMut<Key, Value>>(map: &mut Map<S>, call: &Call<'_>, to: &mut Answer) -> Made {
    let (key, value) = call.pair(0)?;
    let mut times = 0u64;
    let (number, last) = (value.number(), call.number(2));
    match call.name {
        "or_insert" => show_lent!(map.entry(key).or_insert(value), last, to),
        "or_insert_with" => show_lent!(
            map.entry(key).or_insert_with(|| {
                times = times.wrapping_add(1);
                value
            }),
            last,
            to
        ),
        "and_modify" => {
            let entry = map.entry(key).and_modify(|there| {
                times = times.wrapping_add(1);
                there.write(there.number().wrapping_add(number));
            });
            show_lent!(entry.or_insert(value), last, to);
        }
        _ => return None,
    }
    to.word_and("asked", times);
    Some(())
}

// The calls that one kind of entry has; `insert` of the other one. After `_then_` stands a second call of one occupied entry: its
// value, which the first one wrote, is taken out or lent.
fn of_kind<S: StoreMut<Key, Value>>(map: &mut Map<S>, call: &Call<'_>, to: &mut Answer) -> Made {
    let calls = call.name.strip_prefix("entry_")?;
    let (first, then) = calls.split_once("_then_").unwrap_or((calls, ""));
    let (key, value) = call.pair(0)?;
    let mut entry = match map.entry(key) {
        Entry::Occupied(entry) => entry,
        Entry::Vacant(entry) if then.is_empty() => {
            show_lent!(entry.insert(value), call.number(2), to);
            return Some(());
        }
        Entry::Vacant(_entry) => {
            to.word("vacant");
            return Some(());
        }
    };
    match first {
        "insert" => to.show(entry.insert(value)),
        "get_mut" => to.show(entry.get_mut().write(value.number())),
        "into_mut" => {
            to.show(entry.into_mut().write(value.number()));
            return Some(());
        }
        _ => return None,
    }
    match then {
        "" => {}
        "remove" => to.show(entry.remove()),
        "into_mut" => to.show(written(entry.into_mut(), call.number(2))),
        _ => return None,
    }
    Some(())
}
