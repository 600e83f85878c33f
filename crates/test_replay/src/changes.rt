//! Calls that insert a pair, write a value or remove pairs.
use crate::answer::Answer;
use crate::call::{Call, Made, Map, Pair};
use crate::counted::{Key, Value};
use litemap::TryFault;
use litemap::store::{Count, KeepsMemory, NoRoom, StoreBulkMut, StoreMut};

/// Makes a call of these, if the name is one.
pub fn change<S: StoreBulkMut<Key, Value>>(
    map: &mut Map<S>,
    call: &Call<'_>,
    to: &mut Answer,
) -> bool {
    put(map, call, to).is_some()
        || try_or(map, call, to).is_some()
        || write(map, call, to).is_some()
        || take(map, call, to).is_some()
        || each(map, call, to).is_some()
}

fn put<S: StoreMut<Key, Value>>(map: &mut Map<S>, call: &Call<'_>, to: &mut Answer) -> Made {
    let (key, value) = call.pair(0)?;
    match call.name {
        "insert" => show_old(map.insert(key, value), to),
        "insert_counted" => show_old(map.insert_counted(key, value, &mut Count::new()), to),
        "try_insert" => show_back(map.try_insert(key, value), to),
        "try_append" => show_back(map.try_append(key, value), to),
        "insert_indexed" => match map.find_index(&key) {
            Err(index) => {
                // What finds the index is no part of the call.
                call.begin();
                show_back(map.insert_indexed(index, key, value).map(|_| None), to);
            }
            Ok(_) => to.word("there"),
        },
        _ => return None,
    }
    Some(())
}

fn show_old<'a>(outcome: Result<Option<Value>, NoRoom<Pair>>, to: &mut Answer) {
    match outcome {
        Ok(old) => to.some(old.as_ref()),
        Err(refused) => to.no_room(refused),
    }
}

fn show_back<'a>(outcome: Result<Option<Pair>, NoRoom<Pair>>, to: &mut Answer) {
    match outcome {
        Ok(None) => to.word("placed"),
        Ok(back) => {
            to.word("back");
            to.taken(back);
        }
        Err(refused) => to.no_room(refused),
    }
}

// The calls that call a closure for the value of an absent key. The last word tells how often.
fn try_or<S: StoreMut<Key, Value>>(map: &mut Map<S>, call: &Call<'_>, to: &mut Answer) -> Made {
    let (kind, end) = call.name.strip_prefix("try_")?.split_once("_or_")?;
    let (key, value) = call.pair(0)?;
    let made = if end == "insert" {
        Ok(value)
    } else {
        Err(value)
    };
    let mut times = 0u64;
    let make = |_: &Key| {
        times = times.wrapping_add(1);
        made
    };
    match kind {
        "get" => match map.try_get_or_insert(key, make) {
            Ok((index, value)) => {
                to.show(index);
                to.show(value);
            }
            Err(fault) => show_fault(fault, to),
        },
        "find" => match map.try_find_or_insert(key, make) {
            Ok(index) => to.show(index),
            Err(fault) => show_fault(fault, to),
        },
        _ => return None,
    }
    to.word_and("asked", times);
    Some(())
}

fn show_fault<'a>(fault: TryFault<Key, Value, Value>, to: &mut Answer) {
    match fault {
        TryFault::Closure(value) => to.word_and("closure", value),
        TryFault::NoRoom { key, value } => to.no_room(NoRoom { back: (key, value) }),
    }
}

// The calls that lend a value, to which a number is written. They tell the old one.
fn write<S: StoreMut<Key, Value>>(map: &mut Map<S>, call: &Call<'_>, to: &mut Answer) -> Made {
    let (key, number) = (call.key(0)?, call.number(1)?);
    match call.name {
        "get_mut" => show_written(map.get_mut(&key), number, to),
        "get_mut_by" => show_written(map.get_mut_by(|there| there.cmp(&key)), number, to),
        "get_indexed_mut" => show_written(map.get_indexed_mut(call.size(0)?), number, to),
        "index_mut" if map.contains_key(&key) => {
            call.begin();
            show_written(Some(map.index_mut(&key)), number, to);
        }
        "index_mut" => to.word("absent"),
        _ => return None,
    }
    Some(())
}

fn show_written<'a>(lent: Option<&'a mut Value>, number: u64, to: &mut Answer) {
    to.some(lent.map(|slot| slot.write(number)));
}

fn take<S: StoreMut<Key, Value>>(map: &mut Map<S>, call: &Call<'_>, to: &mut Answer) -> Made {
    match call.name {
        "pop_first" => to.taken(map.pop_first()),
        "pop_last" => to.taken(map.pop_last()),
        "clear" => to.done(map.clear()),
        "reserve" => to.room(map.reserve(call.size(0)?)),
        _ => return remove(map, call, to),
    }
    Some(())
}

fn remove<S: StoreMut<Key, Value>>(map: &mut Map<S>, call: &Call<'_>, to: &mut Answer) -> Made {
    let key = call.key(0)?;
    match call.name {
        "remove" => to.some(map.remove(&key)),
        "remove_counted" => to.some(map.remove_counted(&key, &mut Count::new())),
        "remove_by" => to.some(map.remove_by(|there| there.cmp(&key))),
        "remove_entry" => to.taken(map.remove_entry(&key)),
        _ => return None,
    }
    Some(())
}

/// Renames a key, which a store that keeps its memory has, if the name is one.
pub fn rename<S: KeepsMemory<Key, Value>>(
    map: &mut Map<S>,
    call: &Call<'_>,
    to: &mut Answer,
) -> Made {
    let (key, new_key) = (call.key(0)?, call.key(1)?);
    match call.name {
        "rename" => to.show(map.rename(&key, new_key)),
        "rename_counted" => to.show(map.rename_counted(&key, new_key, &mut Count::new())),
        _ => return None,
    }
    Some(())
}

// The calls with a closure that is called on each pair. They tell how often. `update` adds to each value a number and how many
// came before it. `retain` keeps the pair at index i if bit i % 64 of the number is set.
fn each<S: StoreBulkMut<Key, Value>>(map: &mut Map<S>, call: &Call<'_>, to: &mut Answer) -> Made {
    let number = call.number(0)?;
    let mut times = 0u64;
    match call.name {
        "update" => map.update(|_, value| {
            let more = value.number().wrapping_add(number).wrapping_add(times);
            value.write(more);
            times = times.wrapping_add(1);
        }),
        "retain" => map.retain(|_, _| is_kept(number, &mut times)),
        _ => return None,
    }
    to.show(times);
    Some(())
}

/// Whether a bit is set in a number, by how often this was called before.
pub(crate) fn is_kept(number: u64, times: &mut u64) -> bool {
    let bit = (*times % 64) as u32;
    *times = times.wrapping_add(1);
    number >> bit & 1 == 1
}
