//! Calls that make another map of a map's pairs, or compare two maps.
use crate::answer::{Answer, Pairs};
use crate::bulk::other;
use crate::call::{Call, Made, Map};
use crate::counted::{Key, Order, Value, with_rank};
use litemap::VecMap;
use litemap::store::{Store, StoreAlloc, StoreBulkMut, StoreMut};
use std::alloc::{AllocError, Global};
use std::cmp::Ordering;
use std::hash::{FoldHasher, Hash, Hasher};

/// Makes a call that copies, if the name is one. The last word tells how many keys and values were cloned.
pub fn copy<S: StoreMut<Key, Value, Alloc = Global> + StoreAlloc<Key, Value> + Drop>(
    map: &Map<S>,
    call: &Call<'_>,
    to: &mut Answer,
) -> Made {
    let alloc = call.alloc;
    let made = match call.name {
        "try_clone" => map.try_clone(alloc).map(|clone| Pairs::of_map(&clone)),
        "cloned" => map.clone().map(|clone| Pairs::of_map(&clone)),
        "to_boxed_keys_values" => pairs_of::<Box<Key>, Box<Value>>(map.to_boxed_keys_values(alloc)),
        "to_boxed_keys" => pairs_of::<Box<Key>, Value>(map.to_boxed_keys(alloc)),
        "to_boxed_values" => pairs_of::<Key, Box<Value>>(map.to_boxed_values(alloc)),
        "to_borrowed_keys_values" => pairs_of::<&Key, &Value>(map.to_borrowed_keys_values(alloc)),
        "to_borrowed_keys" => pairs_of::<&Key, Value>(map.to_borrowed_keys(alloc)),
        "to_borrowed_values" => pairs_of::<Key, &Value>(map.to_borrowed_values(alloc)),
        "to_keys_by" => keyed(map, call, to),
        _ => return None,
    };
    to.pairs(made);
    to.word_and("cloned", call.seen.cloned());
    Some(())
}

fn pairs_of<K: Ord + AsRef<Key> + Drop, V: AsRef<Value> + Drop>(
    made: Result<VecMap<K, V>, AllocError>,
) -> Result<Pairs, AllocError> {
    let made = made?;
    Ok(Pairs::of(
        made.iter()
            .map(|(key, value)| (key.as_ref(), value.as_ref())),
    ))
}

// `to_keys_by` with the rank of each key. It writes whether the closure saw each key once, in order.
fn keyed<S: Store<Key, Value>>(
    map: &Map<S>,
    call: &Call<'_>,
    to: &mut Answer,
) -> Result<Pairs, AllocError> {
    call.seen.keys.ranks.set(0);
    let made: VecMap<u64, Value> = map.to_keys_by(call.alloc, |key| key.rank())?;
    let (mut pairs, mut ranks) = (Pairs::default(), 0u64);
    for (key, value) in &made {
        pairs.add_codes(Order::Number, *key, value.number());
        ranks = with_rank(ranks, *key);
    }
    to.word(if call.seen.keys.ranks.get() == ranks {
        "in order"
    } else {
        "in another order"
    });
    Ok(pairs)
}

/// Compares a map with one of the given pairs, if the name is such a call. `hash`: whether both are hashed alike.
pub fn compare<S: StoreBulkMut<Key, Value, Alloc = Global>>(
    map: &Map<S>,
    call: &Call<'_>,
    to: &mut Answer,
) -> Made {
    if !matches!(call.name, "eq" | "hash" | "cmp" | "partial_cmp") {
        return None;
    }
    show_compared(map, &other(call)?, call.name, to);
    Some(())
}

fn show_compared<S: StoreBulkMut<Key, Value, Alloc = Global>>(
    map: &Map<S>,
    other: &Map<S>,
    name: &str,
    to: &mut Answer,
) {
    match name {
        "eq" => to.show(*map == *other),
        "hash" => to.show(hash_of(map) == hash_of(other)),
        "cmp" => to.word(word_of(map.cmp(other))),
        _ => to.word(map.partial_cmp(other).map_or("none", word_of)),
    }
}

fn word_of(ordering: Ordering) -> &'static str {
    match ordering {
        Ordering::Less => "less",
        Ordering::Equal => "equal",
        Ordering::Greater => "greater",
    }
}

fn hash_of<T: Hash>(value: &T) -> u64 {
    let mut hasher = FoldHasher::default();
    value.hash(&mut hasher);
    hasher.finish()
}
