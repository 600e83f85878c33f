//! Calls of a store itself.
use crate::answer::{Answer, Pairs};
use crate::call::{Call, Made, Pair};
use crate::changes::is_kept;
use crate::counted::{Key, Value};
use crate::tested::Tested;
use litemap::LiteMap;
use litemap::store::{Count, NoRoom, StoreBulkMut, StoreMut};
use std::alloc::Global;
use std::fmt::Debug;

/// Makes a call of a store, if the name is one.
pub fn call<S: Tested>(store: &mut S, call: &Call<'_>, to: &mut Answer) -> bool {
    whole(store, call, to).is_some()
        || by_number(store, call, to).is_some()
        || put(store, call, to).is_some()
        || put_at(store, call, to).is_some()
        || renew(store, call, to).is_some()
        || take_vec(store, call, to).is_some()
        || extend(store, call, to).is_some()
        || join(store, call, to).is_some()
}

fn whole<S: StoreMut<Key, Value, Alloc = Global> + Drop>(
    store: &mut S,
    call: &Call<'_>,
    to: &mut Answer,
) -> Made {
    match call.name {
        "lm_len" => to.show(store.lm_len()),
        "lm_is_empty" => to.show(store.lm_is_empty()),
        "is_sorted_store" => to.show(LiteMap::is_sorted_store(&*store)),
        "lm_last" => to.pair_or_none(store.lm_last()),
        "lm_clear" => to.done(store.lm_clear()),
        "lm_try_clone" => {
            let clone = store.lm_try_clone(call.alloc);
            to.pairs(clone.map(|clone| Pairs::of_store(&clone)));
        }
        _ => return None,
    }
    Some(())
}

/// Writes the text of a store that prints its pairs as a list, if the name is one of these.
pub fn text<S: Debug>(store: &S, call: &Call<'_>, to: &mut Answer) -> Made {
    match call.name {
        "lm_debug" => to.show(store),
        "lm_debug_lines" => to.show_lines(call, store),
        _ => return None,
    }
    Some(())
}

fn by_number<S: StoreBulkMut<Key, Value, Alloc = Global>>(
    store: &mut S,
    call: &Call<'_>,
    to: &mut Answer,
) -> Made {
    let (key, number, index) = (call.key(0)?, call.number(0)?, call.size(0)?);
    match call.name {
        "lm_get" => to.pair_or_none(store.lm_get(index)),
        "lm_binary_search_by" => {
            to.index(store.lm_binary_search_by(|there| there.cmp(&key), &mut Count::new()));
        }
        "lm_reserve" => to.room(store.lm_reserve(index)),
        "lm_retain" => {
            let mut times = 0u64;
            store.lm_retain(|_, _| is_kept(number, &mut times));
            to.show(times);
        }
        "lm_remove" if index < store.lm_len() => to.taken(Some(store.lm_remove(index))),
        _ => return None,
    }
    Some(())
}

// A call with a pair, or with an index and a number.
fn put<S: StoreMut<Key, Value, Alloc = Global>>(
    store: &mut S,
    call: &Call<'_>,
    to: &mut Answer,
) -> Made {
    if call.name == "lm_push" {
        let (key, value) = call.pair(0)?;
        show_room(store.lm_push(key, value), to);
        return Some(());
    }
    let (index, number) = (call.size(0)?, call.number(1)?);
    match call.name {
        "lm_pair_mut" if index < store.lm_len() => {
            let (key, value) = store.lm_pair_mut(index);
            to.pair(key, value);
            value.write(number);
        }
        "lm_get_mut" => match store.lm_get_mut(index) {
            Some((key, value)) => {
                to.pair(key, value);
                value.write(number);
            }
            None => to.word("none"),
        },
        _ => return None,
    }
    Some(())
}

fn show_room(outcome: Result<(), NoRoom<Pair>>, to: &mut Answer) {
    match outcome {
        Ok(()) => to.word("ok"),
        Err(refused) => to.no_room(refused),
    }
}

// A call with an index and a pair.
fn put_at<S: StoreMut<Key, Value, Alloc = Global>>(
    store: &mut S,
    call: &Call<'_>,
    to: &mut Answer,
) -> Made {
    let (index, len) = (call.size(0)?, store.lm_len());
    let (key, value) = call.pair(1)?;
    match call.name {
        "lm_insert" if index <= len => show_room(store.lm_insert(index, key, value), to),
        "lm_replace" if index < len => to.taken(Some(store.lm_replace(index, key, value))),
        _ => return None,
    }
    Some(())
}

// A store with no pair, or one of these pairs, replaces the old one.
fn renew<S: Tested>(store: &mut S, call: &Call<'_>, to: &mut Answer) -> Made {
    let (alloc, count) = (call.alloc, &mut Count::new());
    let made = match call.name {
        "lm_empty" => Ok(S::lm_empty(alloc)),
        "lm_with_capacity" => S::lm_with_capacity(alloc, call.size(0)?),
        "lm_sort_from_iter" => S::lm_sort_from_iter(alloc, call.given()?, count),
        "lm_from_pairs" => S::lm_from_pairs(alloc, call.given()?),
        _ => return None,
    };
    to.made(store, made);
    Some(())
}

// A call with many pairs of a store that is sorted.
fn extend<S: StoreBulkMut<Key, Value, Alloc = Global>>(
    store: &mut S,
    call: &Call<'_>,
    to: &mut Answer,
) -> Made {
    if call.name != "lm_extend" || !LiteMap::is_sorted_store(&*store) {
        return None;
    }
    let (pairs, mut count) = (call.given()?, Count::new());
    to.room(store.lm_extend(call.alloc, pairs, &mut count));
    Some(())
}

// A call that takes its pairs out of a vector. What the vector has after it is written after its result.
fn take_vec<S: StoreBulkMut<Key, Value, Alloc = Global>>(
    store: &mut S,
    call: &Call<'_>,
    to: &mut Answer,
) -> Made {
    let is_extended = call.name == "lm_extend_from_vec" && LiteMap::is_sorted_store(&*store);
    if call.name != "lm_sort_from_vec" && !is_extended {
        return None;
    }
    let (mut pairs, mut count) = (call.given()?, Count::new());
    if is_extended {
        to.room(store.lm_extend_from_vec(call.alloc, &mut pairs, &mut count));
    } else {
        let made = S::lm_sort_from_vec(call.alloc, &mut pairs, &mut count);
        to.made(store, made);
    }
    if !pairs.is_empty() {
        to.show(Pairs::of_slice(pairs.as_slice()));
    }
    Some(())
}

// A call with another store, of these pairs in their order.
fn join<S: Tested>(store: &mut S, call: &Call<'_>, to: &mut Answer) -> Made {
    if call.name != "lm_extend_end" && call.name != "lm_extend_start" {
        return None;
    }
    let other = other(call)?;
    let outcome = match call.name {
        "lm_extend_end" => store.lm_extend_end(other),
        _ => store.lm_extend_start(other),
    };
    match outcome {
        Ok(()) => to.word("ok"),
        Err(refused) => to.word_and("refused", Pairs::of_store(&refused.back)),
    }
    Some(())
}

// A store of the given pairs, with the given room. The call begins after it is made.
fn other<S: Tested>(call: &Call<'_>) -> Option<S> {
    let mut store = S::lm_from_pairs(call.alloc, call.pairs(0)?).ok()?;
    store.lm_reserve(call.room()).ok()?;
    call.begin();
    Some(store)
}
