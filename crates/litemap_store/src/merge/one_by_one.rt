//! A merge that puts the pairs in one by one, each by one search.
ghost use Rattle.std.specs.Prelude.{◌≡◌, ◌+◌, ◌<◌, ◌≤◌, ◌++◌, [], length, OnErr, option_map};
ghost use Rattle.std.specs.List.{cons_option};
ghost use Rattle.litemap_store.specs.{Merges, RisesByAtMost, Rising, at, digits, put, searches_cost};

use crate::growth::{reserve, with_capacity};
use crate::reserved::{push_reserved, unless_empty};
use crate::searches::search;
use crate::store::{Count, NoRoom, Store, StoreIntoIterator, StoreMut};
use std::mem;

/// Merges a store's pairs into another's, each by one search, and returns what is displaced. All capacity is taken first.
///
/// A pair that falls between others moves those after it, so the moves are up to the product of the two lengths.
pub fn merge_one_by_one<K: Ord + Drop, V: Drop, S: StoreIntoIterator<K, V> + Drop>(
    alloc: S::Alloc,
    store: &mut S,
    other: S,
    count: &mut Count,
) -> Result<Option<S>, NoRoom<S>>
    requires store { Rising K.cmp (S.pairs store.old) }
    requires other { Rising K.cmp (S.pairs other) }
    ensures merges { Merges K.cmp S.pairs other store.old store.new result }
    ensures cost { RisesByAtMost (searches_cost (S.pairs store.old) (S.pairs other)) count.old count.new }
    ensures refusal { OnErr result (count.old.refusals < count.new.refusals) }
{
    let len = other.lm_len();
    if let Err(refused) = reserve(store, len) {
        return Err(count.refuse(refused, NoRoom { back: other }));
    }
    let mut rest = match with_capacity(alloc, len) {
        Ok(rest) => rest,
        Err(refused) => return Err(count.refuse(refused, NoRoom { back: other })),
    };
    for (key, value) in other.lm_into_iter() {
        put_in(store, key, value, &mut rest, count);
    }
    Ok(unless_empty(rest))
}

// Puts a pair in by one search, and appends its key with the value that it displaces to the rest. Both stores have room for it.
fn put_in<K: Ord + Drop, V: Drop, S: StoreMut<K, V>>(
    store: &mut S,
    key: K,
    value: V,
    rest: &mut S,
    count: &mut Count,
)
    requires store { Rising K.cmp (S.pairs store.old) }
    requires room { 0 < S.room store.old }
    requires rest_room { 0 < S.room rest.old }
    ensures put { S.pairs store.new ≡ put K.cmp (S.pairs store.old) key value }
    ensures rest { S.pairs rest.new
        ≡ S.pairs rest.old ++ cons_option (option_map (λ p. (key, p.1)) (at K.cmp (S.pairs store.old) key)) [] }
    ensures room { S.room store.old ≤ S.room store.new + 1 }
    ensures rest_room { S.room rest.old ≤ S.room rest.new + 1 }
    ensures cost { RisesByAtMost (digits (length (S.pairs store.old))) count.old count.new }
{
    match search(store, &key, count) {
        Ok(index) => {
            let (_, slot) = store.lm_pair_mut(index);
            let old = mem::replace(slot, value);
            push_reserved(rest, key, old);
        }
        Err(index) => store.lm_insert(index, key, value).unwrap(),
    }
}
