//! A merge in one pass, from the last pair of the other store down to the first.
ghost use Rattle.std.specs.Prelude.{◌≡◌, ◌+◌, ◌<◌, ◌≤◌, ◌++◌, ◌∷◌, length, reverse, OnErr, option_map, vec_capacity};
ghost use Rattle.std.specs.List.{cons_option};
ghost use Rattle.litemap_store.specs.{Merges, RisesByAtMost, Rising, above, at, below, digits, key_or, searches_cost};

use crate::reserved::{put_up, room_for, take_from, take_last, unless_empty};
use crate::searches::search;
use crate::store::{Count, NoRoom, Store, StoreMut};
use std::alloc::Allocator;

/// Merges a store's pairs into another's, each by one search, and returns what is displaced.
///
/// All capacity is taken first: a side vector and a fresh store for the pairs of both, and the same for what is displaced.
/// Each pair then moves into a side vector and from there into its store, so each moves a constant number of times.
pub fn merge_in_one_pass<K: Ord + Drop, V: Drop, S: StoreMut<K, V> + Drop>(
    alloc: S::Alloc,
    store: &mut S,
    mut other: S,
    total: usize,
    count: &mut Count,
) -> Result<Option<S>, NoRoom<S>>
    requires store { Rising K.cmp (S.pairs store.old) }
    requires other { Rising K.cmp (S.pairs other) }
    requires total { total ≡ length (S.pairs store.old) + length (S.pairs other) }
    ensures merges { Merges K.cmp S.pairs other store.old store.new result }
    ensures cost { RisesByAtMost (searches_cost (S.pairs store.old) (S.pairs other)) count.old count.new }
    ensures refusal { OnErr result (count.old.refusals < count.new.refusals) }
{
    let (mut side, mut fresh) = match room_for(alloc, total) {
        Ok(made) => made,
        Err(refused) => return Err(count.refuse(refused, NoRoom { back: other })),
    };
    let (mut displaced, mut rest) = match room_for(alloc, other.lm_len()) {
        Ok(made) => made,
        Err(refused) => return Err(count.refuse(refused, NoRoom { back: other })),
    };
    while !other.lm_is_empty() {
        let (key, value) = take_last(&mut other);
        take_above(store, key, value, &mut side, &mut displaced, count);
    }
    take_from(store, 0, &mut side);
    put_up(&mut fresh, side);
    put_up(&mut rest, displaced);
    *store = fresh;
    Ok(unless_empty(rest))
}

// Takes the pairs above a key aside, and then the new pair: if an equal key is there, that key with the new value, which
// displaces the old one.
fn take_above<K: Ord + Drop, V: Drop, S: StoreMut<K, V>, A: Allocator>(
    store: &mut S,
    key: K,
    value: V,
    side: &mut Vec<(K, V), A>,
    displaced: &mut Vec<(K, V), A>,
    count: &mut Count,
)
    requires store { Rising K.cmp (S.pairs store.old) }
    requires side_room { length side.old.items + length (S.pairs store.old) < vec_capacity side.old }
    requires displaced_room { length displaced.old.items < vec_capacity displaced.old }
    ensures store { S.pairs store.new ≡ below K.cmp (S.pairs store.old) key }
    ensures side { reverse side.new.items
        ≡ (key_or (at K.cmp (S.pairs store.old) key) key, value) ∷ (above K.cmp (S.pairs store.old) key
        ++ reverse side.old.items) }
    ensures displaced { reverse displaced.new.items
        ≡ cons_option (option_map (λ p. (key, p.1)) (at K.cmp (S.pairs store.old) key))
        (reverse displaced.old.items) }
    ensures side_room { vec_capacity side.old ≤ vec_capacity side.new }
    ensures displaced_room { vec_capacity displaced.old ≤ vec_capacity displaced.new }
    ensures cost { RisesByAtMost (digits (length (S.pairs store.old))) count.old count.new }
{
    match search(store, &key, count) {
        Ok(index) => {
            take_from(store, index + 1, side);
            let (stored, old) = take_last(store);
            side.push_reserved((stored, value));
            displaced.push_reserved((key, old));
        }
        Err(index) => {
            take_from(store, index, side);
            side.push_reserved((key, value));
        }
    }
}
