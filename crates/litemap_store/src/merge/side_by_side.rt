//! A merge that walks both stores once, side by side.
ghost use Rattle.std.specs.Prelude.{⊤, ◌≡◌, ◌+◌, ◌<◌, ◌∷◌, [], length, OnErr};
ghost use Rattle.litemap_store.specs.{Merges, RisesByAtMost, Rising};

use crate::growth::with_capacity;
use crate::reserved::{push_reserved, unless_empty};
use crate::store::{Count, NoRoom, Store, StoreIntoIterator, StoreMut};
use crate::walk::{Choice, walk};
use std::mem;

// The old key stays, with the new value; the new key with the old value is displaced into a store.
#[derive(Drop)]
struct Overlay<S> {
    rest: S,
}

impl<K: Drop, V: Drop, S: StoreMut<K, V>> Choice<K, V> for Overlay<S> {
    ghost kept = { λ a b. (a.0, b.1) };

    ghost gone = { λ a b. (b.0, a.1) ∷ [] };

    ghost displaced = { λ s. S.pairs s.rest };

    ghost needs_room = { ⊤ };

    ghost room = { λ s. S.room s.rest };

    fn choose(&mut self, key: K, value: V, new_key: K, new_value: V) -> (K, V) {
        push_reserved(&mut self.rest, new_key, value);
        (key, new_value)
    }
}

/// Merges a store's pairs into another's, by at most one comparison for each pair of both, and returns what is displaced.
///
/// All capacity is taken first: a fresh store for the pairs of both, which becomes the store, and one for what is displaced. Each
/// pair then moves a constant number of times.
pub fn merge_side_by_side<K: Ord + Drop, V: Drop, S: StoreIntoIterator<K, V> + Drop>(
    alloc: S::Alloc,
    store: &mut S,
    other: S,
    total: usize,
    count: &mut Count,
) -> Result<Option<S>, NoRoom<S>>
    requires store { Rising K.cmp (S.pairs store.old) }
    requires other { Rising K.cmp (S.pairs other) }
    requires total { total ≡ length (S.pairs store.old) + length (S.pairs other) }
    ensures merges { Merges K.cmp S.pairs other store.old store.new result }
    ensures cost { RisesByAtMost total count.old count.new }
    ensures refusal { OnErr result (count.old.refusals < count.new.refusals) }
{
    let fresh = match with_capacity(alloc, total) {
        Ok(fresh) => fresh,
        Err(refused) => return Err(count.refuse(refused, NoRoom { back: other })),
    };
    let rest = match with_capacity(alloc, other.lm_len()) {
        Ok(rest) => rest,
        Err(refused) => return Err(count.refuse(refused, NoRoom { back: other })),
    };
    let olds = mem::replace(store, fresh).lm_into_iter();
    let mut overlay = Overlay { rest };
    walk(store, olds, other.lm_into_iter(), &mut overlay, count);
    Ok(unless_empty(overlay.rest))
}
