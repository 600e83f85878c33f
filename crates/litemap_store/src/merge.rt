//! The body of `extend_from_litemap`: one store's pairs are merged into another's.
ghost use Rattle.std.specs.Prelude.{◌≡◌, ◌⊎◌, ◌+◌, ◌<◌, [], OnErr};
ghost use Rattle.litemap_store.specs.{Apart, Merges, MergesInto, RisesByAtMost, Rising, searches_cost};

mod in_one_pass;
mod one_by_one;
mod side_by_side;

use crate::growth::{extend_start, reserve, sum};
use crate::merge::in_one_pass::merge_in_one_pass;
use crate::merge::one_by_one::merge_one_by_one;
use crate::merge::side_by_side::merge_side_by_side;
use crate::searches::{binary_digits, walk_is_cheaper};
use crate::sorted::lies_below;
use crate::store::{Count, NoRoom, StoreIntoIterator};

// A merge inserts pairs one by one if there are fewer than this times the binary digits of both lengths' sum.
const FEW_PER_DIGIT: usize = 3;

/// Merges a store's pairs into another's (own). A key that is there stays, and takes the new value. Returns the displaced values,
/// each with its new key, in order, or `None` if there are none.
///
/// It is the body of a map's `extend_from_litemap`, which says what it compares and moves, and when it never fails. On an error
/// the store keeps its pairs, and the error returns the other store whole.
pub fn extend_from_store<K: Ord + Drop, V: Drop, S: StoreIntoIterator<K, V> + Drop>(
    alloc: S::Alloc,
    store: &mut S,
    other: S,
    count: &mut Count,
) -> Result<Option<S>, NoRoom<S>>
    requires store { Rising K.cmp (S.pairs store.old) }
    requires other { Rising K.cmp (S.pairs other) }
    ensures merged { MergesInto K.cmp S.pairs S.room other store.old store.new result }
    ensures uncounted { (S.pairs store.old ≡ []) ⊎ (S.pairs other ≡ []) → RisesByAtMost 0 count.old count.new }
    ensures apart { Apart K.cmp (S.pairs store.old) (S.pairs other) → RisesByAtMost 2 count.old count.new }
    ensures cost { RisesByAtMost (2 + searches_cost (S.pairs store.old) (S.pairs other)) count.old count.new }
    ensures refusal { OnErr result (count.old.refusals < count.new.refusals) }
{
    if other.lm_is_empty() {
        return Ok(None);
    }
    if store.lm_is_empty() {
        *store = other;
        return Ok(None);
    }
    // If all keys of one are above the other's, none is common, and nothing is displaced.
    if lies_below(store, &other, count) {
        if let Err(refused) = reserve(store, other.lm_len()) {
            return Err(count.refuse(refused, NoRoom { back: other }));
        }
        store.lm_extend_end(other).unwrap();
        return Ok(None);
    }
    if lies_below(&other, store, count) {
        return match extend_start(store, other) {
            Ok(()) => Ok(None),
            Err((refused, other)) => Err(count.refuse(refused, NoRoom { back: other })),
        };
    }
    merge_mixed(alloc, store, other, count)
}

// Merges stores whose pairs are mixed, and returns what is displaced: side by side if the other one has many pairs, pair by pair
// if it has few, else by one search for each of its pairs in one pass.
fn merge_mixed<K: Ord + Drop, V: Drop, S: StoreIntoIterator<K, V> + Drop>(
    alloc: S::Alloc,
    store: &mut S,
    other: S,
    count: &mut Count,
) -> Result<Option<S>, NoRoom<S>>
    requires store { Rising K.cmp (S.pairs store.old) }
    requires other { Rising K.cmp (S.pairs other) }
    ensures merges { Merges K.cmp S.pairs other store.old store.new result }
    ensures cost { RisesByAtMost (searches_cost (S.pairs store.old) (S.pairs other)) count.old count.new }
    ensures refusal { OnErr result (count.old.refusals < count.new.refusals) }
{
    let len = other.lm_len();
    let total = match sum(store.lm_len(), len) {
        Ok(total) => total,
        Err(refused) => return Err(count.refuse(refused, NoRoom { back: other })),
    };
    let steps = binary_digits(total);
    if walk_is_cheaper(total, len, steps) {
        return merge_side_by_side(alloc, store, other, total, count);
    }
    if len / FEW_PER_DIGIT < steps {
        return merge_one_by_one(alloc, store, other, count);
    }
    merge_in_one_pass(alloc, store, other, total, count)
}
