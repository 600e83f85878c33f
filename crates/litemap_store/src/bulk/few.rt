//! Few new pairs, which stand after those of a vector, are put in one by one where they stand.
ghost use Rattle.std.specs.Prelude.{◌≡◌, ◌↔◌, ◌<◌, ◌≤◌, ◌+◌, ◌-◌, ◌*◌, IsTrue, drop, length, take, vec_len};
ghost use Rattle.litemap_store.specs.{RisesByAtMost, Rising, digits};
ghost use Rattle.litemap_store.specs.Last.{Last, Rises};
ghost use Rattle.litemap_store.specs.Steps.{IsPutIn};

use crate::searches::{binary_digits, search, walk_is_cheaper};
use crate::sorted::{is_rising, lies_below};
use crate::store::{Count, SliceStore};
use std::alloc::Allocator;

// The most new pairs that are inserted one by one. Each moves the later ones at once, so these moves take less time than a merge.
const FEW_PAIRS: usize = 16;

/// Whether to insert new pairs one by one: they are at most `FEW_PAIRS`, and searching for them makes no more comparisons than
/// there are pairs, old and new.
pub fn is_few(old: usize, given: usize) -> bool
    ensures { IsTrue result → given * digits (old + given) ≤ old + given }
{
    let Some(total) = old.checked_add(given) else {
        return false;
    };
    given <= FEW_PAIRS && !walk_is_cheaper(total, given, binary_digits(total))
}

/// Puts the pairs from an index on, which are few, among those before, whose keys ascend: of each key the last stays. If not all
/// ascend, it inserts pair by pair, one search each. Pairs that they replace are swapped to the end, and dropped last. It takes
/// no memory.
pub fn settle_few<K: Ord + Drop, V: Drop, A: Allocator>(
    store: &mut Vec<(K, V), A>,
    from: usize,
    count: &mut Count,
)
    requires from { from ≤ vec_len store.old }
    requires rising { Rising K.cmp (take from store.old.items) }
    requires few { (vec_len store.old - from) * digits (vec_len store.old) ≤ vec_len store.old }
    ensures last { Last K.cmp store.old.items store.new.items }
    ensures all_above { Rises K.cmp (take from store.old.items) (drop from store.old.items)
        → RisesByAtMost (length (drop from store.old.items)) count.old count.new }
    ensures cost { RisesByAtMost (from + 2 * length (drop from store.old.items)) count.old count.new }
{
    if is_rising_from(store, from, count) {
        return;
    }
    let mut kept = from;
    for at in from..store.len() {
        kept = put_next(store, kept, at, count);
    }
    store.truncate(kept);
}

// Whether all keys ascend, if those before an index do.
fn is_rising_from<K: Ord, V>(pairs: &[(K, V)], from: usize, count: &mut Count) -> bool
    requires from { from ≤ length pairs.now }
    requires rising { Rising K.cmp (take from pairs.now) }
    ensures rising { IsTrue result ↔ Rising K.cmp pairs.now }
    ensures cost { RisesByAtMost (length (drop from pairs.now)) count.old count.new }
{
    let (old, given) = pairs.split_at(from);
    if !is_rising(given, count) {
        return false;
    }
    lies_below(&SliceStore::new(old), &SliceStore::new(given), count)
}

// Puts the pair at an index in among the first `kept`, and returns how many these are then. It replaces the pair of an equal key.
fn put_next<K: Ord, V>(pairs: &mut [(K, V)], kept: usize, at: usize, count: &mut Count) -> usize
    requires kept { kept ≤ at }
    requires at { at < length pairs.old }
    requires rising { Rising K.cmp (take kept pairs.old) }
    ensures put { IsPutIn K.cmp pairs.old pairs.new kept result at }
    ensures len { length pairs.new ≡ length pairs.old }
    ensures within { result ≤ kept + 1 }
    ensures cost { RisesByAtMost (digits kept) count.old count.new }
{
    let all = &pairs[..];
    match search(&SliceStore::new(&all[..kept]), &all[at].0, count) {
        Ok(index) => {
            pairs.swap(index, at);
            kept
        }
        Err(index) => {
            pairs[index..=at].rotate_right(1);
            kept + 1
        }
    }
}
