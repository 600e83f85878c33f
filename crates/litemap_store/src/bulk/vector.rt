//! The bodies of a vector's `lm_extend` and `lm_extend_from_vec`. Few new pairs are put in one by one, where they stand after its
//! own.
ghost use Rattle.std.specs.Prelude.{◌≡◌, ◌⊎◌, ◌≤◌, ◌+◌, ◌*◌, ◌++◌, [], IsOk, OnOk, OnErr, drop, length, take, vec_len};
ghost use Rattle.litemap_store.specs.{IsHandedBack, RisesByAtMost, Rising, vec_room};
ghost use Rattle.litemap_store.specs.Last.{Last, Rises};

use crate::bulk::few::{is_few, settle_few};
use crate::bulk::merge::merge;
use crate::growth::{Refused, reserve, split_off};
use crate::sorted::{keep_rising, lies_below};
use crate::store::{Count, SliceStore};
use std::alloc::Allocator;
use std::mem;

/// Puts the pairs from an index on among those before, whose keys ascend: of each key the last stays. On an error these pairs are
/// dropped.
pub fn settle<K: Ord + Drop, V: Drop, A: Allocator + Copy>(
    alloc: A,
    store: &mut Vec<(K, V), A>,
    from: usize,
    count: &mut Count,
) -> Result<(), Refused>
    requires from { from ≤ vec_len store.old }
    requires rising { Rising K.cmp (take from store.old.items) }
    ensures last { OnOk result (Last K.cmp store.old.items store.new.items) }
    ensures unchanged { OnErr result (store.new.items ≡ take from store.old.items) }
    ensures all_above { Rises K.cmp (take from store.old.items) (drop from store.old.items)
        → RisesByAtMost (length (drop from store.old.items)) count.old count.new }
    ensures cost { RisesByAtMost (from + 2 * length (drop from store.old.items)) count.old count.new }
    ensures succeeds { Rises K.cmp (take from store.old.items) (drop from store.old.items) → IsOk result }
{
    if is_few(from, store.len() - from) {
        settle_few(store, from, count);
        return Ok(());
    }
    if let Err(refused) = keep_rising(alloc, store, from, count) {
        store.truncate(from);
        return Err(refused);
    }
    let (old, given) = store.split_at(from);
    if lies_below(&SliceStore::new(old), &SliceStore::new(given), count) {
        return Ok(());
    }
    match split_off(store, from) {
        Ok(mut given) => merge(alloc, store, &mut given, count),
        Err(refused) => {
            store.truncate(from);
            Err(refused)
        }
    }
}

/// Puts the pairs of a vector in, which is left empty: of each key the last pair stays. If they ascend and come after the last
/// old key, they are appended in one move; if there is no old one either, it never fails.
pub fn put_in_vec<K: Ord + Drop, V: Drop, A: Allocator + Copy>(
    alloc: A,
    store: &mut Vec<(K, V), A>,
    pairs: &mut Vec<(K, V), A>,
    count: &mut Count,
) -> Result<(), Refused>
    requires { Rising K.cmp store.old.items }
    ensures last { OnOk result (Last K.cmp (store.old.items ++ pairs.old.items) store.new.items) }
    ensures unchanged { OnErr result (store.new.items ≡ store.old.items) }
    ensures all_above { Rises K.cmp store.old.items pairs.old.items
        → RisesByAtMost (length pairs.old.items) count.old count.new }
    ensures cost { RisesByAtMost (length store.old.items + 2 * length pairs.old.items) count.old count.new }
    ensures succeeds { Rises K.cmp store.old.items pairs.old.items
        → (store.old.items ≡ []) ⊎ (length pairs.old.items ≤ vec_room store.old) → IsOk result }
    ensures empty { OnOk result (pairs.new.items ≡ []) }
    ensures back { OnErr result (IsHandedBack K.cmp pairs.old.items pairs.new.items) }
{
    let from = store.len();
    if is_few(from, pairs.len()) {
        append_in_vec(store, pairs)?;
        settle_few(store, from, count);
        return Ok(());
    }
    keep_rising(alloc, pairs, 0, count)?;
    if lies_below(store, pairs, count) {
        return append_in_vec(store, pairs);
    }
    merge(alloc, store, pairs, count)
}

// Appends items in one move. If there are none, and the capacity is less than the new ones' number, their vector replaces it.
fn append_in_vec<K, V, A: Allocator + Copy>(
    store: &mut Vec<(K, V), A>,
    items: &mut Vec<(K, V), A>,
) -> Result<(), Refused>
    ensures appended { OnOk result (store.new.items ≡ store.old.items ++ items.old.items) }
    ensures unchanged { OnErr result (store.new.items ≡ store.old.items) }
    ensures succeeds { (store.old.items ≡ []) ⊎ (length items.old.items ≤ vec_room store.old) → IsOk result }
    ensures empty { OnOk result (items.new.items ≡ []) }
    ensures back { OnErr result (items.new.items ≡ items.old.items) }
{
    if store.is_empty() && store.capacity() < items.len() {
        mem::swap(store, items);
        return Ok(());
    }
    reserve(store, items.len())?;
    store.append(items).unwrap();
    Ok(())
}
