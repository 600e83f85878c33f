//! The bodies of `lm_extend` and `lm_sort_from_iter`.
//!
//! A vector pushes the new pairs after its own. Other stores change once the new pairs are gathered in a vector. If they ascend,
//! nothing is sorted.
ghost use Rattle.std.specs.Prelude.{◌≡◌, ◌+◌, ◌*◌, ◌≤◌, ◌<◌, ◌++◌, IsOk, OnOk, OnErr, length, [], vec_capacity, vec_len};
ghost use Rattle.std.specs.Iterator.{IsFiniteIterable};
ghost use Rattle.litemap_store.specs.{Gives, GivesSome, IsHandedBack, RisesByAtMost, Rising};
ghost use Rattle.litemap_store.specs.Last.{Last, Rises};

mod few;
pub mod merge;
pub mod vector;

use crate::bulk::merge::merge;
use crate::growth::{Refused, reserve};
use crate::into_iter::append_each;
use crate::sorted::{keep_rising, lies_below};
use crate::store::{Count, StoreIntoIterator};
use std::alloc::Allocator;
use std::mem;

// The capacity that is taken with the first item.
const FIRST_CAPACITY: usize = 8;

// Below this length the capacity grows to four times as much, and then to twice as much.
const QUADRUPLED_BELOW: usize = 512;

/// Appends the items of an iterator to a vector, without its size hint. On an error the new items are dropped, and the vector
/// has its own.
pub fn append_items<K: Drop, V: Drop, A: Allocator + Copy, I: IntoIterator<Item = (K, V)>>(
    items: &mut Vec<(K, V), A>,
    iter: I,
) -> Result<(), Refused>
    requires { IsFiniteIterable I.into_iter_gives I.IntoIter.can_next I.IntoIter.remaining iter }
    ensures gathered { OnOk result ((given : _) × (items.new.items ≡ items.old.items ++ given)
        × Gives I.into_iter_gives I.IntoIter.next_gives iter given) }
    ensures unchanged { OnErr result (items.new.items ≡ items.old.items) }
    ensures refused_some { OnErr result (GivesSome I.into_iter_gives I.IntoIter.next_gives iter) }
{
    let len = items.len();
    for item in iter {
        if items.len() == items.capacity()
            && let Err(refused) = make_room(items)
        {
            items.truncate(len);
            return Err(refused);
        }
        items.push_reserved(item);
    }
    Ok(())
}

// Makes room in a vector that is full, or returns an error if memory runs out. It is a function of its own, so that the loop over
// the items stays short.
#[cold]
#[inline(never)]
fn make_room<K, V, A: Allocator + Copy>(items: &mut Vec<(K, V), A>) -> Result<(), Refused>
    ensures items { items.new.items ≡ items.old.items }
    ensures room { OnOk result (vec_len items.new < vec_capacity items.new) }
{
    let len = items.len();
    let more = if len < QUADRUPLED_BELOW { 3 * len } else { 1 };
    reserve(items, more.max(FIRST_CAPACITY))
}

/// Puts the pairs of a vector in, which is left empty. Of each key the last pair stays.
pub fn put_pairs<K: Ord + Drop, V: Drop, S: StoreIntoIterator<K, V> + Drop>(
    alloc: S::Alloc,
    store: &mut S,
    pairs: &mut Vec<(K, V), S::Alloc>,
    count: &mut Count,
) -> Result<(), Refused>
    requires { Rising K.cmp (S.pairs store.old) }
    ensures last { OnOk result (Last K.cmp (S.pairs store.old ++ pairs.old.items) (S.pairs store.new)) }
    ensures unchanged { OnErr result (S.pairs store.new ≡ S.pairs store.old) }
    ensures all_above { Rises K.cmp (S.pairs store.old) pairs.old.items
        → RisesByAtMost (length pairs.old.items) count.old count.new }
    ensures cost { RisesByAtMost (length (S.pairs store.old) + 2 * length pairs.old.items) count.old count.new }
    ensures succeeds { Rises K.cmp (S.pairs store.old) pairs.old.items
        → length pairs.old.items ≤ S.room store.old → IsOk result }
    ensures empty { OnOk result (pairs.new.items ≡ []) }
    ensures back { OnErr result (IsHandedBack K.cmp pairs.old.items pairs.new.items) }
{
    keep_rising(alloc, pairs, 0, count)?;
    if lies_below(store, pairs, count) {
        reserve(store, pairs.len())?;
        append_each(store, mem::replace(pairs, Vec::new(alloc)).into_iter());
        return Ok(());
    }
    merge(alloc, store, pairs, count)
}
