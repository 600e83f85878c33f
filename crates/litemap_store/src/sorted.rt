//! Pairs in ascending order: whether they are, and how they come to be. Of each key the last pair is kept.
ghost use Rattle.std.specs.Prelude.{◌≡◌, ◌⊎◌, ◌-◌, ◌≤◌, ◌++◌, ◌↔◌, IsTrue, IsOk, OnOk, OnErr, length, [], drop, min, take};
ghost use Rattle.std.specs.Prelude.{vec_len, IsSortedByKey};
ghost use Rattle.litemap_store.specs.{RisesByAtMost, Rising};
ghost use Rattle.litemap_store.specs.Last.{Last};

use crate::growth::{Refused, sort_by};
use crate::store::{Count, Store};
use std::alloc::Allocator;

/// Whether the keys ascend. It compares each with the one before it, until one doesn't ascend.
pub(crate) fn is_rising<K: Ord, V>(pairs: &[(K, V)], count: &mut Count) -> bool
    ensures rising { IsTrue result ↔ Rising K.cmp pairs.now }
    ensures cost { RisesByAtMost (length pairs.now - 1) count.old count.new }
{
    for i in 1..pairs.len() {
        if count.cmp(&pairs[i - 1].0, &pairs[i].0).is_ge() {
            return false;
        }
    }
    true
}

/// Whether all keys of one store are below those of another. It compares the last of the one with the first of the other.
pub(crate) fn lies_below<K: Ord, V, S: Store<K, V>, T: Store<K, V>>(
    low: &S,
    high: &T,
    count: &mut Count,
) -> bool
    requires low { Rising K.cmp (S.pairs low.now) }
    requires high { Rising K.cmp (T.pairs high.now) }
    ensures below { IsTrue result ↔ Rising K.cmp (S.pairs low.now ++ T.pairs high.now) }
    ensures cost { RisesByAtMost (min 1 (length (T.pairs high.now))) count.old count.new }
    ensures uncounted { (S.pairs low.now ≡ []) ⊎ (T.pairs high.now ≡ []) → RisesByAtMost 0 count.old count.new }
{
    let Some((last, _)) = low.lm_last() else {
        return true;
    };
    let Some((first, _)) = high.lm_get(0) else {
        return true;
    };
    count.cmp(last, first).is_lt()
}

/// Keeps the last pair of each key of those from an index on, in ascending order. If they ascend, nothing is sorted.
pub(crate) fn keep_rising<K: Ord + Drop, V: Drop, A: Allocator>(
    alloc: A,
    pairs: &mut Vec<(K, V), A>,
    from: usize,
    count: &mut Count,
) -> Result<(), Refused>
    requires { from ≤ vec_len pairs.old }
    ensures before { take from pairs.new.items ≡ take from pairs.old.items }
    ensures last { OnOk result (Last K.cmp (drop from pairs.old.items) (drop from pairs.new.items)) }
    ensures shorter { (from ≤ vec_len pairs.new) × (vec_len pairs.new ≤ vec_len pairs.old) }
    ensures same { Rising K.cmp (drop from pairs.old.items) → IsOk result × (pairs.new.items ≡ pairs.old.items) }
    ensures unchanged { OnErr result (pairs.new.items ≡ pairs.old.items) }
    ensures cost { RisesByAtMost (vec_len pairs.old - from - 1) count.old count.new }
{
    let (_, given) = pairs.split_at(from);
    if is_rising(given, count) {
        return Ok(());
    }
    let given = &mut pairs[from..];
    sort_by(given, alloc, |a, b| a.0.cmp(&b.0))?;
    let kept = keep_last(given);
    pairs.truncate(from + kept);
    Ok(())
}

// Brings the last of each run of equal keys to the front, and returns their number. It compares each key but the first once, and
// takes no memory.
fn keep_last<K: Ord, V>(pairs: &mut [(K, V)]) -> usize
    requires { IsSortedByKey (λ (p : K × V). p.0) K.cmp pairs.old }
    ensures last { Last K.cmp pairs.old (take result pairs.new) }
    ensures within { result ≤ length pairs.old }
    ensures len { length pairs.new ≡ length pairs.old }
{
    if pairs.is_empty() {
        return 0;
    }
    let mut last = 0;
    for i in 1..pairs.len() {
        let now = &pairs[..];
        if !now[last].0.cmp(&now[i].0).is_eq() {
            last += 1;
        }
        pairs.swap(last, i);
    }
    last + 1
}
