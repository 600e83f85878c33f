//! Calls that take memory of a store or of a vector. If one fails, it returns a `Refused`, which nothing else makes: so a
//! function that returns one was refused a growth.
ghost use Rattle.std.specs.Prelude.{◌≡◌, ◌⊎◌, ◌<◌, ◌≤◌, ◌+◌, ◌++◌, [], IfErr, IfOk, IsOk, OnErr, OnOk, drop, length, take};
ghost use Rattle.std.specs.Prelude.{vec_len};
ghost use Rattle.std.specs.List.Sorted.{IsSortedByClosure, IsStableByClosure};

use crate::store::{StoreIntoIterator, StoreMut};
use std::alloc::Allocator;
use std::cmp::Ordering;

/// A store or a vector refused to grow.
#[derive(Drop)]
pub struct Refused {
    seal: (),
}

/// `lm_with_capacity` of a store (own).
pub fn with_capacity<K, V, S: StoreMut<K, V>>(
    alloc: S::Alloc,
    capacity: usize,
) -> Result<S, Refused>
    ensures empty { IfOk result (λ s. S.pairs s ≡ []) }
    ensures room { IfOk result (λ s. capacity ≤ S.room s) }
    ensures succeeds { capacity ≤ S.free_room → IsOk result }
{
    S::lm_with_capacity(alloc, capacity).map_err(|_| Refused { seal: () })
}

/// `lm_reserve` of a store (own).
pub fn reserve<K, V, S: StoreMut<K, V>>(store: &mut S, additional: usize) -> Result<(), Refused>
    ensures pairs { S.pairs store.new ≡ S.pairs store.old }
    ensures room { OnOk result (additional ≤ S.room store.new) }
    ensures full { OnErr result (S.room store.old < additional) }
{
    store
        .lm_reserve(additional)
        .map_err(|_| Refused { seal: () })
}

/// The sum of two lengths, which is refused if no `usize` holds it.
pub(crate) fn sum(a: usize, b: usize) -> Result<usize, Refused>
    ensures { IfOk result (λ n. n ≡ a + b) }
{
    a.checked_add(b).ok_or(Refused { seal: () })
}

/// std's `sort_by`.
pub(crate) fn sort_by<T, A: Allocator, F: FnMut(&T, &T) -> Ordering>(
    items: &mut [T],
    alloc: A,
    compare: F,
) -> Result<(), Refused>
    requires { F.IsAlwaysCallable compare }
    ensures len { length items.new ≡ length items.old }
    ensures sorted { OnOk result (IsSortedByClosure F.FnMut compare items.new) }
    ensures stable { IsStableByClosure F.FnMut compare items.old items.new }
    ensures unchanged { OnErr result (items.new ≡ items.old) }
{
    items
        .sort_by(alloc, compare)
        .map_err(|_| Refused { seal: () })
}

/// std's `split_off`.
pub(crate) fn split_off<T, A: Allocator + Copy>(
    items: &mut Vec<T, A>,
    at: usize,
) -> Result<Vec<T, A>, Refused>
    requires { at ≤ vec_len items.old }
    ensures items { OnOk result (items.new.items ≡ take at items.old.items) }
    ensures tail { IfOk result (λ rest. rest.items ≡ drop at items.old.items) }
    ensures unchanged { OnErr result (items.new ≡ items.old) }
{
    items.split_off(at).map_err(|_| Refused { seal: () })
}

/// `lm_extend_start` of a store. An error has the other store.
pub(crate) fn extend_start<K: Drop, V: Drop, S: StoreIntoIterator<K, V>>(
    store: &mut S,
    other: S,
) -> Result<(), (Refused, S)>
    ensures ok { OnOk result (S.pairs store.new ≡ S.pairs other ++ S.pairs store.old) }
    ensures unchanged { OnErr result (S.pairs store.new ≡ S.pairs store.old) }
    ensures back { IfErr result (λ e. S.pairs e.1 ≡ S.pairs other) }
    ensures full { OnErr result ((S.room store.old < length (S.pairs other))
        ⊎ (S.room other < length (S.pairs store.old))) }
{
    store
        .lm_extend_start(other)
        .map_err(|error| (Refused { seal: () }, error.back))
}
