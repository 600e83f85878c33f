//! The traits of `std` that a collection has: it is cloned, collected, extended, indexed and taken. Each but `Clone` forwards
//! to a call of the map. `Extend`, `Clone` and `Emptied` are given no allocator, and take the store's (`StoreAlloc`).
ghost use Rattle.std.specs.Prelude.{◌≡◌, [], IsSome, OnErr, Some};
ghost use Rattle.std.specs.Borrow.{sem};
ghost use Rattle.std.specs.Iterator.{ExtendsWithItems, IsFiniteIterable};
ghost use Rattle.std.specs.List.{IsAmong};
ghost use Rattle.std.specs.Map.{values_of};
ghost use Rattle.litemap_store.specs.Bulk.{Extends, GivesSome};
ghost use Rattle.litemap_store.specs.Clones.{PairsBecame};
ghost use Rattle.litemap_store.specs.Pairs.{at, value_at, write};
ghost use Rattle.litemap.specs.Lends.{LendsKey};
ghost use Rattle.litemap.specs.Updates.{Finds, KeysStay};

use crate::LiteMap;
use litemap_store::Query;
use litemap_store::store::{
    Store, StoreAlloc, StoreBulkMut, StoreConstEmpty, StoreFromIterable, StoreMut,
};
use std::alloc::AllocError;
use std::default::Emptied;
use std::ops::{Index, IndexMut};

/// Clones the keys and values, as `try_clone` does. It fails if memory runs out, or if the clones of the keys don't ascend:
/// it compares each with the one before it. It never fails for an empty map.
impl<K: Ord + Clone, V: Clone, S: StoreMut<K, V> + StoreAlloc<K, V> + Drop> Clone
    for LiteMap<K, V, S> {
    ghost is_clone = { λ m n. PairsBecame K.is_clone V.is_clone m.entries n.entries };

    ghost is_infallible = { λ m. m.entries ≡ [] };

    fn clone(&self) -> Result<Self, AllocError> {
        let store = self.store.lm_try_clone(self.store.lm_alloc())?;
        if !Self::is_sorted_store(&store) {
            return Err(AllocError);
        }
        Ok(LiteMap::from_sorted_store_unchecked(store))
    }
}

/// The map of the last pair of each key.
impl<K: Ord + Drop, V: Drop, S: StoreFromIterable<K, V>> FromIterator<(K, V)> for LiteMap<K, V, S> {
    type Alloc = S::Alloc;

    ghost from_iter_gives = { λ items m. Extends K.cmp [] items m.entries };

    fn from_iter<I: IntoIterator<Item = (K, V)>>(
        alloc: S::Alloc,
        iter: I,
    ) -> Result<Self, AllocError> {
        LiteMap::from_iter(alloc, iter)
    }
}

/// Extends by the last pair of each key. If it fails, the map keeps its pairs.
impl<K: Ord + Drop, V: Drop, S: StoreBulkMut<K, V> + StoreAlloc<K, V>> Extend<(K, V)>
    for LiteMap<K, V, S> {
    ghost extend_gives = { λ m items n. Extends K.cmp m.entries items n.entries };

    fn extend<I: IntoIterator<Item = (K, V)>>(&mut self, iter: I) -> Result<(), AllocError>
        requires { IsFiniteIterable I.into_iter_gives I.IntoIter.can_next I.IntoIter.remaining iter }
        ensures ran { ExtendsWithItems I.into_iter_gives I.IntoIter.next_gives (λ m items n. Extends K.cmp m.entries items n.entries)
            iter self.old self.new result }
        ensures unchanged { OnErr result (self.new.entries ≡ self.old.entries) }
        ensures refused_some { S.fails_for_pairs_only
            → OnErr result (GivesSome I.into_iter_gives I.IntoIter.next_gives iter) }
    {
        let alloc = self.store.lm_alloc();
        self.extend(alloc, iter.into_iter())
    }
}

impl<K: Ord, V, S: Store<K, V>, Q: Query<K>> Index<Q> for LiteMap<K, V, S> {
    type Output = V;

    ghost can_index = { λ m key. IsSome (at Q.order m.entries (Q.sought key)) };

    ghost index_gives = { λ m key value. Some value ≡ value_at Q.order m.entries (Q.sought key) };

    fn index(&self, key: Q) -> &V {
        self.get(key).unwrap()
    }
}

impl<K: Ord, V, S: StoreMut<K, V>, Q: Query<K>> IndexMut<Q> for LiteMap<K, V, S> {
    fn index_mut(&mut self, key: Q) -> &mut V
        requires { IsSome (at Q.order self.old.entries (Q.sought key)) }
        ensures* writes_back { sem 𝓛
            (LendsKey K.row V.row S.row K.Ord S.pairs S.room self.entry Q.order (Q.sought key) result) }
        ensures value { Some result.now ≡ value_at Q.order self.old.entries (Q.sought key) }
        ensures member { IsAmong (values_of self.old.entries) result.now }
        ensures updates { (v : V) → Finds Q.order (Q.sought key) (Some v) self.old.entries
            (write Q.order self.old.entries (Q.sought key) v) }
        ensures others { (v : V) → KeysStay K.cmp Q.order (Q.sought key) self.old.entries
            (write Q.order self.old.entries (Q.sought key) v) }
    {
        self.index_mut(key)
    }
}

impl<K: Ord, V, S: StoreConstEmpty<K, V> + StoreAlloc<K, V>> Emptied for LiteMap<K, V, S> {
    ghost is_emptied = { λ m. m.entries ≡ [] };

    fn emptied(like: &Self) -> Result<Self, AllocError> {
        Ok(LiteMap::new(like.store.lm_alloc()))
    }
}
