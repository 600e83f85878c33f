//! A store that never grows past the capacity that it was made with: an example of a store of a user's own.
//!
//! A user who plugs in a store writes three things.
//!
//! 1. What a contract sees of it, by an `impl Model`: here the list of its pairs and its room. So no contract and no
//!    proof above names its fields.
//! 2. Its traits: `pairs` and `room` read that value, and each call has the trait's contract. `StoreConstEmpty` and
//!    `StoreMut` are all that the keyed calls of a map need, but for `rename`, which needs `KeepsMemory`; `StoreBulkMut` is
//!    there for `retain` and `extend`, `StoreFromIterable` for `from_iter`, `StoreIterable` for `iter`, `StoreIntoIterator`
//!    for `into_iter` and merges.
//! 3. `with_value`, what it is with another value at an index, and the two laws on it.
//!
//! The calls of `LiteMap` are then proved over it, with no proof of theirs to be written.
ghost use Rattle.std.specs.Prelude.{⊤, refl};
ghost use Rattle.litemap_store.specs.Contents.{with_value};

use litemap::store::{
    Count, KeepsMemory, NoRoom, SliceIter, Store, StoreAlloc, StoreBulkMut, StoreConstEmpty,
    StoreFromIterable, StoreFromIterator, StoreIn, StoreIntoIterator, StoreIterable, StoreMut,
};
use std::alloc::{AllocError, Global};
use std::marker::Model;
use std::vec::IntoIter;

/// A vector of pairs with the capacity that it was made with, which fails to grow past that.
///
/// Tests of failing calls use it, since its calls fail where the test wants.
#[derive(Drop)]
pub struct FixedRoom<K, V> {
    items: Vec<(K, V)>,
    limit: usize,
}

impl<K, V> Model for FixedRoom<K, V> {
    ghost use Rattle.std.specs.Prelude.{◌≤◌, ◌-◌, vec_len, vec_capacity};
    ghost use Rattle.litemap_store.specs.Contents.{Contents};

    ghost Value = { Contents K V };

    ghost view = { λ s. record { entries = s.items.items; room = s.limit - vec_len s.items } };

    ghost invariant = { λ s. (vec_len s.items ≤ s.limit) × (s.limit ≤ vec_capacity s.items) };
}

impl<K, V> Store<K, V> for FixedRoom<K, V> {
    ghost pairs = { λ s. s.entries };

    ghost room = { λ s. s.room };

    fn lm_len(&self) -> usize {
        self.items.len()
    }

    fn lm_get(&self, index: usize) -> Option<(&K, &V)> {
        self.items.lm_get(index)
    }
}

impl<K, V> StoreAlloc<K, V> for FixedRoom<K, V> {
    fn lm_alloc(&self) -> Global {
        *self.items.allocator()
    }
}

impl<K, V> StoreIn<K, V> for FixedRoom<K, V> {
    type Alloc = Global;
}

impl<K, V> StoreConstEmpty<K, V> for FixedRoom<K, V> {
    fn lm_empty(alloc: Global) -> Self {
        FixedRoom {
            items: Vec::new(alloc),
            limit: 0,
        }
    }
}

impl<K, V> StoreMut<K, V> for FixedRoom<K, V> {
    ghost with_value = { with_value };

    ghost keeps_memory = { ⊤ };

    fn lm_with_capacity(alloc: Global, capacity: usize) -> Result<Self, AllocError> {
        let items = Vec::with_capacity(alloc, capacity)?;
        Ok(FixedRoom {
            items,
            limit: capacity,
        })
    }

    fn lm_reserve(&mut self, additional: usize) -> Result<(), AllocError> {
        if additional <= self.limit - self.items.len() {
            Ok(())
        } else {
            Err(AllocError)
        }
    }

    fn lm_pair_mut(&mut self, index: usize) -> (&K, &mut V) {
        let pair = &mut self.items[index];
        (&pair.0, &mut pair.1)
    }

    fn lm_replace(&mut self, index: usize, key: K, value: V) -> (K, V) {
        self.items.lm_replace(index, key, value)
    }

    fn lm_push(&mut self, key: K, value: V) -> Result<(), NoRoom<(K, V)>> {
        let index = self.items.len();
        self.lm_insert(index, key, value)
    }

    fn lm_insert(&mut self, index: usize, key: K, value: V) -> Result<(), NoRoom<(K, V)>> {
        if self.items.len() == self.limit {
            return Err(NoRoom { back: (key, value) });
        }
        self.items.lm_insert(index, key, value)
    }

    fn lm_remove(&mut self, index: usize) -> (K, V) {
        self.items.remove(index)
    }

    fn lm_clear(&mut self)
    where
        K: Drop,
        V: Drop,
    {
        self.items.clear();
    }

    ghost writes = { λ s i v. refl };

    ghost keeps_room = { λ s i v. refl };
}

impl<K, V> KeepsMemory<K, V> for FixedRoom<K, V> {
    ghost keeps = { tt };
}

impl<K: Ord + Drop, V: Drop> StoreBulkMut<K, V> for FixedRoom<K, V> {
    fn lm_retain<F: FnMut(&K, &V) -> bool>(&mut self, f: F) {
        self.items.lm_retain(f);
    }
}

impl<'a, K: 'a, V: 'a> StoreIterable<'a, K, V> for FixedRoom<K, V> {
    type KeyValueIter = SliceIter<'a, K, V>;

    fn lm_iter(&'a self) -> SliceIter<'a, K, V> {
        self.items.lm_iter()
    }
}

impl<K: Ord + Drop, V: Drop> StoreFromIterable<K, V> for FixedRoom<K, V> {
    fn lm_sort_from_iter<I: IntoIterator<Item = (K, V)>>(
        alloc: Global,
        iter: I,
        count: &mut Count,
    ) -> Result<Self, AllocError> {
        let items = Vec::lm_sort_from_iter(alloc, iter, count)?;
        let limit = items.len();
        Ok(FixedRoom { items, limit })
    }
}

impl<K: Drop, V: Drop> StoreFromIterator<K, V> for FixedRoom<K, V> {
    fn lm_from_pairs<I: IntoIterator<Item = (K, V)>>(
        alloc: Global,
        iter: I,
    ) -> Result<Self, AllocError> {
        let items = Vec::lm_from_pairs(alloc, iter)?;
        let limit = items.len();
        Ok(FixedRoom { items, limit })
    }
}

impl<K: Drop, V: Drop> StoreIntoIterator<K, V> for FixedRoom<K, V> {
    type KeyValueIntoIter = IntoIter<(K, V)>;

    fn lm_into_iter(self) -> IntoIter<(K, V)> {
        self.items.into_iter()
    }
}
