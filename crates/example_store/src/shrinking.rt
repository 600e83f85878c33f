//! A store that gives its memory back when pairs go: an example of a store that promises nothing of its room after a removal.
//!
//! The calls of a map over it are proved as over any other. Only their clauses on the room after a removal, which hold for stores
//! that keep their memory (`KeepsMemory`), say nothing of it, and `rename`, which lives on such a clause, can't be called.
ghost use Rattle.std.specs.Prelude.{◌≡◌, refl};
ghost use Rattle.litemap_store.specs.Contents.{with_value};

use litemap::store::{
    Count, NoRoom, SliceIter, Store, StoreAlloc, StoreBulkMut, StoreConstEmpty, StoreFromIterable,
    StoreFromIterator, StoreIn, StoreIntoIterator, StoreIterable, StoreMut,
};
use std::alloc::{AllocError, Global};
use std::marker::Model;
use std::vec::IntoIter;

/// A vector of pairs that moves to a smaller block of memory if a removal leaves it at most half full.
#[derive(Drop)]
pub struct Shrinking<K, V> {
    items: Vec<(K, V)>,
}

impl<K, V> Model for Shrinking<K, V> {
    ghost use Rattle.litemap_store.specs.Contents.{Contents};
    ghost use Rattle.litemap_store.specs.VecStore.{vec_room};

    ghost Value = { Contents K V };

    ghost view = { λ s. record { entries = s.items.items; room = vec_room s.items } };
}

impl<K, V> Shrinking<K, V> {
    // Gives memory back if at most half of it is in use.
    fn shrink(&mut self)
        ensures { self.new.entries ≡ self.old.entries }
    {
        if self.items.len() <= self.items.capacity() / 2 {
            self.items.shrink_to_fit();
        }
    }
}

impl<K, V> Store<K, V> for Shrinking<K, V> {
    ghost pairs = { λ s. s.entries };

    ghost room = { λ s. s.room };

    fn lm_len(&self) -> usize {
        self.items.len()
    }

    fn lm_get(&self, index: usize) -> Option<(&K, &V)> {
        self.items.lm_get(index)
    }
}

impl<K, V> StoreAlloc<K, V> for Shrinking<K, V> {
    fn lm_alloc(&self) -> Global {
        *self.items.allocator()
    }
}

impl<K, V> StoreIn<K, V> for Shrinking<K, V> {
    type Alloc = Global;
}

impl<K, V> StoreConstEmpty<K, V> for Shrinking<K, V> {
    fn lm_empty(alloc: Global) -> Self {
        Shrinking {
            items: Vec::new(alloc),
        }
    }
}

impl<K, V> StoreMut<K, V> for Shrinking<K, V> {
    ghost with_value = { with_value };

    fn lm_with_capacity(alloc: Global, capacity: usize) -> Result<Self, AllocError> {
        let items = Vec::with_capacity(alloc, capacity)?;
        Ok(Shrinking { items })
    }

    fn lm_reserve(&mut self, additional: usize) -> Result<(), AllocError> {
        self.items.reserve(additional)
    }

    fn lm_pair_mut(&mut self, index: usize) -> (&K, &mut V) {
        let pair = &mut self.items[index];
        (&pair.0, &mut pair.1)
    }

    fn lm_replace(&mut self, index: usize, key: K, value: V) -> (K, V) {
        self.items.lm_replace(index, key, value)
    }

    fn lm_push(&mut self, key: K, value: V) -> Result<(), NoRoom<(K, V)>> {
        self.items.lm_push(key, value)
    }

    fn lm_insert(&mut self, index: usize, key: K, value: V) -> Result<(), NoRoom<(K, V)>> {
        self.items.lm_insert(index, key, value)
    }

    fn lm_remove(&mut self, index: usize) -> (K, V) {
        let removed = self.items.remove(index);
        self.shrink();
        removed
    }

    fn lm_clear(&mut self)
    where
        K: Drop,
        V: Drop,
    {
        self.items.clear();
        self.shrink();
    }

    ghost writes = { λ s i v. refl };

    ghost keeps_room = { λ s i v. refl };
}

impl<K: Ord + Drop, V: Drop> StoreBulkMut<K, V> for Shrinking<K, V> {
    fn lm_retain<F: FnMut(&K, &V) -> bool>(&mut self, f: F) {
        self.items.lm_retain(f);
        self.shrink();
    }
}

impl<'a, K: 'a, V: 'a> StoreIterable<'a, K, V> for Shrinking<K, V> {
    type KeyValueIter = SliceIter<'a, K, V>;

    fn lm_iter(&'a self) -> SliceIter<'a, K, V> {
        self.items.lm_iter()
    }
}

impl<K: Ord + Drop, V: Drop> StoreFromIterable<K, V> for Shrinking<K, V> {
    fn lm_sort_from_iter<I: IntoIterator<Item = (K, V)>>(
        alloc: Global,
        iter: I,
        count: &mut Count,
    ) -> Result<Self, AllocError> {
        let items = Vec::lm_sort_from_iter(alloc, iter, count)?;
        Ok(Shrinking { items })
    }
}

impl<K: Drop, V: Drop> StoreFromIterator<K, V> for Shrinking<K, V> {
    fn lm_from_pairs<I: IntoIterator<Item = (K, V)>>(
        alloc: Global,
        iter: I,
    ) -> Result<Self, AllocError> {
        let items = Vec::lm_from_pairs(alloc, iter)?;
        Ok(Shrinking { items })
    }
}

impl<K: Drop, V: Drop> StoreIntoIterator<K, V> for Shrinking<K, V> {
    type KeyValueIntoIter = IntoIter<(K, V)>;

    fn lm_into_iter(self) -> IntoIter<(K, V)> {
        self.items.into_iter()
    }
}
