//! A store of no pair, one pair, or a vector of pairs.
ghost use Rattle.std.specs.Prelude.{⊤, ◌≡◌, refl};
ghost use Rattle.litemap_store.specs.Contents.{with_value};

use crate::short_iter::ShortIntoIter;
use crate::storage::{Storage, pair_at};
use litemap_store::store::{
    Count, KeepsMemory, NoRoom, SliceIter, SliceStore, Store, StoreAlloc, StoreBulkMut,
    StoreConstEmpty, StoreFromIterable, StoreFromIterator, StoreIn, StoreIntoIterator,
    StoreIterable, StoreMut, StoreSlice,
};
use std::alloc::{AllocError, Allocator, Global};
use std::cmp::Ordering;
use std::fmt::{self, Debug, Formatter, Write};
use std::marker::Model;
use std::mem;
use std::ops::Range;

/// A store that keeps at most one pair inline, and more in a vector.
///
/// It is for maps that mostly have no pair or one. Until a second pair comes, `lm_push` and `lm_insert` take no memory; in a
/// store that `lm_empty` made, the first never fails. Bulk calls (`lm_extend`, `lm_sort_from_iter`, `lm_from_pairs`) gather
/// their pairs in a vector, even if there is only one, and so does a map's `split_off` with those that go. The only pair of a
/// vector that is given to `lm_sort_from_vec` moves in with no memory. From the second pair on all lie in a vector, which stays
/// when pairs are removed. If memory runs out at the second pair, the first stays, and the new one is returned.
///
/// It prints as the list of its pairs.
#[derive(Drop)]
pub struct ShortStore<K, V, A: Allocator = Global> {
    alloc: A,
    storage: Storage<(K, V), A>,
}

impl<K, V, A: Allocator> Model for ShortStore<K, V, A> {
    ghost use Rattle.litemap_store.specs.Contents.{Contents};
    ghost use Rattle.litemap_short.specs.Storage.{storage_items, storage_room};

    ghost Value = { Contents K V };

    ghost view = { λ s. record { entries = storage_items s.storage; room = storage_room s.storage } };
}

impl<K: Debug, V: Debug, A: Allocator + Copy> Debug for ShortStore<K, V, A> {
    fn fmt<W: Write>(&self, f: &mut Formatter<W>) -> fmt::Result {
        self.storage.as_slice().fmt(f)
    }
}

impl<K, V, A: Allocator + Copy> Store<K, V> for ShortStore<K, V, A> {
    ghost pairs = { λ s. s.entries };

    ghost room = { λ s. s.room };

    fn lm_len(&self) -> usize {
        self.storage.as_slice().len()
    }

    fn lm_get(&self, index: usize) -> Option<(&K, &V)> {
        pair_at(self.storage.as_slice(), index)
    }

    fn lm_binary_search_by<F: FnMut(&K) -> Ordering>(
        &self,
        f: F,
        count: &mut Count,
    ) -> Result<usize, usize> {
        SliceStore::new(self.storage.as_slice()).lm_binary_search_by(f, count)
    }
}

impl<K, V, A: Allocator + Copy> StoreIn<K, V> for ShortStore<K, V, A> {
    type Alloc = A;
}

impl<K, V, A: Allocator + Copy> StoreAlloc<K, V> for ShortStore<K, V, A> {
    fn lm_alloc(&self) -> A {
        self.alloc
    }
}

impl<K, V, A: Allocator + Copy> StoreConstEmpty<K, V> for ShortStore<K, V, A> {
    ghost empty_room = { λ room. room ≡ 1 };

    fn lm_empty(alloc: A) -> Self {
        let storage = Storage::Empty;
        ShortStore { alloc, storage }
    }
}

impl<K, V, A: Allocator + Copy> StoreSlice<K, V> for ShortStore<K, V, A> {
    fn lm_get_range(&self, range: Range<usize>) -> Option<&[(K, V)]> {
        self.storage.as_slice().get(range)
    }
}

impl<'a, K: 'a, V: 'a, A: Allocator + Copy> StoreIterable<'a, K, V> for ShortStore<K, V, A> {
    type KeyValueIter = SliceIter<'a, K, V>;

    fn lm_iter(&'a self) -> SliceIter<'a, K, V> {
        SliceIter::new(self.storage.as_slice())
    }
}

impl<K, V, A: Allocator + Copy> StoreMut<K, V> for ShortStore<K, V, A> {
    ghost with_value = { with_value };

    ghost keeps_memory = { ⊤ };

    ghost free_room = { 1 };

    fn lm_with_capacity(alloc: A, capacity: usize) -> Result<Self, AllocError> {
        let storage = if capacity <= 1 {
            Storage::Empty
        } else {
            Storage::Heap(Vec::with_capacity(alloc, capacity)?)
        };
        Ok(ShortStore { alloc, storage })
    }

    fn lm_reserve(&mut self, additional: usize) -> Result<(), AllocError> {
        self.storage.reserve(self.alloc, additional)
    }

    fn lm_pair_mut(&mut self, index: usize) -> (&K, &mut V) {
        let pair = self.storage.item_mut(index);
        (&pair.0, &mut pair.1)
    }

    fn lm_replace(&mut self, index: usize, key: K, value: V) -> (K, V) {
        mem::replace(self.storage.item_mut(index), (key, value))
    }

    fn lm_push(&mut self, key: K, value: V) -> Result<(), NoRoom<(K, V)>> {
        let index = self.lm_len();
        self.lm_insert(index, key, value)
    }

    fn lm_insert(&mut self, index: usize, key: K, value: V) -> Result<(), NoRoom<(K, V)>> {
        if self.storage.reserve(self.alloc, 1).is_err() {
            return Err(NoRoom { back: (key, value) });
        }
        self.storage.insert_reserved(index, (key, value));
        Ok(())
    }

    fn lm_remove(&mut self, index: usize) -> (K, V) {
        self.storage.remove(index)
    }

    fn lm_clear(&mut self)
    where
        K: Drop,
        V: Drop,
    {
        self.storage.clear();
    }

    fn lm_try_clone(&self, alloc: A) -> Result<Self, AllocError>
    where
        K: Clone,
        V: Clone,
        Self: Drop,
    {
        let storage = self.storage.try_clone(alloc)?;
        Ok(ShortStore { alloc, storage })
    }

    ghost writes = { λ s i v. refl };

    ghost keeps_room = { λ s i v. refl };
}

impl<K, V, A: Allocator + Copy> KeepsMemory<K, V> for ShortStore<K, V, A> {
    ghost keeps = { tt };
}

impl<K: Ord + Drop, V: Drop, A: Allocator + Copy> StoreBulkMut<K, V> for ShortStore<K, V, A> {
    ghost fails_for_pairs_only = { ⊤ };

    fn lm_retain<F: FnMut(&K, &V) -> bool>(&mut self, f: F) {
        self.storage.retain(f);
    }
}

impl<K: Ord + Drop, V: Drop, A: Allocator + Copy> StoreFromIterable<K, V> for ShortStore<K, V, A> {
    ghost fails_for_pairs_only = { ⊤ };

    fn lm_sort_from_iter<I: IntoIterator<Item = (K, V)>>(
        alloc: A,
        iter: I,
        count: &mut Count,
    ) -> Result<Self, AllocError> {
        let storage = Storage::from_vec(Vec::lm_sort_from_iter(alloc, iter, count)?);
        Ok(ShortStore { alloc, storage })
    }
}

impl<K: Drop, V: Drop, A: Allocator + Copy> StoreFromIterator<K, V> for ShortStore<K, V, A> {
    ghost fails_for_pairs_only = { ⊤ };

    fn lm_from_pairs<I: IntoIterator<Item = (K, V)>>(
        alloc: A,
        iter: I,
    ) -> Result<Self, AllocError> {
        let storage = Storage::from_vec(Vec::lm_from_pairs(alloc, iter)?);
        Ok(ShortStore { alloc, storage })
    }
}

impl<K: Drop, V: Drop, A: Allocator + Copy> StoreIntoIterator<K, V> for ShortStore<K, V, A> {
    type KeyValueIntoIter = ShortIntoIter<K, V, A>;

    fn lm_into_iter(self) -> ShortIntoIter<K, V, A> {
        let (first, others) = self.storage.into_parts(self.alloc);
        ShortIntoIter::new(first, others)
    }
}
