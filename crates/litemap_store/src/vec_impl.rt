//! A vector of pairs as a store. Its room is its capacity less its length.
ghost use Rattle.std.specs.Prelude.{⊤, ◌≡◌, ◌≤◌, vec_capacity, vec_len};
ghost use Rattle.litemap_store.specs.{CallableOnEach, Kept, vec_keeps_room, vec_room, vec_with_value, vec_writes};

use crate::bulk::append_items;
use crate::bulk::vector::{put_in_vec, settle};
use crate::reserved::remove_at;
use crate::retain::{SwapStore, retain};
use crate::slice_search;
use crate::store::{
    Count, KeepsMemory, NoRoom, SliceIter, SliceStore, Store, StoreAlloc, StoreBulkMut,
    StoreConstEmpty, StoreFromIterable, StoreFromIterator, StoreIn, StoreIterable, StoreMut,
    StoreSlice,
};
use std::alloc::{AllocError, Allocator};
use std::cmp::Ordering;
use std::mem;
use std::ops::Range;

impl<K, V, A: Allocator> Store<K, V> for Vec<(K, V), A> {
    ghost pairs = { λ v. v.items };

    ghost room = { vec_room };

    fn lm_len(&self) -> usize {
        self.len()
    }

    fn lm_get(&self, index: usize) -> Option<(&K, &V)> {
        let (key, value) = self.as_slice().get(index)?;
        Some((key, value))
    }

    fn lm_binary_search_by<F: FnMut(&K) -> Ordering>(
        &self,
        f: F,
        count: &mut Count,
    ) -> Result<usize, usize> {
        slice_search::find(&SliceStore::new(self.as_slice()), f, count)
    }
}

impl<K, V, A: Allocator + Copy> StoreIn<K, V> for Vec<(K, V), A> {
    type Alloc = A;
}

impl<K, V, A: Allocator + Copy> StoreConstEmpty<K, V> for Vec<(K, V), A> {
    ghost empty_room = { λ room. room ≡ 0 };

    fn lm_empty(alloc: A) -> Self {
        Vec::new(alloc)
    }
}

impl<K, V, A: Allocator + Copy> StoreAlloc<K, V> for Vec<(K, V), A> {
    fn lm_alloc(&self) -> A {
        *self.allocator()
    }
}

impl<K, V, A: Allocator> StoreSlice<K, V> for Vec<(K, V), A> {
    fn lm_get_range(&self, range: Range<usize>) -> Option<&[(K, V)]> {
        self.as_slice().get(range)
    }
}

impl<K, V, A: Allocator + Copy> KeepsMemory<K, V> for Vec<(K, V), A> {
    ghost keeps = { tt };
}

impl<K, V, A: Allocator + Copy> StoreMut<K, V> for Vec<(K, V), A> {
    ghost with_value = { vec_with_value };

    ghost keeps_memory = { ⊤ };

    fn lm_with_capacity(alloc: A, capacity: usize) -> Result<Self, AllocError> {
        Vec::with_capacity(alloc, capacity)
    }

    fn lm_reserve(&mut self, additional: usize) -> Result<(), AllocError> {
        self.reserve(additional)
    }

    fn lm_pair_mut(&mut self, index: usize) -> (&K, &mut V) {
        let pair = &mut self[index];
        (&pair.0, &mut pair.1)
    }

    fn lm_replace(&mut self, index: usize, key: K, value: V) -> (K, V) {
        mem::replace(&mut self[index], (key, value))
    }

    fn lm_push(&mut self, key: K, value: V) -> Result<(), NoRoom<(K, V)>> {
        match self.push((key, value)) {
            Ok(()) => Ok(()),
            Err(refused) => Err(NoRoom {
                back: refused.value,
            }),
        }
    }

    fn lm_insert(&mut self, index: usize, key: K, value: V) -> Result<(), NoRoom<(K, V)>> {
        // One move of all later pairs.
        self.lm_push(key, value)?;
        self[index..].rotate_right(1);
        Ok(())
    }

    fn lm_remove(&mut self, index: usize) -> (K, V) {
        if index == self.len() - 1 {
            return self.take_last();
        }
        remove_at(self, index)
    }

    fn lm_clear(&mut self)
    where
        K: Drop,
        V: Drop,
    {
        self.clear();
    }

    fn lm_try_clone(&self, alloc: A) -> Result<Self, AllocError>
    where
        K: Clone,
        V: Clone,
        Self: Drop,
    {
        if self.is_empty() {
            return Ok(Vec::new(alloc));
        }
        Vec::from_clones(alloc, self.as_slice())
    }

    ghost writes = { vec_writes };

    ghost keeps_room = { vec_keeps_room };
}

impl<K: Drop, V: Drop, A: Allocator> SwapStore<K, V> for Vec<(K, V), A> {
    fn lm_pair(&self, index: usize) -> (&K, &V) {
        let pair = &self[index];
        (&pair.0, &pair.1)
    }

    fn lm_swap(&mut self, a: usize, b: usize) {
        self.swap(a, b);
    }

    fn lm_truncate(&mut self, len: usize) {
        self.truncate(len);
    }
}

impl<K: Ord + Drop, V: Drop, A: Allocator + Copy> StoreBulkMut<K, V> for Vec<(K, V), A> {
    ghost fails_for_pairs_only = { ⊤ };

    // Its contract takes the place of the trait's: it says length and capacity, from which the room follows.
    fn lm_retain<F: FnMut(&K, &V) -> bool>(&mut self, mut f: F)
        requires { CallableOnEach F.FnMut f self.old.items }
        ensures kept { Kept F.FnMut f self.old.items self.new.items }
        ensures shorter { vec_len self.new ≤ vec_len self.old }
        ensures capacity { vec_capacity self.new ≡ vec_capacity self.old }
    {
        retain(self, &mut f);
    }

    fn lm_extend<I: IntoIterator<Item = (K, V)>>(
        &mut self,
        alloc: A,
        iter: I,
        count: &mut Count,
    ) -> Result<(), AllocError> {
        let len = self.len();
        if let Err(refused) = append_items(self, iter) {
            return Err(count.refuse(refused, AllocError));
        }
        match settle(alloc, self, len, count) {
            Ok(()) => Ok(()),
            Err(refused) => Err(count.refuse(refused, AllocError)),
        }
    }

    fn lm_extend_from_vec(
        &mut self,
        alloc: A,
        given: &mut Vec<(K, V), A>,
        count: &mut Count,
    ) -> Result<(), AllocError> {
        match put_in_vec(alloc, self, given, count) {
            Ok(()) => Ok(()),
            Err(refused) => Err(count.refuse(refused, AllocError)),
        }
    }

    fn lm_sort_from_vec(
        alloc: A,
        given: &mut Vec<(K, V), A>,
        count: &mut Count,
    ) -> Result<Self, AllocError> {
        let mut pairs = Self::new(alloc);
        pairs.lm_extend_from_vec(alloc, given, count)?;
        Ok(pairs)
    }
}

impl<'a, K: 'a, V: 'a, A: Allocator> StoreIterable<'a, K, V> for Vec<(K, V), A> {
    type KeyValueIter = SliceIter<'a, K, V>;

    fn lm_iter(&'a self) -> SliceIter<'a, K, V> {
        SliceIter::new(self.as_slice())
    }
}

impl<K: Ord + Drop, V: Drop, A: Allocator + Copy> StoreFromIterable<K, V> for Vec<(K, V), A> {
    ghost fails_for_pairs_only = { ⊤ };

    fn lm_sort_from_iter<I: IntoIterator<Item = (K, V)>>(
        alloc: A,
        iter: I,
        count: &mut Count,
    ) -> Result<Self, AllocError> {
        let mut pairs = Self::new(alloc);
        pairs.lm_extend(alloc, iter, count)?;
        Ok(pairs)
    }
}

impl<K: Drop, V: Drop, A: Allocator + Copy> StoreFromIterator<K, V> for Vec<(K, V), A> {
    ghost fails_for_pairs_only = { ⊤ };

    fn lm_from_pairs<I: IntoIterator<Item = (K, V)>>(
        alloc: A,
        iter: I,
    ) -> Result<Self, AllocError> {
        let mut pairs = Self::new(alloc);
        let Ok(()) = append_items(&mut pairs, iter) else {
            return Err(AllocError);
        };
        Ok(pairs)
    }
}
