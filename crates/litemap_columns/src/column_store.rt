//! A vector of keys and a vector of values as a store.
ghost use Rattle.std.specs.Prelude.{⊤, ◌≡◌, ◌+◌, ◌≤◌, ◌<◌, ◌++◌, length, min, refl, vec_capacity, vec_len};
ghost use Rattle.std.specs.List.{zip};
ghost use Rattle.std.specs.Map.{keys_of, values_of};
ghost use Rattle.litemap_columns.specs.Columns.{columns};
ghost use Rattle.litemap_store.specs.Contents.{with_pairs, with_value};
ghost use Rattle.litemap_store.specs.Lent.{set_values};
ghost use Rattle.litemap_store.specs.Retain.{CallableOnEach, Kept};
ghost use Rattle.litemap_store.specs.VecStore.{vec_room};

use crate::column_iter::{ColumnIntoIter, ColumnIter};
use litemap_store::growth::with_capacity;
use litemap_store::reserved::{insert_reserved, remove_at};
use litemap_store::retain::{SwapStore, retain};
use litemap_store::slice_search;
use litemap_store::store::{
    Count, KeepsMemory, NoRoom, Store, StoreAlloc, StoreBulkMut, StoreColumns, StoreConstEmpty,
    StoreFromIterable, StoreFromIterator, StoreIn, StoreIntoIterator, StoreIterable, StoreMut,
};
use std::alloc::{AllocError, Allocator, Global};
use std::cmp::Ordering;
use std::marker::Model;
use std::mem;

/// A store of two vectors: one of keys, and one of the values that belong to them.
///
/// A search reads the keys alone, which lie side by side whatever the size of the values: that is what it is for. An insertion
/// or a removal moves the later keys and the later values.
#[derive(Debug, Drop)]
pub struct ColumnStore<K, V, A: Allocator = Global> {
    keys: Vec<K, A>,
    values: Vec<V, A>,
}

impl<K, V, A: Allocator> Model for ColumnStore<K, V, A> {
    ghost use Rattle.std.specs.Prelude.{◌≡◌, vec_len};
    ghost use Rattle.litemap_columns.specs.Columns.{columns};
    ghost use Rattle.litemap_store.specs.Contents.{Contents};

    ghost Value = { Contents K V };

    ghost view = { λ s. columns s.keys s.values };

    ghost invariant = { λ s. vec_len s.keys ≡ vec_len s.values };
}

impl<K, V, A: Allocator> ColumnStore<K, V, A> {
    /// Makes a store of a vector of keys and a vector of as many values, where each key has the value at its index. Its room is
    /// the smaller of theirs. It takes no memory, and compares and moves no keys.
    ///
    /// For a map over it the keys have to ascend, as `from_sorted_store_unchecked` requires.
    ///
    /// ```rust
    /// let numbers = [1, 3].to_vec(alloc)?;
    /// let names = ["Monday", "Wednesday"].to_vec(alloc)?;
    /// let days = ColumnStore::from_columns(numbers, names);
    /// Ok(days.lm_get(1) == Some((&3, &"Wednesday")))
    /// ```
    pub fn from_columns(keys: Vec<K, A>, values: Vec<V, A>) -> Self
        requires { vec_len keys ≡ vec_len values }
        ensures { result ≡ columns keys values }
    {
        ColumnStore { keys, values }
    }

    /// Returns the vector of the keys and that of the values, in the order of the pairs, with all their memory. It takes no
    /// memory, and compares and moves no keys.
    ///
    /// ```rust
    /// let days = ColumnStore::lm_from_pairs(alloc, [(1, "Monday"), (3, "Wednesday")])?;
    /// let (numbers, names) = days.into_columns();
    /// Ok(numbers.as_slice() == [1, 3].as_slice() && names.get(1) == Some(&"Wednesday"))
    /// ```
    pub fn into_columns(self) -> (Vec<K, A>, Vec<V, A>)
        ensures keys { result.0.items ≡ keys_of self.entries }
        ensures values { result.1.items ≡ values_of self.entries }
        ensures room { min (vec_room result.0) (vec_room result.1) ≡ self.room }
    {
        (self.keys, self.values)
    }
}

impl<K, V, A: Allocator> Store<K, V> for ColumnStore<K, V, A> {
    ghost pairs = { λ s. s.entries };

    ghost room = { λ s. s.room };

    fn lm_len(&self) -> usize {
        self.keys.len()
    }

    fn lm_get(&self, index: usize) -> Option<(&K, &V)> {
        if index < self.keys.len() {
            Some((&self.keys[index], &self.values[index]))
        } else {
            None
        }
    }

    fn lm_binary_search_by<F: FnMut(&K) -> Ordering>(
        &self,
        f: F,
        count: &mut Count,
    ) -> Result<usize, usize> {
        // The search needs only keys by index (`Keys`), which `ColumnIter` has too.
        slice_search::find(&self.lm_iter(), f, count)
    }
}

impl<K, V, A: Allocator + Copy> StoreIn<K, V> for ColumnStore<K, V, A> {
    type Alloc = A;
}

impl<K, V, A: Allocator + Copy> StoreAlloc<K, V> for ColumnStore<K, V, A> {
    fn lm_alloc(&self) -> A {
        *self.keys.allocator()
    }
}

impl<K, V, A: Allocator + Copy> StoreConstEmpty<K, V> for ColumnStore<K, V, A> {
    ghost empty_room = { λ room. room ≡ 0 };

    fn lm_empty(alloc: A) -> Self {
        let (keys, values) = (Vec::new(alloc), Vec::new(alloc));
        ColumnStore { keys, values }
    }
}

impl<K, V, A: Allocator + Copy> StoreMut<K, V> for ColumnStore<K, V, A> {
    ghost with_value = { with_value };

    ghost keeps_memory = { ⊤ };

    fn lm_with_capacity(alloc: A, capacity: usize) -> Result<Self, AllocError> {
        let keys = Vec::with_capacity(alloc, capacity)?;
        match Vec::with_capacity(alloc, capacity) {
            Ok(values) => Ok(ColumnStore { keys, values }),
            Err(refused) => {
                // `K` need not be `Drop`, so the vector can't just go out of scope: this call frees an empty one.
                keys.destroy_empty();
                Err(refused)
            }
        }
    }

    fn lm_reserve(&mut self, additional: usize) -> Result<(), AllocError> {
        self.keys.reserve(additional)?;
        self.values.reserve(additional)
    }

    fn lm_pair_mut(&mut self, index: usize) -> (&K, &mut V) {
        (&self.keys[index], &mut self.values[index])
    }

    fn lm_replace(&mut self, index: usize, key: K, value: V) -> (K, V) {
        let old_key = mem::replace(&mut self.keys[index], key);
        let old_value = mem::replace(&mut self.values[index], value);
        (old_key, old_value)
    }

    fn lm_push(&mut self, key: K, value: V) -> Result<(), NoRoom<(K, V)>> {
        if self.lm_reserve(1).is_err() {
            return Err(NoRoom { back: (key, value) });
        }
        self.keys.push_reserved(key);
        self.values.push_reserved(value);
        Ok(())
    }

    fn lm_insert(&mut self, index: usize, key: K, value: V) -> Result<(), NoRoom<(K, V)>> {
        if self.lm_reserve(1).is_err() {
            return Err(NoRoom { back: (key, value) });
        }
        insert_reserved(&mut self.keys, index, key);
        insert_reserved(&mut self.values, index, value);
        Ok(())
    }

    fn lm_remove(&mut self, index: usize) -> (K, V) {
        let key = remove_at(&mut self.keys, index);
        let value = remove_at(&mut self.values, index);
        (key, value)
    }

    fn lm_clear(&mut self)
    where
        K: Drop,
        V: Drop,
    {
        self.keys.clear();
        self.values.clear();
    }

    fn lm_try_clone(&self, alloc: A) -> Result<Self, AllocError>
    where
        K: Clone,
        V: Clone,
        Self: Drop,
    {
        if self.lm_is_empty() {
            return Ok(Self::lm_empty(alloc));
        }
        let keys = Vec::from_clones(alloc, self.keys.as_slice())?;
        let values = Vec::from_clones(alloc, self.values.as_slice())?;
        Ok(ColumnStore { keys, values })
    }

    ghost writes = { λ s i v. refl };

    ghost keeps_room = { λ s i v. refl };
}

impl<K: Drop, V: Drop, A: Allocator> SwapStore<K, V> for ColumnStore<K, V, A> {
    fn lm_pair(&self, index: usize) -> (&K, &V) {
        (&self.keys[index], &self.values[index])
    }

    fn lm_swap(&mut self, a: usize, b: usize) {
        self.keys.swap(a, b);
        self.values.swap(a, b);
    }

    fn lm_truncate(&mut self, len: usize) {
        self.keys.truncate(len);
        self.values.truncate(len);
    }
}

impl<K, V, A: Allocator + Copy> KeepsMemory<K, V> for ColumnStore<K, V, A> {
    ghost keeps = { tt };
}

impl<K: Ord + Drop, V: Drop, A: Allocator + Copy> StoreBulkMut<K, V> for ColumnStore<K, V, A> {
    ghost fails_for_pairs_only = { ⊤ };

    fn lm_retain<F: FnMut(&K, &V) -> bool>(&mut self, mut f: F)
        requires { CallableOnEach F.FnMut f self.old.entries }
        ensures kept { Kept F.FnMut f self.old.entries self.new.entries }
        ensures memory { self.new.room + length self.new.entries ≡ self.old.room + length self.old.entries }
    {
        retain(self, &mut f);
    }
}

impl<'a, K: 'a, V: 'a, A: Allocator> StoreIterable<'a, K, V> for ColumnStore<K, V, A> {
    type KeyValueIter = ColumnIter<'a, K, V>;

    fn lm_iter(&'a self) -> ColumnIter<'a, K, V> {
        ColumnIter::new(self.keys.as_slice(), self.values.as_slice())
    }
}

impl<K: Ord + Drop, V: Drop, A: Allocator + Copy> StoreFromIterable<K, V> for ColumnStore<K, V, A> {
    ghost fails_for_pairs_only = { ⊤ };

    fn lm_sort_from_iter<I: IntoIterator<Item = (K, V)>>(
        alloc: A,
        iter: I,
        count: &mut Count,
    ) -> Result<Self, AllocError> {
        let pairs = Vec::lm_sort_from_iter(alloc, iter, count)?;
        let ColumnStore {
            mut keys,
            mut values,
        } = match with_capacity(alloc, pairs.len()) {
            Ok(store) => store,
            Err(refused) => return Err(count.refuse(refused, AllocError)),
        };
        for (key, value) in pairs {
            keys.push_reserved(key);
            values.push_reserved(value);
        }
        Ok(ColumnStore { keys, values })
    }
}

impl<K: Drop, V: Drop, A: Allocator + Copy> StoreFromIterator<K, V> for ColumnStore<K, V, A> {
    ghost fails_for_pairs_only = { ⊤ };

    fn lm_from_pairs<I: IntoIterator<Item = (K, V)>>(
        alloc: A,
        iter: I,
    ) -> Result<Self, AllocError> {
        let (mut keys, mut values) = (Vec::new(alloc), Vec::new(alloc));
        for (key, value) in iter {
            keys.push(key)?;
            values.push(value)?;
        }
        Ok(ColumnStore { keys, values })
    }
}

impl<K: Drop, V: Drop, A: Allocator + Copy> StoreIntoIterator<K, V> for ColumnStore<K, V, A> {
    type KeyValueIntoIter = ColumnIntoIter<K, V, A>;

    fn lm_into_iter(self) -> ColumnIntoIter<K, V, A> {
        ColumnIntoIter::new(self.keys, self.values)
    }

    fn lm_extend_end(&mut self, mut other: Self) -> Result<(), NoRoom<Self>> {
        let Ok(()) = self.lm_reserve(other.keys.len()) else {
            return Err(NoRoom { back: other });
        };
        append_reserved(&mut self.keys, &mut other.keys);
        append_reserved(&mut self.values, &mut other.values);
        Ok(())
    }
}

// Moves the items of another vector to the end of this one, whose capacity has room for them.
fn append_reserved<T: Drop, A: Allocator>(items: &mut Vec<T, A>, other: &mut Vec<T, A>)
    requires { vec_len items.old + vec_len other.old ≤ vec_capacity items.old }
    ensures items { items.new.items ≡ items.old.items ++ other.old.items }
    ensures len { vec_len items.new ≡ vec_len items.old + vec_len other.old }
{
    items.append(other).unwrap();
}

impl<K, V, A: Allocator + Copy> StoreColumns<K, V> for ColumnStore<K, V, A> {
    ghost with_values = { λ s values. with_pairs s (set_values s.entries values) };

    fn lm_columns(&self) -> (&[K], &[V]) {
        (self.keys.as_slice(), self.values.as_slice())
    }

    fn lm_columns_mut(&mut self) -> (&[K], &mut [V]) {
        (self.keys.as_slice(), self.values.as_mut_slice())
    }

    ghost writes_all = { λ _ _. refl };

    ghost keeps_room_all = { λ _ _. refl };
}
