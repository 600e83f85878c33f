//! A borrowed slice of pairs as a store.
ghost use Rattle.std.specs.Prelude.{◌≡◌, ⊤, Some, length, slice_get};

use crate::slice_search::{self, Keys};
use crate::store::{Count, SliceIter, Store, StoreConstEmpty, StoreIn, StoreIterable, StoreSlice};
use std::alloc::{AllocError, Global};
use std::cmp::Ordering;
use std::ops::Range;

/// The pairs of a slice that someone else keeps. It cannot grow.
///
/// The Rust crate has the slice itself as a store.
#[derive(Debug)]
pub struct SliceStore<'a, K, V> {
    /// The pairs.
    pub pairs: &'a [(K, V)],
}

impl<'a, K, V> Clone for SliceStore<'a, K, V> {
    ghost is_clone = { λ s t. t ≡ s };

    ghost is_infallible = { λ _. ⊤ };

    fn clone(&self) -> Result<Self, AllocError> {
        Ok(*self)
    }
}

impl<'a, K, V> Copy for SliceStore<'a, K, V> {}

impl<'a, K, V> SliceStore<'a, K, V> {
    /// Returns the store of a slice's pairs (own).
    pub fn new(pairs: &'a [(K, V)]) -> Self
        ensures { result.pairs.now ≡ pairs.now }
    {
        SliceStore { pairs }
    }
}

impl<'a, K, V> Store<K, V> for SliceStore<'a, K, V> {
    ghost pairs = { λ s. s.pairs.now };

    fn lm_len(&self) -> usize {
        self.pairs.len()
    }

    fn lm_get(&self, index: usize) -> Option<(&K, &V)> {
        let (key, value) = self.pairs.get(index)?;
        Some((key, value))
    }

    fn lm_binary_search_by<F: FnMut(&K) -> Ordering>(
        &self,
        f: F,
        count: &mut Count,
    ) -> Result<usize, usize> {
        slice_search::find(self, f, count)
    }
}

impl<'a, K, V> Keys<K, V> for SliceStore<'a, K, V> {
    ghost pairs = { λ s. s.pairs.now };

    fn key_count(&self) -> usize {
        self.pairs.len()
    }

    #[inline(always)]
    fn key_at(&self, index: usize) -> &K {
        let pairs = self.pairs;
        let pair = &pairs[index];
        &pair.0
    }
}

impl<'a, K, V> StoreIn<K, V> for SliceStore<'a, K, V> {
    type Alloc = Global;
}

impl<'a, K, V> StoreConstEmpty<K, V> for SliceStore<'a, K, V> {
    fn lm_empty(alloc: Global) -> Self {
        SliceStore { pairs: &[] }
    }
}

impl<'a, K, V> StoreSlice<K, V> for SliceStore<'a, K, V> {
    fn lm_get_range(&self, range: Range<usize>) -> Option<&[(K, V)]> {
        self.pairs.get(range)
    }
}

impl<'s, 'a, K: 'a, V: 'a> StoreIterable<'a, K, V> for SliceStore<'s, K, V> {
    type KeyValueIter = SliceIter<'a, K, V>;

    fn lm_iter(&'a self) -> SliceIter<'a, K, V> {
        SliceIter::new(self.pairs)
    }
}
