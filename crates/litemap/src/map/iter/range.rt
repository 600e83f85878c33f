//! A double-ended iterator over the pairs between two indices of a store of any kind.
ghost use Rattle.std.specs.Prelude.{◌≡◌, ◌≤◌, Some, length, slice_get};
ghost use Rattle.std.specs.Iterator.{at_most};
ghost use Rattle.std.specs.Map.Iter.{TakesFirst, TakesLast, deref_pair};
ghost use Rattle.std.specs.Option.{option_map};
ghost use Rattle.litemap_store.specs.Hints.{HintsExactly};
ghost use Rattle.litemap_store.specs.Pairs.{sub};

use litemap_store::store::Store;
use std::fmt::{self, Debug, Formatter, Write};
use std::iter::FusedIterator;
use std::marker::{Model, PhantomData};
use std::ops::Range;

/// An iterator over the pairs of a map whose keys are within two bounds. A contract sees the list of those that are still to
/// come.
#[derive(Drop)]
#[derive_where(Clone)]
pub struct RangeIter<'a, K, V, S: Store<K, V>> {
    store: &'a S,
    start: usize,
    end: usize,
    marker: PhantomData<(K, V)>,
}

impl<'a, K, V, S: Store<K, V>> Model for RangeIter<'a, K, V, S> {
    ghost use Rattle.std.specs.Prelude.{◌-◌, ◌≤◌, List, drop, length, take};

    ghost Value = { List (K × V) };

    ghost view = { λ a. take (a.end - a.start) (drop a.start (S.pairs a.store.now)) };

    ghost invariant = { λ a. (a.start ≤ a.end) × (a.end ≤ length (S.pairs a.store.now)) };
}

impl<'a, K, V, S: Store<K, V>> RangeIter<'a, K, V, S> {
    pub(in crate::map) fn all(store: &'a S) -> Self
        ensures { result ≡ S.pairs store.now }
    {
        RangeIter::between(store, 0..store.lm_len())
    }

    pub(in crate::map) fn between(store: &'a S, indices: Range<usize>) -> Self
        requires ascend { indices.start ≤ indices.end }
        requires inside { indices.end ≤ length (S.pairs store.now) }
        ensures { sub (S.pairs store.now) indices.start indices.end ≡ Some result }
    {
        RangeIter {
            store,
            start: indices.start,
            end: indices.end,
            marker: PhantomData,
        }
    }

    // Returns the first pair, without taking it.
    pub(in crate::map) fn first(&self) -> Option<(&'a K, &'a V)>
        ensures { option_map deref_pair result ≡ slice_get self.now 0 }
    {
        if self.start == self.end {
            return None;
        }
        let store = self.store;
        store.lm_get(self.start)
    }
}

/// Formats the pairs still to come as a map. What is printed is not promised.
impl<'a, K: Debug, V: Debug, S: Store<K, V>> Debug for RangeIter<'a, K, V, S> {
    fn fmt<W: Write>(&self, f: &mut Formatter<W>) -> fmt::Result {
        let mut out = f.debug_map();
        for index in self.start..self.end {
            if let Some((key, value)) = self.store.lm_get(index) {
                out.entry(key, value);
            }
        }
        out.finish()
    }
}

impl<'a, K: 'a, V: 'a, S: Store<K, V>> Iterator for RangeIter<'a, K, V, S> {
    type Item = (&'a K, &'a V);

    ghost next_gives = { TakesFirst deref_pair };

    ghost remaining = { λ s. at_most (length s) };

    fn next(&mut self) -> Option<(&'a K, &'a V)> {
        let pair = self.first()?;
        self.start += 1;
        Some(pair)
    }

    fn size_hint(&self) -> (usize, Option<usize>)
        ensures { HintsExactly (length self.now) result }
    {
        let len = self.len();
        (len, Some(len))
    }
}

impl<'a, K: 'a, V: 'a, S: Store<K, V>> DoubleEndedIterator for RangeIter<'a, K, V, S> {
    ghost next_back_gives = { TakesLast deref_pair };

    fn next_back(&mut self) -> Option<(&'a K, &'a V)> {
        if self.start == self.end {
            return None;
        }
        let store = self.store;
        let pair = store.lm_get(self.end - 1).unwrap();
        self.end -= 1;
        Some(pair)
    }
}

impl<'a, K: 'a, V: 'a, S: Store<K, V>> ExactSizeIterator for RangeIter<'a, K, V, S> {
    fn len(&self) -> usize {
        self.end - self.start
    }
}

impl<'a, K: 'a, V: 'a, S: Store<K, V>> FusedIterator for RangeIter<'a, K, V, S> {}
