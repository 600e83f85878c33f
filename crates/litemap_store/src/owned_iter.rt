//! Iterators over the keys and over the values of a store's pairs, by value.
ghost use Rattle.std.specs.Prelude.{◌≡◌, length};
ghost use Rattle.std.specs.Iterator.{YieldsFirst, at_most};
ghost use Rattle.std.specs.Map.{keys_of, values_of};
ghost use Rattle.litemap_store.specs.{HintsExactly};

use crate::store::PairIntoIter;
use std::marker::{Model, PhantomData};

/// An iterator over keys by value (own). It drops their values. A contract sees the iterator over their pairs.
#[derive(Debug, Drop)]
pub struct IntoKeys<K, V, I> {
    iter: I,
    marker: PhantomData<(K, V)>,
}

impl<K, V, I> Model for IntoKeys<K, V, I> {
    ghost Value = { I };

    ghost view = { λ w. w.iter };
}

impl<K, V, I> IntoKeys<K, V, I> {
    /// Returns an iterator over the keys of the pairs that another one yields.
    pub fn new(iter: I) -> Self
        ensures { result ≡ iter }
    {
        IntoKeys {
            iter,
            marker: PhantomData,
        }
    }
}

impl<K, V: Drop, I: PairIntoIter<K, V>> Iterator for IntoKeys<K, V, I> {
    type Item = K;

    ghost next_gives = { YieldsFirst (λ s. keys_of (I.owned s)) };

    ghost remaining = { λ s. at_most (length (I.owned s)) };

    fn next(&mut self) -> Option<K> {
        Some(self.iter.next()?.0)
    }

    fn size_hint(&self) -> (usize, Option<usize>)
        ensures { HintsExactly (length (I.owned self.now)) result }
    {
        self.iter.lm_size_hint()
    }
}

impl<K, V: Drop, I: PairIntoIter<K, V>> ExactSizeIterator for IntoKeys<K, V, I> {
    fn len(&self) -> usize {
        self.iter.len()
    }
}

/// An iterator over values by value (own). It drops their keys. A contract sees the iterator over their pairs.
#[derive(Debug, Drop)]
pub struct IntoValues<K, V, I> {
    iter: I,
    marker: PhantomData<(K, V)>,
}

impl<K, V, I> Model for IntoValues<K, V, I> {
    ghost Value = { I };

    ghost view = { λ w. w.iter };
}

impl<K, V, I> IntoValues<K, V, I> {
    /// Returns an iterator over the values of the pairs that another one yields.
    pub fn new(iter: I) -> Self
        ensures { result ≡ iter }
    {
        IntoValues {
            iter,
            marker: PhantomData,
        }
    }
}

impl<K: Drop, V, I: PairIntoIter<K, V>> Iterator for IntoValues<K, V, I> {
    type Item = V;

    ghost next_gives = { YieldsFirst (λ s. values_of (I.owned s)) };

    ghost remaining = { λ s. at_most (length (I.owned s)) };

    fn next(&mut self) -> Option<V> {
        Some(self.iter.next()?.1)
    }

    fn size_hint(&self) -> (usize, Option<usize>)
        ensures { HintsExactly (length (I.owned self.now)) result }
    {
        self.iter.lm_size_hint()
    }
}

impl<K: Drop, V, I: PairIntoIter<K, V>> ExactSizeIterator for IntoValues<K, V, I> {
    fn len(&self) -> usize {
        self.iter.len()
    }
}
