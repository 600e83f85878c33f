//! The iterators over the pairs of two columns.
ghost use Rattle.std.specs.Prelude.{◌≡◌, length, Some, refl};
ghost use Rattle.std.specs.Iterator.{YieldsFirst, at_most};
ghost use Rattle.std.specs.List.{zip};
ghost use Rattle.std.specs.Map.Iter.{TakesFirst, TakesLast, deref_pair};
ghost use Rattle.litemap_store.specs.Hints.{HintsExactly};

use litemap_store::slice_search::Keys;
use litemap_store::store::{PairIntoIter, PairIter};
use std::alloc::{Allocator, Global};
use std::marker::Model;
use std::vec::IntoIter;

/// An iterator over the pairs of two columns. A contract sees it as the list of the pairs that are still to come.
#[derive(Debug, Drop)]
pub struct ColumnIter<'a, K, V> {
    keys: &'a [K],
    values: &'a [V],
}

impl<'a, K, V> Model for ColumnIter<'a, K, V> {
    ghost use Rattle.std.specs.Prelude.{◌≡◌, List, length};
    ghost use Rattle.std.specs.List.{zip};

    ghost Value = { List (K × V) };

    ghost view = { λ a. zip a.keys.now a.values.now };

    ghost invariant = { λ a. length a.keys.now ≡ length a.values.now };
}

impl<'a, K, V> ColumnIter<'a, K, V> {
    // The iterator over keys, each with the value at its index.
    pub(crate) fn new(keys: &'a [K], values: &'a [V]) -> Self
        requires { length keys.now ≡ length values.now }
        ensures { result ≡ zip keys.now values.now }
    {
        ColumnIter { keys, values }
    }
}

impl<'a, K, V> Iterator for ColumnIter<'a, K, V> {
    type Item = (&'a K, &'a V);

    ghost next_gives = { TakesFirst deref_pair };

    ghost remaining = { λ s. at_most (length s) };

    fn next(&mut self) -> Option<(&'a K, &'a V)> {
        let (key, keys) = self.keys.split_first()?;
        let (value, values) = self.values.split_first()?;
        self.keys = keys;
        self.values = values;
        Some((key, value))
    }

    fn size_hint(&self) -> (usize, Option<usize>)
        ensures { HintsExactly (length self.now) result }
    {
        let len = self.len();
        (len, Some(len))
    }
}

impl<'a, K, V> DoubleEndedIterator for ColumnIter<'a, K, V> {
    ghost next_back_gives = { TakesLast deref_pair };

    fn next_back(&mut self) -> Option<(&'a K, &'a V)> {
        let (key, keys) = self.keys.split_last()?;
        let (value, values) = self.values.split_last()?;
        self.keys = keys;
        self.values = values;
        Some((key, value))
    }
}

impl<'a, K, V> ExactSizeIterator for ColumnIter<'a, K, V> {
    fn len(&self) -> usize {
        self.keys.len()
    }
}

impl<'a, K: 'a, V: 'a> PairIter<'a, K, V> for ColumnIter<'a, K, V> {
    ghost rest = { λ s. s };

    ghost goes_on = { λ _. tt };

    ghost goes_back = { λ _. tt };

    ghost first = { λ _ _ _ h. h };

    ghost last = { λ _ _ _ h. h };

    ghost count = { λ _. refl };

    fn lm_size_hint(&self) -> (usize, Option<usize>) {
        self.size_hint()
    }
}

impl<'a, K, V> Keys<K, V> for ColumnIter<'a, K, V> {
    ghost pairs = { λ s. s };

    fn key_count(&self) -> usize {
        self.len()
    }

    #[inline(always)]
    fn key_at(&self, index: usize) -> &K {
        let keys = self.keys;
        &keys[index]
    }
}

/// An iterator that returns the pairs of two columns by value. A contract sees it as the list of the pairs that are still to
/// come.
#[derive(Debug, Drop)]
pub struct ColumnIntoIter<K, V, A: Allocator = Global> {
    keys: IntoIter<K, A>,
    values: IntoIter<V, A>,
}

impl<K, V, A: Allocator> Model for ColumnIntoIter<K, V, A> {
    ghost use Rattle.std.specs.Prelude.{◌≡◌, List, length};
    ghost use Rattle.std.specs.List.{zip};
    ghost use Rattle.std.specs.Vec.Iter.{into_iter_items};

    ghost Value = { List (K × V) };

    ghost view = { λ a. zip (into_iter_items a.keys) (into_iter_items a.values) };

    ghost invariant = { λ a. length (into_iter_items a.keys) ≡ length (into_iter_items a.values) };
}

impl<K, V, A: Allocator> ColumnIntoIter<K, V, A> {
    // The iterator over keys, each with the value at its index.
    pub(crate) fn new(keys: Vec<K, A>, values: Vec<V, A>) -> Self
        requires { length keys.items ≡ length values.items }
        ensures { result ≡ zip keys.items values.items }
    {
        let (keys, values) = (keys.into_iter(), values.into_iter());
        ColumnIntoIter { keys, values }
    }
}

impl<K: Drop, V: Drop, A: Allocator> Iterator for ColumnIntoIter<K, V, A> {
    type Item = (K, V);

    ghost next_gives = { YieldsFirst (λ s. s) };

    ghost remaining = { λ s. at_most (length s) };

    fn next(&mut self) -> Option<(K, V)> {
        let key = self.keys.next()?;
        let value = self.values.next()?;
        Some((key, value))
    }

    fn size_hint(&self) -> (usize, Option<usize>)
        ensures { HintsExactly (length self.now) result }
    {
        let len = self.len();
        (len, Some(len))
    }
}

impl<K: Drop, V: Drop, A: Allocator> ExactSizeIterator for ColumnIntoIter<K, V, A> {
    fn len(&self) -> usize {
        self.keys.len()
    }
}

impl<K: Drop, V: Drop, A: Allocator> PairIntoIter<K, V> for ColumnIntoIter<K, V, A> {
    ghost owned = { λ s. s };

    ghost can = { λ _. tt };

    ghost first = { λ _ _ _ h. h };

    ghost count = { λ _. refl };

    fn lm_size_hint(&self) -> (usize, Option<usize>) {
        self.size_hint()
    }
}
