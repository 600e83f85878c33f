//! The iterator over the pairs of a slice.
ghost use Rattle.std.specs.Prelude.{◌≡◌, ⊤, length, refl};
ghost use Rattle.std.specs.Iterator.{at_most};
ghost use Rattle.std.specs.Map.Iter.{TakesFirst, TakesLast, deref_pair};
ghost use Rattle.litemap_store.specs.{HintsExactly};

use crate::store::PairIter;
use std::alloc::AllocError;
use std::iter::FusedIterator;
use std::marker::Model;

/// The pairs of a slice that are still to come. A contract sees their list.
///
/// The Rust crate has std's `Map` over a slice's iterator here.
#[derive(Debug, Drop)]
pub struct SliceIter<'a, K, V> {
    rest: &'a [(K, V)],
}

impl<'a, K, V> Model for SliceIter<'a, K, V> {
    ghost use Rattle.std.specs.Prelude.{List};

    ghost Value = { List (K × V) };

    ghost view = { λ a. a.rest.now };
}

impl<'a, K, V> SliceIter<'a, K, V> {
    /// Returns an iterator over all pairs of a slice (own).
    pub fn new(pairs: &'a [(K, V)]) -> Self
        ensures { result ≡ pairs.now }
    {
        SliceIter { rest: pairs }
    }
}

impl<'a, K, V> Clone for SliceIter<'a, K, V> {
    ghost is_clone = { λ s t. t ≡ s };

    ghost is_infallible = { λ _. ⊤ };

    fn clone(&self) -> Result<Self, AllocError> {
        Ok(SliceIter { rest: self.rest })
    }
}

impl<'a, K, V> Iterator for SliceIter<'a, K, V> {
    type Item = (&'a K, &'a V);

    ghost next_gives = { TakesFirst deref_pair };

    ghost remaining = { λ s. at_most (length s) };

    fn next(&mut self) -> Option<(&'a K, &'a V)> {
        let (first, others) = self.rest.split_first()?;
        self.rest = others;
        Some((&first.0, &first.1))
    }

    fn size_hint(&self) -> (usize, Option<usize>)
        ensures { HintsExactly (length self.now) result }
    {
        let len = self.len();
        (len, Some(len))
    }
}

impl<'a, K, V> DoubleEndedIterator for SliceIter<'a, K, V> {
    ghost next_back_gives = { TakesLast deref_pair };

    fn next_back(&mut self) -> Option<(&'a K, &'a V)> {
        let (last, others) = self.rest.split_last()?;
        self.rest = others;
        Some((&last.0, &last.1))
    }
}

impl<'a, K, V> ExactSizeIterator for SliceIter<'a, K, V> {
    fn len(&self) -> usize {
        self.rest.len()
    }
}

impl<'a, K, V> FusedIterator for SliceIter<'a, K, V> {}

impl<'a, K: 'a, V: 'a> PairIter<'a, K, V> for SliceIter<'a, K, V> {
    ghost rest = { λ s. s };

    ghost goes_on = { λ _. tt };

    ghost goes_back = { λ _. tt };

    ghost first = { λ _ _ _ h. h };

    ghost last = { λ _ _ _ h. h };

    ghost count = { λ _. refl };

    fn lm_size_hint(&self) -> (usize, Option<usize>) {
        self.size_hint()
    }
}
