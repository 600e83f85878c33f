//! The iterator over the pairs of a short store, by value.
ghost use Rattle.std.specs.Prelude.{◌≡◌, [], length, Some, IfSome, Option, refl};
ghost use Rattle.std.specs.Iterator.{YieldsFirst, at_most};
ghost use Rattle.std.specs.Vec.Iter.{into_iter_items};
ghost use Rattle.litemap_store.specs.Hints.{HintsExactly};
ghost use Rattle.std.specs.List.{cons_option};

use litemap_store::store::PairIntoIter;
use std::alloc::{Allocator, Global};
use std::marker::Model;
use std::vec::IntoIter;

/// An iterator that returns the pairs of a short store by value. A contract sees it as the list of the pairs that are still to
/// come.
#[derive(Debug, Drop)]
pub struct ShortIntoIter<K, V, A: Allocator = Global> {
    first: Option<(K, V)>,
    others: IntoIter<(K, V), A>,
}

impl<K, V, A: Allocator> Model for ShortIntoIter<K, V, A> {
    ghost use Rattle.std.specs.Prelude.{◌≡◌, List, [], IfSome};
    ghost use Rattle.std.specs.Vec.Iter.{into_iter_items};
    ghost use Rattle.std.specs.List.{cons_option};

    ghost Value = { List (K × V) };

    ghost view = { λ a. cons_option a.first (into_iter_items a.others) };

    ghost invariant = { λ a. IfSome a.first (λ _. into_iter_items a.others ≡ []) };
}

impl<K, V, A: Allocator> ShortIntoIter<K, V, A> {
    // The iterator over the one pair, if there is one, and the others.
    pub(crate) fn new(first: Option<(K, V)>, others: IntoIter<(K, V), A>) -> Self
        requires { IfSome first (λ _. into_iter_items others ≡ []) }
        ensures { result ≡ cons_option first (into_iter_items others) }
    {
        ShortIntoIter { first, others }
    }
}

impl<K: Drop, V: Drop, A: Allocator> Iterator for ShortIntoIter<K, V, A> {
    type Item = (K, V);

    ghost next_gives = { YieldsFirst (λ s. s) };

    ghost remaining = { λ s. at_most (length s) };

    fn next(&mut self) -> Option<(K, V)> {
        match self.first.take() {
            Some(pair) => Some(pair),
            None => self.others.next(),
        }
    }

    fn size_hint(&self) -> (usize, Option<usize>)
        ensures { HintsExactly (length self.now) result }
    {
        let len = self.len();
        (len, Some(len))
    }
}

impl<K: Drop, V: Drop, A: Allocator> ExactSizeIterator for ShortIntoIter<K, V, A> {
    fn len(&self) -> usize {
        if self.first.is_some() {
            1
        } else {
            self.others.len()
        }
    }
}

impl<K: Drop, V: Drop, A: Allocator> PairIntoIter<K, V> for ShortIntoIter<K, V, A> {
    ghost owned = { λ s. s };

    ghost can = { λ _. tt };

    ghost first = { λ _ _ _ h. h };

    ghost count = { λ _. refl };

    fn lm_size_hint(&self) -> (usize, Option<usize>) {
        self.size_hint()
    }
}
