//! The iterator over keys and lent values of two columns.
ghost use Rattle.std.specs.Prelude.{◌≡◌, length};
ghost use Rattle.std.specs.Iterator.{at_most};
ghost use Rattle.std.specs.List.{zip};
ghost use Rattle.std.specs.Map.Iter.{TakesFirst, deref_pair_mut};
ghost use Rattle.litemap_store.specs.IterMut.{iter_mut_left, iter_mut_loan};

use std::slice;

/// The pairs that are still to come, each value lent (own). It has no model, so that a contract can follow the loan.
#[derive(Drop)]
pub struct IterMut<'a, K, V> {
    keys: slice::Iter<'a, K>,
    values: slice::IterMut<'a, V>,
}

impl<'a, K, V> IterMut<'a, K, V> {
    /// Returns an iterator over the pairs of two columns.
    pub fn new(keys: &'a [K], values: &'a mut [V]) -> Self
        ensures left { iter_mut_left result ≡ zip keys.now values.old }
        ensures loan { iter_mut_loan result ≡ values.entry.ghost_name }
    {
        IterMut {
            keys: keys.iter(),
            values: values.iter_mut(),
        }
    }
}

impl<'a, K, V> Iterator for IterMut<'a, K, V> {
    type Item = (&'a K, &'a mut V);

    ghost next_gives = { λ s r t. TakesFirst deref_pair_mut (iter_mut_left s) r (iter_mut_left t) };

    ghost remaining = { λ s. at_most (length (iter_mut_left s)) };

    fn next(&mut self) -> Option<(&'a K, &'a mut V)> {
        // It tests both, so that it asks nothing of a caller.
        if self.values.len() == 0 {
            return None;
        }
        let Some(key) = self.keys.next() else {
            return None;
        };
        Some((key, self.values.next().unwrap()))
    }
}
