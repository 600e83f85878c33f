//! Iterators over the pairs, the keys or the values of a map, double-ended unless they are by value. None takes memory. After
//! `None` they return `None` for good.
ghost use Rattle.std.specs.Prelude.{◌≡◌, All, length, Some};
ghost use Rattle.std.specs.Iterator.{at_most};
ghost use Rattle.std.specs.Map.{keys_of, values_of};
ghost use Rattle.std.specs.Map.Iter.{TakesFirst, TakesLast, deref, deref_pair};
ghost use Rattle.litemap_store.specs.Hints.{HintsExactly};
ghost use Rattle.litemap_store.specs.Pairs.{Rising, at};
ghost use Rattle.litemap.specs.Runs.{KeysInOrder, RunsInOrder, ValuesInOrder};

mod range;

use crate::LiteMap;
use litemap_store::store::{IntoKeys, IntoValues, PairIter, StoreIntoIterator, StoreIterable};
pub use range::RangeIter;
use std::iter::FusedIterator;
use std::marker::{Model, PhantomData};

/// ```rust
/// // days: 1 Monday, 3 Wednesday, 5 Friday
/// let keys = days.keys().next() == days.iter_keys().next();
/// let values = days.values().next() == days.iter_values().next();
/// keys && values && days.keys().len() == 3 && days.iter().next_back() == Some((&5, &"Friday"))
/// ```
impl<'a, K: Ord + 'a, V: 'a, S: StoreIterable<'a, K, V>> LiteMap<K, V, S> {
    /// Returns an iterator over all pairs, in the order of their keys. Each step takes constant time.
    pub fn iter(&'a self) -> S::KeyValueIter
        ensures rest { S.KeyValueIter.rest result ≡ self.now.entries }
        ensures rising { Rising K.cmp self.now.entries }
        ensures runs { RunsInOrder S.KeyValueIter.next_gives (deref_pair {K = K} {X = V}) S.KeyValueIter.rest }
        // Each pair is what its key finds.
        ensures found { All (λ p. at K.cmp self.now.entries p.0 ≡ Some p) self.now.entries }
    {
        self.store.lm_iter()
    }

    /// Deprecated: use `keys`. Returns an iterator over all keys, in their order.
    #[deprecated = "use keys() instead"]
    pub fn iter_keys(&'a self) -> KeysIterWrap<'a, K, V, S::KeyValueIter>
        ensures rest { S.KeyValueIter.rest result ≡ self.now.entries }
        ensures rising { Rising K.cmp self.now.entries }
    {
        self.keys()
    }

    /// Deprecated: use `values`. Returns an iterator over all values, in the order of their keys.
    #[deprecated = "use values() instead"]
    pub fn iter_values(&'a self) -> ValuesIterWrap<'a, K, V, S::KeyValueIter>
        ensures rest { S.KeyValueIter.rest result ≡ self.now.entries }
        ensures rising { Rising K.cmp self.now.entries }
    {
        self.values()
    }

    /// Returns an iterator over all keys, in their order. Each step takes constant time.
    pub fn keys(&'a self) -> KeysIterWrap<'a, K, V, S::KeyValueIter>
        ensures rest { S.KeyValueIter.rest result ≡ self.now.entries }
        ensures rising { Rising K.cmp self.now.entries }
        ensures runs { KeysInOrder S.KeyValueIter.rest }
    {
        KeysIterWrap {
            iter: self.iter(),
            marker: PhantomData,
        }
    }

    /// Returns an iterator over all values, in the order of their keys. Each step takes constant time.
    pub fn values(&'a self) -> ValuesIterWrap<'a, K, V, S::KeyValueIter>
        ensures rest { S.KeyValueIter.rest result ≡ self.now.entries }
        ensures rising { Rising K.cmp self.now.entries }
        ensures runs { ValuesInOrder S.KeyValueIter.rest }
    {
        ValuesIterWrap {
            iter: self.iter(),
            marker: PhantomData,
        }
    }
}

/// Iterates over references to all pairs, in the order of their keys.
///
/// ```rust
/// // days: 1 Monday, 3 Wednesday, 5 Friday
/// let mut sum = 0u32;
/// for (number, _name) in &days {
///     sum = sum.wrapping_add(*number);
/// }
/// sum == 9
/// ```
impl<'a, K: Ord + 'a, V: 'a, S: StoreIterable<'a, K, V>> IntoIterator for &'a LiteMap<K, V, S> {
    type Item = (&'a K, &'a V);

    type IntoIter = S::KeyValueIter;

    ghost into_iter_gives = { λ m r. S.KeyValueIter.rest r ≡ m.now.entries };

    fn into_iter(self) -> S::KeyValueIter
        ensures rest { S.KeyValueIter.rest result ≡ self.now.entries }
        // Each pair is what its key finds.
        ensures found { All (λ p. at K.cmp self.now.entries p.0 ≡ Some p) self.now.entries }
    {
        self.iter()
    }
}

/// Iterates over all pairs by value, in the order of their keys.
impl<K: Ord + Drop, V: Drop, S: StoreIntoIterator<K, V>> IntoIterator for LiteMap<K, V, S> {
    type Item = (K, V);

    type IntoIter = S::KeyValueIntoIter;

    ghost into_iter_gives = { λ m r. S.KeyValueIntoIter.owned r ≡ m.entries };

    fn into_iter(self) -> S::KeyValueIntoIter {
        self.store.lm_into_iter()
    }
}

impl<K: Ord + Drop, V: Drop, S: StoreIntoIterator<K, V>> LiteMap<K, V, S> {
    /// Returns an iterator over all keys by value, in their order, that drops the values (own).
    ///
    /// ```rust
    /// Ok(three_days(alloc)?.into_keys().eq([1, 3, 5]))
    /// ```
    pub fn into_keys(self) -> IntoKeys<K, V, S::KeyValueIntoIter>
        ensures { S.KeyValueIntoIter.owned result ≡ self.entries }
    {
        IntoKeys::new(self.into_iter())
    }

    /// Returns an iterator over all values by value, in the order of their keys, that drops the keys (own).
    ///
    /// ```rust
    /// Ok(three_days(alloc)?.into_values().eq(["Monday", "Wednesday", "Friday"]))
    /// ```
    pub fn into_values(self) -> IntoValues<K, V, S::KeyValueIntoIter>
        ensures { S.KeyValueIntoIter.owned result ≡ self.entries }
    {
        IntoValues::new(self.into_iter())
    }
}

/// An iterator over keys. A contract sees the iterator over their pairs.
#[derive(Debug, Drop)]
#[derive_where(Clone; I)]
pub struct KeysIterWrap<'a, K, V, I> {
    iter: I,
    marker: PhantomData<(&'a K, &'a V)>,
}

impl<'a, K, V, I> Model for KeysIterWrap<'a, K, V, I> {
    ghost Value = { I };

    ghost view = { λ w. w.iter };
}

impl<'a, K: 'a, V: 'a, I: PairIter<'a, K, V>> Iterator for KeysIterWrap<'a, K, V, I> {
    type Item = &'a K;

    ghost next_gives = { λ s r t. TakesFirst deref (keys_of (I.rest s)) r (keys_of (I.rest t)) };

    ghost remaining = { λ s. at_most (length (I.rest s)) };

    fn next(&mut self) -> Option<&'a K> {
        Some(self.iter.next()?.0)
    }

    fn size_hint(&self) -> (usize, Option<usize>)
        ensures { HintsExactly (length (I.rest self.now)) result }
    {
        self.iter.lm_size_hint()
    }
}

impl<'a, K: 'a, V: 'a, I: PairIter<'a, K, V>> DoubleEndedIterator for KeysIterWrap<'a, K, V, I> {
    ghost next_back_gives = { λ s r t. TakesLast deref (keys_of (I.rest s)) r (keys_of (I.rest t)) };

    fn next_back(&mut self) -> Option<&'a K> {
        Some(self.iter.next_back()?.0)
    }
}

impl<'a, K: 'a, V: 'a, I: PairIter<'a, K, V>> ExactSizeIterator for KeysIterWrap<'a, K, V, I> {
    fn len(&self) -> usize {
        self.iter.len()
    }
}

impl<'a, K: 'a, V: 'a, I: PairIter<'a, K, V>> FusedIterator for KeysIterWrap<'a, K, V, I> {}

/// An iterator over values. A contract sees the iterator over their pairs.
#[derive(Debug, Drop)]
#[derive_where(Clone; I)]
pub struct ValuesIterWrap<'a, K, V, I> {
    iter: I,
    marker: PhantomData<(&'a K, &'a V)>,
}

impl<'a, K, V, I> Model for ValuesIterWrap<'a, K, V, I> {
    ghost Value = { I };

    ghost view = { λ w. w.iter };
}

impl<'a, K: 'a, V: 'a, I: PairIter<'a, K, V>> Iterator for ValuesIterWrap<'a, K, V, I> {
    type Item = &'a V;

    ghost next_gives = { λ s r t. TakesFirst deref (values_of (I.rest s)) r (values_of (I.rest t)) };

    ghost remaining = { λ s. at_most (length (I.rest s)) };

    fn next(&mut self) -> Option<&'a V> {
        Some(self.iter.next()?.1)
    }

    fn size_hint(&self) -> (usize, Option<usize>)
        ensures { HintsExactly (length (I.rest self.now)) result }
    {
        self.iter.lm_size_hint()
    }
}

impl<'a, K: 'a, V: 'a, I: PairIter<'a, K, V>> DoubleEndedIterator for ValuesIterWrap<'a, K, V, I> {
    ghost next_back_gives = { λ s r t. TakesLast deref (values_of (I.rest s)) r (values_of (I.rest t)) };

    fn next_back(&mut self) -> Option<&'a V> {
        Some(self.iter.next_back()?.1)
    }
}

impl<'a, K: 'a, V: 'a, I: PairIter<'a, K, V>> ExactSizeIterator for ValuesIterWrap<'a, K, V, I> {
    fn len(&self) -> usize {
        self.iter.len()
    }
}

impl<'a, K: 'a, V: 'a, I: PairIter<'a, K, V>> FusedIterator for ValuesIterWrap<'a, K, V, I> {}
