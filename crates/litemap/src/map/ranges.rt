//! Calls for the keys within two bounds. None takes memory, and each makes O(log n) comparisons for each bound.
ghost use Rattle.std.specs.Prelude.{◌≡◌, ◌+◌, ◌*◌, ◌&&◌, All, Some, length, not};
ghost use Rattle.std.specs.List.{AllByRecursion};
ghost use Rattle.std.specs.Range.Bound.{bound_map};
ghost use Rattle.litemap_store.specs.Counts.{RisesByAtMost, digits};
ghost use Rattle.litemap_store.specs.Pairs.{at};
ghost use Rattle.litemap.specs.Updates.{KeepsPart};
ghost use Rattle.litemap.specs.Within.{AreBetween, FindsBetween, IsBetween, IsIndexRange, IsCut, before, is_before, is_up_to, within};

use super::iter::RangeIter;
use crate::{LiteMap, SliceMap};
use litemap_store::Query;
use litemap_store::store::{Count, Store, StoreSlice};
use std::ops::{Bound, Range, RangeBounds};

impl<K: Ord, V, S: Store<K, V>> LiteMap<K, V, S> {
    /// Returns the range of the indices whose keys are within two bounds (own). It makes O(log n) comparisons.
    ///
    /// It starts after all keys that are before the first bound. If no key is within the bounds, or if they cross, it is empty;
    /// it never panics. A bound is a `Query`, as the key of `get` is.
    ///
    /// ```rust
    /// // days: 1 Monday, 3 Wednesday, 5 Friday
    /// let later = days.index_range(Bound::Excluded(&1), Bound::Unbounded);
    /// let crossing = days.index_range(Bound::Included(&5), Bound::Excluded(&2));
    /// later == (1..3) && crossing == (2..2)
    /// ```
    pub fn index_range<Q: Query<K>>(&self, from: Bound<Q>, to: Bound<Q>) -> Range<usize>
        ensures indices { IsIndexRange Q.order self.now.entries (bound_map Q.sought from) (bound_map Q.sought to) result }
    {
        self.index_range_counted(from, to, &mut Count::new())
    }

    /// `index_range`, counting its comparisons (own).
    pub fn index_range_counted<Q: Query<K>>(
        &self,
        from: Bound<Q>,
        to: Bound<Q>,
        count: &mut Count,
    ) -> Range<usize>
        ensures indices { IsIndexRange Q.order self.now.entries (bound_map Q.sought from) (bound_map Q.sought to) result }
        ensures cost { RisesByAtMost (2 * digits (length self.now.entries)) count.old count.new }
    {
        let start = self.start_of(from, count);
        let end = self.end_of(to, count);
        // If the bounds cross, no index is between them.
        start..start + end.saturating_sub(start)
    }

    /// Returns a double-ended iterator over the pairs whose keys are within two bounds, in order (own). It makes O(log n)
    /// comparisons, and each step takes constant time.
    ///
    /// The bounds are those of `index_range`: if they cross, there are none.
    ///
    /// ```rust
    /// // days: 1 Monday, 3 Wednesday, 5 Friday
    /// let mut early = days.iter_range(Bound::Unbounded, Bound::Excluded(&5));
    /// early.next_back() == Some((&3, &"Wednesday")) && early.len() == 1
    /// ```
    pub fn iter_range<Q: Query<K>>(&self, from: Bound<Q>, to: Bound<Q>) -> RangeIter<'_, K, V, S>
        ensures pairs { result ≡ within Q.order self.now.entries
            (bound_map Q.sought from) (bound_map Q.sought to) }
        ensures inside { AllByRecursion (λ p. IsBetween Q.order (bound_map Q.sought from) (bound_map Q.sought to) p.0) result }
        // Each of them is what its key finds in the map.
        ensures found { AllByRecursion (λ p. at K.cmp self.now.entries p.0 ≡ Some p) result }
    {
        RangeIter::between(&self.store, self.index_range(from, to))
    }

    // Returns how many pairs are before a lower bound.
    pub(super) fn start_of<Q: Query<K>>(&self, from: Bound<Q>, count: &mut Count) -> usize
        ensures cut { IsCut (λ p. is_before Q.order (bound_map Q.sought from) p.0) self.now.entries result }
        ensures cost { RisesByAtMost (digits (length self.now.entries)) count.old count.new }
    {
        // For the proof: the index after a pair is at most the length, which is a `usize`, so it doesn't overflow.
        let _len = self.len();
        match from {
            Bound::Included(key) => match self.search(key, count) {
                Ok(index) | Err(index) => index,
            },
            Bound::Excluded(key) => match self.search(key, count) {
                Ok(index) => index + 1,
                Err(index) => index,
            },
            Bound::Unbounded => 0,
        }
    }

    // Returns how many pairs are not past an upper bound.
    fn end_of<Q: Query<K>>(&self, to: Bound<Q>, count: &mut Count) -> usize
        ensures cut { IsCut (λ p. is_up_to Q.order (bound_map Q.sought to) p.0) self.now.entries result }
        ensures cost { RisesByAtMost (digits (length self.now.entries)) count.old count.new }
    {
        match to {
            Bound::Included(key) => self.start_of(Bound::Excluded(key), count),
            Bound::Excluded(key) => self.start_of(Bound::Included(key), count),
            Bound::Unbounded => self.len(),
        }
    }
}

impl<K: Ord, V, S: StoreSlice<K, V>> LiteMap<K, V, S> {
    /// Returns the pairs whose keys are within two bounds, as a map that borrows them (own). It makes O(log n) comparisons.
    ///
    /// The bounds are those of `index_range`: if they cross, it is empty.
    pub fn range<Q: Query<K>>(&self, from: Bound<Q>, to: Bound<Q>) -> SliceMap<'_, K, V>
        ensures pairs { result.entries ≡ within Q.order self.now.entries
            (bound_map Q.sought from) (bound_map Q.sought to) }
        // What lookups find in it.
        ensures stays { KeepsPart (λ p. not (is_before Q.order (bound_map Q.sought from) p.0)
            && is_up_to Q.order (bound_map Q.sought to) p.0) self.now.entries result.entries }
        ensures inside { AreBetween Q.order (bound_map Q.sought from) (bound_map Q.sought to) result.entries }
        // Each pair of it is what its key finds in the whole map.
        ensures found { All (λ p. at K.cmp self.now.entries p.0 ≡ Some p) result.entries }
    {
        // For the proof: the keys ascend.
        self.keys_ascend();
        self.get_indexed_range(self.index_range(from, to)).unwrap()
    }

    /// Returns the pairs whose keys are within a range such as `3..7` or `..=k`, as a map that borrows them (own). It makes
    /// O(log n) comparisons for each bound. If the range runs backwards, the map is empty; std's maps panic.
    ///
    /// ```rust
    /// // days: 1 Monday, 3 Wednesday, 5 Friday
    /// days.range_in(2..5).as_slice() == [(3, "Wednesday")].as_slice() && days.range_in(..=3).len() == 2
    /// ```
    pub fn range_in<R: RangeBounds<K>>(&self, range: R) -> SliceMap<'_, K, V>
        ensures pairs { R.has_bounds range → result.entries
            ≡ within K.cmp self.now.entries (R.start_bound range) (R.end_bound range) }
        ensures stays { R.has_bounds range → KeepsPart (λ p. not (is_before K.cmp (R.start_bound range) p.0)
            && is_up_to K.cmp (R.end_bound range) p.0) self.now.entries result.entries }
        // The same by keys: a caller's proof needs no law of their order.
        ensures inside { R.has_bounds range
            → AreBetween K.cmp (R.start_bound range) (R.end_bound range) result.entries }
        ensures keys { R.has_bounds range → FindsBetween K.cmp K.cmp (R.start_bound range) (R.end_bound range)
            self.now.entries result.entries }
        ensures found { All (λ p. at K.cmp self.now.entries p.0 ≡ Some p) result.entries }
    {
        self.range(range.start_bound(), range.end_bound())
    }

    /// Returns the pairs whose keys are within a range of what keys are looked up by, such as `"a".."f"`, as a map that borrows
    /// them (own). It is like `range_in`. It makes O(log n) comparisons.
    ///
    /// ```rust
    /// let mut names = LiteMap::new_vec(alloc);
    /// names.insert("ann".to_string(alloc)?, 1)?;
    /// names.insert("gil".to_string(alloc)?, 2)?;
    /// Ok(names.range_by("a".."f").len() == 1 && names.range_by("b"..).len() == 1)
    /// ```
    pub fn range_by<Q: Query<K>, R: RangeBounds<Q>>(&self, range: R) -> SliceMap<'_, K, V>
        ensures pairs { R.has_bounds range → result.entries ≡ within Q.order self.now.entries
            (bound_map Q.sought (R.start_bound range)) (bound_map Q.sought (R.end_bound range)) }
        ensures stays { R.has_bounds range → KeepsPart (λ p. not (is_before Q.order (bound_map Q.sought (R.start_bound range)) p.0)
            && is_up_to Q.order (bound_map Q.sought (R.end_bound range)) p.0) self.now.entries result.entries }
        ensures inside { R.has_bounds range → AreBetween Q.order (bound_map Q.sought (R.start_bound range))
            (bound_map Q.sought (R.end_bound range)) result.entries }
        ensures keys { R.has_bounds range → FindsBetween K.cmp Q.order (bound_map Q.sought (R.start_bound range))
            (bound_map Q.sought (R.end_bound range)) self.now.entries result.entries }
        ensures found { All (λ p. at K.cmp self.now.entries p.0 ≡ Some p) result.entries }
    {
        self.range(
            range.start_bound().map(|q| *q),
            range.end_bound().map(|q| *q),
        )
    }
}
