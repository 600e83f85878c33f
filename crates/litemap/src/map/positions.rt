//! Calls that insert and remove pairs by their indices. No keys are compared.
ghost use Rattle.std.specs.Prelude.{◌≡◌, ◌+◌, ◌-◌, ◌<◌, ◌≤◌, ◌++◌, Err, IfOk, IfSome, IsNone, IsSome, None, OnErr, OnOk, Some, drop};
ghost use Rattle.std.specs.Prelude.{length, nat_lt, not, remove, slice_get, slice_range, take};
ghost use Rattle.litemap_store.specs.Pairs.{index_of, place, put};
ghost use Rattle.litemap.specs.Changes.{RefusedFull};
ghost use Rattle.litemap.specs.Updates.{KeepsPart, Places, TakesPair, Updates};
ghost use Rattle.litemap.specs.Within.{stands_within};

use crate::LiteMap;
use litemap_store::reserved::{drop_from, move_range};
use litemap_store::store::{NoRoom, StoreMut};
use std::alloc::{AllocError, Allocator};
use std::ops::Range;

impl<K: Ord, V, S: StoreMut<K, V>> LiteMap<K, V, S> {
    /// Removes the pair at an index, and returns it, or `None` if the index is not below the length (own). It moves all later
    /// pairs down by one.
    ///
    /// ```rust
    /// let mut days = three_days(alloc)?;
    /// let is_removed = days.remove_indexed(1) == Some((3, "Wednesday"));
    /// Ok(is_removed && days.remove_indexed(2).is_none() && days.len() == 2)
    /// ```
    pub fn remove_indexed(&mut self, index: usize) -> Option<(K, V)>
        ensures pair { result ≡ slice_get self.old.entries index }
        ensures pairs { self.new.entries ≡ remove self.old.entries index }
        ensures taken { IfSome result (λ p. TakesPair K.cmp p self.old.entries self.new.entries) }
        ensures places { IfSome result (λ p. Places K.cmp p.0 None self.old.entries self.new.entries) }
        ensures unchanged { IsNone result → self.new ≡ self.old }
        ensures room { S.keeps_memory → IsSome result → self.old.room < self.new.room }
    {
        if index < self.len() {
            Some(self.take_at(index))
        } else {
            None
        }
    }
}

impl<K: Ord + Drop, V, S: StoreMut<K, V>> LiteMap<K, V, S> {
    /// Inserts a pair at the index that `find_index` returned for its absent key, which isn't searched again (own). It moves all
    /// later pairs up by one, and fails as `insert` does.
    ///
    /// ```rust
    /// let mut days = three_days(alloc)?;
    /// if let Err(index) = days.find_index(&2) {
    ///     days.insert_indexed(index, 2, "Tuesday")?;
    /// }
    /// Ok(days.get(&2) == Some(&"Tuesday"))
    /// ```
    pub fn insert_indexed(&mut self, index: usize, key: K, value: V) -> Result<(), NoRoom<(K, V)>>
        requires { index_of K.cmp self.old.entries key ≡ Err index }
        ensures put { OnOk result (self.new.entries ≡ put K.cmp self.old.entries key value) }
        ensures updates { OnOk result (Updates K.cmp key (Some value) self.old.entries self.new.entries) }
        ensures places { OnOk result (Places K.cmp key (Some value) self.old.entries self.new.entries) }
        ensures refused { RefusedFull (key, value) self.old self.new result }
    {
        self.keys_ascend();
        self.insert_at(index, key, value)
    }
}

impl<K: Ord + Drop, V: Drop, S: StoreMut<K, V>> LiteMap<K, V, S> {
    /// Keeps the first `len` pairs, and drops the others, the last one first (own). No pair moves, and a store that keeps its
    /// memory has room for as many more as were dropped.
    ///
    /// ```rust
    /// let mut days = three_days(alloc)?;
    /// days.truncate(2);
    /// Ok(days.as_slice() == [(1, "Monday"), (3, "Wednesday")].as_slice())
    /// ```
    pub fn truncate(&mut self, len: usize)
        ensures pairs { self.new.entries ≡ take len self.old.entries }
        // What lookups find: the keys of which fewer than `len` are smaller stay.
        ensures stays { KeepsPart (λ p. nat_lt (place K.cmp self.old.entries p.0) len) self.old.entries self.new.entries }
        ensures room { S.keeps_memory → self.old.room + length self.old.entries ≤ self.new.room + length self.new.entries }
    {
        drop_from(&mut self.store, len);
    }
}

impl<K: Ord + Drop, V: Drop, A: Allocator + Copy> LiteMap<K, V, Vec<(K, V), A>> {
    /// Drops the pairs at the indices of a range, such as that of `index_range` (own). The others stay. If n pairs stand from
    /// the range on, it makes O(n) moves.
    ///
    /// ```rust
    /// let mut days = three_days(alloc)?;
    /// let early = days.index_range(Bound::Unbounded, Bound::Excluded(&4));
    /// days.remove_range(early);
    /// Ok(days.as_slice() == [(5, "Friday")].as_slice())
    /// ```
    pub fn remove_range(&mut self, range: Range<usize>)
        requires ascends { range.start ≤ range.end }
        requires within { range.end ≤ length self.old.entries }
        ensures pairs { self.new.entries ≡ take range.start self.old.entries ++ drop range.end self.old.entries }
        // What lookups find.
        ensures stays { KeepsPart (λ p. not (stands_within K.cmp self.old.entries range.start range.end p.0))
            self.old.entries self.new.entries }
        ensures room { self.old.room + (range.end - range.start) ≡ self.new.room }
    {
        drop(self.store.drain(range));
    }

    /// Removes the pairs at the indices of a range, and returns them, or changes nothing if memory runs out for them (own). It
    /// moves pairs as `remove_range` does, and those that it returns once more.
    ///
    /// ```rust
    /// let mut days = three_days(alloc)?;
    /// let early = days.index_range(Bound::Unbounded, Bound::Excluded(&4));
    /// let taken = days.take_range(alloc, early)?;
    /// Ok(taken.as_slice() == [(1, "Monday"), (3, "Wednesday")].as_slice() && days.len() == 1)
    /// ```
    pub fn take_range(
        &mut self,
        alloc: A,
        range: Range<usize>,
    ) -> Result<Vec<(K, V), A>, AllocError>
        requires ascends { range.start ≤ range.end }
        requires within { range.end ≤ length self.old.entries }
        ensures taken { IfOk result (λ v. v.items ≡ slice_range self.old.entries range.start range.end) }
        ensures left { OnOk result (self.new.entries ≡ take range.start self.old.entries ++ drop range.end self.old.entries) }
        // What lookups find in both.
        ensures goes { IfOk result (λ v. KeepsPart (λ p. stands_within K.cmp self.old.entries range.start range.end p.0)
            self.old.entries v.items) }
        ensures stays { OnOk result (KeepsPart (λ p. not (stands_within K.cmp self.old.entries range.start range.end p.0))
            self.old.entries self.new.entries) }
        ensures unchanged { OnErr result (self.new ≡ self.old) }
    {
        let mut taken = Vec::with_capacity(alloc, range.end - range.start)?;
        move_range(&mut self.store, range, &mut taken);
        Ok(taken)
    }
}
