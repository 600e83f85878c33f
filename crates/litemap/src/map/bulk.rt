//! Calls that take many pairs at once. The last pair of each key stays.
ghost use Rattle.std.specs.Prelude.{◌≡◌, ◌<◌, ◌≤◌, ◌+◌, ◌*◌, ◌++◌, [], IfErr, IfOk, IsOk, OnOk, OnErr, length, reverse};
ghost use Rattle.std.specs.Option.{option_or};
ghost use Rattle.std.specs.Iterator.{IsFiniteIterable};
ghost use Rattle.litemap_store.specs.Bulk.{Gives, GivesSome, GivesSuch, IsExtendedCounted, IsGathered, IsHandedBack};
ghost use Rattle.litemap_store.specs.Bulk.{IsRefusedCounted};
ghost use Rattle.litemap_store.specs.Counts.{GoesOn, RisesByAtMost};
ghost use Rattle.litemap_store.specs.Last.{Last, Rises};
ghost use Rattle.litemap_store.specs.Pairs.{Rising, value_at};
ghost use Rattle.litemap.specs.Updates.{Overlays};

use crate::LiteMap;
use litemap_store::store::{Count, NoRoom, StoreBulkMut, StoreFromIterable};
use std::alloc::AllocError;

impl<K: Ord + Drop, V: Drop, S: StoreFromIterable<K, V>> LiteMap<K, V, S> {
    /// Returns a map of the pairs that an iterator yields, or an error if memory runs out. The last pair of each key stays, its
    /// key included.
    ///
    /// It compares each key with the one before it, and sorts the pairs only if they don't ascend. Over the stores of this
    /// library it never fails for an iterator that yields nothing.
    ///
    /// ```rust
    /// let days: Days = LiteMap::from_iter(alloc, [(2, "Tue"), (1, "Mon"), (2, "Tuesday")])?;
    /// Ok(days.as_slice() == [(1, "Mon"), (2, "Tuesday")].as_slice())
    /// ```
    pub fn from_iter<I: IntoIterator<Item = (K, V)>>(
        alloc: S::Alloc,
        iter: I,
    ) -> Result<Self, AllocError>
        requires { IsFiniteIterable I.into_iter_gives I.IntoIter.can_next I.IntoIter.remaining iter }
        ensures made { IfOk result
            (λ m. IsGathered K.cmp (Gives I.into_iter_gives I.IntoIter.next_gives iter) [] m.entries) }
        ensures refused_some { S.fails_for_pairs_only
            → OnErr result (GivesSome I.into_iter_gives I.IntoIter.next_gives iter) }
    {
        Self::from_iter_counted(alloc, iter, &mut Count::new())
    }

    /// `from_iter`, counting its comparisons but for those that sort and drop equal keys: at most one for each pair if they
    /// ascend, also if it fails (own).
    pub fn from_iter_counted<I: IntoIterator<Item = (K, V)>>(
        alloc: S::Alloc,
        iter: I,
        count: &mut Count,
    ) -> Result<Self, AllocError>
        requires { IsFiniteIterable I.into_iter_gives I.IntoIter.can_next I.IntoIter.remaining iter }
        ensures made { IfOk result (λ m. IsExtendedCounted K.cmp I.into_iter_gives I.IntoIter.next_gives
            iter [] m.entries count.old count.new) }
        ensures gathered { IfOk result
            (λ m. IsGathered K.cmp (Gives I.into_iter_gives I.IntoIter.next_gives iter) [] m.entries) }
        ensures rising { OnOk result (GivesSuch I.into_iter_gives I.IntoIter.next_gives iter
            (λ given. Rising K.cmp given → RisesByAtMost (length given) count.old count.new)) }
        ensures refused_cost { OnErr result
            (IsRefusedCounted K.cmp I.into_iter_gives I.IntoIter.next_gives iter [] count.old count.new) }
        ensures refused_some { S.fails_for_pairs_only
            → OnErr result (GivesSome I.into_iter_gives I.IntoIter.next_gives iter) }
        ensures refusal { OnErr result (count.old.refusals < count.new.refusals) }
        ensures counted { GoesOn count.old count.new }
    {
        let store = S::lm_sort_from_iter(alloc, iter, count)?;
        Ok(LiteMap::from_sorted_store_unchecked(store))
    }
}

/// ```rust
/// let mut days: Days = LiteMap::from_array(alloc, [(2, "Tue"), (2, "Tuesday")])?;
/// days.extend_from_vec(alloc, [(1, "Monday")].to_vec(alloc)?)?;
/// Ok(days == Days::from_vec(alloc, [(1, "Monday"), (2, "Tuesday")].to_vec(alloc)?)?)
/// ```
impl<K: Ord + Drop, V: Drop, S: StoreBulkMut<K, V>> LiteMap<K, V, S> {
    /// Returns a map of the pairs of a vector, or an error if memory runs out (own). The last pair of each key stays, its key
    /// included.
    ///
    /// It compares and keeps what `from_iter` does, but takes the vector itself: nothing is gathered, and over a vector
    /// ascending pairs stay where they are. Its contract speaks of the vector's list. If memory runs out, the error returns the
    /// pairs, or the last pair of each key in ascending order. It never fails for no pairs, nor for one over a short store;
    /// over a vector only a sort takes memory.
    pub fn from_vec(
        alloc: S::Alloc,
        pairs: Vec<(K, V), S::Alloc>,
    ) -> Result<Self, NoRoom<Vec<(K, V), S::Alloc>>>
        ensures made { IfOk result (λ m. Last K.cmp pairs.items m.entries) }
        // What a lookup finds: the last value of the key, if there is one.
        ensures found { IfOk result (λ m. (key : K)
            → value_at K.cmp m.entries key ≡ value_at K.cmp (reverse pairs.items) key) }
        // Ascending pairs stay as they are.
        ensures stays { Rising K.cmp pairs.items → IfOk result (λ m. m.entries ≡ pairs.items) }
        ensures succeeds { Rising K.cmp pairs.items → length pairs.items ≤ S.free_room → IsOk result }
        ensures back { IfErr result (λ e. IsHandedBack K.cmp pairs.items e.back.items) }
    {
        Self::from_vec_counted(alloc, pairs, &mut Count::new())
    }

    /// Returns a map of the pairs of an array, as `from_vec` does of a vector, or an error if memory runs out (own).
    pub fn from_array<const N: usize>(
        alloc: S::Alloc,
        pairs: [(K, V); N],
    ) -> Result<Self, AllocError>
        ensures made { IfOk result (λ m. Last K.cmp pairs m.entries) }
        ensures found { IfOk result (λ m. (key : K)
            → value_at K.cmp m.entries key ≡ value_at K.cmp (reverse pairs) key) }
        ensures stays { Rising K.cmp pairs → IfOk result (λ m. m.entries ≡ pairs) }
    {
        match LiteMap::from_vec(alloc, Vec::from_array(alloc, pairs)?) {
            Ok(map) => Ok(map),
            Err(_) => Err(AllocError),
        }
    }

    /// `from_vec`, counting its comparisons but for those that sort and drop equal keys: at most one for each pair if they
    /// ascend, also if it fails (own).
    pub fn from_vec_counted(
        alloc: S::Alloc,
        mut pairs: Vec<(K, V), S::Alloc>,
        count: &mut Count,
    ) -> Result<Self, NoRoom<Vec<(K, V), S::Alloc>>>
        ensures made { IfOk result (λ m. Last K.cmp pairs.items m.entries) }
        ensures found { IfOk result (λ m. (key : K)
            → value_at K.cmp m.entries key ≡ value_at K.cmp (reverse pairs.items) key) }
        ensures stays { Rising K.cmp pairs.items → IfOk result (λ m. m.entries ≡ pairs.items) }
        ensures succeeds { Rising K.cmp pairs.items → length pairs.items ≤ S.free_room → IsOk result }
        ensures back { IfErr result (λ e. IsHandedBack K.cmp pairs.items e.back.items) }
        ensures rising { Rising K.cmp pairs.items → RisesByAtMost (length pairs.items) count.old count.new }
        ensures refusal { OnErr result (count.old.refusals < count.new.refusals) }
    {
        match S::lm_sort_from_vec(alloc, &mut pairs, count) {
            Ok(store) => Ok(LiteMap::from_sorted_store_unchecked(store)),
            Err(_) => Err(NoRoom { back: pairs }),
        }
    }

    /// Extends the map by the pairs that an iterator yields, or fails if memory runs out. The last pair of each key stays, its
    /// key included. Old pairs count as earlier than new ones: so a new key replaces an equal old one.
    ///
    /// If it fails, the map keeps its pairs, and those taken from the iterator are dropped. Over the stores of this library it
    /// never fails for an iterator that yields nothing. It does not use the iterator's size hint. Nothing is promised of the
    /// room: unless all new keys are above the last one, a fresh store may replace the map's, and a limit set on the old one is
    /// lost.
    ///
    /// Ascending pairs above the last key are appended, with at most one comparison for each. Other ascending pairs are merged,
    /// with at most one comparison for each old and two for each new pair, and each pair moves a constant number of times. Pairs
    /// that don't ascend are sorted first, by comparisons that aren't counted; up to 16 may be put in one by one instead.
    ///
    /// ```rust
    /// let mut days = three_days(alloc)?;
    /// days.extend(alloc, [(5, "Fri"), (2, "Tue"), (5, "Freitag")])?;
    /// Ok(days.get(&5) == Some(&"Freitag") && days.len() == 4)
    /// ```
    pub fn extend<I: IntoIterator<Item = (K, V)>>(
        &mut self,
        alloc: S::Alloc,
        iter: I,
    ) -> Result<(), AllocError>
        requires { IsFiniteIterable I.into_iter_gives I.IntoIter.can_next I.IntoIter.remaining iter }
        ensures extended { OnOk result
            (IsGathered K.cmp (Gives I.into_iter_gives I.IntoIter.next_gives iter) self.old.entries self.new.entries) }
        ensures unchanged { OnErr result (self.new.entries ≡ self.old.entries) }
        ensures refused_some { S.fails_for_pairs_only
            → OnErr result (GivesSome I.into_iter_gives I.IntoIter.next_gives iter) }
    {
        self.extend_counted(alloc, iter, &mut Count::new())
    }

    /// `extend`, counting its comparisons but for those that sort and drop equal keys; a failed call keeps the bounds, too
    /// (own).
    pub fn extend_counted<I: IntoIterator<Item = (K, V)>>(
        &mut self,
        alloc: S::Alloc,
        iter: I,
        count: &mut Count,
    ) -> Result<(), AllocError>
        requires { IsFiniteIterable I.into_iter_gives I.IntoIter.can_next I.IntoIter.remaining iter }
        ensures extended { OnOk result (IsExtendedCounted K.cmp I.into_iter_gives I.IntoIter.next_gives
            iter self.old.entries self.new.entries count.old count.new) }
        ensures gathered { OnOk result
            (IsGathered K.cmp (Gives I.into_iter_gives I.IntoIter.next_gives iter) self.old.entries self.new.entries) }
        // The bounds of `extended`, each of its own.
        ensures all_above { OnOk result (GivesSuch I.into_iter_gives I.IntoIter.next_gives iter
            (λ given. Rises K.cmp self.old.entries given → RisesByAtMost (length given) count.old count.new)) }
        ensures rising { OnOk result (GivesSuch I.into_iter_gives I.IntoIter.next_gives iter (λ given.
            Rising K.cmp given → RisesByAtMost (length self.old.entries + 2 * length given) count.old count.new)) }
        ensures unchanged { OnErr result (self.new.entries ≡ self.old.entries) }
        ensures refused_cost { OnErr result (IsRefusedCounted K.cmp I.into_iter_gives I.IntoIter.next_gives
            iter self.old.entries count.old count.new) }
        ensures refused_some { S.fails_for_pairs_only
            → OnErr result (GivesSome I.into_iter_gives I.IntoIter.next_gives iter) }
        ensures refusal { OnErr result (count.old.refusals < count.new.refusals) }
        ensures counted { GoesOn count.old count.new }
    {
        self.store.lm_extend(alloc, iter, count)
    }

    /// Extends the map by the pairs of a vector, or fails if memory runs out (own). The last pair of each key stays, its key
    /// included. Old pairs count as earlier than new ones.
    ///
    /// It leaves and compares what `extend` does, but takes the vector itself: nothing is gathered. Its contract speaks of the
    /// vector's list. If memory runs out, the map keeps its pairs, and the error returns the new ones, or the last of each key
    /// in ascending order. It never fails if the new pairs ascend above the last key and there is room for all. Nothing is
    /// promised of the room after it.
    pub fn extend_from_vec(
        &mut self,
        alloc: S::Alloc,
        pairs: Vec<(K, V), S::Alloc>,
    ) -> Result<(), NoRoom<Vec<(K, V), S::Alloc>>>
        ensures last { OnOk result (Last K.cmp (self.old.entries ++ pairs.items) self.new.entries) }
        // What a lookup finds: the last new value of the key if there is one, else what it found before.
        ensures found { OnOk result ((key : K) → value_at K.cmp self.new.entries key
            ≡ option_or (value_at K.cmp (reverse pairs.items) key) (value_at K.cmp self.old.entries key)) }
        // The same of lookups by anything else than a key.
        ensures overlays { OnOk result (Overlays K.cmp self.old.entries (reverse pairs.items) self.new.entries) }
        // If all keys ascend, the pairs stay as they are.
        ensures stays { Rising K.cmp (self.old.entries ++ pairs.items)
            → OnOk result (self.new.entries ≡ self.old.entries ++ pairs.items) }
        ensures unchanged { OnErr result (self.new.entries ≡ self.old.entries) }
        ensures succeeds { Rises K.cmp self.old.entries pairs.items → length pairs.items ≤ self.old.room → IsOk result }
        ensures back { IfErr result (λ e. IsHandedBack K.cmp pairs.items e.back.items) }
    {
        self.extend_from_vec_counted(alloc, pairs, &mut Count::new())
    }

    /// `extend_from_vec`, counting its comparisons but for those that sort and drop equal keys; a failed call keeps the bounds,
    /// too (own).
    pub fn extend_from_vec_counted(
        &mut self,
        alloc: S::Alloc,
        mut pairs: Vec<(K, V), S::Alloc>,
        count: &mut Count,
    ) -> Result<(), NoRoom<Vec<(K, V), S::Alloc>>>
        ensures last { OnOk result (Last K.cmp (self.old.entries ++ pairs.items) self.new.entries) }
        ensures found { OnOk result ((key : K) → value_at K.cmp self.new.entries key
            ≡ option_or (value_at K.cmp (reverse pairs.items) key) (value_at K.cmp self.old.entries key)) }
        ensures overlays { OnOk result (Overlays K.cmp self.old.entries (reverse pairs.items) self.new.entries) }
        ensures stays { Rising K.cmp (self.old.entries ++ pairs.items)
            → OnOk result (self.new.entries ≡ self.old.entries ++ pairs.items) }
        ensures unchanged { OnErr result (self.new.entries ≡ self.old.entries) }
        ensures succeeds { Rises K.cmp self.old.entries pairs.items → length pairs.items ≤ self.old.room → IsOk result }
        ensures back { IfErr result (λ e. IsHandedBack K.cmp pairs.items e.back.items) }
        ensures all_above { Rises K.cmp self.old.entries pairs.items → RisesByAtMost (length pairs.items) count.old count.new }
        ensures rising { Rising K.cmp pairs.items
            → RisesByAtMost (length self.old.entries + 2 * length pairs.items) count.old count.new }
        ensures refusal { OnErr result (count.old.refusals < count.new.refusals) }
    {
        match self.store.lm_extend_from_vec(alloc, &mut pairs, count) {
            Ok(()) => Ok(()),
            Err(_) => Err(NoRoom { back: pairs }),
        }
    }
}
