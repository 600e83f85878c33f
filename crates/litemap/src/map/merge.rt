//! Merges maps, and compares their keys side by side: those that both have, and those that one lacks.
ghost use Rattle.std.specs.Prelude.{◌≡◌, ◌⊎◌, ◌+◌, ◌*◌, ◌<◌, ◌≤◌, List, MatchOption, None, OnErr, OnOk, Some, [], filter, length};
ghost use Rattle.std.specs.Prelude.{IfOk, IfSome, IsNone, IsOk};
ghost use Rattle.std.specs.Prelude.{IsSome, IsTrue, if◌then◌else◌, is_some, not};
ghost use Rattle.std.specs.List.{list_all};
ghost use Rattle.std.specs.Option.{option_or};
ghost use Rattle.litemap_store.specs.Counts.{GoesOn, RisesByAtMost, digits};
ghost use Rattle.litemap_store.specs.Last.{Rises};
ghost use Rattle.litemap_store.specs.Merge.{Apart, Merge};
ghost use Rattle.litemap_store.specs.Pairs.{Rising, above, at, value_at};
ghost use Rattle.litemap.specs.Updates.{Displaces, KeepsPart, NoCommon, Overlays};
ghost use Rattle.litemap.specs.Changes.{IsMergedInto};
ghost use Rattle.litemap.specs.Combined.{CallableOnCommon, CallableOnEachOf, Combined, Combines, LeavesOfBoth};
ghost use Rattle.litemap.specs.Combined.{TakesBoth, combined, found_with};
ghost use Rattle.litemap_store.specs.Contents.{with_pairs};

use super::iter::RangeIter;
use crate::LiteMap;
use litemap_store::merge::extend_from_store;
use litemap_store::store::{Count, NoRoom, Store, StoreBulkMut, StoreIntoIterator};
use std::alloc::AllocError;
use std::cmp::Ordering;
use std::mem;

impl<K: Ord + Drop, V: Drop, S: StoreIntoIterator<K, V> + Drop> LiteMap<K, V, S> {
    /// Merges another map into this one, and returns a map of what it displaced, or `None` if no key is common.
    ///
    /// For a common key, this map's key stays and takes the other's value; the displaced pair is the other's key with the old
    /// value.
    ///
    /// If a map is empty, nothing is compared and no memory taken; an empty map takes over the other's store. If all keys of
    /// one map are above the other's, it makes at most two comparisons, and moves the pairs of one map once. Else it makes one
    /// search for each pair of the other map, or one comparison for each pair of both if that is no more. The pairs then move
    /// O((n + m) log(n + m)) times, where m is the other map's length.
    ///
    /// If memory runs out, the map keeps its pairs, and the error returns the other map whole: all room is taken before the
    /// first change. It never fails if a map is empty, or if all keys of one map are above the other's and both have room for
    /// each other's pairs; if the other's keys are above, room in this map is enough. Nothing is promised of the room after it.
    ///
    /// ```rust
    /// let mut days = three_days(alloc)?;
    /// let short: Days = LiteMap::from_iter(alloc, [(4, "Thu"), (5, "Fri")])?;
    /// let old = days.extend_from_litemap(alloc, short)?;
    /// Ok(old.is_some_and(|old| old.as_slice() == [(5, "Friday")].as_slice()) && days.len() == 4)
    /// ```
    pub fn extend_from_litemap(
        &mut self,
        alloc: S::Alloc,
        other: Self,
    ) -> Result<Option<Self>, NoRoom<Self>>
        ensures merged { IsMergedInto K.cmp other self.old self.new result }
        // What a lookup finds: the other map's value if it has the key, else what it found before.
        ensures found { OnOk result ((key : K) → value_at K.cmp self.new.entries key
            ≡ option_or (value_at K.cmp other.entries key) (value_at K.cmp self.old.entries key)) }
        // The same of lookups by anything else than a key.
        ensures overlays { OnOk result (Overlays K.cmp self.old.entries other.entries self.new.entries) }
        // What it finds in what is displaced: the old value if the other map has the key, else nothing.
        ensures displaced { IfOk result (λ rest. IfSome rest (λ old. Displaces K.cmp self.old.entries other.entries old.entries)) }
        // If nothing is displaced, no key of the other map was here.
        ensures none_common { IfOk result (λ rest. IsNone rest → NoCommon K.cmp self.old.entries other.entries) }
    {
        self.extend_from_litemap_counted(alloc, other, &mut Count::new())
    }

    /// `extend_from_litemap`, counting its comparisons (own).
    pub fn extend_from_litemap_counted(
        &mut self,
        alloc: S::Alloc,
        other: Self,
        count: &mut Count,
    ) -> Result<Option<Self>, NoRoom<Self>>
        ensures merged { IsMergedInto K.cmp other self.old self.new result }
        ensures found { OnOk result ((key : K) → value_at K.cmp self.new.entries key
            ≡ option_or (value_at K.cmp other.entries key) (value_at K.cmp self.old.entries key)) }
        ensures overlays { OnOk result (Overlays K.cmp self.old.entries other.entries self.new.entries) }
        ensures displaced { IfOk result (λ rest. IfSome rest (λ old. Displaces K.cmp self.old.entries other.entries old.entries)) }
        ensures none_common { IfOk result (λ rest. IsNone rest → NoCommon K.cmp self.old.entries other.entries) }
        // The comparisons: none if a map is empty, and two if all keys of one are above the other's.
        ensures uncounted { (self.old.entries ≡ []) ⊎ (other.entries ≡ []) → RisesByAtMost 0 count.old count.new }
        ensures apart { Apart K.cmp self.old.entries other.entries → RisesByAtMost 2 count.old count.new }
        ensures cost { RisesByAtMost
            (2 + length other.entries * digits (length self.old.entries + length other.entries)) count.old count.new }
        ensures refusal { OnErr result (count.old.refusals < count.new.refusals) }
    {
        match extend_from_store(alloc, &mut self.store, other.store, count) {
            Ok(None) => Ok(None),
            Ok(Some(rest)) => Ok(Some(LiteMap::from_sorted_store_unchecked(rest))),
            Err(error) => Err(NoRoom {
                back: LiteMap::from_sorted_store_unchecked(error.back),
            }),
        }
    }

    /// Moves all pairs of another map into this one, which keeps its own keys, and leaves the other empty (own). It is
    /// `extend_from_litemap`, and drops what that displaces. If memory runs out, both maps keep their pairs.
    ///
    /// ```rust
    /// let (mut days, mut short) = (three_days(alloc)?, Days::from_iter(alloc, [(4, "Thu"), (5, "Fri")])?);
    /// days.append(alloc, &mut short)?;
    /// Ok(days.get(&5) == Some(&"Fri") && days.len() == 4 && short.is_empty())
    /// ```
    pub fn append(&mut self, alloc: S::Alloc, other: &mut Self) -> Result<(), AllocError>
        ensures merged { OnOk result (Merge K.cmp self.old.entries other.old.entries self.new.entries) }
        ensures emptied { OnOk result (other.new.entries ≡ []) }
        // What lookups find.
        ensures found { OnOk result ((key : K) → value_at K.cmp self.new.entries key
            ≡ option_or (value_at K.cmp other.old.entries key) (value_at K.cmp self.old.entries key)) }
        ensures overlays { OnOk result (Overlays K.cmp self.old.entries other.old.entries self.new.entries) }
        ensures unchanged { OnErr result
            ((self.new.entries ≡ self.old.entries) × (other.new.entries ≡ other.old.entries)) }
        // It never fails if one is empty, nor if the other's keys are all above or all below, within the room.
        ensures succeeds { (self.old.entries ≡ []) ⊎ (other.old.entries ≡ []) → IsOk result }
        ensures all_above { Rises K.cmp self.old.entries other.old.entries
            → length other.old.entries ≤ self.old.room → IsOk result }
        ensures all_below { Rises K.cmp other.old.entries self.old.entries → length other.old.entries ≤ self.old.room
            → length self.old.entries ≤ other.old.room → IsOk result }
    {
        let taken = mem::replace(other, LiteMap::with_capacity(alloc, 0)?);
        match self.extend_from_litemap(alloc, taken) {
            Ok(_displaced) => Ok(()),
            Err(refused) => {
                *other = refused.back;
                Err(AllocError)
            }
        }
    }

    /// Merges another map into this one, and returns what it displaced, as `extend_from_litemap` does; for a common key, `f`
    /// may change the new value first (own).
    ///
    /// `f` is called on the other map's key, this map's value and the new value. For a common key this map's key stays, with the
    /// new value; the other map's key comes back with this map's old value.
    ///
    /// It makes one search for each pair of the other map, and then merges: all calls of `f` come first, in the order of the
    /// keys. It never fails in the cases in which `extend_from_litemap` never fails. If it fails, the map keeps its pairs, and
    /// the error returns the other map with the values that `f` wrote: merge that by `extend_from_litemap`, without `f`.
    ///
    /// ```rust
    /// let mut counts: VecMap<u32, u32> = LiteMap::from_iter(alloc, [(1, 10), (2, 20)])?;
    /// let more: VecMap<u32, u32> = LiteMap::from_iter(alloc, [(2, 2), (3, 3)])?;
    /// counts.extend_with(alloc, more, |_key, here, new| *new = here.saturating_add(*new))?;
    /// Ok(counts.as_slice() == [(1, 10), (2, 22), (3, 3)].as_slice())
    /// ```
    pub fn extend_with<F: Fn(&K, &V, &mut V)>(
        &mut self,
        alloc: S::Alloc,
        other: Self,
        f: F,
    ) -> Result<Option<Self>, NoRoom<Self>>
        requires { CallableOnCommon F.Fn f K.cmp self.old.entries other.entries }
        ensures merged { (M : List (K × V)) × Combined F.Fn f K.cmp self.old.entries other.entries M
            × IsMergedInto K.cmp (with_pairs other M) self.old self.new result }
        ensures combined { (combine : K → V → V → V) → Combines F.Fn f combine → IsMergedInto K.cmp
            (with_pairs other (combined K.cmp combine self.old.entries other.entries)) self.old self.new result }
        // What a lookup finds: both values combined if both maps have the key, else the value of the one that has it.
        ensures found { (combine : K → V → V → V) → Combines F.Fn f combine → OnOk result ((key : K)
            → value_at K.cmp self.new.entries key
            ≡ found_with combine (value_at K.cmp self.old.entries key) (at K.cmp other.entries key)) }
    {
        self.extend_with_counted(alloc, other, f, &mut Count::new())
    }

    /// `extend_with`, counting its comparisons (own).
    pub fn extend_with_counted<F: Fn(&K, &V, &mut V)>(
        &mut self,
        alloc: S::Alloc,
        other: Self,
        f: F,
        count: &mut Count,
    ) -> Result<Option<Self>, NoRoom<Self>>
        requires { CallableOnCommon F.Fn f K.cmp self.old.entries other.entries }
        ensures merged { (M : List (K × V)) × Combined F.Fn f K.cmp self.old.entries other.entries M
            × IsMergedInto K.cmp (with_pairs other M) self.old self.new result }
        ensures combined { (combine : K → V → V → V) → Combines F.Fn f combine → IsMergedInto K.cmp
            (with_pairs other (combined K.cmp combine self.old.entries other.entries)) self.old self.new result }
        ensures found { (combine : K → V → V → V) → Combines F.Fn f combine → OnOk result ((key : K)
            → value_at K.cmp self.new.entries key
            ≡ found_with combine (value_at K.cmp self.old.entries key) (at K.cmp other.entries key)) }
        ensures cost { RisesByAtMost (2 + length other.entries * digits (length self.old.entries)
            + length other.entries * digits (length self.old.entries + length other.entries)) count.old count.new }
        ensures refusal { OnErr result (count.old.refusals < count.new.refusals) }
    {
        let mut store = other.store;
        self.combine_each(&mut store, &f, count);
        let combined = LiteMap::from_sorted_store_unchecked(store);
        self.extend_from_litemap_counted(alloc, combined, count)
    }

    // Calls `f` on each pair of a store whose key is in the map.
    fn combine_each<F: Fn(&K, &V, &mut V)>(&self, store: &mut S, f: &F, count: &mut Count)
        requires { CallableOnEachOf F.Fn f.now K.cmp self.now.entries (S.pairs store.old) }
        ensures combined { Combined F.Fn f.now K.cmp self.now.entries (S.pairs store.old) (S.pairs store.new) }
        ensures room { S.room store.new ≡ S.room store.old }
        ensures cost { RisesByAtMost (length (S.pairs store.old) * digits (length self.now.entries)) count.old count.new }
    {
        for index in 0..store.lm_len() {
            let (key, value) = store.lm_pair_mut(index);
            self.combine(key, value, f, count);
        }
    }

    fn combine<F: Fn(&K, &V, &mut V)>(&self, key: &K, value: &mut V, f: &F, count: &mut Count)
        requires { (here : V) → value_at K.cmp self.now.entries key.now ≡ Some here
            → TakesBoth F.Fn f.now key.now here value.old }
        ensures settled { MatchOption (value_at K.cmp self.now.entries key.now) (value.new ≡ value.old)
            (λ here. LeavesOfBoth F.Fn f.now key.now here value.old value.new) }
        ensures cost { RisesByAtMost (digits (length self.now.entries)) count.old count.new }
    {
        if let Some(here) = self.get_counted(key, count) {
            f(key, here, value);
        }
    }
}

impl<K: Ord, V, S: Store<K, V>> LiteMap<K, V, S> {
    /// Returns whether another map has all keys of this one (own). Its values and its store may be of other types.
    ///
    /// It walks both maps side by side, up to the first key that the other lacks, with at most one comparison for each key of
    /// both.
    pub fn is_subset<W, T: Store<K, W>>(&self, other: &LiteMap<K, W, T>) -> bool
        ensures all { result ≡ list_all (λ p. is_some (at K.cmp other.now.entries p.0)) self.now.entries }
        ensures found { IsTrue result → (key : K)
            → IsSome (value_at K.cmp self.now.entries key) → IsSome (value_at K.cmp other.now.entries key) }
    {
        self.is_subset_counted(other, &mut Count::new())
    }

    /// `is_subset`, counting its comparisons (own).
    pub fn is_subset_counted<W, T: Store<K, W>>(
        &self,
        other: &LiteMap<K, W, T>,
        count: &mut Count,
    ) -> bool
        ensures all { result ≡ list_all (λ p. is_some (at K.cmp other.now.entries p.0)) self.now.entries }
        ensures cost { RisesByAtMost (length self.now.entries + length other.now.entries) count.old count.new }
    {
        let mut rest = RangeIter::all(&other.store);
        let mut keys = RangeIter::all(&self.store);
        while let Some((key, _)) = keys.next() {
            if !skip_to(&mut rest, key, count) {
                return false;
            }
        }
        true
    }
}

impl<K: Ord + Drop, V: Drop, S: StoreBulkMut<K, V>> LiteMap<K, V, S> {
    /// Keeps the pairs whose keys another map has, and drops the others (own). A store that keeps its memory has room for as
    /// many pairs as were dropped.
    ///
    /// It walks both maps side by side, with at most one comparison for each key of both. The values and the store of the other
    /// map may be of other types.
    ///
    /// ```rust
    /// let mut days = three_days(alloc)?;
    /// let open: VecMap<u32, ()> = LiteMap::from_iter(alloc, [(1, ()), (2, ()), (5, ())])?;
    /// days.keep_keys_of(&open);
    /// let is_left = days.is_subset(&open) && days.as_slice() == [(1, "Monday"), (5, "Friday")].as_slice();
    /// days.remove_keys_of(&open);
    /// Ok(is_left && days.is_empty())
    /// ```
    pub fn keep_keys_of<W, T: Store<K, W>>(&mut self, other: &LiteMap<K, W, T>)
        ensures pairs { self.new.entries ≡ filter (λ p. is_some (at K.cmp other.now.entries p.0)) self.old.entries }
        // What a lookup finds: what it found before, if the other map has the key.
        ensures found { (key : K) → value_at K.cmp self.new.entries key
            ≡ if is_some (at K.cmp other.now.entries key) then value_at K.cmp self.old.entries key else None }
        ensures stays { KeepsPart (λ p. is_some (at K.cmp other.now.entries p.0)) self.old.entries self.new.entries }
        ensures room { S.keeps_memory → self.old.room + length self.old.entries ≤ self.new.room + length self.new.entries }
    {
        let mut rest = RangeIter::all(&other.store);
        self.store.lm_retain(
            move |key, _|
                ensures { Rising K.cmp rest.entry → (rest.exit ≡ above K.cmp rest.entry key.now)
                    × (result ≡ is_some (at K.cmp rest.entry key.now)) }
            { skip_to(&mut rest, key, &mut Count::new()) },
        );
    }

    /// Drops the pairs whose keys another map has, and keeps the others (own). It compares and leaves room as `keep_keys_of`
    /// does.
    pub fn remove_keys_of<W, T: Store<K, W>>(&mut self, other: &LiteMap<K, W, T>)
        ensures pairs { self.new.entries ≡ filter (λ p. not (is_some (at K.cmp other.now.entries p.0))) self.old.entries }
        // What a lookup finds: what it found before, if the other map lacks the key.
        ensures found { (key : K) → value_at K.cmp self.new.entries key
            ≡ if is_some (at K.cmp other.now.entries key) then None else value_at K.cmp self.old.entries key }
        ensures stays { KeepsPart (λ p. not (is_some (at K.cmp other.now.entries p.0))) self.old.entries self.new.entries }
        ensures room { S.keeps_memory → self.old.room + length self.old.entries ≤ self.new.room + length self.new.entries }
    {
        let mut rest = RangeIter::all(&other.store);
        self.store.lm_retain(
            move |key, _|
                ensures { Rising K.cmp rest.entry → (rest.exit ≡ above K.cmp rest.entry key.now)
                    × (result ≡ not (is_some (at K.cmp rest.entry key.now))) }
            { !skip_to(&mut rest, key, &mut Count::new()) },
        );
    }
}

// Skips the pairs whose keys are at most `key`, and returns whether one of them is equal.
fn skip_to<'a, K: Ord + 'a, W: 'a, T: Store<K, W>>(
    rest: &mut RangeIter<'a, K, W, T>,
    key: &K,
    count: &mut Count,
) -> bool
    ensures passed { Rising K.cmp rest.old
        → (rest.new ≡ above K.cmp rest.old key.now) × (result ≡ is_some (at K.cmp rest.old key.now)) }
    ensures counted { GoesOn count.old count.new }
    ensures cost { count.new.total + length rest.new ≤ count.old.total + length rest.old + 1 }
{
    while let Some((there, _)) = rest.first() {
        match count.cmp(there, key) {
            Ordering::Less => {}
            Ordering::Equal => {
                rest.next();
                return true;
            }
            Ordering::Greater => return false,
        }
        rest.next();
    }
    false
}
