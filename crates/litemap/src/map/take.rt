//! Calls that remove pairs and return them, keys with their values. A call for one pair takes no memory.
ghost use Rattle.std.specs.Prelude.{◌≡◌, ◌≢◌, ◌⊎◌, ◌+◌, ◌-◌, ◌++◌, ◌<◌, ◌≤◌, [], IsNone, IsSome, None, Some, IfOk, IsOk, OnErr};
ghost use Rattle.std.specs.Prelude.{OnOk};
ghost use Rattle.std.specs.Prelude.{All, Bool, false, drop, filter, IfSome, length, not, remove, slice_get, take};
ghost use Rattle.std.specs.Map.{keys_of};
ghost use Rattle.std.specs.Ordering.{is_eq, is_lt};
ghost use Rattle.std.specs.Set.{remove_key};
ghost use Rattle.std.specs.declared.cmp.Ordering.TheVariants.{Equal, Less};
ghost use Rattle.std.specs.declared.ops.Bound.TheVariants.{Included, Unbounded};
ghost use Rattle.litemap_store.specs.Counts.{RisesByAtMost, digits};
ghost use Rattle.litemap_store.specs.Pairs.{Rising, at, below};
ghost use Rattle.litemap_store.specs.Retain.{CallableOnEach, Tests};
ghost use Rattle.litemap.specs.Callable.{TakesPairs};
ghost use Rattle.litemap.specs.Changes.{Removes};
ghost use Rattle.litemap.specs.Parted.{Parted};
ghost use Rattle.litemap.specs.Updates.{Finds, IsGreatest, IsLeast, KeepsPart, KeysStay, Places, TakesPair};
ghost use Rattle.litemap.specs.Within.{within};

use crate::LiteMap;
use litemap_store::Query;
use litemap_store::split_store::split_store;
use litemap_store::store::{Count, StoreIntoIterator, StoreMut};
use std::alloc::AllocError;
use std::mem;
use std::ops::Bound;

/// ```rust
/// let mut days = three_days(alloc)?;
/// let (first, last) = (days.pop_first(), days.pop_last());
/// let are_ends = first == Some((1, "Monday")) && last == Some((5, "Friday"));
/// Ok(are_ends && days.remove_entry(&3) == Some((3, "Wednesday")))
/// ```
impl<K: Ord, V, S: StoreMut<K, V>> LiteMap<K, V, S> {
    /// Removes the pair with an equal key, and returns it, or `None` if there is none (own). The key returned is the map's own,
    /// which may differ from the one that is looked up. It compares and moves as `remove` does.
    pub fn remove_entry<Q: Query<K>>(&mut self, key: Q) -> Option<(K, V)>
        ensures pair { result ≡ at Q.order self.old.entries (Q.sought key) }
        ensures same_key { IfSome result (λ p. Q.order p.0 (Q.sought key) ≡ Equal) }
        ensures removed { Removes Q.order (Q.sought key) S.keeps_memory self.old self.new result }
        ensures updates { Finds Q.order (Q.sought key) None self.old.entries self.new.entries }
        ensures others { KeysStay K.cmp Q.order (Q.sought key) self.old.entries self.new.entries }
        ensures places { Places Q.order (Q.sought key) None self.old.entries self.new.entries }
        ensures keys { keys_of self.new.entries ≡ remove_key (λ k. is_eq (Q.order k (Q.sought key))) (keys_of self.old.entries) }
        ensures rising { Rising K.cmp self.old.entries }
    {
        self.take_out(key, &mut Count::new())
    }

    /// Removes the pair with the smallest key, and returns it, or `None` if the map is empty (own). It compares no keys, and
    /// moves all other pairs down by one.
    pub fn pop_first(&mut self) -> Option<(K, V)>
        ensures first { result ≡ slice_get self.old.entries 0 }
        ensures others { self.new.entries ≡ drop 1 self.old.entries }
        ensures taken { IfSome result (λ p. TakesPair K.cmp p self.old.entries self.new.entries) }
        ensures places { IfSome result (λ p. Places K.cmp p.0 None self.old.entries self.new.entries) }
        ensures least { IfSome result (λ p. IsLeast K.cmp p self.old.entries) }
        ensures unchanged { IsNone result → self.new ≡ self.old }
        ensures room { S.keeps_memory → IsSome result → self.old.room < self.new.room }
    {
        if self.is_empty() {
            return None;
        }
        Some(self.take_at(0))
    }

    /// Removes the pair with the greatest key, and returns it, or `None` if the map is empty (own). It compares no keys, and
    /// moves no other pair.
    pub fn pop_last(&mut self) -> Option<(K, V)>
        ensures last { result ≡ slice_get self.old.entries (length self.old.entries - 1) }
        ensures others { self.new.entries ≡ take (length self.old.entries - 1) self.old.entries }
        ensures taken { IfSome result (λ p. TakesPair K.cmp p self.old.entries self.new.entries) }
        ensures places { IfSome result (λ p. Places K.cmp p.0 None self.old.entries self.new.entries) }
        ensures greatest { IfSome result (λ p. IsGreatest K.cmp p self.old.entries) }
        ensures unchanged { IsNone result → self.new ≡ self.old }
        ensures room { S.keeps_memory → IsSome result → self.old.room < self.new.room }
    {
        let index = self.len().checked_sub(1)?;
        Some(self.take_at(index))
    }

    pub(super) fn take_out<Q: Query<K>>(&mut self, key: Q, count: &mut Count) -> Option<(K, V)>
        ensures pair { result ≡ at Q.order self.old.entries (Q.sought key) }
        ensures same_key { IfSome result (λ p. Q.order p.0 (Q.sought key) ≡ Equal) }
        ensures removed { Removes Q.order (Q.sought key) S.keeps_memory self.old self.new result }
        ensures updates { Finds Q.order (Q.sought key) None self.old.entries self.new.entries }
        ensures others { KeysStay K.cmp Q.order (Q.sought key) self.old.entries self.new.entries }
        ensures places { Places Q.order (Q.sought key) None self.old.entries self.new.entries }
        ensures keys { keys_of self.new.entries ≡ remove_key (λ k. is_eq (Q.order k (Q.sought key))) (keys_of self.old.entries) }
        ensures rising { Rising K.cmp self.old.entries }
        ensures cost { RisesByAtMost (digits (length self.old.entries)) count.old count.new }
    {
        match self.search(key, count) {
            Ok(index) => Some(self.take_at(index)),
            Err(_) => None,
        }
    }

    pub(super) fn take_at(&mut self, index: usize) -> (K, V)
        requires { index < length self.old.entries }
        ensures old { slice_get self.old.entries index ≡ Some result }
        ensures pairs { self.new.entries ≡ remove self.old.entries index }
        ensures taken { TakesPair K.cmp result self.old.entries self.new.entries }
        ensures places { Places K.cmp result.0 None self.old.entries self.new.entries }
        ensures rising { Rising K.cmp self.old.entries }
        ensures room { S.keeps_memory → self.old.room < self.new.room }
    {
        self.store.lm_remove(index)
    }
}

impl<K: Ord + Drop, V: Drop, S: StoreMut<K, V> + Drop> LiteMap<K, V, S> {
    /// Splits the map at a key, keeps the pairs with smaller keys, and returns the others as another map (own).
    ///
    /// It makes O(log n) comparisons. If all pairs stay nothing changes, and if all go the new map takes over the store:
    /// neither takes memory. Else the pairs that go move twice, into a vector and from there into a fresh store, and the others
    /// stay where they are; a store that keeps its memory has room for as many more as went. It fails only if memory runs out
    /// for one of these two, and then nothing changes.
    ///
    /// ```rust
    /// let mut days = three_days(alloc)?;
    /// let later = days.split_off(alloc, &2)?;
    /// Ok(days.len() == 1 && later.as_slice() == [(3, "Wednesday"), (5, "Friday")].as_slice())
    /// ```
    pub fn split_off<Q: Query<K>>(&mut self, alloc: S::Alloc, key: Q) -> Result<Self, AllocError>
        ensures below { OnOk result (self.new.entries ≡ below Q.order self.old.entries (Q.sought key)) }
        ensures from { IfOk result
            (λ m. m.entries ≡ within Q.order self.old.entries (Included (Q.sought key)) Unbounded) }
        ensures all_below { OnOk result
            (All (λ k. Q.order k (Q.sought key) ≡ Less) (keys_of self.new.entries)) }
        ensures all_from { IfOk result
            (λ m. All (λ k. is_lt (Q.order k (Q.sought key)) ≡ false) (keys_of m.entries)) }
        // What lookups find in the two parts.
        ensures stays { OnOk result
            (KeepsPart (λ p. is_lt (Q.order p.0 (Q.sought key))) self.old.entries self.new.entries) }
        ensures goes { IfOk result
            (λ m. KeepsPart (λ p. not (is_lt (Q.order p.0 (Q.sought key)))) self.old.entries m.entries) }
        ensures all { IfOk result (λ m. self.new.entries ++ m.entries ≡ self.old.entries) }
        ensures room { S.keeps_memory → IfOk result (λ m. below Q.order self.old.entries (Q.sought key) ≢ []
            → self.old.room + length m.entries ≤ self.new.room) }
        ensures unchanged { OnErr result (self.new ≡ self.old) }
        ensures unchanged_at_end { within Q.order self.old.entries (Included (Q.sought key)) Unbounded ≡ [] → self.new ≡ self.old }
        ensures whole { below Q.order self.old.entries (Q.sought key) ≡ [] → self.old.entries ≢ []
            → IfOk result (λ m. m ≡ self.old) }
        ensures succeeds { (below Q.order self.old.entries (Q.sought key) ≡ [])
            ⊎ (within Q.order self.old.entries (Included (Q.sought key)) Unbounded ≡ []) → IsOk result }
    {
        let index = self.start_of(Bound::Included(key), &mut Count::new());
        let later = split_store(alloc, &mut self.store, index)?;
        Ok(LiteMap::from_sorted_store_unchecked(later))
    }
}

impl<K: Ord + Drop, V: Drop, S: StoreIntoIterator<K, V> + Drop> LiteMap<K, V, S> {
    /// Removes the pairs for which `f` returns true, and returns them as another map, such as one of what has expired (own).
    ///
    /// `f` is called once on each pair, in order. If it keeps no state, both maps are filtered by it. Before the first call
    /// memory for all pairs is taken, twice; if it runs out, nothing changes. Each pair moves once, and no keys are compared.
    ///
    /// ```rust
    /// let mut hours = opening_hours(alloc)?;
    /// let early = hours.extract(alloc, |_day, hour| *hour < 9)?;
    /// Ok(early.as_slice() == [(1, 8)].as_slice() && hours.as_slice() == [(3, 10)].as_slice())
    /// ```
    pub fn extract<F: FnMut(&K, &V) -> bool>(
        &mut self,
        alloc: S::Alloc,
        f: F,
    ) -> Result<Self, AllocError>
        requires { TakesPairs F.FnMut K.cmp f self.old.entries }
        ensures parted { IfOk result (λ m. Parted F.FnMut f self.old.entries self.new.entries m.entries) }
        ensures filtered { (test : K × V → Bool) → Tests F.FnMut f test → IfOk result (λ m.
            (self.new.entries ≡ filter (λ p. not (test p)) self.old.entries) × (m.entries ≡ filter test self.old.entries)) }
        // What lookups find in both.
        ensures parts { (test : K × V → Bool) → Tests F.FnMut f test → IfOk result (λ m.
            KeepsPart (λ p. not (test p)) self.old.entries self.new.entries × KeepsPart test self.old.entries m.entries) }
        ensures unchanged { OnErr result (self.new ≡ self.old) }
    {
        let stays = S::lm_with_capacity(alloc, self.len())?;
        let mut goes = S::lm_with_capacity(alloc, self.len())?;
        let all = mem::replace(&mut self.store, stays);
        part(all, f, &mut self.store, &mut goes);
        Ok(LiteMap::from_sorted_store_unchecked(goes))
    }
}

// Moves each pair into one of two empty stores that have room, by what `f` returns for it.
fn part<K: Drop, V: Drop, S: StoreIntoIterator<K, V>, F: FnMut(&K, &V) -> bool>(
    all: S,
    mut f: F,
    stays: &mut S,
    goes: &mut S,
)
    requires callable { CallableOnEach F.FnMut f (S.pairs all) }
    requires stays { (S.pairs stays.old ≡ []) × (length (S.pairs all) ≤ S.room stays.old) }
    requires goes { (S.pairs goes.old ≡ []) × (length (S.pairs all) ≤ S.room goes.old) }
    ensures { Parted F.FnMut f (S.pairs all) (S.pairs stays.new) (S.pairs goes.new) }
{
    for (key, value) in all.lm_into_iter() {
        if f(&key, &value) {
            goes.lm_push(key, value).unwrap();
        } else {
            stays.lm_push(key, value).unwrap();
        }
    }
}
