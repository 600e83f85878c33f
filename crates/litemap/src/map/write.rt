//! Calls that return a mutable reference to a value, and those that write or lend all values. None takes memory, and each but
//! `retain_mut` keeps the room, and moves no pair. A search for a key makes O(log n) comparisons; no other call compares keys.
//!
//! A reference starts at the value in the map, and the map ends with that one value replaced by what the reference holds at its
//! end.
ghost use Rattle.std.specs.Prelude.{◌≡◌, ◌+◌, ◌<◌, Bool, List, filter, length, map, ℕ, Ok, Err, OnOk, Some, IfNone, IfSome};
ghost use Rattle.std.specs.Prelude.{IsSome, slice_get};
ghost use Rattle.std.specs.Borrow.{sem};
ghost use Rattle.std.specs.List.{IsAmong};
ghost use Rattle.std.specs.Map.{keys_of, values_of};
ghost use Rattle.std.specs.Option.{option_copied_mut};
ghost use Rattle.litemap_store.specs.IterMut.{iter_mut_loan, iter_mut_left};
ghost use Rattle.litemap_store.specs.Lent.{set_values};
ghost use Rattle.litemap_store.specs.Pairs.{Rising, at, set_value, value_at, value_in, write};
ghost use Rattle.litemap_store.specs.Search.{CallableOnKeys, Found};
ghost use Rattle.litemap.specs.Callable.{TakesValues};
ghost use Rattle.litemap.specs.KeptWritten.{CallableOnValues, KeepsOf, KeptWritten, WritesAndTests};
ghost use Rattle.litemap.specs.Lends.{LendsThere, LendsFound, LendsKey, LendsIndex, LendsValue, LendsValues};
ghost use Rattle.litemap.specs.TryWritten.{TryWrites, WrittenUntil};
ghost use Rattle.litemap.specs.Updates.{Finds, KeysStay, Updates};
ghost use Rattle.litemap.specs.Written.{LeavesOf, Writes, Written};

use crate::LiteMap;
use litemap_store::Query;
use litemap_store::retain::SwapStore;
use litemap_store::store::{Count, IterMut, StoreColumns, StoreMut};
use std::cmp::Ordering;

/// ```rust
/// let mut days = three_days(alloc)?;
/// let monday = days.get_indexed_mut(0).map(|name| mem::replace(name, "Mon"));
/// let friday = days.get_mut_by(|number| number.cmp(&5)).map(|name| mem::replace(name, "Fri"));
/// let were_there = monday == Some("Monday") && friday == Some("Friday");
/// Ok(were_there && days.contains_key(&1) && *days.index_mut(&1) == "Mon")
/// ```
impl<K: Ord, V, S: StoreMut<K, V>> LiteMap<K, V, S> {
    /// Returns a mutable reference to the value of the pair with an equal key, or `None` if there is none. It makes O(log n)
    /// comparisons.
    ///
    /// ```rust
    /// let mut days = three_days(alloc)?;
    /// if let Some(name) = days.get_mut(&3) {
    ///     *name = "Wed";
    /// }
    /// Ok(days.get(&3) == Some(&"Wed"))
    /// ```
    pub fn get_mut<Q: Query<K>>(&mut self, key: Q) -> Option<&mut V>
        ensures* writes_back { sem 𝓛
            (LendsValue K.row V.row S.row K.Ord S.pairs S.room self.entry Q.order (Q.sought key) result) }
        ensures value { option_copied_mut result ≡ value_at Q.order self.old.entries (Q.sought key) }
        ensures member { IfSome result (λ v. IsAmong (values_of self.old.entries) v.now) }
        // What lookups find after a write.
        ensures updates { (v : V) → IsSome (at Q.order self.old.entries (Q.sought key)) → Finds Q.order (Q.sought key)
            (Some v) self.old.entries (write Q.order self.old.entries (Q.sought key) v) }
        ensures others { (v : V) → IsSome (at Q.order self.old.entries (Q.sought key)) → KeysStay K.cmp Q.order (Q.sought key)
            self.old.entries (write Q.order self.old.entries (Q.sought key) v) }
        ensures keys { (v : V) → keys_of (write Q.order self.old.entries (Q.sought key) v) ≡ keys_of self.old.entries }
        ensures len { (v : V) → length (write Q.order self.old.entries (Q.sought key) v) ≡ length self.old.entries }
        ensures rising { Rising K.cmp self.old.entries }
    {
        match self.search(key, &mut Count::new()) {
            Ok(index) => Some(self.value_in_mut(index)),
            Err(_) => None,
        }
    }

    /// Returns a mutable reference to the value of a pair for whose key `f` returns `Equal`, or `None` if there is none (own).
    ///
    /// It calls `f` as `get_by` does. If `f` returns `Equal` for several keys, any of them may be found, and the contract names
    /// no index.
    pub fn get_mut_by<F: FnMut(&K) -> Ordering>(&mut self, f: F) -> Option<&mut V>
        requires { CallableOnKeys F.FnMut self.old.entries f }
        ensures* writes_back { sem 𝓛
            (LendsFound K.row V.row S.row K.Ord S.pairs S.room self.entry
            (λ i. Found F.FnMut self.old.entries f (Ok i)) result) }
        ensures found { IfSome result (λ v. (i : ℕ)
            × Found F.FnMut self.old.entries f (Ok i) × (value_in self.old.entries i ≡ Some v.now)) }
        ensures none { IfNone result ((i : ℕ) × Found F.FnMut self.old.entries f (Err i)) }
    {
        match self.find_index_by(f) {
            Ok(index) => Some(self.value_in_mut(index)),
            Err(_) => None,
        }
    }

    /// Returns a mutable reference to the value of the pair with an equal key, which has to be there, as the operator `[]` does
    /// (own). It makes O(log n) comparisons.
    pub fn index_mut<Q: Query<K>>(&mut self, key: Q) -> &mut V
        requires { IsSome (at Q.order self.old.entries (Q.sought key)) }
        ensures* writes_back { sem 𝓛
            (LendsKey K.row V.row S.row K.Ord S.pairs S.room self.entry Q.order (Q.sought key) result) }
        ensures value { Some result.now ≡ value_at Q.order self.old.entries (Q.sought key) }
        ensures member { IsAmong (values_of self.old.entries) result.now }
        ensures updates { (v : V) → Finds Q.order (Q.sought key) (Some v) self.old.entries
            (write Q.order self.old.entries (Q.sought key) v) }
        ensures others { (v : V) → KeysStay K.cmp Q.order (Q.sought key) self.old.entries
            (write Q.order self.old.entries (Q.sought key) v) }
    {
        let index = self.search(key, &mut Count::new()).unwrap();
        self.value_in_mut(index)
    }

    /// Returns a mutable reference to the value at an index, or `None` if it is not below the length (own). It takes constant
    /// time.
    pub fn get_indexed_mut(&mut self, index: usize) -> Option<&mut V>
        ensures* writes_back { sem 𝓛
            (LendsIndex K.row V.row S.row K.Ord S.pairs S.room self.entry index result) }
        ensures value { option_copied_mut result ≡ value_in self.old.entries index }
        ensures member { IfSome result (λ v. IsAmong (values_of self.old.entries) v.now) }
        // What lookups find after a write.
        ensures updates { (p : K × V) (v : V) → slice_get self.old.entries index ≡ Some p
            → Updates K.cmp p.0 (Some v) self.old.entries (set_value self.old.entries index v) }
        ensures keys { (v : V) → keys_of (set_value self.old.entries index v) ≡ keys_of self.old.entries }
        ensures len { (v : V) → length (set_value self.old.entries index v) ≡ length self.old.entries }
        ensures rising { Rising K.cmp self.old.entries }
    {
        if index < self.len() {
            Some(self.value_in_mut(index))
        } else {
            None
        }
    }

    pub(super) fn value_in_mut(&mut self, index: usize) -> &mut V
        requires { index < length self.old.entries }
        ensures* writes_back { sem 𝓛
            (LendsThere K.row V.row S.row K.Ord S.pairs S.room self.entry index result) }
        ensures value { value_in self.old.entries index ≡ Some result.now }
    {
        self.store.lm_pair_mut(index).1
    }

    /// Calls `f` once on each key and a mutable reference to its value, in order (own). The Rust crate has `iter_mut` instead.
    ///
    /// `f` has to accept each pair in the state that the calls before left. If it keeps no state, and what it writes depends on
    /// the pair alone, the list is the old one with these values. It compares no keys, and moves no pair.
    ///
    /// ```rust
    /// let mut days = three_days(alloc)?;
    /// days.update(|_number, name| *name = "open");
    /// Ok(days.as_slice() == [(1, "open"), (3, "open"), (5, "open")].as_slice())
    /// ```
    pub fn update<F: FnMut(&K, &mut V)>(&mut self, f: F)
        requires { TakesValues F.FnMut K.cmp f self.old.entries }
        ensures written { Written F.FnMut f self.old.entries self.new.entries }
        ensures mapped { (write : K → V → V) → Writes F.FnMut f write
            → self.new.entries ≡ map (λ p. (p.0, write p.0 p.1)) self.old.entries }
        // What lookups find.
        ensures leaves { LeavesOf F.FnMut f self.old.entries self.new.entries }
        ensures keys { keys_of self.new.entries ≡ keys_of self.old.entries }
        ensures room { self.new.room ≡ self.old.room }
    {
        write_each(&mut self.store, f);
    }

    /// Calls `f` once on each key and a mutable reference to its value, in order, up to the first error, which it returns
    /// (own). What was written before stays; an error also serves to end early. It compares no keys, and moves no pair.
    ///
    /// ```rust
    /// let mut hours = opening_hours(alloc)?;
    /// let later = hours.try_update(|day, hour| {
    ///     *hour = hour.saturating_add(1);
    ///     if *day < 3 { Ok(()) } else { Err("closed") }
    /// });
    /// Ok(later == Err("closed") && hours.as_slice() == [(1, 9), (3, 11)].as_slice())
    /// ```
    pub fn try_update<E, F: FnMut(&K, &mut V) -> Result<(), E>>(&mut self, f: F) -> Result<(), E>
        requires { TakesValues F.FnMut K.cmp f self.old.entries }
        ensures written { WrittenUntil F.FnMut f self.old.entries self.new.entries result }
        ensures mapped { (write : K → V → V) → TryWrites F.FnMut f write
            → OnOk result (self.new.entries ≡ map (λ p. (p.0, write p.0 p.1)) self.old.entries) }
        ensures keys { keys_of self.new.entries ≡ keys_of self.old.entries }
        ensures room { self.new.room ≡ self.old.room }
    {
        try_write_each(&mut self.store, f)
    }
}

impl<K: Ord, V, S: StoreMut<K, V> + SwapStore<K, V>> LiteMap<K, V, S> {
    /// Calls `f` once on each key and a mutable reference to its value, in order, keeps the pairs for which it returns `true`, as
    /// it leaves them, and drops the others (own). If `f` keeps no state, and what it writes and returns depends on the pair
    /// alone, the pairs are filtered and mapped. It compares no keys. A pair that stays moves at most once.
    ///
    /// ```rust
    /// let mut hours = opening_hours(alloc)?;
    /// hours.retain_mut(|_day, hour| {
    ///     *hour = hour.saturating_sub(9);
    ///     *hour > 0
    /// });
    /// Ok(hours.as_slice() == [(3, 1)].as_slice())
    /// ```
    pub fn retain_mut<F: FnMut(&K, &mut V) -> bool>(&mut self, f: F)
        requires { TakesValues F.FnMut K.cmp f self.old.entries }
        ensures kept { KeepsOf F.FnMut f K.cmp self.old.entries self.new.entries }
        ensures mapped { (write : K → V → V) (test : K → V → Bool) → WritesAndTests F.FnMut f write test
            → self.new.entries ≡ map (λ p. (p.0, write p.0 p.1)) (filter (λ p. test p.0 p.1) self.old.entries) }
        ensures room { self.old.room + length self.old.entries ≡ self.new.room + length self.new.entries }
    {
        retain_written(&mut self.store, f);
    }
}

impl<K: Ord, V, S: StoreColumns<K, V>> LiteMap<K, V, S> {
    /// Returns the keys, in order, as a slice (own). It takes constant time.
    pub fn keys_slice(&self) -> &[K]
        ensures { result.now ≡ keys_of self.now.entries }
    {
        self.store.lm_columns().0
    }

    /// Returns the values, in the order of their keys, as a slice (own). It takes constant time.
    ///
    /// ```rust
    /// let days: ColumnMap<u32, &str> = [(3, "Wednesday"), (1, "Monday")].into_iter().collect(alloc)?;
    /// days.keys_slice() == [1, 3].as_slice() && days.values_slice() == ["Monday", "Wednesday"].as_slice()
    /// ```
    pub fn values_slice(&self) -> &[V]
        ensures { result.now ≡ values_of self.now.entries }
    {
        self.store.lm_columns().1
    }

    /// Returns the values, in the order of their keys, as a mutable slice (own). The map ends with the values that are left
    /// there. It takes constant time.
    ///
    /// ```rust
    /// let mut days: ColumnMap<u32, &str> = [(3, "Wednesday"), (1, "Monday")].into_iter().collect(alloc)?;
    /// days.values_mut_slice().fill("open");
    /// Ok(days.get(&1) == Some(&"open") && days.get(&3) == Some(&"open"))
    /// ```
    pub fn values_mut_slice(&mut self) -> &mut [V]
        ensures* writes_back { sem 𝓛
            (LendsValues K.row V.row S.row K.Ord S.pairs S.room self.entry result.ghost_name) }
        ensures values { result.now ≡ values_of self.old.entries }
    {
        self.store.lm_columns_mut().1
    }

    /// Returns an iterator over all pairs, in the order of their keys, that lends each value. The map keeps its keys. Each step
    /// takes constant time.
    ///
    /// ```rust
    /// let mut days: ColumnMap<u32, &str> = [(3, "Wednesday"), (1, "Monday")].into_iter().collect(alloc)?;
    /// for (number, name) in &mut days {
    ///     *name = if *number == 3 { "open" } else { "closed" };
    /// }
    /// Ok(days.get(&1) == Some(&"closed") && days.get(&3) == Some(&"open"))
    /// ```
    pub fn iter_mut(&mut self) -> IterMut<'_, K, V>
        ensures* writes_back { sem 𝓛
            (LendsValues K.row V.row S.row K.Ord S.pairs S.room self.entry (iter_mut_loan result)) }
        ensures left { iter_mut_left result ≡ self.old.entries }
        ensures keys { (values : List V) → keys_of (set_values self.old.entries values) ≡ keys_of self.old.entries }
    {
        let (keys, values) = self.store.lm_columns_mut();
        IterMut::new(keys, values)
    }
}

impl<'a, K: Ord, V, S: StoreColumns<K, V>> IntoIterator for &'a mut LiteMap<K, V, S> {
    type Item = (&'a K, &'a mut V);

    type IntoIter = IterMut<'a, K, V>;

    ghost into_iter_gives = { λ m r. iter_mut_left r ≡ m.now.entries };

    fn into_iter(self) -> IterMut<'a, K, V>
        ensures* writes_back { sem 𝓛
            (LendsValues K.row V.row S.row K.Ord S.pairs S.room self.entry (iter_mut_loan result)) }
        ensures into_iter_gives { iter_mut_left result ≡ self.old.entries }
        ensures keys { (values : List V) → keys_of (set_values self.old.entries values) ≡ keys_of self.old.entries }
    {
        self.iter_mut()
    }
}

fn write_each<K, V, S: StoreMut<K, V>, F: FnMut(&K, &mut V)>(store: &mut S, mut f: F)
    requires { CallableOnValues F.FnMut f (S.pairs store.old) }
    ensures written { Written F.FnMut f (S.pairs store.old) (S.pairs store.new) }
    ensures room { S.room store.new ≡ S.room store.old }
{
    for index in 0..store.lm_len() {
        let (key, value) = store.lm_pair_mut(index);
        f(key, value);
    }
}

fn try_write_each<K, V, E, S: StoreMut<K, V>, F: FnMut(&K, &mut V) -> Result<(), E>>(
    store: &mut S,
    mut f: F,
) -> Result<(), E>
    requires { CallableOnValues F.FnMut f (S.pairs store.old) }
    ensures written { WrittenUntil F.FnMut f (S.pairs store.old) (S.pairs store.new) result }
    ensures room { S.room store.new ≡ S.room store.old }
{
    for index in 0..store.lm_len() {
        let (key, value) = store.lm_pair_mut(index);
        match f(key, value) {
            Ok(()) => {}
            Err(error) => return Err(error),
        }
    }
    Ok(())
}

fn retain_written<K, V, S: StoreMut<K, V> + SwapStore<K, V>, F: FnMut(&K, &mut V) -> bool>(
    store: &mut S,
    mut f: F,
)
    requires { CallableOnValues F.FnMut f (S.pairs store.old) }
    ensures kept { KeptWritten F.FnMut f (S.pairs store.old) (S.pairs store.new) }
    ensures room { S.room store.old + length (S.pairs store.old) ≡ S.room store.new + length (S.pairs store.new) }
{
    let mut kept = 0;
    for index in 0..store.lm_len() {
        let (key, value) = store.lm_pair_mut(index);
        let stays = f(key, value);
        store.lm_swap(kept, index);
        if stays {
            kept += 1;
        }
    }
    store.lm_truncate(kept);
}
