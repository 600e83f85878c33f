//! Entries: a key of a map, present or absent, that is looked up once for all that is then done with it.
//!
//! An entry borrows its map for as long as it lives. A call that consumes the entry and returns a reference passes the borrow on
//! to that reference. In clauses `self.entry` is the entry as it was passed; `writes_back` says that the map then has the value
//! last written through a reference.
ghost use Rattle.std.specs.Prelude.{◌≡◌, ◌↔◌, ◌-◌, ◌<◌, Err, IfErr, IfOk, IfSome, IsNone, IsSome, None, Ok, OnErr, Some, length};
ghost use Rattle.std.specs.Prelude.{unwrap_or};
ghost use Rattle.std.specs.Borrow.{sem, MutBor};
ghost use Rattle.std.specs.Fn.{FnOnceReturnsAt, FnOnceTakesAt};
ghost use Rattle.litemap_store.specs.Splits.{IsMissingAt};
ghost use Rattle.litemap.specs.Updates.{Updates};

use crate::{LiteMap, TryFault};
use litemap_store::Query;
use litemap_store::store::{Count, NoRoom, Store, StoreMut};
use std::default::MadeWith;
use std::fmt::{self, Debug, Formatter, Write};
use std::mem;

/// A key of a map, present or absent.
///
/// ```rust
/// // hours: 1 8, 3 10
/// let is_default = *hours.entry(2).or_default()? == 0;
/// let is_made = *hours.entry(4).or_insert_with(|| 9)? == 9 && *hours.entry(4).key() == 4;
/// match hours.entry(5) {
///     Entry::Vacant(entry) => Ok(is_default && is_made && entry.into_key() == 5),
///     Entry::Occupied(_) => Ok(false),
/// }
/// ```
#[derive(Drop)]
pub enum Entry<'a, K: Ord, V, S: Store<K, V>> {
    /// The key is present.
    Occupied(OccupiedEntry<'a, K, V, S>),
    /// The key is absent.
    Vacant(VacantEntry<'a, K, V, S>),
}

/// The entry of a present key. No call on it takes memory, compares keys, or fails.
///
/// ```rust
/// // hours: 1 8, 3 10
/// let Entry::Occupied(mut entry) = hours.entry(1) else {
///     return Ok(false);
/// };
/// *entry.get_mut() = 7;
/// let is_seven = *entry.key() == 1 && *entry.get() == 7;
/// let is_nine = is_seven && entry.insert(9) == 7 && *entry.into_mut() == 9;
/// let first = hours.first_entry().map(|it| it.remove_entry());
/// let last = hours.last_entry().map(|it| it.remove());
/// Ok(is_nine && first == Some((1, 9)) && last == Some(10))
/// ```
#[derive(Drop)]
pub struct OccupiedEntry<'a, K: Ord, V, S: Store<K, V>> {
    map: &'a mut LiteMap<K, V, S>,
    index: usize,
    ghost within: { index < length map.now.entries },
}

/// The entry of an absent key.
#[derive(Drop)]
pub struct VacantEntry<'a, K: Ord, V, S: Store<K, V>> {
    map: &'a mut LiteMap<K, V, S>,
    key: K,
    index: usize,
    ghost missing: { IsMissingAt K.cmp map.now.entries key index },
}

impl<K: Ord + Drop, V, S: StoreMut<K, V>> LiteMap<K, V, S> {
    ghost use Rattle.litemap_store.specs.Pairs.{at, cut, key_or, put, value_at};
    ghost use Rattle.litemap.specs.Entries.{MatchEntry, entry_key, entry_map, entry_value, pairs_with, pairs_without};
    ghost use Rattle.litemap.specs.Entries.{IsEntryOf, IsFoundBy, RestsIfRefused};

    /// Looks a key up, and returns its entry, through which its value is read, written, inserted or removed without a second
    /// search. If an equal key is present, it stays in the map, and the one passed in is dropped.
    ///
    /// It takes no memory, and changes nothing. It makes O(log n) comparisons; calls on the entry make none.
    ///
    /// ```rust
    /// // days: 1 Monday, 3 Wednesday, 5 Friday
    /// *days.entry(1).or_insert("no day")? = "Mon";
    /// let is_inserted = *days.entry(2).or_insert("Tuesday")? == "Tuesday";
    /// Ok(is_inserted && days.get(&1) == Some(&"Mon") && days.len() == 4)
    /// ```
    pub fn entry(&mut self, key: K) -> Entry<'_, K, V, S>
        // The map that it borrows, unchanged.
        ensures same_map { (entry_map result).ghost_name ≡ self.entry.ghost_name }
        ensures unchanged { (entry_map result).now ≡ self.old }
        // Occupied exactly if an equal key is present.
        ensures found { MatchEntry result
            (IsSome (at K.cmp self.old.entries key)) (IsNone (at K.cmp self.old.entries key)) }
        ensures key { entry_key result ≡ Some (key_or (at K.cmp self.old.entries key) key) }
        ensures value { entry_value result ≡ value_at K.cmp self.old.entries key }
        // What a write through it makes of the pairs, and what a removal does.
        ensures writes { (v : V) → pairs_with result v ≡ put K.cmp self.old.entries key v }
        ensures removes { pairs_without result ≡ cut K.cmp self.old.entries key }
        // What lookups find after a write.
        ensures updates { (v : V) → Updates K.cmp key (Some v) self.old.entries (pairs_with result v) }
    {
        match self.search(&key, &mut Count::new()) {
            Ok(index) => Entry::Occupied(OccupiedEntry { map: self, index }),
            Err(index) => Entry::Vacant(VacantEntry {
                map: self,
                key,
                index,
            }),
        }
    }

    /// Looks up the key that a query finds, and returns its entry; if there is none, returns the entry of the key that `make`
    /// returns (own). So a key, such as the `String` of a `&str`, is made only if it is absent. It compares as `entry` does,
    /// and once more as much if a key is made. It takes no memory, and fails only if `make` does.
    ///
    /// ```rust
    /// let mut counts: VecMap<String, u32> = LiteMap::new(alloc);
    /// for word in ["to", "be", "or", "not", "to", "be"] {
    ///     let count = counts.entry_by(word, || word.to_string(alloc))?.or_insert(0)?;
    ///     *count = count.saturating_add(1);
    /// }
    /// Ok(counts.len() == 4 && counts.get("be") == Some(&2))
    /// ```
    pub fn entry_by<Q: Query<K>, E, F: FnOnce() -> Result<K, E>>(
        &mut self,
        query: Q,
        make: F,
    ) -> Result<Entry<'_, K, V, S>, E>
        requires { at Q.order self.old.entries (Q.sought query) ≡ None → F.pre make }
        // The map that it borrows, unchanged; so is the map after an error.
        ensures same_map { IfOk result (λ e. (entry_map e).ghost_name ≡ self.entry.ghost_name) }
        ensures unchanged { IfOk result (λ e. (entry_map e).now ≡ self.old) }
        ensures* rests { sem 𝓛 (RestsIfRefused K.row V.row S.row self.entry result) }
        // The entry of the key that is found, or of the one that is made.
        ensures found { IsSome (at Q.order self.old.entries (Q.sought query))
            → IfOk result (IsFoundBy Q.order self.old.entries (Q.sought query)) }
        ensures made { at Q.order self.old.entries (Q.sought query) ≡ None
            → IfOk result (λ e. (key : K) × F.post make (Ok key) × IsEntryOf self.old.entries key e) }
        ensures absent { OnErr result (at Q.order self.old.entries (Q.sought query) ≡ None) }
        ensures error { IfErr result (λ error. F.post make (Err error)) }
    {
        if let Ok(index) = self.search(query, &mut Count::new()) {
            return Ok(Entry::Occupied(OccupiedEntry { map: self, index }));
        }
        let key = make()?;
        Ok(self.entry(key))
    }
}

impl<K: Ord, V, S: StoreMut<K, V>> LiteMap<K, V, S> {
    ghost use Rattle.litemap.specs.Entries.{IsEntryAt, Occupied, RestsIfEmpty, entry_map};

    /// Returns the entry of the smallest key, or `None` if the map is empty (own). It compares no keys.
    ///
    /// ```rust
    /// let mut days = three_days(alloc)?;
    /// Ok(days.first_entry().map(|entry| entry.remove_entry()) == Some((1, "Monday")) && days.len() == 2)
    /// ```
    pub fn first_entry(&mut self) -> Option<OccupiedEntry<'_, K, V, S>>
        ensures there { IsSome result ↔ (0 < length self.old.entries) }
        ensures entry { IfSome result (IsEntryAt self.old.entries 0) }
        ensures same_map { IfSome result (λ o. (entry_map (Occupied o)).ghost_name ≡ self.entry.ghost_name) }
        ensures unchanged { IfSome result (λ o. (entry_map (Occupied o)).now ≡ self.old) }
        ensures* rests { sem 𝓛 (RestsIfEmpty K.row V.row S.row self.entry result) }
    {
        // For the proof: the keys ascend.
        self.keys_ascend();
        if self.is_empty() {
            return None;
        }
        Some(OccupiedEntry {
            map: self,
            index: 0,
        })
    }

    /// Returns the entry of the greatest key, or `None` if the map is empty (own). It compares no keys.
    ///
    /// ```rust
    /// let mut days = three_days(alloc)?;
    /// Ok(days.last_entry().map(|entry| entry.remove()) == Some("Friday") && days.len() == 2)
    /// ```
    pub fn last_entry(&mut self) -> Option<OccupiedEntry<'_, K, V, S>>
        ensures there { IsSome result ↔ (0 < length self.old.entries) }
        ensures entry { IfSome result (IsEntryAt self.old.entries (length self.old.entries - 1)) }
        ensures same_map { IfSome result (λ o. (entry_map (Occupied o)).ghost_name ≡ self.entry.ghost_name) }
        ensures unchanged { IfSome result (λ o. (entry_map (Occupied o)).now ≡ self.old) }
        ensures* rests { sem 𝓛 (RestsIfEmpty K.row V.row S.row self.entry result) }
    {
        let index = self.len().checked_sub(1)?;
        Some(OccupiedEntry { map: self, index })
    }
}

impl<'a, K: Ord, V, S: StoreMut<K, V>> Entry<'a, K, V, S> {
    ghost use Rattle.litemap.specs.Entries.{EntryFails, IsGivenBack, IsInserted, IsMadeFor, IsTakenFor};
    ghost use Rattle.std.specs.Map.Calls.{ModifiesValue};
    ghost use Rattle.std.specs.Option.{UnwrapsOrElse};
    ghost use Rattle.litemap.specs.Entries.{EntryLends, EntryRefused, entry_key, entry_map, entry_value};
    ghost use Rattle.litemap.specs.Entries.{pairs_with, pairs_without};

    /// Returns the key in the map, or the one that was looked up if it is absent (own).
    pub fn key(&self) -> &K
        ensures { entry_key self.now ≡ Some result.now }
    {
        match self {
            Entry::Occupied(entry) => entry.key(),
            Entry::Vacant(entry) => entry.key(),
        }
    }

    /// Returns a mutable reference to the value; if the key is absent, inserts it first with `default`.
    ///
    /// If the key is present, `default` is dropped. An insertion moves the pairs with greater keys up by one. If memory runs
    /// out, the key passed to `entry` and `default` come back in the error, and the map keeps its pairs.
    pub fn or_insert(self, default: V) -> Result<&'a mut V, NoRoom<(K, V)>>
    where
        V: Drop,
        ensures* writes_back { sem 𝓛 (EntryLends K.row V.row S.row self.entry result) }
        ensures value { IfOk result (λ slot. slot.now ≡ unwrap_or (entry_value self.entry) default) }
        ensures refused { EntryRefused self.entry (λ v. v ≡ default) result }
    {
        match self {
            Entry::Occupied(entry) => Ok(entry.into_mut()),
            Entry::Vacant(entry) => entry.insert(default),
        }
    }

    /// Returns a mutable reference to the value; if the key is absent, inserts it first with `V::default()`, which is made in
    /// either case, and dropped if the key is present. It moves pairs and fails as `or_insert` does.
    pub fn or_default(self) -> Result<&'a mut V, NoRoom<(K, V)>>
    where
        V: Default + Drop,
        ensures* writes_back { sem 𝓛 (EntryLends K.row V.row S.row self.entry result) }
        ensures value { IfOk result (λ slot. UnwrapsOrElse (entry_value self.entry) V.is_default slot.now) }
        ensures refused { EntryRefused self.entry V.is_default result }
    {
        self.or_insert(V::default())
    }

    /// Returns a mutable reference to the value; if the key is absent, inserts it first with what `default` returns. If the key
    /// is present, `default` is not called. It moves and fails as `or_insert` does.
    pub fn or_insert_with<F: FnOnce() -> V>(self, default: F) -> Result<&'a mut V, NoRoom<(K, V)>>
        requires { entry_value self ≡ None → F.pre default }
        ensures* writes_back { sem 𝓛 (EntryLends K.row V.row S.row self.entry result) }
        ensures value { IfOk result
            (λ slot. UnwrapsOrElse (entry_value self.entry) (F.post default) slot.now) }
        ensures refused { EntryRefused self.entry (F.post default) result }
    {
        match self {
            Entry::Occupied(occupied) => Ok(occupied.into_mut()),
            Entry::Vacant(vacant) => vacant.insert(default()),
        }
    }

    /// Returns a mutable reference to the value; if the key is absent, inserts it first with what `default` returns for it
    /// (own). If the key is present, `default` is not called. It moves and fails as `or_insert` does.
    ///
    /// ```rust
    /// // days: 1 Monday, 3 Wednesday, 5 Friday
    /// let kind = |number: &u32| if *number > 5 { "weekend" } else { "weekday" };
    /// Ok(*days.entry(6).or_insert_with_key(kind)? == "weekend")
    /// ```
    pub fn or_insert_with_key<F: FnOnce(&K) -> V>(
        self,
        default: F,
    ) -> Result<&'a mut V, NoRoom<(K, V)>>
        requires { IsTakenFor F.FnOnce default self }
        ensures* writes_back { sem 𝓛 (EntryLends K.row V.row S.row self.entry result) }
        ensures value { IfOk result
            (λ slot. UnwrapsOrElse (entry_value self.entry) (IsMadeFor F.FnOnce default self.entry) slot.now) }
        ensures refused { EntryRefused self.entry (IsMadeFor F.FnOnce default self.entry) result }
    {
        match self {
            Entry::Occupied(occupied) => Ok(occupied.into_mut()),
            Entry::Vacant(vacant) => {
                let value = returned_for(&vacant.key, default);
                vacant.insert(value)
            }
        }
    }

    /// Returns a mutable reference to the value; if the key is absent, inserts it first with a value that is made with the
    /// allocator, as an empty vector is (own). It moves and fails as `or_insert` does.
    ///
    /// ```rust
    /// let mut names: VecMap<u32, Vec<&str>> = LiteMap::new(alloc);
    /// names.entry(1).or_made_with(alloc)?.push("Monday")?;
    /// names.entry(1).or_made_with(alloc)?.push("Mon")?;
    /// Ok(names.get(&1).is_some_and(|list| list.len() == 2))
    /// ```
    pub fn or_made_with<A: Drop>(self, alloc: A) -> Result<&'a mut V, NoRoom<(K, V)>>
    where
        V: MadeWith<A>,
        ensures* writes_back { sem 𝓛 (EntryLends K.row V.row S.row self.entry result) }
        ensures value { IfOk result (λ slot. UnwrapsOrElse (entry_value self.entry) V.is_made_with slot.now) }
        ensures refused { EntryRefused self.entry V.is_made_with result }
    {
        match self {
            Entry::Occupied(occupied) => Ok(occupied.into_mut()),
            Entry::Vacant(vacant) => vacant.insert(V::made_with(alloc)),
        }
    }

    /// Returns a mutable reference to the value; if the key is absent, inserts it first with what `default` returns (own). If
    /// the key is present, `default` is not called. It moves pairs as `or_insert` does.
    ///
    /// # Errors
    ///
    /// `TryFault::Closure` is the error of `default`: nothing changes, and the key is dropped. `TryFault::NoRoom` says that
    /// memory ran out or the store is full, and returns the key and the value of `default`: the map keeps its pairs.
    ///
    /// ```rust
    /// // days: 1 Monday, 3 Wednesday, 5 Friday
    /// days.entry(7).or_try_insert_with(|| Err("closed")) == Err(TryFault::Closure("closed"))
    /// ```
    pub fn or_try_insert_with<E, F: FnOnce() -> Result<V, E>>(
        self,
        default: F,
    ) -> Result<&'a mut V, TryFault<K, V, E>>
    where
        K: Drop,
        requires { entry_value self ≡ None → F.pre default }
        ensures* writes_back { sem 𝓛 (EntryLends K.row V.row S.row self.entry result) }
        ensures value { IfOk result
            (λ slot. UnwrapsOrElse (entry_value self.entry) (λ v. F.post default (Ok v)) slot.now) }
        ensures errors { EntryFails self.entry (F.post default) result }
    {
        match self {
            Entry::Occupied(occupied) => Ok(occupied.into_mut()),
            Entry::Vacant(vacant) => vacant.try_insert_with(default),
        }
    }

    /// Writes the value if the key is present, else inserts it, and returns the entry of the key, which is then present (own). It
    /// moves pairs as `or_insert` does. If memory runs out, the entry and the value come back in the error.
    ///
    /// ```rust
    /// // days: 1 Monday, 3 Wednesday, 5 Friday
    /// let is_tue = days.entry(2).insert_entry("Tue")?.insert("Tuesday") == "Tue";
    /// Ok(is_tue && days.entry(5).insert_entry("Fri")?.remove() == "Fri")
    /// ```
    pub fn insert_entry(
        self,
        value: V,
    ) -> Result<OccupiedEntry<'a, K, V, S>, NoRoom<(VacantEntry<'a, K, V, S>, V)>>
    where
        V: Drop,
        ensures inserted { IfOk result (IsInserted self.entry value) }
        ensures refused { IfErr result (λ e. IsGivenBack self.entry e.back.0 × (e.back.1 ≡ value)) }
    {
        match self {
            Entry::Occupied(mut entry) => {
                entry.insert(value);
                Ok(entry)
            }
            Entry::Vacant(entry) => entry.insert_entry(value),
        }
    }

    /// Calls `f` on the value if the key is present, and returns the entry.
    ///
    /// ```rust
    /// // days: 1 Monday, 3 Wednesday, 5 Friday
    /// Ok(*days.entry(5).and_modify(|name| *name = "Fri").or_insert("")? == "Fri")
    /// ```
    pub fn and_modify<F: FnOnce(&mut V)>(self, f: F) -> Entry<'a, K, V, S>
        requires { (v : MutBor V) → entry_value self ≡ Some v.now → F.pre f v }
        ensures same_map { (entry_map result).ghost_name ≡ (entry_map self.entry).ghost_name }
        ensures same_room { (entry_map result).now.room ≡ (entry_map self.entry).now.room }
        ensures same_key { entry_key result ≡ entry_key self.entry }
        ensures same_writes { (v : V) → pairs_with result v ≡ pairs_with self.entry v }
        ensures same_removal { pairs_without result ≡ pairs_without self.entry }
        ensures update { ModifiesValue F.FnOnce f (entry_value self.entry) (entry_value result) }
    {
        match self {
            Entry::Occupied(mut entry) => {
                f(entry.get_mut());
                Entry::Occupied(entry)
            }
            Entry::Vacant(entry) => Entry::Vacant(entry),
        }
    }
}

impl<'a, K: Ord, V, S: StoreMut<K, V>> OccupiedEntry<'a, K, V, S> {
    ghost use Rattle.litemap.specs.Entries.{IntoLends, IsWritten, Occupied, OccupiedLends, entry_key, entry_map};
    ghost use Rattle.litemap.specs.Entries.{entry_value, pairs_without, with_entry_value};

    /// Returns the key in the map, which may differ from the one that was looked up.
    pub fn key(&self) -> &K
        ensures { entry_key (Occupied self.now) ≡ Some result.now }
    {
        self.map.get_indexed(self.index).unwrap().0
    }

    /// Returns a reference to the value.
    pub fn get(&self) -> &V
        ensures { entry_value (Occupied self.now) ≡ Some result.now }
    {
        self.map.value_in(self.index).unwrap()
    }

    /// Returns a mutable reference to the value.
    pub fn get_mut(&mut self) -> &mut V
        ensures* writes_back { sem 𝓛 (OccupiedLends K.row V.row S.row self.entry result) }
        ensures value { entry_value (Occupied self.old) ≡ Some result.now }
        ensures written { (v : V)
            → IsWritten (Occupied self.old) v (Occupied (with_entry_value self.old v)) }
    {
        let index = self.index;
        self.map.value_in_mut(index)
    }

    /// Returns a mutable reference to the value that lives as long as the borrow of the map.
    pub fn into_mut(self) -> &'a mut V
        ensures* writes_back { sem 𝓛 (IntoLends K.row V.row S.row self.entry result) }
        ensures value { entry_value (Occupied self.entry) ≡ Some result.now }
    {
        self.map.value_in_mut(self.index)
    }

    /// Replaces the value, and returns the old one. The key in the map stays.
    pub fn insert(&mut self, value: V) -> V
        ensures old { entry_value (Occupied self.old) ≡ Some result }
        ensures written { IsWritten (Occupied self.old) value (Occupied self.new) }
    {
        mem::replace(self.get_mut(), value)
    }

    /// Removes the pair, and returns its value. The key is dropped. The pairs with greater keys move down by one, and a store
    /// that keeps its memory has room for another pair then.
    pub fn remove(self) -> V
    where
        K: Drop,
        ensures value { entry_value (Occupied self.entry) ≡ Some result }
        ensures removed { self.exit.0.now.entries ≡ pairs_without (Occupied self.entry) }
        ensures room { S.keeps_memory → (entry_map (Occupied self.entry)).now.room < self.exit.0.now.room }
    {
        self.remove_entry().1
    }

    /// Removes the pair, and returns it (own). The key returned is the map's own. It moves and leaves room as `remove` does.
    pub fn remove_entry(self) -> (K, V)
        ensures key { entry_key (Occupied self.entry) ≡ Some result.0 }
        ensures value { entry_value (Occupied self.entry) ≡ Some result.1 }
        ensures removed { self.exit.0.now.entries ≡ pairs_without (Occupied self.entry) }
        ensures room { S.keeps_memory → (entry_map (Occupied self.entry)).now.room < self.exit.0.now.room }
    {
        let index = self.index;
        self.map.take_at(index)
    }
}

impl<'a, K: Ord, V, S: StoreMut<K, V>> VacantEntry<'a, K, V, S> {
    ghost use Rattle.litemap.specs.Entries.{EntryFails, EntryLends, EntryRefused, IsGivenBack, IsInserted, Vacant};
    ghost use Rattle.litemap.specs.Entries.{entry_key, entry_map};

    /// Returns the key that was looked up.
    pub fn key(&self) -> &K
        ensures { entry_key (Vacant self.now) ≡ Some result.now }
    {
        &self.key
    }

    /// Returns the key that was looked up, by value (own). The map stays as it is.
    pub fn into_key(self) -> K
        ensures key { entry_key (Vacant self.entry) ≡ Some result }
        ensures unchanged { self.exit.0.now ≡ (entry_map (Vacant self.entry)).now }
    {
        self.key
    }

    /// Inserts the key with a value, and returns a mutable reference to the value. The pairs with greater keys move up by one.
    /// If memory runs out, the key and the value come back in the error, and the map keeps its pairs.
    ///
    /// ```rust
    /// // days: 1 Monday, 3 Wednesday, 5 Friday
    /// match days.entry(4) {
    ///     Entry::Vacant(entry) => Ok(*entry.key() == 4 && *entry.insert("Thursday")? == "Thursday"),
    ///     Entry::Occupied(_) => Ok(false),
    /// }
    /// ```
    pub fn insert(self, value: V) -> Result<&'a mut V, NoRoom<(K, V)>>
        ensures* writes_back { sem 𝓛 (EntryLends K.row V.row S.row (Vacant self.entry) result) }
        ensures value { IfOk result (λ slot. slot.now ≡ value) }
        ensures refused { EntryRefused (Vacant self.entry) (λ v. v ≡ value) result }
    {
        let VacantEntry { map, key, index } = self;
        map.insert_at(index, key, value)?;
        Ok(map.value_in_mut(index))
    }

    // `insert_entry` of the absent key.
    fn insert_entry(
        self,
        value: V,
    ) -> Result<OccupiedEntry<'a, K, V, S>, NoRoom<(VacantEntry<'a, K, V, S>, V)>>
        ensures inserted { IfOk result (IsInserted (Vacant self.entry) value) }
        ensures refused { IfErr result (λ e. IsGivenBack (Vacant self.entry) e.back.0 × (e.back.1 ≡ value)) }
    {
        let VacantEntry { map, key, index } = self;
        match map.insert_at(index, key, value) {
            Ok(()) => Ok(OccupiedEntry { map, index }),
            Err(NoRoom { back: (key, value) }) => {
                let entry = VacantEntry { map, key, index };
                Err(NoRoom {
                    back: (entry, value),
                })
            }
        }
    }

    // `insert` of what `default` returns.
    fn try_insert_with<E, F: FnOnce() -> Result<V, E>>(
        self,
        default: F,
    ) -> Result<&'a mut V, TryFault<K, V, E>>
    where
        K: Drop,
        requires { F.pre default }
        ensures* writes_back { sem 𝓛 (EntryLends K.row V.row S.row (Vacant self.entry) result) }
        ensures value { IfOk result (λ slot. F.post default (Ok slot.now)) }
        ensures errors { EntryFails (Vacant self.entry) (F.post default) result }
    {
        let VacantEntry { map, key, index } = self;
        let value = match default() {
            Ok(value) => value,
            Err(error) => return Err(TryFault::Closure(error)),
        };
        if let Err(refused) = map.insert_at(index, key, value) {
            let (key, value) = refused.back;
            return Err(TryFault::NoRoom { key, value });
        }
        Ok(map.value_in_mut(index))
    }
}

fn returned_for<K, V, F: FnOnce(&K) -> V>(key: &K, f: F) -> V
    requires { FnOnceTakesAt F.FnOnce f key.now }
    ensures { FnOnceReturnsAt F.FnOnce f key.now result }
{
    f(key)
}

/// Formats the key and the value of an occupied entry, and the key of a vacant one. What is printed is not promised.
impl<K: Ord + Debug, V: Debug, S: StoreMut<K, V>> Debug for Entry<'_, K, V, S> {
    fn fmt<W: Write>(&self, f: &mut Formatter<W>) -> fmt::Result {
        match self {
            Entry::Occupied(entry) => entry.fmt(f),
            Entry::Vacant(entry) => entry.fmt(f),
        }
    }
}

/// Formats its key and its value. What is printed is not promised.
impl<K: Ord + Debug, V: Debug, S: StoreMut<K, V>> Debug for OccupiedEntry<'_, K, V, S> {
    fn fmt<W: Write>(&self, f: &mut Formatter<W>) -> fmt::Result {
        f.debug_struct("OccupiedEntry")
            .field("key", self.key())
            .field("value", self.get())
            .finish()
    }
}

/// Formats its key. What is printed is not promised.
impl<K: Ord + Debug, V, S: Store<K, V>> Debug for VacantEntry<'_, K, V, S> {
    fn fmt<W: Write>(&self, f: &mut Formatter<W>) -> fmt::Result {
        f.debug_struct("VacantEntry")
            .field("key", &self.key)
            .finish()
    }
}
