//! Calls that change a map.
ghost use Rattle.std.specs.Prelude.{◌≡◌, ◌↔◌, ◌+◌, ◌*◌, ◌≤◌, ◌<◌, [], ◌∷◌, ◌++◌, length, slice_get, remove, filter, Bool, Some};
ghost use Rattle.std.specs.Prelude.{IsNone, IsSome, IsTrue, IsOk, None, Ok, IfOk, IfSome, OnOk, OnErr, true, false};
ghost use Rattle.std.specs.Fn.{FnOnceReturnsAt, FnOnceTakesAt};
ghost use Rattle.std.specs.Map.{keys_of};
ghost use Rattle.std.specs.Ordering.{is_eq};
ghost use Rattle.std.specs.Set.{remove_key};
ghost use Rattle.litemap_store.specs.Counts.{RisesByAtMost, digits};
ghost use Rattle.litemap_store.specs.Pairs.{AllBelow, Rising, at, place, put, value_at};
ghost use Rattle.litemap_store.specs.Retain.{Kept, Tests};
ghost use Rattle.litemap.specs.Callable.{TakesPairs};
ghost use Rattle.litemap_store.specs.Search.{CallableOnKeys};
ghost use Rattle.litemap_store.specs.Splits.{IsMissingAt};
ghost use Rattle.litemap.specs.Changes.{AddsIf, Inserts, RefusedFull, Removes, Renames};
ghost use Rattle.litemap.specs.FoundBy.{RemovesFound};
ghost use Rattle.litemap.specs.Retained.{Retains, ReturnsAt};
ghost use Rattle.std.specs.Borrow.{sem};
ghost use Rattle.litemap.specs.Lends.{RestsAs};
ghost use Rattle.litemap.specs.Updates.{Finds, KeysStay, Moves, MovesPlace, Places, TakesPair, Updates};
ghost use Rattle.litemap.specs.TryFault.{FailsAs, IfClosure, IsInsertedAt, Shown};

use crate::{LiteMap, TryFault};
use litemap_store::Query;
use litemap_store::store::{Count, KeepsMemory, NoRoom, StoreBulkMut, StoreMut};
use std::alloc::AllocError;
use std::cmp::Ordering;
use std::mem;

impl<K: Ord + Drop, V, S: StoreMut<K, V>> LiteMap<K, V, S> {
    /// Inserts a key-value pair, and returns the old value if the key was present.
    ///
    /// A present key stays, the new one is dropped, and no memory is taken. For a new key it may fail if the room is 0 (there is
    /// no spare capacity): because memory runs out, or because the store is full. Then the error returns the pair, and the map
    /// keeps its pairs.
    ///
    /// It makes O(log n) comparisons. For a new key it moves the pairs with greater keys up by one.
    ///
    /// ```rust
    /// let mut days = three_days(alloc)?;
    /// days.reserve(1)?;
    /// Ok(days.insert(2, "Tuesday")?.is_none() && days.insert(5, "Fri")? == Some("Friday"))
    /// ```
    pub fn insert(&mut self, key: K, value: V) -> Result<Option<V>, NoRoom<(K, V)>>
        ensures inserts { Inserts K.cmp key value self.old self.new result }
        ensures updates { OnOk result (Updates K.cmp key (Some value) self.old.entries self.new.entries) }
        ensures places { OnOk result (Places K.cmp key (Some value) self.old.entries self.new.entries) }
        ensures keys_stay { IfOk result (λ old. IsSome old → keys_of self.new.entries ≡ keys_of self.old.entries) }
        ensures rising { Rising K.cmp self.old.entries }
    {
        self.insert_counted(key, value, &mut Count::new())
    }

    /// `insert`, counting its comparisons (own).
    pub fn insert_counted(
        &mut self,
        key: K,
        value: V,
        count: &mut Count,
    ) -> Result<Option<V>, NoRoom<(K, V)>>
        ensures inserts { Inserts K.cmp key value self.old self.new result }
        ensures updates { OnOk result (Updates K.cmp key (Some value) self.old.entries self.new.entries) }
        ensures places { OnOk result (Places K.cmp key (Some value) self.old.entries self.new.entries) }
        ensures keys_stay { IfOk result (λ old. IsSome old → keys_of self.new.entries ≡ keys_of self.old.entries) }
        ensures rising { Rising K.cmp self.old.entries }
        ensures cost { RisesByAtMost (digits (length self.old.entries)) count.old count.new }
    {
        match self.search(&key, count) {
            Ok(index) => Ok(Some(mem::replace(self.value_in_mut(index), value))),
            Err(index) => {
                self.insert_at(index, key, value)?;
                Ok(None)
            }
        }
    }

    /// Returns the index and the value of a key; if the key was absent, inserts it first with what `f` returns for it.
    ///
    /// Errors, comparisons and moves are those of `try_find_or_insert`, whose contract says what the map is afterwards: use that
    /// one if a proof has to know it. Here only the clause `leaves` says it, for a proof by hand (docs/DECISIONS.md).
    ///
    /// ```rust
    /// let mut days = three_days(alloc)?;
    /// Ok(days.try_get_or_insert(7, |_number| Err("closed")) == Err(TryFault::Closure("closed")))
    /// ```
    pub fn try_get_or_insert<E, F: FnOnce(&K) -> Result<V, E> + Drop>(
        &mut self,
        key: K,
        f: F,
    ) -> Result<(usize, &V), TryFault<K, V, E>>
        requires { IsNone (at K.cmp self.old.entries key) → FnOnceTakesAt F.FnOnce f key }
        // The map once the borrow of the value has ended.
        ensures* leaves { sem 𝓛 (RestsAs K.row V.row S.row K.Ord S.pairs S.room self.entry
            (IsInsertedAt F.FnOnce f K.cmp key self.old result)) }
        // The index and the value: what was found, or what the closure returned.
        ensures place { IfOk result (λ there. there.0 ≡ place K.cmp self.old.entries key) }
        ensures present { IsSome (at K.cmp self.old.entries key) → IsOk result }
        ensures within { IsSome (at K.cmp self.old.entries key)
            → IfOk result (λ there. there.0 < length self.old.entries) }
        ensures value { IsSome (at K.cmp self.old.entries key)
            → IfOk result (λ there. Some there.1.now ≡ value_at K.cmp self.old.entries key) }
        ensures answered { IsNone (at K.cmp self.old.entries key)
            → IfOk result (λ there. FnOnceReturnsAt F.FnOnce f key (Ok there.1.now)) }
        ensures errors { FailsAs F.FnOnce f key self.old.room result }
    {
        let found = self.try_find_or_insert(key, f);
        let map = self.shared();
        map.shown(found)
    }

    // The map, shared for the rest of the borrow.
    fn shared(&mut self) -> &LiteMap<K, V, S>
        ensures* rests { sem 𝓛 (RestsAs K.row V.row S.row K.Ord S.pairs S.room self.entry (λ n. n ≡ self.old)) }
        ensures same { result.now ≡ self.old }
    {
        self
    }

    // Adds the value at the index that was found.
    fn shown<E>(
        &self,
        found: Result<usize, TryFault<K, V, E>>,
    ) -> Result<(usize, &V), TryFault<K, V, E>>
        requires { IfOk found (λ index. index < length self.now.entries) }
        ensures { Shown self.now.entries found result }
    {
        match found {
            Ok(index) => Ok((index, self.value_in(index).unwrap())),
            Err(error) => Err(error),
        }
    }

    /// Returns the index of a key; if the key was absent, inserts it first with what `f` returns for it (own).
    ///
    /// If the key was present, `f` is not called, and the key passed in is dropped. It compares and moves as `insert` does.
    ///
    /// # Errors
    ///
    /// `TryFault::Closure` is the error of `f`: nothing changes, and the key is dropped. `TryFault::NoRoom` says that memory
    /// ran out or the store is full, and returns the key and the value of `f`: the map keeps its pairs.
    ///
    /// ```rust
    /// let mut days = three_days(alloc)?;
    /// let place = days.try_find_or_insert(7, |_number| Ok::<_, AllocError>("Sunday"))?;
    /// Ok(days.get_indexed(place) == Some((&7, &"Sunday")))
    /// ```
    pub fn try_find_or_insert<E, F: FnOnce(&K) -> Result<V, E> + Drop>(
        &mut self,
        key: K,
        f: F,
    ) -> Result<usize, TryFault<K, V, E>>
        requires { IsNone (at K.cmp self.old.entries key) → FnOnceTakesAt F.FnOnce f key }
        // The index, and the pair that is there after the call.
        ensures place { IfOk result (λ index. index ≡ place K.cmp self.old.entries key) }
        ensures within { IfOk result (λ index. index < length self.new.entries) }
        ensures there { IfOk result (λ index. slice_get self.new.entries index ≡ at K.cmp self.new.entries key) }
        // The map as it was if the key is present, else with what the closure returned.
        ensures present { IsSome (at K.cmp self.old.entries key) → IsOk result × (self.new ≡ self.old) }
        ensures put { IsNone (at K.cmp self.old.entries key) → OnOk result
            ((v : V) × FnOnceReturnsAt F.FnOnce f key (Ok v) × (self.new.entries ≡ put K.cmp self.old.entries key v)) }
        ensures room { self.old.room ≤ self.new.room + 1 }
        // If nothing is inserted the list stays; if the closure returns an error, so does the room.
        ensures errors { FailsAs F.FnOnce f key self.old.room result }
        ensures unchanged { OnErr result (self.new.entries ≡ self.old.entries) }
        ensures unchanged_by_closure { IfClosure result (λ _. self.new ≡ self.old) }
    {
        let index = match self.search(&key, &mut Count::new()) {
            Ok(index) => return Ok(index),
            Err(index) => index,
        };
        let value = match f(&key) {
            Ok(value) => value,
            Err(error) => return Err(TryFault::Closure(error)),
        };
        match self.insert_at(index, key, value) {
            Ok(()) => Ok(index),
            Err(refused) => {
                let (key, value) = refused.back;
                Err(TryFault::NoRoom { key, value })
            }
        }
    }

    /// Removes the pair with an equal key, and returns its value, or `None` if there is none. The key of the pair is dropped.
    /// It makes O(log n) comparisons, and moves the pairs with greater keys down by one.
    ///
    /// ```rust
    /// let mut days = three_days(alloc)?;
    /// let wednesday = days.remove(&3);
    /// let friday = days.remove_by(|number| number.cmp(&5));
    /// let is_removed = wednesday == Some("Wednesday") && friday == Some("Friday");
    /// days.clear();
    /// Ok(is_removed && days.remove(&1).is_none())
    /// ```
    pub fn remove<Q: Query<K>>(&mut self, key: Q) -> Option<V>
        ensures value { result ≡ value_at Q.order self.old.entries (Q.sought key) }
        ensures removed { Removes Q.order (Q.sought key) S.keeps_memory self.old self.new result }
        ensures updates { Finds Q.order (Q.sought key) None self.old.entries self.new.entries }
        ensures others { KeysStay K.cmp Q.order (Q.sought key) self.old.entries self.new.entries }
        ensures places { Places Q.order (Q.sought key) None self.old.entries self.new.entries }
        ensures keys { keys_of self.new.entries ≡ remove_key (λ k. is_eq (Q.order k (Q.sought key))) (keys_of self.old.entries) }
        ensures rising { Rising K.cmp self.old.entries }
    {
        self.remove_counted(key, &mut Count::new())
    }

    /// `remove`, counting its comparisons (own).
    pub fn remove_counted<Q: Query<K>>(&mut self, key: Q, count: &mut Count) -> Option<V>
        ensures value { result ≡ value_at Q.order self.old.entries (Q.sought key) }
        ensures removed { Removes Q.order (Q.sought key) S.keeps_memory self.old self.new result }
        ensures updates { Finds Q.order (Q.sought key) None self.old.entries self.new.entries }
        ensures others { KeysStay K.cmp Q.order (Q.sought key) self.old.entries self.new.entries }
        ensures places { Places Q.order (Q.sought key) None self.old.entries self.new.entries }
        ensures keys { keys_of self.new.entries ≡ remove_key (λ k. is_eq (Q.order k (Q.sought key))) (keys_of self.old.entries) }
        ensures rising { Rising K.cmp self.old.entries }
        ensures cost { RisesByAtMost (digits (length self.old.entries)) count.old count.new }
    {
        Some(self.take_out(key, count)?.1)
    }

    /// Moves the value at `key` to `new_key`, and returns whether `key` was present (own).
    ///
    /// The map's own key at `key` is dropped. If `new_key` was present too, the map's own key stays there; its old value is
    /// dropped, and so is `new_key`. If `key` and `new_key` are equal, `new_key` replaces the map's key. If `key` was absent,
    /// nothing changes, and `new_key` is dropped.
    ///
    /// It is `remove`, which leaves room for a pair, and then `insert`: so it never fails, and doesn't lower the room. It makes
    /// O(log n) comparisons, and the moves of both.
    ///
    /// ```rust
    /// let mut days = three_days(alloc)?;
    /// Ok(days.rename(&1, 2) && !days.rename(&1, 3) && days.first() == Some((&2, &"Monday")))
    /// ```
    pub fn rename<Q: Query<K>>(&mut self, key: Q, new_key: K) -> bool
    where
        V: Drop,
        S: KeepsMemory<K, V>,
        ensures renamed { Renames Q.order (Q.sought key) K.cmp new_key self.old self.new result }
        ensures moves { Moves Q.order (Q.sought key) K.cmp new_key self.old.entries self.new.entries }
        ensures places { MovesPlace Q.order (Q.sought key) K.cmp new_key self.old.entries self.new.entries }
    {
        self.rename_counted(key, new_key, &mut Count::new())
    }

    /// `rename`, counting its comparisons (own).
    pub fn rename_counted<Q: Query<K>>(&mut self, key: Q, new_key: K, count: &mut Count) -> bool
    where
        V: Drop,
        S: KeepsMemory<K, V>,
        ensures renamed { Renames Q.order (Q.sought key) K.cmp new_key self.old self.new result }
        ensures moves { Moves Q.order (Q.sought key) K.cmp new_key self.old.entries self.new.entries }
        ensures places { MovesPlace Q.order (Q.sought key) K.cmp new_key self.old.entries self.new.entries }
        ensures cost { RisesByAtMost (2 * digits (length self.old.entries)) count.old count.new }
    {
        let Some(value) = self.remove_counted(key, count) else {
            return false;
        };
        let _old = self.insert_counted(new_key, value, count).unwrap();
        true
    }

    /// Removes a pair for whose key `f` returns `Equal`, and returns its value, or `None` if there is none (own). The key of
    /// the pair is dropped. It calls `f` as `get_by` does, and moves the pairs with greater keys down by one.
    pub fn remove_by<F: FnMut(&K) -> Ordering>(&mut self, f: F) -> Option<V>
        requires { CallableOnKeys F.FnMut self.old.entries f }
        ensures found { RemovesFound F.FnMut self.old.entries f result self.new.entries }
        ensures unchanged { IsNone result → self.new ≡ self.old }
        ensures taken { IfSome result (λ v. (key : K) × TakesPair K.cmp (key, v) self.old.entries self.new.entries) }
        ensures room { S.keeps_memory → IsSome result → self.old.room < self.new.room }
    {
        match self.find_index_by(f) {
            Ok(index) => Some(self.take_at(index).1),
            Err(_) => None,
        }
    }

    /// Removes and drops all pairs. A store that keeps its memory has room for as many then.
    pub fn clear(&mut self)
    where
        V: Drop,
        ensures pairs { self.new.entries ≡ [] }
        ensures room { S.keeps_memory → self.old.room + length self.old.entries ≤ self.new.room }
    {
        self.store.lm_clear();
    }
}

impl<K: Ord, V, S: StoreMut<K, V>> LiteMap<K, V, S> {
    /// Inserts a pair if its key is absent, and returns `None`; else changes nothing, and returns the pair. It compares, moves
    /// and fails as `insert` does.
    ///
    /// ```rust
    /// let mut days = three_days(alloc)?;
    /// Ok(days.try_insert(2, "Tuesday")?.is_none() && days.try_insert(5, "Fri")? == Some((5, "Fri")))
    /// ```
    pub fn try_insert(&mut self, key: K, value: V) -> Result<Option<(K, V)>, NoRoom<(K, V)>>
        ensures adds { AddsIf (IsNone (at K.cmp self.old.entries key)) (put K.cmp self.old.entries key value) (key, value)
            self.old self.new result }
        ensures updates { IfOk result (λ back. IsNone back
            → Updates K.cmp key (Some value) self.old.entries self.new.entries) }
        ensures places { IfOk result (λ back. IsNone back
            → Places K.cmp key (Some value) self.old.entries self.new.entries) }
    {
        match self.search(&key, &mut Count::new()) {
            Ok(_) => Ok(Some((key, value))),
            Err(index) => {
                self.insert_at(index, key, value)?;
                Ok(None)
            }
        }
    }

    /// Appends a pair if its key is above all others, and returns `None`; else changes nothing, and returns the pair. It makes
    /// at most one comparison, with the last key, and moves other pairs only if the store reallocates. If memory runs
    /// out, the pair comes back in the error, and the map keeps its pairs.
    ///
    /// ```rust
    /// let mut days = three_days(alloc)?;
    /// let is_appended = days.try_append(6, "Saturday")?.is_none();
    /// Ok(is_appended && days.try_append(2, "Tuesday")? == Some((2, "Tuesday")))
    /// ```
    pub fn try_append(&mut self, key: K, value: V) -> Result<Option<(K, V)>, NoRoom<(K, V)>>
        ensures adds { AddsIf (AllBelow K.cmp self.old.entries key) (self.old.entries ++ (key, value) ∷ []) (key, value)
            self.old self.new result }
        ensures updates { IfOk result (λ back. IsNone back
            → Updates K.cmp key (Some value) self.old.entries self.new.entries) }
        ensures places { IfOk result (λ back. IsNone back
            → Places K.cmp key (Some value) self.old.entries self.new.entries) }
    {
        if !self.is_above_all(&key) {
            return Ok(Some((key, value)));
        }
        self.store.lm_push(key, value)?;
        Ok(None)
    }

    /// Reserves capacity for at least `additional` more pairs, or returns an error if memory runs out or the store is full. It
    /// fails only if there was less room, and never lowers the room.
    pub fn reserve(&mut self, additional: usize) -> Result<(), AllocError>
        ensures pairs { self.new.entries ≡ self.old.entries }
        ensures room { OnOk result (additional ≤ self.new.room) }
        ensures room_not_lowered { self.old.room ≤ self.new.room }
        ensures full { OnErr result (self.old.room < additional) }
    {
        self.store.lm_reserve(additional)
    }

    // Compares with the last key alone.
    fn is_above_all(&self, key: &K) -> bool
        ensures { IsTrue result ↔ AllBelow K.cmp self.now.entries key.now }
    {
        match self.store.lm_last() {
            None => true,
            Some((last, _)) => last.cmp(key).is_lt(),
        }
    }

    pub(super) fn insert_at(&mut self, index: usize, key: K, value: V) -> Result<(), NoRoom<(K, V)>>
        requires { IsMissingAt K.cmp self.old.entries key index }
        ensures put { OnOk result (self.new.entries ≡ put K.cmp self.old.entries key value) }
        ensures refused { RefusedFull (key, value) self.old self.new result }
    {
        self.store.lm_insert(index, key, value)
    }
}

impl<K: Ord + Drop, V: Drop, S: StoreBulkMut<K, V>> LiteMap<K, V, S> {
    /// Keeps the pairs for which `f` returns true, in their order, and drops the others. A store that keeps its memory has room
    /// for as many pairs as were dropped.
    ///
    /// `f` is called once for each pair, in order, and has to accept each one in the state that the calls before left. If `f`
    /// keeps no state, the pairs are filtered by it. No keys are compared.
    ///
    /// ```rust
    /// let mut days = three_days(alloc)?;
    /// days.retain(|number, _name| *number < 4);
    /// Ok(days.as_slice() == [(1, "Monday"), (3, "Wednesday")].as_slice())
    /// ```
    pub fn retain<F: FnMut(&K, &V) -> bool>(&mut self, f: F)
        requires { TakesPairs F.FnMut K.cmp f self.old.entries }
        ensures kept { Kept F.FnMut f self.old.entries self.new.entries }
        ensures filtered { (test : K × V → Bool)
            → Tests F.FnMut f test → self.new.entries ≡ filter test self.old.entries }
        // What a lookup finds: if `f` returns true for the pair, what it found before; if false, nothing.
        ensures stays { (key : K) → ReturnsAt F.FnMut f K.cmp self.old.entries key true
            → value_at K.cmp self.new.entries key ≡ value_at K.cmp self.old.entries key }
        ensures gone { (key : K) → ReturnsAt F.FnMut f K.cmp self.old.entries key false
            → value_at K.cmp self.new.entries key ≡ None }
        // The same of any query.
        ensures retains { Retains F.FnMut f K.cmp self.old.entries self.new.entries }
        ensures fewer { length self.new.entries ≤ length self.old.entries }
        ensures room { S.keeps_memory → self.old.room + length self.old.entries ≤ self.new.room + length self.new.entries }
    {
        self.store.lm_retain(f);
    }
}
