//! Calls that look at a map. None takes memory. A lookup of a key makes O(log n) comparisons.
ghost use Rattle.std.specs.Prelude.{◌≡◌, ◌==◌, ◌-◌, ◌<◌, [], IfOk, IfSome, IsNone, IsSome, Some, is_some, length, slice_get};
ghost use Rattle.std.specs.Cmp.{IsTotalOrder};
ghost use Rattle.std.specs.List.{IsAmong};
ghost use Rattle.std.specs.Map.{values_of};
ghost use Rattle.std.specs.Map.Iter.{deref_pair};
ghost use Rattle.std.specs.Option.{option_copied, option_map};
ghost use Rattle.litemap_store.specs.Counts.{RisesByAtMost, digits};
ghost use Rattle.litemap_store.specs.Pairs.{Rising, at, value_at, value_in};
ghost use Rattle.litemap_store.specs.Search.{CallableOnKeys, Found};
ghost use Rattle.litemap_store.specs.Splits.{Splits};
ghost use Rattle.std.specs.declared.cmp.Ordering.TheVariants.{Equal, Greater, Less};
ghost use Rattle.litemap.specs.FoundBy.{FindsIndex, GetsFound};
ghost use Rattle.litemap.specs.Updates.{IsGreatest, IsLeast};
ghost use Rattle.litemap.specs.Nearest.{Nearest};

use crate::LiteMap;
use litemap_store::Query;
use litemap_store::store::{Count, Store};
use std::cmp::Ordering;

/// ```rust
/// // days: 1 Monday, 3 Wednesday, 5 Friday
/// days.keys_ascend();
/// let is_there = days.contains_key(&3) && *days.index(&3) == "Wednesday";
/// let is_second = days.get_key_value(&3) == days.get_indexed(1);
/// let are_ends = days.first() == days.get_indexed(0) && days.last() == days.get_indexed(2);
/// is_there && is_second && are_ends && !days.is_empty() && days.len() == 3
/// ```
impl<K: Ord, V, S: Store<K, V>> LiteMap<K, V, S> {
    /// Returns the number of pairs. It takes constant time.
    pub fn len(&self) -> usize
        ensures len { result ≡ length self.now.entries }
        ensures rising { Rising K.cmp self.now.entries }
    {
        self.store.lm_len()
    }

    /// Does nothing, but promises to a caller's proof what holds of every map: the keys are strictly ascending, and their order
    /// is total (own).
    pub fn keys_ascend(&self)
        ensures rising { Rising K.cmp self.now.entries }
        ensures order { IsTotalOrder K.cmp }
    {
        let _opened = &self.store;
    }

    /// Returns whether the map is empty. It takes constant time.
    pub fn is_empty(&self) -> bool
        ensures { result ≡ (length self.now.entries == 0) }
    {
        self.store.lm_is_empty()
    }

    /// Returns the pair at an index, or `None` if it is not below the length. It takes constant time.
    pub fn get_indexed(&self, index: usize) -> Option<(&K, &V)>
        ensures { option_map deref_pair result ≡ slice_get self.now.entries index }
    {
        self.store.lm_get(index)
    }

    /// Returns the pair with the smallest key, or `None` if the map is empty. It takes constant time.
    pub fn first(&self) -> Option<(&K, &V)>
        ensures pair { option_map deref_pair result ≡ slice_get self.now.entries 0 }
        ensures found { IfSome result (λ p. at K.cmp self.now.entries p.0.now ≡ Some (deref_pair p)) }
        ensures least { IfSome result (λ p. IsLeast K.cmp (deref_pair p) self.now.entries) }
        ensures empty { IsNone result → self.now.entries ≡ [] }
        ensures rising { Rising K.cmp self.now.entries }
    {
        self.store.lm_get(0)
    }

    /// Returns the pair with the greatest key, or `None` if the map is empty. It takes constant time.
    pub fn last(&self) -> Option<(&K, &V)>
        ensures pair { option_map deref_pair result ≡ slice_get self.now.entries (length self.now.entries - 1) }
        ensures found { IfSome result (λ p. at K.cmp self.now.entries p.0.now ≡ Some (deref_pair p)) }
        ensures greatest { IfSome result (λ p. IsGreatest K.cmp (deref_pair p) self.now.entries) }
        ensures empty { IsNone result → self.now.entries ≡ [] }
        ensures rising { Rising K.cmp self.now.entries }
    {
        self.store.lm_last()
    }

    /// Returns the value of the pair with an equal key, or `None` if there is none. It makes O(log n) comparisons.
    ///
    /// The key is a `Query`: a reference to a key, a `&str` if keys are strings, a slice if they are vectors or slices, or a
    /// type of the caller's own.
    ///
    /// ```rust
    /// // days: 1 Monday, 3 Wednesday, 5 Friday
    /// days.get(&3) == Some(&"Wednesday") && days.get(&4).is_none()
    /// ```
    pub fn get<Q: Query<K>>(&self, key: Q) -> Option<&V>
        ensures value { option_copied result ≡ value_at Q.order self.now.entries (Q.sought key) }
        ensures member { IfSome result (λ v. IsAmong (values_of self.now.entries) v.now) }
        ensures rising { Rising K.cmp self.now.entries }
    {
        self.get_counted(key, &mut Count::new())
    }

    /// `get`, counting its comparisons (own).
    pub fn get_counted<Q: Query<K>>(&self, key: Q, count: &mut Count) -> Option<&V>
        ensures value { option_copied result ≡ value_at Q.order self.now.entries (Q.sought key) }
        ensures member { IfSome result (λ v. IsAmong (values_of self.now.entries) v.now) }
        ensures rising { Rising K.cmp self.now.entries }
        ensures cost { RisesByAtMost (digits (length self.now.entries)) count.old count.new }
    {
        match self.search(key, count) {
            Ok(index) => self.value_in(index),
            Err(_) => None,
        }
    }

    /// Returns the pair with an equal key, or `None` if there is none (own). Its key is the one in the map, if equal keys
    /// differ. It makes O(log n) comparisons.
    pub fn get_key_value<Q: Query<K>>(&self, key: Q) -> Option<(&K, &V)>
        ensures pair { option_map deref_pair result ≡ at Q.order self.now.entries (Q.sought key) }
        ensures same_key { IfSome result (λ p. Q.order p.0.now (Q.sought key) ≡ Equal) }
    {
        match self.search(key, &mut Count::new()) {
            Ok(index) => self.store.lm_get(index),
            Err(_) => None,
        }
    }

    /// Returns the value of a pair for whose key `f` returns `Equal`, or `None` if there is none. It calls `f` O(log n) times.
    ///
    /// Use it for a search that no `Query` expresses: by a closure that matches several keys, or that keeps state. The result of
    /// `f` should depend on the key alone, and over the keys be `Less`, then `Equal`, then `Greater`; else nothing is promised of
    /// what is found. If `f` returns `Equal` for several keys, any of them may be found.
    ///
    /// ```rust
    /// // days: 1 Monday, 3 Wednesday, 5 Friday
    /// let place = days.find_index_by(|number| number.cmp(&4));
    /// days.get_by(|number| number.cmp(&3)) == Some(&"Wednesday") && place == Err(2)
    /// ```
    pub fn get_by<F: FnMut(&K) -> Ordering>(&self, f: F) -> Option<&V>
        requires { CallableOnKeys F.FnMut self.now.entries f }
        ensures { GetsFound F.FnMut self.now.entries f (option_copied result) }
    {
        match self.find_index_by(f) {
            Ok(index) => self.value_in(index),
            Err(_) => None,
        }
    }

    /// Returns whether there is a pair with an equal key. It makes O(log n) comparisons.
    pub fn contains_key<Q: Query<K>>(&self, key: Q) -> bool
        ensures { result ≡ is_some (at Q.order self.now.entries (Q.sought key)) }
    {
        self.search(key, &mut Count::new()).is_ok()
    }

    /// Returns the value of the pair with an equal key, which has to be there, as the operator `[]` does (own). It makes
    /// O(log n) comparisons.
    pub fn index<Q: Query<K>>(&self, key: Q) -> &V
        requires { IsSome (at Q.order self.now.entries (Q.sought key)) }
        ensures value { Some result.now ≡ value_at Q.order self.now.entries (Q.sought key) }
        ensures member { IsAmong (values_of self.now.entries) result.now }
    {
        self.get(key).unwrap()
    }

    /// Returns `Ok` with the index of the pair with an equal key, or `Err` with the index where it would be inserted, the
    /// number of smaller keys. It makes O(log n) comparisons.
    ///
    /// ```rust
    /// // days: 1 Monday, 3 Wednesday, 5 Friday
    /// days.find_index(&3) == Ok(1) && days.find_index(&4) == Err(2)
    /// ```
    pub fn find_index<Q: Query<K>>(&self, key: Q) -> Result<usize, usize>
        ensures { FindsIndex Q.order self.now.entries (Q.sought key) result }
    {
        self.find_index_counted(key, &mut Count::new())
    }

    /// `find_index`, counting its comparisons (own).
    pub fn find_index_counted<Q: Query<K>>(&self, key: Q, count: &mut Count) -> Result<usize, usize>
        ensures finds { FindsIndex Q.order self.now.entries (Q.sought key) result }
        ensures cost { RisesByAtMost (digits (length self.now.entries)) count.old count.new }
    {
        self.search(key, count)
    }

    /// Returns `Ok` with the index of a pair for whose key `f` returns `Equal`, or, if there is none, `Err` with the number of
    /// keys for which it returns `Less` (own). It calls `f` as `get_by` does.
    pub fn find_index_by<F: FnMut(&K) -> Ordering>(&self, f: F) -> Result<usize, usize>
        requires { CallableOnKeys F.FnMut self.now.entries f }
        ensures found { Found F.FnMut self.now.entries f result }
        ensures within { IfOk result (λ index. index < length self.now.entries) }
    {
        self.store.lm_binary_search_by(f, &mut Count::new())
    }

    /// Returns the pair with the greatest key that is not above `key`, or `None` if all are (own). It makes O(log n)
    /// comparisons.
    ///
    /// ```rust
    /// // days: 1 Monday, 3 Wednesday, 5 Friday
    /// let is_third = days.floor(&4) == Some((&3, &"Wednesday"));
    /// is_third && days.floor(&5) == days.last() && days.floor(&0).is_none()
    /// ```
    pub fn floor<Q: Query<K>>(&self, key: Q) -> Option<(&K, &V)>
        ensures { Nearest K.cmp Q.order Greater self.now.entries (Q.sought key) (option_map deref_pair result) }
    {
        match self.search(key, &mut Count::new()) {
            Ok(index) => self.store.lm_get(index),
            Err(0) => None,
            Err(index) => self.store.lm_get(index - 1),
        }
    }

    /// Returns the pair with the smallest key that is not below `key`, or `None` if all are (own). It makes O(log n)
    /// comparisons.
    ///
    /// ```rust
    /// // days: 1 Monday, 3 Wednesday, 5 Friday
    /// let is_third = days.ceiling(&2) == Some((&3, &"Wednesday"));
    /// is_third && days.ceiling(&1) == days.first() && days.ceiling(&6).is_none()
    /// ```
    pub fn ceiling<Q: Query<K>>(&self, key: Q) -> Option<(&K, &V)>
        ensures { Nearest K.cmp Q.order Less self.now.entries (Q.sought key) (option_map deref_pair result) }
    {
        match self.search(key, &mut Count::new()) {
            Ok(index) => self.store.lm_get(index),
            Err(index) => self.store.lm_get(index),
        }
    }

    pub(super) fn value_in(&self, index: usize) -> Option<&V>
        ensures { option_copied result ≡ value_in self.now.entries index }
    {
        Some(self.store.lm_get(index)?.1)
    }

    // The one search of all calls by key: `Ok` with the index of the equal key, or `Err` with the index where it would be
    // inserted.
    pub(crate) fn search<Q: Query<K>>(&self, key: Q, count: &mut Count) -> Result<usize, usize>
        ensures splits { Splits Q.order self.now.entries (Q.sought key) result }
        ensures rising { Rising K.cmp self.now.entries }
        ensures cost { RisesByAtMost (digits (length self.now.entries)) count.old count.new }
    {
        self.store
            .lm_binary_search_by(|k| key.compare_key(k), count)
    }
}
