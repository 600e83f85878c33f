//! Calls on a map over a borrowed slice, whose results live as long as the slice, and its lookups of strings, bytes and integers.
//!
//! In the Rust crate they are evaluated in constants, hence the `const` in their names. Here they are plain calls. None takes
//! memory, and a lookup makes O(log n) comparisons.
ghost use Rattle.std.specs.Prelude.{◌≡◌, ◌<◌, ◌==◌, length, slice_get, Some};
ghost use Rattle.litemap_store.specs.Counts.{RisesByAtMost, digits};
ghost use Rattle.litemap.specs.ByBytes.{by_bytes};
ghost use Rattle.litemap.specs.FoundBy.{GetsWithIndex};

use crate::LiteMap;
use litemap_store::Query;
use litemap_store::store::{Count, SliceStore};

impl<'a, K: Ord, V> LiteMap<K, V, SliceStore<'a, K, V>> {
    /// Returns the number of pairs.
    ///
    /// ```rust
    /// const DAYS: &[(u32, &str)] = &[(1, "Monday"), (3, "Wednesday"), (5, "Friday")];
    /// // ...
    /// let days = LiteMap::from_sorted_store_unchecked(SliceStore::new(DAYS));
    /// days.const_len() == 3 && !days.const_is_empty() && days.const_get_indexed_or_panic(2).0 == 5
    /// ```
    pub fn const_len(&self) -> usize
        ensures { result ≡ length self.now.entries }
    {
        self.len()
    }

    /// Returns whether the map is empty.
    pub fn const_is_empty(&self) -> bool
        ensures { result ≡ (length self.now.entries == 0) }
    {
        self.is_empty()
    }

    /// Returns the pair at an index, which has to be below the length. The Rust crate panics if it isn't, as the name says.
    pub fn const_get_indexed_or_panic(&self, index: usize) -> &'a (K, V)
        requires { index < length self.now.entries }
        ensures { slice_get self.now.entries index ≡ Some result.now }
    {
        let pairs = self.store.pairs;
        &pairs[index]
    }

    // Returns the index and the value of the equal key, or `None` if there is none.
    fn const_find<Q: Query<K>>(&self, key: Q, count: &mut Count) -> Option<(usize, &'a V)>
        ensures found { GetsWithIndex Q.order self.now.entries (Q.sought key) result }
        ensures cost { RisesByAtMost (digits (length self.now.entries)) count.old count.new }
    {
        match self.search(key, count) {
            Ok(index) => Some((index, &self.const_get_indexed_or_panic(index).1)),
            Err(_) => None,
        }
    }
}

impl<'a, 'k, V> LiteMap<&'k str, V, SliceStore<'a, &'k str, V>> {
    /// Returns the index and the value of an equal key, or `None` if there is none. Strings compare by their bytes.
    ///
    /// The key that is looked up may live shorter than those of the map.
    ///
    /// ```rust
    /// const CAPITALS: &[(&str, u32)] = &[("Lima", 51), ("Oslo", 47), ("Rome", 39)];
    /// // ...
    /// let capitals = LiteMap::from_sorted_store_unchecked(SliceStore::new(CAPITALS));
    /// capitals.const_get_with_index("Oslo") == Some((1, &47))
    /// ```
    pub fn const_get_with_index(&self, key: &str) -> Option<(usize, &'a V)>
        ensures { GetsWithIndex by_bytes self.now.entries key.entry result }
    {
        self.const_find::<&str>(key, &mut Count::new())
    }
}

impl<'a, 'k, V> LiteMap<&'k [u8], V, SliceStore<'a, &'k [u8], V>> {
    /// Returns the index and the value of an equal key, or `None` if there is none. Slices compare byte by byte, and a proper
    /// prefix is less.
    ///
    /// The key that is looked up may live shorter than those of the map.
    pub fn const_get_with_index(&self, key: &[u8]) -> Option<(usize, &'a V)>
        ensures { GetsWithIndex by_bytes self.now.entries key.entry result }
    {
        self.const_find::<&[u8]>(key, &mut Count::new())
    }
}

/// An integer, which is looked up by value.
pub trait Integer: Ord + Copy {}

impl Integer for u8 {}

impl Integer for u16 {}

impl Integer for u32 {}

impl Integer for u64 {}

impl Integer for u128 {}

impl Integer for usize {}

impl Integer for i8 {}

impl Integer for i16 {}

impl Integer for i32 {}

impl Integer for i64 {}

impl Integer for i128 {}

impl Integer for isize {}

impl<'a, K: Integer, V> LiteMap<K, V, SliceStore<'a, K, V>> {
    /// Returns the index and the value of an equal key, or `None` if there is none.
    pub fn const_get_with_index(&self, key: K) -> Option<(usize, &'a V)>
        ensures { GetsWithIndex K.cmp self.now.entries key result }
    {
        self.const_find(&key, &mut Count::new())
    }
}
