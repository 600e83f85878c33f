//! The map: its type, and how one is made.
ghost use Rattle.std.specs.Prelude.{◌≡◌, ◌↔◌, ◌+◌, ◌≤◌, [], IfErr, IfOk, IsOk, IsTrue, OnErr, length, min};
ghost use Rattle.litemap_store.specs.Pairs.{Rising};
ghost use Rattle.litemap_store.specs.Clones.{ClonesAreSame, ClonesCompareEqual, PairsBecame};

mod bulk;
mod change;
mod comparisons;
mod conversions;
mod entry;
mod iter;
mod look;
mod merge;
mod positions;
mod ranges;
mod take;
mod traits;
mod write;

pub use entry::{Entry, OccupiedEntry, VacantEntry};
pub use iter::{KeysIterWrap, RangeIter, ValuesIterWrap};
use litemap_store::store::{Store, StoreConstEmpty, StoreMut};
use std::alloc::{AllocError, Allocator};
use std::default::MadeWith;
use std::fmt::{self, Debug, Formatter, Write};
use std::marker::{Model, PhantomData};

/// A map with strictly ascending keys, over a store.
///
/// A contract sees the list of its pairs and, if the store can grow, its room: how many further pairs it takes without failing.
///
/// ```rust
/// pub fn three_days(alloc: Global) -> Result<Days, AllocError> {
///     let mut days = LiteMap::new_vec(alloc);
///     days.insert(5, "Friday")?;
///     days.insert(1, "Monday")?;
///     days.insert(3, "Wednesday")?;
///     Ok(days)
/// }
/// ```
#[derive(Drop)]
pub struct LiteMap<K: Ord, V, S: Store<K, V>> {
    pub(crate) store: S,
    marker: PhantomData<(K, V)>,
}

impl<K: Ord, V, S: Store<K, V>> Model for LiteMap<K, V, S> {
    ghost use Rattle.litemap_store.specs.Pairs.{Rising};
    ghost use Rattle.litemap_store.specs.Contents.{Contents};

    ghost Value = { Contents K V };

    ghost view = { λ m. record { entries = S.pairs m.store; room = S.room m.store } };

    ghost invariant = { λ m. Rising K.cmp (S.pairs m.store) };
}

impl<K: Ord, V, A: Allocator + Copy> LiteMap<K, V, Vec<(K, V), A>> {
    /// Returns an empty map over a vector. It takes no memory.
    pub fn new_vec(alloc: A) -> Self
        ensures pairs { result.entries ≡ [] }
        ensures room { result.room ≡ 0 }
    {
        LiteMap::from_sorted_store_unchecked(Vec::new(alloc))
    }

    /// Returns the pairs as a vector. Their keys are strictly ascending.
    pub fn into_tuple_vec(self) -> Vec<(K, V), A>
        ensures pairs { result.items ≡ self.entries }
        ensures rising { Rising K.cmp result.items }
    {
        self.store
    }

    /// Returns the number of pairs that the map has memory for (own).
    pub fn capacity(&self) -> usize
        ensures { result ≡ length self.now.entries + self.now.room }
    {
        self.store.capacity()
    }

    /// Gives spare memory back if it can, and all memory of an empty map (own). It may move all pairs, and never fails.
    ///
    /// ```rust
    /// let mut days: Days = LiteMap::with_capacity(alloc, 100)?;
    /// days.shrink_to(10);
    /// let is_kept = days.capacity() >= 10;
    /// days.shrink_to_fit();
    /// Ok(is_kept && days.capacity() == 0 && days.as_store().is_empty())
    /// ```
    pub fn shrink_to_fit(&mut self)
        ensures pairs { self.new.entries ≡ self.old.entries }
        ensures room { self.new.room ≤ self.old.room }
        ensures frees { self.old.entries ≡ [] → self.new.room ≡ 0 }
    {
        self.store.shrink_to_fit();
    }

    /// `shrink_to_fit`, but keeps memory for `capacity` pairs if there was so much (own).
    pub fn shrink_to(&mut self, capacity: usize)
        ensures pairs { self.new.entries ≡ self.old.entries }
        ensures room { self.new.room ≤ self.old.room }
        ensures kept { min capacity (length self.old.entries + self.old.room) ≤ length self.new.entries + self.new.room }
    {
        self.store.shrink_to(capacity);
    }
}

impl<K: Ord, V, S: Store<K, V>> LiteMap<K, V, S> {
    /// Returns the map over a store whose keys are strictly ascending. It takes no memory, and tests nothing: `is_sorted_store`
    /// does. The Rust crate trusts its caller here, as the name says; here the caller's proof shows that they ascend.
    ///
    /// ```rust
    /// let pairs = [(1, "Monday"), (3, "Wednesday")].to_vec(alloc)?;
    /// if !Days::is_sorted_store(&pairs) {
    ///     return Ok(false);
    /// }
    /// let days: Days = LiteMap::from_sorted_store_unchecked(pairs);
    /// Ok(days.try_clone(alloc)?.into_tuple_vec() == days.into_tuple_vec())
    /// ```
    pub fn from_sorted_store_unchecked(store: S) -> Self
        requires { Rising K.cmp (S.pairs store) }
        ensures pairs { result.entries ≡ S.pairs store }
        ensures room { result.room ≡ S.room store }
    {
        LiteMap {
            store,
            marker: PhantomData,
        }
    }

    /// Returns the map over a store if its keys are strictly ascending, else the store (own). It takes no memory, and compares as
    /// `is_sorted_store` does.
    ///
    /// ```rust
    /// let falling = Days::try_from_sorted([(3, "Wednesday"), (1, "Monday")].to_vec(alloc)?);
    /// falling.is_err() && Days::try_from_sorted(Vec::new(alloc)).is_ok()
    /// ```
    pub fn try_from_sorted(store: S) -> Result<Self, S>
        ensures pairs { IfOk result (λ m. m.entries ≡ S.pairs store) }
        ensures room { IfOk result (λ m. m.room ≡ S.room store) }
        ensures back { IfErr result (λ s. s ≡ store) }
        ensures falls { OnErr result (¬ (Rising K.cmp (S.pairs store))) }
    {
        if Self::is_sorted_store(&store) {
            Ok(LiteMap::from_sorted_store_unchecked(store))
        } else {
            Err(store)
        }
    }

    /// Returns whether the keys of a store are strictly ascending (own). It compares each key with the one before it, up to the
    /// first one that isn't greater.
    pub fn is_sorted_store(store: &S) -> bool
        ensures { IsTrue result ↔ Rising K.cmp (S.pairs store.now) }
    {
        for index in 1..store.lm_len() {
            let (before, _) = store.lm_get(index - 1).unwrap();
            let (key, _) = store.lm_get(index).unwrap();
            if !before.cmp(key).is_lt() {
                return false;
            }
        }
        true
    }

    /// Returns a reference to the store (own).
    pub fn as_store(&self) -> &S
        ensures pairs { S.pairs result.now ≡ self.now.entries }
        ensures room { S.room result.now ≡ self.now.room }
    {
        &self.store
    }

    /// Returns the store, whose keys are strictly ascending (own). `from_sorted_store_unchecked` makes a map of it again.
    ///
    /// ```rust
    /// let days: ColumnMap<u32, &str> = [(3, "Wednesday"), (1, "Monday")].into_iter().collect(alloc)?;
    /// let (numbers, names) = days.into_store().into_columns();
    /// let are_numbers = numbers.as_slice() == [1, 3].as_slice();
    /// Ok(are_numbers && names.as_slice() == ["Monday", "Wednesday"].as_slice())
    /// ```
    pub fn into_store(self) -> S
        ensures pairs { S.pairs result ≡ self.entries }
        ensures room { S.room result ≡ self.room }
        ensures rising { Rising K.cmp (S.pairs result) }
    {
        self.store
    }
}

impl<K: Ord, V, S: StoreConstEmpty<K, V>> LiteMap<K, V, S> {
    /// Returns an empty map. It takes no memory. Its room is 0 over a vector or two columns, 1 over a short store (`empty_room`).
    pub fn new(alloc: S::Alloc) -> Self
        ensures pairs { result.entries ≡ [] }
        ensures room { S.empty_room result.room }
    {
        LiteMap::from_sorted_store_unchecked(S::lm_empty(alloc))
    }
}

impl<K: Ord, V, S: StoreConstEmpty<K, V>> MadeWith<S::Alloc> for LiteMap<K, V, S> {
    ghost is_made_with = { λ m. m.entries ≡ [] };

    fn made_with(alloc: S::Alloc) -> Self {
        LiteMap::new(alloc)
    }
}

impl<K: Ord, V, S: StoreMut<K, V>> LiteMap<K, V, S> {
    /// Returns an empty map with capacity for at least `capacity` pairs, or an error if memory runs out or the store can't hold
    /// so many. It never fails for a capacity of up to the store's `free_room`: 0 over a vector, 1 over a short store.
    pub fn with_capacity(alloc: S::Alloc, capacity: usize) -> Result<Self, AllocError>
        ensures empty { IfOk result (λ m. m.entries ≡ []) }
        ensures room { IfOk result (λ m. capacity ≤ m.room) }
        ensures succeeds { capacity ≤ S.free_room → IsOk result }
    {
        let store = S::lm_with_capacity(alloc, capacity)?;
        Ok(LiteMap::from_sorted_store_unchecked(store))
    }

    /// Returns a map of clones of the keys and values, or an error if memory runs out (own). It never fails for an empty map.
    ///
    /// A clone of each key has to compare `Equal` to it; for `String` keys the caller's attribute
    /// `using(litemap::proofs::Texts::text_clones)` shows that. No keys are compared.
    pub fn try_clone(&self, alloc: S::Alloc) -> Result<Self, AllocError>
    where
        K: Clone,
        V: Clone,
        S: Drop,
        requires { ClonesCompareEqual K.cmp K.is_clone self.now.entries }
        ensures clones { IfOk result (λ m. PairsBecame K.is_clone V.is_clone self.now.entries m.entries) }
        ensures same { IfOk result
            (λ m. ClonesAreSame K.is_clone → ClonesAreSame V.is_clone → m.entries ≡ self.now.entries) }
        ensures succeeds { self.now.entries ≡ [] → IsOk result }
    {
        let store = self.store.lm_try_clone(alloc)?;
        Ok(LiteMap::from_sorted_store_unchecked(store))
    }
}

/// Formats it as a map. What is printed is not promised.
impl<K: Ord + Debug, V: Debug, S: Store<K, V>> Debug for LiteMap<K, V, S> {
    fn fmt<W: Write>(&self, f: &mut Formatter<W>) -> fmt::Result {
        RangeIter::all(&self.store).fmt(f)
    }
}
