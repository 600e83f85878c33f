//! Maps made of the pairs of another one, in the same order. No keys are compared. Those that only borrow pairs take no memory.
//!
//! Else room for all pairs is taken first. An empty map takes none, and its conversion never fails. A clone of a key has to
//! compare `Equal` to it.
ghost use Rattle.std.specs.Prelude.{◌≡◌, ⊤, IfOk};
ghost use Rattle.std.specs.Fn.{FnReturnsAt};
ghost use Rattle.std.specs.Option.{option_map};
ghost use Rattle.litemap_store.specs.Last.{In};
ghost use Rattle.litemap_store.specs.Clones.{ClonesCompareEqual};
ghost use Rattle.litemap_store.specs.Pairs.{Rising, sub};
ghost use Rattle.litemap.specs.Conversions.{Converts, KeysKeepOrder, TakesKeys};

use crate::{LiteMap, SliceMap};
use litemap_store::store::{SliceStore, Store, StoreMut, StoreSlice};
use std::alloc::{AllocError, Allocator};
use std::ops::Range;

/// ```rust
/// // hours: 1 8, 3 10
/// let boxed: VecMap<Box<u32>, Box<u8>> = hours.to_boxed_keys_values(alloc)?;
/// let keys: VecMap<Box<u32>, u8> = hours.to_boxed_keys(alloc)?;
/// let values: VecMap<u32, Box<u8>> = hours.to_boxed_values(alloc)?;
/// let are_keys_boxed = keys.last().is_some_and(|(_, hour)| *hour == 10);
/// let are_values_boxed = values.get(&1).is_some_and(|hour| **hour == 8);
/// Ok(boxed.len() == 2 && are_keys_boxed && are_values_boxed)
/// ```
impl<K: Ord + Clone, V: Clone, S: Store<K, V>> LiteMap<K, V, S> {
    /// Returns a map with boxes of clones of the keys and values, or an error if memory runs out.
    pub fn to_boxed_keys_values<
        A: Allocator + Copy,
        B: StoreMut<Box<K, A>, Box<V, A>, Alloc = A> + Drop,
    >(&self, alloc: A) -> Result<LiteMap<Box<K, A>, Box<V, A>, B>, AllocError>
        requires { ClonesCompareEqual K.cmp K.is_clone self.now.entries }
        ensures { Converts (λ k b. K.is_clone k b.value) (λ v b. V.is_clone v b.value) self.now.entries result }
    {
        converted(self, alloc, &Boxed, &Boxed)
    }

    /// Returns a map with boxes of clones of the keys, and clones of the values, or an error if memory runs out.
    pub fn to_boxed_keys<A: Allocator + Copy, B: StoreMut<Box<K, A>, V, Alloc = A> + Drop>(
        &self,
        alloc: A,
    ) -> Result<LiteMap<Box<K, A>, V, B>, AllocError>
        requires { ClonesCompareEqual K.cmp K.is_clone self.now.entries }
        ensures { Converts (λ k b. K.is_clone k b.value) V.is_clone self.now.entries result }
    {
        converted(self, alloc, &Boxed, &Cloned)
    }

    /// Returns a map with clones of the keys, and boxes of clones of the values, or an error if memory runs out.
    pub fn to_boxed_values<A: Allocator + Copy, B: StoreMut<K, Box<V, A>, Alloc = A> + Drop>(
        &self,
        alloc: A,
    ) -> Result<LiteMap<K, Box<V, A>, B>, AllocError>
        requires { ClonesCompareEqual K.cmp K.is_clone self.now.entries }
        ensures { Converts K.is_clone (λ v b. V.is_clone v b.value) self.now.entries result }
    {
        converted(self, alloc, &Cloned, &Boxed)
    }
}

impl<K: Ord, V: Clone, S: Store<K, V>> LiteMap<K, V, S> {
    /// Returns a map with the keys that `f` returns, and clones of the values, or an error if memory runs out (own). The new
    /// keys have to ascend as the old ones do. `f` is called once for each key.
    ///
    /// ```rust
    /// // hours: 1 8, 3 10
    /// let later: VecMap<u64, u8> = hours.to_keys_by(alloc, |number| *number as u64 + 7)?;
    /// Ok(later.get(&8) == Some(&8))
    /// ```
    pub fn to_keys_by<L: Ord + Drop, B: StoreMut<L, V> + Drop, F: Fn(&K) -> L + Drop>(
        &self,
        alloc: B::Alloc,
        f: F,
    ) -> Result<LiteMap<L, V, B>, AllocError>
        requires callable { TakesKeys F.Fn f self.now.entries }
        requires rising { KeysKeepOrder K.cmp L.cmp (FnReturnsAt F.Fn f) self.now.entries }
        ensures { Converts (FnReturnsAt F.Fn f) V.is_clone self.now.entries result }
    {
        converted(self, alloc, &Answered { f }, &Cloned)
    }
}

impl<'a, K: Ord + 'a, V: 'a, S: Store<K, V>> LiteMap<K, V, S> {
    /// Returns a map with references to the keys and values, or an error if memory runs out.
    ///
    /// ```rust
    /// // hours: 1 8, 3 10
    /// let lent: VecMap<&u32, &u8> = hours.to_borrowed_keys_values(alloc)?;
    /// let keys: VecMap<&u32, u8> = hours.to_borrowed_keys(alloc)?;
    /// let values: VecMap<u32, &u8> = hours.to_borrowed_values(alloc)?;
    /// Ok(lent.get(&&3) == Some(&&10) && keys.get(&&1) == Some(&8) && values.get(&1) == Some(&&8))
    /// ```
    pub fn to_borrowed_keys_values<B: StoreMut<&'a K, &'a V> + Drop>(
        &'a self,
        alloc: B::Alloc,
    ) -> Result<LiteMap<&'a K, &'a V, B>, AllocError>
        ensures { Converts (λ k r. r.now ≡ k) (λ v r. r.now ≡ v) self.now.entries result }
    {
        converted(self, alloc, &Lent, &Lent)
    }

    /// Returns a map with references to the keys, and clones of the values, or an error if memory runs out.
    pub fn to_borrowed_keys<B: StoreMut<&'a K, V> + Drop>(
        &'a self,
        alloc: B::Alloc,
    ) -> Result<LiteMap<&'a K, V, B>, AllocError>
    where
        V: Clone,
        ensures { Converts (λ k r. r.now ≡ k) V.is_clone self.now.entries result }
    {
        converted(self, alloc, &Lent, &Cloned)
    }

    /// Returns a map with clones of the keys, and references to the values, or an error if memory runs out.
    pub fn to_borrowed_values<B: StoreMut<K, &'a V> + Drop>(
        &'a self,
        alloc: B::Alloc,
    ) -> Result<LiteMap<K, &'a V, B>, AllocError>
    where
        K: Clone,
        requires { ClonesCompareEqual K.cmp K.is_clone self.now.entries }
        ensures { Converts K.is_clone (λ v r. r.now ≡ v) self.now.entries result }
    {
        converted(self, alloc, &Cloned, &Lent)
    }
}

impl<K: Ord, V, S: StoreSlice<K, V>> LiteMap<K, V, S> {
    /// Returns the pairs at a range of indices as a map that borrows them, or `None` if the start is past the end or the end
    /// past the length. Its indices count from the start of the range. It takes constant time.
    ///
    /// ```rust
    /// // days: 1 Monday, 3 Wednesday, 5 Friday
    /// let part = days.get_indexed_range(1..3).unwrap();
    /// part.find_index(&3) == Ok(0) && part.get(&1).is_none()
    /// ```
    pub fn get_indexed_range(&self, range: Range<usize>) -> Option<SliceMap<'_, K, V>>
        ensures { option_map (λ part. part.entries) result ≡ sub self.now.entries range.start range.end }
    {
        let pairs = self.store.lm_get_range(range)?;
        Some(LiteMap::from_sorted_store_unchecked(SliceStore::new(pairs)))
    }

    /// Returns all pairs as a map that borrows them. It takes constant time.
    pub fn as_sliced(&self) -> SliceMap<'_, K, V>
        ensures { result.entries ≡ self.now.entries }
    {
        LiteMap::from_sorted_store_unchecked(SliceStore::new(self.as_slice()))
    }

    /// Returns all pairs as a slice. Their keys are strictly ascending. It takes constant time.
    pub fn as_slice(&self) -> &[(K, V)]
        ensures pairs { result.now ≡ self.now.entries }
        ensures rising { Rising K.cmp result.now }
    {
        self.store.lm_get_range(0..self.store.lm_len()).unwrap()
    }
}

// The one body of all conversions.
fn converted<'a, K, V, S, L, W, B, X, Y>(
    map: &'a LiteMap<K, V, S>,
    alloc: B::Alloc,
    keys: &X,
    values: &Y,
) -> Result<LiteMap<L, W, B>, AllocError>
where
    K: Ord + 'a,
    V: 'a,
    S: Store<K, V>,
    L: Ord + Drop,
    B: StoreMut<L, W> + Drop,
    X: Becomes<'a, K, L, B::Alloc>,
    Y: Becomes<'a, V, W, B::Alloc>,
    requires keys { (p : _) → In p map.now.entries → X.takes keys.now p.0 }
    requires values { (p : _) → In p map.now.entries → Y.takes values.now p.1 }
    requires rising { KeysKeepOrder K.cmp L.cmp (X.became keys.now) map.now.entries }
    ensures { Converts (X.became keys.now) (Y.became values.now) map.now.entries result }
{
    let mut made = B::lm_with_capacity(alloc, map.len())?;
    for index in 0..map.len() {
        let (key, value) = map.get_indexed(index).unwrap();
        let key = keys.made_of(alloc, key)?;
        let value = values.made_of(alloc, value)?;
        match made.lm_push(key, value) {
            Ok(()) => {}
            Err(_) => unreachable!(),
        }
    }
    Ok(LiteMap::from_sorted_store_unchecked(made))
}

// A conversion of a value.
trait Becomes<'a, X, Y, A> {
    /// Whether it accepts a value.
    ghost takes: { Self → X → Type 0 } = { λ _ _. ⊤ };

    /// What it may make of a value.
    ghost became: { Self → X → Y → Type 0 };

    fn made_of(&self, alloc: A, value: &'a X) -> Result<Y, AllocError>
        requires { takes self.now value.now }
        ensures { IfOk result (became self.now value.now) };
}

// A clone.
struct Cloned;

// A box of a clone.
struct Boxed;

// A reference.
struct Lent;

// What a closure returns.
#[derive(Drop)]
struct Answered<F> {
    f: F,
}

impl<'a, X: Clone, A: Drop> Becomes<'a, X, X, A> for Cloned {
    ghost became = { λ _. X.is_clone };

    fn made_of(&self, alloc: A, value: &'a X) -> Result<X, AllocError> {
        value.clone()
    }
}

impl<'a, X: Clone, A: Allocator> Becomes<'a, X, Box<X, A>, A> for Boxed {
    ghost became = { λ _ x b. X.is_clone x b.value };

    fn made_of(&self, alloc: A, value: &'a X) -> Result<Box<X, A>, AllocError> {
        Ok(Box::new(alloc, value.clone()?)?)
    }
}

impl<'a, X: 'a, A: Drop> Becomes<'a, X, &'a X, A> for Lent {
    ghost became = { λ _ x r. r.now ≡ x };

    fn made_of(&self, alloc: A, value: &'a X) -> Result<&'a X, AllocError> {
        Ok(value)
    }
}

impl<'a, X, Y, A: Drop, F: Fn(&X) -> Y> Becomes<'a, X, Y, A> for Answered<F> {
    ghost takes = { λ s x. (k : _) → k.now ≡ x → F.Fn.pre s.f (k, tt) };

    ghost became = { λ s. FnReturnsAt F.Fn s.f };

    fn made_of(&self, alloc: A, value: &'a X) -> Result<Y, AllocError> {
        Ok((self.f)(value))
    }
}
