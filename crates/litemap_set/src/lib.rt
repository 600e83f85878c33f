//! A set kept as one sorted vector of keys: a map of the crate `litemap` whose values are `()`. All of this crate is own: the
//! Rust crate has no such type. A search makes O(log n) comparisons. The calls on two sets, `append` aside, walk both side by
//! side, with at most one comparison for each key of both, and take no memory.
#![tactic(auto)]

ghost use Rattle.std.specs.Prelude.{◌≡◌, ◌↔◌, ◌==◌, ◌-◌, [], Bool, IfOk, IfSome, IsTrue, OnErr, OnOk, filter, length, slice_get};
ghost use Rattle.std.specs.Iterator.{IsFiniteIterable, at_most};
ghost use Rattle.std.specs.List.Sorted.{IsStrictlySortedBy};
ghost use Rattle.std.specs.Map.{keys_of};
ghost use Rattle.std.specs.Map.Iter.{TakesFirst, deref};
ghost use Rattle.std.specs.Option.{option_copied};
ghost use Rattle.std.specs.declared.cmp.Ordering.TheVariants.{Equal};
ghost use Rattle.litemap_store.specs.Bulk.{Gives, GivesSome};
ghost use Rattle.litemap_set.specs.Sets.{HasLast, IsDifference, IsDisjoint, IsExtendedBy, IsIntersection, IsSubset};
ghost use Rattle.litemap_set.specs.Sets.{IsSymmetricDifference, IsUnion};
ghost use Rattle.litemap_set.specs.Sets.{InsertsKey, RemovesKey, TakesKeys, TestsKeys, contains, key_at};
ghost use Rattle.litemap_set.specs.Walks.{walk};

use litemap::{IntoKeys, KeysIterWrap, LiteMap, Query, VecMap};
use litemap_store::store::{NoRoom, SliceIter};
use std::alloc::{AllocError, Allocator, Global};
use std::cmp::Ordering;
use std::fmt::{self, Debug, Formatter, Write};
use std::iter::FusedIterator;
use std::marker::Model;
use std::vec;

/// A set with strictly ascending keys, over a vector.
///
/// A contract sees the list of its keys, and its room: how many further keys it takes without failing. Sets compare and hash by
/// their keys, and a clone fails as that of a map does.
///
/// ```rust
/// let mut days: VecSet<u32> = [5, 1, 3, 1].into_iter().collect(alloc)?;
/// let weekend = VecSet::from_iter(alloc, [5, 6])?;
/// let is_added = days.insert(2)? && !days.insert(3)? && days.contains(&2);
/// let is_changed = is_added && days.remove(&1) && days.clone()? == days;
/// let is_united = days.union(&weekend).eq([2, 3, 5, 6].iter());
/// Ok(is_changed && is_united && days.difference(&weekend).eq([2, 3].iter()))
/// ```
#[derive(Drop)]
#[derive_where(PartialEq, Eq, PartialOrd, Ord, Hash; K)]
#[derive_where(Clone; K, A: Copy)]
pub struct VecSet<K: Ord, A: Allocator = Global> {
    pub(crate) map: VecMap<K, (), A>,
}

impl<K: Ord, A: Allocator> Model for VecSet<K, A> {
    ghost use Rattle.litemap_set.specs.Sets.{Keys, keys_of, units, units_keys};

    ghost Value = { Keys K };

    ghost view = { λ s. record { keys = keys_of s.map.entries; room = s.map.room } };

    ghost inverse = { λ s. record { map = record { entries = units s.keys; room = s.room } } };

    ghost inverse_ok = { λ s h i. record { map = record { entries = units_keys s.map.entries i; room = s.map.room } } };
}

impl<K: Ord, A: Allocator + Copy> VecSet<K, A> {
    /// Returns an empty set. It takes no memory.
    pub fn new(alloc: A) -> Self
        ensures keys { result.keys ≡ [] }
        ensures room { result.room ≡ 0 }
    {
        VecSet {
            map: LiteMap::new_vec(alloc),
        }
    }

    /// Returns the number of keys. It takes constant time.
    pub fn len(&self) -> usize
        ensures len { result ≡ length self.now.keys }
        ensures ascending { IsStrictlySortedBy K.cmp self.now.keys }
    {
        self.map.len()
    }

    /// Returns whether the set is empty. It takes constant time.
    pub fn is_empty(&self) -> bool
        ensures { result ≡ (length self.now.keys == 0) }
    {
        self.map.is_empty()
    }

    /// Returns whether the set has a key equal to a `Query`: a reference to a key, or a `&str` if keys are strings. It makes
    /// O(log n) comparisons.
    pub fn contains<Q: Query<K>>(&self, key: Q) -> bool
        ensures { result ≡ contains Q.order self.now.keys (Q.sought key) }
    {
        self.map.contains_key(key)
    }

    /// Returns the set's own key that is equal to `key`, or `None` if there is none. It makes O(log n) comparisons.
    pub fn get<Q: Query<K>>(&self, key: Q) -> Option<&K>
        ensures key { option_copied result ≡ key_at Q.order self.now.keys (Q.sought key) }
        ensures same_key { IfSome result (λ k. Q.order k.now (Q.sought key) ≡ Equal) }
    {
        let Some((found, ())) = self.map.get_key_value(key) else {
            return None;
        };
        Some(found)
    }

    /// Returns the smallest key, or `None` if the set is empty. It takes constant time.
    pub fn first(&self) -> Option<&K>
        ensures { option_copied result ≡ slice_get self.now.keys 0 }
    {
        Some(self.map.first()?.0)
    }

    /// Returns the greatest key, or `None` if the set is empty. It takes constant time.
    pub fn last(&self) -> Option<&K>
        ensures { option_copied result ≡ slice_get self.now.keys (length self.now.keys - 1) }
    {
        Some(self.map.last()?.0)
    }

    /// Returns an iterator over all keys, in their order. Each step takes constant time.
    pub fn iter(&self) -> KeysIterWrap<'_, K, (), SliceIter<'_, K, ()>>
        ensures { keys_of result ≡ self.now.keys }
    {
        self.map.keys()
    }

    /// Returns an iterator over the keys that this set or another has, in order. Of two equal keys it returns this set's. It
    /// makes O(n + m) comparisons.
    pub fn union<'a>(&'a self, other: &'a Self) -> Combination<'a, K>
        ensures { IsUnion K.cmp self.now.keys other.now.keys result }
    {
        self.combined(other, (true, true, true))
    }

    /// Returns an iterator over the keys of this set that another has, too, in order. It makes O(n + m) comparisons.
    pub fn intersection<'a>(&'a self, other: &'a Self) -> Combination<'a, K>
        ensures { IsIntersection K.cmp self.now.keys other.now.keys result }
    {
        self.combined(other, (false, true, false))
    }

    /// Returns an iterator over the keys of this set that another lacks, in order. It makes O(n + m) comparisons.
    pub fn difference<'a>(&'a self, other: &'a Self) -> Combination<'a, K>
        ensures { IsDifference K.cmp self.now.keys other.now.keys result }
    {
        self.combined(other, (true, false, false))
    }

    /// Returns an iterator over the keys that exactly one of the two sets has, in order. It makes O(n + m) comparisons.
    pub fn symmetric_difference<'a>(&'a self, other: &'a Self) -> Combination<'a, K>
        ensures { IsSymmetricDifference K.cmp self.now.keys other.now.keys result }
    {
        self.combined(other, (true, false, true))
    }

    /// Returns whether another set has all keys of this one. It walks up to the first key that the other lacks. It makes
    /// O(n + m) comparisons.
    pub fn is_subset(&self, other: &Self) -> bool
        ensures { IsTrue result ↔ IsSubset K.cmp self.now.keys other.now.keys }
    {
        self.difference(other).next().is_none()
    }

    /// Returns whether this set has all keys of another. It makes O(n + m) comparisons.
    pub fn is_superset(&self, other: &Self) -> bool
        ensures { IsTrue result ↔ IsSubset K.cmp other.now.keys self.now.keys }
    {
        other.is_subset(self)
    }

    /// Returns whether no key is in both sets. It walks up to the first common key. It makes O(n + m) comparisons.
    pub fn is_disjoint(&self, other: &Self) -> bool
        ensures { IsTrue result ↔ IsDisjoint K.cmp self.now.keys other.now.keys }
    {
        self.intersection(other).next().is_none()
    }

    fn combined<'a>(&'a self, other: &'a Self, yields: (bool, bool, bool)) -> Combination<'a, K>
        ensures walked { result ≡ walk K.cmp yields self.now.keys other.now.keys }
        ensures ascending { IsStrictlySortedBy K.cmp self.now.keys }
        ensures other_ascending { IsStrictlySortedBy K.cmp other.now.keys }
    {
        Combination {
            one: self.map.as_slice(),
            other: other.map.as_slice(),
            yields,
        }
    }
}

impl<K: Ord + Drop, A: Allocator + Copy> VecSet<K, A> {
    /// Inserts a key, and returns whether it is new. If an equal key is present, that one stays, and the new one is dropped. It
    /// fails only for a new key, at room 0, if memory runs out: the error returns the key, and the set keeps its keys. It makes
    /// O(log n) comparisons, and moves the greater keys up by one.
    pub fn insert(&mut self, key: K) -> Result<bool, NoRoom<K>>
        ensures { InsertsKey K.cmp key self.old self.new result }
    {
        self.map.keys_ascend();
        let old = match self.map.insert(key, ()) {
            Ok(old) => old,
            Err(full) => return Err(NoRoom { back: full.back.0 }),
        };
        Ok(old.is_none())
    }

    /// Removes an equal key, and returns whether there was one. It makes O(log n) comparisons, and moves the greater keys down
    /// by one.
    pub fn remove<Q: Query<K>>(&mut self, key: Q) -> bool
        ensures { RemovesKey Q.order (Q.sought key) self.old self.new result }
    {
        self.map.keys_ascend();
        self.map.remove(key).is_some()
    }

    /// Keeps the keys for which `f` returns true, and drops the others. `f` is called once for each key, in order. It compares
    /// no keys.
    pub fn retain<F: FnMut(&K) -> bool>(&mut self, mut f: F)
        requires { TakesKeys F.FnMut f self.old.keys }
        ensures { (test : K → Bool) → TestsKeys F.FnMut f test → self.new.keys ≡ filter test self.old.keys }
    {
        self.map.retain(
            move |key, _|
                requires { F.pre f key }
                ensures { F.step f.entry key.entry result f.exit }
            { f(key) },
        );
    }

    /// Moves the keys of another set into this one; of two equal keys this set's stays. It compares as a map's merge does. If
    /// memory runs out, both sets keep their keys.
    pub fn append(&mut self, alloc: A, other: &mut Self) -> Result<(), AllocError>
        ensures union { OnOk result (IsUnion K.cmp self.old.keys other.old.keys self.new.keys) }
        ensures emptied { OnOk result (other.new.keys ≡ []) }
        ensures unchanged { OnErr result ((self.new.keys ≡ self.old.keys) × (other.new.keys ≡ other.old.keys)) }
    {
        self.map.append(alloc, &mut other.map)
    }

    /// Adds the keys that an iterator yields, each in the place of an equal one. It compares as a map's `extend` does. If memory
    /// runs out, the set keeps its keys; it never fails for an iterator that yields nothing.
    pub fn extend<I: IntoIterator<Item = K>>(&mut self, alloc: A, iter: I) -> Result<(), AllocError>
        requires { IsFiniteIterable I.into_iter_gives I.IntoIter.can_next I.IntoIter.remaining iter }
        ensures extended { OnOk result
            (IsExtendedBy K.cmp I.into_iter_gives I.IntoIter.next_gives iter self.old.keys self.new.keys) }
        ensures unchanged { OnErr result (self.new.keys ≡ self.old.keys) }
        ensures refused_some { OnErr result (GivesSome I.into_iter_gives I.IntoIter.next_gives iter) }
    {
        let pairs = with_units(alloc, iter)?;
        self.map.extend_from_vec(alloc, pairs)?;
        Ok(())
    }
}

// The pairs of a map for the keys that an iterator yields.
fn with_units<K: Drop, A: Allocator + Copy, I: IntoIterator<Item = K>>(
    alloc: A,
    iter: I,
) -> Result<Vec<(K, ()), A>, AllocError>
    requires { IsFiniteIterable I.into_iter_gives I.IntoIter.can_next I.IntoIter.remaining iter }
    ensures given { IfOk result
        (λ pairs. Gives I.into_iter_gives I.IntoIter.next_gives iter (keys_of pairs.items)) }
    ensures refused_some { OnErr result (GivesSome I.into_iter_gives I.IntoIter.next_gives iter) }
{
    let mut pairs = Vec::new(alloc);
    for key in iter {
        pairs.push((key, ()))?;
    }
    Ok(pairs)
}

/// The set of the keys that an iterator yields, of equal ones the last. It compares and fails as `extend` does.
impl<K: Ord + Drop, A: Allocator + Copy> FromIterator<K> for VecSet<K, A> {
    type Alloc = A;

    ghost from_iter_gives = { λ keys s. HasLast K.cmp [] keys s.keys };

    fn from_iter<I: IntoIterator<Item = K>>(alloc: A, iter: I) -> Result<Self, AllocError> {
        let mut set = VecSet::new(alloc);
        set.extend(alloc, iter)?;
        Ok(set)
    }
}

/// Iterates over references to all keys, in their order.
impl<'a, K: Ord, A: Allocator + Copy> IntoIterator for &'a VecSet<K, A> {
    type Item = &'a K;

    type IntoIter = KeysIterWrap<'a, K, (), SliceIter<'a, K, ()>>;

    ghost into_iter_gives = { λ s r. keys_of r ≡ s.now.keys };

    fn into_iter(self) -> KeysIterWrap<'a, K, (), SliceIter<'a, K, ()>> {
        self.iter()
    }
}

/// Iterates over all keys by value, in their order.
impl<K: Ord + Drop, A: Allocator + Copy> IntoIterator for VecSet<K, A> {
    type Item = K;

    type IntoIter = IntoKeys<K, (), vec::IntoIter<(K, ()), A>>;

    ghost use Rattle.std.specs.Vec.Iter.{into_iter_items};

    ghost into_iter_gives = { λ s r. keys_of (into_iter_items r) ≡ s.keys };

    fn into_iter(self) -> IntoKeys<K, (), vec::IntoIter<(K, ()), A>> {
        self.map.into_keys()
    }
}

/// Formats it as a set. What is printed is not promised.
impl<K: Ord + Debug, A: Allocator + Copy> Debug for VecSet<K, A> {
    fn fmt<W: Write>(&self, f: &mut Formatter<W>) -> fmt::Result {
        let mut out = f.debug_set();
        for key in self {
            out.entry(key);
        }
        out.finish()
    }
}

/// An iterator over keys of two sets, in ascending order. A contract sees the list of those still to come.
#[derive(Drop)]
pub struct Combination<'a, K: Ord> {
    one: &'a [(K, ())],
    other: &'a [(K, ())],
    // Whether it yields the keys of one set alone, those of both, and those of the other set alone.
    yields: (bool, bool, bool),
}

impl<'a, K: Ord> Model for Combination<'a, K> {
    ghost use Rattle.std.specs.Prelude.{List};
    ghost use Rattle.std.specs.Map.{keys_of};
    ghost use Rattle.litemap_set.specs.Walks.{walk};

    ghost Value = { List K };

    ghost view = { λ c. walk K.cmp c.yields (keys_of c.one.now) (keys_of c.other.now) };
}

impl<'a, K: Ord> Iterator for Combination<'a, K> {
    type Item = &'a K;

    ghost next_gives = { TakesFirst deref };

    ghost remaining = { λ s. at_most (length s) };

    fn next(&mut self) -> Option<&'a K> {
        loop {
            let Some((x, one)) = self.one.split_first() else {
                if !self.yields.2 {
                    return None;
                }
                return Some(&self.other.split_off_first()?.0);
            };
            let Some((y, other)) = self.other.split_first() else {
                if !self.yields.0 {
                    return None;
                }
                self.one = one;
                return Some(&x.0);
            };
            match x.0.cmp(&y.0) {
                Ordering::Less => {
                    self.one = one;
                    if self.yields.0 {
                        return Some(&x.0);
                    }
                }
                Ordering::Equal => {
                    self.one = one;
                    self.other = other;
                    if self.yields.1 {
                        return Some(&x.0);
                    }
                }
                Ordering::Greater => {
                    self.other = other;
                    if self.yields.2 {
                        return Some(&y.0);
                    }
                }
            }
        }
    }
}

impl<'a, K: Ord> FusedIterator for Combination<'a, K> {}
