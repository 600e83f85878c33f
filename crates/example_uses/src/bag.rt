//! A multiset: how often each element is there. It is a map that has no count of 0.
ghost use Rattle.std.specs.Prelude.{◌≡◌, ◌+◌, ◌<◌, nat_le};
ghost use Rattle.litemap.specs.Words.{Err, IfSome, None, OnErr, OnOk, Some, [], at, cut, filter, is_some, put, unwrap_or};
ghost use Rattle.litemap.specs.Words.{value_at, write};

use litemap::LiteMap;
use litemap::store::{StoreBulkMut, StoreConstEmpty, StoreMut};
use std::alloc::{AllocError, Global};
use std::marker::Model;

/// A multiset over a store of any kind. A contract sees the list of its elements with their counts.
#[derive(Drop)]
pub struct Bag<K: Ord, S: StoreMut<K, usize>> {
    counts: LiteMap<K, usize, S>,
}

impl<K: Ord, S: StoreMut<K, usize>> Model for Bag<K, S> {
    ghost use Rattle.std.specs.Prelude.{◌<◌, All, List, ℕ};

    ghost Value = { List (K × ℕ) };

    ghost view = { λ bag. bag.counts.entries };

    ghost invariant = { λ bag. All (λ p. 0 < p.1) bag.counts.entries };
}

/// Why an element isn't added.
#[derive(Clone, Copy, Debug, PartialEq, Eq)]
pub enum BagError {
    /// It is there `usize::MAX` times.
    Full,
    /// Memory ran out.
    NoMemory,
}

impl<K: Ord, S: StoreMut<K, usize> + StoreConstEmpty<K, usize>> Bag<K, S> {
    /// Returns a multiset with no elements.
    pub fn new(alloc: S::Alloc) -> Self
        ensures { result ≡ [] }
    {
        Bag {
            counts: LiteMap::new(alloc),
        }
    }
}

impl<K: Ord + Drop, S: StoreMut<K, usize>> Bag<K, S> {
    /// Returns how often an element is there, if it is there.
    pub fn get(&self, element: &K) -> Option<usize>
        ensures value { result ≡ value_at K.cmp self.now element.now }
        ensures not_0 { IfSome result (λ n. 0 < n) }
    {
        self.counts.get(element).copied()
    }

    /// Adds an element once more.
    pub fn add(&mut self, element: K) -> Result<(), BagError>
        ensures added { OnOk result (self.new
            ≡ put K.cmp self.old element (unwrap_or (value_at K.cmp self.old element) 0 + 1)) }
        ensures unchanged { OnErr result (self.new ≡ self.old) }
        ensures full { result ≡ Err BagError.Full → value_at K.cmp self.old element ≡ Some usize.MAX }
        ensures no_memory { result ≡ Err BagError.NoMemory → at K.cmp self.old element ≡ None }
    {
        let Some(more) = self.get(&element).unwrap_or(0).checked_add(1) else {
            return Err(BagError::Full);
        };
        match self.counts.insert(element, more) {
            Ok(_) => Ok(()),
            Err(_) => Err(BagError::NoMemory),
        }
    }

    /// Takes an element out once, and returns whether it was there.
    pub fn remove(&mut self, element: &K) -> bool
        ensures there { result ≡ is_some (at K.cmp self.old element.now) }
        ensures fewer { (n : _) → value_at K.cmp self.old element.now ≡ Some (n + 2)
            → self.new ≡ write K.cmp self.old element.now (n + 1) }
        ensures gone { value_at K.cmp self.old element.now ≡ Some 1 → self.new ≡ cut K.cmp self.old element.now }
    {
        match self.counts.get(element).copied() {
            Some(count) if count > 1 => {
                if let Some(slot) = self.counts.get_mut(element) {
                    *slot = count - 1;
                }
                true
            }
            _ => self.counts.remove(element).is_some(),
        }
    }
}

impl<K: Ord + Drop, S: StoreBulkMut<K, usize>> Bag<K, S> {
    /// Keeps the elements that are there at least so often.
    pub fn keep(&mut self, least: usize)
        ensures { self.new ≡ filter (λ p. nat_le least p.1) self.old }
    {
        keep_counts(&mut self.counts, least);
    }
}

// Keeps the pairs whose counts are at least so great.
fn keep_counts<K: Ord + Drop, S: StoreBulkMut<K, usize>>(
    counts: &mut LiteMap<K, usize, S>,
    least: usize,
)
    ensures { counts.new.entries ≡ filter (λ p. nat_le least p.1) counts.old.entries }
{
    counts.retain(|_, count| *count >= least);
}
