//! A store of one's own: a vector of pairs that takes no more than a number of them, as a server wants it for headers that
//! a stranger sends.
//!
//! A struct, what a contract sees of it, and three traits: a store whose maps are made, looked up and changed has no more. A
//! fourth one is for `rename`.
#![tactic(auto)]

ghost use Rattle.std.specs.Prelude.{⊤, refl};
ghost use Rattle.litemap_store.specs.Contents.{with_value};

pub mod fixed_room;
pub mod shrinking;

use litemap::store::{KeepsMemory, NoRoom, Store, StoreConstEmpty, StoreIn, StoreMut};
use std::alloc::{AllocError, Global};
use std::marker::Model;

/// A vector of at most `LIMIT` pairs.
#[derive(Drop)]
pub struct Bounded<K, V, const LIMIT: usize> {
    items: Vec<(K, V)>,
}

impl<K, V, const LIMIT: usize> Model for Bounded<K, V, LIMIT> {
    ghost use Rattle.std.specs.Prelude.{◌≤◌, ◌-◌, min, vec_len};
    ghost use Rattle.litemap_store.specs.VecStore.{vec_room};
    ghost use Rattle.litemap_store.specs.Contents.{Contents};

    ghost Value = { Contents K V };

    ghost view = { λ s. record { entries = s.items.items; room = min (vec_room s.items) (LIMIT - vec_len s.items) } };

    ghost invariant = { λ s. vec_len s.items ≤ LIMIT };
}

impl<K, V, const LIMIT: usize> Store<K, V> for Bounded<K, V, LIMIT> {
    ghost pairs = { λ s. s.entries };

    ghost room = { λ s. s.room };

    fn lm_len(&self) -> usize {
        self.items.len()
    }

    fn lm_get(&self, index: usize) -> Option<(&K, &V)> {
        self.items.lm_get(index)
    }
}

impl<K, V, const LIMIT: usize> StoreIn<K, V> for Bounded<K, V, LIMIT> {
    type Alloc = Global;
}

impl<K, V, const LIMIT: usize> StoreConstEmpty<K, V> for Bounded<K, V, LIMIT> {
    fn lm_empty(alloc: Global) -> Self {
        Bounded {
            items: Vec::new(alloc),
        }
    }
}

impl<K, V, const LIMIT: usize> StoreMut<K, V> for Bounded<K, V, LIMIT> {
    ghost with_value = { with_value };

    ghost keeps_memory = { ⊤ };

    fn lm_with_capacity(alloc: Global, capacity: usize) -> Result<Self, AllocError> {
        if capacity > LIMIT {
            return Err(AllocError);
        }
        Ok(Bounded {
            items: Vec::with_capacity(alloc, capacity)?,
        })
    }

    fn lm_reserve(&mut self, additional: usize) -> Result<(), AllocError> {
        if additional > LIMIT - self.items.len() {
            return Err(AllocError);
        }
        self.items.reserve(additional)
    }

    fn lm_pair_mut(&mut self, index: usize) -> (&K, &mut V) {
        let pair = &mut self.items[index];
        (&pair.0, &mut pair.1)
    }

    fn lm_replace(&mut self, index: usize, key: K, value: V) -> (K, V) {
        self.items.lm_replace(index, key, value)
    }

    fn lm_push(&mut self, key: K, value: V) -> Result<(), NoRoom<(K, V)>> {
        let index = self.items.len();
        self.lm_insert(index, key, value)
    }

    fn lm_insert(&mut self, index: usize, key: K, value: V) -> Result<(), NoRoom<(K, V)>> {
        if self.items.len() == LIMIT {
            return Err(NoRoom { back: (key, value) });
        }
        self.items.lm_insert(index, key, value)
    }

    fn lm_remove(&mut self, index: usize) -> (K, V) {
        self.items.remove(index)
    }

    fn lm_clear(&mut self)
    where
        K: Drop,
        V: Drop,
    {
        self.items.clear();
    }

    ghost writes = { λ s i v. refl };

    ghost keeps_room = { λ s i v. refl };
}

impl<K, V, const LIMIT: usize> KeepsMemory<K, V> for Bounded<K, V, LIMIT> {
    ghost keeps = { tt };
}
