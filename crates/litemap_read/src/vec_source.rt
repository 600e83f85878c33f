//! A vector as a source.
ghost use Rattle.std.specs.Prelude.{◌≡◌, Some, length, ⊤};

use crate::PairSource;
use std::alloc::{Allocator, Global};
use std::marker::Model;
use std::vec::IntoIter;

/// The error of a source that never fails.
#[derive(Debug, PartialEq, Drop)]
pub struct NoFault;

/// A source of the pairs of a vector, in their order. It never fails. A contract sees it as the list of the pairs left.
#[derive(Drop)]
pub struct VecSource<K, V, A: Allocator = Global> {
    rest: IntoIter<(K, V), A>,
}

impl<K, V, A: Allocator> Model for VecSource<K, V, A> {
    ghost use Rattle.std.specs.Prelude.{List};
    ghost use Rattle.std.specs.Vec.Iter.{into_iter_items};

    ghost Value = { List (K × V) };

    ghost view = { λ s. into_iter_items s.rest };
}

impl<K, V, A: Allocator> VecSource<K, V, A> {
    /// Makes a source of a vector's pairs. It takes no memory.
    pub fn new(pairs: Vec<(K, V), A>) -> Self
        ensures { result ≡ pairs.items }
    {
        VecSource {
            rest: pairs.into_iter(),
        }
    }
}

impl<K: Drop, V: Drop, A: Allocator> PairSource<K, V> for VecSource<K, V, A> {
    type Fault = NoFault;

    ghost gives = { λ s pairs. pairs ≡ s };

    ghost left = { length };

    ghost allows = { λ _ _. ⊥ };

    ghost ends = { λ _. ⊤ };

    ghost leads = { λ _ _. ⊤ };

    fn hint(&self) -> Option<usize>
        ensures { result ≡ Some (length self.now) }
    {
        Some(self.rest.len())
    }

    fn next_pair(&mut self) -> Result<Option<(K, V)>, NoFault> {
        Ok(self.rest.next())
    }

    ghost leads_itself = { λ _. tt };

    ghost leads_on = { λ _ _ _ _ _. tt };
}
