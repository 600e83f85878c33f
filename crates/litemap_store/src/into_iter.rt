//! Stores that yield their pairs, and are joined with others of their type.
ghost use Rattle.std.specs.Prelude.{◌≡◌, ◌⊎◌, ◌<◌, ◌≤◌, ◌++◌, List, length, IfErr, OnErr, OnOk};
ghost use Rattle.std.specs.Iterator.{YieldsFirst, at_most};
ghost use Rattle.std.specs.Vec.Iter.{into_iter_items};
ghost use Rattle.litemap_store.specs.{HintsExactly, count_is, first_is};

use crate::reserved::push_reserved;
use crate::store::{NoRoom, Store, StoreMut};
use std::alloc::Allocator;
use std::mem;
use std::vec::IntoIter;

/// An iterator over the pairs of a store, by value (own). A contract sees it as the list of those still to come.
///
/// Its `len` is their number, by the law `count`.
pub trait PairIntoIter<K, V>: Iterator<Item = (K, V)> + ExactSizeIterator + Drop {
    /// The pairs still to come, in their order.
    ghost owned: { Self → List (K × V) };

    /// Returns the number of pairs still to come, as both bounds of a size hint (own). Write `self.size_hint()` as its
    /// body, as for `PairIter`.
    fn lm_size_hint(&self) -> (usize, Option<usize>)
        ensures { HintsExactly (length (owned self.now)) result };

    ghost can: { (it : Self) → Self.can_next it };

    ghost first: { (it : Self) (item : _) (rest : Self)
        → Self.next_gives it item rest → YieldsFirst owned it item rest };

    ghost count: { (it : Self) → Self.remaining it ≡ at_most (length (owned it)) };
}

/// A store that yields its pairs, and is joined with others of its type.
pub trait StoreIntoIterator<K: Drop, V: Drop>: StoreMut<K, V> + Sized {
    /// The iterator over the pairs.
    type KeyValueIntoIter: PairIntoIter<K, V>;

    /// Returns an iterator over all pairs by value, in order.
    fn lm_into_iter(self) -> Self::KeyValueIntoIter
        ensures { Self.KeyValueIntoIter.owned result ≡ Self.pairs self };

    /// Appends the pairs of another store.
    ///
    /// It reserves capacity first, and fails only if that does and the room is less than the other store's length: then the list
    /// stays as it was, and the other store comes back whole. Nothing is promised of the room afterwards.
    ///
    /// ```rust
    /// let mut begin = [(1, "Monday")].to_vec(alloc)?;
    /// begin.lm_extend_end([(3, "Wednesday")].to_vec(alloc)?)?;
    /// Ok(begin.as_slice() == [(1, "Monday"), (3, "Wednesday")].as_slice())
    /// ```
    fn lm_extend_end(&mut self, other: Self) -> Result<(), NoRoom<Self>>
        ensures ok { OnOk result (Self.pairs self.new ≡ Self.pairs self.old ++ Self.pairs other) }
        ensures unchanged { OnErr result (Self.pairs self.new ≡ Self.pairs self.old) }
        ensures back { IfErr result (λ refused. Self.pairs refused.back ≡ Self.pairs other) }
        ensures full { OnErr result (Self.room self.old < length (Self.pairs other)) }
    {
        let Ok(()) = self.lm_reserve(other.lm_len()) else {
            return Err(NoRoom { back: other });
        };
        append_each(self, other.lm_into_iter());
        Ok(())
    }

    /// Puts the pairs of another store before the own ones, by appending the own ones to that store. So each own pair moves once,
    /// and each of the other's at most once, if its memory grows.
    ///
    /// The other store reserves capacity first. It fails only if that does and one of the two has less room than the other has
    /// pairs: then the list stays, and the other store comes back whole. Nothing is promised of the room afterwards. A store that
    /// can grow in front may do so. The Rust crate inserts pair by pair at the front; its vector has one `splice`.
    fn lm_extend_start(&mut self, mut other: Self) -> Result<(), NoRoom<Self>>
        ensures ok { OnOk result (Self.pairs self.new ≡ Self.pairs other ++ Self.pairs self.old) }
        ensures unchanged { OnErr result (Self.pairs self.new ≡ Self.pairs self.old) }
        ensures back { IfErr result (λ refused. Self.pairs refused.back ≡ Self.pairs other) }
        ensures full { OnErr result ((Self.room self.old < length (Self.pairs other))
            ⊎ (Self.room other < length (Self.pairs self.old))) }
    {
        let Ok(()) = other.lm_reserve(self.lm_len()) else {
            return Err(NoRoom { back: other });
        };
        mem::swap(self, &mut other);
        append_each(self, other.lm_into_iter());
        Ok(())
    }
}

pub(crate) fn append_each<K: Drop, V: Drop, S: StoreMut<K, V>, I: PairIntoIter<K, V>>(
    store: &mut S,
    pairs: I,
)
    requires { length (I.owned pairs) ≤ S.room store.old }
    ensures { S.pairs store.new ≡ S.pairs store.old ++ I.owned pairs }
{
    for (key, value) in pairs {
        push_reserved(store, key, value);
    }
}

impl<K: Drop, V: Drop, A: Allocator> PairIntoIter<K, V> for IntoIter<(K, V), A> {
    ghost owned = { into_iter_items };

    ghost can = { λ _. tt };

    ghost first = { first_is };

    ghost count = { count_is };

    // The `size_hint` of std's iterator has no clause that says that it is exact, but `len` has.
    fn lm_size_hint(&self) -> (usize, Option<usize>) {
        let len = self.len();
        (len, Some(len))
    }
}

impl<K: Drop, V: Drop, A: Allocator + Copy> StoreIntoIterator<K, V> for Vec<(K, V), A> {
    type KeyValueIntoIter = IntoIter<(K, V), A>;

    fn lm_into_iter(self) -> IntoIter<(K, V), A> {
        self.into_iter()
    }

    fn lm_extend_end(&mut self, mut other: Self) -> Result<(), NoRoom<Self>> {
        self.append(&mut other).map_err(|_| NoRoom { back: other })
    }

    fn lm_extend_start(&mut self, mut other: Self) -> Result<(), NoRoom<Self>> {
        let Ok(()) = other.append(self) else {
            return Err(NoRoom { back: other });
        };
        *self = other;
        Ok(())
    }
}
