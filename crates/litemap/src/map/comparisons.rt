//! Compares and hashes maps pair by pair, over every store.
ghost use Rattle.std.specs.Cmp.Lexicographic.{lists_equiv, lists_agrees, lists_total, lists_ties, lists_per, lists_po};
ghost use Rattle.std.specs.Ordering.{ordering_then};
ghost use Rattle.std.specs.Cmp.{on_equiv, and_equiv, then_agrees, on_total, then_total, both_tied};
ghost use Rattle.std.specs.Cmp.{on_per, and_per, on_po, then_po};
ghost use Rattle.std.specs.Hash.{on_Alike, and-Alike, items_Alike};
ghost use Rattle.litemap.specs.Comparisons.{equal_pairs, pairs_cmp, pairs_partial_cmp, pairs_hashed};

use super::iter::RangeIter;
use crate::LiteMap;
use litemap_store::store::Store;
use std::cmp::Ordering;
use std::hash::{Hash, Hasher};

/// Maps are equal if they have the same length, and equal keys and equal values at each index.
impl<K: Ord, V: PartialEq, S: Store<K, V>> PartialEq for LiteMap<K, V, S> {
    ghost eq = { λ m n. equal_pairs K.eq V.eq m.entries n.entries };

    ghost laws = { on_per (λ m. m.entries) (lists_per (and_per (on_per (λ p. p.0) K.PartialEq.laws)
        (on_per (λ p. p.1) V.laws))) };

    fn eq(&self, other: &Self) -> bool {
        let len = self.len();
        if other.len() != len {
            return false;
        }
        for index in 0..len {
            let here = self.get_indexed(index).unwrap();
            let there = other.get_indexed(index).unwrap();
            if here != there {
                return false;
            }
        }
        true
    }
}

impl<K: Ord, V: Eq, S: Store<K, V>> Eq for LiteMap<K, V, S> {
    ghost laws = { on_equiv (λ m. m.entries) (lists_equiv (and_equiv (on_equiv (λ p. p.0) K.Eq.laws)
        (on_equiv (λ p. p.1) V.Eq.laws))) };
}

/// Maps compare by the first index at which they differ, keys before values; a map is less than a longer one that starts with it.
///
/// ```rust
/// // days: 1 Monday, 3 Wednesday, 5 Friday
/// let all = days.as_sliced();
/// let begin = days.range(Bound::Unbounded, Bound::Excluded(&5));
/// begin < all && begin.cmp(&all).is_lt()
/// ```
impl<K: Ord, V: PartialOrd, S: Store<K, V>> PartialOrd for LiteMap<K, V, S> {
    ghost partial_cmp = { λ m n. pairs_partial_cmp K.partial_cmp V.partial_cmp m.entries n.entries };

    ghost laws = { on_po (λ m. m.entries) (lists_po (then_po (on_po (λ p. p.0) K.PartialOrd.laws)
        (on_po (λ p. p.1) V.PartialOrd.laws))) };

    fn partial_cmp(&self, other: &Self) -> Option<Ordering> {
        let mut left = RangeIter::all(&self.store);
        let mut right = RangeIter::all(&other.store);
        while let Some(pair) = left.next() {
            let Some(other) = right.next() else {
                return Some(Ordering::Greater);
            };
            match pair.partial_cmp(&other) {
                Some(Ordering::Equal) => {}
                decided => return decided,
            }
        }
        match right.next() {
            Some(_) => Some(Ordering::Less),
            None => Some(Ordering::Equal),
        }
    }
}

/// The same order, if that of the values is total.
impl<K: Ord, V: Ord, S: Store<K, V>> Ord for LiteMap<K, V, S> {
    ghost cmp = { λ m n. pairs_cmp K.cmp V.cmp m.entries n.entries };

    ghost total = { on_total (λ m. m.entries) (lists_total (then_total (on_total (λ p. p.0) K.total)
        (on_total (λ p. p.1) V.total))) };

    ghost matches_partial_cmp = { λ m n. lists_agrees (then_agrees (λ p q. K.matches_partial_cmp p.0 q.0)
        (λ p q. V.matches_partial_cmp p.1 q.1)) m.entries n.entries };

    ghost matches_eq = { λ m n.
        let by_key = K.cmp in
        let by_value = V.cmp in
        lists_ties (λ p q. ordering_then (by_key p.0 q.0) (by_value p.1 q.1))
        (λ p q. both_tied _ _ (by_key p.0 q.0) (by_value p.1 q.1) (K.matches_eq p.0 q.0) (V.matches_eq p.1 q.1))
        m.entries n.entries };

    fn cmp(&self, other: &Self) -> Ordering {
        self.partial_cmp(other).unwrap()
    }
}

/// Hashes the length, then each key and its value in turn: so equal maps hash alike.
impl<K: Ord + Hash, V: Hash, S: Store<K, V>> Hash for LiteMap<K, V, S> {
    ghost hash_input = { λ m. pairs_hashed K.hash_input V.hash_input m.entries };

    ghost respects_eq = { (on_Alike (λ m. m.entries) (items_Alike (and-Alike
        (on_Alike (λ p. p.0) (record { fed = K.respects_eq }))
        (on_Alike (λ p. p.1) (record { fed = V.respects_eq }))))).fed };

    fn hash<H: Hasher>(&self, state: &mut H) {
        let mut rest = RangeIter::all(&self.store);
        rest.len().hash(state);
        while let Some((key, value)) = rest.next() {
            key.hash(state);
            value.hash(state);
        }
    }
}
