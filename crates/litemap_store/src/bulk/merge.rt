//! One linear merge of ascending pairs into a store.
ghost use Rattle.std.specs.Prelude.{◌≡◌, ◌+◌, ◌++◌, [], OnOk, OnErr, length};
ghost use Rattle.litemap_store.specs.{RisesByAtMost, Rising};
ghost use Rattle.litemap_store.specs.Last.{Last};

use crate::growth::{Refused, sum, with_capacity};
use crate::store::{Count, Store, StoreIntoIterator};
use crate::walk::{Choice, walk};
use std::mem;

// The new pair stays, and the old one is dropped.
#[derive(Drop)]
struct NewPair;

impl<K: Drop, V: Drop> Choice<K, V> for NewPair {
    ghost kept = { λ a b. b };

    ghost gone = { λ a b. [] };

    ghost displaced = { λ s. [] };

    ghost needs_room = { ⊥ };

    ghost room = { λ s. 0 };

    fn choose(&mut self, key: K, value: V, new_key: K, new_value: V) -> (K, V) {
        (new_key, new_value)
    }
}

/// Puts the pairs of a vector in, which is left empty, by at most one comparison for each pair of both. On an error the vector
/// keeps them.
///
/// All capacity is taken first: a fresh store for all pairs, which becomes the store. Each pair then moves once. So at the peak
/// there is capacity for each old pair twice (store, fresh store), and for each new one up to three times (fresh store, and the
/// vector in which they were gathered, with up to twice their number), or up to five times if they are 2 to 512; a lone one takes
/// 8 there. A vector gathers them after its own pairs, so its block may have grown to twice both, below 512 pairs to four times.
pub fn merge<K: Ord + Drop, V: Drop, S: StoreIntoIterator<K, V> + Drop>(
    alloc: S::Alloc,
    store: &mut S,
    pairs: &mut Vec<(K, V), S::Alloc>,
    count: &mut Count,
) -> Result<(), Refused>
    requires store { Rising K.cmp (S.pairs store.old) }
    requires pairs { Rising K.cmp pairs.old.items }
    ensures last { OnOk result (Last K.cmp (S.pairs store.old ++ pairs.old.items) (S.pairs store.new)) }
    ensures unchanged { OnErr result (S.pairs store.new ≡ S.pairs store.old) }
    ensures cost { RisesByAtMost (length (S.pairs store.old) + length pairs.old.items) count.old count.new }
    ensures empty { OnOk result (pairs.new.items ≡ []) }
    ensures back { OnErr result (pairs.new.items ≡ pairs.old.items) }
{
    let total = sum(store.lm_len(), pairs.len())?;
    let fresh = with_capacity(alloc, total)?;
    let olds = mem::replace(store, fresh).lm_into_iter();
    let news = mem::replace(pairs, Vec::new(alloc)).lm_into_iter();
    walk(store, olds, news, &mut NewPair, count);
    Ok(())
}
