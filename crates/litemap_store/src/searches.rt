//! A search of a store by a key, and what searches compare.
ghost use Rattle.std.specs.Prelude.{◌≡◌, ◌↔◌, ◌*◌, ◌<◌, ◌≤◌, IfErr, IfOk, IsTrue, length};
ghost use Rattle.litemap_store.specs.{RisesByAtMost, Rising, digits};
ghost use Rattle.litemap_store.specs.Splits.{Splits};

use crate::store::{Count, Store};

/// Searches for a key: `Ok` with the index of the equal key, or `Err` with the index where it would be inserted.
pub(crate) fn search<K: Ord, V, S: Store<K, V>>(
    store: &S,
    key: &K,
    count: &mut Count,
) -> Result<usize, usize>
    requires { Rising K.cmp (S.pairs store.now) }
    ensures splits { Splits K.cmp (S.pairs store.now) key.now result }
    ensures found { IfOk result (λ index. index < length (S.pairs store.now)) }
    ensures missing { IfErr result (λ index. index ≤ length (S.pairs store.now)) }
    ensures cost { RisesByAtMost (digits (length (S.pairs store.now))) count.old count.new }
{
    store.lm_binary_search_by(|k| k.cmp(key), count)
}

/// The binary digits of a number: the most comparisons of a search among that many pairs.
pub(crate) fn binary_digits(number: usize) -> usize
    ensures { result ≡ digits number }
{
    (usize::BITS - number.leading_zeros()) as usize
}

/// Whether one comparison for each pair is no more than `searches` searches of `steps` comparisons each.
pub(crate) fn walk_is_cheaper(pairs: usize, searches: usize, steps: usize) -> bool
    ensures { IsTrue result ↔ (pairs ≤ searches * steps) }
{
    pairs <= searches.saturating_mul(steps)
}
