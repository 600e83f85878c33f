//! Functions over a map with any store: its values are added up, and it moves to another kind of store.
ghost use Rattle.std.specs.Prelude.{◌≡◌, ◌≤◌, ◌^◌};
ghost use Rattle.litemap.specs.Words.{IfOk, MatchOption, sum, values};

use litemap::LiteMap;
use litemap::store::{StoreFromIterable, StoreIntoIterator, StoreIterable};
use std::alloc::AllocError;

/// The sum of all values, `None` if it is too great for their type.
pub fn total<'a, K: Ord + 'a, S: StoreIterable<'a, K, u32>>(
    map: &'a LiteMap<K, u32, S>,
) -> Option<u32>
    ensures { MatchOption result (2 ^ 32 ≤ sum (values map.now)) (λ n. n ≡ sum (values map.now)) }
{
    let mut total = 0u32;
    for (_key, value) in map {
        total = total.checked_add(*value)?;
    }
    Some(total)
}

/// The same map over another store. If memory runs out, the pairs are dropped.
pub fn moved<K, V, S, T>(
    alloc: T::Alloc,
    map: LiteMap<K, V, S>,
) -> Result<LiteMap<K, V, T>, AllocError>
where
    K: Ord + Drop,
    V: Drop,
    S: StoreIntoIterator<K, V>,
    T: StoreFromIterable<K, V>,
    ensures { IfOk result (λ moved. moved.entries ≡ map.entries) }
{
    map.keys_ascend();
    Ok(LiteMap::from_iter(alloc, map)?)
}
