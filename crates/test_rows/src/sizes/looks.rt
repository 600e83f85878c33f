//! Lookups.
use crate::sizes::made::Made;
use litemap::LiteMap;
use litemap::store::StoreBulkMut;
use std::alloc::Global;
use std::ops::Bound;

/// What a lookup tells of a key, or 0.
pub fn look<K: Made, V: Made, S: StoreBulkMut<K, V, Alloc = Global>>(
    name: &str,
    map: &mut LiteMap<K, V, S>,
    key: &K,
) -> usize {
    match name {
        "find_index" => map.find_index(key).unwrap_or_else(|index| index),
        "contains_key" => usize::from(map.contains_key(key)),
        "get" => map.get(key).map_or(0, V::number) as usize,
        "get_mut" => map.get_mut(key).map_or(0, |slot| slot.number()) as usize,
        "range_back" => {
            let mut below = map.iter_range(Bound::Unbounded, Bound::Excluded(key));
            below
                .next_back()
                .map_or(0, |(key, _)| key.number() as usize)
        }
        "index_range" => ranges(map, key),
        _ => 0,
    }
}

// The indices between bounds of each kind.
fn ranges<K: Made, V: Made, S: StoreBulkMut<K, V, Alloc = Global>>(
    map: &LiteMap<K, V, S>,
    key: &K,
) -> usize {
    let mut sum = 0usize;
    for kinds in 0..9u32 {
        let indices = map.index_range(bound(kinds / 3, key), bound(kinds % 3, key));
        sum = sum.wrapping_add(indices.start).wrapping_add(indices.end);
    }
    sum
}

// One of three bounds, by its number.
fn bound<K>(number: u32, key: &K) -> Bound<&K> {
    match number {
        0 => Bound::Included(key),
        1 => Bound::Excluded(key),
        _ => Bound::Unbounded,
    }
}
