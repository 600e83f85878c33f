//! Sums of pairs, which tell what a map has and in which order.
use crate::sizes::made::Made;
use litemap::LiteMap;
use litemap::store::Store;

/// The sum of the pairs of a map.
pub fn of_map<K: Made, V: Made, S: Store<K, V>>(map: &LiteMap<K, V, S>) -> u64 {
    let mut sum = 0u64;
    for index in 0..map.len() {
        if let Some((key, value)) = map.get_indexed(index) {
            sum = sum.wrapping_add(of_pair(index, key, value));
        }
    }
    sum
}

/// What the pair at an index adds to a sum: its key three times and its value, times its index plus one.
pub fn of_pair<K: Made, V: Made>(index: usize, key: &K, value: &V) -> u64 {
    let pair = key.number().wrapping_mul(3).wrapping_add(value.number());
    pair.wrapping_mul((index as u64).wrapping_add(1))
}
