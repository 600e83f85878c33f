//! Calls that make another map of the pairs of a map.
use crate::sizes::calls::Call;
use crate::sizes::made::Made;
use crate::sizes::sums;
use litemap::store::{Store, StoreBulkMut};
use litemap::{LiteMap, VecMap};
use litemap_columns::ColumnStore;
use std::alloc::{AllocError, Global};

// A map over two columns.
type Columns<K, V> = LiteMap<K, V, ColumnStore<K, V>>;

/// Makes such a call, if the name is one: the sum of the pairs of the other map.
pub fn copy<K: Made, V: Made, S: StoreBulkMut<K, V, Alloc = Global>>(
    call: &Call<'_>,
    map: &LiteMap<K, V, S>,
) -> Option<Result<u64, AllocError>> {
    let alloc = call.alloc;
    Some(match call.name {
        "try_clone" => sum_of(map.try_clone(alloc)),
        "to_boxed_keys_values" => {
            let made: Result<VecMap<Box<K>, Box<V>>, AllocError> = map.to_boxed_keys_values(alloc);
            sum_of(made)
        }
        "to_boxed_keys" => {
            let made: Result<VecMap<Box<K>, V>, AllocError> = map.to_boxed_keys(alloc);
            sum_of(made)
        }
        "to_boxed_values" => {
            let made: Result<Columns<K, Box<V>>, AllocError> = map.to_boxed_values(alloc);
            sum_of(made)
        }
        "to_borrowed_keys_values" => lent(map.to_borrowed_keys_values(alloc)),
        _ => return None,
    })
}

fn sum_of<K: Made, V: Made, S: Store<K, V> + Drop>(
    made: Result<LiteMap<K, V, S>, AllocError>,
) -> Result<u64, AllocError> {
    Ok(sums::of_map(&made?))
}

// The sum of lent pairs.
fn lent<K: Made, V: Made>(made: Result<VecMap<&K, &V>, AllocError>) -> Result<u64, AllocError> {
    let made = made?;
    let mut sum = 0u64;
    for (index, (key, value)) in made.as_slice().iter().enumerate() {
        sum = sum.wrapping_add(sums::of_pair(index, *key, *value));
    }
    Ok(sum)
}
