//! The stores, and the maps and stores that lines begin with.
use crate::answer::Answer;
use crate::call::{Call, Map};
use crate::counted::{Key, Value};
use litemap::LiteMap;
use litemap::store::{
    StoreAlloc, StoreBulkMut, StoreConstEmpty, StoreFromIterable, StoreFromIterator,
    StoreIntoIterator,
};
use std::alloc::{AllocError, Global};

/// A store whose calls, and those of a map over it, are made.
pub trait Tested: StoreConstEmpty<Key, Value, Alloc = Global>
    + StoreAlloc<Key, Value>
    + StoreBulkMut<Key, Value>
    + StoreFromIterable<Key, Value>
    + StoreFromIterator<Key, Value>
    + StoreIntoIterator<Key, Value> {
    /// Makes a call that lends pairs, that is of small pairs or that not every store has, if the name is one of these.
    fn own(map: &mut Map<Self>, store: &Self, call: &Call<'_>, to: &mut Answer) -> bool;
}

/// A map of so many pairs, `2:20`, `4:40` and so on, made with room for so many.
pub fn map_of<S: Tested>(call: &Call<'_>, len: u64, capacity: usize) -> Result<Map<S>, AllocError> {
    let mut map = LiteMap::with_capacity(call.alloc, capacity)?;
    for place in 1..len.saturating_add(1) {
        let (key, value) = call.pair_at(place)?;
        map.insert(key, value)?;
    }
    Ok(map)
}

/// The store of these pairs, made with this room.
pub fn store_of<S: Tested>(call: &Call<'_>, len: u64, capacity: usize) -> Result<S, AllocError> {
    let mut store = S::lm_with_capacity(call.alloc, capacity)?;
    for place in 1..len.saturating_add(1) {
        let (key, value) = call.pair_at(place)?;
        store.lm_push(key, value)?;
    }
    Ok(store)
}
