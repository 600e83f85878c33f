//! Capacities and lengths near the greatest: growing further fails, and nothing wraps; and what stores and counts take.
//!
//! A map of keys that take no memory has one pair at most, since all are equal. So the greatest length is tried on a store.
use crate::{Outcome, all_right};
use example_store::fixed_room::FixedRoom;
use litemap::LiteMap;
use litemap::store::{Count, Store, StoreIntoIterator, StoreMut};
use litemap_columns::ColumnStore;
use litemap_short::{ShortMap, ShortStore};
use std::alloc::{AllocError, Global};
use std::mem;

// The most pairs that a vector holds, of whatever size.
const MOST: usize = usize::MAX / 2;

// Whether a map of pairs that take no memory fails to reserve for more pairs than a vector holds, and keeps its pair.
fn is_refused<S: StoreMut<(), (), Alloc = Global> + Drop>(alloc: Global) -> Outcome {
    let mut is_right = LiteMap::<(), (), S>::with_capacity(alloc, usize::MAX).is_err();
    let mut map: LiteMap<(), (), S> = LiteMap::with_capacity(alloc, 1)?;
    map.insert((), ())?;
    for room in [MOST, usize::MAX - MOST, usize::MAX - 1, usize::MAX] {
        is_right &= map.reserve(room).is_err();
    }
    Ok(is_right && map.len() == 1)
}

pub(crate) fn room_past_the_end_is_refused(alloc: Global) -> Outcome {
    let most = LiteMap::<(), (), Vec<((), ())>>::with_capacity(alloc, MOST);
    all_right(&[
        Ok(most.is_ok()),
        is_refused::<Vec<((), ())>>(alloc),
        is_refused::<ColumnStore<(), ()>>(alloc),
        is_refused::<FixedRoom<(), ()>>(alloc),
        is_refused::<ShortStore<(), ()>>(alloc),
    ])
}

// The longest vector there is, of pairs that take no memory: it is doubled again and again.
fn longest(alloc: Global) -> Result<Vec<((), ())>, AllocError> {
    let mut pairs = Vec::new(alloc);
    for _ in 0..63 {
        let mut more = Vec::from_slice(alloc, &pairs)?;
        pairs.append(&mut more)?;
        pairs.push(((), ()))?;
    }
    Ok(pairs)
}

// The longest store shows its last pair, and each growth fails and leaves its length.
pub(crate) fn the_longest_store_grows_no_more(alloc: Global) -> Outcome {
    let mut store = longest(alloc)?;
    let shows = store.lm_get(MOST - 1).is_some() && store.lm_get(MOST).is_none();
    let reserves = store.lm_reserve(0).is_ok() && store.lm_reserve(1).is_err();
    let takes = store.lm_push((), ()).is_ok() || store.lm_insert(0, (), ()).is_ok();
    let joins = store.lm_extend_end([((), ())].to_vec(alloc)?).is_ok()
        || store.lm_extend_start([((), ())].to_vec(alloc)?).is_ok();
    let len = store.lm_len();
    // Its pairs aren't dropped one by one.
    mem::forget(store);
    Ok(shows && reserves && !takes && !joins && len == MOST)
}

// A count takes no memory, and a short store of small pairs a word beside a vector's three.
pub(crate) fn a_count_takes_no_memory(_: Global) -> Outcome {
    let short = size_of::<ShortMap<[u8; 2], [u8; 8]>>();
    Ok(size_of::<Count>() == 0 && short == 4 * size_of::<usize>())
}
