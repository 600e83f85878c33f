//! A map as a collection of the kit, in calls that take no memory: indexed, taken, iterators that are cloned, ranges as Rust
//! writes them, its store, pairs that go by their indices, and values that are written in a loop.
use crate::Outcome;
use litemap::VecMap;
use litemap_columns::ColumnMap;
use std::alloc::{AllocError, Global};
use std::mem;
use std::ops::Bound;

// A map of numbers.
type Map = VecMap<u32, u32>;

// The lengths at which calls by index are tried.
const LENGTHS: [u32; 5] = [0, 1, 2, 5, 20];

// So many numbers from 1 on, each with ten times as much.
fn tens(alloc: Global, len: u32) -> Result<Vec<(u32, u32)>, AllocError> {
    (1..len.saturating_add(1))
        .map(|number| (number, number.wrapping_mul(10)))
        .collect(alloc)
}

fn map_of_tens(alloc: Global, len: u32) -> Result<Map, AllocError> {
    tens(alloc, len)?.into_iter().collect(alloc)
}

// A value is read and written by `[]`, and a map that is taken leaves an empty one.
pub(crate) fn a_map_is_indexed_and_taken(alloc: Global) -> Outcome {
    let mut map = map_of_tens(alloc, 3)?;
    if !map.contains_key(&2) {
        return Ok(false);
    }
    map[&2] = 21;
    let is_read = map.contains_key(&2) && map[&2] == 21;
    let taken = mem::try_take(&mut map)?;
    Ok(is_read && map.is_empty() && taken.as_slice() == [(1, 10), (2, 21), (3, 30)].as_slice())
}

// A map goes into another, whose own keys stay, and is empty then.
pub(crate) fn a_map_goes_into_another(alloc: Global) -> Outcome {
    let mut outcome = true;
    for len in LENGTHS {
        let mut map = map_of_tens(alloc, len)?;
        let mut more: Map = VecMap::from_array(alloc, [(30, 8), (2, 6), (2, 7)])?;
        map.append(alloc, &mut more)?;
        more.append(alloc, &mut map)?;
        let found = more.get(&2) == Some(&7) && more.get(&30) == Some(&8);
        let old = more.get(&1) == if len > 0 { Some(&10) } else { None };
        outcome = outcome && map.is_empty() && found && old;
    }
    Ok(outcome)
}

// A clone of an iterator goes on from where that one is.
pub(crate) fn iterators_are_cloned(alloc: Global) -> Outcome {
    let map = map_of_tens(alloc, 3)?;
    let (mut iter, mut range) = (
        map.iter(),
        map.iter_range(Bound::Excluded(&1), Bound::Unbounded),
    );
    let (mut keys, mut values) = (map.keys(), map.values());
    let _passed = (
        iter.next(),
        range.next_back(),
        keys.next(),
        values.next_back(),
    );
    let (iter, range) = (iter.clone()?, range.clone()?);
    let (mut keys, mut values) = (keys.clone()?, values.clone()?);
    let rest = iter.len() == 2 && range.len() == 1;
    Ok(rest && keys.next() == Some(&2) && values.next_back() == Some(&20))
}

// A range of numbers is what its two bounds are.
pub(crate) fn ranges_are_written_as_in_rust(alloc: Global) -> Outcome {
    let map = map_of_tens(alloc, 5)?;
    let mut is_right = map.range_in(..).len() == 5;
    for low in 0..7 {
        let (from, all) = (Bound::Included(&low), Bound::Unbounded);
        is_right &= map.range_in(low..).as_slice() == map.range(from, all).as_slice();
        is_right &= map.range_in(..=low).as_slice() == map.range(all, from).as_slice();
        for high in 0..7 {
            let part = map.range(from, Bound::Excluded(&high));
            is_right &= map.range_in(low..high).as_slice() == part.as_slice();
        }
    }
    Ok(is_right)
}

// A map is what its store is, and memory that isn't needed is given back.
pub(crate) fn a_store_comes_out(alloc: Global) -> Outcome {
    let mut map = map_of_tens(alloc, 5)?;
    map.reserve(100)?;
    let had = map.capacity();
    map.shrink_to(20);
    let left = map.capacity();
    map.shrink_to_fit();
    let is_small = map.capacity() == 5 && map.as_store().len() == 5;
    let shrinks = had >= 105 && left == 20 && is_small;
    Ok(shrinks && map.into_store().as_slice() == tens(alloc, 5)?.as_slice())
}

// A pair at an index goes as from a vector, at each index and at the length.
pub(crate) fn a_pair_goes_by_its_index(alloc: Global) -> Outcome {
    let mut is_right = true;
    for index in 0..21 {
        let (mut map, mut pairs) = (map_of_tens(alloc, 20)?, tens(alloc, 20)?);
        let wanted = if index < pairs.len() {
            Some(pairs.remove(index))
        } else {
            None
        };
        is_right &= map.remove_indexed(index) == wanted && map.as_slice() == pairs.as_slice();
    }
    Ok(is_right)
}

// Pairs between two indices go, and then those from the first one on, as from a vector.
pub(crate) fn ranges_of_pairs_go(alloc: Global) -> Outcome {
    let mut is_right = true;
    for start in 0..6 {
        for end in start..6 {
            let (mut map, mut pairs) = (map_of_tens(alloc, 20)?, tens(alloc, 20)?);
            if map.len() < end || pairs.len() < end {
                return Ok(false);
            }
            map.remove_range(start..end);
            drop(pairs.drain(start..end));
            is_right &= map.as_slice() == pairs.as_slice();
            map.truncate(start);
            pairs.truncate(start);
            is_right &= map.as_slice() == pairs.as_slice();
        }
    }
    Ok(is_right)
}

// Each value is written once, in order, up to the first error.
pub(crate) fn values_are_written_up_to_an_error(alloc: Global) -> Outcome {
    let mut is_right = true;
    for last in 0..22 {
        let mut map = map_of_tens(alloc, 20)?;
        let mut calls = 0u32;
        let outcome = map.try_update(|key, value| {
            calls = calls.wrapping_add(1);
            *value = value.wrapping_add(calls);
            if *key == last { Err(*key) } else { Ok(()) }
        });
        let wanted = if last > 0 && last < 21 {
            Err(last)
        } else {
            Ok(())
        };
        let written = if wanted.is_ok() { 20 } else { last };
        is_right &= outcome == wanted && calls == written;
        for (key, value) in &map {
            let more = if *key <= written { *key } else { 0 };
            is_right &= *value == key.wrapping_mul(10).wrapping_add(more);
        }
    }
    Ok(is_right)
}

// Each pair is asked once, in order, and those that stay have what was written.
pub(crate) fn pairs_are_written_and_dropped(alloc: Global) -> Outcome {
    let mut is_right = true;
    for step in 1u32..22 {
        let mut map = map_of_tens(alloc, 20)?;
        let mut calls = 0u32;
        map.retain_mut(|key, value| {
            calls = calls.wrapping_add(1);
            *value = calls;
            key.checked_rem(step) == Some(1)
        });
        let kept = (1u32..21).filter(|key| key.checked_rem(step) == Some(1));
        is_right &= calls == 20 && map.len() == kept.count();
        for (key, value) in &map {
            is_right &= key.checked_rem(step) == Some(1) && key == value;
        }
    }
    Ok(is_right)
}

// Values in two columns are lent one after another, up to where the loop ends, and all at once.
pub(crate) fn values_in_columns_are_lent(alloc: Global) -> Outcome {
    let mut map: ColumnMap<u32, u32> = tens(alloc, 5)?.into_iter().collect(alloc)?;
    let mut keys = 0u32;
    for (key, value) in &mut map {
        if *key == 4 {
            break;
        }
        keys = keys.wrapping_mul(10).wrapping_add(*key);
        *value = 7;
    }
    let is_half = map.values_slice() == [7, 7, 7, 40, 50].as_slice();
    map.values_mut_slice().reverse();
    let is_turned = map.values_slice() == [50, 40, 7, 7, 7].as_slice();
    Ok(keys == 123 && is_half && is_turned && map.keys_slice() == [1, 2, 3, 4, 5].as_slice())
}

// The pair at a number, or next to it on either side, is what a walk from that end finds.
pub(crate) fn pairs_next_to_a_number_are_found(alloc: Global) -> Outcome {
    let mut is_right = true;
    for len in LENGTHS {
        let map: Map = (1..len.saturating_add(1))
            .map(|n| (n.wrapping_mul(2), n))
            .collect(alloc)?;
        for number in 0..44 {
            let below = map
                .iter_range(Bound::Unbounded, Bound::Included(&number))
                .next_back();
            let above = map
                .iter_range(Bound::Included(&number), Bound::Unbounded)
                .next();
            is_right &= map.floor(&number) == below && map.ceiling(&number) == above;
            is_right &= map.range_by::<&u32, _>(&number..&44).first() == above;
        }
    }
    Ok(is_right)
}

// A store of ascending keys becomes a map, and any other comes back.
pub(crate) fn sorted_stores_become_maps(alloc: Global) -> Outcome {
    let mut is_right = true;
    for len in LENGTHS {
        let map = Map::try_from_sorted(tens(alloc, len)?);
        is_right &= map.is_ok_and(|map: Map| map.len() == len as usize);
        let mut pairs = tens(alloc, len)?;
        pairs.push((len, 0))?;
        let back = Map::try_from_sorted(pairs);
        is_right &= len == 0
            || back.is_err_and(|pairs: Vec<(u32, u32)>| pairs.len() == len as usize + 1);
    }
    Ok(is_right)
}
