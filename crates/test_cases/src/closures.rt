//! Calls by a closure that returns `Equal` for more than one key, or that compares with another type than the keys'.
use crate::Outcome;
use litemap::store::{StoreFromIterable, StoreMut};
use litemap::{LiteMap, VecMap};
use litemap_short::ShortStore;
use std::alloc::Global;

const FOUR: &[(u32, u8)] = &[(1, b'a'), (2, b'b'), (3, b'c'), (4, b'd')];

const FIVE: &[(u32, u8)] = &[(1, b'a'), (2, b'b'), (3, b'c'), (4, b'd'), (9, b'e')];

// The pairs of a map, a half, the index of the first key of which it is the half, and the values of those keys.
const HALVES: [(&[(u32, u8)], u32, usize, &[u8]); 10] = [
    (FOUR, 0, 0, b"a"),
    (FOUR, 1, 1, b"bc"),
    (FOUR, 2, 3, b"d"),
    (FOUR, 3, 4, b""),
    (FIVE, 0, 0, b"a"),
    (FIVE, 1, 1, b"bc"),
    (FIVE, 2, 3, b"d"),
    (FIVE, 3, 4, b""),
    (FIVE, 4, 4, b"e"),
    (FIVE, 5, 5, b""),
];

// Whether a closure that compares with half of a key finds one of these keys, or where it would go, and takes one of them out.
fn finds_one<S: StoreMut<u32, u8, Alloc = Global> + StoreFromIterable<u32, u8> + Drop>(
    alloc: Global,
    pairs: &[(u32, u8)],
    half: u32,
    first: usize,
    equal: &[u8],
) -> Outcome {
    let mut map: LiteMap<u32, u8, S> = LiteMap::from_iter(alloc, pairs.iter().copied())?;
    let found = map.find_index_by(|key| (*key / 2).cmp(&half));
    let got = map.get_by(|key| (*key / 2).cmp(&half)).copied();
    let removed = map.remove_by(|key| (*key / 2).cmp(&half));
    let len = map.len();
    Ok(match (found, got, removed) {
        (Err(place), None, None) => equal.is_empty() && place == first && len == pairs.len(),
        (Ok(place), Some(got), Some(removed)) => {
            let are_equal = equal.contains(&got) && equal.contains(&removed);
            are_equal
                && place >= first
                && place - first < equal.len()
                && len.wrapping_add(1) == pairs.len()
        }
        _ => false,
    })
}

// A closure that returns `Equal` for two keys finds one of them.
pub(crate) fn one_of_the_keys_called_equal_is_found(alloc: Global) -> Outcome {
    let mut is_right = true;
    for &(pairs, half, first, equal) in &HALVES {
        is_right &= finds_one::<Vec<(u32, u8)>>(alloc, pairs, half, first, equal)?;
        is_right &= finds_one::<ShortStore<u32, u8>>(alloc, pairs, half, first, equal)?;
    }
    Ok(is_right)
}

// A closure compares keys with a string.
pub(crate) fn a_closure_compares_with_another_type(alloc: Global) -> Outcome {
    let (first, second) = ("c".to_string(alloc)?, "a".to_string(alloc)?);
    let map: VecMap<String, u8> = LiteMap::from_iter(alloc, [(first, 3), (second, 1)])?;
    let mut is_right = true;
    for &(text, place) in &[
        ("", Err(0)),
        ("a", Ok(0)),
        ("b", Err(1)),
        ("c", Ok(1)),
        ("d", Err(2)),
    ] {
        is_right &= map.find_index_by(|key| key.as_str().cmp(text)) == place;
    }
    Ok(is_right)
}
