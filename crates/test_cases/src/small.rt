//! Small maps: names of languages, a range of a range, keys that a closure makes, and keys and values by value.
use crate::Outcome;
use litemap::{LiteMap, VecMap};
use std::alloc::Global;

const LANGUAGES: &[(&str, &str)] = &[
    ("ar", "Arabic"),
    ("bn", "Bangla"),
    ("ccp", "Chakma"),
    ("en", "English"),
    ("es", "Spanish"),
    ("fr", "French"),
    ("ja", "Japanese"),
    ("ru", "Russian"),
    ("sr", "Serbian"),
    ("th", "Thai"),
    ("tr", "Turkish"),
];

// Names of languages are made of an iterator, and found by their codes.
pub(crate) fn languages_are_found_by_their_codes(alloc: Global) -> Outcome {
    let languages: VecMap<&str, &str> = LiteMap::from_iter(alloc, LANGUAGES.iter().copied())?;
    let len = languages.len();
    Ok(len == 11 && languages.get("th") == Some(&"Thai") && languages.get("de").is_none())
}

// A range of a range counts from the first pair of that.
pub(crate) fn a_range_has_ranges(alloc: Global) -> Outcome {
    let map: VecMap<u32, &str> = LiteMap::from_iter(alloc, [(1, "one"), (2, "two"), (3, "three")])?;
    let Some(part) = map.get_indexed_range(1..3) else {
        return Ok(false);
    };
    let Some(last) = part.get_indexed_range(1..2) else {
        return Ok(false);
    };
    Ok(last.as_slice() == [(3, "three")].as_slice())
}

// A closure makes keys ten times as great.
pub(crate) fn keys_are_made_by_a_closure(alloc: Global) -> Outcome {
    let map: VecMap<u32, char> = LiteMap::from_iter(alloc, [(1, 'a'), (2, 'b')])?;
    let made: VecMap<u64, char> = map.to_keys_by(alloc, |key| *key as u64 * 10)?;
    Ok(made.as_slice() == [(10, 'a'), (20, 'b')].as_slice())
}

// Keys and values leave a map by value, in the order of the keys.
pub(crate) fn keys_and_values_leave_a_map(alloc: Global) -> Outcome {
    let mut names: VecMap<u32, String> = LiteMap::new(alloc);
    names.insert(2, "two".to_string(alloc)?)?;
    names.insert(1, "one".to_string(alloc)?)?;
    let copy = names.try_clone(alloc)?;
    let (mut keys, mut values) = (copy.into_keys(), names.into_values());
    let first = keys.len() == 2 && keys.next() == Some(1) && keys.size_hint() == (1, Some(1));
    let texts = values.next().is_some_and(|name| name.as_str() == "one") && values.len() == 1;
    Ok(first && texts && keys.next() == Some(2) && keys.next().is_none())
}
