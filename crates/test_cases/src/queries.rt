//! Keys of each kind looked up by what can stand for them: by a string, by a slice, and by the key itself. And names looked up in
//! their bytes. `bin/planted` counts the comparisons of all.
use crate::{Outcome, all_right};
use litemap::store::Count;
use litemap::{LiteMap, Query, VecMap};
use name_index::{IndexedNames, NameIndex, Names, write_index};
use name_table::{NameMap, write_names};
use std::alloc::{AllocError, Global};
use std::borrow::CowStr;
use std::boxed::{BoxedSlice, BoxedStr};
use std::convert::identity;
use std::rc::RcStr;
use std::sync::ArcStr;

type Map<K> = VecMap<K, u32>;

// The strings of the keys, and the number at each.
const LIST: &[(&str, u32)] = &[("", 1), ("a", 2), ("aab", 3), ("ab", 4), ("b\u{e9}", 5)];

// The number and the index of a key.
type Wanted = (Option<u32>, Result<usize, usize>);

// Strings that are looked up, with the number and the index of each.
const ASKED: &[(&str, Wanted)] = &[
    ("", (Some(1), Ok(0))),
    (" ", (None, Err(1))),
    ("a", (Some(2), Ok(1))),
    ("aa", (None, Err(2))),
    ("aab", (Some(3), Ok(2))),
    ("aabc", (None, Err(3))),
    ("b\u{e9}", (Some(5), Ok(4))),
    ("c", (None, Err(5))),
];

// Whether each lookup by the query finds this number and this index.
fn is_found<K: Ord, Q: Query<K>>(map: &Map<K>, query: Q, (number, index): Wanted) -> bool {
    map.contains_key(query) == number.is_some()
        && map.get(query).copied() == number
        && map.get_counted(query, &mut Count::new()).copied() == number
        && map.find_index(query) == index
        && map.find_index_counted(query, &mut Count::new()) == index
}

// Whether the number at a key is written and removed by what stands for it.
fn is_taken<K: Ord + Drop, Q: Query<K>>(map: &mut Map<K>, query: Q, number: Option<u32>) -> bool {
    if let Some(slot) = map.get_mut(query) {
        *slot = slot.wrapping_add(100);
    }
    let Some(taken) = map.remove(query) else {
        return number.is_none();
    };
    number == Some(taken.wrapping_sub(100))
}

// Whether a key is found by what stands for it and by itself, and is removed; then it is inserted again.
fn is_asked<K: Ord + Drop, Q: Query<K>>(map: &mut Map<K>, key: K, by: Q, row: Wanted) -> Outcome {
    let is_right = is_found(map, by, row) && is_found(map, &key, row) && is_taken(map, by, row.0);
    if let Some(number) = row.0 {
        map.insert(key, number)?;
    }
    Ok(is_right)
}

// A map of the list, with the keys that are made of the strings.
fn map_of_list<'t, K, F>(alloc: Global, key_of: &F) -> Result<Map<K>, AllocError>
where
    K: Ord + Drop,
    F: Fn(&'t str) -> Result<K, AllocError>,
    requires { (text : _) → F.Fn.pre key_of.now (text, tt) }
{
    let mut map = LiteMap::new_vec(alloc);
    let list: &[(&'t str, u32)] = LIST;
    for (text, number) in list {
        let key = key_of(*text)?;
        map.insert(key, *number)?;
    }
    Ok(map)
}

// Whether each string is looked up right in a map of the list, by what stands for its key and by the key.
fn are_asked<'t, K, Q, F, G>(alloc: Global, key_of: F, query_of: &G) -> Outcome
where
    K: Ord + Drop,
    Q: Query<K>,
    F: Fn(&'t str) -> Result<K, AllocError> + Drop,
    G: Fn(&'t str) -> Q,
    requires key { (text : _) → F.Fn.pre key_of (text, tt) }
    requires query { (text : _) → G.Fn.pre query_of.now (text, tt) }
{
    let mut map = map_of_list(alloc, &key_of)?;
    let mut is_right = true;
    let asked: &[(&'t str, Wanted)] = ASKED;
    for (text, wanted) in asked {
        let key = key_of(*text)?;
        is_right &= is_asked(&mut map, key, query_of(*text), *wanted)?;
    }
    Ok(is_right)
}

pub(crate) fn keys_are_asked_by_texts(alloc: Global) -> Outcome {
    all_right(&[
        are_asked(alloc, |text| text.to_string(alloc), &identity),
        are_asked(alloc, |text| Ok(text), &identity),
        are_asked(alloc, |text| BoxedStr::from_str(alloc, text), &identity),
        are_asked(
            alloc,
            |text| Ok::<CowStr, AllocError>(CowStr::Borrowed(text)),
            &identity,
        ),
        are_asked(alloc, |text| RcStr::from_str(alloc, text), &identity),
        are_asked(alloc, |text| ArcStr::from_str(alloc, text), &identity),
    ])
}

pub(crate) fn keys_are_asked_by_slices(alloc: Global) -> Outcome {
    let boxed = |text: &str| BoxedSlice::from_slice(alloc, text.as_bytes());
    all_right(&[
        are_asked(alloc, |text| text.as_bytes().to_vec(alloc), &str::as_bytes),
        are_asked(alloc, |text| Ok(text.as_bytes()), &str::as_bytes),
        are_asked(alloc, boxed, &str::as_bytes),
    ])
}

// Languages by their codes.
const NAMES: &[(&str, &str)] = &[
    ("", "none"),
    ("af", "Afrikaans"),
    ("am", "Amharic"),
    ("ar", "Arabic"),
    ("be", "Belarusian"),
    ("bg", "Bulgarian"),
    ("bn", "Bangla"),
    ("de", "German"),
    ("de-AT", "Austrian German"),
    ("de-CH", "Swiss High German"),
    ("el", "Greek"),
    ("en", "English"),
    ("en-GB", "British English"),
    ("es", "Spanish"),
    ("fa", "Persian"),
    ("fi", "Finnish"),
    ("fr", "French"),
    ("\u{e9}", "no code"),
    ("\u{4e2d}", "no code"),
];

// Whether each name is found in its bytes, and where those begin whose names begin with it.
fn are_found<'a, N: Names<'a>>(names: &N) -> bool {
    let mut is_right = names.len() == NAMES.len();
    for (index, (name, value)) in NAMES.iter().enumerate() {
        is_right &= names.get(name) == Some(*value)
            && names.find_index(name) == Ok(index)
            && names.prefix_range(name).start == index;
    }
    is_right
}

pub(crate) fn names_are_asked_in_their_bytes(alloc: Global) -> Outcome {
    let map: NameMap<'_> = LiteMap::from_iter(alloc, NAMES.iter().copied())?;
    let (table, index) = (write_names(alloc, &map), write_index(alloc, map.as_slice()));
    let (Ok(table), Ok(index)) = (table, index) else {
        return Ok(false);
    };
    let table = NameIndex::new(alloc, table.as_slice());
    let index = IndexedNames::open(index.as_slice());
    let (Ok(table), Ok(index)) = (table, index) else {
        return Ok(false);
    };
    Ok(are_found(&table) && are_found(&index))
}
