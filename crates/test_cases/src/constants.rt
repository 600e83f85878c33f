//! Tables in constants: maps over a slice, looked up by each type of key that the calls `const_..` take.
ghost use Rattle.std.specs.Prelude.{◌≡◌};
ghost use Rattle.litemap_store.specs.Pairs.{Rising};

use crate::Outcome;
use litemap::store::SliceStore;
use litemap::{LiteMap, SliceMap};
use std::alloc::Global;

type Table<'a, K, V> = SliceMap<'a, K, V>;

const TWO: &[(&str, u32)] = &[("a", 11), ("b", 22)];

const FIVE: &[(&str, u32)] = &[
    ("abc", 11),
    ("bcd", 22),
    ("cde", 33),
    ("def", 44),
    ("efg", 55),
];

const BYTES: &[(&[u8], u32)] = &[(b"a", 1), (b"aa", 2)];

// The map over a slice whose keys ascend.
fn table<K: Ord, V>(pairs: &[(K, V)]) -> Table<'_, K, V>
    requires { Rising K.cmp pairs.now }
    ensures { result.entries ≡ pairs.now }
{
    LiteMap::from_sorted_store_unchecked(SliceStore::new(pairs))
}

// Whether the first of two look-ups found the second pair, with 2, and the other one none.
fn finds_second(found: [Option<(usize, &u8)>; 2]) -> bool {
    found == [Some((1, &2)), None]
}

// Whether, for each of these types, a map with 7 and the greatest number finds that at its index, and not the number after 7.
macro_rules! find_ends {
    ($($number:ty)+) => {
        [$({
            let map: Table<$number, u8> = table(&[(7, 1), (<$number>::MAX, 2)]);
            finds_second([map.const_get_with_index(<$number>::MAX), map.const_get_with_index(8)])
        }),+]
    };
}

pub(crate) fn numbers_of_each_type_are_found(_: Global) -> Outcome {
    let none: Table<u8, u8> = table(&[]);
    // An empty table has no pair.
    let is_none = none.const_len() == 0
        && none.const_is_empty()
        && none.const_get_with_index(0).is_none();
    let ends = find_ends!(u8 u16 u32 u64 u128 usize i8 i16 i32 i64 i128 isize);
    Ok(is_none && ends == [true; 12])
}

// The least and the greatest number of a type are found, and one between them is not.
pub(crate) fn both_ends_of_a_type_are_found(_: Global) -> Outcome {
    let map: Table<i8, u8> = table(&[(-128, 1), (0, 2), (127, 3)]);
    Ok(
        map.const_get_with_index(127) == Some((2, &3))
            && map.const_get_with_index(1).is_none()
            && map.const_get_with_index(-128) == Some((0, &1)),
    )
}

pub(crate) fn strings_and_bytes_are_found(_: Global) -> Outcome {
    // A table of two strings shows its length and its first pair.
    let two = LiteMap::from_sorted_store_unchecked(SliceStore::new(TWO));
    let shows = two.const_len() == 2 && *two.const_get_indexed_or_panic(0) == ("a", 11);
    // Of five strings the fourth is found, and one between the fourth and the fifth is not.
    let five = LiteMap::from_sorted_store_unchecked(SliceStore::new(FIVE));
    let finds_fourth = five.const_get_with_index("def") == Some((3, &44))
        && five.const_get_with_index("dng").is_none();
    // Of two keys of bytes the second, which begins with the first, is found, and a third one is not.
    let bytes = LiteMap::from_sorted_store_unchecked(SliceStore::new(BYTES));
    let finds_second = bytes.const_get_with_index(b"aa") == Some((1, &2))
        && bytes.const_get_with_index(b"ab").is_none();
    Ok(shows && finds_fourth && finds_second)
}

// Whether the keys of a slice ascend, each is found at its index, and a greater one isn't found: of strings, and of their bytes.
macro_rules! are_found {
    ($pairs:expr, $absent:expr) => {{
        let store = SliceStore::new($pairs);
        if !LiteMap::is_sorted_store(&store) {
            return false;
        }
        let map = LiteMap::from_sorted_store_unchecked(store);
        let mut is_right = map.const_get_with_index($absent).is_none();
        for (place, (key, value)) in $pairs.iter().enumerate() {
            is_right &= map.const_get_with_index(key) == Some((place, value));
        }
        is_right
    }};
}

fn finds_texts(pairs: &[(&str, u8)]) -> bool {
    are_found!(pairs, "zz")
}

fn finds_bytes(pairs: &[(&[u8], u8)]) -> bool {
    are_found!(pairs, b"zz")
}

// Each string is compared with each other one, and so are their bytes.
//
// A search looks at the middle one of three keys first, and at the second of two: so each of two is compared with the other.
pub(crate) fn texts_and_bytes_are_compared_with_one_another(_: Global) -> Outcome {
    let rising = ["", "a", "aa", "abc", "abde", "bcd", "bcde", "\u{10FFFF}"];
    let mut is_right = true;
    for (i, a) in rising.iter().enumerate() {
        for (j, b) in rising.iter().enumerate() {
            let (first, second) = (a.as_bytes(), b.as_bytes());
            let found = [
                finds_texts(&[(a, 1), (b, 2)]),
                finds_texts(&[(a, 1), (b, 2), ("\u{10FFFF}z", 3)]),
                finds_bytes(&[(first, 1), (second, 2)]),
                finds_bytes(&[(first, 1), (second, 2), (b"\xff", 3)]),
            ];
            is_right &= found == [i < j; 4];
        }
    }
    Ok(is_right)
}
