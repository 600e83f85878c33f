//! Maps beside that of the line: of small pairs, and sets, that grow or are extended, and of vectors as keys.
use crate::answer::{Answer, Pairs};
use crate::call::{Call, Made};
use crate::counted::Order;
use litemap::LiteMap;
use litemap::store::StoreBulkMut;
use std::alloc::Global;

/// Inserts so many keys into an empty map, or extends a full one by so many, if the name is one of these: over a store of small
/// pairs, and over one of a set.
pub fn grow<S: StoreBulkMut<u32, u32, Alloc = Global>, T: StoreBulkMut<u32, (), Alloc = Global>>(
    call: &Call<'_>,
    to: &mut Answer,
) -> Made {
    match call.name {
        "grow_small" => grow_over::<u32, S>(call, to),
        "grow_set" => grow_over::<(), T>(call, to),
        "extend_small" => extend_over::<u32, S>(call, to),
        "extend_set" => extend_over::<(), T>(call, to),
        _ => None,
    }
}

/// Looks a slice of one key up among so many vectors of one key each, of the keys with which a line begins.
pub fn find_by_slice(call: &Call<'_>, to: &mut Answer) -> Made {
    if call.name != "find_by_slice" {
        return None;
    }
    let (sought, mut map) = ([call.key(0)?], LiteMap::new_vec(call.alloc));
    for place in 1..call.number(1)?.saturating_add(1) {
        let (key, _) = call.pair_at(place).ok()?;
        let mut keys = Vec::new(call.alloc);
        keys.push(key).ok()?;
        map.insert(keys, place).ok()?;
    }
    call.begin();
    to.index(map.find_index(sought.as_slice()));
    Some(())
}

// A value of a small pair.
trait Small {
    // That of a key.
    fn of(key: u32) -> Self;

    // What is written of it.
    fn number(&self) -> u64;
}

impl Small for u32 {
    fn of(key: u32) -> Self {
        key
    }

    fn number(&self) -> u64 {
        *self as u64
    }
}

impl Small for () {
    fn of(_key: u32) -> Self {}

    fn number(&self) -> u64 {
        0
    }
}

// The keys are what the multiples of the second number leave by a prime: with one less than that, each comes in front.
fn grow_over<V: Small + Drop, S: StoreBulkMut<u32, V, Alloc = Global>>(
    call: &Call<'_>,
    to: &mut Answer,
) -> Made {
    let (count, step) = (call.number(0)?, call.number(1)?);
    let mut map: LiteMap<u32, V, S> = LiteMap::with_capacity(call.alloc, 0).ok()?;
    call.begin();
    // How many keys were inserted, if one of them had no room.
    let inserted = (0..count).find(|place| {
        let key = multiple(*place, step);
        map.insert(key, V::of(key)).is_err()
    });
    call.end();
    match inserted {
        None => to.show(pairs_of(&map)),
        Some(len) if map.len() as u64 == len => to.word("refused"),
        Some(_) => to.word("lost"),
    }
    Some(())
}

fn pairs_of<V: Small + Drop, S: StoreBulkMut<u32, V, Alloc = Global>>(
    map: &LiteMap<u32, V, S>,
) -> Pairs {
    let mut pairs = Pairs::default();
    for index in 0..map.len() {
        if let Some((key, value)) = map.get_indexed(index) {
            pairs.add_codes(Order::Number, *key as u64, value.number());
        }
    }
    pairs
}

// Extends a map of so many multiples of two, which has no more room, by the vector of as many other keys as the second number
// says, which are multiples of the third one as in `grow_over`.
fn extend_over<V: Small + Drop, S: StoreBulkMut<u32, V, Alloc = Global>>(
    call: &Call<'_>,
    to: &mut Answer,
) -> Made {
    call.end();
    let (len, count, step) = (call.number(0)?, call.number(1)?, call.number(2)?);
    let old = multiples(call, len, 2)?;
    let mut map: LiteMap<u32, V, S> = LiteMap::from_vec(call.alloc, old).ok()?;
    let (before, given) = (pairs_of(&map), multiples(call, count, step)?);
    let sum = sum_of::<V>(given.as_slice());
    call.begin();
    let extended = map.extend_from_vec(call.alloc, given);
    call.end();
    let after = pairs_of(&map);
    match extended {
        Ok(()) => to.show(after),
        Err(refused) if after.is_same(&before) && sum_of(refused.back.as_slice()) == sum => {
            to.word("refused");
        }
        Err(_) => to.word("lost"),
    }
    Some(())
}

fn multiples<V: Small + Drop>(call: &Call<'_>, count: u64, step: u64) -> Option<Vec<(u32, V)>> {
    let mut pairs = Vec::with_capacity(call.alloc, count as usize).ok()?;
    for place in 0..count {
        let key = multiple(place, step);
        pairs.push((key, V::of(key))).ok()?;
    }
    Some(pairs)
}

fn multiple(place: u64, step: u64) -> u32 {
    (place.wrapping_add(1).wrapping_mul(step) % 10_007) as u32
}

// The sum of keys, which tells whether all came back, in whichever order.
fn sum_of<V>(pairs: &[(u32, V)]) -> u64 {
    let mut sum = 0u64;
    for (key, _) in pairs {
        sum = sum.wrapping_add(*key as u64).wrapping_add(1 << 32);
    }
    sum
}
