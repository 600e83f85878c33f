//! Calls that change a map.
ghost use Rattle.std.specs.Iterator.{at_most};

use crate::sizes::made::Made;
use crate::sizes::{looks, sums};
use litemap::store::{KeepsMemory, Store, StoreBulkMut, StoreFromIterable, StoreIntoIterator};
use litemap::{Entry, LiteMap};
use std::alloc::{AllocError, Global};
use std::vec::IntoIter;

/// The call of a line.
#[derive(Clone, Copy)]
pub struct Call<'w> {
    /// Where memory comes from.
    pub alloc: Global,
    /// Its name.
    pub name: &'w str,
    /// How many pairs the map has.
    pub len: u32,
    /// The first key that is given.
    pub first: u32,
    /// How many are given.
    pub count: u32,
    /// How far each is above the one before it.
    pub step: u32,
}

/// The pairs that a call is given.
pub type Given<K, V> = Vec<(K, V)>;

/// What a call tells.
pub type Number = Result<u64, AllocError>;

// The key before those of a map, which are the even ones after it.
const BEFORE: u32 = 10_000;

/// Inserts the keys of the map, each with its number as its value.
pub fn fill<K: Made, V: Made, S: StoreBulkMut<K, V, Alloc = Global>>(
    call: &Call<'_>,
    map: &mut LiteMap<K, V, S>,
) -> Result<(), AllocError> {
    for place in 0..call.len {
        let number = place.wrapping_mul(2).wrapping_add(BEFORE + 2);
        map.insert(K::of(call.alloc, number)?, V::of(call.alloc, number)?)?;
    }
    Ok(())
}

/// The pairs that are given.
pub fn given<K: Made, V: Made>(call: &Call<'_>) -> Result<Given<K, V>, AllocError> {
    let mut given = Vec::with_capacity(call.alloc, call.count as usize)?;
    for place in 0..call.count {
        let number = call.first.wrapping_add(place.wrapping_mul(call.step));
        given.push((
            K::of(call.alloc, number)?,
            V::of(call.alloc, number.wrapping_add(1))?,
        ))?;
    }
    Ok(given)
}

/// Merges the map of the given pairs in: how many are left.
pub fn merge<K: Made, V: Made, S: StoreBulkMut<K, V, Alloc = Global> + StoreIntoIterator<K, V>>(
    call: &Call<'_>,
    map: &mut LiteMap<K, V, S>,
    given: Given<K, V>,
) -> Number {
    let other: LiteMap<K, V, S> = LiteMap::from_vec(call.alloc, given)?;
    let left = if call.name == "extend_with" {
        map.extend_with(call.alloc, other, |_, _, _| {})?
    } else {
        map.extend_from_litemap(call.alloc, other)?
    };
    Ok(left.map_or(0, |left| sums::of_map(&left)))
}

/// The given pairs become the map.
pub fn renew<K, V, S>(call: &Call<'_>, map: &mut LiteMap<K, V, S>, given: Given<K, V>) -> Number
where
    K: Made,
    V: Made,
    S: StoreBulkMut<K, V, Alloc = Global> + StoreFromIterable<K, V>,
{
    *map = match call.name {
        "from_vec" => LiteMap::from_vec(call.alloc, given)?,
        _ => LiteMap::from_iter(call.alloc, with_promise(call, given))?,
    };
    Ok(0)
}

/// Extends the map by the given pairs.
pub fn extend<K: Made, V: Made, S: StoreBulkMut<K, V, Alloc = Global>>(
    call: &Call<'_>,
    map: &mut LiteMap<K, V, S>,
    given: Given<K, V>,
) -> Number {
    match call.name {
        "extend_from_vec" => map.extend_from_vec(call.alloc, given)?,
        _ => map.extend(call.alloc, with_promise(call, given))?,
    }
    Ok(0)
}

/// Splits the map at the first given key: what goes.
pub fn split<K: Made, V: Made, S: StoreBulkMut<K, V, Alloc = Global>>(
    call: &Call<'_>,
    map: &mut LiteMap<K, V, S>,
    given: Given<K, V>,
) -> Number {
    match given.as_slice().first() {
        Some((key, _)) => Ok(sums::of_map(&map.split_off(call.alloc, key)?)),
        None => Ok(0),
    }
}

/// Renames the first given key to the second one: whether it was there.
pub fn rename<K: Made, V: Made, S: StoreBulkMut<K, V, Alloc = Global> + KeepsMemory<K, V>>(
    map: &mut LiteMap<K, V, S>,
    given: Given<K, V>,
) -> Number {
    let mut keys = given.into_iter();
    let Some((key, _)) = keys.next() else {
        return Ok(0);
    };
    match keys.next() {
        Some((new_key, _)) => Ok(u64::from(map.rename(&key, new_key))),
        None => Ok(0),
    }
}

/// Keeps the keys below the first number of the call.
pub fn retain<K: Made, V: Made, S: StoreBulkMut<K, V, Alloc = Global>>(
    call: &Call<'_>,
    map: &mut LiteMap<K, V, S>,
) -> Number {
    map.retain(|key, _| key.number() < call.first as u64);
    Ok(0)
}

/// Reserves room for as many pairs as the first number of the call says.
pub fn reserve<K: Made, V: Made, S: StoreBulkMut<K, V, Alloc = Global>>(
    call: &Call<'_>,
    map: &mut LiteMap<K, V, S>,
) -> Number {
    map.reserve(call.first as usize)?;
    Ok(0)
}

/// A call of each of the given pairs: the sum of what they tell, which is 1 for a pair that is placed or removed.
pub fn each<K, V, S>(call: &Call<'_>, map: &mut LiteMap<K, V, S>, given: Given<K, V>) -> Number
where
    K: Made,
    V: Made,
    S: StoreBulkMut<K, V, Alloc = Global>,
{
    let mut sum = 0u64;
    for (key, value) in given {
        sum = sum.wrapping_add(of_pair(call, map, key, value)?);
    }
    Ok(sum)
}

// A call of one pair.
fn of_pair<K: Made, V: Made, S: StoreBulkMut<K, V, Alloc = Global>>(
    call: &Call<'_>,
    map: &mut LiteMap<K, V, S>,
    key: K,
    value: V,
) -> Number {
    match call.name {
        "insert" => Ok(u64::from(map.insert(key, value)?.is_none())),
        "try_append" => Ok(u64::from(map.try_append(key, value)?.is_none())),
        "remove" => Ok(u64::from(map.remove(&key).is_some())),
        "entry" | "entry_get" | "entry_remove" => at_entry(call, map, key, value),
        _ => Ok(looks::look(call.name, map, &key) as u64),
    }
}

// A call of the entry of a key.
fn at_entry<K: Made, V: Made, S: StoreBulkMut<K, V, Alloc = Global>>(
    call: &Call<'_>,
    map: &mut LiteMap<K, V, S>,
    key: K,
    value: V,
) -> Number {
    match (map.entry(key), call.name) {
        (Entry::Occupied(entry), "entry_get") => Ok(entry.get().number()),
        (Entry::Occupied(entry), "entry_remove") => {
            let _ = entry.remove();
            Ok(1)
        }
        (Entry::Vacant(entry), "entry") => {
            entry.insert(value)?;
            Ok(1)
        }
        _ => Ok(0),
    }
}

// The given pairs, with a promise of as many as there are, or as the call says.
fn with_promise<K: Drop, V: Drop>(call: &Call<'_>, given: Given<K, V>) -> Promised<K, V> {
    let promised = match call.name {
        "from_promised" | "promised" => call.step,
        _ => call.count,
    };
    Promised {
        rest: given.into_iter(),
        promised: promised as usize,
    }
}

// Gives pairs, at most as many as it promises.
#[derive(Drop)]
struct Promised<K, V> {
    rest: IntoIter<(K, V)>,
    promised: usize,
}

impl<K: Drop, V: Drop> Iterator for Promised<K, V> {
    type Item = (K, V);

    ghost remaining = { λ s. at_most s.promised };

    fn next(&mut self) -> Option<(K, V)> {
        self.promised = self.promised.checked_sub(1)?;
        self.rest.next()
    }

    fn size_hint(&self) -> (usize, Option<usize>) {
        (self.promised, Some(self.promised))
    }
}
