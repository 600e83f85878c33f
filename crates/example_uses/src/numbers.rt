//! Numbers as keys, and keys of any type. What lookups find after a change, the calls themselves say.
ghost use Rattle.std.specs.Prelude.{◌≡◌, ◌≢◌, ◌+◌, ◌-◌, ◌<◌, ◌≤◌};
ghost use Rattle.std.specs.IoError.{error_kind};
ghost use Rattle.std.specs.declared.io.ErrorKind.TheVariants.{OutOfMemory};
ghost use Rattle.litemap.specs.Words.{Equal, IfErr, IfSome, Included, IsTrue, IsUnchanged, None, Ok, OnErr, OnOk, Some};
ghost use Rattle.litemap.specs.Words.{Unbounded, btree_map_len, deref_pair, get, index_of, int_cmp, is_some, length};
ghost use Rattle.litemap.specs.Words.{nat_cmp, option_map, place, slice_get, value_in, within};

use litemap::store::StoreMut;
use litemap::{LiteMap, VecMap};
use std::alloc::AllocError;
use std::io;
use std::ops::Bound;

/// Ages by numbers of people.
pub type Ages = VecMap<u32, u8>;

/// Readings by signed times.
pub type Readings = VecMap<i64, u8>;

/// Sets an age, which is then found, at the index where it belongs. All others stay. Its error is an `io::Error`, as
/// that of a function which reads input, too.
pub fn set_age(ages: &mut Ages, id: u32, age: u8) -> io::Result<()>
    ensures there { OnOk result (get nat_cmp ages.new id ≡ Some age) }
    ensures place { OnOk result (index_of nat_cmp ages.new.entries id ≡ Ok (place nat_cmp ages.old.entries id)) }
    ensures others { OnOk result ((other : _) → other ≢ id
        → get nat_cmp ages.new other ≡ get nat_cmp ages.old other) }
    ensures unchanged { OnErr result (IsUnchanged ages.old ages.new) }
    ensures memory { IfErr result (λ fault. error_kind fault ≡ OutOfMemory) }
{
    ages.insert(id, age)?;
    Ok(())
}

/// Forgets someone, and returns the age that was there. All others stay.
pub fn forget(ages: &mut Ages, id: u32) -> Option<u8>
    ensures value { result ≡ get nat_cmp ages.old id }
    ensures gone { get nat_cmp ages.new id ≡ None }
    ensures others { (other : _) → other ≢ id → get nat_cmp ages.new other ≡ get nat_cmp ages.old other }
{
    ages.remove(&id)
}

/// Writes an age if someone has the number. All others stay.
pub fn correct(ages: &mut Ages, id: u32, age: u8) -> bool
    ensures there { result ≡ is_some (get nat_cmp ages.old id) }
    ensures set { IsTrue result → get nat_cmp ages.new id ≡ Some age }
    ensures others { (other : _) → other ≢ id → get nat_cmp ages.new other ≡ get nat_cmp ages.old other }
{
    match ages.get_mut(&id) {
        Some(slot) => {
            *slot = age;
            true
        }
        None => false,
    }
}

/// Writes the age at an index. All others stay: those at other indices, and those of other numbers.
pub fn correct_at(ages: &mut Ages, index: usize, age: u8)
    ensures places { (other : _) → other ≢ index → value_in ages.new.entries other ≡ value_in ages.old.entries other }
    ensures others { (other : _) → IfSome (slice_get ages.old.entries index) (λ p. p.0 ≢ other)
        → get nat_cmp ages.new other ≡ get nat_cmp ages.old other }
{
    if let Some(slot) = ages.get_indexed_mut(index) {
        *slot = age;
    }
}

/// Drops those with smaller numbers, and returns how many they were. All others stay.
pub fn drop_below(ages: &mut Ages, id: u32) -> usize
    ensures dropped { (other : _) → other < id → get nat_cmp ages.new other ≡ None }
    ensures others { (other : _) → id ≤ other → get nat_cmp ages.new other ≡ get nat_cmp ages.old other }
    ensures number { btree_map_len ages.new + result ≡ btree_map_len ages.old }
{
    let before = ages.len();
    ages.retain(|number, _| *number >= id);
    before - ages.len()
}

/// The pair at a number, or at the next one below it.
pub fn floor(ages: &Ages, id: u32) -> Option<(&u32, &u8)>
    ensures { option_map deref_pair result ≡ slice_get (within nat_cmp ages.entry.now.entries Unbounded (Included id))
        (length (within nat_cmp ages.entry.now.entries Unbounded (Included id)) - 1) }
{
    ages.iter_range(Bound::Unbounded, Bound::Included(&id))
        .next_back()
}

/// The pair at a number, or at the next one above it.
pub fn ceiling(ages: &Ages, id: u32) -> Option<(&u32, &u8)>
    ensures { option_map deref_pair result ≡ slice_get (within nat_cmp ages.entry.now.entries (Included id) Unbounded) 0 }
{
    ages.iter_range(Bound::Included(&id), Bound::Unbounded)
        .next()
}

/// Sets a reading, which is then found. All others stay.
pub fn set_reading(readings: &mut Readings, time: i64, level: u8) -> Result<(), AllocError>
    ensures there { OnOk result (get int_cmp readings.new time ≡ Some level) }
    ensures others { OnOk result ((other : _) → other ≢ time
        → get int_cmp readings.new other ≡ get int_cmp readings.old other) }
{
    readings.insert(time, level)?;
    Ok(())
}

/// Takes a pair out, over every map. All others stay.
pub fn take<K: Ord + Drop, V, S: StoreMut<K, V>>(map: &mut LiteMap<K, V, S>, key: &K) -> Option<V>
    ensures gone { get K.cmp map.new key.now ≡ None }
    ensures others { (other : _) → K.cmp other key.now ≢ Equal → get K.cmp map.new other ≡ get K.cmp map.old other }
{
    map.remove(key)
}

/// Writes a value if its key is there, over every map. All others stay.
pub fn overwrite<K: Ord, V: Drop, S: StoreMut<K, V>>(map: &mut LiteMap<K, V, S>, key: &K, value: V)
    ensures others { (other : _) → K.cmp other key.now ≢ Equal → get K.cmp map.new other ≡ get K.cmp map.old other }
{
    if let Some(slot) = map.get_mut(key) {
        *slot = value;
    }
}
