//! What lookups find in a part of a map, or after a call that changes many pairs at once; and what the pairs at the ends and at
//! an index are.
ghost use Rattle.std.specs.Prelude.{◌≡◌, ◌≢◌, ◌+◌, ◌-◌, ◌<◌, ◌≤◌, if◌then◌else◌};
ghost use Rattle.litemap.specs.Words.{IfOk, IfSome, IsNone, IsSome, IsTrue, Less, None, OnOk, Some, bytes_cmp, get};
ghost use Rattle.litemap.specs.Words.{get_by_text, is_eq, nat_cmp, option_map, string_bytes, sum, values};

use crate::numbers::Ages;
use litemap::VecMap;
use std::alloc::{AllocError, Global};
use std::ops::Bound;

/// Counts by names.
pub type Counts = VecMap<String, u32>;

/// Lowers each age by one, down to 0.
pub fn lower(ages: &mut Ages)
    ensures { (id : _) → get nat_cmp ages.new id ≡ option_map (λ age. age - 1) (get nat_cmp ages.old id) }
{
    ages.update(|_, age| *age = age.saturating_sub(1));
}

/// Lowers each count by one, down to 0.
pub fn lower_counts(counts: &mut Counts)
    ensures { (name : _) → get_by_text counts.new name
        ≡ option_map (λ count. count - 1) (get_by_text counts.old name) }
{
    counts.update(|_, count| *count = count.saturating_sub(1));
}

/// Lowers each count by one, down to 0, at keys of any type.
pub fn lower_all<K: Ord>(map: &mut VecMap<K, u32>)
    ensures { (key : K) → get K.cmp map.new key ≡ option_map (λ count. count - 1) (get K.cmp map.old key) }
{
    map.update(|_, count| *count = count.saturating_sub(1));
}

/// Drops the names whose count is 0. All others stay.
pub fn drop_zeros(counts: &mut Counts)
    ensures dropped { (name : _) → get_by_text counts.old name ≡ Some 0 → get_by_text counts.new name ≡ None }
    ensures others { (name : _) → get_by_text counts.old name ≢ Some 0
        → get_by_text counts.new name ≡ get_by_text counts.old name }
{
    counts.retain(|_, count| *count != 0);
}

/// Keeps the ages below a bound.
pub fn keep_below(ages: &mut Ages, bound: u8)
    ensures { (id : _) → (age : _) → get nat_cmp ages.new id ≡ Some age → age < bound }
{
    ages.retain(move |_, age| *age < bound);
}

/// Keeps the names that the other map has too.
pub fn keep_common(counts: &mut Counts, other: &Counts)
    ensures common { (name : _) → IsSome (get_by_text other.now name)
        → get_by_text counts.new name ≡ get_by_text counts.old name }
    ensures gone { (name : _) → IsNone (get_by_text other.now name) → get_by_text counts.new name ≡ None }
{
    counts.keep_keys_of(other);
}

/// Drops the names that the other map has too.
pub fn drop_common(counts: &mut Counts, other: &Counts)
    ensures gone { (name : _) → IsSome (get_by_text other.now name) → get_by_text counts.new name ≡ None }
    ensures others { (name : _) → IsNone (get_by_text other.now name)
        → get_by_text counts.new name ≡ get_by_text counts.old name }
{
    counts.remove_keys_of(other);
}

/// Splits off the numbers from one on. The smaller ones stay.
pub fn split_from(ages: &mut Ages, alloc: Global, id: u32) -> Result<Ages, AllocError>
    ensures stays { OnOk result ((other : _) → other < id → get nat_cmp ages.new other ≡ get nat_cmp ages.old other) }
    ensures gone { OnOk result ((other : _) → id ≤ other → get nat_cmp ages.new other ≡ None) }
    ensures there { IfOk result (λ later. (other : _) → id ≤ other
        → get nat_cmp later other ≡ get nat_cmp ages.old other) }
{
    ages.split_off(alloc, &id)
}

/// Splits off the names from one on. The smaller ones stay.
pub fn split_at_name(counts: &mut Counts, alloc: Global, name: &str) -> Result<Counts, AllocError>
    ensures stays { OnOk result ((other : _) → bytes_cmp other name.now ≡ Less
        → get_by_text counts.new other ≡ get_by_text counts.old other) }
    ensures gone { OnOk result ((other : _) → bytes_cmp other name.now ≢ Less → get_by_text counts.new other ≡ None) }
{
    counts.split_off(alloc, name)
}

/// Splits off the pairs from a key on, which may be of any type. The smaller ones stay.
pub fn split_at_key<K: Ord + Drop>(
    map: &mut VecMap<K, u32>,
    alloc: Global,
    key: &K,
) -> Result<VecMap<K, u32>, AllocError>
    ensures stays { OnOk result ((other : K) → K.cmp other key.now ≡ Less
        → get K.cmp map.new other ≡ get K.cmp map.old other) }
    ensures gone { OnOk result ((other : K) → K.cmp other key.now ≢ Less → get K.cmp map.new other ≡ None) }
    ensures there { IfOk result (λ later. (other : K) → K.cmp other key.now ≢ Less
        → get K.cmp later other ≡ get K.cmp map.old other) }
{
    map.keys_ascend();
    map.split_off(alloc, key)
}

/// The count of a name, looked up among those from one to before another.
pub fn count_between(counts: &Counts, from: &str, to: &str, name: &str) -> Option<u32>
    requires above { bytes_cmp name.now from.now ≢ Less }
    requires below { bytes_cmp name.now to.now ≡ Less }
    ensures { result ≡ get_by_text counts.now name.now }
{
    counts
        .range(Bound::Included(from), Bound::Excluded(to))
        .get(name)
        .copied()
}

/// Takes the pair with the least number out. All others stay.
pub fn take_least(ages: &mut Ages) -> Option<(u32, u8)>
    ensures found { IfSome result (λ p. get nat_cmp ages.old p.0 ≡ Some p.1) }
    ensures gone { IfSome result (λ p. get nat_cmp ages.new p.0 ≡ None) }
    ensures others { IfSome result (λ p. (other : _) → other ≢ p.0
        → get nat_cmp ages.new other ≡ get nat_cmp ages.old other) }
    ensures least { IfSome result (λ p. (other : _) → IsSome (get nat_cmp ages.old other) → p.0 ≤ other) }
{
    ages.pop_first()
}

/// Takes the pair with the least name out.
pub fn take_least_name(counts: &mut Counts) -> Option<(String, u32)>
    ensures found { IfSome result (λ p. get_by_text counts.old (string_bytes p.0) ≡ Some p.1) }
    ensures gone { IfSome result (λ p. get_by_text counts.new (string_bytes p.0) ≡ None) }
{
    counts.pop_first()
}

/// The pair at an index, which a lookup of its number finds.
pub fn pair_at(ages: &Ages, index: usize) -> Option<(u32, u8)>
    ensures { IfSome result (λ p. get nat_cmp ages.now p.0 ≡ Some p.1) }
{
    ages.keys_ascend();
    let (id, age) = ages.get_indexed(index)?;
    Some((*id, *age))
}

/// The pair at an index, which a lookup of its name finds.
pub fn count_at(counts: &Counts, index: usize) -> Option<(&String, &u32)>
    ensures { IfSome result (λ p. get_by_text counts.entry.now (string_bytes p.0.now) ≡ Some p.1.now) }
{
    counts.keys_ascend();
    counts.get_indexed(index)
}

/// The pair at a number, or at the next one above it: no number is nearer.
pub fn nearest_from(ages: &Ages, id: u32) -> Option<(u32, u8)>
    ensures found { IfSome result (λ p. get nat_cmp ages.now p.0 ≡ Some p.1) }
    ensures above { IfSome result (λ p. id ≤ p.0) }
    ensures nearest { IfSome result (λ p. (other : _) → id ≤ other
        → IsSome (get nat_cmp ages.now other) → p.0 ≤ other) }
    ensures none { IsNone result → (other : _) → id ≤ other → get nat_cmp ages.now other ≡ None }
{
    let part = ages.range(Bound::Included(&id), Bound::Unbounded);
    let (id, age) = part.first()?;
    Some((*id, *age))
}

/// The first pair from one key on and before another: a lookup of its key finds it.
pub fn first_between<K: Ord + Copy>(map: &VecMap<K, u32>, from: K, to: K) -> Option<(K, u32)>
    ensures found { IfSome result (λ p. get K.cmp map.now p.0 ≡ Some p.1) }
    ensures from { IfSome result (λ p. K.cmp p.0 from ≢ Less) }
    ensures before { IfSome result (λ p. K.cmp p.0 to ≡ Less) }
    ensures none { IsNone result → (other : K) → K.cmp other from ≢ Less → K.cmp other to ≡ Less
        → get K.cmp map.now other ≡ None }
{
    let part = map.range_in(from..to);
    let (key, count) = part.first()?;
    Some((*key, *count))
}

/// A key with this count, or `None` if there is none.
pub fn key_with<K: Ord + Copy>(map: &VecMap<K, u32>, count: u32) -> Option<K>
    ensures found { IfSome result (λ key. get K.cmp map.now key ≡ Some count) }
    ensures none { IsNone result → (key : K) → get K.cmp map.now key ≢ Some count }
{
    map.iter().find(|p| *p.1 == count).map(|p| *p.0)
}

/// Sets a count, and says in one equation what all names find then.
pub fn set_count(counts: &mut Counts, name: String, count: u32) -> Result<(), AllocError>
    ensures { OnOk result ((other : _) → get_by_text counts.new other
        ≡ if is_eq (bytes_cmp other (string_bytes name)) then Some count else get_by_text counts.old other) }
{
    counts.insert(name, count)?;
    Ok(())
}

/// Raises an age by one, from 0 if there is none, and returns whether it could be: then the sum of all is greater by one.
pub fn celebrate(ages: &mut Ages, id: u32) -> Result<bool, AllocError>
    ensures { IfOk result (λ raised. IsTrue raised → sum (values ages.new) ≡ sum (values ages.old) + 1) }
{
    let age = ages.get(&id).copied().unwrap_or(0);
    let Some(more) = age.checked_add(1) else {
        return Ok(false);
    };
    ages.insert(id, more)?;
    Ok(true)
}
