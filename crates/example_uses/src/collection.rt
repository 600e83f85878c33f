//! A map as any collection of the kit: in a struct that derives `Clone`, collected, indexed, changed in a loop that ends at an
//! error, by index, and in a range of numbers; and a set of numbers. Nothing here has an attribute or a proof file.
ghost use Rattle.std.specs.Prelude.{◌≡◌, ◌*◌, not, remove, true};
ghost use Rattle.litemap.specs.Words.{Excluded, IfOk, Included, IsEmpty, IsSome, Last, OnErr, OnOk, PairsBecame, Some};
ghost use Rattle.litemap.specs.Words.{get_by_text, keys, length, nat_cmp, slice_get, string_bytes, within};
ghost use Rattle.litemap.specs.Written.{Relates};
ghost use Rattle.litemap_set.specs.Sets.{contains};

use litemap::VecMap;
use litemap_columns::ColumnMap;
use litemap_set::VecSet;
use std::alloc::{AllocError, Global};
use std::mem;

/// Limits by their names, and for how many days they hold.
#[derive(Clone, Drop)]
pub struct Config {
    pub limits: VecMap<String, u32>,
    pub days: u32,
}

/// A limit has no double.
#[derive(Debug, Drop)]
pub struct TooLarge;

/// A copy of a configuration: its names have the same bytes, and its limits are the same.
pub fn copied(config: &Config) -> Result<Config, AllocError>
    ensures days { IfOk result (λ c. c.days ≡ config.now.days) }
    ensures limits { IfOk result (λ c. PairsBecame (λ a b. string_bytes b ≡ string_bytes a) (λ (x : _) y. y ≡ x)
        config.now.limits.entries c.limits.entries) }
{
    config.clone()
}

/// Takes all limits out of a configuration.
pub fn taken(config: &mut Config) -> Result<VecMap<String, u32>, AllocError>
    ensures all { IfOk result (λ limits. limits ≡ config.old.limits) }
    ensures empty { OnOk result (IsEmpty config.new.limits) }
{
    mem::try_take(&mut config.limits)
}

/// The limit at a name that is there.
pub fn limit_of(limits: &VecMap<String, u32>, name: &str) -> u32
    requires { IsSome (get_by_text limits.now name.now) }
    ensures { Some result ≡ get_by_text limits.now name.now }
{
    limits[name]
}

/// Doubles limits up to the first one that has no double.
pub fn double_all(limits: &mut VecMap<String, u32>) -> Result<(), TooLarge>
    ensures keys { keys limits.new ≡ keys limits.old }
    ensures doubled { (name : _) → OnOk result (Relates (λ limit double. double ≡ limit * 2)
        (get_by_text limits.old name) (get_by_text limits.new name)) }
{
    limits.try_update(|_, limit| match limit.checked_mul(2) {
        Some(double) => {
            *limit = double;
            Ok(())
        }
        None => Err(TooLarge),
    })
}

/// Removes the limit at an index.
pub fn take_line(limits: &mut VecMap<String, u32>, index: usize) -> Option<(String, u32)>
    ensures pair { result ≡ slice_get limits.old.entries index }
    ensures others { limits.new.entries ≡ remove limits.old.entries index }
{
    limits.remove_indexed(index)
}

/// A map of the last pair of each number.
pub fn gathered(alloc: Global, pairs: Vec<(u32, u32)>) -> Result<VecMap<u32, u32>, AllocError>
    ensures { IfOk result (λ map. Last nat_cmp pairs.items map.entries) }
{
    pairs.into_iter().collect(alloc)
}

/// How many numbers from 3 to 6 there are.
pub fn number_within(map: &VecMap<u32, u32>) -> usize
    ensures { result ≡ length (within nat_cmp map.now.entries (Included 3) (Excluded 7)) }
{
    map.range_in(3..7).len()
}

/// Lowers all values up to the first one that is 0. The keys stay.
pub fn cap(map: &mut ColumnMap<u32, u32>, most: u32)
    ensures { keys map.new ≡ keys map.old }
{
    for (_, value) in map {
        if *value == 0 {
            break;
        }
        *value = most.min(*value);
    }
}

/// Notes a day, and returns whether it is new. All that were noted stay.
pub fn note(days: &mut VecSet<u32>, day: u32) -> Result<bool, AllocError>
    ensures new { IfOk result (λ is_new. is_new ≡ not (contains nat_cmp days.old.keys day)) }
    ensures noted { OnOk result (contains nat_cmp days.new.keys day ≡ true) }
    ensures unchanged { OnErr result (days.new.keys ≡ days.old.keys) }
{
    Ok(days.insert(day)?)
}
