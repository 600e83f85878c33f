//! A calendar: a map whose keys are tuples.
ghost use Rattle.std.specs.Prelude.{◌≡◌, ◌≢◌, ◌<◌, ◌==◌, ◌&&◌};
ghost use Rattle.litemap.specs.Words.{Less, None, filter, get};

use litemap::{SliceMap, VecMap};
use std::ops::Bound;

/// A year, a month and a day.
pub type Date = (u16, u8, u8);

/// What is on at dates.
pub type Calendar = VecMap<Date, String>;

/// The days of a month.
pub fn month(calendar: &Calendar, year: u16, month: u8) -> SliceMap<'_, Date, String>
    requires { month < u8.MAX }
    ensures { result.entries ≡ filter (λ p. (p.0.0 == year) && (p.0.1 == month)) calendar.entry.now.entries }
{
    calendar.range(
        Bound::Included(&(year, month, 0)),
        Bound::Excluded(&(year, month + 1, 0)),
    )
}

/// Drops those before a date. All others stay.
pub fn drop_before(calendar: &mut Calendar, date: &Date)
    ensures dropped { (other : _) → ⟦<Date as Ord>⟧.cmp other date.now ≡ Less
        → get ⟦<Date as Ord>⟧.cmp calendar.new other ≡ None }
    ensures others { (other : _) → ⟦<Date as Ord>⟧.cmp other date.now ≢ Less
        → get ⟦<Date as Ord>⟧.cmp calendar.new other ≡ get ⟦<Date as Ord>⟧.cmp calendar.old other }
{
    drop_less(calendar, date);
}

/// Drops the pairs with smaller keys. All others stay.
pub fn drop_less<K: Ord + Drop, V: Drop>(map: &mut VecMap<K, V>, key: &K)
    ensures dropped { (other : _) → K.cmp other key.now ≡ Less → get K.cmp map.new other ≡ None }
    ensures others { (other : _) → K.cmp other key.now ≢ Less → get K.cmp map.new other ≡ get K.cmp map.old other }
{
    map.retain(|other, _| other >= key);
}
