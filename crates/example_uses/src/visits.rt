//! Callers with clauses as for a `HashMap` or an `IndexMap`, by an equality of the keys in place of an order: only the two `use`
//! lines differ from such code.
ghost use Rattle.std.specs.Prelude.{◌≡◌, ◌≢◌};
ghost use Rattle.litemap.specs.HashWords.{IsUnchanged, None, OnErr, OnOk, Some, contains, get, nat_eq, unwrap_or};

use litemap::VecMap as IndexMap;
use std::alloc::AllocError;

/// When pages were last visited, by their numbers.
pub type Visits = IndexMap<u32, u32>;

/// Records that a page is visited. All others stay.
pub fn record(visits: &mut Visits, page: u32, time: u32) -> Result<(), AllocError>
    ensures noted { OnOk result (get nat_eq visits.new page ≡ Some time) }
    ensures others { OnOk result ((other : _) → other ≢ page → get nat_eq visits.new other ≡ get nat_eq visits.old other) }
    ensures unchanged { OnErr result (IsUnchanged visits.old visits.new) }
{
    visits.insert(page, time)?;
    Ok(())
}

/// Forgets a page, and returns when it was last visited.
pub fn forget(visits: &mut Visits, page: u32) -> Option<u32>
    ensures had { result ≡ get nat_eq visits.old page }
    ensures gone { get nat_eq visits.new page ≡ None }
{
    visits.remove(&page)
}

/// Whether a page was visited.
pub fn is_visited(visits: &Visits, page: u32) -> bool
    ensures { result ≡ contains nat_eq visits.now page }
{
    visits.contains_key(&page)
}

/// The number at a key of any type, or 0 if there is none.
pub fn number_of<K: Ord>(numbers: &IndexMap<K, u32>, key: &K) -> u32
    ensures { result ≡ unwrap_or (get K.eq numbers.now key.now) 0 }
{
    numbers.get(key).copied().unwrap_or(0)
}
