//! Values that are made where their key is absent.
ghost use Rattle.std.specs.Prelude.{◌≡◌};
ghost use Rattle.std.specs.Fn.{FnOnceReturnsAt, FnOnceTakesAt};
ghost use Rattle.litemap.specs.Words.{Err, IfOk, IsNone, IsOk, IsSome, IsUnchanged, Ok, OnErr, Some, get, put, spare};
ghost use Rattle.litemap.specs.TryFault.{IfClosure, IfNoRoom};

use litemap::store::StoreMut;
use litemap::{LiteMap, TryFault};

/// Returns the value of a key. If the key is absent, it is what `f` returns for it, and the map has it from then on.
///
/// This is how a caller gets both from one search: what `try_get_or_insert` shows, and what the map is after.
pub fn value_or_made<K: Ord, V: Copy, S: StoreMut<K, V>, E, F: FnOnce(&K) -> Result<V, E>>(
    map: &mut LiteMap<K, V, S>,
    key: K,
    f: F,
) -> Result<V, TryFault<K, V, E>>
where
    K: Drop,
    F: Drop,
    requires { IsNone (get K.cmp map.old key) → FnOnceTakesAt F.FnOnce f key }
    ensures found { IsSome (get K.cmp map.old key) → IsOk result }
    ensures value { IsSome (get K.cmp map.old key) → IfOk result (λ v. Some v ≡ get K.cmp map.old key) }
    ensures present { IsSome (get K.cmp map.old key) → map.new ≡ map.old }
    ensures made { IsNone (get K.cmp map.old key) → IfOk result (λ v. FnOnceReturnsAt F.FnOnce f key (Ok v)) }
    ensures put { IsNone (get K.cmp map.old key) → IfOk result (λ v. map.new.entries ≡ put K.cmp map.old.entries key v) }
    ensures unchanged { OnErr result (IsUnchanged map.old map.new) }
    ensures closure { IfClosure result (λ fault. FnOnceReturnsAt F.FnOnce f key (Err fault)) }
    ensures full { IfNoRoom result (λ _ _. spare map.old ≡ 0) }
{
    let index = map.try_find_or_insert(key, f)?;
    let (_, value) = map.get_indexed(index).unwrap();
    Ok(*value)
}
