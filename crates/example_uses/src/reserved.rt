//! Pairs of two maps that are inserted together or not at all: room is reserved first, and what follows is proved not to fail.
ghost use Rattle.std.specs.Prelude.{◌≡◌, ◌∷◌};
ghost use Rattle.litemap.specs.Words.{BelowAll, IsUnchanged, Less, List, OnErr, OnOk, put};

use litemap::LiteMap;
use litemap::store::StoreMut;
use std::alloc::AllocError;

/// Puts a pair into each of two maps, or leaves both as they were.
pub fn insert_both<K: Ord + Drop, V: Drop, S: StoreMut<K, V>>(
    one: &mut LiteMap<K, V, S>,
    other: &mut LiteMap<K, V, S>,
    first: (K, V),
    second: (K, V),
) -> Result<(), AllocError>
    ensures one { OnOk result (one.new.entries ≡ put K.cmp one.old.entries first.0 first.1) }
    ensures other { OnOk result (other.new.entries ≡ put K.cmp other.old.entries second.0 second.1) }
    ensures unchanged { OnErr result (IsUnchanged one.old one.new × IsUnchanged other.old other.new) }
{
    one.reserve(1)?;
    other.reserve(1)?;
    one.insert(first.0, first.1).unwrap();
    other.insert(second.0, second.1).unwrap();
    Ok(())
}

/// Puts a pair in front of all others.
pub fn insert_first<K: Ord + Drop, V: Drop, S: StoreMut<K, V>>(
    map: &mut LiteMap<K, V, S>,
    key: K,
    value: V,
) -> Result<(), AllocError>
    requires { BelowAll K.cmp key map.old.entries }
    ensures { OnOk result (map.new.entries ≡ (key, value) ∷ map.old.entries) }
{
    map.insert(key, value)?;
    Ok(())
}

/// Puts a pair past the first one, which stays.
pub fn insert_later<K: Ord + Drop, V: Drop, S: StoreMut<K, V>>(
    map: &mut LiteMap<K, V, S>,
    key: K,
    value: V,
) -> Result<(), AllocError>
    ensures { OnOk result ((first : K × V) (rest : List (K × V)) → map.old.entries ≡ first ∷ rest
        → K.cmp first.0 key ≡ Less → map.new.entries ≡ first ∷ put K.cmp rest key value) }
{
    map.insert(key, value)?;
    Ok(())
}
