//! Maps looked up by what can stand for a key: strings and bytes that are borrowed, and keys.
ghost use Rattle.std.specs.Prelude.{◌≡◌, ◌≢◌, ◌==◌};
ghost use Rattle.std.specs.List.{before_first};
ghost use Rattle.litemap.specs.Words.{Equal, IsFalse, IsTrue, IsUnchanged, None, OnErr, OnOk, Some, btree_map_len, by_slice};
ghost use Rattle.litemap.specs.Words.{by_string, cut, get, get_by_text, is_some, nat_cmp, option_or, string_bytes};
ghost use Rattle.litemap.specs.Words.{string_cmp, write};

use crate::scores;
use litemap::store::Store;
use litemap::{LiteMap, Query, VecMap};
use std::alloc::{AllocError, Global};

/// Numbers at strings that the map owns.
pub type Numbers = VecMap<String, u32>;

/// Numbers at bytes that the map owns.
pub type ByteNumbers = VecMap<Vec<u8>, u32>;

/// The number at a tag such as `de-CH`, else that at its language, which stands before the first `-`.
#[tactic(auto, using(std::proofs::lemmas::Str::Pattern::split_once_first))]
pub fn number_of_locale(map: &Numbers, tag: &str) -> Option<u32>
    ensures { result ≡ option_or (get_by_text map.now tag.now)
        (get_by_text map.now (before_first (λ b. b == 45) tag.now)) }
{
    let language = match tag.split_once('-') {
        Some((language, _)) => language,
        None => tag,
    };
    map.get(tag).or(map.get(language)).copied()
}

/// Removes a key that is a string of its own. All others stay.
pub fn take_key(map: &mut Numbers, key: &String) -> Option<u32>
    ensures gone { get string_cmp map.new key.now ≡ None }
    ensures others { (other : _) → string_cmp other key.now ≢ Equal
        → get string_cmp map.new other ≡ get string_cmp map.old other }
{
    map.remove(key)
}

/// Sets the number at a key, by a copy of it. `set` speaks of strings, and this of keys.
pub fn set_at_key(
    map: &mut Numbers,
    alloc: Global,
    key: &String,
    number: u32,
) -> Result<(), AllocError>
    ensures { OnOk result (get string_cmp map.new key.now ≡ Some number) }
{
    scores::set(map, String::from_str(alloc, key.as_str())?, number)
}

/// Moves the number at a name to another name, and returns whether there was one. No memory is needed.
pub fn rename(map: &mut Numbers, old: &str, new: String) -> bool
    ensures there { result ≡ is_some (get_by_text map.old old.now) }
    ensures moved { IsTrue result → get_by_text map.new (string_bytes new) ≡ get_by_text map.old old.now }
    ensures gone { old.now ≢ string_bytes new → get_by_text map.new old.now ≡ None }
    ensures others { (other : _) → other ≢ old.now → other ≢ string_bytes new
        → get_by_text map.new other ≡ get_by_text map.old other }
    ensures unchanged { IsFalse result → IsUnchanged map.old map.new }
{
    map.rename(old, new)
}

/// Moves the number at a name to a name that is free, by two changes. If memory runs out, nothing changes.
// By fewer lemmas: with all of the root's set the search reaches its limit.
#[tactic(auto, using(litemap::proofs::Texts::texts))]
pub fn move_number(map: &mut Numbers, alloc: Global, from: &str, to: &str) -> Result<(), AllocError>
    requires { get_by_text map.old to.now ≡ None }
    ensures moved { OnOk result (get_by_text map.new to.now ≡ get_by_text map.old from.now) }
    ensures gone { OnOk result (get_by_text map.new from.now ≡ None) }
    ensures others { OnOk result ((other : _) → other ≢ from.now → other ≢ to.now
        → get_by_text map.new other ≡ get_by_text map.old other) }
    ensures len { OnOk result (btree_map_len map.new ≡ btree_map_len map.old) }
    ensures unchanged { OnErr result (IsUnchanged map.old map.new) }
{
    let Some(number) = map.get(from).copied() else {
        return Ok(());
    };
    map.insert(String::from_str(alloc, to)?, number)?;
    map.remove(from);
    Ok(())
}

/// Writes the number at a name, if the name is there. All others stay.
pub fn set_number(map: &mut Numbers, name: &str, number: u32) -> bool
    ensures there { result ≡ is_some (get_by_text map.old name.now) }
    ensures written { map.new.entries ≡ write by_string map.old.entries name.now number }
    ensures set { IsTrue result → get_by_text map.new name.now ≡ Some number }
    ensures others { (other : _) → other ≢ name.now → get_by_text map.new other ≡ get_by_text map.old other }
{
    match map.get_mut(name) {
        Some(slot) => {
            *slot = number;
            true
        }
        None => false,
    }
}

/// Removes bytes. All others stay.
pub fn take_bytes(map: &mut ByteNumbers, bytes: &[u8]) -> Option<u32>
    ensures value { result ≡ get (by_slice nat_cmp) map.old bytes.now }
    ensures cut { map.new.entries ≡ cut (by_slice nat_cmp) map.old.entries bytes.now }
    ensures gone { get (by_slice nat_cmp) map.new bytes.now ≡ None }
    ensures others { (other : _) → other ≢ bytes.now
        → get (by_slice nat_cmp) map.new other ≡ get (by_slice nat_cmp) map.old other }
{
    map.remove(bytes)
}

/// Writes the number at bytes, if they are there.
pub fn set_bytes(map: &mut ByteNumbers, bytes: &[u8], number: u32) -> bool
    ensures there { result ≡ is_some (get (by_slice nat_cmp) map.old bytes.now) }
    ensures written { map.new.entries ≡ write (by_slice nat_cmp) map.old.entries bytes.now number }
    ensures set { IsTrue result → get (by_slice nat_cmp) map.new bytes.now ≡ Some number }
{
    match map.get_mut(bytes) {
        Some(slot) => {
            *slot = number;
            true
        }
        None => false,
    }
}

/// Whether a query finds a pair, over every map and by any query.
pub fn has<K: Ord, V, S: Store<K, V>, Q: Query<K>>(map: &LiteMap<K, V, S>, query: Q) -> bool
    ensures { result ≡ is_some (get Q.order map.now (Q.sought query)) }
{
    map.contains_key(query)
}
