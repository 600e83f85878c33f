//! A map as a JSON value.
ghost use Rattle.std.specs.Prelude.{◌≡◌, ◌≢◌, [], Ok, Err, IfOk, IfErr, OnErr, OnOk, string_bytes};
ghost use Rattle.serde_json.specs.Data.{array, no_members, put};
ghost use Rattle.serde_json.specs.View.{members_view, view};
ghost use Rattle.litemap_store.specs.Pairs.{Rising};
ghost use Rattle.litemap_json.specs.Json.{object_with, rows, tree};
ghost use Rattle.litemap_json.specs.Reading.{AllReadBack, ReadsAs};
ghost use Rattle.litemap_json.specs.Written.{IsFirst};
ghost use Rattle.litemap_json.specs.declared.fault.WriteFault.TheVariants.{Memory};

use crate::fault::WriteFault;
use crate::item::{JsonItem, JsonKey};
use crate::pairs::{pair_at, value_of_two};
use litemap::LiteMap;
use litemap::store::Store;
use serde_json::{Map, Value};
use std::alloc::{AllocError, Global};

/// Makes a JSON value of a map, and returns it. The first key decides: if it has a string, it is an object from the keys' strings
/// to the items; if it has none, an array of `[key, item]` arrays in the order of the keys. The empty map is the empty array.
/// The Rust crate has serde's `Serialize` here.
///
/// An object's members stand and print in the byte order of their names: the keys 2 and 10 print as `"10"`, `"2"`. What is made
/// is read by `from_json` as the same map. No keys are compared.
///
/// # Errors
///
/// In an object a later key with no string is an error, `KeyWithoutText`, with its index. `Memory` may come in place of any
/// result but that of the empty map.
pub fn to_json<K: JsonKey, V: JsonItem, S: Store<K, V>>(
    alloc: Global,
    map: &LiteMap<K, V, S>,
) -> Result<Value, WriteFault>
    ensures tree { IfOk result (λ value. tree K.text K.json V.json map.now.entries ≡ Ok (view value)) }
    ensures error { IfErr result (λ fault. fault ≢ Memory → tree K.text K.json V.json map.now.entries ≡ Err fault) }
    ensures refused_some { OnErr result (map.now.entries ≢ []) }
    ensures reads_back { IfOk result
        (λ value. ReadsAs K.cmp K.key K.item V.item K.json V.json (view value) map.now.entries) }
{
    if let Some((first, item)) = map.first() {
        if let Some(name) = first.key_text(alloc)? {
            return object_of(alloc, map, name, item);
        }
    }
    Ok(array_of(alloc, map)?)
}

fn array_of<K: JsonKey, V: JsonItem, S: Store<K, V>>(
    alloc: Global,
    map: &LiteMap<K, V, S>,
) -> Result<Value, AllocError>
    ensures tree { IfOk result (λ value. view value ≡ array (rows K.text K.json V.json map.now.entries)) }
    ensures refused_some { OnErr result (map.now.entries ≢ []) }
    ensures reads_back { OnOk result (AllReadBack K.item V.item K.json V.json map.now.entries) }
    ensures rising { Rising K.cmp map.now.entries }
{
    let len = map.len();
    let mut list = Vec::with_capacity(alloc, len)?;
    for place in 0..len {
        let (key, item) = pair_at(map, place);
        list.push(value_of_two(alloc, key, item)?)?;
    }
    Ok(Value::from(list))
}

// The object of the pairs, the first of which has this name and this item.
fn object_of<K: JsonKey, V: JsonItem, S: Store<K, V>>(
    alloc: Global,
    map: &LiteMap<K, V, S>,
    name: String,
    item: &V,
) -> Result<Value, WriteFault>
    requires { IsFirst K.text K.key K.json map.now.entries (string_bytes name) item.now }
    ensures tree { IfOk result
        (λ value. object_with K.text K.json V.json 0 no_members map.now.entries ≡ Ok (view value)) }
    ensures error { IfErr result
        (λ fault. fault ≢ Memory → object_with K.text K.json V.json 0 no_members map.now.entries ≡ Err fault) }
    ensures reads_back { IfOk result
        (λ value. ReadsAs K.cmp K.key K.item V.item K.json V.json (view value) map.now.entries) }
{
    let mut members = Map::new(alloc);
    put_member(&mut members, name, item.to_value(alloc)?)?;
    for place in 1..map.len() {
        let (key, item) = pair_at(map, place);
        let Some(name) = key.key_text(alloc)? else {
            return Err(WriteFault::KeyWithoutText { place });
        };
        let item = item.to_value(alloc)?;
        put_member(&mut members, name, item)?;
    }
    Ok(Value::from(members))
}

fn put_member(members: &mut Map<String, Value>, name: String, item: Value) -> Result<(), AllocError>
    ensures { OnOk result (members_view members.new.entries
        ≡ put (string_bytes name) (view item) (members_view members.old.entries)) }
{
    drop(members.insert(name, item)?);
    Ok(())
}
