//! A JSON value as a map.
ghost use Rattle.std.specs.Prelude.{◌≡◌, ◌≢◌, Err, IfErr, IfOk, Ok, OnErr, string_bytes};
ghost use Rattle.serde_json.specs.Data.{array, object};
ghost use Rattle.serde_json.specs.View.{items_view, members_view, view};
ghost use Rattle.litemap_json.specs.Item.{Reads, two_of};
ghost use Rattle.litemap_json.specs.Json.{HasElements, member_at, member_pairs, pair_at, pairs, row_at, row_pairs};
ghost use Rattle.litemap_json.specs.Reading.{ReadsAs, pair_seen, seen};
ghost use Rattle.litemap_json.specs.declared.fault.JsonFault.TheVariants as reading;

use crate::fault::JsonFault;
use crate::item::{ItemFault, JsonItem, JsonKey};
use crate::pairs::{push_pair, two_items};
use litemap::LiteMap;
use litemap::store::StoreBulkMut;
use serde_json::{Map, Value};
use std::alloc::Global;

/// Reads the map that a JSON value represents, and returns it. The value is an object, whose names have to be strings of keys
/// (`from_key_text`), or an array, whose elements have to be arrays of exactly a key and an item. An object's members are read
/// in the byte order of their names, an array's elements as they stand. Of equal keys the pair that is read last stays, with
/// its own key, and the others are dropped. The Rust crate has serde's `Deserialize` here.
///
/// All pairs are gathered before a map is made, and moved into it by `from_vec`: if the keys ascend, that is one
/// comparison for each at most, else a sort.
///
/// # Errors
///
/// A value that is no object and no array is `NotAMap`. Else the error is that of the first element or member that is no pair. If
/// memory runs out, it is `Memory`, which may come in place of an error at the same or a later index, but not of an empty array
/// or object.
///
/// ```rust
/// let value = Value::from_str(alloc, r#"{"10":9,"3":8}"#)?;
/// let hours: Hours = from_json(alloc, &value)?;
/// Ok(hours.as_slice() == [(3, 8), (10, 9)].as_slice())
/// ```
pub fn from_json<K: JsonKey + Drop, V: JsonItem + Drop, S: StoreBulkMut<K, V, Alloc = Global>>(
    alloc: Global,
    value: &Value,
) -> Result<LiteMap<K, V, S>, JsonFault>
    ensures read { IfOk result
        (λ map. ReadsAs K.cmp K.key K.item V.item K.json V.json (view value.now) map.entries) }
    ensures error { IfErr result
        (λ e. e ≢ reading.Memory → pairs K.key K.item V.item (view value.now) ≡ Err e) }
    ensures refused_some { IfErr result (λ e. e ≡ reading.Memory → HasElements (view value.now)) }
{
    LiteMap::from_vec(alloc, pairs_of(alloc, value)?).map_err(|_| JsonFault::Memory)
}

// The pairs that a value represents, in the order that it holds.
fn pairs_of<K: JsonKey + Drop, V: JsonItem + Drop>(
    alloc: Global,
    value: &Value,
) -> Result<Vec<(K, V)>, JsonFault>
    ensures read { Reads reading.Memory (λ found. seen K.json V.json found.items)
        (pairs K.key K.item V.item (view value.now)) result }
    ensures refused_some { IfErr result (λ e. e ≡ reading.Memory → HasElements (view value.now)) }
{
    if let Some(list) = value.as_array() {
        read_rows(alloc, list)
    } else if let Some(members) = value.as_object() {
        read_members(alloc, members)
    } else {
        Err(JsonFault::NotAMap)
    }
}

fn read_rows<K: JsonKey + Drop, V: JsonItem + Drop>(
    alloc: Global,
    list: &Vec<Value>,
) -> Result<Vec<(K, V)>, JsonFault>
    ensures read { Reads reading.Memory (λ found. seen K.json V.json found.items)
        (row_pairs K.key K.item V.item 0 (items_view list.now.items)) result }
    ensures refused_some { OnErr result (HasElements (array (items_view list.now.items))) }
{
    let mut found = Vec::new(alloc);
    for (place, row) in list.iter().enumerate() {
        let pair = read_row(alloc, place, row)?;
        push_pair(&mut found, pair)?;
    }
    Ok(found)
}

fn read_row<K: JsonKey + Drop, V: JsonItem + Drop>(
    alloc: Global,
    place: usize,
    row: &Value,
) -> Result<(K, V), JsonFault>
    ensures { Reads reading.Memory (pair_seen K.json V.json)
        (row_at K.key K.item V.item place (two_of (view row.now))) result }
{
    let Some((first, second)) = two_items(row) else {
        return Err(JsonFault::NotAPair { place });
    };
    match K::from_value(alloc, first) {
        Err(ItemFault::Memory) => Err(JsonFault::Memory),
        Err(fault) => Err(JsonFault::Key { place, fault }),
        Ok(key) => with_item(alloc, place, key, second),
    }
}

// Returns the pair of a key and the item that a value represents, or the error of the item at an index.
fn with_item<K: JsonKey + Drop, V: JsonItem + Drop>(
    alloc: Global,
    place: usize,
    key: K,
    value: &Value,
) -> Result<(K, V), JsonFault>
    ensures { Reads reading.Memory (pair_seen K.json V.json)
        (pair_at place (Ok (K.json key)) (V.item (view value.now))) result }
{
    match V::from_value(alloc, value) {
        Err(ItemFault::Memory) => Err(JsonFault::Memory),
        Err(fault) => Err(JsonFault::Item { place, fault }),
        Ok(item) => Ok((key, item)),
    }
}

fn read_members<K: JsonKey + Drop, V: JsonItem + Drop>(
    alloc: Global,
    members: &Map<String, Value>,
) -> Result<Vec<(K, V)>, JsonFault>
    ensures read { Reads reading.Memory (λ found. seen K.json V.json found.items)
        (member_pairs K.key K.item V.item 0 (members_view members.now.entries)) result }
    ensures refused_some { OnErr result (HasElements (object (members_view members.now.entries))) }
{
    let mut found = Vec::new(alloc);
    let mut place = 0usize;
    // For the proof: `place` stays below this number, so it doesn't overflow.
    let _count = members.len();
    for (name, member) in members.iter() {
        let pair = read_member(alloc, place, name, member)?;
        push_pair(&mut found, pair)?;
        place += 1;
    }
    Ok(found)
}

fn read_member<K: JsonKey + Drop, V: JsonItem + Drop>(
    alloc: Global,
    place: usize,
    name: &String,
    member: &Value,
) -> Result<(K, V), JsonFault>
    ensures { Reads reading.Memory (pair_seen K.json V.json)
        (member_at K.key K.item V.item place (K.key (string_bytes name.now)) (view member.now)) result }
{
    let Some(key) = K::from_key_text(alloc, name.as_str())? else {
        return Err(JsonFault::KeyText { place });
    };
    with_item(alloc, place, key, member)
}
