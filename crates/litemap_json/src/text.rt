//! A map as a JSON text, pair by pair.
ghost use Rattle.std.specs.Prelude.{◌≡◌, ◌≢◌, ◌<◌, [], ◌∷◌, ◌++◌, Ok, Err, IfOk, IfErr, IfSome, OnOk, true, string_bytes};
ghost use Rattle.std.specs.Ordering.{nat_cmp};
ghost use Rattle.std.specs.Cmp.Lexicographic.{slice_cmp};
ghost use Rattle.std.specs.declared.cmp.Ordering.TheVariants.{Less};
ghost use Rattle.json.specs.Lex.{tokens};
ghost use Rattle.json.specs.Print.{print};
ghost use Rattle.json.specs.Token.{key as key_token};
ghost use Rattle.serde_json.specs.Data.{Data, array, no_members, object};
ghost use Rattle.litemap_json.specs.Json.{object_with, rows, tree};
ghost use Rattle.litemap_json.specs.Written.{IsTextOf, WritesTree, named};
ghost use Rattle.litemap_json.specs.declared.fault.WriteFault.TheVariants.{Memory};

use crate::fault::WriteFault;
use crate::item::{JsonItem, JsonKey};
use crate::name::{AnyName, Name};
use crate::pairs::{pair_at, push_pair, write_two};
use itoa::Buffer;
use json::Writer;
use litemap::store::Store;
use litemap::{LiteMap, VecMap};
use std::alloc::{AllocError, Global};

/// Writes a map as a JSON text with no space, and returns the text. It is that of the value that `to_json` makes, with the same
/// errors, but that value isn't made. The Rust crate has serde's `Serialize` here, whose members stand in the order of the keys.
///
/// Names that ascend in their byte order, as those of `String` keys do, are written pair by pair, each compared with the one
/// before. If one doesn't ascend, what was written is dropped, and the names of all keys are gathered and sorted. If the first
/// key has a `key_number`, as integers have, that is done at once, by the names' digits, with no strings for integers that 64
/// bits hold. Sorting takes O(n log n) comparisons of names. Keys aren't compared. `Memory` may come in place of any result.
///
/// ```rust
/// // hours: 1 8, 3 10
/// Ok(write_json(alloc, &hours)?.as_str() == r#"{"1":8,"3":10}"#)
/// ```
pub fn write_json<K: JsonKey, V: JsonItem, S: Store<K, V>>(
    alloc: Global,
    map: &LiteMap<K, V, S>,
) -> Result<String, WriteFault>
    ensures text { IfOk result (λ text. (d : Data) × (tree K.text K.json V.json map.now.entries ≡ Ok d)
        × IsTextOf d (string_bytes text)) }
    ensures error { IfErr result (λ fault. fault ≢ Memory → tree K.text K.json V.json map.now.entries ≡ Err fault) }
{
    let Some((first, _)) = map.first() else {
        return Ok(array_text(alloc, map)?);
    };
    if first.key_number().is_some() {
        return Ok(named_text::<AnyName, V>(alloc, &by_name(alloc, map)?)?);
    }
    if first.key_text(alloc)?.is_none() {
        return Ok(array_text(alloc, map)?);
    }
    if let Some(text) = object_text(alloc, map)? {
        return Ok(text);
    }
    Ok(named_text::<String, V>(alloc, &by_name(alloc, map)?)?)
}

fn array_text<K: JsonKey, V: JsonItem, S: Store<K, V>>(
    alloc: Global,
    map: &LiteMap<K, V, S>,
) -> Result<String, AllocError>
    ensures { IfOk result (λ text. IsTextOf (array (rows K.text K.json V.json map.now.entries)) (string_bytes text)) }
{
    let mut out = writer(alloc, map.len())?;
    out.begin_array()?;
    for place in 0..map.len() {
        let (key, item) = pair_at(map, place);
        write_two(alloc, key, item, &mut out)?;
    }
    out.end_array()?;
    Ok(text_of(out))
}

// Returns the text of the object of the pairs, or none if a key's name does not ascend.
fn object_text<K: JsonKey, V: JsonItem, S: Store<K, V>>(
    alloc: Global,
    map: &LiteMap<K, V, S>,
) -> Result<Option<String>, WriteFault>
    ensures text { IfOk result (λ made. IfSome made
        (λ text. (d : Data) × (object_with K.text K.json V.json 0 no_members map.now.entries ≡ Ok d)
        × IsTextOf d (string_bytes text))) }
    ensures error { IfErr result
        (λ fault. fault ≢ Memory → object_with K.text K.json V.json 0 no_members map.now.entries ≡ Err fault) }
{
    let mut out = writer(alloc, map.len())?;
    out.begin_object()?;
    let mut last = String::new(alloc);
    for place in 0..map.len() {
        let (key, item) = pair_at(map, place);
        let Some(name) = key.key_text(alloc)? else {
            return Err(WriteFault::KeyWithoutText { place });
        };
        if !rises(place, &last, &name) {
            return Ok(None);
        }
        write_member(alloc, &name, item, &mut out)?;
        last = name;
    }
    out.end_object()?;
    Ok(Some(text_of(out)))
}

// Returns the items by their keys' names, or the error of the first key that has none.
fn by_name<'m, N: Name, K: JsonKey, V: JsonItem, S: Store<K, V>>(
    alloc: Global,
    map: &'m LiteMap<K, V, S>,
) -> Result<VecMap<N, &'m V>, WriteFault>
    ensures named { IfOk result (λ items. object_with K.text K.json V.json 0 no_members map.now.entries
        ≡ Ok (object (named N.bytes (λ item. V.json item.now) items.entries))) }
    ensures error { IfErr result
        (λ fault. fault ≢ Memory → object_with K.text K.json V.json 0 no_members map.now.entries ≡ Err fault) }
{
    let mut items = Vec::with_capacity(alloc, map.len())?;
    for place in 0..map.len() {
        let (key, item) = pair_at(map, place);
        let Some(name) = N::of(alloc, key)? else {
            return Err(WriteFault::KeyWithoutText { place });
        };
        push_pair(&mut items, (name, item))?;
    }
    match LiteMap::from_vec(alloc, items) {
        Ok(named) => Ok(named),
        Err(_) => Err(WriteFault::Memory),
    }
}

// Returns the text of the object of items by their keys' names.
fn named_text<N: Name, V: JsonItem>(
    alloc: Global,
    items: &VecMap<N, &V>,
) -> Result<String, AllocError>
    ensures { IfOk result
        (λ text. IsTextOf (object (named N.bytes (λ item. V.json item.now) items.now.entries)) (string_bytes text)) }
{
    let mut out = writer(alloc, items.len())?;
    out.begin_object()?;
    for place in 0..items.len() {
        let (name, item) = pair_at(items, place);
        write_member(alloc, name, *item, &mut out)?;
    }
    out.end_object()?;
    Ok(text_of(out))
}

fn write_member<N: Name, V: JsonItem>(
    alloc: Global,
    name: &N,
    item: &V,
    out: &mut Writer,
) -> Result<(), AllocError>
    ensures tree { OnOk result (WritesTree (V.json item.now)
        (out.old.tokens ++ key_token (N.bytes name.now) ∷ []) out.new.tokens) }
    ensures before { out.new.before ≡ out.old.before }
{
    out.key(name.as_str(&mut Buffer::new()))?;
    item.write_to(alloc, out)
}

// Returns whether a name is above `last`, the one before it. At index 0 there is none before it, and `last` is ignored.
fn rises(place: usize, last: &String, name: &String) -> bool
    ensures { result ≡ true → 0 < place → slice_cmp nat_cmp (string_bytes last.now) (string_bytes name.now) ≡ Less }
{
    place == 0 || last < name
}

// Returns a writer with the memory that this number of short pairs takes.
fn writer(alloc: Global, pairs: usize) -> Result<Writer, AllocError>
    ensures { IfOk result (λ out. (out.before ≡ []) × (out.tokens ≡ [])) }
{
    Ok(Writer::new(Vec::with_capacity(alloc, pairs.saturating_mul(8))?))
}

// Returns what was written, as a string.
fn text_of(out: Writer) -> String
    requires { out.before ≡ [] }
    ensures text { string_bytes result ≡ print out.tokens }
    ensures tokens { tokens (string_bytes result) ≡ out.tokens }
{
    String::from_utf8(out.into_inner()).unwrap()
}
