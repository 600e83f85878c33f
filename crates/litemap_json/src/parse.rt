//! A map from a JSON text, token by token, with no tree between.
ghost use Rattle.std.specs.Prelude.{◌≡◌, ◌≢◌, ◌<◌, [], Err, IfErr, IfOk, MatchOption, None, OnOk, Some, false, length, option_map, suc, true};
ghost use Rattle.serde_json.specs.Data.{Data};
ghost use Rattle.serde_json.specs.Read.{read as read_text};
ghost use Rattle.litemap_json.specs.Parse.{Parses, SpellsMap, Stops, all_turns, keyed, opened, row_item, text_pairs, turn};
ghost use Rattle.litemap_json.specs.Reading.{pair_seen, seen};
ghost use Rattle.litemap_json.specs.declared.fault.TextFault.TheVariants as parsing;

use crate::fault::TextFault;
use crate::item::{ItemFault, JsonItem, JsonKey};
use crate::next::{begin_array, end_array};
use crate::pairs::push_pair;
use json::{Reader, Scratch, Token};
use litemap::LiteMap;
use litemap::store::StoreBulkMut;
use std::alloc::Global;

// How deep arrays and objects may nest in a member's value, and in the key or the item of an array's element.
const IN_MEMBER: usize = 126;

const IN_ROW: usize = 125;

/// Reads the map that a JSON text represents, and returns it. The text is an object, whose names have to be strings of keys
/// (`from_key_text`), or an array, whose elements have to be arrays of exactly a key and an item. Its members or elements are
/// read as they stand, and no `Value` is made unless a type's `from_tokens` makes one. Of equal keys the pair that is read last
/// stays, with its own key, and the others are dropped. The Rust crate has serde's `Deserialize` here.
///
/// All pairs are gathered before a map is made, and moved into it by `from_vec`: if the keys ascend, that is one
/// comparison for each at most, else a sort. Reading takes as much memory as the text is long, beside the pairs.
///
/// # Errors
///
/// It is that of the first member or element that is no pair, or where the text goes wrong: a `TextFault`, with the index. If
/// something follows the map, it is `AfterMap`. If memory runs out, it is `Memory`, which may come in place of any result but that
/// of an empty text.
///
/// ```rust
/// let hours: Hours = read_json(alloc, r#"{"10":9,"3":8}"#)?;
/// Ok(hours.as_slice() == [(3, 8), (10, 9)].as_slice())
/// ```
pub fn read_json<K: JsonKey + Drop, V: JsonItem + Drop, S: StoreBulkMut<K, V, Alloc = Global>>(
    alloc: Global,
    text: &str,
) -> Result<LiteMap<K, V, S>, TextFault>
    ensures read { IfOk result (λ map. SpellsMap K.cmp K.key K.item V.item K.json V.json text.now map.entries) }
    ensures tree { OnOk result ((d : Data) × (read_text text.now ≡ Some d)) }
    ensures error { IfErr result (λ e. e ≢ parsing.Memory → Stops (text_pairs K.key K.item V.item text.now) e) }
    ensures refused_some { IfErr result (λ e. e ≡ parsing.Memory → text.now ≢ []) }
{
    LiteMap::from_vec(alloc, pairs_in(alloc, text)?).map_err(|_| TextFault::Memory)
}

// The pairs that a text spells, in its order.
fn pairs_in<K: JsonKey + Drop, V: JsonItem + Drop>(
    alloc: Global,
    text: &str,
) -> Result<Vec<(K, V)>, TextFault>
    ensures read { Parses (λ found. seen K.json V.json found.items) (text_pairs K.key K.item V.item text.now) result }
    ensures refused_some { IfErr result (λ e. e ≡ parsing.Memory → text.now ≢ []) }
{
    let mut scratch = Scratch::new(alloc);
    let mut reader = Reader::new(text, &mut scratch)?;
    let Some(in_object) = open(&mut reader) else {
        return Err(TextFault::NotAMap);
    };
    let found = all_pairs(alloc, &mut reader, in_object)?;
    if reader.next().is_some() {
        return Err(TextFault::AfterMap);
    }
    Ok(found)
}

// Takes a brace or a bracket that opens a map, and returns whether it is a brace.
fn open(reader: &mut Reader<'_>) -> Option<bool>
    ensures { MatchOption result (opened reader.old ≡ None) (λ in_object. opened reader.old ≡ Some (in_object, reader.new)) }
{
    match reader.next() {
        Some(Token::BeginObject) => Some(true),
        Some(Token::BeginArray) => Some(false),
        _ => None,
    }
}

// The pairs up to the closing brace or bracket.
fn all_pairs<K: JsonKey + Drop, V: JsonItem + Drop>(
    alloc: Global,
    reader: &mut Reader<'_>,
    in_object: bool,
) -> Result<Vec<(K, V)>, TextFault>
    ensures { Parses (λ found. (seen K.json V.json found.items, reader.new))
        (all_turns (turn K.key K.item V.item in_object) 0 (suc (length reader.old)) reader.old) result }
{
    let mut found = Vec::new(alloc);
    'pairs: while let Some(pair) = next_pair(alloc, reader, in_object, found.len())? {
        push_pair(&mut found, pair)?;
    }
    Ok(found)
}

// The next pair, or none at the closing brace or bracket, which is taken.
fn next_pair<K: JsonKey + Drop, V: JsonItem + Drop>(
    alloc: Global,
    reader: &mut Reader<'_>,
    in_object: bool,
    place: usize,
) -> Result<Option<(K, V)>, TextFault>
    ensures pair { Parses (λ p. (option_map (pair_seen K.json V.json) p, reader.new))
        (turn K.key K.item V.item in_object place reader.old) result }
    ensures shorter { OnOk result (length reader.new < length reader.old) }
{
    if in_object {
        next_member(alloc, reader, place)
    } else {
        next_row(alloc, reader, place)
    }
}

fn next_member<K: JsonKey + Drop, V: JsonItem + Drop>(
    alloc: Global,
    reader: &mut Reader<'_>,
    place: usize,
) -> Result<Option<(K, V)>, TextFault>
    ensures pair { Parses (λ p. (option_map (pair_seen K.json V.json) p, reader.new))
        (turn K.key K.item V.item true place reader.old) result }
    ensures shorter { OnOk result (length reader.new < length reader.old) }
{
    match reader.next_key() {
        Ok(Some(name)) => read_member(alloc, reader, place, name),
        Ok(None) => Ok(None),
        Err(_) => Err(TextFault::NoName { place }),
    }
}

// The pair of a name and the item after it.
fn read_member<K: JsonKey + Drop, V: JsonItem + Drop>(
    alloc: Global,
    reader: &mut Reader<'_>,
    place: usize,
    name: &str,
) -> Result<Option<(K, V)>, TextFault>
    ensures pair { Parses (λ p. (option_map (pair_seen K.json V.json) p, reader.new))
        (keyed K.key K.item V.item place (K.key name.now) reader.old) result }
    ensures shorter { OnOk result (length reader.new < length reader.old) }
{
    let Some(key) = K::from_key_text(alloc, name)? else {
        return Err(TextFault::KeyText { place });
    };
    match V::from_tokens(alloc, reader, IN_MEMBER) {
        Ok(item) => Ok(Some((key, item))),
        Err(ItemFault::Memory) => Err(TextFault::Memory),
        Err(fault) => Err(TextFault::Item { place, fault }),
    }
}

fn next_row<K: JsonKey + Drop, V: JsonItem + Drop>(
    alloc: Global,
    reader: &mut Reader<'_>,
    place: usize,
) -> Result<Option<(K, V)>, TextFault>
    ensures pair { Parses (λ p. (option_map (pair_seen K.json V.json) p, reader.new))
        (turn K.key K.item V.item false place reader.old) result }
    ensures shorter { OnOk result (length reader.new < length reader.old) }
{
    if end_array(reader) {
        return Ok(None);
    }
    if begin_array(reader).is_err() {
        return Err(TextFault::NotAPair { place });
    }
    if end_array(reader) {
        return Err(TextFault::NotAPair { place });
    }
    match K::from_tokens(alloc, reader, IN_ROW) {
        Ok(key) => read_row(alloc, reader, place, key),
        Err(ItemFault::Memory) => Err(TextFault::Memory),
        Err(fault) => Err(TextFault::Key { place, fault }),
    }
}

// The pair of a key and the item after it, and its closing bracket.
fn read_row<K: JsonKey + Drop, V: JsonItem + Drop>(
    alloc: Global,
    reader: &mut Reader<'_>,
    place: usize,
    key: K,
) -> Result<Option<(K, V)>, TextFault>
    ensures pair { Parses (λ p. (option_map (pair_seen K.json V.json) p, reader.new))
        (row_item K.key K.item V.item place (K.json key) reader.old) result }
    ensures shorter { OnOk result (length reader.new < length reader.old) }
{
    if end_array(reader) {
        return Err(TextFault::NotAPair { place });
    }
    let item = match V::from_tokens(alloc, reader, IN_ROW) {
        Ok(item) => item,
        Err(ItemFault::Memory) => return Err(TextFault::Memory),
        Err(fault) => return Err(TextFault::Item { place, fault }),
    };
    if !end_array(reader) {
        return Err(TextFault::NotAPair { place });
    }
    Ok(Some((key, item)))
}
