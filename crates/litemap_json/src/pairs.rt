//! Pairs of items, as arrays of two.
ghost use Rattle.std.specs.Prelude.{◌≡◌, ◌++◌, ◌∷◌, ◌<◌, ◌≤◌, [], IfOk, None, OnOk, Some, length, option_map, slice_get};
ghost use Rattle.json.specs.Json.{after_end_array};
ghost use Rattle.serde_json.specs.Read.{max_depth};
ghost use Rattle.serde_json.specs.View.{view};
ghost use Rattle.litemap_json.specs.Item.{pair_item, pair_json, two_of};
ghost use Rattle.litemap_json.specs.OneTree.{pair_one_tree};
ghost use Rattle.litemap_json.specs.Reading.{ReadsBack};
ghost use Rattle.litemap_json.specs.Taken.{TakesItem, not_closed, taken, then_second, two_taken};
ghost use Rattle.litemap_json.specs.Written.{WritesTree};

use crate::item::{ItemFault, JsonItem, JsonKey};
use crate::next::{begin_array, end_array};
use json::{Reader, Writer};
use litemap::LiteMap;
use litemap::store::Store;
use serde_json::Value;
use std::alloc::{AllocError, Global};

/// Returns the two items of an array of exactly two, `None` for any other value.
///
/// ```rust
/// let value = Value::from_str(alloc, "[3,true]")?;
/// match two_items(&value) {
///     Some((first, second)) => Ok(first.as_u64() == Some(3) && second.as_bool() == Some(true)),
///     None => Ok(false),
/// }
/// ```
pub fn two_items(value: &Value) -> Option<(&Value, &Value)>
    ensures { option_map (λ p. (view p.0.now, view p.1.now)) result ≡ two_of (view value.now) }
{
    match value.as_array() {
        Some(parts) if parts.len() == 2 => Some((&parts[0], &parts[1])),
        _ => None,
    }
}

/// Makes the array of two values. It fails if memory runs out.
pub fn array_of_two(alloc: Global, first: Value, second: Value) -> Result<Value, AllocError>
    ensures { IfOk result (λ pair. view pair ≡ pair_json (view first) (view second)) }
{
    let mut parts = Vec::with_capacity(alloc, 2)?;
    parts.push(first)?;
    parts.push(second)?;
    Ok(Value::from(parts))
}

/// Makes the array of two items' values.
pub(crate) fn value_of_two<A: JsonItem, B: JsonItem>(
    alloc: Global,
    first: &A,
    second: &B,
) -> Result<Value, AllocError>
    ensures tree { IfOk result (λ pair. view pair ≡ pair_json (A.json first.now) (B.json second.now)) }
    ensures reads_back { OnOk result (ReadsBack A.item B.item A.json B.json (first.now, second.now)) }
{
    let first = first.to_value(alloc)?;
    let second = second.to_value(alloc)?;
    array_of_two(alloc, first, second)
}

// Takes the two items of an array, of which the first bracket was taken, and its last bracket.
fn two_in<A: JsonItem + Drop, B: JsonItem + Drop>(
    alloc: Global,
    reader: &mut Reader<'_>,
    depth: usize,
) -> Result<(A, B), ItemFault>
    requires { depth ≤ max_depth }
    ensures taken { TakesItem (λ p. (pair_json (A.json p.0) (B.json p.1), reader.new))
        (two_taken A.item B.item depth reader.old) result }
    ensures shorter { OnOk result (length reader.new < length reader.old) }
{
    if end_array(reader) {
        return Err(ItemFault::Shape);
    }
    match A::from_tokens(alloc, reader, depth) {
        Ok(first) => second_in(alloc, reader, depth, first),
        Err(fault) => Err(fault),
    }
}

fn second_in<A: JsonItem + Drop, B: JsonItem + Drop>(
    alloc: Global,
    reader: &mut Reader<'_>,
    depth: usize,
    first: A,
) -> Result<(A, B), ItemFault>
    requires { depth ≤ max_depth }
    ensures taken { TakesItem (λ p. (pair_json (A.json p.0) (B.json p.1), reader.new))
        (not_closed (after_end_array reader.old) (then_second (A.json first) (taken B.item depth reader.old))) result }
    ensures shorter { OnOk result (length reader.new < length reader.old) }
{
    if end_array(reader) {
        return Err(ItemFault::Shape);
    }
    let second = match B::from_tokens(alloc, reader, depth) {
        Ok(second) => second,
        Err(fault) => return Err(fault),
    };
    if !end_array(reader) {
        return Err(ItemFault::Shape);
    }
    Ok((first, second))
}

/// Appends the array of two items to what a writer has. If memory runs out, some of it may be written.
pub(crate) fn write_two<A: JsonItem, B: JsonItem>(
    alloc: Global,
    first: &A,
    second: &B,
    out: &mut Writer,
) -> Result<(), AllocError>
    ensures tree { OnOk result
        (WritesTree (pair_json (A.json first.now) (B.json second.now)) out.old.tokens out.new.tokens) }
    ensures before { out.new.before ≡ out.old.before }
{
    out.begin_array()?;
    first.write_to(alloc, out)?;
    second.write_to(alloc, out)?;
    out.end_array()
}

/// Returns the pair at an index within a map.
pub(crate) fn pair_at<K: Ord, V, S: Store<K, V>>(map: &LiteMap<K, V, S>, place: usize) -> (&K, &V)
    requires { place < length map.now.entries }
    ensures { Some (result.0.now, result.1.now) ≡ slice_get map.now.entries place }
{
    map.get_indexed(place).unwrap()
}

/// Appends a pair to others.
pub(crate) fn push_pair<K: Drop, V: Drop>(
    pairs: &mut Vec<(K, V)>,
    pair: (K, V),
) -> Result<(), AllocError>
    ensures { OnOk result (pairs.new.items ≡ pairs.old.items ++ pair ∷ []) }
{
    Ok(pairs.push(pair)?)
}

impl<A: JsonItem + Drop, B: JsonItem + Drop> JsonItem for (A, B) {
    ghost json = { λ p. pair_json (A.json p.0) (B.json p.1) };

    ghost item = { pair_item A.item B.item };

    fn to_value(&self, alloc: Global) -> Result<Value, AllocError> {
        value_of_two(alloc, &self.0, &self.1)
    }

    fn from_value(alloc: Global, value: &Value) -> Result<(A, B), ItemFault> {
        let Some((first, second)) = two_items(value) else {
            return Err(ItemFault::Shape);
        };
        Ok((A::from_value(alloc, first)?, B::from_value(alloc, second)?))
    }

    #[tactic(auto, using(crate::proofs::TwoTaken::no_pair, crate::proofs::TwoTaken::too_deep))]
    fn from_tokens(
        alloc: Global,
        reader: &mut Reader<'_>,
        depth: usize,
    ) -> Result<(A, B), ItemFault> {
        if let Err(fault) = begin_array(reader) {
            return Err(fault);
        }
        if depth == 0 {
            return Err(ItemFault::NoValue);
        }
        two_in(alloc, reader, depth - 1)
    }

    fn write_to(&self, alloc: Global, out: &mut Writer) -> Result<(), AllocError> {
        write_two(alloc, &self.0, &self.1, out)
    }

    fn wanted() -> &'static str {
        "an array of exactly two, each of its type,"
    }
}

impl<A: JsonKey + Drop, B: JsonKey + Drop> JsonKey for (A, B) {
    ghost text = { λ _. None };

    ghost key = { λ _. None };

    fn key_text(&self, _alloc: Global) -> Result<Option<String>, AllocError> {
        Ok(None)
    }

    fn from_key_text(_alloc: Global, _name: &str) -> Result<Option<(A, B)>, AllocError> {
        Ok(None)
    }

    ghost one_tree = { pair_one_tree A.json B.json A.cmp B.cmp A.one_tree B.one_tree };
}
