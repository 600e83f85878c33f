//! What comes next in a JSON text: a value, or a token of one kind.
ghost use Rattle.std.specs.Prelude.{◌≡◌, ◌≢◌, ◌<◌, ◌≤◌, ◌∷◌, IfErr, IfOk, IfSome, MatchResult, None, OnOk, Some, length};
ghost use Rattle.std.specs.Bool.{MatchBool};
ghost use Rattle.json.specs.Json.{after_end_array};
ghost use Rattle.json.specs.Token.{boolean, number, string};
ghost use Rattle.json.specs.Tree.{HasNumbers, depth as nesting};
ghost use Rattle.json.specs.Value.{value_view};
ghost use Rattle.serde_json.specs.Find.{as_bool, as_number, as_str};
ghost use Rattle.serde_json.specs.Read.{max_depth, of_json};
ghost use Rattle.serde_json.specs.View.{view};
ghost use Rattle.litemap_json.specs.Taken.{after_begin_array, first_tree, scalar};
ghost use Rattle.litemap_json.specs.declared.item.ItemFault.TheVariants as item;

use crate::item::ItemFault;
use json::{Reader, Token};
use serde_json::Value;
use std::alloc::Global;

/// Takes the next value of a JSON text, and returns it. Arrays and objects nest no deeper in it than `depth`.
///
/// # Errors
///
/// If no value comes next, or one that nests deeper, or with a number past an `f64`, it is `NoValue`. `Memory` may come in place
/// of any result. After an error the reader may stand anywhere.
pub fn next_value(alloc: Global, reader: &mut Reader<'_>, depth: usize) -> Result<Value, ItemFault>
    requires { depth ≤ max_depth }
    ensures value { IfOk result (λ value. first_tree depth reader.old ≡ Some (view value, reader.new)) }
    ensures shorter { OnOk result (length reader.new < length reader.old) }
    ensures error { IfErr result
        (λ e. e ≢ item.Memory → (e ≡ item.NoValue) × (first_tree depth reader.old ≡ None)) }
{
    match json::Value::read(alloc, reader, depth) {
        Ok(tree) => value_of(alloc, &tree),
        Err(json::Error::OutOfMemory) => Err(ItemFault::Memory),
        Err(_) => Err(ItemFault::NoValue),
    }
}

// Returns the value of a tree whose numbers are texts. It is written, and read again.
#[tactic(auto, using(crate::proofs::FirstItem::read_printed))]
fn value_of(alloc: Global, tree: &json::Value<'_>) -> Result<Value, ItemFault>
    requires numbers { HasNumbers (value_view tree.now) }
    requires nests { nesting (value_view tree.now) ≤ max_depth }
    ensures value { IfOk result (λ value. of_json (value_view tree.now) ≡ Some (view value)) }
    ensures error { IfErr result
        (λ e. e ≢ item.Memory → (e ≡ item.NoValue) × (of_json (value_view tree.now) ≡ None)) }
{
    let Ok(text) = json::to_vec(alloc, tree) else {
        return Err(ItemFault::Memory);
    };
    match Value::from_slice(alloc, text.as_slice()) {
        Ok(value) => Ok(value),
        Err(error) if error.is_memory() => Err(ItemFault::Memory),
        Err(_) => Err(ItemFault::NoValue),
    }
}

/// Takes a number, if it comes next. Another value is `Shape`, none is `NoValue`, and then the reader may stand anywhere.
pub(crate) fn next_number<'a>(reader: &mut Reader<'a>) -> Result<&'a str, ItemFault>
    ensures { MatchResult result (λ text. reader.old ≡ number text.now ∷ reader.new)
        (λ e. IfSome (scalar reader.old) (λ d. (as_number d ≡ None) × (e ≡ item.Shape))) }
{
    match reader.next() {
        Some(Token::Number(text)) => Ok(text),
        Some(Token::EndObject | Token::EndArray | Token::Key(_) | Token::Bad) | None => Err(
            ItemFault::NoValue,
        ),
        _ => Err(ItemFault::Shape),
    }
}

/// Takes a string, as `next_number` a number.
pub(crate) fn next_string<'a>(reader: &mut Reader<'a>) -> Result<&'a str, ItemFault>
    ensures { MatchResult result (λ text. reader.old ≡ string text.now ∷ reader.new)
        (λ e. IfSome (scalar reader.old) (λ d. (as_str d ≡ None) × (e ≡ item.Shape))) }
{
    match reader.next() {
        Some(Token::String(text)) => Ok(text),
        Some(Token::EndObject | Token::EndArray | Token::Key(_) | Token::Bad) | None => Err(
            ItemFault::NoValue,
        ),
        _ => Err(ItemFault::Shape),
    }
}

/// Takes a truth value, as `next_number` a number.
pub(crate) fn next_boolean(reader: &mut Reader<'_>) -> Result<bool, ItemFault>
    ensures { MatchResult result (λ flag. reader.old ≡ boolean flag ∷ reader.new)
        (λ e. IfSome (scalar reader.old) (λ d. (as_bool d ≡ None) × (e ≡ item.Shape))) }
{
    match reader.next() {
        Some(Token::Bool(flag)) => Ok(flag),
        Some(Token::EndObject | Token::EndArray | Token::Key(_) | Token::Bad) | None => Err(
            ItemFault::NoValue,
        ),
        _ => Err(ItemFault::Shape),
    }
}

/// Takes the bracket that opens an array, as `next_number` a number.
pub(crate) fn begin_array(reader: &mut Reader<'_>) -> Result<(), ItemFault>
    ensures value { MatchResult result (λ _. after_begin_array reader.old ≡ Some reader.new)
        (λ e. (after_begin_array reader.old ≡ None) × IfSome (scalar reader.old) (λ _. e ≡ item.Shape)) }
    ensures shorter { OnOk result (length reader.new < length reader.old) }
{
    match reader.next() {
        Some(Token::BeginArray) => Ok(()),
        Some(Token::EndObject | Token::EndArray | Token::Key(_) | Token::Bad) | None => Err(
            ItemFault::NoValue,
        ),
        _ => Err(ItemFault::Shape),
    }
}

/// Takes the bracket that closes an array, if it comes next.
pub(crate) fn end_array(reader: &mut Reader<'_>) -> bool
    ensures value { MatchBool result (after_end_array reader.old ≡ Some reader.new)
        ((after_end_array reader.old ≡ None) × (reader.new ≡ reader.old)) }
    ensures shorter { length reader.new ≤ length reader.old }
{
    reader.take_end_array()
}
