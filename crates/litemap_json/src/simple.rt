//! Booleans and strings.
ghost use Rattle.std.specs.Prelude.{◌≡◌, ◌≢◌, Some, Ok, Err, IfOk, IfSome, IsOk, MatchResult, OnOk, option_map, string_bytes};
ghost use Rattle.serde_json.specs.Data.{boolean, string};
ghost use Rattle.serde_json.specs.View.{view};
ghost use Rattle.litemap_json.specs.Item.{Reads, bool_item, bool_key, bool_text, text_item};
ghost use Rattle.litemap_json.specs.OneTree.{bool_one_tree, text_one_tree};
ghost use Rattle.litemap_json.specs.declared.item.ItemFault.TheVariants.{Memory};

use crate::item::{ItemFault, JsonItem, JsonKey};
use crate::next::{next_boolean, next_string};
use json::{Reader, Writer};
use serde_json::Value;
use std::alloc::{AllocError, Global};

/// Only `write_to` may run out of memory: no other call takes any.
impl JsonItem for bool {
    ghost json = { boolean };

    ghost item = { bool_item };

    fn to_value(&self, _alloc: Global) -> Result<Value, AllocError>
        ensures tree { IfOk result (λ value. view value ≡ boolean self.now) }
        ensures reads_back { OnOk result (bool_item (boolean self.now) ≡ Ok (boolean self.now)) }
        ensures succeeds { IsOk result }
    {
        Ok(Value::from(*self))
    }

    fn from_value(_alloc: Global, value: &Value) -> Result<bool, ItemFault>
        ensures answers { Reads Memory boolean (bool_item (view value.now)) result }
        ensures no_memory { result ≢ Err Memory }
    {
        value.as_bool().ok_or(ItemFault::Shape)
    }

    #[tactic(auto, using(crate::proofs::FirstItem::flag_taken))]
    fn from_tokens(
        _alloc: Global,
        reader: &mut Reader<'_>,
        _depth: usize,
    ) -> Result<bool, ItemFault> {
        next_boolean(reader)
    }

    fn write_to(&self, _alloc: Global, out: &mut Writer) -> Result<(), AllocError> {
        out.boolean(*self)
    }

    fn wanted() -> &'static str {
        "a truth value"
    }
}

/// Only `key_text` may run out of memory: `from_key_text` takes none.
impl JsonKey for bool {
    ghost text = { λ b. Some (bool_text b) };

    ghost key = { bool_key };

    fn key_text(&self, alloc: Global) -> Result<Option<String>, AllocError> {
        Ok(Some(String::from_str(alloc, if *self { "true" } else { "false" })?))
    }

    fn from_key_text(_alloc: Global, name: &str) -> Result<Option<bool>, AllocError>
        ensures key { IfOk result (λ found. option_map boolean found ≡ bool_key name.now) }
        ensures one_spelling { IfOk result (λ found. IfSome found (λ b. Some (bool_text b) ≡ Some name.now)) }
        ensures succeeds { IsOk result }
    {
        match name {
            "true" => Ok(Some(true)),
            "false" => Ok(Some(false)),
            _ => Ok(None),
        }
    }

    ghost one_tree = { bool_one_tree };
}

impl JsonItem for String {
    ghost json = { λ s. string (string_bytes s) };

    ghost item = { text_item };

    fn to_value(&self, alloc: Global) -> Result<Value, AllocError> {
        Value::try_from_str(alloc, self.as_str())
    }

    fn from_value(alloc: Global, value: &Value) -> Result<String, ItemFault> {
        match value.as_str() {
            None => Err(ItemFault::Shape),
            Some(text) => copy_of(alloc, text),
        }
    }

    #[tactic(auto, using(crate::proofs::FirstItem::no_text))]
    fn from_tokens(
        alloc: Global,
        reader: &mut Reader<'_>,
        _depth: usize,
    ) -> Result<String, ItemFault> {
        match next_string(reader) {
            Ok(text) => copy_of(alloc, text),
            Err(fault) => Err(fault),
        }
    }

    fn write_to(&self, _alloc: Global, out: &mut Writer) -> Result<(), AllocError> {
        out.string(self.as_str())
    }

    fn wanted() -> &'static str {
        "a text"
    }
}

impl JsonKey for String {
    ghost text = { λ s. Some (string_bytes s) };

    ghost key = { λ s. Some (string s) };

    fn key_text(&self, alloc: Global) -> Result<Option<String>, AllocError> {
        Ok(Some(String::from_str(alloc, self.as_str())?))
    }

    fn from_key_text(alloc: Global, name: &str) -> Result<Option<String>, AllocError> {
        Ok(Some(String::from_str(alloc, name)?))
    }

    ghost one_tree = { text_one_tree };
}

fn copy_of(alloc: Global, text: &str) -> Result<String, ItemFault>
    ensures { MatchResult result (λ copy. string_bytes copy ≡ text.now) (λ e. e ≡ Memory) }
{
    String::from_str(alloc, text).map_err(|_| ItemFault::Memory)
}
