//! A type of keys whose names descend where the keys ascend.
ghost use Rattle.std.specs.Prelude.{Some, string_bytes};
ghost use Rattle.serde_json.specs.Data.{string};
ghost use Rattle.litemap_json.specs.Item.{text_item};
ghost use Rattle.litemap_json.specs.OneTree.{text_one_tree};

use litemap_json::{ItemFault, JsonItem, JsonKey};
use serde_json::Value;
use std::alloc::{AllocError, Global};
use std::cmp::Reverse;

/// A string, which is below those that come before it.
#[derive(Drop, PartialEq, Eq, PartialOrd, Ord)]
pub struct Falling {
    /// The string.
    pub text: Reverse<String>,
}

impl JsonItem for Falling {
    ghost json = { λ x. string (string_bytes x.text.0) };

    ghost item = { text_item };

    fn to_value(&self, alloc: Global) -> Result<Value, AllocError> {
        self.text.0.to_value(alloc)
    }

    fn from_value(alloc: Global, value: &Value) -> Result<Falling, ItemFault> {
        let text = Reverse(String::from_value(alloc, value)?);
        Ok(Falling { text })
    }
}

impl JsonKey for Falling {
    ghost text = { λ x. Some (string_bytes x.text.0) };

    ghost key = { λ s. Some (string s) };

    fn key_text(&self, alloc: Global) -> Result<Option<String>, AllocError> {
        self.text.0.key_text(alloc)
    }

    fn from_key_text(alloc: Global, name: &str) -> Result<Option<Falling>, AllocError> {
        let text = Reverse(String::from_str(alloc, name)?);
        Ok(Some(Falling { text }))
    }

    ghost one_tree = { λ x y e. text_one_tree y.text.0 x.text.0 Prim.cc };
}
