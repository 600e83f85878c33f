//! A type of keys of which some have a text and some have none.
ghost use Rattle.std.specs.Prelude.{◌==◌, ◌%◌, if◌then◌else◌, None, Some, decimal, pos};
ghost use Rattle.litemap_json.specs.Item.{unsigned_fits, whole_item, whole_json};
ghost use Rattle.litemap_json.specs.OneTree.{unsigned_one_tree};
ghost use Rattle.example_formats.specs.Evens.{even_key};

use litemap_json::{ItemFault, JsonItem, JsonKey};
use serde_json::Value;
use std::alloc::{AllocError, Global};

/// A number, whose text is its decimal one if it is even, and which has none if it is odd.
#[derive(Clone, Copy, PartialEq, Eq, PartialOrd, Ord)]
pub struct Even {
    /// The number.
    pub number: u32,
}

impl JsonItem for Even {
    ghost json = { λ x. whole_json (pos x.number) };

    ghost item = { whole_item (unsigned_fits 32) };

    fn to_value(&self, alloc: Global) -> Result<Value, AllocError> {
        self.number.to_value(alloc)
    }

    fn from_value(alloc: Global, value: &Value) -> Result<Even, ItemFault> {
        let number = u32::from_value(alloc, value)?;
        Ok(Even { number })
    }
}

impl JsonKey for Even {
    ghost text = { λ x. if x.number % 2 == 0 then Some (decimal x.number) else None };

    ghost key = { even_key };

    fn key_text(&self, alloc: Global) -> Result<Option<String>, AllocError> {
        if self.number % 2 == 0 {
            self.number.key_text(alloc)
        } else {
            Ok(None)
        }
    }

    fn from_key_text(alloc: Global, name: &str) -> Result<Option<Even>, AllocError> {
        match u32::from_key_text(alloc, name)? {
            Some(number) if number % 2 == 0 => Ok(Some(Even { number })),
            _ => Ok(None),
        }
    }

    ghost one_tree = { λ x y e. unsigned_one_tree x.number y.number e };
}
