//! An enum of unit variants as a key: each variant is a word.
ghost use Rattle.std.specs.Prelude.{◌≡◌, Some, refl};
ghost use Rattle.example_formats.specs.declared.levels.Level.TheVariants.{High, Low, Middle};
ghost use Rattle.example_formats.specs.Levels.{json_of, level_item, level_key, word_of};

use litemap_json::{ItemFault, JsonItem, JsonKey};
use serde::{Deserialize, Serialize};
use serde_json::Value;
use std::alloc::{AllocError, Global};

/// How much a message matters. The variants ascend in this order.
#[derive(Clone, Copy, PartialEq, Eq, PartialOrd, Ord, Serialize, Deserialize)]
#[serde(rename_all = "lowercase")]
pub enum Level {
    /// Only for those who look for it.
    Low,
    /// Worth a look.
    Middle,
    /// To be seen at once.
    High,
}

// The word that stands for a level.
fn word(level: Level) -> &'static str
    ensures { result.now ≡ word_of level }
{
    match level {
        Level::Low => "low",
        Level::Middle => "middle",
        Level::High => "high",
    }
}

impl JsonItem for Level {
    ghost json = { json_of };

    ghost item = { level_item };

    fn to_value(&self, alloc: Global) -> Result<Value, AllocError> {
        Value::try_from_str(alloc, word(*self))
    }

    fn from_value(alloc: Global, value: &Value) -> Result<Level, ItemFault> {
        let name = value.as_str().ok_or(ItemFault::Shape)?;
        let level = Self::from_key_text(alloc, name).map_err(|_| ItemFault::Memory)?;
        level.ok_or(ItemFault::Shape)
    }

    fn wanted() -> &'static str {
        "low, middle or high"
    }
}

impl JsonKey for Level {
    ghost text = { λ level. Some (word_of level) };

    ghost key = { level_key };

    fn key_text(&self, alloc: Global) -> Result<Option<String>, AllocError> {
        Ok(Some(String::from_str(alloc, word(*self))?))
    }

    fn from_key_text(_alloc: Global, name: &str) -> Result<Option<Level>, AllocError> {
        match name {
            "low" => Ok(Some(Level::Low)),
            "middle" => Ok(Some(Level::Middle)),
            "high" => Ok(Some(Level::High)),
            _ => Ok(None),
        }
    }

    ghost one_tree = { elim [
      | Low ↦ elim [ Low ↦ λ e. refl | Middle ↦ λ e. Prim.cc | High ↦ λ e. Prim.cc ]
      | Middle ↦ elim [ Low ↦ λ e. Prim.cc | Middle ↦ λ e. refl | High ↦ λ e. Prim.cc ]
      | High ↦ elim [ Low ↦ λ e. Prim.cc | Middle ↦ λ e. Prim.cc | High ↦ λ e. refl ]
    ] };
}
