//! What a type needs to be an item or a key of a map that is written as JSON.
ghost use Rattle.std.specs.Prelude.{◌≡◌, ◌<◌, ◌≤◌, ℕ, List, length, Option, Some, Result, Ok, IfOk, IfSome, OnOk, option_map, string_bytes};
ghost use Rattle.std.specs.declared.cmp.Ordering.TheVariants.{Equal};
ghost use Rattle.std.specs.Fmt.{signed_decimal};
ghost use Rattle.serde_json.specs.Data.{Data};
ghost use Rattle.serde_json.specs.View.{view};
ghost use Rattle.serde_json.specs.Read.{max_depth};
ghost use Rattle.litemap_json.specs.Item.{Reads};
ghost use Rattle.litemap_json.specs.Taken.{TakesItem, taken};
ghost use Rattle.litemap_json.specs.Written.{WritesTree};
ghost use Rattle.litemap_json.specs.declared.item.ItemFault.{ItemFault};
ghost use Rattle.litemap_json.specs.declared.item.ItemFault.TheVariants.{Memory};

use crate::next::next_value;
use crate::written::write_value;
use json::{Reader, Writer};
use serde_json::Value;
use std::alloc::{AllocError, Global};
use thiserror::Error;

/// Why a JSON value is no item of a type.
#[derive(Debug, PartialEq, Drop, Error)]
pub enum ItemFault {
    /// Memory ran out.
    #[error("there is not enough memory")]
    Memory,
    /// It is a value of another kind.
    #[error("it is a JSON value of another kind than the type's")]
    Shape,
    /// It is a whole number that the type doesn't have.
    #[error("it is a whole number outside of the type's range")]
    Range,
    /// It is a number with a fraction or an exponent, or one that is held as such: `-0`, or past 64 bits.
    #[error("it is a number with a fraction or an exponent, `-0`, or a number of more than 64 bits")]
    Float,
    /// No JSON value stands there. It comes from reading a text alone.
    #[error("no JSON value stands there")]
    NoValue,
}

/// A type whose values are written as JSON, and read back.
///
/// A contract sees a value as its tree, `json x`, and what a tree represents as the tree of that value, `item d`.
pub trait JsonItem {
    /// The tree of a value. Values with one tree are the same to a reader.
    ghost json: { Self → Data };

    /// How a tree `d` reads: the tree `json x` of the value `x` that it represents, or why it represents none.
    ghost item: { Data → Result Data ItemFault };

    /// Returns the value as JSON, which reads as the same value. It fails if memory runs out.
    fn to_value(&self, alloc: Global) -> Result<Value, AllocError>
        ensures tree { IfOk result (λ value. view value ≡ json self.now) }
        ensures reads_back { OnOk result (item (json self.now) ≡ Ok (json self.now)) };

    /// Returns the value that a JSON value represents. `Memory` may come in place of any result.
    fn from_value(alloc: Global, value: &Value) -> Result<Self, ItemFault>
        ensures { Reads Memory json (item (view value.now)) result };

    /// Writes the value as JSON. By default it makes the `Value` of `to_value`, and writes that; override it to make none.
    ///
    /// If memory runs out, part of the value may be written. The bytes that the writer was made with (`before`) always stay.
    fn write_to(&self, alloc: Global, out: &mut Writer) -> Result<(), AllocError>
        ensures tree { OnOk result (WritesTree (json self.now) out.old.tokens out.new.tokens) }
        ensures before { out.new.before ≡ out.old.before }
    {
        let value = self.to_value(alloc)?;
        write_value(alloc, &value, out)
    }

    /// Takes the next value of a JSON text from `reader`, and returns what it represents. Arrays and objects nest no deeper in it
    /// than `depth`. By default it makes a `Value`, and calls `from_value`; override it to make none.
    ///
    /// # Errors
    ///
    /// If it is a number, a string, a boolean or `null`, the error is that of `from_value`. Of an array or an object it may be
    /// that of a part, and if no value comes next, any. `Memory` may come in place of any result. After an error the reader may
    /// stand anywhere.
    #[tactic(auto, using(crate::proofs::FirstItem::value_taken, crate::proofs::FirstItem::no_value_taken))]
    fn from_tokens(alloc: Global, reader: &mut Reader<'_>, depth: usize) -> Result<Self, ItemFault>
        requires { depth ≤ max_depth }
        ensures taken { TakesItem (λ x. (json x, reader.new)) (taken item depth reader.old) result }
        ensures shorter { OnOk result (length reader.new < length reader.old) }
    {
        let value = next_value(alloc, reader, depth)?;
        Self::from_value(alloc, &value)
    }

    /// Returns what a JSON value has to be to represent a value of the type, in words that `is wanted` can follow, for an error
    /// that is shown to people. By default it is `a value of the type`.
    fn wanted() -> &'static str {
        "a value of the type"
    }
}

/// A type whose values are written as the keys of a map: as the names of an object's members if they have strings, else as JSON
/// values.
///
/// A contract sees a key as the bytes of its string, `text k`, and the key that a string represents as that key's tree, `key s`.
pub trait JsonKey: JsonItem + Ord {
    /// The string that stands for a key as a member's name, if it has one.
    ghost text: { Self → Option (List ℕ) };

    /// The tree of the key that has this string, if there is one.
    ghost key: { List ℕ → Option Data };

    /// Returns the key's string, which reads as the same key, or `None` if it has none. It fails if memory runs out.
    fn key_text(&self, alloc: Global) -> Result<Option<String>, AllocError>
        ensures text { IfOk result (λ name. option_map string_bytes name ≡ text self.now) }
        ensures reads_back { OnOk result (IfSome (text self.now)
            (λ name. key name ≡ Some (Self.json self.now))) };

    /// Returns the key that has this string, or `None` if no key has it. A key has one string at most: any other way to write it,
    /// as `07` for 7, gives `None`. It fails if memory runs out.
    ///
    /// ```rust
    /// let seven = u32::from_key_text(alloc, "7")?;
    /// let other_spelling = u32::from_key_text(alloc, "07")?;
    /// Ok(seven == Some(7) && other_spelling.is_none())
    /// ```
    fn from_key_text(alloc: Global, name: &str) -> Result<Option<Self>, AllocError>
        ensures key { IfOk result (λ found. option_map Self.json found ≡ key name.now) }
        ensures one_spelling { IfOk result (λ found. IfSome found (λ k. text k ≡ Some name.now)) };

    /// Returns the integer whose decimal digits are the key's string, if the type knows of one. If the first key has one,
    /// `write_json` makes no strings for the names of those that 64 bits hold. By default it is `None`.
    fn key_number(&self) -> Option<i128>
        ensures { IfSome result (λ number. text self.now ≡ Some (signed_decimal number)) }
    {
        None
    }

    /// Keys with one tree are equal.
    ghost one_tree: { (x y : Self) → Self.json x ≡ Self.json y → Self.cmp x y ≡ Equal };
}
