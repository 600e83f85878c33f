//! An error as it is shown to people: with the name of the member, what is wanted there and what stands there.
use crate::fault::JsonFault;
use crate::item::JsonItem;
use crate::pairs::two_items;
use serde_json::Value;
use std::fmt::{self, Display, Formatter, Write};

/// An error and what stands at its index in the value that was read. `JsonFault::told_in` makes it, and `{told}` prints it.
#[derive(Drop)]
pub struct Told<'a> {
    fault: &'a JsonFault,
    // The name, if it is an object's member.
    name: Option<&'a str>,
    wanted: &'static str,
    value: Option<&'a Value>,
}

impl JsonFault {
    /// Returns the error as it is shown to people, with the member's name, what is wanted there (`JsonItem::wanted`), and what
    /// stands there in `value`, which was read as a map from `K` to `V`.
    ///
    /// An array's element has its index in place of a name. If `value` has no such index, as it may if it isn't the one that
    /// was read, or if memory ran out, the error is shown alone. No memory is taken.
    ///
    /// ```rust
    /// let value = Value::from_str(alloc, r#"{"1":8,"3":"noon"}"#)?;
    /// let read: Result<Hours, JsonFault> = from_json(alloc, &value);
    /// let Err(error) = read else { return Ok(false) };
    /// let told = format!(in alloc; "{}", error.told_in::<u32, u8>(&value))?;
    /// Ok(told.as_str() == r#""3": a whole number of 8 bits is wanted, and a text stands there"#)
    /// ```
    pub fn told_in<'a, K: JsonItem, V: JsonItem>(&'a self, value: &'a Value) -> Told<'a> {
        let (name, wanted, value) = match self {
            JsonFault::Memory => (None, "", None),
            JsonFault::NotAMap => (
                None,
                "an object or an array of [key, item] arrays",
                Some(value),
            ),
            JsonFault::NotAPair { place } => (
                None,
                "an array of exactly a key and an item",
                element(value, *place),
            ),
            JsonFault::KeyText { place } => member(value, *place, K::wanted()),
            JsonFault::Key { place, fault: _ } => {
                (None, K::wanted(), pair(value, *place).map(|parts| parts.0))
            }
            JsonFault::Item { place, fault: _ } => match pair(value, *place) {
                Some(parts) => (None, V::wanted(), Some(parts.1)),
                None => member(value, *place, V::wanted()),
            },
        };
        Told {
            fault: self,
            name,
            wanted,
            value,
        }
    }
}

fn element(value: &Value, index: usize) -> Option<&Value> {
    value.as_array()?.as_slice().get(index)
}

// The two parts of an array's element at an index.
fn pair(value: &Value, index: usize) -> Option<(&Value, &Value)> {
    two_items(element(value, index)?)
}

// An object's member at an index, in the byte order of the names: its name, what is wanted there, and its value.
fn member<'a>(
    value: &'a Value,
    index: usize,
    wanted: &'static str,
) -> (Option<&'a str>, &'static str, Option<&'a Value>) {
    match value
        .as_object()
        .and_then(|members| members.iter().nth(index))
    {
        Some((name, value)) => (Some(name.as_str()), wanted, Some(value)),
        None => (None, wanted, None),
    }
}

impl Display for Told<'_> {
    fn fmt<W: Write>(&self, f: &mut Formatter<W>) -> fmt::Result {
        let Some(value) = self.value else {
            return write!(f, "{}", self.fault);
        };
        let wanted = self.wanted;
        match (self.fault, self.name) {
            (JsonFault::KeyText { place: _ }, Some(name)) => {
                return write!(f, "the name {name:?} is no key's text: {wanted} is wanted");
            }
            (_, Some(name)) => write!(f, "{name:?}: ")?,
            (JsonFault::NotAPair { place }, None) => at(f, "the element at place ", *place)?,
            (JsonFault::Key { place, fault: _ }, None) => at(f, "the key at place ", *place)?,
            (JsonFault::Item { place, fault: _ }, None) => at(f, "the item at place ", *place)?,
            _ => {}
        }
        write!(f, "{wanted} is wanted, and ")?;
        write_kind(f, value)?;
        f.write_str(" stands there")
    }
}

// Writes the words for a part of the value, which end in `at place `, and then its index.
fn at<W: Write>(f: &mut Formatter<W>, part: &str, place: usize) -> fmt::Result {
    write!(f, "{part}{place} (from 0): ")
}

// Which kind of value it is; a number is written whole.
fn write_kind<W: Write>(f: &mut Formatter<W>, value: &Value) -> fmt::Result {
    match value.as_number() {
        Some(number) => write!(f, "{number}"),
        None => f.write_str(kind(value)),
    }
}

// Which kind a value is that is no number.
fn kind(value: &Value) -> &'static str {
    if value.is_string() {
        "a text"
    } else if value.is_boolean() {
        "a truth value"
    } else if value.is_array() {
        "an array"
    } else if value.is_object() {
        "an object"
    } else {
        "null"
    }
}
