//! Why a map was not written, or not read.
ghost use Rattle.std.specs.Prelude.{◌≡◌};
ghost use Rattle.litemap_json.specs.declared.fault.WriteFault.TheVariants as writing;
ghost use Rattle.litemap_json.specs.declared.fault.JsonFault.TheVariants as reading;
ghost use Rattle.litemap_json.specs.declared.fault.TextFault.TheVariants as parsing;

use crate::item::ItemFault;
use std::alloc::AllocError;
use std::io;
use thiserror::Error;

/// Why a map was not written as JSON.
#[derive(Debug, PartialEq, Drop, Error)]
pub enum WriteFault {
    /// Memory ran out.
    #[error("there is not enough memory")]
    Memory,
    /// The first key has a string, but this key has none. It is the first key without one.
    #[error("the key at place {place} (from 0) has no text, and the first key has one: give all keys a text, or none")]
    KeyWithoutText {
        /// The key's index in the map.
        place: usize,
    },
}

/// Why a JSON value was not read as a map.
///
/// A `place` is the index of an array's element, or that of an object's member, whose members stand in the byte order of their
/// names. It is the first one that represents no pair. Of an element or member the pair's shape comes first, then the key, then
/// the item.
///
/// ```rust
/// let value = Value::from_str(alloc, r#"{"1":8,"3":300}"#)?;
/// let read: Result<Hours, JsonFault> = from_json(alloc, &value);
/// let fault = ItemFault::Range;
/// Ok(read.err() == Some(JsonFault::Item { place: 1, fault }))
/// ```
#[derive(Debug, PartialEq, Drop, Error)]
pub enum JsonFault {
    /// Memory ran out. It may come in place of an error at the same or a later index.
    #[error("there is not enough memory")]
    Memory,
    /// The value is neither an array nor an object.
    #[error("a map is an object or an array of [key, item] arrays, and this value is neither")]
    NotAMap,
    /// An array's element is not an array of exactly two.
    #[error("the element at place {place} (from 0) is not an array of exactly a key and an item")]
    NotAPair {
        /// The element's index.
        place: usize,
    },
    /// A member's name is no key's string.
    #[error("the name of the member at place {place} (from 0, by the byte order of the names) is not a key's text")]
    KeyText {
        /// The member's index.
        place: usize,
    },
    /// The first value of an array's element is no key.
    #[error("the key at place {place} (from 0): {fault}")]
    Key {
        /// The element's index.
        place: usize,
        /// Why it is no key.
        fault: ItemFault,
    },
    /// A member's value, or the second value of an array's element, is no item.
    #[error("the item at place {place} (from 0): {fault}")]
    Item {
        /// The index of the element or member.
        place: usize,
        /// Why it is no item.
        fault: ItemFault,
    },
}

/// Why a JSON text was not read as a map.
///
/// A `place` is the index of an object's member or an array's element, in the order of the text. It is the first one that spells
/// no pair. Of a member or an element the name or the key comes before the item. That an element has a third value is seen after
/// its item.
///
/// ```rust
/// let read: Result<Hours, TextFault> = read_json(alloc, r#"{"3":300,"1":8}"#);
/// let fault = ItemFault::Range;
/// Ok(read.err() == Some(TextFault::Item { place: 0, fault }))
/// ```
#[derive(Debug, PartialEq, Drop, Error)]
pub enum TextFault {
    /// Memory ran out. It may come in place of any result but that of an empty text.
    #[error("there is not enough memory")]
    Memory,
    /// The text begins with neither a bracket nor a brace.
    #[error("a map is an object or an array of [key, item] arrays, and the text begins with neither")]
    NotAMap,
    /// Neither a name nor the closing brace stands where a member would begin.
    #[error("neither a name nor the closing brace stands at place {place} (from 0)")]
    NoName {
        /// The member's index.
        place: usize,
    },
    /// An array's element is not an array of exactly two.
    #[error("the element at place {place} (from 0) is not an array of exactly a key and an item")]
    NotAPair {
        /// The element's index.
        place: usize,
    },
    /// A member's name is no key's string.
    #[error("the name of the member at place {place} (from 0, in the text's order) is not a key's text")]
    KeyText {
        /// The member's index.
        place: usize,
    },
    /// The first value of an array's element is no key.
    #[error("the key at place {place} (from 0): {fault}")]
    Key {
        /// The element's index.
        place: usize,
        /// Why it is no key.
        fault: ItemFault,
    },
    /// A member's value, or the second value of an array's element, is no item.
    #[error("the item at place {place} (from 0, in the text's order): {fault}")]
    Item {
        /// The index of the member or element.
        place: usize,
        /// Why it is no item.
        fault: ItemFault,
    },
    /// Something follows the object or the array.
    #[error("something follows the map")]
    AfterMap,
}

impl From<AllocError> for WriteFault {
    ghost from_gives = { λ _ fault. fault ≡ writing.Memory };

    fn from(_refused: AllocError) -> WriteFault {
        WriteFault::Memory
    }
}

impl From<AllocError> for JsonFault {
    ghost from_gives = { λ _ fault. fault ≡ reading.Memory };

    fn from(_refused: AllocError) -> JsonFault {
        JsonFault::Memory
    }
}

impl From<AllocError> for TextFault {
    ghost from_gives = { λ _ fault. fault ≡ parsing.Memory };

    fn from(_refused: AllocError) -> TextFault {
        TextFault::Memory
    }
}

/// Lets `?` return it in a function that returns an `io::Result`. The index is lost: to show it, print the error first.
impl From<WriteFault> for io::Error {
    ghost use Rattle.std.specs.Prelude.{◌≡◌};
    ghost use Rattle.std.specs.IoError.{error_kind};
    ghost use Rattle.litemap_json.specs.Kinds.{write_kind};

    ghost from_gives = { λ fault e. error_kind e ≡ write_kind fault };

    fn from(fault: WriteFault) -> io::Error {
        let words = match fault {
            WriteFault::Memory => return io::Error::from(AllocError),
            WriteFault::KeyWithoutText { place: _ } =>
                "a key has no text in JSON, and the first key has one",
        };
        io::Error::new(io::ErrorKind::InvalidData, words)
    }
}

/// Lets `?` return it in a function that returns an `io::Result`. The index and the `ItemFault` are dropped: to show them, print
/// the error first.
impl From<JsonFault> for io::Error {
    ghost use Rattle.std.specs.Prelude.{◌≡◌};
    ghost use Rattle.std.specs.IoError.{error_kind};
    ghost use Rattle.litemap_json.specs.Kinds.{read_kind};

    ghost from_gives = { λ fault e. error_kind e ≡ read_kind fault };

    fn from(fault: JsonFault) -> io::Error {
        let words = match fault {
            JsonFault::Memory => return io::Error::from(AllocError),
            JsonFault::NotAMap => "a JSON value is no map",
            JsonFault::NotAPair { place: _ } => "an element in JSON is not a key and an item",
            JsonFault::KeyText { place: _ } => "a name in JSON is not a key's text",
            JsonFault::Key { place: _, fault: _ } => "a key in JSON is not of its type",
            JsonFault::Item { place: _, fault: _ } => "an item in JSON is not of its type",
        };
        io::Error::new(io::ErrorKind::InvalidData, words)
    }
}

/// Lets `?` return it in a function that returns an `io::Result`. The index and the `ItemFault` are dropped: to show them, print
/// the error first.
impl From<TextFault> for io::Error {
    ghost use Rattle.std.specs.Prelude.{◌≡◌};
    ghost use Rattle.std.specs.IoError.{error_kind};
    ghost use Rattle.litemap_json.specs.Kinds.{text_kind};

    ghost from_gives = { λ fault e. error_kind e ≡ text_kind fault };

    fn from(fault: TextFault) -> io::Error {
        let words = match fault {
            TextFault::Memory => return io::Error::from(AllocError),
            TextFault::NotAMap => "a JSON text is no map",
            TextFault::NoName { place: _ } => "a name is missing in JSON",
            TextFault::NotAPair { place: _ } => "an element in JSON is not a key and an item",
            TextFault::KeyText { place: _ } => "a name in JSON is not a key's text",
            TextFault::Key { place: _, fault: _ } => "a key in JSON is not of its type",
            TextFault::Item { place: _, fault: _ } => "an item in JSON is not of its type",
            TextFault::AfterMap => "something follows a map in JSON",
        };
        io::Error::new(io::ErrorKind::InvalidData, words)
    }
}
