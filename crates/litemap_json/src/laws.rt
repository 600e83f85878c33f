//! Laws over the definitions of `specs/`. Each function does nothing: its contract is the law.
ghost use Rattle.litemap_json.specs.Laws.{OneName, OneReading, OneReadingByText, TextReading};

use crate::item::{JsonItem, JsonKey};

/// Two maps that one JSON value is read as have the same trees of keys and items, pair by pair, since keys with one tree are
/// equal. So what `from_json` reads from what `to_json` made has the trees of the map that was written.
pub fn one_reading<K: JsonKey, V: JsonItem>()
    ensures { OneReading K.cmp K.key K.item V.item K.json V.json }
{}

/// In two maps with string keys that one JSON value is read as, each lookup finds items with the same tree, or none in either.
/// The strings themselves are new values each time they are read, with the same bytes.
pub fn one_reading_by_string<V: JsonItem>()
    ensures { OneReadingByText ⟦<String as Ord>⟧.cmp ⟦<String as JsonKey>⟧.key ⟦<String as JsonItem>⟧.item V.item
        ⟦<String as JsonItem>⟧.json V.json }
{}

/// A map that `read_json` reads from a text is one that `from_json` reads from the text's `Value`, if equal keys have one name
/// (`OneName`): with `one_reading`, both have the same trees of keys and items, pair by pair.
pub fn text_reading<K: JsonKey, V: JsonItem>()
    ensures { TextReading K.cmp K.key K.item V.item K.json V.json }
{}

/// Equal strings have one name, as `text_reading` asks of its keys.
pub fn one_name_by_string()
    ensures { OneName ⟦<String as Ord>⟧.cmp ⟦<String as JsonKey>⟧.key ⟦<String as JsonItem>⟧.json }
{}
