//! A map whose keys are of a type of the caller's own goes to JSON and back, and one whose items are is read from a text.
ghost use Rattle.std.specs.Prelude.{◌≡◌};
ghost use Rattle.litemap.specs.Words.{IfOk, string_cmp};
ghost use Rattle.litemap_json.specs.Parse.{SpellsMap};
ghost use Rattle.example_formats.specs.Levels.{json_of, level_item};

use crate::levels::Level;
use litemap::VecMap;
use litemap_json::laws::one_reading;
use litemap_json::{JsonItem, JsonKey, TextFault, from_json, read_json, to_json};
use std::alloc::{AllocError, Global};

/// How many messages of each level are shown.
pub type Limits = VecMap<Level, u32>;

/// The limits, written as JSON and read back.
pub fn copied(alloc: Global, limits: &Limits) -> Result<Limits, AllocError>
    ensures { IfOk result (λ copy. copy.entries ≡ limits.now.entries) }
{
    let Ok(value) = to_json(alloc, limits) else {
        return Err(AllocError);
    };
    one_reading::<Level, u32>();
    let Ok(copy) = from_json(alloc, &value) else {
        return Err(AllocError);
    };
    Ok(copy)
}

/// The level of each sender's messages.
pub type Senders = VecMap<String, Level>;

/// Reads the levels of senders from a JSON text. A level that is an item takes the default `from_tokens`.
pub fn read_senders(alloc: Global, text: &str) -> Result<Senders, TextFault>
    ensures { IfOk result (λ senders. SpellsMap string_cmp ⟦<String as JsonKey>⟧.key ⟦<String as JsonItem>⟧.item level_item
        ⟦<String as JsonItem>⟧.json json_of text.now senders.entries) }
{
    read_json(alloc, text)
}
