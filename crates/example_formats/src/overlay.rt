//! Settings that a JSON text overlays.
ghost use Rattle.std.specs.Prelude.{◌≡◌};
ghost use Rattle.litemap.specs.Words.{IsUnchanged, OnErr, OnOk, Some, by_string, get_by_text, option_or, string_cmp, value_at};
ghost use Rattle.serde_json.specs.Read.{read};
ghost use Rattle.serde_json.specs.View.{view};
ghost use Rattle.litemap_json.specs.Reading.{ReadsAs};

use litemap::VecMap;
use litemap_json::{JsonFault, JsonItem, JsonKey, from_json};
use serde_json::Value;
use std::alloc::Global;

/// Settings by their names.
pub type Settings = VecMap<String, String>;

/// Why nothing was overlaid.
#[derive(Debug, Drop)]
pub enum OverlayFault {
    /// The text is no JSON.
    Text,
    /// It spells no settings, or memory ran out.
    Settings(JsonFault),
    /// Memory ran out.
    Memory,
}

/// Puts the settings that a JSON text spells over those that are there. An error leaves them.
pub fn overlay(settings: &mut Settings, alloc: Global, text: &str) -> Result<(), OverlayFault>
    ensures found { OnOk result ((tree : _) × (read text.now ≡ Some tree) × (user : _)
        × ReadsAs string_cmp ⟦<String as JsonKey>⟧.key ⟦<String as JsonItem>⟧.item ⟦<String as JsonItem>⟧.item
        ⟦<String as JsonItem>⟧.json ⟦<String as JsonItem>⟧.json tree user
        × ((name : _) → get_by_text settings.new name
        ≡ option_or (value_at by_string user name) (get_by_text settings.old name))) }
    ensures unchanged { OnErr result (IsUnchanged settings.old settings.new) }
{
    match Value::from_str(alloc, text) {
        Ok(value) => overlay_value(settings, alloc, &value),
        Err(fault) if fault.is_memory() => Err(OverlayFault::Memory),
        Err(_) => Err(OverlayFault::Text),
    }
}

// Puts the settings that a value spells over those that are there.
fn overlay_value(settings: &mut Settings, alloc: Global, value: &Value) -> Result<(), OverlayFault>
    ensures found { OnOk result ((user : _)
        × ReadsAs string_cmp ⟦<String as JsonKey>⟧.key ⟦<String as JsonItem>⟧.item ⟦<String as JsonItem>⟧.item
        ⟦<String as JsonItem>⟧.json ⟦<String as JsonItem>⟧.json (view value.now) user
        × ((name : _) → get_by_text settings.new name
        ≡ option_or (value_at by_string user name) (get_by_text settings.old name))) }
    ensures unchanged { OnErr result (IsUnchanged settings.old settings.new) }
{
    let user: Settings = from_json(alloc, value).map_err(OverlayFault::Settings)?;
    let Ok(_) = settings.extend_from_litemap(alloc, user) else {
        return Err(OverlayFault::Memory);
    };
    Ok(())
}
