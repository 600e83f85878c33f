//! The keywords of a locale, such as `buddhist` at `ca`: a map that keeps one pair in itself, since most locales have no keyword
//! or one.
ghost use Rattle.std.specs.Prelude.{◌≡◌, ◌≢◌, ◌∷◌};
ghost use Rattle.litemap.specs.Words.{Equal, IsUnchanged, None, OnErr, OnOk, Some, [], by_bytes, get, option_or, spare};

use litemap_short::ShortMap;
use std::alloc::{AllocError, Global};

/// Values by their keys, both parts of the locale's text.
pub type Keywords<'k> = ShortMap<&'k str, &'k str>;

/// The keywords of a locale that has one. They take no memory.
pub fn only<'k>(alloc: Global, key: &'k str, value: &'k str) -> Keywords<'k>
    ensures { result.entries ≡ (key.entry, value.entry) ∷ [] }
{
    let mut keywords = Keywords::new(alloc);
    keywords.insert(key, value).unwrap();
    keywords
}

/// Adds a keyword. Of two with one key the first counts. It takes memory for the second key.
pub fn add<'k>(keywords: &mut Keywords<'k>, key: &'k str, value: &'k str) -> Result<(), AllocError>
    ensures first { OnOk result (get by_bytes keywords.new key.entry
        ≡ option_or (get by_bytes keywords.old key.entry) (Some value.entry)) }
    ensures others { OnOk result ((other : _) → by_bytes other key.entry ≢ Equal
        → get by_bytes keywords.new other ≡ get by_bytes keywords.old other) }
    ensures unchanged { OnErr result (IsUnchanged keywords.old keywords.new) }
    ensures absent { OnErr result (get by_bytes keywords.old key.entry ≡ None) }
    ensures full { OnErr result (spare keywords.old ≡ 0) }
{
    keywords.try_insert(key, value)?;
    Ok(())
}
