//! A word translated by names that are looked up in their bytes, as those of a table or of an index.
ghost use Rattle.example_formats.specs.Languages.{IsTranslated};

use name_index::Names;

/// The word's translation, or the word itself if it has none.
pub fn translated<'a, N: Names<'a>>(names: &N, word: &'a str) -> &'a str
    ensures { IsTranslated (N.pairs names.now) word.now result.now }
{
    names.get(word).unwrap_or(word)
}
