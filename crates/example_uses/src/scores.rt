//! Scores by name: the first calls that a user makes.
ghost use Rattle.std.specs.Prelude.{◌≡◌, ◌+◌, ◌++◌};
ghost use Rattle.litemap.specs.Words.{IsUnchanged, OnErr, OnOk, Some, get_by_text, string_bytes};
ghost use Rattle.litemap.specs.Words.{Last, by_string, index_of, map, min, string_cmp};

use litemap::VecMap;
use std::alloc::{AllocError, Global};

/// A map from names to scores, over a vector.
pub type Scores = VecMap<String, u32>;

/// Sets a score, which a lookup of the name then finds. On error the map is unchanged.
pub fn set(scores: &mut Scores, name: String, score: u32) -> Result<(), AllocError>
    ensures there { OnOk result (get_by_text scores.new (string_bytes name) ≡ Some score) }
    ensures unchanged { OnErr result (IsUnchanged scores.old scores.new) }
{
    scores.insert(name, score)?;
    Ok(())
}

/// The score at a name.
pub fn score_of(scores: &Scores, name: &str) -> Option<u32>
    ensures { result ≡ get_by_text scores.now name.now }
{
    scores.get(name).copied()
}

/// The index of a name among the sorted names, or in `Err` the index at which it would go.
pub fn place_of(scores: &Scores, name: &str) -> Result<usize, usize>
    ensures { result ≡ index_of by_string scores.now.entries name.now }
{
    scores.find_index(name)
}

/// Sets many scores. Of each name the last one stays.
pub fn set_all(
    scores: &mut Scores,
    alloc: Global,
    more: Vec<(String, u32)>,
) -> Result<(), AllocError>
    ensures last { OnOk result (Last string_cmp (scores.old.entries ++ more.items) scores.new.entries) }
    ensures unchanged { OnErr result (IsUnchanged scores.old scores.new) }
{
    scores.extend_from_vec(alloc, more)?;
    Ok(())
}

/// Raises all scores by this much, or to the greatest number.
pub fn raise(scores: &mut Scores, by: u32)
    ensures { scores.new.entries ≡ map (λ p. (p.0, min (p.1 + by) 4294967295)) scores.old.entries }
{
    scores.update(|_, score| *score = score.saturating_add(by));
}
