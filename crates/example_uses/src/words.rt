//! Words that are borrowed: how often each comes, and which come most often.
ghost use Rattle.std.specs.Prelude.{◌≡◌, ◌+◌, ◌<◌, find, nat_lt, take, if◌then◌else◌};
ghost use Rattle.std.specs.List.Sorted.{IsPermutation, IsSorted};
ghost use Rattle.litemap.specs.Words.{All, IfOk, IsUnchanged, OnErr, OnOk, Some, by_bytes, filter, get, is_eq, map};
ghost use Rattle.litemap.specs.Words.{option_map, unwrap_or};

use crate::counting::put_count;
use litemap::VecMap;
use std::alloc::{AllocError, Global};
use std::cmp::Reverse;

/// How often words occur.
pub type Counts<'k> = VecMap<&'k str, usize>;

/// Counts a word once more. All others stay.
pub fn count_word<'k>(counts: &mut Counts<'k>, word: &'k str) -> Result<(), AllocError>
    requires { unwrap_or (get by_bytes counts.old word) 0 < usize.MAX }
    ensures counted { OnOk result ((other : _) → unwrap_or (get by_bytes counts.new other) 0
        ≡ if is_eq (by_bytes word.entry other) then unwrap_or (get by_bytes counts.old other) 0 + 1
        else unwrap_or (get by_bytes counts.old other) 0) }
    ensures unchanged { OnErr result (IsUnchanged counts.old counts.new) }
{
    put_count(counts, word)
}

/// Puts other counts over these. If no count is 0, none is then.
pub fn overlay<'k>(
    counts: &mut Counts<'k>,
    alloc: Global,
    other: Counts<'k>,
) -> Result<(), AllocError>
    requires counts { All (λ p. 0 < p.1) counts.old.entries }
    requires other { All (λ p. 0 < p.1) other.entries }
    ensures { OnOk result (All (λ p. 0 < p.1) counts.new.entries) }
{
    counts.extend_from_litemap(alloc, other)?;
    Ok(())
}

/// The words that came more often than this, with their counts.
pub fn words_over<'k>(
    alloc: Global,
    counts: &Counts<'k>,
    bound: usize,
) -> Result<Vec<(&'k str, usize)>, AllocError>
    ensures { IfOk result (λ over. over.items ≡ filter (λ p. nat_lt bound p.1) counts.now.entries) }
{
    let mut over = Vec::new(alloc);
    for (word, count) in counts {
        if *count > bound {
            over.push((*word, *count))?;
        }
    }
    Ok(over)
}

/// The first word that came more often than this.
pub fn first_over<'k>(counts: &Counts<'k>, bound: usize) -> Option<&'k str>
    ensures { result ≡ option_map (λ p. p.0) (find (λ p. nat_lt bound p.1) counts.now.entries) }
{
    for (word, count) in counts {
        if *count > bound {
            return Some(*word);
        }
    }
    None
}

/// A word with its count: the one that came more often is less, and of equal counts the lesser word.
#[derive(Clone, Copy, PartialEq, Eq, PartialOrd, Ord)]
pub struct Ranked<'k>(pub Reverse<usize>, pub &'k str);

fn all_ranked<'k>(alloc: Global, counts: &Counts<'k>) -> Result<Vec<Ranked<'k>>, AllocError>
    ensures { IfOk result (λ all. map (λ r. (r.1, r.0.0)) all.items ≡ counts.now.entries) }
{
    let mut all = Vec::new(alloc);
    for (word, count) in counts {
        all.push(Ranked(Reverse(*count), *word))?;
    }
    Ok(all)
}

/// The words that came most often, at most so many.
pub fn top<'k>(
    alloc: Global,
    counts: &Counts<'k>,
    most: usize,
) -> Result<Vec<Ranked<'k>>, AllocError>
    ensures { IfOk result (λ top. (all : _) × (ranked : _) × (map (λ r. (r.1, r.0.0)) all ≡ counts.now.entries)
        × IsPermutation all ranked × IsSorted ⟦<Ranked<'k> as Ord>⟧.cmp ranked × (top.items ≡ take most ranked)) }
{
    let mut all = all_ranked(alloc, counts)?;
    all.sort()?;
    all.truncate(most);
    Ok(all)
}
