//! How often each word occurs in a list.
ghost use Rattle.std.specs.Prelude.{◌≡◌, ◌≢◌, ◌+◌, ◌<◌, if◌then◌else◌};
ghost use Rattle.litemap.specs.Words.{IfOk, IsUnchanged, OnErr, OnOk, Some, count_by, get, get_by_text, is_eq, put};
ghost use Rattle.litemap.specs.Words.{string_bytes, unwrap_or};

use litemap::store::StoreMut;
use litemap::{LiteMap, VecMap};
use std::alloc::{AllocError, Global};

/// Counts a word once more. All others stay.
pub fn count_word<K: Ord + Drop, S: StoreMut<K, usize>>(
    counts: &mut LiteMap<K, usize, S>,
    word: K,
) -> Result<(), AllocError>
    requires { unwrap_or (get K.cmp counts.old word) 0 < usize.MAX }
    ensures counted { OnOk result ((other : K) → unwrap_or (get K.cmp counts.new other) 0
        ≡ if is_eq (K.cmp word other) then unwrap_or (get K.cmp counts.old other) 0 + 1
        else unwrap_or (get K.cmp counts.old other) 0) }
    ensures unchanged { OnErr result (IsUnchanged counts.old counts.new) }
{
    put_count(counts, word)
}

// Counts a word once more. A word that is not there yet counts one.
pub(crate) fn put_count<K: Ord + Drop, S: StoreMut<K, usize>>(
    counts: &mut LiteMap<K, usize, S>,
    word: K,
) -> Result<(), AllocError>
    requires { unwrap_or (get K.cmp counts.old word) 0 < usize.MAX }
    ensures put { OnOk result (counts.new.entries
        ≡ put K.cmp counts.old.entries word (unwrap_or (get K.cmp counts.old word) 0 + 1)) }
    ensures unchanged { OnErr result (IsUnchanged counts.old counts.new) }
{
    *counts.entry(word).or_insert(0)? += 1;
    Ok(())
}

/// How often each word occurs in a list: the number of its words that are equal to it.
#[tactic(auto, using(std::proofs::lemmas::List::Sums::count_by_more_yes, std::proofs::lemmas::List::Sums::count_by_more_no))]
pub fn count_words<K: Ord + Copy>(
    alloc: Global,
    words: &[K],
) -> Result<VecMap<K, usize>, AllocError>
    ensures { IfOk result (λ counts. (word : K) → unwrap_or (get K.cmp counts word) 0
        ≡ count_by (λ w. is_eq (K.cmp w word)) words.now) }
{
    let mut counts = LiteMap::new_vec(alloc);
    for word in words {
        count_word(&mut counts, *word)?;
    }
    Ok(counts)
}

/// How often each name came.
pub type Names = VecMap<String, u32>;

/// Counts a name once more. All others stay. With all lemmas of the root's set the search reaches its limit here.
#[tactic(auto, using(litemap::proofs::Texts::texts))]
pub fn count_name(names: &mut Names, name: String) -> Result<(), AllocError>
    requires { unwrap_or (get_by_text names.old (string_bytes name)) 0 < u32.MAX }
    ensures counted { OnOk result (get_by_text names.new (string_bytes name)
        ≡ Some (unwrap_or (get_by_text names.old (string_bytes name)) 0 + 1)) }
    ensures others { OnOk result ((other : _) → other ≢ string_bytes name
        → get_by_text names.new other ≡ get_by_text names.old other) }
    ensures unchanged { OnErr result (IsUnchanged names.old names.new) }
{
    names.entry(name).and_modify(|n| *n += 1).or_insert(1)?;
    Ok(())
}
