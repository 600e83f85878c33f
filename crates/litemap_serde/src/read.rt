//! A map read from a format.
ghost use Rattle.std.specs.Prelude.{IfOk, MatchOption, OnOk, ⊤};
ghost use Rattle.litemap_store.specs.Last.{Last};
ghost use Rattle.litemap_serde.specs.Read.{EndsStruct, ReadsWhole};

use litemap::LiteMap;
use litemap::store::StoreBulkMut;
use serde::{Deserialize, DeserializeOwned, Deserializer, Format};
use std::alloc::Global;

/// Reads a map from a map of the format or a sequence of pairs, whichever comes, and returns it. The last pair of each key
/// stays, its key included, and the others are dropped. In the Rust crate it is `Deserialize`.
///
/// The pairs are gathered in a vector, which grows as they come, and made a map by `from_vec`: if the keys ascend, that is one
/// comparison for each, else a sort. If memory runs out, the error is the format's `no_memory`. The first step of the
/// format reads the beginning of a map or a sequence, the last one an end of the same kind.
pub fn deserialize<
    'de,
    K: Deserialize<'de> + Ord,
    V: Deserialize<'de>,
    S: StoreBulkMut<K, V, Alloc = Global>,
    F: Format,
>(alloc: Global, from: &mut Deserializer<'de, '_, F>) -> Result<LiteMap<K, V, S>, F::Error>
    ensures whole { OnOk result (ReadsWhole F.gives F.stays from.old from.new) }
{
    read::<Borrowed, K, V, S, F>(alloc, from)
}

/// Reads a map as `deserialize` does, and borrows nothing from the input (own).
pub fn deserialize_owned<
    K: DeserializeOwned + Ord,
    V: DeserializeOwned,
    S: StoreBulkMut<K, V, Alloc = Global>,
    F: Format,
>(alloc: Global, from: &mut Deserializer<'_, '_, F>) -> Result<LiteMap<K, V, S>, F::Error>
    ensures whole { OnOk result (ReadsWhole F.gives F.stays from.old from.new) }
{
    read::<Owned, K, V, S, F>(alloc, from)
}

// Reads a value by one of serde's two traits.
trait ReadBy<'de, T> {
    fn value<F: Format>(alloc: Global, from: &mut Deserializer<'de, '_, F>) -> Result<T, F::Error>;
}

// By `Deserialize`.
struct Borrowed;

impl<'de, T: Deserialize<'de>> ReadBy<'de, T> for Borrowed {
    #[inline(always)]
    fn value<F: Format>(alloc: Global, from: &mut Deserializer<'de, '_, F>) -> Result<T, F::Error> {
        T::deserialize(alloc, from)
    }
}

// By `DeserializeOwned`.
struct Owned;

impl<'de, T: DeserializeOwned> ReadBy<'de, T> for Owned {
    #[inline(always)]
    fn value<F: Format>(alloc: Global, from: &mut Deserializer<'de, '_, F>) -> Result<T, F::Error> {
        T::deserialize_owned(alloc, from)
    }
}

fn read<
    'de,
    W: ReadBy<'de, K> + ReadBy<'de, V>,
    K: Ord + Drop,
    V: Drop,
    S: StoreBulkMut<K, V, Alloc = Global>,
    F: Format,
>(alloc: Global, from: &mut Deserializer<'de, '_, F>) -> Result<LiteMap<K, V, S>, F::Error>
    ensures whole { OnOk result (ReadsWhole F.gives F.stays from.old from.new) }
{
    let in_sequence = from.begin_struct()?;
    let mut pairs = Vec::new(alloc);
    // A loop with a bound is proved to end.
    for _ in 0..u64::MAX {
        let Some(pair) = next_pair::<W, K, V, F>(alloc, from, in_sequence)? else {
            return made(alloc, from, pairs);
        };
        if pairs.push(pair).is_err() {
            break;
        }
    }
    Err(from.no_memory())
}

// Returns the next pair of a sequence or of a map, or `None` at its end.
#[inline(always)]
fn next_pair<'de, W: ReadBy<'de, K> + ReadBy<'de, V>, K: Drop, V: Drop, F: Format>(
    alloc: Global,
    from: &mut Deserializer<'de, '_, F>,
    in_sequence: bool,
) -> Result<Option<(K, V)>, F::Error>
    ensures ended { IfOk result (λ next. MatchOption next (EndsStruct F.gives in_sequence from.new) (λ _. ⊤)) }
{
    if in_sequence {
        if !from.next_item()? {
            return Ok(None);
        }
        from.begin_seq()?;
        from.expect_item()?;
        let key = W::value(alloc, from)?;
        from.expect_item()?;
        let value = W::value(alloc, from)?;
        from.expect_end()?;
        return Ok(Some((key, value)));
    }
    if !from.next_entry()? {
        return Ok(None);
    }
    let key = W::value(alloc, from)?;
    let value = W::value(alloc, from)?;
    Ok(Some((key, value)))
}

fn made<K: Ord + Drop, V: Drop, S: StoreBulkMut<K, V, Alloc = Global>, F: Format>(
    alloc: Global,
    from: &Deserializer<'_, '_, F>,
    pairs: Vec<(K, V)>,
) -> Result<LiteMap<K, V, S>, F::Error>
    ensures last { IfOk result (λ map. Last K.cmp pairs.items map.entries) }
{
    LiteMap::from_vec(alloc, pairs).map_err(|_| from.no_memory())
}
