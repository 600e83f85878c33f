//! Reading a map from a source.
ghost use Rattle.std.specs.Prelude.{◌≡◌, ◌≤◌, [], ◌∷◌, ◌++◌, IfErr, IfOk, OnErr, OnOk, vec_len};
ghost use Rattle.std.specs.Iterator.{IsFiniteIterable};
ghost use Rattle.litemap_store.specs.Bulk.{GivesSome, IsGathered};
ghost use Rattle.litemap_store.specs.Laws.{Sifted};
ghost use Rattle.litemap_read.specs.ReadFault.{IfSource};
ghost use Rattle.litemap_read.specs.Results.{GivesFault, GivesPairs};
ghost use Rattle.litemap_read.specs.declared.source.ReadFault.TheVariants.{NoRoom};
ghost use Rattle.litemap_read.specs.Source.{IsAsked, IsLater};

use crate::{PairSource, ReadFault};
use litemap::LiteMap;
use litemap::store::{StoreBulkMut, StoreMut};
use std::alloc::{AllocError, Allocator};

/// The most pairs for which a source's hint reserves capacity.
const MOST_HINTED: usize = 65_536;

/// Reads the pairs of a source up to its end, and returns their map. The last pair of each key stays, its key included, and
/// the others are dropped. From a `VecSource` it reads what `from_vec` makes of the vector. The Rust crate reads by serde's
/// `Deserialize` here.
///
/// A pair whose key is above the last one is appended after one comparison. Others are put aside, and at the end the map is
/// extended by these. So ascending keys cost at most one comparison for each pair, and no sort. The source's hint reserves
/// capacity for at most 65,536 pairs, if there is memory.
///
/// # Errors
///
/// An error of the source is returned as `ReadFault::Source`. If memory runs out, it is `ReadFault::NoRoom`, which doesn't come
/// if the source has no pair. In both cases the pairs read so far are dropped, and the source stays after the pairs that it gave.
///
/// ```rust
/// const LANGUAGES: &[u8] = b"\x02\x02de\x06German\x02fr\x06French";
/// // ...
/// let languages: NameMap = read_pairs(alloc, &mut NameBytes::new(LANGUAGES)?)?;
/// Ok(languages.get("fr") == Some(&"French"))
/// ```
pub fn read_pairs<K: Ord + Drop, V: Drop, S: StoreBulkMut<K, V>, P: PairSource<K, V>>(
    alloc: S::Alloc,
    source: &mut P,
) -> Result<LiteMap<K, V, S>, ReadFault<P::Fault>>
    ensures read { IfOk result (λ map. IsGathered K.cmp (P.gives source.old) [] map.entries) }
    ensures asked { IsAsked P.gives P.left P.allows P.ends P.leads source.old source.new result }
{
    let mut map = with_hint(alloc, source.hint());
    let mut aside = Vec::new(alloc);
    loop {
        match source.next_pair() {
            Ok(Some((key, value))) => append_or_defer(&mut map, &mut aside, key, value)?,
            Ok(None) => break,
            Err(error) => return Err(ReadFault::Source(error)),
        }
    }
    map.extend_from_vec(alloc, aside)?;
    Ok(map)
}

/// Extends a map by the pairs that a source gives until its end (own). The last pair of each key stays, its key included, and
/// the others are dropped. Old pairs count as earlier than new ones. It compares and moves as `extend_from_vec` does.
///
/// # Errors
///
/// They are those of `read_pairs`. The pairs are gathered in a vector before the map changes, so an error leaves the map's list.
/// The pairs read so far are dropped then, and the source stays after them. To keep them, call `next_pair` and insert each pair.
///
/// ```rust
/// const MORE: &[u8] = b"\x01\x02it\x07Italian";
/// // ...
/// let mut languages: NameMap = LiteMap::from_iter(alloc, [("de", "German")])?;
/// extend_from_source(alloc, &mut languages, &mut NameBytes::new(MORE)?)?;
/// Ok(languages.len() == 2 && languages.get("it") == Some(&"Italian"))
/// ```
pub fn extend_from_source<K: Ord + Drop, V: Drop, S: StoreBulkMut<K, V>, P: PairSource<K, V>>(
    alloc: S::Alloc,
    map: &mut LiteMap<K, V, S>,
    source: &mut P,
) -> Result<(), ReadFault<P::Fault>>
    ensures read { OnOk result (IsGathered K.cmp (P.gives source.old) map.old.entries map.new.entries) }
    ensures unchanged { OnErr result (map.new.entries ≡ map.old.entries) }
    ensures asked { IsAsked P.gives P.left P.allows P.ends P.leads source.old source.new result }
{
    let pairs = drain(alloc, source)?;
    map.extend_from_vec(alloc, pairs)?;
    Ok(())
}

/// Reads the pairs of an iterator of `Result`s up to its end, and returns their map (own). The last pair of each key stays,
/// its key included, and the others are dropped. What can be written as such an iterator needs no `PairSource`. It compares and
/// moves as `read_pairs` does.
///
/// # Errors
///
/// The first error that the iterator gives is returned as `ReadFault::Source`, and the iterator isn't called after it. If
/// memory runs out, it is `ReadFault::NoRoom`. In both cases the pairs read so far are dropped.
///
/// ```rust
/// let rows: [Result<(u32, &str), AllocError>; 2] = [Ok((2, "Tuesday")), Ok((1, "Monday"))];
/// let days: Days = read_results(alloc, rows)?;
/// Ok(days.as_slice() == [(1, "Monday"), (2, "Tuesday")].as_slice())
/// ```
pub fn read_results<
    K: Ord + Drop,
    V: Drop,
    E: Drop,
    S: StoreBulkMut<K, V>,
    I: IntoIterator<Item = Result<(K, V), E>>,
>(alloc: S::Alloc, iter: I) -> Result<LiteMap<K, V, S>, ReadFault<E>>
    requires { IsFiniteIterable I.into_iter_gives I.IntoIter.can_next I.IntoIter.remaining iter }
    ensures read { IfOk result (λ map. IsGathered K.cmp (GivesPairs I.into_iter_gives I.IntoIter.next_gives iter) [] map.entries) }
    ensures error { IfErr result (λ error. IfSource error (GivesFault I.into_iter_gives I.IntoIter.next_gives iter)) }
    ensures refused_some { IfErr result (λ error. error ≡ NoRoom → GivesSome I.into_iter_gives I.IntoIter.next_gives iter) }
{
    let mut map = with_hint(alloc, None);
    let mut aside = Vec::new(alloc);
    for item in iter {
        match item {
            Ok((key, value)) => append_or_defer(&mut map, &mut aside, key, value)?,
            Err(error) => return Err(ReadFault::Source(error)),
        }
    }
    map.extend_from_vec(alloc, aside)?;
    Ok(map)
}

// Reads the source to its end, and returns its pairs. On the source's error, or if memory runs out, the pairs read are dropped.
fn drain<K: Drop, V: Drop, P: PairSource<K, V>, A: Allocator + Copy>(
    alloc: A,
    source: &mut P,
) -> Result<Vec<(K, V), A>, ReadFault<P::Fault>>
    ensures given { IfOk result (λ pairs. P.gives source.old pairs.items) }
    ensures rest { IsLater P.gives source.old source.new }
    ensures fewer { IfOk result (λ pairs. vec_len pairs ≤ P.left source.old) }
    ensures asked { IsAsked P.gives P.left P.allows P.ends P.leads source.old source.new result }
{
    let mut pairs = vec_with_hint(alloc, source.hint());
    loop {
        match source.next_pair() {
            Ok(Some(pair)) => push(&mut pairs, pair)?,
            Ok(None) => return Ok(pairs),
            Err(error) => return Err(ReadFault::Source(error)),
        }
    }
}

// An empty vector with capacity for what a hint promises, up to a limit, or with none if memory runs out.
fn vec_with_hint<T: Drop, A: Allocator + Copy>(alloc: A, hint: Option<usize>) -> Vec<T, A>
    ensures { result.items ≡ [] }
{
    let capacity = hint.unwrap_or(0).min(MOST_HINTED);
    Vec::with_capacity(alloc, capacity).unwrap_or(Vec::new(alloc))
}

// Pushes an item, or drops it if memory runs out.
fn push<T: Drop, A: Allocator>(items: &mut Vec<T, A>, item: T) -> Result<(), AllocError>
    ensures { OnOk result (items.new.items ≡ items.old.items ++ item ∷ []) }
{
    items.push(item)?;
    Ok(())
}

// An empty map with capacity for what a hint promises, up to a limit, or with none if memory runs out.
fn with_hint<K: Ord, V, S: StoreMut<K, V>>(alloc: S::Alloc, hint: Option<usize>) -> LiteMap<K, V, S>
    ensures { result.entries ≡ [] }
{
    let capacity = hint.unwrap_or(0).min(MOST_HINTED);
    LiteMap::with_capacity(alloc, capacity)
        .or_else(|_| LiteMap::with_capacity(alloc, 0))
        .unwrap()
}

// Appends a pair to the map if its key is above all others, and else to the pairs put aside.
fn append_or_defer<K: Ord + Drop, V: Drop, S: StoreMut<K, V>, A: Allocator>(
    map: &mut LiteMap<K, V, S>,
    aside: &mut Vec<(K, V), A>,
    key: K,
    value: V,
) -> Result<(), AllocError>
    ensures { OnOk result (Sifted K.cmp V map.old.entries aside.old.items ((key, value) ∷ [])
        map.new.entries aside.new.items) }
{
    if let Some(pair) = map.try_append(key, value)? {
        aside.push(pair)?;
    }
    Ok(())
}
