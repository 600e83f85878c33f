//! A map for where the type itself needs serde's traits.
ghost use Rattle.std.specs.Prelude.{◌≡◌, []};
ghost use Rattle.serde.specs.Event.{WritesMap};

use crate::{deserialize, deserialize_owned, serialize};
use litemap::LiteMap;
use litemap::store::{Store, StoreBulkMut, StoreConstEmpty};
use serde::{
    Described, Deserialize, DeserializeOwned, Deserializer, Format, Serialize, Serializer,
};
use std::alloc::Global;
use std::default::MadeWith;
use std::ops::Deref;

/// A map with serde's traits, for types that can't have `#[serde(with = "litemap_serde")]`, such as items of a vector.
///
/// The map is the field: `holder.0`.
///
/// ```rust
/// /// Counts by name.
/// pub type Counts = SerdeMap<String, u32, Vec<(String, u32)>>;
/// ```
#[derive(Drop)]
pub struct SerdeMap<K: Ord, V, S: Store<K, V>>(pub LiteMap<K, V, S>);

impl<K: Ord, V, S: StoreConstEmpty<K, V>> MadeWith<S::Alloc> for SerdeMap<K, V, S> {
    ghost is_made_with = { λ holder. holder.0.entries ≡ [] };

    fn made_with(alloc: S::Alloc) -> Self {
        SerdeMap(LiteMap::new(alloc))
    }
}

impl<K: Ord, V, S: Store<K, V>> Deref for SerdeMap<K, V, S> {
    type Target = LiteMap<K, V, S>;

    ghost deref_gives = { λ holder map. map ≡ holder.0 };

    fn deref(&self) -> &LiteMap<K, V, S> {
        &self.0
    }
}

impl<K: Ord, V, S: Store<K, V>> From<LiteMap<K, V, S>> for SerdeMap<K, V, S> {
    ghost from_gives = { λ map holder. holder.0 ≡ map };

    fn from(map: LiteMap<K, V, S>) -> Self {
        SerdeMap(map)
    }
}

impl<K: Ord, V, S: Store<K, V>> From<SerdeMap<K, V, S>> for LiteMap<K, V, S> {
    ghost from_gives = { λ holder map. map ≡ holder.0 };

    fn from(holder: SerdeMap<K, V, S>) -> Self {
        holder.0
    }
}

impl<K: Described + Ord, V: Described, S: Store<K, V>> Described for SerdeMap<K, V, S> {
    ghost writes = { λ m. WritesMap K.writes V.writes m.0.entries };
}

impl<K: Serialize + Ord, V: Serialize, S: Store<K, V>> Serialize for SerdeMap<K, V, S> {
    fn serialize<W: Serializer>(&self, out: &mut W) -> Result<(), W::Error> {
        serialize(&self.0, out)
    }
}

impl<
    'de,
    K: Deserialize<'de> + Ord,
    V: Deserialize<'de>,
    S: StoreBulkMut<K, V, Alloc = Global>,
> Deserialize<'de> for SerdeMap<K, V, S> {
    fn deserialize<F: Format>(
        alloc: Global,
        from: &mut Deserializer<'de, '_, F>,
    ) -> Result<Self, F::Error> {
        Ok(SerdeMap(deserialize(alloc, from)?))
    }
}

impl<
    K: DeserializeOwned + Ord,
    V: DeserializeOwned,
    S: StoreBulkMut<K, V, Alloc = Global>,
> DeserializeOwned for SerdeMap<K, V, S> {
    fn deserialize_owned<F: Format>(
        alloc: Global,
        from: &mut Deserializer<'_, '_, F>,
    ) -> Result<Self, F::Error> {
        Ok(SerdeMap(deserialize_owned(alloc, from)?))
    }
}
