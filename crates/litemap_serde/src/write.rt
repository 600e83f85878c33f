//! A map as a map of a format.
ghost use Rattle.std.specs.Prelude.{OnOk};
ghost use Rattle.serde.specs.Event.{WritesMap};

use litemap::LiteMap;
use litemap::store::Store;
use serde::{Serialize, Serializer};

/// Writes a map as a map of the format, its pairs in the order of the keys. If a key has no text in the format, the error is
/// the format's. No keys are compared. The Rust crate has serde's `Serialize` here.
///
/// ```rust
/// /// Names by their codes.
/// #[serde(with = "litemap_serde")]
/// pub names: VecMap<String, String>,
/// ```
pub fn serialize<K: Serialize + Ord, V: Serialize, S: Store<K, V>, W: Serializer>(
    map: &LiteMap<K, V, S>,
    out: &mut W,
) -> Result<(), W::Error>
    ensures { OnOk result
        (WritesMap K.writes V.writes map.now.entries (W.written out.old) (W.written out.new)) }
{
    let len = map.len();
    out.begin_map(Some(len))?;
    for place in 0..len {
        let (key, value) = map.get_indexed(place).unwrap();
        out.begin_key()?;
        key.serialize(out)?;
        out.end_key()?;
        value.serialize(out)?;
    }
    out.end_map()
}
