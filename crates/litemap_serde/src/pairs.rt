//! A map as a sequence of pairs, for keys that have no text in a format: a module for `#[serde(with = "..")]`.
ghost use Rattle.std.specs.Prelude.{OnOk};
ghost use Rattle.serde.specs.Event.{WritesSeq};
ghost use Rattle.litemap_serde.specs.Written.{SendsPair};

pub use crate::read::{deserialize, deserialize_owned};
use litemap::LiteMap;
use litemap::store::Store;
use serde::{Serialize, Serializer};

/// Writes a map as a sequence of pairs, each a sequence of a key and its value, in the order of the keys (own). No keys are
/// compared.
///
/// ```rust
/// /// Names of points.
/// #[serde(with = "litemap_serde::pairs")]
/// pub at: VecMap<Point, String>,
/// ```
pub fn serialize<K: Serialize + Ord, V: Serialize, S: Store<K, V>, W: Serializer>(
    map: &LiteMap<K, V, S>,
    out: &mut W,
) -> Result<(), W::Error>
    ensures { OnOk result
        (WritesSeq (SendsPair K.writes V.writes) map.now.entries (W.written out.old) (W.written out.new)) }
{
    let len = map.len();
    out.begin_seq(Some(len))?;
    for place in 0..len {
        let (key, value) = map.get_indexed(place).unwrap();
        out.begin_seq(Some(2))?;
        key.serialize(out)?;
        value.serialize(out)?;
        out.end_seq()?;
    }
    out.end_seq()
}
