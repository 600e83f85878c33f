//! Types with maps in them, in each form that serde's derives give a type.
use litemap::{LiteMap, VecMap};
use litemap_serde::SerdeMap;
use serde::{Deserialize, Serialize};

/// Counts by name.
pub type Counts = SerdeMap<String, u32, Vec<(String, u32)>>;

/// How far along, and how far up: a key that has no text.
pub type Point = (i32, i32);

/// A map of such keys, as pairs.
#[derive(Drop, Serialize, Deserialize)]
pub struct Places {
    /// Names of points.
    #[serde(with = "litemap_serde::pairs")]
    pub at: VecMap<Point, String>,
}

/// Named by a member.
#[derive(Drop, Serialize, Deserialize)]
#[serde(tag = "kind")]
pub enum Inner {
    /// With a map.
    Copy {
        /// The map.
        #[serde(with = "litemap_serde")]
        files: VecMap<String, u32>,
    },
    /// With nothing.
    Stop,
}

/// Not named.
#[derive(Drop, Serialize, Deserialize)]
#[serde(untagged)]
pub enum Either {
    /// A map.
    Map(Counts),
    /// A list.
    List(Vec<u32>),
}

/// With the members of another struct among its own.
#[derive(Drop, Serialize, Deserialize)]
pub struct Flat {
    /// A number.
    pub id: u8,
    /// The other.
    #[serde(flatten)]
    pub rest: Rest,
}

/// The members that stand among others.
#[derive(Drop, Serialize, Deserialize)]
pub struct Rest {
    /// A map that may be left out, and then isn't written.
    #[serde(default, with = "litemap_serde", skip_serializing_if = "LiteMap::is_empty")]
    pub ports: VecMap<String, u16>,
    /// One with the traits.
    #[serde(default)]
    pub flags: SerdeMap<bool, bool, Vec<(bool, bool)>>,
}
