//! Maps through serde: written to any format, and read from one. In the Rust crate the map has serde's traits itself.
#![tactic(auto)]

mod holder;
pub mod pairs;
mod read;
mod write;

pub use holder::SerdeMap;
pub use read::{deserialize, deserialize_owned};
pub use write::serialize;
