//! Name tables: maps from strings to strings as bytes, where numbers are spelled in groups of seven bits and each string comes
//! after its length. `docs/NAME_TABLES.md` has the format. All of this crate is own: the Rust crate's maps go through `postcard`.
#![tactic(auto)]

mod cursor;
mod error;
pub mod laws;
mod name_bytes;
mod number;
pub mod parts;
mod read;
mod write;

pub use error::{NameFault, NameWriteFault};
pub use name_bytes::NameBytes;
pub use read::{NameMap, find_name, read_names};
pub use write::write_names;
