//! Names looked up in bytes, with no map made: `NameIndex` keeps the offset of each entry of a name table, and `IndexedNames` is
//! bytes that begin with the offsets, as `write_index` writes them. `Names` has the lookups of both. `docs/NAME_TABLES.md` says
//! when to use which. All of this crate is own: the Rust crate has nothing like it.
#![tactic(auto)]

mod error;
mod index;
mod index_bytes;
mod index_write;
mod indexed;
pub mod laws;
mod names;
mod table;

pub use error::{IndexFault, NameIndexFault};
pub use index::{NameEntries, NameIndex};
pub use index_write::write_index;
pub use indexed::IndexedNames;
pub use names::Names;
