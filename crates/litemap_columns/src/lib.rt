//! A store of two columns for the sorted map of the crate `litemap`: a vector of the keys and one of the values. All of this
//! crate is own: the Rust crate has no such store.
#![tactic(auto)]

mod column_iter;
mod column_store;

pub use column_iter::{ColumnIntoIter, ColumnIter};
pub use column_store::ColumnStore;
use litemap::LiteMap;
use std::alloc::Global;

/// A map over two columns: a vector of the keys and one of the values.
///
/// ```rust
/// let mut days: ColumnMap<u32, &str> = LiteMap::new(alloc);
/// days.insert(1, "Monday")?;
/// Ok(days.get(&1) == Some(&"Monday"))
/// ```
pub type ColumnMap<K, V, A = Global> = LiteMap<K, V, ColumnStore<K, V, A>>;
