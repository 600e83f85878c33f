//! A store for the sorted map of the crate `litemap` that keeps no pair or one in itself, and more in a vector. All of this
//! crate is own: the Rust crate has no such store.
#![tactic(auto)]

mod short_iter;
mod short_store;
mod storage;

use litemap::LiteMap;
pub use short_iter::ShortIntoIter;
pub use short_store::ShortStore;
use std::alloc::Global;

/// A map that keeps no pair or one in itself, and more in a vector.
///
/// ```rust
/// let mut days: ShortMap<u32, &str> = LiteMap::new(alloc);
/// days.insert(1, "Monday")?;
/// Ok(days.get(&1) == Some(&"Monday"))
/// ```
pub type ShortMap<K, V, A = Global> = LiteMap<K, V, ShortStore<K, V, A>>;
