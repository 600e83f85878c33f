//! A key-value map kept as one flat list of pairs with strictly ascending keys, over stores that a user may plug in.
//!
//! The Rust crate lacks the calls that are marked (own). In costs, n is the number of pairs. Except `clone` and
//! `try_from_sorted`, a call fails only if memory runs out, a store is full, or a closure fails, and then keeps the list,
//! unless it is `try_update`. A store that keeps its memory, as a vector does, has room for another pair after each removal.
#![tactic(auto)]

mod const_family;
mod map;
mod try_fault;

pub use litemap_store::store::{IntoKeys, IntoValues, IterMut};
pub use litemap_store::{Query, store};
pub use map::{
    Entry, KeysIterWrap, LiteMap, OccupiedEntry, RangeIter, VacantEntry, ValuesIterWrap,
};
use std::alloc::Global;
pub use try_fault::TryFault;

/// A map over one vector of pairs (own).
///
/// ```rust
/// /// Names of days by their numbers.
/// pub type Days = VecMap<u32, &'static str>;
/// ```
pub type VecMap<K, V, A = Global> = LiteMap<K, V, Vec<(K, V), A>>;

/// A map over pairs that it borrows (own), such as those of `range` and of a constant table.
pub type SliceMap<'a, K, V> = LiteMap<K, V, store::SliceStore<'a, K, V>>;
