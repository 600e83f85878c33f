//! Stores of pairs for the sorted map of the crate `litemap`: the store traits, a vector and a borrowed slice as stores, and
//! the count of comparisons. The Rust crate lacks what is marked (own).
#![tactic(auto)]

mod bulk;
mod count;
pub mod growth;
mod into_iter;
mod iter_mut;
pub mod laws;
pub mod merge;
mod no_room;
mod owned_iter;
mod query;
pub mod reserved;
pub mod retain;
mod searches;
mod slice_impl;
mod slice_iter;
pub mod slice_search;
mod sorted;
pub mod split_store;
pub mod store;
mod vec_impl;
mod walk;

pub use query::Query;
