//! Reading maps from sources of pairs, and runs of calls of a map. The Rust crate has no call that is marked (own).
#![tactic(auto)]

mod calls;
pub mod laws;
mod read;
mod source;
mod vec_source;

pub use read::{extend_from_source, read_pairs, read_results};
pub use source::{PairSource, ReadFault};
pub use vec_source::{NoFault, VecSource};
