//! Callers that read and write maps in types of their own, as users would write them. `test_rows` runs them.
#![tactic(auto)]

pub mod codes;
pub mod config;
pub mod evens;
pub mod languages;
pub mod levels;
pub mod limits;
pub mod numbers;
pub mod overlay;
pub mod prefixes;
pub mod shapes;
pub mod words;
