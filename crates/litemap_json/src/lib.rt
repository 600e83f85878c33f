//! Maps as JSON, both ways: what a type needs to be an item or a key there, and the types that come with it. All of this crate
//! is own: the Rust crate's maps go through serde.
#![tactic(auto)]

mod decimal;
mod fault;
mod item;
pub mod laws;
mod name;
mod next;
mod pairs;
mod parse;
mod read;
mod simple;
mod text;
mod told;
mod whole;
mod write;
mod written;

pub use fault::{JsonFault, TextFault, WriteFault};
pub use item::{ItemFault, JsonItem, JsonKey};
pub use json::{Reader, Writer};
pub use next::next_value;
pub use pairs::{array_of_two, two_items};
pub use parse::read_json;
pub use read::from_json;
pub use text::write_json;
pub use told::Told;
pub use write::to_json;
pub use written::write_value;
