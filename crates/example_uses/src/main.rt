//! Callers of a map, as a user would write them. Each states what it returns by the sorted list. The program calls each on a few
//! pairs (`shown`), and writes what it returns, but for those that add up what must fit: `sums::add`, `add_all`, `totals`.
#![tactic(auto, using(litemap::proofs::All::lookups))]

pub mod arenas;
pub mod bag;
pub mod calendar;
pub mod closures;
pub mod collection;
pub mod config;
pub mod counting;
pub mod groups;
pub mod headers;
pub mod keywords;
pub mod levels;
pub mod made;
pub mod message;
pub mod names;
pub mod numbers;
pub mod parts;
pub mod people;
pub mod reserved;
pub mod scores;
pub mod sets;
pub mod shelves;
mod shown;
pub mod stores;
pub mod sums;
pub mod texts;
pub mod trees;
pub mod visits;
pub mod words;

fn main(rt: HostRuntime) -> anyhow::Result<()> {
    shown::show(&rt, rt.alloc())
}
