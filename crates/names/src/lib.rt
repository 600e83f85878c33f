//! Keeps names and their values, as the lines of standard input say, and writes a reply to each line to standard output. The
//! runs are those of `names_core`, the name tables those of `name_table`.
#![tactic(auto)]

mod fail_at;
mod flags;
pub mod laws;

pub use fail_at::{FailAt, Fault};
pub use flags::{FlagsFault, rewrite_flags};
pub use name_table::{
    NameBytes, NameFault, NameMap, NameWriteFault, find_name, read_names, write_names,
};
pub use names_core::{Watch, run, run_with};
