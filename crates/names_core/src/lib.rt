//! Keeps names and their values, as the lines of standard input say, and writes a reply to each line to standard output.
#![tactic(auto)]

mod input;
mod line;
mod program;
mod reply;
mod watch;

pub use program::{run, run_with};
pub use watch::Watch;
