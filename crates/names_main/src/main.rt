//! The program: `names_core::run` from standard input to standard output.
#![tactic(auto)]

use names_core::{Watch, run};
use std::process::ExitCode;

fn main(rt: HostRuntime) -> ExitCode {
    let mut reader = Watch::new(rt.stdin());
    let mut writer = Watch::new(rt.stdout());
    let status = run(rt.alloc(), &mut reader, &mut writer);
    ExitCode::from(status)
}
