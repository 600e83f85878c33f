//! Makes the calls of lines of data over each kind of store, and writes each line that returns something else than it says.
//!
//! Standard input names files, a line each; they lie where the program runs. In a file, empty lines and lines that begin with
//! `#` are passed over, and the others are:
//!
//! - `on STORE ..`: the stores over which the next lines are made, of `vec`, `columns`, `short`, `fixed` and `shrinking`;
//! - `with ORDER LEN ROOM`: the map, or the store, that each of the next lines begins with: the order of its keys, how many
//!   pairs it has (`2:20`, `4:40` and so on), and for how many more it is made with room;
//! - `CALL WORD .. = ANSWER | PAIRS | COMPARED`: a call, what it returns, the pairs after it (`same`, if they are as before),
//!   and how often it compares two keys, or two values, at most (`*`: as often as it likes). With `+` in front it is made of
//!   what the line before left. Before a `; ` stand calls that are made first.
//!
//! `sweep CALL ..` makes a call of each key of a map whose keys are `2`, `4` and so on, and of each key in a gap: between two of
//! them, below all and above all. After each the list is put back. It returns a sum of what was returned and left, and compares
//! as often as the call that compares most.
//!
//! What a line leaves alive are the keys and values of its map, or of its store, and no others.
//!
//! After a line `marked` of the input every line is written with what it returns, and requests of three sizes tell a watcher
//! of the allocator when each call begins and ends (`bin/requests`). Lines with `+` are left out. After a line `lines` the rest
//! of the input is the text of a file.
#![tactic(auto)]

mod answer;
mod bench;
mod bulk;
mod call;
mod changes;
mod copies;
mod counted;
mod entries;
mod line;
mod lists;
mod looks;
mod run;
mod sizes;
mod stores;
mod tested;
mod walks;

use std::{fs, io};

fn main(rt: HostRuntime) -> io::Result<()> {
    let input = io::read_to_string(rt.alloc(), rt.stdin())?;
    if let Some(text) = input.strip_prefix("lines\n") {
        return run::lines(&rt, "input", text, false);
    }
    let mut is_marked = false;
    for name in input.lines() {
        if name == "marked" {
            is_marked = true;
        } else {
            let text = fs::read_to_string(&rt, name)?;
            run::lines(&rt, name, text.as_str(), is_marked)?;
        }
    }
    Ok(())
}
