//! Maps that are read and written, and calls of maps, as rows: each line of standard input is one of six kinds, by its first
//! word, and has a line of standard output. Models in Python (`model.py`) make the input and tell the output.
//!
//! - `json TYPES TEXT`: what the map that a JSON text is read as is written as, or why it was not read or not written. `TYPES`
//!   names the types of the keys and of the items (`json_rows`). Each text but those of `limits`, `names`, `overlay`, `told` and
//!   `rewrite` is read over a vector, over two columns and over a short store, and the line shows if the outputs differ. `json
//!   told TYPES TEXT`: the error as it is shown to people (`told`). `json rewrite TEXT`: what `rewrite_flags` makes of a text.
//!   `json inserted NUMBER:WORD ..`: what a map is written as, into which these are inserted.
//! - `read ..`: what `read_json` makes of a text, and `from_json` of its tree (`read_rows`).
//! - `serde WHAT TEXT`: what is written of what a JSON text is read as through serde, or why not (`serde_rows`). For TOML and CSV
//!   `TEXT` is the JSON string of one.
//! - `table ..`: what is read, found or written of the bytes of a name table or an index of names (`table_rows`).
//! - `small ..`, `set ..`, `wide ..`: a call of a map over pairs of other sizes than those of `test_replay` (`sizes`).
//! - `# ..`: the title of the lines below it, itself.
//!
//! If memory runs out, the output of a line is `out of memory`, or as ever if it can do without. Requests of three sizes tell a
//! watcher of the allocator when a line begins, when its output is made, and when that is dropped (`bin/requests`).
#![tactic(auto)]

// What bytes are read as. If they can't be, the error is written, and no more.
macro_rules! or_fault {
    ($read:expr, $output:ident) => {
        match $read {
            Ok(read) => read,
            Err(fault) => return write!($output, "{fault}"),
        }
    };
}

// What was read or written, or the error. An allocation error is returned; a pattern tells it if the error has no `is_memory`.
macro_rules! unless_memory {
    ($outcome:expr) => {
        match $outcome {
            Err(fault) if fault.is_memory() => return Err(AllocError),
            outcome => outcome,
        }
    };
    ($outcome:expr, $memory:pat) => {
        match $outcome {
            Err($memory) => return Err(AllocError),
            outcome => outcome,
        }
    };
}

// What was read or written. If it can't be, a word is returned in its place; an allocation error is returned itself.
macro_rules! or_word {
    ($alloc:ident, $word:expr, $outcome:expr) => {
        match unless_memory!($outcome) {
            Ok(it) => it,
            Err(_) => return String::from_str($alloc, $word),
        }
    };
}

mod falling;
mod indexes;
mod json_rows;
mod kinds;
mod read_rows;
mod serde_rows;
mod sizes;
mod sweeps;
mod table_rows;
mod tables;
mod texts;
mod told;

use std::alloc::{AllocError, Global};
use std::io;

// The sizes of the requests that tell when a line begins, when its output is made, and when that is dropped.
const BEGIN: usize = 1_000_003;

const END: usize = 1_000_033;

const IDLE: usize = 1_000_063;

// The output of a line, or that memory ran out.
type Output = Result<String, AllocError>;

// What is returned by what writes a part of one.
type Written = Result<(), AllocError>;

fn main(rt: HostRuntime) -> io::Result<()> {
    let input = io::read_to_string(rt.alloc(), rt.stdin())?;
    for line in input.lines() {
        mark(rt.alloc(), BEGIN);
        let answer = answer_line(rt.alloc(), line);
        mark(rt.alloc(), END);
        match answer {
            Ok(answer) => println!(rt; "{answer}")?,
            Err(AllocError) => println!(rt; "out of memory")?,
        }
        mark(rt.alloc(), IDLE);
    }
    Ok(())
}

fn mark(alloc: Global, size: usize) {
    let _ = Vec::<u8>::with_capacity(alloc, size);
}

fn answer_line(alloc: Global, line: &str) -> Output {
    match line.split_once(' ') {
        Some(("table", row)) => table_rows::answer(alloc, row),
        Some(("json", row)) => json_rows::answer(alloc, row),
        Some(("read", row)) => read_rows::answer(alloc, row),
        Some(("serde", row)) => serde_rows::answer(alloc, row),
        Some(("#", _title)) => String::from_str(alloc, line),
        _ => sizes::answer(alloc, line),
    }
}
