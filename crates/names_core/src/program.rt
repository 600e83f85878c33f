//! A run of the program: it reads the lines, and writes the replies to them.
ghost use Rattle.std.specs.Prelude.{◌≡◌, ◌≤◌, ◌↔◌, ℕ, List, false, true, length};
ghost use Rattle.names_core.specs.Run.{IsRun};
ghost use Rattle.names_core.specs.Told.{Told, most_input};
ghost use Rattle.names_core.specs.Watched.{NoCallAfterFault};
ghost use Rattle.names_core.specs.Writes.{EndsRun};

use crate::input::{InputEnd, read_input};
use crate::line::first_line;
use crate::reply::{Answer, Names, reply};
use crate::watch::Watch;
use litemap::store::{StoreConstEmpty, StoreMut};
use std::alloc::{Allocator, Global};
use std::io::{Read, Write};

/// Reads all input, at most one byte more than 1,048,576, then does its lines in order, writes the reply to each as the line is
/// done, and returns the exit status.
///
/// The status is 0 if all lines are done. It is 2 after `bad line N` if a line is bad, and after `input too long` alone if the
/// input is too long. It is 3 after `no memory` if memory runs out. It is 4 after `read fault` alone if a read fails, and if a
/// write fails.
///
/// The names are kept in a vector.
pub fn run<R: Read, W: Write>(alloc: Global, reader: &mut Watch<R>, writer: &mut Watch<W>) -> u8
    ensures run { IsRun R.remaining W.contents reader.old reader.new writer.old writer.new result }
{
    run_with::<Vec<(String, String)>, Global, R, W>(alloc, reader, writer)
}

/// Does what `run` does, with the names kept in a store of another type, and all memory taken from its allocator.
pub fn run_with<S, A: Allocator + Copy, R: Read, W: Write>(
    alloc: A,
    reader: &mut Watch<R>,
    writer: &mut Watch<W>,
) -> u8
where
    S: StoreConstEmpty<String<A>, String<A>, Alloc = A> + StoreMut<String<A>, String<A>> + Drop,
    ensures run { IsRun R.remaining W.contents reader.old reader.new writer.old writer.new result }
{
    let mut input = Vec::new(alloc);
    let ending = read_input(reader, &mut input);
    reader.settle_before(writer);
    match ending {
        InputEnd::Whole => answer_lines::<S, A, W>(alloc, &input, writer),
        InputEnd::TooLong => finish(writer, b"input too long\n", 2),
        InputEnd::NoMemory => finish(writer, b"no memory\n", 3),
        InputEnd::Fault => finish(writer, b"read fault\n", 4),
    }
}

// Runs the lines in order and writes their replies. A bad line, or memory that runs out, is reported in one more line. Returns
// the status.
fn answer_lines<S, A: Allocator + Copy, W: Write>(
    alloc: A,
    input: &[u8],
    writer: &mut Watch<W>,
) -> u8
where
    S: StoreConstEmpty<String<A>, String<A>, Alloc = A> + StoreMut<String<A>, String<A>> + Drop,
    requires { length input.now ≤ most_input }
    ensures told { (out : List ℕ) × (told : ℕ) × Told input.now out told
        × EndsRun W.contents writer.old writer.new out told result }
    ensures failed { writer.old.failed ≡ false → (result ≡ 4) ↔ (writer.new.failed ≡ true) }
    ensures nothing_after { NoCallAfterFault writer.old writer.new }
{
    let mut names = Names::<S, A>::new(alloc);
    let mut rest = Some(input);
    let mut done = 0;
    while let Some(bytes) = rest {
        let (line, more) = first_line(bytes);
        match reply(alloc, &mut names, done + 1, line) {
            Ok(Answer::Done(text)) => {
                let Ok(()) = writer.write_all(text.as_bytes()) else {
                    return 4;
                };
            }
            Ok(Answer::Bad(text)) => return finish(writer, text.as_bytes(), 2),
            Err(_) => return finish(writer, b"no memory\n", 3),
        }
        done += 1;
        rest = more;
    }
    0
}

// Writes the last line, and returns the status, or that of a failed write.
fn finish<W: Write>(writer: &mut Watch<W>, text: &[u8], status: u8) -> u8
    ensures { EndsRun W.contents writer.old writer.new text.now status result }
{
    match writer.write_all(text) {
        Ok(()) => status,
        Err(_) => 4,
    }
}
