//! Reads the whole input, up to one byte more than a run takes.
ghost use Rattle.std.specs.Prelude.{◌≡◌, ◌+◌, ◌++◌, ◌<◌, ◌≤◌, List, ℕ, [], vec_len, IfSome, IfNone};
ghost use Rattle.std.specs.Io.KnownBytes.{Consumes};
ghost use Rattle.names_core.specs.ReadsUntil.{ReadsUntil};
ghost use Rattle.names_core.specs.Watched.{NoCallAfterFault, met_fault};

use crate::watch::Watch;
use std::alloc::Allocator;
use std::io::Read;

/// The most bytes that a run takes.
pub const MOST_BYTES: usize = 1_048_576;

// The most bytes of one read.
const CHUNK: usize = 4096;

/// How reading ended.
#[derive(Clone, Copy, Debug, PartialEq, Eq)]
pub enum InputEnd {
    /// The reader has nothing left.
    Whole,
    /// There are more than `MOST_BYTES`.
    TooLong,
    /// There was no memory for the next read.
    NoMemory,
    /// A read failed.
    Fault,
}

/// Reads to the end of the input, or until it is longer than `MOST_BYTES`, and returns which of these, or what failed. Capacity
/// is reserved before each read, so that no byte that was read is lost.
pub fn read_input<R: Read, A: Allocator + Copy>(
    reader: &mut Watch<R>,
    input: &mut Vec<u8, A>,
) -> InputEnd
    requires { input.old.items ≡ [] }
    ensures consumed { Consumes (R.remaining reader.old.inner) (R.remaining reader.new.inner) input.new.items }
    ensures bounded { vec_len input.new ≤ MOST_BYTES + 1 }
    ensures ended { ReadsUntil result reader.old.failed reader.new.failed (R.remaining reader.new.inner) input.new.items }
    ensures nothing_after { NoCallAfterFault reader.old reader.new }
{
    while input.len() <= MOST_BYTES {
        if let Some(ending) = read_some(reader, input) {
            return ending;
        }
    }
    InputEnd::TooLong
}

// Makes one read. Returns how reading ended, or `None` if it got at least a byte.
fn read_some<R: Read, A: Allocator + Copy>(
    reader: &mut Watch<R>,
    input: &mut Vec<u8, A>,
) -> Option<InputEnd>
    requires { vec_len input.old ≤ MOST_BYTES }
    ensures consumed { (more : List ℕ) × (input.new.items ≡ input.old.items ++ more)
        × Consumes (R.remaining reader.old.inner) (R.remaining reader.new.inner) more }
    ensures bounded { vec_len input.new ≤ MOST_BYTES + 1 }
    ensures ended { IfSome result
        (λ ending. ReadsUntil ending reader.old.failed reader.new.failed (R.remaining reader.new.inner) input.new.items) }
    ensures more { IfNone result ((vec_len input.old < vec_len input.new)
        × (reader.new.failed ≡ reader.old.failed)) }
    ensures unmet { IfNone result (met_fault reader.new ≡ met_fault reader.old) }
    ensures nothing_after { NoCallAfterFault reader.old reader.new }
{
    let most = CHUNK.min(MOST_BYTES + 1 - input.len());
    if input.reserve(most).is_err() {
        return Some(InputEnd::NoMemory);
    }
    let chunk = &mut [0u8; CHUNK][..most];
    match reader.read(chunk) {
        Ok(0) => Some(InputEnd::Whole),
        Ok(n) => {
            input.extend_from_slice(&chunk[..n]).unwrap();
            None
        }
        Err(_) => Some(InputEnd::Fault),
    }
}
