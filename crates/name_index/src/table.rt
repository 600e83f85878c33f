//! Entries of a name table: whether all are there and ascend, where each begins, and those that are known to be there.
ghost use Rattle.std.specs.Prelude.{◌≡◌, ◌<◌, ◌≤◌, ◌∷◌, ◌++◌, [], IfErr, IfOk, OnOk};
ghost use Rattle.name_index.specs.{BeginsPair, BeginsText, IsFault, IsIndexed};
ghost use Rattle.name_index.specs.declared.error.NameIndexFault.TheVariants.{TooFar};
ghost use Rattle.name_table.specs.Parts.{Begins, number_limit, pair_parts, text_parts};
ghost use Rattle.name_table.specs.Positions.{shown};

use crate::error::NameIndexFault;
use crate::names::is_above;
use litemap_read::PairSource;
use name_table::NameBytes;
use name_table::parts::Cursor;
use std::alloc::{AllocError, Global};

/// Reads a table, and returns the offset of each entry. The error is that of the number of entries, or of the first entry that
/// can't be read, whose key isn't above the one before it, or that begins too far.
pub fn offsets_of(alloc: Global, bytes: &[u8]) -> Result<Vec<u32>, NameIndexFault>
    ensures indexed { IfOk result (λ offsets. IsIndexed bytes.now offsets.items) }
    ensures error { IfErr result (IsFault bytes.now) }
    ensures near { OnOk result (IsFault bytes.now TooFar → ⊥) }
{
    let mut names = NameBytes::new(bytes)?;
    let due = names.hint().unwrap_or(0);
    // An entry takes two bytes at least.
    let mut offsets = Vec::with_capacity(alloc, due.min(bytes.len() / 2))?;
    let mut last: Option<&str> = None;
    loop {
        let at = names.place();
        let Some((key, _)) = names.next_pair()? else {
            return Ok(offsets);
        };
        if !is_above(last, key) {
            return Err(NameIndexFault::NotAscending { at });
        }
        push(&mut offsets, near(at)?)?;
        last = Some(key);
    }
}

// The offset, if four bytes can hold it.
fn near(at: usize) -> Result<u32, NameIndexFault>
    ensures same { IfOk result (λ offset. offset ≡ at) }
    ensures small { OnOk result (at < number_limit) }
    ensures far { IfErr result (λ error. (error ≡ TooFar) × (number_limit ≤ at)) }
{
    match u32::try_from(at) {
        Ok(offset) => Ok(offset),
        Err(_) => Err(NameIndexFault::TooFar),
    }
}

fn push(offsets: &mut Vec<u32>, offset: u32) -> Result<(), AllocError>
    ensures { OnOk result (offsets.new.items ≡ offsets.old.items ++ offset ∷ []) }
{
    offsets.push(offset)?;
    Ok(())
}

/// Reads the string that the bytes begin with, after its length, and returns it with the bytes after it.
pub fn read_valid_string(bytes: &[u8]) -> (&str, &[u8])
    requires { BeginsText bytes.now }
    ensures { Begins bytes.now (text_parts result.0.now) result.1.now }
{
    match Cursor::new(bytes).text() {
        Ok((text, after)) => (text, after.rest()),
        Err(_) => unreachable!(),
    }
}

/// Reads the key and the value that the bytes begin with, and returns them with the bytes after them.
pub fn read_valid_pair(bytes: &[u8]) -> ((&str, &str), &[u8])
    requires { BeginsPair bytes.now }
    ensures { Begins bytes.now (pair_parts (shown result.0 ∷ [])) result.1.now }
{
    let (key, middle) = read_valid_string(bytes);
    let (value, rest) = read_valid_string(middle);
    ((key, value), rest)
}
