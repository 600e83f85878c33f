//! What is found in bytes that are an index of names.
use crate::Written;
use crate::texts::write_entry;
use litemap_read::ReadFault;
use name_index::{IndexedNames, Names, write_index};
use name_table::{NameWriteFault, read_names};
use std::alloc::{AllocError, Global};
use std::fmt::Write;

/// The index of the map that bytes are read as; no bytes if they are read as none.
pub fn index_of(alloc: Global, bytes: &[u8]) -> Result<Vec<u8>, AllocError> {
    let Ok((map, _)) = unless_memory!(read_names(alloc, bytes), ReadFault::NoRoom) else {
        return Ok(Vec::new(alloc));
    };
    let written = unless_memory!(write_index(alloc, map.as_slice()), NameWriteFault::NoRoom);
    match written {
        Ok(written) => Ok(written),
        Err(_) => Ok(Vec::new(alloc)),
    }
}

/// Writes it in hexadecimal.
pub fn write_digits(alloc: Global, bytes: &[u8], output: &mut String) -> Written {
    let written = index_of(alloc, bytes)?;
    if written.is_empty() {
        return output.push_str("no index");
    }
    let digits = hex::encode(alloc, written.as_slice())?;
    output.push_str(digits.as_str())
}

/// Writes each entry of an index, or the error.
pub fn write_opened(bytes: &[u8], output: &mut String) -> Written {
    let names = or_fault!(IndexedNames::open(bytes), output);
    output.push_str("index")?;
    write_all(&names, output)
}

/// Writes each entry of names, with a word more if one isn't found by its key.
pub fn write_all<'a, N: Names<'a>>(names: &N, output: &mut String) -> Written {
    let end = names.len();
    write!(output, " {end}:")?;
    let mut found = names.get_indexed(end).is_none() && names.is_empty() == (end == 0);
    for place in 0..end {
        let (key, value) = names.get_indexed(place).unwrap_or(("", ""));
        write_entry(key, value, output)?;
        found &= names.find_index(key) == Ok(place) && names.get(key) == Some(value);
    }
    if !found {
        output.push_str(" not found")?;
    }
    Ok(())
}

/// Writes what an index returns for a key, or the error.
pub fn write_looked(key: &str, bytes: &[u8], output: &mut String) -> Written {
    let names = or_fault!(IndexedNames::open(bytes), output);
    write_found(&names, key, output)
}

/// Writes what names return for a key.
pub fn write_found<'a, N: Names<'a>>(names: &N, key: &str, output: &mut String) -> Written {
    match (names.get(key), names.find_index(key)) {
        (Some(value), Ok(index)) => write!(output, "found {index}: {value}"),
        (None, Err(index)) => write!(output, "none, it would be {index}"),
        _ => output.push_str("two answers"),
    }
}
