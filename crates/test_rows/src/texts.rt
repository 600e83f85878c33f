//! The texts of what is read.
use crate::Written;
use litemap_read::{PairSource, ReadFault};
use name_table::{NameBytes, NameFault, NameMap, find_name, read_names};
use std::alloc::{AllocError, Global};
use std::fmt::Write;

/// Writes what `read_names` returns.
pub fn write_read(alloc: Global, bytes: &[u8], output: &mut String) -> Written {
    match read_names(alloc, bytes) {
        Ok((map, size)) => write_map(&map, size, output),
        Err(fault) => write_fault(&fault, output),
    }
}

/// Writes a map and a number of bytes.
pub fn write_map(map: &NameMap<'_>, size: usize, output: &mut String) -> Written {
    write!(output, "read {size}:")?;
    for (key, value) in map.as_slice() {
        write_entry(key, value, output)?;
    }
    Ok(())
}

/// Writes an entry.
pub fn write_entry(key: &str, value: &str, output: &mut String) -> Written {
    write!(output, " {key}={value}")
}

/// Writes an error, but for an allocation error.
pub fn write_fault(fault: &ReadFault<NameFault>, output: &mut String) -> Written {
    match fault {
        ReadFault::Source(fault) => write!(output, "{fault}"),
        ReadFault::NoRoom => Err(AllocError),
    }
}

/// Writes what `find_name` returns.
pub fn write_found(alloc: Global, key: &str, bytes: &[u8], output: &mut String) -> Written {
    match find_name(alloc, bytes, key) {
        Ok(Some((place, value))) => write!(output, "found {place}: {value}"),
        Ok(None) => output.push_str("none"),
        Err(fault) => write_fault(&fault, output),
    }
}

/// Writes what the source gives.
pub fn write_walk(bytes: &[u8], output: &mut String) -> Written {
    let mut names = or_fault!(NameBytes::new(bytes), output);
    let most = names.hint().unwrap_or(0);
    for _ in 0..most {
        write_state(&names, output)?;
        match names.next_pair() {
            Ok(Some((key, value))) => write_entry(key, value, output)?,
            _ => break,
        }
    }
    write_state(&names, output)?;
    write_end(&mut names, output)?;
    write_end(&mut names, output)?;
    write_state(&names, output)
}

// Writes the offset and the number of entries that are due.
fn write_state(names: &NameBytes<'_>, output: &mut String) -> Written {
    let due = names.hint().unwrap_or(0);
    write!(output, " @{}/{due}", names.place())
}

// Writes what is returned when it is no entry.
fn write_end(names: &mut NameBytes<'_>, output: &mut String) -> Written {
    match names.next_pair() {
        Ok(Some(_)) => output.push_str(" one more"),
        Ok(None) => output.push_str(" end"),
        Err(fault) => write!(output, " {fault}"),
    }
}
