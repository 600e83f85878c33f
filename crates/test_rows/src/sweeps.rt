//! Many cases at once.
use crate::{Written, indexes, tables, texts};
use litemap_read::ReadFault;
use name_table::{NameWriteFault, read_names, write_names};
use std::alloc::{AllocError, Global};
use std::fmt::Write;

/// What reads many cases.
pub trait Cases {
    /// Reads one more case, and adds what is read of it.
    fn add(&mut self, alloc: Global, bytes: &[u8]) -> Written;
}

/// How many cases were read, and what came of them.
#[derive(Drop)]
pub struct Tally {
    // Whether each case is an index, or a table.
    of_indexes: bool,
    // How many cases there are; how many are read, truncated, not UTF-8, too large; for how many two results differ.
    counts: [u64; 6],
    checksum: u64,
}

impl Tally {
    /// No case.
    pub fn new(of_indexes: bool) -> Self {
        Tally {
            of_indexes,
            counts: [0; 6],
            checksum: SUM_OF_NONE,
        }
    }

    // Counts a case by its text.
    fn count(&mut self, text: &str, is_one: bool) {
        let kinds = [
            true,
            text.starts_with("read") || text.starts_with("index"),
            text.contains("the bytes end"),
            text.contains("not UTF-8"),
            text.contains("too large"),
            !is_one,
        ];
        for (count, is_there) in self.counts.iter_mut().zip(kinds) {
            *count = count.wrapping_add(u64::from(is_there));
        }
        self.sum(text);
    }

    fn sum(&mut self, text: &str) {
        self.checksum = sum(self.checksum, text);
    }

    /// Writes the numbers.
    pub fn write(&self, output: &mut String) -> Written {
        let [cases, read, truncated, not_utf8, too_large, different] = self.counts;
        write!(
            output,
            "{cases} cases: {read} read, {truncated} truncated, {not_utf8} not UTF-8, {too_large} too large, \
            {different} different, checksum {:016x}",
            self.checksum
        )
    }
}

impl Cases for Tally {
    fn add(&mut self, alloc: Global, bytes: &[u8]) -> Written {
        let mut text = String::new(alloc);
        if self.of_indexes {
            indexes::write_opened(bytes, &mut text)?;
            self.count(text.as_str(), true);
        } else {
            texts::write_read(alloc, bytes, &mut text)?;
            self.count(text.as_str(), is_read_again(alloc, bytes)?);
            text.clear();
            tables::write_answer(alloc, &["table"], bytes, &mut text)?;
            self.sum(text.as_str());
        }
        Ok(())
    }
}

/// The checksum of no text.
pub const SUM_OF_NONE: u64 = 0xcbf2_9ce4_8422_2325;

/// The checksum with one text more.
pub fn sum(checksum: u64, text: &str) -> u64 {
    let mut sum = checksum;
    for byte in text.bytes() {
        sum = (sum ^ u64::from(byte)).wrapping_mul(0x0000_0100_0000_01b3);
    }
    sum
}

// Whether what is written for the bytes' map is read as the same map, and is no longer; so too if no map is read.
fn is_read_again(alloc: Global, bytes: &[u8]) -> Result<bool, AllocError> {
    let Ok((map, size)) = unless_memory!(read_names(alloc, bytes), ReadFault::NoRoom) else {
        return Ok(true);
    };
    let Ok(written) = unless_memory!(write_names(alloc, &map), NameWriteFault::NoRoom) else {
        return Ok(false);
    };
    let mut first = String::new(alloc);
    texts::write_map(&map, written.len(), &mut first)?;
    let mut second = String::new(alloc);
    texts::write_read(alloc, written.as_slice(), &mut second)?;
    Ok(first.as_str() == second.as_str() && written.len() <= size)
}

/// Each proper prefix.
pub fn prefixes<C: Cases>(alloc: Global, bytes: &[u8], cases: &mut C) -> Written {
    for size in 0..bytes.len() {
        cases.add(alloc, &bytes[..size])?;
    }
    Ok(())
}

/// Each change of one byte.
pub fn changes<C: Cases>(alloc: Global, bytes: &[u8], cases: &mut C) -> Written {
    for (place, byte) in bytes.iter().enumerate() {
        for value in 0..=255u8 {
            if value != *byte {
                let mut changed = bytes.to_vec(alloc)?;
                if let Some(byte) = changed.get_mut(place) {
                    *byte = value;
                }
                cases.add(alloc, changed.as_slice())?;
            }
        }
    }
    Ok(())
}

/// Each string of up to so many of these parts, after a head and before a tail.
pub fn strings<C: Cases>(
    alloc: Global,
    most: usize,
    ends: [&[u8]; 2],
    parts: &[&[u8]],
    cases: &mut C,
) -> Written {
    let mut total = 1usize;
    for size in 0..=most {
        for code in 0..total {
            let [head, tail] = ends;
            let mut text = head.to_vec(alloc)?;
            push_string(parts, size, code, &mut text)?;
            text.extend_from_slice(tail)?;
            cases.add(alloc, text.as_slice())?;
        }
        total = total.wrapping_mul(parts.len());
    }
    Ok(())
}

// Adds the string of a size that is spelled by a number in the base of the parts, the lowest digit first.
fn push_string(parts: &[&[u8]], size: usize, code: usize, text: &mut Vec<u8>) -> Written {
    let base = parts.len();
    if base == 0 {
        return Ok(());
    }
    let mut left = code;
    for _ in 0..size {
        text.extend_from_slice(parts[left % base])?;
        left /= base;
    }
    Ok(())
}
