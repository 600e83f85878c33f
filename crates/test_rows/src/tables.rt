//! What is found in a table that is looked up in its bytes.
use crate::Written;
use crate::indexes::{index_of, write_all, write_found};
use crate::texts::write_entry;
use example_formats::prefixes::beginning;
use example_formats::words::translated;
use litemap_store::store::Count;
use name_index::{IndexFault, IndexedNames, NameIndex, NameIndexFault, Names};
use std::alloc::{AllocError, Global};
use std::fmt::Write;

/// Writes what a table returns for words, as `answer_line` has them, and its index, too.
pub fn write_answer(alloc: Global, words: &[&str], bytes: &[u8], output: &mut String) -> Written {
    let made = unless_memory!(NameIndex::new(alloc, bytes), NameIndexFault::NoRoom);
    let table = or_fault!(made, output);
    let written = index_of(alloc, bytes)?;
    let Ok(index) = IndexedNames::open(written.as_slice()) else {
        return output.push_str("no index");
    };
    Forms { table, index }.write(alloc, words, output)
}

/// Writes what is found in a table of so many names, for the words `many` or `often`.
pub fn write_many(alloc: Global, words: &[&str], number: &str, output: &mut String) -> Written {
    let bytes = many(alloc, number.parse::<u32>().unwrap_or(0))?;
    write_answer(alloc, words, bytes.as_slice(), output)
}

/// Writes how often a table of so many names and its index are refused, for the word `falls`: the second name is below the first
/// one, and they are opened as many times as they have names.
pub fn write_falls(alloc: Global, number: &str, output: &mut String) -> Written {
    let number = number.parse::<u32>().unwrap_or(0);
    let mut table = many(alloc, number)?;
    let mut index = index_of(alloc, table.as_slice())?;
    // Before the first name of the table are its number of names, in three bytes, and the length of the name; before that of the
    // index four bytes for each offset, and eight more.
    raise(table.as_mut_slice(), 4);
    raise(
        index.as_mut_slice(),
        (number as usize).wrapping_mul(4).wrapping_add(8),
    );
    let mut falls = 0u32;
    for _ in 0..number {
        falls = falls.wrapping_add(u32::from(is_refused(
            alloc,
            table.as_slice(),
            index.as_slice(),
        )?));
    }
    write!(output, "{falls} fall")
}

// Makes the name that begins at an offset greater than those that begin with another digit.
fn raise(bytes: &mut [u8], at: usize) {
    if let Some(digit) = bytes.get_mut(at) {
        *digit = b'9';
    }
}

// Whether neither is opened, since the second name is below the first one.
fn is_refused(alloc: Global, table: &[u8], index: &[u8]) -> Result<bool, AllocError> {
    let table = unless_memory!(NameIndex::new(alloc, table), NameIndexFault::NoRoom);
    let index = IndexedNames::open(index);
    Ok(
        matches!(table, Err(NameIndexFault::NotAscending { at: 13 }))
            && matches!(index, Err(IndexFault::NotAscending { index: 1 })),
    )
}

// A table with the offsets of its entries, and what was written of it as an index.
#[derive(Drop)]
struct Forms<'a> {
    table: NameIndex<'a>,
    index: IndexedNames<'a>,
}

impl<'a> Forms<'a> {
    // Writes what they return for words.
    fn write(&self, alloc: Global, words: &[&str], output: &mut String) -> Written {
        match words {
            ["ask", key] => self.write_asked(key, output),
            ["begin", text] => self.write_beginning(text, output),
            ["word", word] => self.write_translated(word, output),
            ["many", _] => self.write_many(alloc, output),
            ["often", _] => self.write_often(output),
            _ => self.write_entries(alloc, output),
        }
    }

    // Whether both return the same for a key.
    fn is_one(&self, key: &str) -> bool {
        let place = self.table.find_index(key);
        self.index.get(key) == self.table.get(key)
            && self.index.find_index(key) == place
            && self.index.find_index_counted(key, &mut Count::new()) == place
            && self.table.find_index_counted(key, &mut Count::new()) == place
    }

    // Writes each entry, with a word more if both don't have it, or other names begin with it.
    fn write_entries(&self, alloc: Global, output: &mut String) -> Written {
        output.push_str("table")?;
        write_all(&self.table, output)?;
        let mut alike = self.is_walked();
        for (key, value) in &self.table {
            alike &= self.is_one(key) && self.is_scanned(key) && self.is_scanned(value);
        }
        let map = self.table.to_map(alloc)?;
        if !alike || !self.table.iter().eq(map.as_slice().iter().copied()) {
            output.push_str(" otherwise")?;
        }
        Ok(())
    }

    // Whether both have the entries at the indices that a walk meets, and no others.
    fn is_walked(&self) -> bool {
        let mut entries = self.table.iter();
        let number = self.table.len();
        let mut alike = self.index.len() == number
            && self.index.is_empty() == self.table.is_empty();
        for place in 0..=number {
            alike &= entries.len() == number.saturating_sub(place);
            let entry = self.table.get_indexed(place);
            alike &= self.index.get_indexed(place) == entry && entries.next() == entry;
        }
        alike
    }

    // Writes what is there at a key, if both return the same.
    fn write_asked(&self, key: &str, output: &mut String) -> Written {
        if !self.is_one(key) {
            return output.push_str("another answer");
        }
        write_found(&self.table, key, output)
    }

    // Writes the indices of the names that begin with a string, each of these entries, and whether a walk finds others.
    fn write_beginning(&self, text: &str, output: &mut String) -> Written {
        let places = self.table.prefix_range(text);
        write!(output, "{} to {}:", places.start, places.end)?;
        for (name, value) in self.table.entries_in(places) {
            write_entry(name, value, output)?;
        }
        if !self.is_scanned(text) {
            output.push_str(" other names")?;
        }
        Ok(())
    }

    // Whether the names that begin with a string are those that a walk of all finds.
    fn is_scanned(&self, text: &str) -> bool {
        let places = self.table.prefix_range(text);
        let mut found = beginning(&self.table, text);
        for (place, (name, value)) in self.table.iter().enumerate() {
            let begins = name.starts_with(text);
            if begins != (places.start <= place && place < places.end)
                || (name < text) != (place < places.start)
            {
                return false;
            }
            if begins && found.next() != Some((name, value)) {
                return false;
            }
        }
        found.next().is_none() && places.end <= self.table.len()
    }

    // Writes the string for a word, or the word itself, if both have the same.
    fn write_translated(&self, word: &str, output: &mut String) -> Written {
        let text = translated(&self.table, word);
        if translated(&self.index, word) != text {
            return output.push_str("another answer");
        }
        output.push_str(text)
    }

    // Writes how many of some keys of a table of `many` names are found: 16 that are there, and one after each of these.
    fn write_many(&self, alloc: Global, output: &mut String) -> Written {
        let number = self.table.len();
        let mut key = String::new(alloc);
        let (mut there, mut between) = (0u32, 0u32);
        for step in 0..16usize {
            let place = (number / 16).wrapping_mul(step);
            key.clear();
            write!(key, "{place:08}")?;
            there = there.wrapping_add(u32::from(self.is_at(key.as_str(), Ok(place))));
            key.push('+')?;
            let after = Err(place.wrapping_add(1));
            between = between.wrapping_add(u32::from(self.is_at(key.as_str(), after)));
        }
        write!(output, "{number} names: {there} there, {between} between")
    }

    // Writes how many of all names both find.
    fn write_often(&self, output: &mut String) -> Written {
        let mut found = 0u32;
        for place in 0..self.table.len() {
            let (key, _) = self.table.get_indexed(place).unwrap_or(("", ""));
            let there = self.table.get(key).is_some() && self.is_at(key, Ok(place));
            found = found.wrapping_add(u32::from(there));
        }
        write!(output, "{found} found")
    }

    // Whether a key has this index, or would have it, and both return the same.
    fn is_at(&self, key: &str, place: Result<usize, usize>) -> bool {
        self.table.find_index(key) == place && self.is_one(key)
    }
}

fn many(alloc: Global, number: u32) -> Result<Vec<u8>, AllocError> {
    let mut bytes = Vec::new(alloc);
    put_number(number, &mut bytes)?;
    let mut key = String::new(alloc);
    for name in 0..number {
        key.clear();
        write!(key, "{name:08}")?;
        bytes.push(8)?;
        bytes.extend_from_slice(key.as_str().as_bytes())?;
        bytes.push(0)?;
    }
    Ok(bytes)
}

// Writes a number in groups of seven bits.
fn put_number(number: u32, bytes: &mut Vec<u8>) -> Written {
    let mut rest = number;
    for _ in 0..5 {
        if rest < 128 {
            bytes.push(rest as u8)?;
            return Ok(());
        }
        bytes.push((rest % 128 + 128) as u8)?;
        rest /= 128;
    }
    Ok(())
}
