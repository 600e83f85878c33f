//! A name table with the offset of each entry, and the iterator over them.
ghost use Rattle.std.specs.Prelude.{◌≡◌, ◌<◌, IfErr, IfOk, OnErr, OnOk, length, map, slice_range};
ghost use Rattle.std.specs.Iterator.{at_most};
ghost use Rattle.std.specs.Map.Iter.{TakesFirst};
ghost use Rattle.litemap_store.specs.Hints.{HintsExactly};
ghost use Rattle.name_index.specs.{BeginsEntry, IsFault, IsRisingTable, Listed-prop, PlacedPairs, placed_one};
ghost use Rattle.name_index.specs.declared.error.NameIndexFault.TheVariants.{TooFar};
ghost use Rattle.name_table.specs.Positions.{shown};

use crate::error::NameIndexFault;
use crate::names::{Entries, Names};
use crate::table::{offsets_of, read_valid_pair, read_valid_string};
use litemap::LiteMap;
use name_table::NameMap;
use std::alloc::{AllocError, Global};
use std::iter::FusedIterator;
use std::marker::Model;
use std::ops::Range;

/// A name table whose keys ascend, with the offset of each entry, which takes four bytes. It is looked up in its bytes.
///
/// A contract sees it as the list of its pairs, in which a string is the list of its bytes.
#[derive(Drop)]
pub struct NameIndex<'a> {
    bytes: &'a [u8],
    offsets: Vec<u32>,
    ghost pairs: { PlacedPairs bytes.now offsets.items } by { Listed-prop (placed_one bytes.now offsets.items) },
}

impl<'a> Model for NameIndex<'a> {
    ghost use Rattle.std.specs.Prelude.{ℕ, List, length};
    ghost use Rattle.name_index.specs.{AreNames, IsPlaced};

    ghost Value = { List (List ℕ × List ℕ) };

    ghost view = { λ t. t.pairs.0 };

    ghost invariant = { λ t. AreNames (IsPlaced t.bytes.now t.offsets.items) (length t.offsets.items) t.pairs.0 };
}

impl<'a> Entries<'a> for NameIndex<'a> {
    ghost pairs = { λ t. t };

    fn number(&self) -> usize {
        self.offsets.len()
    }

    fn key_at(&self, index: usize) -> &'a str {
        read_valid_string(self.bytes_from(index)).0
    }

    fn entry_at(&self, index: usize) -> (&'a str, &'a str) {
        read_valid_pair(self.bytes_from(index)).0
    }
}

impl<'a> Names<'a> for NameIndex<'a> {}

impl<'a> NameIndex<'a> {
    /// Makes the index of the name table that the bytes begin with. Bytes after the table are left unread.
    ///
    /// The table is read once, and each key compared with the one before it.
    ///
    /// # Errors
    ///
    /// The error is that of the number of entries, or of the first entry that can't be read (`Format`, as `read_names` returns
    /// it), whose key isn't above the one before it (`NotAscending`), or that begins at byte 4,294,967,296 or later (`TooFar`).
    /// If memory runs out, it is `NoRoom`, which doesn't come if the table has no entry.
    pub fn new(alloc: Global, bytes: &'a [u8]) -> Result<Self, NameIndexFault>
        ensures table { IfOk result (IsRisingTable bytes.now) }
        ensures error { IfErr result (IsFault bytes.now) }
        ensures near { OnOk result (IsFault bytes.now TooFar → ⊥) }
    {
        let offsets = offsets_of(alloc, bytes)?;
        Ok(NameIndex { bytes, offsets })
    }

    // The bytes from the entry at an index on.
    fn bytes_from(&self, index: usize) -> &'a [u8]
        requires { index < length self.now }
        ensures { BeginsEntry self.now index result.now }
    {
        let offsets = self.offsets.as_slice();
        &self.bytes[offsets[index] as usize..]
    }

    /// Returns the entries at the indices of a range, in order, and none past the last one. Each is read when the iterator
    /// comes to it, with no comparison.
    pub fn entries_in(&self, range: Range<usize>) -> NameEntries<'_, 'a>
        ensures { result ≡ slice_range self.now range.start range.end }
    {
        NameEntries {
            names: self,
            next: range.start,
            end: range.end.min(self.number()),
        }
    }

    /// Returns an iterator over all entries in order. Each is read when the iterator comes to it, with no comparison.
    pub fn iter(&self) -> NameEntries<'_, 'a>
        ensures { result ≡ self.now }
    {
        self.entries_in(0..self.number())
    }

    /// Makes the map of all entries, whose keys and values are slices of the bytes. Each is read once, moved once, and not
    /// compared.
    ///
    /// It fails only if memory runs out. It takes memory for all entries at once, and none if there is no entry.
    pub fn to_map(&self, alloc: Global) -> Result<NameMap<'a>, AllocError>
        ensures pairs { IfOk result (λ made. map shown made.entries ≡ self.now) }
        ensures refused_some { OnErr result (0 < length self.now) }
    {
        let mut pairs = Vec::with_capacity(alloc, self.number())?;
        for pair in self.iter() {
            pairs.push(pair)?;
        }
        Ok(LiteMap::from_sorted_store_unchecked(pairs))
    }
}

/// The iterator of `iter`.
impl<'t, 'a> IntoIterator for &'t NameIndex<'a> {
    type Item = (&'a str, &'a str);

    type IntoIter = NameEntries<'t, 'a>;

    ghost into_iter_gives = { λ t r. r ≡ t.now };

    fn into_iter(self) -> NameEntries<'t, 'a> {
        self.iter()
    }
}

/// An iterator over entries of a `NameIndex`. A contract sees it as the list of those still to come, in which a string is the
/// list of its bytes.
#[derive(Drop)]
pub struct NameEntries<'t, 'a> {
    names: &'t NameIndex<'a>,
    next: usize,
    end: usize,
}

impl<'t, 'a> Model for NameEntries<'t, 'a> {
    ghost use Rattle.std.specs.Prelude.{ℕ, ◌≤◌, List, length, slice_range};

    ghost Value = { List (List ℕ × List ℕ) };

    ghost view = { λ s. slice_range s.names.now s.next s.end };

    ghost invariant = { λ s. s.end ≤ length s.names.now };
}

impl<'t, 'a> Iterator for NameEntries<'t, 'a> {
    type Item = (&'a str, &'a str);

    ghost next_gives = { TakesFirst shown };

    ghost remaining = { λ s. at_most (length s) };

    fn next(&mut self) -> Option<(&'a str, &'a str)> {
        if self.next >= self.end {
            return None;
        }
        let pair = self.names.entry_at(self.next);
        self.next += 1;
        Some(pair)
    }

    fn size_hint(&self) -> (usize, Option<usize>)
        ensures { HintsExactly (length self.now) result }
    {
        let len = self.len();
        (len, Some(len))
    }
}

impl<'t, 'a> ExactSizeIterator for NameEntries<'t, 'a> {
    fn len(&self) -> usize {
        self.end.saturating_sub(self.next)
    }
}

impl<'t, 'a> FusedIterator for NameEntries<'t, 'a> {}
