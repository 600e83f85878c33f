//! Names looked up by the offsets that stand before them in the bytes.
ghost use Rattle.std.specs.Prelude.{◌≡◌, Err, IfErr, IfOk};
ghost use Rattle.name_index.specs.{IfOverlapping, IsEntry, IsIndex, IsOverlapping, Listed, Listed-prop, NoIndex, entry_one};
ghost use Rattle.name_index.specs.declared.error.IndexFault.TheVariants.{Overlapping};

use crate::error::IndexFault;
use crate::index_bytes::{entry_of, follow, key_of, number_at};
use crate::names::{Entries, Names};
use std::marker::Model;

/// An index of names that lies in bytes, as `write_index` writes it. It takes no memory.
///
/// A contract sees it as the list of its pairs, in which a string is the list of its bytes.
#[derive(Drop)]
pub struct IndexedNames<'a> {
    bytes: &'a [u8],
    len: usize,
    ghost pairs: { Listed (IsEntry bytes.now len) len } by { Listed-prop (entry_one bytes.now len) },
}

impl<'a> Model for IndexedNames<'a> {
    ghost use Rattle.std.specs.Prelude.{ℕ, ◌<◌, ◌^◌, List};
    ghost use Rattle.name_index.specs.{AreNames, IsEntry};

    ghost Value = { List (List ℕ × List ℕ) };

    ghost view = { λ t. t.pairs.0 };

    ghost invariant = { λ t. (t.len < 2 ^ 32) × AreNames (IsEntry t.bytes.now t.len) t.len t.pairs.0 };
}

impl<'a> Entries<'a> for IndexedNames<'a> {
    ghost pairs = { λ t. t };

    fn number(&self) -> usize {
        self.len
    }

    fn key_at(&self, index: usize) -> &'a str {
        match key_of(self.bytes, self.len, index) {
            Ok((key, _)) => key,
            Err(_) => unreachable!(),
        }
    }

    fn entry_at(&self, index: usize) -> (&'a str, &'a str) {
        match entry_of(self.bytes, self.len, index) {
            Ok(entry) => entry,
            Err(_) => unreachable!(),
        }
    }
}

impl<'a> Names<'a> for IndexedNames<'a> {}

impl<'a> IndexedNames<'a> {
    /// Opens the index that the bytes are. All entries are read once, and each key is compared with the one before it; no later
    /// call fails. It takes time linear in the bytes.
    ///
    /// The error is that of the number of entries, or of the first entry that can't be read, whose key isn't above the one
    /// before it, or with which the entries take more bytes than there are (`Overlapping`).
    pub fn open(bytes: &'a [u8]) -> Result<Self, IndexFault>
        ensures index { IfOk result (IsIndex bytes.now) }
        ensures error { IfErr result (λ _. NoIndex bytes.now) }
        ensures overlapping { IfErr result (λ error. IfOverlapping error (IsOverlapping bytes.now)) }
        ensures overlaps { (index : _) → IsOverlapping bytes.now index → result ≡ Err (Overlapping index) }
    {
        let len = number_at(bytes, 0)?;
        follow(bytes, len)?;
        Ok(IndexedNames { bytes, len })
    }
}
