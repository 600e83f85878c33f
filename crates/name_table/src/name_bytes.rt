//! The entries of a name table as a source of pairs.
ghost use Rattle.std.specs.Prelude.{◌≡◌, ◌↔◌, ◌∷◌, [], IfErr, IfOk, IfSome, Some};
ghost use Rattle.litemap_read.specs.Source.{GivesNext};
ghost use Rattle.name_table.specs.{AllCanBeRead, CanBeRead, IsAfter, IsCounted, IsReadOn, NextFault, Number, PairsFault};
ghost use Rattle.name_table.specs.{PartFault, read_on_further, read_on_itself, shown};

use crate::cursor::Cursor;
use crate::error::NameFault;
use litemap_read::PairSource;
use std::marker::Model;

/// A source of the entries of a name table. Their keys and values are slices of the table's bytes, and nothing is copied.
///
/// If all entries can be read, it comes to its end and returns no error. Else it returns the error of the first number or
/// string that can't be read, and the same one again if it is called after that.
///
/// A contract sees it as the bytes after those read, the number of those read, and the number of entries that are due.
///
/// ```rust
/// const LANGUAGES: &[u8] = b"\x02\x02de\x06German\x02fr\x06French";
/// // ...
/// let mut languages = NameBytes::new(LANGUAGES)?;
/// let first = languages.next_pair()?;
/// Ok(first == Some(("de", "German")) && languages.hint() == Some(1) && languages.place() == 11)
/// ```
#[derive(Drop)]
pub struct NameBytes<'a> {
    cursor: Cursor<'a>,
    left: usize,
}

impl<'a> Model for NameBytes<'a> {
    ghost use Rattle.name_table.specs.{Remaining};

    ghost Value = { Remaining };

    ghost view = { λ s. record { rest = s.cursor.rest; place = s.cursor.place; left = s.left } };
}

impl<'a> NameBytes<'a> {
    /// Makes the source of a table's entries. It reads their number, and an error is that number's.
    pub fn new(bytes: &'a [u8]) -> Result<Self, NameFault>
        ensures ok { IfOk result (λ names. IsCounted bytes.now names) }
        ensures error { IfErr result (λ error. PartFault (Number 0) bytes.now 0 error) }
    {
        let (left, cursor) = Cursor::new(bytes).number()?;
        Ok(NameBytes { cursor, left })
    }

    /// Returns how many bytes were read, those of the number of entries and of whole entries.
    pub fn place(&self) -> usize
        ensures { result ≡ self.now.place }
    {
        self.cursor.place()
    }
}

impl<'a> PairSource<&'a str, &'a str> for NameBytes<'a> {
    type Fault = NameFault;

    ghost gives = { CanBeRead };

    ghost left = { λ s. s.left };

    ghost allows = { PairsFault };

    ghost ends = { AllCanBeRead };

    ghost leads = { IsReadOn };

    /// Returns the number of entries that are due.
    fn hint(&self) -> Option<usize>
        ensures { result ≡ Some self.now.left }
    {
        Some(self.left)
    }

    /// Returns the next entry, `None` at the end, or the error of the first number or string that can't be read.
    #[tactic(auto, using(crate::specs::ReadOn::read_on_itself))]
    fn next_pair(&mut self) -> Result<Option<(&'a str, &'a str)>, NameFault>
        ensures next { GivesNext CanBeRead (λ s. s.left) PairsFault AllCanBeRead self.old result self.new }
        ensures keeps_faults { (error : _) → PairsFault self.new error ↔ PairsFault self.old error }
        ensures keeps_end { AllCanBeRead self.new ↔ AllCanBeRead self.old }
        ensures leads { IsReadOn self.old self.new }
        ensures error { IfErr result (λ error. NextFault self.old error) }
        ensures read { IfOk result (λ read. IfSome read (λ pair. IsAfter self.old self.new (shown pair ∷ []))) }
    {
        if self.left == 0 {
            return Ok(None);
        }
        let (key, middle) = self.cursor.text()?;
        let (value, after) = middle.text()?;
        self.cursor = after;
        self.left -= 1;
        Ok(Some((key, value)))
    }

    ghost leads_itself = { read_on_itself };

    ghost leads_on = { read_on_further };
}
