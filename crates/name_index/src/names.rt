//! Names by their indices, and what is looked up among them, whatever bytes they lie in.
ghost use Rattle.std.specs.Prelude.{◌≡◌, ◌==◌, ◌+◌, ◌<◌, ℕ, List, MatchResult, Some, length, option_map, slice_get};
ghost use Rattle.std.specs.Option.{option_copied};
ghost use Rattle.litemap_store.specs.Counts.{RisesByAtMost, digits};
ghost use Rattle.litemap_store.specs.Pairs.{Rising, index_of, value_at};
ghost use Rattle.litemap_store.specs.Splits.{Splits};
ghost use Rattle.name_index.specs.{IsKeyAt, IsPrefixRange, comes_after, order_by, text_order};
ghost use Rattle.name_table.specs.Positions.{shown};

use litemap_store::store::Count;
use std::cmp::Ordering;
use std::ops::Range;

/// Entries by their indices, in the order of their keys.
pub trait Entries<'a> {
    /// The keys with their values.
    ghost pairs: { Self → List (List ℕ × List ℕ) };

    /// Returns the number of entries.
    fn number(&self) -> usize
        ensures number { result ≡ length (pairs self.now) }
        ensures rises { Rising text_order (pairs self.now) };

    /// Returns the key at an index. Its value is not read.
    fn key_at(&self, index: usize) -> &'a str
        requires { index < length (pairs self.now) }
        ensures { IsKeyAt (pairs self.now) index result.now };

    /// Returns the entry at an index.
    fn entry_at(&self, index: usize) -> (&'a str, &'a str)
        requires { index < length (pairs self.now) }
        ensures { slice_get (pairs self.now) index ≡ Some (shown result) };
}

/// Names in ascending order with their values, which are looked up in bytes: a `NameIndex` or an `IndexedNames`.
///
/// A contract sees them as the list of their pairs, in which a string is the list of its bytes.
pub trait Names<'a>: Entries<'a> {
    /// Returns the number of names.
    final fn len(&self) -> usize
        ensures { result ≡ length (Self.pairs self.now) }
    {
        self.number()
    }

    /// Returns whether there is no name.
    final fn is_empty(&self) -> bool
        ensures { result ≡ (length (Self.pairs self.now) == 0) }
    {
        self.number() == 0
    }

    /// Returns the value of a key, or `None` if it isn't there. It makes O(log n) comparisons for n names.
    ///
    /// The value is a slice of the bytes, so it may outlive what it was looked up in. No memory is taken.
    final fn get(&self, key: &str) -> Option<&'a str>
        ensures { option_copied result ≡ value_at text_order (Self.pairs self.now) key.now }
    {
        match search(self, key, false, &mut Count::new()) {
            Ok(index) => Some(self.entry_at(index).1),
            Err(_) => None,
        }
    }

    /// Returns `Ok` with the index of a key, or `Err` with the index where it would go. It costs what `get` does.
    final fn find_index(&self, key: &str) -> Result<usize, usize>
        ensures { result ≡ index_of text_order (Self.pairs self.now) key.now }
    {
        self.find_index_counted(key, &mut Count::new())
    }

    /// `find_index`, counting its comparisons.
    final fn find_index_counted(&self, key: &str, count: &mut Count) -> Result<usize, usize>
        ensures index { result ≡ index_of text_order (Self.pairs self.now) key.now }
        ensures cost { RisesByAtMost (digits (length (Self.pairs self.now))) count.old count.new }
    {
        search(self, key, false, count)
    }

    /// Returns the entry at an index, or `None` if it is not below the length. No other entry is read.
    final fn get_indexed(&self, index: usize) -> Option<(&'a str, &'a str)>
        ensures { option_map shown result ≡ slice_get (Self.pairs self.now) index }
    {
        if index < self.number() {
            Some(self.entry_at(index))
        } else {
            None
        }
    }

    /// Returns the range of the indices of the names that begin with a string. It starts after all names that are below the
    /// string, and if no name begins with it, it is empty there. An empty string begins each name.
    ///
    /// It searches twice, as `find_index` does.
    final fn prefix_range(&self, prefix: &str) -> Range<usize>
        ensures { IsPrefixRange prefix.now result.start result.end (Self.pairs self.now) }
    {
        let count = &mut Count::new();
        let start = index_in(search(self, prefix, false, count));
        let end = index_in(search(self, prefix, true, count));
        start..end
    }
}

// Searches by halves. Returns `Ok` with the index of a key, or `Err` with the index where it would go; if `past` is true, `Err`
// with the number of names that are below the string or begin with it.
fn search<'a, N: Entries<'a>>(
    names: &N,
    text: &str,
    past: bool,
    count: &mut Count,
) -> Result<usize, usize>
    ensures splits { Splits (order_by past) (N.pairs names.now) text.now result }
    ensures cost { RisesByAtMost (digits (length (N.pairs names.now))) count.old count.new }
{
    let mut low = 0;
    let mut high = names.number();
    while low < high {
        let middle = low + (high - low) / 2;
        match order(names.key_at(middle), text, past, count) {
            Ordering::Less => low = middle + 1,
            Ordering::Equal => return Ok(middle),
            Ordering::Greater => high = middle,
        }
    }
    Err(low)
}

// How a name compares with a string; if `past` is true, `Less` for those that begin with it, too, and `Greater` for all others.
fn order(name: &str, text: &str, past: bool, count: &mut Count) -> Ordering
    ensures order { result ≡ order_by past name.now text.now }
    ensures same { count.new.name ≡ count.old.name }
    ensures counted { count.new.total ≡ count.old.total + 1 }
    ensures refusals { count.new.refusals ≡ count.old.refusals }
{
    let order = count.cmp(&name, &text);
    if !past {
        return order;
    }
    if order.is_lt() {
        return Ordering::Less;
    }
    if name.as_bytes().starts_with(text.as_bytes()) {
        Ordering::Less
    } else {
        Ordering::Greater
    }
}

// The index of a search's result.
fn index_in(found: Result<usize, usize>) -> usize
    ensures { MatchResult found (λ index. result ≡ index) (λ index. result ≡ index) }
{
    match found {
        Ok(index) | Err(index) => index,
    }
}

/// Returns whether a key is above the last one, if there is one.
pub fn is_above(last: Option<&str>, key: &str) -> bool
    ensures { result ≡ comes_after last.entry key.now }
{
    match last {
        None => true,
        Some(last) => last.cmp(key).is_lt(),
    }
}
