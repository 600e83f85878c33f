//! The names of a table that begin with a string.
ghost use Rattle.std.specs.Prelude.{◌≡◌, filter};
ghost use Rattle.name_index.specs.Names.{begins};

use name_index::{NameEntries, NameIndex, Names};

/// The entries whose names begin with a string, in order.
pub fn beginning<'t, 'a>(index: &'t NameIndex<'a>, text: &str) -> NameEntries<'t, 'a>
    ensures { result ≡ filter (λ p. begins p.0 text.now) index.now }
{
    index.entries_in(index.prefix_range(text))
}
