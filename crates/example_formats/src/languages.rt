//! Names of languages: those that a program has in itself, and those that a translator sends as a name table. A map is laid
//! over the program's table for one lookup and takes no memory. The translator's bytes are read into a map whose strings are
//! slices of them, and an error of such a table is told with its offset.
ghost use Rattle.std.specs.Prelude.{◌≡◌};
ghost use Rattle.litemap.specs.Words.{IfErr, IfOk, Rising, by_bytes, value_at};
ghost use Rattle.name_table.specs.Faults.{IsUnread};
ghost use Rattle.example_formats.specs.Languages.{IsNamed};

use litemap::LiteMap;
use litemap::store::SliceStore;
use litemap_read::ReadFault;
use name_table::{NameFault, find_name};
use std::alloc::Global;

/// The name of a language in a table of the program, whose codes strictly ascend.
pub fn own_name<'a, 'k>(table: &'a [(&'k str, &'k str)], code: &str) -> Option<&'k str>
    requires { Rising by_bytes table.now }
    ensures { result ≡ value_at by_bytes table.now code.entry }
{
    let languages = LiteMap::from_sorted_store_unchecked(SliceStore::new(table));
    let (_, name) = languages.const_get_with_index(code)?;
    Some(*name)
}

/// The name of a language: the translator's, or the program's if its bytes have none.
pub fn language_name<'a>(
    alloc: Global,
    bytes: &'a [u8],
    table: &[(&'a str, &'a str)],
    code: &str,
) -> Result<Option<&'a str>, ReadFault<NameFault>>
    requires { Rising by_bytes table.now }
    ensures named { IfOk result (IsNamed bytes.now table.now code.entry) }
    ensures fault { IfErr result (IsUnread bytes.now) }
{
    match find_name(alloc, bytes, code)? {
        Some((_, name)) => Ok(Some(name)),
        None => Ok(own_name(table, code)),
    }
}
