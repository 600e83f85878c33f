//! Maps read from name tables, and names looked up in them.
ghost use Rattle.std.specs.Prelude.{IfErr, IfOk};
ghost use Rattle.name_table.specs.{IsFound, IsRead, IsUnread};

use crate::error::NameFault;
use crate::name_bytes::NameBytes;
use litemap::VecMap;
use litemap_read::{ReadFault, read_pairs};
use std::alloc::Global;

/// A map of strings that lie in the bytes of a name table.
pub type NameMap<'a> = VecMap<&'a str, &'a str>;

/// Reads the name table that the bytes begin with, and returns its map and how many bytes it takes. Keys and values are slices
/// of the bytes. The last entry of each key stays, and the others are dropped. Bytes after the table are left unread. The Rust
/// crate reads by `postcard`'s `from_bytes` here.
///
/// It compares as `read_pairs`, which reads the entries: at most once for each if the keys ascend.
///
/// # Errors
///
/// `ReadFault::Source` has the error of the first number or string that can't be read. If memory runs out, it is
/// `ReadFault::NoRoom`, which doesn't come if the table has no entry.
///
/// ```rust
/// const LANGUAGES: &[u8] = b"\x02\x02de\x06German\x02fr\x06French";
/// // ...
/// let (languages, size) = read_names(alloc, LANGUAGES)?;
/// Ok(size == LANGUAGES.len() && languages.get("fr") == Some(&"French"))
/// ```
pub fn read_names<'a>(
    alloc: Global,
    bytes: &'a [u8],
) -> Result<(NameMap<'a>, usize), ReadFault<NameFault>>
    ensures read { IfOk result (λ read. IsRead bytes.now read.0.entries read.1) }
    ensures error { IfErr result (IsUnread bytes.now) }
{
    let mut names = NameBytes::new(bytes)?;
    let map = read_pairs(alloc, &mut names)?;
    Ok((map, names.place()))
}

/// Looks a name up in the map that `read_names` returns for the bytes, and returns its index and its value, or `None` if the
/// name isn't there. The value is a slice of the bytes.
///
/// Each call reads the whole table into a map, with the comparisons, the memory and the errors of `read_names`, and drops the
/// map in the end. The lookup makes O(log n) comparisons more. To look up several names, read the map once; if the keys ascend,
/// the crate `name_index` looks them up in the bytes.
///
/// ```rust
/// const LANGUAGES: &[u8] = b"\x02\x02de\x06German\x02fr\x06French";
/// // ...
/// let found = find_name(alloc, LANGUAGES, "fr")?;
/// Ok(found == Some((1, "French")))
/// ```
pub fn find_name<'a>(
    alloc: Global,
    bytes: &'a [u8],
    key: &str,
) -> Result<Option<(usize, &'a str)>, ReadFault<NameFault>>
    ensures found { IfOk result (λ found. IsFound bytes.now key.entry found) }
    ensures error { IfErr result (IsUnread bytes.now) }
{
    let (map, _) = read_names(alloc, bytes)?;
    match map.as_sliced().const_get_with_index(key) {
        Some((place, value)) => Ok(Some((place, *value))),
        None => Ok(None),
    }
}
