//! A header list: values by their names, in the order of the names' bytes. Its strings are its own, or are borrowed from a
//! message or from the program.
ghost use Rattle.std.specs.Prelude.{◌≡◌, ◌≢◌};
ghost use Rattle.litemap.specs.Words.{IfOk, IsUnchanged, None, OnErr, OnOk, PairsBecame, Some, by_bytes, get, get_by_text};
ghost use Rattle.litemap.specs.Words.{string_bytes};

use litemap::VecMap;
use std::alloc::{AllocError, Global};

/// Headers that own their strings.
pub type Headers = VecMap<String, String>;

/// Sets a header, and returns the value before. All others stay.
pub fn set(headers: &mut Headers, name: String, value: String) -> Result<Option<String>, AllocError>
    ensures old { IfOk result (λ old. old ≡ get_by_text headers.old (string_bytes name)) }
    ensures set { OnOk result (get_by_text headers.new (string_bytes name) ≡ Some value) }
    ensures others { OnOk result ((other : _) → other ≢ string_bytes name
        → get_by_text headers.new other ≡ get_by_text headers.old other) }
    ensures unchanged { OnErr result (IsUnchanged headers.old headers.new) }
{
    Ok(headers.insert(name, value)?)
}

/// Removes a header. All others stay.
pub fn remove(headers: &mut Headers, name: &str) -> Option<String>
    ensures value { result ≡ get_by_text headers.old name.now }
    ensures gone { get_by_text headers.new name.now ≡ None }
    ensures others { (other : _) → other ≢ name.now → get_by_text headers.new other ≡ get_by_text headers.old other }
{
    headers.remove(name)
}

/// A copy of the headers, with strings of its own that have the same bytes.
pub fn copy_of(alloc: Global, headers: &Headers) -> Result<Headers, AllocError>
    ensures { IfOk result (λ copy. PairsBecame
        (λ text clone. string_bytes clone ≡ string_bytes text) (λ text clone. string_bytes clone ≡ string_bytes text)
        headers.now.entries copy.entries) }
{
    headers.try_clone(alloc)
}

/// Headers whose strings are borrowed.
pub type Borrowed<'k> = VecMap<&'k str, &'k str>;

/// Sets a header whose strings are borrowed.
pub fn set_borrowed<'k>(
    headers: &mut Borrowed<'k>,
    name: &'k str,
    value: &'k str,
) -> Result<(), AllocError>
    ensures set { OnOk result (get by_bytes headers.new name.entry ≡ Some value.entry) }
    ensures unchanged { OnErr result (IsUnchanged headers.old headers.new) }
{
    headers.insert(name, value)?;
    Ok(())
}

/// Removes a header whose string is borrowed.
pub fn remove_borrowed<'k>(headers: &mut Borrowed<'k>, name: &'k str) -> Option<&'k str>
    ensures gone { get by_bytes headers.new name.entry ≡ None }
{
    headers.remove(&name)
}
