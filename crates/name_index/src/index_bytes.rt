//! What stands at offsets of an index, and whether its entries are all there, ascend, and don't take too many bytes.
ghost use Rattle.std.specs.Prelude.{◌≡◌, ◌+◌, ◌<◌, ◌^◌, Err, IfErr, IfOk, OnOk, length};
ghost use Rattle.name_index.specs.{HasEntries, HasKey, IfOverlapping, IsEntry, IsNumberAt, IsTextAt, NoEntries, NoEntry, Overlaps};
ghost use Rattle.name_index.specs.declared.error.IndexFault.TheVariants.{Overlapping};
ghost use Rattle.name_table.specs.Positions.{shown};

use crate::error::IndexFault;
use crate::index_write::ENTRY_NUMBERS;
use crate::names::is_above;
use std::str;

/// Reads the number at an offset.
pub fn number_at(bytes: &[u8], at: usize) -> Result<usize, IndexFault>
    ensures number { IfOk result (λ number. IsNumberAt bytes.now at number) }
    ensures small { IfOk result (λ number. number < 2 ^ 32) }
    ensures error { IfErr result (λ _. length bytes.now < at + 4) }
    ensures other { IfErr result (λ error. IfOverlapping error (λ _. ⊥)) }
{
    let Some((_, tail)) = bytes.split_at_checked(at) else {
        return Err(IndexFault::Truncated { at });
    };
    match tail.first_chunk::<4>() {
        Some(four) => Ok(u32::from_le_bytes(*four) as usize),
        None => Err(IndexFault::Truncated { at }),
    }
}

// Returns the string whose length stands at an offset, in front of it, or an error if there is none.
fn string_at(bytes: &[u8], at: usize) -> Result<&str, IndexFault>
    ensures text { IfOk result (λ text. IsTextAt bytes.now at text.now) }
    ensures error { IfErr result (λ _. (text : _) → IsTextAt bytes.now at text → ⊥) }
    ensures other { IfErr result (λ error. IfOverlapping error (λ _. ⊥)) }
{
    let size = number_at(bytes, at)?;
    let Some(text) = bytes.get(at + 4..at + 4 + size) else {
        return Err(IndexFault::Truncated { at: at + 4 });
    };
    match str::from_utf8(text) {
        Ok(text) => Ok(text),
        Err(_) => Err(IndexFault::NotUtf8 { at: at + 4 }),
    }
}

/// Reads the key of the entry at an index, and returns it with the offset after it.
pub fn key_of(bytes: &[u8], len: usize, index: usize) -> Result<(&str, usize), IndexFault>
    requires small { len < 2 ^ 32 }
    requires within { index < len }
    ensures key { IfOk result (λ read. HasKey bytes.now len index read.0.now read.1) }
    ensures error { IfErr result (λ _. NoEntry bytes.now len index) }
    ensures other { IfErr result (λ error. IfOverlapping error (λ _. ⊥)) }
{
    // The bytes note how far an entry begins from the end of the offsets.
    let at = 4 + 4 * len + number_at(bytes, 4 + 4 * index)?;
    let key = string_at(bytes, at)?;
    Ok((key, at + 4 + key.len()))
}

/// Reads the entry at an index.
pub fn entry_of(bytes: &[u8], len: usize, index: usize) -> Result<(&str, &str), IndexFault>
    requires small { len < 2 ^ 32 }
    requires within { index < len }
    ensures entry { IfOk result (λ pair. IsEntry bytes.now len index (shown pair)) }
    ensures error { IfErr result (λ _. NoEntry bytes.now len index) }
    ensures other { IfErr result (λ error. IfOverlapping error (λ _. ⊥)) }
{
    let (key, after) = key_of(bytes, len, index)?;
    let value = string_at(bytes, after)?;
    Ok((key, value))
}

/// Reads all entries. The error is that of the first one that can't be read, whose key doesn't ascend, or with which they take
/// more bytes than there are. So it takes time linear in the bytes.
pub fn follow(bytes: &[u8], len: usize) -> Result<(), IndexFault>
    requires { len < 2 ^ 32 }
    ensures ok { OnOk result (HasEntries bytes.now len) }
    ensures error { IfErr result (λ _. NoEntries bytes.now len) }
    ensures overlapping { IfErr result (λ error. IfOverlapping error (Overlaps bytes.now len)) }
    ensures overlaps { (index : _) → Overlaps bytes.now len index → result ≡ Err (Overlapping index) }
{
    let mut last: Option<&str> = None;
    // How many bytes the entries to come may take.
    let mut left = bytes.len().saturating_sub(4 + 4 * len);
    for index in 0..len {
        let (key, value) = entry_of(bytes, len, index)?;
        if !is_above(last, key) {
            return Err(IndexFault::NotAscending { index });
        }
        let size = ENTRY_NUMBERS + key.len() + value.len();
        if size > left {
            return Err(IndexFault::Overlapping { index });
        }
        left -= size;
        last = Some(key);
    }
    Ok(())
}
