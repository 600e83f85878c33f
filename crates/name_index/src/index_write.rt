//! Indexes of names written from pairs.
ghost use Rattle.std.specs.Prelude.{◌≡◌, ◌+◌, ◌≤◌, ◌<◌, Err, IfErr, IfOk, OnOk, length, map};
ghost use Rattle.litemap.specs.ByBytes.{by_bytes};
ghost use Rattle.litemap_store.specs.Pairs.{Rising};
ghost use Rattle.name_index.specs.{Adds, AreOffsets, IsIndex, IsNumberAt, IsPairAt, IsTextAt, entries_size};
ghost use Rattle.name_index.specs.{index_size, pair_size};
ghost use Rattle.name_table.specs.Parts.{number_limit};
ghost use Rattle.name_table.specs.Positions.{shown};
ghost use Rattle.name_table.specs.Reads.{IfTooLarge};
ghost use Rattle.name_table.specs.declared.error.NameWriteFault.TheVariants.{TooLarge};

use name_table::NameWriteFault;
use name_table::parts::NUMBER_LIMIT;
use std::alloc::Global;

/// The bytes of the two numbers of an entry: one stands before its key, one before its value.
pub const ENTRY_NUMBERS: usize = 8;

/// Writes the index of pairs whose keys strictly ascend, as those of a map's `as_slice` or of a constant table do. Returns its
/// bytes.
///
/// # Errors
///
/// `TooLarge` comes if the entries take 4,294,967,296 bytes or more, and only then. If memory runs out, it is `NoRoom`.
pub fn write_index(alloc: Global, names: &[(&str, &str)]) -> Result<Vec<u8>, NameWriteFault>
    requires { Rising by_bytes names.now }
    ensures index { IfOk result (λ bytes. IsIndex bytes.items (map shown names.now)) }
    ensures size { IfOk result (λ bytes. length bytes.items ≡ index_size (map shown names.now)) }
    ensures too_large { IfErr result (λ error. IfTooLarge error (number_limit ≤ entries_size (map shown names.now))) }
    ensures small { OnOk result (entries_size (map shown names.now) < number_limit) }
{
    let mut bytes = put_offsets(alloc, names)?;
    for pair in names {
        put_pair(&mut bytes, pair.0, pair.1)?;
    }
    Ok(bytes)
}

// Writes the number of pairs, and the offset of each.
fn put_offsets(alloc: Global, pairs: &[(&str, &str)]) -> Result<Vec<u8>, NameWriteFault>
    ensures offsets { IfOk result (λ bytes. AreOffsets bytes.items (map shown pairs.now) (length pairs.now)) }
    ensures too_large { IfErr result (λ error. IfTooLarge error (NUMBER_LIMIT ≤ entries_size (map shown pairs.now))) }
    ensures small { OnOk result (entries_size (map shown pairs.now) < NUMBER_LIMIT) }
{
    let mut bytes = Vec::new(alloc);
    put_number(&mut bytes, pairs.len())?;
    let mut offset = 0;
    for pair in pairs {
        put_number(&mut bytes, offset)?;
        offset = offset_after(offset, pair.0, pair.1)?;
    }
    Ok(bytes)
}

// The offset after a pair, if four bytes can hold it.
fn offset_after(offset: usize, key: &str, value: &str) -> Result<usize, NameWriteFault>
    requires { offset < NUMBER_LIMIT }
    ensures next { IfOk result (λ next. next ≡ offset + pair_size (key.now, value.now)) }
    ensures small { IfOk result (λ next. next < NUMBER_LIMIT) }
    ensures too_large { IfErr result (λ error. (error ≡ TooLarge) × (NUMBER_LIMIT ≤ offset + pair_size (key.now, value.now))) }
{
    if key.len() >= NUMBER_LIMIT || value.len() >= NUMBER_LIMIT {
        return Err(NameWriteFault::TooLarge);
    }
    let next = offset + ENTRY_NUMBERS + key.len() + value.len();
    if next < NUMBER_LIMIT {
        Ok(next)
    } else {
        Err(NameWriteFault::TooLarge)
    }
}

// Appends a key and its value, each after its length.
fn put_pair(bytes: &mut Vec<u8>, key: &str, value: &str) -> Result<(), NameWriteFault>
    ensures adds { OnOk result (Adds bytes.old.items bytes.new.items (pair_size (key.now, value.now))) }
    ensures pair { OnOk result (IsPairAt bytes.new.items (length bytes.old.items) (key.now, value.now)) }
    ensures too_large { IfErr result (λ error. IfTooLarge error (NUMBER_LIMIT ≤ pair_size (key.now, value.now))) }
{
    put_string(bytes, key)?;
    put_string(bytes, value)?;
    Ok(())
}

fn put_string(bytes: &mut Vec<u8>, text: &str) -> Result<(), NameWriteFault>
    ensures adds { OnOk result (Adds bytes.old.items bytes.new.items (4 + length text.now)) }
    ensures text { OnOk result (IsTextAt bytes.new.items (length bytes.old.items) text.now) }
    ensures too_large { IfErr result (λ error. IfTooLarge error (NUMBER_LIMIT ≤ length text.now)) }
{
    put_number(bytes, text.len())?;
    bytes.extend_from_slice(text.as_bytes())?;
    Ok(())
}

fn put_number(bytes: &mut Vec<u8>, number: usize) -> Result<(), NameWriteFault>
    ensures adds { OnOk result (Adds bytes.old.items bytes.new.items 4) }
    ensures number { OnOk result (IsNumberAt bytes.new.items (length bytes.old.items) number) }
    ensures small { OnOk result (number < NUMBER_LIMIT) }
    ensures too_large { IfErr result (λ error. IfTooLarge error (NUMBER_LIMIT ≤ number)) }
    ensures error { NUMBER_LIMIT ≤ number → result ≡ Err TooLarge }
{
    if number >= NUMBER_LIMIT {
        return Err(NameWriteFault::TooLarge);
    }
    bytes.extend_from_slice(&(number as u32).to_le_bytes())?;
    Ok(())
}
