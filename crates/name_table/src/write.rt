//! Name tables written from maps.
ghost use Rattle.std.specs.Prelude.{◌≡◌, ℕ, Err, IfErr, IfOk, List, OnOk, ◌∷◌, [], ◌≤◌, length, map};
ghost use Rattle.name_table.specs.declared.error.NameWriteFault.TheVariants.{TooLarge};
ghost use Rattle.name_table.specs.{Appends, AppendsNumber, AreParts, IfTooLarge, IsReadAgain, IsShortest, NoTable, Number};
ghost use Rattle.name_table.specs.{pair_parts, shown, table_parts, text_parts};

use crate::error::NameWriteFault;
use crate::number::{BASE, NUMBER_LIMIT};
use crate::read::NameMap;
use std::alloc::{AllocError, Global};

/// Writes a map as a name table, and returns the fewest bytes that spell it. `read_names` reads the same map from them, and all
/// of them. The Rust crate writes by `postcard`'s `to_stdvec` here.
///
/// ```rust
/// let mut languages: NameMap = LiteMap::new_vec(alloc);
/// languages.insert("de", "German")?;
/// let bytes = write_names(alloc, &languages)?;
/// Ok(bytes.as_slice() == b"\x01\x02de\x06German".as_slice())
/// ```
pub fn write_names(alloc: Global, names: &NameMap<'_>) -> Result<Vec<u8>, NameWriteFault>
    ensures table { IfOk result (λ bytes. IsShortest bytes.items (table_parts (map shown names.now.entries))) }
    ensures read_again { IfOk result (λ bytes. IsReadAgain bytes.items names.now.entries) }
    ensures too_large { IfErr result (λ error. IfTooLarge error
        ((bytes : List ℕ) → AreParts bytes (table_parts (map shown names.now.entries)) → ⊥)) }
{
    let pairs = names.as_slice();
    let mut bytes = Vec::new(alloc);
    put_length(&mut bytes, pairs.len())?;
    for pair in pairs {
        put_pair(&mut bytes, pair)?;
    }
    Ok(bytes)
}

// Appends a key and its value, each after its length. `TooLarge` comes only of a string that is too long.
fn put_pair(bytes: &mut Vec<u8>, pair: &(&str, &str)) -> Result<(), NameWriteFault>
    ensures ok { OnOk result (Appends bytes.old.items bytes.new.items (pair_parts (shown pair.now ∷ []))) }
    ensures too_large { IfErr result (λ error. IfTooLarge error (NoTable (shown pair.now ∷ []))) }
{
    put_string(bytes, pair.0)?;
    put_string(bytes, pair.1)?;
    Ok(())
}

fn put_string(bytes: &mut Vec<u8>, text: &str) -> Result<(), NameWriteFault>
    ensures ok { OnOk result (Appends bytes.old.items bytes.new.items (text_parts text.now)) }
    ensures too_large { IfErr result (λ error. IfTooLarge error (NUMBER_LIMIT ≤ length text.now)) }
{
    put_length(bytes, text.len())?;
    bytes.extend_from_slice(text.as_bytes())?;
    Ok(())
}

fn put_length(bytes: &mut Vec<u8>, size: usize) -> Result<(), NameWriteFault>
    ensures ok { OnOk result (Appends bytes.old.items bytes.new.items (Number size ∷ [])) }
    ensures too_large { IfErr result (λ error. IfTooLarge error (NUMBER_LIMIT ≤ size)) }
    ensures error { NUMBER_LIMIT ≤ size → result ≡ Err TooLarge }
{
    if size >= NUMBER_LIMIT {
        return Err(NameWriteFault::TooLarge);
    }
    put_number(bytes, size)?;
    Ok(())
}

// Appends a number as unsigned LEB128: seven bits in each byte, the lowest first, and the high bit set in all but the last.
fn put_number(bytes: &mut Vec<u8>, number: usize) -> Result<(), AllocError>
    ensures { OnOk result (AppendsNumber bytes.old.items bytes.new.items number) }
{
    if number < BASE {
        bytes.push(number as u8)?;
        return Ok(());
    }
    bytes.push((number % BASE + BASE) as u8)?;
    put_number(bytes, number / BASE)
}
