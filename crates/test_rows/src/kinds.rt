//! A text that is read and written again.
ghost use Rattle.std.specs.Mem.{FitsInMemory};
ghost use Rattle.std.specs.contracts.alloc.Global as global;
ghost use Rattle.std.specs.contracts.impls.GlobalAllocator.TheImpl.{ghosts};
ghost use Rattle.litemap_short.specs.contracts.short_store.ShortStore.{the_row};

use crate::Output;
use litemap::store::StoreBulkMut;
use litemap_columns::ColumnStore;
use litemap_serde::SerdeMap;
use litemap_short::ShortStore;
use serde::{Deserialize, DeserializeOwned, Serialize};
use serde_json::error::Category;
use std::alloc::{AllocError, Global};

/// A value that a JSON text is read as, written again.
pub fn again<'t, T: Deserialize<'t> + Serialize>(alloc: Global, text: &'t str) -> Output {
    match unless_memory!(serde_json::from_str::<T>(alloc, text)) {
        Ok(value) => written(alloc, &value),
        Err(fault) => String::from_str(alloc, fault_word(&fault)),
    }
}

/// A value as JSON.
pub fn written<T: Serialize>(alloc: Global, value: &T) -> Output {
    Ok(or_word!(alloc, "not written", serde_json::to_string(alloc, value)))
}

/// What kind of error it is.
pub fn fault_word(fault: &serde_json::Error) -> &'static str {
    match fault.classify() {
        Category::Io => "io",
        Category::Syntax => "syntax",
        Category::Data => "data",
        Category::Eof => "eof",
        Category::Memory => "memory",
    }
}

/// The same of a map: over a vector, over two columns and over a short store. That such a store fits in memory is proved where
/// its types are known.
pub fn map_again<'t, K, V>(alloc: Global, text: &'t str) -> Output
where
    K: Deserialize<'t> + Serialize + Ord,
    V: Deserialize<'t> + Serialize,
    requires { FitsInMemory (the_row K.row V.row global.the_row ghosts) }
{
    let vector = again_over::<K, V, Vec<(K, V)>>(alloc, text)?;
    let columns = again_over::<K, V, ColumnStore<K, V>>(alloc, text)?;
    let short = again_over::<K, V, ShortStore<K, V>>(alloc, text)?;
    one_of(alloc, vector, columns, short)
}

// The same over one store.
fn again_over<'t, K, V, S>(alloc: Global, text: &'t str) -> Output
where
    K: Deserialize<'t> + Serialize + Ord,
    V: Deserialize<'t> + Serialize,
    S: StoreBulkMut<K, V, Alloc = Global>,
{
    again::<SerdeMap<K, V, S>>(alloc, text)
}

/// The output over each of three stores, or that they differ.
pub fn one_of(alloc: Global, vector: String, columns: String, short: String) -> Output {
    if columns == vector && short == vector {
        return Ok(vector);
    }
    format!(in alloc;
        "over a vector {vector}, over two columns {columns}, over a short store {short}"
    )
}

/// A map that a TOML text is read as, written again.
pub fn toml_again<K: DeserializeOwned + Serialize + Ord, V: DeserializeOwned + Serialize>(
    alloc: Global,
    text: &str,
) -> Output {
    let map: SerdeMap<K, V, Vec<(K, V)>> = or_word!(alloc, "refused", toml::from_str(alloc, text));
    let text = or_word!(alloc, "not written", toml::to_string(alloc, &map));
    written(alloc, &text)
}
