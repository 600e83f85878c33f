//! A table of codes and names in CSV, read into a map.
use csv::{Error, Reader};
use litemap::VecMap;
use litemap_serde::SerdeMap;
use serde::DeserializeOwned;
use std::alloc::Global;

/// Names by their codes.
pub type Codes = VecMap<u32, String>;

/// A row as a map, from its columns' names to its fields.
pub type Row = SerdeMap<String, String, Vec<(String, String)>>;

/// The rows under a header of two columns. Of equal codes the last row counts.
pub fn from_csv(alloc: Global, text: &[u8]) -> Result<Codes, Error> {
    let rows = rows_from_csv(alloc, text)?;
    Codes::from_vec(alloc, rows).map_err(|_| Error::out_of_memory())
}

/// The rows under a header: pairs of their fields, or each a `Row`.
pub fn rows_from_csv<T: DeserializeOwned>(alloc: Global, text: &[u8]) -> Result<Vec<T>, Error> {
    let mut reader = Reader::from_reader(alloc, text);
    let mut rows = Vec::new(alloc);
    for row in reader.deserialize::<T>() {
        rows.push(row?).map_err(|_| Error::out_of_memory())?;
    }
    Ok(rows)
}
