//! The parts of a table, read one by one.
pub use crate::cursor::Cursor;
pub use crate::number::NUMBER_LIMIT;
