//! Calls of a map as values, and what they return.

use std::alloc::{Allocator, Global};

/// A call of a map, with its arguments.
#[derive(Drop)]
#[derive_where(Debug, PartialEq; K, V)]
pub enum Call<K, V, A: Allocator = Global> {
    /// Looks up the value of a key.
    Get(K),
    /// Looks up the value at an index.
    ValueAt(usize),
    /// Looks whether a key is there.
    Contains(K),
    /// Looks up the index of a key.
    Find(K),
    /// Counts the pairs.
    Len,
    /// Inserts a value at a key, in place of an old one.
    Insert(K, V),
    /// Inserts a pair if its key is absent.
    TryInsert(K, V),
    /// Appends a pair if its key is above all others.
    TryAppend(K, V),
    /// Removes a key.
    Remove(K),
    /// Extends the map by pairs, of which the last of each key stays.
    Extend(Vec<(K, V), A>),
    /// Reserves spare capacity for at least this many pairs.
    Reserve(usize),
    /// Drops all pairs.
    Clear,
}

/// What a call of a map returns.
#[derive(Debug, PartialEq, Drop)]
pub enum Answer<K, V> {
    /// The value that is there, or that was there, if there is one.
    Value(Option<V>),
    /// Whether the key is there.
    Flag(bool),
    /// `Ok` of the key's index, or `Err` of the index where it would go.
    Place(Result<usize, usize>),
    /// The number of pairs.
    Number(usize),
    /// `None` if the pair was inserted, and else the pair.
    Back(Option<(K, V)>),
    /// Memory ran out, or the store is full. The list is as it was, and the pair that was to be inserted is returned, if there
    /// was one.
    NoRoom(Option<(K, V)>),
    /// The call is done.
    Done,
}
