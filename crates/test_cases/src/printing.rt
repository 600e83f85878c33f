//! What `{:?}` prints of maps over slices and of what goes over maps, and what is written of an error.
use crate::{Outcome, all_right};
use litemap::store::NoRoom;
use litemap::{LiteMap, TryFault, VecMap};
use litemap_columns::ColumnMap;
use litemap_json::{ItemFault, JsonFault, TextFault, WriteFault};
use litemap_read::ReadFault;
use std::alloc::{AllocError, Global};
use std::error::Error;
use std::fmt::Debug;
use std::{fmt, io};

const PAIRS: [(u32, char); 2] = [(1, 'a'), (2, 'b')];

// What errors write if memory runs out.
const NO_MEMORY: &str = "there is not enough memory";

// What `{:#?}` prints of an iterator over a pair.
const LINES: &str = "SliceIter {
    rest: [
        (
            1,
            'a',
        ),
    ],
}";

/// Whether `{:?}` prints this text.
pub(crate) fn prints<T: Debug>(alloc: Global, value: &T, text: &str) -> Outcome {
    let found = format!(in alloc; "{value:?}")?;
    Ok(found.as_str() == text)
}

// Whether `{:#?}` prints this text.
fn prints_lines<T: Debug>(alloc: Global, value: &T, text: &str) -> Outcome {
    let found = format!(in alloc; "{value:#?}")?;
    Ok(found.as_str() == text)
}

// A map over a slice prints its pairs, an iterator of values over two columns what is left, and one over pairs the same in lines.
pub(crate) fn what_is_printed(alloc: Global) -> Outcome {
    let pairs: VecMap<u32, char> = LiteMap::from_iter(alloc, PAIRS)?;
    let mut first = pairs.iter();
    let _second = first.next_back();
    all_right(&[
        prints(alloc, &pairs.as_sliced(), "{1: 'a', 2: 'b'}"),
        values_of_columns_print(alloc),
        prints_lines(alloc, &first, LINES),
    ])
}

fn values_of_columns_print(alloc: Global) -> Outcome {
    let columns: ColumnMap<u32, char> = LiteMap::from_iter(alloc, PAIRS)?;
    let values =
        "ValuesIterWrap { iter: ColumnIter { keys: [1, 2], values: ['a', 'b'] }, marker: PhantomData<_> }";
    prints(alloc, &columns.values(), values)
}

// Walks over many pairs print all of them, as std prints a slice.
pub(crate) fn what_long_walks_print(alloc: Global) -> Outcome {
    let mut pairs: VecMap<u32, char> = LiteMap::new_vec(alloc);
    for key in 0..129u32 {
        pairs.insert(key, 'a')?;
    }
    let all = pairs.as_slice();
    all_right(&[
        prints_walk(alloc, &pairs.keys(), "KeysIterWrap", all),
        prints_walk(alloc, &pairs.values(), "ValuesIterWrap", all),
        a_long_walk_over_columns_prints(alloc),
    ])
}

// Whether `{:?}` of an iterator prints the name of its type and these pairs.
fn prints_walk<T: Debug>(alloc: Global, walk: &T, name: &str, all: &[(u32, char)]) -> Outcome {
    let rest = format!(in alloc; "iter: SliceIter {{ rest: {all:?} }}, marker: PhantomData<_>")?;
    let text = format!(in alloc; "{name} {{ {rest} }}")?;
    prints(alloc, walk, text.as_str())
}

// A long walk over two columns prints all of its pairs too.
fn a_long_walk_over_columns_prints(alloc: Global) -> Outcome {
    let mut keys = Vec::new(alloc);
    let mut columns: ColumnMap<u32, char> = LiteMap::new(alloc);
    for key in 0..129u32 {
        keys.push(key)?;
        columns.insert(key, 'a')?;
    }
    let values = vec![in alloc; 'a'; 129]?;
    let walk = format!(in alloc; "ColumnIter {{ keys: {keys:?}, values: {values:?} }}")?;
    prints(alloc, &columns.iter(), walk.as_str())
}

// Whether an error writes this text.
fn writes<E: Error>(alloc: Global, error: E, text: &str) -> Outcome {
    let found = format!(in alloc; "{error}")?;
    Ok(found.as_str() == text)
}

// Whether each of these errors writes that memory ran out, and then what it writes as std's error.
macro_rules! write_no_memory {
    ($alloc:ident, $of_std:expr; $($error:expr),+ $(,)?) => {
        [$(
            writes($alloc, $error, NO_MEMORY),
            writes($alloc, io::Error::from($error), $of_std),
        )+]
    };
}

// The errors of maps and of JSON write alike that memory ran out. One of a source or a closure is written as it is.
pub(crate) fn an_error_writes_what_it_is(alloc: Global) -> Outcome {
    let own = format!(in alloc; "{}", fmt::Error)?;
    let of_std = format!(in alloc; "{}", io::Error::from(AllocError))?;
    let own = own.as_str();
    let of_source = io::Error::from(ReadFault::Source(fmt::Error));
    let of_memory = write_no_memory! { alloc, of_std.as_str();
        NoRoom { back: 7 },
        ReadFault::<fmt::Error>::NoRoom,
        TryFault::<u8, u8, AllocError>::NoRoom { key: 1, value: 2 },
        WriteFault::Memory,
        JsonFault::Memory,
        TextFault::Memory,
    };
    all_right(&[
        all_right(&of_memory),
        writes(alloc, ItemFault::Memory, NO_MEMORY),
        writes(alloc, of_source, "the source of pairs returned an error"),
        writes(alloc, ReadFault::Source(fmt::Error), own),
        writes(alloc, TryFault::<u8, u8, _>::Closure(fmt::Error), own),
    ])
}
