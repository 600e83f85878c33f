//! Calls that make a map, take many pairs at once, read, merge and part.
ghost use Rattle.std.specs.Prelude.{◌≡◌, length, ⊤};
ghost use Rattle.std.specs.Vec.Iter.{into_iter_items};

use crate::answer::{Answer, Pairs};
use crate::call::{Call, Made, Map, Pair};
use crate::changes::is_kept;
use crate::counted::{Key, Value};
use crate::tested::Tested;
use crate::{lists, sizes};
use litemap::LiteMap;
use litemap::store::{Count, NoRoom, StoreAlloc, StoreBulkMut, StoreMut};
use litemap_columns::ColumnStore;
use litemap_read::{PairSource, ReadFault, extend_from_source, read_pairs, read_results};
use std::alloc::{AllocError, Global};
use std::cell::Cell;
use std::vec::IntoIter;

/// Makes a call of these, if the name is one.
pub fn gather<S: Tested>(map: &mut Map<S>, call: &Call<'_>, to: &mut Answer) -> bool {
    renew(map, call, to).is_some()
        || insert_each(map, call, to).is_some()
        || extend(map, call, to).is_some()
        || extend_by_trait(map, call, to).is_some()
        || take_vec(map, call, to).is_some()
        || merge(map, call, to).is_some()
        || combine(map, call, to).is_some()
        || split(map, call, to).is_some()
        || extract(map, call, to).is_some()
        || go_beside(map, call, to).is_some()
        || read(map, call, to).is_some()
        || read_each(map, call, to).is_some()
        || lists::run(call, to).is_some()
        || sizes::find_by_slice(call, to).is_some()
}

// A map with no pair, a clone or a map of these pairs replaces the old one.
fn renew<S: Tested>(map: &mut Map<S>, call: &Call<'_>, to: &mut Answer) -> Made {
    let alloc = call.alloc;
    let made = match call.name {
        "new" => Ok(LiteMap::new(alloc)),
        "with_capacity" => LiteMap::with_capacity(alloc, call.size(0)?),
        "clone" => map.try_clone(alloc),
        "from_iter" | "collected" | "from_iter_counted" => gathered(call, call.given()?),
        _ => return None,
    };
    to.made(map, made);
    Some(())
}

fn gathered<S: Tested>(call: &Call<'_>, pairs: Vec<Pair>) -> Result<Map<S>, AllocError> {
    match call.name {
        "from_iter" => LiteMap::from_iter(call.alloc, pairs),
        "collected" => pairs.into_iter().collect(call.alloc),
        _ => LiteMap::from_iter_counted(call.alloc, pairs, &mut Count::new()),
    }
}

// Replaces a map by what was made, or returns why it wasn't.
fn replace<S: StoreBulkMut<Key, Value, Alloc = Global>, E>(
    map: &mut Map<S>,
    made: Result<Map<S>, E>,
) -> Result<(), E> {
    *map = made?;
    Ok(())
}

// A map is made of a vector, or extended by one, whose pairs come back if memory runs out.
fn take_vec<S: StoreBulkMut<Key, Value, Alloc = Global>>(
    map: &mut Map<S>,
    call: &Call<'_>,
    to: &mut Answer,
) -> Made {
    let taken = match call.name {
        "from_vec" | "from_vec_counted" | "extend_from_vec" | "extend_from_vec_counted" => put_vec(
            map,
            call,
            call.given()?,
        ),
        _ => return None,
    };
    match taken {
        Ok(()) => to.word("ok"),
        Err(refused) => to.word_and("refused", Pairs::of_slice(refused.back.as_slice())),
    }
    Some(())
}

fn put_vec<S: StoreBulkMut<Key, Value, Alloc = Global>>(
    map: &mut Map<S>,
    call: &Call<'_>,
    pairs: Vec<Pair>,
) -> Result<(), NoRoom<Vec<Pair>>> {
    let (alloc, count) = (call.alloc, &mut Count::new());
    match call.name {
        "from_vec" => replace(map, LiteMap::from_vec(alloc, pairs)),
        "from_vec_counted" => replace(map, LiteMap::from_vec_counted(alloc, pairs, count)),
        "extend_from_vec" => map.extend_from_vec(alloc, pairs),
        _ => map.extend_from_vec_counted(alloc, pairs, count),
    }
}

// `insert` of each of the pairs, until one has no room. It tells how many were new.
fn insert_each<S: StoreMut<Key, Value, Alloc = Global>>(
    map: &mut Map<S>,
    call: &Call<'_>,
    to: &mut Answer,
) -> Made {
    if call.name != "insert_each" {
        return None;
    }
    match insert_all(map, call.given()?) {
        Ok(fresh) => to.show(fresh),
        Err(refused) => to.no_room(refused),
    }
    Some(())
}

fn insert_all<S: StoreMut<Key, Value, Alloc = Global>>(
    map: &mut Map<S>,
    pairs: Vec<Pair>,
) -> Result<u64, NoRoom<Pair>> {
    let mut fresh = 0u64;
    for (key, value) in pairs {
        if map.insert(key, value)?.is_none() {
            fresh = fresh.wrapping_add(1);
        }
    }
    Ok(fresh)
}

// Whether the call is the one that also counts comparisons, if it has this name but for that.
fn is_counted(call: &Call<'_>, name: &str) -> Option<bool> {
    match call.name.strip_prefix(name)? {
        "" => Some(false),
        "_counted" => Some(true),
        _ => None,
    }
}

fn extend<S: StoreBulkMut<Key, Value, Alloc = Global>>(
    map: &mut Map<S>,
    call: &Call<'_>,
    to: &mut Answer,
) -> Made {
    let is_counted = is_counted(call, "extend")?;
    let pairs = call.given()?;
    to.room(if is_counted {
        map.extend_counted(call.alloc, pairs, &mut Count::new())
    } else {
        map.extend(call.alloc, pairs)
    });
    Some(())
}

// `extend` of the trait, which is given no allocator.
fn extend_by_trait<S: StoreBulkMut<Key, Value, Alloc = Global> + StoreAlloc<Key, Value>>(
    map: &mut Map<S>,
    call: &Call<'_>,
    to: &mut Answer,
) -> Made {
    if call.name != "extended" {
        return None;
    }
    to.room(Extend::extend(map, call.given()?));
    Some(())
}

/// A map of the given pairs, with the given room. The call begins after it is made.
pub fn other<S: StoreBulkMut<Key, Value, Alloc = Global>>(call: &Call<'_>) -> Option<Map<S>> {
    let mut map: Map<S> = LiteMap::from_vec(call.alloc, call.pairs(0)?).ok()?;
    map.reserve(call.room()).ok()?;
    call.begin();
    Some(map)
}

// The merges with a map of the pairs, or with a clone of the map.
fn merge<S: Tested>(map: &mut Map<S>, call: &Call<'_>, to: &mut Answer) -> Made {
    let is_counted = match call.name {
        "extend_from_clone" => false,
        _ => is_counted(call, "extend_from_litemap")?,
    };
    let other = if call.name == "extend_from_clone" {
        clone(map, call)
    } else {
        other(call)
    }?;
    let merged = if is_counted {
        map.extend_from_litemap_counted(call.alloc, other, &mut Count::new())
    } else {
        map.extend_from_litemap(call.alloc, other)
    };
    show_merged(merged, to);
    Some(())
}

// A clone of the map. The call begins after it is made.
fn clone<S: StoreBulkMut<Key, Value, Alloc = Global>>(
    map: &Map<S>,
    call: &Call<'_>,
) -> Option<Map<S>> {
    call.end();
    let clone = map.try_clone(call.alloc).ok()?;
    call.begin();
    Some(clone)
}

fn show_merged<'a, S: StoreBulkMut<Key, Value, Alloc = Global>>(
    merged: Result<Option<Map<S>>, NoRoom<Map<S>>>,
    to: &mut Answer,
) {
    match merged {
        Ok(None) => to.word("none"),
        Ok(Some(left)) => to.word_and("left", Pairs::of_map(&left)),
        Err(refused) => to.word_and("refused", Pairs::of_map(&refused.back)),
    }
}

// The merges with a closure, which adds to each value that is here already three times the one here, what its key's code leaves
// by seven, and a thousand for each time that it was called before. The last word tells how often it was called.
fn combine<S: Tested>(map: &mut Map<S>, call: &Call<'_>, to: &mut Answer) -> Made {
    let is_counted = is_counted(call, "extend_with")?;
    let other: Map<S> = other(call)?;
    let times = Cell::new(0u64);
    let add = |key: &Key, here: &Value, new: &mut Value| {
        let before = times.get();
        times.set(before.wrapping_add(1));
        let more = here.number().wrapping_mul(3).wrapping_add(key.code() % 7);
        let more = more.wrapping_add(before.wrapping_mul(1000));
        new.write(new.number().wrapping_add(more));
    };
    let merged = if is_counted {
        map.extend_with_counted(call.alloc, other, add, &mut Count::new())
    } else {
        map.extend_with(call.alloc, other, add)
    };
    show_merged(merged, to);
    to.word_and("asked", times.get());
    Some(())
}

fn split<S: StoreBulkMut<Key, Value, Alloc = Global>>(
    map: &mut Map<S>,
    call: &Call<'_>,
    to: &mut Answer,
) -> Made {
    if call.name != "split_off" {
        return None;
    }
    let later = map.split_off(call.alloc, &call.key(0)?);
    to.pairs(later.map(|later| Pairs::of_map(&later)));
    Some(())
}

// The pairs whose bit is set in the number, which is turned by one bit after each, become another map.
fn extract<S: Tested>(map: &mut Map<S>, call: &Call<'_>, to: &mut Answer) -> Made {
    if call.name != "extract" {
        return None;
    }
    let (number, mut times) = (call.number(0)?, 0u64);
    let gone = map.extract(call.alloc, |_, _| is_kept(number, &mut times));
    to.pairs(gone.map(|gone| Pairs::of_map(&gone)));
    Some(())
}

// The calls that go through another map, over two columns, beside this one.
fn go_beside<S: StoreBulkMut<Key, Value, Alloc = Global>>(
    map: &mut Map<S>,
    call: &Call<'_>,
    to: &mut Answer,
) -> Made {
    if !call.name.ends_with("_keys_of") && !call.name.starts_with("is_subset") {
        return None;
    }
    let other = other::<ColumnStore<_, _>>(call)?;
    match call.name {
        "is_subset" => to.show(map.is_subset(&other)),
        "is_subset_counted" => to.show(map.is_subset_counted(&other, &mut Count::new())),
        "keep_keys_of" => to.done(map.keep_keys_of(&other)),
        "remove_keys_of" => to.done(map.remove_keys_of(&other)),
        _ => return None,
    }
    Some(())
}

// What a source gives replaces the map, or is put into it. The first word is how many pairs the source promises, or `-`; the
// second one is after how many pairs it has an error, or `-`.
fn read<S: StoreBulkMut<Key, Value, Alloc = Global>>(
    map: &mut Map<S>,
    call: &Call<'_>,
    to: &mut Answer,
) -> Made {
    if call.name != "read_pairs" && call.name != "extend_from_source" {
        return None;
    }
    let pairs = call.pairs(2)?;
    let mut source = Script {
        rest: pairs.into_iter(),
        hint: call.size(0),
        error: call.size(1),
        asked: 0,
    };
    call.begin();
    let read = if call.name == "read_pairs" {
        replace(map, read_pairs(call.alloc, &mut source))
    } else {
        extend_from_source(call.alloc, map, &mut source)
    };
    show_fault(read.err(), to);
    to.word_and("asked", source.asked);
    Some(())
}

// What an iterator of results gives replaces the map. The first word is the index of the error, or `-`.
fn read_each<S: StoreBulkMut<Key, Value, Alloc = Global>>(
    map: &mut Map<S>,
    call: &Call<'_>,
    to: &mut Answer,
) -> Made {
    if call.name != "read_results" {
        return None;
    }
    let (error, pairs) = (call.size(0), call.pairs(1)?);
    call.begin();
    let results = pairs.into_iter().enumerate().map(|(index, pair)| {
        if error == Some(index) {
            Err(index)
        } else {
            Ok(pair)
        }
    });
    show_fault(replace(map, read_results(call.alloc, results)).err(), to);
    Some(())
}

fn show_fault(fault: Option<ReadFault<usize>>, to: &mut Answer) {
    match fault {
        None => to.word("ok"),
        Some(ReadFault::NoRoom) => to.word("refused"),
        Some(ReadFault::Source(fault)) => to.word_and("error", fault),
    }
}

// The pairs of a vector, in their order, with a hint that may be wrong and an error, if they are wanted.
#[derive(Drop)]
struct Script {
    rest: IntoIter<Pair>,
    hint: Option<usize>,
    // After how many pairs it has an error.
    error: Option<usize>,
    // How often it was called.
    asked: usize,
}

impl PairSource<Key, Value> for Script {
    type Fault = usize;

    ghost gives = { λ s pairs. pairs ≡ into_iter_items s.rest };

    ghost left = { λ s. length (into_iter_items s.rest) };

    ghost allows = { λ _ _. ⊤ };

    ghost ends = { λ _. ⊤ };

    ghost leads = { λ _ _. ⊤ };

    fn hint(&self) -> Option<usize> {
        self.hint
    }

    fn next_pair(&mut self) -> Result<Option<(Key, Value)>, usize> {
        self.asked = self.asked.wrapping_add(1);
        match self.error {
            Some(0) => return Err(self.asked),
            Some(pairs) => self.error = Some(pairs - 1),
            None => {}
        }
        Ok(self.rest.next())
    }

    ghost leads_itself = { λ _. tt };

    ghost leads_on = { λ _ _ _ _ _. tt };
}
