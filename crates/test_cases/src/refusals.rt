//! Memory that is refused. Each call that takes memory is made over heaps of all sizes up to one that is enough: it does there
//! what it does over `Global`, or it fails, and then the map has its pairs. In the end nothing is left in the heap.
use crate::Outcome;
use linked_list_allocator::LocalHeap;
use litemap::{LiteMap, VecMap};
use litemap_columns::ColumnMap;
use litemap_read::laws::{Answer, Call, run_calls};
use litemap_read::{VecSource, extend_from_source, read_pairs, read_results};
use litemap_set::VecSet;
use std::alloc::{AllocError, Allocator, Global};

type Map<A> = VecMap<u64, u64, A>;

// The map that a call makes or displaces, if it does.
type Made<A> = Result<Option<Map<A>>, AllocError>;

// The calls of one kind have numbers.
#[derive(Clone, Copy)]
enum Kind {
    Keyed,
    Entry,
    Bulk,
    Merge,
    Part,
    Copy,
    Converted,
    Set,
    Read,
}

// How many calls there are of each kind.
const CALLS: [(Kind, u8); 9] = [
    (Kind::Keyed, 7),
    (Kind::Entry, 8),
    (Kind::Bulk, 8),
    (Kind::Merge, 5),
    (Kind::Part, 3),
    (Kind::Copy, 4),
    (Kind::Converted, 6),
    (Kind::Set, 4),
    (Kind::Read, 4),
];

// How many pairs there are before the call.
const LENGTHS: [u64; 3] = [0, 3, 20];

// How the sizes of the heaps differ, and how many there are at most.
const STEP: usize = 16;

const SIZES: usize = 512;

// So many even numbers from 0 on, with their halves, and no spare capacity.
fn halves<A: Allocator + Copy>(alloc: A, len: u64) -> Result<Map<A>, AllocError> {
    let mut map = LiteMap::with_capacity(alloc, len as usize)?;
    for half in 0..len {
        map.try_append(half.wrapping_mul(2), half)?;
    }
    Ok(map)
}

// So many odd numbers, falling or rising, with a value of each.
fn odd<A: Allocator + Copy>(
    alloc: A,
    len: u64,
    falls: bool,
) -> Result<Vec<(u64, u64), A>, AllocError> {
    let mut pairs = Vec::new(alloc);
    for number in 0..len {
        let number = if falls {
            len.wrapping_sub(number)
        } else {
            number
        };
        pairs.push((number.wrapping_mul(2).wrapping_add(1), 7))?;
    }
    Ok(pairs)
}

fn make<A: Allocator + Copy>(kind: Kind, number: u8, alloc: A, map: &mut Map<A>) -> Made<A> {
    match kind {
        Kind::Keyed => keyed(number, map),
        Kind::Entry => entry(number, alloc, map),
        Kind::Bulk => bulk(number, alloc, map),
        Kind::Merge => merge(number, alloc, map),
        Kind::Part => part(number, alloc, map),
        Kind::Copy => copy(number, alloc, map),
        Kind::Converted => converted(number, alloc, map),
        Kind::Set => set(number, alloc, map),
        Kind::Read => read(number, alloc, map),
    }
}

fn keyed<A: Allocator + Copy>(number: u8, map: &mut Map<A>) -> Made<A> {
    match number {
        0 => drop(map.insert(5, 7)?),
        1 => drop(map.try_insert(5, 7)?),
        2 => drop(map.try_append(1_001, 7)?),
        3 => drop(map.try_get_or_insert(5, |_| Ok::<u64, AllocError>(7))?),
        4 => drop(map.try_find_or_insert(5, |_| Ok::<u64, AllocError>(7))?),
        5 => {
            if let Err(index) = map.find_index(&5) {
                map.insert_indexed(index, 5, 7)?;
            }
        }
        _ => map.reserve(1)?,
    }
    Ok(None)
}

fn entry<A: Allocator + Copy>(number: u8, alloc: A, map: &mut Map<A>) -> Made<A> {
    match number {
        0 => drop(map.entry(5).or_insert(7)?),
        1 => drop(map.entry(5).or_default()?),
        2 => drop(map.entry(5).or_insert_with(|| 7)?),
        3 => drop(map.entry(5).or_insert_with_key(|key| *key)?),
        4 => drop(
            map.entry(5)
                .or_try_insert_with(|| Ok::<u64, AllocError>(7))?,
        ),
        5 => {
            if map.entry(5).insert_entry(7).is_err() {
                return Err(AllocError);
            }
        }
        6 => drop(map.entry_by(&5, || Ok::<u64, AllocError>(5))?.or_insert(7)?),
        _ => {
            let mut lists: VecMap<u64, Vec<u64, A>, A> = LiteMap::new(alloc);
            lists.entry(5).or_made_with(alloc)?.push(7)?;
        }
    }
    Ok(None)
}

fn bulk<A: Allocator + Copy>(number: u8, alloc: A, map: &mut Map<A>) -> Made<A> {
    match number {
        0 => map.extend(alloc, [(1_001, 7), (1_003, 7)])?,
        1 => map.extend(alloc, odd(alloc, 30, true)?)?,
        2 => map.extend_from_vec(alloc, odd(alloc, 3, false)?)?,
        3 => map.extend_from_vec(alloc, odd(alloc, 30, true)?)?,
        4 => return Ok(Some(LiteMap::from_iter(alloc, odd(alloc, 30, true)?)?)),
        5 => return Ok(Some(LiteMap::from_vec(alloc, odd(alloc, 30, true)?)?)),
        6 => Extend::extend(map, [(1_001, 7), (1_003, 7)])?,
        _ => return Ok(Some([(3, 7), (1, 7), (3, 8)].into_iter().collect(alloc)?)),
    }
    Ok(None)
}

fn merge<A: Allocator + Copy>(number: u8, alloc: A, map: &mut Map<A>) -> Made<A> {
    match number {
        0 => map.extend_from_litemap(alloc, LiteMap::from_array(alloc, [(2, 7), (5, 7)])?),
        1 => map.extend_from_litemap(alloc, LiteMap::from_vec(alloc, odd(alloc, 30, false)?)?),
        2 => map.extend_from_litemap(alloc, LiteMap::from_array(alloc, [(1_001, 7)])?),
        3 => {
            let mut more = LiteMap::from_array(alloc, [(2, 7), (5, 7)])?;
            map.append(alloc, &mut more)?;
            return Ok(Some(more));
        }
        _ => {
            let more = LiteMap::from_array(alloc, [(2, 7), (5, 7)])?;
            map.extend_with(alloc, more, |_, here, new| *new = new.wrapping_add(*here))
        }
    }
    .map_err(|_| AllocError)
}

fn part<A: Allocator + Copy>(number: u8, alloc: A, map: &mut Map<A>) -> Made<A> {
    let made = match number {
        0 => map.split_off(alloc, &2)?,
        1 => map.extract(alloc, |key, _| *key % 4 == 0)?,
        _ => {
            let len = map.len();
            LiteMap::from_vec(alloc, map.take_range(alloc, len / 2..len)?)?
        }
    };
    Ok(Some(made))
}

fn copy<A: Allocator + Copy>(number: u8, alloc: A, map: &Map<A>) -> Made<A> {
    let made = match number {
        0 => map.clone()?,
        1 => map.try_clone(alloc)?,
        2 => map.to_keys_by(alloc, |key| *key)?,
        _ => {
            let columns: ColumnMap<u64, u64, A> = map
                .iter()
                .map(|(key, value)| (*key, *value))
                .collect(alloc)?;
            columns.into_iter().collect(alloc)?
        }
    };
    Ok(Some(made))
}

// Keys and values in boxes, or borrowed.
fn converted<A: Allocator + Copy>(number: u8, alloc: A, map: &Map<A>) -> Made<A> {
    match number {
        0 => {
            let _: VecMap<Box<u64, A>, u64, A> = map.to_boxed_keys(alloc)?;
        }
        1 => {
            let _: VecMap<u64, Box<u64, A>, A> = map.to_boxed_values(alloc)?;
        }
        2 => {
            let _: VecMap<Box<u64, A>, Box<u64, A>, A> = map.to_boxed_keys_values(alloc)?;
        }
        3 => {
            let _: VecMap<&u64, u64, A> = map.to_borrowed_keys(alloc)?;
        }
        4 => {
            let _: VecMap<u64, &u64, A> = map.to_borrowed_values(alloc)?;
        }
        _ => {
            let _: VecMap<&u64, &u64, A> = map.to_borrowed_keys_values(alloc)?;
        }
    }
    Ok(None)
}

fn set<A: Allocator + Copy>(number: u8, alloc: A, map: &Map<A>) -> Made<A> {
    let mut keys: VecSet<u64, A> = map.keys().copied().collect(alloc)?;
    match number {
        0 => drop(keys.insert(5)?),
        1 => keys.extend(alloc, [5, 3, 5])?,
        2 => drop(keys.clone()?),
        _ => keys.append(alloc, &mut keys.clone()?)?,
    }
    Ok(Some(keys.into_iter().map(|key| (key, 0)).collect(alloc)?))
}

fn read<A: Allocator + Copy>(number: u8, alloc: A, map: &mut Map<A>) -> Made<A> {
    let pairs = odd(alloc, 9, number % 2 == 0)?;
    let made = match number {
        0 => read_pairs(alloc, &mut VecSource::new(pairs)),
        1 => read_results(alloc, pairs.into_iter().map(Ok)),
        2 => extend_from_source(alloc, map, &mut VecSource::new(pairs)).map(|()| LiteMap::new(
            alloc,
        )),
        _ => {
            let mut calls = Vec::new(alloc);
            calls.push(Call::Extend(pairs))?;
            let answers = run_calls(alloc, map, calls)?;
            return match answers.last() {
                Some(Answer::Done) => Ok(None),
                _ => Err(AllocError),
            };
        }
    };
    match made {
        Ok(made) => Ok(Some(made)),
        Err(_) => Err(AllocError),
    }
}

// What a call over `Global` leaves and makes.
#[derive(Drop)]
struct Wanted {
    before: Map<Global>,
    after: Map<Global>,
    made: Option<Map<Global>>,
}

// How a call over a heap came out: there was no memory for the map itself, or none for the call, and the map has its pairs; or it
// did what it does over `Global`, or something else.
#[derive(Clone, Copy, PartialEq, Eq)]
enum Came {
    TooSmall,
    Refused,
    Right,
    Wrong,
}

fn how_it_came(heap: &LocalHeap, kind: Kind, number: u8, wanted: &Wanted) -> Came {
    let Ok(mut map) = halves(heap, wanted.before.len() as u64) else {
        return Came::TooSmall;
    };
    let (is_right, came) = match make(kind, number, heap, &mut map) {
        Ok(made) => (is_alike(&made, &wanted.made), Came::Right),
        Err(_) => (true, Came::Refused),
    };
    let left = match came {
        Came::Right => &wanted.after,
        _ => &wanted.before,
    };
    if is_right && map.as_slice() == left.as_slice() {
        came
    } else {
        Came::Wrong
    }
}

fn is_alike<A: Allocator + Copy>(made: &Option<Map<A>>, wanted: &Option<Map<Global>>) -> bool {
    match (made, wanted) {
        (Some(made), Some(wanted)) => made.as_slice() == wanted.as_slice(),
        (made, wanted) => made.is_none() && wanted.is_none(),
    }
}

// Whether a call is right over heaps of all sizes up to the first one that is enough, was refused over some of them if there are
// pairs, and leaves nothing in them.
fn is_swept(alloc: Global, kind: Kind, number: u8, len: u64) -> Outcome {
    let before = halves(alloc, len)?;
    let mut after = before.clone()?;
    let made = make(kind, number, alloc, &mut after)?;
    let wanted = Wanted {
        before,
        after,
        made,
    };
    let mut refused = len == 0;
    for size in 0..SIZES {
        let heap = LocalHeap::new(alloc, size.saturating_mul(STEP))?;
        let came = how_it_came(&heap, kind, number, &wanted);
        if came == Came::Wrong || heap.used() != 0 {
            return Ok(false);
        }
        if came == Came::Right {
            return Ok(refused);
        }
        refused |= came == Came::Refused;
    }
    Ok(false)
}

pub(crate) fn each_call_is_refused_over_some_heap(alloc: Global) -> Outcome {
    let mut is_right = true;
    for (kind, calls) in CALLS {
        for number in 0..calls {
            for len in LENGTHS {
                is_right &= is_swept(alloc, kind, number, len)?;
            }
        }
    }
    Ok(is_right)
}
