//! Stores with a limit: one of a user's own, which grows up to it and no further, and one whose limit is set when it is made,
//! so that it goes with the store when a fresh one replaces it. A list of calls goes on after those that fail.
use crate::Outcome;
use crate::printing::prints;
use example_store::Bounded;
use example_store::fixed_room::FixedRoom;
use litemap::LiteMap;
use litemap::store::NoRoom;
use litemap_read::laws::{Answer, Call, run_calls};
use std::alloc::{AllocError, Global};

const LIMIT: usize = 20;

type Few = LiteMap<u32, u32, Bounded<u32, u32, LIMIT>>;

// Whether a map that begins with this room, which is made or reserved, fails to reserve more than its limit leaves at each
// length, grows up to it, and returns what comes then.
fn grows(alloc: Global, made: usize, reserved: usize) -> Outcome {
    let mut map: Few = LiteMap::with_capacity(alloc, made)?;
    map.reserve(reserved)?;
    let mut is_right = true;
    for key in 0..20u32 {
        let left = LIMIT.saturating_sub(map.len());
        is_right &= map.reserve(left.saturating_add(1)).is_err()
            && map.reserve(usize::MAX).is_err();
        is_right &= map.insert(key, 0).is_ok();
    }
    is_right &= map.insert(30, 7) == Err(NoRoom { back: (30, 7) });
    is_right &= match map.entry(31).insert_entry(7) {
        Err(refused) => {
            let (entry, value) = refused.back;
            entry.into_key() == 31 && value == 7
        }
        Ok(_) => false,
    };
    Ok(is_right && map.len() == LIMIT)
}

pub(crate) fn a_bounded_store_grows_to_its_limit(alloc: Global) -> Outcome {
    let mut is_right = true;
    for room in [0, 1, 3, LIMIT] {
        is_right &= grows(alloc, room, 0)? && grows(alloc, 0, room)?;
    }
    is_right &= Few::with_capacity(alloc, LIMIT + 1).is_err();
    is_right &= Few::with_capacity(alloc, usize::MAX).is_err();
    Ok(is_right)
}

type Fixed = LiteMap<u32, u32, FixedRoom<u32, u32>>;

// Adds pairs of the keys from one up to another: by a map that is made with room for 1,000, or by themselves.
fn add(alloc: Global, map: &mut Fixed, merges: bool, keys: (u32, u32)) -> Result<(), AllocError> {
    let mut pairs = Vec::new(alloc);
    for key in keys.0..keys.1 {
        pairs.push((key, 0))?;
    }
    if merges {
        let mut other = Fixed::with_capacity(alloc, 1_000)?;
        other.extend(alloc, pairs)?;
        map.extend_from_litemap(alloc, other)?;
    } else {
        map.extend(alloc, pairs)?;
    }
    Ok(())
}

// Whether a map of two pairs takes so many further pairs and no more, made with room for 1,000, after those of these keys were
// added.
fn has_room_after(alloc: Global, merges: bool, keys: (u32, u32), room: usize) -> Outcome {
    let mut map = Fixed::with_capacity(alloc, 1_000)?;
    map.insert(0, 0)?;
    map.insert(9_999, 0)?;
    add(alloc, &mut map, merges, keys)?;
    Ok(map.reserve(room).is_ok() && map.reserve(room.saturating_add(1)).is_err())
}

pub(crate) fn a_limit_goes_with_the_store_that_is_replaced(alloc: Global) -> Outcome {
    let mut is_right = true;
    for &(merges, keys, room) in &[
        (true, (1, 2), 997),
        (true, (1, 501), 0),
        (false, (1, 2), 0),
        (false, (1, 501), 0),
        (false, (10_000, 10_001), 997),
        (false, (10_000, 10_500), 498),
    ] {
        is_right &= has_room_after(alloc, merges, keys, room)?;
    }
    Ok(is_right)
}

// Calls of which some fail, with room for two pairs, and what each returns.
fn calls_and_answers(
    alloc: Global,
) -> Result<(Vec<Call<u32, u32>>, Vec<Answer<u32, u32>>), AllocError> {
    let fourth = [(4, 22)].to_vec(alloc)?;
    let others = [(1, 11), (3, 30), (3, 31)].to_vec(alloc)?;
    let rows = [
        (Call::Insert(3, 20), Answer::Value(None)),
        (Call::Insert(1, 10), Answer::Value(None)),
        (Call::TryAppend(2, 9), Answer::Back(Some((2, 9)))),
        (Call::TryAppend(4, 9), Answer::NoRoom(Some((4, 9)))),
        (Call::Find(2), Answer::Place(Err(1))),
        (Call::ValueAt(0), Answer::Value(Some(10))),
        (Call::Extend(fourth), Answer::NoRoom(None)),
        (Call::Reserve(1), Answer::NoRoom(None)),
        (Call::TryInsert(2, 21), Answer::NoRoom(Some((2, 21)))),
        (Call::Remove(1), Answer::Value(Some(10))),
        (Call::Contains(1), Answer::Flag(false)),
        (Call::Get(3), Answer::Value(Some(20))),
        (Call::Clear, Answer::Done),
        (Call::Extend(others), Answer::Done),
        (Call::Len, Answer::Number(2)),
    ];
    let (mut calls, mut wanted) = (Vec::new(alloc), Vec::new(alloc));
    for (call, answer) in rows {
        calls.push(call)?;
        wanted.push(answer)?;
    }
    Ok((calls, wanted))
}

pub(crate) fn calls_are_answered_one_after_another(alloc: Global) -> Outcome {
    let (calls, wanted) = calls_and_answers(alloc)?;
    let mut map = Fixed::with_capacity(alloc, 2)?;
    let answers = run_calls(alloc, &mut map, calls)?;
    Ok(answers == wanted && prints(alloc, &map, "{1: 11, 3: 31}")?)
}
