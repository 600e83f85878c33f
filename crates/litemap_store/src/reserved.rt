//! Capacity that is taken first, pairs that go into a store which has it, and pairs that leave a store from its end.
ghost use Rattle.std.specs.Prelude.{◌≡◌, ◌↔◌, ◌+◌, ◌-◌, ◌<◌, ◌≤◌, List, ◌++◌, ◌∷◌, [], drop, insert, length, remove, reverse};
ghost use Rattle.std.specs.Prelude.{slice_index_or, slice_range, take, vec_capacity, vec_len, IfOk, IfSome, IsNone};

use crate::growth::{Refused, with_capacity};
use crate::store::{Store, StoreMut};
use std::alloc::Allocator;
use std::mem;
use std::ops::Range;

// The most bytes that move at once.
const PART_BYTES: usize = 2048;

/// Returns a vector and a store, both empty, each with room for `len` pairs.
pub(crate) fn room_for<K: Drop, V: Drop, S: StoreMut<K, V>>(
    alloc: S::Alloc,
    len: usize,
) -> Result<(Vec<(K, V), S::Alloc>, S), Refused>
    ensures side { IfOk result (λ made. made.0.items ≡ []) }
    ensures side_room { IfOk result (λ made. len ≤ vec_capacity made.0) }
    ensures store { IfOk result (λ made. S.pairs made.1 ≡ []) }
    ensures store_room { IfOk result (λ made. len ≤ S.room made.1) }
{
    let side = with_capacity(alloc, len)?;
    let store = with_capacity(alloc, len)?;
    Ok((side, store))
}

pub(crate) fn push_reserved<K: Drop, V: Drop, S: StoreMut<K, V>>(store: &mut S, key: K, value: V)
    requires { 0 < S.room store.old }
    ensures pairs { S.pairs store.new ≡ S.pairs store.old ++ (key, value) ∷ [] }
    ensures room { S.room store.old ≤ S.room store.new + 1 }
{
    store.lm_push(key, value).unwrap();
}

/// Puts an item at an index, in a vector that has room, by one move of the later ones (own).
pub fn insert_reserved<T, A: Allocator>(items: &mut Vec<T, A>, index: usize, item: T)
    requires index { index ≤ vec_len items.old }
    requires room { vec_len items.old < vec_capacity items.old }
    ensures items { items.new.items ≡ insert items.old.items index item }
    ensures len { vec_len items.new ≡ vec_len items.old + 1 }
    ensures capacity { vec_capacity items.new ≡ vec_capacity items.old }
{
    items.push_reserved(item);
    items[index..].rotate_right(1);
}

/// Removes the item at an index, and moves the later ones down by one (own).
pub fn remove_at<T, A: Allocator>(items: &mut Vec<T, A>, index: usize) -> T
    requires { index < vec_len items.old }
    ensures value { result ≡ slice_index_or items.old.items index result }
    ensures items { items.new.items ≡ remove items.old.items index }
    ensures len { vec_len items.new + 1 ≡ vec_len items.old }
    ensures capacity { vec_capacity items.new ≡ vec_capacity items.old }
{
    move_to_end(items, index);
    items.take_last()
}

// Moves an item to the end, and the later ones down by one: in parts, each of which is compiled to one move of memory.
#[inline(never)]
fn move_to_end<T>(items: &mut [T], index: usize)
    requires { index < length items.old }
    ensures moved { (rest : List T) (item : T) → items.old ≡ insert rest index item → items.new ≡ insert rest (length rest) item }
    ensures len { length items.new ≡ length items.old }
{
    let part = (PART_BYTES / mem::size_of_val(&items[..1]).max(1)).max(1);
    let last = items.len() - 1;
    let mut at = index;
    while last - at > part {
        move_up(items, at, at + part);
        at += part;
    }
    move_up(items, at, last);
}

// Moves an item to a later index, and those between down by one.
fn move_up<T>(items: &mut [T], from: usize, to: usize)
    requires order { from ≤ to }
    requires within { to < length items.old }
    ensures moved { (rest : List T) (item : T) → items.old ≡ insert rest from item → items.new ≡ insert rest to item }
    ensures len { length items.new ≡ length items.old }
{
    items[from..=to].rotate_right(to - from);
}

/// Appends pairs, in reverse order.
pub(crate) fn put_up<K: Drop, V: Drop, S: StoreMut<K, V>, A: Allocator>(
    store: &mut S,
    mut pairs: Vec<(K, V), A>,
)
    requires { length pairs.items ≤ S.room store.old }
    ensures { S.pairs store.new ≡ S.pairs store.old ++ reverse pairs.items }
{
    while let Some((key, value)) = pairs.pop() {
        push_reserved(store, key, value);
    }
}

pub(crate) fn take_last<K, V, S: StoreMut<K, V>>(store: &mut S) -> (K, V)
    requires { 0 < length (S.pairs store.old) }
    ensures pairs { S.pairs store.old ≡ S.pairs store.new ++ result ∷ [] }
    ensures room { S.keeps_memory → S.room store.old < S.room store.new }
{
    let last = store.lm_len() - 1;
    store.lm_remove(last)
}

/// Takes the pairs from an index on out of the store, the last one first.
pub(crate) fn take_from<K: Drop, V: Drop, S: StoreMut<K, V>, A: Allocator>(
    store: &mut S,
    index: usize,
    side: &mut Vec<(K, V), A>,
)
    requires index { index ≤ length (S.pairs store.old) }
    requires side_room { length side.old.items + length (S.pairs store.old) ≤ vec_capacity side.old + index }
    ensures store { S.pairs store.new ≡ take index (S.pairs store.old) }
    ensures room { S.keeps_memory → S.room store.old + length (drop index (S.pairs store.old)) ≤ S.room store.new }
    ensures side { reverse side.new.items ≡ drop index (S.pairs store.old) ++ reverse side.old.items }
    ensures side_room { vec_capacity side.old ≤ vec_capacity side.new }
{
    while store.lm_len() > index {
        side.push_reserved(take_last(store));
    }
}

/// Drops the pairs from an index on, the last one first (own).
pub fn drop_from<K: Drop, V: Drop, S: StoreMut<K, V>>(store: &mut S, len: usize)
    ensures pairs { S.pairs store.new ≡ take len (S.pairs store.old) }
    ensures room { S.keeps_memory → S.room store.old + length (S.pairs store.old) ≤ S.room store.new + length (S.pairs store.new) }
{
    while store.lm_len() > len {
        let last = store.lm_len() - 1;
        drop(store.lm_remove(last));
    }
}

/// Moves the items at the indices of a range to the end of a vector that has room for them (own).
pub fn move_range<T: Drop, A: Allocator>(
    items: &mut Vec<T, A>,
    range: Range<usize>,
    taken: &mut Vec<T, A>,
)
    requires ascends { range.start ≤ range.end }
    requires within { range.end ≤ vec_len items.old }
    requires room { vec_len taken.old + (range.end - range.start) ≤ vec_capacity taken.old }
    ensures taken { taken.new.items ≡ taken.old.items ++ slice_range items.old.items range.start range.end }
    ensures left { items.new.items ≡ take range.start items.old.items ++ drop range.end items.old.items }
{
    for item in items.drain(range) {
        taken.push_reserved(item);
    }
}

pub(crate) fn unless_empty<K, V, S: Store<K, V> + Drop>(rest: S) -> Option<S>
    ensures none { IsNone result ↔ (S.pairs rest ≡ []) }
    ensures some { IfSome result (λ s. S.pairs s ≡ S.pairs rest) }
{
    if rest.lm_is_empty() { None } else { Some(rest) }
}
