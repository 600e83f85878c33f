//! The body of `split_off`: the pairs of a store from an index on become a store of their own.
ghost use Rattle.std.specs.Prelude.{◌≡◌, ◌≢◌, ◌⊎◌, ◌+◌, ◌≤◌, IfOk, IsOk, OnErr, OnOk, drop, length, take};

use crate::reserved::{put_up, room_for, take_from};
use crate::store::StoreMut;
use std::alloc::AllocError;
use std::mem;

/// Takes the pairs from an index on out of a store, into one of their own (own). The other pairs stay where they are.
///
/// It is the body of a map's `split_off`, which says what it moves and when it fails.
pub fn split_store<K: Drop, V: Drop, S: StoreMut<K, V> + Drop>(
    alloc: S::Alloc,
    store: &mut S,
    index: usize,
) -> Result<S, AllocError>
    requires { index ≤ length (S.pairs store.old) }
    ensures stays { OnOk result (S.pairs store.new ≡ take index (S.pairs store.old)) }
    ensures later { IfOk result (λ later. S.pairs later ≡ drop index (S.pairs store.old)) }
    ensures room { S.keeps_memory → OnOk result (index ≢ 0
        → S.room store.old + length (drop index (S.pairs store.old)) ≤ S.room store.new) }
    ensures unchanged { OnErr result (store.new ≡ store.old) }
    ensures unchanged_at_end { index ≡ length (S.pairs store.old) → store.new ≡ store.old }
    ensures whole { index ≡ 0 → index ≢ length (S.pairs store.old) → IfOk result (λ later. later ≡ store.old) }
    ensures succeeds { (index ≡ 0) ⊎ (index ≡ length (S.pairs store.old)) → IsOk result }
{
    let number = store.lm_len() - index;
    if number == 0 {
        return S::lm_with_capacity(alloc, 0);
    }
    if index == 0 {
        let empty = S::lm_with_capacity(alloc, 0)?;
        return Ok(mem::replace(store, empty));
    }
    let Ok((mut side, mut later)) = room_for(alloc, number) else {
        return Err(AllocError);
    };
    take_from(store, index, &mut side);
    put_up(&mut later, side);
    Ok(later)
}
