//! `lm_retain` of stores whose pairs can be swapped.
ghost use Rattle.std.specs.Prelude.{◌≡◌, ◌+◌, ◌<◌, ◌≤◌, Some, length, slice_get, take, swap};
ghost use Rattle.std.specs.Map.Iter.{deref_pair};
ghost use Rattle.litemap_store.specs.{CallableOnEach, CalledOnPair, Kept, TakesKeyValue};
ghost use Rattle.litemap_store.specs.Steps.{KeptSoFar};

use crate::store::Store;

/// A store whose pairs can be swapped, and dropped from an index on (own). Its `lm_retain` is `retain`.
pub trait SwapStore<K, V>: Store<K, V> {
    /// Returns the pair at an index.
    fn lm_pair(&self, index: usize) -> (&K, &V)
        requires { index < length (Self.pairs self.now) }
        ensures { slice_get (Self.pairs self.now) index ≡ Some (deref_pair result) };

    /// Swaps two pairs. It takes no memory, and frees none.
    fn lm_swap(&mut self, a: usize, b: usize)
        requires a { a < length (Self.pairs self.old) }
        requires b { b < length (Self.pairs self.old) }
        ensures pairs { Self.pairs self.new ≡ swap (Self.pairs self.old) a b }
        ensures room { Self.room self.new ≡ Self.room self.old };

    /// Drops the pairs from an index on. The room grows by their number.
    fn lm_truncate(&mut self, len: usize)
        ensures pairs { Self.pairs self.new ≡ take len (Self.pairs self.old) }
        ensures room { Self.room self.old + length (Self.pairs self.old)
            ≡ Self.room self.new + length (Self.pairs self.new) };
}

/// Keeps the pairs for which `f` returns true, and drops the others, as `lm_retain` does (own). Pairs before the first dropped
/// one don't move.
pub fn retain<K, V, S: SwapStore<K, V>, F: FnMut(&K, &V) -> bool>(store: &mut S, f: &mut F)
    requires { CallableOnEach F.FnMut f.old (S.pairs store.old) }
    ensures kept { Kept F.FnMut f.old (S.pairs store.old) (S.pairs store.new) }
    ensures shorter { length (S.pairs store.new) ≤ length (S.pairs store.old) }
    ensures room { S.room store.old + length (S.pairs store.old)
        ≡ S.room store.new + length (S.pairs store.new) }
{
    let (mut kept, asked) = keep_in_place(store, f);
    for index in asked..store.lm_len() {
        let (key, value) = store.lm_pair(index);
        let stays = is_kept(f, key, value);
        // It swaps whatever `f` returned, so that no branch depends on it.
        store.lm_swap(kept, index);
        if stays {
            kept += 1;
        }
    }
    store.lm_truncate(kept);
}

// Tests pairs up to the first one that is kept after a dropped one, and moves that one. Returns how many are kept, and how many
// were tested.
fn keep_in_place<K, V, S: SwapStore<K, V>, F: FnMut(&K, &V) -> bool>(
    store: &mut S,
    f: &mut F,
) -> (usize, usize)
    requires { CallableOnEach F.FnMut f.old (S.pairs store.old) }
    ensures kept { KeptSoFar F.FnMut f.old (S.pairs store.old) f.new (S.pairs store.new) result.0 result.1 }
    ensures asked { result.1 ≤ length (S.pairs store.old) }
    ensures len { length (S.pairs store.new) ≡ length (S.pairs store.old) }
    ensures room { S.room store.new ≡ S.room store.old }
{
    let mut kept = 0;
    let len = store.lm_len();
    for index in 0..len {
        let (key, value) = store.lm_pair(index);
        if is_kept(f, key, value) {
            if kept < index {
                store.lm_swap(kept, index);
                return (kept + 1, index + 1);
            }
            kept += 1;
        }
    }
    (kept, len)
}

/// Returns whether a closure keeps a pair, by calling it once (own).
pub fn is_kept<K, V, F: FnMut(&K, &V) -> bool>(f: &mut F, key: &K, value: &V) -> bool
    requires { TakesKeyValue F.FnMut f.old (key.now, value.now) }
    ensures { CalledOnPair F.FnMut f.old (key.now, value.now) result f.new }
{
    f(key, value)
}
