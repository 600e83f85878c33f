//! The search of the stores whose keys lie in slices. The next index is chosen with no branch on a comparison.
ghost use Rattle.std.specs.Prelude.{◌≡◌, ◌<◌, IfOk, List, Some, length, slice_get, if◌then◌else◌};
ghost use Rattle.litemap_store.specs.{CallableOnKeys, Found, RisesByAtMost, digits};

use crate::count::Count;
use std::cmp::Ordering;
use std::mem;

/// The keys of pairs, by their indices (own). The contract bounds the index, so that no check of it is compiled.
pub trait Keys<K, V> {
    /// The pairs.
    ghost pairs: { Self → List (K × V) };

    /// Returns the number of pairs.
    fn key_count(&self) -> usize
        ensures { result ≡ length (pairs self.now) };

    /// Returns the key at an index.
    fn key_at(&self, index: usize) -> &K
        requires { index < length (pairs self.now) }
        ensures { (value : V) × (slice_get (pairs self.now) index ≡ Some (result.now, value)) };
}

// The most bytes of a key that is compared as cheaply as a number.
const SMALL: usize = 8;

#[inline(always)]
fn choose(is_first: bool, first: usize, second: usize) -> usize
    ensures { result ≡ (if is_first then first else second) }
{
    if is_first { first } else { second }
}

/// Returns `Ok` with the index of a key for which `f` returns `Equal`, or else `Err` with the number of keys for which it returns
/// `Less` (own).
///
/// Each step calls `f` on the middle key, and leaves at most half of the keys. Comparing a small key costs less than a
/// mispredicted branch. So for small keys the number of steps depends on the length alone: each step leaves half, which may
/// include the key just compared, and the search goes on after `Equal`. A larger key is compared at most once, and `Equal` ends
/// the search. `choose` takes both values of each choice, so that the compiler can select one without a branch.
pub fn find<K, V, S: Keys<K, V>, F: FnMut(&K) -> Ordering>(
    keys: &S,
    f: F,
    count: &mut Count,
) -> Result<usize, usize>
    requires { CallableOnKeys F.FnMut (S.pairs keys.now) f }
    ensures found { Found F.FnMut (S.pairs keys.now) f result }
    ensures within { IfOk result (λ index. index < length (S.pairs keys.now)) }
    ensures cost { RisesByAtMost (digits (length (S.pairs keys.now))) count.old count.new }
{
    let mut f = f;
    let mut low = 0;
    let mut left = keys.key_count();
    // The index after the one found, or 0.
    let mut hit = 0;
    while 0 < left {
        let half = left / 2;
        let next = low + (left - half);
        let key = keys.key_at(next - 1);
        let is_small = mem::size_of_val(key) <= SMALL;
        // How many keys are left: `half` after `Less`, `before` after `Greater`, `rest` after `Equal`.
        let before = choose(is_small, half, left - half - 1);
        let rest = choose(is_small, half, 0);
        let order = count.ask(&mut f, key);
        let is_less = order.is_lt();
        let is_equal = order.is_eq();
        low = choose(is_less, next, low);
        hit = choose(is_equal, next, hit);
        left = choose(is_less, half, choose(is_equal, rest, before));
    }
    if 0 < hit { Ok(hit - 1) } else { Err(low) }
}
