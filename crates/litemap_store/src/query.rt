//! What a key can be looked up by.
ghost use Rattle.std.specs.Prelude.{◌≡◌, ℕ, List, string_bytes};
ghost use Rattle.std.specs.Arc.{arc_str_bytes};
ghost use Rattle.std.specs.Box.{boxed_slice_items, boxed_str_bytes};
ghost use Rattle.std.specs.Cmp.Lexicographic.{slice_cmp, lists_total, nat_list_cmp_total};
ghost use Rattle.std.specs.Cow.{cow_str_bytes};
ghost use Rattle.std.specs.Rc.{rc_str_bytes};
ghost use Rattle.std.specs.declared.cmp.Ordering.{Ordering};
ghost use Rattle.litemap_store.specs.{OneSide, Respects, by_slice, by_string, bytes_cmp, key_one_side, key_respects};

use std::alloc::Allocator;
use std::borrow::CowStr;
use std::boxed::{BoxedSlice, BoxedStr};
use std::cmp::Ordering;
use std::rc::RcStr;
use std::sync::ArcStr;

/// What a key of the type `K` can be looked up by: a reference to a key, a `&str` if keys are strings, a slice if they are
/// vectors or slices, or a type of the user's own.
///
/// Strings compare by their bytes, slices item by item, and a proper prefix is less. A string or a slice may live shorter than
/// the keys.
///
/// In the Rust crate this is `K: Borrow<Q>` with `Q: Ord`.
pub trait Query<K: Ord>: Copy {
    /// What keys are compared with.
    ghost Sought: { Type 0 };

    /// What this query compares keys with.
    ghost sought: { Self → Sought };

    /// How a key compares with it: `Less` if the key is below it.
    ghost order: { K → Sought → Ordering };

    /// Returns how a key compares with the query: `Less` if the key is below it.
    fn compare_key(&self, key: &K) -> Ordering
        ensures { result ≡ order key.now (sought self.now) };

    /// Of two ascending keys, the lower one is below the query or the higher one above it.
    ghost one_side: { OneSide K.cmp order };

    /// Keys that are equal compare alike with the query.
    ghost respects: { Respects K.cmp order };
}

impl<K: Ord> Query<K> for &K {
    ghost Sought = { K };

    ghost sought = { λ q. q.now };

    ghost order = { K.cmp };

    ghost one_side = { key_one_side K.total };

    ghost respects = { key_respects K.total };

    fn compare_key(&self, key: &K) -> Ordering {
        key.cmp(*self)
    }
}

impl<A: Allocator> Query<String<A>> for &str {
    ghost Sought = { List ℕ };

    ghost sought = { λ q. q.now };

    ghost order = { by_string };

    ghost one_side = { λ text x y. key_one_side nat_list_cmp_total text (string_bytes x) (string_bytes y) };

    ghost respects = { λ text x y. key_respects nat_list_cmp_total text (string_bytes x) (string_bytes y) };

    fn compare_key(&self, key: &String<A>) -> Ordering {
        key.as_str().cmp(*self)
    }
}

impl<'k> Query<&'k str> for &str {
    ghost Sought = { Self };

    ghost sought = { λ q. q };

    ghost order = { λ key text. bytes_cmp key.now text.now };

    ghost one_side = { λ text x y. key_one_side nat_list_cmp_total text.now x.now y.now };

    ghost respects = { λ text x y. key_respects nat_list_cmp_total text.now x.now y.now };

    fn compare_key(&self, key: &&'k str) -> Ordering {
        (*key).cmp(*self)
    }
}

impl<A: Allocator> Query<BoxedStr<A>> for &str {
    ghost Sought = { List ℕ };

    ghost sought = { λ q. q.now };

    ghost order = { λ key text. bytes_cmp (boxed_str_bytes key) text };

    ghost one_side = { λ text x y. key_one_side nat_list_cmp_total text (boxed_str_bytes x) (boxed_str_bytes y) };

    ghost respects = { λ text x y. key_respects nat_list_cmp_total text (boxed_str_bytes x) (boxed_str_bytes y) };

    fn compare_key(&self, key: &BoxedStr<A>) -> Ordering {
        key.as_str().cmp(*self)
    }
}

impl<A: Allocator> Query<RcStr<A>> for &str {
    ghost Sought = { List ℕ };

    ghost sought = { λ q. q.now };

    ghost order = { λ key text. bytes_cmp (rc_str_bytes key) text };

    ghost one_side = { λ text x y. key_one_side nat_list_cmp_total text (rc_str_bytes x) (rc_str_bytes y) };

    ghost respects = { λ text x y. key_respects nat_list_cmp_total text (rc_str_bytes x) (rc_str_bytes y) };

    fn compare_key(&self, key: &RcStr<A>) -> Ordering {
        key.as_str().cmp(*self)
    }
}

impl<A: Allocator> Query<ArcStr<A>> for &str {
    ghost Sought = { List ℕ };

    ghost sought = { λ q. q.now };

    ghost order = { λ key text. bytes_cmp (arc_str_bytes key) text };

    ghost one_side = { λ text x y. key_one_side nat_list_cmp_total text (arc_str_bytes x) (arc_str_bytes y) };

    ghost respects = { λ text x y. key_respects nat_list_cmp_total text (arc_str_bytes x) (arc_str_bytes y) };

    fn compare_key(&self, key: &ArcStr<A>) -> Ordering {
        key.as_str().cmp(*self)
    }
}

impl<'k, A: Allocator> Query<CowStr<'k, A>> for &str {
    ghost Sought = { List ℕ };

    ghost sought = { λ q. q.now };

    ghost order = { λ key text. bytes_cmp (cow_str_bytes key) text };

    ghost one_side = { λ text x y. key_one_side nat_list_cmp_total text (cow_str_bytes x) (cow_str_bytes y) };

    ghost respects = { λ text x y. key_respects nat_list_cmp_total text (cow_str_bytes x) (cow_str_bytes y) };

    fn compare_key(&self, key: &CowStr<'k, A>) -> Ordering {
        key.as_str().cmp(*self)
    }
}

impl<T: Ord, A: Allocator> Query<Vec<T, A>> for &[T] {
    ghost Sought = { List T };

    ghost sought = { λ q. q.now };

    ghost order = { by_slice T.cmp };

    ghost one_side = { λ slice x y. key_one_side (lists_total T.total) slice x.items y.items };

    ghost respects = { λ slice x y. key_respects (lists_total T.total) slice x.items y.items };

    fn compare_key(&self, key: &Vec<T, A>) -> Ordering {
        key.as_slice().cmp(*self)
    }
}

impl<'k, T: Ord> Query<&'k [T]> for &[T] {
    ghost Sought = { Self };

    ghost sought = { λ q. q };

    ghost order = { λ key slice. slice_cmp T.cmp key.now slice.now };

    ghost one_side = { λ slice x y. key_one_side (lists_total T.total) slice.now x.now y.now };

    ghost respects = { λ slice x y. key_respects (lists_total T.total) slice.now x.now y.now };

    fn compare_key(&self, key: &&'k [T]) -> Ordering {
        (*key).cmp(*self)
    }
}

impl<T: Ord, A: Allocator> Query<BoxedSlice<T, A>> for &[T] {
    ghost Sought = { List T };

    ghost sought = { λ q. q.now };

    ghost order = { λ key slice. slice_cmp T.cmp (boxed_slice_items key) slice };

    ghost one_side = { λ slice x y. key_one_side
        (lists_total T.total) slice (boxed_slice_items x) (boxed_slice_items y) };

    ghost respects = { λ slice x y. key_respects
        (lists_total T.total) slice (boxed_slice_items x) (boxed_slice_items y) };

    fn compare_key(&self, key: &BoxedSlice<T, A>) -> Ordering {
        key.as_slice().cmp(*self)
    }
}
