//! Sets: maps whose values are `()`.
ghost use Rattle.std.specs.Prelude.{◌≡◌};
ghost use Rattle.litemap.specs.Words.{IsNone, IsSome, IsTrue, None, get, nat_cmp};

use litemap::VecMap;

/// A set of numbers.
pub type Set = VecMap<u32, ()>;

/// Keeps the elements that the other set has too.
pub fn intersect(set: &mut Set, other: &Set)
    ensures common { (element : _) → IsSome (get nat_cmp other.now element)
        → get nat_cmp set.new element ≡ get nat_cmp set.old element }
    ensures gone { (element : _) → IsNone (get nat_cmp other.now element) → get nat_cmp set.new element ≡ None }
{
    set.keep_keys_of(other);
}

/// Whether the other set has each element.
pub fn is_subset(set: &Set, other: &Set) -> bool
    ensures { IsTrue result → (element : _) → IsSome (get nat_cmp set.now element)
        → IsSome (get nat_cmp other.now element) }
{
    set.is_subset(other)
}
