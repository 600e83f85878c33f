//! A query of a caller's own: people are ordered by their number alone, and looked up by a number.
ghost use Rattle.std.specs.Prelude.{◌≡◌, ◌≢◌, ◌==◌};
ghost use Rattle.std.proofs.Common.{rules};
ghost use Rattle.std.specs.Cmp.{nat_cmp_total, partial_order_from_own_ties};
ghost use Rattle.std.specs.Cmp.Rules.{comparing};
ghost use Rattle.std.specs.Ordering.{as_partial_cmp, on};
ghost use Rattle.litemap.specs.Words.{None, OnOk, Some, get, nat_cmp, option_copied, ℕ};
ghost use Rattle.litemap_store.specs.Queries.{key_one_side, key_respects};

use litemap::{Query, VecMap};
use std::alloc::AllocError;
use std::cmp::Ordering;

/// Someone with a number.
#[derive(Drop)]
pub struct Person {
    /// The number.
    pub number: u32,
    /// The name, which no comparison reads.
    pub name: String,
}

impl PartialEq for Person {
    ghost eq = { λ a b. a.number == b.number };

    ghost laws = { Prim.search (comparing, rules) };

    fn eq(&self, other: &Self) -> bool {
        self.number == other.number
    }
}

impl Eq for Person {
    ghost laws = { Prim.search (comparing, rules) };
}

impl PartialOrd for Person {
    ghost partial_cmp = { as_partial_cmp (on (λ a. a.number) nat_cmp) };

    ghost laws = { partial_order_from_own_ties (Prim.search (comparing, rules)) (Prim.search (comparing, rules)) };

    fn partial_cmp(&self, other: &Self) -> Option<Ordering> {
        Some(self.cmp(other))
    }
}

impl Ord for Person {
    ghost cmp = { on (λ a. a.number) nat_cmp };

    ghost total = { Prim.search (comparing, rules) };

    ghost matches_partial_cmp = { Prim.search (comparing, rules) };

    ghost matches_eq = { Prim.search (comparing, rules) };

    fn cmp(&self, other: &Self) -> Ordering {
        self.number.cmp(&other.number)
    }
}

/// A number to look for.
#[derive(Clone, Copy)]
pub struct Number(pub u32);

/// A person compares with a number as the person's number does.
impl Query<Person> for Number {
    ghost Sought = { ℕ };

    ghost sought = { λ query. query.0 };

    ghost order = { λ person number. nat_cmp person.number number };

    ghost one_side = { λ number a b. key_one_side nat_cmp_total number a.number b.number };

    ghost respects = { λ number a b. key_respects nat_cmp_total number a.number b.number };

    fn compare_key(&self, key: &Person) -> Ordering {
        key.number.cmp(&self.0)
    }
}

/// What is kept for the person with a number.
pub fn kept_for<'a, V>(map: &'a VecMap<Person, V>, number: u32) -> Option<&'a V>
    ensures { option_copied result ≡ get (λ person number. nat_cmp person.number number) map.entry.now number }
{
    map.get(Number(number))
}

/// Keeps a value for a person, or for the one that is there with that number.
pub fn keep_for<V: Drop>(
    map: &mut VecMap<Person, V>,
    person: Person,
    value: V,
) -> Result<(), AllocError>
    ensures kept { OnOk result (get (λ person number. nat_cmp person.number number) map.new person.number ≡ Some value) }
{
    map.insert(person, value)?;
    Ok(())
}

/// Drops the person with a number. All others keep what they have.
pub fn drop_person<V: Drop>(map: &mut VecMap<Person, V>, number: u32)
    ensures gone { get (λ person number. nat_cmp person.number number) map.new number ≡ None }
    ensures others { (other : _) → other ≢ number
        → get (λ person number. nat_cmp person.number number) map.new other
        ≡ get (λ person number. nat_cmp person.number number) map.old other }
{
    map.remove(Number(number));
}
