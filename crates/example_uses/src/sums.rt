//! Sparse vectors: numbers at indices, 0 where there is none. Numbers at names, and balances, which are signed.
ghost use Rattle.std.specs.Prelude.{◌≡◌, ◌+◌, ◌+ℤ◌, ◌<◌, ◌≤◌, bytes_eq, if◌then◌else◌, pos, sum_by};
ghost use Rattle.litemap.specs.Words.{All, IfOk, IfSome, IsFalse, IsTrue, IsUnchanged, OnErr, OnOk, at, by_string, found_with, get};
ghost use Rattle.litemap.specs.Words.{get_by_text, int_sum, min, nat_cmp, put, string_bytes, string_cmp, sum, unwrap_or, values};
ghost use Rattle.example_uses.specs.Vectors.{number_at};

use litemap::store::NoRoom;
use litemap::{LiteMap, VecMap};
use std::alloc::{AllocError, Global};
use std::mem;

/// Numbers by their indices.
pub type Vector = VecMap<u32, u64>;

/// Adds another vector. If memory runs out, the sum is as it was, and the other one comes back, with the sums at the indices that
/// both have.
pub fn add(sum: &mut Vector, alloc: Global, other: Vector) -> Result<(), NoRoom<Vector>>
    requires { (i : _) → number_at sum.old i + number_at other i ≤ u64.MAX }
    ensures added { OnOk result ((i : _) →
        number_at sum.new i ≡ number_at sum.old i + number_at other i) }
    ensures unchanged { OnErr result (IsUnchanged sum.old sum.new) }
{
    sum.extend_with(
        alloc,
        other,
        |_, here, new|
            requires { here.now + new.old ≤ u64.MAX }
            ensures { new.new ≡ here.now + new.old }
        { *new += *here },
    )?;
    Ok(())
}

/// Sets a number that isn't 0. If no other that the vector has is 0, none is afterwards.
// By these lemmas alone: with all of the root's set the search reaches its limit.
#[tactic(auto, using(litemap_store::proofs::Callers::Every::every_pair))]
pub fn set(vector: &mut Vector, index: u32, number: u64) -> Result<(), AllocError>
    requires { 0 < number }
    ensures { OnOk result (All (λ p. 0 < p.1) vector.old.entries → All (λ p. 0 < p.1) vector.new.entries) }
{
    vector.insert(index, number)?;
    Ok(())
}

/// Numbers by names.
pub type Named = VecMap<String, u64>;

/// Removes the number at a name. The sum of all is less by that.
pub fn settle(named: &mut Named, name: &str) -> Option<u64>
    ensures { sum (values named.new) + unwrap_or result 0 ≡ sum (values named.old) }
{
    named.remove(name)
}

/// Takes from the number at a name, and returns whether it was that great. The sum of all is less by that.
// By fewer lemmas, among them that the value that is there, written again, changes nothing.
#[tactic(auto, using(litemap::proofs::Texts::texts, litemap::proofs::Sums::sums))]
pub fn take_from(named: &mut Named, name: &str, number: u64) -> bool
    ensures taken { IsTrue result → sum (values named.new) + number ≡ sum (values named.old) }
    ensures unchanged { IsFalse result → IsUnchanged named.old named.new }
{
    let Some(there) = named.get_mut(name) else {
        return false;
    };
    if *there < number {
        return false;
    }
    *there -= number;
    true
}

/// Adds the numbers of other names. A sum that is too great becomes the greatest number.
// By this lemma alone: with all of the root's set the search doesn't prove `added`.
#[tactic(auto, using(litemap::proofs::Texts::text_combined))]
pub fn add_capped(named: &mut Named, alloc: Global, other: Named) -> Result<(), AllocError>
    ensures added { OnOk result ((name : _) → get_by_text named.new name
        ≡ found_with (λ _ here new. min (here + new) 18446744073709551615)
        (get_by_text named.old name) (at by_string other.entries name)) }
    ensures unchanged { OnErr result (IsUnchanged named.old named.new) }
{
    named.extend_with(
        alloc,
        other,
        |_, here, new| *new = here.saturating_add(*new),
    )?;
    Ok(())
}

/// The sum of the numbers at each name.
#[tactic(auto, using(litemap::proofs::Loops::text_counts))]
pub fn totals(alloc: Global, pairs: &[(String, u64)]) -> Result<Named, AllocError>
    requires { sum_by (λ p. p.1) pairs.now ≤ u64.MAX }
    ensures { IfOk result (λ totals. (name : _) → unwrap_or (get_by_text totals name) 0
        ≡ sum_by (λ p. if bytes_eq name (string_bytes p.0) then p.1 else 0) pairs.now) }
{
    let mut totals = LiteMap::new_vec(alloc);
    for (name, number) in pairs {
        add_to(&mut totals, name.clone()?, *number)?;
    }
    Ok(totals)
}

// Adds to the number at a name, which is 0 if there is none.
#[tactic(auto)]
fn add_to(totals: &mut Named, name: String, number: u64) -> Result<(), AllocError>
    requires { unwrap_or (get_by_text totals.old (string_bytes name)) 0 + number ≤ u64.MAX }
    ensures { OnOk result (totals.new.entries
        ≡ put string_cmp totals.old.entries name (unwrap_or (get_by_text totals.old (string_bytes name)) 0 + number)) }
{
    *totals.entry(name).or_insert(0)? += number;
    Ok(())
}

/// Balances by the numbers of accounts.
pub type Balances = VecMap<u32, i64>;

/// Sets the balance of an account, and returns what it was. The sum of all changes by the difference.
#[tactic(auto, using(std::proofs::lemmas::Cmp::nat_cmp_total, litemap::proofs::Sums::signed_sums))]
pub fn set_balance(
    balances: &mut Balances,
    account: u32,
    balance: i64,
) -> Result<Option<i64>, AllocError>
    ensures old { IfOk result (λ old. old ≡ get nat_cmp balances.old account) }
    ensures sum { IfOk result (λ old. int_sum (values balances.new) +ℤ unwrap_or old (pos 0)
        ≡ int_sum (values balances.old) +ℤ balance) }
    ensures unchanged { OnErr result (IsUnchanged balances.old balances.new) }
{
    Ok(balances.insert(account, balance)?)
}

/// Adds to the balance of an account, and returns whether it fits. The sum of all grows by that.
#[tactic(auto, using(litemap::proofs::Sums::signed_sums))]
pub fn post(balances: &mut Balances, account: u32, amount: i64) -> Result<bool, AllocError>
    ensures posted { IfOk result (λ fits. IsTrue fits
        → int_sum (values balances.new) ≡ int_sum (values balances.old) +ℤ amount) }
    ensures refused { IfOk result (λ fits. IsFalse fits → IsUnchanged balances.old balances.new) }
    ensures unchanged { OnErr result (IsUnchanged balances.old balances.new) }
{
    let balance = balances.get(&account).copied().unwrap_or(0);
    let Some(sum) = balance.checked_add(amount) else {
        return Ok(false);
    };
    set_balance(balances, account, sum)?;
    Ok(true)
}

/// Closes an account, and returns its balance. The sum of all is less by that.
#[tactic(auto, using(std::proofs::lemmas::Cmp::nat_cmp_total, litemap::proofs::Sums::signed_sums))]
pub fn close(balances: &mut Balances, account: u32) -> Option<i64>
    ensures { int_sum (values balances.new) +ℤ unwrap_or result (pos 0) ≡ int_sum (values balances.old) }
{
    balances.remove(&account)
}

/// Sets the balance of an account that is there, and returns what it was. The sum of all changes by the difference.
#[tactic(auto, using(std::proofs::lemmas::Cmp::nat_cmp_total, litemap::proofs::Sums::signed_sums))]
pub fn correct(balances: &mut Balances, account: u32, balance: i64) -> Option<i64>
    ensures { IfSome result (λ old. int_sum (values balances.new) +ℤ old ≡ int_sum (values balances.old) +ℤ balance) }
{
    Some(mem::replace(balances.get_mut(&account)?, balance))
}
