//! Amounts at prices, none of which is 0. What always holds of each pair is said by `Each`, beside clauses on lookups.
ghost use Rattle.std.specs.Prelude.{◌≡◌, ◌≢◌, ◌==◌, ◌+◌, ◌<◌, ◌≤◌, if◌then◌else◌};
ghost use Rattle.litemap.specs.Words.{IfSome, IsEmpty, IsFalse, IsTrue, IsUnchanged, None, OnErr, OnOk, Some, get, nat_cmp};
ghost use Rattle.example_uses.specs.Vectors.{number_at};

use litemap::{LiteMap, VecMap};
use std::alloc::{AllocError, Global};
use std::marker::Model;

/// What is offered at each price. No amount is 0.
#[derive(Drop)]
pub struct Levels {
    amounts: VecMap<u32, u64>,
}

impl Model for Levels {
    ghost use Rattle.std.specs.Prelude.{ℕ, ◌<◌};
    ghost use Rattle.litemap.specs.Words.{Contents, Each, nat_cmp};

    ghost Value = { Contents ℕ ℕ };

    ghost view = { λ levels. levels.amounts };

    ghost invariant = { λ levels. Each nat_cmp (λ _ amount. 0 < amount) levels.amounts };
}

impl Levels {
    /// Returns levels with no amounts.
    pub fn new(alloc: Global) -> Levels
        ensures { IsEmpty result }
    {
        Levels {
            amounts: LiteMap::new(alloc),
        }
    }

    /// Returns the amount at a price, which is not 0.
    pub fn get(&self, price: u32) -> Option<u64>
        ensures value { result ≡ get nat_cmp self.now price }
        ensures not_0 { IfSome result (λ amount. 0 < amount) }
    {
        self.amounts.get(&price).copied()
    }

    /// Sets the amount at a price. All others stay.
    pub fn set(&mut self, price: u32, amount: u64) -> Result<(), AllocError>
        requires { 0 < amount }
        ensures there { OnOk result (get nat_cmp self.new price ≡ Some amount) }
        ensures others { OnOk result ((other : _) → other ≢ price → get nat_cmp self.new other ≡ get nat_cmp self.old other) }
        ensures unchanged { OnErr result (IsUnchanged self.old self.new) }
    {
        self.amounts.insert(price, amount)?;
        Ok(())
    }

    /// Takes the amount at a price away, and returns it. All others stay.
    pub fn cancel(&mut self, price: u32) -> Option<u64>
        ensures value { result ≡ get nat_cmp self.old price }
        ensures gone { get nat_cmp self.new price ≡ None }
        ensures others { (other : _) → other ≢ price → get nat_cmp self.new other ≡ get nat_cmp self.old other }
    {
        self.amounts.remove(&price)
    }

    /// Lowers the amount at a price, and returns whether it was greater. All others stay.
    pub fn lower(&mut self, price: u32, amount: u64) -> bool
        ensures less { IsTrue result → number_at self.new price + amount ≡ number_at self.old price }
        ensures others { (other : _) → other ≢ price → get nat_cmp self.new other ≡ get nat_cmp self.old other }
        ensures unchanged { IsFalse result → IsUnchanged self.old self.new }
    {
        let Some(there) = self.amounts.get_mut(&price) else {
            return false;
        };
        if *there <= amount {
            return false;
        }
        *there -= amount;
        true
    }

    /// Adds to the amount at a price. All others stay.
    pub fn add(&mut self, price: u32, amount: u64) -> Result<(), AllocError>
        requires { number_at self.old price + amount ≤ u64.MAX }
        ensures added { OnOk result ((other : _) → number_at self.new other
            ≡ number_at self.old other + (if other == price then amount else 0)) }
        ensures unchanged { OnErr result (IsUnchanged self.old self.new) }
    {
        let more = self.get(price).unwrap_or(0) + amount;
        if more == 0 {
            return Ok(());
        }
        self.set(price, more)
    }

    /// Adds all amounts of others, price by price.
    #[tactic(auto, using(litemap::proofs::Loops::number_sums))]
    pub fn add_all(&mut self, others: &Levels) -> Result<(), AllocError>
        requires { (price : _) → number_at self.old price + number_at others.now price ≤ u64.MAX }
        ensures { OnOk result ((price : _) → number_at self.new price
            ≡ number_at self.old price + number_at others.now price) }
    {
        others.amounts.keys_ascend();
        for (price, amount) in &others.amounts {
            self.add(*price, *amount)?;
        }
        Ok(())
    }
}
