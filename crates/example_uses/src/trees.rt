//! Callers with bodies and clauses as for std's `BTreeMap`, most of them its own tests': only the two `use` lines differ from
//! such code.
ghost use Rattle.std.specs.Prelude.{◌≡◌, ◌≢◌, ◌+◌, ◌≤◌, ◌==◌, if◌then◌else◌};
ghost use Rattle.litemap.specs.Words.{IfOk, IsTrue, MatchResult, None, OnOk, Some, btree_map_len, codes, count_by, get};
ghost use Rattle.litemap.specs.Words.{get_by_text, get_key, is_some, keys, nat_cmp, option_map, unwrap_or, values};

use litemap::VecMap as BTreeMap;
use std::alloc::{AllocError, Global};

/// How many there are of each item, by its number.
#[derive(Drop)]
pub struct Stock {
    counts: BTreeMap<u32, u8>,
}

impl Stock {
    /// Returns an empty stock.
    pub fn new(alloc: Global) -> Stock
        ensures { (id : _) → get nat_cmp result.counts id ≡ None }
    {
        Stock {
            counts: BTreeMap::new(alloc),
        }
    }

    /// Returns how many there are of an item.
    pub fn count(&self, id: u32) -> u8
        ensures { result ≡ unwrap_or (get nat_cmp self.now.counts id) 0 }
    {
        match self.counts.get(&id) {
            Some(n) => *n,
            None => 0,
        }
    }

    /// Sets how many there are of an item, and returns whether there was memory for it.
    pub fn put(&mut self, id: u32, n: u8) -> bool
        ensures { IsTrue result → get nat_cmp self.new.counts id ≡ Some n }
    {
        self.counts.insert(id, n).is_ok()
    }

    /// Takes an item out.
    pub fn take(&mut self, id: u32)
        ensures { get nat_cmp self.new.counts id ≡ None }
    {
        self.counts.remove(&id);
    }

    /// Gives all that there is of an item another number. All others stay.
    pub fn renumber(&mut self, id: u32, new: u32) -> Result<(), AllocError>
        requires { id ≢ new }
        ensures gone { OnOk result (get nat_cmp self.new.counts id ≡ None) }
        ensures others { OnOk result ((other : _) → other ≢ id → other ≢ new
            → get nat_cmp self.new.counts other ≡ get nat_cmp self.old.counts other) }
    {
        if let Some(n) = self.counts.remove(&id) {
            self.counts.insert(new, n)?;
        }
        Ok(())
    }

    /// Returns of how many items there is just this number.
    pub fn items_with(&self, n: u8) -> usize
        ensures { result ≡ count_by (λ m. m == n) (values self.now.counts) }
    {
        self.counts.values().filter(|m| **m == n).count()
    }
}

/// Puts a pair in. The map grows by one if its key is new.
pub fn grown(m: &mut BTreeMap<u32, u8>, k: u32) -> Result<(), ()>
    ensures { MatchResult result
        (λ _. btree_map_len m.new ≡ btree_map_len m.old + (if is_some (get nat_cmp m.old k) then 0 else 1))
        (λ _. btree_map_len m.new ≡ btree_map_len m.old) }
{
    match m.insert(k, 1) {
        Ok(_) => Ok(()),
        Err(_) => Err(()),
    }
}

/// Returns the key that is equal to `k`, with its value.
pub fn its_key(m: &BTreeMap<u32, u8>, k: u32) -> Option<(&u32, &u8)>
    ensures { option_map (λ p. p.0.now) result ≡ get_key nat_cmp m.now k }
{
    m.get_key_value(&k)
}

/// Keeps the pairs with even keys.
pub fn kept(m: &mut BTreeMap<u32, u8>)
    ensures { btree_map_len m.new ≤ btree_map_len m.old }
{
    m.retain(|k, _| *k % 2 == 0);
}

/// Returns all keys, in order.
pub fn all_keys(m: &BTreeMap<u32, u8>, alloc: Global) -> Result<Vec<u32>, AllocError>
    ensures { IfOk result (λ v. v.items ≡ keys m.now) }
{
    m.keys().copied().collect(alloc)
}

/// Returns a map in which "to" is, and "be" is no more.
pub fn words(heap: Global) -> Result<BTreeMap<String, u8>, AllocError>
    ensures kept { IfOk result (λ m. get_by_text m (codes "to") ≡ Some 2) }
    ensures gone { IfOk result (λ m. get_by_text m (codes "be") ≡ None) }
{
    let mut m = BTreeMap::new(heap);
    m.insert("to".to_string(heap)?, 2u8)?;
    m.insert("be".to_string(heap)?, 1)?;
    m.remove("be");
    Ok(m)
}
