//! Keys of a type of a caller's own, in the order that it derives. All other shelves are those for which `cmp` doesn't return
//! `Equal`: said by `is_eq`, it is proved after two changes, too.
ghost use Rattle.std.specs.Prelude.{◌≡◌, ◌≢◌, ◌+◌, false, ◌≤◌};
ghost use Rattle.litemap.specs.Words.{All, Equal, Greater, IfOk, IfSome, IsNone, IsSome, IsTrue, IsUnchanged, Less, None};
ghost use Rattle.litemap.specs.Words.{OnErr, OnOk, Some, get, is_eq, is_some, keys, option_map, sum, unwrap_or, values};

use litemap::VecMap;
use std::alloc::{AllocError, Global};

/// A place in a store room, with an order of its own.
#[derive(Clone, Copy, PartialEq, Eq, PartialOrd, Ord)]
pub struct Shelf {
    /// The number of the shelf.
    pub number: u8,
    /// How far its board lies above the floor.
    pub board: i16,
}

/// How many there are, by shelf.
pub type Stock = VecMap<Shelf, u32>;

/// Sets how many are on a shelf. All others stay.
pub fn set(stock: &mut Stock, shelf: Shelf, count: u32) -> Result<(), AllocError>
    ensures there { OnOk result (get ⟦<Shelf as Ord>⟧.cmp stock.new shelf ≡ Some count) }
    ensures others { OnOk result ((other : _) → is_eq (⟦<Shelf as Ord>⟧.cmp other shelf) ≡ false
        → get ⟦<Shelf as Ord>⟧.cmp stock.new other ≡ get ⟦<Shelf as Ord>⟧.cmp stock.old other) }
    ensures unchanged { OnErr result (IsUnchanged stock.old stock.new) }
{
    stock.insert(shelf, count)?;
    Ok(())
}

/// Writes how many are on a shelf, if it is there. All others stay.
pub fn correct(stock: &mut Stock, shelf: &Shelf, count: u32) -> bool
    ensures there { result ≡ is_some (get ⟦<Shelf as Ord>⟧.cmp stock.old shelf.now) }
    ensures set { IsTrue result → get ⟦<Shelf as Ord>⟧.cmp stock.new shelf.now ≡ Some count }
    ensures others { (other : _) → is_eq (⟦<Shelf as Ord>⟧.cmp other shelf.now) ≡ false
        → get ⟦<Shelf as Ord>⟧.cmp stock.new other ≡ get ⟦<Shelf as Ord>⟧.cmp stock.old other }
{
    match stock.get_mut(shelf) {
        Some(slot) => {
            *slot = count;
            true
        }
        None => false,
    }
}

/// Clears a shelf, and returns how many were there. All others stay.
pub fn clear(stock: &mut Stock, shelf: &Shelf) -> Option<u32>
    ensures value { result ≡ get ⟦<Shelf as Ord>⟧.cmp stock.old shelf.now }
    ensures gone { get ⟦<Shelf as Ord>⟧.cmp stock.new shelf.now ≡ None }
    ensures others { (other : _) → is_eq (⟦<Shelf as Ord>⟧.cmp other shelf.now) ≡ false
        → get ⟦<Shelf as Ord>⟧.cmp stock.new other ≡ get ⟦<Shelf as Ord>⟧.cmp stock.old other }
{
    stock.remove(shelf)
}

/// Moves what is on a shelf to another one, and returns what was there. The removal leaves room, so it never fails. All others
/// stay.
pub fn move_to(stock: &mut Stock, from: &Shelf, to: Shelf) -> Option<u32>
    requires { is_eq (⟦<Shelf as Ord>⟧.cmp from.now to) ≡ false }
    ensures moved { IsSome (get ⟦<Shelf as Ord>⟧.cmp stock.old from.now)
        → get ⟦<Shelf as Ord>⟧.cmp stock.new to ≡ get ⟦<Shelf as Ord>⟧.cmp stock.old from.now }
    ensures gone { get ⟦<Shelf as Ord>⟧.cmp stock.new from.now ≡ None }
    ensures others { (other : _) → is_eq (⟦<Shelf as Ord>⟧.cmp other from.now) ≡ false
        → is_eq (⟦<Shelf as Ord>⟧.cmp other to) ≡ false
        → get ⟦<Shelf as Ord>⟧.cmp stock.new other ≡ get ⟦<Shelf as Ord>⟧.cmp stock.old other }
{
    let count = stock.remove(from)?;
    stock.insert(to, count).unwrap()
}

/// The first shelf from one on, and how many are there. None lies between.
pub fn next_from(stock: &Stock, shelf: &Shelf) -> Option<(Shelf, u32)>
    ensures found { IfSome result (λ p. get ⟦<Shelf as Ord>⟧.cmp stock.now p.0 ≡ Some p.1) }
    ensures above { IfSome result (λ p. ⟦<Shelf as Ord>⟧.cmp p.0 shelf.now ≢ Less) }
    ensures none { IsNone result → (other : _) → ⟦<Shelf as Ord>⟧.cmp other shelf.now ≢ Less
        → get ⟦<Shelf as Ord>⟧.cmp stock.now other ≡ None }
    ensures next { IfSome result (λ p. (other : _) → ⟦<Shelf as Ord>⟧.cmp other shelf.now ≢ Less
        → IsSome (get ⟦<Shelf as Ord>⟧.cmp stock.now other) → ⟦<Shelf as Ord>⟧.cmp other p.0 ≢ Less) }
{
    let (found, count) = stock.ceiling(shelf)?;
    Some((*found, *count))
}

/// The first shelf from one on and before another, and how many are there. None of those between comes before it.
pub fn first_between(stock: &Stock, from: Shelf, to: Shelf) -> Option<(Shelf, u32)>
    ensures found { IfSome result (λ p. get ⟦<Shelf as Ord>⟧.cmp stock.now p.0 ≡ Some p.1) }
    ensures from { IfSome result (λ p. ⟦<Shelf as Ord>⟧.cmp p.0 from ≢ Less) }
    ensures before { IfSome result (λ p. ⟦<Shelf as Ord>⟧.cmp p.0 to ≡ Less) }
    ensures none { IsNone result → (other : _) → ⟦<Shelf as Ord>⟧.cmp other from ≢ Less
        → ⟦<Shelf as Ord>⟧.cmp other to ≡ Less → get ⟦<Shelf as Ord>⟧.cmp stock.now other ≡ None }
    ensures first { IfSome result (λ p. (other : _) → ⟦<Shelf as Ord>⟧.cmp other from ≢ Less
        → ⟦<Shelf as Ord>⟧.cmp other to ≡ Less → IsSome (get ⟦<Shelf as Ord>⟧.cmp stock.now other)
        → ⟦<Shelf as Ord>⟧.cmp p.0 other ≢ Greater) }
{
    let part = stock.range_in(from..to);
    let (found, count) = part.first()?;
    Some((*found, *count))
}

/// Puts more on a shelf, from 0 if it isn't there. All others stay.
pub fn put_more(stock: &mut Stock, shelf: Shelf, more: u32) -> Result<(), AllocError>
    requires { unwrap_or (get ⟦<Shelf as Ord>⟧.cmp stock.old shelf) 0 + more ≤ u32.MAX }
    ensures there { OnOk result (get ⟦<Shelf as Ord>⟧.cmp stock.new shelf
        ≡ Some (unwrap_or (get ⟦<Shelf as Ord>⟧.cmp stock.old shelf) 0 + more)) }
    ensures others { OnOk result ((other : _) → is_eq (⟦<Shelf as Ord>⟧.cmp other shelf) ≡ false
        → get ⟦<Shelf as Ord>⟧.cmp stock.new other ≡ get ⟦<Shelf as Ord>⟧.cmp stock.old other) }
{
    stock.keys_ascend();
    *stock.entry(shelf).or_insert(0)? += more;
    Ok(())
}

/// Splits off the shelves from one on. Those before it stay.
pub fn split_from(stock: &mut Stock, alloc: Global, shelf: &Shelf) -> Result<Stock, AllocError>
    ensures before { OnOk result (All (λ other. ⟦<Shelf as Ord>⟧.cmp other shelf.now ≡ Less) (keys stock.new)) }
    ensures from { IfOk result (λ later. All (λ other. ⟦<Shelf as Ord>⟧.cmp other shelf.now ≢ Less) (keys later)) }
    ensures stays { OnOk result ((other : _) → ⟦<Shelf as Ord>⟧.cmp other shelf.now ≡ Less
        → get ⟦<Shelf as Ord>⟧.cmp stock.new other ≡ get ⟦<Shelf as Ord>⟧.cmp stock.old other) }
    ensures gone { OnOk result ((other : _) → ⟦<Shelf as Ord>⟧.cmp other shelf.now ≢ Less
        → get ⟦<Shelf as Ord>⟧.cmp stock.new other ≡ None) }
    ensures there { IfOk result (λ later. (other : _) → ⟦<Shelf as Ord>⟧.cmp other shelf.now ≢ Less
        → get ⟦<Shelf as Ord>⟧.cmp later other ≡ get ⟦<Shelf as Ord>⟧.cmp stock.old other) }
{
    stock.split_off(alloc, shelf)
}

/// The shelf at an index, and how many are there, which a lookup finds.
pub fn shelf_at(stock: &Stock, index: usize) -> Option<(Shelf, u32)>
    ensures { IfSome result (λ p. get ⟦<Shelf as Ord>⟧.cmp stock.now p.0 ≡ Some p.1) }
{
    stock.keys_ascend();
    let (shelf, count) = stock.get_indexed(index)?;
    Some((*shelf, *count))
}

/// How many are on a shelf: no more than 100, if no shelf has more.
pub fn count_on(stock: &Stock, shelf: &Shelf) -> Option<u32>
    ensures value { result ≡ get ⟦<Shelf as Ord>⟧.cmp stock.now shelf.now }
    ensures few { All (λ n. n ≤ 100) (values stock.now) → IfSome result (λ n. n ≤ 100) }
{
    stock.get(shelf).copied()
}

/// Takes a shelf out, with what was there. It is the shelf that was meant.
pub fn take(stock: &mut Stock, shelf: &Shelf) -> Option<(Shelf, u32)>
    ensures meant { IfSome result (λ p. ⟦<Shelf as Ord>⟧.cmp p.0 shelf.now ≡ Equal) }
    ensures value { option_map (λ p. p.1) result ≡ get ⟦<Shelf as Ord>⟧.cmp stock.old shelf.now }
    ensures gone { get ⟦<Shelf as Ord>⟧.cmp stock.new shelf.now ≡ None }
{
    stock.remove_entry(shelf)
}

/// Drops the empty shelves. All others stay.
pub fn drop_empty(stock: &mut Stock)
    ensures dropped { (shelf : _) → get ⟦<Shelf as Ord>⟧.cmp stock.old shelf ≡ Some 0
        → get ⟦<Shelf as Ord>⟧.cmp stock.new shelf ≡ None }
    ensures others { (shelf : _) → get ⟦<Shelf as Ord>⟧.cmp stock.old shelf ≢ Some 0
        → get ⟦<Shelf as Ord>⟧.cmp stock.new shelf ≡ get ⟦<Shelf as Ord>⟧.cmp stock.old shelf }
{
    stock.retain(|_, count| *count != 0);
}

/// Sets how many are on a shelf, and returns how many were: the sum of all changes by the difference.
pub fn restock(stock: &mut Stock, shelf: Shelf, count: u32) -> Result<Option<u32>, AllocError>
    ensures { IfOk result (λ old. sum (values stock.new) + unwrap_or old 0 ≡ sum (values stock.old) + count) }
{
    stock.keys_ascend();
    Ok(stock.insert(shelf, count)?)
}
