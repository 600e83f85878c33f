//! Maps over other allocators than `Global`: in an arena, whose memory goes back at once, in a heap of a fixed size, which gets
//! full, and in a struct that is generic in its allocator. Nothing here has an attribute or a proof file.
ghost use Rattle.std.specs.Prelude.{◌≡◌, ◌≢◌};
ghost use Rattle.litemap.specs.Words.{IsErr, IsUnchanged, None, OnErr, OnOk, Some, get, get_by_text, nat_cmp, spare};

use bumpalo::Bump;
use linked_list_allocator::LocalHeap;
use litemap::{LiteMap, VecMap};
use litemap_columns::ColumnMap;
use litemap_set::VecSet;
use litemap_short::ShortMap;
use std::alloc::{AllocError, Allocator};

/// Numbers by names, both in one allocator: in an arena, `Names<&Bump>`, the bytes of the names lie there, too.
pub type Names<A> = VecMap<String<A>, u32, A>;

/// Sets the number of a name, which is copied. All others stay.
pub fn set<A: Allocator + Copy>(
    names: &mut Names<A>,
    alloc: A,
    name: &str,
    number: u32,
) -> Result<(), AllocError>
    ensures found { OnOk result (get_by_text names.new name.now ≡ Some number) }
    ensures others { OnOk result
        ((other : _) → other ≢ name.now → get_by_text names.new other ≡ get_by_text names.old other) }
    ensures unchanged { OnErr result (IsUnchanged names.old names.new) }
{
    names.insert(name.to_string(alloc)?, number)?;
    Ok(())
}

/// The number of a name.
pub fn number_of<A: Allocator>(names: &Names<A>, name: &str) -> Option<u32>
    ensures { result ≡ get_by_text names.now name.now }
{
    names.get(name).copied()
}

/// Numbers in a heap of a fixed size.
pub type Bounded<'h> = VecMap<u32, u32, &'h LocalHeap>;

/// Adds a number. It fails only for a new key, if the map has no spare capacity and the heap no memory for more: then the map
/// keeps its pairs.
pub fn add(numbers: &mut Bounded<'_>, key: u32, number: u32) -> Result<(), AllocError>
    ensures added { OnOk result (get nat_cmp numbers.new key ≡ Some number) }
    ensures unchanged { OnErr result (IsUnchanged numbers.old numbers.new) }
    ensures full { IsErr result → (get nat_cmp numbers.old key ≡ None) × (spare numbers.old ≡ 0) }
{
    numbers.insert(key, number)?;
    Ok(())
}

/// Values by their numbers, over any allocator.
#[derive(Drop)]
pub struct Cache<A: Allocator + Copy> {
    alloc: A,
    pub values: VecMap<u64, u64, A>,
}

impl<A: Allocator + Copy> Cache<A> {
    /// Returns an empty cache.
    pub fn new(alloc: A) -> Self
        ensures { (key : _) → get nat_cmp result.values key ≡ None }
    {
        Cache {
            alloc,
            values: LiteMap::new(alloc),
        }
    }

    /// Puts values in, the last one of each number. On error the cache has what it had.
    pub fn put_all(&mut self, values: &[(u64, u64)]) -> Result<(), AllocError>
        ensures unchanged { OnErr result (IsUnchanged self.old.values self.new.values) }
    {
        let values = Vec::from_slice(self.alloc, values)?;
        self.values.extend_from_vec(self.alloc, values)?;
        Ok(())
    }

    /// Returns the value of a number.
    pub fn get(&self, number: u64) -> Option<u64>
        ensures { result ≡ get nat_cmp self.now.values number }
    {
        self.values.get(&number).copied()
    }
}

/// Makes each call that gathers, sorts, merges or copies. It is given one allocator and knows of no other, and neither do the
/// stores: so a map in an arena takes nothing from the heap.
pub fn made_in<A: Allocator + Copy>(alloc: A) -> Result<VecMap<u32, u32, A>, AllocError> {
    let mut map: VecMap<u32, u32, A> = LiteMap::with_capacity(alloc, 4)?;
    map.extend(alloc, [(5, 50), (2, 20), (5, 55)])?;
    let mut more = LiteMap::from_iter(alloc, [(2, 21), (9, 90)])?;
    map.append(alloc, &mut more)?;
    map.extend_from_vec(alloc, Vec::from_array(alloc, [(1, 10), (2, 22)])?)?;
    let over = LiteMap::from_array(alloc, [(1, 11), (8, 80)])?;
    let displaced = map.extend_from_litemap(alloc, over)?;
    if let Some(displaced) = displaced {
        map.extend(alloc, displaced)?;
    }
    let later = map.split_off(alloc, &8)?;
    map.extend_with(
        alloc,
        later.clone()?,
        |_, here, new| *new = (*new).max(*here),
    )?;
    Ok(map)
}

/// The keys with even values of a map in an arena, by way of three other stores there.
pub fn even_in<'b>(
    bump: &'b Bump,
    pairs: VecMap<u32, u32, &'b Bump>,
) -> Result<VecSet<u32, &'b Bump>, AllocError> {
    let mut columns: ColumnMap<u32, u32, &'b Bump> = pairs.into_iter().collect(bump)?;
    let even = columns.extract(bump, |_, value| *value % 2 == 0)?;
    let short: ShortMap<u32, u32, &'b Bump> = even.into_iter().collect(bump)?;
    short.into_keys().collect(bump)
}
