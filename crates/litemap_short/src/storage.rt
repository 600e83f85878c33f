//! No item, one inline, or a vector of items.
ghost use Rattle.std.specs.Prelude.{◌≡◌, ◌+◌, ◌<◌, ◌≤◌, [], ◌∷◌, length, insert, remove, slice_get, slice_index_or};
ghost use Rattle.std.specs.Prelude.{Some, IfOk, IfSome, IsOk, OnOk, OnErr};
ghost use Rattle.std.specs.Borrow.{sem};
ghost use Rattle.std.specs.List.{AllZip};
ghost use Rattle.std.specs.Map.Iter.{deref_pair};
ghost use Rattle.std.specs.Option.{option_map};
ghost use Rattle.std.specs.Vec.Iter.{into_iter_items};
ghost use Rattle.std.specs.List.{cons_option};
ghost use Rattle.litemap_store.specs.Retain.{CallableOnEach, Kept};

use litemap_store::reserved::insert_reserved;
use litemap_store::retain::is_kept;
use litemap_store::store::StoreBulkMut;
use std::alloc::{AllocError, Allocator};
use std::vec::IntoIter;
use std::{array, mem};

/// The items of a short store: none or one lies in it, more lie in a vector.
#[derive(Drop)]
pub(crate) enum Storage<T, A: Allocator> {
    Empty,
    // The empty array takes no bytes. By it a proof knows that the item has the size of one in a slice.
    Inline(T, [T; 0]),
    Heap(Vec<T, A>),
}

impl<T, A: Allocator + Copy> Storage<T, A> {
    ghost use Rattle.litemap_short.specs.Storage.{storage_items, storage_room, IsFew, IsOne};
    ghost use Rattle.litemap_short.specs.Lends.{storage_lends_item};
    ghost use Rattle.litemap_short.specs.declared.storage.Storage.TheVariants.{Empty};

    pub(crate) fn as_slice(&self) -> &[T]
        ensures { result.now ≡ storage_items self.now }
    {
        match self {
            Storage::Empty => &[],
            Storage::Inline(item, _) => array::from_ref(item).as_slice(),
            Storage::Heap(items) => items.as_slice(),
        }
    }

    // Reserves spare capacity for `additional` items. If it wasn't there, all items are in a vector then.
    pub(crate) fn reserve(&mut self, alloc: A, additional: usize) -> Result<(), AllocError>
        ensures items { storage_items self.new ≡ storage_items self.old }
        ensures room { OnOk result (additional ≤ storage_room self.new) }
        ensures room_not_lowered { storage_room self.old ≤ storage_room self.new }
        ensures full { OnErr result (storage_room self.old < additional) }
    {
        match self {
            Storage::Empty if additional <= 1 => Ok(()),
            Storage::Inline(_, _) if additional == 0 => Ok(()),
            Storage::Heap(items) => items.reserve(additional),
            _ => self.move_to_vec(alloc, additional),
        }
    }

    // Moves the item, if there is one, to a vector with spare capacity for `additional` more.
    fn move_to_vec(&mut self, alloc: A, additional: usize) -> Result<(), AllocError>
        requires few { IsFew self.old }
        requires more { storage_room self.old < additional }
        ensures items { storage_items self.new ≡ storage_items self.old }
        ensures room { OnOk result (additional ≤ storage_room self.new) }
        ensures room_not_lowered { storage_room self.old ≤ storage_room self.new }
    {
        let Some(capacity) = self.as_slice().len().checked_add(additional) else {
            return Err(AllocError);
        };
        let items = Vec::with_capacity(alloc, capacity)?;
        match mem::replace(self, Storage::Heap(items)) {
            Storage::Empty => {}
            Storage::Inline(item, []) => self.insert_reserved(0, item),
            Storage::Heap(_) => unreachable!(),
        }
        Ok(())
    }

    // Inserts an item at an index, and moves later ones up by one.
    pub(crate) fn insert_reserved(&mut self, index: usize, item: T)
        requires index { index ≤ length (storage_items self.old) }
        requires room { 0 < storage_room self.old }
        ensures items { storage_items self.new ≡ insert (storage_items self.old) index item }
        ensures room { storage_room self.old ≤ storage_room self.new + 1 }
    {
        match self {
            Storage::Empty => self.put_first(item),
            Storage::Inline(_, _) => unreachable!(),
            Storage::Heap(items) => insert_reserved(items, index, item),
        }
    }

    // Removes the item at an index, and moves later ones down by one. A vector keeps its memory.
    pub(crate) fn remove(&mut self, index: usize) -> T
        requires { index < length (storage_items self.old) }
        ensures old { slice_get (storage_items self.old) index ≡ Some result }
        ensures items { storage_items self.new ≡ remove (storage_items self.old) index }
        ensures room { storage_room self.old < storage_room self.new }
    {
        match self {
            Storage::Empty => unreachable!(),
            Storage::Inline(_, _) => self.take_one(),
            Storage::Heap(items) => items.remove(index),
        }
    }

    fn take_one(&mut self) -> T
        requires { IsOne self.old }
        ensures old { storage_items self.old ≡ result ∷ [] }
        ensures nothing { self.new ≡ Empty }
    {
        match mem::replace(self, Storage::Empty) {
            Storage::Inline(item, []) => item,
            _ => unreachable!(),
        }
    }

    pub(crate) fn item_mut(&mut self, index: usize) -> &mut T
        requires { index < length (storage_items self.old) }
        ensures* writes_back { sem 𝓛 (storage_lends_item T.row A.row A.Allocator self.entry index result) }
        ensures value { result.now ≡ slice_index_or (storage_items self.old) index result.now }
    {
        match self {
            Storage::Empty => unreachable!(),
            Storage::Inline(item, _) => item,
            Storage::Heap(items) => &mut items[index],
        }
    }

    // The items of a vector, which stays if it has two or more, and else is freed: an item need not be `Drop`, so an empty vector
    // can't just go out of scope.
    pub(crate) fn from_vec(mut items: Vec<T, A>) -> Self
        ensures { storage_items result ≡ items.items }
    {
        if items.len() > 1 {
            return Storage::Heap(items);
        }
        let one = items.pop();
        items.destroy_empty();
        match one {
            Some(item) => Storage::Inline(item, []),
            None => Storage::Empty,
        }
    }

    // The inline item, if there is one, and an iterator over those on the heap.
    pub(crate) fn into_parts(self, alloc: A) -> (Option<T>, IntoIter<T, A>)
        ensures items { cons_option result.0 (into_iter_items result.1) ≡ storage_items self }
        ensures alone { IfSome result.0 (λ _. into_iter_items result.1 ≡ []) }
    {
        match self {
            Storage::Empty => (None, Vec::new(alloc).into_iter()),
            Storage::Inline(item, []) => (Some(item), Vec::new(alloc).into_iter()),
            Storage::Heap(items) => (None, items.into_iter()),
        }
    }

    // Clones the items in order. At most one item takes no memory but its clone's.
    pub(crate) fn try_clone(&self, alloc: A) -> Result<Self, AllocError>
    where
        T: Clone,
        ensures clones { IfOk result (λ h. AllZip T.is_clone (storage_items self.now) (storage_items h)) }
        ensures succeeds { storage_items self.now ≡ [] → IsOk result }
    {
        match self.as_slice() {
            [] => Ok(Storage::Empty),
            [item] => Ok(Storage::Inline(item.clone()?, [])),
            items => Ok(Storage::Heap(Vec::from_clones(alloc, items)?)),
        }
    }

    pub(crate) fn clear(&mut self)
    where
        T: Drop,
        ensures items { storage_items self.new ≡ [] }
        ensures room { storage_room self.old + length (storage_items self.old) ≤ storage_room self.new }
    {
        match self {
            Storage::Heap(items) => items.clear(),
            _ => *self = Storage::Empty,
        }
    }

    fn put_first(&mut self, item: T)
        requires { self.old ≡ Empty }
        ensures { storage_items self.new ≡ item ∷ [] }
    {
        match mem::replace(self, Storage::Inline(item, [])) {
            Storage::Empty => {}
            _ => unreachable!(),
        }
    }
}

impl<K: Drop, V: Drop, A: Allocator + Copy> Storage<(K, V), A> {
    ghost use Rattle.litemap_short.specs.Storage.{storage_items, storage_room, IsOne};

    // Keeps the pairs for which `f` returns true. It calls `f` once on each, in order.
    pub(crate) fn retain<F: FnMut(&K, &V) -> bool>(&mut self, mut f: F)
    where
        K: Ord,
        requires { CallableOnEach F.FnMut f (storage_items self.old) }
        ensures kept { Kept F.FnMut f (storage_items self.old) (storage_items self.new) }
        ensures room { storage_room self.old + length (storage_items self.old)
            ≤ storage_room self.new + length (storage_items self.new) }
    {
        match self {
            Storage::Empty => {}
            Storage::Inline(_, _) => {
                let (key, value) = self.take_one();
                let stays = is_kept(&mut f, &key, &value);
                if stays {
                    self.put_first((key, value));
                }
            }
            Storage::Heap(items) => items.lm_retain(f),
        }
    }
}

// The pair at an index, or `None` if the index is not below the length.
pub(crate) fn pair_at<K, V>(pairs: &[(K, V)], index: usize) -> Option<(&K, &V)>
    ensures { option_map deref_pair result ≡ slice_get pairs.now index }
{
    let (key, value) = pairs.get(index)?;
    Some((key, value))
}
