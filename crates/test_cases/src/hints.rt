//! Iterators that say another number of pairs than they give, and that give none, a few or very many.
ghost use Rattle.std.specs.Iterator.{at_most};

use crate::Outcome;
use litemap::LiteMap;
use litemap::store::{Store, StoreBulkMut, StoreFromIterable};
use litemap_columns::ColumnStore;
use litemap_short::ShortStore;
use std::alloc::Global;

// Gives so many pairs: each number below, from the last one on, after its half.
#[derive(Clone, Copy)]
struct Halves {
    number: u32,
    // Not fewer than there are.
    promised: usize,
    // Whether it says the promised number as the least, and as the most.
    tells: (bool, bool),
}

impl Iterator for Halves {
    type Item = (u32, u32);

    ghost remaining = { λ s. at_most s.promised };

    fn next(&mut self) -> Option<(u32, u32)> {
        self.promised = self.promised.checked_sub(1)?;
        self.number = self.number.checked_sub(1)?;
        Some((self.number / 2, self.number))
    }

    fn size_hint(&self) -> (usize, Option<usize>) {
        let (least, most) = self.tells;
        let least = if least { self.promised } else { 0 };
        (least, most.then_some(self.promised))
    }
}

// Whether a map has each half of an even number of numbers once, with the lesser number.
fn has_last<S: Store<u32, u32>>(map: &LiteMap<u32, u32, S>, number: u32) -> bool {
    let mut is_right = map.len() == number as usize / 2;
    for half in 0..number / 2 {
        is_right &= map.get_indexed(half as usize) == Some((&half, &half.wrapping_mul(2)));
    }
    is_right
}

// Whether a map that is made of so many pairs has the last ones, and one of a greater key that is extended by them too.
fn keeps_last<S: StoreBulkMut<u32, u32, Alloc = Global> + StoreFromIterable<u32, u32>>(
    alloc: Global,
    pairs: Halves,
) -> Outcome {
    let number = pairs.number;
    let is_made = has_last::<S>(&LiteMap::from_iter(alloc, pairs)?, number);
    let mut extended: LiteMap<u32, u32, S> = LiteMap::with_capacity(alloc, 0)?;
    extended.insert(number, 7)?;
    extended.extend(alloc, pairs)?;
    let last = extended.remove(&number);
    Ok(is_made && has_last(&extended, number) && last == Some(7))
}

pub(crate) fn the_size_hint_is_no_matter(alloc: Global) -> Outcome {
    let mut is_right = true;
    for (number, promised) in [(0, 1 << 63), (2, 2), (16, 17), (1000, usize::MAX)] {
        for tells in [(false, false), (false, true), (true, false), (true, true)] {
            let pairs = Halves {
                number,
                promised,
                tells,
            };
            is_right &= keeps_last::<Vec<(u32, u32)>>(alloc, pairs)?;
            is_right &= keeps_last::<ColumnStore<u32, u32>>(alloc, pairs)?;
            is_right &= keeps_last::<ShortStore<u32, u32>>(alloc, pairs)?;
        }
    }
    let many = Halves {
        number: 1_000_000,
        promised: 1_000_000,
        tells: (false, false),
    };
    Ok(is_right && keeps_last::<Vec<(u32, u32)>>(alloc, many)?)
}
