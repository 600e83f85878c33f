//! Walks over pairs, keys and values: so many steps from the front, and then so many from the back.
use crate::answer::{Answer, Pairs};
use crate::call::{Call, Made, Map};
use crate::counted::{Key, Order, Value};
use litemap::LiteMap;
use litemap::store::{PairIntoIter, StoreConstEmpty, StoreIntoIterator, StoreIterable};
use std::alloc::Global;
use std::mem;

// What a walk met, and whether each of its hints told exactly how many items were left.
#[derive(Clone, Copy)]
struct Met {
    pairs: Pairs,
    left: usize,
    is_exact: bool,
}

impl Met {
    fn new(left: usize) -> Self {
        Met {
            pairs: Pairs::default(),
            left,
            is_exact: true,
        }
    }

    // Adds what a step gave: a pair, a key or a value, or nothing.
    fn add(&mut self, key: Option<&Key>, value: Option<&Value>) {
        if key.is_none() && value.is_none() {
            return;
        }
        let (order, code) = key.map_or((Order::Number, 0), |key| (key.order(), key.code()));
        self.pairs
            .add_codes(order, code, value.map_or(0, |value| value.number()));
        self.left = self.left.wrapping_sub(1);
    }

    // Notes the hint after a step.
    fn hint(&mut self, hint: (usize, Option<usize>)) {
        self.is_exact &= hint == (self.left, Some(self.left));
    }

    fn show(&self, to: &mut Answer) {
        to.show(self.pairs);
        to.word(if self.is_exact { "exact" } else { "inexact" });
    }
}

// Takes steps from the front and then from the back, and adds the key and the value of each item.
macro_rules! walk {
    ($items:expr, $steps:ident, $met:ident, $item:pat => $key:expr, $value:expr) => {{
        let (front, steps) = $steps;
        let mut rest = $items;
        for step in 0..steps {
            let item = if step < front {
                rest.next()
            } else {
                rest.next_back()
            };
            if let Some($item) = item {
                $met.add($key, $value);
            }
            $met.hint(rest.size_hint());
        }
    }};
}

// How many steps there are from the front, and in all.
type Steps = (usize, usize);

fn steps(call: &Call<'_>) -> Option<Steps> {
    let (front, back) = (call.size(0)?, call.size(1)?);
    Some((front, front.saturating_add(back)))
}

fn pairs<'a, S: StoreIterable<'a, Key, Value>>(map: &'a Map<S>, steps: Steps, met: &mut Met) {
    walk!(map.iter(), steps, met, (key, value) => Some(key), Some(value));
}

fn keys<'a, S: StoreIterable<'a, Key, Value>>(map: &'a Map<S>, steps: Steps, met: &mut Met) {
    walk!(map.keys(), steps, met, key => Some(key), None);
}

fn values<'a, S: StoreIterable<'a, Key, Value>>(map: &'a Map<S>, steps: Steps, met: &mut Met) {
    walk!(map.values(), steps, met, value => None, Some(value));
}

// The keys that the words ask for, from either end, or how many are left.
fn keys_in_turns<'a, S: StoreIterable<'a, Key, Value>>(
    map: &'a Map<S>,
    call: &Call<'_>,
    to: &mut Answer,
) -> Made {
    let mut rest = map.keys();
    for word in call.words.iter() {
        match *word {
            "len" => to.show(rest.len()),
            "next" => to.some(rest.next()),
            "next_back" => to.some(rest.next_back()),
            _ => return None,
        }
    }
    Some(())
}

/// Walks over a map that lends its pairs, if the name is one of these.
#[allow(deprecated)]
pub fn lent<'a, S: StoreIterable<'a, Key, Value>>(
    map: &'a Map<S>,
    call: &Call<'_>,
    to: &mut Answer,
) -> Made {
    let mut met = Met::new(map.len());
    match call.name {
        "keys_in_turns" => return keys_in_turns(map, call, to),
        "iter" => pairs(map, steps(call)?, &mut met),
        "keys" => keys(map, steps(call)?, &mut met),
        "values" => values(map, steps(call)?, &mut met),
        "iter_keys" => met.add(map.iter_keys().next(), None),
        "iter_values" => met.add(None, map.iter_values().next()),
        "for" => {
            for (key, value) in map {
                met.add(Some(key), Some(value));
            }
        }
        _ => return None,
    }
    met.show(to);
    Some(())
}

/// `into_iter`, so many steps of it; the rest is dropped.
pub fn taken<S: StoreConstEmpty<Key, Value, Alloc = Global> + StoreIntoIterator<Key, Value>>(
    map: &mut Map<S>,
    call: &Call<'_>,
    to: &mut Answer,
) -> Made {
    if call.name != "into_iter" {
        return None;
    }
    let steps = call.size(0)?;
    let mut met = Met::new(map.len());
    let mut rest = mem::replace(map, LiteMap::new(call.alloc)).into_iter();
    for _ in 0..steps {
        if let Some((key, value)) = rest.next() {
            met.add(Some(&key), Some(&value));
        }
        met.hint(rest.size_hint());
        met.hint(rest.lm_size_hint());
    }
    met.show(to);
    Some(())
}
