//! A call as words spell it.
use crate::counted::{Key, Order, Seen, Value};
use litemap::LiteMap;
use std::alloc::{AllocError, Global};
use std::ops::Bound;

/// A map of counted pairs.
pub type Map<S> = LiteMap<Key, Value, S>;

/// A pair of a key and a value.
pub type Pair = (Key, Value);

/// Whether a call was made: none is if its name is another one, or words are missing.
pub type Made = Option<()>;

/// A call: its name and its words, read as keys, values and numbers.
#[derive(Clone, Copy)]
pub struct Call<'w> {
    /// Where memory comes from.
    pub alloc: Global,
    /// What is counted.
    pub seen: &'w Seen,
    /// The order of the keys.
    pub order: Order,
    /// Whether requests of three sizes tell, from outside, when a call begins and ends.
    pub is_marked: bool,
    /// The name of the call.
    pub name: &'w str,
    /// The words after it.
    pub words: &'w [&'w str],
}

// The sizes of the requests that tell where a call begins, where it ends, and when all of it is dropped.
const BEGIN: usize = 1_000_003;

const END: usize = 1_000_033;

const IDLE: usize = 1_000_063;

// What a word begins with that spells room.
const ROOM: &str = "room=";

impl<'w> Call<'w> {
    /// Another call of these words, of which the first is its name. It tells nothing.
    pub fn another(&self, words: &'w [&'w str]) -> Call<'w> {
        Call {
            is_marked: false,
            name: words.first().copied().unwrap_or(""),
            words: words.get(1..).unwrap_or(&[]),
            ..*self
        }
    }

    /// Whether it is a call of a store, or sweeps one, and not of a map.
    pub fn is_of_store(&self) -> bool {
        let sweeps = self.name == "sweep";
        let name = if sweeps {
            self.word(0).unwrap_or("")
        } else {
            self.name
        };
        name.starts_with("lm_") || name == "is_sorted_store"
    }

    /// Tells that the call comes next: what was seen before it is forgotten.
    pub fn begin(&self) {
        for tally in [&self.seen.keys, &self.seen.values] {
            tally.compared.set(0);
            tally.cloned.set(0);
        }
        self.mark(BEGIN);
    }

    /// Tells that the call is over, or that what follows is no part of it.
    pub fn end(&self) {
        self.mark(END);
    }

    /// Tells that all that the call was given and left is dropped.
    pub fn idle(&self) {
        self.mark(IDLE);
    }

    fn mark(&self, size: usize) {
        if self.is_marked {
            let _ = Vec::<u8>::with_capacity(self.alloc, size);
        }
    }

    /// The word at a place, if there are so many.
    pub fn word(&self, place: usize) -> Option<&str> {
        self.words.get(place).copied()
    }

    /// The number that a word spells.
    pub fn number(&self, place: usize) -> Option<u64> {
        self.word(place)?.parse().ok()
    }

    /// The index or the length that a word spells.
    pub fn size(&self, place: usize) -> Option<usize> {
        self.word(place)?.parse().ok()
    }

    /// The key that a word spells.
    pub fn key(&self, place: usize) -> Option<Key> {
        self.key_of(self.word(place)?)
    }

    /// The key of a word.
    pub fn key_of(&self, word: &str) -> Option<Key> {
        Key::new(self.order, self.order.code(word)?, self.seen).ok()
    }

    /// The pair that two words spell.
    pub fn pair(&self, place: usize) -> Option<Pair> {
        let value = self.number(place.checked_add(1)?)?;
        Some((self.key(place)?, Value::of_number(value, self.seen).ok()?))
    }

    /// The bound that a word spells for a key: with it, without it, or none.
    pub fn bound<'k>(&self, place: usize, key: &'k Option<Key>) -> Option<Bound<&'k Key>> {
        match self.word(place)? {
            "in" => Some(Bound::Included(key.as_ref()?)),
            "out" => Some(Bound::Excluded(key.as_ref()?)),
            "-" => Some(Bound::Unbounded),
            _ => None,
        }
    }

    /// The pairs that all words spell. The call begins after them.
    pub fn given(&self) -> Option<Vec<Pair>> {
        let pairs = self.pairs(0)?;
        self.begin();
        Some(pairs)
    }

    /// The pairs that the words from an index on spell, made before the call begins: `KEY:VALUE`, or `FIRST,COUNT,STEP` for as
    /// many keys from the first on by steps, each with its index as its value. After `room=N` their vector has room for N more.
    pub fn pairs(&self, place: usize) -> Option<Vec<Pair>> {
        self.end();
        let mut pairs = Vec::new(self.alloc);
        for word in self.words.iter().skip(place) {
            self.add_word(&mut pairs, word)?;
        }
        Some(pairs)
    }

    // Adds the pairs that a word spells, or room.
    fn add_word(&self, pairs: &mut Vec<Pair>, word: &str) -> Option<()> {
        if let Some(room) = word.strip_prefix(ROOM) {
            return pairs.reserve(room.parse().ok()?).ok();
        }
        match word.split_once(':') {
            Some((key, value)) => {
                let (code, value) = (self.order.code(key)?, value.parse().ok()?);
                self.add(pairs, code, value).ok()
            }
            None => self.add_series(pairs, word),
        }
    }

    /// The room that the last word spells, or none.
    pub fn room(&self) -> usize {
        let word = self.words.last().copied().unwrap_or("");
        let room = word.strip_prefix(ROOM).unwrap_or("");
        room.parse().unwrap_or(0)
    }

    fn add(&self, pairs: &mut Vec<Pair>, code: u64, value: u64) -> Result<(), AllocError> {
        let key = Key::new(self.order, code, self.seen)?;
        pairs.push((key, Value::of_number(value, self.seen)?))?;
        Ok(())
    }

    // Adds those of three numbers, the last one perhaps below 0.
    fn add_series(&self, pairs: &mut Vec<Pair>, word: &str) -> Option<()> {
        let (first, rest) = word.split_once(',')?;
        let (count, step) = rest.split_once(',')?;
        let step = match step.strip_prefix('-') {
            Some(back) => back.parse::<u64>().ok()?.wrapping_neg(),
            None => step.parse().ok()?,
        };
        let mut code = first.parse::<u64>().ok()?;
        for value in 0..count.parse::<u64>().ok()? {
            self.add(pairs, code, value).ok()?;
            code = code.wrapping_add(step);
        }
        Some(())
    }

    /// The pair at an index, from 1 on, of those that a line begins with: `2:20`, `4:40` and so on.
    pub fn pair_at(&self, place: u64) -> Result<Pair, AllocError> {
        let key = Key::new(self.order, place.wrapping_mul(2), self.seen)?;
        Ok((key, Value::of_number(place.wrapping_mul(20), self.seen)?))
    }
}
