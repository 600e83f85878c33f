//! What a call returned, as it is written.
ghost use Rattle.std.specs.Iterator.{IsFiniteIterable};

use crate::call::Call;
use crate::counted::{Key, Order, Value, write_code};
use litemap::LiteMap;
use litemap::store::{NoRoom, SliceStore, Store};
use std::alloc::{AllocError, Global};
use std::fmt::{self, Debug, Formatter, Write};

/// The text of what a call returned, whose memory is taken once.
#[derive(Drop)]
pub struct Answer {
    text: String,
    is_lost: bool,
}

impl Answer {
    /// An empty text, with capacity for this many bytes.
    pub fn with_capacity(alloc: Global, capacity: usize) -> Result<Self, AllocError> {
        let text = String::with_capacity(alloc, capacity)?;
        let is_lost = false;
        Ok(Answer { text, is_lost })
    }

    /// Forgets what was written.
    pub fn clear(&mut self) {
        self.text.clear();
        self.is_lost = false;
    }

    /// What was written, or `lost` if memory for it ran out.
    pub fn text(&self) -> &str {
        if self.is_lost {
            "lost"
        } else {
            self.text.as_str()
        }
    }

    fn space(&self) -> &'static str {
        if self.text.is_empty() { "" } else { " " }
    }

    /// Writes a word.
    pub fn word(&mut self, word: &str) {
        let space = self.space();
        self.is_lost |= write!(self.text, "{space}{word}").is_err();
    }

    /// Writes what `{:?}` prints.
    pub fn show<T: Debug + Drop>(&mut self, it: T) {
        let space = self.space();
        self.is_lost |= write!(self.text, "{space}{it:?}").is_err();
    }

    /// Writes the lines that `{:#?}` prints, one after the other. The call ends before they are printed.
    pub fn show_lines<T: Debug + Drop>(&mut self, call: &Call<'_>, it: T) {
        call.end();
        match format!(in call.alloc; "{it:#?}") {
            Ok(text) => {
                for line in text.lines() {
                    self.word(line);
                }
            }
            Err(_) => self.is_lost = true,
        }
    }

    /// Writes a word, and what `{:?}` prints after it.
    pub fn word_and<T: Debug + Drop>(&mut self, word: &str, it: T) {
        self.word(word);
        self.show(it);
    }

    /// Writes what may be there.
    pub fn some<T: Debug + Drop>(&mut self, it: Option<T>) {
        match it {
            Some(it) => self.show(it),
            None => self.word("none"),
        }
    }

    /// Writes a pair.
    pub fn pair<'a>(&mut self, key: &'a Key, value: &'a Value) {
        self.show(Pairs::of([(key, value)]));
    }

    /// Writes a pair that may be there.
    pub fn pair_or_none<'a>(&mut self, pair: Option<(&'a Key, &'a Value)>) {
        match pair {
            Some((key, value)) => self.pair(key, value),
            None => self.word("none"),
        }
    }

    /// Writes a pair that was removed, if there was one.
    pub fn taken(&mut self, pair: Option<(Key, Value)>) {
        self.pair_or_none(pair.as_ref().map(|(key, value)| (key, value)));
    }

    /// Writes where a key is, or would go.
    pub fn index(&mut self, index: Result<usize, usize>) {
        let (word, index) = match index {
            Ok(index) => ("ok", index),
            Err(index) => ("err", index),
        };
        self.word_and(word, index);
    }

    /// Writes that a call is done which returns nothing.
    pub fn done(&mut self, _nothing: ()) {
        self.word("ok");
    }

    /// Writes whether there was memory.
    pub fn room(&mut self, outcome: Result<(), AllocError>) {
        self.word(if outcome.is_ok() { "ok" } else { "refused" });
    }

    /// Replaces a value by what was made, and writes whether it was.
    pub fn made<T: Drop>(&mut self, place: &mut T, made: Result<T, AllocError>) {
        self.room(made.map(|made| *place = made));
    }

    /// Writes the pairs of what was made, or that it wasn't.
    pub fn pairs(&mut self, made: Result<Pairs, AllocError>) {
        match made {
            Ok(pairs) => self.show(pairs),
            Err(_) => self.word("refused"),
        }
    }

    /// Writes a pair that had no room.
    pub fn no_room(&mut self, refused: NoRoom<(Key, Value)>) {
        self.word("refused");
        self.taken(Some(refused.back));
    }
}

// How many pairs are written one by one.
const SHOWN: usize = 6;

/// Pairs as they are written: a few by themselves, and many by their number and a sum.
#[derive(Clone, Copy, Default)]
pub struct Pairs {
    order: Order,
    len: u64,
    sum: u64,
    first: [(u64, u64); SHOWN],
}

impl Pairs {
    /// Adds a key, or a value, by itself: the other one is 0.
    pub fn add_codes(&mut self, order: Order, code: u64, value: u64) {
        self.order = order;
        if let Some(slot) = self.first.get_mut((self.len % 4096) as usize) {
            if self.len < SHOWN as u64 {
                *slot = (code, value);
            }
        }
        self.len = self.len.wrapping_add(1);
        self.sum = (self.sum ^ code).wrapping_mul(STEP);
        self.sum = (self.sum ^ value).wrapping_mul(STEP);
        self.sum ^= self.sum >> 29;
    }

    /// Those that an iterator gives.
    pub fn of<'a, I: IntoIterator<Item = (&'a Key, &'a Value)>>(iter: I) -> Self
        requires { IsFiniteIterable I.into_iter_gives I.IntoIter.can_next I.IntoIter.remaining iter }
    {
        let mut pairs = Pairs::default();
        for (key, value) in iter {
            pairs.add_codes(key.order(), key.code(), value.number());
        }
        pairs
    }

    /// Those of a map.
    pub fn of_map<S: Store<Key, Value>>(map: &LiteMap<Key, Value, S>) -> Self {
        Pairs::of((0..map.len()).filter_map(|index| map.get_indexed(index)))
    }

    /// Those of a store.
    pub fn of_store<S: Store<Key, Value>>(store: &S) -> Self {
        Pairs::of((0..store.lm_len()).filter_map(|index| store.lm_get(index)))
    }

    /// Those of a slice.
    pub fn of_slice(slice: &[(Key, Value)]) -> Self {
        Pairs::of_store(&SliceStore::new(slice))
    }

    /// Whether these are as many, with the same sum.
    pub fn is_same(&self, other: &Pairs) -> bool {
        self.len == other.len && self.sum == other.sum
    }

    /// How many there are.
    pub fn len(&self) -> u64 {
        self.len
    }
}

// What the sum is multiplied by.
pub(crate) const STEP: u64 = 1_099_511_628_211;

impl Debug for Pairs {
    fn fmt<W: Write>(&self, f: &mut Formatter<W>) -> fmt::Result {
        if self.len > SHOWN as u64 {
            return write!(f, "#{}:{}", self.len, self.sum % 1_000_000_000);
        }
        if self.len == 0 {
            return f.write_str("-");
        }
        for (place, (code, value)) in self.first.iter().enumerate() {
            if (place as u64) < self.len {
                f.write_str(if place == 0 { "" } else { " " })?;
                write_code(f, self.order, *code)?;
                write!(f, ":{value}")?;
            }
        }
        Ok(())
    }
}
