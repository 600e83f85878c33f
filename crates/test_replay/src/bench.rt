//! A map and a store of one kind, of which lines make calls.
use crate::answer::{Answer, Pairs, STEP};
use crate::call::{Call, Made, Map};
use crate::counted::{Key, Value};
use crate::line::Line;
use crate::tested::{Tested, map_of, store_of};
use crate::{bulk, changes, copies, entries, looks, stores, walks};
use litemap::LiteMap;
use litemap::store::{Store, StoreConstEmpty};
use std::alloc::{AllocError, Global};

/// How many pairs a line begins with, and with how much room in all.
#[derive(Clone, Copy, Default)]
pub struct Start {
    /// How many pairs there are.
    pub len: u64,
    /// For how many pairs there is room, those that are there among them.
    pub capacity: usize,
}

// What was there before a call.
#[derive(Clone, Copy)]
struct Before {
    pairs: Pairs,
    keys: u32,
    values: u32,
}

/// What came of a line.
#[derive(Clone, Copy, Default)]
pub struct Outcome {
    /// Whether all was as the line says.
    pub is_right: bool,
    /// How often two keys were compared.
    pub compared: u32,
    /// Whether other keys and values were alive than those that were left.
    pub leaks: bool,
}

/// The map, and the store, as the last line left them.
#[derive(Drop)]
pub struct Bench<S: Store<Key, Value>> {
    map: Map<S>,
    store: S,
}

impl<S: StoreConstEmpty<Key, Value, Alloc = Global>> Bench<S> {
    /// Both empty.
    pub fn new(alloc: Global) -> Self {
        Bench {
            map: LiteMap::new(alloc),
            store: S::lm_empty(alloc),
        }
    }
}

impl<S: Tested> Bench<S> {
    /// Makes the map, or the store, with which a line begins, and its call. Writes what this returned and left, and compares all
    /// with what the line says.
    pub fn make(
        &mut self,
        line: &Line<'_>,
        start: Start,
        call: &Call<'_>,
        to: &mut Answer,
    ) -> Result<Outcome, AllocError> {
        let before = self.begin(line, start, call, to)?;
        let is_made = if call.name == "sweep" {
            self.sweep(call, to).is_some()
        } else {
            self.one(call, to) || S::own(&mut self.map, &self.store, call, to)
        };
        call.end();
        if !is_made {
            to.word("no call");
        }
        Ok(self.end(line, before, call, to))
    }

    // Makes the map, or the store, with which a line begins, and the calls before its own: what there is then.
    fn begin(
        &mut self,
        line: &Line<'_>,
        start: Start,
        call: &Call<'_>,
        to: &mut Answer,
    ) -> Result<Before, AllocError> {
        if line.goes_on {} else if call.is_of_store() {
            self.store = store_of(call, start.len, start.capacity)?;
        } else {
            self.map = map_of(call, start.len, start.capacity)?;
        }
        if let Some(calls) = line.set_up {
            for text in calls.split("; ") {
                let words: Vec<&str> = text.split(' ').collect(call.alloc)?;
                self.earlier(words.as_slice(), call, to);
            }
            to.clear();
        }
        let before = Before {
            pairs: self.pairs(call),
            keys: call.seen.keys.alive.get(),
            values: call.seen.values.alive.get(),
        };
        call.begin();
        Ok(before)
    }

    // Makes a call before that of a line, which tells nothing.
    fn earlier(&mut self, words: &[&str], call: &Call<'_>, to: &mut Answer) {
        self.one(&call.another(words), to);
    }

    // Makes a call of each key that is there and of each in a gap, after which the list is put back. The answer is a sum of all
    // answers; the comparisons are those of the call that made the most.
    fn sweep(&mut self, call: &Call<'_>, to: &mut Answer) -> Made {
        let (mut most, mut sum) = (0u32, 0u64);
        for code in 1..self.pairs(call).len().wrapping_mul(2).wrapping_add(2) {
            most = most.max(self.sweep_key(call, code, to)?);
            sum = summed(sum, to.text());
        }
        to.clear();
        to.word_and("swept", sum % 1_000_000_000);
        call.seen.keys.compared.set(most);
        Some(())
    }

    // Makes a call of a key: how often it compares.
    fn sweep_key(&mut self, call: &Call<'_>, code: u64, to: &mut Answer) -> Option<u32> {
        let text = format!(in call.alloc; "{code}").ok()?;
        let words = [call.word(0)?, text.as_str(), call.word(1).unwrap_or("")];
        self.sweep_one(&call.another(&words), to)
    }

    // Makes a call of a key, and puts back what the map had of it: how often it compares.
    fn sweep_one(&mut self, call: &Call<'_>, to: &mut Answer) -> Option<u32> {
        let key = call.key(0)?;
        let old = self.map.get(&key).map(Value::number);
        to.clear();
        call.seen.keys.compared.set(0);
        if !self.one(call, to) {
            return None;
        }
        let compared = call.seen.keys.compared.get();
        if !call.is_of_store() {
            self.put_back(key, old, call, to)?;
        }
        Some(compared)
    }

    // Writes what there is of a key after a call, and puts back what there was before.
    fn put_back(&mut self, key: Key, old: Option<u64>, call: &Call<'_>, to: &mut Answer) -> Made {
        to.some(self.map.get(&key));
        to.show(self.map.len());
        match old {
            Some(number) => {
                let value = Value::of_number(number, call.seen).ok()?;
                self.map.insert(key, value).ok()?;
            }
            None => {
                self.map.remove(&key);
            }
        }
        Some(())
    }

    fn one(&mut self, call: &Call<'_>, to: &mut Answer) -> bool {
        if call.is_of_store() {
            stores::call(&mut self.store, call, to)
        } else {
            call_of_map(&mut self.map, call, to)
        }
    }

    // Writes what a line leaves after what it returned, and compares all with what it says.
    fn end(
        &mut self,
        line: &Line<'_>,
        before: Before,
        call: &Call<'_>,
        to: &mut Answer,
    ) -> Outcome {
        let compared = call.seen.keys.compared.get();
        let most = compared.max(call.seen.values.compared.get());
        let after = self.pairs(call);
        to.word("|");
        if before.pairs.is_same(&after) {
            to.word("same");
        } else {
            to.show(after);
        }
        let more = after.len().wrapping_sub(before.pairs.len());
        let keys = (call.seen.keys.alive.get() as u64).wrapping_sub(before.keys as u64);
        let values = (call.seen.values.alive.get() as u64).wrapping_sub(before.values as u64);
        // The value that `or_default` makes is not counted.
        let leaks = keys != more || (values != more && call.name != "or_default");
        if call.is_marked {
            *self = Bench::new(call.alloc);
            call.idle();
        }
        Outcome {
            is_right: to.text() == line.wanted && most <= line.most.unwrap_or(u32::MAX) && !leaks,
            compared,
            leaks,
        }
    }

    fn pairs(&self, call: &Call<'_>) -> Pairs {
        if call.is_of_store() {
            Pairs::of_store(&self.store)
        } else {
            Pairs::of_map(&self.map)
        }
    }
}

// A sum, with the bytes of a text put to it.
fn summed(sum: u64, text: &str) -> u64 {
    let mut sum = sum;
    for byte in text.bytes() {
        sum = (sum ^ byte as u64).wrapping_mul(STEP);
        sum ^= sum >> 29;
    }
    sum
}

// Makes a call of a map that every store has, but for walks that lend, if the name is one.
fn call_of_map<S: Tested>(map: &mut Map<S>, call: &Call<'_>, to: &mut Answer) -> bool {
    looks::look(map, call, to)
        || changes::change(map, call, to)
        || entries::enter(map, call, to)
        || copies::copy(map, call, to).is_some()
        || walks::taken(map, call, to).is_some()
        || bulk::gather(map, call, to)
        || copies::compare(map, call, to).is_some()
}
