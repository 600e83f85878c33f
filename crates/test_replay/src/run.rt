//! The lines of a file, over each store.
use crate::answer::Answer;
use crate::bench::{Bench, Outcome, Start};
use crate::call::{Call, Map, Pair};
use crate::changes::rename;
use crate::counted::{Key, Order, Seen, Value};
use crate::line::{self, Line};
use crate::looks::{take_range, vector, view};
use crate::sizes::grow;
use crate::stores::text;
use crate::tested::Tested;
use crate::walks::lent;
use example_store::fixed_room::FixedRoom;
use example_store::shrinking::Shrinking;
use litemap_columns::ColumnStore;
use litemap_short::ShortStore;
use std::alloc::{AllocError, Global};
use std::io;

// How many bytes the text of what is returned takes at most.
const LONGEST: usize = 1 << 14;

impl Tested for Vec<Pair> {
    fn own(map: &mut Map<Self>, store: &Self, call: &Call<'_>, to: &mut Answer) -> bool {
        lent(map, call, to).is_some()
            || grow::<Vec<(u32, u32)>, Vec<(u32, ())>>(call, to).is_some()
            || rename(map, call, to).is_some()
            || view(map, call, to).is_some()
            || vector(map, call, to).is_some()
            || take_range(map, call, to).is_some()
            || text(store, call, to).is_some()
    }
}

impl Tested for ColumnStore<Key, Value> {
    fn own(map: &mut Map<Self>, _store: &Self, call: &Call<'_>, to: &mut Answer) -> bool {
        lent(map, call, to).is_some()
            || grow::<ColumnStore<u32, u32>, ColumnStore<u32, ()>>(call, to).is_some()
            || rename(map, call, to).is_some()
    }
}

impl Tested for ShortStore<Key, Value> {
    fn own(map: &mut Map<Self>, store: &Self, call: &Call<'_>, to: &mut Answer) -> bool {
        lent(map, call, to).is_some()
            || grow::<ShortStore<u32, u32>, ShortStore<u32, ()>>(call, to).is_some()
            || rename(map, call, to).is_some()
            || view(map, call, to).is_some()
            || text(store, call, to).is_some()
    }
}

impl Tested for FixedRoom<Key, Value> {
    fn own(map: &mut Map<Self>, _store: &Self, call: &Call<'_>, to: &mut Answer) -> bool {
        lent(map, call, to).is_some()
            || grow::<FixedRoom<u32, u32>, FixedRoom<u32, ()>>(call, to).is_some()
            || rename(map, call, to).is_some()
    }
}

impl Tested for Shrinking<Key, Value> {
    fn own(map: &mut Map<Self>, _store: &Self, call: &Call<'_>, to: &mut Answer) -> bool {
        lent(map, call, to).is_some()
            || grow::<Shrinking<u32, u32>, Shrinking<u32, ()>>(call, to).is_some()
    }
}

// The maps, and how the next lines begin.
#[derive(Drop)]
struct Replay {
    vec: Bench<Vec<Pair>>,
    columns: Bench<ColumnStore<Key, Value>>,
    short: Bench<ShortStore<Key, Value>>,
    fixed: Bench<FixedRoom<Key, Value>>,
    shrinking: Bench<Shrinking<Key, Value>>,
    order: Order,
    start: Start,
    seen: Seen,
    answer: Answer,
    made: u64,
    is_marked: bool,
}

impl Replay {
    fn new(alloc: Global, is_marked: bool) -> Result<Self, AllocError> {
        Ok(Replay {
            seen: Seen::new(alloc)?,
            answer: Answer::with_capacity(alloc, LONGEST)?,
            vec: Bench::new(alloc),
            columns: Bench::new(alloc),
            short: Bench::new(alloc),
            fixed: Bench::new(alloc),
            shrinking: Bench::new(alloc),
            order: Order::Number,
            start: Start::default(),
            made: 0,
            is_marked,
        })
    }

    // How the next lines begin, if a line says that, by three words.
    fn begin_with(&mut self, text: &str) -> Option<()> {
        let (order, rest) = text.strip_prefix("with ")?.split_once(' ')?;
        let (len, room) = rest.split_once(' ')?;
        self.order = Order::of_name(order)?;
        let capacity = len.parse::<usize>().ok()?.checked_add(room.parse().ok()?)?;
        let len = len.parse().ok()?;
        self.start = Start { len, capacity };
        Some(())
    }

    // Makes the call of a line over the store of a name.
    fn make(
        &mut self,
        store: &str,
        line: &Line<'_>,
        words: &[&str],
        alloc: Global,
    ) -> Result<Outcome, AllocError> {
        let call = Call {
            alloc,
            seen: &self.seen,
            order: self.order,
            is_marked: self.is_marked,
            name: words.first().copied().unwrap_or(""),
            words: words.get(1..).unwrap_or(&[]),
        };
        let (start, to) = (self.start, &mut self.answer);
        to.clear();
        self.made = self.made.wrapping_add(1);
        match store {
            "vec" => self.vec.make(line, start, &call, to),
            "columns" => self.columns.make(line, start, &call, to),
            "short" => self.short.make(line, start, &call, to),
            "fixed" => self.fixed.make(line, start, &call, to),
            "shrinking" => self.shrinking.make(line, start, &call, to),
            _ => Ok(Outcome::default()),
        }
    }
}

/// Makes the calls of the lines of a text, which has a name, and writes those that return something else.
pub fn lines(rt: &HostRuntime, name: &str, text: &str, is_marked: bool) -> io::Result<()> {
    each_line(rt, &mut Replay::new(rt.alloc(), is_marked)?, name, text)
}

// Makes the calls of each line, and then writes how many were made.
fn each_line(rt: &HostRuntime, replay: &mut Replay, name: &str, text: &str) -> io::Result<()> {
    let mut stores = String::new(rt.alloc());
    for (place, text) in text.lines().enumerate() {
        if let Some(names) = text.strip_prefix("on ") {
            stores = String::from_str(rt.alloc(), names)?;
            continue;
        }
        if text.is_empty() || text.starts_with('#') || replay.begin_with(text).is_some() {
            continue;
        }
        match line::parse(text) {
            Some(line) if line.goes_on && replay.is_marked => {}
            Some(line) => each_store(rt, replay, stores.as_str(), (name, place), &line)?,
            None => println!(rt; "{name}:{}: bad line", place.wrapping_add(1))?,
        }
    }
    println!(rt; "{name}: {} calls", replay.made)
}

// Makes the call of a line over each of these stores.
fn each_store(
    rt: &HostRuntime,
    replay: &mut Replay,
    stores: &str,
    (file, place): (&str, usize),
    line: &Line<'_>,
) -> io::Result<()> {
    let words: Vec<&str> = line.call.split(' ').collect(rt.alloc())?;
    for store in stores.split(' ') {
        let outcome = replay.make(store, line, &words, rt.alloc())?;
        if replay.is_marked || !outcome.is_right {
            let (number, text) = (place.wrapping_add(1), replay.answer.text());
            let leaks = if outcome.leaks { ", leaks" } else { "" };
            println!(rt;
                "{file}:{number} {store} {} = {text} | {}{leaks}",
                line.text, outcome.compared
            )?;
        }
    }
    Ok(())
}
