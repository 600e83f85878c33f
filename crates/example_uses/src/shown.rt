//! What the callers return, a line or a few for each. No function here promises what lookups find, so none needs those lemmas.
#![tactic(auto)]

ghost use Rattle.std.specs.Prelude.{◌≡◌};

use crate::arenas::{self, Bounded, Cache};
use crate::bag::Bag;
use crate::calendar::{self, Calendar};
use crate::closures::{self, Access, Zone};
use crate::collection::{self, Config};
use crate::counting::{self, Names};
use crate::groups::grouped;
use crate::headers::{self, Borrowed, Headers};
use crate::levels::Levels;
use crate::made::value_or_made;
use crate::message::{Field, read_headers};
use crate::names::route;
use crate::numbers::{self, Ages, Readings};
use crate::people::{self, Person, kept_for};
use crate::sets::{self, Set};
use crate::shelves::{self, Shelf, Stock};
use crate::stores::{moved, total};
use crate::sums::{self, Balances, Named, Vector};
use crate::texts::{self, ByteNumbers, Numbers};
use crate::words::{self, Counts};
use crate::{config, keywords, parts, reserved, scores, trees, visits};
use bumpalo::Bump;
use linked_list_allocator::LocalHeap;
use litemap::{LiteMap, TryFault, VecMap};
use litemap_columns::ColumnMap;
use litemap_set::VecSet;
use std::alloc::{AllocError, Allocator, Global};
use std::io;

pub(crate) fn show(rt: &impl Print, alloc: Global) -> anyhow::Result<()> {
    show_ages(rt, alloc)?;
    show_shelves(rt, alloc)?;
    for name in ["", "one", "ones", "two"] {
        show_name(rt, alloc, name)?;
    }
    show_found(rt, alloc)?;
    show_kept(rt, alloc)?;
    show_renamed(rt, alloc)?;
    for bytes in [[1, 2].as_slice(), &[1], &[2]] {
        show_bytes(rt, alloc, bytes)?;
    }
    show_headers(rt, alloc)?;
    show_fields(rt, alloc, "here")?;
    show_fields(rt, alloc, "")?;
    show_settings(rt, alloc)?;
    show_scores(rt, alloc)?;
    show_both(rt, alloc)?;
    show_made(rt, alloc)?;
    show_sets(rt, alloc)?;
    show_sums(rt, alloc)?;
    show_balances(rt, alloc)?;
    show_levels(rt, alloc)?;
    show_totals(rt, alloc, 98)?;
    show_totals(rt, alloc, u32::MAX)?;
    show_counts(rt, alloc)?;
    show_groups(rt, alloc)?;
    show_words(rt, alloc)?;
    show_bag(rt, alloc)?;
    show_trees(rt, alloc)?;
    show_visits(rt, alloc)?;
    show_parts(rt, alloc)?;
    show_counted(rt, alloc)?;
    show_calendar(rt, alloc)?;
    show_config(rt, alloc)?;
    show_collected(rt, alloc)?;
    show_noted(rt, alloc)?;
    show_closures(rt, alloc)?;
    show_lists(rt, alloc)?;
    show_keywords(rt, alloc)?;
    show_arena(rt, alloc)?;
    for size in [0, 64, 256, 1_024] {
        show_heap(rt, alloc, size)?;
    }
    Ok(())
}

// Pairs whose names are copied.
fn owned<V: Copy>(alloc: Global, pairs: &[(&str, V)]) -> Result<Vec<(String, V)>, AllocError> {
    let mut owned = Vec::new(alloc);
    for (name, value) in pairs {
        owned.push((name.to_string(alloc)?, *value))?;
    }
    Ok(owned)
}

// Pairs whose names and values are copied.
fn texts(alloc: Global, pairs: &[(&str, &str)]) -> Result<Vec<(String, String)>, AllocError> {
    let mut texts = Vec::new(alloc);
    for (name, value) in pairs {
        texts.push((name.to_string(alloc)?, value.to_string(alloc)?))?;
    }
    Ok(texts)
}

// Ages that are set, corrected by number and at an index, dropped below 2, and forgotten.
fn show_ages(rt: &impl Print, alloc: Global) -> io::Result<()> {
    let mut ages = Ages::new_vec(alloc);
    for (id, age) in [(3, 30), (1, 10), (2, 20), (5, 50), (4, 40)] {
        numbers::set_age(&mut ages, id, age)?;
    }
    let is_there = numbers::correct(&mut ages, 2, 21);
    let is_absent = !numbers::correct(&mut ages, 9, 9);
    numbers::correct_at(&mut ages, 0, 19);
    println!(rt; "ages {ages:?}, 2 there {is_there}, 9 absent {is_absent}")?;
    for id in [0, 3, 9] {
        let (floor, ceiling) = (numbers::floor(&ages, id), numbers::ceiling(&ages, id));
        println!(rt; "near {id}: {floor:?}, {ceiling:?}")?;
    }
    let dropped = numbers::drop_below(&mut ages, 2);
    let forgotten = numbers::forget(&mut ages, 5);
    println!(rt; "from 2 on {ages:?}, dropped {dropped}, forgotten {forgotten:?}")
}

// Readings, and a stock whose shelves are changed.
fn show_shelves(rt: &impl Print, alloc: Global) -> io::Result<()> {
    let mut readings = Readings::new_vec(alloc);
    numbers::set_reading(&mut readings, 5, 1)?;
    numbers::set_reading(&mut readings, -5, 2)?;
    let mut stock = Stock::new_vec(alloc);
    let (low, high) = (shelf(1), shelf(2));
    shelves::set(&mut stock, high, 2)?;
    shelves::set(&mut stock, low, 1)?;
    numbers::overwrite(&mut stock, &high, 20);
    let taken = numbers::take(&mut stock, &low);
    let written = stock.get(&high);
    println!(rt; "readings {readings:?}, taken {taken:?}, written {written:?}")?;
    let is_there = shelves::correct(&mut stock, &high, 3);
    let found = shelves::move_to(&mut stock, &high, low);
    let next = shelves::next_from(&stock, &shelf(0)).map(|(shelf, count)| (shelf.number, count));
    let cleared = shelves::clear(&mut stock, &low);
    println!(rt;
        "shelves corrected {is_there}, moved to {found:?}, next {next:?}, cleared {cleared:?}"
    )?;
    let replaced = shelves::restock(&mut stock, high, 4)?;
    shelves::set(&mut stock, low, 0)?;
    shelves::drop_empty(&mut stock);
    let first = shelves::shelf_at(&stock, 0).map(|(shelf, count)| (shelf.number, count));
    println!(rt;
        "restocked from {replaced:?}, first {first:?} of {} shelves",
        stock.len()
    )?;
    let on = shelves::count_on(&stock, &high);
    let from = parts::first_between(&stock, low, shelf(3)).map(|(shelf, count)| (
        shelf.number,
        count,
    ));
    let four = parts::key_with(&stock, 4).map(|shelf| shelf.number);
    let took = shelves::take(&mut stock, &high).map(|(shelf, count)| (shelf.number, count));
    println!(rt; "on it {on:?}, from 1 on {from:?}, four on {four:?}, taken {took:?}")?;
    show_parts_of_stock(rt, alloc)
}

// A stock to which more is put, a part of it, and the three that it is split into once all counts are lowered.
fn show_parts_of_stock(rt: &impl Print, alloc: Global) -> io::Result<()> {
    let mut stock = Stock::new_vec(alloc);
    let (low, high) = (shelf(1), shelf(2));
    shelves::set(&mut stock, low, 1)?;
    if stock.get(&high).is_none() {
        shelves::put_more(&mut stock, high, 5)?;
    }
    shelves::set(&mut stock, shelf(4), 7)?;
    let between = shelves::first_between(&stock, high, shelf(9)).map(|(shelf, count)| (
        shelf.number,
        count,
    ));
    parts::lower_all(&mut stock);
    let mut later = shelves::split_from(&mut stock, alloc, &high)?;
    let last = parts::split_at_key(&mut later, alloc, &shelf(3))?;
    let split = [
        (stock.len(), stock.get(&low)),
        (later.len(), later.get(&high)),
        (last.len(), last.get(&shelf(4))),
    ];
    println!(rt; "first between {between:?}, lowered and split {split:?}")
}

fn shelf(number: u8) -> Shelf
    ensures { result.number ≡ number }
{
    Shelf { number, board: -1 }
}

fn two_numbers(alloc: Global) -> Result<Numbers, AllocError> {
    map_of(alloc, &[("one", 11), ("two", 2)])
}

// A map of pairs whose names are copied.
fn map_of<V: Copy>(alloc: Global, pairs: &[(&str, V)]) -> Result<VecMap<String, V>, AllocError> {
    LiteMap::from_iter(alloc, owned(alloc, pairs)?)
}

// Whether a name is there; what is found once 7 is written there, and removed.
fn show_name(rt: &impl Print, alloc: Global, name: &str) -> io::Result<()> {
    let mut map = two_numbers(alloc)?;
    let key = name.to_string(alloc)?;
    let is_there = texts::has(&map, name);
    let is_set = texts::set_number(&mut map, name, 7);
    let taken = texts::take_key(&mut map, &key);
    texts::set_at_key(&mut map, alloc, &key, 8)?;
    println!(rt; "{name:?}: there {is_there:?}, set {is_set}, taken {taken:?}, left {map:?}")
}

// The number at a tag, or at what stands before its first `-`; and that at a path.
fn show_found(rt: &impl Print, alloc: Global) -> io::Result<()> {
    let map = two_numbers(alloc)?;
    for tag in ["one", "one-two", "two--", "-one", "ones"] {
        println!(rt; "locale {tag:?}: {:?}", texts::number_of_locale(&map, tag))?;
    }
    println!(rt; "routes {:?} {:?}", route("/about"), route("/a"))
}

// What is kept for a number.
fn show_kept(rt: &impl Print, alloc: Global) -> io::Result<()> {
    let mut people = LiteMap::new_vec(alloc);
    for (number, name, kept) in [(3, "c", 'x'), (1, "a", 'y')] {
        let name = name.to_string(alloc)?;
        people::keep_for(&mut people, Person { number, name }, kept)?;
    }
    for number in 0..4 {
        println!(rt; "kept for {number}: {:?}", kept_for(&people, number))?;
    }
    people::drop_person(&mut people, 3);
    println!(rt; "dropped 3: {:?}", kept_for(&people, 3))
}

// A number that moves to another name: to a new one, to one that is there, to its own, and one that isn't there.
fn show_renamed(rt: &impl Print, alloc: Global) -> io::Result<()> {
    let mut map = two_numbers(alloc)?;
    for (old, new) in [("one", "a"), ("two", "a"), ("a", "a"), ("two", "one")] {
        let there = texts::rename(&mut map, old, new.to_string(alloc)?);
        println!(rt; "{old} is {new}: {there}, {map:?}")?;
    }
    show_moved(rt, alloc)
}

// Numbers that move to a free name, one of them from a name that isn't there.
fn show_moved(rt: &impl Print, alloc: Global) -> io::Result<()> {
    let mut map = two_numbers(alloc)?;
    for (from, to) in [("one", "three"), ("four", "five")] {
        if !map.contains_key(to) {
            texts::move_number(&mut map, alloc, from, to)?;
        }
        println!(rt; "{from} moved to {to}: {map:?}")?;
    }
    Ok(())
}

// Whether 7 is written at bytes, and the number that is removed.
fn show_bytes(rt: &impl Print, alloc: Global, bytes: &[u8]) -> io::Result<()> {
    let mut map = ByteNumbers::new_vec(alloc);
    map.insert(Vec::from_slice(alloc, &[1_u8, 2])?, 12)?;
    let is_set = texts::set_bytes(&mut map, bytes, 7);
    let taken = texts::take_bytes(&mut map, bytes);
    println!(rt; "{bytes:?}: set {is_set}, taken {taken:?}")
}

const FIELDS: &[(&str, &str)] = &[("host", "a"), ("accept", "b"), ("host", "c")];

// Header lists that own their strings and that borrow them, a copy, and what is removed.
fn show_headers(rt: &impl Print, alloc: Global) -> io::Result<()> {
    let (mut owned, mut borrowed) = (Headers::new_vec(alloc), Borrowed::new_vec(alloc));
    set_fields(alloc, FIELDS, &mut owned, &mut borrowed)?;
    let copy = headers::copy_of(alloc, &owned)?;
    println!(rt; "headers {owned:?}, borrowed {borrowed:?}")?;
    for name in ["accept", "host", "via"] {
        let removed = headers::remove(&mut owned, name);
        let other = headers::remove_borrowed(&mut borrowed, name);
        println!(rt; "{name}: removed {removed:?} and {other:?}")?;
    }
    println!(rt; "left {owned:?} and {borrowed:?}, copy {copy:?}")
}

fn set_fields<'k>(
    alloc: Global,
    fields: &[(&'k str, &'k str)],
    owned: &mut Headers,
    borrowed: &mut Borrowed<'k>,
) -> Result<(), AllocError> {
    for (name, value) in fields {
        headers::set(owned, name.to_string(alloc)?, value.to_string(alloc)?)?;
        headers::set_borrowed(borrowed, name, value)?;
    }
    Ok(())
}

// The headers of three fields, of which the first has this name.
fn show_fields(rt: &impl Print, alloc: Global, first: &str) -> io::Result<()> {
    let (second, third) = (field("accept", "text"), field("here", "y"));
    match read_headers(alloc, &[field(first, "x"), second, third]) {
        Ok(headers) => println!(rt; "of fields {headers:?}"),
        Err(fault) => println!(rt; "of fields {fault:?}"),
    }
}

fn field<'a>(name: &'a str, value: &'a str) -> Field<'a> {
    Field { name, value }
}

// Settings of a user over the defaults, and more over those.
fn show_settings(rt: &impl Print, alloc: Global) -> anyhow::Result<()> {
    let defaults = [("port", "80"), ("host", "here"), ("log", "off")].as_slice();
    let mut settings = config::configured(alloc, texts(alloc, defaults)?, texts(alloc, FIELDS)?)?;
    println!(rt; "configured {settings:?}")?;
    let later = texts(alloc, &[("log", "on"), ("a", "b")])?;
    let later = config::configured(alloc, later, Vec::new(alloc))?;
    let displaced = config::overlay(&mut settings, alloc, later)?;
    println!(rt; "overlaid {settings:?}, displaced {displaced:?}")?;
    config::override_with(&mut settings, alloc, texts(alloc, defaults)?)?;
    Ok(println!(rt; "overridden {settings:?}")?)
}

// Scores of which one is set, many are set, and all are raised.
fn show_scores(rt: &impl Print, alloc: Global) -> io::Result<()> {
    let mut scores = LiteMap::new_vec(alloc);
    scores::set(&mut scores, "eve".to_string(alloc)?, u32::MAX)?;
    let more = owned(alloc, &[("bob", 5), ("ann", u32::MAX), ("ann", 4)])?;
    scores::set_all(&mut scores, alloc, more)?;
    scores::raise(&mut scores, 5);
    for name in ["ann", "bob", "cy"] {
        let place = scores::place_of(&scores, name);
        let score = scores::score_of(&scores, name);
        println!(rt; "score of {name}: {score:?} at {place:?}")?;
    }
    println!(rt; "scores {scores:?}")
}

// Two pairs of which one goes into a map, and one into another, between two that are there already.
fn show_both(rt: &impl Print, alloc: Global) -> io::Result<()> {
    let mut one: VecMap<u8, u8> = LiteMap::new_vec(alloc);
    let mut other = LiteMap::new_vec(alloc);
    reserved::insert_first(&mut other, 2, 6)?;
    reserved::insert_later(&mut other, 4, 10)?;
    reserved::insert_both(&mut one, &mut other, (1, 7), (3, 8))?;
    println!(rt; "both {one:?} {other:?}")
}

fn show_made(rt: &impl Print, alloc: Global) -> io::Result<()> {
    let mut map: VecMap<u32, u32> = LiteMap::from_iter(alloc, [(3, 30)])?;
    for (key, answer) in [(1, Ok(10)), (1, Err(7)), (2, Err(7))] {
        let made: Result<u32, TryFault<u32, u32, u8>> = value_or_made(&mut map, key, |_| answer);
        println!(rt; "made for {key}: {made:?}")?;
    }
    println!(rt; "made {map:?}")
}

fn show_sets(rt: &impl Print, alloc: Global) -> io::Result<()> {
    let mut set: Set = LiteMap::from_iter(alloc, [(1, ()), (3, ()), (5, ())])?;
    let other: Set = LiteMap::from_iter(alloc, [(3, ()), (5, ()), (7, ())])?;
    let before = sets::is_subset(&set, &other);
    sets::intersect(&mut set, &other);
    let after = sets::is_subset(&set, &other);
    println!(rt; "common {set:?}, a subset {before} {after}")
}

// Numbers at names to which others are added: beside them, at common names, and past the greatest number.
fn show_sums(rt: &impl Print, alloc: Global) -> io::Result<()> {
    let mut sum: Named = map_of(alloc, &[("a", 10), ("c", 30)])?;
    let others = map_of(alloc, &[("b", 5), ("c", 7), ("a", u64::MAX)])?;
    sums::add_capped(&mut sum, alloc, others)?;
    println!(rt; "sum {sum:?}")?;
    let settled = sums::settle(&mut sum, "b");
    for name in ["c", "c", "d"] {
        println!(rt;
            "30 taken from {name}: {}",
            sums::take_from(&mut sum, name, 30)
        )?;
    }
    println!(rt; "settled {settled:?}, left {sum:?}")?;
    let mut vector = Vector::new_vec(alloc);
    sums::set(&mut vector, 2, 5)?;
    println!(rt; "vector {vector:?}")
}

// Balances that are set, corrected and closed.
fn show_balances(rt: &impl Print, alloc: Global) -> io::Result<()> {
    let mut balances = Balances::new_vec(alloc);
    for (account, balance) in [(1, -7), (2, 5), (1, -4)] {
        let old = sums::set_balance(&mut balances, account, balance)?;
        println!(rt; "{account} set to {balance} from {old:?}")?;
    }
    for account in [2, 3] {
        let corrected = sums::correct(&mut balances, account, 9);
        let closed = sums::close(&mut balances, account);
        println!(rt; "{account} corrected from {corrected:?}, closed at {closed:?}")?;
    }
    let posted = [
        sums::post(&mut balances, 1, 6)?,
        sums::post(&mut balances, 1, i64::MAX)?,
    ];
    println!(rt; "posted {posted:?}, left {balances:?}")
}

// Amounts at prices that are set, added, lowered and taken away.
fn show_levels(rt: &impl Print, alloc: Global) -> io::Result<()> {
    let mut levels = Levels::new(alloc);
    levels.set(99, 5)?;
    levels.add(99, 3)?;
    let lowered = [
        levels.lower(99, 6),
        levels.lower(99, 2),
        levels.lower(98, 0),
    ];
    let cancelled = [levels.cancel(99), levels.cancel(99)];
    println!(rt; "amounts lowered {lowered:?}, cancelled {cancelled:?}")
}

// The totals of a map of two pairs, over a vector, a slice of it, and two columns that it moves to.
fn show_totals(rt: &impl Print, alloc: Global, last: u32) -> io::Result<()> {
    let map: VecMap<u8, u32> = LiteMap::from_iter(alloc, [(1, 97), (2, last)])?;
    let totals = [total(&map), total(&map.as_sliced())];
    let columns: ColumnMap<u8, u32> = moved(alloc, map)?;
    println!(rt; "totals {totals:?}, {columns:?} has {:?}", total(&columns))
}

// How often words of a list occur, and names that come one by one.
fn show_counts(rt: &impl Print, alloc: Global) -> io::Result<()> {
    let words = ["the", "map", "of", "the", "list", "of", "the", ""];
    let counts = counting::count_words(alloc, words.as_slice())?;
    println!(rt; "words {counts:?}")?;
    println!(rt; "names {:?}", counted_names(alloc)?)
}

// The numbers at two names.
fn show_groups(rt: &impl Print, alloc: Global) -> io::Result<()> {
    let mut pairs = Vec::new(alloc);
    for (name, number) in [("b", 3), ("a", 1), ("b", 2)] {
        pairs.push((name.to_string(alloc)?, number))?;
    }
    println!(rt; "groups {:?}", grouped(alloc, pairs.as_slice())?)
}

fn counted_names(alloc: Global) -> Result<Names, AllocError> {
    let mut names = Names::new_vec(alloc);
    for name in ["b", "a", "b", "", "c", "b"] {
        if names.get(name).copied().unwrap_or(0) < u32::MAX {
            counting::count_name(&mut names, name.to_string(alloc)?)?;
        }
    }
    Ok(names)
}

fn show_words(rt: &impl Print, alloc: Global) -> io::Result<()> {
    let counts = counted_words(alloc)?;
    show_over(rt, alloc, &counts)?;
    for ranked in words::top(alloc, &counts, 3)? {
        println!(rt; "top {} {}", ranked.1, ranked.0.0)?;
    }
    Ok(())
}

fn counted_words<'k>(alloc: Global) -> Result<Counts<'k>, AllocError> {
    let mut counts = Counts::new_vec(alloc);
    for word in ["b", "c", "a", "b", "c", "d"] {
        if counts.get(word).copied().unwrap_or(0) < usize::MAX {
            words::count_word(&mut counts, word)?;
        }
    }
    Ok(counts)
}

fn show_over<'k>(rt: &impl Print, alloc: Global, counts: &Counts<'k>) -> io::Result<()> {
    let mut none = Counts::new_vec(alloc);
    words::overlay(&mut none, alloc, Counts::new_vec(alloc))?;
    let over = words::words_over(alloc, counts, 1)?;
    let first = words::first_over(counts, 1);
    println!(rt; "{none:?}, over 1 {over:?}, first {first:?}")
}

fn show_bag(rt: &impl Print, alloc: Global) -> io::Result<()> {
    let mut bag: Bag<u8, Vec<(u8, usize)>> = Bag::new(alloc);
    let mut all_added = true;
    for element in [5, 3, 5, 7, 5, 7] {
        all_added &= bag.add(element).is_ok();
    }
    let removed = [bag.remove(&5), bag.remove(&3), bag.remove(&3)];
    bag.keep(2);
    let left = (bag.get(&5), bag.get(&7));
    println!(rt; "bag added {all_added}, removed {removed:?}, left {left:?}")
}

// A stock and a map, by callers that were written for std's `BTreeMap`.
fn show_trees(rt: &impl Print, alloc: Global) -> io::Result<()> {
    let mut stock = trees::Stock::new(alloc);
    let put = [stock.put(3, 30), stock.put(1, 30), stock.put(2, 20)];
    stock.renumber(3, 4)?;
    stock.take(2);
    let (left, alike) = (
        [stock.count(2), stock.count(3), stock.count(4)],
        stock.items_with(30),
    );
    println!(rt; "stock put {put:?}, left {left:?}, alike {alike}")?;
    let mut map = VecMap::new(alloc);
    let grown = (
        trees::grown(&mut map, 2),
        trees::grown(&mut map, 3),
        trees::grown(&mut map, 2),
    );
    let keys = trees::all_keys(&map, alloc)?;
    trees::kept(&mut map);
    let (two, three) = (trees::its_key(&map, 2), trees::its_key(&map, 3));
    let words = trees::words(alloc)?;
    println!(rt; "grown {grown:?}, keys {keys:?}, then {two:?}, {three:?}, {words:?}")
}

fn show_visits(rt: &impl Print, alloc: Global) -> io::Result<()> {
    let mut pages = VecMap::new(alloc);
    visits::record(&mut pages, 7, 10)?;
    visits::record(&mut pages, 5, 11)?;
    visits::record(&mut pages, 7, 12)?;
    let there = [5, 6].map(|page| visits::is_visited(&pages, page));
    let times = [visits::number_of(&pages, &7), visits::number_of(&pages, &6)];
    let forgotten = (visits::forget(&mut pages, 7), visits::forget(&mut pages, 7));
    println!(rt; "visited {there:?}, at {times:?}, forgotten {forgotten:?}, left {pages:?}")
}

fn show_calendar(rt: &impl Print, alloc: Global) -> io::Result<()> {
    let mut calendar = Calendar::new_vec(alloc);
    for date in [(2025, 2, 28), (2024, 2, 1), (2024, 3, 1), (2024, 2, 29)] {
        calendar.insert(date, "x".to_string(alloc)?)?;
    }
    println!(rt; "month {:?}", calendar::month(&calendar, 2024, 2))?;
    calendar::drop_before(&mut calendar, &(2024, 2, 29));
    println!(rt; "from then on {calendar:?}")
}

// Ages that are lowered, split, taken, and found next to a number and at an index.
fn show_parts(rt: &impl Print, alloc: Global) -> io::Result<()> {
    let mut ages: Ages = LiteMap::from_iter(alloc, [(1, 9), (2, 0), (5, 30), (7, 8)])?;
    parts::lower(&mut ages);
    let raised = parts::celebrate(&mut ages, 3)?;
    let later = parts::split_from(&mut ages, alloc, 5)?;
    println!(rt; "lowered {ages:?}, 3 raised {raised}, from 5 {later:?}")?;
    println!(rt;
        "from 2 {:?}, at 1 {:?}",
        parts::nearest_from(&ages, 2),
        parts::pair_at(&ages, 1)
    )?;
    parts::keep_below(&mut ages, 8);
    let least = parts::take_least(&mut ages);
    println!(rt; "taken {least:?}, left {ages:?}")
}

// Counts that are set, lowered, looked up in a part, and kept or dropped by names.
fn show_counted(rt: &impl Print, alloc: Global) -> io::Result<()> {
    let pairs = owned(alloc, &[("a", 1), ("b", 2), ("c", 3), ("d", 4)])?;
    let mut counts = parts::Counts::from_vec(alloc, pairs)?;
    parts::lower_counts(&mut counts);
    parts::set_count(&mut counts, "d".to_string(alloc)?, 9)?;
    parts::drop_zeros(&mut counts);
    let between = parts::count_between(&counts, "b", "d", "c");
    println!(rt;
        "counts {counts:?}, c {between:?}, at 0 {:?}",
        parts::count_at(&counts, 0)
    )?;
    let mut later = parts::split_at_name(&mut counts, alloc, "c")?;
    let other = parts::Counts::from_vec(alloc, owned(alloc, &[("b", 0), ("c", 0)])?)?;
    parts::keep_common(&mut counts, &other);
    parts::drop_common(&mut later, &other);
    let least = parts::take_least_name(&mut later);
    println!(rt; "common {counts:?}, taken {least:?}, left {later:?}")
}

// Limits that are copied, doubled up to one that has no double, removed at an index, and taken.
fn show_config(rt: &impl Print, alloc: Global) -> io::Result<()> {
    let limits = map_of(alloc, &[("a", 1), ("b", 2), ("c", u32::MAX), ("d", 4)])?;
    let config = Config { limits, days: 7 };
    let mut copy = collection::copied(&config)?;
    let doubled = collection::double_all(&mut copy.limits);
    let line = collection::take_line(&mut copy.limits, 1);
    println!(rt;
        "limits {:?}, copied {:?}, doubled {doubled:?}, taken {line:?}",
        config.limits, copy.limits
    )?;
    let limits = collection::taken(&mut copy)?;
    if limits.contains_key("a") {
        println!(rt;
            "limit of a {}, left {:?}",
            collection::limit_of(&limits, "a"),
            copy.limits
        )?;
    }
    Ok(())
}

// Pairs that are collected, and two columns whose values are capped.
fn show_collected(rt: &impl Print, alloc: Global) -> io::Result<()> {
    let map = collection::gathered(alloc, [(7, 1), (5, 2), (3, 3), (5, 4)].to_vec(alloc)?)?;
    let within = collection::number_within(&map);
    println!(rt; "collected {map:?}, within {within}")?;
    let mut columns = ColumnMap::from_iter(alloc, [(1, 9), (2, 5), (3, 0), (4, 9)])?;
    collection::cap(&mut columns, 7);
    println!(rt; "capped {columns:?}")
}

// Days that are noted, one of them twice.
fn show_noted(rt: &impl Print, alloc: Global) -> io::Result<()> {
    let mut days = VecSet::new(alloc);
    for day in [3, 1, 3] {
        let is_new = collection::note(&mut days, day)?;
        println!(rt; "{day} is new {is_new}, noted {days:?}")?;
    }
    Ok(())
}

// Ages that were above a bound a year ago, which are lowered, and then doubled.
fn show_closures(rt: &impl Print, alloc: Global) -> io::Result<()> {
    let mut ages = Ages::from_array(alloc, [(1, 0), (2, 20), (3, 22), (4, 90)])?;
    closures::drop_zero(&mut ages);
    closures::keep_above(&mut ages, 20);
    closures::drop_zero(&mut ages);
    closures::lower(&mut ages);
    print!(rt; "lowered {ages:?}, ")?;
    let number = closures::change_all(&mut ages, |_, age| *age = age.saturating_mul(2));
    println!(rt; "{number} changed {ages:?}")
}

// A user that is taken out of all objects, and an address out of all names, of which one has no other.
fn show_lists(rt: &impl Print, alloc: Global) -> io::Result<()> {
    let mut access = Access::new_vec(alloc);
    for (object, users) in [("door", [1].as_slice()), ("gate", &[1, 2])] {
        access.insert(
            object.to_string(alloc)?,
            users.iter().copied().collect(alloc)?,
        )?;
    }
    closures::dismiss(&mut access, 1);
    let mut zone = Zone::new_vec(alloc);
    zone.insert("a".to_string(alloc)?, [1, 2, 1].to_vec(alloc)?)?;
    zone.insert("b".to_string(alloc)?, [1].to_vec(alloc)?)?;
    closures::withdraw(&mut zone, 1);
    println!(rt; "access {access:?}, zone {zone:?}")
}

// The keywords of a locale that has one, to which a key that is there and another one are added.
fn show_keywords(rt: &impl Print, alloc: Global) -> io::Result<()> {
    let mut keywords = keywords::only(alloc, "nu", "thai");
    print!(rt; "keywords {keywords:?}")?;
    keywords::add(&mut keywords, "nu", "latn")?;
    keywords::add(&mut keywords, "ca", "buddhist")?;
    println!(rt; ", then {keywords:?}")
}

// Names in an arena, which has its memory back at once when they are gone, and calls of a map in it.
fn show_arena(rt: &impl Print, alloc: Global) -> anyhow::Result<()> {
    let mut bump = Bump::new(alloc);
    show_in_arena(rt, &bump)?;
    let is_reset = bump.reset().is_ok();
    Ok(println!(rt; "reset {is_reset}")?)
}

fn show_in_arena(rt: &impl Print, bump: &Bump) -> io::Result<()> {
    show_named(rt, bump)?;
    let map = arenas::made_in(bump)?;
    print!(rt; "made there {map:?}")?;
    let even = arenas::even_in(bump, map)?;
    let mut cache = Cache::new(bump);
    cache.put_all(&[(2, 20), (1, 10), (2, 21)])?;
    let cached = cache.get(2);
    println!(rt; ", even {even:?}, cached {cached:?}")
}

// Numbers by names in any allocator.
fn show_named<A: Allocator + Copy>(rt: &impl Print, alloc: A) -> io::Result<()> {
    let mut names = arenas::Names::new_vec(alloc);
    for (name, number) in [("b", 2), ("a", 1), ("b", 3)] {
        arenas::set(&mut names, alloc, name, number)?;
    }
    let (b, c) = (
        arenas::number_of(&names, "b"),
        arenas::number_of(&names, "c"),
    );
    println!(rt; "in an arena {names:?}, b and c {:?}", [b, c])
}

// As many numbers as fit into a heap of so many bytes, and what it has used then and once they are gone.
fn show_heap(rt: &impl Print, alloc: Global, size: usize) -> io::Result<()> {
    let heap = LocalHeap::new(alloc, size)?;
    let mut numbers = Bounded::new_vec(&heap);
    for key in 0..100u32 {
        if arenas::add(&mut numbers, key, 7).is_err() {
            break;
        }
    }
    let (len, last, used) = (
        numbers.len(),
        numbers.last().map(|(key, _)| *key),
        heap.used(),
    );
    drop(numbers);
    println!(rt;
        "a heap of {size} has room for {len}, the last {last:?}, used {used}, then {}",
        heap.used()
    )
}
