//! Lists of calls of a map, and what holds of each run of them.
ghost use Rattle.std.specs.Prelude.{◌≡◌, IfOk, IfErr, OnErr};
ghost use Rattle.litemap_read.specs.Laws.{SameResults};
ghost use Rattle.litemap_read.specs.Steps.{Run, Step};
ghost use Rattle.litemap_read.specs.declared.calls.Call.TheVariants.{Extend};

pub use crate::calls::{Answer, Call};
use litemap::LiteMap;
use litemap::store::{NoRoom, StoreBulkMut};
use std::alloc::Allocator;

/// Makes the calls of a list one after another, and returns what each of them returned (own).
///
/// A call that fails because memory runs out returns `NoRoom`, and the run goes on. The memory for what the calls return is
/// taken before the first one: if that fails, no call was made, and the calls are returned.
pub fn run_calls<K: Ord + Drop, V: Copy, S: StoreBulkMut<K, V>>(
    alloc: S::Alloc,
    map: &mut LiteMap<K, V, S>,
    calls: Vec<Call<K, V, S::Alloc>, S::Alloc>,
) -> Result<Vec<Answer<K, V>, S::Alloc>, NoRoom<Vec<Call<K, V, S::Alloc>, S::Alloc>>>
    ensures run { IfOk result (λ answers. Run K.cmp map.old calls.items answers.items map.new) }
    ensures back { IfErr result (λ refused. refused.back ≡ calls) }
    ensures unchanged { OnErr result (map.new ≡ map.old) }
{
    let Ok(mut answers) = Vec::with_capacity(alloc, calls.len()) else {
        return Err(NoRoom { back: calls });
    };
    for call in calls {
        answers.push_reserved(answer(alloc, map, call));
    }
    Ok(answers)
}

/// Maps with the same list return the same from the same calls and end with the same list, whatever their stores, if no call
/// fails.
pub fn same_results<K: Ord, V, A: Allocator>()
    ensures { SameResults K.cmp V A }
{}

fn answer<K: Ord + Drop, V: Copy, S: StoreBulkMut<K, V>>(
    alloc: S::Alloc,
    map: &mut LiteMap<K, V, S>,
    call: Call<K, V, S::Alloc>,
) -> Answer<K, V>
    ensures { Step K.cmp map.old call result map.new }
{
    match call {
        Call::Get(key) => Answer::Value(map.get(&key).copied()),
        Call::ValueAt(index) => Answer::Value(map.get_indexed(index).map(|(_, value)| *value)),
        Call::Contains(key) => Answer::Flag(map.contains_key(&key)),
        Call::Find(key) => Answer::Place(map.find_index(&key)),
        Call::Len => Answer::Number(map.len()),
        Call::Insert(key, value) => match map.insert(key, value) {
            Ok(old) => Answer::Value(old),
            Err(refused) => Answer::NoRoom(Some(refused.back)),
        },
        Call::TryInsert(key, value) => match map.try_insert(key, value) {
            Ok(back) => Answer::Back(back),
            Err(refused) => Answer::NoRoom(Some(refused.back)),
        },
        Call::TryAppend(key, value) => match map.try_append(key, value) {
            Ok(back) => Answer::Back(back),
            Err(refused) => Answer::NoRoom(Some(refused.back)),
        },
        Call::Remove(key) => Answer::Value(map.remove(&key)),
        Call::Extend(pairs) => extend(alloc, map, pairs),
        Call::Reserve(additional) => match map.reserve(additional) {
            Ok(()) => Answer::Done,
            Err(_) => Answer::NoRoom(None),
        },
        Call::Clear => {
            map.clear();
            Answer::Done
        }
    }
}

fn extend<K: Ord + Drop, V: Copy, S: StoreBulkMut<K, V>>(
    alloc: S::Alloc,
    map: &mut LiteMap<K, V, S>,
    pairs: Vec<(K, V), S::Alloc>,
) -> Answer<K, V>
    ensures { Step K.cmp map.old (Extend pairs) result map.new }
{
    match map.extend(alloc, pairs) {
        Ok(()) => Answer::Done,
        Err(_) => Answer::NoRoom(None),
    }
}
