//! Entries of the ends of a map, and calls on entries that make a key or a value only if the key is absent.
use crate::Outcome;
use litemap::{Entry, LiteMap, TryFault, VecMap};
use std::alloc::{AllocError, Global};

fn days(alloc: Global) -> Result<VecMap<u32, &'static str>, AllocError> {
    LiteMap::from_iter(alloc, [(1, "Monday"), (3, "Wednesday"), (5, "Friday")])
}

// The first and the last entry are written and removed; an empty map has none.
pub(crate) fn ends_have_entries(alloc: Global) -> Outcome {
    let mut days = days(alloc)?;
    let Some(first) = days.first_entry() else {
        return Ok(false);
    };
    let removed = first.remove_entry() == (1, "Monday");
    let Some(mut last) = days.last_entry() else {
        return Ok(false);
    };
    let right = removed && last.insert("Fri") == "Friday";
    let left = days.as_slice() == [(3, "Wednesday"), (5, "Fri")].as_slice();
    let mut none: VecMap<u32, u32> = LiteMap::new(alloc);
    Ok(right && left && none.first_entry().is_none() && none.last_entry().is_none())
}

// A pair is written or inserted, and its entry lends and removes it.
pub(crate) fn an_entry_is_inserted(alloc: Global) -> Outcome {
    let mut is_right = true;
    for key in 0..7u32 {
        let mut days = days(alloc)?;
        let len = if days.contains_key(&key) { 3 } else { 4 };
        let mut entry = days.entry(key).insert_entry("Mon")?;
        let old = entry.insert("Tue");
        is_right &= *entry.key() == key && old == "Mon" && *entry.into_mut() == "Tue";
        is_right &= days.len() == len && days.get(&key) == Some(&"Tue");
        is_right &= days.entry(key).insert_entry("Wed")?.remove_entry() == (key, "Wed");
        is_right &= days.len() == len.wrapping_sub(1) && !days.contains_key(&key);
    }
    Ok(is_right)
}

// A vector is made once for its key.
pub(crate) fn a_vector_is_made_once(alloc: Global) -> Outcome {
    let mut lists: VecMap<u32, Vec<u32>> = LiteMap::new(alloc);
    let list = lists.entry(7).or_made_with(alloc)?;
    list.push(1)?;
    let list = lists.entry(7).or_made_with(alloc)?;
    list.push(2)?;
    let made = lists.get(&7);
    Ok(made.is_some_and(|list| list.as_slice() == [1, 2].as_slice()))
}

// A value is made only for an absent key, which a vacant entry gives back.
pub(crate) fn values_are_made_for_absent_keys(alloc: Global) -> Outcome {
    let mut squares: VecMap<u32, u32> = LiteMap::from_iter(alloc, [(1, 1), (3, 9)])?;
    let key = *squares.entry(3).key() == 3 && *squares.entry(4).key() == 4;
    let made = *squares
        .entry(6)
        .or_insert_with_key(|number| number.wrapping_mul(6))?
        == 36;
    let kept = *squares.entry(6).or_insert_with_key(|number| *number)? == 36;
    let Entry::Vacant(vacant) = squares.entry(2) else {
        return Ok(false);
    };
    let given = vacant.into_key() == 2;
    Ok(key && made && kept && given && squares.len() == 3)
}

// A value that can't be made leaves the map.
pub(crate) fn a_value_may_fail(alloc: Global) -> Outcome {
    let mut days = days(alloc)?;
    let failed = match days.entry(7).or_try_insert_with(|| Err("closed")) {
        Err(TryFault::Closure(fault)) => fault == "closed",
        _ => false,
    };
    let left = days.len() == 3 && !days.contains_key(&7);
    let made = *days
        .entry(7)
        .or_try_insert_with(|| Ok::<_, AllocError>("Sunday"))?
        == "Sunday";
    let kept = *days.entry(7).or_try_insert_with(|| Err(AllocError))? == "Sunday";
    Ok(failed && left && made && kept && days.last() == Some((&7, &"Sunday")))
}

// A key is made only if it is absent.
pub(crate) fn a_key_is_made_if_absent(alloc: Global) -> Outcome {
    let mut counts: VecMap<String, u32> = LiteMap::new(alloc);
    let mut made = 0u32;
    for word in ["to", "be", "or", "not", "to", "be"] {
        let count = counts
            .entry_by(word, || {
                made = made.wrapping_add(1);
                word.to_string(alloc)
            })?
            .or_insert(0)?;
        *count = count.wrapping_add(1);
    }
    let failed = counts.entry_by("that", || Err("closed")).is_err();
    Ok(
        made == 4
            && failed
            && counts.len() == 4
            && counts.get("be") == Some(&2)
            && counts.get("or") == Some(&1),
    )
}
