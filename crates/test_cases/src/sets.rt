//! Sets: each call, of keys that are numbers and of keys that are strings.
use crate::{Outcome, all_right};
use litemap_set::VecSet;
use std::alloc::{AllocError, Global};

fn days(alloc: Global) -> Result<VecSet<u32>, AllocError> {
    let mut days = VecSet::new(alloc);
    days.insert(5)?;
    days.insert(1)?;
    days.insert(3)?;
    Ok(days)
}

// A set has each key once, and finds it.
pub(crate) fn a_set_has_each_key_once(alloc: Global) -> Outcome {
    let mut days = days(alloc)?;
    let added = days.insert(2)? && !days.insert(3)?;
    let found = days.contains(&2) && !days.contains(&4) && days.get(&3) == Some(&3);
    let ends = days.first() == Some(&1) && days.last() == Some(&5) && days.get(&6).is_none();
    let removed = days.remove(&3) && !days.remove(&3) && !days.contains(&3);
    let left = days.len() == 3 && !days.is_empty() && days.iter().eq([1, 2, 5].iter());
    Ok(added && found && ends && removed && left)
}

// A string is found by a `&str`, and an equal one stays.
pub(crate) fn strings_are_members(alloc: Global) -> Outcome {
    let mut names = VecSet::new(alloc);
    let none = names.is_empty() && names.first().is_none() && names.last().is_none();
    let new = names.insert("b".to_string(alloc)?)? && names.insert("a".to_string(alloc)?)?;
    let old = !names.insert("b".to_string(alloc)?)?;
    let found = names.contains("a") && names.get("b").is_some() && !names.remove("c");
    Ok(none && new && old && found && names.len() == 2)
}

// Keys of an iterator and of a vector are in the set, each once.
pub(crate) fn keys_are_collected(alloc: Global) -> Outcome {
    let mut days = VecSet::from_iter(alloc, [5, 1, 3, 1])?;
    days.extend(alloc, [4, 5])?;
    days.extend(alloc, [0u32; 0])?;
    let same: VecSet<u32> = [4, 3, 5, 4, 1].into_iter().collect(alloc)?;
    let none: VecSet<u32> = VecSet::from_iter(alloc, Vec::new(alloc))?;
    let mut sum = 0u32;
    for day in &days {
        sum = sum.wrapping_add(*day);
    }
    let mut keys = same.into_iter();
    let owned = keys.len() == 4 && keys.next() == Some(1) && keys.next() == Some(3);
    Ok(sum == 13 && days.iter().eq([1, 3, 4, 5].iter()) && owned && none.is_empty())
}

// What two sets have in common, and what one lacks; also if one of them is empty.
pub(crate) fn sets_are_combined(alloc: Global) -> Outcome {
    let days = days(alloc)?;
    let weekend = VecSet::from_iter(alloc, [5, 6])?;
    let none = VecSet::new(alloc);
    let all = VecSet::from_iter(alloc, 1..7)?;
    let both = days.union(&weekend).eq([1, 3, 5, 6].iter())
        && days.intersection(&weekend).eq([5].iter())
        && weekend.union(&days).eq([1, 3, 5, 6].iter());
    let apart = days.difference(&weekend).eq([1, 3].iter())
        && weekend.difference(&days).eq([6].iter())
        && days.symmetric_difference(&weekend).eq([1, 3, 6].iter());
    let empty = days.union(&none).eq(days.iter())
        && none.union(&days).eq(days.iter())
        && days.intersection(&none).next().is_none()
        && none.difference(&days).next().is_none()
        && none.symmetric_difference(&days).eq(days.iter());
    all_right(&[
        Ok(both),
        Ok(apart),
        Ok(empty),
        Ok(are_compared(&days, &weekend, &none, &all)),
    ])
}

fn are_compared(
    days: &VecSet<u32>,
    weekend: &VecSet<u32>,
    none: &VecSet<u32>,
    all: &VecSet<u32>,
) -> bool {
    days.is_subset(all)
        && !days.is_subset(weekend)
        && all.is_superset(weekend)
        && !weekend.is_superset(all)
        && !days.is_disjoint(weekend)
        && none.is_disjoint(days)
        && none.is_subset(none)
}

// Sets are cloned and compared by their keys; some keys are kept, and those of another set are moved into one.
pub(crate) fn sets_are_values(alloc: Global) -> Outcome {
    let mut days = days(alloc)?;
    let copy = days.clone()?;
    let mut more = VecSet::from_iter(alloc, [6, 5])?;
    days.append(alloc, &mut more)?;
    let merged = days.iter().eq([1, 3, 5, 6].iter()) && more.is_empty() && copy < days;
    days.retain(|day| *day < 6);
    let kept = days == copy && days.cmp(&copy).is_eq();
    days.append(alloc, &mut more)?;
    more.append(alloc, &mut days)?;
    Ok(merged && kept && more == copy && days.is_empty())
}
