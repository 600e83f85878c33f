//! Numbers in groups: a vector of them at each name.
#![tactic(auto, using(litemap::proofs::Loops::text_groups))]

ghost use Rattle.std.specs.Prelude.{◌≡◌, ◌≢◌, ◌++◌, ◌∷◌, bytes_eq};
ghost use Rattle.std.specs.Option.{option_map_or};
ghost use Rattle.litemap.specs.Words.{[], IfOk, OnOk, filter, get_by_text, map, string_bytes};

use litemap::{LiteMap, VecMap};
use std::alloc::{AllocError, Global};

/// Numbers at names.
pub type Groups = VecMap<String, Vec<u32>>;

/// The numbers at each name, in the order of the list.
pub fn grouped(alloc: Global, pairs: &[(String, u32)]) -> Result<Groups, AllocError>
    ensures { IfOk result (λ groups. (name : _) → option_map_or (λ group. group.items) (get_by_text groups name) []
        ≡ map (λ p. p.1) (filter (λ p. bytes_eq name (string_bytes p.0)) pairs.now)) }
{
    let mut groups = LiteMap::new_vec(alloc);
    for (name, number) in pairs {
        push(&mut groups, alloc, name.clone()?, *number)?;
    }
    Ok(groups)
}

/// Appends a number to the group of a name. All others stay.
#[tactic(auto, using(litemap::proofs::Texts::texts))]
pub fn push(groups: &mut Groups, alloc: Global, name: String, number: u32) -> Result<(), AllocError>
    ensures pushed { OnOk result (option_map_or (λ group. group.items) (get_by_text groups.new (string_bytes name)) []
        ≡ option_map_or (λ group. group.items) (get_by_text groups.old (string_bytes name)) [] ++ number ∷ []) }
    ensures others { OnOk result ((other : _) → other ≢ string_bytes name
        → get_by_text groups.new other ≡ get_by_text groups.old other) }
{
    groups.entry(name).or_made_with(alloc)?.push(number)?;
    Ok(())
}
