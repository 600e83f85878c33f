//! A configuration: settings by their names, where a user's go over the defaults.
//! Each is a list in which a name may stand more than once: its last value counts. What a user sets wins, and no default is
//! lost, as the contracts say.
ghost use Rattle.std.specs.Prelude.{◌≡◌, if◌then◌else◌};
ghost use Rattle.litemap.specs.Words.{IfErr, IfOk, IfSome, IsNone, IsSome, IsUnchanged, None, OnErr, OnOk, Some, get};
ghost use Rattle.litemap.specs.Words.{get_by_text, is_some, option_or, reverse, string_cmp, value_at};

use litemap::store::NoRoom;
use litemap::{LiteMap, VecMap};
use std::alloc::{AllocError, Global};

/// Settings that own their strings.
pub type Settings = VecMap<String, String>;

/// The settings of a program: its defaults, and over them those of a user. Of each name the last value counts, as
/// in the two lists read backwards.
pub fn configured(
    alloc: Global,
    defaults: Vec<(String, String)>,
    user: Vec<(String, String)>,
) -> Result<Settings, AllocError>
    // A user's setting wins.
    ensures user { IfOk result (λ settings. (name value : _)
        → value_at string_cmp (reverse user.items) name ≡ Some value
        → get string_cmp settings name ≡ Some value) }
    // No default is lost.
    ensures defaults { IfOk result (λ settings. (name : _)
        → value_at string_cmp (reverse user.items) name ≡ None
        → get string_cmp settings name ≡ value_at string_cmp (reverse defaults.items) name) }
{
    let mut settings = LiteMap::from_iter(alloc, defaults)?;
    settings.extend(alloc, user)?;
    Ok(settings)
}

/// Puts more settings over those that are there, or leaves all as they are if memory runs out.
pub fn override_with(
    settings: &mut Settings,
    alloc: Global,
    user: Vec<(String, String)>,
) -> Result<(), AllocError>
    // The last setting of the user if there is one, else the one that was there.
    ensures found { OnOk result ((name : _) → get string_cmp settings.new name
        ≡ option_or (value_at string_cmp (reverse user.items) name) (get string_cmp settings.old name)) }
    ensures unchanged { OnErr result (IsUnchanged settings.old settings.new) }
{
    settings.keys_ascend();
    settings.extend_from_vec(alloc, user)?;
    Ok(())
}

/// Puts a user's settings over those that are there, and returns what they displace: of each name that both have, the old
/// value. If memory runs out, both are as they were, and the user's come back.
pub fn overlay(
    settings: &mut Settings,
    alloc: Global,
    user: Settings,
) -> Result<Option<Settings>, NoRoom<Settings>>
    // The user's setting if there is one, else the one that was there.
    ensures found { OnOk result ((name : _) → get_by_text settings.new name
        ≡ option_or (get_by_text user name) (get_by_text settings.old name)) }
    // What is displaced: the old setting if the user has one, else nothing.
    ensures displaced { IfOk result (λ rest. IfSome rest (λ old. (name : _) → get_by_text old name
        ≡ if is_some (get_by_text user name) then get_by_text settings.old name else None)) }
    // If nothing is displaced, the user has no setting that was there.
    ensures none_common { IfOk result (λ rest. IsNone rest → (name : _) → IsSome (get_by_text user name)
        → get_by_text settings.old name ≡ None) }
    ensures unchanged { OnErr result (IsUnchanged settings.old settings.new) }
    ensures back { IfErr result (λ refused. IsUnchanged user refused.back) }
{
    settings.extend_from_litemap(alloc, user)
}
