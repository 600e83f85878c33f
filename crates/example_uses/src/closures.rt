//! Closures that use what is known of the values that are there, and closures that change values which are collections.
ghost use Rattle.std.specs.Prelude.{◌≡◌, ◌≢◌, ◌<◌, ◌-◌, ◌==◌, not, true, false};
ghost use Rattle.litemap.specs.Words.{[], IfSome, Some, btree_map_len, filter, get, get_by_text, keys, length, nat_cmp};
ghost use Rattle.litemap.specs.Words.{option_map};
ghost use Rattle.litemap.specs.KeptWritten.{KeepsOrDrops};
ghost use Rattle.litemap.specs.Written.{Relates};
ghost use Rattle.litemap_set.specs.Sets.{contains};

use crate::numbers::Ages;
use litemap::VecMap;
use litemap_set::VecSet;

/// The users of each object.
pub type Access = VecMap<String, VecSet<u32>>;

/// The addresses of each name.
pub type Zone = VecMap<String, Vec<u32>>;

/// Drops the ages that are 0.
pub fn drop_zero(ages: &mut Ages)
    ensures { (id : _) → (age : _) → get nat_cmp ages.new id ≡ Some age → 0 < age }
{
    ages.retain(|_, age| *age != 0);
}

/// Lowers each age by one. None is 0.
pub fn lower(ages: &mut Ages)
    requires { (id : _) → (age : _) → get nat_cmp ages.old id ≡ Some age → 0 < age }
    ensures { (id : _) → get nat_cmp ages.new id ≡ option_map (λ age. age - 1) (get nat_cmp ages.old id) }
{
    ages.update(|_, age| *age -= 1);
}

/// Keeps the ages that were above a bound a year ago. None is 0.
pub fn keep_above(ages: &mut Ages, bound: u8)
    requires { (id : _) → (age : _) → get nat_cmp ages.old id ≡ Some age → 0 < age }
    ensures { (id : _) → (age : _) → get nat_cmp ages.new id ≡ Some age → bound < age - 1 }
{
    ages.retain(move |_, age| *age - 1 > bound);
}

/// Changes each value, and returns how many there are.
pub fn change_all<K: Ord, V, F: FnMut(&K, &mut V)>(map: &mut VecMap<K, V>, f: F) -> usize
    requires { F.IsAlwaysCallable f }
    ensures keys { keys map.new ≡ keys map.old }
    ensures number { result ≡ btree_map_len map.new }
{
    map.update(f);
    map.len()
}

/// Takes a user from all objects. All other users stay.
pub fn dismiss(access: &mut Access, user: u32)
    ensures gone { (object : _) → IfSome (get_by_text access.new object)
        (λ users. contains nat_cmp users.keys user ≡ false) }
    ensures others { (object : _) → Relates (λ users left. (other : _) → other ≢ user
        → contains nat_cmp left.keys other ≡ contains nat_cmp users.keys other)
        (get_by_text access.old object) (get_by_text access.new object) }
{
    access.update(|_, users| dismiss_one(users, user));
}

// What is promised of the users of one object.
fn dismiss_one(users: &mut VecSet<u32>, user: u32)
    ensures gone { contains nat_cmp users.new.keys user ≡ false }
    ensures others { (other : _) → other ≢ user
        → contains nat_cmp users.new.keys other ≡ contains nat_cmp users.old.keys other }
{
    users.remove(&user);
}

/// Takes an address from all names. The names that have no other go.
pub fn withdraw(zone: &mut Zone, address: u32)
    ensures some { (name : _) → IfSome (get_by_text zone.new name) (λ list. 0 < length list.items) }
    ensures each { (name : _) → KeepsOrDrops (λ list left. left.items ≡ filter (λ a. not (a == address)) list.items)
        (λ list. filter (λ a. not (a == address)) list.items ≡ [])
        (get_by_text zone.old name) (get_by_text zone.new name) }
{
    zone.retain_mut(|_, list| withdraw_one(list, address));
}

// What stays of the addresses of one name, and whether the name does.
fn withdraw_one(list: &mut Vec<u32>, address: u32) -> bool
    ensures each { list.new.items ≡ filter (λ a. not (a == address)) list.old.items }
    ensures goes { result ≡ false → filter (λ a. not (a == address)) list.old.items ≡ [] }
    ensures stays { result ≡ true → 0 < length list.new.items }
{
    without(list, address);
    !list.is_empty()
}

fn without(list: &mut Vec<u32>, address: u32)
    ensures { list.new.items ≡ filter (λ a. not (a == address)) list.old.items }
{
    list.retain(|a| *a != address);
}
