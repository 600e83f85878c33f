//! Paths looked up in tables of which a map borrows the pairs: a table that is passed, and a constant one.
ghost use Rattle.std.specs.Prelude.{◌≡◌};
ghost use Rattle.litemap.specs.Words.{Rising, by_bytes, bytes_cmp, map, value_at};

use litemap::LiteMap;
use litemap::store::SliceStore;

/// Paths, and the numbers of what serves them.
pub const ROUTES: &[(&str, u8)] = &[
    ("/", 0),
    ("/about", 1),
    ("/contact", 2),
    ("/help", 3),
    ("/login", 4),
    ("/logout", 5),
    ("/search", 6),
    ("/settings", 7),
    ("/users", 8),
    ("/users/me", 9),
];

/// The number at a path. The map needs no heap.
pub fn route(path: &str) -> Option<u8>
    ensures { result ≡ value_at bytes_cmp (map (λ p. (p.0.now, p.1)) ROUTES.now) path.entry.now }
{
    number_by_bytes(ROUTES, path)
}

/// The number at a path in a sorted table, which a contract sees as the bytes of its paths, with their numbers.
pub fn number_by_bytes(table: &[(&str, u8)], path: &str) -> Option<u8>
    requires { Rising by_bytes table.now }
    ensures { result ≡ value_at bytes_cmp (map (λ p. (p.0.now, p.1)) table.entry.now) path.entry.now }
{
    number_at(table, path)
}

fn number_at(table: &[(&str, u8)], path: &str) -> Option<u8>
    requires { Rising by_bytes table.now }
    ensures { result ≡ value_at by_bytes table.entry.now path.entry }
{
    let routes = LiteMap::from_sorted_store_unchecked(SliceStore::new(table));
    routes.get(path).copied()
}
