//! Laws over the definitions of `specs/`. Each function does nothing: its contract is the law.
ghost use Rattle.name_index.specs.{IndexIsOne, WrittenIsOpened};

/// What `write_names` writes for a map is opened by `NameIndex::new` as the map's pairs, so that `to_map` makes the same map
/// again. If it is not, memory runs out, or an entry begins too far.
pub fn written_is_opened()
    ensures { WrittenIsOpened }
{}

/// Bytes are an index of one list of pairs at most. What `write_index` writes for a map is opened by `IndexedNames::open` as the
/// map's pairs, and no others.
pub fn index_is_one()
    ensures { IndexIsOne }
{}
