//! Laws over the definitions of a run. The functions do nothing: their contracts are the laws.
ghost use Rattle.names.specs.Laws.{JsonIsTheTree, LinesAreARun};

/// What lines do, one after another, is a run of the calls that they spell.
pub fn lines_are_a_run()
    ensures { LinesAreARun }
{}

/// The reply to `json` is the compact text of the value that `to_json` makes of the map, after any lines.
pub fn json_is_the_tree()
    ensures { JsonIsTheTree }
{}
