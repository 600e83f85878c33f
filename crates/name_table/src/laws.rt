//! Laws over the definitions of `specs/`. Each function does nothing: its contract is the law.
ghost use Rattle.name_table.specs.{EachIsRead, FaultIsOne, TableHasNoFault, TableIsOne};

/// Bytes begin with one table at most, of one list of pairs and one length. They have one error at most, and none if they begin
/// with a table.
pub fn reading_is_one()
    ensures table { TableIsOne }
    ensures no_fault { TableHasNoFault }
    ensures error { FaultIsOne }
{}

/// All bytes begin with a table or have an error.
pub fn each_is_read()
    ensures { EachIsRead }
{}
