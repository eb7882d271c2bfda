//! What holds of the faults of every table.

ghost use Rattle.oim_table_faults.specs.Laws.{FirstIsOfStream, GoodAddsNothing, GoodHasNone, NoneIfNotRefused};

/// Proves that the first of a table's faults is the fault of its stream, so that a table has none
/// exactly if its stream has none.
pub fn first_fault_is_of_stream()
    ensures first { FirstIsOfStream }
    ensures none { NoneIfNotRefused }
{}

/// Proves that a row has no faults exactly if it gives facts, and that such a row adds nothing to
/// the faults of its table.
pub fn good_rows_add_nothing()
    ensures row { GoodHasNone }
    ensures table { GoodAddsNothing }
{}
