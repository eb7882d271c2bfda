//! Calls of `oim_cells`.

use oim_cells::{
    Accuracy, CellMeaning, NumberKind, decimals, is_boolean, meaning, split_numeral, trimmed,
};

/// A number and the places that its suffix states.
fn splits_a_numeral() -> bool {
    split_numeral(NumberKind::Decimal, "1250.5d-2") == Some(("1250.5", Some(Accuracy::Places(-2))))
}

/// Checks the other readers of a cell's text.
fn reads_cells() -> bool {
    matches!(meaning("##x"), CellMeaning::Text(_))
        && matches!(decimals("INF"), Some(Accuracy::Infinite))
        && is_boolean("true")
        && trimmed(" 7 ") == "7"
}

#[test]
fn calls_of_cells(rt: HostRuntime) {
    assert!(rt; splits_a_numeral() && reads_cells());
}
