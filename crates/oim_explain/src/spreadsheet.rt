//! Errors that a spreadsheet leaves in a cell instead of a value.

use oim_cells::trimmed;

/// What is wrong with such a cell.
pub(crate) const SPREADSHEET_ERROR: &str =
    "this is an error of the spreadsheet, not a value: mend the cell's formula";

/// The errors that begin with one `#`, in English, German and French.
const ERRORS: &[&str] = &[
    "#N/A", "#REF!", "#VALUE!", "#DIV/0!", "#NAME?", "#NUM!", "#NULL!", "#SPILL!", "#CALC!", "#NV",
    "#BEZUG!", "#WERT!", "#ZAHL!", "#VALEUR!", "#NOM?", "#NOMBRE!", "#NUL!",
];

/// Returns whether a text is only `#`, as where a column is too narrow for a number.
fn is_too_narrow(text: &str) -> bool {
    for c in text.chars() {
        if c != '#' {
            return false;
        }
    }
    !text.is_empty()
}

/// Returns whether a cell has an error of a spreadsheet.
pub(crate) fn is_spreadsheet_error(cell: &str) -> bool {
    let text = trimmed(cell);
    for error in ERRORS {
        if text == *error {
            return true;
        }
    }
    is_too_narrow(text)
}
