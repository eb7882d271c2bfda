//! The fields of a record, as texts.

ghost use Rattle.std.specs.Prelude.{◌≡◌, None, Some, IfErr, IfOk};
ghost use Rattle.std.specs.Option.{option_map};
ghost use Rattle.csv.specs.Records.{fields_of};
ghost use Rattle.oim_entries.specs.CsvFiles.{five_texts, text_field, three_texts, two_texts};
ghost use Rattle.oim_entries.specs.EntryFaults.{not_texts};
ghost use Rattle.oim_entries.specs.state.Held.{seen_texts, seen_three, seen_two};

use crate::entry_fault::{EntryFault, EntryProblem};
use csv::ByteRecord;

/// The texts of a record of a types table.
#[derive(Clone, Copy)]
pub(crate) struct TypeRecord<'a> {
    pub(crate) uri: &'a str,
    pub(crate) local: &'a str,
    pub(crate) word: &'a str,
    pub(crate) period: &'a str,
    pub(crate) values: &'a str,
}

/// Returns the field at index `i` if it exists and is UTF-8.
fn text_at(row: &ByteRecord, i: usize) -> Option<&str>
    ensures { option_map (λ t. t.now) result ≡ text_field (fields_of row.now) i }
{
    match row.get(i) {
        Some(field) => match str::from_utf8(field) {
            Ok(text) => Some(text),
            Err(_) => None,
        },
        None => None,
    }
}

/// Returns the fields of the record with this number if they are exactly two texts, or what is
/// wrong with it.
pub(crate) fn texts_of_two(row: &ByteRecord, number: usize) -> Result<(&str, &str), EntryFault>
    ensures texts { IfOk result (λ p. two_texts (fields_of row.now) ≡ Some (seen_two p)) }
    ensures none { IfErr result (λ _. two_texts (fields_of row.now) ≡ None) }
    ensures wrong { IfErr result (λ e. e ≡ not_texts number 2 (fields_of row.now)) }
{
    if row.len() != 2 {
        return Err(EntryFault::of_whole(number, EntryProblem::CellCount));
    }
    let Some(first) = text_at(row, 0) else {
        return Err(EntryFault::in_cell(number, 0, EntryProblem::NotUtf8));
    };
    let Some(second) = text_at(row, 1) else {
        return Err(EntryFault::in_cell(number, 1, EntryProblem::NotUtf8));
    };
    Ok((first, second))
}

/// Returns the fields of the record with this number if they are exactly three texts, or what is
/// wrong with it.
pub(crate) fn texts_of_three(
    row: &ByteRecord,
    number: usize,
) -> Result<(&str, &str, &str), EntryFault>
    ensures texts { IfOk result (λ p. three_texts (fields_of row.now) ≡ Some (seen_three p)) }
    ensures none { IfErr result (λ _. three_texts (fields_of row.now) ≡ None) }
    ensures wrong { IfErr result (λ e. e ≡ not_texts number 3 (fields_of row.now)) }
{
    if row.len() != 3 {
        return Err(EntryFault::of_whole(number, EntryProblem::CellCount));
    }
    let Some(first) = text_at(row, 0) else {
        return Err(EntryFault::in_cell(number, 0, EntryProblem::NotUtf8));
    };
    let Some(second) = text_at(row, 1) else {
        return Err(EntryFault::in_cell(number, 1, EntryProblem::NotUtf8));
    };
    let Some(third) = text_at(row, 2) else {
        return Err(EntryFault::in_cell(number, 2, EntryProblem::NotUtf8));
    };
    Ok((first, second, third))
}

/// Returns the fields of the record with this number if they are exactly five texts, or what is
/// wrong with it.
pub(crate) fn texts_of_five(row: &ByteRecord, number: usize) -> Result<TypeRecord<'_>, EntryFault>
    ensures texts { IfOk result (λ t. five_texts (fields_of row.now) ≡ Some (seen_texts t)) }
    ensures none { IfErr result (λ _. five_texts (fields_of row.now) ≡ None) }
    ensures wrong { IfErr result (λ e. e ≡ not_texts number 5 (fields_of row.now)) }
{
    if row.len() != 5 {
        return Err(EntryFault::of_whole(number, EntryProblem::CellCount));
    }
    let Some(uri) = text_at(row, 0) else {
        return Err(EntryFault::in_cell(number, 0, EntryProblem::NotUtf8));
    };
    let Some(local) = text_at(row, 1) else {
        return Err(EntryFault::in_cell(number, 1, EntryProblem::NotUtf8));
    };
    let Some(word) = text_at(row, 2) else {
        return Err(EntryFault::in_cell(number, 2, EntryProblem::NotUtf8));
    };
    let Some(period) = text_at(row, 3) else {
        return Err(EntryFault::in_cell(number, 3, EntryProblem::NotUtf8));
    };
    let Some(values) = text_at(row, 4) else {
        return Err(EntryFault::in_cell(number, 4, EntryProblem::NotUtf8));
    };
    Ok(TypeRecord {
        uri,
        local,
        word,
        period,
        values,
    })
}
