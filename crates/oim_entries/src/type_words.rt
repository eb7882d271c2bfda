//! The type names of a types table, and the fields of its records.

ghost use Rattle.std.specs.Prelude.{◌≡◌, IfErr, IfOk, None, Some, []};
ghost use Rattle.std.specs.Option.{ok_or, option_and_then, option_map};
ghost use Rattle.csv.specs.Records.{fields_of};
ghost use Rattle.oim_names.specs.Lookup.{value_at};
ghost use Rattle.oim_entries.specs.CsvFiles.{three_texts};
ghost use Rattle.oim_entries.specs.EntryFaults.{not_texts};
ghost use Rattle.oim_entries.specs.TypeWords.{field_count, is_longest_header, kind_given, plain_words, table_chosen, table_named, tables_by_type, texts_in, wider_words};
ghost use Rattle.oim_entries.specs.declared.entry_fault.EntryProblem.TheVariants.{UnknownType};
ghost use Rattle.oim_entries.specs.state.Held.{seen_texts, table_in};

use crate::entry_fault::{EntryFault, EntryProblem};
use crate::fields::{TypeRecord, texts_of_five, texts_of_three};
use crate::kind_words::kind_by_cells;
use csv::ByteRecord;
use oim_cells::NumberKind;
use oim_report::Kind;

/// A set of type names with the fields of a record, chosen by the header of a types table.
#[derive(Clone, Copy)]
pub(crate) enum TypeWords {
    /// Records of three fields, with the type names under `type`.
    Plain,
    /// Records of three fields, with the type names under `type2`.
    Wider,
    /// Records of five fields, which are those under `type3`.
    Longest,
}

/// Returns the set with this name, if its records have three fields.
fn table_by_type(name: &str) -> Option<TypeWords>
    ensures { option_map table_in result ≡ value_at name.now tables_by_type }
{
    match name {
        "type" => Some(TypeWords::Plain),
        "type2" => Some(TypeWords::Wider),
        _ => None,
    }
}

/// Returns the set that a header of three texts chooses.
fn short_header(header: &ByteRecord) -> Option<TypeWords>
    ensures { option_map table_in result ≡ option_and_then table_named (three_texts (fields_of header.now)) }
{
    match texts_of_three(header, 0) {
        Ok((uri, local, table)) if uri == "namespace" && local == "name" => table_by_type(table),
        _ => None,
    }
}

/// Returns whether a header is `namespace,name,type3,period,values`.
fn is_longest_header(header: &ByteRecord) -> bool
    ensures { result ≡ is_longest_header (fields_of header.now) }
{
    match texts_of_five(header, 0) {
        Ok(texts) => {
            texts.uri == "namespace"
                && texts.local == "name"
                && texts.word == "type3"
                && texts.period == "period"
                && texts.values == "values"
        }
        Err(_) => false,
    }
}

/// Returns the kind of a type name under `type`.
fn plain_kind(word: &str) -> Option<Kind>
    ensures { result ≡ value_at word.now plain_words }
{
    match word {
        "integer" => Some(Kind::Number(NumberKind::Integer)),
        "decimal" => Some(Kind::Number(NumberKind::Decimal)),
        "double" => Some(Kind::Number(NumberKind::Double)),
        "text" => Some(Kind::Text),
        "other" => Some(Kind::Other),
        "explicit" => Some(Kind::Explicit),
        "typed" => Some(Kind::Typed),
        _ => None,
    }
}

/// Returns the kind of a type name under `type2`.
fn wider_kind(word: &str) -> Option<Kind>
    ensures { result ≡ value_at word.now wider_words }
{
    match word {
        "boolean" => Some(Kind::Boolean),
        "date" => Some(Kind::Date),
        "qname" => Some(Kind::Name),
        _ => plain_kind(word),
    }
}

/// Returns the kind of a type name, or the index of its cell.
fn by_type(kind: Option<Kind>) -> Result<Kind, (usize, EntryProblem)>
    ensures { result ≡ ok_or kind (2, UnknownType) }
{
    match kind {
        Some(kind) => Ok(kind),
        None => Err((2, EntryProblem::UnknownType)),
    }
}

/// Returns the texts of a record of three fields.
fn short_record(row: &ByteRecord, number: usize) -> Result<TypeRecord<'_>, EntryFault>
    ensures texts { IfOk result (λ t. option_map (λ p. (p.0, p.1, p.2, [], [])) (three_texts (fields_of row.now)) ≡ Some (seen_texts t)) }
    ensures none { IfErr result (λ _. three_texts (fields_of row.now) ≡ None) }
    ensures wrong { IfErr result (λ e. e ≡ not_texts number 3 (fields_of row.now)) }
{
    match texts_of_three(row, number) {
        Ok((uri, local, word)) => Ok(TypeRecord {
            uri,
            local,
            word,
            period: "",
            values: "",
        }),
        Err(fault) => Err(fault),
    }
}

impl TypeWords {
    /// Returns the set that a header chooses, or `None` if the header is bad.
    pub(crate) fn of_header(header: &ByteRecord) -> Option<TypeWords>
        ensures { option_map table_in result ≡ table_chosen (fields_of header.now) }
    {
        if let Some(words) = short_header(header) {
            return Some(words);
        }
        if is_longest_header(header) {
            Some(TypeWords::Longest)
        } else {
            None
        }
    }

    /// Returns the texts of the record with this number, or what is wrong with it.
    pub(crate) fn texts_of(
        self,
        row: &ByteRecord,
        number: usize,
    ) -> Result<TypeRecord<'_>, EntryFault>
        ensures texts { IfOk result (λ t. texts_in (table_in self) (fields_of row.now) ≡ Some (seen_texts t)) }
        ensures none { IfErr result (λ _. texts_in (table_in self) (fields_of row.now) ≡ None) }
        ensures wrong { IfErr result (λ e. e ≡ not_texts number (field_count (table_in self)) (fields_of row.now)) }
    {
        match self {
            TypeWords::Plain | TypeWords::Wider => short_record(row, number),
            TypeWords::Longest => texts_of_five(row, number),
        }
    }

    /// Returns the kind that the texts of a record give, or the index of the first bad cell after
    /// the name with what is wrong.
    pub(crate) fn kind_of(self, texts: TypeRecord<'_>) -> Result<Kind, (usize, EntryProblem)>
        ensures { result ≡ kind_given (table_in self) (seen_texts texts.entry) }
    {
        match self {
            TypeWords::Plain => by_type(plain_kind(texts.word)),
            TypeWords::Wider => by_type(wider_kind(texts.word)),
            TypeWords::Longest => kind_by_cells(texts.word, texts.period, texts.values),
        }
    }
}
