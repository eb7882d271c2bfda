//! What is wrong at a place of the metadata: a sentence for each case of a fault. `docs/FAULTS.md`
//! has them too.

use crate::levels::text_of;
use oim_cells::{CellMeaning, meaning};
use oim_meta::MetaFault;
use oim_names::{Text, is_identifier, is_ncname};
use serde_json::Value;

/// Returns the key that is `before` places before the last one, or the empty text.
fn key_from_end(keys: &[Text], before: usize) -> &str {
    if before < keys.len() {
        keys[keys.len() - 1 - before].as_str()
    } else {
        ""
    }
}

fn of_document(value: Option<&Value>) -> &'static str {
    match value {
        None => "this is no object with documentInfo and its documentType",
        Some(_) => "documentType is not https://xbrl.org/2021/xbrl-csv",
    }
}

fn of_namespaces(keys: &[Text], value: Option<&Value>) -> &'static str {
    if key_from_end(keys, 1) == "namespaces" {
        if is_ncname(key_from_end(keys, 0)) {
            return "the namespace of this prefix is not a text";
        }
        return "the prefix is not an NCName";
    }
    match value {
        Some(namespaces) if namespaces.is_object() => "two of the prefixes have one URI",
        _ => "namespaces is not an object",
    }
}

fn of_taxonomy(keys: &[Text], value: Option<&Value>) -> &'static str {
    if key_from_end(keys, 0) == "baseURL" {
        return "baseURL is not a text";
    }
    match value {
        Some(_) => "taxonomy is not a list of texts",
        None => "taxonomy is missing",
    }
}

fn of_links(keys: &[Text]) -> &'static str {
    if key_from_end(keys, 0) == "extends" {
        "extends is not empty: this is a filing, convert it with xbrl-filing"
    } else {
        "links is not empty: links and footnotes cannot be carried over"
    }
}

/// Returns what is wrong with a property of the wrong shape.
fn of_property(name: &str, value: Option<&Value>) -> &'static str {
    match name {
        "url" => match value {
            Some(_) =>
                "url is not a plain relative path: no empty part, no . or .., no % : ? # or backslash",
            None => "url is missing",
        },
        "columns" => match value {
            Some(_) => "columns is not an object",
            None => "columns is missing",
        },
        "template" | "rowIdColumn" => "this is not a text",
        "optional" | "comment" => "this is neither true nor false",
        "propertiesFrom" => "propertiesFrom is not a list of texts",
        _ => "this is not an object",
    }
}

/// Returns what is wrong with a part of the metadata of the wrong shape. Keys of even length lead
/// to a part, those of odd length to a property.
fn of_shape(keys: &[Text], value: Option<&Value>) -> &'static str {
    if keys.len() % 2 == 1 {
        return of_property(key_from_end(keys, 0), value);
    }
    if key_from_end(keys, 0) == "" {
        "the name of a property group is empty"
    } else {
        "this is not an object"
    }
}

fn of_template(value: Option<&Value>) -> &'static str {
    match value {
        Some(_) => "no template in tableTemplates has this name",
        None => "the table names no template, and none has the table's own name",
    }
}

fn of_column(keys: &[Text]) -> &'static str {
    if key_from_end(keys, 0) == "rowIdColumn" {
        "the template has no column of this name"
    } else {
        "not each of these names is a property group column of the template"
    }
}

/// A key that is neither core nor an explicit or typed dimension of the types table.
const UNKNOWN_DIMENSION: &str = "no explicit or typed dimension of this name is in the types table";

/// Returns what is wrong with a dimension whose value is not a reference.
fn of_literal(text: &str) -> &'static str {
    match meaning(text) {
        CellMeaning::Unknown => "this is no special value; a text that begins with # has two: ##",
        CellMeaning::Nil | CellMeaning::Empty => {
            "only a typed dimension of the types table may be nil or empty"
        }
        CellMeaning::Absent | CellMeaning::Text(_) => UNKNOWN_DIMENSION,
    }
}

/// Returns what is wrong with a dimension whose value is a dollar sign and `rest`.
fn of_reference(is_core: bool, rest: &str) -> &'static str {
    if !is_core && (rest.starts_with("$") || is_identifier(rest)) {
        UNKNOWN_DIMENSION
    } else {
        "this is no reference: behind $ stands the name of a column or parameter"
    }
}

fn of_dimension(keys: &[Text], value: Option<&Value>) -> &'static str {
    let is_core = matches!(
        key_from_end(keys, 0),
        "concept" | "entity" | "period" | "unit" | "language"
    );
    let Some(text) = text_of(value) else {
        return "the value of a dimension is not a text";
    };
    match text.strip_prefix("$") {
        None => of_literal(text),
        Some(rest) => of_reference(is_core, rest),
    }
}

fn of_parameter(keys: &[Text], value: Option<&Value>) -> &'static str {
    let name = key_from_end(keys, 0);
    if name == "parameterURL" && keys.len() == 1 {
        return "parameterURL is not a plain relative path: no empty part, no . or .., no % : ? # or backslash";
    }
    if keys.len() % 2 == 1 {
        return "parameters is not an object";
    }
    if !is_identifier(name) {
        return "the name of a parameter is not an identifier";
    }
    match value {
        Some(value) if value.is_string() => "the parameters file has this name too",
        _ => "the value of a parameter is not a text",
    }
}

fn of_size(keys: &[Text]) -> &'static str {
    match key_from_end(keys, 0) {
        "tables" => "there are more than 4,096 tables",
        "columns" => "the template has more than 4,096 columns",
        _ => "the metadata has more than 67,108,864 bytes",
    }
}

/// Returns what is wrong at the place of a fault, which has this value.
pub(crate) fn cause(fault: MetaFault, keys: &[Text], value: Option<&Value>) -> &'static str {
    match fault {
        MetaFault::Syntax =>
            "this is not JSON in UTF-8, is over 127 levels deep, or a number passes a double",
        MetaFault::NotReport => of_document(value),
        MetaFault::BadNamespaces => of_namespaces(keys, value),
        MetaFault::BadTaxonomy => of_taxonomy(keys, value),
        MetaFault::Unsupported => of_links(keys),
        MetaFault::BadIdentifier =>
            "this name is not an identifier (a name without colon and point)",
        MetaFault::BadTemplate => of_shape(keys, value),
        MetaFault::ColumnKinds =>
            "a column has one of dimensions, propertyGroups and comment alone",
        MetaFault::UnknownTemplate => of_template(value),
        MetaFault::UnknownColumn => of_column(keys),
        MetaFault::BadDimension => of_dimension(keys, value),
        MetaFault::BadDecimals => "decimals is not a whole number, INF, #none or a reference",
        MetaFault::BadParameter => of_parameter(keys, value),
        MetaFault::TooLarge => of_size(keys),
        MetaFault::BadTypes | MetaFault::Memory | MetaFault::Read => fault.explanation(),
    }
}
