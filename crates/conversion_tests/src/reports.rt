//! The report of these tests, its tables, and its documents, as texts.

use std::alloc::{AllocError, Global};

/// The metadata up to its tables.
const METADATA: &str =
    r#"{"documentInfo":{"documentType":"https://xbrl.org/2021/xbrl-csv","namespaces":{"eg":"http://example.com/eg","iso4217":"http://www.xbrl.org/2003/iso4217"},"taxonomy":["http://example.com/eg.xsd"]},"dimensions":{"entity":"eg:A1","period":"2021-01-01T00:00:00/2022-01-01T00:00:00","unit":"iso4217:EUR"},"tableTemplates":{"p":{"columns":{"cash":{"dimensions":{"concept":"eg:Cash"}},"note":{"dimensions":{"concept":"eg:Note"}}}}},"tables":{"#;

/// The types of its concepts.
pub(crate) const TYPES: &[u8] =
    b"namespace,name,type\nhttp://example.com/eg,Cash,integer\nhttp://example.com/eg,Note,text\n";

/// The prefix of each document, before its facts.
pub(crate) const HEAD: &str =
    r#"{"documentInfo":{"documentType":"https://xbrl.org/2021/xbrl-json","namespaces":{"eg":"http://example.com/eg","iso4217":"http://www.xbrl.org/2003/iso4217"},"taxonomy":["http://example.com/eg.xsd"]},"facts":{"#;

/// The end of a whole document, after its facts.
pub(crate) const TAIL: &str = "}}\n";

/// The text of a fact of the value 1, after the number of its row.
const ONE: &str =
    r#".cash":{"dimensions":{"concept":"eg:Cash","entity":"eg:A1","period":"2021-01-01T00:00:00/2022-01-01T00:00:00","unit":"iso4217:EUR"},"value":"1"}"#;

/// Adds a table to a metadata.
fn push_table(alloc: Global, text: &mut String, table: usize) -> Result<(), AllocError> {
    let comma = if table > 1 { "," } else { "" };
    let one = format!(in alloc;
        "{comma}\"t{table}\":{{\"url\":\"t{table}.csv\",\"template\":\"p\"}}"
    )?;
    text.push_str(one.as_str())
}

/// Returns the metadata of this many tables of one template: `t1`, `t2` and so on, whose names are
/// in the order of their numbers up to 9.
pub(crate) fn metadata_of(alloc: Global, tables: usize) -> Result<String, AllocError> {
    let mut text = String::from_str(alloc, METADATA)?;
    for table in 1..=tables {
        push_table(alloc, &mut text, table)?;
    }
    text.push_str("}}")?;
    Ok(text)
}

/// Adds a fact of a cash of 1 to a document.
fn push_fact(alloc: Global, text: &mut String, table: usize, row: usize) -> Result<(), AllocError> {
    let comma = if table > 1 || row > 1 { "," } else { "" };
    let fact = format!(in alloc; "{comma}\"t{table}.r_{row}{ONE}")?;
    text.push_str(fact.as_str())
}

/// Appends the facts of this many tables of this many rows.
fn push_facts(
    alloc: Global,
    text: &mut String,
    tables: usize,
    rows: usize,
) -> Result<(), AllocError> {
    for table in 1..=tables {
        for row in 1..=rows {
            push_fact(alloc, text, table, row)?;
        }
    }
    Ok(())
}

/// Returns the document of this many tables of this many rows, each with a cash of 1, with these
/// last bytes.
pub(crate) fn document_of(
    alloc: Global,
    tables: usize,
    rows: usize,
    end: &str,
) -> Result<String, AllocError> {
    let mut text = String::from_str(alloc, HEAD)?;
    push_facts(alloc, &mut text, tables, rows)?;
    text.push_str(end)?;
    Ok(text)
}

/// Returns a table of this many rows, each with a cash of 1.
pub(crate) fn file_of(alloc: Global, rows: usize) -> Result<String, AllocError> {
    let mut text = String::from_str(alloc, "cash\n")?;
    for _ in 0..rows {
        text.push_str("1\n")?;
    }
    Ok(text)
}
