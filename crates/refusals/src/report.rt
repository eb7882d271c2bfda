//! The report of these tests: its files and its document, written out.

use oim_meta::{Limits, MetaFault, Report, read_parameters, read_report, read_types};
use std::alloc::Global;

/// A metadata of two tables, in the JSON of xBRL-CSV 1.0.
pub(crate) const METADATA: &[u8] =
    br##"{"documentInfo":{"documentType":"https://xbrl.org/2021/xbrl-csv",
"namespaces":{"eg":"http://example.com/eg"},"taxonomy":["http://example.com/eg.xsd"]},
"parameterURL":"parameters.csv","parameters":{"c":"eg:Cash"},
"dimensions":{"entity":"eg:A1","period":"2021"},
"tableTemplates":{"p":{"columns":{
"cash":{"dimensions":{"concept":"$c","eg:Branch":"#nil"},"decimals":0,"propertiesFrom":["g"]},
"g":{"propertyGroups":{"x":{"dimensions":{"language":"en"}}}},
"note":{"dimensions":{"concept":"eg:Note"}}}}},
"tables":{"t1":{"url":"t1.csv","template":"p","parameters":{"d":"1"}},"t2":{"url":"t2.csv","template":"p"}}}
"##;

/// The types of its concepts and dimensions.
pub(crate) const TYPES: &[u8] =
    b"namespace,name,type\nhttp://example.com/eg,Cash,integer\nhttp://example.com/eg,Note,text\nhttp://example.com/eg,Branch,typed\n";

/// Its parameters file.
pub(crate) const PARAMETERS: &[u8] = b"name,value\ne,2\n";

/// The file of the first table: two rows.
pub(crate) const FIRST: &[u8] = b"cash,note,g\n100,first,x\n200,second,x\n";

/// The file of the second table: a row whose text is longer than those of the first table, so that
/// it needs more memory.
pub(crate) const SECOND: &[u8] =
    b"note\n\"The note of the second table is so long that the texts of its row take more memory than all of the first table, and so memory may run out here alone. It says nothing else, but it says this once more: the note of the second table is so long that the texts of its row take more memory than all of the first table.\"\n";

/// The head of its document.
pub(crate) const HEAD: &[u8] =
    br#"{"documentInfo":{"documentType":"https://xbrl.org/2021/xbrl-json","namespaces":{"eg":"http://example.com/eg"},"taxonomy":["http://example.com/eg.xsd"]},"facts":{"#;

/// Its document: the facts of the two rows of the first table, and that of the second table.
pub(crate) const DOCUMENT: &[u8] =
    br#"{"documentInfo":{"documentType":"https://xbrl.org/2021/xbrl-json","namespaces":{"eg":"http://example.com/eg"},"taxonomy":["http://example.com/eg.xsd"]},"facts":{"t1.r_1.cash":{"decimals":0,"dimensions":{"concept":"eg:Cash","eg:Branch":null,"entity":"eg:A1","period":"2021-01-01T00:00:00/2022-01-01T00:00:00"},"value":"100"},"t1.r_1.note":{"dimensions":{"concept":"eg:Note","entity":"eg:A1","period":"2021-01-01T00:00:00/2022-01-01T00:00:00"},"value":"first"},"t1.r_2.cash":{"decimals":0,"dimensions":{"concept":"eg:Cash","eg:Branch":null,"entity":"eg:A1","period":"2021-01-01T00:00:00/2022-01-01T00:00:00"},"value":"200"},"t1.r_2.note":{"dimensions":{"concept":"eg:Note","entity":"eg:A1","period":"2021-01-01T00:00:00/2022-01-01T00:00:00"},"value":"second"},"t2.r_1.note":{"dimensions":{"concept":"eg:Note","entity":"eg:A1","period":"2021-01-01T00:00:00/2022-01-01T00:00:00"},"value":"The note of the second table is so long that the texts of its row take more memory than all of the first table, and so memory may run out here alone. It says nothing else, but it says this once more: the note of the second table is so long that the texts of its row take more memory than all of the first table."}}}
"#;

/// The text after its facts.
pub(crate) const TAIL: &[u8] = b"}}\n";

/// Returns the report.
pub(crate) fn report(alloc: Global) -> Result<Report, MetaFault> {
    let types = read_types(alloc, TYPES)?;
    let parameters = read_parameters(alloc, PARAMETERS)?;
    read_report(alloc, METADATA, parameters, types, Limits::profile())
}
