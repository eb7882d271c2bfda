//! Files of a filing that are given as the metadata of a plain report.

use crate::headers::{UTF_16, is_utf_16};
use oim_meta::MetaFault;
use serde_json::Value;

/// Returns what is wrong with bytes that are not JSON, if more is known.
pub(crate) fn of_no_json(bytes: &[u8]) -> Option<&'static str> {
    if bytes.starts_with(b"PK\x03\x04") {
        return Some("this is a ZIP: if it is a filing, convert it with xbrl-filing");
    }
    if is_utf_16(bytes) {
        return Some(UTF_16);
    }
    None
}

/// Returns what is wrong with a document of another type, if that is known.
fn of_type(written: &str) -> Option<&'static str> {
    if written.starts_with("https://xbrl.org/report-package/") {
        return Some("this describes the package of a filing: convert the filing with xbrl-filing");
    }
    if written == "https://xbrl.org/2021/xbrl-json" {
        return Some(
            "this is a document in xBRL-JSON, and not the metadata of a report in xBRL-CSV",
        );
    }
    None
}

/// Returns whether a document has no taxonomy of its own, and extends another.
fn only_extends(info: &Value) -> bool {
    info.get("taxonomy").is_none() && info.get("extends").is_some()
}

/// Returns what is wrong with a metadata that has this fault and is a file of a filing, or `None`
/// if it is not one.
pub(crate) fn of_filing(metadata: &Value, fault: MetaFault) -> Option<&'static str> {
    let info = metadata.get("documentInfo")?;
    match fault {
        MetaFault::NotReport => of_type(info.get("documentType")?.as_str()?),
        MetaFault::BadTaxonomy if only_extends(info) => Some(
            "taxonomy is missing, and extends is there: convert this filing with xbrl-filing",
        ),
        _ => None,
    }
}
