//! Namespaces, languages, texts and periods while memory runs out.

use crate::scarcity::CallOutcome;
use oim_names::{NameFault, Namespaces, Text, language};
use oim_period::read;
use std::alloc::Global;

/// Prefixes and their names, out of order.
const BOUND: &[(&str, &str)] = &[
    ("xbrli", "http://www.xbrl.org/2003/instance"),
    ("eg", "http://example.com/eg"),
    ("iso4217", "http://www.xbrl.org/2003/iso4217"),
];

/// Binds them.
pub(crate) fn binds(alloc: Global) -> CallOutcome {
    let mut names = Namespaces::new(alloc);
    for (prefix, name) in BOUND {
        match names.add(prefix, name) {
            Ok(()) => {}
            Err(NameFault::Memory) => return CallOutcome::Refused,
            Err(_) => return CallOutcome::Wrong,
        }
    }
    CallOutcome::same(names.len() == 3 && names.uri("eg").is_some())
}

/// Writes a language in lower case.
pub(crate) fn lowers(alloc: Global) -> CallOutcome {
    match language(alloc, "en-GB") {
        Ok(Some(text)) => CallOutcome::same(text.as_str() == "en-gb"),
        Ok(None) => CallOutcome::Wrong,
        Err(_) => CallOutcome::Refused,
    }
}

/// Copies a text.
pub(crate) fn copies(text: &Text) -> CallOutcome {
    match text.clone() {
        Ok(copy) => CallOutcome::same(copy.as_str() == text.as_str()),
        Err(_) => CallOutcome::Refused,
    }
}

/// Writes the last quarter of a year.
pub(crate) fn writes_a_quarter(alloc: Global) -> CallOutcome {
    let Some(quarter) = read("2021Q4") else {
        return CallOutcome::Wrong;
    };
    match quarter.text(alloc) {
        Ok(text) => CallOutcome::same(text.as_str() == "2021-10-01T00:00:00/2022-01-01T00:00:00"),
        Err(_) => CallOutcome::Refused,
    }
}
