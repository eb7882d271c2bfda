//! Calls of `oim_names`.

use oim_names::{
    Items, NameFault, Namespaces, Text, UnitKind, is_identifier, is_ncname, is_row_identifier,
    language, qname, sqname, unit,
};
use std::alloc::{AllocError, Global};

/// The concept that a name with a prefix names.
fn names_a_concept(alloc: Global) -> Result<bool, NameFault> {
    let mut names = Namespaces::new(alloc);
    names.add("eg", "http://example.com/eg")?;
    Ok(qname(&names, "eg:Cash") == Some(("http://example.com/eg", "Cash")))
}

/// Returns namespaces with one prefix.
fn bound(alloc: Global) -> Result<Namespaces, NameFault> {
    let mut names = Namespaces::new(alloc);
    names.add("xbrli", "http://www.xbrl.org/2003/instance")?;
    Ok(names)
}

/// Checks the other readers of names and units.
fn reads_names(names: &Namespaces) -> bool {
    names.len() == 1
        && names.at(0) == ("xbrli", "http://www.xbrl.org/2003/instance")
        && names.uri("eg").is_none()
        && matches!(unit(names, "xbrli:pure"), Some(UnitKind::Pure))
        && sqname(names, "xbrli:a:b").is_some()
}

/// Checks the tests of names without prefixes.
fn tells_names() -> bool {
    is_identifier("a-b_1") && is_row_identifier("1a") && is_ncname("a.b") && !is_identifier("1a")
}

/// Returns whether a text is a language.
fn is_language(alloc: Global, text: &str) -> bool {
    matches!(language(alloc, text), Ok(Some(_)))
}

/// Returns a list of one text, made of a vector of strings.
fn listed(alloc: Global) -> Result<Items<Text>, AllocError> {
    let word = Text::from(String::from_str(alloc, "eg")?);
    Ok(Items::from(vec![in alloc; word]?))
}

/// Returns whether such a list has its item.
fn lists(items: &Items<Text>) -> bool {
    !items.is_empty() && items.iter().count() == 1
}

/// Returns whether the calls for names with prefixes answer as they must.
fn hold_of_prefixes(alloc: Global) -> bool {
    match bound(alloc) {
        Ok(names) => reads_names(&names) && matches!(names_a_concept(alloc), Ok(true)),
        Err(_) => false,
    }
}

/// Returns whether the calls for lists answer as they must.
fn hold_of_lists(alloc: Global) -> bool {
    match listed(alloc) {
        Ok(items) => lists(&items),
        Err(_) => false,
    }
}

/// Returns whether all calls answer as they must.
fn hold(alloc: Global) -> bool {
    tells_names() && is_language(alloc, "en-GB") && hold_of_prefixes(alloc) && hold_of_lists(alloc)
}

#[test]
fn calls_of_names(rt: HostRuntime) {
    assert!(rt; hold(rt.alloc()));
}
