//! Calls of `oim_meta` and of `oim_entries`.

use crate::held::{METADATA, TYPES};
use oim_entries::{
    BadEntry, EntryFault, EntryProblem, EntryRefusal, fault_is_of_first_bad_record,
    read_parameters_at, read_types_at,
};
use oim_meta::{
    Finding, Limits, MetaFault, Parameters, Refusal, Report, Types, a_text_writes_one_value,
    a_walk_finds_all_faults, fault_is_of_earliest_record, faults_of_shape_are_parts_without_it,
    first_fault_is_least, first_finding_is_least, parameter_url, read_parameters, read_report,
    read_report_at, read_types, types_are_of_all_records,
};
use std::alloc::Global;

/// The report of a metadata file and a types table, without a parameters file.
fn reads_a_report(alloc: Global) -> Result<Report, MetaFault> {
    let types = read_types(alloc, TYPES.as_bytes())?;
    let parameters = Parameters::none(alloc);
    read_report(
        alloc,
        METADATA.as_bytes(),
        parameters,
        types,
        Limits::profile(),
    )
}

/// Returns whether a metadata names no parameters file.
fn names_no_parameters(alloc: Global, metadata: &[u8]) -> bool {
    matches!(parameter_url(alloc, metadata, &Limits::profile()), Ok(None))
}

/// Whether a parameters file has this name.
fn has_parameter(alloc: Global, file: &[u8], name: &str) -> bool {
    match read_parameters(alloc, file) {
        Ok(parameters) => parameters.has_name(name),
        Err(_) => false,
    }
}

/// Returns whether a bad entry is the name of the second record, which the first has.
fn is_second_name(bad: &BadEntry, column: usize) -> bool {
    let fault = EntryFault {
        problem: EntryProblem::RepeatedName,
        number: 2,
        column: Some(column),
    };
    bad.fault() == fault && !bad.row().is_empty()
}

/// Returns whether the first fault of a parameters file is the name of its second record.
fn has_parameter_twice(alloc: Global, file: &[u8]) -> bool {
    match read_parameters_at(alloc, file) {
        Err(EntryRefusal::Bad(bad)) => is_second_name(&bad, 0),
        _ => false,
    }
}

/// Returns whether the first fault of a types table is the name of its second record.
fn has_type_twice(alloc: Global, file: &[u8]) -> bool {
    match read_types_at(alloc, file) {
        Err(EntryRefusal::Bad(bad)) => is_second_name(&bad, 1),
        _ => false,
    }
}

/// Returns whether a finding is of the document type, at its key.
fn is_of_document_type(finding: &Finding) -> bool {
    finding.fault == MetaFault::NotReport && finding.place.len() == 2
}

/// Returns whether a file that is not a metadata is refused, with the place of its fault.
fn is_refused_at(alloc: Global, metadata: &[u8]) -> bool {
    let (parameters, types) = (Parameters::none(alloc), Types::none(alloc));
    match read_report_at(alloc, metadata, parameters, types, Limits::profile()) {
        Err(Refusal::Found(finding)) => is_of_document_type(&finding),
        _ => false,
    }
}

/// Returns whether the metadata is a report of one table.
fn is_a_report(alloc: Global) -> bool {
    match reads_a_report(alloc) {
        Ok(report) => report.tables() == 1,
        Err(_) => false,
    }
}

#[test]
fn calls_of_metadata(rt: HostRuntime) {
    first_fault_is_least();
    first_finding_is_least();
    a_walk_finds_all_faults();
    fault_is_of_earliest_record();
    types_are_of_all_records();
    fault_is_of_first_bad_record();
    faults_of_shape_are_parts_without_it();
    a_text_writes_one_value();
    assert!(rt; is_a_report(rt.alloc()));
}

/// Returns whether the calls for other files answer as they must.
fn hold_of_other_files(alloc: Global) -> bool {
    has_parameter(alloc, b"name,value\na,1\n", "a")
        && has_parameter_twice(alloc, b"name,value\na,1\na,2\n")
        && has_type_twice(alloc, b"namespace,name,type\nu,n,text\nu,n,text\n")
        && names_no_parameters(alloc, METADATA.as_bytes())
        && is_refused_at(alloc, b"{}")
}

#[test]
fn calls_of_other_files(rt: HostRuntime) {
    assert!(rt; hold_of_other_files(rt.alloc()));
}
