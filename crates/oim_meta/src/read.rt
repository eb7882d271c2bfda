//! Reading a metadata from its bytes: its report, or its first fault with the fault's place; and
//! the name of its parameters file.

ghost use Rattle.std.specs.Prelude.{IfOk, IfErr};
ghost use Rattle.std.specs.Option.{option_map};
ghost use Rattle.std.specs.String.{string_bytes};
ghost use Rattle.oim_meta.specs.Reading.{SaysReport, IsFault, SaysUrl, IsUrlFault};
ghost use Rattle.oim_meta.specs.Refusals.{IsRefusal};

use crate::metadata::Metadata;
use crate::refusal::Refusal;
use oim_entries::MetaFault;
use oim_report::{Limits, Parameters, Report, Types};
use std::alloc::Global;

/// Returns the report of a metadata (xBRL-CSV 1.0, metadata), with the parameters of its parameters
/// file and its types; or its first fault, and the keys that lead to the fault's place.
///
/// `Metadata::read` documents how the bytes are read.
///
/// # Errors
///
/// The first finding of the metadata: `TooLarge` for the bytes, or `Syntax`, with no keys. Else the
/// first of the faults that `read_report` names, at the first of its places in the order of a walk
/// over the metadata. A place may name a key that is missing there.
///
/// The walk goes through the document information, links and the report's own level. It continues
/// with the templates and their columns, the tables and the parameters, each in byte order of name.
///
/// `Memory` if memory runs out, even if the metadata has a fault: its parts are made during the
/// walk.
pub fn read_report_at(
    alloc: Global,
    bytes: &[u8],
    parameters: Parameters,
    types: Types,
    limits: Limits,
) -> Result<Report, Refusal>
    ensures value { IfOk result (SaysReport limits parameters types bytes.now) }
    ensures fault { IfErr result (IsRefusal limits parameters types bytes.now) }
{
    match Metadata::read(alloc, bytes, &limits) {
        Ok(metadata) => metadata.report_at(alloc, parameters, types, limits),
        Err(fault) => Err(Refusal::of_whole(alloc, fault)),
    }
}

/// Returns the report of a metadata (xBRL-CSV 1.0, metadata), with the parameters of its parameters
/// file and its types.
///
/// `Metadata::read` documents how the bytes are read.
///
/// # Errors
///
/// The first fault of the metadata: `TooLarge` for the bytes, then `Syntax` to `BadParameter` in
/// the order of their numbers, then `TooLarge` for the tables and columns.
///
/// `Memory` if memory runs out, even if the metadata has a fault: its parts are made during the
/// walk. `read_report_at` also returns the fault's place.
pub fn read_report(
    alloc: Global,
    bytes: &[u8],
    parameters: Parameters,
    types: Types,
    limits: Limits,
) -> Result<Report, MetaFault>
    ensures value { IfOk result (SaysReport limits parameters types bytes.now) }
    ensures fault { IfErr result (IsFault limits parameters types bytes.now) }
{
    match read_report_at(alloc, bytes, parameters, types, limits) {
        Ok(report) => Ok(report),
        Err(refusal) => Err(refusal.fault()),
    }
}

/// Returns the name of the parameters file that a metadata gives (xBRL-CSV 1.0, parameterURL), a
/// plain path, or `None` if it gives none.
///
/// # Errors
///
/// The first of `TooLarge` for the bytes, `Syntax`, `NotReport`, and `BadParameter` if the name is
/// not a text or not a plain path. Other faults are not reported here. `Memory` if memory runs out.
pub fn parameter_url(
    alloc: Global,
    bytes: &[u8],
    limits: &Limits,
) -> Result<Option<String>, MetaFault>
    ensures value { IfOk result (λ url. SaysUrl limits.now bytes.now (option_map string_bytes url)) }
    ensures fault { IfErr result (IsUrlFault limits.now bytes.now) }
{
    Metadata::read(alloc, bytes, limits)?.parameter_url(alloc)
}
