//! The JSON of a metadata, read once.

ghost use Rattle.std.specs.Prelude.{◌≡◌, IfOk, OnOk, IfErr, Some, None, Ok, Err, if◌then◌else◌};
ghost use Rattle.std.specs.Option.{option_map};
ghost use Rattle.std.specs.String.{string_bytes};
ghost use Rattle.serde_json.specs.View.{view};
ghost use Rattle.oim_meta.specs.FirstFault.{first_fault};
ghost use Rattle.oim_meta.specs.Order.{IsInOrder};
ghost use Rattle.oim_meta.specs.Reading.{IsUnread, IsUrlFaultOf, IsUrlOf, Reads};
ghost use Rattle.oim_meta.specs.state.Reading.{IsFaultOf};
ghost use Rattle.oim_meta.specs.Refusals.{IsFirstOf};
ghost use Rattle.oim_meta.specs.Value.{report_of};
ghost use Rattle.oim_meta.specs.WalkReport.{in_metadata};

use crate::document::no_report;
use crate::lookup::text_at;
use crate::refusal::Refusal;
use crate::report::report_in;
use crate::walk::parameters::bad_parameter_url;
use oim_entries::MetaFault;
use oim_report::{Limits, Parameters, Report, Types};
use serde_json::{Error, Value};
use std::alloc::Global;
use std::marker::Model;

/// The JSON of a metadata, read once.
///
/// Contracts see its value. The members of each object in it are in byte order of name, except in
/// objects inside a list.
#[derive(Drop)]
pub struct Metadata {
    value: Value,
}

impl Model for Metadata {
    ghost use Rattle.std.specs.Coded.{codes};
    ghost use Rattle.serde_json.specs.contracts.value.Value as json;
    ghost use Rattle.serde_json.specs.View.{view as seen};
    ghost use Rattle.serde_json.specs.declared.value.Value.{Value as Json};
    ghost use Rattle.oim_meta.specs.Order.{IsInOrder};

    ghost Value = { Json };

    ghost coded = { Prim.hlevel (codes, json.the_row.coded) };

    ghost view = { λ m. m.value };

    ghost invariant = { λ m. IsInOrder (seen m.value) };
}

/// Returns the fault of bytes that could not be read as JSON.
fn fault_of(error: &Error) -> MetaFault
    ensures { IsFaultOf error.now result }
{
    if error.is_memory() {
        MetaFault::Memory
    } else {
        MetaFault::Syntax
    }
}

/// Fails with `fault` if `is_there`.
fn refuse_if(is_there: bool, fault: MetaFault) -> Result<(), MetaFault>
    ensures { result ≡ (if is_there then Err fault else Ok tt) }
{
    if is_there { Err(fault) } else { Ok(()) }
}

impl Metadata {
    /// Reads the JSON of a metadata, from which the name of its parameters file and its report are
    /// made.
    ///
    /// One byte-order mark at the start of the bytes is skipped. If an object has a key twice, the
    /// last value counts.
    ///
    /// # Errors
    ///
    /// - `TooLarge`: there are more than `limits.metadata` bytes.
    /// - `Syntax`: the bytes are not JSON in UTF-8 (RFC 8259) as `serde_json` reads it. That is at
    ///   most 127 levels, no number beyond a double and no escape of half a surrogate pair.
    /// - `Memory`: memory ran out.
    pub fn read(alloc: Global, bytes: &[u8], limits: &Limits) -> Result<Metadata, MetaFault>
        ensures json { IfOk result (λ m. Reads limits.now bytes.now (view m)) }
        ensures order { IfOk result (λ m. IsInOrder (view m)) }
        ensures fault { IfErr result (IsUnread limits.now bytes.now) }
    {
        if bytes.len() > limits.metadata {
            return Err(MetaFault::TooLarge);
        }
        let text = bytes.strip_prefix(b"\xef\xbb\xbf").unwrap_or(bytes);
        match Value::from_slice(alloc, text) {
            Ok(value) => Ok(Metadata { value }),
            Err(error) => Err(fault_of(&error)),
        }
    }

    /// Returns the name of the parameters file that the metadata gives (xBRL-CSV 1.0,
    /// parameterURL), a plain path, or `None` if it gives none.
    ///
    /// # Errors
    ///
    /// - `NotReport`: the value is not an object, or its document is not of the type xBRL-CSV.
    /// - `BadParameter`, if not `NotReport`: the name is not a text or not a plain path.
    /// - `Memory`: memory ran out.
    ///
    /// Other faults of the metadata are not reported here.
    pub fn parameter_url(&self, alloc: Global) -> Result<Option<String>, MetaFault>
        ensures value { IfOk result (λ url. IsUrlOf (view self.now) (option_map string_bytes url)) }
        ensures fault { IfErr result (IsUrlFaultOf (view self.now)) }
    {
        refuse_if(no_report(&self.value), MetaFault::NotReport)?;
        refuse_if(bad_parameter_url(&self.value), MetaFault::BadParameter)?;
        match text_at(&self.value, "parameterURL") {
            Some(url) => Ok(Some(String::from_str(alloc, url)?)),
            None => Ok(None),
        }
    }

    /// Returns the report of the metadata, with the parameters of its parameters file and its
    /// types; or its first fault, and the keys that lead to the fault's place.
    ///
    /// # Errors
    ///
    /// The first finding of the metadata, as `read_report_at` returns it once the bytes are read.
    /// `Memory` if memory runs out, even if the metadata has a fault.
    pub fn report_at(
        self,
        alloc: Global,
        parameters: Parameters,
        types: Types,
        limits: Limits,
    ) -> Result<Report, Refusal>
        ensures sound { OnOk result (first_fault limits parameters types (view self) ≡ None) }
        ensures value { IfOk result (λ r. r ≡ report_of parameters types (view self)) }
        ensures fault { IfErr result (IsFirstOf (in_metadata limits parameters types (view self))) }
    {
        report_in(alloc, self.value, parameters, types, limits)
    }
}
