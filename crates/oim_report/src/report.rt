//! A report: its metadata, parameters and types.

ghost use Rattle.std.specs.Prelude.{◌≡◌};
ghost use Rattle.oim_report.specs.Places.{IsReport as are_parts};
ghost use Rattle.oim_report.specs.ReportValue.{report_with};

use crate::data::{Info, Level, Table, Template};
use crate::parameters::Parameters;
use crate::types::Types;
use oim_names::{Items, Namespaces, Text};
use std::marker::Model;

/// The metadata of a report, with its parameters and its types. Contracts see all its parts.
pub struct Report {
    pub(crate) info: Info,
    pub(crate) namespaces: Namespaces,
    pub(crate) types: Types,
    pub(crate) level: Level,
    pub(crate) templates: Items<Template>,
    pub(crate) tables: Items<Table>,
    /// The parameters of the metadata, in byte order of name.
    pub(crate) parameters: Items<(Text, Text)>,
    /// The parameters of the parameters file, in its order.
    pub(crate) given: Parameters,
}

// Written by hand, so that a drop in another crate is one call.
impl Drop for Report {
    fn drop(self) {
        let Self {
            info: _,
            namespaces: _,
            types: _,
            level: _,
            templates: _,
            tables: _,
            parameters: _,
            given: _,
        } = self;
    }
}

impl Model for Report {
    ghost use Rattle.oim_report.specs.ReportValue.{ReportValue, report_with};
    ghost use Rattle.oim_report.specs.Places.{IsReport};

    ghost Value = { ReportValue };

    ghost view = { λ r. report_with r.info r.namespaces r.types r.level r.templates r.tables (r.parameters, r.given) };

    ghost invariant = { λ r. IsReport r.level r.templates r.tables r.parameters };
}

impl Report {
    /// Makes a report of its parts. Their places must be in range and their names in order.
    /// `parameters` are those of the metadata and those of the parameters file.
    pub fn new(
        info: Info,
        namespaces: Namespaces,
        types: Types,
        level: Level,
        templates: Items<Template>,
        tables: Items<Table>,
        parameters: (Items<(Text, Text)>, Parameters),
    ) -> Report
        requires { are_parts level templates tables parameters.0 }
        ensures { result ≡ report_with info namespaces types level templates tables parameters }
    {
        let (parameters, given) = parameters;
        Report {
            info,
            namespaces,
            types,
            level,
            templates,
            tables,
            parameters,
            given,
        }
    }
}
