//! The readers of a report.

ghost use Rattle.std.specs.Prelude.{◌≡◌, ◌<◌, length, IfOk, IfSome};
ghost use Rattle.std.specs.List.{All};
ghost use Rattle.std.specs.Option.{option_map};
ghost use Rattle.oim_names.specs.Lookup.{value_at};
ghost use Rattle.oim_report.specs.InOrder.{PartsRise, HaveIdentifiers};
ghost use Rattle.oim_report.specs.Places.{HasColumns};
ghost use Rattle.oim_report.specs.Readers.{table_of, template_of, columns_of, column_of, column_named, parameter_of, kind_of};
ghost use Rattle.oim_report.specs.Types.{has_members};

use crate::by_name::place_in_order;
use crate::data::{Column, Info, Level, Table, Template};
use crate::kind::Kind;
use crate::report::Report;
use oim_names::{Namespaces, Text, find_in_order};
use std::alloc::AllocError;

impl Report {
    /// Returns the document's own information: its base URL and its taxonomy.
    pub fn info(&self) -> &Info
        ensures { result.now ≡ self.now.info }
    {
        &self.info
    }

    /// Returns the prefixes with their URIs.
    pub fn namespaces(&self) -> &Namespaces
        ensures { result.now ≡ self.now.namespaces }
    {
        &self.namespaces
    }

    /// Returns the count of tables.
    pub fn tables(&self) -> usize
        ensures { result ≡ length self.now.tables }
    {
        self.tables.len()
    }

    fn table(&self, i: usize) -> &Table
        requires { i < length self.now.tables }
        ensures { result.now ≡ table_of self.now i }
    {
        &self.tables.as_slice()[i]
    }

    #[tactic(auto, using(crate::proofs::PlaceFacts::template_is_there, crate::proofs::PlaceFacts::template_has_columns))]
    fn template(&self, i: usize) -> &Template
        requires { i < length self.now.tables }
        ensures template { result.now ≡ template_of self.now i }
        ensures places { HasColumns result.now }
    {
        &self.templates.as_slice()[self.table(i).template]
    }

    /// Returns the identifier of table `i`, from 0 in byte order of identifier.
    pub fn table_id(&self, i: usize) -> &str
        requires { i < length self.now.tables }
        ensures { result.now ≡ (table_of self.now i).id }
    {
        self.table(i).id.as_str()
    }

    /// Returns the URL of a table's file: a plain relative path if `oim_meta` read the report.
    pub fn table_url(&self, i: usize) -> &str
        requires { i < length self.now.tables }
        ensures { result.now ≡ (table_of self.now i).url }
    {
        self.table(i).url.as_str()
    }

    /// Returns whether a table's file may be missing.
    pub fn is_optional(&self, i: usize) -> bool
        requires { i < length self.now.tables }
        ensures { result ≡ (table_of self.now i).is_optional }
    {
        self.table(i).is_optional
    }

    /// Returns the count of columns of a table's template.
    pub fn columns(&self, i: usize) -> usize
        requires { i < length self.now.tables }
        ensures { result ≡ length (columns_of self.now i) }
    {
        self.template(i).columns.len()
    }

    /// Returns the columns of a table's template, in byte order of identifier.
    pub fn template_columns(&self, i: usize) -> &[Column]
        requires { i < length self.now.tables }
        ensures { result.now ≡ columns_of self.now i }
    {
        self.template(i).columns.as_slice()
    }

    /// Returns the place of the column with this identifier in a table's template, from 0 in byte
    /// order of identifier, or `None` if no column has it.
    ///
    /// Uses a binary search if the template has more than eight columns.
    #[tactic(auto, using(crate::proofs::GroupOrder::columns_rise))]
    pub fn place_of_column(&self, i: usize, name: &[u8]) -> Option<usize>
        requires { i < length self.now.tables }
        ensures { result ≡ column_named self.now i name.now }
    {
        self.stands_in_order();
        place_in_order(self.template_columns(i), name)
    }

    /// Returns the column at a place of a table's template.
    #[tactic(auto, using(crate::proofs::PlaceFacts::from_is_there))]
    pub fn column(&self, i: usize, c: usize) -> &Column
        requires table { i < length self.now.tables }
        requires column { c < length (columns_of self.now i) }
        ensures column { result.now ≡ column_of self.now i c }
        ensures places { All (λ k. k < length (columns_of self.now i)) result.now.from }
    {
        &self.template(i).columns.as_slice()[c]
    }

    /// Returns the property group with this name of a property group column.
    #[tactic(auto, using(crate::proofs::GroupOrder::groups_rise))]
    pub fn group(&self, i: usize, c: usize, name: &str) -> Option<&Level>
        requires table { i < length self.now.tables }
        requires column { c < length (columns_of self.now i) }
        ensures { option_map (λ l. l.now) result ≡ value_at name.now (column_of self.now i c).groups }
    {
        self.stands_in_order();
        find_in_order(self.column(i, c).groups.as_slice(), name)
    }

    /// Returns the place of the column of row identifiers, if the table's template names one.
    #[tactic(auto, using(crate::proofs::PlaceFacts::row_id_is_there))]
    pub fn row_id_column(&self, i: usize) -> Option<usize>
        requires { i < length self.now.tables }
        ensures column { result ≡ (template_of self.now i).row_id_column }
        ensures place { IfSome result (λ c. c < length (columns_of self.now i)) }
    {
        self.template(i).row_id_column
    }

    /// Returns the level of a table's template.
    pub fn template_level(&self, i: usize) -> &Level
        requires { i < length self.now.tables }
        ensures { result.now ≡ (template_of self.now i).level }
    {
        &self.template(i).level
    }

    /// Returns the level of the report.
    pub fn report_level(&self) -> &Level
        ensures { result.now ≡ self.now.level }
    {
        &self.level
    }

    /// Returns the value of the report's parameter with this name.
    #[tactic(auto, using(crate::proofs::PlaceFacts::own_parameters_rise, crate::proofs::ParameterFacts::value_in_both))]
    fn own_parameter(&self, name: &str) -> Option<&Text>
        ensures { option_map (λ t. t.now) result ≡ value_at name.now self.now.parameters }
    {
        match find_in_order(self.parameters.as_slice(), name) {
            Some(text) => Some(text),
            None => self.given.value(name),
        }
    }

    /// Returns the value of the table's parameter with this name, else of the report's.
    ///
    /// Uses a binary search in a list of more than eight names.
    #[tactic(auto, using(crate::proofs::GroupOrder::parameters_rise))]
    pub fn parameter(&self, i: usize, name: &str) -> Option<&str>
        requires { i < length self.now.tables }
        ensures { option_map (λ t. t.now) result ≡ parameter_of self.now i name.now }
    {
        self.stands_in_order();
        if let Some(text) = find_in_order(self.table(i).parameters.as_slice(), name) {
            return Some(text.as_str());
        }
        match self.own_parameter(name) {
            Some(text) => Some(text.as_str()),
            None => None,
        }
    }

    /// Returns the kind of the concept or dimension with this namespace URI and local part.
    pub fn kind_of(&self, uri: &str, local: &str) -> Option<Kind>
        ensures { result ≡ kind_of self.now uri.now local.now }
    {
        self.types.kind_of(uri, local)
    }

    /// Returns whether the types table names a member of a dictionary.
    pub fn has_members(&self) -> bool
        ensures { result ≡ has_members self.now.types }
    {
        self.types.has_members()
    }

    /// Proves that the report's parts are in byte order of name, and that its tables, templates and
    /// columns have identifiers. Does nothing when it runs.
    #[tactic(auto, using(crate::proofs::PlaceFacts::parts_rise, crate::proofs::PlaceFacts::have_identifiers))]
    pub fn stands_in_order(&self)
        ensures order { PartsRise self.now.level self.now.templates self.now.tables }
        ensures identifiers { HaveIdentifiers self.now.templates self.now.tables }
    {
        // For the proof: reading a field makes the type's invariant available.
        let _level = &self.level;
    }

    /// Returns an equal report, and leaves this one unchanged.
    pub fn clone_report(&self) -> Result<Report, AllocError>
        ensures { IfOk result (λ copy. copy ≡ self.now) }
    {
        self.clone()
    }
}
