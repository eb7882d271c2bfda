//! The places of a metadata. They borrow their names from its JSON value, and take no memory.

ghost use Rattle.std.specs.Prelude.{◌≡◌, ◌++◌, ◌∷◌, [], IfOk, OnOk, option_map};
ghost use Rattle.std.specs.Option.{option_to_list};
ghost use Rattle.oim_meta.specs.Paths.{document_path, template_path, column_path, group_path, table_path};
ghost use Rattle.oim_meta.specs.state.Places.{part_path, place_path};

use oim_names::{Items, Text};
use std::alloc::{AllocError, Global};

/// A part of a metadata, by the names that lead to it.
#[derive(Clone, Copy, Debug)]
pub(crate) enum MetadataPart<'v> {
    /// The whole metadata.
    Report,
    /// The document information.
    Document,
    /// A table template.
    Template(&'v str),
    /// A column of a template.
    Column(&'v str, &'v str),
    /// A property group of a column of a template.
    Group(&'v str, &'v str, &'v str),
    /// A table.
    Table(&'v str),
}

/// A part, one of its properties, or a name in a property.
#[derive(Clone, Copy, Debug)]
pub(crate) struct JsonPath<'v> {
    pub(crate) part: MetadataPart<'v>,
    pub(crate) property: Option<&'v str>,
    pub(crate) name: Option<&'v str>,
}

impl<'v> MetadataPart<'v> {
    /// Returns the place of the part itself.
    pub(crate) fn itself(self) -> JsonPath<'v>
        ensures { place_path result ≡ part_path self.entry }
    {
        JsonPath {
            part: self,
            property: None,
            name: None,
        }
    }

    /// Returns the place of a property of the part.
    pub(crate) fn at(self, property: &'v str) -> JsonPath<'v>
        ensures { place_path result ≡ part_path self.entry ++ property.now ∷ [] }
    {
        JsonPath {
            part: self,
            property: Some(property),
            name: None,
        }
    }

    /// Returns the place of a name in a property of the part.
    pub(crate) fn member(self, property: &'v str, name: &'v str) -> JsonPath<'v>
        ensures { place_path result ≡ part_path self.entry ++ property.now ∷ name.now ∷ [] }
    {
        JsonPath {
            part: self,
            property: Some(property),
            name: Some(name),
        }
    }
}

/// Appends a key.
fn push(alloc: Global, keys: &mut Vec<Text>, key: &str) -> Result<(), AllocError>
    ensures { OnOk result (keys.new.items ≡ keys.old.items ++ key.now ∷ []) }
{
    keys.push(Text::from_str(alloc, key)?)?;
    Ok(())
}

/// Appends a key if there is one.
fn push_any(alloc: Global, keys: &mut Vec<Text>, key: Option<&str>) -> Result<(), AllocError>
    ensures { OnOk result (keys.new.items ≡ keys.old.items ++ option_to_list (option_map (λ k. k.now) key.entry)) }
{
    match key {
        Some(key) => push(alloc, keys, key),
        None => Ok(()),
    }
}

fn document_keys(alloc: Global) -> Result<Vec<Text>, AllocError>
    ensures { IfOk result (λ keys. keys.items ≡ document_path) }
{
    let mut keys = Vec::new(alloc);
    push(alloc, &mut keys, "documentInfo")?;
    Ok(keys)
}

fn template_keys(alloc: Global, template: &str) -> Result<Vec<Text>, AllocError>
    ensures { IfOk result (λ keys. keys.items ≡ template_path template.now) }
{
    let mut keys = Vec::new(alloc);
    push(alloc, &mut keys, "tableTemplates")?;
    push(alloc, &mut keys, template)?;
    Ok(keys)
}

fn column_keys(alloc: Global, template: &str, column: &str) -> Result<Vec<Text>, AllocError>
    ensures { IfOk result (λ keys. keys.items ≡ column_path template.now column.now) }
{
    let mut keys = template_keys(alloc, template)?;
    push(alloc, &mut keys, "columns")?;
    push(alloc, &mut keys, column)?;
    Ok(keys)
}

fn group_keys(
    alloc: Global,
    template: &str,
    column: &str,
    group: &str,
) -> Result<Vec<Text>, AllocError>
    ensures { IfOk result (λ keys. keys.items ≡ group_path template.now column.now group.now) }
{
    let mut keys = column_keys(alloc, template, column)?;
    push(alloc, &mut keys, "propertyGroups")?;
    push(alloc, &mut keys, group)?;
    Ok(keys)
}

fn table_keys(alloc: Global, table: &str) -> Result<Vec<Text>, AllocError>
    ensures { IfOk result (λ keys. keys.items ≡ table_path table.now) }
{
    let mut keys = Vec::new(alloc);
    push(alloc, &mut keys, "tables")?;
    push(alloc, &mut keys, table)?;
    Ok(keys)
}

fn part_keys(alloc: Global, part: MetadataPart<'_>) -> Result<Vec<Text>, AllocError>
    ensures { IfOk result (λ keys. keys.items ≡ part_path part.entry) }
{
    match part {
        MetadataPart::Report => Ok(Vec::new(alloc)),
        MetadataPart::Document => document_keys(alloc),
        MetadataPart::Template(template) => template_keys(alloc, template),
        MetadataPart::Column(template, column) => column_keys(alloc, template, column),
        MetadataPart::Group(template, column, group) => group_keys(alloc, template, column, group),
        MetadataPart::Table(table) => table_keys(alloc, table),
    }
}

/// Returns copies of the keys that lead to a place.
pub(crate) fn keys(alloc: Global, place: JsonPath<'_>) -> Result<Items<Text>, AllocError>
    ensures { IfOk result (λ keys. keys ≡ place_path place.entry) }
{
    let mut keys = part_keys(alloc, place.part)?;
    push_any(alloc, &mut keys, place.property)?;
    push_any(alloc, &mut keys, place.name)?;
    Ok(Items::from_vec(keys))
}
