//! Equal copies of a report and of its parts.

ghost use Rattle.std.specs.Prelude.{◌≡◌, IfOk};

use crate::data::{Column, Info, Level, Table, Template, Written, WrittenDecimals};
use crate::parameters::Parameters;
use crate::report::Report;
use crate::types::Types;
use oim_names::{Items, Namespaces, Text};
use std::alloc::AllocError;

impl Clone for Written {
    ghost is_clone = { λ v w. w ≡ v };

    fn clone(&self) -> Result<Written, AllocError> {
        match self {
            Written::Absent => Ok(Written::Absent),
            Written::Nil => Ok(Written::Nil),
            Written::Empty => Ok(Written::Empty),
            Written::Text(text) => Ok(Written::Text(text.clone()?)),
            Written::RowNumber(side) => Ok(Written::RowNumber(*side)),
            Written::Named(name, side) => Ok(Written::Named(name.clone()?, *side)),
        }
    }
}

impl Clone for WrittenDecimals {
    ghost is_clone = { λ v w. w ≡ v };

    fn clone(&self) -> Result<WrittenDecimals, AllocError> {
        match self {
            WrittenDecimals::Absent => Ok(WrittenDecimals::Absent),
            WrittenDecimals::Fixed(accuracy) => Ok(WrittenDecimals::Fixed(*accuracy)),
            WrittenDecimals::RowNumber => Ok(WrittenDecimals::RowNumber),
            WrittenDecimals::Named(name) => Ok(WrittenDecimals::Named(name.clone()?)),
        }
    }
}

impl Clone for Level {
    ghost is_clone = { λ v w. w ≡ v };

    fn clone(&self) -> Result<Level, AllocError> {
        Ok(Level {
            dimensions: self.dimensions.clone()?,
            decimals: self.decimals.clone()?,
        })
    }
}

impl Clone for Column {
    ghost is_clone = { λ v w. w ≡ v };

    fn clone(&self) -> Result<Column, AllocError> {
        Ok(Column {
            id: self.id.clone()?,
            kind: self.kind,
            level: self.level.clone()?,
            groups: self.groups.clone()?,
            from: self.from.clone()?,
        })
    }
}

impl Clone for Template {
    ghost is_clone = { λ v w. w ≡ v };

    fn clone(&self) -> Result<Template, AllocError> {
        Ok(Template {
            id: self.id.clone()?,
            columns: self.columns.clone()?,
            row_id_column: self.row_id_column,
            level: self.level.clone()?,
        })
    }
}

impl Clone for Table {
    ghost is_clone = { λ v w. w ≡ v };

    fn clone(&self) -> Result<Table, AllocError> {
        Ok(Table {
            id: self.id.clone()?,
            url: self.url.clone()?,
            is_optional: self.is_optional,
            template: self.template,
            parameters: self.parameters.clone()?,
        })
    }
}

impl Clone for Info {
    ghost is_clone = { λ v w. w ≡ v };

    fn clone(&self) -> Result<Info, AllocError> {
        Ok(Info {
            base_url: self.base_url.clone()?,
            taxonomy: self.taxonomy.clone()?,
        })
    }
}

impl Report {
    /// Copies the report's level, templates and tables.
    fn cloned_tables(&self) -> Result<(Level, Items<Template>, Items<Table>), AllocError>
        ensures level { IfOk result (λ made. made.0 ≡ self.now.level) }
        ensures templates { IfOk result (λ made. made.1 ≡ self.now.templates) }
        ensures tables { IfOk result (λ made. made.2 ≡ self.now.tables) }
    {
        let level = self.level.clone()?;
        let templates = self.templates.clone()?;
        Ok((level, templates, self.tables.clone()?))
    }

    /// Copies the report's prefixes and types.
    fn cloned_names(&self) -> Result<(Namespaces, Types), AllocError>
        ensures namespaces { IfOk result (λ made. made.0 ≡ self.now.namespaces) }
        ensures types { IfOk result (λ made. made.1 ≡ self.now.types) }
    {
        let namespaces = self.namespaces.clone()?;
        Ok((namespaces, self.types.clone()?))
    }
}

/// Copies the metadata's own parameters and those of the parameters file.
fn copies_of(
    own: &Items<(Text, Text)>,
    given: &Parameters,
) -> Result<(Items<(Text, Text)>, Parameters), AllocError>
    ensures own { IfOk result (λ made. made.0 ≡ own.now) }
    ensures given { IfOk result (λ made. made.1 ≡ given.now) }
{
    let own = own.clone()?;
    Ok((own, given.clone()?))
}

impl Clone for Report {
    ghost is_clone = { λ v w. w ≡ v };

    fn clone(&self) -> Result<Report, AllocError> {
        let info = self.info.clone()?;
        let (namespaces, types) = self.cloned_names()?;
        let (parameters, given) = copies_of(&self.parameters, &self.given)?;
        let (level, templates, tables) = self.cloned_tables()?;
        Ok(Report {
            info,
            namespaces,
            types,
            level,
            templates,
            tables,
            parameters,
            given,
        })
    }
}
