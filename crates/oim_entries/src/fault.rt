//! The faults of a metadata, a parameters file and a types table.

ghost use Rattle.std.specs.Prelude.{◌≡◌};
ghost use Rattle.oim_entries.specs.CsvFiles.{fault_of_read};
ghost use Rattle.oim_entries.specs.FaultNames.{fault_number, fault_name};

use oim_records::ReadFault;
use std::alloc::AllocError;
use thiserror::Error;

/// Why a metadata, its parameters file or its types table is refused.
#[derive(Clone, Copy, Debug, PartialEq, Eq, Error)]
#[error("{}", self.name())]
pub enum MetaFault {
    /// The bytes are not a JSON text in UTF-8, as `serde_json` reads one.
    Syntax,
    /// The value is not an object, or its document is not of the type xBRL-CSV.
    NotReport,
    /// The namespaces are not an object of texts, a prefix is not an NCName, or a URI has two
    /// prefixes.
    BadNamespaces,
    /// The taxonomy is absent or not a list of texts, or the base URL is not a text.
    BadTaxonomy,
    /// `extends` exists and is not an empty list, or `links` exists and is not an empty object.
    Unsupported,
    /// The key of a template, table or column is not an identifier.
    BadIdentifier,
    /// A template, column, property group, table or list of dimensions has a wrong shape.
    BadTemplate,
    /// A column is of two or three of the kinds fact, property group and comment.
    ColumnKinds,
    /// A table names a template that does not exist.
    UnknownTemplate,
    /// A template's `rowIdColumn` does not name a column of it, or a `propertiesFrom` does not name
    /// a property group column of it.
    UnknownColumn,
    /// The key of a dimension is not known, or its value is not well-formed.
    BadDimension,
    /// The value of `decimals` is not well-formed.
    BadDecimals,
    /// Parameters are not texts under identifiers, a name occurs twice, the parameters file's name
    /// is not a plain path, or that file has a bad header or record.
    BadParameter,
    /// The types table has a bad header or record.
    BadTypes,
    /// The bytes, tables, columns or records exceed their limit.
    TooLarge,
    /// Memory ran out.
    Memory,
    /// The reader failed.
    Read,
}

impl MetaFault {
    /// Returns the fault's number, 1 to 17.
    pub fn number(&self) -> u32
        ensures { result ≡ fault_number self.now }
    {
        match self {
            MetaFault::Syntax => 1,
            MetaFault::NotReport => 2,
            MetaFault::BadNamespaces => 3,
            MetaFault::BadTaxonomy => 4,
            MetaFault::Unsupported => 5,
            MetaFault::BadIdentifier => 6,
            MetaFault::BadTemplate => 7,
            MetaFault::ColumnKinds => 8,
            MetaFault::UnknownTemplate => 9,
            MetaFault::UnknownColumn => 10,
            MetaFault::BadDimension => 11,
            MetaFault::BadDecimals => 12,
            MetaFault::BadParameter => 13,
            MetaFault::BadTypes => 14,
            MetaFault::TooLarge => 15,
            MetaFault::Memory => 16,
            MetaFault::Read => 17,
        }
    }

    /// Returns the fault's name.
    pub fn name(&self) -> &'static str
        ensures { result.now ≡ fault_name self.now }
    {
        match self {
            MetaFault::Syntax => "Syntax",
            MetaFault::NotReport => "NotReport",
            MetaFault::BadNamespaces => "BadNamespaces",
            MetaFault::BadTaxonomy => "BadTaxonomy",
            MetaFault::Unsupported => "Unsupported",
            MetaFault::BadIdentifier => "BadIdentifier",
            MetaFault::BadTemplate => "BadTemplate",
            MetaFault::ColumnKinds => "ColumnKinds",
            MetaFault::UnknownTemplate => "UnknownTemplate",
            MetaFault::UnknownColumn => "UnknownColumn",
            MetaFault::BadDimension => "BadDimension",
            MetaFault::BadDecimals => "BadDecimals",
            MetaFault::BadParameter => "BadParameter",
            MetaFault::BadTypes => "BadTypes",
            MetaFault::TooLarge => "TooLarge",
            MetaFault::Memory => "Memory",
            MetaFault::Read => "Read",
        }
    }

    /// Returns a sentence for people that explains the fault, without a capital and a full stop.
    pub fn explanation(&self) -> &'static str {
        match self {
            MetaFault::Syntax => "the bytes are not well-formed JSON in UTF-8",
            MetaFault::NotReport => "the metadata is not an xBRL-CSV document",
            MetaFault::BadNamespaces => "the namespaces are not well-formed",
            MetaFault::BadTaxonomy => "the taxonomy or the base URL is not well-formed",
            MetaFault::Unsupported => "the metadata extends another or has links",
            MetaFault::BadIdentifier => {
                "the key of a template, table or column is not an identifier"
            }
            MetaFault::BadTemplate => {
                "a template, column, property group, table or list of dimensions has a wrong shape"
            }
            MetaFault::ColumnKinds => "a column is of more than one kind",
            MetaFault::UnknownTemplate => "a table names a template that is not there",
            MetaFault::UnknownColumn => "a template refers to a column that it does not define",
            MetaFault::BadDimension => "a dimension is not known or its value is not well-formed",
            MetaFault::BadDecimals => "a value of decimals is not well-formed",
            MetaFault::BadParameter => {
                "a parameter or the name of the parameters file is not well-formed"
            }
            MetaFault::BadTypes => "a record of the types table is not well-formed",
            MetaFault::TooLarge => {
                "there are more bytes, tables, columns or records than the limit"
            }
            MetaFault::Memory => "memory ran out",
            MetaFault::Read => "the file cannot be opened or read to its end, or is a folder",
        }
    }
}

impl From<ReadFault> for MetaFault {
    ghost from_gives = { λ fault made. made ≡ fault_of_read fault };

    fn from(fault: ReadFault) -> MetaFault {
        match fault {
            ReadFault::Read => MetaFault::Read,
            ReadFault::Memory => MetaFault::Memory,
        }
    }
}

impl From<AllocError> for MetaFault {
    ghost use Rattle.oim_entries.specs.declared.fault.MetaFault.TheVariants.{Memory};

    ghost from_gives = { λ _ made. made ≡ Memory };

    fn from(_error: AllocError) -> MetaFault {
        MetaFault::Memory
    }
}
