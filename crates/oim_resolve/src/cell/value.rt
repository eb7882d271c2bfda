//! What the cell of a fact gives it, once it is read.

ghost use Rattle.std.specs.Prelude.{◌≡◌, IfErr, IfOk, IsOk};
ghost use Rattle.std.specs.Option.{option_and_then};
ghost use Rattle.oim_cells.specs.Cells.{seen_meaning};
ghost use Rattle.oim_resolve.specs.Facts.{places};
ghost use Rattle.oim_resolve.specs.state.ProgramValues.{decimals_read, seen_stated, text_read};
ghost use Rattle.oim_resolve.specs.FactValues.{suffix_given, text_suffix};
ghost use Rattle.oim_resolve.specs.Kinds.{numbers_of};
ghost use Rattle.oim_resolve.specs.ProgramValues.{seen_reading};

use crate::cell::decimals::Stated;
use crate::fact::CellFault;
use crate::kinds::{is_numeric, numbers_of};
use crate::reading::{FactValue, ValueText, read_set};
use oim_cells::{Accuracy, CellMeaning, split_numeral};
use oim_names::Text;
use oim_report::{Kind, Report};
use std::alloc::{AllocError, Global};

/// The cell of a fact, with the kind of its concept.
#[derive(Clone, Copy)]
pub(crate) struct CellValue<'a> {
    pub(crate) kind: Kind,
    pub(crate) meaning: CellMeaning<'a>,
}

fn places(accuracy: Option<Accuracy>) -> Option<i32>
    ensures { result ≡ option_and_then places accuracy }
{
    match accuracy {
        Some(Accuracy::Places(n)) => Some(n),
        Some(Accuracy::Infinite) | None => None,
    }
}

/// Returns the accuracy that the suffix of a text's numeral states.
fn text_suffix(kind: Kind, text: &str) -> Option<Accuracy>
    ensures { result ≡ text_suffix (numbers_of kind) text.now }
{
    let number = numbers_of(kind)?;
    let (_, suffix) = split_numeral(number, text)?;
    suffix
}

/// Returns the text of a fact's value, with `None` for nil, or the fault of its cell.
pub(crate) fn text_of(
    alloc: Global,
    report: &Report,
    reading: Result<FactValue<'_>, CellFault>,
) -> Result<Result<Option<Text>, CellFault>, AllocError>
    ensures text { IfOk result (λ r. r ≡ text_read (seen_reading report.now reading.entry)) }
    ensures early { IfErr result (λ _. IsOk reading.entry) }
{
    let text = match reading {
        Ok(value) => value.text,
        Err(fault) => return Ok(Err(fault)),
    };
    match text {
        Some(ValueText::Plain(text)) => Ok(Ok(Some(Text::from_str(alloc, text)?))),
        Some(ValueText::Set(text)) => match read_set(alloc, report, text)? {
            Ok(joined) => Ok(Ok(Some(joined))),
            Err(fault) => Ok(Err(fault)),
        },
        None => Ok(Ok(None)),
    }
}

impl CellValue<'_> {
    /// Returns the accuracy that the suffix of a numeral states, also where its number is out of
    /// bounds.
    pub(crate) fn suffix(&self) -> Option<Accuracy>
        ensures { result ≡ suffix_given (self.now).kind (seen_meaning (self.now).meaning) }
    {
        match self.meaning {
            CellMeaning::Empty => text_suffix(self.kind, ""),
            CellMeaning::Text(text) => text_suffix(self.kind, text),
            CellMeaning::Absent | CellMeaning::Nil | CellMeaning::Unknown => None,
        }
    }

    /// Returns the decimals of the fact: those of its cell's suffix, else those that its properties
    /// state, or the fault of these.
    ///
    /// The properties' decimals are not read if the cell has a suffix.
    pub(crate) fn decimals(
        &self,
        suffix: Option<Accuracy>,
        stated: Stated<'_>,
    ) -> Result<Option<i32>, CellFault>
        ensures { result ≡ decimals_read (self.now).kind (seen_meaning (self.now).meaning) suffix (seen_stated stated.entry) }
    {
        if !is_numeric(self.kind) || matches!(&self.meaning, CellMeaning::Nil) {
            return Ok(None);
        }
        match suffix {
            Some(accuracy) => Ok(places(Some(accuracy))),
            None => match stated.read() {
                Ok(accuracy) => Ok(places(accuracy)),
                Err(fault) => Err(fault),
            },
        }
    }
}
