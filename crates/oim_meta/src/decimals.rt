//! Building decimals.

ghost use Rattle.std.specs.Prelude.{◌≡◌, IfOk};
ghost use Rattle.serde_json.specs.View.{view};
ghost use Rattle.oim_meta.specs.Decimals.{whole_of, named_decimals, text_decimals as decimals_in, decimals_of};

use crate::written::strip_front;
use oim_cells::Accuracy;
use oim_names::Text;
use oim_report::WrittenDecimals;
use serde_json::Value;
use std::alloc::{AllocError, Global};

/// Returns the whole number of a value, if it fits into 32 bits.
pub(crate) fn whole(value: &Value) -> Option<i32>
    ensures { result ≡ whole_of (view value.now) }
{
    match value.as_i64() {
        Some(number) => i32::try_from(number).ok(),
        None => None,
    }
}

fn named(alloc: Global, name: &str) -> Result<WrittenDecimals, AllocError>
    ensures { IfOk result (λ made. made ≡ named_decimals name.now) }
{
    if name == "rowNumber" {
        Ok(WrittenDecimals::RowNumber)
    } else {
        Ok(WrittenDecimals::Named(Text::from_str(alloc, name)?))
    }
}

#[tactic(auto, unfolding(crate::specs::Decimals::text_decimals))]
fn text_decimals(alloc: Global, text: &str) -> Result<WrittenDecimals, AllocError>
    ensures { IfOk result (λ made. made ≡ decimals_in text.now) }
{
    if text == "#none" {
        return Ok(WrittenDecimals::Absent);
    }
    match strip_front(text, "$") {
        Some(name) => named(alloc, name),
        None => match oim_cells::decimals(text) {
            Some(accuracy) => Ok(WrittenDecimals::Fixed(accuracy)),
            None => Ok(WrittenDecimals::Absent),
        },
    }
}

/// Makes the decimals that a value writes.
pub(crate) fn written_decimals(alloc: Global, value: &Value) -> Result<WrittenDecimals, AllocError>
    ensures { IfOk result (λ made. made ≡ decimals_of (view value.now)) }
{
    match whole(value) {
        Some(places) => Ok(WrittenDecimals::Fixed(Accuracy::Places(places))),
        None => text_decimals(alloc, value.as_str().unwrap_or("")),
    }
}
