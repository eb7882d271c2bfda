//! The decimals of a column under the groups that a row names.

ghost use Rattle.std.specs.Prelude.{◌≡◌, [], IfOk, map};
ghost use Rattle.std.specs.List.{All};
ghost use Rattle.oim_resolve.specs.Values.{Read};
ghost use Rattle.oim_fast.specs.state.FrameParts.{AreDecimals, IsStated};
ghost use Rattle.oim_fast.specs.state.Pieces.{parameter_meaning};
ghost use Rattle.oim_row.specs.References.{Grows, IsFresh, key_of};

use crate::frame::constant::parameter_of;
use oim_report::WrittenDecimals;
use oim_row::{Answer, Purpose, References, TableRow, put_decimals, source_of_decimals};
use oim_text::TextBuffer;
use std::alloc::{AllocError, Global};

/// The decimals that the levels write.
#[derive(Clone, Copy)]
pub(crate) enum FrameDecimals {
    /// They are in the text, or the facts have none.
    Settled,
    /// What the reference at a place gives.
    Reference(usize),
    /// They are not known: the fast way leaves the facts that need them.
    Unknown,
}

/// Puts the decimals that the parameter `name` gives into the empty `settled`.
fn put_parameter(
    alloc: Global,
    row: &TableRow<'_, '_>,
    name: &str,
    settled: &mut TextBuffer,
) -> Result<FrameDecimals, AllocError>
    requires { settled.old.items ≡ [] }
    ensures { IfOk result (λ d. IsStated (Read (parameter_meaning row.now.header name.now)) settled.new.items d) }
{
    let mut answer = Answer::new(alloc);
    answer.read(
        alloc,
        row.report(),
        Purpose::Decimals,
        parameter_of(row.header(), name),
    )?;
    if !answer.is_sound {
        return Ok(FrameDecimals::Unknown);
    }
    settled.put(answer.json.as_slice())?;
    Ok(FrameDecimals::Settled)
}

/// Prepares written decimals. Their text goes into the empty `settled` if it is the same in each
/// row.
pub(crate) fn decimals_ready<'a>(
    alloc: Global,
    row: &TableRow<'a, '_>,
    references: &mut References<'a>,
    written: &WrittenDecimals,
    settled: &mut TextBuffer,
) -> Result<FrameDecimals, AllocError>
    requires fresh { All (IsFresh row.now) references.old }
    requires empty { settled.old.items ≡ [] }
    ensures decimals { IfOk result (λ d. AreDecimals row.now.header (map key_of references.new) written.now settled.new.items d) }
    ensures fresh { All (IsFresh row.now) references.new }
    ensures grows { Grows references.old references.new }
{
    if let Some(source) = source_of_decimals(row.header(), written) {
        let place = references.place_for(alloc, row, Purpose::Decimals, source)?;
        return Ok(FrameDecimals::Reference(place));
    }
    match written {
        WrittenDecimals::Fixed(accuracy) => {
            put_decimals(settled, *accuracy)?;
            Ok(FrameDecimals::Settled)
        }
        WrittenDecimals::Named(name) => put_parameter(alloc, row, name.as_str(), settled),
        WrittenDecimals::Absent => Ok(FrameDecimals::Settled),
        WrittenDecimals::RowNumber => Ok(FrameDecimals::Unknown),
    }
}
