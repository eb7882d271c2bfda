//! The members of a set, joined by one space.

ghost use Rattle.std.specs.Prelude.{◌≡◌, IfOk, OnOk};
ghost use Rattle.std.specs.String.{string_bytes};
ghost use Rattle.oim_schema.specs.Members.{joined};
ghost use Rattle.oim_schema.specs.state.HeldMembers.{with_part};

use crate::members::next_part;
use oim_names::Text;
use std::alloc::{AllocError, Global};

/// Appends a part that is not empty, after a space if other text is before it.
fn append_part(so_far: &mut String, part: &str) -> Result<(), AllocError>
    ensures { OnOk result (string_bytes so_far.new ≡ with_part (string_bytes so_far.old) part.now) }
{
    if part.is_empty() {
        return Ok(());
    }
    if !so_far.is_empty() {
        so_far.push(' ')?;
    }
    so_far.push_str(part)
}

/// Returns the parts of a text between spaces, tabs, carriage returns and line feeds, joined by one
/// space, in their order. It is how a set of members is written.
///
/// # Errors
///
/// Memory ran out.
pub fn joined_members(alloc: Global, text: &str) -> Result<Text, AllocError>
    ensures { IfOk result (λ t. t ≡ joined text.now) }
{
    let mut so_far = String::with_capacity(alloc, text.len())?;
    let mut others = text;
    while let Some((part, rest)) = next_part(others) {
        append_part(&mut so_far, part)?;
        others = rest;
    }
    append_part(&mut so_far, others)?;
    Ok(Text::new(so_far))
}
