//! Texts with two names.

ghost use Rattle.std.specs.Prelude.{◌≡◌, [], IfOk};
ghost use Rattle.serde_json.specs.View.{members_view};
ghost use Rattle.oim_meta.specs.Order.{repeats_text as repeated};
ghost use Rattle.oim_meta.specs.state.Order.{repeats_seen};

use oim_report::Named;
use serde_json::{Map, Value};
use std::alloc::{AllocError, Global};

/// Returns whether a member has the text of an earlier member. A value that is not a text counts as
/// the empty text.
fn repeats_earlier(alloc: Global, members: &Map<String, Value>) -> Result<bool, AllocError>
    ensures { IfOk result (λ repeats. repeats ≡ repeats_seen [] (members_view members.now.entries)) }
{
    let mut seen = Named::new(alloc);
    for (_, value) in members.iter() {
        let text = value.as_str().unwrap_or("");
        if seen.get(text).is_some() {
            return Ok(true);
        }
        seen.push(String::from_str(alloc, text)?, ())?;
    }
    Ok(false)
}

/// Returns whether one text has two names. A value that is not a text counts as the empty text.
pub(crate) fn repeats_text(alloc: Global, members: &Map<String, Value>) -> Result<bool, AllocError>
    ensures { IfOk result (λ repeats. repeats ≡ repeated (members_view members.now.entries)) }
{
    // For the proof: the count of members fits a `usize`.
    let _ = members.len();
    repeats_earlier(alloc, members)
}
