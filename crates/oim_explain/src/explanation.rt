//! An explanation of a fault, and its lines.

ghost use Rattle.std.specs.Prelude.{◌≡◌, IfOk, string_bytes};
ghost use Rattle.oim_explain.specs.Explanations.{explanation_of, lines_with};

use oim_names::{Items, Text};
use std::alloc::{AllocError, Global};

/// The explanation of a fault for a person.
#[derive(Drop)]
pub struct Explanation {
    /// Where it is: in the metadata a JSON pointer, else a file and a place there.
    pub place: Text,
    /// What is there.
    pub found: Text,
    /// The place to mend and what is there, if it is another one: a cell of another column, a
    /// parameter, a property of the metadata.
    pub source: Option<Text>,
    /// What is wrong there, as a sentence without capital and full stop.
    pub cause: &'static str,
    /// What could be meant, or where a text begins that has no end.
    pub advice: Items<Text>,
    /// The places by which the source came to the fault, each with what is there: a cell that names
    /// a property group, a property of the metadata that refers to the source.
    pub path: Items<Text>,
}

/// Returns a line for each text, with this before it.
fn lines_text(alloc: Global, before: &str, texts: &[Text]) -> Result<String, AllocError>
    ensures { IfOk result (λ s. string_bytes s ≡ lines_with before.now texts.now) }
{
    let mut lines = String::new(alloc);
    for text in texts {
        let text = text.as_str();
        lines.push_str(format!(in alloc; "{before}{text}\n")?.as_str())?;
    }
    Ok(lines)
}

/// Returns the lines of an explanation, indented by four blanks, each with a line feed. The first
/// one names the place to mend.
pub fn explanation_text(alloc: Global, explanation: &Explanation) -> Result<String, AllocError>
    ensures { IfOk result (λ s. string_bytes s ≡ explanation_of explanation.now) }
{
    let place = explanation.place.as_str();
    let found = explanation.found.as_str();
    let cause = explanation.cause;
    let (mut lines, fact) = match &explanation.source {
        None => {
            let own = format!(in alloc; "    {place}\n    {found}\n    {cause}\n")?;
            (own, String::new(alloc))
        }
        Some(source) => {
            let source = source.as_str();
            let first = format!(in alloc; "    {source}\n    {cause}\n")?;
            (first, format!(in alloc; "    for {found}: {place}\n")?)
        }
    };
    let advice = lines_text(alloc, "    ", explanation.advice.as_slice())?;
    lines.push_str(advice.as_str())?;
    lines.push_str(fact.as_str())?;
    let path = lines_text(alloc, "    by ", explanation.path.as_slice())?;
    lines.push_str(path.as_str())?;
    Ok(lines)
}
