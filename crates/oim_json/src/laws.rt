//! Laws about the definitions that the contracts use.

ghost use Rattle.std.specs.Prelude.{◌≡◌};
ghost use Rattle.oim_json.specs.Document.{tail_text};
ghost use Rattle.oim_json.specs.Lines.{FactListsAreOneLine, FactsAreOneLine, LinesAreMembers};
ghost use Rattle.oim_json.specs.declared.layout.Layout.TheVariants.{Compact};

use crate::document::TAIL;

/// Proves that no text of a fact contains a line feed.
pub fn facts_are_one_line()
    ensures { FactsAreOneLine }
{}

/// Proves that no text of facts joined by commas contains a line feed.
pub fn fact_lists_are_one_line()
    ensures { FactListsAreOneLine }
{}

/// Proves what a document in lines gives when it is cut at its line feeds.
///
/// It gives its head, then each fact's text in order, all but the last with a comma. A finished
/// document gives the closing braces on the last line too.
pub fn lines_are_members()
    ensures { LinesAreMembers }
{}

/// Proves that `TAIL` is the tail of a compact document.
fn tail_is_compact()
    ensures { TAIL.now ≡ tail_text Compact }
{}
