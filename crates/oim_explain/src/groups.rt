//! The property groups that a column knows, for a cell that names none of them.

use crate::nearest::Nearest;
use oim_meta::{Column, Level};
use oim_names::Text;
use oim_places::{excerpt, quoted};
use std::alloc::{AllocError, Global};

/// How many groups are named at most.
const MOST: usize = 5;

/// Returns the names of groups, with commas between them.
fn names_of(alloc: Global, groups: &[(Text, Level)]) -> Result<String, AllocError> {
    let mut names = String::new(alloc);
    for (name, _) in groups {
        if !names.is_empty() {
            names.push_str(", ")?;
        }
        names.push_str(excerpt(alloc, name.as_str())?.as_str())?;
    }
    Ok(names)
}

/// Returns how many groups there are, and which is nearest to a text by spelling.
fn nearest_of(alloc: Global, groups: &[(Text, Level)], text: &str) -> Result<String, AllocError> {
    let mut nearest = Nearest::none();
    for (name, _) in groups {
        nearest.offer(alloc, text, name.as_str())?;
    }
    let count = groups.len();
    match nearest.name() {
        Some(name) => {
            let name = excerpt(alloc, name)?;
            let name = name.as_str();
            format!(in alloc; "{count} groups, of which {name} is nearest")
        }
        None => format!(in alloc; "{count} groups"),
    }
}

/// Returns which groups are known.
fn known(alloc: Global, groups: &[(Text, Level)], text: &str) -> Result<String, AllocError> {
    if groups.is_empty() {
        String::from_str(alloc, "none")
    } else if groups.len() <= MOST {
        names_of(alloc, groups)
    } else {
        nearest_of(alloc, groups, text)
    }
}

/// Returns the line for a cell of this column that names none of its property groups.
pub(crate) fn known_groups(alloc: Global, column: &Column, text: &str) -> Result<Text, AllocError> {
    let known = known(alloc, column.groups.as_slice(), text)?;
    let known = known.as_str();
    let text = quoted(alloc, text)?;
    let text = text.as_str();
    let id = excerpt(alloc, column.id.as_str())?;
    let id = id.as_str();
    Ok(Text::new(format!(in alloc; "{text} in {id}: this column knows {known}")?))
}
