//! A place in a file, and its line, for which the file is read again.

ghost use Rattle.std.specs.Prelude.{◌≡◌, ◌++◌, IfOk, string_bytes};
ghost use Rattle.oim_places.specs.FilePlaces.{cell_part, line_part, place_text};
ghost use Rattle.oim_places.specs.FolderFiles.{HoldsAt};
ghost use Rattle.oim_places.specs.LineNumbers.{IsLineOf};

use crate::record_lines::RecordLines;
use crate::terminal::shown;
use oim_files::Folder;
use std::alloc::{AllocError, Global};
use std::io::Read;

/// Returns a text with a cell after it, which is counted from 1.
fn with_cell(alloc: Global, text: &str, place: Option<usize>) -> Result<String, AllocError>
    ensures { IfOk result (λ s. string_bytes s ≡ text.now ++ cell_part place) }
{
    match place {
        Some(place) => {
            let cell = place.saturating_add(1);
            format!(in alloc; "{text}, cell {cell}")
        }
        None => String::from_str(alloc, text),
    }
}

/// Returns a path with a line after it, and a cell of its record.
fn with_line(
    alloc: Global,
    path: &str,
    line: Option<u64>,
    place: Option<usize>,
) -> Result<String, AllocError>
    ensures { IfOk result (λ s. string_bytes s ≡ (path.now ++ line_part line) ++ cell_part place) }
{
    match line {
        Some(line) => {
            let text = format!(in alloc; "{path}, line {line}")?;
            with_cell(alloc, text.as_str(), place)
        }
        None => with_cell(alloc, path, place),
    }
}

/// Returns the place of a cell or a record in a file, at this line if it is known.
pub fn place_in_file(
    alloc: Global,
    path: &str,
    line: Option<u64>,
    place: Option<usize>,
) -> Result<String, AllocError>
    ensures { IfOk result (λ s. string_bytes s ≡ place_text path.now line place) }
{
    let path = shown(alloc, path)?;
    with_line(alloc, path.as_str(), line, place)
}

/// Returns the line of a file at which a record begins. Returns `None` if the record does not
/// exist, the file cannot be read again, or memory runs out.
pub fn line_again<R: Read + Drop, F: Folder<R>>(
    alloc: Global,
    folder: &mut F,
    path: &str,
    number: usize,
) -> Option<u64>
    ensures same { F.files folder.new ≡ F.files folder.old }
    ensures line { HoldsAt (F.files folder.old) path.now (λ bytes. IsLineOf number bytes result) }
{
    let mut lines = RecordLines::open(alloc, folder.open(path)?).ok()?;
    lines.line_of(number).unwrap_or(None)
}
