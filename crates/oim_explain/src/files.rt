//! Explanations at a file as a whole.

ghost use Rattle.std.specs.Prelude.{◌≡◌, IfOk};
ghost use Rattle.oim_places.specs.Shown as spec;

use crate::explanation::Explanation;
use oim_files::EarlyFault;
use oim_names::{Items, Text};
use oim_places::shown;
use std::alloc::{AllocError, Global};

/// Returns an explanation at a file as a whole.
pub(crate) fn of_file(
    alloc: Global,
    path: &str,
    cause: &'static str,
) -> Result<Explanation, AllocError>
    ensures { IfOk result (λ e. e.place ≡ spec.shown path.now) }
{
    Ok(Explanation {
        place: shown(alloc, path)?,
        found: Text::from_str(alloc, "(the whole file)")?,
        source: None,
        cause,
        advice: Items::new(alloc),
        path: Items::new(alloc),
    })
}

/// Returns the explanation of a fault that is no longer there.
pub(crate) fn changed(alloc: Global, path: &str) -> Result<Explanation, AllocError>
    ensures { IfOk result (λ e. e.place ≡ spec.shown path.now) }
{
    of_file(
        alloc,
        path,
        "read again, the fault is not there: a file has changed meanwhile",
    )
}

/// Returns the explanation for a metadata that could not be read again.
pub(crate) fn unread(
    alloc: Global,
    path: &str,
    fault: &EarlyFault,
) -> Result<Explanation, AllocError> {
    match fault {
        EarlyFault::Memory => Err(AllocError),
        EarlyFault::CannotRead(_) => of_file(
            alloc,
            path,
            "a file of the report cannot be opened again",
        ),
        EarlyFault::Report(_, _) => {
            of_file(alloc, path, "a file of the report cannot be read again")
        }
    }
}
