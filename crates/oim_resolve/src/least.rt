//! The lesser of two faults, and two readings combined.

ghost use Rattle.std.specs.Prelude.{◌≡◌};
ghost use Rattle.oim_resolve.specs.Faults.{lesser};
ghost use Rattle.oim_resolve.specs.state.ProgramFaults.{both, or_fault};

use crate::fact::CellFault;

/// Returns the fault with the lesser number.
pub(crate) fn lesser(first: CellFault, second: CellFault) -> CellFault
    ensures { result ≡ lesser first second }
{
    if first.number() <= second.number() {
        first
    } else {
        second
    }
}

/// Returns the values of both readings, or the lesser of their faults.
pub(crate) fn both<A: Drop, B: Drop>(
    first: Result<A, CellFault>,
    second: Result<B, CellFault>,
) -> Result<(A, B), CellFault>
    ensures { result ≡ both (λ a b. (a, b)) first second }
{
    match (first, second) {
        (Ok(first), Ok(second)) => Ok((first, second)),
        (Ok(_), Err(fault)) | (Err(fault), Ok(_)) => Err(fault),
        (Err(first), Err(second)) => Err(lesser(first, second)),
    }
}

/// Returns the reading, or the lesser of its fault and another fault, if there is one.
pub(crate) fn or_fault<A: Drop>(
    reading: Result<A, CellFault>,
    fault: Option<CellFault>,
) -> Result<A, CellFault>
    ensures { result ≡ or_fault reading fault }
{
    match (reading, fault) {
        (reading, None) => reading,
        (Ok(_), Some(fault)) => Err(fault),
        (Err(first), Some(second)) => Err(lesser(first, second)),
    }
}
