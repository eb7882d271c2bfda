//! Runs that end before their tables are read.

ghost use Rattle.std.specs.Prelude.{◌≡◌};
ghost use Rattle.oim_run.specs.Early as spec;

use crate::outcome::Outcome;
use oim_convert::ConvertFault;
use oim_files::EarlyFault;

/// Returns the outcome of a run that runs out of memory.
pub(crate) fn no_memory() -> Outcome
    ensures { result ≡ spec.no_memory }
{
    Outcome::Run(ConvertFault::Memory)
}

/// Returns the outcome of a run whose files give no report.
pub(crate) fn ended_early(fault: EarlyFault) -> Outcome
    ensures { result ≡ spec.outcome_of fault }
{
    match fault {
        EarlyFault::Report(source, fault) => Outcome::Report(source, fault),
        EarlyFault::CannotRead(path) => Outcome::CannotRead(path),
        EarlyFault::Memory => no_memory(),
    }
}
