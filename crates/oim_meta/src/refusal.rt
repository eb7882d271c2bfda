//! Why a metadata is refused, and where.

ghost use Rattle.std.specs.Prelude.{◌≡◌, None, OnOk, IfErr};
ghost use Rattle.oim_meta.specs.Findings.{first_of};
ghost use Rattle.oim_meta.specs.Refusals.{IsFirstOf, fault_in};
ghost use Rattle.oim_meta.specs.state.Refusals.{refusal_of};

use crate::findings::{Finding, Findings};
use crate::json_path::keys;
use oim_entries::MetaFault;
use oim_names::Items;
use std::alloc::{AllocError, Global};

/// Why a metadata is refused: its first finding, or memory ran out.
#[derive(Drop)]
pub enum Refusal {
    /// A fault at its place.
    Found(Finding),
    /// Memory ran out.
    Memory,
}

impl Refusal {
    /// Returns the refusal for a fault of the whole metadata.
    pub(crate) fn of_whole(alloc: Global, fault: MetaFault) -> Refusal
        ensures { result ≡ refusal_of fault }
    {
        if matches!(fault, MetaFault::Memory) {
            return Refusal::Memory;
        }
        Refusal::Found(Finding {
            fault,
            place: Items::new(alloc),
        })
    }

    /// Returns the fault.
    pub fn fault(&self) -> MetaFault
        ensures { result ≡ fault_in self.now }
    {
        match self {
            Refusal::Found(finding) => finding.fault,
            Refusal::Memory => MetaFault::Memory,
        }
    }
}

impl From<AllocError> for Refusal {
    ghost use Rattle.std.specs.Prelude.{◌≡◌};
    ghost use Rattle.oim_meta.specs.declared.refusal.Refusal.TheVariants.{Memory};

    ghost from_gives = { λ _ made. made ≡ Memory };

    fn from(_error: AllocError) -> Refusal {
        Refusal::Memory
    }
}

/// Fails with the first finding, if there is one.
pub(crate) fn refuse(alloc: Global, findings: &Findings<'_>) -> Result<(), Refusal>
    ensures none { OnOk result (first_of findings.now ≡ None) }
    ensures first { IfErr result (IsFirstOf findings.now) }
{
    match findings.first() {
        None => Ok(()),
        Some(found) => Err(Refusal::Found(Finding {
            fault: found.fault,
            place: keys(alloc, found.place)?,
        })),
    }
}
