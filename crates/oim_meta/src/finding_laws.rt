//! The laws of the findings of a walk.

ghost use Rattle.std.specs.Prelude.{◌≡◌, List};
ghost use Rattle.serde_json.specs.Data.{Data};
ghost use Rattle.oim_report.specs.declared.limits.Limits.{Limits as LimitsValue};
ghost use Rattle.oim_report.specs.Parameters.{ParametersValue};
ghost use Rattle.oim_report.specs.Types.{TypesValue};
ghost use Rattle.oim_entries.specs.declared.fault.MetaFault.{MetaFault as Fault};
ghost use Rattle.oim_meta.specs.declared.findings.Finding.{Finding as FindingValue};
ghost use Rattle.oim_meta.specs.Findings.{first_of};
ghost use Rattle.oim_meta.specs.FindingPlaces.{IsFirst, has};
ghost use Rattle.oim_meta.specs.FirstFault.{has_fault};
ghost use Rattle.oim_meta.specs.WalkReport.{in_metadata};

/// Proves that the first finding of a walk has the least number of the faults found, at the first
/// of that fault's places.
#[tactic(auto, using(crate::proofs::FirstFinding::is_first))]
pub fn first_finding_is_least()
    ensures { (xs : List FindingValue) → IsFirst xs (first_of xs) }
{}

/// Proves that a walk over a metadata finds a fault exactly if the test for the fault passes.
pub fn a_walk_finds_all_faults()
    ensures { (l : LimitsValue) (given : ParametersValue) (types : TypesValue) (d : Data) (e : Fault)
        → has e (in_metadata l given types d) ≡ has_fault l given types d e }
{}
