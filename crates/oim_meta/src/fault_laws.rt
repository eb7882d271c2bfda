//! The law of a metadata's first fault.

ghost use Rattle.serde_json.specs.Data.{Data};
ghost use Rattle.oim_report.specs.declared.limits.Limits.{Limits};
ghost use Rattle.oim_meta.specs.FaultOrder.{IsLeastFault};
ghost use Rattle.oim_meta.specs.FirstFault.{first_fault};
ghost use Rattle.oim_report.specs.Parameters.{ParametersValue};
ghost use Rattle.oim_report.specs.Types.{TypesValue};

/// Proves that the first fault of a metadata is the one with the least number, and that a metadata
/// without a first fault has no fault.
pub fn first_fault_is_least()
    ensures { (limits : Limits) (given : ParametersValue) (types : TypesValue) (d : Data)
        → IsLeastFault limits given types d (first_fault limits given types d) }
{}
