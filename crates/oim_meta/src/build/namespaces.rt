//! The prefixes of a metadata with their URIs.

ghost use Rattle.std.specs.Prelude.{◌≡◌, IfOk, codes, false};
ghost use Rattle.serde_json.specs.Find.{get};
ghost use Rattle.serde_json.specs.View.{view};
ghost use Rattle.oim_meta.specs.Members.{if_there};
ghost use Rattle.oim_meta.specs.Faults.{has_bad_namespaces};
ghost use Rattle.oim_meta.specs.Prefixes.{prefixes_of};

use crate::build::made::vec_of;
use crate::lookup::object_at;
use oim_names::{Items, Namespaces, Text};
use serde_json::Value;
use std::alloc::{AllocError, Global};

/// Makes the prefixes of the document information.
#[tactic(auto, using(crate::proofs::Bound::namespaces_are), unfolding(crate::specs::Faults::has_bad_namespaces))]
pub(crate) fn prefixes(alloc: Global, report: &Value) -> Result<Namespaces, AllocError>
    requires { if_there has_bad_namespaces (get (codes "documentInfo") (view report.now)) ≡ false }
    ensures { IfOk result (λ names. names ≡ prefixes_of (view report.now)) }
{
    match report.get("documentInfo") {
        Some(info) => match object_at(info, "namespaces") {
            Some(members) => {
                let bindings: Vec<(Text, Text)> = vec_of(alloc, members)?;
                Ok(Namespaces::from_bindings(alloc, Items::from_vec(bindings)))
            }
            None => Ok(Namespaces::new(alloc)),
        },
        None => Ok(Namespaces::new(alloc)),
    }
}
