//! The laws of the shapes of a metadata.

ghost use Rattle.serde_json.specs.Data.{Data};
ghost use Rattle.oim_meta.specs.Faults.{has_no_report, has_bad_namespaces, has_bad_taxonomy, is_unsupported};
ghost use Rattle.oim_meta.specs.Faults.{has_bad_identifier, has_bad_shape, has_mixed_column, has_unknown_template};
ghost use Rattle.oim_meta.specs.Shapes.{IsCsvDocument, HasNamespaces, HasTaxonomy, StandsAlone};
ghost use Rattle.oim_meta.specs.Shapes.{HasIdentifiers, HasShape, HasColumnKinds, HasTemplates, Refutes};

/// Proves that a metadata has a fault of shape exactly if a part does not have its shape.
/// `namespaces` and `taxonomy` are those of its `documentInfo`.
pub fn faults_of_shape_are_parts_without_it()
    ensures document { (d : Data) → Refutes (has_no_report d) (IsCsvDocument d) }
    ensures namespaces { (info : Data) → Refutes (has_bad_namespaces info) (HasNamespaces info) }
    ensures taxonomy { (info : Data) → Refutes (has_bad_taxonomy info) (HasTaxonomy info) }
    ensures alone { (d : Data) → Refutes (is_unsupported d) (StandsAlone d) }
    ensures identifiers { (d : Data) → Refutes (has_bad_identifier d) (HasIdentifiers d) }
    ensures shape { (d : Data) → Refutes (has_bad_shape d) (HasShape d) }
    ensures kinds { (d : Data) → Refutes (has_mixed_column d) (HasColumnKinds d) }
    ensures templates { (d : Data) → Refutes (has_unknown_template d) (HasTemplates d) }
{}
