//! The law of the values that a metadata's texts write.

ghost use Rattle.std.specs.Prelude.{◌≡◌, ◌↔◌, ℕ, List, Option, true, false};
ghost use Rattle.oim_report.specs.declared.data.Written.{Written};
ghost use Rattle.oim_report.specs.declared.kind.Kind.{Kind};
ghost use Rattle.oim_meta.specs.BadDimensions.{is_bad_text};
ghost use Rattle.oim_meta.specs.Writes.{Writes};
ghost use Rattle.oim_meta.specs.Written.{written_of};

/// Proves that a dimension's text is a fault exactly if it writes no value. Any other text writes
/// one value, which the report has.
pub fn a_text_writes_one_value()
    ensures value { (k : Option Kind) (key text : List ℕ) (v : Written)
        → Writes k key text v ↔ ((is_bad_text k key text ≡ false) × (written_of key text ≡ v)) }
    ensures fault { (k : Option Kind) (key text : List ℕ)
        → (is_bad_text k key text ≡ true) ↔ ((v : Written) → Writes k key text v → ⊥) }
{}
