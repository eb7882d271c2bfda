//! Laws about the definitions that the contracts of the readers cite.

ghost use Rattle.std.specs.Prelude.{◌≡◌, ◌↔◌, ℕ, List, [], Ok, Err};
ghost use Rattle.oim_entries.specs.CsvFiles.{all_of};
ghost use Rattle.oim_records.specs.Grids.{Record};
ghost use Rattle.oim_entries.specs.BadEntries.{published};
ghost use Rattle.oim_entries.specs.ParametersFile.{parameters_entries, parameters_file, parameters_result};
ghost use Rattle.oim_report.specs.Types.{TypesValue, kind_in};
ghost use Rattle.oim_entries.specs.TypeWords.{Table};
ghost use Rattle.oim_entries.specs.TypesFile.{types_entries, types_file, types_result};
ghost use Rattle.oim_entries.specs.declared.fault.MetaFault.TheVariants.{BadParameter, BadTypes};
ghost use Rattle.oim_entries.specs.WholeFile.{IsEarliestBad, kind_said};

use crate::fault::MetaFault;

/// Proves when the records after the header of a parameters file or a types table have a fault:
/// exactly if one of them is bad or past the limit. The fault is that of the earliest such record.
pub fn fault_is_of_earliest_record()
    ensures parameters { (rs : List Record) (e : MetaFault)
        → (all_of parameters_file 0 [] rs ≡ Err e) ↔ IsEarliestBad parameters_file 0 [] rs e }
    ensures types { (table : Table) (rs : List Record) (e : MetaFault)
        → (all_of (types_file table) 0 [] rs ≡ Err e) ↔ IsEarliestBad (types_file table) 0 [] rs e }
{}

/// Proves that the types of a table give a name exactly the kind that its records give, as the
/// header has them read.
pub fn types_are_of_all_records()
    ensures { (t : Table) (rs : List Record) (types : TypesValue) → all_of (types_file t) 0 [] rs ≡ Ok types
        → (u n : List ℕ) → kind_in types u n ≡ kind_said t rs u n }
{}

/// Proves that the value that `read_parameters` and `read_types` return is that of
/// `read_parameters_at` and `read_types_at`, and that the fault is that of their bad record.
pub fn fault_is_of_first_bad_record()
    ensures parameters { (rs : List Record) → parameters_result rs ≡ published BadParameter (parameters_entries rs) }
    ensures types { (rs : List Record) → types_result rs ≡ published BadTypes (types_entries rs) }
{}
