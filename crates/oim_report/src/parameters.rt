//! The parameters of a report.

ghost use Rattle.std.specs.Prelude.{◌≡◌, ◌++◌, ◌∷◌, [], IfOk, None, is_some};
ghost use Rattle.std.specs.Option.{option_map};
ghost use Rattle.oim_names.specs.Lookup.{value_at};

use crate::named::Named;
use oim_names::{Items, Text};
use std::alloc::{AllocError, Global};
use std::marker::Model;

/// The parameters of a parameters file (xBRL-CSV 1.0, parameters). Contracts see the names with
/// their values, in file order.
#[derive(Drop)]
pub struct Parameters {
    entries: Named<Text>,
}

impl Model for Parameters {
    ghost use Rattle.oim_report.specs.Parameters.{ParametersValue};

    ghost Value = { ParametersValue };

    ghost view = { λ p. p.entries };
}

impl Clone for Parameters {
    ghost is_clone = { λ v w. w ≡ v };

    fn clone(&self) -> Result<Parameters, AllocError> {
        Ok(Parameters {
            entries: self.entries.clone()?,
        })
    }
}

impl Parameters {
    /// Makes an empty collection of parameters. Takes no memory.
    pub fn none(alloc: Global) -> Parameters
        ensures { result ≡ [] }
    {
        Parameters {
            entries: Named::new(alloc),
        }
    }

    /// Returns whether the name is a parameter, without a search through all names.
    pub fn has_name(&self, name: &str) -> bool
        ensures { result ≡ is_some (value_at name.now self.now) }
    {
        self.entries.get(name).is_some()
    }

    /// Returns the value of a name, without a search through all names.
    pub fn value(&self, name: &str) -> Option<&Text>
        ensures { option_map (λ t. t.now) result ≡ value_at name.now self.now }
    {
        if self.entries.is_empty() {
            return None;
        }
        self.entries.get(name)
    }

    /// Returns the parameters with one more at the end.
    pub fn with(self, alloc: Global, name: &str, value: &str) -> Result<Parameters, AllocError>
        requires { value_at name.now self ≡ None }
        ensures { IfOk result (λ more. more ≡ self ++ (name.now, value.now) ∷ []) }
    {
        let Parameters { mut entries } = self;
        let value = Text::from_str(alloc, value)?;
        entries.push(String::from_str(alloc, name)?, value)?;
        Ok(Parameters { entries })
    }
}
