//! The handles that a document's directives have declared. None may be declared twice (YAML 1.2.2, 6.8.2).

ghost use Rattle.std.specs.Prelude.{◌≡◌, OnOk, string_bytes};
ghost use Rattle.saphyr_machine.specs.Steps.Machine as spec;

use std::alloc::{AllocError, Global};
use std::collections::BTreeSet;
use std::marker::Model;

/// The handles that the directives of a document declare.
#[derive(Drop)]
pub struct Handles {
    declared: BTreeSet<String>,
}

impl Model for Handles {
    ghost use Rattle.std.specs.Prelude.{ℕ, List};
    ghost use Rattle.saphyr_machine.specs.Names.{names_of};

    ghost Value = { List (List ℕ) };

    ghost view = { λ h. names_of h.declared };
}

impl Handles {
    ghost use Rattle.std.specs.Prelude.{[]};

    pub fn new(alloc: Global) -> Handles
        ensures { result ≡ [] }
    {
        Handles {
            declared: BTreeSet::new(alloc),
        }
    }

    pub fn contains(&self, handle: &str) -> bool
        ensures { result ≡ spec.is_listed handle.now self.now }
    {
        self.declared.contains(handle)
    }

    #[tactic(auto, using(crate::proofs::Names::names_listed))]
    pub fn insert(&mut self, handle: &String) -> Result<(), AllocError>
        ensures { OnOk result
            (self.new ≡ spec.with_name (string_bytes handle.now) self.old) }
    {
        self.declared.insert(handle.clone()?)?;
        Ok(())
    }
}
