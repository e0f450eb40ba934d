//! The prefixes that `%TAG` directives declare for the handles of tags (YAML 1.2.2, 6.8.2).

ghost use Rattle.std.specs.Prelude.{◌≡◌, [], OnOk, string_bytes, option_map};
ghost use Rattle.saphyr_machine.specs.Steps.Machine as spec;

use std::alloc::{AllocError, Global};
use std::collections::BTreeMap;
use std::marker::Model;

/// The prefixes that are declared for the handles of tags.
#[derive(Drop)]
pub struct Prefixes {
    declared: BTreeMap<String, String>,
}

impl Model for Prefixes {
    ghost use Rattle.std.specs.Prelude.{ℕ, List};
    ghost use Rattle.saphyr_machine.specs.Steps.Machine.{Names};
    ghost use Rattle.saphyr_machine.specs.Names.{texts_of};

    ghost Value = { Names (List ℕ) };

    ghost view = { λ p. texts_of p.declared };
}

impl Prefixes {
    ghost use Rattle.std.specs.Prelude.{IfOk, IsTrue};
    ghost use Rattle.std.specs.Map.{keys_of};

    pub fn new(alloc: Global) -> Prefixes
        ensures { result ≡ [] }
    {
        Prefixes {
            declared: BTreeMap::new(alloc),
        }
    }

    pub fn forget(&mut self)
        ensures { self.new ≡ [] }
    {
        self.declared.clear();
    }

    pub fn is_empty(&self) -> bool
        ensures { IsTrue result → self.now ≡ [] }
    {
        self.declared.is_empty()
    }

    /// Whether a prefix is declared for the handle.
    pub fn contains(&self, handle: &str) -> bool
        ensures { result ≡ spec.is_listed handle.now (keys_of self.now) }
    {
        self.declared.contains_key(handle)
    }

    #[tactic(auto, using(crate::proofs::Names::texts_given))]
    /// Declares the prefix for the handle. It replaces an earlier one.
    pub fn declare(&mut self, handle: &String, prefix: &String) -> Result<(), AllocError>
        ensures { OnOk result (self.new
            ≡ spec.with_meaning (string_bytes handle.now) (string_bytes prefix.now) self.old) }
    {
        // Copies are kept: the texts that were read have more room than they need, and a text may declare a million of
        // them.
        self.declared.insert(handle.clone()?, prefix.clone()?)?;
        Ok(())
    }

    /// The prefix that is declared for the handle.
    pub fn prefix_of(&self, handle: &str) -> Option<&str>
        ensures { option_map (λ prefix. prefix.now) result ≡ spec.meaning handle.now self.now }
    {
        match self.declared.get(handle) {
            Some(prefix) => Some(prefix.as_str()),
            None => None,
        }
    }

    #[tactic(auto, using(crate::proofs::Copies::texts_copied))]
    /// A copy, unless memory runs out.
    pub fn try_clone(&self) -> Result<Prefixes, AllocError>
        ensures { IfOk result (λ copy. copy ≡ self.now) }
    {
        Ok(Prefixes {
            declared: self.declared.clone()?,
        })
    }
}
