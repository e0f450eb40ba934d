//! What the directives of a document have declared (YAML 1.2.2, 6.8.1 and 6.8.2).
ghost use Rattle.std.specs.Prelude.{IfOk, IsTrue};
ghost use Rattle.yaml_standard.specs.Declarations as spec;

use crate::directive::DirectiveKind;
use std::alloc::{AllocError, Global};
use std::collections::BTreeSet;

/// The handles of the tag directives so far, and whether there was a version.
#[derive(Drop)]
pub(crate) struct Declared<'a> {
    handles: BTreeSet<&'a str>,
    has_version: bool,
}

impl<'a> Declared<'a> {
    /// No directive.
    pub(crate) fn new(alloc: Global) -> Declared<'a> {
        Declared {
            handles: BTreeSet::new(alloc),
            has_version: false,
        }
    }

    /// One more directive, and whether it goes with those before it.
    pub(crate) fn add(&mut self, kind: DirectiveKind<'a>) -> Result<bool, AllocError>
        ensures { IfOk result (λ goes. IsTrue goes → spec.Declares kind.entry self.old self.new) }
    {
        match kind {
            DirectiveKind::Version => {
                let is_first = !self.has_version;
                self.has_version = true;
                Ok(is_first)
            }
            DirectiveKind::TagPrefix(handle) => Ok(self.handles.insert(handle)?),
            DirectiveKind::Reserved => Ok(true),
        }
    }
}
