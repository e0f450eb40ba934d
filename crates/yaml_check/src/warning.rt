//! What may be wrong with a text that the parser accepts.
ghost use Rattle.std.specs.Prelude.{◌≡◌, [], Some, OnOk};
ghost use Rattle.yaml_check.specs.Warned.{AreTold, rule_of};

use crate::rules::{Rule, RuleSet};
use saphyr_parser::{Marker, Span};
use std::alloc::{AllocError, Global};
use std::fmt;

/// What may be wrong with a text that the parser accepts.
#[derive(Clone, Copy, Debug)]
pub enum Warning {
    /// Its mapping has an equal key before, at this place.
    DuplicateKey(Marker),
    /// The node that the alias stands for contains it.
    AliasInItself,
    /// The alias stands for more nodes than this, including those that other aliases stand for.
    WideAlias(usize),
    EmptyDocument,
    /// More collections than this are open at once.
    TooDeep(usize),
    TooManyNodes(usize),
}

impl Warning {
    /// The rule that gives it.
    #[must_use]
    pub fn rule(self) -> Rule
        ensures { result ≡ rule_of self }
    {
        match self {
            Warning::DuplicateKey(_) => Rule::DuplicateKey,
            Warning::AliasInItself => Rule::AliasInItself,
            Warning::WideAlias(_) => Rule::WideAlias,
            Warning::EmptyDocument => Rule::EmptyDocument,
            Warning::TooDeep(_) => Rule::MaxDepth,
            Warning::TooManyNodes(_) => Rule::MaxNodes,
        }
    }
}

/// A warning, and what it is on.
#[derive(Clone, Copy, Debug)]
pub struct PlacedWarning {
    pub span: Span,
    pub warning: Warning,
}

/// The warnings so far, of the rules that are on.
#[derive(Drop)]
pub(crate) struct Warnings {
    pub(crate) rules: RuleSet,
    pub(crate) list: Vec<PlacedWarning>,
}

impl Warnings {
    pub(crate) fn new(alloc: Global, rules: RuleSet) -> Warnings
        ensures rules { result.rules ≡ rules }
        ensures none { result.list.items ≡ [] }
    {
        Warnings {
            rules,
            list: Vec::new(alloc),
        }
    }

    /// Keeps a warning, if its rule is on.
    pub(crate) fn warn(&mut self, span: Span, warning: Warning) -> Result<(), AllocError>
        ensures { OnOk result
            (AreTold (Some (record { span = span; warning = warning })) self.old self.new) }
    {
        if self.rules.has(warning.rule()) {
            self.list.push(PlacedWarning { span, warning })?;
        }
        Ok(())
    }

    /// Keeps a warning, if there is one and its rule is on.
    pub(crate) fn warn_if(&mut self, told: Option<PlacedWarning>) -> Result<(), AllocError>
        ensures { OnOk result (AreTold told self.old self.new) }
    {
        match told {
            Some(told) => self.warn(told.span, told.warning),
            None => Ok(()),
        }
    }
}

impl fmt::Display for Warning {
    ghost use Rattle.std.specs.Prelude.{Some};
    ghost use Rattle.yaml_check.specs.Texts.{warning_text};

    ghost output = { λ warning. Some (warning_text warning) };

    fn fmt<W: fmt::Write>(&self, f: &mut fmt::Formatter<W>) -> fmt::Result {
        match self {
            Warning::DuplicateKey(first) => write!(f, "duplicate key; first at {first}"),
            Warning::AliasInItself => write!(f, "this alias is inside the node that it repeats"),
            Warning::WideAlias(most) => write!(f, "this alias stands for more than {most} nodes"),
            Warning::EmptyDocument => write!(f, "this document has no content"),
            Warning::TooDeep(most) => write!(f, "more than {most} collections are open here"),
            Warning::TooManyNodes(most) => write!(f, "the text has more than {most} nodes"),
        }
    }
}
