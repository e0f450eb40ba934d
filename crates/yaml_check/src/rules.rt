//! The rules that warn: their names, and which of them are on.
ghost use Rattle.std.specs.Prelude.{◌≡◌, IfSome};
ghost use Rattle.yaml_check.specs.Rules as spec;

/// A rule that warns.
#[derive(Clone, Copy, Debug)]
pub enum Rule {
    AliasInItself,
    DuplicateKey,
    EmptyDocument,
    MaxDepth,
    MaxNodes,
    WideAlias,
}

impl Rule {
    #[must_use]
    pub fn name(self) -> &'static str
        ensures { result.now ≡ spec.warning_name self }
    {
        match self {
            Rule::AliasInItself => "alias-in-itself",
            Rule::DuplicateKey => "duplicate-key",
            Rule::EmptyDocument => "empty-document",
            Rule::MaxDepth => "max-depth",
            Rule::MaxNodes => "max-nodes",
            Rule::WideAlias => "wide-alias",
        }
    }

    /// The rule of this name.
    #[must_use]
    pub fn named(name: &str) -> Option<Rule>
        ensures { IfSome result (λ rule. spec.warning_name rule ≡ name.now) }
    {
        match name {
            "alias-in-itself" => Some(Rule::AliasInItself),
            "duplicate-key" => Some(Rule::DuplicateKey),
            "empty-document" => Some(Rule::EmptyDocument),
            "max-depth" => Some(Rule::MaxDepth),
            "max-nodes" => Some(Rule::MaxNodes),
            "wide-alias" => Some(Rule::WideAlias),
            _ => None,
        }
    }
}

/// Which rules are on.
#[derive(Clone, Copy, Debug)]
pub struct RuleSet {
    pub alias_in_itself: bool,
    pub duplicate_key: bool,
    pub empty_document: bool,
    pub max_depth: bool,
    pub max_nodes: bool,
    pub wide_alias: bool,
}

impl RuleSet {
    pub const ALL: RuleSet = RuleSet {
        alias_in_itself: true,
        duplicate_key: true,
        empty_document: true,
        max_depth: true,
        max_nodes: true,
        wide_alias: true,
    };

    /// Whether a rule is on.
    #[must_use]
    pub fn has(&self, rule: Rule) -> bool
        ensures { result ≡ spec.is_on self.now rule }
    {
        match rule {
            Rule::AliasInItself => self.alias_in_itself,
            Rule::DuplicateKey => self.duplicate_key,
            Rule::EmptyDocument => self.empty_document,
            Rule::MaxDepth => self.max_depth,
            Rule::MaxNodes => self.max_nodes,
            Rule::WideAlias => self.wide_alias,
        }
    }

    /// Turns a rule off.
    pub fn disable(&mut self, rule: Rule)
        ensures { self.new ≡ spec.without self.old rule }
    {
        match rule {
            Rule::AliasInItself => self.alias_in_itself = false,
            Rule::DuplicateKey => self.duplicate_key = false,
            Rule::EmptyDocument => self.empty_document = false,
            Rule::MaxDepth => self.max_depth = false,
            Rule::MaxNodes => self.max_nodes = false,
            Rule::WideAlias => self.wide_alias = false,
        }
    }
}
