//! What a node is made of (YAML 1.2.2, 3.2.1): its kind, its text and style, its tag, its anchor, and its parts.
ghost use Rattle.std.specs.Prelude.{◌≡◌, option_copied};
ghost use Rattle.yaml_tree.specs.Accessing.{is_alias_node, is_scalar_node, is_sequence_node, is_mapping_node};
ghost use Rattle.yaml_tree.specs.Accessing.{text_of_node, style_of_node, tag_of_node, anchor_of_node, alias_of_node};
ghost use Rattle.yaml_tree.specs.Accessing.{items_of_node, pairs_of_node, first_value, is_this_text, value_at_key, some_anchor};

use crate::node::Node;
use saphyr_parser::{ScalarStyle, Tag};

impl Node {
    /// Whether this is an alias.
    #[must_use]
    pub fn is_alias(&self) -> bool
        ensures { result ≡ is_alias_node self.now }
    {
        matches!(self, Node::Alias(_))
    }

    /// Whether this is a scalar.
    #[must_use]
    pub fn is_scalar(&self) -> bool
        ensures { result ≡ is_scalar_node self.now }
    {
        matches!(self, Node::Scalar(_, _, _, _))
    }

    /// Whether this is a sequence.
    #[must_use]
    pub fn is_sequence(&self) -> bool
        ensures { result ≡ is_sequence_node self.now }
    {
        matches!(self, Node::Seq(_, _, _))
    }

    /// Whether this is a mapping.
    #[must_use]
    pub fn is_mapping(&self) -> bool
        ensures { result ≡ is_mapping_node self.now }
    {
        matches!(self, Node::Map(_, _, _))
    }

    /// The text of a scalar.
    #[must_use]
    pub fn as_str(&self) -> Option<&str>
        ensures { option_copied result ≡ text_of_node self.now }
    {
        match self {
            Node::Scalar(text, _, _, _) => Some(text.as_str()),
            _ => None,
        }
    }

    /// How a scalar is written. A plain scalar may be a number or another value, and a quoted one is a text.
    #[must_use]
    pub fn style(&self) -> Option<ScalarStyle>
        ensures { result ≡ style_of_node self.now }
    {
        match self {
            Node::Scalar(_, style, _, _) => Some(*style),
            _ => None,
        }
    }

    /// The tag of a node that has one.
    #[must_use]
    pub fn tag(&self) -> Option<&Tag>
        ensures { option_copied result ≡ tag_of_node self.now }
    {
        match self {
            Node::Alias(_) => None,
            Node::Scalar(_, _, _, tag) => tag.as_ref(),
            Node::Seq(_, tag, _) => tag.as_ref(),
            Node::Map(_, tag, _) => tag.as_ref(),
        }
    }

    /// The id of a node's anchor. An alias has none of its own: `as_alias` gives the id of the anchor that it
    /// names.
    #[must_use]
    pub fn anchor(&self) -> Option<usize>
        ensures { result ≡ anchor_of_node self.now }
    {
        match self {
            Node::Alias(_) => None,
            Node::Scalar(_, _, id, _) => anchor_of_id(*id),
            Node::Seq(id, _, _) => anchor_of_id(*id),
            Node::Map(id, _, _) => anchor_of_id(*id),
        }
    }

    /// The id of the anchor that an alias names.
    #[must_use]
    pub fn as_alias(&self) -> Option<usize>
        ensures { result ≡ alias_of_node self.now }
    {
        match self {
            Node::Alias(id) => Some(*id),
            _ => None,
        }
    }

    /// The nodes of a sequence.
    #[must_use]
    pub fn items(&self) -> Option<&[Node]>
        ensures { option_copied result ≡ items_of_node self.now }
    {
        match self {
            Node::Seq(_, _, nodes) => Some(nodes.as_slice()),
            _ => None,
        }
    }

    /// The pairs of a mapping, each a key and its value.
    #[must_use]
    pub fn pairs(&self) -> Option<&[(Node, Node)]>
        ensures { option_copied result ≡ pairs_of_node self.now }
    {
        match self {
            Node::Map(_, _, pairs) => Some(pairs.as_slice()),
            _ => None,
        }
    }

    /// The value in a mapping whose key is a scalar with this text, whatever its style and tag. If there are
    /// several, the first.
    #[must_use]
    pub fn get(&self, key: &str) -> Option<&Node>
        ensures { option_copied result ≡ value_at_key key.now self.now }
    {
        value_of(self.pairs()?, key)
    }
}

// The id, unless it is 0.
pub(crate) fn anchor_of_id(id: usize) -> Option<usize>
    ensures { result ≡ some_anchor id }
{
    if id == 0 { None } else { Some(id) }
}

// The value of the first pair whose key is a scalar with this text.
fn value_of<'a>(pairs: &'a [(Node, Node)], key: &str) -> Option<&'a Node>
    ensures { option_copied result ≡ first_value key.now pairs.now }
{
    for pair in pairs {
        if has_text(&pair.0, key) {
            return Some(&pair.1);
        }
    }
    None
}

// Whether this is a scalar with this text.
fn has_text(node: &Node, text: &str) -> bool
    ensures { result ≡ is_this_text text.now (text_of_node node.now) }
{
    match node.as_str() {
        Some(own) => own == text,
        None => false,
    }
}
