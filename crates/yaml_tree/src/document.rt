//! Documents (YAML 1.2.2, 3.2).

use crate::node::Node;

/// A document: whether a `---` begins it, and its node.
#[derive(Debug, PartialEq, Eq, Drop)]
pub struct Document {
    pub explicit: bool,
    pub root: Node,
}
