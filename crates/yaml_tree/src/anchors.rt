//! The node of an anchor (YAML 1.2.2, 3.2.2.2).
ghost use Rattle.std.specs.Prelude.{◌≡◌, ◌↔◌, Some, IfOk, IsTrue};
ghost use Rattle.yaml_tree.specs.Accessing.{anchor_of_node};
ghost use Rattle.yaml_tree.specs.Anchoring.{FindsAnchor};

use crate::document::Document;
use crate::node::Node;
use crate::walk::{Turn, Walk};
use std::alloc::{AllocError, Global};

impl Document {
    /// The node with this anchor, so the node that an alias names. If there are several, the first in preorder; in a
    /// tree that was loaded there is only one.
    ///
    /// An alias may be inside the node of its own anchor. So a program that replaces aliases by their nodes must bound
    /// how often it does.
    pub fn node_of_anchor(&self, alloc: Global, id: usize) -> Result<Option<&Node>, AllocError>
        ensures { IfOk result (λ found. FindsAnchor id self.now.root found) }
    {
        let mut walk = Walk::new(alloc, &self.root, &[]);
        'turns: loop {
            match walk.turn()? {
                Turn::Enter(node, _) => {
                    if has_anchor(node, id) {
                        return Ok(Some(node));
                    }
                }
                Turn::Leave => {}
                Turn::Over => return Ok(None),
            }
        }
    }
}

fn has_anchor(node: &Node, id: usize) -> bool
    ensures { IsTrue result ↔ anchor_of_node node.now ≡ Some id }
{
    match node.anchor() {
        Some(own) => own == id,
        None => false,
    }
}
