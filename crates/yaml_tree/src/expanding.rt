//! How many nodes a document has once its aliases are expanded (YAML 1.2.2, 7.1).
ghost use Rattle.std.specs.Prelude.{◌≡◌, ℕ, [], min, OnOk, IfOk};
ghost use Rattle.yaml_tree.specs.declared.node.Node.{Node, out-Node};
ghost use Rattle.yaml_tree.specs.Walking.{to_visit};
ghost use Rattle.yaml_tree.specs.Expanding.{most, nodes_once_expanded, no_sizes, expanded};
ghost use Rattle.yaml_tree.specs.SizesSeen.{size_in};
ghost use Rattle.yaml_tree.specs.CounterSeen.{Count, HoldsCount, IsCounting, with_nodes, begun, left, entered_layer};

use crate::document::Document;
use crate::node::Node;
use crate::sizes::SizeMap;
use crate::walk::{Turn, Walk};
use std::alloc::{AllocError, Global};
use std::mem;

/// The nodes so far, at most `u64::MAX`.
#[derive(Drop)]
pub(crate) struct Counter {
    /// Those of the innermost collection that is open, including itself.
    pub(crate) nodes: u64,
    /// How many the node of each anchor has, once it has ended.
    sizes: SizeMap,
    /// For each collection that is open, the id of its anchor and the nodes so far of what is around it.
    levels: Vec<(usize, u64)>,
}

impl Document {
    /// How many nodes the document has once each alias is replaced by a copy of the node that it stands for, or
    /// `u64::MAX` if there are more. Nothing is copied: a short text may need more nodes than memory holds.
    ///
    /// An alias inside the node that it stands for is infinite, and counts as `u64::MAX`. So does an alias before
    /// which no node has its id, which no text has. If several nodes have it, the last that ended counts.
    pub fn expanded_nodes(&self, alloc: Global) -> Result<u64, AllocError>
        ensures { IfOk result (λ nodes. nodes ≡ nodes_once_expanded self.now) }
    {
        let mut walk = Walk::new(alloc, &self.root, &[]);
        let mut counter = Counter::new(alloc);
        let counted = counter.count_all(&mut walk);
        drop((walk, counter));
        counted
    }
}

impl Counter {
    pub(crate) fn new(alloc: Global) -> Counter
        ensures { HoldsCount result (record { nodes = 0; sizes = no_sizes; levels = [] }) }
    {
        Counter {
            nodes: 0,
            sizes: SizeMap::new(alloc),
            levels: Vec::new(alloc),
        }
    }

    // The nodes of a tree, of which a walk has still to visit these.
    fn count_all(&mut self, walk: &mut Walk<'_>) -> Result<u64, AllocError>
        ensures { (root : Node) → IsCounting root (to_visit walk.old) self.old
            → IfOk result (λ nodes. nodes ≡ min most (expanded root no_sizes).nodes) }
    {
        'turns: loop {
            match walk.turn()? {
                Turn::Enter(node, _) => self.enter(node)?,
                Turn::Leave => self.leave()?,
                Turn::Over => return Ok(self.nodes),
            }
        }
    }

    // A node begins.
    fn enter(&mut self, node: &Node) -> Result<(), AllocError>
        ensures { OnOk result ((c : Count) → HoldsCount self.old c
            → HoldsCount self.new (entered_layer (out-Node node.now) c)) }
    {
        match node {
            Node::Alias(id) => self.add(0, self.size_of(*id)),
            Node::Scalar(_, _, id, _) => self.add(*id, 1),
            Node::Seq(id, _, _) => self.begin(*id),
            Node::Map(id, _, _) => self.begin(*id),
        }
    }

    // The innermost collection ends.
    pub(crate) fn leave(&mut self) -> Result<(), AllocError>
        ensures { OnOk result ((c : Count) → HoldsCount self.old c → HoldsCount self.new (left c)) }
    {
        match self.levels.pop() {
            Some((id, around)) => {
                let nodes = mem::replace(&mut self.nodes, around);
                self.add(id, nodes)
            }
            None => Ok(()),
        }
    }

    pub(crate) fn begin(&mut self, id: usize) -> Result<(), AllocError>
        ensures { OnOk result ((c : Count) → HoldsCount self.old c
            → HoldsCount self.new (begun id c)) }
    {
        self.levels.push((id, self.nodes))?;
        self.nodes = 1;
        Ok(())
    }

    // A node with this anchor ended, which has this many nodes.
    pub(crate) fn add(&mut self, id: usize, nodes: u64) -> Result<(), AllocError>
        ensures { OnOk result ((c : Count) (n : ℕ) → nodes ≡ min most n → HoldsCount self.old c
            → HoldsCount self.new (with_nodes id n c)) }
    {
        self.sizes.put(id, nodes)?;
        self.nodes = self.nodes.saturating_add(nodes);
        Ok(())
    }

    pub(crate) fn size_of(&self, id: usize) -> u64
        ensures { result ≡ size_in self.now.sizes id }
    {
        self.sizes.of(id)
    }
}
