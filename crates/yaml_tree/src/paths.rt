//! Paths from a node to one inside (YAML 1.2.2, 3.2.1).
ghost use Rattle.std.specs.Prelude.{◌≡◌, option_copied};
ghost use Rattle.yaml_tree.specs.Accessing.{pairs_of_node};
ghost use Rattle.yaml_tree.specs.Following.{follow, at_step, part_at};

use crate::node::Node;

/// A step from a collection to one of its parts. Indexes count from 0, in the order of the text.
#[derive(Clone, Copy, Debug, PartialEq, Eq)]
pub enum Step {
    /// To an item of a sequence.
    Index(usize),
    /// To the key of a mapping's pair.
    Key(usize),
    /// To the value of a mapping's pair.
    Value(usize),
}

impl Node {
    /// The node at the end of a path, if the path leads to one.
    #[must_use]
    pub fn follow(&self, path: &[Step]) -> Option<&Node>
        ensures { option_copied result ≡ follow path.now self.now }
    {
        let mut node = self;
        for step in path {
            node = node.at_step(*step)?;
        }
        Some(node)
    }

    // The part to which a step leads.
    fn at_step(&self, step: Step) -> Option<&Node>
        ensures { option_copied result ≡ at_step step self.now }
    {
        match step {
            Step::Index(index) => self.items()?.get(index),
            Step::Key(index) => Some(&self.pair_at(index)?.0),
            Step::Value(index) => Some(&self.pair_at(index)?.1),
        }
    }

    // A pair of a mapping.
    fn pair_at(&self, index: usize) -> Option<&(Node, Node)>
        ensures { option_copied result ≡ part_at index (pairs_of_node self.now) }
    {
        self.pairs()?.get(index)
    }
}
