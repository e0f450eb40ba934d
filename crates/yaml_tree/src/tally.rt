//! The limits on trees, and what was counted of them.
ghost use Rattle.std.specs.Prelude.{◌≡◌, ◌+◌, ◌≤◌};
ghost use Rattle.saphyr_parser.specs.Views.Events.{happening};

use crate::fault::TreeFault;
use saphyr_parser::{Event, Marker};

/// How large the trees of a text may be: how many nodes they may have in all, and how many collections may be
/// open at once. An alias counts as one node, and so does a node that is left out.
#[derive(Clone, Copy, Debug, PartialEq, Eq)]
pub struct Limits {
    pub nodes: usize,
    pub depth: usize,
}

/// How many nodes came, and how many collections are open.
#[derive(Clone, Copy)]
pub(crate) struct Tally {
    limits: Limits,
    nodes: usize,
    depth: usize,
    ghost few: { nodes ≤ limits.nodes },
    ghost shallow: { depth ≤ limits.depth },
}

impl Tally {
    ghost use Rattle.yaml_tree.specs.Counting.{no_nodes, counts_behind, with_node, with_collection};
    ghost use Rattle.yaml_tree.specs.TallySeen.{counts_of, Tallies};

    pub(crate) fn new(limits: Limits) -> Tally
        ensures limits { result.limits ≡ limits }
        ensures counts { counts_of result ≡ no_nodes }
    {
        Tally {
            limits,
            nodes: 0,
            depth: 0,
        }
    }

    // Counts an event, whose span starts here, unless a limit forbids it.
    pub(crate) fn count(&mut self, event: &Event, place: Marker) -> Result<(), TreeFault>
        ensures { Tallies result (counts_behind (happening event.now) (counts_of self.old))
            place self.old self.new }
    {
        match event {
            Event::Alias(_) => self.count_node(place),
            Event::Scalar(_, _, _, _) => self.count_node(place),
            Event::SequenceStart(_, _) => self.count_collection(place),
            Event::MappingStart(_, _) => self.count_collection(place),
            Event::SequenceEnd => {
                self.depth = self.depth.saturating_sub(1);
                Ok(())
            }
            Event::MappingEnd => {
                self.depth = self.depth.saturating_sub(1);
                Ok(())
            }
            _ => Ok(()),
        }
    }

    fn count_node(&mut self, place: Marker) -> Result<(), TreeFault>
        ensures { Tallies result (with_node (counts_of self.old)) place self.old self.new }
    {
        if self.nodes >= self.limits.nodes {
            return Err(TreeFault::TooManyNodes(place, self.limits.nodes));
        }
        self.nodes += 1;
        Ok(())
    }

    fn count_collection(&mut self, place: Marker) -> Result<(), TreeFault>
        ensures { Tallies result (with_collection (counts_of self.old)) place self.old self.new }
    {
        self.count_node(place)?;
        if self.depth >= self.limits.depth {
            return Err(TreeFault::TooDeep(place, self.limits.depth));
        }
        self.depth += 1;
        Ok(())
    }
}
