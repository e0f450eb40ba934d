//! The nodes of a tree one after the other, each before its parts, with the spans of their events (YAML 1.2.2, 3.1).
ghost use Rattle.std.specs.Prelude.{◌≡◌, ℕ, ◌-◌, length, option_map, OnOk, IfOk};
ghost use Rattle.yaml_tree.specs.declared.node.Node.{Node};
ghost use Rattle.yaml_tree.specs.declared.paths.Step.{Step as StepSeen};
ghost use Rattle.std.specs.Option.{option_to_list};
ghost use Rattle.std.specs.Iterator.{at_most};
ghost use Rattle.yaml_tree.specs.Unloading.{node_events};
ghost use Rattle.yaml_tree.specs.Walking.{to_visit, frames_events, Enters, Turns, Visits};
ghost use Rattle.yaml_tree.specs.Walking.{path_of, step_in, last_step, Splits, IsWalkOf, LeadDown, StandBelow, TurnsWithin};

use crate::node::Node;
use crate::paths::Step;
use saphyr_parser::Span;
use std::alloc::{AllocError, Global};

/// A node that is visited: the span of its event (of its start, if it is a collection), and how many collections are
/// around it.
#[derive(Clone, Copy)]
pub struct Visit<'a> {
    pub node: &'a Node,
    pub span: Span,
    pub depth: usize,
}

// The parts of a collection, and those of them that are still to be visited.
#[derive(Clone, Copy)]
enum Rest<'a> {
    Items(&'a [Node], &'a [Node]),
    Pairs(&'a [(Node, Node)], &'a [(Node, Node)]),
    Value(&'a Node, &'a [(Node, Node)], &'a [(Node, Node)]),
}

impl<'a> Rest<'a> {
    // The step to the part that began last.
    fn step(&self) -> Option<Step>
        ensures { option_to_list result ≡ step_in self.now }
    {
        match self {
            Rest::Items(all, left) => Some(Step::Index(last_of(all.len(), left.len())?)),
            Rest::Pairs(all, left) => Some(Step::Value(last_of(all.len(), left.len())?)),
            Rest::Value(_, all, left) => Some(Step::Key(last_of(all.len(), left.len())?)),
        }
    }

    // The part that begins next, and what is left then.
    fn next_part(self) -> Option<(&'a Node, Rest<'a>)>
        ensures { Splits self.entry result }
    {
        match self {
            Rest::Items(all, left) => match left.split_first() {
                None => None,
                Some((node, others)) => Some((node, Rest::Items(all, others))),
            },
            Rest::Pairs(all, left) => match left.split_first() {
                None => None,
                Some((pair, others)) => Some((&pair.0, Rest::Value(&pair.1, all, others))),
            },
            Rest::Value(value, all, others) => Some((value, Rest::Pairs(all, others))),
        }
    }
}

// The index of the last part before these.
fn last_of(all: usize, left: usize) -> Option<usize>
    ensures { (step : ℕ → StepSeen) → option_to_list (option_map step result)
        ≡ last_step step (all - left) }
{
    all.checked_sub(left)?.checked_sub(1)
}

// An event of a tree: a node begins, with this many collections around it; or a collection ends.
pub(crate) enum Turn<'a> {
    Enter(&'a Node, usize),
    Leave,
    Over,
}

/// A walk through a tree, from a node to each node inside: a node before its parts, and a key before its value. It goes
/// as far as its spans do, and once there was no visit, none comes any more. It needs memory for each level of the
/// tree. If there is none, a visit is `Err`, and nothing comes after it.
#[derive(Drop)]
pub struct Walk<'a> {
    root: Option<&'a Node>,
    levels: Vec<Rest<'a>>,
    spans: &'a [Span],
}

impl<'a> Walk<'a> {
    /// A walk through a tree, with the spans of its events.
    pub fn new(alloc: Global, root: &'a Node, spans: &'a [Span]) -> Walk<'a>
        ensures events { to_visit result ≡ node_events root.now }
        ensures spans { result.spans.now ≡ spans.now }
        ensures root { IsWalkOf root.now result }
    {
        Walk {
            root: Some(root),
            levels: Vec::new(alloc),
            spans,
        }
    }

    /// The path from the root to the node that was visited last. Call this right after the visit: once no visit comes
    /// any more, the path leads to no node in particular.
    pub fn path(&self, alloc: Global) -> Result<Vec<Step>, AllocError>
        ensures { IfOk result (λ path. path.items ≡ path_of self.now) }
    {
        let mut path = Vec::new(alloc);
        for level in &self.levels {
            if let Some(step) = level.step() {
                path.push(step)?;
            }
        }
        Ok(path)
    }

    // The next event of the tree.
    pub(crate) fn turn(&mut self) -> Result<Turn<'a>, AllocError>
        ensures turns { IfOk result (λ turn. Turns turn (to_visit self.old) (to_visit self.new)) }
        ensures within { IfOk result (λ turn. (root : Node) → IsWalkOf root self.old
            → TurnsWithin root turn (to_visit self.old) self.new) }
        ensures spans { self.new.spans ≡ self.old.spans }
    {
        if let Some(root) = self.root.take() {
            return self.enter(root);
        }
        match self.levels.pop() {
            None => Ok(Turn::Over),
            Some(rest) => match rest.next_part() {
                None => Ok(Turn::Leave),
                Some((node, others)) => {
                    self.levels.push(others)?;
                    self.enter(node)
                }
            },
        }
    }

    // A node begins.
    fn enter(&mut self, node: &'a Node) -> Result<Turn<'a>, AllocError>
        ensures turns { IfOk result (λ turn. Enters turn node.now
            (frames_events self.old.levels.items) (frames_events self.new.levels.items)
            (length self.old.levels.items)) }
        ensures below { OnOk result ((root : Node) → LeadDown node.now self.old.levels.items root
            → StandBelow self.new.levels.items root) }
        ensures path { OnOk result (path_of self.new ≡ path_of self.old) }
        ensures root { self.new.root ≡ self.old.root }
        ensures spans { self.new.spans ≡ self.old.spans }
    {
        let depth = self.levels.len();
        match node {
            Node::Alias(_) => Ok(Turn::Enter(node, depth)),
            Node::Scalar(_, _, _, _) => Ok(Turn::Enter(node, depth)),
            Node::Seq(_, _, nodes) => {
                let all = nodes.as_slice();
                self.levels.push(Rest::Items(all, all))?;
                Ok(Turn::Enter(node, depth))
            }
            Node::Map(_, _, pairs) => {
                let all = pairs.as_slice();
                self.levels.push(Rest::Pairs(all, all))?;
                Ok(Turn::Enter(node, depth))
            }
        }
    }
}

impl<'a> Iterator for Walk<'a> {
    type Item = Result<Visit<'a>, AllocError>;

    ghost next_gives = { Visits };

    ghost remaining = { λ w. at_most (length w.spans.now) };

    fn next(&mut self) -> Option<Result<Visit<'a>, AllocError>> {
        while let Some((span, others)) = self.spans.split_first() {
            self.spans = others;
            match self.turn() {
                Ok(Turn::Enter(node, depth)) => {
                    return Some(Ok(Visit {
                        node,
                        span: *span,
                        depth,
                    }));
                }
                Ok(Turn::Leave) => {}
                Ok(Turn::Over) => {
                    self.spans = &[];
                    return None;
                }
                Err(fault) => {
                    self.spans = &[];
                    return Some(Err(fault));
                }
            }
        }
        None
    }
}
