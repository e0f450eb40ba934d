//! Aliases that stand for many nodes.
ghost use Rattle.std.specs.Prelude.{◌≡◌, OnOk};
ghost use Rattle.saphyr_parser.specs.Views.Events.{happening};
ghost use Rattle.yaml_check.specs.Sizes as spec;
ghost use Rattle.yaml_check.specs.Warned.{AreTold};

use crate::warning::{Warning, Warnings};
use saphyr_parser::{Event, Span};
use std::alloc::{AllocError, Global};
use std::collections::BTreeMap;

/// How many nodes an alias may stand for without a warning.
const WIDE: usize = 1_000_000;

/// A collection, or something else that contains nodes.
#[derive(Clone, Copy)]
pub(crate) struct Size {
    /// The id of its anchor, or 0 if it has none.
    anchor: usize,
    /// How many nodes it has so far, including those that aliases stand for.
    nodes: usize,
}

/// Looks for aliases that stand for many nodes.
#[derive(Drop)]
pub(crate) struct Sizes {
    /// What the next node is in.
    here: Size,
    /// What is around that, the innermost last.
    outer: Vec<Size>,
    /// How many nodes the node of each anchor stands for, once it has ended.
    known: BTreeMap<usize, usize>,
}

impl Sizes {
    ghost use Rattle.yaml_check.specs.SizesSeen as seen;

    pub(crate) fn new(alloc: Global) -> Sizes
        ensures { seen.sizes_of result ≡ spec.no_open_sizes }
    {
        Sizes {
            here: Size {
                anchor: 0,
                nodes: 0,
            },
            outer: Vec::new(alloc),
            known: BTreeMap::new(alloc),
        }
    }

    /// How many collections are open.
    pub(crate) fn depth(&self) -> usize
        ensures { result ≡ spec.open_collections (seen.sizes_of self.now) }
    {
        self.outer.len()
    }

    /// Takes an event with its span, and warns of an alias that stands for many nodes.
    pub(crate) fn take(
        &mut self,
        event: &Event,
        span: &Span,
        warnings: &mut Warnings,
    ) -> Result<(), AllocError>
        ensures told { OnOk result (AreTold (spec.alias_warning (seen.sizes_of self.old)
            (happening event.now) span.now) warnings.old warnings.new) }
        ensures behind { OnOk result (seen.sizes_of self.new
            ≡ spec.sizes_behind (happening event.now) (seen.sizes_of self.old)) }
    {
        match event {
            Event::Alias(id) => self.take_alias(*id, span, warnings),
            Event::Scalar(_, _, id, _) => self.end_node(*id, 1),
            Event::SequenceStart(id, _) | Event::MappingStart(id, _) => self.open(*id),
            Event::SequenceEnd | Event::MappingEnd => self.close(),
            _ => Ok(()),
        }
    }

    /// Takes an alias. An alias inside the node that it stands for is infinite.
    fn take_alias(
        &mut self,
        id: usize,
        span: &Span,
        warnings: &mut Warnings,
    ) -> Result<(), AllocError>
        ensures told { OnOk result (AreTold
            (spec.size_warning (spec.ended_size id (seen.sizes_of self.old)) span.now)
            warnings.old warnings.new) }
        ensures behind { OnOk result (seen.sizes_of self.new ≡ spec.with_more_nodes
            (spec.size_at id (seen.sizes_of self.old)) (seen.sizes_of self.old)) }
    {
        let ended = self.known.get(&id).copied();
        let nodes = ended.unwrap_or(usize::MAX);
        self.here.nodes = self.here.nodes.saturating_add(nodes);
        match ended {
            None => warnings.warn(*span, Warning::AliasInItself),
            Some(nodes) if nodes > WIDE => warnings.warn(*span, Warning::WideAlias(WIDE)),
            Some(_) => Ok(()),
        }
    }

    /// Counts a node that has ended and stands for this many.
    #[inline(always)]
    fn end_node(&mut self, id: usize, nodes: usize) -> Result<(), AllocError>
        ensures { OnOk result (seen.sizes_of self.new
            ≡ spec.with_ended_node id nodes (seen.sizes_of self.old)) }
    {
        if id > 0 {
            self.keep(id, nodes)?;
        }
        self.here.nodes = self.here.nodes.saturating_add(nodes);
        Ok(())
    }

    /// Keeps for how many nodes the node of an anchor stands.
    // Few nodes have one, so it is a call of its own.
    #[inline(never)]
    fn keep(&mut self, id: usize, nodes: usize) -> Result<(), AllocError>
        ensures { OnOk result (seen.sizes_of self.new
            ≡ spec.with_known_size id nodes (seen.sizes_of self.old)) }
    {
        self.known.insert(id, nodes)?;
        Ok(())
    }

    /// A collection with this anchor begins.
    fn open(&mut self, anchor: usize) -> Result<(), AllocError>
        ensures { OnOk result (seen.sizes_of self.new
            ≡ spec.sizes_inside anchor (seen.sizes_of self.old)) }
    {
        self.outer.push(self.here)?;
        self.here = Size { anchor, nodes: 0 };
        Ok(())
    }

    /// The innermost collection ends.
    fn close(&mut self) -> Result<(), AllocError>
        ensures { OnOk result (seen.sizes_of self.new
            ≡ spec.sizes_outside (seen.sizes_of self.old)) }
    {
        let Some(outer) = self.outer.pop() else {
            return Ok(());
        };
        let ended = self.here;
        self.here = outer;
        self.end_node(ended.anchor, ended.nodes.saturating_add(1))
    }
}
