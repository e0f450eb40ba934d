//! The trees of a parser's text, for C: the calls that load them, and that tell what their nodes are.

ghost use Rattle.std.specs.Prelude.{◌≡◌, IsUtf8};
ghost use Rattle.yaml_tree.specs.declared.paths.Step.TheVariants as steps;
ghost use Rattle.yaml_tree.specs.declared.tally.Limits.{Limits as Most};
ghost use Rattle.saphyr_parser_c.specs.Growing.{LoadsNext};
ghost use Rattle.saphyr_parser_c.specs.Trees as spec;

use crate::following::{follow, get_by_bytes};
use crate::handle::Handle;
use crate::nodes::{number_of, write_entry};
use crate::shown::{CEvent, blank};
use crate::status::Status;
use crate::{put_back, take};
use std::alloc::Global;
use yaml_tree::{Limits, Step};

/// Loads all documents of a parser that has handed out nothing, with so many nodes in all and so many collections open
/// at once. What was loaded before is freed.
#[unsafe(no_mangle)]
pub extern "C" fn saphyr_load(
    alloc: Global,
    parser: &mut Handle,
    nodes: usize,
    depth: usize,
    event: &mut CEvent,
) -> i32
    ensures { spec.LoadsTrees (record { nodes = nodes; depth = depth }) parser.old.value result
        event.new parser.new.value }
{
    match take(alloc, parser) {
        Some(mut inner) => {
            let code = inner.load(alloc, Limits { nodes, depth }, event).code();
            put_back(parser, inner);
            code
        }
        None => {
            *event = blank();
            Status::NoParser.code()
        }
    }
}

/// Loads the next document of a parser that is before the stream or between documents, with so many nodes and so many
/// collections open at once. What was loaded before is freed. Of a text that comes in pieces, the next call goes on
/// where a document isn't all there yet.
#[unsafe(no_mangle)]
pub extern "C" fn saphyr_load_next(
    alloc: Global,
    parser: &mut Handle,
    nodes: usize,
    depth: usize,
    event: &mut CEvent,
) -> i32
    ensures { LoadsNext (record { nodes = nodes; depth = depth }) parser.old.value result
        event.new parser.new.value }
{
    match take(alloc, parser) {
        Some(mut inner) => {
            let limits = Limits { nodes, depth };
            let code = inner.load_next(alloc, limits, event).code();
            put_back(parser, inner);
            code
        }
        None => {
            *event = blank();
            Status::NoParser.code()
        }
    }
}

/// The root of a document, by its index.
#[unsafe(no_mangle)]
pub extern "C" fn saphyr_root(alloc: Global, parser: &mut Handle, index: usize) -> usize
    ensures { spec.Asks (spec.TellsRoot index result) (spec.IsNowhere result)
        parser.old.value parser.new.value }
{
    let Some(inner) = take(alloc, parser) else {
        return usize::MAX;
    };
    let root = inner.table.root(index);
    put_back(parser, inner);
    match root {
        Some(root) => root.number,
        None => usize::MAX,
    }
}

/// How many nodes a document has once each alias is a copy of its node.
#[unsafe(no_mangle)]
pub extern "C" fn saphyr_expanded(alloc: Global, parser: &mut Handle, index: usize) -> u64
    ensures { spec.Asks (spec.Expands index result) (result ≡ 0)
        parser.old.value parser.new.value }
{
    let Some(inner) = take(alloc, parser) else {
        return 0;
    };
    let root = inner.table.root(index);
    put_back(parser, inner);
    match root {
        Some(root) => root.expanded,
        None => 0,
    }
}

/// Writes what a node is, as the event with which it begins, and its whole place.
#[unsafe(no_mangle)]
pub extern "C" fn saphyr_describe(
    alloc: Global,
    parser: &mut Handle,
    node: usize,
    event: &mut CEvent,
) -> i32
    ensures { spec.WritesAt node parser.old.value result event.new parser.new.value }
{
    let Some(inner) = take(alloc, parser) else {
        *event = blank();
        return Status::NoParser.code();
    };
    let status = inner.write_node(node, event);
    put_back(parser, inner);
    status.code()
}

/// How many items a sequence has, or how many pairs a mapping.
#[unsafe(no_mangle)]
pub extern "C" fn saphyr_count(alloc: Global, parser: &mut Handle, node: usize) -> usize
    ensures { spec.Asks (spec.CountsAt node result) (result ≡ 0) parser.old.value
        parser.new.value }
{
    let Some(inner) = take(alloc, parser) else {
        return 0;
    };
    let count = inner.table.count(node);
    put_back(parser, inner);
    count
}

/// An item of a sequence.
#[unsafe(no_mangle)]
pub extern "C" fn saphyr_item(
    alloc: Global,
    parser: &mut Handle,
    node: usize,
    index: usize,
) -> usize
    ensures { spec.Asks (spec.LeadsToPart node (steps.Index index) result) (spec.IsNowhere result)
        parser.old.value parser.new.value }
{
    part(alloc, parser, node, Step::Index(index))
}

/// The key of a mapping's pair.
#[unsafe(no_mangle)]
pub extern "C" fn saphyr_key(alloc: Global, parser: &mut Handle, node: usize, index: usize) -> usize
    ensures { spec.Asks (spec.LeadsToPart node (steps.Key index) result) (spec.IsNowhere result)
        parser.old.value parser.new.value }
{
    part(alloc, parser, node, Step::Key(index))
}

/// The value of a mapping's pair.
#[unsafe(no_mangle)]
pub extern "C" fn saphyr_value(
    alloc: Global,
    parser: &mut Handle,
    node: usize,
    index: usize,
) -> usize
    ensures { spec.Asks (spec.LeadsToPart node (steps.Value index) result) (spec.IsNowhere result)
        parser.old.value parser.new.value }
{
    part(alloc, parser, node, Step::Value(index))
}

// The part to which a step leads.
fn part(alloc: Global, parser: &mut Handle, node: usize, step: Step) -> usize
    ensures { spec.Asks (spec.LeadsToPart node step result) (spec.IsNowhere result)
        parser.old.value parser.new.value }
{
    let Some(inner) = take(alloc, parser) else {
        return usize::MAX;
    };
    let part = inner.table.part(node, step);
    put_back(parser, inner);
    number_of(part)
}

/// The value in a mapping whose key is a scalar with this text. An alias stands for the node that it names.
#[unsafe(no_mangle)]
pub extern "C" fn saphyr_get(alloc: Global, parser: &mut Handle, node: usize, key: &[u8]) -> usize
    ensures { spec.Asks (spec.Gets node key.now result) (spec.IsNowhere result)
        parser.old.value parser.new.value }
{
    let Some(inner) = take(alloc, parser) else {
        return usize::MAX;
    };
    let value = get_by_bytes(&inner.table, node, key);
    put_back(parser, inner);
    number_of(value)
}

/// The node that an alias names, and any other node itself.
#[unsafe(no_mangle)]
pub extern "C" fn saphyr_follow(alloc: Global, parser: &mut Handle, node: usize) -> usize
    ensures { spec.Asks (spec.LeadsOn node result) (spec.IsNowhere result)
        parser.old.value parser.new.value }
{
    let Some(inner) = take(alloc, parser) else {
        return usize::MAX;
    };
    let followed = follow(&inner.table, node);
    put_back(parser, inner);
    number_of(followed)
}

/// The node with this anchor.
#[unsafe(no_mangle)]
pub extern "C" fn saphyr_anchored(alloc: Global, parser: &mut Handle, id: usize) -> usize
    ensures { spec.Asks (spec.Finds id result) (spec.IsNowhere result)
        parser.old.value parser.new.value }
{
    let Some(inner) = take(alloc, parser) else {
        return usize::MAX;
    };
    let node = inner.table.with_anchor(id);
    put_back(parser, inner);
    number_of(node)
}
