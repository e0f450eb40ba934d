//! Tables of documents, right from the events of a parser (YAML 1.2.2, 3.1.2).
ghost use Rattle.std.specs.Prelude.{◌≡◌, [], ◌∷◌, ◌++◌, List, OnOk};
ghost use Rattle.saphyr_parser.specs.Cursor.{to_come};
ghost use Rattle.saphyr_parser.specs.Events.{DocumentEnd};
ghost use Rattle.saphyr_parser.specs.Views.Events.{happening};
ghost use Rattle.yaml_tree.specs.DocumentSeen.{LeavesPart};
ghost use Rattle.yaml_tree.specs.DocumentLoading.{ComesBetweenDocuments, LeavesBehindDocument, LeavesBehindLook};
ghost use Rattle.yaml_tree.specs.GrowerSeen.{HasNoneOpen};
ghost use Rattle.yaml_tree.specs.Leaving.{LeavesParser};
ghost use Rattle.yaml_tree.specs.TableLoading.{LoadsTable, LoadsNextTable};
ghost use Rattle.yaml_tree.specs.Tables.{Event as Given, IsTable};

use crate::document_loading::{Place, find_place};
use crate::fault::TreeFault;
use crate::growing::Growth;
use crate::loading::{is_at_start, is_last};
use crate::table::NodeTable;
use crate::tally::{Limits, Tally};
use saphyr_parser::law::hands_out_what_comes;
use saphyr_parser::{Event, Fault, Input, Parser, Progress, Span, no_event};
use std::alloc::Global;

/// Loads all documents of a text as `load_documents` does, as one list of nodes.
///
/// Numbers in a table have 32 bits. A text with places, or with texts in all, that these can't tell gives
/// `OutOfMemory`.
pub fn load_table<'input, T: Input>(
    alloc: Global,
    parser: &mut Parser<'input, T>,
    limits: Limits,
) -> Result<NodeTable, TreeFault>
    ensures loads { LoadsTable limits result (to_come parser.old) (to_come parser.new) }
    ensures leaves { LeavesParser result parser.old parser.new }
{
    if !is_at_start(parser) {
        return Err(TreeFault::NotFresh);
    }
    let mut grower = Grower::new(alloc, limits);
    match grower.take_events(parser, true) {
        Ok(_) => grower.finish(),
        Err(fault) => {
            drop(grower);
            Err(fault)
        }
    }
}

/// Loads the next document as `load_document` does, as one list of nodes. After the last one it returns `Ok(None)`.
pub fn load_next_table<'input, T: Input>(
    alloc: Global,
    parser: &mut Parser<'input, T>,
    limits: Limits,
) -> Result<Option<NodeTable>, TreeFault>
    ensures loads { LoadsNextTable limits result (to_come parser.old) (to_come parser.new) }
    ensures leaves { LeavesBehindDocument result parser.old parser.new }
{
    match find_place(parser) {
        Place::BeforeStream => next_table(alloc, parser, limits),
        Place::Between => next_table(alloc, parser, limits),
        Place::Inside => Err(TreeFault::NotFresh),
    }
}

// Loads the next document of a parser that is not inside one.
fn next_table<'input, T: Input>(
    alloc: Global,
    parser: &mut Parser<'input, T>,
    limits: Limits,
) -> Result<Option<NodeTable>, TreeFault>
    ensures loads { ComesBetweenDocuments (to_come parser.old)
        → LoadsNextTable limits result (to_come parser.old) (to_come parser.new) }
    ensures leaves { ComesBetweenDocuments (to_come parser.old)
        → LeavesBehindLook result parser.old parser.new }
{
    let mut grower = Grower::new(alloc, limits);
    match grower.take_events(parser, false) {
        Ok(true) => Ok(Some(grower.growth.table)),
        Ok(false) => {
            drop(grower);
            Ok(None)
        }
        Err(fault) => {
            drop(grower);
            Err(fault)
        }
    }
}

/// A table that grows by one event after the other, within limits.
///
/// It is for a caller whose events don't come from a `Parser`, or not all at once.
#[derive(Drop)]
pub struct Grower {
    tally: Tally,
    growth: Growth,
}

impl Grower {
    ghost use Rattle.yaml_tree.specs.TableSeen.{FinishesTable, HasGrownWithin, GrowsByEvents, GrowsByLast};

    /// A table of no events.
    pub fn new(alloc: Global, limits: Limits) -> Grower
        ensures { HasGrownWithin limits [] result }
    {
        let tally = Tally::new(limits);
        let growth = Growth::new(alloc);
        Grower { tally, growth }
    }

    // Takes all events, or those up to the end of a document. Returns whether a document ended there.
    fn take_events<'input, T: Input>(
        &mut self,
        parser: &mut Parser<'input, T>,
        all: bool,
    ) -> Result<bool, TreeFault>
        ensures takes { (limits : Limits) → HasGrownWithin limits [] self.old
            → GrowsByEvents all limits result (to_come parser.old) (to_come parser.new) self.new }
        ensures leaves { (limits : Limits) → HasGrownWithin limits [] self.old
            → LeavesPart result parser.old parser.new }
    {
        hands_out_what_comes();
        let mut next = no_event();
        let mut fault = Fault::OutOfMemory;
        'events: loop {
            match parser.next_event_into(&mut next, &mut fault) {
                Progress::Event => {
                    self.take(&next.0, next.1)?;
                    if is_last(&next.0, all) {
                        return Ok(true);
                    }
                }
                Progress::Fault => return Err(TreeFault::Parse(fault)),
                Progress::Over => return Ok(false),
            }
        }
    }

    /// Takes an event with its span. Checks the limits first. After a fault no more may be taken.
    #[inline(always)]
    pub fn take(&mut self, event: &Event, span: Span) -> Result<(), TreeFault>
        ensures takes { (limits : Limits) (es : List Given) → HasGrownWithin limits es self.old
            → GrowsByLast result limits (es ++ (happening event.now, span) ∷ []) span.start self.new }
        ensures ends { happening event.now ≡ DocumentEnd
            → OnOk result (HasNoneOpen self.new.growth) }
    {
        self.tally.count(event, span.start)?;
        match self.growth.add(event, span) {
            Ok(()) => Ok(()),
            Err(_) => Err(TreeFault::OutOfMemory),
        }
    }

    /// The table of the events, behind the end of a document.
    pub fn into_table(self) -> NodeTable
        ensures { (limits : Limits) (es : List Given) → HasGrownWithin limits es self
            → HasNoneOpen self.growth → IsTable es result }
    {
        self.growth.table
    }

    // The table of all events, of which none is still to come. Those of a text leave no document open.
    fn finish(self) -> Result<NodeTable, TreeFault>
        ensures { (limits : Limits) (es : List Given) → HasGrownWithin limits es self
            → FinishesTable es result }
    {
        if self.growth.is_between() {
            Ok(self.growth.table)
        } else {
            drop(self);
            Err(TreeFault::OutOfMemory)
        }
    }
}
