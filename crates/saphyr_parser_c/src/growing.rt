//! The next document of a text that comes in pieces, as a tree (YAML 1.2.2, 3.1.2).
//!
//! What came of it is kept from call to call, so each event is taken once.

ghost use Rattle.std.specs.Prelude.{◌≡◌, ◌↔◌, ◌<◌, IsTrue, List, [], None, Ok};
ghost use Rattle.saphyr_parser.specs.Events.{DocumentEnd};
ghost use Rattle.saphyr_parser.specs.Views.Events.{happening};
ghost use Rattle.yaml_tree.specs.declared.tally.Limits.{Limits as Most};
ghost use Rattle.yaml_tree.specs.DocumentLoading.{IsAroundDocuments};
ghost use Rattle.yaml_tree.specs.Loading.{EndNoDocument};
ghost use Rattle.yaml_tree.specs.TableSeen.{HasGrownWithin};
ghost use Rattle.yaml_tree.specs.Tables.{Event as Taken, IsEmptyTable};
ghost use Rattle.saphyr_parser.specs.Nesting.{happenings};
ghost use Rattle.saphyr_parser_c.specs.Growing as spec;
ghost use Rattle.saphyr_parser_c.specs.Inner.{handed};

use crate::inner::Inner;
use crate::shown::{CEvent, bare, blank};
use crate::source::Source;
use crate::status::Status;
use saphyr_parser::law::hands_out_what_comes;
use saphyr_parser::{Event, Fault, Marker, Progress};
use std::alloc::Global;
use std::mem;
use yaml_tree::{Grower, Limits, NodeTable, TreeFault};

/// Why there is no document: it isn't there yet, and where what came of it ends; or a fault.
#[derive(Drop)]
pub enum Stop {
    Wait(Status, Marker),
    Fault(TreeFault),
}

impl From<TreeFault> for Stop {
    ghost use Rattle.saphyr_parser_c.specs.declared.growing.Stop.TheVariants.{Fault};

    ghost from_gives = { λ fault stop. stop ≡ Fault fault };

    fn from(fault: TreeFault) -> Stop {
        Stop::Fault(fault)
    }
}

// Whether an event is around documents, or begins one.
fn is_around_documents(event: &Event<'static>) -> bool
    ensures { IsTrue result ↔ IsAroundDocuments (happening event.now) }
{
    matches!(
        event,
        Event::StreamStart | Event::DocumentStart(_) | Event::StreamEnd
    )
}

// Whether a document ends with the event.
fn ends_document(event: &Event<'static>) -> bool
    ensures { IsTrue result ↔ happening event.now ≡ DocumentEnd }
{
    matches!(event, Event::DocumentEnd)
}

impl Inner {
    /// Loads the next document of a text that comes in pieces, or as much of it as came. There are no trees before.
    pub fn load_coming(&mut self, alloc: Global, limits: Limits, out: &mut CEvent) -> Status
        ensures { spec.IsInPieces self.old.source → IsEmptyTable self.old.table
            → spec.LoadsFromPieces limits self.old result out.new self.new }
    {
        match self.next_document(alloc, limits) {
            Ok(Some(table)) => {
                self.put_table(table, out);
                Status::Loaded
            }
            Ok(None) => {
                *out = blank();
                Status::End
            }
            Err(Stop::Wait(status, place)) => {
                *out = bare(0, place, place);
                status
            }
            Err(Stop::Fault(fault)) => self.write_unloaded(alloc, fault, out),
        }
    }

    // The table of the next document, once all of it came.
    fn next_document(&mut self, alloc: Global, limits: Limits) -> Result<Option<NodeTable>, Stop>
        ensures loads { spec.LoadsSo limits result self.old self.new }
        ensures text { spec.KeepsText self.old.source self.new.source }
        ensures table { self.new.table ≡ self.old.table }
    {
        let mut grower = self.begin(alloc, limits)?;
        match self.take_events(&mut grower) {
            Ok(true) => Ok(Some(Box::into_inner(grower).into_table())),
            Ok(false) => {
                drop(grower);
                Ok(None)
            }
            Err(Stop::Wait(status, place)) => {
                self.growing = Some(grower);
                Err(Stop::Wait(status, place))
            }
            Err(Stop::Fault(fault)) => {
                drop(grower);
                Err(Stop::Fault(fault))
            }
        }
    }

    // The table that has begun, or a new one, where the parser is between documents.
    fn begin(&mut self, alloc: Global, limits: Limits) -> Result<Box<Grower, Global>, Stop>
        ensures begins { spec.Begins limits result self.old self.new }
        ensures stays { spec.PassesThese [] (spec.spot_of self.old) (spec.spot_of self.new) }
        ensures text { spec.KeepsText self.old.source self.new.source }
        ensures table { self.new.table ≡ self.old.table }
        ensures taken { self.new.growing ≡ None }
    {
        if let Some(grower) = self.growing.take() {
            return Ok(grower);
        }
        self.read_ahead()?;
        if self.is_inside() {
            return Err(Stop::Fault(TreeFault::NotFresh));
        }
        match Box::new(alloc, Grower::new(alloc, limits)) {
            Ok(grower) => Ok(grower),
            Err(_) => Err(Stop::Fault(TreeFault::OutOfMemory)),
        }
    }

    // Whether what is shown is an event inside a document.
    fn is_inside(&self) -> bool
        ensures { IsTrue result ↔ spec.ShowsInside (handed self.now) }
    {
        self.progress == Progress::Event && !is_around_documents(&self.next.0)
    }

    // Takes events up to the end of a document, and returns true; or false, if none is left.
    fn take_events(&mut self, grower: &mut Grower) -> Result<bool, Stop>
        ensures takes { (most : Most) (es : List Taken) → HasGrownWithin most es grower.old
            → EndNoDocument (happenings es) → spec.AreBetween es self.old
            → spec.TakesUpToEnd most es result (spec.spot_of self.old) self.new grower.new }
        ensures waits { spec.WaitsIf result self.new }
        ensures stays { spec.StaysAbout self.old self.new }
    {
        'events: loop {
            if let Some(ended) = self.take_next(grower)? {
                return Ok(ended);
            }
        }
    }

    // Takes what comes next. Returns true at the end of a document, false if nothing is left, and else none.
    fn take_next(&mut self, grower: &mut Grower) -> Result<Option<bool>, Stop>
        ensures takes { (most : Most) (es : List Taken) → HasGrownWithin most es grower.old
            → spec.TakesOne most es result self.old self.new grower.old grower.new }
        ensures waits { spec.WaitsIf result self.new }
        ensures stays { spec.StaysAbout self.old self.new }
        ensures less { result ≡ Ok None → spec.left_of self.new < spec.left_of self.old }
    {
        hands_out_what_comes();
        self.read_ahead()?;
        self.shown = false;
        match self.progress {
            Progress::Event => {
                grower.take(&self.next.0, self.next.1)?;
                if ends_document(&self.next.0) {
                    Ok(Some(true))
                } else {
                    Ok(None)
                }
            }
            Progress::Fault => {
                let fault = mem::replace(&mut self.fault, Fault::OutOfMemory);
                Err(Stop::Fault(TreeFault::Parse(fault)))
            }
            Progress::Over => Ok(Some(false)),
        }
    }

    // Has what comes next shown, to be handed out. An error says that it waits, and why.
    fn read_ahead(&mut self) -> Result<(), Stop>
        ensures reads { spec.ShowsNext result self.old self.new }
        ensures place { spec.PassesThese [] (spec.spot_of self.old) (spec.spot_of self.new) }
        ensures stays { spec.StaysAbout self.old self.new }
    {
        if self.shown {
            return Ok(());
        }
        let Source::Pieces(coming) = &mut self.source else {
            return Err(Stop::Wait(Status::Late, Marker::new(0, 1, 0)));
        };
        let Some(progress) = coming.next_into(&mut self.next, &mut self.fault) else {
            return Err(Stop::Wait(coming.waiting_status(), coming.last_end()));
        };
        self.progress = progress;
        self.shown = true;
        Ok(())
    }
}
