//! Keys that occur twice in a mapping.
ghost use Rattle.std.specs.Prelude.{◌≡◌, IfOk, OnOk};
ghost use Rattle.saphyr_parser.specs.Views.Events.{happening};
ghost use Rattle.yaml_check.specs.Keys as spec;
ghost use Rattle.yaml_check.specs.PlacesSeen.{scalar_key};
ghost use Rattle.yaml_check.specs.Warned.{AreTold};

use crate::first_places::FirstPlaces;
use crate::warning::{Warning, Warnings};
use saphyr_parser::{Event, Marker, Span, Tag};
use std::alloc::{AllocError, Global};
use std::mem::replace;

/// What the next node is.
#[derive(Clone, Copy)]
pub(crate) enum Next {
    /// A root, an entry of a sequence, or none.
    Entry,
    Key,
    Value,
}

/// A mapping with its keys so far, or something else that contains nodes.
#[derive(Drop)]
pub(crate) struct Level {
    next: Next,
    places: FirstPlaces,
}

impl Level {
    ghost use Rattle.yaml_check.specs.KeysSeen as seen;

    /// One with nothing in it yet.
    fn new(alloc: Global, next: Next) -> Level
        ensures { seen.level_of result ≡ spec.new_level next }
    {
        Level {
            next,
            places: FirstPlaces::new(alloc),
        }
    }

    /// A node ends.
    fn pass(&mut self)
        ensures { seen.level_of self.new ≡ spec.behind_node (seen.level_of self.old) }
    {
        self.next = match self.next {
            Next::Key => Next::Value,
            Next::Value => Next::Key,
            Next::Entry => Next::Entry,
        };
    }
}

/// Looks for keys that occur twice in a mapping.
#[derive(Drop)]
pub(crate) struct Keys {
    alloc: Global,
    /// What the next node is in.
    here: Level,
    /// What is around that, the innermost last.
    outer: Vec<Level>,
    /// Those that have ended, whose room the next ones get.
    ended: Vec<Level>,
}

impl Keys {
    ghost use Rattle.yaml_check.specs.KeysSeen as seen;

    pub(crate) fn new(alloc: Global) -> Keys
        ensures { seen.keys_of result ≡ spec.no_keys }
    {
        Keys {
            alloc,
            here: Level::new(alloc, Next::Entry),
            outer: Vec::new(alloc),
            ended: Vec::new(alloc),
        }
    }

    /// Takes an event with its span, and warns of a key that its mapping had before.
    pub(crate) fn take(
        &mut self,
        event: &Event,
        span: &Span,
        warnings: &mut Warnings,
    ) -> Result<(), AllocError>
        ensures told { OnOk result (AreTold (spec.key_warning (seen.keys_of self.old)
            (happening event.now) span.now) warnings.old warnings.new) }
        ensures behind { OnOk result (seen.keys_of self.new
            ≡ spec.keys_behind (happening event.now) span.now (seen.keys_of self.old)) }
    {
        match event {
            Event::Scalar(text, _, _, tag) => {
                if let Some(first) = self.take_scalar(text.as_str(), tag, span.start)? {
                    warnings.warn(*span, Warning::DuplicateKey(first))?;
                }
            }
            Event::Alias(_) => self.here.pass(),
            Event::SequenceStart(..) => self.open(Next::Entry)?,
            Event::MappingStart(..) => self.open(Next::Key)?,
            Event::SequenceEnd | Event::MappingEnd => self.close()?,
            _ => {}
        }
        Ok(())
    }

    /// Takes a scalar. If it is a key that its mapping had before, tells where.
    fn take_scalar(
        &mut self,
        text: &str,
        tag: &Option<Tag>,
        place: Marker,
    ) -> Result<Option<Marker>, AllocError>
        ensures first { IfOk result (λ first. first
            ≡ spec.equal_key_place (scalar_key text.now tag.now) (seen.level_of self.old.here)) }
        ensures behind { OnOk result (seen.keys_of self.new ≡ spec.with_here
            (spec.level_behind_scalar (scalar_key text.now tag.now) place
            (seen.level_of self.old.here)) (seen.keys_of self.old)) }
    {
        let first = match self.here.next {
            Next::Key => self.here.places.add(text, tag, place)?,
            _ => None,
        };
        self.here.pass();
        Ok(first)
    }

    /// A collection begins, and the next node in it is this.
    fn open(&mut self, next: Next) -> Result<(), AllocError>
        ensures { OnOk result (seen.keys_of self.new
            ≡ spec.keys_inside next (seen.keys_of self.old)) }
    {
        let inner = match self.ended.pop() {
            Some(mut level) => {
                level.next = next;
                level.places.clear();
                level
            }
            None => Level::new(self.alloc, next),
        };
        self.outer.push(replace(&mut self.here, inner))?;
        Ok(())
    }

    /// The innermost collection ends.
    fn close(&mut self) -> Result<(), AllocError>
        ensures { OnOk result (seen.keys_of self.new
            ≡ spec.keys_outside (seen.keys_of self.old)) }
    {
        if let Some(level) = self.outer.pop() {
            self.ended.push(replace(&mut self.here, level))?;
            self.here.pass();
        }
        Ok(())
    }
}
