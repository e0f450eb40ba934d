//! The ids of anchors, and which of them an alias means (YAML 1.2.2, 3.2.2.2, 6.9.2 and 7.1).

ghost use Rattle.std.specs.Prelude.{◌≡◌, ℕ, Ok, Option};
ghost use Rattle.saphyr_scalar.specs.Views.Reader.{Moves};
ghost use Rattle.saphyr_machine.specs.Steps.Machine as spec;

use crate::name_list::NameList;
use crate::name_map::NameMap;
use saphyr_scalar::Stop;
use std::alloc::{AllocError, Global};
use std::marker::Model;

/// How many of the latest names an alias is compared with one by one. For more of them a map is faster.
const LATEST: usize = 8;

/// After so many names it is looked whether the next is one of them, since names that come again need no more memory.
const MANY: usize = 1 << 12;

/// The anchors of a document by their names, and the id that was given last.
///
/// Ids go on counting over all documents.
#[derive(Drop)]
pub struct Anchors {
    // The ids by the names, without those that were given since.
    ids: NameMap,
    // The names that were given ids since. Most anchors have no alias, and to put a name into the map costs most of
    // what it costs to read an anchor. So that waits for an alias that means an earlier one.
    recent: NameList,
    last: usize,
}

impl Model for Anchors {
    ghost use Rattle.saphyr_machine.specs.Steps.Machine.{Anchors as Seen};
    ghost use Rattle.saphyr_machine.specs.Names.{listed_names, mapped_ids, with_listed};

    ghost Value = { Seen };

    ghost view = { λ a. record { ids = with_listed (listed_names a.recent) (mapped_ids a.ids); last = a.last } };
}

impl Anchors {
    ghost use Rattle.std.specs.Prelude.{IfOk};
    ghost use Rattle.saphyr_scalar.specs.Views.Reader.{Moves};

    pub fn new(alloc: Global) -> Anchors
        ensures { result ≡ spec.no_anchors }
    {
        Anchors {
            ids: NameMap::new(alloc),
            recent: NameList::new(alloc),
            last: 0,
        }
    }

    /// Forgets the names.
    pub fn forget(&mut self)
        ensures { self.new ≡ spec.without_ids self.old }
    {
        self.ids.clear();
        self.recent.clear();
    }

    // Puts the names where each is kept once, if they are many and this one is among them. Memory may run out.
    #[inline(always)]
    fn put_away(&mut self, name: &str)
        ensures { self.new ≡ self.old }
    {
        let count = self.recent.len();
        if count % MANY != MANY - 1 {
            return;
        }
        let first = count.saturating_sub(MANY);
        if self.recent.latest_id(name, first).is_none() {
            return;
        }
        let _ = self.ids.take_in(&mut self.recent);
    }

    /// Gives the next id to the name, which may already have one.
    pub fn register(&mut self, name: &str) -> Result<usize, Stop>
        ensures { Moves {Y = ℕ × spec.Anchors} (λ id. (id, self.new)) result
            (Ok (spec.next_id self.old, spec.with_anchor name.now self.old)) }
    {
        self.put_away(name);
        let id = self.last.saturating_add(1);
        self.recent.push(name, id)?;
        self.last = id;
        Ok(id)
    }

    /// The id that the name has.
    pub fn id_of(&mut self, name: &str) -> Result<Option<usize>, Stop>
        ensures { Moves {Y = Option ℕ × spec.Anchors} (λ id. (id, self.new)) result
            (Ok (spec.meaning name.now self.old.ids, self.old)) }
    {
        let first = self.recent.len().saturating_sub(LATEST);
        if let Some(id) = self.recent.latest_id(name, first) {
            return Ok(Some(id));
        }
        if first > 0 {
            self.ids.take_in(&mut self.recent)?;
        }
        Ok(self.ids.id_of(name))
    }

    /// Has the copies that come share the names, as far as there is memory for that.
    pub fn share(&mut self)
        ensures { self.new ≡ self.old }
    {
        let _ = self.ids.share(&mut self.recent);
    }

    /// A copy, unless memory runs out.
    pub fn try_clone(&self) -> Result<Anchors, AllocError>
        ensures { IfOk result (λ copy. copy ≡ self.now) }
    {
        Ok(Anchors {
            ids: self.ids.try_clone()?,
            recent: self.recent.try_clone()?,
            last: self.last,
        })
    }
}
