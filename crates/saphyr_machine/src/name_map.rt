//! The ids of anchors by their names, most of them in a map that copies share.

ghost use Rattle.std.specs.Prelude.{◌≡◌, [], IfOk, OnErr, OnOk};
ghost use Rattle.saphyr_machine.specs.Names.{ids_of, laid_over, listed_names, mapped_ids, shared_ids, with_listed};
ghost use Rattle.saphyr_machine.specs.Steps.Machine as spec;

use crate::name_list::NameList;
use std::alloc::{AllocError, Global};
use std::collections::BTreeMap;
use std::sync::Arc;

/// Fewer names are copied faster than put into a map. Most documents have no more.
const FEW: usize = 64;

/// Ids by their names. A copy of it takes the time of the names that were not shared before.
#[derive(Drop)]
pub struct NameMap {
    // What copies share, if there is anything.
    shared: Option<Arc<BTreeMap<String, usize>>>,
    // What came since. A name that is here has no other meaning.
    own: BTreeMap<String, usize>,
    alloc: Global,
}

/// Puts a name into a map, or gives it another id there.
pub fn put(
    alloc: Global,
    ids: &mut BTreeMap<String, usize>,
    name: &str,
    id: usize,
) -> Result<(), AllocError>
    ensures ok { OnOk result (ids_of ids.new ≡ spec.with_meaning name.now id (ids_of ids.old)) }
    ensures err { OnErr result (ids_of ids.new ≡ ids_of ids.old) }
{
    ids.insert(String::from_str(alloc, name)?, id)?;
    Ok(())
}

// Moves the ids of a map into another. If memory runs out, those that did not come stay.
fn move_ids(
    alloc: Global,
    from: &mut BTreeMap<String, usize>,
    to: &mut BTreeMap<String, usize>,
) -> Result<(), AllocError>
    ensures same { laid_over (ids_of from.new) (ids_of to.new)
        ≡ laid_over (ids_of from.old) (ids_of to.old) }
    ensures empty { OnOk result (ids_of from.new ≡ []) }
{
    while let Some(entry) = from.last_key_value() {
        put(alloc, to, entry.0, *entry.1)?;
        drop(from.pop_last());
    }
    Ok(())
}

// Moves the ids of a map, and then those of a list, into another map. If memory runs out, those that did not come stay.
fn move_all(
    alloc: Global,
    own: &mut BTreeMap<String, usize>,
    names: &mut NameList,
    to: &mut BTreeMap<String, usize>,
) -> Result<(), AllocError>
    ensures { with_listed (listed_names names.new) (laid_over (ids_of own.new) (ids_of to.new))
        ≡ with_listed (listed_names names.old) (laid_over (ids_of own.old) (ids_of to.old)) }
{
    move_ids(alloc, own, to)?;
    names.move_into(to)
}

// The same map, if there is one.
fn copy_shared(
    shared: &Option<Arc<BTreeMap<String, usize>>>,
) -> Result<Option<Arc<BTreeMap<String, usize>>>, AllocError>
    ensures { IfOk result (λ copy. shared_ids copy ≡ shared_ids shared.now) }
{
    match shared {
        Some(shared) => Ok(Some(Arc::try_clone(shared)?)),
        None => Ok(None),
    }
}

impl NameMap {
    pub fn new(alloc: Global) -> NameMap
        ensures { mapped_ids result ≡ [] }
    {
        NameMap {
            shared: None,
            own: BTreeMap::new(alloc),
            alloc,
        }
    }

    /// Forgets all names.
    pub fn clear(&mut self)
        ensures { mapped_ids self.new ≡ [] }
    {
        self.own.clear();
        drop(self.shared.take());
    }

    /// Moves names with their ids out of a list. If memory runs out, those that did not come stay.
    pub fn take_in(&mut self, names: &mut NameList) -> Result<(), AllocError>
        ensures same { with_listed (listed_names names.new) (mapped_ids self.new)
            ≡ with_listed (listed_names names.old) (mapped_ids self.old) }
        ensures empty { OnOk result (listed_names names.new ≡ []) }
    {
        names.move_into(&mut self.own)
    }

    /// The id of a name.
    pub fn id_of(&self, name: &str) -> Option<usize>
        ensures { result ≡ spec.meaning name.now (mapped_ids self.now) }
    {
        if let Some(id) = self.own.get(name).copied() {
            return Some(id);
        }
        match &self.shared {
            Some(shared) => shared.get(name).copied(),
            None => None,
        }
    }

    // Makes an empty map to share, if there is none.
    fn begin_shared(&mut self) -> Result<(), AllocError>
        ensures { mapped_ids self.new ≡ mapped_ids self.old }
    {
        if self.shared.is_none() {
            let shared = Arc::new(self.alloc, BTreeMap::new(self.alloc))?;
            drop(self.shared.replace(shared));
        }
        Ok(())
    }

    /// Moves all names, and then those of a list, to where copies share them, unless they are few. If memory runs out,
    /// those that did not come stay.
    pub fn share(&mut self, names: &mut NameList) -> Result<(), AllocError>
        ensures { with_listed (listed_names names.new) (mapped_ids self.new)
            ≡ with_listed (listed_names names.old) (mapped_ids self.old) }
    {
        if names.len() < FEW && self.own.is_empty() {
            return Ok(());
        }
        self.begin_shared()?;
        match &mut self.shared {
            // If copies have it still, this one gets its own.
            Some(shared) => move_all(self.alloc, &mut self.own, names, Arc::make_mut(shared)?),
            None => Ok(()),
        }
    }

    /// A copy, unless memory runs out.
    pub fn try_clone(&self) -> Result<NameMap, AllocError>
        ensures { IfOk result (λ copy. mapped_ids copy ≡ mapped_ids self.now) }
    {
        let own = self.own.clone()?;
        Ok(NameMap {
            shared: copy_shared(&self.shared)?,
            own,
            alloc: self.alloc,
        })
    }
}
