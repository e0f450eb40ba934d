//! The names of anchors, one after another in one piece of memory.

ghost use Rattle.std.specs.Prelude.{◌≡◌, ◌∷◌, ◌++◌, ◌<◌, ◌≤◌, ℕ, [], length, map, slice_index_or, string_bytes, take, IfOk, OnErr, OnOk};
ghost use Rattle.std.specs.List.{All};
ghost use Rattle.std.specs.Option.{option_or};
ghost use Rattle.saphyr_machine.specs.ListedNames.{GrowsBehind, HasName, bytes_of_name, with_id};
ghost use Rattle.saphyr_machine.specs.Steps.Machine as spec;

use crate::name_map::put;
use std::alloc::{AllocError, Global};
use std::collections::BTreeMap;
use std::str;

/// Where the bytes of a name are among those of all names, how many they are, and its id.
#[derive(Clone, Copy)]
pub struct Name {
    start: usize,
    count: usize,
    id: usize,
}

/// Names with the ids that they were given, the latest last. Memory for each would cost more than all else that is done
/// for an anchor.
#[derive(Drop)]
pub struct NameList {
    bytes: Vec<u8>,
    names: Vec<Name>,
    ghost have_texts: { All (HasName bytes.items) names.items },
}

// Puts a name after the others.
#[inline(always)]
fn append(bytes: &mut Vec<u8>, name: &str, id: usize) -> Result<Name, AllocError>
    ensures grows { GrowsBehind bytes.old.items bytes.new.items }
    ensures text { IfOk result (λ n. HasName bytes.new.items n) }
    ensures name { IfOk result (λ n. with_id bytes.new.items n ≡ (name.now, id)) }
{
    let start = bytes.len();
    let count = name.len();
    bytes.extend_from_slice(name.as_bytes())?;
    Ok(Name { start, count, id })
}

impl NameList {
    ghost use Rattle.saphyr_machine.specs.Names.{ids_of, listed_names, with_listed};

    pub fn new(alloc: Global) -> NameList
        ensures { listed_names result ≡ [] }
    {
        NameList {
            bytes: Vec::new(alloc),
            names: Vec::new(alloc),
        }
    }

    /// How many names there are.
    pub fn len(&self) -> usize
        ensures { result ≡ length (listed_names self.now) }
    {
        self.names.len()
    }

    /// Forgets the names. Their memory is kept for others.
    pub fn clear(&mut self)
        ensures { listed_names self.new ≡ [] }
    {
        self.names.clear();
        self.bytes.clear();
    }

    /// Notes a name after the others.
    #[inline(always)]
    pub fn push(&mut self, name: &str, id: usize) -> Result<(), AllocError>
        ensures ok { OnOk result
            (listed_names self.new ≡ listed_names self.old ++ (name.now, id) ∷ []) }
        ensures err { OnErr result (listed_names self.new ≡ listed_names self.old) }
    {
        self.names.reserve(1)?;
        let noted = append(&mut self.bytes, name, id)?;
        self.names.push_reserved(noted);
        Ok(())
    }

    // The text of one of the names.
    #[inline(always)]
    fn text(&self, name: Name) -> &str
        requires { HasName self.now.bytes.items name }
        ensures { result.now ≡ bytes_of_name self.now.bytes.items name }
    {
        let bytes = &self.bytes[name.start..name.start + name.count];
        // What was noted is a text.
        unsafe { str::from_utf8_unchecked(bytes) }
    }

    /// The id that the name was given last, if it is among those after the first ones, of which there are this many. An
    /// alias often means the anchor right before it.
    pub fn latest_id(&self, name: &str, first: usize) -> Option<usize>
        requires { first ≤ length (listed_names self.now) }
        ensures { (names : spec.Names ℕ)
            → spec.meaning name.now (with_listed (listed_names self.now) names)
            ≡ option_or result
            (spec.meaning name.now (with_listed (take first (listed_names self.now)) names)) }
    {
        let mut left = self.names.len();
        while left > first {
            left -= 1;
            let other = self.names[left];
            if name == self.text(other) {
                return Some(other.id);
            }
        }
        None
    }

    // Puts the names with their ids into a map, in their order, until memory runs out. Returns how many it put.
    fn put_into(&self, ids: &mut BTreeMap<String, usize>) -> usize
        ensures bound { result ≤ length self.now.names.items }
        ensures put { ids_of ids.new
            ≡ with_listed (map (with_id self.now.bytes.items) (take result self.now.names.items))
            (ids_of ids.old) }
    {
        let alloc = *self.bytes.allocator();
        let mut next = 0;
        while next < self.names.len() {
            let name = self.names[next];
            let Ok(()) = put(alloc, ids, self.text(name), name.id) else {
                return next;
            };
            next += 1;
        }
        next
    }

    /// Moves the names with their ids into a map, in their order. Where memory runs out, the others stay.
    pub fn move_into(&mut self, ids: &mut BTreeMap<String, usize>) -> Result<(), AllocError>
        ensures same { with_listed (listed_names self.new) (ids_of ids.new)
            ≡ with_listed (listed_names self.old) (ids_of ids.old) }
        ensures empty { OnOk result (listed_names self.new ≡ []) }
    {
        let moved = self.put_into(ids);
        let left = self.names.len() - moved;
        if left > 0 {
            self.names.rotate_left(moved);
            self.names.truncate(left);
            return Err(AllocError);
        }
        self.clear();
        Ok(())
    }

    /// A copy, unless memory runs out.
    pub fn try_clone(&self) -> Result<NameList, AllocError>
        ensures { IfOk result (λ copy. listed_names copy ≡ listed_names self.now) }
    {
        Ok(NameList {
            bytes: self.bytes.clone()?,
            names: self.names.clone()?,
        })
    }
}
