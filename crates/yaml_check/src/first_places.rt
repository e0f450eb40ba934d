//! The first place of each key of a mapping. Most mappings have few keys, and short ones, so these lie in a list.
ghost use Rattle.std.specs.Prelude.{◌≡◌, [], IfOk, IfSome, OnOk};
ghost use Rattle.yaml_check.specs.Keys as spec;
ghost use Rattle.yaml_check.specs.PlacesSeen as seen;

use saphyr_parser::{Marker, Tag};
use std::alloc::{AllocError, Global};
use std::collections::BTreeMap;

/// The text of a key, and its tag's name, which is empty if it has none.
type Key = (Vec<u8>, String);

/// The most bytes of a short text.
const SHORT: usize = 40;
/// The most keys that lie in a list.
const FEW: usize = 16;

/// A text that is short enough to lie in its place.
#[derive(Clone, Copy)]
pub(crate) struct ShortText {
    bytes: [u8; SHORT],
    len: usize,
}

impl ShortText {
    fn new(text: &str) -> Option<ShortText>
        ensures { IfSome result (λ short. seen.short_bytes short ≡ text.now) }
    {
        let len = text.len();
        if len > SHORT {
            return None;
        }
        let mut bytes = [0; SHORT];
        bytes[..len].copy_from_slice(text.as_bytes());
        Some(ShortText { bytes, len })
    }

    fn as_bytes(&self) -> &[u8]
        ensures { result.now ≡ seen.short_bytes self.now }
    {
        &self.bytes[..self.len.min(SHORT)]
    }
}

/// The first place of each key.
#[derive(Drop)]
pub(crate) struct FirstPlaces {
    alloc: Global,
    /// Of keys without a tag whose texts are short, while they are few and no other has come.
    few: Vec<(ShortText, Marker)>,
    /// Of all others.
    many: BTreeMap<Key, Marker>,
}

impl FirstPlaces {
    /// There is no key yet.
    pub(crate) fn new(alloc: Global) -> FirstPlaces
        ensures { seen.places_of result ≡ [] }
    {
        FirstPlaces {
            alloc,
            few: Vec::new(alloc),
            many: BTreeMap::new(alloc),
        }
    }

    /// Forgets all keys, and keeps the room of few.
    pub(crate) fn clear(&mut self)
        ensures { seen.places_of self.new ≡ [] }
    {
        self.few.clear();
        self.many.clear();
    }

    /// The place of an equal key before, if there is one. Otherwise the key is kept with its place.
    pub(crate) fn add(
        &mut self,
        text: &str,
        tag: &Option<Tag>,
        place: Marker,
    ) -> Result<Option<Marker>, AllocError>
        ensures { spec.AddsKey (seen.scalar_key text.now tag.now) place
            (seen.places_of self.old) result (seen.places_of self.new) }
    {
        if tag.is_none() && self.many.is_empty() && self.few.len() < FEW {
            if let Some(short) = ShortText::new(text) {
                return self.add_short(short, place);
            }
        }
        self.add_other(text, tag, place)
    }

    /// The same of a short text without a tag, where all are few.
    fn add_short(&mut self, text: ShortText, place: Marker) -> Result<Option<Marker>, AllocError>
        requires { self.old.many.entries ≡ [] }
        ensures { spec.AddsKey (seen.short_key text) place
            (seen.places_of self.old) result (seen.places_of self.new) }
    {
        let before = self.place_among_few(&text);
        if before.is_none() {
            self.few.push((text, place))?;
        }
        Ok(before)
    }

    /// The place of an equal key among few, the last of which is met first.
    fn place_among_few(&self, text: &ShortText) -> Option<Marker>
        requires { self.now.many.entries ≡ [] }
        ensures { result
            ≡ spec.first_among (seen.short_key text.now) (seen.places_of self.now) }
    {
        let mut count = self.few.len();
        while count > 0 {
            count -= 1;
            let (other, place) = &self.few[count];
            if text.as_bytes() == other.as_bytes() {
                return Some(*place);
            }
        }
        None
    }

    /// The same of any key, which is then one of many.
    // Few are, so it is a call of its own.
    #[inline(never)]
    fn add_other(
        &mut self,
        text: &str,
        tag: &Option<Tag>,
        place: Marker,
    ) -> Result<Option<Marker>, AllocError>
        ensures { spec.AddsKey (seen.scalar_key text.now tag.now) place
            (seen.places_of self.old) result (seen.places_of self.new) }
    {
        self.move_few()?;
        let key = key_of(self.alloc, text, tag)?;
        add_to(&mut self.many, key, place)
    }

    /// Moves the few to the others.
    fn move_few(&mut self) -> Result<(), AllocError>
        ensures few { OnOk result (self.new.few.items ≡ []) }
        ensures same { OnOk result (seen.places_of self.new ≡ seen.places_of self.old) }
    {
        add_all(self.alloc, &self.few, &mut self.many)?;
        self.few.clear();
        Ok(())
    }
}

/// Adds short texts, each with its place, to a map.
fn add_all(
    alloc: Global,
    few: &[(ShortText, Marker)],
    places: &mut BTreeMap<Key, Marker>,
) -> Result<(), AllocError>
    ensures { OnOk result (seen.many_of places.new.entries
        ≡ seen.with_all (seen.few_of few.now) (seen.many_of places.old.entries)) }
{
    for entry in few {
        let (text, place) = entry;
        let text = Vec::from_slice(alloc, text.as_bytes())?;
        places.insert((text, String::new(alloc)), *place)?;
    }
    Ok(())
}

/// The place of an equal key in a map, if there is one. Otherwise the key is kept there with its place.
fn add_to(
    places: &mut BTreeMap<Key, Marker>,
    key: Key,
    place: Marker,
) -> Result<Option<Marker>, AllocError>
    ensures { spec.AddsKey (seen.key_bytes key) place
        (seen.many_of places.old.entries) result (seen.many_of places.new.entries) }
{
    let before = places.get(&key).copied();
    if before.is_none() {
        places.insert(key, place)?;
        return Ok(before);
    }
    drop(key);
    Ok(before)
}

/// What identifies a scalar among the keys of a mapping, whatever its style: its text and the whole name of its
/// tag.
fn key_of(alloc: Global, text: &str, tag: &Option<Tag>) -> Result<Key, AllocError>
    ensures { IfOk result (λ key. seen.key_bytes key ≡ seen.scalar_key text.now tag.now) }
{
    let name = match tag {
        Some(tag) => format!(in alloc; "{}{}", tag.handle, tag.suffix)?,
        None => String::new(alloc),
    };
    Ok((Vec::from_slice(alloc, text.as_bytes())?, name))
}
