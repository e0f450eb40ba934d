//! The memory of texts that are no longer needed, for the next ones.

ghost use Rattle.std.specs.Prelude.{◌≡◌, [], IfOk, OnOk, string_bytes};

use crate::scalar::tag::TagParts;
use std::alloc::{AllocError, Global};
use std::mem::replace;

/// How many bytes a scalar's text has room for at first. Most scalars need no more, and a smaller
/// piece of memory costs as much.
const FIRST_ROOM: usize = 24;

/// How much room a text may have whose memory is kept. A longer one is rare, and its memory would be held for
/// short ones up to the end of the input.
const MOST_ROOM: usize = 4096;

/// The memory of texts that are no longer needed, if there are any.
///
/// To take memory and give it back costs more than to read a short text. What is kept here has no influence on the
/// texts that are read.
#[derive(Drop)]
pub struct Spare {
    // For a scalar or the name of an anchor or an alias.
    text: Option<String>,
    // For the two texts of a tag.
    handle: Option<String>,
    suffix: Option<String>,
}

// Whether the memory of a text is kept: it has not little room, and not very much.
#[inline(always)]
fn is_kept(text: &String) -> bool {
    let room = text.capacity();
    FIRST_ROOM <= room && room <= MOST_ROOM
}

// An empty text, in the memory that is kept or in new memory.
#[inline(always)]
fn begin_in(kept: &mut Option<String>, alloc: Global) -> Result<String, AllocError>
    ensures { IfOk result (λ text. string_bytes text ≡ []) }
{
    if let Some(mut text) = kept.take() {
        text.clear();
        return Ok(text);
    }
    String::with_capacity(alloc, FIRST_ROOM)
}

impl Spare {
    /// No memory.
    pub fn new() -> Self {
        Spare {
            text: None,
            handle: None,
            suffix: None,
        }
    }

    /// Keeps the memory of a text for the next one, unless that has little room or very much.
    #[inline(always)]
    pub fn keep(&mut self, text: String) {
        if is_kept(&text) {
            self.text = Some(text);
        }
    }

    /// Keeps the memory of the texts of a tag for the next one in the same way.
    #[inline(always)]
    pub fn keep_tag(&mut self, tag: TagParts) {
        let TagParts { handle, suffix } = tag;
        if is_kept(&handle) {
            self.handle = Some(handle);
        }
        if is_kept(&suffix) {
            self.suffix = Some(suffix);
        }
    }

    /// An empty text, in the memory that is kept or in new memory.
    #[inline(always)]
    pub fn begin(&mut self, alloc: Global) -> Result<String, AllocError>
        ensures { IfOk result (λ text. string_bytes text ≡ []) }
    {
        begin_in(&mut self.text, alloc)
    }

    /// Empties a text for the next one. Memory that isn't kept is changed for other.
    #[inline(always)]
    pub fn begin_again(&mut self, text: &mut String, alloc: Global) -> Result<(), AllocError>
        ensures { OnOk result (string_bytes text.new ≡ []) }
    {
        if is_kept(text) {
            text.clear();
            return Ok(());
        }
        drop(replace(text, self.begin(alloc)?));
        Ok(())
    }

    /// A tag of empty texts, in the memory that is kept or in new memory.
    pub fn begin_tag(&mut self, alloc: Global) -> Result<TagParts, AllocError>
        ensures handle { IfOk result (λ tag. string_bytes tag.handle ≡ []) }
        ensures suffix { IfOk result (λ tag. string_bytes tag.suffix ≡ []) }
    {
        let handle = begin_in(&mut self.handle, alloc)?;
        match begin_in(&mut self.suffix, alloc) {
            Ok(suffix) => Ok(TagParts { handle, suffix }),
            Err(e) => {
                drop(handle);
                Err(e)
            }
        }
    }
}
